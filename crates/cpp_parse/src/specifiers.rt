//! What stands before the type of a declaration, and the names and positions of its node: C++14 7.1 and 7.6.

ghost use Rattle.std.specs.Prelude.{◌≡◌, ◌≤◌, OnOk, OnErr, false, length, Some, None, option_map};
ghost use Rattle.cpp_ast.specs.declared.kinds.NodeKind.TheVariants.{FunctionDeclarator};
ghost use Rattle.cpp_syntax.specs.Source.{terminal_at, position_at};
ghost use Rattle.cpp_syntax.specs.Derivations.{Read, reads_node, positioned, position_of_first, token_of_name, declared_in};
ghost use Rattle.cpp_syntax.specs.Rules.{at_name, form, declaration_head, many, optional};
ghost use Rattle.cpp_syntax.specs.Grammar.{virt_specifiers};
ghost use Rattle.cpp_syntax.specs.View.{BuilderState, appended, is_lambda, IsMark};
ghost use Rattle.cpp_syntax.specs.Parsed.{ParsesLongest, ParsesAlways};
ghost use Rattle.cpp_parse.specs.Alternatives.{specifiers, optional_attribute, optional_inline, optional_virtual, optional_explicit};
ghost use Rattle.cpp_parse.specs.Answers.{AttributeFound, Reaches};

use crate::terminals::{is_specifier_at, is_virt_at};
use cpp_ast::NodeKind;
use cpp_parse_expr::types::type_specifier_seq;
use cpp_syntax::read::{leaf, node_at_name, wrap};
use cpp_syntax::{Builder, Checkpoint, Terminal, TypeNames};
use std::alloc::AllocError;

/// A node of the trees that were read since the start, which has its position where its token is.
pub fn node_at_token(
    text: &TypeNames,
    kind: NodeKind,
    token: u32,
    start: Checkpoint,
    out: &mut Builder,
) -> Result<(), AllocError>
    requires { is_lambda kind ≡ false }
    ensures read { OnOk result ((before : BuilderState) (got : Read) → IsMark start before → out.old ≡ appended before got
        → out.new ≡ appended before (reads_node kind (position_at text.now token) (Some token) got)) }
    ensures memory { OnErr result (out.new ≡ out.old) }
{
    out.node(
        start.trees,
        kind,
        text.position(token as usize),
        Some(token),
    )
}

/// A node of the trees that were read since the start, which has its first token as its own, and its position where the
/// name begins that its kids declare.
pub fn node_from(
    text: &TypeNames,
    at: usize,
    kind: NodeKind,
    start: Checkpoint,
    out: &mut Builder,
) -> Result<(), AllocError>
    requires here { at ≤ length text.now.terminals }
    requires kind { is_lambda kind ≡ false }
    ensures read { OnOk result ((before : BuilderState) (got : Read) → IsMark start before → out.old ≡ appended before got
        → out.new ≡ appended before (reads_node kind (positioned at_name text.now at (Some at) got.trees) (Some at) got)) }
    ensures memory { OnErr result (out.new ≡ out.old) }
{
    // There are few tokens, so each has a number.
    let _count = text.len();
    node_at_name(text, at, kind, Some(at as u32), start, out)
}

/// A declarator of a function, of the name that was read since the start and the parameters from an index on.
pub fn wrap_parameters(
    text: &TypeNames,
    at: usize,
    start: Checkpoint,
    out: &mut Builder,
) -> Result<(), AllocError>
    requires here { at ≤ length text.now.terminals }
    ensures read { OnOk result ((before : BuilderState) (got : Read) → IsMark start before → out.old ≡ appended before got
        → out.new ≡ appended before (reads_node FunctionDeclarator (position_of_first text.now at got.trees) (Some at) got)) }
    ensures memory { OnErr result (out.new ≡ out.old) }
{
    // There are few tokens, so each has a number.
    let _count = text.len();
    wrap(
        text,
        at,
        NodeKind::FunctionDeclarator,
        at as u32,
        start,
        out,
    )
}

/// The token of the name that is declared by what was read since the start.
pub fn declared_token(start: Checkpoint, out: &Builder) -> Option<u32>
    ensures { (before : BuilderState) (got : Read) → IsMark start before → out.now ≡ appended before got → result ≡ token_of_name (declared_in got.trees) }
{
    match out.declared(start.trees) {
        Some(name) => Some(name.token),
        None => None,
    }
}

/// The index behind `[[optimize_for_synchronized]]` at an index.
fn behind_attribute(text: &TypeNames, at: usize) -> Option<usize>
    ensures { AttributeFound text.now at result }
{
    if !text.is_at(at, Terminal::OpenBracket) {
        return None;
    }
    let inner = at + 1;
    if !text.is_at(inner, Terminal::OpenBracket) {
        return None;
    }
    let name = inner + 1;
    if !text.is_at(name, Terminal::OptimizeForSynchronized) {
        return None;
    }
    let close = name + 1;
    if !text.is_at(close, Terminal::CloseBracket) {
        return None;
    }
    let last = close + 1;
    if !text.is_at(last, Terminal::CloseBracket) {
        return None;
    }
    Some(last + 1)
}

/// The index behind an attribute, if one stands at an index.
pub fn attribute_end(text: &TypeNames, at: usize) -> usize
    requires here { at ≤ length text.now.terminals }
    ensures { Reaches text.now optional_attribute at result }
{
    match behind_attribute(text, at) {
        Some(next) => next,
        None => at,
    }
}

/// An attribute, or nothing.
pub fn optional_attribute(
    text: &TypeNames,
    at: usize,
    out: &mut Builder,
) -> Result<usize, AllocError>
    requires here { at ≤ length text.now.terminals }
    ensures { ParsesAlways text.now optional_attribute at None out.old out.new result }
{
    let Some(next) = behind_attribute(text, at) else {
        return Ok(at);
    };
    out.leaf(
        NodeKind::Attribute,
        text.position(at),
        Some((at + 2) as u32),
    )?;
    Ok(next)
}

/// `inline`, or nothing.
pub fn optional_inline(text: &TypeNames, at: usize, out: &mut Builder) -> Result<usize, AllocError>
    requires here { at ≤ length text.now.terminals }
    ensures { ParsesAlways text.now optional_inline at None out.old out.new result }
{
    if !text.is_at(at, Terminal::Inline) {
        return Ok(at);
    }
    leaf(text, at, NodeKind::DeclSpecifier, out)
}

/// `virtual`, or nothing.
pub fn optional_virtual(text: &TypeNames, at: usize, out: &mut Builder) -> Result<usize, AllocError>
    requires here { at ≤ length text.now.terminals }
    ensures { ParsesAlways text.now optional_virtual at None out.old out.new result }
{
    if !text.is_at(at, Terminal::Virtual) {
        return Ok(at);
    }
    leaf(text, at, NodeKind::DeclSpecifier, out)
}

/// `explicit`, or nothing.
pub fn optional_explicit(
    text: &TypeNames,
    at: usize,
    out: &mut Builder,
) -> Result<usize, AllocError>
    requires here { at ≤ length text.now.terminals }
    ensures { ParsesAlways text.now optional_explicit at None out.old out.new result }
{
    if !text.is_at(at, Terminal::Explicit) {
        return Ok(at);
    }
    leaf(text, at, NodeKind::DeclSpecifier, out)
}

/// Any number of `static`, `extern` and `inline`.
fn specifiers(text: &TypeNames, at: usize, out: &mut Builder) -> Result<usize, AllocError>
    requires here { at ≤ length text.now.terminals }
    ensures { ParsesAlways text.now specifiers at None out.old out.new result }
{
    let mut next = at;
    'words: while is_specifier_at(text, next) {
        next = leaf(text, next, NodeKind::DeclSpecifier, out)?;
    }
    Ok(next)
}

/// Any number of `override` and `final`.
pub fn virt_specifiers(text: &TypeNames, at: usize, out: &mut Builder) -> Result<usize, AllocError>
    requires here { at ≤ length text.now.terminals }
    ensures { ParsesAlways text.now virt_specifiers at None out.old out.new result }
{
    let mut next = at;
    'words: while is_virt_at(text, next) {
        next = leaf(text, next, NodeKind::VirtSpecifier, out)?;
    }
    Ok(next)
}

/// What stands before the declarators of a declaration: an attribute, specifiers and a type.
pub fn declaration_head(
    text: &TypeNames,
    at: usize,
    depth_left: u32,
    out: &mut Builder,
) -> Result<Option<usize>, AllocError>
    requires here { at ≤ length text.now.terminals }
    ensures { ParsesLongest text.now (form declaration_head) at None out.old out.new result }
{
    let behind = optional_attribute(text, at, out)?;
    let typed = specifiers(text, behind, out)?;
    type_specifier_seq(text, typed, depth_left, out)
}
