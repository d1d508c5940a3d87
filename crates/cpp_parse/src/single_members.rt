//! Members that begin with their type: data members, functions and their bodies: C++14 9.2.

ghost use Rattle.std.specs.Prelude.{◌≡◌, ◌≤◌, ℕ, not, length, Some, None, Ok, OnOk, OnErr};
ghost use Rattle.cpp_ast.specs.declared.kinds.NodeKind.TheVariants.{EqualInitializer, MemberDeclarator};
ghost use Rattle.cpp_syntax.specs.Terminals.{semicolon};
ghost use Rattle.cpp_syntax.specs.Derivations.{Read, reads_node, positioned};
ghost use Rattle.cpp_syntax.specs.Rules.{at_name, ◌∣◌, form, node, optional, word, listed_member};
ghost use Rattle.cpp_syntax.specs.Types.{is_not_zero};
ghost use Rattle.cpp_syntax.specs.View.{BuilderState, appended, IsMark};
ghost use Rattle.cpp_syntax.specs.Parsed.{ParsesLongest, ParsesAlways, ReadsLongest, Leaves};
ghost use Rattle.cpp_parse.specs.Alternatives.{single_declaration, initialized_declaration, listed_declaration, more_members, member_function};
ghost use Rattle.cpp_parse.specs.Alternatives.{optional_attribute, optional_virtual, pure_specifier, value, value_but_zero};
ghost use Rattle.cpp_parse.specs.MemberHeads.{IsHead, IsTyped, ValuesSeen};

use crate::specifiers::{declared_token, node_from, optional_inline, virt_specifiers};
use crate::statements::compound_statement;
use cpp_ast::NodeKind;
use cpp_parse_expr::declarators::declarator;
use cpp_parse_expr::expressions::assignment_expression;
use cpp_parse_expr::types::type_specifier_seq;
use cpp_syntax::read::{leaf, node, node_at_name};
use cpp_syntax::{Builder, Checkpoint, Naming, Terminal, TypeNames};
use std::alloc::AllocError;

/// What was read of a member: what stands before its type, its type and its first declarator.
#[derive(Clone, Copy, Debug, PartialEq, Eq)]
pub struct MemberHead {
    /// The index at which the member begins.
    pub at: usize,
    /// What was read before it.
    pub start: Checkpoint,
    /// The index behind its type.
    pub named: usize,
    /// What was read before the declarator.
    pub first: Checkpoint,
    /// The token of the name that the declarator declares.
    pub name: Option<u32>,
    /// The index behind the declarator.
    pub behind: usize,
}

/// The index behind a semicolon, if one stands at an index.
pub fn semicolon_end(text: &TypeNames, at: usize) -> usize
    requires here { at ≤ length text.now.terminals }
    ensures { (old : BuilderState) → ParsesAlways text.now (optional (word semicolon)) at None old old (Ok result) }
{
    if text.is_at(at, Terminal::Semicolon) {
        return at + 1;
    }
    at
}

/// What follows what stands before `inline` of a member that is a function with its body.
pub fn inline_function(
    text: &TypeNames,
    at: usize,
    start: Checkpoint,
    changed: usize,
    depth_left: u32,
    out: &mut Builder,
) -> Result<Option<usize>, AllocError>
    requires here { at ≤ length text.now.terminals }
    requires behind { changed ≤ length text.now.terminals }
    ensures { (before first : BuilderState) (after : ℕ) → IsMark start before → ReadsLongest text.now optional_attribute at after None before first
        → ReadsLongest text.now optional_virtual after changed None first out.old
        → ParsesLongest text.now member_function at None before out.new result }
{
    let typed = optional_inline(text, changed, out)?;
    let Some(named) = type_specifier_seq(text, typed, depth_left, out)? else {
        return Ok(None);
    };
    let Some(end) = declarator(text, named, Naming::Named, depth_left, out)? else {
        return Ok(None);
    };
    let body = virt_specifiers(text, end, out)?;
    let Some(next) = compound_statement(text, body, depth_left, out)? else {
        return Ok(None);
    };
    node_from(text, at, NodeKind::FunctionDefinition, start, out)?;
    Ok(Some(semicolon_end(text, next)))
}

/// What follows the head of a member that is a function with its body, or one member, which may be a pure function.
pub fn function_or_single(
    text: &TypeNames,
    head: MemberHead,
    depth_left: u32,
    out: &mut Builder,
) -> Result<Option<usize>, AllocError>
    requires here { head.at ≤ length text.now.terminals }
    requires behind { head.behind ≤ length text.now.terminals }
    ensures { (before : BuilderState) → IsHead text.now head before out.old
        → ParsesLongest text.now (single_declaration ∣ member_function) head.at None before out.new result }
{
    let end = virt_specifiers(text, head.behind, out)?;
    if text.is_at(end, Terminal::OpenBrace) {
        let Some(next) = compound_statement(text, end, depth_left, out)? else {
            return Ok(None);
        };
        node_from(text, head.at, NodeKind::FunctionDefinition, head.start, out)?;
        return Ok(Some(semicolon_end(text, next)));
    }
    let last = optional_pure(text, end, out)?;
    member_node(text, head, out)?;
    expect!(text.is_at(last, Terminal::Semicolon), out);
    node_from(text, head.at, NodeKind::MemberDeclaration, head.start, out)?;
    Ok(Some(last + 1))
}

/// What follows the head of data members: an initializer, further members, or both.
pub fn data_members(
    text: &TypeNames,
    head: MemberHead,
    depth_left: u32,
    out: &mut Builder,
) -> Result<Option<usize>, AllocError>
    requires here { head.at ≤ length text.now.terminals }
    requires behind { head.behind ≤ length text.now.terminals }
    ensures { (before : BuilderState) → IsMark head.start before → IsTyped text.now head head.at before out.old
        → ParsesLongest text.now (initialized_declaration ∣ listed_declaration) head.at None before out.new result }
{
    if !text.is_at(head.behind, Terminal::Equal) {
        return several_members(text, head, head.behind, depth_left, out);
    }
    let mark = out.checkpoint();
    let first = head.behind + 1;
    let Some(next) = assignment_expression(text, first, depth_left, out)? else {
        return Ok(None);
    };
    node(
        text,
        head.behind,
        NodeKind::EqualInitializer,
        Some(head.behind as u32),
        mark,
        out,
    )?;
    if text.is_at(next, Terminal::Comma) {
        return several_members(text, head, next, depth_left, out);
    }
    if is_zero_alone(text, first, next) {
        out.expected_at(next);
        return Ok(None);
    }
    initialized_member(text, head, next, out)
}

/// The node of the declarator of a head and of what was read behind it.
fn member_node(text: &TypeNames, head: MemberHead, out: &mut Builder) -> Result<(), AllocError>
    ensures read { OnOk result ((before : BuilderState) (got : Read) → IsMark head.first before → out.old ≡ appended before got
        → out.new ≡ appended before (reads_node MemberDeclarator (positioned at_name text.now head.named head.name got.trees) head.name got)) }
    ensures memory { OnErr result (out.new ≡ out.old) }
{
    node_at_name(
        text,
        head.named,
        NodeKind::MemberDeclarator,
        head.name,
        head.first,
        out,
    )
}

/// What follows the head and the initializer of one member.
fn initialized_member(
    text: &TypeNames,
    head: MemberHead,
    at: usize,
    out: &mut Builder,
) -> Result<Option<usize>, AllocError>
    requires here { head.at ≤ length text.now.terminals }
    ensures { (before between : BuilderState) → IsMark head.start before → IsTyped text.now head head.at before between
        → ReadsLongest text.now (node EqualInitializer value_but_zero) head.behind at None between out.old
        → ParsesLongest text.now initialized_declaration head.at None before out.new result }
{
    member_node(text, head, out)?;
    expect!(text.is_at(at, Terminal::Semicolon), out);
    node_from(text, head.at, NodeKind::MemberDeclaration, head.start, out)?;
    Ok(Some(at + 1))
}

/// What follows the head and the initializer, if there is one, of the first of several members.
fn several_members(
    text: &TypeNames,
    head: MemberHead,
    at: usize,
    depth_left: u32,
    out: &mut Builder,
) -> Result<Option<usize>, AllocError>
    requires here { head.at ≤ length text.now.terminals }
    requires behind { at ≤ length text.now.terminals }
    ensures { (before between : BuilderState) → IsMark head.start before → IsTyped text.now head head.at before between
        → ReadsLongest text.now (optional (node EqualInitializer value)) head.behind at None between out.old
        → ParsesLongest text.now listed_declaration head.at None before out.new result }
{
    member_node(text, head, out)?;
    let Some(end) = more_members(text, at, depth_left, out)? else {
        return Ok(None);
    };
    expect!(text.is_at(end, Terminal::Semicolon), out);
    node_from(text, head.at, NodeKind::MemberDeclaration, head.start, out)?;
    Ok(Some(end + 1))
}

/// Members with a comma before each, one or more.
fn more_members(
    text: &TypeNames,
    at: usize,
    depth_left: u32,
    out: &mut Builder,
) -> Result<Option<usize>, AllocError>
    requires here { at ≤ length text.now.terminals }
    ensures { ParsesLongest text.now more_members at None out.old out.new result }
{
    expect!(text.is_at(at, Terminal::Comma), out);
    let Some(first) = listed_member(text, at + 1, depth_left, out)? else {
        return Ok(None);
    };
    let mut next = first;
    'items: while text.is_at(next, Terminal::Comma) {
        let mark = out.checkpoint();
        let Some(behind) = listed_member(text, next + 1, depth_left, out)? else {
            out.cut(mark);
            return Ok(Some(next));
        };
        next = behind;
    }
    Ok(Some(next))
}

/// `= 0`, or nothing.
fn optional_pure(text: &TypeNames, at: usize, out: &mut Builder) -> Result<usize, AllocError>
    requires here { at ≤ length text.now.terminals }
    ensures { ParsesAlways text.now (optional pure_specifier) at None out.old out.new result }
{
    if !text.is_at(at, Terminal::Equal) {
        return Ok(at);
    }
    let zero = at + 1;
    if !text.is_at(zero, Terminal::Zero) {
        return Ok(at);
    }
    let start = out.checkpoint();
    let next = leaf(text, zero, NodeKind::IntegerLiteral, out)?;
    node(
        text,
        at,
        NodeKind::PureSpecifier,
        Some(at as u32),
        start,
        out,
    )?;
    Ok(next)
}

/// Whether `0` stands alone between two indices.
fn is_zero_alone(text: &TypeNames, at: usize, end: usize) -> bool
    requires here { at ≤ length text.now.terminals }
    ensures { not result ≡ is_not_zero text.now at end }
{
    text.is_at(at, Terminal::Zero) && end == at + 1
}

/// The declarator of one of several members.
fn listed_member(
    text: &TypeNames,
    at: usize,
    depth_left: u32,
    out: &mut Builder,
) -> Result<Option<usize>, AllocError>
    requires here { at ≤ length text.now.terminals }
    ensures { ParsesLongest text.now (form listed_member) at None out.old out.new result }
{
    let start = out.checkpoint();
    let Some(behind) = declarator(text, at, Naming::Named, depth_left, out)? else {
        return Ok(None);
    };
    let name = declared_token(start, out);
    let next = optional_value(text, behind, depth_left, out)?;
    node_at_name(text, at, NodeKind::MemberDeclarator, name, start, out)?;
    Ok(Some(next))
}

/// `=` and an initializer, or nothing.
fn optional_value(
    text: &TypeNames,
    at: usize,
    depth_left: u32,
    out: &mut Builder,
) -> Result<usize, AllocError>
    requires here { at ≤ length text.now.terminals }
    ensures { ParsesAlways text.now (optional (node EqualInitializer value)) at None out.old out.new result }
{
    let mark = out.checkpoint();
    let Some(next) = equal_initializer(text, at, depth_left, out)? else {
        out.cut(mark);
        return Ok(at);
    };
    Ok(next)
}

/// `=` and an initializer.
fn equal_initializer(
    text: &TypeNames,
    at: usize,
    depth_left: u32,
    out: &mut Builder,
) -> Result<Option<usize>, AllocError>
    requires here { at ≤ length text.now.terminals }
    ensures { ParsesLongest text.now (node EqualInitializer value) at None out.old out.new result }
{
    expect!(text.is_at(at, Terminal::Equal), out);
    let start = out.checkpoint();
    let Some(next) = assignment_expression(text, at + 1, depth_left, out)? else {
        return Ok(None);
    };
    node(
        text,
        at,
        NodeKind::EqualInitializer,
        Some(at as u32),
        start,
        out,
    )?;
    Ok(Some(next))
}

/// Whether members with initializers or several members have their first declarator before an index: `,` stands there, or `=` without
/// `0` and `;` behind it.
pub fn begins_values(text: &TypeNames, at: usize) -> bool
    ensures { ValuesSeen text.now at result }
{
    if text.is_at(at, Terminal::Comma) {
        return true;
    }
    if !text.is_at(at, Terminal::Equal) {
        return false;
    }
    let zero = at + 1;
    if !text.is_at(zero, Terminal::Zero) {
        return true;
    }
    let end = zero + 1;
    if !text.is_at(end, Terminal::Semicolon) {
        return true;
    }
    false
}

/// Where an initializer stands behind a declarator that can have none, notes how far it reads, so that a fault stands where that breaks
/// off.
pub fn note_values(
    text: &TypeNames,
    at: usize,
    depth_left: u32,
    out: &mut Builder,
) -> Result<(), AllocError>
    requires here { at ≤ length text.now.terminals }
    ensures same { OnOk result (out.new ≡ out.old) }
    ensures leaves { Leaves out.old out.new }
{
    if !begins_values(text, at) {
        return Ok(());
    }
    let mark = out.checkpoint();
    equal_initializer(text, at, depth_left, out)?;
    out.cut(mark);
    Ok(())
}
