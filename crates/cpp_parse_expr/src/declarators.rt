//! Declarators, types with declarators that name nothing, and parameters: C++14 clause 8.

ghost use Rattle.std.specs.Prelude.{◌≡◌, ◌≤◌, true, length, Some, None};
ghost use Rattle.cpp_ast.specs.declared.kinds.NodeKind.TheVariants.{CvQualifier};
ghost use Rattle.cpp_syntax.specs.Source.{terminal_at};
ghost use Rattle.cpp_syntax.specs.Terminals.{star, amp, open_bracket, const_word};
ghost use Rattle.cpp_syntax.specs.Names.{naming_of};
ghost use Rattle.cpp_syntax.specs.Rules.{◌·◌, form, many, optional, whole, type_id, declarator, direct_declarator, conditional_expression};
ghost use Rattle.cpp_syntax.specs.Rules.{function_qualifiers, parameter_declaration_clause, parameter_declaration};
ghost use Rattle.cpp_syntax.specs.Grammar.{leaf, omitted_id, array_suffix, pointer_declarator, reference_declarator, declarator_head, declarator_id};
ghost use Rattle.cpp_syntax.specs.Grammar.{parenthesized_declarator, array_bound, tx_qualifier, noexcept_specification, parameter_list, parameters_behind};
ghost use Rattle.cpp_syntax.specs.Grammar.{suffix};
ghost use Rattle.cpp_syntax.specs.Parsed.{ParsesLongest, ParsesAlways, ParsesAlwaysBehind};
ghost use Rattle.cpp_syntax.specs.declared.limits.TheConstants.{MAX_TOKENS};

use crate::expressions::conditional_expression;
use crate::types::{cv_qualifiers, type_name, type_specifier_seq};
use cpp_ast::NodeKind;
use cpp_syntax::read::{leaf, node, node_at_name, wrap};
use cpp_syntax::shapes::descend;
use cpp_syntax::{Builder, Checkpoint, Naming, Terminal, TypeNames};
use std::alloc::AllocError;

/// A type with a declarator that names nothing.
#[cycle(expressions)]
pub fn type_id(
    text: &TypeNames,
    at: usize,
    depth_left: u32,
    out: &mut Builder,
) -> Result<Option<usize>, AllocError>
    requires here { at ≤ length text.now.terminals }
    ensures { ParsesLongest text.now (form (type_id whole)) at None out.old out.new result }
{
    let start = out.checkpoint();
    let Some(behind) = type_specifier_seq(text, at, depth_left, out)? else {
        return Ok(None);
    };
    let Some(next) = declarator(text, behind, Naming::Unnamed, depth_left, out)? else {
        return Ok(None);
    };
    node(text, at, NodeKind::TypeId, None, start, out)?;
    Ok(Some(next))
}

/// A declarator.
#[cycle(expressions)]
pub fn declarator(
    text: &TypeNames,
    at: usize,
    naming: Naming,
    depth_left: u32,
    out: &mut Builder,
) -> Result<Option<usize>, AllocError>
    requires here { at ≤ length text.now.terminals }
    ensures { ParsesLongest text.now (form (declarator whole (naming_of naming))) at None out.old out.new result }
{
    if text.is_at(at, Terminal::Star) {
        return pointer_declarator(text, at, naming, depth_left, out);
    }
    if text.is_at(at, Terminal::Amp) {
        return reference_declarator(text, at, naming, depth_left, out);
    }
    direct_declarator(text, at, naming, depth_left, out)
}

/// `* d`, with `const` and `volatile` behind the `*`.
#[cycle(expressions)]
fn pointer_declarator(
    text: &TypeNames,
    at: usize,
    naming: Naming,
    depth_left: u32,
    out: &mut Builder,
) -> Result<Option<usize>, AllocError>
    requires here { at ≤ length text.now.terminals }
    requires begins { star (terminal_at text.now at) ≡ true }
    requires few { length text.now.terminals ≤ MAX_TOKENS }
    ensures { ParsesLongest text.now (pointer_declarator whole (naming_of naming)) at None out.old out.new result }
{
    let start = out.checkpoint();
    let behind = cv_qualifiers(text, at + 1, out)?;
    let Some(next) = declarator(text, behind, naming, descend(depth_left)?, out)? else {
        return Ok(None);
    };
    node(
        text,
        at,
        NodeKind::PointerDeclarator,
        Some(at as u32),
        start,
        out,
    )?;
    Ok(Some(next))
}

/// `& d`.
#[cycle(expressions)]
fn reference_declarator(
    text: &TypeNames,
    at: usize,
    naming: Naming,
    depth_left: u32,
    out: &mut Builder,
) -> Result<Option<usize>, AllocError>
    requires here { at ≤ length text.now.terminals }
    requires begins { amp (terminal_at text.now at) ≡ true }
    requires few { length text.now.terminals ≤ MAX_TOKENS }
    ensures { ParsesLongest text.now (reference_declarator whole (naming_of naming)) at None out.old out.new result }
{
    let start = out.checkpoint();
    let Some(next) = declarator(text, at + 1, naming, descend(depth_left)?, out)? else {
        return Ok(None);
    };
    node(
        text,
        at,
        NodeKind::ReferenceDeclarator,
        Some(at as u32),
        start,
        out,
    )?;
    Ok(Some(next))
}

/// A declarator without `*` and `&` before it.
#[cycle(expressions)]
fn direct_declarator(
    text: &TypeNames,
    at: usize,
    naming: Naming,
    depth_left: u32,
    out: &mut Builder,
) -> Result<Option<usize>, AllocError>
    requires here { at ≤ length text.now.terminals }
    ensures { ParsesLongest text.now (form (direct_declarator whole (naming_of naming))) at None out.old out.new result }
{
    if naming.is_in_block() && text.begins_name(at) {
        return name_in_block(text, at, naming, depth_left, out);
    }
    let start = out.checkpoint();
    if let Some(behind) = declarator_head(text, at, naming, depth_left, out)? {
        return Ok(Some(suffixes(text, behind, naming, depth_left, start, out)?));
    }
    out.cut(start);
    if !naming.may_be_unnamed() {
        return Ok(None);
    }
    Ok(Some(omitted_declarator(text, at, naming, depth_left, out)?))
}

/// A declared name in a block, behind which parameters do not follow at once.
#[cycle(expressions)]
fn name_in_block(
    text: &TypeNames,
    at: usize,
    naming: Naming,
    depth_left: u32,
    out: &mut Builder,
) -> Result<Option<usize>, AllocError>
    requires here { at ≤ length text.now.terminals }
    ensures { ParsesLongest text.now (declarator_id · optional (array_suffix whole · many (suffix whole (naming_of naming)))) at None out.old out.new result }
{
    let start = out.checkpoint();
    let Some(behind) = declarator_id(text, at, out)? else {
        return Ok(None);
    };
    if !text.is_at(behind, Terminal::OpenBracket) {
        note_parameters(text, behind, out);
        return Ok(Some(behind));
    }
    Ok(Some(suffixes(text, behind, naming, depth_left, start, out)?))
}

/// Where parameters follow a declared name in a block, notes that they cannot end there: no function is declared in one.
fn note_parameters(text: &TypeNames, at: usize, out: &mut Builder)
    ensures { out.new ≡ out.old }
{
    if !text.lookahead_parameters(at) {
        return;
    }
    if let Some(close) = text.partner(at) {
        out.expected_at(close);
    }
}

/// A declarator without a name and without parentheses.
#[cycle(expressions)]
fn omitted_declarator(
    text: &TypeNames,
    at: usize,
    naming: Naming,
    depth_left: u32,
    out: &mut Builder,
) -> Result<usize, AllocError>
    requires here { at ≤ length text.now.terminals }
    ensures { ParsesAlways text.now (omitted_id · many (suffix whole (naming_of naming))) at None out.old out.new result }
{
    let start = out.checkpoint();
    out.leaf(NodeKind::OmittedId, text.position(at), None)?;
    suffixes(text, at, naming, depth_left, start, out)
}

/// A declared name, or a declarator in parentheses.
#[cycle(expressions)]
fn declarator_head(
    text: &TypeNames,
    at: usize,
    naming: Naming,
    depth_left: u32,
    out: &mut Builder,
) -> Result<Option<usize>, AllocError>
    requires here { at ≤ length text.now.terminals }
    ensures { ParsesLongest text.now (declarator_head whole (naming_of naming)) at None out.old out.new result }
{
    if naming.may_be_named() && text.begins_name(at) {
        return declarator_id(text, at, out);
    }
    parenthesized_declarator(text, at, naming, depth_left, out)
}

/// `N` or `T::N`.
fn declarator_id(
    text: &TypeNames,
    at: usize,
    out: &mut Builder,
) -> Result<Option<usize>, AllocError>
    requires here { at ≤ length text.now.terminals }
    ensures { ParsesLongest text.now declarator_id at None out.old out.new result }
{
    if text.is_name_at(at) {
        return Ok(Some(leaf(text, at, NodeKind::DeclaratorId, out)?));
    }
    expect!(text.is_at(at, Terminal::TypeName), out);
    expect!(text.is_at(at + 1, Terminal::ColonColon), out);
    expect!(text.is_name_at(at + 2), out);
    let start = out.checkpoint();
    type_name(text, at, out)?;
    node(
        text,
        at,
        NodeKind::QualifiedDeclaratorId,
        Some((at + 2) as u32),
        start,
        out,
    )?;
    Ok(Some(at + 3))
}

/// A declarator in parentheses.
#[cycle(expressions)]
fn parenthesized_declarator(
    text: &TypeNames,
    at: usize,
    naming: Naming,
    depth_left: u32,
    out: &mut Builder,
) -> Result<Option<usize>, AllocError>
    requires here { at ≤ length text.now.terminals }
    ensures { ParsesLongest text.now (parenthesized_declarator whole (naming_of naming)) at None out.old out.new result }
{
    expect!(text.is_at(at, Terminal::OpenParen), out);
    let start = out.checkpoint();
    let Some(close) = declarator(text, at + 1, naming, descend(depth_left)?, out)? else {
        return Ok(None);
    };
    if close == at + 1 {
        out.expected_at(close);
        return Ok(None);
    }
    expect!(text.is_at(close, Terminal::CloseParen), out);
    node(
        text,
        at,
        NodeKind::ParenthesizedDeclarator,
        Some(at as u32),
        start,
        out,
    )?;
    Ok(Some(close + 1))
}

/// Bounds and parameters behind a declarator.
#[cycle(expressions)]
fn suffixes(
    text: &TypeNames,
    at: usize,
    naming: Naming,
    depth_left: u32,
    start: Checkpoint,
    out: &mut Builder,
) -> Result<usize, AllocError>
    requires here { at ≤ length text.now.terminals }
    ensures { ParsesAlwaysBehind text.now (many (suffix whole (naming_of naming))) start at out.old out.new result }
{
    let mut next = at;
    'suffixes: loop {
        let mark = out.checkpoint();
        if text.is_at(next, Terminal::OpenBracket) {
            let Some(behind) = array_bound(text, next, depth_left, out)? else {
                out.cut(mark);
                return Ok(next);
            };
            wrap(
                text,
                next,
                NodeKind::ArrayDeclarator,
                next as u32,
                start,
                out,
            )?;
            next = behind;
        } else {
            let Some(behind) = function_parameters(text, next, naming, depth_left, out)? else {
                out.cut(mark);
                return Ok(next);
            };
            wrap(
                text,
                next,
                NodeKind::FunctionDeclarator,
                next as u32,
                start,
                out,
            )?;
            next = behind;
        }
    }
}

/// The bound of an array in its brackets.
#[cycle(expressions)]
fn array_bound(
    text: &TypeNames,
    at: usize,
    depth_left: u32,
    out: &mut Builder,
) -> Result<Option<usize>, AllocError>
    requires here { at ≤ length text.now.terminals }
    requires begins { open_bracket (terminal_at text.now at) ≡ true }
    requires few { length text.now.terminals ≤ MAX_TOKENS }
    ensures { ParsesLongest text.now (array_bound whole) at (Some at) out.old out.new result }
{
    let close = optional_conditional_expression(text, at + 1, descend(depth_left)?, out)?;
    expect!(text.is_at(close, Terminal::CloseBracket), out);
    Ok(Some(close + 1))
}

/// A bound, or nothing.
#[cycle(expressions)]
fn optional_conditional_expression(
    text: &TypeNames,
    at: usize,
    depth_left: u32,
    out: &mut Builder,
) -> Result<usize, AllocError>
    requires here { at ≤ length text.now.terminals }
    ensures { ParsesAlways text.now (optional (form conditional_expression)) at None out.old out.new result }
{
    let mark = out.checkpoint();
    let Some(next) = conditional_expression(text, at, depth_left, out)? else {
        out.cut(mark);
        return Ok(at);
    };
    Ok(next)
}

/// Parameters in parentheses, and what follows them. Where an initializer may stand, they have to have the shape of some.
#[cycle(expressions)]
pub fn function_parameters(
    text: &TypeNames,
    at: usize,
    naming: Naming,
    depth_left: u32,
    out: &mut Builder,
) -> Result<Option<usize>, AllocError>
    requires here { at ≤ length text.now.terminals }
    ensures { ParsesLongest text.now (parameters_behind whole (naming_of naming)) at (Some at) out.old out.new result }
{
    expect!(text.is_at(at, Terminal::OpenParen), out);
    let close = parameter_clause(text, at + 1, descend(depth_left)?, out)?;
    expect!(text.is_at(close, Terminal::CloseParen), out);
    if !naming.may_be_unnamed() && !text.lookahead_parameters(at) {
        return Ok(None);
    }
    Ok(Some(function_qualifiers(text, close + 1, out)?))
}

/// What follows parameters.
pub fn function_qualifiers(
    text: &TypeNames,
    at: usize,
    out: &mut Builder,
) -> Result<usize, AllocError>
    requires here { at ≤ length text.now.terminals }
    ensures { ParsesAlways text.now (form function_qualifiers) at None out.old out.new result }
{
    let start = out.checkpoint();
    let constant = optional_const(text, at, out)?;
    let safe = optional_safety(text, constant, out)?;
    let next = optional_noexcept(text, safe, out)?;
    node(text, at, NodeKind::FunctionQualifiers, None, start, out)?;
    Ok(next)
}

/// `const`, or nothing.
fn optional_const(text: &TypeNames, at: usize, out: &mut Builder) -> Result<usize, AllocError>
    requires here { at ≤ length text.now.terminals }
    ensures { ParsesAlways text.now (optional (leaf CvQualifier const_word)) at None out.old out.new result }
{
    if !text.is_at(at, Terminal::Const) {
        return Ok(at);
    }
    leaf(text, at, NodeKind::CvQualifier, out)
}

/// `transaction_safe` or `transaction_safe_dynamic`, or nothing.
pub fn optional_safety(text: &TypeNames, at: usize, out: &mut Builder) -> Result<usize, AllocError>
    requires here { at ≤ length text.now.terminals }
    ensures { ParsesAlways text.now (optional tx_qualifier) at None out.old out.new result }
{
    if !text.is_safety_at(at) {
        return Ok(at);
    }
    leaf(text, at, NodeKind::TxQualifier, out)
}

/// `noexcept`, or nothing.
pub fn optional_noexcept(
    text: &TypeNames,
    at: usize,
    out: &mut Builder,
) -> Result<usize, AllocError>
    requires here { at ≤ length text.now.terminals }
    ensures { ParsesAlways text.now (optional noexcept_specification) at None out.old out.new result }
{
    if !text.is_at(at, Terminal::Noexcept) {
        return Ok(at);
    }
    leaf(text, at, NodeKind::NoexceptSpecification, out)
}

/// Parameters without their parentheses: none, a lone `void`, or some with commas.
#[cycle(expressions)]
pub fn parameter_clause(
    text: &TypeNames,
    at: usize,
    depth_left: u32,
    out: &mut Builder,
) -> Result<usize, AllocError>
    requires here { at ≤ length text.now.terminals }
    ensures { ParsesAlways text.now (form (parameter_declaration_clause whole)) at None out.old out.new result }
{
    let start = out.checkpoint();
    let next = parameters(text, at, depth_left, out)?;
    if text.is_at(at, Terminal::Void) && next == at + 1 {
        out.cut(start);
        node(
            text,
            at,
            NodeKind::ParameterDeclarationClause,
            None,
            start,
            out,
        )?;
        return Ok(next);
    }
    node(
        text,
        at,
        NodeKind::ParameterDeclarationClause,
        None,
        start,
        out,
    )?;
    Ok(next)
}

/// Parameters with commas, or none.
#[cycle(expressions)]
fn parameters(
    text: &TypeNames,
    at: usize,
    depth_left: u32,
    out: &mut Builder,
) -> Result<usize, AllocError>
    requires here { at ≤ length text.now.terminals }
    ensures { ParsesAlways text.now (optional (parameter_list whole)) at None out.old out.new result }
{
    let mark = out.checkpoint();
    let Some(first) = parameter_declaration(text, at, depth_left, out)? else {
        out.cut(mark);
        return Ok(at);
    };
    let mut next = first;
    'items: while text.is_at(next, Terminal::Comma) {
        let mark = out.checkpoint();
        let Some(behind) = parameter_declaration(text, next + 1, depth_left, out)? else {
            out.cut(mark);
            return Ok(next);
        };
        next = behind;
    }
    Ok(next)
}

/// A parameter.
#[cycle(expressions)]
pub fn parameter_declaration(
    text: &TypeNames,
    at: usize,
    depth_left: u32,
    out: &mut Builder,
) -> Result<Option<usize>, AllocError>
    requires here { at ≤ length text.now.terminals }
    ensures { ParsesLongest text.now (form (parameter_declaration whole)) at None out.old out.new result }
{
    let start = out.checkpoint();
    let Some(behind) = type_specifier_seq(text, at, depth_left, out)? else {
        return Ok(None);
    };
    let Some(next) = declarator(text, behind, Naming::Either, depth_left, out)? else {
        return Ok(None);
    };
    node_at_name(text, at, NodeKind::ParameterDeclaration, None, start, out)?;
    Ok(Some(next))
}
