//! Lambdas: C++14 5.1.2.

ghost use Rattle.std.specs.Prelude.{◌≡◌, ◌≤◌, true, length, Some, None};
ghost use Rattle.cpp_ast.specs.declared.kinds.NodeKind.TheVariants.{LambdaDeclarator, Mutable};
ghost use Rattle.cpp_syntax.specs.Source.{terminal_at};
ghost use Rattle.cpp_syntax.specs.Terminals.{is_safety, mutable_word};
ghost use Rattle.cpp_syntax.specs.Rules.{form, optional, node, lambda_expression, lambda_introducer, lambda_declarator};
ghost use Rattle.cpp_syntax.specs.Grammar.{leaf, capture, first_capture, capture_list, tx_qualifier, lambda_parameters, trailing_return_type};
ghost use Rattle.cpp_syntax.specs.Parsed.{ParsesLongest, ParsesAlways};

use crate::declarators::{optional_noexcept, optional_safety, parameter_clause, type_id};
use cpp_ast::NodeKind;
use cpp_syntax::read::{leaf, node};
use cpp_syntax::shapes::descend;
use cpp_syntax::{Builder, Terminal, TypeNames};
use std::alloc::AllocError;

/// A lambda, whose body is kept apart as a run of tokens.
#[cycle(expressions)]
pub fn lambda_expression(
    text: &TypeNames,
    at: usize,
    depth_left: u32,
    out: &mut Builder,
) -> Result<Option<usize>, AllocError>
    requires here { at ≤ length text.now.terminals }
    ensures { ParsesLongest text.now (form lambda_expression) at None out.old out.new result }
{
    let start = out.checkpoint();
    let Some(introduced) = lambda_introducer(text, at, out)? else {
        return Ok(None);
    };
    let open = optional_declarator(text, introduced, depth_left, out)?;
    expect!(text.is_at(open, Terminal::OpenBrace), out);
    let Some(close) = text.partner(open) else {
        out.expected_at(open);
        return Ok(None);
    };
    out.lambda(
        start.trees,
        text.position(at),
        at as u32,
        (open + 1) as u32,
        close as u32,
    )?;
    Ok(Some(close + 1))
}

/// The captures of a lambda in their brackets.
fn lambda_introducer(
    text: &TypeNames,
    at: usize,
    out: &mut Builder,
) -> Result<Option<usize>, AllocError>
    requires here { at ≤ length text.now.terminals }
    ensures { ParsesLongest text.now (form lambda_introducer) at None out.old out.new result }
{
    expect!(text.is_at(at, Terminal::OpenBracket), out);
    let start = out.checkpoint();
    let next = captures(text, at + 1, out)?;
    expect!(text.is_at(next, Terminal::CloseBracket), out);
    node(
        text,
        at,
        NodeKind::LambdaIntroducer,
        Some(at as u32),
        start,
        out,
    )?;
    Ok(Some(next + 1))
}

/// What a lambda captures, or nothing.
fn captures(text: &TypeNames, at: usize, out: &mut Builder) -> Result<usize, AllocError>
    requires here { at ≤ length text.now.terminals }
    ensures { ParsesAlways text.now capture_list at None out.old out.new result }
{
    let mark = out.checkpoint();
    let Some(first) = first_capture(text, at, out)? else {
        out.cut(mark);
        return Ok(at);
    };
    let mut next = first;
    'captures: while text.is_at(next, Terminal::Comma) {
        let mark = out.checkpoint();
        let Some(behind) = capture(text, next + 1, out)? else {
            out.cut(mark);
            return Ok(next);
        };
        next = behind;
    }
    Ok(next)
}

/// A default, or a capture.
fn first_capture(
    text: &TypeNames,
    at: usize,
    out: &mut Builder,
) -> Result<Option<usize>, AllocError>
    requires here { at ≤ length text.now.terminals }
    ensures { ParsesLongest text.now first_capture at None out.old out.new result }
{
    if !text.is_capture_default_at(at) {
        return capture(text, at, out);
    }
    if text.is_name_at(at + 1) {
        return capture(text, at, out);
    }
    Ok(Some(leaf(text, at, NodeKind::CaptureDefault, out)?))
}

/// A name, a name behind `&`, or `this`.
fn capture(text: &TypeNames, at: usize, out: &mut Builder) -> Result<Option<usize>, AllocError>
    requires here { at ≤ length text.now.terminals }
    ensures { ParsesLongest text.now capture at None out.old out.new result }
{
    if text.is_name_at(at) {
        return Ok(Some(leaf(text, at, NodeKind::SimpleCapture, out)?));
    }
    if text.is_at(at, Terminal::This) {
        return Ok(Some(leaf(text, at, NodeKind::ThisCapture, out)?));
    }
    expect!(text.is_at(at, Terminal::Amp), out);
    expect!(text.is_name_at(at + 1), out);
    out.leaf(
        NodeKind::ReferenceCapture,
        text.position(at),
        Some((at + 1) as u32),
    )?;
    Ok(Some(at + 2))
}

/// What stands between the captures of a lambda and its body, or nothing.
#[cycle(expressions)]
fn optional_declarator(
    text: &TypeNames,
    at: usize,
    depth_left: u32,
    out: &mut Builder,
) -> Result<usize, AllocError>
    requires here { at ≤ length text.now.terminals }
    ensures { ParsesAlways text.now (optional (form lambda_declarator)) at None out.old out.new result }
{
    if text.is_safety_at(at) {
        return safety_alone(text, at, out);
    }
    let mark = out.checkpoint();
    let Some(next) = lambda_declarator(text, at, depth_left, out)? else {
        out.cut(mark);
        return Ok(at);
    };
    Ok(next)
}

/// `transaction_safe` or `transaction_safe_dynamic` without parameters.
fn safety_alone(text: &TypeNames, at: usize, out: &mut Builder) -> Result<usize, AllocError>
    requires here { at ≤ length text.now.terminals }
    requires begins { is_safety (terminal_at text.now at) ≡ true }
    ensures { ParsesAlways text.now (node LambdaDeclarator tx_qualifier) at None out.old out.new result }
{
    let start = out.checkpoint();
    let next = leaf(text, at, NodeKind::TxQualifier, out)?;
    node(text, at, NodeKind::LambdaDeclarator, None, start, out)?;
    Ok(next)
}

/// The parameters of a lambda and what follows them.
#[cycle(expressions)]
fn lambda_declarator(
    text: &TypeNames,
    at: usize,
    depth_left: u32,
    out: &mut Builder,
) -> Result<Option<usize>, AllocError>
    requires here { at ≤ length text.now.terminals }
    ensures { ParsesLongest text.now lambda_parameters at None out.old out.new result }
{
    expect!(text.is_at(at, Terminal::OpenParen), out);
    let start = out.checkpoint();
    let close = parameter_clause(text, at + 1, depth_left, out)?;
    expect!(text.is_at(close, Terminal::CloseParen), out);
    let changing = optional_mutable(text, close + 1, out)?;
    let safe = optional_safety(text, changing, out)?;
    let quiet = optional_noexcept(text, safe, out)?;
    let next = optional_return_type(text, quiet, depth_left, out)?;
    node(text, at, NodeKind::LambdaDeclarator, None, start, out)?;
    Ok(Some(next))
}

/// `mutable`, or nothing.
fn optional_mutable(text: &TypeNames, at: usize, out: &mut Builder) -> Result<usize, AllocError>
    requires here { at ≤ length text.now.terminals }
    ensures { ParsesAlways text.now (optional (leaf Mutable mutable_word)) at None out.old out.new result }
{
    if !text.is_at(at, Terminal::Mutable) {
        return Ok(at);
    }
    leaf(text, at, NodeKind::Mutable, out)
}

/// `-> type`, or nothing.
#[cycle(expressions)]
fn optional_return_type(
    text: &TypeNames,
    at: usize,
    depth_left: u32,
    out: &mut Builder,
) -> Result<usize, AllocError>
    requires here { at ≤ length text.now.terminals }
    ensures { ParsesAlways text.now (optional trailing_return_type) at None out.old out.new result }
{
    let mark = out.checkpoint();
    let Some(next) = trailing_return_type(text, at, depth_left, out)? else {
        out.cut(mark);
        return Ok(at);
    };
    Ok(next)
}

/// `-> type`.
#[cycle(expressions)]
fn trailing_return_type(
    text: &TypeNames,
    at: usize,
    depth_left: u32,
    out: &mut Builder,
) -> Result<Option<usize>, AllocError>
    requires here { at ≤ length text.now.terminals }
    ensures { ParsesLongest text.now trailing_return_type at None out.old out.new result }
{
    expect!(text.is_at(at, Terminal::Arrow), out);
    let start = out.checkpoint();
    let Some(next) = type_id(text, at + 1, descend(depth_left)?, out)? else {
        return Ok(None);
    };
    node(
        text,
        at,
        NodeKind::TrailingReturnType,
        Some(at as u32),
        start,
        out,
    )?;
    Ok(Some(next))
}
