//! Statements that are executed again and again: C++14 6.5.

ghost use Rattle.std.specs.Prelude.{◌≡◌, ◌≤◌, true, length, Some, None};
ghost use Rattle.cpp_syntax.specs.Source.{terminal_at};
ghost use Rattle.cpp_syntax.specs.Terminals.{while_word, do_word, for_word, semicolon};
ghost use Rattle.cpp_syntax.specs.Rules.{◌·◌, form, word, expression, for_init_statement};
ghost use Rattle.cpp_syntax.specs.Grammar.{optional_expression};
ghost use Rattle.cpp_syntax.specs.Parsed.{ParsesLongest, ParsesAlways};
ghost use Rattle.cpp_parse.specs.Lines.{while_statement, until, do_statement, for_rest, for_statement};
ghost use Rattle.cpp_syntax.specs.declared.limits.TheConstants.{MAX_TOKENS};

use crate::initializers::block_declaration;
use crate::statements::{condition, note_declaration, statement};
use cpp_ast::NodeKind;
use cpp_parse_expr::expressions::expression;
use cpp_syntax::read::node;
use cpp_syntax::shapes::descend;
use cpp_syntax::{Builder, Terminal, TypeNames};
use std::alloc::AllocError;

/// `while`: C++14 6.5.1.
#[cycle(statements)]
pub fn while_statement(
    text: &TypeNames,
    at: usize,
    depth_left: u32,
    out: &mut Builder,
) -> Result<Option<usize>, AllocError>
    requires here { at ≤ length text.now.terminals }
    requires begins { while_word (terminal_at text.now at) ≡ true }
    requires few { length text.now.terminals ≤ MAX_TOKENS }
    ensures { ParsesLongest text.now while_statement at None out.old out.new result }
{
    let start = out.checkpoint();
    let inner = descend(depth_left)?;
    let Some(held) = condition(text, at + 1, inner, out)? else {
        return Ok(None);
    };
    let Some(next) = statement(text, held, inner, out)? else {
        return Ok(None);
    };
    node(
        text,
        at,
        NodeKind::WhileStatement,
        Some(at as u32),
        start,
        out,
    )?;
    Ok(Some(next))
}

/// `do`: C++14 6.5.2.
#[cycle(statements)]
pub fn do_statement(
    text: &TypeNames,
    at: usize,
    depth_left: u32,
    out: &mut Builder,
) -> Result<Option<usize>, AllocError>
    requires here { at ≤ length text.now.terminals }
    requires begins { do_word (terminal_at text.now at) ≡ true }
    requires few { length text.now.terminals ≤ MAX_TOKENS }
    ensures { ParsesLongest text.now do_statement at None out.old out.new result }
{
    let start = out.checkpoint();
    let Some(behind) = statement(text, at + 1, descend(depth_left)?, out)? else {
        return Ok(None);
    };
    let Some(next) = until(text, behind, depth_left, out)? else {
        return Ok(None);
    };
    node(text, at, NodeKind::DoStatement, Some(at as u32), start, out)?;
    Ok(Some(next))
}

/// `while`, a condition and `;` behind the body of a `do`.
fn until(
    text: &TypeNames,
    at: usize,
    depth_left: u32,
    out: &mut Builder,
) -> Result<Option<usize>, AllocError>
    requires here { at ≤ length text.now.terminals }
    ensures { ParsesLongest text.now until at None out.old out.new result }
{
    expect!(text.is_at(at, Terminal::While), out);
    let Some(close) = condition(text, at + 1, depth_left, out)? else {
        return Ok(None);
    };
    expect!(text.is_at(close, Terminal::Semicolon), out);
    Ok(Some(close + 1))
}

/// `for`: C++14 6.5.3.
#[cycle(statements)]
pub fn for_statement(
    text: &TypeNames,
    at: usize,
    depth_left: u32,
    out: &mut Builder,
) -> Result<Option<usize>, AllocError>
    requires here { at ≤ length text.now.terminals }
    requires begins { for_word (terminal_at text.now at) ≡ true }
    requires few { length text.now.terminals ≤ MAX_TOKENS }
    ensures { ParsesLongest text.now for_statement at None out.old out.new result }
{
    expect!(text.is_at(at + 1, Terminal::OpenParen), out);
    let start = out.checkpoint();
    let inner = descend(depth_left)?;
    let Some(first) = for_init_statement(text, at + 2, inner, out)? else {
        return Ok(None);
    };
    let Some(next) = for_rest(text, first, inner, out)? else {
        return Ok(None);
    };
    node(
        text,
        at,
        NodeKind::ForStatement,
        Some(at as u32),
        start,
        out,
    )?;
    Ok(Some(next))
}

/// The first part of a `for`, with its `;`.
fn for_init_statement(
    text: &TypeNames,
    at: usize,
    depth_left: u32,
    out: &mut Builder,
) -> Result<Option<usize>, AllocError>
    requires here { at ≤ length text.now.terminals }
    ensures { ParsesLongest text.now (form for_init_statement) at None out.old out.new result }
{
    if text.is_at(at, Terminal::Semicolon) {
        out.leaf(NodeKind::Absent, text.position(at), None)?;
        return Ok(Some(at + 1));
    }
    if text.lookahead_declaration(at, depth_left)? {
        return block_declaration(text, at, depth_left, out);
    }
    let Some(next) = expression_and_semicolon(text, at, depth_left, out)? else {
        note_declaration(text, at, depth_left, out)?;
        return Ok(None);
    };
    Ok(Some(next))
}

/// An expression and `;`.
fn expression_and_semicolon(
    text: &TypeNames,
    at: usize,
    depth_left: u32,
    out: &mut Builder,
) -> Result<Option<usize>, AllocError>
    requires here { at ≤ length text.now.terminals }
    ensures { ParsesLongest text.now (form expression · word semicolon) at None out.old out.new result }
{
    let Some(close) = expression(text, at, depth_left, out)? else {
        return Ok(None);
    };
    expect!(text.is_at(close, Terminal::Semicolon), out);
    Ok(Some(close + 1))
}

/// What stands behind the first part of a `for`: the condition, what is done after each turn, and the body.
#[cycle(statements)]
fn for_rest(
    text: &TypeNames,
    at: usize,
    depth_left: u32,
    out: &mut Builder,
) -> Result<Option<usize>, AllocError>
    requires here { at ≤ length text.now.terminals }
    ensures { ParsesLongest text.now for_rest at None out.old out.new result }
{
    let middle = optional_expression(text, at, depth_left, out)?;
    expect!(text.is_at(middle, Terminal::Semicolon), out);
    let close = optional_expression(text, middle + 1, depth_left, out)?;
    expect!(text.is_at(close, Terminal::CloseParen), out);
    statement(text, close + 1, depth_left, out)
}

/// An expression, or a node that says that there is none.
fn optional_expression(
    text: &TypeNames,
    at: usize,
    depth_left: u32,
    out: &mut Builder,
) -> Result<usize, AllocError>
    requires here { at ≤ length text.now.terminals }
    ensures { ParsesAlways text.now optional_expression at None out.old out.new result }
{
    let mark = out.checkpoint();
    let Some(next) = expression(text, at, depth_left, out)? else {
        out.cut(mark);
        out.leaf(NodeKind::Absent, text.position(at), None)?;
        return Ok(at);
    };
    Ok(next)
}
