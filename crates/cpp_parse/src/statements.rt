//! Statements: C++14 clause 6. What has the shape of a declaration is one.

ghost use Rattle.std.specs.Prelude.{◌≡◌, ◌≤◌, Bool, true, false, length, Some, None};
ghost use Rattle.cpp_syntax.specs.declared.terminal.Terminal.{Terminal};
ghost use Rattle.cpp_syntax.specs.Source.{terminal_at};
ghost use Rattle.cpp_syntax.specs.Terminals.{if_word, switch_word, case_word, default_word, return_word};
ghost use Rattle.cpp_syntax.specs.Rules.{form, optional, expression, compound_statement, statement};
ghost use Rattle.cpp_syntax.specs.Grammar.{condition};
ghost use Rattle.cpp_syntax.specs.Parsed.{Leaves, ParsesLongest, ParsesAlways};
ghost use Rattle.cpp_syntax.specs.View.{is_lambda};
ghost use Rattle.cpp_parse.specs.Lines.{declaration_or_expression, expression_statement, if_statement, switch_statement, labelled, case_statement};
ghost use Rattle.cpp_parse.specs.Lines.{default_statement, return_statement, jump};
ghost use Rattle.cpp_syntax.specs.declared.limits.TheConstants.{MAX_TOKENS};

use crate::blocks::{marked_block, try_block};
use crate::initializers::block_declaration;
use crate::loops::{do_statement, for_statement, while_statement};
use crate::terminals::begins_type_at;
use cpp_ast::NodeKind;
use cpp_parse_expr::expressions::{conditional_expression, expression};
use cpp_syntax::read::{leaf, node};
use cpp_syntax::shapes::descend;
use cpp_syntax::{Builder, Terminal, TypeNames};
use std::alloc::AllocError;

/// A statement.
#[cycle(statements)]
pub fn statement(
    text: &TypeNames,
    at: usize,
    depth_left: u32,
    out: &mut Builder,
) -> Result<Option<usize>, AllocError>
    requires here { at ≤ length text.now.terminals }
    ensures { ParsesLongest text.now (form statement) at None out.old out.new result }
{
    match text.terminal(at) {
        Terminal::OpenBrace => compound_statement(text, at, depth_left, out),
        Terminal::Semicolon => Ok(Some(leaf(text, at, NodeKind::NullStatement, out)?)),
        Terminal::If => if_statement(text, at, depth_left, out),
        Terminal::While => while_statement(text, at, depth_left, out),
        Terminal::Do => do_statement(text, at, depth_left, out),
        Terminal::For => for_statement(text, at, depth_left, out),
        Terminal::Switch => switch_statement(text, at, depth_left, out),
        Terminal::Case => case_statement(text, at, depth_left, out),
        Terminal::Default => default_statement(text, at, depth_left, out),
        Terminal::Break => jump(text, at, NodeKind::BreakStatement, out),
        Terminal::Continue => jump(text, at, NodeKind::ContinueStatement, out),
        Terminal::Return => return_statement(text, at, depth_left, out),
        Terminal::Try => try_block(text, at, depth_left, out),
        Terminal::Synchronized => {
            marked_block(text, at, NodeKind::SynchronizedStatement, depth_left, out)
        }
        Terminal::AtomicNoexcept | Terminal::AtomicCancel | Terminal::AtomicCommit => {
            marked_block(text, at, NodeKind::AtomicStatement, depth_left, out)
        }
        _ => declaration_or_expression(text, at, depth_left, out),
    }
}

/// Statements in braces: C++14 6.3.
#[cycle(statements)]
pub fn compound_statement(
    text: &TypeNames,
    at: usize,
    depth_left: u32,
    out: &mut Builder,
) -> Result<Option<usize>, AllocError>
    requires here { at ≤ length text.now.terminals }
    ensures { ParsesLongest text.now (form compound_statement) at None out.old out.new result }
{
    expect!(text.is_at(at, Terminal::OpenBrace), out);
    let start = out.checkpoint();
    let inner = descend(depth_left)?;
    let mut next = at + 1;
    'statements: while !text.is_at(next, Terminal::CloseBrace) {
        let Some(behind) = statement(text, next, inner, out)? else {
            return Ok(None);
        };
        next = behind;
    }
    node(
        text,
        at,
        NodeKind::CompoundStatement,
        Some(next as u32),
        start,
        out,
    )?;
    Ok(Some(next + 1))
}

/// A declaration, where one is seen, or an expression: C++14 6.8.
fn declaration_or_expression(
    text: &TypeNames,
    at: usize,
    depth_left: u32,
    out: &mut Builder,
) -> Result<Option<usize>, AllocError>
    requires here { at ≤ length text.now.terminals }
    ensures { ParsesLongest text.now declaration_or_expression at None out.old out.new result }
{
    if text.lookahead_declaration(at, depth_left)? {
        return block_declaration(text, at, depth_left, out);
    }
    let Some(next) = expression_statement(text, at, depth_left, out)? else {
        note_declaration(text, at, depth_left, out)?;
        return Ok(None);
    };
    Ok(Some(next))
}

/// Where a type begins a statement that is neither a declaration nor an expression, notes how far it reads as a
/// declaration, so that a fault stands where that breaks off.
pub fn note_declaration(
    text: &TypeNames,
    at: usize,
    depth_left: u32,
    out: &mut Builder,
) -> Result<(), AllocError>
    requires here { at ≤ length text.now.terminals }
    ensures { Leaves out.old out.new }
{
    if !begins_type_at(text, at) {
        return Ok(());
    }
    block_declaration(text, at, depth_left, out)?;
    Ok(())
}

/// An expression and `;`: C++14 6.2.
fn expression_statement(
    text: &TypeNames,
    at: usize,
    depth_left: u32,
    out: &mut Builder,
) -> Result<Option<usize>, AllocError>
    requires here { at ≤ length text.now.terminals }
    ensures { ParsesLongest text.now expression_statement at None out.old out.new result }
{
    let start = out.checkpoint();
    let Some(close) = expression(text, at, depth_left, out)? else {
        return Ok(None);
    };
    expect!(text.is_at(close, Terminal::Semicolon), out);
    node(
        text,
        at,
        NodeKind::ExpressionStatement,
        Some(close as u32),
        start,
        out,
    )?;
    Ok(Some(close + 1))
}

/// An expression in parentheses, on which it depends what is executed.
pub fn condition(
    text: &TypeNames,
    at: usize,
    depth_left: u32,
    out: &mut Builder,
) -> Result<Option<usize>, AllocError>
    requires here { at ≤ length text.now.terminals }
    ensures { ParsesLongest text.now condition at None out.old out.new result }
{
    expect!(text.is_at(at, Terminal::OpenParen), out);
    let Some(close) = expression(text, at + 1, depth_left, out)? else {
        return Ok(None);
    };
    expect!(text.is_at(close, Terminal::CloseParen), out);
    Ok(Some(close + 1))
}

/// `if`: C++14 6.4.1. An `else` belongs to the nearest one before it.
#[cycle(statements)]
fn if_statement(
    text: &TypeNames,
    at: usize,
    depth_left: u32,
    out: &mut Builder,
) -> Result<Option<usize>, AllocError>
    requires here { at ≤ length text.now.terminals }
    requires begins { if_word (terminal_at text.now at) ≡ true }
    requires few { length text.now.terminals ≤ MAX_TOKENS }
    ensures { ParsesLongest text.now if_statement at None out.old out.new result }
{
    let start = out.checkpoint();
    let inner = descend(depth_left)?;
    let Some(held) = condition(text, at + 1, inner, out)? else {
        return Ok(None);
    };
    let Some(middle) = statement(text, held, inner, out)? else {
        return Ok(None);
    };
    if !text.is_at(middle, Terminal::Else) {
        node(text, at, NodeKind::IfStatement, Some(at as u32), start, out)?;
        return Ok(Some(middle));
    }
    let Some(next) = statement(text, middle + 1, inner, out)? else {
        return Ok(None);
    };
    node(text, at, NodeKind::IfStatement, Some(at as u32), start, out)?;
    Ok(Some(next))
}

/// `switch`: C++14 6.4.2.
#[cycle(statements)]
fn switch_statement(
    text: &TypeNames,
    at: usize,
    depth_left: u32,
    out: &mut Builder,
) -> Result<Option<usize>, AllocError>
    requires here { at ≤ length text.now.terminals }
    requires begins { switch_word (terminal_at text.now at) ≡ true }
    requires few { length text.now.terminals ≤ MAX_TOKENS }
    ensures { ParsesLongest text.now switch_statement at None out.old out.new result }
{
    let start = out.checkpoint();
    let Some(held) = condition(text, at + 1, depth_left, out)? else {
        return Ok(None);
    };
    let Some(next) = compound_statement(text, held, depth_left, out)? else {
        return Ok(None);
    };
    node(
        text,
        at,
        NodeKind::SwitchStatement,
        Some(at as u32),
        start,
        out,
    )?;
    Ok(Some(next))
}

/// `case` and a value before a statement: C++14 6.1.
#[cycle(statements)]
fn case_statement(
    text: &TypeNames,
    at: usize,
    depth_left: u32,
    out: &mut Builder,
) -> Result<Option<usize>, AllocError>
    requires here { at ≤ length text.now.terminals }
    requires begins { case_word (terminal_at text.now at) ≡ true }
    requires few { length text.now.terminals ≤ MAX_TOKENS }
    ensures { ParsesLongest text.now case_statement at None out.old out.new result }
{
    let start = out.checkpoint();
    let inner = descend(depth_left)?;
    let Some(colon) = conditional_expression(text, at + 1, inner, out)? else {
        return Ok(None);
    };
    let Some(next) = labelled_statement(text, colon, inner, out)? else {
        return Ok(None);
    };
    node(
        text,
        at,
        NodeKind::CaseStatement,
        Some(at as u32),
        start,
        out,
    )?;
    Ok(Some(next))
}

/// `default` before a statement: C++14 6.1.
#[cycle(statements)]
fn default_statement(
    text: &TypeNames,
    at: usize,
    depth_left: u32,
    out: &mut Builder,
) -> Result<Option<usize>, AllocError>
    requires here { at ≤ length text.now.terminals }
    requires begins { default_word (terminal_at text.now at) ≡ true }
    requires few { length text.now.terminals ≤ MAX_TOKENS }
    ensures { ParsesLongest text.now default_statement at None out.old out.new result }
{
    let start = out.checkpoint();
    let Some(next) = labelled_statement(text, at + 1, descend(depth_left)?, out)? else {
        return Ok(None);
    };
    node(
        text,
        at,
        NodeKind::DefaultStatement,
        Some(at as u32),
        start,
        out,
    )?;
    Ok(Some(next))
}

/// `:` and the statement that a label stands before.
#[cycle(statements)]
fn labelled_statement(
    text: &TypeNames,
    at: usize,
    depth_left: u32,
    out: &mut Builder,
) -> Result<Option<usize>, AllocError>
    requires here { at ≤ length text.now.terminals }
    ensures { ParsesLongest text.now labelled at None out.old out.new result }
{
    expect!(text.is_at(at, Terminal::Colon), out);
    statement(text, at + 1, depth_left, out)
}

/// A word and `;`, as `break` and `continue` are: C++14 6.6.
fn jump(
    text: &TypeNames,
    at: usize,
    kind: NodeKind,
    out: &mut Builder,
) -> Result<Option<usize>, AllocError>
    requires here { at ≤ length text.now.terminals }
    requires few { length text.now.terminals ≤ MAX_TOKENS }
    requires kind { is_lambda kind ≡ false }
    ensures { (word : Terminal → Bool) → word (terminal_at text.now at) ≡ true → ParsesLongest text.now (jump kind word) at None out.old out.new result }
{
    expect!(text.is_at(at + 1, Terminal::Semicolon), out);
    out.leaf(kind, text.position(at), Some(at as u32))?;
    Ok(Some(at + 2))
}

/// `return`, with a value or without: C++14 6.6.3.
fn return_statement(
    text: &TypeNames,
    at: usize,
    depth_left: u32,
    out: &mut Builder,
) -> Result<Option<usize>, AllocError>
    requires here { at ≤ length text.now.terminals }
    requires begins { return_word (terminal_at text.now at) ≡ true }
    requires few { length text.now.terminals ≤ MAX_TOKENS }
    ensures { ParsesLongest text.now return_statement at None out.old out.new result }
{
    let start = out.checkpoint();
    let close = returned_value(text, at + 1, depth_left, out)?;
    expect!(text.is_at(close, Terminal::Semicolon), out);
    node(
        text,
        at,
        NodeKind::ReturnStatement,
        Some(at as u32),
        start,
        out,
    )?;
    Ok(Some(close + 1))
}

/// An expression, or nothing.
fn returned_value(
    text: &TypeNames,
    at: usize,
    depth_left: u32,
    out: &mut Builder,
) -> Result<usize, AllocError>
    requires here { at ≤ length text.now.terminals }
    ensures { ParsesAlways text.now (optional (form expression)) at None out.old out.new result }
{
    let mark = out.checkpoint();
    let Some(next) = expression(text, at, depth_left, out)? else {
        out.cut(mark);
        return Ok(at);
    };
    Ok(next)
}
