//! Blocks that handle exceptions, C++14 clause 15, and transactional ones, ISO/IEC TS 19841:2015.

ghost use Rattle.std.specs.Prelude.{◌≡◌, ◌+◌, ◌≤◌, Bool, true, false, length, Some, None};
ghost use Rattle.cpp_syntax.specs.declared.terminal.Terminal.{Terminal};
ghost use Rattle.cpp_syntax.specs.Source.{terminal_at};
ghost use Rattle.cpp_syntax.specs.Terminals.{try_word};
ghost use Rattle.cpp_syntax.specs.Rules.{form, some, handler};
ghost use Rattle.cpp_syntax.specs.Parsed.{ParsesLongest};
ghost use Rattle.cpp_syntax.specs.View.{is_lambda};
ghost use Rattle.cpp_parse.specs.Lines.{marked_block, try_block, exception_declaration};
ghost use Rattle.cpp_syntax.specs.declared.limits.TheConstants.{MAX_TOKENS};

use crate::statements::compound_statement;
use cpp_ast::NodeKind;
use cpp_parse_expr::declarators::parameter_declaration;
use cpp_syntax::read::{leaf, node};
use cpp_syntax::{Builder, Terminal, TypeNames};
use std::alloc::AllocError;

/// A word before statements in braces, as `synchronized` is.
#[cycle(statements)]
pub fn marked_block(
    text: &TypeNames,
    at: usize,
    kind: NodeKind,
    depth_left: u32,
    out: &mut Builder,
) -> Result<Option<usize>, AllocError>
    requires here { at ≤ length text.now.terminals }
    requires inside { at + 1 ≤ length text.now.terminals }
    requires few { length text.now.terminals ≤ MAX_TOKENS }
    requires kind { is_lambda kind ≡ false }
    ensures { (word : Terminal → Bool) → word (terminal_at text.now at) ≡ true
        → ParsesLongest text.now (marked_block kind word) at None out.old out.new result }
{
    let start = out.checkpoint();
    let Some(next) = compound_statement(text, at + 1, depth_left, out)? else {
        return Ok(None);
    };
    node(text, at, kind, Some(at as u32), start, out)?;
    Ok(Some(next))
}

/// `try` with its handlers: C++14 15.1. All that follow belong to it.
#[cycle(statements)]
pub fn try_block(
    text: &TypeNames,
    at: usize,
    depth_left: u32,
    out: &mut Builder,
) -> Result<Option<usize>, AllocError>
    requires here { at ≤ length text.now.terminals }
    requires begins { try_word (terminal_at text.now at) ≡ true }
    requires few { length text.now.terminals ≤ MAX_TOKENS }
    ensures { ParsesLongest text.now try_block at None out.old out.new result }
{
    let start = out.checkpoint();
    let Some(behind) = compound_statement(text, at + 1, depth_left, out)? else {
        return Ok(None);
    };
    let Some(next) = handlers(text, behind, depth_left, out)? else {
        return Ok(None);
    };
    if text.is_at(next, Terminal::Catch) {
        return Ok(None);
    }
    node(text, at, NodeKind::TryBlock, Some(at as u32), start, out)?;
    Ok(Some(next))
}

/// Handlers, as many as there are, and one at least.
#[cycle(statements)]
fn handlers(
    text: &TypeNames,
    at: usize,
    depth_left: u32,
    out: &mut Builder,
) -> Result<Option<usize>, AllocError>
    requires here { at ≤ length text.now.terminals }
    ensures { ParsesLongest text.now (some (form handler)) at None out.old out.new result }
{
    let Some(first) = handler(text, at, depth_left, out)? else {
        return Ok(None);
    };
    let mut next = first;
    'handlers: while text.is_at(next, Terminal::Catch) {
        let mark = out.checkpoint();
        let Some(behind) = handler(text, next, depth_left, out)? else {
            out.cut(mark);
            return Ok(Some(next));
        };
        next = behind;
    }
    Ok(Some(next))
}

/// `catch`, what is caught, and the statements in braces that handle it: C++14 15.3.
#[cycle(statements)]
fn handler(
    text: &TypeNames,
    at: usize,
    depth_left: u32,
    out: &mut Builder,
) -> Result<Option<usize>, AllocError>
    requires here { at ≤ length text.now.terminals }
    ensures { ParsesLongest text.now (form handler) at None out.old out.new result }
{
    expect!(text.is_at(at, Terminal::Catch), out);
    expect!(text.is_at(at + 1, Terminal::OpenParen), out);
    let start = out.checkpoint();
    let Some(close) = exception_declaration(text, at + 2, depth_left, out)? else {
        return Ok(None);
    };
    expect!(text.is_at(close, Terminal::CloseParen), out);
    let Some(next) = compound_statement(text, close + 1, depth_left, out)? else {
        return Ok(None);
    };
    node(text, at, NodeKind::Handler, Some(at as u32), start, out)?;
    Ok(Some(next))
}

/// What a handler catches: a parameter, or `...` for all.
fn exception_declaration(
    text: &TypeNames,
    at: usize,
    depth_left: u32,
    out: &mut Builder,
) -> Result<Option<usize>, AllocError>
    requires here { at ≤ length text.now.terminals }
    ensures { ParsesLongest text.now exception_declaration at None out.old out.new result }
{
    if text.is_at(at, Terminal::Ellipsis) {
        return Ok(Some(leaf(text, at, NodeKind::Ellipsis, out)?));
    }
    parameter_declaration(text, at, depth_left, out)
}
