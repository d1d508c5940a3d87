//! Declarators with what initialises them: C++14 clause 8 and 8.5. And declarations in a block.

ghost use Rattle.std.specs.Prelude.{◌≡◌, ◌≤◌, true, false, length, Some, None};
ghost use Rattle.cpp_ast.specs.declared.kinds.NodeKind.TheVariants.{EqualInitializer, ParenthesizedInitializer};
ghost use Rattle.cpp_syntax.specs.Source.{terminal_at};
ghost use Rattle.cpp_syntax.specs.Terminals.{equal, open_paren, close_paren, comma};
ghost use Rattle.cpp_syntax.specs.Rules.{◌·◌, form, word, mark, node, optional, unless, parameters, block_declaration, init_declarator, initializer};
ghost use Rattle.cpp_syntax.specs.Rules.{braced_init_list, assignment_expression};
ghost use Rattle.cpp_syntax.specs.Grammar.{list, initializers};
ghost use Rattle.cpp_syntax.specs.FirstSets.{need_not_name};
ghost use Rattle.cpp_syntax.specs.Names.{naming_of};
ghost use Rattle.cpp_syntax.specs.Derivations.{Read, token_of_name, declared_in};
ghost use Rattle.cpp_syntax.specs.View.{BuilderState, appended, IsMark};
ghost use Rattle.cpp_syntax.specs.Parsed.{ParsesLongest, ParsesAlways};
ghost use Rattle.cpp_syntax.specs.declared.limits.TheConstants.{MAX_TOKENS};

use cpp_ast::NodeKind;
use cpp_parse_expr::declarators::declarator;
use cpp_parse_expr::expressions::{assignment_expression, expressions};
use cpp_parse_expr::types::type_specifier_seq;
use cpp_syntax::read::{node, node_at_name};
use cpp_syntax::shapes::descend;
use cpp_syntax::{Builder, Checkpoint, Naming, Terminal, TypeNames};
use std::alloc::AllocError;

/// A declaration in a block, or the first part of a `for` that is one: C++14 6.7.
pub fn block_declaration(
    text: &TypeNames,
    at: usize,
    depth_left: u32,
    out: &mut Builder,
) -> Result<Option<usize>, AllocError>
    requires here { at ≤ length text.now.terminals }
    ensures { ParsesLongest text.now (form block_declaration) at None out.old out.new result }
{
    let start = out.checkpoint();
    let Some(behind) = type_specifier_seq(text, at, depth_left, out)? else {
        return Ok(None);
    };
    let Some(close) = init_declarators(text, behind, Naming::InBlock, depth_left, out)? else {
        return Ok(None);
    };
    expect!(text.is_at(close, Terminal::Semicolon), out);
    node_at_name(
        text,
        at,
        NodeKind::SimpleDeclaration,
        Some(at as u32),
        start,
        out,
    )?;
    Ok(Some(close + 1))
}

/// Declarators with what initialises them, with commas between them. Each names what it declares.
pub fn init_declarators(
    text: &TypeNames,
    at: usize,
    naming: Naming,
    depth_left: u32,
    out: &mut Builder,
) -> Result<Option<usize>, AllocError>
    requires here { at ≤ length text.now.terminals }
    requires named { need_not_name (naming_of naming) ≡ false }
    ensures { ParsesLongest text.now (list (form (init_declarator (naming_of naming)))) at None out.old out.new result }
{
    let Some(first) = init_declarator(text, at, naming, depth_left, out)? else {
        return Ok(None);
    };
    let mut next = first;
    'items: while text.is_at(next, Terminal::Comma) {
        let mark = out.checkpoint();
        let Some(behind) = init_declarator(text, next + 1, naming, depth_left, out)? else {
            out.cut(mark);
            return Ok(Some(next));
        };
        next = behind;
    }
    Ok(Some(next))
}

/// A declarator with what initialises it, if anything does. Its token is the name that it declares.
pub fn init_declarator(
    text: &TypeNames,
    at: usize,
    naming: Naming,
    depth_left: u32,
    out: &mut Builder,
) -> Result<Option<usize>, AllocError>
    requires here { at ≤ length text.now.terminals }
    requires named { need_not_name (naming_of naming) ≡ false }
    ensures { ParsesLongest text.now (form (init_declarator (naming_of naming))) at None out.old out.new result }
{
    let start = out.checkpoint();
    let Some(behind) = declarator(text, at, naming, depth_left, out)? else {
        return Ok(None);
    };
    let token = name_token(start, out);
    let next = optional_initializer(text, behind, depth_left, out)?;
    node_at_name(text, at, NodeKind::InitDeclarator, token, start, out)?;
    Ok(Some(next))
}

/// The token of the name that the trees since a mark declare, if they declare one.
pub fn name_token(start: Checkpoint, out: &Builder) -> Option<u32>
    ensures { (before : BuilderState) (got : Read) → IsMark start before → out.now ≡ appended before got → result ≡ token_of_name (declared_in got.trees) }
{
    match out.declared(start.trees) {
        Some(name) => Some(name.token),
        None => None,
    }
}

/// What initialises a declarator, or nothing.
fn optional_initializer(
    text: &TypeNames,
    at: usize,
    depth_left: u32,
    out: &mut Builder,
) -> Result<usize, AllocError>
    requires here { at ≤ length text.now.terminals }
    ensures { ParsesAlways text.now (optional initializers) at None out.old out.new result }
{
    let mark = out.checkpoint();
    let Some(next) = initializer_of_declarator(text, at, depth_left, out)? else {
        out.cut(mark);
        return Ok(at);
    };
    Ok(next)
}

/// `=` and an initializer, or expressions in parentheses.
fn initializer_of_declarator(
    text: &TypeNames,
    at: usize,
    depth_left: u32,
    out: &mut Builder,
) -> Result<Option<usize>, AllocError>
    requires here { at ≤ length text.now.terminals }
    ensures { ParsesLongest text.now initializers at None out.old out.new result }
{
    if text.is_at(at, Terminal::Equal) {
        return equal_initializer(text, at, depth_left, out);
    }
    parenthesized_initializer(text, at, depth_left, out)
}

/// `=` and an initializer.
fn equal_initializer(
    text: &TypeNames,
    at: usize,
    depth_left: u32,
    out: &mut Builder,
) -> Result<Option<usize>, AllocError>
    requires here { at ≤ length text.now.terminals }
    requires begins { equal (terminal_at text.now at) ≡ true }
    requires few { length text.now.terminals ≤ MAX_TOKENS }
    ensures { ParsesLongest text.now (node EqualInitializer (mark equal · form initializer)) at None out.old out.new result }
{
    let start = out.checkpoint();
    let Some(next) = initializer(text, at + 1, descend(depth_left)?, out)? else {
        return Ok(None);
    };
    node(
        text,
        at,
        NodeKind::EqualInitializer,
        Some(at as u32),
        start,
        out,
    )?;
    Ok(Some(next))
}

/// Expressions in parentheses that do not have the shape of parameters.
fn parenthesized_initializer(
    text: &TypeNames,
    at: usize,
    depth_left: u32,
    out: &mut Builder,
) -> Result<Option<usize>, AllocError>
    requires here { at ≤ length text.now.terminals }
    ensures { ParsesLongest text.now (unless parameters (node ParenthesizedInitializer (mark open_paren
        · list (form assignment_expression) · word close_paren))) at None out.old out.new result }
{
    expect!(text.is_at(at, Terminal::OpenParen), out);
    if text.lookahead_parameters(at) {
        return Ok(None);
    }
    let start = out.checkpoint();
    let Some(close) = expressions(text, at + 1, descend(depth_left)?, out)? else {
        return Ok(None);
    };
    expect!(text.is_at(close, Terminal::CloseParen), out);
    node(
        text,
        at,
        NodeKind::ParenthesizedInitializer,
        Some(at as u32),
        start,
        out,
    )?;
    Ok(Some(close + 1))
}

/// An expression without commas, or a list in braces.
#[cycle(initializers)]
pub fn initializer(
    text: &TypeNames,
    at: usize,
    depth_left: u32,
    out: &mut Builder,
) -> Result<Option<usize>, AllocError>
    requires here { at ≤ length text.now.terminals }
    ensures { ParsesLongest text.now (form initializer) at None out.old out.new result }
{
    if text.is_at(at, Terminal::OpenBrace) {
        return braced_init_list(text, at, depth_left, out);
    }
    assignment_expression(text, at, depth_left, out)
}

/// Initializers in braces: C++14 8.5.4.
#[cycle(initializers)]
pub fn braced_init_list(
    text: &TypeNames,
    at: usize,
    depth_left: u32,
    out: &mut Builder,
) -> Result<Option<usize>, AllocError>
    requires here { at ≤ length text.now.terminals }
    ensures { ParsesLongest text.now (form braced_init_list) at None out.old out.new result }
{
    expect!(text.is_at(at, Terminal::OpenBrace), out);
    let start = out.checkpoint();
    let close = initializer_list(text, at + 1, descend(depth_left)?, out)?;
    expect!(text.is_at(close, Terminal::CloseBrace), out);
    node(
        text,
        at,
        NodeKind::BracedInitList,
        Some(at as u32),
        start,
        out,
    )?;
    Ok(Some(close + 1))
}

/// Initializers with commas, behind the last of which a comma may stand, or none.
#[cycle(initializers)]
fn initializer_list(
    text: &TypeNames,
    at: usize,
    depth_left: u32,
    out: &mut Builder,
) -> Result<usize, AllocError>
    requires here { at ≤ length text.now.terminals }
    ensures { ParsesAlways text.now (optional (list (form initializer) · optional (word comma))) at None out.old out.new result }
{
    let mark = out.checkpoint();
    let Some(first) = initializer(text, at, depth_left, out)? else {
        out.cut(mark);
        return Ok(at);
    };
    let mut next = first;
    'items: while text.is_at(next, Terminal::Comma) {
        let mark = out.checkpoint();
        let Some(behind) = initializer(text, next + 1, depth_left, out)? else {
            out.cut(mark);
            return Ok(next + 1);
        };
        next = behind;
    }
    Ok(next)
}
