//! Expressions: C++14 clause 5.

ghost use Rattle.std.specs.Prelude.{◌≡◌, ◌≤◌, true, length, Ok, Some, None};
ghost use Rattle.cpp_syntax.specs.Source.{terminal_at};
ghost use Rattle.cpp_syntax.specs.Terminals.{question, throw_word, sizeof_word, open_paren, static_cast_word, is_type_name, is_literal, std, dot, arrow};
ghost use Rattle.cpp_syntax.specs.Terminals.{open_bracket};
ghost use Rattle.cpp_syntax.specs.Rules.{◌∣◌, form, optional, expression, assignment_expression, conditional_expression, binary_expression, cast_expression};
ghost use Rattle.cpp_syntax.specs.Rules.{unary_expression, postfix_expression, expression_list, primary_expression, functional_type};
ghost use Rattle.cpp_syntax.specs.Grammar.{list, throw_expression, choice, sizeof_expression, arguments, parenthesized_expression, static_cast, qualified_id};
ghost use Rattle.cpp_syntax.specs.Grammar.{std_abort, functional_cast, literal};
ghost use Rattle.cpp_syntax.specs.View.{BuilderState};
ghost use Rattle.cpp_syntax.specs.Parsed.{ParsesLongest, ParsesAlways};
ghost use Rattle.cpp_parse_expr.specs.Suffixes.{ParsedSuffix, literal_kind};
ghost use Rattle.cpp_syntax.specs.declared.limits.TheConstants.{MAX_TOKENS};

use crate::declarators::type_id;
use crate::lambdas::lambda_expression;
use crate::types::{tx_exception, type_name};
use cpp_ast::NodeKind;
use cpp_syntax::read::{leaf, node, wrap};
use cpp_syntax::shapes::descend;
use cpp_syntax::{Builder, Terminal, TypeNames};
use std::alloc::AllocError;

/// The levels of operators between two operands, from `*` to `||`.
const LEVELS: u32 = 10;

/// An expression with its commas.
#[cycle(expressions)]
pub fn expression(
    text: &TypeNames,
    at: usize,
    depth_left: u32,
    out: &mut Builder,
) -> Result<Option<usize>, AllocError>
    requires here { at ≤ length text.now.terminals }
    ensures { ParsesLongest text.now (form expression) at None out.old out.new result }
{
    let start = out.checkpoint();
    let Some(first) = assignment_expression(text, at, depth_left, out)? else {
        return Ok(None);
    };
    let mut next = first;
    'operands: while text.is_at(next, Terminal::Comma) {
        let mark = out.checkpoint();
        let Some(behind) = assignment_expression(text, next + 1, depth_left, out)? else {
            out.cut(mark);
            return Ok(Some(next));
        };
        wrap(
            text,
            next,
            NodeKind::CommaExpression,
            next as u32,
            start,
            out,
        )?;
        next = behind;
    }
    Ok(Some(next))
}

/// An expression without commas.
#[cycle(expressions)]
pub fn assignment_expression(
    text: &TypeNames,
    at: usize,
    depth_left: u32,
    out: &mut Builder,
) -> Result<Option<usize>, AllocError>
    requires here { at ≤ length text.now.terminals }
    ensures { ParsesLongest text.now (form assignment_expression) at None out.old out.new result }
{
    if text.is_at(at, Terminal::Throw) {
        return Ok(Some(throw_expression(text, at, depth_left, out)?));
    }
    let start = out.checkpoint();
    let Some(left) = binary_expression(text, at, LEVELS, depth_left, out)? else {
        return Ok(None);
    };
    let mark = out.checkpoint();
    if text.is_assignment_at(left) {
        let Some(next) = assignment_expression(text, left + 1, descend(depth_left)?, out)? else {
            out.cut(mark);
            return Ok(Some(left));
        };
        wrap(
            text,
            left,
            NodeKind::AssignmentExpression,
            left as u32,
            start,
            out,
        )?;
        return Ok(Some(next));
    }
    if !text.is_at(left, Terminal::Question) {
        out.expected_at(left);
        return Ok(Some(left));
    }
    let Some(next) = choice(text, left, depth_left, out)? else {
        out.cut(mark);
        return Ok(Some(left));
    };
    wrap(
        text,
        left,
        NodeKind::ConditionalExpression,
        left as u32,
        start,
        out,
    )?;
    Ok(Some(next))
}

/// `throw` with what is thrown, if anything is.
#[cycle(expressions)]
fn throw_expression(
    text: &TypeNames,
    at: usize,
    depth_left: u32,
    out: &mut Builder,
) -> Result<usize, AllocError>
    requires here { at ≤ length text.now.terminals }
    requires begins { throw_word (terminal_at text.now at) ≡ true }
    requires few { length text.now.terminals ≤ MAX_TOKENS }
    ensures { ParsesAlways text.now throw_expression at None out.old out.new result }
{
    let start = out.checkpoint();
    let next = optional_assignment_expression(text, at + 1, descend(depth_left)?, out)?;
    node(
        text,
        at,
        NodeKind::ThrowExpression,
        Some(at as u32),
        start,
        out,
    )?;
    Ok(next)
}

/// An expression without commas, or nothing.
#[cycle(expressions)]
fn optional_assignment_expression(
    text: &TypeNames,
    at: usize,
    depth_left: u32,
    out: &mut Builder,
) -> Result<usize, AllocError>
    requires here { at ≤ length text.now.terminals }
    ensures { ParsesAlways text.now (optional (form assignment_expression)) at None out.old out.new result }
{
    let mark = out.checkpoint();
    let Some(next) = assignment_expression(text, at, depth_left, out)? else {
        out.cut(mark);
        return Ok(at);
    };
    Ok(next)
}

/// An expression without commas and assignments outside its brackets.
#[cycle(expressions)]
pub fn conditional_expression(
    text: &TypeNames,
    at: usize,
    depth_left: u32,
    out: &mut Builder,
) -> Result<Option<usize>, AllocError>
    requires here { at ≤ length text.now.terminals }
    ensures { ParsesLongest text.now (form conditional_expression) at None out.old out.new result }
{
    let start = out.checkpoint();
    let Some(left) = binary_expression(text, at, LEVELS, depth_left, out)? else {
        return Ok(None);
    };
    if !text.is_at(left, Terminal::Question) {
        out.expected_at(left);
        return Ok(Some(left));
    }
    let mark = out.checkpoint();
    let Some(next) = choice(text, left, depth_left, out)? else {
        out.cut(mark);
        return Ok(Some(left));
    };
    wrap(
        text,
        left,
        NodeKind::ConditionalExpression,
        left as u32,
        start,
        out,
    )?;
    Ok(Some(next))
}

/// `? a : b` behind a condition.
#[cycle(expressions)]
fn choice(
    text: &TypeNames,
    at: usize,
    depth_left: u32,
    out: &mut Builder,
) -> Result<Option<usize>, AllocError>
    requires here { at ≤ length text.now.terminals }
    requires begins { question (terminal_at text.now at) ≡ true }
    requires few { length text.now.terminals ≤ MAX_TOKENS }
    ensures { ParsesLongest text.now choice at (Some at) out.old out.new result }
{
    let inner = descend(depth_left)?;
    let Some(middle) = expression(text, at + 1, inner, out)? else {
        return Ok(None);
    };
    expect!(text.is_at(middle, Terminal::Colon), out);
    assignment_expression(text, middle + 1, inner, out)
}

/// Operands with operators up to a level between them. The operators of each level are read from the tightest one on.
#[cycle(expressions)]
fn binary_expression(
    text: &TypeNames,
    at: usize,
    level: u32,
    depth_left: u32,
    out: &mut Builder,
) -> Result<Option<usize>, AllocError>
    requires here { at ≤ length text.now.terminals }
    ensures { ParsesLongest text.now (form (binary_expression level)) at None out.old out.new result }
{
    let start = out.checkpoint();
    let Some(first) = cast_expression(text, at, depth_left, out)? else {
        return Ok(None);
    };
    let mut next = first;
    'levels: for below in 0..level {
        'operands: while text.level_at(next) == below + 1 {
            let mark = out.checkpoint();
            let Some(behind) = binary_expression(text, next + 1, below, descend(depth_left)?, out)?
            else {
                out.cut(mark);
                return Ok(Some(next));
            };
            wrap(
                text,
                next,
                NodeKind::BinaryExpression,
                next as u32,
                start,
                out,
            )?;
            next = behind;
        }
    }
    Ok(Some(next))
}

/// An operand, or a cast of one.
#[cycle(expressions)]
fn cast_expression(
    text: &TypeNames,
    at: usize,
    depth_left: u32,
    out: &mut Builder,
) -> Result<Option<usize>, AllocError>
    requires here { at ≤ length text.now.terminals }
    ensures { ParsesLongest text.now (form cast_expression) at None out.old out.new result }
{
    if !text.is_at(at, Terminal::OpenParen) {
        return unary_expression(text, at, depth_left, out);
    }
    if !text.lookahead_cast(at, depth_left)? {
        return unary_expression(text, at, depth_left, out);
    }
    let start = out.checkpoint();
    let inner = descend(depth_left)?;
    let Some(close) = type_id(text, at + 1, inner, out)? else {
        return Ok(None);
    };
    expect!(text.is_at(close, Terminal::CloseParen), out);
    let Some(next) = cast_expression(text, close + 1, inner, out)? else {
        return Ok(None);
    };
    node(
        text,
        at,
        NodeKind::CastExpression,
        Some(at as u32),
        start,
        out,
    )?;
    Ok(Some(next))
}

/// An operand with the operators before it.
#[cycle(expressions)]
fn unary_expression(
    text: &TypeNames,
    at: usize,
    depth_left: u32,
    out: &mut Builder,
) -> Result<Option<usize>, AllocError>
    requires here { at ≤ length text.now.terminals }
    ensures { ParsesLongest text.now (form unary_expression) at None out.old out.new result }
{
    if text.is_at(at, Terminal::Sizeof) {
        return sizeof_expression(text, at, depth_left, out);
    }
    if !text.is_prefix_at(at) {
        return postfix_expression(text, at, depth_left, out);
    }
    let start = out.checkpoint();
    let Some(next) = cast_expression(text, at + 1, descend(depth_left)?, out)? else {
        return Ok(None);
    };
    node(
        text,
        at,
        NodeKind::UnaryExpression,
        Some(at as u32),
        start,
        out,
    )?;
    Ok(Some(next))
}

/// `sizeof`, of a type in parentheses or of an expression.
#[cycle(expressions)]
fn sizeof_expression(
    text: &TypeNames,
    at: usize,
    depth_left: u32,
    out: &mut Builder,
) -> Result<Option<usize>, AllocError>
    requires here { at ≤ length text.now.terminals }
    requires begins { sizeof_word (terminal_at text.now at) ≡ true }
    requires few { length text.now.terminals ≤ MAX_TOKENS }
    ensures { ParsesLongest text.now sizeof_expression at None out.old out.new result }
{
    let start = out.checkpoint();
    let inner = descend(depth_left)?;
    if !text.lookahead_type_in_parentheses(at + 1, depth_left)? {
        let Some(next) = unary_expression(text, at + 1, inner, out)? else {
            return Ok(None);
        };
        node(
            text,
            at,
            NodeKind::SizeofExpression,
            Some(at as u32),
            start,
            out,
        )?;
        return Ok(Some(next));
    }
    let Some(close) = type_id(text, at + 2, inner, out)? else {
        return Ok(None);
    };
    expect!(text.is_at(close, Terminal::CloseParen), out);
    node(text, at, NodeKind::SizeofType, Some(at as u32), start, out)?;
    Ok(Some(close + 1))
}

/// An operand with what follows it: subscripts, calls, members, `++` and `--`.
#[cycle(expressions)]
fn postfix_expression(
    text: &TypeNames,
    at: usize,
    depth_left: u32,
    out: &mut Builder,
) -> Result<Option<usize>, AllocError>
    requires here { at ≤ length text.now.terminals }
    ensures { ParsesLongest text.now (form postfix_expression) at None out.old out.new result }
{
    let start = out.checkpoint();
    let Some(first) = primary_expression(text, at, depth_left, out)? else {
        return Ok(None);
    };
    let mut next = first;
    'suffixes: loop {
        let mark = out.checkpoint();
        let Some(suffix) = postfix(text, next, depth_left, out)? else {
            out.cut(mark);
            return Ok(Some(next));
        };
        wrap(text, next, suffix.kind, suffix.token, start, out)?;
        next = suffix.next;
    }
}

/// What follows an operand.
#[derive(Clone, Copy)]
struct Suffix {
    kind: NodeKind,
    token: u32,
    next: usize,
}

/// One thing that follows an operand.
#[cycle(expressions)]
fn postfix(
    text: &TypeNames,
    at: usize,
    depth_left: u32,
    out: &mut Builder,
) -> Result<Option<Suffix>, AllocError>
    requires here { at ≤ length text.now.terminals }
    ensures { ParsedSuffix text.now at out.old out.new result }
{
    if text.is_at(at, Terminal::OpenBracket) {
        return subscript(text, at, depth_left, out);
    }
    if text.is_at(at, Terminal::OpenParen) {
        return call(text, at, depth_left, out);
    }
    if text.is_at(at, Terminal::Dot) {
        return Ok(member(text, at));
    }
    if text.is_at(at, Terminal::Arrow) {
        return Ok(pointer_member(text, at));
    }
    if text.is_step_at(at) {
        return Ok(Some(Suffix {
            kind: NodeKind::PostfixIncrement,
            token: at as u32,
            next: at + 1,
        }));
    }
    out.expected_at(at);
    Ok(None)
}

/// `[` an index `]`.
#[cycle(expressions)]
fn subscript(
    text: &TypeNames,
    at: usize,
    depth_left: u32,
    out: &mut Builder,
) -> Result<Option<Suffix>, AllocError>
    requires here { at ≤ length text.now.terminals }
    requires begins { open_bracket (terminal_at text.now at) ≡ true }
    requires few { length text.now.terminals ≤ MAX_TOKENS }
    ensures { ParsedSuffix text.now at out.old out.new result }
{
    let Some(close) = expression(text, at + 1, descend(depth_left)?, out)? else {
        return Ok(None);
    };
    expect!(text.is_at(close, Terminal::CloseBracket), out);
    Ok(Some(Suffix {
        kind: NodeKind::Subscript,
        token: at as u32,
        next: close + 1,
    }))
}

/// Arguments.
#[cycle(expressions)]
fn call(
    text: &TypeNames,
    at: usize,
    depth_left: u32,
    out: &mut Builder,
) -> Result<Option<Suffix>, AllocError>
    requires here { at ≤ length text.now.terminals }
    requires begins { open_paren (terminal_at text.now at) ≡ true }
    requires few { length text.now.terminals ≤ MAX_TOKENS }
    ensures { ParsedSuffix text.now at out.old out.new result }
{
    let Some(next) = arguments(text, at, depth_left, out)? else {
        return Ok(None);
    };
    Ok(Some(Suffix {
        kind: NodeKind::FunctionCall,
        token: at as u32,
        next,
    }))
}

/// The name of a member behind `.`.
fn member(text: &TypeNames, at: usize) -> Option<Suffix>
    requires here { at ≤ length text.now.terminals }
    requires begins { dot (terminal_at text.now at) ≡ true }
    requires few { length text.now.terminals ≤ MAX_TOKENS }
    ensures { (old : BuilderState) → ParsedSuffix text.now at old old (Ok result) }
{
    if !text.is_name_at(at + 1) {
        return None;
    }
    Some(Suffix {
        kind: NodeKind::MemberAccess,
        token: (at + 1) as u32,
        next: at + 2,
    })
}

/// The name of a member behind `->`.
fn pointer_member(text: &TypeNames, at: usize) -> Option<Suffix>
    requires here { at ≤ length text.now.terminals }
    requires begins { arrow (terminal_at text.now at) ≡ true }
    requires few { length text.now.terminals ≤ MAX_TOKENS }
    ensures { (old : BuilderState) → ParsedSuffix text.now at old old (Ok result) }
{
    if !text.is_name_at(at + 1) {
        return None;
    }
    Some(Suffix {
        kind: NodeKind::PointerMemberAccess,
        token: (at + 1) as u32,
        next: at + 2,
    })
}

/// `(`, arguments and `)`.
#[cycle(expressions)]
fn arguments(
    text: &TypeNames,
    at: usize,
    depth_left: u32,
    out: &mut Builder,
) -> Result<Option<usize>, AllocError>
    requires here { at ≤ length text.now.terminals }
    requires begins { open_paren (terminal_at text.now at) ≡ true }
    requires few { length text.now.terminals ≤ MAX_TOKENS }
    ensures { ParsesLongest text.now arguments at (Some at) out.old out.new result }
{
    let close = expression_list(text, at + 1, descend(depth_left)?, out)?;
    expect!(text.is_at(close, Terminal::CloseParen), out);
    Ok(Some(close + 1))
}

/// Expressions with commas, or none.
#[cycle(expressions)]
pub fn expression_list(
    text: &TypeNames,
    at: usize,
    depth_left: u32,
    out: &mut Builder,
) -> Result<usize, AllocError>
    requires here { at ≤ length text.now.terminals }
    ensures { ParsesAlways text.now (form expression_list) at None out.old out.new result }
{
    let mark = out.checkpoint();
    let Some(next) = expressions(text, at, depth_left, out)? else {
        out.cut(mark);
        return Ok(at);
    };
    Ok(next)
}

/// Expressions with commas, one or more.
#[cycle(expressions)]
pub fn expressions(
    text: &TypeNames,
    at: usize,
    depth_left: u32,
    out: &mut Builder,
) -> Result<Option<usize>, AllocError>
    requires here { at ≤ length text.now.terminals }
    ensures { ParsesLongest text.now (list (form assignment_expression)) at None out.old out.new result }
{
    let Some(first) = assignment_expression(text, at, depth_left, out)? else {
        return Ok(None);
    };
    let mut next = first;
    'items: while text.is_at(next, Terminal::Comma) {
        let mark = out.checkpoint();
        let Some(behind) = assignment_expression(text, next + 1, depth_left, out)? else {
            out.cut(mark);
            return Ok(Some(next));
        };
        next = behind;
    }
    Ok(Some(next))
}

/// An operand without operators.
#[cycle(expressions)]
fn primary_expression(
    text: &TypeNames,
    at: usize,
    depth_left: u32,
    out: &mut Builder,
) -> Result<Option<usize>, AllocError>
    requires here { at ≤ length text.now.terminals }
    ensures { ParsesLongest text.now (form primary_expression) at None out.old out.new result }
{
    if text.is_name_at(at) {
        return Ok(Some(leaf(text, at, NodeKind::UnqualifiedId, out)?));
    }
    if text.is_literal_at(at) {
        return Ok(Some(literal(text, at, out)?));
    }
    if text.is_at(at, Terminal::TypeName) {
        return of_type_name(text, at, depth_left, out);
    }
    if text.is_at(at, Terminal::OpenParen) {
        return parenthesized_expression(text, at, depth_left, out);
    }
    if text.is_at(at, Terminal::OpenBracket) {
        return lambda_expression(text, at, descend(depth_left)?, out);
    }
    if text.is_at(at, Terminal::StaticCast) {
        return static_cast(text, at, depth_left, out);
    }
    if text.is_at(at, Terminal::Std) {
        return of_std(text, at, depth_left, out);
    }
    if text.is_type_word_at(at) {
        return functional_cast(text, at, depth_left, out);
    }
    out.expected_at(at);
    Ok(None)
}

/// An integer, a character, a string, a truth value, `nullptr` or `this`.
fn literal(text: &TypeNames, at: usize, out: &mut Builder) -> Result<usize, AllocError>
    requires here { at ≤ length text.now.terminals }
    requires begins { is_literal (terminal_at text.now at) ≡ true }
    ensures { ParsesAlways text.now literal at None out.old out.new result }
{
    leaf(text, at, literal_kind(text.terminal(at)), out)
}

/// The kind of a node that is such a token.
fn literal_kind(terminal: Terminal) -> NodeKind
    ensures { result ≡ literal_kind terminal }
{
    match terminal {
        Terminal::Character => NodeKind::CharacterLiteral,
        Terminal::String => NodeKind::StringLiteral,
        Terminal::True | Terminal::False => NodeKind::BooleanLiteral,
        Terminal::Nullptr => NodeKind::PointerLiteral,
        Terminal::This => NodeKind::This,
        _ => NodeKind::IntegerLiteral,
    }
}

/// An expression in parentheses.
#[cycle(expressions)]
fn parenthesized_expression(
    text: &TypeNames,
    at: usize,
    depth_left: u32,
    out: &mut Builder,
) -> Result<Option<usize>, AllocError>
    requires here { at ≤ length text.now.terminals }
    requires begins { open_paren (terminal_at text.now at) ≡ true }
    requires few { length text.now.terminals ≤ MAX_TOKENS }
    ensures { ParsesLongest text.now parenthesized_expression at None out.old out.new result }
{
    let start = out.checkpoint();
    let Some(close) = expression(text, at + 1, descend(depth_left)?, out)? else {
        return Ok(None);
    };
    expect!(text.is_at(close, Terminal::CloseParen), out);
    node(
        text,
        at,
        NodeKind::ParenthesizedExpression,
        Some(at as u32),
        start,
        out,
    )?;
    Ok(Some(close + 1))
}

/// `static_cast<type>(e)`.
#[cycle(expressions)]
fn static_cast(
    text: &TypeNames,
    at: usize,
    depth_left: u32,
    out: &mut Builder,
) -> Result<Option<usize>, AllocError>
    requires here { at ≤ length text.now.terminals }
    requires begins { static_cast_word (terminal_at text.now at) ≡ true }
    requires few { length text.now.terminals ≤ MAX_TOKENS }
    ensures { ParsesLongest text.now static_cast at None out.old out.new result }
{
    expect!(text.is_at(at + 1, Terminal::Less), out);
    let start = out.checkpoint();
    let inner = descend(depth_left)?;
    let Some(greater) = type_id(text, at + 2, inner, out)? else {
        return Ok(None);
    };
    expect!(text.is_at(greater, Terminal::Greater), out);
    expect!(text.is_at(greater + 1, Terminal::OpenParen), out);
    let Some(close) = expression(text, greater + 2, inner, out)? else {
        return Ok(None);
    };
    expect!(text.is_at(close, Terminal::CloseParen), out);
    node(text, at, NodeKind::StaticCast, Some(at as u32), start, out)?;
    Ok(Some(close + 1))
}

/// `T::N` or `T(..)`.
#[cycle(expressions)]
fn of_type_name(
    text: &TypeNames,
    at: usize,
    depth_left: u32,
    out: &mut Builder,
) -> Result<Option<usize>, AllocError>
    requires here { at ≤ length text.now.terminals }
    requires begins { is_type_name (terminal_at text.now at) ≡ true }
    requires few { length text.now.terminals ≤ MAX_TOKENS }
    ensures { ParsesLongest text.now (qualified_id ∣ functional_cast) at None out.old out.new result }
{
    if !text.is_at(at + 1, Terminal::ColonColon) {
        return functional_cast(text, at, depth_left, out);
    }
    expect!(text.is_name_at(at + 2), out);
    let start = out.checkpoint();
    type_name(text, at, out)?;
    node(
        text,
        at,
        NodeKind::QualifiedId,
        Some((at + 2) as u32),
        start,
        out,
    )?;
    Ok(Some(at + 3))
}

/// `std::abort` or `std::tx_exception<..>(..)`.
#[cycle(expressions)]
fn of_std(
    text: &TypeNames,
    at: usize,
    depth_left: u32,
    out: &mut Builder,
) -> Result<Option<usize>, AllocError>
    requires here { at ≤ length text.now.terminals }
    requires begins { std (terminal_at text.now at) ≡ true }
    requires few { length text.now.terminals ≤ MAX_TOKENS }
    ensures { ParsesLongest text.now (std_abort ∣ functional_cast) at None out.old out.new result }
{
    expect!(text.is_at(at + 1, Terminal::ColonColon), out);
    if !text.is_at(at + 2, Terminal::Abort) {
        return functional_cast(text, at, depth_left, out);
    }
    out.leaf(NodeKind::StdAbort, text.position(at), Some((at + 2) as u32))?;
    Ok(Some(at + 3))
}

/// A type of one word, `T` or `std::tx_exception<..>`, and its arguments.
#[cycle(expressions)]
fn functional_cast(
    text: &TypeNames,
    at: usize,
    depth_left: u32,
    out: &mut Builder,
) -> Result<Option<usize>, AllocError>
    requires here { at ≤ length text.now.terminals }
    ensures { ParsesLongest text.now functional_cast at None out.old out.new result }
{
    let start = out.checkpoint();
    let Some(open) = functional_type(text, at, depth_left, out)? else {
        return Ok(None);
    };
    expect!(text.is_at(open, Terminal::OpenParen), out);
    let Some(next) = arguments(text, open, depth_left, out)? else {
        return Ok(None);
    };
    node(
        text,
        at,
        NodeKind::FunctionalCast,
        Some(open as u32),
        start,
        out,
    )?;
    Ok(Some(next))
}

/// The type of a functional cast.
#[cycle(expressions)]
fn functional_type(
    text: &TypeNames,
    at: usize,
    depth_left: u32,
    out: &mut Builder,
) -> Result<Option<usize>, AllocError>
    requires here { at ≤ length text.now.terminals }
    ensures { ParsesLongest text.now (form functional_type) at None out.old out.new result }
{
    if text.is_type_word_at(at) {
        return Ok(Some(leaf(text, at, NodeKind::SimpleTypeSpecifier, out)?));
    }
    if text.is_at(at, Terminal::TypeName) {
        return Ok(Some(leaf(text, at, NodeKind::TypeName, out)?));
    }
    tx_exception(text, at, depth_left, out)
}
