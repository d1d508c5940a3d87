//! Constructors and destructors, and what initialises bases and members: C++14 clause 12.

ghost use Rattle.std.specs.Prelude.{◌≡◌, ◌≤◌, length, Some, None};
ghost use Rattle.cpp_ast.specs.declared.kinds.NodeKind.TheVariants.{ParameterDeclarationClause};
ghost use Rattle.cpp_syntax.specs.Rules.{form, node, nothing, qualified, plain, constructor_declarator, destructor_declarator, member_initializer};
ghost use Rattle.cpp_syntax.specs.Grammar.{list, member_initializers};
ghost use Rattle.cpp_syntax.specs.Parsed.{ParsesLongest, ParsesAlways};
ghost use Rattle.cpp_parse.specs.Alternatives.{constructor_name, qualified_destructor_name, destructor_name, empty_parameters, initializer_arguments};
ghost use Rattle.cpp_parse.specs.Alternatives.{base_initializer, named_initializer, constructor_body};

use crate::specifiers::wrap_parameters;
use crate::statements::compound_statement;
use cpp_ast::NodeKind;
use cpp_parse_expr::declarators::{function_parameters, function_qualifiers};
use cpp_parse_expr::expressions::expression_list;
use cpp_parse_expr::types::type_name;
use cpp_syntax::read::{leaf, node};
use cpp_syntax::{Builder, Naming, Terminal, TypeNames};
use std::alloc::AllocError;

/// `T::T` with parameters.
pub fn qualified_constructor(
    text: &TypeNames,
    at: usize,
    depth_left: u32,
    out: &mut Builder,
) -> Result<Option<usize>, AllocError>
    requires here { at ≤ length text.now.terminals }
    ensures { ParsesLongest text.now (form (constructor_declarator qualified)) at None out.old out.new result }
{
    let start = out.checkpoint();
    let Some(behind) = constructor_name(text, at, out)? else {
        return Ok(None);
    };
    let Some(next) = function_parameters(text, behind, Naming::Unnamed, depth_left, out)? else {
        return Ok(None);
    };
    wrap_parameters(text, behind, start, out)?;
    Ok(Some(next))
}

/// `T` with parameters.
pub fn plain_constructor(
    text: &TypeNames,
    at: usize,
    depth_left: u32,
    out: &mut Builder,
) -> Result<Option<usize>, AllocError>
    requires here { at ≤ length text.now.terminals }
    ensures { ParsesLongest text.now (form (constructor_declarator plain)) at None out.old out.new result }
{
    expect!(text.is_at(at, Terminal::TypeName), out);
    let start = out.checkpoint();
    let behind = leaf(text, at, NodeKind::DeclaratorId, out)?;
    let Some(next) = function_parameters(text, behind, Naming::Unnamed, depth_left, out)? else {
        return Ok(None);
    };
    wrap_parameters(text, behind, start, out)?;
    Ok(Some(next))
}

/// `T::~T` with empty parentheses.
pub fn qualified_destructor(
    text: &TypeNames,
    at: usize,
    out: &mut Builder,
) -> Result<Option<usize>, AllocError>
    requires here { at ≤ length text.now.terminals }
    ensures { ParsesLongest text.now (form (destructor_declarator qualified)) at None out.old out.new result }
{
    let start = out.checkpoint();
    let Some(behind) = qualified_destructor_name(text, at, out)? else {
        return Ok(None);
    };
    let Some(next) = empty_parameters(text, behind, out)? else {
        return Ok(None);
    };
    wrap_parameters(text, behind, start, out)?;
    Ok(Some(next))
}

/// `~T` with empty parentheses.
pub fn plain_destructor(
    text: &TypeNames,
    at: usize,
    out: &mut Builder,
) -> Result<Option<usize>, AllocError>
    requires here { at ≤ length text.now.terminals }
    ensures { ParsesLongest text.now (form (destructor_declarator plain)) at None out.old out.new result }
{
    let start = out.checkpoint();
    let Some(behind) = destructor_name(text, at, out)? else {
        return Ok(None);
    };
    let Some(next) = empty_parameters(text, behind, out)? else {
        return Ok(None);
    };
    wrap_parameters(text, behind, start, out)?;
    Ok(Some(next))
}

/// `T::T`.
fn constructor_name(
    text: &TypeNames,
    at: usize,
    out: &mut Builder,
) -> Result<Option<usize>, AllocError>
    requires here { at ≤ length text.now.terminals }
    ensures { ParsesLongest text.now constructor_name at None out.old out.new result }
{
    expect!(text.is_at(at, Terminal::TypeName), out);
    let start = out.checkpoint();
    let colons = type_name(text, at, out)?;
    expect!(text.is_at(colons, Terminal::ColonColon), out);
    let name = colons + 1;
    expect!(text.is_at(name, Terminal::TypeName), out);
    node(
        text,
        at,
        NodeKind::QualifiedDeclaratorId,
        Some(name as u32),
        start,
        out,
    )?;
    Ok(Some(name + 1))
}

/// `T::~T`.
fn qualified_destructor_name(
    text: &TypeNames,
    at: usize,
    out: &mut Builder,
) -> Result<Option<usize>, AllocError>
    requires here { at ≤ length text.now.terminals }
    ensures { ParsesLongest text.now qualified_destructor_name at None out.old out.new result }
{
    expect!(text.is_at(at, Terminal::TypeName), out);
    let start = out.checkpoint();
    let colons = type_name(text, at, out)?;
    expect!(text.is_at(colons, Terminal::ColonColon), out);
    let tilde = colons + 1;
    expect!(text.is_at(tilde, Terminal::Tilde), out);
    let name = tilde + 1;
    expect!(text.is_at(name, Terminal::TypeName), out);
    node(
        text,
        at,
        NodeKind::QualifiedDestructorId,
        Some(name as u32),
        start,
        out,
    )?;
    Ok(Some(name + 1))
}

/// `~T`.
fn destructor_name(
    text: &TypeNames,
    at: usize,
    out: &mut Builder,
) -> Result<Option<usize>, AllocError>
    requires here { at ≤ length text.now.terminals }
    ensures { ParsesLongest text.now destructor_name at None out.old out.new result }
{
    expect!(text.is_at(at, Terminal::Tilde), out);
    let name = at + 1;
    expect!(text.is_at(name, Terminal::TypeName), out);
    let start = out.checkpoint();
    node(
        text,
        at,
        NodeKind::DestructorId,
        Some(name as u32),
        start,
        out,
    )?;
    Ok(Some(name + 1))
}

/// `()` and what follows it.
fn empty_parameters(
    text: &TypeNames,
    at: usize,
    out: &mut Builder,
) -> Result<Option<usize>, AllocError>
    requires here { at ≤ length text.now.terminals }
    ensures { ParsesLongest text.now empty_parameters at (Some at) out.old out.new result }
{
    expect!(text.is_at(at, Terminal::OpenParen), out);
    let close = no_parameter(text, at + 1, out)?;
    expect!(text.is_at(close, Terminal::CloseParen), out);
    Ok(Some(function_qualifiers(text, close + 1, out)?))
}

/// The node of no parameters.
fn no_parameter(text: &TypeNames, at: usize, out: &mut Builder) -> Result<usize, AllocError>
    requires here { at ≤ length text.now.terminals }
    ensures { ParsesAlways text.now (node ParameterDeclarationClause nothing) at None out.old out.new result }
{
    let start = out.checkpoint();
    node(
        text,
        at,
        NodeKind::ParameterDeclarationClause,
        None,
        start,
        out,
    )?;
    Ok(at)
}

/// What initialises bases and members, and the body of a constructor.
pub fn constructor_body(
    text: &TypeNames,
    at: usize,
    depth_left: u32,
    out: &mut Builder,
) -> Result<Option<usize>, AllocError>
    requires here { at ≤ length text.now.terminals }
    ensures { ParsesLongest text.now constructor_body at None out.old out.new result }
{
    let body = member_initializers(text, at, depth_left, out)?;
    compound_statement(text, body, depth_left, out)
}

/// `:` and what initialises bases and members, or nothing.
fn member_initializers(
    text: &TypeNames,
    at: usize,
    depth_left: u32,
    out: &mut Builder,
) -> Result<usize, AllocError>
    requires here { at ≤ length text.now.terminals }
    ensures { ParsesAlways text.now member_initializers at None out.old out.new result }
{
    if !text.is_at(at, Terminal::Colon) {
        out.expected_at(at);
        return Ok(at);
    }
    let mark = out.checkpoint();
    let Some(next) = initializer_list(text, at + 1, depth_left, out)? else {
        out.cut(mark);
        return Ok(at);
    };
    Ok(next)
}

/// What initialises bases and members, with commas.
fn initializer_list(
    text: &TypeNames,
    at: usize,
    depth_left: u32,
    out: &mut Builder,
) -> Result<Option<usize>, AllocError>
    requires here { at ≤ length text.now.terminals }
    ensures { ParsesLongest text.now (list (form member_initializer)) at None out.old out.new result }
{
    let Some(first) = member_initializer(text, at, depth_left, out)? else {
        return Ok(None);
    };
    let mut next = first;
    'items: while text.is_at(next, Terminal::Comma) {
        let mark = out.checkpoint();
        let Some(behind) = member_initializer(text, next + 1, depth_left, out)? else {
            out.cut(mark);
            return Ok(Some(next));
        };
        next = behind;
    }
    Ok(Some(next))
}

/// What initialises a base or a member.
fn member_initializer(
    text: &TypeNames,
    at: usize,
    depth_left: u32,
    out: &mut Builder,
) -> Result<Option<usize>, AllocError>
    requires here { at ≤ length text.now.terminals }
    ensures { ParsesLongest text.now (form member_initializer) at None out.old out.new result }
{
    if text.is_at(at, Terminal::TypeName) {
        return base_initializer(text, at, depth_left, out);
    }
    named_initializer(text, at, depth_left, out)
}

/// What initialises a base.
fn base_initializer(
    text: &TypeNames,
    at: usize,
    depth_left: u32,
    out: &mut Builder,
) -> Result<Option<usize>, AllocError>
    requires here { at ≤ length text.now.terminals }
    ensures { ParsesLongest text.now base_initializer at None out.old out.new result }
{
    expect!(text.is_at(at, Terminal::TypeName), out);
    let start = out.checkpoint();
    let Some(next) = initializer_arguments(text, at + 1, depth_left, out)? else {
        return Ok(None);
    };
    node(
        text,
        at,
        NodeKind::BaseInitializer,
        Some(at as u32),
        start,
        out,
    )?;
    Ok(Some(next))
}

/// What initialises a member.
fn named_initializer(
    text: &TypeNames,
    at: usize,
    depth_left: u32,
    out: &mut Builder,
) -> Result<Option<usize>, AllocError>
    requires here { at ≤ length text.now.terminals }
    ensures { ParsesLongest text.now named_initializer at None out.old out.new result }
{
    expect!(text.is_name_at(at), out);
    let start = out.checkpoint();
    let Some(next) = initializer_arguments(text, at + 1, depth_left, out)? else {
        return Ok(None);
    };
    node(
        text,
        at,
        NodeKind::MemberInitializer,
        Some(at as u32),
        start,
        out,
    )?;
    Ok(Some(next))
}

/// The arguments that initialise, in parentheses.
fn initializer_arguments(
    text: &TypeNames,
    at: usize,
    depth_left: u32,
    out: &mut Builder,
) -> Result<Option<usize>, AllocError>
    requires here { at ≤ length text.now.terminals }
    ensures { ParsesLongest text.now initializer_arguments at None out.old out.new result }
{
    expect!(text.is_at(at, Terminal::OpenParen), out);
    let close = expression_list(text, at + 1, depth_left, out)?;
    expect!(text.is_at(close, Terminal::CloseParen), out);
    Ok(Some(close + 1))
}
