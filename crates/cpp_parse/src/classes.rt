//! Classes and enumerations: C++14 clause 9, 10 and 7.2.

ghost use Rattle.std.specs.Prelude.{◌≡◌, ◌≤◌, length, Some, None};
ghost use Rattle.cpp_syntax.specs.Rules.{form, many, optional, enumerator_definition, member_declaration};
ghost use Rattle.cpp_syntax.specs.Grammar.{class_key, braced_list};
ghost use Rattle.cpp_syntax.specs.Parsed.{ParsesLongest, ParsesAlways};
ghost use Rattle.cpp_parse.specs.Alternatives.{class_declaration, class_specifier, optional_final, optional_access, base_clause, base_specifier};
ghost use Rattle.cpp_parse.specs.Alternatives.{member_specification, enum_specifier, enumerators, enumerator_value};

use crate::members::member_declaration;
use crate::specifiers::node_at_token;
use crate::terminals::{is_access_at, is_class_key_at};
use cpp_ast::NodeKind;
use cpp_parse_expr::expressions::conditional_expression;
use cpp_syntax::read::{leaf, node};
use cpp_syntax::{Builder, Terminal, TypeNames};
use std::alloc::AllocError;

/// A class that is declared and not defined.
pub fn class_declaration(
    text: &TypeNames,
    at: usize,
    out: &mut Builder,
) -> Result<Option<usize>, AllocError>
    requires here { at ≤ length text.now.terminals }
    ensures { ParsesLongest text.now class_declaration at None out.old out.new result }
{
    expect!(is_class_key_at(text, at), out);
    let start = out.checkpoint();
    let name = leaf(text, at, NodeKind::ClassKey, out)?;
    expect!(text.is_name_at(name), out);
    let end = name + 1;
    expect!(text.is_at(end, Terminal::Semicolon), out);
    node_at_token(text, NodeKind::ClassDeclaration, name as u32, start, out)?;
    Ok(Some(end + 1))
}

/// A class with its members.
pub fn class_specifier(
    text: &TypeNames,
    at: usize,
    depth_left: u32,
    out: &mut Builder,
) -> Result<Option<usize>, AllocError>
    requires here { at ≤ length text.now.terminals }
    ensures { ParsesLongest text.now class_specifier at None out.old out.new result }
{
    expect!(is_class_key_at(text, at), out);
    let start = out.checkpoint();
    let name = leaf(text, at, NodeKind::ClassKey, out)?;
    expect!(text.is_name_at(name), out);
    let behind = optional_final(text, name + 1, out)?;
    let open = optional_base(text, behind, out)?;
    let Some(end) = member_specification(text, open, depth_left, out)? else {
        return Ok(None);
    };
    expect!(text.is_at(end, Terminal::Semicolon), out);
    node_at_token(text, NodeKind::ClassSpecifier, name as u32, start, out)?;
    Ok(Some(end + 1))
}

/// `final`, or nothing.
fn optional_final(text: &TypeNames, at: usize, out: &mut Builder) -> Result<usize, AllocError>
    requires here { at ≤ length text.now.terminals }
    ensures { ParsesAlways text.now optional_final at None out.old out.new result }
{
    if !text.is_at(at, Terminal::Final) {
        return Ok(at);
    }
    leaf(text, at, NodeKind::VirtSpecifier, out)
}

/// `:` and a base, or nothing.
fn optional_base(text: &TypeNames, at: usize, out: &mut Builder) -> Result<usize, AllocError>
    requires here { at ≤ length text.now.terminals }
    ensures { ParsesAlways text.now (optional base_clause) at None out.old out.new result }
{
    if !text.is_at(at, Terminal::Colon) {
        out.expected_at(at);
        return Ok(at);
    }
    let mark = out.checkpoint();
    let Some(next) = base_specifier(text, at + 1, out)? else {
        out.cut(mark);
        return Ok(at);
    };
    Ok(next)
}

/// A base with its access.
fn base_specifier(
    text: &TypeNames,
    at: usize,
    out: &mut Builder,
) -> Result<Option<usize>, AllocError>
    requires here { at ≤ length text.now.terminals }
    ensures { ParsesLongest text.now base_specifier at None out.old out.new result }
{
    let start = out.checkpoint();
    let name = optional_access(text, at, out)?;
    expect!(text.is_at(name, Terminal::TypeName), out);
    node(
        text,
        at,
        NodeKind::BaseSpecifier,
        Some(name as u32),
        start,
        out,
    )?;
    Ok(Some(name + 1))
}

/// `public`, `protected` or `private`, or nothing.
fn optional_access(text: &TypeNames, at: usize, out: &mut Builder) -> Result<usize, AllocError>
    requires here { at ≤ length text.now.terminals }
    ensures { ParsesAlways text.now optional_access at None out.old out.new result }
{
    if !is_access_at(text, at) {
        return Ok(at);
    }
    leaf(text, at, NodeKind::AccessSpecifier, out)
}

/// The members of a class in their braces.
fn member_specification(
    text: &TypeNames,
    at: usize,
    depth_left: u32,
    out: &mut Builder,
) -> Result<Option<usize>, AllocError>
    requires here { at ≤ length text.now.terminals }
    ensures { ParsesLongest text.now member_specification at None out.old out.new result }
{
    expect!(text.is_at(at, Terminal::OpenBrace), out);
    let start = out.checkpoint();
    let close = members(text, at + 1, depth_left, out)?;
    expect!(text.is_at(close, Terminal::CloseBrace), out);
    node(
        text,
        at,
        NodeKind::MemberSpecification,
        Some(close as u32),
        start,
        out,
    )?;
    Ok(Some(close + 1))
}

/// Members, as many as follow one another.
fn members(
    text: &TypeNames,
    at: usize,
    depth_left: u32,
    out: &mut Builder,
) -> Result<usize, AllocError>
    requires here { at ≤ length text.now.terminals }
    ensures { ParsesAlways text.now (many (form member_declaration)) at None out.old out.new result }
{
    let mut next = at;
    'members: loop {
        let mark = out.checkpoint();
        let Some(behind) = member_declaration(text, next, depth_left, out)? else {
            out.cut(mark);
            return Ok(next);
        };
        next = behind;
    }
}

/// An enumeration.
pub fn enum_specifier(
    text: &TypeNames,
    at: usize,
    depth_left: u32,
    out: &mut Builder,
) -> Result<Option<usize>, AllocError>
    requires here { at ≤ length text.now.terminals }
    ensures { ParsesLongest text.now enum_specifier at None out.old out.new result }
{
    expect!(text.is_at(at, Terminal::Enum), out);
    let start = out.checkpoint();
    let name = optional_class_key(text, at + 1, out)?;
    expect!(text.is_name_at(name), out);
    let Some(end) = braced_enumerators(text, name + 1, depth_left, out)? else {
        return Ok(None);
    };
    expect!(text.is_at(end, Terminal::Semicolon), out);
    node_at_token(text, NodeKind::EnumSpecifier, name as u32, start, out)?;
    Ok(Some(end + 1))
}

/// `class` or `struct`, or nothing.
fn optional_class_key(text: &TypeNames, at: usize, out: &mut Builder) -> Result<usize, AllocError>
    requires here { at ≤ length text.now.terminals }
    ensures { ParsesAlways text.now (optional class_key) at None out.old out.new result }
{
    if !is_class_key_at(text, at) {
        return Ok(at);
    }
    leaf(text, at, NodeKind::ClassKey, out)
}

/// Enumerators in braces.
fn braced_enumerators(
    text: &TypeNames,
    at: usize,
    depth_left: u32,
    out: &mut Builder,
) -> Result<Option<usize>, AllocError>
    requires here { at ≤ length text.now.terminals }
    ensures { ParsesLongest text.now (braced_list (form enumerator_definition)) at None out.old out.new result }
{
    expect!(text.is_at(at, Terminal::OpenBrace), out);
    let close = optional_enumerators(text, at + 1, depth_left, out)?;
    expect!(text.is_at(close, Terminal::CloseBrace), out);
    Ok(Some(close + 1))
}

/// Enumerators, or none.
fn optional_enumerators(
    text: &TypeNames,
    at: usize,
    depth_left: u32,
    out: &mut Builder,
) -> Result<usize, AllocError>
    requires here { at ≤ length text.now.terminals }
    ensures { ParsesAlways text.now (optional enumerators) at None out.old out.new result }
{
    let mark = out.checkpoint();
    let Some(next) = enumerators(text, at, depth_left, out)? else {
        out.cut(mark);
        return Ok(at);
    };
    Ok(next)
}

/// Enumerators with commas, behind the last of which a comma may stand.
fn enumerators(
    text: &TypeNames,
    at: usize,
    depth_left: u32,
    out: &mut Builder,
) -> Result<Option<usize>, AllocError>
    requires here { at ≤ length text.now.terminals }
    ensures { ParsesLongest text.now enumerators at None out.old out.new result }
{
    let Some(first) = enumerator_definition(text, at, depth_left, out)? else {
        return Ok(None);
    };
    let mut next = first;
    'items: while text.is_at(next, Terminal::Comma) {
        let mark = out.checkpoint();
        let Some(behind) = enumerator_definition(text, next + 1, depth_left, out)? else {
            out.cut(mark);
            return Ok(Some(next + 1));
        };
        next = behind;
    }
    Ok(Some(next))
}

/// An enumerator with its value, if it has one.
fn enumerator_definition(
    text: &TypeNames,
    at: usize,
    depth_left: u32,
    out: &mut Builder,
) -> Result<Option<usize>, AllocError>
    requires here { at ≤ length text.now.terminals }
    ensures { ParsesLongest text.now (form enumerator_definition) at None out.old out.new result }
{
    expect!(text.is_name_at(at), out);
    let start = out.checkpoint();
    let next = optional_value(text, at + 1, depth_left, out)?;
    node_at_token(text, NodeKind::EnumeratorDefinition, at as u32, start, out)?;
    Ok(Some(next))
}

/// `=` and the value of an enumerator, or nothing.
fn optional_value(
    text: &TypeNames,
    at: usize,
    depth_left: u32,
    out: &mut Builder,
) -> Result<usize, AllocError>
    requires here { at ≤ length text.now.terminals }
    ensures { ParsesAlways text.now (optional enumerator_value) at None out.old out.new result }
{
    if !text.is_at(at, Terminal::Equal) {
        out.expected_at(at);
        return Ok(at);
    }
    let mark = out.checkpoint();
    let Some(next) = conditional_expression(text, at + 1, depth_left, out)? else {
        out.cut(mark);
        return Ok(at);
    };
    Ok(next)
}
