//! Members of a class: C++14 clause 9.

ghost use Rattle.std.specs.Prelude.{◌≡◌, ◌≤◌, true, length, Some, None};
ghost use Rattle.cpp_syntax.specs.Source.{terminal_at};
ghost use Rattle.cpp_syntax.specs.FirstSets.{first_of_types};
ghost use Rattle.cpp_syntax.specs.Rules.{◌∣◌, form, member_declaration};
ghost use Rattle.cpp_syntax.specs.Parsed.{ParsesLongest};
ghost use Rattle.cpp_parse.specs.Alternatives.{access_label, single_declaration, initialized_declaration, listed_declaration, member_function};
ghost use Rattle.cpp_parse.specs.Alternatives.{constructor_declared, constructor_defined, destructor_declared, destructor_defined};
ghost use Rattle.cpp_parse.specs.Answers.{IsConstructor, IsDestructor, ParametersSeen};

use crate::constructors::{constructor_body, plain_constructor, plain_destructor};
use crate::single_members::{
    MemberHead, begins_values, data_members, function_or_single, inline_function, note_values,
    semicolon_end,
};
use crate::specifiers::{
    attribute_end, declared_token, node_from, optional_attribute, optional_explicit,
    optional_virtual, virt_specifiers,
};
use crate::statements::compound_statement;
use crate::terminals::{begins_type_at, is_access_at};
use cpp_ast::NodeKind;
use cpp_parse_expr::declarators::declarator;
use cpp_parse_expr::types::type_specifier_seq;
use cpp_syntax::read::node;
use cpp_syntax::{Builder, Naming, Terminal, TypeNames};
use std::alloc::AllocError;

/// A member of a class.
pub fn member_declaration(
    text: &TypeNames,
    at: usize,
    depth_left: u32,
    out: &mut Builder,
) -> Result<Option<usize>, AllocError>
    requires here { at ≤ length text.now.terminals }
    ensures { ParsesLongest text.now (form member_declaration) at None out.old out.new result }
{
    if is_access_at(text, at) {
        return access_label(text, at, out);
    }
    if is_destructor(text, at) {
        return destructor(text, at, depth_left, out);
    }
    if is_constructor(text, at) {
        return constructor(text, at, depth_left, out);
    }
    if begins_type_at(text, at) {
        return typed_member(text, at, depth_left, out);
    }
    specified_member(text, at, depth_left, out)
}

/// `public:`, `protected:` or `private:`.
fn access_label(text: &TypeNames, at: usize, out: &mut Builder) -> Result<Option<usize>, AllocError>
    requires here { at ≤ length text.now.terminals }
    ensures { ParsesLongest text.now access_label at None out.old out.new result }
{
    expect!(is_access_at(text, at), out);
    let colon = at + 1;
    expect!(text.is_at(colon, Terminal::Colon), out);
    let start = out.checkpoint();
    node(text, at, NodeKind::AccessLabel, Some(at as u32), start, out)?;
    Ok(Some(colon + 1))
}

/// Whether a member is a destructor: `~`, behind `virtual` or not.
fn is_destructor(text: &TypeNames, at: usize) -> bool
    ensures { IsDestructor text.now at result }
{
    if text.is_at(at, Terminal::Virtual) {
        return text.is_at(at + 1, Terminal::Tilde);
    }
    text.is_at(at, Terminal::Tilde)
}

/// A destructor, declared or defined.
fn destructor(
    text: &TypeNames,
    at: usize,
    depth_left: u32,
    out: &mut Builder,
) -> Result<Option<usize>, AllocError>
    requires here { at ≤ length text.now.terminals }
    ensures { ParsesLongest text.now (destructor_declared ∣ destructor_defined) at None out.old out.new result }
{
    let start = out.checkpoint();
    let named = optional_virtual(text, at, out)?;
    let Some(behind) = plain_destructor(text, named, out)? else {
        return Ok(None);
    };
    let end = virt_specifiers(text, behind, out)?;
    if text.is_at(end, Terminal::Semicolon) {
        node_from(text, at, NodeKind::DestructorDeclaration, start, out)?;
        return Ok(Some(end + 1));
    }
    let Some(next) = compound_statement(text, end, depth_left, out)? else {
        return Ok(None);
    };
    node_from(text, at, NodeKind::DestructorDefinition, start, out)?;
    Ok(Some(semicolon_end(text, next)))
}

/// Whether a member is a constructor: behind an attribute, `explicit`, or `T` with what parameters begin with in
/// parentheses.
fn is_constructor(text: &TypeNames, at: usize) -> bool
    requires here { at ≤ length text.now.terminals }
    ensures { IsConstructor text.now at result }
{
    let named = attribute_end(text, at);
    if text.is_at(named, Terminal::Explicit) {
        return true;
    }
    if !text.is_at(named, Terminal::TypeName) {
        return false;
    }
    let open = named + 1;
    if !text.is_at(open, Terminal::OpenParen) {
        return false;
    }
    begins_parameters(text, open + 1)
}

/// Whether parameters or `)` begin at an index, and no declarator that names something does.
fn begins_parameters(text: &TypeNames, at: usize) -> bool
    ensures { ParametersSeen text.now at result }
{
    if text.is_at(at, Terminal::CloseParen) {
        return true;
    }
    if text.is_at(at, Terminal::TypeName) {
        return !text.is_at(at + 1, Terminal::ColonColon);
    }
    begins_type_at(text, at)
}

/// A constructor, declared or defined.
fn constructor(
    text: &TypeNames,
    at: usize,
    depth_left: u32,
    out: &mut Builder,
) -> Result<Option<usize>, AllocError>
    requires here { at ≤ length text.now.terminals }
    ensures { ParsesLongest text.now (constructor_declared ∣ constructor_defined) at None out.old out.new result }
{
    let start = out.checkpoint();
    let behind = optional_attribute(text, at, out)?;
    let named = optional_explicit(text, behind, out)?;
    let Some(end) = plain_constructor(text, named, depth_left, out)? else {
        return Ok(None);
    };
    if text.is_at(end, Terminal::Semicolon) {
        node_from(text, at, NodeKind::ConstructorDeclaration, start, out)?;
        return Ok(Some(end + 1));
    }
    let Some(next) = constructor_body(text, end, depth_left, out)? else {
        return Ok(None);
    };
    node_from(text, at, NodeKind::ConstructorDefinition, start, out)?;
    Ok(Some(semicolon_end(text, next)))
}

/// A member that begins with its type.
fn typed_member(
    text: &TypeNames,
    at: usize,
    depth_left: u32,
    out: &mut Builder,
) -> Result<Option<usize>, AllocError>
    requires here { at ≤ length text.now.terminals }
    requires begins { first_of_types (terminal_at text.now at) ≡ true }
    ensures { ParsesLongest text.now (single_declaration ∣ initialized_declaration ∣ listed_declaration ∣ member_function) at None out.old out.new result }
{
    let start = out.checkpoint();
    let Some(named) = type_specifier_seq(text, at, depth_left, out)? else {
        return Ok(None);
    };
    let first = out.checkpoint();
    let Some(behind) = declarator(text, named, Naming::Named, depth_left, out)? else {
        return Ok(None);
    };
    let name = declared_token(first, out);
    let head = MemberHead {
        at,
        start,
        named,
        first,
        name,
        behind,
    };
    if begins_values(text, behind) {
        return data_members(text, head, depth_left, out);
    }
    function_or_single(text, head, depth_left, out)
}

/// A member before whose type an attribute, `virtual` or `inline` stands.
fn specified_member(
    text: &TypeNames,
    at: usize,
    depth_left: u32,
    out: &mut Builder,
) -> Result<Option<usize>, AllocError>
    requires here { at ≤ length text.now.terminals }
    ensures { ParsesLongest text.now (single_declaration ∣ member_function) at None out.old out.new result }
{
    let start = out.checkpoint();
    let after = optional_attribute(text, at, out)?;
    let typed = optional_virtual(text, after, out)?;
    if text.is_at(typed, Terminal::Inline) {
        return inline_function(text, at, start, typed, depth_left, out);
    }
    let Some(named) = type_specifier_seq(text, typed, depth_left, out)? else {
        return Ok(None);
    };
    let first = out.checkpoint();
    let Some(behind) = declarator(text, named, Naming::Named, depth_left, out)? else {
        return Ok(None);
    };
    let name = declared_token(first, out);
    note_values(text, behind, depth_left, out)?;
    let head = MemberHead {
        at,
        start,
        named,
        first,
        name,
        behind,
    };
    function_or_single(text, head, depth_left, out)
}
