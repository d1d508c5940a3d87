//! Declarations of objects and functions, and definitions of constructors and destructors outside their class: C++14
//! clause 7, 8.4 and 12.

ghost use Rattle.std.specs.Prelude.{◌≡◌, ◌≤◌, length, Some, None};
ghost use Rattle.cpp_syntax.specs.Rules.{◌∣◌, form, simple_declaration};
ghost use Rattle.cpp_syntax.specs.Parsed.{ParsesLongest};
ghost use Rattle.cpp_parse.specs.Alternatives.{object_declaration, function_definition, constructor_definition, destructor_definition, optional_inline};
ghost use Rattle.cpp_parse.specs.Answers.{NamedDefinition, OneDefinition, Reaches};

use crate::constructors::{constructor_body, qualified_constructor, qualified_destructor};
use crate::initializers::init_declarators;
use crate::specifiers::{
    attribute_end, declaration_head, node_from, optional_attribute, optional_inline,
};
use crate::statements::compound_statement;
use cpp_ast::NodeKind;
use cpp_parse_expr::declarators::declarator;
use cpp_syntax::{Builder, Naming, Terminal, TypeNames};
use std::alloc::AllocError;

/// What a simple declaration is, by its first tokens.
#[derive(Clone, Copy, Debug, PartialEq, Eq)]
pub enum Definition {
    /// A declaration of objects, or a function.
    Ordinary,
    /// A constructor.
    OfConstructor,
    /// A destructor.
    OfDestructor,
}

/// A declaration of objects or functions, or the definition of a function, of a constructor or of a destructor.
pub fn simple_declaration(
    text: &TypeNames,
    at: usize,
    depth_left: u32,
    out: &mut Builder,
) -> Result<Option<usize>, AllocError>
    requires here { at ≤ length text.now.terminals }
    ensures { ParsesLongest text.now (form simple_declaration) at None out.old out.new result }
{
    match definition_at(text, at) {
        Definition::Ordinary => ordinary_declaration(text, at, depth_left, out),
        Definition::OfConstructor => constructor_definition(text, at, depth_left, out),
        Definition::OfDestructor => destructor_definition(text, at, depth_left, out),
    }
}

/// What a simple declaration at an index is.
fn definition_at(text: &TypeNames, at: usize) -> Definition
    requires here { at ≤ length text.now.terminals }
    ensures { OneDefinition text.now at result }
{
    let behind = attribute_end(text, at);
    let named = inline_end(text, behind);
    named_definition(text, named)
}

/// The index behind `inline`, if it stands at an index.
fn inline_end(text: &TypeNames, at: usize) -> usize
    requires here { at ≤ length text.now.terminals }
    ensures { Reaches text.now optional_inline at result }
{
    if text.is_at(at, Terminal::Inline) {
        return at + 1;
    }
    at
}

/// What a declarator at an index is, behind what may stand before it: `T::T` begins that of a constructor, `T::~` that of a
/// destructor.
fn named_definition(text: &TypeNames, at: usize) -> Definition
    requires here { at ≤ length text.now.terminals }
    ensures { NamedDefinition text.now at result }
{
    if !text.is_at(at, Terminal::TypeName) {
        return Definition::Ordinary;
    }
    let colons = at + 1;
    if !text.is_at(colons, Terminal::ColonColon) {
        return Definition::Ordinary;
    }
    let name = colons + 1;
    if text.is_at(name, Terminal::Tilde) {
        return Definition::OfDestructor;
    }
    if text.is_at(name, Terminal::TypeName) {
        return Definition::OfConstructor;
    }
    Definition::Ordinary
}

/// A declaration of objects or functions, or the definition of a function.
fn ordinary_declaration(
    text: &TypeNames,
    at: usize,
    depth_left: u32,
    out: &mut Builder,
) -> Result<Option<usize>, AllocError>
    requires here { at ≤ length text.now.terminals }
    ensures { ParsesLongest text.now (object_declaration ∣ function_definition) at None out.old out.new result }
{
    let start = out.checkpoint();
    let Some(declared) = declaration_head(text, at, depth_left, out)? else {
        return Ok(None);
    };
    let mark = out.checkpoint();
    let Some(behind) = declarator(text, declared, Naming::Named, depth_left, out)? else {
        return Ok(None);
    };
    if text.is_at(behind, Terminal::OpenBrace) {
        let Some(next) = compound_statement(text, behind, depth_left, out)? else {
            return Ok(None);
        };
        node_from(text, at, NodeKind::FunctionDefinition, start, out)?;
        return Ok(Some(next));
    }
    out.cut(mark);
    let Some(end) = init_declarators(text, declared, Naming::Named, depth_left, out)? else {
        return Ok(None);
    };
    expect!(text.is_at(end, Terminal::Semicolon), out);
    node_from(text, at, NodeKind::SimpleDeclaration, start, out)?;
    Ok(Some(end + 1))
}

/// The definition of a constructor outside its class.
fn constructor_definition(
    text: &TypeNames,
    at: usize,
    depth_left: u32,
    out: &mut Builder,
) -> Result<Option<usize>, AllocError>
    requires here { at ≤ length text.now.terminals }
    ensures { ParsesLongest text.now constructor_definition at None out.old out.new result }
{
    let start = out.checkpoint();
    let behind = optional_attribute(text, at, out)?;
    let named = optional_inline(text, behind, out)?;
    let Some(body) = qualified_constructor(text, named, depth_left, out)? else {
        return Ok(None);
    };
    let Some(next) = constructor_body(text, body, depth_left, out)? else {
        return Ok(None);
    };
    node_from(text, at, NodeKind::ConstructorDefinition, start, out)?;
    Ok(Some(next))
}

/// The definition of a destructor outside its class.
fn destructor_definition(
    text: &TypeNames,
    at: usize,
    depth_left: u32,
    out: &mut Builder,
) -> Result<Option<usize>, AllocError>
    requires here { at ≤ length text.now.terminals }
    ensures { ParsesLongest text.now destructor_definition at None out.old out.new result }
{
    let start = out.checkpoint();
    let behind = optional_attribute(text, at, out)?;
    let named = optional_inline(text, behind, out)?;
    let Some(body) = qualified_destructor(text, named, out)? else {
        return Ok(None);
    };
    let Some(next) = compound_statement(text, body, depth_left, out)? else {
        return Ok(None);
    };
    node_from(text, at, NodeKind::DestructorDefinition, start, out)?;
    Ok(Some(next))
}
