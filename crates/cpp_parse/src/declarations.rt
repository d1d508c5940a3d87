//! Declarations of a unit: C++14 clause 7 and 8.4.

ghost use Rattle.std.specs.Prelude.{◌≡◌, ◌≤◌, true, length, Some, None};
ghost use Rattle.cpp_syntax.specs.Source.{terminal_at};
ghost use Rattle.cpp_syntax.specs.Terminals.{is_class_key};
ghost use Rattle.cpp_syntax.specs.Rules.{◌∣◌, form, many, declaration, simple_declaration, translation_unit};
ghost use Rattle.cpp_syntax.specs.Parsed.{ParsesLongest, ParsesAlways};
ghost use Rattle.cpp_parse.specs.Alternatives.{alias_declaration, class_declaration, class_specifier, linkage_specification, linkage_block};
ghost use Rattle.cpp_parse.specs.Answers.{LinkageSeen};
ghost use Rattle.cpp_syntax.specs.declared.limits.TheConstants.{MAX_TOKENS};

use crate::classes::{class_declaration, class_specifier, enum_specifier};
use crate::functions::simple_declaration;
use crate::specifiers::node_at_token;
use crate::terminals::is_class_key_at;
use cpp_ast::NodeKind;
use cpp_parse_expr::declarators::type_id;
use cpp_syntax::read::{leaf, node};
use cpp_syntax::{Builder, Terminal, TypeNames};
use std::alloc::AllocError;

/// The declarations of a unit, as many as follow one another.
pub fn translation_unit(
    text: &TypeNames,
    at: usize,
    depth_left: u32,
    out: &mut Builder,
) -> Result<usize, AllocError>
    requires here { at ≤ length text.now.terminals }
    ensures { ParsesAlways text.now (form translation_unit) at None out.old out.new result }
{
    let mut next = at;
    'declarations: loop {
        let mark = out.checkpoint();
        let Some(behind) = declaration(text, next, depth_left, out)? else {
            out.cut(mark);
            return Ok(next);
        };
        next = behind;
    }
}

/// A declaration of a unit.
pub fn declaration(
    text: &TypeNames,
    at: usize,
    depth_left: u32,
    out: &mut Builder,
) -> Result<Option<usize>, AllocError>
    requires here { at ≤ length text.now.terminals }
    ensures { ParsesLongest text.now (form declaration) at None out.old out.new result }
{
    if text.is_at(at, Terminal::Using) {
        return alias_declaration(text, at, depth_left, out);
    }
    if is_class_key_at(text, at) {
        return class_or_specifier(text, at, depth_left, out);
    }
    if text.is_at(at, Terminal::Enum) {
        return enum_specifier(text, at, depth_left, out);
    }
    if text.is_at(at, Terminal::Semicolon) {
        return Ok(Some(leaf(text, at, NodeKind::EmptyDeclaration, out)?));
    }
    if begins_linkage(text, at) {
        return linkage(text, at, depth_left, out);
    }
    simple_declaration(text, at, depth_left, out)
}

/// `using N = type;`
fn alias_declaration(
    text: &TypeNames,
    at: usize,
    depth_left: u32,
    out: &mut Builder,
) -> Result<Option<usize>, AllocError>
    requires here { at ≤ length text.now.terminals }
    ensures { ParsesLongest text.now alias_declaration at None out.old out.new result }
{
    expect!(text.is_at(at, Terminal::Using), out);
    let name = at + 1;
    expect!(text.is_name_at(name), out);
    let equal = name + 1;
    expect!(text.is_at(equal, Terminal::Equal), out);
    let start = out.checkpoint();
    let Some(end) = type_id(text, equal + 1, depth_left, out)? else {
        return Ok(None);
    };
    expect!(text.is_at(end, Terminal::Semicolon), out);
    node_at_token(text, NodeKind::AliasDeclaration, name as u32, start, out)?;
    Ok(Some(end + 1))
}

/// A class, declared alone or with its members.
fn class_or_specifier(
    text: &TypeNames,
    at: usize,
    depth_left: u32,
    out: &mut Builder,
) -> Result<Option<usize>, AllocError>
    requires here { at ≤ length text.now.terminals }
    requires begins { is_class_key (terminal_at text.now at) ≡ true }
    requires few { length text.now.terminals ≤ MAX_TOKENS }
    ensures { ParsesLongest text.now (class_declaration ∣ class_specifier) at None out.old out.new result }
{
    let name = at + 1;
    if text.is_at(name + 1, Terminal::Semicolon) {
        return class_declaration(text, at, out);
    }
    class_specifier(text, at, depth_left, out)
}

/// Whether `extern` and a string stand at an index.
fn begins_linkage(text: &TypeNames, at: usize) -> bool
    ensures { LinkageSeen text.now at result }
{
    if !text.is_at(at, Terminal::Extern) {
        return false;
    }
    text.is_at(at + 1, Terminal::String)
}

/// Declarations with the linkage of a language.
fn linkage(
    text: &TypeNames,
    at: usize,
    depth_left: u32,
    out: &mut Builder,
) -> Result<Option<usize>, AllocError>
    requires here { at ≤ length text.now.terminals }
    requires few { length text.now.terminals ≤ MAX_TOKENS }
    ensures { ParsesLongest text.now (linkage_specification ∣ linkage_block) at None out.old out.new result }
{
    let language = at + 1;
    if text.is_at(language + 1, Terminal::OpenBrace) {
        return linkage_block(text, at, depth_left, out);
    }
    linkage_specification(text, at, depth_left, out)
}

/// A declaration with the linkage of a language.
fn linkage_specification(
    text: &TypeNames,
    at: usize,
    depth_left: u32,
    out: &mut Builder,
) -> Result<Option<usize>, AllocError>
    requires here { at ≤ length text.now.terminals }
    ensures { ParsesLongest text.now linkage_specification at None out.old out.new result }
{
    expect!(text.is_at(at, Terminal::Extern), out);
    let language = at + 1;
    expect!(text.is_at(language, Terminal::String), out);
    let start = out.checkpoint();
    let Some(next) = simple_declaration(text, language + 1, depth_left, out)? else {
        return Ok(None);
    };
    node(
        text,
        at,
        NodeKind::LinkageSpecification,
        Some(language as u32),
        start,
        out,
    )?;
    Ok(Some(next))
}

/// Declarations in braces with the linkage of a language.
fn linkage_block(
    text: &TypeNames,
    at: usize,
    depth_left: u32,
    out: &mut Builder,
) -> Result<Option<usize>, AllocError>
    requires here { at ≤ length text.now.terminals }
    ensures { ParsesLongest text.now linkage_block at None out.old out.new result }
{
    expect!(text.is_at(at, Terminal::Extern), out);
    let language = at + 1;
    expect!(text.is_at(language, Terminal::String), out);
    let open = language + 1;
    expect!(text.is_at(open, Terminal::OpenBrace), out);
    let start = out.checkpoint();
    let close = simple_declarations(text, open + 1, depth_left, out)?;
    expect!(text.is_at(close, Terminal::CloseBrace), out);
    node(
        text,
        at,
        NodeKind::LinkageBlock,
        Some(language as u32),
        start,
        out,
    )?;
    Ok(Some(close + 1))
}

/// Simple declarations, as many as follow one another.
fn simple_declarations(
    text: &TypeNames,
    at: usize,
    depth_left: u32,
    out: &mut Builder,
) -> Result<usize, AllocError>
    requires here { at ≤ length text.now.terminals }
    ensures { ParsesAlways text.now (many (form simple_declaration)) at None out.old out.new result }
{
    let mut next = at;
    'declarations: loop {
        let mark = out.checkpoint();
        let Some(behind) = simple_declaration(text, next, depth_left, out)? else {
            out.cut(mark);
            return Ok(next);
        };
        next = behind;
    }
}
