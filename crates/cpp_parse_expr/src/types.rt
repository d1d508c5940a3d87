//! Types without their declarators: C++14 7.1.6.

ghost use Rattle.std.specs.Prelude.{◌≡◌, ◌≤◌, true, length, Some, None};
ghost use Rattle.cpp_ast.specs.declared.kinds.NodeKind.TheVariants.{SimpleTypeSpecifier};
ghost use Rattle.cpp_syntax.specs.Source.{terminal_at};
ghost use Rattle.cpp_syntax.specs.Terminals.{is_type_word, is_type_name};
ghost use Rattle.cpp_syntax.specs.Types.{spells_a_type};
ghost use Rattle.cpp_syntax.specs.Rules.{form, some, where_, whole, type_specifier_seq, type_specifier};
ghost use Rattle.cpp_syntax.specs.Grammar.{leaf, cv_qualifiers, type_name, tx_exception};
ghost use Rattle.cpp_syntax.specs.Parsed.{ParsesLongest, ParsesAlways};

use crate::declarators::type_id;
use cpp_ast::NodeKind;
use cpp_syntax::read::{leaf, node};
use cpp_syntax::shapes::descend;
use cpp_syntax::{Builder, Terminal, TypeNames};
use std::alloc::AllocError;

/// A type with `const` and `volatile` round it.
#[cycle(expressions)]
pub fn type_specifier_seq(
    text: &TypeNames,
    at: usize,
    depth_left: u32,
    out: &mut Builder,
) -> Result<Option<usize>, AllocError>
    requires here { at ≤ length text.now.terminals }
    ensures { ParsesLongest text.now (form (type_specifier_seq whole)) at None out.old out.new result }
{
    let start = out.checkpoint();
    let before = cv_qualifiers(text, at, out)?;
    let Some(behind) = type_specifier(text, before, depth_left, out)? else {
        return Ok(None);
    };
    let next = cv_qualifiers(text, behind, out)?;
    node(text, at, NodeKind::TypeSpecifierSeq, None, start, out)?;
    Ok(Some(next))
}

/// Any number of `const` and `volatile`.
pub fn cv_qualifiers(text: &TypeNames, at: usize, out: &mut Builder) -> Result<usize, AllocError>
    requires here { at ≤ length text.now.terminals }
    ensures { ParsesAlways text.now cv_qualifiers at None out.old out.new result }
{
    let mut next = at;
    'words: while text.is_cv_at(next) {
        next = leaf(text, next, NodeKind::CvQualifier, out)?;
    }
    Ok(next)
}

/// The words of a type, the name of one, or `std::tx_exception<..>`.
#[cycle(expressions)]
fn type_specifier(
    text: &TypeNames,
    at: usize,
    depth_left: u32,
    out: &mut Builder,
) -> Result<Option<usize>, AllocError>
    requires here { at ≤ length text.now.terminals }
    ensures { ParsesLongest text.now (form (type_specifier whole)) at None out.old out.new result }
{
    if text.is_type_word_at(at) {
        return Ok(Some(type_words(text, at, out)?));
    }
    if text.is_at(at, Terminal::TypeName) {
        return Ok(Some(leaf(text, at, NodeKind::TypeName, out)?));
    }
    tx_exception(text, at, depth_left, out)
}

/// The words that spell a type, as many as there are.
fn type_words(text: &TypeNames, at: usize, out: &mut Builder) -> Result<usize, AllocError>
    requires here { at ≤ length text.now.terminals }
    requires begins { is_type_word (terminal_at text.now at) ≡ true }
    ensures { ParsesAlways text.now (where_ spells_a_type (some (leaf SimpleTypeSpecifier is_type_word))) at None out.old out.new result }
{
    let end = text.behind_type_words(at);
    let mut next = leaf(text, at, NodeKind::SimpleTypeSpecifier, out)?;
    'words: while next < end {
        next = leaf(text, next, NodeKind::SimpleTypeSpecifier, out)?;
    }
    Ok(next)
}

/// The name of a type.
pub fn type_name(text: &TypeNames, at: usize, out: &mut Builder) -> Result<usize, AllocError>
    requires here { at ≤ length text.now.terminals }
    requires begins { is_type_name (terminal_at text.now at) ≡ true }
    ensures { ParsesAlways text.now type_name at None out.old out.new result }
{
    leaf(text, at, NodeKind::TypeName, out)
}

/// `std::tx_exception<type>`.
#[cycle(expressions)]
pub fn tx_exception(
    text: &TypeNames,
    at: usize,
    depth_left: u32,
    out: &mut Builder,
) -> Result<Option<usize>, AllocError>
    requires here { at ≤ length text.now.terminals }
    ensures { ParsesLongest text.now (tx_exception whole) at None out.old out.new result }
{
    let Some(from) = text.thrown_type(at) else {
        out.expected_at(at);
        return Ok(None);
    };
    let start = out.checkpoint();
    let Some(greater) = type_id(text, from, descend(depth_left)?, out)? else {
        return Ok(None);
    };
    expect!(text.is_at(greater, Terminal::Greater), out);
    node(
        text,
        at,
        NodeKind::TxException,
        Some((at + 2) as u32),
        start,
        out,
    )?;
    Ok(Some(greater + 1))
}
