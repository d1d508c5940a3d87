//! What stands at the root of a tree, taken apart.

ghost use Rattle.std.specs.Prelude.{◌≡◌};
ghost use Rattle.src_mean.specs.Source.{is_case as is_case_kind, is_default as is_default_kind, case_word as word_of_case};
ghost use Rattle.symbolic_leaving.specs.Kinds.{destroy_in, field_in, place_in};

use cpp_tree::TKind;
use cpp_tree::below::IntKind;

/// A field of an exception.
#[derive(Clone, Copy, Debug, PartialEq, Eq)]
pub struct FieldAt {
    pub offset: u32,
    pub kind: IntKind,
}

/// The destruction of objects that are alike: the destructor, their offset, and how many stand how far apart.
#[derive(Clone, Copy, Debug, PartialEq, Eq)]
pub struct Destruction {
    pub func: u32,
    pub offset: u32,
    pub count: u32,
    pub stride: u32,
}

/// A field, if it is one.
pub fn field_of(kind: TKind) -> Option<FieldAt>
    ensures { result ≡ field_in kind }
{
    match kind {
        TKind::Field { offset, kind } => Some(FieldAt { offset, kind }),
        _ => None,
    }
}

/// A destruction, if it is one.
pub fn destruction_of(kind: TKind) -> Option<Destruction>
    ensures { result ≡ destroy_in kind }
{
    match kind {
        TKind::Destroy {
            func,
            offset,
            count,
            stride,
        } => Some(Destruction {
            func,
            offset,
            count,
            stride,
        }),
        _ => None,
    }
}

/// The place of a handler's object, if there is one.
pub fn handler_place(kind: TKind) -> Option<u32>
    ensures { result ≡ place_in kind }
{
    match kind {
        TKind::Handler { place } => place,
        _ => None,
    }
}

/// Whether it is a `case`.
pub fn is_case(kind: TKind) -> bool
    ensures { result ≡ is_case_kind kind }
{
    match kind {
        TKind::Case { word: _ } => true,
        _ => false,
    }
}

/// Whether it is `default`.
pub fn is_default(kind: TKind) -> bool
    ensures { result ≡ is_default_kind kind }
{
    match kind {
        TKind::Default => true,
        _ => false,
    }
}

/// The word of a label.
pub fn case_word(kind: TKind) -> u64
    ensures { result ≡ word_of_case kind }
{
    match kind {
        TKind::Case { word } => word,
        _ => 0,
    }
}
