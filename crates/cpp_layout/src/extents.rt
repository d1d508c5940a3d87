// The sizes and alignments of types, by that of the class whose values they hold.

ghost use Rattle.std.specs.Prelude.{◌≡◌, ◌≤◌, ◌<◌, ◌*◌, MatchOption, false};
ghost use Rattle.cpp_types.specs.Typ.{shape_form};
ghost use Rattle.cpp_layout.specs.Layout.{form_extent, kind_size, scalar};
ghost use Rattle.cpp_layout.specs.Measured.{Measured, is_vacant, shown};

use cpp_types::Shape;
use tx_ints::IntKind;

/// The greatest size of an object, in bytes.
pub const GREATEST_SIZE: u32 = 1_048_576;

/// A size and an alignment, in bytes.
#[derive(Clone, Copy, Debug, PartialEq, Eq)]
pub struct SizeAlign {
    pub size: u32,
    pub align: u32,
}

/// Aligned to its size.
pub fn scalar_of(size: u32) -> SizeAlign
    ensures { result ≡ record { size = size; align = size } }
{
    SizeAlign { size, align: size }
}

/// The size of an integer.
pub fn int_size(kind: IntKind) -> u32
    ensures value { result ≡ kind_size kind }
    ensures low { 1 ≤ result }
    ensures high { result ≤ 8 }
{
    match kind {
        IntKind::Bool | IntKind::Char | IntKind::SChar | IntKind::UChar => 1,
        IntKind::Short | IntKind::UShort => 2,
        IntKind::Int | IntKind::UInt => 4,
        IntKind::Long | IntKind::ULong | IntKind::LLong | IntKind::ULLong => 8,
    }
}

/// Whether a value of the shape is an array of no elements, or holds only such arrays.
pub fn has_no_elements(shape: &Shape) -> bool
    ensures { result ≡ is_vacant (shape_form shape.now) }
{
    match shape {
        Shape::Array(element, count) => *count == 0 || has_no_elements(&element.shape),
        Shape::TxEx(value) => has_no_elements(&value.shape),
        Shape::Void
        | Shape::Int(_)
        | Shape::Enum { .. }
        | Shape::Null
        | Shape::Ptr(_)
        | Shape::Ref(_)
        | Shape::Func(_)
        | Shape::Class(_)
        | Shape::Closure(_) => false,
    }
}

/// The extent of a shape whose values hold no class but `part`; `None` where its size passes the
/// greatest.
pub fn scaled(shape: &Shape, part: SizeAlign) -> Option<SizeAlign>
    requires part { Measured (shown part) part }
    requires elements { is_vacant (shape_form shape.now) ≡ false }
    ensures { MatchOption result (GREATEST_SIZE < (form_extent (λ n. shown part) (shape_form shape.now)).size) (λ s. Measured (form_extent (λ n. shown part) (shape_form shape.now)) s) }
{
    match shape {
        Shape::Int(kind) => Some(scalar_of(int_size(*kind))),
        Shape::Enum { .. } => Some(scalar_of(4)),
        Shape::Null | Shape::Ptr(_) | Shape::Ref(_) => Some(scalar_of(8)),
        Shape::Array(element, count) => times(scaled(&element.shape, part)?, *count),
        Shape::TxEx(value) => scaled(&value.shape, part),
        Shape::Class(_) | Shape::Closure(_) => Some(part),
        Shape::Void | Shape::Func(_) => Some(scalar_of(1)),
    }
}

// An array's extent, by that of its elements.
fn times(element: SizeAlign, count: u32) -> Option<SizeAlign>
    requires { Measured (shown element) element }
    ensures { MatchOption result (GREATEST_SIZE < count * element.size) (λ s. Measured (record { size = count * element.size; align = element.align }) s) }
{
    let size = count as u64 * element.size as u64;
    if size > GREATEST_SIZE as u64 {
        return None;
    }
    Some(SizeAlign {
        size: size as u32,
        align: element.align,
    })
}

// The alignment of a shape, by that of the class whose values it holds.
pub fn shape_align(shape: &Shape, part: u32) -> u32
    requires low { 1 ≤ part }
    requires high { part ≤ 8 }
    ensures value { result ≡ (form_extent (λ n. scalar part) (shape_form shape.now)).align }
    ensures low { 1 ≤ result }
    ensures high { result ≤ 8 }
{
    match shape {
        Shape::Int(kind) => int_size(*kind),
        Shape::Enum { .. } => 4,
        Shape::Null | Shape::Ptr(_) | Shape::Ref(_) => 8,
        Shape::Array(element, _) => shape_align(&element.shape, part),
        Shape::TxEx(value) => shape_align(&value.shape, part),
        Shape::Class(_) | Shape::Closure(_) => part,
        Shape::Void | Shape::Func(_) => 1,
    }
}
