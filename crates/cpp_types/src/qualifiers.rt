// `const` and `volatile`, and what one type adds of them to another.

ghost use Rattle.std.specs.Prelude.{◌≡◌};
ghost use Rattle.cpp_types.specs.Typ.{typ, typ_of, shape_form};
ghost use Rattle.cpp_types.specs.Equal.{form_eq};
ghost use Rattle.cpp_types.specs.Conversion.{const_of, const_elements, volatile_of, volatile_elements, bare_form, keeps, flags_added, both_added, deeper, bare_widening, widening_of, is_wider, only_const};

use crate::equality::equal_shapes;
use crate::types::{Shape, Ty};

/// How a type goes over into another by qualifiers alone.
#[derive(Clone, Copy)]
pub enum Widening {
    /// Nothing is added.
    Alike,
    /// `const` or `volatile` is added.
    Wider,
}

// Whether the elements of an array are `const`.
#[cycle(constant)]
fn has_const_elements(shape: &Shape) -> bool
    ensures { result ≡ const_elements (shape_form shape.now) }
{
    match shape {
        Shape::Array(element, _) => is_const(element),
        _ => false,
    }
}

/// Whether a type is `const`; an array is where its elements are (C++14 3.9.3).
#[cycle(constant)]
pub(crate) fn is_const(ty: &Ty) -> bool
    ensures { result ≡ const_of (typ_of ty.now) }
{
    ty.is_const || has_const_elements(&ty.shape)
}

// Whether the elements of an array are `volatile`.
#[cycle(volatiles)]
fn has_volatile_elements(shape: &Shape) -> bool
    ensures { result ≡ volatile_elements (shape_form shape.now) }
{
    match shape {
        Shape::Array(element, _) => is_volatile(element),
        _ => false,
    }
}

/// Whether a type is `volatile`; an array is where its elements are (C++14 3.9.3).
#[cycle(volatiles)]
pub(crate) fn is_volatile(ty: &Ty) -> bool
    ensures { result ≡ volatile_of (typ_of ty.now) }
{
    ty.is_volatile || has_volatile_elements(&ty.shape)
}

/// Whether a type is `const` and not `volatile`.
pub(crate) fn is_only_const(ty: &Ty) -> bool
    ensures { result ≡ only_const (typ_of ty.now) }
{
    is_const(ty) && !is_volatile(ty)
}

/// Whether two types are one, the qualifiers of both and of their elements apart.
pub(crate) fn same_bare(a: &Shape, b: &Shape) -> bool
    ensures { result ≡ form_eq (bare_form (shape_form a.now)) (bare_form (shape_form b.now)) }
{
    match a {
        Shape::Array(s, m) => match b {
            Shape::Array(t, n) => *m == *n && same_bare(&s.shape, &t.shape),
            _ => false,
        },
        _ => match b {
            Shape::Array(_, _) => false,
            _ => equal_shapes(a, b),
        },
    }
}

/// Whether the second type has the qualifiers of the first.
pub(crate) fn keeps_qualifiers(a: &Ty, b: &Ty) -> bool
    ensures { result ≡ keeps (const_of (typ_of a.now)) (volatile_of (typ_of a.now)) (const_of (typ_of b.now)) (volatile_of (typ_of b.now)) }
{
    (!is_const(a) || is_const(b)) && (!is_volatile(a) || is_volatile(b))
}

/// What two qualifiers add to two others that they keep.
pub(crate) fn added(
    is_const: bool,
    is_volatile: bool,
    becomes_const: bool,
    becomes_volatile: bool,
) -> Option<Widening>
    ensures { result ≡ flags_added is_const is_volatile becomes_const becomes_volatile }
{
    if is_const && !becomes_const || is_volatile && !becomes_volatile {
        None
    } else if is_const == becomes_const && is_volatile == becomes_volatile {
        Some(Widening::Alike)
    } else {
        Some(Widening::Wider)
    }
}

// What a type and what is below it add together.
fn joined(own: Option<Widening>, below: Option<Widening>) -> Option<Widening>
    ensures { result ≡ both_added own below }
{
    match (own, below) {
        (Some(Widening::Alike), _) => below,
        (Some(Widening::Wider), Some(_)) => Some(Widening::Wider),
        (Some(Widening::Wider), None) | (None, _) => None,
    }
}

// What is added below a pointer that is `const` or not.
fn below(is_const: bool, target: Option<Widening>) -> Option<Widening>
    ensures { result ≡ deeper is_const target }
{
    match target {
        Some(Widening::Wider) if !is_const => None,
        _ => target,
    }
}

/// What `to` adds, below a pointer, to a type of this shape with these qualifiers (C++14 4.4);
/// `None` where it is not that type with qualifiers added.
pub(crate) fn widening_between(
    shape: &Shape,
    is_const: bool,
    is_volatile: bool,
    to: &Ty,
) -> Option<Widening>
    ensures { result ≡ widening_of (typ (shape_form shape.now) is_const is_volatile) (typ_of to.now) }
{
    match (shape, &to.shape) {
        (Shape::Ptr(s), Shape::Ptr(t)) => joined(
            added(is_const, is_volatile, to.is_const, to.is_volatile),
            below(
                to.is_const,
                widening_between(&s.shape, s.is_const, s.is_volatile, t),
            ),
        ),
        _ => widening_of_bare(shape, is_const, is_volatile, to),
    }
}

// The same where not both are pointers.
fn widening_of_bare(
    shape: &Shape,
    is_const_itself: bool,
    is_volatile_itself: bool,
    to: &Ty,
) -> Option<Widening>
    ensures { result ≡ bare_widening (typ (shape_form shape.now) is_const_itself is_volatile_itself) (typ_of to.now) }
{
    if same_bare(shape, &to.shape) {
        added(
            is_const_itself || has_const_elements(shape),
            is_volatile_itself || has_volatile_elements(shape),
            is_const(to),
            is_volatile(to),
        )
    } else {
        None
    }
}

/// Whether something is added.
pub(crate) fn is_widened(added: Option<Widening>) -> bool
    ensures { result ≡ is_wider added }
{
    matches!(added, Some(Widening::Wider))
}
