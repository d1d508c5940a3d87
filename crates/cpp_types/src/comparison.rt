// Which of two conversions of one expression is better.

ghost use Rattle.std.specs.Prelude.{◌≡◌, ◌≤◌};
ghost use Rattle.cpp_types.specs.Typ.{typ_of};
ghost use Rattle.cpp_types.specs.Conversion.{rank_ordinal, better_step, is_null_step, wider_reference, wider_pointer, referred, less_added, better_conversion};

use crate::qualifiers::{added, is_const, is_volatile, is_widened, same_bare, widening_between};
use crate::ranks::{Conversion, Rank, Step};
use crate::types::{Shape, Ty};

// The number of a rank among all, the best first.
fn ordinal(of: Rank) -> u8
    ensures value { result ≡ rank_ordinal of }
    ensures small { result ≤ 3 }
{
    match of {
        Rank::Exact => 0,
        Rank::Adjusted => 1,
        Rank::Promotion => 2,
        Rank::Conversion => 3,
    }
}

// Of two conversions of one rank, one that is no pointer to `bool`, and the nearer base.
fn has_better_step(a: Step, b: Step) -> bool
    ensures { result ≡ better_step a b }
{
    match (a, b) {
        (Step::PointerToBool, _) => false,
        (_, Step::PointerToBool) => true,
        (Step::ToBase(m), Step::ToBase(n)) => m < n,
        _ => false,
    }
}

// Whether the second of two references refers to the type of the first with qualifiers added.
fn refers_wider(to: &Ty, other: &Ty) -> bool
    ensures { result ≡ wider_reference (typ_of to.now) (typ_of other.now) }
{
    match (&to.shape, &other.shape) {
        (Shape::Ref(s), Shape::Ref(t)) => {
            same_bare(&s.shape, &t.shape)
                && is_widened(added(is_const(s), is_volatile(s), is_const(t), is_volatile(t)))
        }
        _ => false,
    }
}

// The type that a reference refers to, and any other type itself.
fn value_type(ty: &Ty) -> &Ty
    ensures { typ_of result.now ≡ referred (typ_of ty.now) }
{
    match &ty.shape {
        Shape::Ref(target) => target,
        _ => ty,
    }
}

// Whether the second of two pointers points to the type of the first with qualifiers added.
fn points_wider(to: &Ty, other: &Ty) -> bool
    ensures { result ≡ wider_pointer (typ_of to.now) (typ_of other.now) }
{
    match (&to.shape, &other.shape) {
        (Shape::Ptr(s), Shape::Ptr(t)) => {
            is_widened(widening_between(&s.shape, s.is_const, s.is_volatile, t))
        }
        _ => false,
    }
}

// Whether the value is a null constant's.
fn is_null(step: Step) -> bool
    ensures { result ≡ is_null_step step }
{
    matches!(step, Step::NullPointer)
}

// Whether a conversion to `to` adds fewer qualifiers than one to `other`.
fn has_fewer(a: Step, to: &Ty, b: Step, other: &Ty) -> bool
    ensures { result ≡ less_added a (typ_of to.now) b (typ_of other.now) }
{
    refers_wider(to, other)
        || !is_null(a) && !is_null(b) && points_wider(value_type(to), value_type(other))
}

/// Whether the conversion `a` of an expression to the type `to` is better than the conversion
/// `b` of the same expression to the type `other` (C++14 13.3.3.2).
pub fn better(a: Conversion, to: &Ty, b: Conversion, other: &Ty) -> bool
    ensures { result ≡ better_conversion a (typ_of to.now) b (typ_of other.now) }
{
    let first = ordinal(a.rank());
    let second = ordinal(b.rank());
    if first != second {
        return first < second;
    }
    has_better_step(a.step, b.step) || has_fewer(a.step, to, b.step, other)
}
