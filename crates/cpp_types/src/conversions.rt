// Implicit conversions of an argument, their ranks, and which of two is better.

ghost use Rattle.std.specs.Prelude.{◌≡◌, Bool, option_map};
ghost use Rattle.cpp_types.specs.Typ.{typ, typ_of, shape_form, signature_of};
ghost use Rattle.cpp_types.specs.Class.{classes_of, base_of, completion_of};
ghost use Rattle.cpp_types.specs.Conversion.{keeps, base_steps, to_base, drops_safe, pointed_step, pointer_step, other_step, value_step, step_of, decayed, promotes, is_object, related_step, temporary, direct, reference_conversion, bound, has_value, conversion_to, conversion_of, rank_of};

use crate::classes::ClassRec;
use crate::equality::{equal_kinds, equal_lists, equal_shapes, equal_types};
use crate::qualifiers::{Widening, is_only_const, keeps_qualifiers, same_bare, widening_between};
use crate::ranks::{Binding, Cat, Conversion, Rank, Step};
use crate::types::{FnTy, Shape, Ty};
use tx_ints::{IntKind, promote};

// The base of a complete class.
fn base_of_complete(classes: &[ClassRec], class: u32) -> Option<u32>
    ensures { result ≡ base_of (classes_of classes.now) class }
{
    let record = classes.get(class as usize)?;
    match record.complete {
        Some(_) => record.base,
        None => None,
    }
}

/// How many classes were completed before this one.
pub(crate) fn completion(classes: &[ClassRec], class: u32) -> Option<u32>
    ensures { result ≡ completion_of (classes_of classes.now) class }
{
    classes.get(class as usize)?.complete
}

/// How many steps up its chain of bases a class has `base`; `None` where it is no base of it.
pub fn steps_to_base(classes: &[ClassRec], class: u32, base: u32) -> Option<u32>
    ensures { result ≡ base_steps (classes_of classes.now) class base }
{
    let most = completion(classes, class)?;
    let mut below = class;
    for passed in 0..most {
        let next = base_of_complete(classes, below)?;
        if next == base {
            return Some(passed + 1);
        }
        below = next;
    }
    None
}

// The conversion of a class to its base.
fn step_to_base(classes: &[ClassRec], class: u32, base: u32) -> Option<Step>
    ensures { result ≡ to_base (classes_of classes.now) class base }
{
    match steps_to_base(classes, class, base) {
        Some(steps) => Some(Step::ToBase(steps)),
        None => None,
    }
}

// Whether the second type of functions is the first without `transaction_safe`.
#[tactic(auto, using(crate::proofs::Views::signature_view))]
fn loses_safety(from: &FnTy, to: &FnTy) -> bool
    ensures { result ≡ drops_safe (signature_of from.now) (signature_of to.now) }
{
    from.safe
        && !to.safe
        && equal_types(&from.ret, &to.ret)
        && equal_lists(&from.params, &to.params)
}

// Whether one pair of qualifiers has those of another.
fn keeps_flags(is_const: bool, is_volatile: bool, to: &Ty) -> bool
    ensures { result ≡ keeps is_const is_volatile to.now.is_const to.now.is_volatile }
{
    (!is_const || to.is_const) && (!is_volatile || to.is_volatile)
}

// The conversion of a pointer to a type of this shape, with these qualifiers, where not the
// qualifiers alone change.
fn pointed(
    classes: &[ClassRec],
    shape: &Shape,
    is_const: bool,
    is_volatile: bool,
    to: &Ty,
) -> Option<Step>
    ensures { result ≡ pointed_step (classes_of classes.now) (typ (shape_form shape.now) is_const is_volatile) (typ_of to.now) }
{
    match (shape, &to.shape) {
        (Shape::Class(class), Shape::Class(base)) => {
            if keeps_flags(is_const, is_volatile, to) {
                step_to_base(classes, *class, *base)
            } else {
                None
            }
        }
        (Shape::Func(from), Shape::Func(function)) => {
            if loses_safety(from, function) {
                Some(Step::DropSafe)
            } else {
                None
            }
        }
        _ => None,
    }
}

// The conversion of a pointer to a type of this shape with these qualifiers.
fn from_pointer(
    classes: &[ClassRec],
    shape: &Shape,
    is_const: bool,
    is_volatile: bool,
    to: &Shape,
) -> Option<Step>
    ensures { result ≡ pointer_step (classes_of classes.now) (typ (shape_form shape.now) is_const is_volatile) (shape_form to.now) }
{
    match to {
        Shape::Ptr(target) => match widening_between(shape, is_const, is_volatile, target) {
            Some(Widening::Alike) => Some(Step::Identity),
            Some(Widening::Wider) => Some(Step::Qualify),
            None => pointed(classes, shape, is_const, is_volatile, target),
        },
        Shape::Int(IntKind::Bool) => Some(Step::PointerToBool),
        _ => None,
    }
}

// Whether the second kind of integers is the one that the first is promoted to (C++14 4.5).
fn is_promotion(from: IntKind, to: IntKind) -> bool
    ensures { result ≡ promotes from to }
{
    equal_kinds(promote(from), to)
}

// The conversion of a value that is no pointer to one of another form.
fn to_other(classes: &[ClassRec], is_literal_zero: bool, from: &Shape, to: &Shape) -> Option<Step>
    ensures { result ≡ other_step (classes_of classes.now) is_literal_zero (shape_form from.now) (shape_form to.now) }
{
    match (from, to) {
        (Shape::Int(from_kind), Shape::Int(to_kind)) => {
            if is_promotion(*from_kind, *to_kind) {
                Some(Step::Promote)
            } else {
                Some(Step::Integral)
            }
        }
        (Shape::Int(_), Shape::Ptr(_)) => {
            if is_literal_zero {
                Some(Step::NullPointer)
            } else {
                None
            }
        }
        (Shape::Enum { scoped: false, .. }, Shape::Int(IntKind::Int)) => Some(Step::Promote),
        (Shape::Enum { scoped: false, .. }, Shape::Int(_)) => Some(Step::Integral),
        (Shape::Null, Shape::Ptr(_)) => Some(Step::NullPointer),
        (Shape::Class(class), Shape::Class(base)) => step_to_base(classes, *class, *base),
        _ => None,
    }
}

// The conversion of a value that is no pointer.
fn from_value(classes: &[ClassRec], is_literal_zero: bool, from: &Shape, to: &Shape) -> Option<Step>
    ensures { result ≡ value_step (classes_of classes.now) is_literal_zero (shape_form from.now) (shape_form to.now) }
{
    if equal_shapes(from, to) {
        Some(Step::Identity)
    } else {
        to_other(classes, is_literal_zero, from, to)
    }
}

// The conversion of the value of an expression.
fn value(classes: &[ClassRec], is_literal_zero: bool, from: &Ty, to: &Shape) -> Option<Step>
    ensures { result ≡ step_of (classes_of classes.now) is_literal_zero (decayed (typ_of from.now)) (shape_form to.now) }
{
    match &from.shape {
        Shape::Ptr(target) => from_pointer(
            classes,
            &target.shape,
            target.is_const,
            target.is_volatile,
            to,
        ),
        Shape::Array(element, _) => from_pointer(
            classes,
            &element.shape,
            element.is_const || from.is_const,
            element.is_volatile || from.is_volatile,
            to,
        ),
        Shape::Func(_) => from_pointer(classes, &from.shape, false, false, to),
        Shape::Void
        | Shape::Int(_)
        | Shape::Enum { .. }
        | Shape::Null
        | Shape::Ref(_)
        | Shape::Class(_)
        | Shape::Closure(_)
        | Shape::TxEx(_) => from_value(classes, is_literal_zero, &from.shape, to),
    }
}

// A reference bound to a temporary that has the converted value.
fn to_temporary(
    classes: &[ClassRec],
    is_literal_zero: bool,
    from: &Ty,
    to: &Ty,
) -> Option<Conversion>
    ensures { result ≡ temporary (classes_of classes.now) is_literal_zero (typ_of from.now) (typ_of to.now) }
{
    if !is_only_const(to) {
        return None;
    }
    match value(classes, is_literal_zero, from, &to.shape) {
        Some(step) => Some(Conversion {
            step,
            binding: Binding::Temporary,
        }),
        None => None,
    }
}

// The same type or a base of it, qualifiers aside (C++14 8.5.3).
fn related(classes: &[ClassRec], from: &Ty, to: &Ty) -> Option<Step>
    ensures { result ≡ related_step (classes_of classes.now) (typ_of from.now) (typ_of to.now) }
{
    if same_bare(&from.shape, &to.shape) {
        return Some(Step::Identity);
    }
    match (&from.shape, &to.shape) {
        (Shape::Class(class), Shape::Class(base)) => step_to_base(classes, *class, *base),
        _ => None,
    }
}

// A reference bound to an object of the same type or to its base.
fn to_object(cat: Cat, from: &Ty, to: &Ty, step: Step) -> Option<Conversion>
    ensures { result ≡ direct cat (typ_of from.now) (typ_of to.now) step }
{
    let may_bind = match cat {
        Cat::Lvalue => true,
        Cat::Prvalue => is_only_const(to),
    };
    if keeps_qualifiers(from, to) && may_bind {
        Some(Conversion {
            step,
            binding: Binding::Direct,
        })
    } else {
        None
    }
}

// Whether an expression stands for an object of its own type.
fn stands_for_object(cat: Cat, from: &Shape) -> bool
    ensures { (c v : Bool) → result ≡ is_object cat (typ (shape_form from.now) c v) }
{
    match cat {
        Cat::Lvalue => true,
        Cat::Prvalue => match from {
            Shape::Class(_) | Shape::Closure(_) | Shape::TxEx(_) => true,
            _ => false,
        },
    }
}

// A reference bound to an expression (C++14 8.5.3).
fn to_reference(
    classes: &[ClassRec],
    cat: Cat,
    is_literal_zero: bool,
    from: &Ty,
    to: &Ty,
) -> Option<Conversion>
    ensures { result ≡ reference_conversion (classes_of classes.now) cat is_literal_zero (typ_of from.now) (typ_of to.now) }
{
    if stands_for_object(cat, &from.shape) {
        if let Some(step) = related(classes, from, to) {
            return to_object(cat, from, to, step);
        }
    }
    to_temporary(classes, is_literal_zero, from, to)
}

// Whether an expression of this shape has a value or stands for an object: none has a reference
// type (C++14 clause 5), and one of type `void` has no value.
fn is_convertible(from: &Shape) -> bool
    ensures { (c v : Bool) → result ≡ has_value (typ (shape_form from.now) c v) }
{
    match from {
        Shape::Void | Shape::Ref(_) => false,
        _ => true,
    }
}

// An object initialised with the converted value.
fn to_value(
    classes: &[ClassRec],
    is_literal_zero: bool,
    from: &Ty,
    to: &Shape,
) -> Option<Conversion>
    ensures { result ≡ bound Binding.Value (step_of (classes_of classes.now) is_literal_zero (decayed (typ_of from.now)) (shape_form to.now)) }
{
    match value(classes, is_literal_zero, from, to) {
        Some(step) => Some(Conversion {
            step,
            binding: Binding::Value,
        }),
        None => None,
    }
}

// A reference or an object initialised by an expression that has a value.
fn to_type(
    classes: &[ClassRec],
    cat: Cat,
    is_literal_zero: bool,
    from: &Ty,
    to: &Ty,
) -> Option<Conversion>
    ensures { result ≡ conversion_to (classes_of classes.now) cat is_literal_zero (typ_of from.now) (typ_of to.now) }
{
    match &to.shape {
        Shape::Ref(target) => to_reference(classes, cat, is_literal_zero, from, target),
        Shape::Void
        | Shape::Int(_)
        | Shape::Enum { .. }
        | Shape::Null
        | Shape::Ptr(_)
        | Shape::Array(_, _)
        | Shape::Func(_)
        | Shape::Class(_)
        | Shape::Closure(_)
        | Shape::TxEx(_) => to_value(classes, is_literal_zero, from, &to.shape),
    }
}

/// The implicit conversion of an expression of type `from` to the type `to`, and `None` where
/// there is none (C++14 clause 4, 8.5.3, 13.3.3.1).
///
/// `null_constant` says that the expression is a literal 0; `nullptr` is known by its type.
pub fn conversion_between(
    from: &Ty,
    cat: Cat,
    null_constant: bool,
    to: &Ty,
    classes: &[ClassRec],
) -> Option<Conversion>
    ensures { result ≡ conversion_of (classes_of classes.now) (typ_of from.now) cat null_constant (typ_of to.now) }
{
    if is_convertible(&from.shape) {
        to_type(classes, cat, null_constant, from, to)
    } else {
        None
    }
}

/// The rank of the implicit conversion of an expression of type `from` to the type `to`, and
/// `None` where there is none (C++14 13.3.3.1.1).
pub fn rank(from: &Ty, cat: Cat, null_constant: bool, to: &Ty, classes: &[ClassRec]) -> Option<Rank>
    ensures { result ≡ option_map rank_of (conversion_of (classes_of classes.now) (typ_of from.now) cat null_constant (typ_of to.now)) }
{
    match conversion_between(from, cat, null_constant, to, classes) {
        Some(found) => Some(found.rank()),
        None => None,
    }
}
