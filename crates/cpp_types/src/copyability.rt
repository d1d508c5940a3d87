// Which types are copied byte by byte.

ghost use Rattle.std.specs.Prelude.{◌≡◌, IsTrue, ◌↔◌, map, slice_get};
ghost use Rattle.std.specs.List.{list_any};
ghost use Rattle.cpp_types.specs.Typ.{typ_of, typs_of, shape_form, signature_of};
ghost use Rattle.cpp_types.specs.Equal.{name_eq};
ghost use Rattle.cpp_types.specs.Class.{Member, InOrder, classes_of, class_of, member_of, function_of, held_form};
ghost use Rattle.cpp_types.specs.Conversion.{volatile_of};
ghost use Rattle.cpp_types.specs.Trivial.{refers_to, only_refers, takes_itself, is_destructor_name, hinders, is_plain, IsTrivialClass, IsTrivialForm, IsTriviallyCopyable};

use crate::classes::{ClassRec, FuncRec, MemberRec, record_at};
use crate::qualifiers::is_volatile;
use crate::types::{FnTy, Shape, Ty};

/// Whether a type is trivially copyable (C++14 3.9, clause 9): a scalar, a class whose parts have
/// no virtual function, no written copy constructor or destructor and no volatile member, or an
/// array or an exception of these, where it is not volatile.
pub fn trivially_copyable(ty: &Ty, classes: &[ClassRec]) -> bool
    requires { InOrder (classes_of classes.now) }
    ensures { IsTrue result ↔ IsTriviallyCopyable (classes_of classes.now) (typ_of ty.now) }
{
    !is_volatile(ty) && has_trivial_shape(&ty.shape, classes)
}

// The same, qualifiers apart.
fn has_trivial_shape(shape: &Shape, classes: &[ClassRec]) -> bool
    requires { InOrder (classes_of classes.now) }
    ensures { IsTrue result ↔ IsTrivialForm (classes_of classes.now) (shape_form shape.now) }
{
    match shape {
        Shape::Array(element, _) => has_trivial_shape(&element.shape, classes),
        Shape::TxEx(value) => has_trivial_shape(&value.shape, classes),
        Shape::Class(class) | Shape::Closure(class) => is_trivial_class(*class, classes),
        Shape::Void | Shape::Func(_) | Shape::Ref(_) => false,
        Shape::Int(_) | Shape::Enum { .. } | Shape::Null | Shape::Ptr(_) => true,
    }
}

// Whether all classes that make up a class are plain.
fn is_trivial_class(class: u32, classes: &[ClassRec]) -> bool
    requires { InOrder (classes_of classes.now) }
    ensures { IsTrue result ↔ IsTrivialClass (classes_of classes.now) class }
{
    let Some(found) = record_at(classes, class) else {
        return false;
    };
    if !is_plain_class(class, found) {
        return false;
    }
    for member in &found.members {
        if let Some(part) = held_class(&member.ty.shape)
            && !is_trivial_class(part, classes)
        {
            return false;
        }
    }
    match found.base {
        Some(base) => is_trivial_class(base, classes),
        None => true,
    }
}

/// The class that a value of this shape holds: its own, or that of its elements.
pub fn held_class(shape: &Shape) -> Option<u32>
    ensures { result ≡ held_form (shape_form shape.now) }
{
    match shape {
        Shape::Class(class) | Shape::Closure(class) => Some(*class),
        Shape::Array(element, _) => held_class(&element.shape),
        Shape::TxEx(value) => held_class(&value.shape),
        _ => None,
    }
}

// Whether a class is complete and has nothing of its own against copies byte by byte.
fn is_plain_class(class: u32, class_record: &ClassRec) -> bool
    ensures { result ≡ is_plain class (Some (class_of class_record.now)) }
{
    class_record.complete.is_some()
        && !has_hindrance(&class_record.functions, class, &class_record.name)
        && !has_volatile_member(&class_record.members)
}

// Whether one of the functions keeps its class from being copied byte by byte.
fn has_hindrance(functions: &[FuncRec], class: u32, name: &[u8]) -> bool
    ensures { result ≡ list_any (hinders class name.now) (map function_of functions.now) }
{
    for function in functions {
        if is_hindrance(function, class, name) {
            return true;
        }
    }
    false
}

// Whether the function keeps its class from being copied byte by byte.
fn is_hindrance(function: &FuncRec, class: u32, name: &[u8]) -> bool
    ensures { result ≡ hinders class name.now (function_of function.now) }
{
    function.is_virtual
        || is_name(&function.name, name) && takes_only(&function.ty, class)
        || names_destructor(&function.name)
}

/// Whether two names are one.
pub fn is_name(a: &[u8], b: &[u8]) -> bool
    ensures { result ≡ name_eq a.now b.now }
{
    a == b
}

// Whether a name begins with `~`.
fn names_destructor(name: &[u8]) -> bool
    ensures { result ≡ is_destructor_name name.now }
{
    match name {
        [first, ..] => *first == b'~',
        [] => false,
    }
}

/// Whether the one parameter is a reference to the class.
#[tactic(auto, using(crate::proofs::Views::signature_view))]
pub fn takes_only(function: &FnTy, class: u32) -> bool
    ensures { result ≡ takes_itself class (signature_of function.now) }
{
    is_one_reference(&function.params, class)
}

// Whether the one type of a list is a reference to the class.
fn is_one_reference(types: &[Ty], class: u32) -> bool
    ensures { result ≡ only_refers class (typs_of types.now) }
{
    types.len() == 1 && is_reference_to(&types[0], class)
}

// Whether a type is a reference to the class.
fn is_reference_to(ty: &Ty, class: u32) -> bool
    ensures { result ≡ refers_to class (typ_of ty.now) }
{
    match &ty.shape {
        Shape::Ref(target) => match &target.shape {
            Shape::Class(referred) => *referred == class,
            _ => false,
        },
        _ => false,
    }
}

// Whether one of the members is volatile.
fn has_volatile_member(members: &[MemberRec]) -> bool
    ensures { result ≡ list_any (λ (m : Member). volatile_of m.typ) (map member_of members.now) }
{
    for member in members {
        if is_volatile(&member.ty) {
            return true;
        }
    }
    false
}
