// Classes whose numbers are those of a list, and whose parts were complete before (C++14 9.2, clause 10).

ghost use Rattle.std.specs.Prelude.{◌≡◌, length, map};
ghost use Rattle.cpp_types.specs.Typ.{typ_of, typs_of, shape_form, signature_of};
ghost use Rattle.cpp_types.specs.Class.{classes_of, class_of, member_of, function_of, completion_of, typ_below, form_below, signature_below, typs_below};
ghost use Rattle.cpp_types.specs.Order.{each_passes, is_below, members_below, functions_below, class_below, is_complete_below, members_earlier, holds_earlier};

use cpp_types::classes::record_at;
use cpp_types::copyability::held_class;
use cpp_types::{ClassRec, FnTy, FuncRec, MemberRec, Shape, Ty};

/// Whether each class number in a class is below the limit.
pub fn is_class_below(class_record: &ClassRec, limit: usize) -> bool
    ensures { result ≡ class_below limit (class_of class_record.now) }
{
    is_base_below(class_record.base, limit)
        && are_members_below(&class_record.members, limit)
        && are_functions_below(&class_record.functions, limit)
}

fn is_base_below(base: Option<u32>, limit: usize) -> bool
    ensures { result ≡ each_passes (is_below limit) base }
{
    match base {
        Some(class) => (class as usize) < limit,
        None => true,
    }
}

fn are_members_below(members: &[MemberRec], limit: usize) -> bool
    ensures { result ≡ members_below limit (map member_of members.now) }
{
    for member in members {
        if !is_type_below(&member.ty, limit) {
            return false;
        }
    }
    true
}

fn are_functions_below(functions: &[FuncRec], limit: usize) -> bool
    ensures { result ≡ functions_below limit (map function_of functions.now) }
{
    for function in functions {
        if !is_function_below(&function.ty, limit) {
            return false;
        }
    }
    true
}

// Whether each class number in a type is below the limit.
#[cycle(below)]
fn is_type_below(ty: &Ty, limit: usize) -> bool
    ensures { result ≡ typ_below limit (typ_of ty.now) }
{
    is_shape_below(&ty.shape, limit)
}

#[cycle(below)]
fn is_shape_below(shape: &Shape, limit: usize) -> bool
    ensures { result ≡ form_below limit (shape_form shape.now) }
{
    match shape {
        Shape::Ptr(inner) | Shape::Ref(inner) | Shape::TxEx(inner) => is_type_below(inner, limit),
        Shape::Array(element, _) => is_type_below(element, limit),
        Shape::Func(function) => is_function_below(function, limit),
        Shape::Class(class) | Shape::Closure(class) => (*class as usize) < limit,
        Shape::Void | Shape::Int(_) | Shape::Enum { .. } | Shape::Null => true,
    }
}

#[cycle(below)]
#[tactic(auto, using(cpp_types::proofs::Views::signature_view))]
fn is_function_below(function: &FnTy, limit: usize) -> bool
    ensures { result ≡ signature_below limit (signature_of function.now) }
{
    are_types_below(&function.params, limit) && is_type_below(&function.ret, limit)
}

#[cycle(below)]
fn are_types_below(types: &[Ty], limit: usize) -> bool
    ensures { result ≡ typs_below limit (typs_of types.now) }
{
    for ty in types {
        if !is_type_below(ty, limit) {
            return false;
        }
    }
    true
}

/// Whether a class holds only what was complete before `limit` classes were.
pub fn is_after_parts(class_record: &ClassRec, classes: &[ClassRec], limit: u32) -> bool
    ensures { result ≡ holds_earlier (classes_of classes.now) (class_of class_record.now) limit }
{
    is_part_earlier(class_record.base, classes, limit)
        && are_members_earlier(&class_record.members, classes, limit)
}

fn are_members_earlier(members: &[MemberRec], classes: &[ClassRec], limit: u32) -> bool
    ensures { result ≡ members_earlier (classes_of classes.now) limit (map member_of members.now) }
{
    for member in members {
        if !is_part_earlier(held_class(&member.ty.shape), classes, limit) {
            return false;
        }
    }
    true
}

// Whether a class, where there is one, was complete before `limit` classes were.
fn is_part_earlier(part: Option<u32>, classes: &[ClassRec], limit: u32) -> bool
    ensures { result ≡ each_passes (is_complete_below (classes_of classes.now) limit) part }
{
    match part {
        Some(class) => was_complete(classes, limit, class),
        None => true,
    }
}

fn was_complete(classes: &[ClassRec], limit: u32, class: u32) -> bool
    ensures { result ≡ is_complete_below (classes_of classes.now) limit class }
{
    match completed_after(classes, class) {
        Some(number) => number < limit,
        None => false,
    }
}

// How many classes were completed before a class.
fn completed_after(classes: &[ClassRec], class: u32) -> Option<u32>
    ensures { result ≡ completion_of (classes_of classes.now) class }
{
    record_at(classes, class)?.complete
}
