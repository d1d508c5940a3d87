// What types are made of, and types made of types (C++14 3.9.3, 8.3).

ghost use Rattle.std.specs.Prelude.{◌≡◌, MatchOption, None, Some, IfOk, map};
ghost use Rattle.cpp_types.specs.Typ.{typ_of};
ghost use Rattle.cpp_types.specs.Class.{held, classes_of, completion_of};
ghost use Rattle.elab_conv.specs.cpp_tree.Typing.{form_in, is_void, qualified};
ghost use Rattle.elab_conv.specs.elab_ctx.Ctx.{ctx_of};
ghost use Rattle.elab_conv.specs.elab_ctx.Types.{named_of};
ghost use Rattle.elab_conv.specs.elab_rules.Objects.{traits_at};
ghost use Rattle.elab_conv.specs.elab_rules.Operators.{is_complete};
ghost use Rattle.elab_conv.specs.elab_rules.Types.{has_auto as has_auto_of, type_named as type_named_of, with_qualifiers as with_qualifiers_of, may_be_thrown as may_be_thrown_of, is_reference_form, is_array_form, is_function_form, is_bounded as is_bounded_of, is_element as is_element_of, is_result as is_result_of, adjusted as adjusted_of, is_abstract_type as is_abstract_of};

use cpp_types::copyability::held_class;
use cpp_types::{Shape, Ty, copy};
use elab_conv::below::{Env, TypeNames};
use elab_conv::types::pointer_to;
use std::alloc::{AllocError, Global};

// Whether objects of a class are copied byte by byte.
fn is_copied_bytewise(env: &Env, class: u32) -> bool
    ensures { result ≡ (traits_at (ctx_of env.now) class).is_trivially_copyable }
{
    match env.traits.get(class as usize) {
        Some(found) => found.is_trivially_copyable,
        None => false,
    }
}

fn is_abstract_class(env: &Env, class: u32) -> bool
    ensures { result ≡ (traits_at (ctx_of env.now) class).is_abstract }
{
    match env.traits.get(class as usize) {
        Some(found) => found.is_abstract,
        None => false,
    }
}

// How many classes were completed before a class; `None` where it is only declared.
fn completion(env: &Env, class: u32) -> Option<u32>
    ensures { result ≡ completion_of (classes_of env.now.classes.items) class }
{
    env.classes.get(class as usize)?.complete
}

/// A type as that of a part of an object with these qualifiers: an array is qualified where its elements are, and a
/// reference is not (C++14 3.9.3).
pub fn qualified_type(
    alloc: Global,
    is_const: bool,
    is_volatile: bool,
    ty: &Ty,
) -> Result<Ty, AllocError>
    ensures { IfOk result (λ t. typ_of t ≡ qualified is_const is_volatile (typ_of ty.now)) }
{
    match &ty.shape {
        Shape::Array(element, count) => {
            let element = qualified_type(alloc, is_const, is_volatile, element)?;
            let element = Box::new(alloc, element)?;
            Ok(Ty {
                shape: Shape::Array(element, *count),
                is_const: ty.is_const,
                is_volatile: ty.is_volatile,
            })
        }
        Shape::Ref(_) => copy(alloc, ty),
        Shape::Void
        | Shape::Int(_)
        | Shape::Enum { .. }
        | Shape::Null
        | Shape::Ptr(_)
        | Shape::Func(_)
        | Shape::Class(_)
        | Shape::Closure(_)
        | Shape::TxEx(_) => {
            let mut found = copy(alloc, ty)?;
            found.is_const = is_const || ty.is_const;
            found.is_volatile = is_volatile || ty.is_volatile;
            Ok(found)
        }
    }
}

/// Whether `auto` stands in a type.
#[tactic(auto, using(cpp_types::proofs::Views::signature_view))]
pub fn has_auto(ty: &Ty) -> bool
    ensures { result ≡ has_auto_of (typ_of ty.now) }
{
    match &ty.shape {
        Shape::Enum { name, .. } => name.is_empty(),
        Shape::Ptr(target) | Shape::Ref(target) => has_auto(target),
        Shape::Array(element, _) => has_auto(element),
        Shape::Func(function) => has_auto(&function.ret),
        Shape::Void
        | Shape::Int(_)
        | Shape::Null
        | Shape::Class(_)
        | Shape::Closure(_)
        | Shape::TxEx(_) => false,
    }
}

/// The type with a name.
pub fn type_named<'a>(types: &'a TypeNames, name: &[u8]) -> Option<&'a Ty>
    ensures { MatchOption result (type_named_of name.now (map named_of types.now) ≡ None) (λ t. type_named_of name.now (map named_of types.now) ≡ Some (typ_of t.now)) }
{
    types.find(name)
}

/// A type with further qualifiers: an array has those of its elements, a reference and a function none.
pub fn with_qualifiers(
    alloc: Global,
    is_const: bool,
    is_volatile: bool,
    ty: &Ty,
) -> Result<Ty, AllocError>
    ensures { IfOk result (λ t. typ_of t ≡ with_qualifiers_of is_const is_volatile (typ_of ty.now)) }
{
    match &ty.shape {
        Shape::Func(_) => copy(alloc, ty),
        Shape::Void
        | Shape::Int(_)
        | Shape::Enum { .. }
        | Shape::Null
        | Shape::Ptr(_)
        | Shape::Ref(_)
        | Shape::Array(_, _)
        | Shape::Class(_)
        | Shape::Closure(_)
        | Shape::TxEx(_) => qualified_type(alloc, is_const, is_volatile, ty),
    }
}

/// Whether a `std::tx_exception` may hold a value of the type.
pub fn may_be_thrown(env: &Env, ty: &Ty) -> bool
    ensures { result ≡ may_be_thrown_of (ctx_of env.now) (typ_of ty.now) }
{
    if ty.is_const || ty.is_volatile {
        return false;
    }
    match &ty.shape {
        Shape::Int(_) => true,
        Shape::Enum { name, .. } => !name.is_empty(),
        Shape::Class(class) => is_copied_bytewise(env, *class),
        Shape::Void
        | Shape::Null
        | Shape::Ptr(_)
        | Shape::Ref(_)
        | Shape::Array(_, _)
        | Shape::Func(_)
        | Shape::Closure(_)
        | Shape::TxEx(_) => false,
    }
}

/// Whether a type is a reference.
pub fn is_reference(ty: &Ty) -> bool
    ensures { result ≡ is_reference_form (form_in (typ_of ty.now)) }
{
    matches!(&ty.shape, Shape::Ref(_))
}

/// Whether a type is an array.
pub fn is_array(ty: &Ty) -> bool
    ensures { result ≡ is_array_form (form_in (typ_of ty.now)) }
{
    matches!(&ty.shape, Shape::Array(_, _))
}

/// Whether a type is one of functions.
pub fn is_function(ty: &Ty) -> bool
    ensures { result ≡ is_function_form (form_in (typ_of ty.now)) }
{
    matches!(&ty.shape, Shape::Func(_))
}

/// Whether a type is `void`.
pub fn is_void_type(ty: &Ty) -> bool
    ensures { result ≡ is_void (typ_of ty.now) }
{
    matches!(&ty.shape, Shape::Void)
}

/// Whether a type is no array without a bound.
pub fn is_bounded(ty: &Ty) -> bool
    ensures { result ≡ is_bounded_of (typ_of ty.now) }
{
    match &ty.shape {
        Shape::Array(_, count) => *count != 0,
        Shape::Void
        | Shape::Int(_)
        | Shape::Enum { .. }
        | Shape::Null
        | Shape::Ptr(_)
        | Shape::Ref(_)
        | Shape::Func(_)
        | Shape::Class(_)
        | Shape::Closure(_)
        | Shape::TxEx(_) => true,
    }
}

/// Whether an array may have elements of the type.
pub fn is_element(ty: &Ty) -> bool
    ensures { result ≡ is_element_of (typ_of ty.now) }
{
    !is_reference(ty) && !is_void_type(ty) && !is_function(ty) && !has_auto(ty) && is_bounded(ty)
}

/// Whether a function may give a value of the type.
pub fn is_result(ty: &Ty) -> bool
    ensures { result ≡ is_result_of (typ_of ty.now) }
{
    !is_array(ty) && !is_function(ty)
}

/// Whether the class that values of a type hold, if they hold one, is complete.
pub fn is_complete_type(env: &Env, ty: &Ty) -> bool
    ensures { result ≡ is_complete (ctx_of env.now) (held (typ_of ty.now)) }
{
    match held_class(&ty.shape) {
        Some(class) => completion(env, class).is_some(),
        None => true,
    }
}

/// Whether a type is an abstract class.
pub fn is_abstract(env: &Env, ty: &Ty) -> bool
    ensures { result ≡ is_abstract_of (ctx_of env.now) (typ_of ty.now) }
{
    match &ty.shape {
        Shape::Class(class) => is_abstract_class(env, *class),
        Shape::Void
        | Shape::Int(_)
        | Shape::Enum { .. }
        | Shape::Null
        | Shape::Ptr(_)
        | Shape::Ref(_)
        | Shape::Array(_, _)
        | Shape::Func(_)
        | Shape::Closure(_)
        | Shape::TxEx(_) => false,
    }
}

/// The type of a parameter that is declared with a type: a pointer for an array or a function (C++14 8.3.5 p5).
pub fn adjusted(alloc: Global, ty: &Ty) -> Result<Ty, AllocError>
    ensures { IfOk result (λ t. typ_of t ≡ adjusted_of (typ_of ty.now)) }
{
    match &ty.shape {
        Shape::Array(element, _) => {
            let target = qualified_type(alloc, ty.is_const, ty.is_volatile, element)?;
            pointer_to(alloc, target)
        }
        Shape::Func(_) => {
            let target = copy(alloc, ty)?;
            pointer_to(alloc, target)
        }
        Shape::Void
        | Shape::Int(_)
        | Shape::Enum { .. }
        | Shape::Null
        | Shape::Ptr(_)
        | Shape::Ref(_)
        | Shape::Class(_)
        | Shape::Closure(_)
        | Shape::TxEx(_) => copy(alloc, ty),
    }
}
