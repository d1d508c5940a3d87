// What types and classes say of the objects that they have.

ghost use Rattle.std.specs.Prelude.{◌≡◌, ◌<◌, IfOk, length};
ghost use Rattle.cpp_types.specs.Typ.{typ_of};
ghost use Rattle.cpp_types.specs.Class.{classes_of};
ghost use Rattle.cpp_types.specs.Conversion.{referred};
ghost use Rattle.elab_conv.specs.cpp_tree.Arena.{trees_of, tree_at};
ghost use Rattle.elab_conv.specs.cpp_tree.Typing.{form_in, qualified, without_exception, is_class_typ, is_class_prvalue as is_class_prvalue_of};
ghost use Rattle.elab_conv.specs.elab_ctx.Ctx.{ctx_of, traits_of};
ghost use Rattle.elab_conv.specs.elab_rules.Objects.{element_of, element_form, traits_at as traits_at_of};
ghost use Rattle.elab_conv.specs.elab_rules.Initialising.{class_number as class_number_of, is_same_or_base as is_same_or_base_of, is_prvalue_of_class as is_prvalue_of_class_of};

use cpp_types::{Cat, Shape, Ty, copy, steps_to_base};
use elab_conv::below::{Env, Special, TNode, TNodeId, Traits, node_at, traits_of_class};
use elab_conv::types::unqualified_type;
use std::alloc::{AllocError, Global};

/// The class that a type is, a lambda's too.
pub fn class_number(ty: &Ty) -> Option<u32>
    ensures { result ≡ class_number_of (typ_of ty.now) }
{
    match &ty.shape {
        Shape::Class(class) | Shape::Closure(class) => Some(*class),
        Shape::Void
        | Shape::Int(_)
        | Shape::Enum { .. }
        | Shape::Null
        | Shape::Ptr(_)
        | Shape::Ref(_)
        | Shape::Array(_, _)
        | Shape::Func(_)
        | Shape::TxEx(_) => None,
    }
}

/// Whether a type is one of class objects.
pub fn is_class_type(ty: &Ty) -> bool
    ensures { result ≡ is_class_typ (typ_of ty.now) }
{
    match &ty.shape {
        Shape::Class(_) | Shape::Closure(_) | Shape::TxEx(_) => true,
        Shape::Void
        | Shape::Int(_)
        | Shape::Enum { .. }
        | Shape::Null
        | Shape::Ptr(_)
        | Shape::Ref(_)
        | Shape::Array(_, _)
        | Shape::Func(_) => false,
    }
}

/// Whether an expression is a class object that no name stands for yet (C++14 3.10).
pub fn is_class_prvalue(ty: &Ty, cat: Cat) -> bool
    ensures { result ≡ is_class_prvalue_of (typ_of ty.now) cat }
{
    match cat {
        Cat::Lvalue => false,
        Cat::Prvalue => is_class_type(ty),
    }
}

/// What a reference refers to; another type as it is.
pub fn referred_type(ty: &Ty) -> &Ty
    ensures { typ_of result.now ≡ referred (typ_of ty.now) }
{
    match &ty.shape {
        Shape::Ref(target) => target,
        Shape::Void
        | Shape::Int(_)
        | Shape::Enum { .. }
        | Shape::Null
        | Shape::Ptr(_)
        | Shape::Array(_, _)
        | Shape::Func(_)
        | Shape::Class(_)
        | Shape::Closure(_)
        | Shape::TxEx(_) => ty,
    }
}

/// The type of the value in a `std::tx_exception`, with the qualifiers of that; of any other type, the type itself.
pub fn without_exception(alloc: Global, ty: &Ty) -> Result<Ty, AllocError>
    ensures { IfOk result (λ t. typ_of t ≡ without_exception (typ_of ty.now)) }
{
    match &ty.shape {
        Shape::TxEx(value) => {
            let value = copy(alloc, value)?;
            Ok(Ty {
                shape: value.shape,
                is_const: ty.is_const,
                is_volatile: ty.is_volatile,
            })
        }
        Shape::Void
        | Shape::Int(_)
        | Shape::Enum { .. }
        | Shape::Null
        | Shape::Ptr(_)
        | Shape::Ref(_)
        | Shape::Array(_, _)
        | Shape::Func(_)
        | Shape::Class(_)
        | Shape::Closure(_) => copy(alloc, ty),
    }
}

/// A type as that of a part of an object with these qualifiers: an array is qualified where its elements are, and a
/// reference is not (C++14 3.9.3).
pub fn qualified_type(
    alloc: Global,
    is_const: bool,
    is_volatile: bool,
    ty: &Ty,
) -> Result<Ty, AllocError>
    ensures { IfOk result (λ t. typ_of t ≡ qualified is_const is_volatile (typ_of ty.now)) }
{
    match &ty.shape {
        Shape::Array(element, count) => {
            let element = qualified_type(alloc, is_const, is_volatile, element)?;
            let element = Box::new(alloc, element)?;
            Ok(Ty {
                shape: Shape::Array(element, *count),
                is_const: ty.is_const,
                is_volatile: ty.is_volatile,
            })
        }
        Shape::Ref(_) => copy(alloc, ty),
        Shape::Void
        | Shape::Int(_)
        | Shape::Enum { .. }
        | Shape::Null
        | Shape::Ptr(_)
        | Shape::Func(_)
        | Shape::Class(_)
        | Shape::Closure(_)
        | Shape::TxEx(_) => {
            let found = copy(alloc, ty)?;
            Ok(Ty {
                shape: found.shape,
                is_const: is_const || ty.is_const,
                is_volatile: is_volatile || ty.is_volatile,
            })
        }
    }
}

/// The type of the elements of an array, whatever its bounds; another type as it is.
#[cycle(element)]
pub fn element_type(alloc: Global, ty: &Ty) -> Result<Ty, AllocError>
    ensures { IfOk result (λ t. typ_of t ≡ element_of (typ_of ty.now)) }
{
    let element = bare_element(alloc, ty)?;
    qualified_type(alloc, ty.is_const, ty.is_volatile, &element)
}

// The same without the type's own qualifiers.
#[cycle(element)]
fn bare_element(alloc: Global, ty: &Ty) -> Result<Ty, AllocError>
    ensures { IfOk result (λ t. typ_of t ≡ element_form (form_in (typ_of ty.now))) }
{
    match &ty.shape {
        Shape::Array(element, _) => {
            let found = element_type(alloc, element)?;
            Ok(found)
        }
        Shape::Void
        | Shape::Int(_)
        | Shape::Enum { .. }
        | Shape::Null
        | Shape::Ptr(_)
        | Shape::Ref(_)
        | Shape::Func(_)
        | Shape::Class(_)
        | Shape::Closure(_)
        | Shape::TxEx(_) => unqualified_type(alloc, ty),
    }
}

/// What holds of a class; of a number that no class has, nothing.
pub fn traits_at(env: &Env, class: u32) -> Traits
    ensures { traits_of result ≡ traits_at_of (ctx_of env.now) class }
{
    match traits_of_class(env, class) {
        Some(found) => *found,
        None => Traits {
            default: Special::Absent,
            copy: Special::Absent,
            copies_const: false,
            destructor: Special::Trivial,
            is_assignable: false,
            is_abstract: false,
            is_volatile: false,
            is_trivially_copyable: false,
        },
    }
}

/// Whether the second class is the first or a base of it.
pub fn is_same_or_base(env: &Env, class: Option<u32>, base: Option<u32>) -> bool
    ensures { result ≡ is_same_or_base_of (classes_of env.now.classes.items) class base }
{
    match (class, base) {
        (Some(derived), Some(wanted)) => {
            derived == wanted || steps_to_base(&env.classes, derived, wanted).is_some()
        }
        _ => false,
    }
}

/// Whether an expression is an object of a class that no name stands for yet.
pub fn is_prvalue_of_class(nodes: &Vec<TNode>, class: u32, id: TNodeId) -> bool
    requires { id.0 < length (trees_of nodes.now.items) }
    ensures { result ≡ is_prvalue_of_class_of class (tree_at (trees_of nodes.now.items) id) }
{
    let node = node_at(nodes, id);
    is_class_prvalue(&node.ty, node.cat) && class_number(&node.ty) == Some(class)
}
