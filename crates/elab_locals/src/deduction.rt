// What stands for `auto` (C++14 7.1.6.4).

ghost use Rattle.std.specs.Prelude.{◌≡◌, ◌<◌, length, IfOk, option_map};
ghost use Rattle.elab_scopes.specs.cpp_types.Typ.{typ_of};
ghost use Rattle.elab_scopes.specs.cpp_tree.Arena.{trees_of};
ghost use Rattle.elab_scopes.specs.cpp_tree.Trees.{typ_in};
ghost use Rattle.elab_scopes.specs.cpp_tree.Typing.{form_in};
ghost use Rattle.elab_scopes.specs.elab_ctx.Steps.{Operand as OperandOf};
ghost use Rattle.elab_scopes.specs.elab_ctx.Operands.{operand_in};
ghost use Rattle.elab_scopes.specs.elab_rules.Statements.{less_qualified as less_qualified_of, deduced_from as deduced_from_of, replaced as replaced_of, auto_of as auto_of_of, deduced_type as deduced_type_of, is_null_type as is_null_type_of};
ghost use Rattle.elab_scopes.specs.elab_rules.Operators.{value as value_of};
ghost use Rattle.elab_locals.specs.Deducing.{auto_in_value as auto_in_value_of, Deduces};

use elab_scopes::below::{
    At, ElabFault, IllRule, Operand, Shape, TNode, Ty, copy, ill, is_void_type, node_at,
    unqualified_type, value, with_qualifiers,
};
use std::alloc::{AllocError, Global};

// A type without the qualifiers that another has.
fn less_qualified(alloc: Global, by: &Ty, ty: &Ty) -> Result<Ty, AllocError>
    ensures { IfOk result (λ t. typ_of t ≡ less_qualified_of (typ_of by.now) (typ_of ty.now)) }
{
    let mut found = copy(alloc, ty)?;
    found.is_const = ty.is_const && !by.is_const;
    found.is_volatile = ty.is_volatile && !by.is_volatile;
    Ok(found)
}

// What stands for `auto` in a type, so that it is the other.
fn deduced_from(alloc: Global, pattern: &Ty, ty: &Ty) -> Result<Option<Ty>, AllocError>
    ensures { IfOk result (λ t. option_map typ_of t ≡ deduced_from_of (typ_of pattern.now) (typ_of ty.now)) }
{
    match &pattern.shape {
        Shape::Enum { name, .. } => {
            if name.is_empty() {
                Ok(Some(less_qualified(alloc, pattern, ty)?))
            } else {
                Ok(None)
            }
        }
        Shape::Ptr(target) => match &ty.shape {
            Shape::Ptr(other) => deduced_from(alloc, target, other),
            Shape::Void
            | Shape::Int(_)
            | Shape::Enum { .. }
            | Shape::Null
            | Shape::Ref(_)
            | Shape::Array(_, _)
            | Shape::Func(_)
            | Shape::Class(_)
            | Shape::Closure(_)
            | Shape::TxEx(_) => Ok(None),
        },
        Shape::Void
        | Shape::Int(_)
        | Shape::Null
        | Shape::Ref(_)
        | Shape::Array(_, _)
        | Shape::Func(_)
        | Shape::Class(_)
        | Shape::Closure(_)
        | Shape::TxEx(_) => Ok(None),
    }
}

/// A type with what stands for `auto` in it.
pub fn replaced(alloc: Global, auto: &Ty, ty: &Ty) -> Result<Ty, AllocError>
    ensures { IfOk result (λ t. typ_of t ≡ replaced_of (typ_of auto.now) (typ_of ty.now)) }
{
    match &ty.shape {
        Shape::Enum { name, .. } => {
            if name.is_empty() {
                with_qualifiers(alloc, ty.is_const, ty.is_volatile, auto)
            } else {
                copy(alloc, ty)
            }
        }
        Shape::Ptr(target) => {
            let target = Box::new(alloc, replaced(alloc, auto, target)?)?;
            Ok(Ty {
                shape: Shape::Ptr(target),
                is_const: ty.is_const,
                is_volatile: ty.is_volatile,
            })
        }
        Shape::Ref(target) => {
            let target = Box::new(alloc, replaced(alloc, auto, target)?)?;
            Ok(Ty {
                shape: Shape::Ref(target),
                is_const: ty.is_const,
                is_volatile: ty.is_volatile,
            })
        }
        Shape::Void
        | Shape::Int(_)
        | Shape::Null
        | Shape::Array(_, _)
        | Shape::Func(_)
        | Shape::Class(_)
        | Shape::Closure(_)
        | Shape::TxEx(_) => copy(alloc, ty),
    }
}

// What stands for `auto` in a type that refers to an object of a type.
fn auto_in_reference(alloc: Global, pattern: &Ty, ty: &Ty) -> Result<Option<Ty>, AllocError>
    ensures { IfOk result (λ t. option_map typ_of t ≡ deduced_from_of (typ_of pattern.now) (less_qualified_of (typ_of pattern.now) (typ_of ty.now))) }
{
    let bare = less_qualified(alloc, pattern, ty)?;
    deduced_from(alloc, pattern, &bare)
}

// What stands for `auto` in a type of values.
fn auto_in_value(alloc: Global, pattern: &Ty, ty: &Ty) -> Result<Option<Ty>, AllocError>
    ensures { IfOk result (λ t. option_map typ_of t ≡ auto_in_value_of (typ_of pattern.now) (typ_of ty.now)) }
{
    let bare = unqualified_type(alloc, ty)?;
    deduced_from(alloc, pattern, &bare)
}

// What stands for `auto`, from the type of an expression and that of its value.
fn auto_of(
    alloc: Global,
    pattern: &Ty,
    expression: &Ty,
    value: &Ty,
) -> Result<Option<Ty>, AllocError>
    ensures { (o : OperandOf) → typ_in o.tree ≡ typ_of expression.now → typ_in (value_of o) ≡ typ_of value.now → IfOk result (λ t. option_map typ_of t ≡ auto_of_of (typ_of pattern.now) o) }
{
    match &pattern.shape {
        Shape::Ref(target) => auto_in_reference(alloc, target, expression),
        Shape::Void
        | Shape::Int(_)
        | Shape::Enum { .. }
        | Shape::Null
        | Shape::Ptr(_)
        | Shape::Array(_, _)
        | Shape::Func(_)
        | Shape::Class(_)
        | Shape::Closure(_)
        | Shape::TxEx(_) => auto_in_value(alloc, pattern, value),
    }
}

fn is_null_type(ty: &Ty) -> bool
    ensures { result ≡ is_null_type_of (form_in (typ_of ty.now)) }
{
    matches!(&ty.shape, Shape::Null)
}

/// What stands for `auto` in the type of a declaration, from its initialiser.
pub fn deduced_type(
    alloc: Global,
    nodes: &mut Vec<TNode>,
    at: At,
    pattern: &Ty,
    o: Operand,
) -> Result<Ty, ElabFault>
    requires { o.id.0 < length (trees_of nodes.old.items) }
    ensures { Deduces (trees_of nodes.old.items) (trees_of nodes.new.items) result (deduced_type_of at (typ_of pattern.now) (operand_in (trees_of nodes.old.items) o)) }
{
    let value = value(alloc, nodes, o)?;
    let value_ty = &node_at(nodes, value).ty;
    if is_null_type(value_ty) {
        return Err(ill(at, IllRule::OutOfProfile));
    }
    let expression_ty = &node_at(nodes, o.id).ty;
    if is_void_type(expression_ty) {
        return Err(ill(o.at, IllRule::BadInit));
    }
    let Some(found) = auto_of(alloc, pattern, expression_ty, value_ty)? else {
        return Err(ill(o.at, IllRule::NoConversion));
    };
    Ok(found)
}
