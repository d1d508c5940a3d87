// Operands: their values, and what these are.

ghost use Rattle.std.specs.Prelude.{◌≡◌, ◌<◌, length, IfOk, MatchOption, None, Some};
ghost use Rattle.elab_conv.specs.cpp_types.Typ.{typ_of, int, null};
ghost use Rattle.elab_conv.specs.cpp_types.Equal.{form_eq};
ghost use Rattle.elab_conv.specs.cpp_types.Conversion.{decayed};
ghost use Rattle.elab_conv.specs.cpp_tree.Arena.{trees_of, tree_at, Adds};
ghost use Rattle.elab_conv.specs.cpp_tree.Notation.{plain};
ghost use Rattle.elab_conv.specs.cpp_tree.Typing.{form_in};
ghost use Rattle.elab_conv.specs.elab_ctx.Operands.{operand_in};
ghost use Rattle.elab_conv.specs.elab_rules.Operators.{value, value_form, arithmetic, as_kind, pointed, is_null, as_pointer};

use elab_conv::below::{
    At, Cat, ElabFault, IllRule, IntKind, Operand, Shape, TKind, TNode, TNodeId, Ty, add_unary,
    copy, node_at,
};
use elab_conv::types::{decayed_type, pointer_to};
use elab_conv::{converted, valued};
use std::alloc::{AllocError, Global};

/// A fault at a place.
pub fn ill(at: At, rule: IllRule) -> ElabFault
    ensures { result ≡ ElabFault.Ill at rule }
{
    ElabFault::Ill { at, rule }
}

/// A plain integer type.
pub fn int_type(kind: IntKind) -> Ty
    ensures { typ_of result ≡ plain (int kind) }
{
    Ty {
        shape: Shape::Int(kind),
        is_const: false,
        is_volatile: false,
    }
}

/// The value of an operand.
pub fn value(alloc: Global, nodes: &mut Vec<TNode>, operand: Operand) -> Result<TNodeId, AllocError>
    requires { operand.id.0 < length (trees_of nodes.old.items) }
    ensures { IfOk result (λ r. Adds (trees_of nodes.old.items) (trees_of nodes.new.items) r (value (operand_in (trees_of nodes.old.items) operand))) }
{
    valued(alloc, nodes, operand.at, operand.id)
}

/// A type with the form of an operand's value.
pub fn value_type(alloc: Global, nodes: &Vec<TNode>, operand: Operand) -> Result<Ty, AllocError>
    requires { operand.id.0 < length (trees_of nodes.now.items) }
    ensures { IfOk result (λ t. form_in (typ_of t) ≡ value_form (operand_in (trees_of nodes.now.items) operand)) }
{
    let ty = decayed_type(alloc, &node_at(nodes, operand.id).ty)?;
    Ok(ty)
}

/// The kind in which an integer or an unscoped enum takes part in arithmetic, before its promotion.
pub fn arithmetic(ty: &Ty) -> Option<IntKind>
    ensures { result ≡ arithmetic (form_in (typ_of ty.now)) }
{
    match &ty.shape {
        Shape::Int(kind) => Some(*kind),
        Shape::Enum { scoped, .. } => { if *scoped { None } else { Some(IntKind::Int) } }
        Shape::Void
        | Shape::Null
        | Shape::Ptr(_)
        | Shape::Ref(_)
        | Shape::Array(_, _)
        | Shape::Func(_)
        | Shape::Class(_)
        | Shape::Closure(_)
        | Shape::TxEx(_) => None,
    }
}

/// What a pointer points to.
pub fn pointed(ty: &Ty) -> Option<&Ty>
    ensures { MatchOption result (pointed (form_in (typ_of ty.now)) ≡ None) (λ t. pointed (form_in (typ_of ty.now)) ≡ Some (typ_of t.now)) }
{
    match &ty.shape {
        Shape::Ptr(target) => Some(target),
        Shape::Void
        | Shape::Int(_)
        | Shape::Enum { .. }
        | Shape::Null
        | Shape::Ref(_)
        | Shape::Array(_, _)
        | Shape::Func(_)
        | Shape::Class(_)
        | Shape::Closure(_)
        | Shape::TxEx(_) => None,
    }
}

/// The kind in which an operand takes part in arithmetic, before its promotion.
pub fn number_kind(nodes: &Vec<TNode>, operand: Operand) -> Option<IntKind>
    requires { operand.id.0 < length (trees_of nodes.now.items) }
    ensures { result ≡ arithmetic (value_form (operand_in (trees_of nodes.now.items) operand)) }
{
    arithmetic(&node_at(nodes, operand.id).ty)
}

/// An operand's value as a number of a kind.
pub fn as_kind(
    alloc: Global,
    nodes: &mut Vec<TNode>,
    kind: IntKind,
    operand: Operand,
) -> Result<TNodeId, AllocError>
    requires { operand.id.0 < length (trees_of nodes.old.items) }
    ensures { IfOk result (λ r. Adds (trees_of nodes.old.items) (trees_of nodes.new.items) r (as_kind kind (operand_in (trees_of nodes.old.items) operand))) }
{
    let value = value(alloc, nodes, operand)?;
    converted(alloc, nodes, operand.at, &int_type(kind), value)
}

// Whether values of the type are null pointers alone.
fn is_null_type(ty: &Ty) -> bool
    ensures { result ≡ form_eq (decayed (typ_of ty.now)) null }
{
    match &ty.shape {
        Shape::Null => true,
        Shape::Void
        | Shape::Int(_)
        | Shape::Enum { .. }
        | Shape::Ptr(_)
        | Shape::Ref(_)
        | Shape::Array(_, _)
        | Shape::Func(_)
        | Shape::Class(_)
        | Shape::Closure(_)
        | Shape::TxEx(_) => false,
    }
}

/// Whether an operand is a null pointer constant (C++14 4.10).
pub fn is_null(nodes: &Vec<TNode>, operand: Operand) -> bool
    requires { operand.id.0 < length (trees_of nodes.now.items) }
    ensures { result ≡ is_null (operand_in (trees_of nodes.now.items) operand) }
{
    if operand.zero {
        return true;
    }
    is_null_type(&node_at(nodes, operand.id).ty)
}

/// An operand's value as a pointer to a type.
pub fn as_pointer(
    alloc: Global,
    nodes: &mut Vec<TNode>,
    target: &Ty,
    operand: Operand,
) -> Result<TNodeId, AllocError>
    requires { operand.id.0 < length (trees_of nodes.old.items) }
    ensures { IfOk result (λ r. Adds (trees_of nodes.old.items) (trees_of nodes.new.items) r (as_pointer (typ_of target.now) (operand_in (trees_of nodes.old.items) operand))) }
{
    let value = value(alloc, nodes, operand)?;
    let target = copy(alloc, target)?;
    let ty = pointer_to(alloc, target)?;
    add_unary(
        alloc,
        nodes,
        TKind::Retype,
        ty,
        Cat::Prvalue,
        operand.at,
        value,
    )
}
