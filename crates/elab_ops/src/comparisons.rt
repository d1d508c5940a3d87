// Comparisons (C++14 5.9, 5.10), and operators by their operands.

ghost use Rattle.std.specs.Prelude.{◌≡◌, ◌<◌, length, None};
ghost use Rattle.elab_conv.specs.cpp_types.Typ.{typ_of, ptr};
ghost use Rattle.elab_conv.specs.cpp_tree.Arena.{trees_of};
ghost use Rattle.elab_conv.specs.cpp_tree.Typing.{form_in};
ghost use Rattle.elab_conv.specs.elab_ctx.Ctx.{ctx_of};
ghost use Rattle.elab_conv.specs.elab_ctx.Operands.{operand_in};
ghost use Rattle.elab_conv.specs.elab_ctx.Says.{Gives};
ghost use Rattle.elab_conv.specs.elab_rules.Operators.{comparison_by, comparison_in, binary, pointed};
ghost use Rattle.elab_ops.specs.Forms.{with_null, null_with, is_scoped, scalars_compared, binary_in};

use crate::arithmetic::{arithmetic_of, on_numbers, on_values, operated};
use crate::names::{is_comparison, is_sum};
use crate::operands::{arithmetic, as_pointer, ill, int_type, is_null, pointed, value, value_type};
use crate::pointers::sum_of;
use elab_conv::below::{
    At, BinOp, ElabFault, Env, IllRule, IntKind, Operand, Shape, TNode, TNodeId, Ty, equal_shapes,
    equal_types, usual,
};
use std::alloc::Global;

// Two numbers of these kinds, in their common kind.
fn comparison_by(
    alloc: Global,
    nodes: &mut Vec<TNode>,
    op: BinOp,
    at: At,
    left: Option<IntKind>,
    right: Option<IntKind>,
    a: Operand,
    b: Operand,
) -> Result<TNodeId, ElabFault>
    requires left { a.id.0 < length (trees_of nodes.old.items) }
    requires right { b.id.0 < length (trees_of nodes.old.items) }
    ensures { Gives (trees_of nodes.old.items) (trees_of nodes.new.items) result (comparison_by op at left right (operand_in (trees_of nodes.old.items) a) (operand_in (trees_of nodes.old.items) b)) }
{
    let Some(j) = left else {
        return Err(ill(at, IllRule::BadOperand));
    };
    let Some(k) = right else {
        return Err(ill(at, IllRule::BadOperand));
    };
    let kind = usual(j, k);
    let bool_type = int_type(IntKind::Bool);
    let made = on_numbers(alloc, nodes, op, kind, bool_type, at, kind, a, kind, b)?;
    Ok(made)
}

// Two pointers.
fn pointers_compared(
    alloc: Global,
    nodes: &mut Vec<TNode>,
    op: BinOp,
    at: At,
    target: &Ty,
    other: &Ty,
    a: Operand,
    b: Operand,
) -> Result<TNodeId, ElabFault>
    requires left { a.id.0 < length (trees_of nodes.old.items) }
    requires right { b.id.0 < length (trees_of nodes.old.items) }
    ensures { Gives (trees_of nodes.old.items) (trees_of nodes.new.items) result (comparison_in op at (ptr (typ_of target.now)) (ptr (typ_of other.now)) (operand_in (trees_of nodes.old.items) a) (operand_in (trees_of nodes.old.items) b)) }
{
    if !equal_types(target, other) {
        return Err(ill(at, IllRule::BadOperand));
    }
    let bool_type = int_type(IntKind::Bool);
    let made = on_values(alloc, nodes, op, IntKind::ULong, bool_type, at, a, b)?;
    Ok(made)
}

// A pointer and a null pointer.
fn pointer_and_null(
    alloc: Global,
    nodes: &mut Vec<TNode>,
    op: BinOp,
    at: At,
    target: &Ty,
    a: Operand,
    b: Operand,
) -> Result<TNodeId, ElabFault>
    requires left { a.id.0 < length (trees_of nodes.old.items) }
    requires right { b.id.0 < length (trees_of nodes.old.items) }
    ensures { Gives (trees_of nodes.old.items) (trees_of nodes.new.items) result (with_null op at (typ_of target.now) (operand_in (trees_of nodes.old.items) a) (operand_in (trees_of nodes.old.items) b)) }
{
    if !is_null(nodes, b) {
        return Err(ill(at, IllRule::BadOperand));
    }
    let left = value(alloc, nodes, a)?;
    let right = as_pointer(alloc, nodes, target, b)?;
    let bool_type = int_type(IntKind::Bool);
    let made = operated(alloc, nodes, op, IntKind::ULong, bool_type, at, left, right)?;
    Ok(made)
}

// A null pointer and a pointer.
fn null_and_pointer(
    alloc: Global,
    nodes: &mut Vec<TNode>,
    op: BinOp,
    at: At,
    target: &Ty,
    a: Operand,
    b: Operand,
) -> Result<TNodeId, ElabFault>
    requires left { a.id.0 < length (trees_of nodes.old.items) }
    requires right { b.id.0 < length (trees_of nodes.old.items) }
    ensures { Gives (trees_of nodes.old.items) (trees_of nodes.new.items) result (null_with op at (typ_of target.now) (operand_in (trees_of nodes.old.items) a) (operand_in (trees_of nodes.old.items) b)) }
{
    if !is_null(nodes, a) {
        return Err(ill(at, IllRule::BadOperand));
    }
    let left = as_pointer(alloc, nodes, target, a)?;
    let right = value(alloc, nodes, b)?;
    let bool_type = int_type(IntKind::Bool);
    let made = operated(alloc, nodes, op, IntKind::ULong, bool_type, at, left, right)?;
    Ok(made)
}

// Whether a type is an `enum class`.
fn is_scoped(ty: &Ty) -> bool
    ensures { result ≡ is_scoped (form_in (typ_of ty.now)) }
{
    match &ty.shape {
        Shape::Enum { scoped, .. } => *scoped,
        Shape::Void
        | Shape::Int(_)
        | Shape::Null
        | Shape::Ptr(_)
        | Shape::Ref(_)
        | Shape::Array(_, _)
        | Shape::Func(_)
        | Shape::Class(_)
        | Shape::Closure(_)
        | Shape::TxEx(_) => false,
    }
}

// Operands of which none is a pointer.
fn scalars_compared(
    alloc: Global,
    nodes: &mut Vec<TNode>,
    op: BinOp,
    at: At,
    left: &Ty,
    right: &Ty,
    a: Operand,
    b: Operand,
) -> Result<TNodeId, ElabFault>
    requires left { a.id.0 < length (trees_of nodes.old.items) }
    requires right { b.id.0 < length (trees_of nodes.old.items) }
    ensures { Gives (trees_of nodes.old.items) (trees_of nodes.new.items) result (scalars_compared op at (form_in (typ_of left.now)) (form_in (typ_of right.now)) (operand_in (trees_of nodes.old.items) a) (operand_in (trees_of nodes.old.items) b)) }
{
    if !is_scoped(left) {
        return comparison_by(
            alloc,
            nodes,
            op,
            at,
            arithmetic(left),
            arithmetic(right),
            a,
            b,
        );
    }
    if !equal_shapes(&left.shape, &right.shape) {
        return Err(ill(at, IllRule::BadOperand));
    }
    let bool_type = int_type(IntKind::Bool);
    let made = on_values(alloc, nodes, op, IntKind::Int, bool_type, at, a, b)?;
    Ok(made)
}

// A pointer and another operand.
fn compared_with_pointer(
    alloc: Global,
    nodes: &mut Vec<TNode>,
    op: BinOp,
    at: At,
    target: &Ty,
    right: &Ty,
    a: Operand,
    b: Operand,
) -> Result<TNodeId, ElabFault>
    requires left { a.id.0 < length (trees_of nodes.old.items) }
    requires right { b.id.0 < length (trees_of nodes.old.items) }
    ensures { Gives (trees_of nodes.old.items) (trees_of nodes.new.items) result (comparison_in op at (ptr (typ_of target.now)) (form_in (typ_of right.now)) (operand_in (trees_of nodes.old.items) a) (operand_in (trees_of nodes.old.items) b)) }
{
    match pointed(right) {
        Some(other) => pointers_compared(alloc, nodes, op, at, target, other, a, b),
        None => pointer_and_null(alloc, nodes, op, at, target, a, b),
    }
}

// An operand that is no pointer, and another.
fn compared_with_scalar(
    alloc: Global,
    nodes: &mut Vec<TNode>,
    op: BinOp,
    at: At,
    left: &Ty,
    right: &Ty,
    a: Operand,
    b: Operand,
) -> Result<TNodeId, ElabFault>
    requires left { a.id.0 < length (trees_of nodes.old.items) }
    requires right { b.id.0 < length (trees_of nodes.old.items) }
    requires scalar { pointed (form_in (typ_of left.now)) ≡ None }
    ensures { Gives (trees_of nodes.old.items) (trees_of nodes.new.items) result (comparison_in op at (form_in (typ_of left.now)) (form_in (typ_of right.now)) (operand_in (trees_of nodes.old.items) a) (operand_in (trees_of nodes.old.items) b)) }
{
    match pointed(right) {
        Some(target) => null_and_pointer(alloc, nodes, op, at, target, a, b),
        None => scalars_compared(alloc, nodes, op, at, left, right, a, b),
    }
}

/// A comparison of operands whose values have the forms of these types.
pub fn comparison_in(
    alloc: Global,
    nodes: &mut Vec<TNode>,
    op: BinOp,
    at: At,
    left: &Ty,
    right: &Ty,
    a: Operand,
    b: Operand,
) -> Result<TNodeId, ElabFault>
    requires left { a.id.0 < length (trees_of nodes.old.items) }
    requires right { b.id.0 < length (trees_of nodes.old.items) }
    ensures { Gives (trees_of nodes.old.items) (trees_of nodes.new.items) result (comparison_in op at (form_in (typ_of left.now)) (form_in (typ_of right.now)) (operand_in (trees_of nodes.old.items) a) (operand_in (trees_of nodes.old.items) b)) }
{
    match pointed(left) {
        Some(target) => compared_with_pointer(alloc, nodes, op, at, target, right, a, b),
        None => compared_with_scalar(alloc, nodes, op, at, left, right, a, b),
    }
}

// An operator on operands whose values have the forms of these types.
fn binary_in(
    alloc: Global,
    env: &Env,
    nodes: &mut Vec<TNode>,
    op: BinOp,
    at: At,
    left: &Ty,
    right: &Ty,
    a: Operand,
    b: Operand,
) -> Result<TNodeId, ElabFault>
    requires left { a.id.0 < length (trees_of nodes.old.items) }
    requires right { b.id.0 < length (trees_of nodes.old.items) }
    ensures { Gives (trees_of nodes.old.items) (trees_of nodes.new.items) result (binary_in (ctx_of env.now) op at (form_in (typ_of left.now)) (form_in (typ_of right.now)) (operand_in (trees_of nodes.old.items) a) (operand_in (trees_of nodes.old.items) b)) }
{
    if is_comparison(op) {
        return comparison_in(alloc, nodes, op, at, left, right, a, b);
    }
    if is_sum(op) {
        return sum_of(alloc, env, nodes, op, at, left, right, a, b);
    }
    arithmetic_of(
        alloc,
        nodes,
        op,
        at,
        arithmetic(left),
        arithmetic(right),
        a,
        b,
    )
}

/// An operator of two operands but `&&` and `||`.
pub fn binary(
    alloc: Global,
    env: &Env,
    nodes: &mut Vec<TNode>,
    op: BinOp,
    at: At,
    a: Operand,
    b: Operand,
) -> Result<TNodeId, ElabFault>
    requires left { a.id.0 < length (trees_of nodes.old.items) }
    requires right { b.id.0 < length (trees_of nodes.old.items) }
    ensures { Gives (trees_of nodes.old.items) (trees_of nodes.new.items) result (binary (ctx_of env.now) op at (operand_in (trees_of nodes.old.items) a) (operand_in (trees_of nodes.old.items) b)) }
{
    let left = value_type(alloc, nodes, a)?;
    let right = value_type(alloc, nodes, b)?;
    binary_in(alloc, env, nodes, op, at, &left, &right, a, b)
}
