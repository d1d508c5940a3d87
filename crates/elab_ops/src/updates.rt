// Compound assignments (C++14 5.17), increments and decrements (5.2.6, 5.3.2).

ghost use Rattle.std.specs.Prelude.{◌≡◌, ◌<◌, length, IfOk, true, false};
ghost use Rattle.elab_conv.specs.tx_ints.declared.kinds.IntKind.TheVariants.{ULong};
ghost use Rattle.elab_conv.specs.tx_ints.declared.kinds.BinOp.TheVariants.{Mul};
ghost use Rattle.elab_conv.specs.cpp_types.Typ.{typ_of, ptr, int, shape_form};
ghost use Rattle.elab_conv.specs.cpp_types.Conversion.{const_of, const_elements};
ghost use Rattle.elab_conv.specs.cpp_tree.Arena.{trees_of, tree_at, Adds};
ghost use Rattle.elab_conv.specs.cpp_tree.Typing.{form_in};
ghost use Rattle.elab_conv.specs.elab_ctx.Ctx.{ctx_of};
ghost use Rattle.elab_conv.specs.elab_ctx.Operands.{operand_in};
ghost use Rattle.elab_conv.specs.elab_ctx.Says.{Gives, Tells};
ghost use Rattle.elab_conv.specs.elab_rules.Values.{number, operated, size_type};
ghost use Rattle.elab_conv.specs.elab_rules.Operators.{as_kind, target, updated, compound_numbers, compound_in, compound, step_in, step};

use crate::arithmetic::number;
use crate::names::{is_shift, is_sum};
use crate::operands::{as_kind, ill, number_kind};
use crate::pointers::{is_lvalue, movable, scaled};
use elab_conv::below::{
    At, BinOp, Cat, ElabFault, Env, IllRule, IntKind, Operand, Shape, TKind, TNode, TNodeId, Ty,
    add_binary, copy, equal_kinds, node_at, promote, size_of, usual,
};
use elab_conv::types::unqualified_type;
use std::alloc::{AllocError, Global};

// Whether a type is `const`; an array is where its elements are (C++14 3.9.3).
#[cycle(qualifiers)]
fn is_const(ty: &Ty) -> bool
    ensures { result ≡ const_of (typ_of ty.now) }
{
    if ty.is_const {
        return true;
    }
    has_const_elements(&ty.shape)
}

#[cycle(qualifiers)]
fn has_const_elements(shape: &Shape) -> bool
    ensures { result ≡ const_elements (shape_form shape.now) }
{
    match shape {
        Shape::Array(element, _) => is_const(element),
        Shape::Void
        | Shape::Int(_)
        | Shape::Enum { .. }
        | Shape::Null
        | Shape::Ptr(_)
        | Shape::Ref(_)
        | Shape::Func(_)
        | Shape::Class(_)
        | Shape::Closure(_)
        | Shape::TxEx(_) => false,
    }
}

/// Tests that an operand is an lvalue that is not `const`.
pub fn target(nodes: &Vec<TNode>, at: At, a: Operand) -> Result<bool, ElabFault>
    requires { a.id.0 < length (trees_of nodes.now.items) }
    ensures { Tells result (target at (operand_in (trees_of nodes.now.items) a)) }
{
    if !is_lvalue(nodes, a.id) {
        return Err(ill(at, IllRule::NotLvalue));
    }
    if is_const(&node_at(nodes, a.id).ty) {
        return Err(ill(at, IllRule::ConstTarget));
    }
    Ok(true)
}

// A lvalue that is updated by a right operand; where `old`, the value is that of before.
fn updated(
    alloc: Global,
    nodes: &mut Vec<TNode>,
    op: BinOp,
    stored: IntKind,
    operation: IntKind,
    at: At,
    a: Operand,
    right: TNodeId,
) -> Result<TNodeId, AllocError>
    requires { a.id.0 < length (trees_of nodes.old.items) }
    ensures { IfOk result (λ r. Adds (trees_of nodes.old.items) (trees_of nodes.new.items) r (updated op stored operation false at (operand_in (trees_of nodes.old.items) a) (tree_at (trees_of nodes.old.items) right))) }
{
    let node = node_at(nodes, a.id);
    let volatile = node.ty.is_volatile;
    let ty = copy(alloc, &node.ty)?;
    let old = false;
    let kind = TKind::Update {
        op,
        stored,
        operation,
        volatile,
        old,
    };
    add_binary(alloc, nodes, kind, ty, Cat::Lvalue, at, a.id, right)
}

// The same where the value is that of before.
fn updated_behind(
    alloc: Global,
    nodes: &mut Vec<TNode>,
    op: BinOp,
    stored: IntKind,
    operation: IntKind,
    at: At,
    a: Operand,
    right: TNodeId,
) -> Result<TNodeId, AllocError>
    requires { a.id.0 < length (trees_of nodes.old.items) }
    ensures { IfOk result (λ r. Adds (trees_of nodes.old.items) (trees_of nodes.new.items) r (updated op stored operation true at (operand_in (trees_of nodes.old.items) a) (tree_at (trees_of nodes.old.items) right))) }
{
    let node = node_at(nodes, a.id);
    let volatile = node.ty.is_volatile;
    let ty = unqualified_type(alloc, &node.ty)?;
    let old = true;
    let kind = TKind::Update {
        op,
        stored,
        operation,
        volatile,
        old,
    };
    add_binary(alloc, nodes, kind, ty, Cat::Prvalue, at, a.id, right)
}

// A number that is updated by another, as a number of a kind of its own.
fn updated_by(
    alloc: Global,
    nodes: &mut Vec<TNode>,
    op: BinOp,
    stored: IntKind,
    operation: IntKind,
    at: At,
    a: Operand,
    kind: IntKind,
    b: Operand,
) -> Result<TNodeId, AllocError>
    requires left { a.id.0 < length (trees_of nodes.old.items) }
    requires right { b.id.0 < length (trees_of nodes.old.items) }
    ensures { IfOk result (λ r. Adds (trees_of nodes.old.items) (trees_of nodes.new.items) r (updated op stored operation false at (operand_in (trees_of nodes.old.items) a) (as_kind kind (operand_in (trees_of nodes.old.items) b)))) }
{
    let right = as_kind(alloc, nodes, kind, b)?;
    updated(alloc, nodes, op, stored, operation, at, a, right)
}

// A number that is updated by another.
fn number_updated(
    alloc: Global,
    nodes: &mut Vec<TNode>,
    op: BinOp,
    at: At,
    j: IntKind,
    k: IntKind,
    a: Operand,
    b: Operand,
) -> Result<TNodeId, AllocError>
    requires left { a.id.0 < length (trees_of nodes.old.items) }
    requires right { b.id.0 < length (trees_of nodes.old.items) }
    ensures { IfOk result (λ r. Adds (trees_of nodes.old.items) (trees_of nodes.new.items) r (compound_numbers op at j k (operand_in (trees_of nodes.old.items) a) (operand_in (trees_of nodes.old.items) b))) }
{
    if is_shift(op) {
        let kind = promote(j);
        return updated_by(alloc, nodes, op, j, kind, at, a, promote(k), b);
    }
    let kind = usual(j, k);
    updated_by(alloc, nodes, op, j, kind, at, a, kind, b)
}

// A pointer that is moved by a number of objects of a size.
fn pointer_updated(
    alloc: Global,
    nodes: &mut Vec<TNode>,
    op: BinOp,
    at: At,
    size: u32,
    a: Operand,
    b: Operand,
) -> Result<TNodeId, AllocError>
    requires left { a.id.0 < length (trees_of nodes.old.items) }
    requires right { b.id.0 < length (trees_of nodes.old.items) }
    ensures { IfOk result (λ r. Adds (trees_of nodes.old.items) (trees_of nodes.new.items) r (updated op ULong ULong false at (operand_in (trees_of nodes.old.items) a) (operated Mul ULong size_type at (as_kind ULong (operand_in (trees_of nodes.old.items) b)) (number ULong size at)))) }
{
    let bytes = scaled(alloc, nodes, at, size, b)?;
    let ulong = IntKind::ULong;
    updated(alloc, nodes, op, ulong, ulong, at, a, bytes)
}

// `op=` where the left operand is a pointer.
fn pointer_compound(
    alloc: Global,
    env: &Env,
    nodes: &mut Vec<TNode>,
    op: BinOp,
    at: At,
    target: &Ty,
    a: Operand,
    b: Operand,
) -> Result<TNodeId, ElabFault>
    requires left { a.id.0 < length (trees_of nodes.old.items) }
    requires right { b.id.0 < length (trees_of nodes.old.items) }
    ensures { Gives (trees_of nodes.old.items) (trees_of nodes.new.items) result (compound_in (ctx_of env.now) op at (ptr (typ_of target.now)) (operand_in (trees_of nodes.old.items) a) (operand_in (trees_of nodes.old.items) b)) }
{
    if !is_sum(op) || number_kind(nodes, b).is_none() {
        return Err(ill(at, IllRule::BadOperand));
    }
    let _ = movable(env, at, a.at, target)?;
    let size = size_of(env, target)?;
    let made = pointer_updated(alloc, nodes, op, at, size, a, b)?;
    Ok(made)
}

// `op=` where the left operand is a number.
fn number_compound(
    alloc: Global,
    env: &Env,
    nodes: &mut Vec<TNode>,
    op: BinOp,
    at: At,
    j: IntKind,
    a: Operand,
    b: Operand,
) -> Result<TNodeId, ElabFault>
    requires left { a.id.0 < length (trees_of nodes.old.items) }
    requires right { b.id.0 < length (trees_of nodes.old.items) }
    ensures { Gives (trees_of nodes.old.items) (trees_of nodes.new.items) result (compound_in (ctx_of env.now) op at (int j) (operand_in (trees_of nodes.old.items) a) (operand_in (trees_of nodes.old.items) b)) }
{
    let Some(k) = number_kind(nodes, b) else {
        return Err(ill(at, IllRule::BadOperand));
    };
    let made = number_updated(alloc, nodes, op, at, j, k, a, b)?;
    Ok(made)
}

// `op=` where the left operand has the form of this type.
fn compound_in(
    alloc: Global,
    env: &Env,
    nodes: &mut Vec<TNode>,
    op: BinOp,
    at: At,
    ty: &Ty,
    a: Operand,
    b: Operand,
) -> Result<TNodeId, ElabFault>
    requires left { a.id.0 < length (trees_of nodes.old.items) }
    requires right { b.id.0 < length (trees_of nodes.old.items) }
    ensures { Gives (trees_of nodes.old.items) (trees_of nodes.new.items) result (compound_in (ctx_of env.now) op at (form_in (typ_of ty.now)) (operand_in (trees_of nodes.old.items) a) (operand_in (trees_of nodes.old.items) b)) }
{
    match &ty.shape {
        Shape::Ptr(target) => pointer_compound(alloc, env, nodes, op, at, target, a, b),
        Shape::Int(kind) => number_compound(alloc, env, nodes, op, at, *kind, a, b),
        Shape::Void
        | Shape::Enum { .. }
        | Shape::Null
        | Shape::Ref(_)
        | Shape::Array(_, _)
        | Shape::Func(_)
        | Shape::Class(_)
        | Shape::Closure(_)
        | Shape::TxEx(_) => Err(ill(at, IllRule::BadOperand)),
    }
}

/// `op=`
pub fn compound(
    alloc: Global,
    env: &Env,
    nodes: &mut Vec<TNode>,
    op: BinOp,
    at: At,
    a: Operand,
    b: Operand,
) -> Result<TNodeId, ElabFault>
    requires left { a.id.0 < length (trees_of nodes.old.items) }
    requires right { b.id.0 < length (trees_of nodes.old.items) }
    ensures { Gives (trees_of nodes.old.items) (trees_of nodes.new.items) result (compound (ctx_of env.now) op at (operand_in (trees_of nodes.old.items) a) (operand_in (trees_of nodes.old.items) b)) }
{
    let _ = target(nodes, at, a)?;
    let ty = copy(alloc, &node_at(nodes, a.id).ty)?;
    compound_in(alloc, env, nodes, op, at, &ty, a, b)
}

// An lvalue that is stepped by a number.
fn stepped_by(
    alloc: Global,
    nodes: &mut Vec<TNode>,
    op: BinOp,
    old: bool,
    at: At,
    stored: IntKind,
    operation: IntKind,
    by: u64,
    a: Operand,
) -> Result<TNodeId, AllocError>
    requires { a.id.0 < length (trees_of nodes.old.items) }
    ensures { IfOk result (λ r. Adds (trees_of nodes.old.items) (trees_of nodes.new.items) r (updated op stored operation old at (operand_in (trees_of nodes.old.items) a) (number operation by at))) }
{
    let right = number(alloc, nodes, operation, by, at)?;
    if old {
        updated_behind(alloc, nodes, op, stored, operation, at, a, right)
    } else {
        updated(alloc, nodes, op, stored, operation, at, a, right)
    }
}

// `++` or `--` on a pointer.
fn pointer_step(
    alloc: Global,
    env: &Env,
    nodes: &mut Vec<TNode>,
    op: BinOp,
    old: bool,
    at: At,
    target: &Ty,
    a: Operand,
) -> Result<TNodeId, ElabFault>
    requires { a.id.0 < length (trees_of nodes.old.items) }
    ensures { Gives (trees_of nodes.old.items) (trees_of nodes.new.items) result (step_in (ctx_of env.now) op old at (ptr (typ_of target.now)) (operand_in (trees_of nodes.old.items) a)) }
{
    let _ = movable(env, at, a.at, target)?;
    let size = size_of(env, target)?;
    let by = size as u64;
    let ulong = IntKind::ULong;
    let made = stepped_by(alloc, nodes, op, old, at, ulong, ulong, by, a)?;
    Ok(made)
}

// `++` or `--` on a number.
fn number_step(
    alloc: Global,
    env: &Env,
    nodes: &mut Vec<TNode>,
    op: BinOp,
    old: bool,
    at: At,
    kind: IntKind,
    a: Operand,
) -> Result<TNodeId, ElabFault>
    requires { a.id.0 < length (trees_of nodes.old.items) }
    ensures { Gives (trees_of nodes.old.items) (trees_of nodes.new.items) result (step_in (ctx_of env.now) op old at (int kind) (operand_in (trees_of nodes.old.items) a)) }
{
    if equal_kinds(kind, IntKind::Bool) {
        return Err(ill(at, IllRule::BadOperand));
    }
    let made = stepped_by(alloc, nodes, op, old, at, kind, promote(kind), 1, a)?;
    Ok(made)
}

// `++` or `--` on an operand that has the form of this type.
fn step_in(
    alloc: Global,
    env: &Env,
    nodes: &mut Vec<TNode>,
    op: BinOp,
    old: bool,
    at: At,
    ty: &Ty,
    a: Operand,
) -> Result<TNodeId, ElabFault>
    requires { a.id.0 < length (trees_of nodes.old.items) }
    ensures { Gives (trees_of nodes.old.items) (trees_of nodes.new.items) result (step_in (ctx_of env.now) op old at (form_in (typ_of ty.now)) (operand_in (trees_of nodes.old.items) a)) }
{
    match &ty.shape {
        Shape::Ptr(target) => pointer_step(alloc, env, nodes, op, old, at, target, a),
        Shape::Int(kind) => number_step(alloc, env, nodes, op, old, at, *kind, a),
        Shape::Void
        | Shape::Enum { .. }
        | Shape::Null
        | Shape::Ref(_)
        | Shape::Array(_, _)
        | Shape::Func(_)
        | Shape::Class(_)
        | Shape::Closure(_)
        | Shape::TxEx(_) => Err(ill(at, IllRule::BadOperand)),
    }
}

/// `++` (with `Add`) or `--` (with `Sub`); behind the operand (`old`), the value is that of before.
pub fn step(
    alloc: Global,
    env: &Env,
    nodes: &mut Vec<TNode>,
    op: BinOp,
    old: bool,
    at: At,
    a: Operand,
) -> Result<TNodeId, ElabFault>
    requires { a.id.0 < length (trees_of nodes.old.items) }
    ensures { Gives (trees_of nodes.old.items) (trees_of nodes.new.items) result (step (ctx_of env.now) op old at (operand_in (trees_of nodes.old.items) a)) }
{
    let _ = target(nodes, at, a)?;
    let ty = copy(alloc, &node_at(nodes, a.id).ty)?;
    step_in(alloc, env, nodes, op, old, at, &ty, a)
}
