// Pointers and numbers (C++14 5.2.1, 5.3.1, 5.7).

ghost use Rattle.std.specs.Prelude.{◌≡◌, ◌<◌, length, nat_le, true, IfOk, Some, None, Ok, List, ℕ};
ghost use Rattle.elab_conv.specs.tx_ints.declared.kinds.IntKind.TheVariants.{Long, ULong};
ghost use Rattle.elab_conv.specs.tx_ints.declared.kinds.BinOp.TheVariants.{Mul, Div};
ghost use Rattle.elab_conv.specs.cpp_types.Typ.{typ_of, int};
ghost use Rattle.elab_conv.specs.cpp_types.Class.{held, classes_of};
ghost use Rattle.elab_conv.specs.cpp_types.Conversion.{is_lvalue};
ghost use Rattle.elab_conv.specs.cpp_layout.declared.extents.TheConstants.{GREATEST_SIZE};
ghost use Rattle.elab_conv.specs.cpp_tree.Trees.{typ_in, cat_of};
ghost use Rattle.elab_conv.specs.cpp_tree.Arena.{trees_of, tree_at, Adds};
ghost use Rattle.elab_conv.specs.cpp_tree.Notation.{plain};
ghost use Rattle.elab_conv.specs.cpp_tree.Typing.{form_in, unqualified};
ghost use Rattle.elab_conv.specs.elab_ctx.Ctx.{ctx_of};
ghost use Rattle.elab_conv.specs.elab_ctx.Operands.{operand_in};
ghost use Rattle.elab_conv.specs.elab_ctx.Steps.{and_then};
ghost use Rattle.elab_ops.specs.Forms.{object_at};
ghost use Rattle.elab_conv.specs.elab_ctx.Says.{Gives, Tells};
ghost use Rattle.elab_conv.specs.elab_rules.Objects.{size_of};
ghost use Rattle.elab_conv.specs.elab_rules.Values.{number, operated, in_kind, size_type, retyped};
ghost use Rattle.elab_conv.specs.elab_rules.Operators.{value, as_kind, arithmetic, arithmetic_of, is_object_type, is_complete, is_sized, is_function, pointed, within_if_sized, measurable, movable, sum_of, indirection, address_of, subscript, value_form};

use crate::arithmetic::{arithmetic_of, in_kind, number, on_values, operated, operated_in};
use crate::operands::{as_kind, ill, int_type, number_kind, pointed, value, value_type};
use elab_conv::below::{
    At, BinOp, Cat, ElabFault, Env, IllRule, IntKind, LimitKind, Operand, Shape, TKind, TNode,
    TNodeId, Ty, add_unary, completion, copy, equal_types, held_class, measured, node_at, size_of,
};
use elab_conv::types::{pointer_to, unqualified_type};
use std::alloc::{AllocError, Global};

// Whether objects have the type, or could have it.
fn is_object_type(ty: &Ty) -> bool
    ensures { result ≡ is_object_type (form_in (typ_of ty.now)) }
{
    match &ty.shape {
        Shape::Void | Shape::Func(_) => false,
        Shape::Int(_)
        | Shape::Enum { .. }
        | Shape::Null
        | Shape::Ptr(_)
        | Shape::Ref(_)
        | Shape::Array(_, _)
        | Shape::Class(_)
        | Shape::Closure(_)
        | Shape::TxEx(_) => true,
    }
}

/// Whether the class that a type holds, if it holds one, is complete.
pub fn is_complete(env: &Env, ty: &Ty) -> bool
    ensures { result ≡ is_complete (ctx_of env.now) (held (typ_of ty.now)) }
{
    match held_class(&ty.shape) {
        Some(class) => completion(env, class).is_some(),
        None => true,
    }
}

/// Whether objects of the type have a size.
pub fn is_sized(env: &Env, ty: &Ty) -> bool
    ensures { result ≡ is_sized (ctx_of env.now) (typ_of ty.now) }
{
    is_object_type(ty) && is_complete(env, ty)
}

/// Whether the type is one of functions.
pub fn is_function(ty: &Ty) -> bool
    ensures { result ≡ is_function (typ_of ty.now) }
{
    match &ty.shape {
        Shape::Func(_) => true,
        Shape::Void
        | Shape::Int(_)
        | Shape::Enum { .. }
        | Shape::Null
        | Shape::Ptr(_)
        | Shape::Ref(_)
        | Shape::Array(_, _)
        | Shape::Class(_)
        | Shape::Closure(_)
        | Shape::TxEx(_) => false,
    }
}

// Whether an object of a type that has a size is no larger than the greatest one.
fn is_within_greatest(env: &Env, ty: &Ty) -> bool
    requires { is_sized (ctx_of env.now) (typ_of ty.now) ≡ true }
    ensures { result ≡ nat_le (size_of (classes_of env.now.classes.items) (typ_of ty.now)) GREATEST_SIZE }
{
    measured(env, ty).is_some()
}

/// Tests that objects of a type, where they have a size, are no larger than the greatest one.
pub fn within_if_sized(env: &Env, at: At, ty: &Ty) -> Result<bool, ElabFault>
    ensures { Tells result (within_if_sized (ctx_of env.now) at (typ_of ty.now)) }
{
    if is_sized(env, ty) && !is_within_greatest(env, ty) {
        return Err(ElabFault::Limit {
            at,
            which: LimitKind::Size,
        });
    }
    Ok(true)
}

/// Tests that objects of a type have a size, and that it is no more than the greatest one.
pub fn measurable(env: &Env, at: At, ty: &Ty) -> Result<bool, ElabFault>
    ensures { Tells result (measurable (ctx_of env.now) at (typ_of ty.now)) }
{
    if !is_sized(env, ty) {
        return Err(ill(at, IllRule::Incomplete));
    }
    if !is_within_greatest(env, ty) {
        return Err(ElabFault::Limit {
            at,
            which: LimitKind::Size,
        });
    }
    Ok(true)
}

/// Tests that a pointer, at a place of its own, can be moved to other objects of the type that it points to.
pub fn movable(env: &Env, at: At, pointer: At, ty: &Ty) -> Result<bool, ElabFault>
    ensures { Tells result (movable (ctx_of env.now) at pointer (typ_of ty.now)) }
{
    if is_function(ty) {
        return Err(ill(at, IllRule::BadOperand));
    }
    measurable(env, pointer, ty)
}

/// A number of objects of a size as a number of bytes.
pub fn scaled(
    alloc: Global,
    nodes: &mut Vec<TNode>,
    at: At,
    size: u32,
    count: Operand,
) -> Result<TNodeId, AllocError>
    requires { count.id.0 < length (trees_of nodes.old.items) }
    ensures { IfOk result (λ r. Adds (trees_of nodes.old.items) (trees_of nodes.new.items) r (operated Mul ULong size_type at (as_kind ULong (operand_in (trees_of nodes.old.items) count)) (number ULong size at))) }
{
    let ulong = IntKind::ULong;
    let left = as_kind(alloc, nodes, ulong, count)?;
    let right = number(alloc, nodes, ulong, size as u64, at)?;
    operated_in(alloc, nodes, BinOp::Mul, ulong, ulong, at, left, right)
}

// An operation on addresses, whose type is that of one of them.
fn on_addresses(
    alloc: Global,
    nodes: &mut Vec<TNode>,
    op: BinOp,
    at: At,
    pointer: TNodeId,
    left: TNodeId,
    right: TNodeId,
) -> Result<TNodeId, AllocError>
    requires { pointer.0 < length (trees_of nodes.old.items) }
    ensures { IfOk result (λ r. Adds (trees_of nodes.old.items) (trees_of nodes.new.items) r (operated op ULong (unqualified (typ_in (tree_at (trees_of nodes.old.items) pointer))) at (tree_at (trees_of nodes.old.items) left) (tree_at (trees_of nodes.old.items) right))) }
{
    let ty = unqualified_type(alloc, &node_at(nodes, pointer).ty)?;
    operated(alloc, nodes, op, IntKind::ULong, ty, at, left, right)
}

// A pointer moved by a number of objects of a size.
fn moved_by(
    alloc: Global,
    nodes: &mut Vec<TNode>,
    op: BinOp,
    at: At,
    size: u32,
    pointer: Operand,
    count: Operand,
) -> Result<TNodeId, AllocError>
    requires pointer { pointer.id.0 < length (trees_of nodes.old.items) }
    requires count { count.id.0 < length (trees_of nodes.old.items) }
    ensures { IfOk result (λ r. Adds (trees_of nodes.old.items) (trees_of nodes.new.items) r (operated op ULong (unqualified (typ_in (value (operand_in (trees_of nodes.old.items) pointer)))) at (value (operand_in (trees_of nodes.old.items) pointer)) (operated Mul ULong size_type at (as_kind ULong (operand_in (trees_of nodes.old.items) count)) (number ULong size at)))) }
{
    let address = value(alloc, nodes, pointer)?;
    let bytes = scaled(alloc, nodes, at, size, count)?;
    on_addresses(alloc, nodes, op, at, address, address, bytes)
}

// The same, written as a number and a pointer.
fn moved_back_by(
    alloc: Global,
    nodes: &mut Vec<TNode>,
    at: At,
    size: u32,
    count: Operand,
    pointer: Operand,
) -> Result<TNodeId, AllocError>
    requires count { count.id.0 < length (trees_of nodes.old.items) }
    requires pointer { pointer.id.0 < length (trees_of nodes.old.items) }
    ensures { IfOk result (λ r. Adds (trees_of nodes.old.items) (trees_of nodes.new.items) r (operated BinOp.Add ULong (unqualified (typ_in (value (operand_in (trees_of nodes.old.items) pointer)))) at (operated Mul ULong size_type at (as_kind ULong (operand_in (trees_of nodes.old.items) count)) (number ULong size at)) (value (operand_in (trees_of nodes.old.items) pointer)))) }
{
    let bytes = scaled(alloc, nodes, at, size, count)?;
    let address = value(alloc, nodes, pointer)?;
    on_addresses(alloc, nodes, BinOp::Add, at, address, bytes, address)
}

// A number of bytes as a number of objects of a size.
fn divided_by(
    alloc: Global,
    nodes: &mut Vec<TNode>,
    at: At,
    size: u32,
    bytes: TNodeId,
) -> Result<TNodeId, AllocError>
    requires { bytes.0 < length (trees_of nodes.old.items) }
    ensures { IfOk result (λ r. Adds (trees_of nodes.old.items) (trees_of nodes.new.items) r (operated Div Long (plain (int Long)) at (in_kind at Long (tree_at (trees_of nodes.old.items) bytes)) (number Long size at))) }
{
    let long = IntKind::Long;
    let left = in_kind(alloc, nodes, at, long, bytes)?;
    let right = number(alloc, nodes, long, size as u64, at)?;
    operated_in(alloc, nodes, BinOp::Div, long, long, at, left, right)
}

// A pointer and a number.
fn moved(
    alloc: Global,
    env: &Env,
    nodes: &mut Vec<TNode>,
    op: BinOp,
    at: At,
    target: &Ty,
    pointer: Operand,
    count: Operand,
) -> Result<TNodeId, ElabFault>
    requires pointer { pointer.id.0 < length (trees_of nodes.old.items) }
    requires count { count.id.0 < length (trees_of nodes.old.items) }
    ensures { Gives (trees_of nodes.old.items) (trees_of nodes.new.items) result (sum_of (ctx_of env.now) op at (Some (typ_of target.now)) None (operand_in (trees_of nodes.old.items) pointer) (operand_in (trees_of nodes.old.items) count)) }
{
    if number_kind(nodes, count).is_none() {
        return Err(ill(at, IllRule::BadOperand));
    }
    let _ = movable(env, at, pointer.at, target)?;
    let size = size_of(env, target)?;
    let made = moved_by(alloc, nodes, op, at, size, pointer, count)?;
    Ok(made)
}

// A number and a pointer that are added.
fn moved_back(
    alloc: Global,
    env: &Env,
    nodes: &mut Vec<TNode>,
    at: At,
    target: &Ty,
    count: Operand,
    pointer: Operand,
) -> Result<TNodeId, ElabFault>
    requires count { count.id.0 < length (trees_of nodes.old.items) }
    requires pointer { pointer.id.0 < length (trees_of nodes.old.items) }
    ensures { Gives (trees_of nodes.old.items) (trees_of nodes.new.items) result (sum_of (ctx_of env.now) BinOp.Add at None (Some (typ_of target.now)) (operand_in (trees_of nodes.old.items) count) (operand_in (trees_of nodes.old.items) pointer)) }
{
    if number_kind(nodes, count).is_none() {
        return Err(ill(at, IllRule::BadOperand));
    }
    let _ = movable(env, at, pointer.at, target)?;
    let size = size_of(env, target)?;
    let made = moved_back_by(alloc, nodes, at, size, count, pointer)?;
    Ok(made)
}

// Two pointers of which the second is taken from the first.
fn difference(
    alloc: Global,
    env: &Env,
    nodes: &mut Vec<TNode>,
    at: At,
    target: &Ty,
    other: &Ty,
    p: Operand,
    q: Operand,
) -> Result<TNodeId, ElabFault>
    requires left { p.id.0 < length (trees_of nodes.old.items) }
    requires right { q.id.0 < length (trees_of nodes.old.items) }
    ensures { Gives (trees_of nodes.old.items) (trees_of nodes.new.items) result (sum_of (ctx_of env.now) BinOp.Sub at (Some (typ_of target.now)) (Some (typ_of other.now)) (operand_in (trees_of nodes.old.items) p) (operand_in (trees_of nodes.old.items) q)) }
{
    if !equal_types(target, other) {
        return Err(ill(at, IllRule::BadOperand));
    }
    let _ = movable(env, at, p.at, target)?;
    let size = size_of(env, target)?;
    let ulong = IntKind::ULong;
    let bytes = on_values(alloc, nodes, BinOp::Sub, ulong, int_type(ulong), at, p, q)?;
    let made = divided_by(alloc, nodes, at, size, bytes)?;
    Ok(made)
}

// `+` or `-` on numbers.
fn sum_of_numbers(
    alloc: Global,
    nodes: &mut Vec<TNode>,
    op: BinOp,
    at: At,
    a: Operand,
    b: Operand,
) -> Result<TNodeId, ElabFault>
    requires left { a.id.0 < length (trees_of nodes.old.items) }
    requires right { b.id.0 < length (trees_of nodes.old.items) }
    ensures { Gives (trees_of nodes.old.items) (trees_of nodes.new.items) result (arithmetic_of op at (arithmetic (value_form (operand_in (trees_of nodes.old.items) a))) (arithmetic (value_form (operand_in (trees_of nodes.old.items) b))) (operand_in (trees_of nodes.old.items) a) (operand_in (trees_of nodes.old.items) b)) }
{
    let left = number_kind(nodes, a);
    let right = number_kind(nodes, b);
    arithmetic_of(alloc, nodes, op, at, left, right, a, b)
}

// `+` or `-`, where the left operand is a pointer.
fn sum_with_pointer(
    alloc: Global,
    env: &Env,
    nodes: &mut Vec<TNode>,
    op: BinOp,
    at: At,
    target: &Ty,
    right: &Ty,
    a: Operand,
    b: Operand,
) -> Result<TNodeId, ElabFault>
    requires left { a.id.0 < length (trees_of nodes.old.items) }
    requires right { b.id.0 < length (trees_of nodes.old.items) }
    ensures { Gives (trees_of nodes.old.items) (trees_of nodes.new.items) result (sum_of (ctx_of env.now) op at (Some (typ_of target.now)) (pointed (form_in (typ_of right.now))) (operand_in (trees_of nodes.old.items) a) (operand_in (trees_of nodes.old.items) b)) }
{
    let Some(other) = pointed(right) else {
        return moved(alloc, env, nodes, op, at, target, a, b);
    };
    match op {
        BinOp::Sub => difference(alloc, env, nodes, at, target, other, a, b),
        _ => sum_of_numbers(alloc, nodes, op, at, a, b),
    }
}

// `+` or `-`, where the left operand is none.
fn sum_with_number(
    alloc: Global,
    env: &Env,
    nodes: &mut Vec<TNode>,
    op: BinOp,
    at: At,
    right: &Ty,
    a: Operand,
    b: Operand,
) -> Result<TNodeId, ElabFault>
    requires left { a.id.0 < length (trees_of nodes.old.items) }
    requires right { b.id.0 < length (trees_of nodes.old.items) }
    ensures { Gives (trees_of nodes.old.items) (trees_of nodes.new.items) result (sum_of (ctx_of env.now) op at None (pointed (form_in (typ_of right.now))) (operand_in (trees_of nodes.old.items) a) (operand_in (trees_of nodes.old.items) b)) }
{
    let Some(target) = pointed(right) else {
        return sum_of_numbers(alloc, nodes, op, at, a, b);
    };
    match op {
        BinOp::Add => moved_back(alloc, env, nodes, at, target, a, b),
        _ => sum_of_numbers(alloc, nodes, op, at, a, b),
    }
}

/// `+` or `-` on operands whose values have the forms of these types.
pub fn sum_of(
    alloc: Global,
    env: &Env,
    nodes: &mut Vec<TNode>,
    op: BinOp,
    at: At,
    left: &Ty,
    right: &Ty,
    a: Operand,
    b: Operand,
) -> Result<TNodeId, ElabFault>
    requires left { a.id.0 < length (trees_of nodes.old.items) }
    requires right { b.id.0 < length (trees_of nodes.old.items) }
    ensures { Gives (trees_of nodes.old.items) (trees_of nodes.new.items) result (sum_of (ctx_of env.now) op at (pointed (form_in (typ_of left.now))) (pointed (form_in (typ_of right.now))) (operand_in (trees_of nodes.old.items) a) (operand_in (trees_of nodes.old.items) b)) }
{
    match pointed(left) {
        Some(target) => sum_with_pointer(alloc, env, nodes, op, at, target, right, a, b),
        None => sum_with_number(alloc, env, nodes, op, at, right, a, b),
    }
}

// The object to which a pointer points.
fn object_at(
    alloc: Global,
    nodes: &mut Vec<TNode>,
    at: At,
    pointer: TNodeId,
) -> Result<TNodeId, ElabFault>
    requires { pointer.0 < length (trees_of nodes.old.items) }
    ensures { Gives (trees_of nodes.old.items) (trees_of nodes.new.items) result (object_at at (tree_at (trees_of nodes.old.items) pointer)) }
{
    let Some(target) = pointed(&node_at(nodes, pointer).ty) else {
        return Err(ill(at, IllRule::BadOperand));
    };
    let ty = copy(alloc, target)?;
    let made = add_unary(alloc, nodes, TKind::Retype, ty, Cat::Lvalue, at, pointer)?;
    Ok(made)
}

/// Unary `*`.
pub fn indirection(
    alloc: Global,
    nodes: &mut Vec<TNode>,
    at: At,
    a: Operand,
) -> Result<TNodeId, ElabFault>
    requires { a.id.0 < length (trees_of nodes.old.items) }
    ensures { Gives (trees_of nodes.old.items) (trees_of nodes.new.items) result (indirection at (operand_in (trees_of nodes.old.items) a)) }
{
    let pointer = value(alloc, nodes, a)?;
    object_at(alloc, nodes, at, pointer)
}

// Whether an expression is an lvalue.
pub fn is_lvalue(nodes: &Vec<TNode>, id: TNodeId) -> bool
    requires { id.0 < length (trees_of nodes.now.items) }
    ensures { result ≡ is_lvalue (cat_of (tree_at (trees_of nodes.now.items) id)) }
{
    match node_at(nodes, id).cat {
        Cat::Lvalue => true,
        Cat::Prvalue => false,
    }
}

/// Unary `&`.
pub fn address_of(
    alloc: Global,
    nodes: &mut Vec<TNode>,
    at: At,
    a: Operand,
) -> Result<TNodeId, ElabFault>
    requires { a.id.0 < length (trees_of nodes.old.items) }
    ensures { Gives (trees_of nodes.old.items) (trees_of nodes.new.items) result (address_of at (operand_in (trees_of nodes.old.items) a)) }
{
    if !is_lvalue(nodes, a.id) {
        return Err(ill(at, IllRule::NotLvalue));
    }
    let target = copy(alloc, &node_at(nodes, a.id).ty)?;
    let ty = pointer_to(alloc, target)?;
    let made = add_unary(alloc, nodes, TKind::Retype, ty, Cat::Prvalue, at, a.id)?;
    Ok(made)
}

// The object to which a sum points, of operands whose values have the forms of these types.
fn subscript_in(
    alloc: Global,
    env: &Env,
    nodes: &mut Vec<TNode>,
    at: At,
    left: &Ty,
    right: &Ty,
    a: Operand,
    b: Operand,
) -> Result<TNodeId, ElabFault>
    requires left { a.id.0 < length (trees_of nodes.old.items) }
    requires right { b.id.0 < length (trees_of nodes.old.items) }
    ensures { Gives (trees_of nodes.old.items) (trees_of nodes.new.items) result (and_then (sum_of (ctx_of env.now) BinOp.Add at (pointed (form_in (typ_of left.now))) (pointed (form_in (typ_of right.now))) (operand_in (trees_of nodes.old.items) a) (operand_in (trees_of nodes.old.items) b)) (object_at at)) }
{
    let sum = sum_of(alloc, env, nodes, BinOp::Add, at, left, right, a, b)?;
    object_at(alloc, nodes, at, sum)
}

/// `a[b]`: the object to which the sum points.
pub fn subscript(
    alloc: Global,
    env: &Env,
    nodes: &mut Vec<TNode>,
    at: At,
    a: Operand,
    b: Operand,
) -> Result<TNodeId, ElabFault>
    requires left { a.id.0 < length (trees_of nodes.old.items) }
    requires right { b.id.0 < length (trees_of nodes.old.items) }
    ensures { Gives (trees_of nodes.old.items) (trees_of nodes.new.items) result (subscript (ctx_of env.now) at (operand_in (trees_of nodes.old.items) a) (operand_in (trees_of nodes.old.items) b)) }
{
    let left = value_type(alloc, nodes, a)?;
    let right = value_type(alloc, nodes, b)?;
    subscript_in(alloc, env, nodes, at, &left, &right, a, b)
}
