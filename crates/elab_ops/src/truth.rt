// Truth (C++14 4.12, 5.3.1, 5.14, 5.15).

ghost use Rattle.std.specs.Prelude.{◌≡◌, ◌<◌, length, IfOk, OnOk, if◌then◌else◌};
ghost use Rattle.elab_conv.specs.tx_ints.declared.kinds.IntKind.TheVariants.{Int};
ghost use Rattle.elab_conv.specs.tx_ints.declared.kinds.BinOp.TheVariants.{Eq};
ghost use Rattle.elab_conv.specs.cpp_types.Typ.{typ_of};
ghost use Rattle.elab_conv.specs.cpp_types.declared.ranks.Cat.TheVariants.{Prvalue};
ghost use Rattle.elab_conv.specs.cpp_tree.declared.kinds.TKind.TheVariants.{Conditional};
ghost use Rattle.elab_conv.specs.cpp_tree.Trees.{node, three};
ghost use Rattle.elab_conv.specs.cpp_tree.Arena.{trees_of, tree_at, Grows, Adds};
ghost use Rattle.elab_conv.specs.elab_ctx.Ctx.{ctx_of, Work};
ghost use Rattle.elab_conv.specs.elab_ctx.Operands.{operand_in};
ghost use Rattle.elab_conv.specs.elab_ctx.Says.{Gives};
ghost use Rattle.elab_conv.specs.elab_rules.Values.{bool_type, number, in_kind};
ghost use Rattle.elab_conv.specs.elab_rules.Operators.{truth, logical, negation, compared, false_at, true_at};
ghost use Rattle.elab_ops.specs.Forms.{value_initial, logical_in, negation_in};

use crate::arithmetic::{in_kind, number, operated_in};
use crate::operands::{ill, int_type, value};
use elab_conv::below::{
    At, BinOp, Cat, ElabFault, Env, IllRule, IntKind, Operand, TKind, TNode, TNodeId, Ty, add_node,
    conversion_between, node_at,
};
use elab_conv::stepped;
use std::alloc::{AllocError, Global};

/// A node with three kids.
pub fn add_three(
    alloc: Global,
    nodes: &mut Vec<TNode>,
    kind: TKind,
    ty: Ty,
    cat: Cat,
    at: At,
    first: TNodeId,
    second: TNodeId,
    third: TNodeId,
) -> Result<TNodeId, AllocError>
    ensures { IfOk result (λ r. Adds (trees_of nodes.old.items) (trees_of nodes.new.items) r (node kind (typ_of ty) cat at (three (tree_at (trees_of nodes.old.items) first) (tree_at (trees_of nodes.old.items) second) (tree_at (trees_of nodes.old.items) third)))) }
{
    let mut kids = Vec::new(alloc);
    kids.push(first)?;
    kids.push(second)?;
    kids.push(third)?;
    add_node(
        nodes,
        TNode {
            kind,
            ty,
            cat,
            at,
            kids,
        },
    )
}

// The value of an operand as one of a scalar type.
fn value_initial(
    alloc: Global,
    env: &Env,
    nodes: &mut Vec<TNode>,
    ty: &Ty,
    o: Operand,
) -> Result<TNodeId, ElabFault>
    requires { o.id.0 < length (trees_of nodes.old.items) }
    ensures { Gives (trees_of nodes.old.items) (trees_of nodes.new.items) result (value_initial (ctx_of env.now) (typ_of ty.now) (operand_in (trees_of nodes.old.items) o)) }
{
    let node = node_at(nodes, o.id);
    let Some(found) = conversion_between(&node.ty, node.cat, o.zero, ty, &env.classes) else {
        return Err(ill(o.at, IllRule::NoConversion));
    };
    let value = value(alloc, nodes, o)?;
    let made = stepped(alloc, nodes, o.at, found.step, ty, value)?;
    Ok(made)
}

/// The value of an operand as a `bool`.
pub fn bool_value(
    alloc: Global,
    env: &Env,
    nodes: &mut Vec<TNode>,
    o: Operand,
) -> Result<TNodeId, ElabFault>
    requires { o.id.0 < length (trees_of nodes.old.items) }
    ensures { Gives (trees_of nodes.old.items) (trees_of nodes.new.items) result (value_initial (ctx_of env.now) bool_type (operand_in (trees_of nodes.old.items) o)) }
{
    let ty = int_type(IntKind::Bool);
    value_initial(alloc, env, nodes, &ty, o)
}

/// The truth of an operand, as a `bool`.
pub fn truth(
    alloc: Global,
    env: &Env,
    nodes: &mut Vec<TNode>,
    o: Operand,
) -> Result<TNodeId, ElabFault>
    requires { o.id.0 < length (trees_of nodes.old.items) }
    ensures grows { OnOk result (Grows (trees_of nodes.old.items) (trees_of nodes.new.items)) }
    ensures within { IfOk result (λ r. r.0 < length (trees_of nodes.new.items)) }
    ensures exact { (w : Work) → Gives (trees_of nodes.old.items) (trees_of nodes.new.items) result (truth (ctx_of env.now) w (operand_in (trees_of nodes.old.items) o)) }
{
    bool_value(alloc, env, nodes, o)
}

// `x && y`: the second where the first holds, else `false`.
fn both_hold(
    alloc: Global,
    nodes: &mut Vec<TNode>,
    at: At,
    x: TNodeId,
    y: TNodeId,
) -> Result<TNodeId, AllocError>
    requires left { x.0 < length (trees_of nodes.old.items) }
    requires right { y.0 < length (trees_of nodes.old.items) }
    ensures { IfOk result (λ r. Adds (trees_of nodes.old.items) (trees_of nodes.new.items) r (node Conditional bool_type Prvalue at (three (tree_at (trees_of nodes.old.items) x) (tree_at (trees_of nodes.old.items) y) (false_at at)))) }
{
    let ty = int_type(IntKind::Bool);
    let no = number(alloc, nodes, IntKind::Bool, 0, at)?;
    add_three(
        alloc,
        nodes,
        TKind::Conditional,
        ty,
        Cat::Prvalue,
        at,
        x,
        y,
        no,
    )
}

// `x || y`: `true` where the first holds, else the second.
fn one_holds(
    alloc: Global,
    nodes: &mut Vec<TNode>,
    at: At,
    x: TNodeId,
    y: TNodeId,
) -> Result<TNodeId, AllocError>
    requires left { x.0 < length (trees_of nodes.old.items) }
    requires right { y.0 < length (trees_of nodes.old.items) }
    ensures { IfOk result (λ r. Adds (trees_of nodes.old.items) (trees_of nodes.new.items) r (node Conditional bool_type Prvalue at (three (tree_at (trees_of nodes.old.items) x) (true_at at) (tree_at (trees_of nodes.old.items) y)))) }
{
    let ty = int_type(IntKind::Bool);
    let yes = number(alloc, nodes, IntKind::Bool, 1, at)?;
    add_three(
        alloc,
        nodes,
        TKind::Conditional,
        ty,
        Cat::Prvalue,
        at,
        x,
        yes,
        y,
    )
}

// `x && y` or `x || y` on truth values.
fn joined(
    alloc: Global,
    nodes: &mut Vec<TNode>,
    is_and: bool,
    at: At,
    x: TNodeId,
    y: TNodeId,
) -> Result<TNodeId, AllocError>
    requires left { x.0 < length (trees_of nodes.old.items) }
    requires right { y.0 < length (trees_of nodes.old.items) }
    ensures { IfOk result (λ r. Adds (trees_of nodes.old.items) (trees_of nodes.new.items) r (node Conditional bool_type Prvalue at (if is_and then three (tree_at (trees_of nodes.old.items) x) (tree_at (trees_of nodes.old.items) y) (false_at at) else three (tree_at (trees_of nodes.old.items) x) (true_at at) (tree_at (trees_of nodes.old.items) y)))) }
{
    if is_and {
        both_hold(alloc, nodes, at, x, y)
    } else {
        one_holds(alloc, nodes, at, x, y)
    }
}

// `&&` or `||`, whatever is made beside nodes.
fn logical_in(
    alloc: Global,
    env: &Env,
    nodes: &mut Vec<TNode>,
    is_and: bool,
    at: At,
    a: Operand,
    b: Operand,
) -> Result<TNodeId, ElabFault>
    requires left { a.id.0 < length (trees_of nodes.old.items) }
    requires right { b.id.0 < length (trees_of nodes.old.items) }
    ensures { Gives (trees_of nodes.old.items) (trees_of nodes.new.items) result (logical_in (ctx_of env.now) is_and at (operand_in (trees_of nodes.old.items) a) (operand_in (trees_of nodes.old.items) b)) }
{
    let x = bool_value(alloc, env, nodes, a)?;
    let y = bool_value(alloc, env, nodes, b)?;
    let made = joined(alloc, nodes, is_and, at, x, y)?;
    Ok(made)
}

/// `&&` or `||`.
pub fn logical(
    alloc: Global,
    env: &Env,
    nodes: &mut Vec<TNode>,
    is_and: bool,
    at: At,
    a: Operand,
    b: Operand,
) -> Result<TNodeId, ElabFault>
    requires left { a.id.0 < length (trees_of nodes.old.items) }
    requires right { b.id.0 < length (trees_of nodes.old.items) }
    ensures grows { OnOk result (Grows (trees_of nodes.old.items) (trees_of nodes.new.items)) }
    ensures within { IfOk result (λ r. r.0 < length (trees_of nodes.new.items)) }
    ensures exact { (w : Work) → Gives (trees_of nodes.old.items) (trees_of nodes.new.items) result (logical (ctx_of env.now) w is_and at (operand_in (trees_of nodes.old.items) a) (operand_in (trees_of nodes.old.items) b)) }
{
    logical_in(alloc, env, nodes, is_and, at, a, b)
}

// Whether a truth value, from a place of its own, is 0.
fn is_zero(
    alloc: Global,
    nodes: &mut Vec<TNode>,
    at: At,
    from: At,
    x: TNodeId,
) -> Result<TNodeId, AllocError>
    requires { x.0 < length (trees_of nodes.old.items) }
    ensures { IfOk result (λ r. Adds (trees_of nodes.old.items) (trees_of nodes.new.items) r (compared Eq Int at (in_kind from Int (tree_at (trees_of nodes.old.items) x)) (number Int 0 at))) }
{
    let int = IntKind::Int;
    let left = in_kind(alloc, nodes, from, int, x)?;
    let right = number(alloc, nodes, int, 0, at)?;
    operated_in(alloc, nodes, BinOp::Eq, int, IntKind::Bool, at, left, right)
}

// `!`, whatever is made beside nodes.
fn negation_in(
    alloc: Global,
    env: &Env,
    nodes: &mut Vec<TNode>,
    at: At,
    a: Operand,
) -> Result<TNodeId, ElabFault>
    requires { a.id.0 < length (trees_of nodes.old.items) }
    ensures { Gives (trees_of nodes.old.items) (trees_of nodes.new.items) result (negation_in (ctx_of env.now) at (operand_in (trees_of nodes.old.items) a)) }
{
    let x = bool_value(alloc, env, nodes, a)?;
    let made = is_zero(alloc, nodes, at, a.at, x)?;
    Ok(made)
}

/// `!`
pub fn negation(
    alloc: Global,
    env: &Env,
    nodes: &mut Vec<TNode>,
    at: At,
    a: Operand,
) -> Result<TNodeId, ElabFault>
    requires { a.id.0 < length (trees_of nodes.old.items) }
    ensures grows { OnOk result (Grows (trees_of nodes.old.items) (trees_of nodes.new.items)) }
    ensures within { IfOk result (λ r. r.0 < length (trees_of nodes.new.items)) }
    ensures exact { (w : Work) → Gives (trees_of nodes.old.items) (trees_of nodes.new.items) result (negation (ctx_of env.now) w at (operand_in (trees_of nodes.old.items) a)) }
{
    negation_in(alloc, env, nodes, at, a)
}
