// The end of a body: zero in every scalar of the result (profile).

ghost use Rattle.std.specs.Prelude.{◌≡◌, ◌<◌, true, length, IfOk, OnOk};
ghost use Rattle.cpp_types.specs.Class.{classes_of};
ghost use Rattle.cpp_types.specs.Typ.{ptr, typ_of};
ghost use Rattle.cpp_types.specs.declared.ranks.Cat.TheVariants.{Lvalue};
ghost use Rattle.elab_stmt.specs.tx_ints.declared.kinds.IntKind.TheVariants.{ULong};
ghost use Rattle.elab_stmt.specs.cpp_tree.declared.kinds.TKind.TheVariants.{Local, Load};
ghost use Rattle.elab_stmt.specs.cpp_tree.Notation.{plain};
ghost use Rattle.elab_stmt.specs.cpp_tree.Trees.{node, none, one};
ghost use Rattle.elab_stmt.specs.cpp_tree.Arena.{trees_of, tree_at, trees_at, are_below, Adds};
ghost use Rattle.elab_stmt.specs.elab_ctx.Ctx.{ctx_of};
ghost use Rattle.elab_stmt.specs.elab_ctx.Says.{are_within, AddsAll};
ghost use Rattle.elab_stmt.specs.cpp_tree.Typing.{is_void as is_void_of, unqualified};
ghost use Rattle.elab_stmt.specs.elab_rules.Objects.{zeros as zeros_of, followed_by};
ghost use Rattle.elab_stmt.specs.elab_rules.Functions.{void_at, untyped as untyped_of, all_untyped as all_untyped_of, zero_result as zero_result_of, result_zeroed as result_zeroed_of, end_of as end_of_typ};
ghost use Rattle.elab_entry.specs.Ends.{is_literal as is_literal_of, address_of, object_end, value_end};

use crate::copying::copy_tree;
use cpp_types::{At, Cat, Shape, Ty, copy};
use elab_stmt::below::{
    Env, IntKind, TKind, TNode, TNodeId, add_binary, add_leaf, add_node, add_unary, is_class_type,
    keep, kids_at, leaf_statement, node_at, number, plain_type, pointer_to, unary_statement,
    unqualified_type, zeros,
};
use std::alloc::{AllocError, Global};

// A node without the type of an object.
fn untyped_node(
    nodes: &mut Vec<TNode>,
    node: &TNode,
    kids: Vec<TNodeId>,
) -> Result<TNodeId, AllocError>
    ensures { IfOk result (λ r. Adds (trees_of nodes.old.items) (trees_of nodes.new.items) r (void_at node.now.kind node.now.at (trees_at (trees_of nodes.old.items) kids.items))) }
{
    add_node(
        nodes,
        TNode {
            kind: node.kind,
            ty: plain_type(Shape::Void),
            cat: Cat::Prvalue,
            at: node.at,
            kids,
        },
    )
}

fn is_literal(kind: TKind) -> bool
    ensures { result ≡ is_literal_of kind }
{
    matches!(kind, TKind::Literal { .. })
}

// A tree without the types of objects: none is constructed.
#[cycle(untyped)]
fn untyped(
    alloc: Global,
    from: &Vec<TNode>,
    id: TNodeId,
    nodes: &mut Vec<TNode>,
) -> Result<TNodeId, AllocError>
    requires { id.0 < length (trees_of from.now.items) }
    ensures { IfOk result (λ r. Adds (trees_of nodes.old.items) (trees_of nodes.new.items) r (untyped_of (tree_at (trees_of from.now.items) id))) }
{
    let node = node_at(from, id);
    if is_literal(node.kind) {
        return copy_tree(alloc, from, id, nodes);
    }
    let ids = kids_at(from, id)?;
    let kids = all_untyped(alloc, from, id, ids, nodes)?;
    untyped_node(nodes, node, kids)
}

// The same of several trees, which stand below their parent.
#[cycle(untyped)]
fn all_untyped(
    alloc: Global,
    from: &Vec<TNode>,
    parent: TNodeId,
    ids: &[TNodeId],
    nodes: &mut Vec<TNode>,
) -> Result<Vec<TNodeId>, AllocError>
    requires within { are_within (length (trees_of from.now.items)) ids.now ≡ true }
    requires lower { are_below parent.0 ids.now ≡ true }
    ensures { IfOk result (λ r. AddsAll (trees_of nodes.old.items) (trees_of nodes.new.items) r.items (all_untyped_of (trees_at (trees_of from.now.items) ids.now))) }
{
    let mut list = Vec::new(alloc);
    for id in ids {
        let kid = untyped(alloc, from, *id, nodes)?;
        keep(&mut list, kid)?;
    }
    Ok(list)
}

// Zeros in every scalar of a type, without the types of objects.
fn untyped_zeros(
    alloc: Global,
    env: &Env,
    nodes: &mut Vec<TNode>,
    at: At,
    ty: &Ty,
) -> Result<TNodeId, AllocError>
    ensures { IfOk result (λ r. Adds (trees_of nodes.old.items) (trees_of nodes.new.items) r (untyped_of (zeros_of (classes_of env.now.classes.items) at (typ_of ty.now)))) }
{
    let mut scratch = Vec::new(alloc);
    let made = zeros(alloc, env, &mut scratch, at, ty)?;
    untyped(alloc, &scratch, made, nodes)
}

// The object that a call gives, at the address in place 0 of the frame.
fn result_address(
    alloc: Global,
    nodes: &mut Vec<TNode>,
    at: At,
    object: Ty,
) -> Result<TNodeId, AllocError>
    ensures { IfOk result (λ r. Adds (trees_of nodes.old.items) (trees_of nodes.new.items) r (address_of at (typ_of object))) }
{
    let slot = pointer_to(alloc, object)?;
    let slot = add_leaf(
        alloc,
        nodes,
        TKind::Local { place: 0 },
        slot,
        Cat::Lvalue,
        at,
    )?;
    let load = TKind::Load {
        kind: IntKind::ULong,
        volatile: false,
    };
    let void = plain_type(Shape::Void);
    add_unary(alloc, nodes, load, void, Cat::Prvalue, at, slot)
}

// A result of class type that is zero in every scalar.
fn result_zeroed(
    alloc: Global,
    env: &Env,
    nodes: &mut Vec<TNode>,
    at: At,
    ty: &Ty,
) -> Result<TNodeId, AllocError>
    ensures { IfOk result (λ r. Adds (trees_of nodes.old.items) (trees_of nodes.new.items) r (result_zeroed_of (ctx_of env.now) (typ_of ty.now) at)) }
{
    let address = result_address(alloc, nodes, at, copy(alloc, ty)?)?;
    let init = untyped_zeros(alloc, env, nodes, at, ty)?;
    let void = plain_type(Shape::Void);
    add_binary(
        alloc,
        nodes,
        TKind::Init,
        void,
        Cat::Prvalue,
        at,
        address,
        init,
    )
}

// Zero as the value of a result.
fn zero_result(
    alloc: Global,
    nodes: &mut Vec<TNode>,
    ty: &Ty,
    at: At,
) -> Result<TNodeId, AllocError>
    ensures { IfOk result (λ r. Adds (trees_of nodes.old.items) (trees_of nodes.new.items) r (zero_result_of (typ_of ty.now) at)) }
{
    match &ty.shape {
        Shape::Ref(_) => number(alloc, nodes, IntKind::ULong, 0, at),
        Shape::Void
        | Shape::Int(_)
        | Shape::Enum { .. }
        | Shape::Null
        | Shape::Ptr(_)
        | Shape::Array(_, _)
        | Shape::Func(_)
        | Shape::Class(_)
        | Shape::Closure(_)
        | Shape::TxEx(_) => {
            let ty = unqualified_type(alloc, ty)?;
            add_leaf(
                alloc,
                nodes,
                TKind::Literal { word: 0 },
                ty,
                Cat::Prvalue,
                at,
            )
        }
    }
}

fn is_void(ty: &Ty) -> bool
    ensures { result ≡ is_void_of (typ_of ty.now) }
{
    matches!(&ty.shape, Shape::Void)
}

// The end of a body that gives an object.
fn keep_object_end(
    alloc: Global,
    env: &Env,
    nodes: &mut Vec<TNode>,
    ty: &Ty,
    at: At,
    list: &mut Vec<TNodeId>,
) -> Result<(), AllocError>
    requires { are_within (length (trees_of nodes.old.items)) list.old.items ≡ true }
    ensures { OnOk result (AddsAll (trees_of nodes.old.items) (trees_of nodes.new.items) list.new.items (followed_by (trees_at (trees_of nodes.old.items) list.old.items) (object_end (ctx_of env.now) (typ_of ty.now) at))) }
{
    let zeroed = result_zeroed(alloc, env, nodes, at, ty)?;
    let end = leaf_statement(alloc, nodes, TKind::Return, at)?;
    keep(list, zeroed)?;
    keep(list, end)?;
    Ok(())
}

// The end of a body that gives a value.
fn keep_value_end(
    alloc: Global,
    nodes: &mut Vec<TNode>,
    ty: &Ty,
    at: At,
    list: &mut Vec<TNodeId>,
) -> Result<(), AllocError>
    requires { are_within (length (trees_of nodes.old.items)) list.old.items ≡ true }
    ensures { OnOk result (AddsAll (trees_of nodes.old.items) (trees_of nodes.new.items) list.new.items (followed_by (trees_at (trees_of nodes.old.items) list.old.items) (value_end (typ_of ty.now) at))) }
{
    let zero = zero_result(alloc, nodes, ty, at)?;
    let end = unary_statement(alloc, nodes, TKind::Return, at, zero)?;
    keep(list, end)?;
    Ok(())
}

/// Puts the end of a body with a result of a type behind its statements.
pub fn end_of(
    alloc: Global,
    env: &Env,
    nodes: &mut Vec<TNode>,
    ty: &Ty,
    at: At,
    list: &mut Vec<TNodeId>,
) -> Result<(), AllocError>
    requires { are_within (length (trees_of nodes.old.items)) list.old.items ≡ true }
    ensures { OnOk result (AddsAll (trees_of nodes.old.items) (trees_of nodes.new.items) list.new.items (followed_by (trees_at (trees_of nodes.old.items) list.old.items) (end_of_typ (ctx_of env.now) (typ_of ty.now) at))) }
{
    if is_void(ty) {
        return Ok(());
    }
    if is_class_type(ty) {
        return keep_object_end(alloc, env, nodes, ty, at, list);
    }
    keep_value_end(alloc, nodes, ty, at, list)
}
