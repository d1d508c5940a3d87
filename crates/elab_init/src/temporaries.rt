// Temporaries, and the objects that expressions stand for (C++14 8.5.3, 12.2).

ghost use Rattle.std.specs.Prelude.{◌≡◌, ◌<◌, ◌∷◌, IfOk, length};
ghost use Rattle.cpp_types.specs.Typ.{typ_of};
ghost use Rattle.elab_conv.specs.cpp_tree.Trees.{node, cat_of, kids_of};
ghost use Rattle.elab_conv.specs.cpp_tree.Arena.{trees_of, tree_at, trees_at, Adds};
ghost use Rattle.elab_conv.specs.elab_ctx.Ctx.{work_of};
ghost use Rattle.elab_conv.specs.elab_ctx.Says.{Puts};
ghost use Rattle.elab_conv.specs.elab_rules.Values.{place_of, builder as builder_of, only_tree, temporary as temporary_of};
ghost use Rattle.elab_conv.specs.elab_rules.Initialising.{seen_as as seen_as_of};

use crate::lists::{keep, keep_all};
use cpp_types::{At, Cat, Shape, Ty, copy, equal_types};
use elab_conv::below::{
    TKind, TNode, TNodeId, Work, add_item, add_node, add_unary, kids_at, node_at,
};
use std::alloc::{AllocError, Global};

// The only kid of a node, if it has one kid, else the node.
fn only_kid_or(nodes: &Vec<TNode>, id: TNodeId) -> Result<TNodeId, AllocError>
    requires { id.0 < length (trees_of nodes.now.items) }
    ensures is { IfOk result (λ r. tree_at (trees_of nodes.now.items) r ≡ only_tree (kids_of (tree_at (trees_of nodes.now.items) id)) (tree_at (trees_of nodes.now.items) id)) }
    ensures within { IfOk result (λ r. r.0 < length (trees_of nodes.now.items)) }
{
    match kids_at(nodes, id)? {
        [kid] => Ok(*kid),
        _ => Ok(id),
    }
}

/// What builds the object that a class prvalue stands for; one of a `std::tx_exception` is built as the value in it.
pub fn builder(nodes: &Vec<TNode>, id: TNodeId) -> Result<TNodeId, AllocError>
    requires { id.0 < length (trees_of nodes.now.items) }
    ensures is { IfOk result (λ r. tree_at (trees_of nodes.now.items) r ≡ builder_of (tree_at (trees_of nodes.now.items) id)) }
    ensures within { IfOk result (λ r. r.0 < length (trees_of nodes.now.items)) }
{
    let node = node_at(nodes, id);
    match node.kind {
        TKind::Retype => match node.cat {
            Cat::Prvalue => match &node.ty.shape {
                Shape::TxEx(_) => only_kid_or(nodes, id),
                Shape::Void
                | Shape::Int(_)
                | Shape::Enum { .. }
                | Shape::Null
                | Shape::Ptr(_)
                | Shape::Ref(_)
                | Shape::Array(_, _)
                | Shape::Func(_)
                | Shape::Class(_)
                | Shape::Closure(_) => Ok(id),
            },
            Cat::Lvalue => Ok(id),
        },
        _ => Ok(id),
    }
}

/// What builds an object, and its destructions.
pub fn object_kids(
    alloc: Global,
    init: TNodeId,
    destroys: &[TNodeId],
) -> Result<Vec<TNodeId>, AllocError>
    ensures { IfOk result (λ kids. kids.items ≡ init ∷ destroys.now) }
{
    let mut kids = Vec::new(alloc);
    keep(&mut kids, init)?;
    keep_all(&mut kids, destroys)?;
    Ok(kids)
}

/// An object of the frame that is built by an initialiser, and destroyed at the end of the full-expression.
pub fn temporary(
    alloc: Global,
    work: &mut Work,
    ty: &Ty,
    at: At,
    init: TNodeId,
    destroys: &[TNodeId],
) -> Result<TNodeId, AllocError>
    ensures { IfOk result (λ r. Puts (trees_of work.old.nodes.items) (trees_of work.new.nodes.items) (work_of work.new) r (temporary_of (work_of work.old) (typ_of ty.now) at (tree_at (trees_of work.old.nodes.items) init) (trees_at (trees_of work.old.nodes.items) destroys.now))) }
{
    let item = copy(alloc, ty)?;
    let place = add_item(work, item)?;
    let ty = copy(alloc, ty)?;
    let kids = object_kids(alloc, init, destroys)?;
    let kind = TKind::Materialize {
        place,
        argument: false,
    };
    add_node(
        &mut work.nodes,
        TNode {
            kind,
            ty,
            cat: Cat::Lvalue,
            at,
            kids,
        },
    )
}

/// An object as one of a type with more qualifiers, or of a base.
pub fn seen_as(
    alloc: Global,
    nodes: &mut Vec<TNode>,
    at: At,
    ty: &Ty,
    id: TNodeId,
) -> Result<TNodeId, AllocError>
    requires { id.0 < length (trees_of nodes.old.items) }
    ensures { IfOk result (λ r. Adds (trees_of nodes.old.items) (trees_of nodes.new.items) r (seen_as_of at (typ_of ty.now) (tree_at (trees_of nodes.old.items) id))) }
{
    let node = node_at(nodes, id);
    if equal_types(ty, &node.ty) {
        return Ok(id);
    }
    let ty = copy(alloc, ty)?;
    add_unary(alloc, nodes, TKind::Retype, ty, Cat::Lvalue, at, id)
}

/// A node like another, of another kind and type.
pub fn with_type(
    alloc: Global,
    nodes: &mut Vec<TNode>,
    kind: TKind,
    ty: &Ty,
    id: TNodeId,
) -> Result<TNodeId, AllocError>
    requires { id.0 < length (trees_of nodes.old.items) }
    ensures { IfOk result (λ r. Adds (trees_of nodes.old.items) (trees_of nodes.new.items) r (node kind (typ_of ty.now) (cat_of (tree_at (trees_of nodes.old.items) id)) (place_of (tree_at (trees_of nodes.old.items) id)) (kids_of (tree_at (trees_of nodes.old.items) id)))) }
{
    let cat = node_at(nodes, id).cat;
    let at = node_at(nodes, id).at;
    let kids = Vec::from_slice(alloc, kids_at(nodes, id)?)?;
    let ty = copy(alloc, ty)?;
    add_node(
        nodes,
        TNode {
            kind,
            ty,
            cat,
            at,
            kids,
        },
    )
}
