// Parts of objects, with their destructions.

ghost use Rattle.std.specs.Prelude.{◌<◌, IfOk, length};
ghost use Rattle.elab_make.specs.cpp_types.Typ.{typ_of};
ghost use Rattle.elab_make.specs.cpp_tree.Trees.{node};
ghost use Rattle.elab_make.specs.cpp_tree.Arena.{trees_of, tree_at, trees_at, Adds};
ghost use Rattle.elab_make.specs.elab_ctx.Ctx.{ctx_of};
ghost use Rattle.elab_make.specs.elab_rules.Braces.{piece as piece_of};

use elab_make::below::{At, Cat, Env, TKind, TNode, TNodeId, Ty, add_node, copy, object_kids};
use elab_make::destroys;
use std::alloc::{AllocError, Global};

/// A part of an object with its destructions.
pub fn piece(
    alloc: Global,
    env: &Env,
    nodes: &mut Vec<TNode>,
    offset: u32,
    ty: &Ty,
    at: At,
    init: TNodeId,
) -> Result<TNodeId, AllocError>
    requires { init.0 < length (trees_of nodes.old.items) }
    ensures { IfOk result (λ r. Adds (trees_of nodes.old.items) (trees_of nodes.new.items) r (piece_of (ctx_of env.now) offset (typ_of ty.now) at (tree_at (trees_of nodes.old.items) init))) }
{
    let ends = destroys(alloc, env, nodes, at, ty)?;
    let kids = object_kids(alloc, init, &ends)?;
    let ty = copy(alloc, ty)?;
    add_node(
        nodes,
        TNode {
            kind: TKind::Piece { offset },
            ty,
            cat: Cat::Prvalue,
            at,
            kids,
        },
    )
}

/// An object of a type that is made of these parts.
pub fn pieces_made(
    alloc: Global,
    nodes: &mut Vec<TNode>,
    ty: &Ty,
    at: At,
    kids: Vec<TNodeId>,
) -> Result<TNodeId, AllocError>
    ensures { IfOk result (λ r. Adds (trees_of nodes.old.items) (trees_of nodes.new.items) r (node TKind.Pieces (typ_of ty.now) Cat.Prvalue at (trees_at (trees_of nodes.old.items) kids.items))) }
{
    let ty = copy(alloc, ty)?;
    add_node(
        nodes,
        TNode {
            kind: TKind::Pieces,
            ty,
            cat: Cat::Prvalue,
            at,
            kids,
        },
    )
}
