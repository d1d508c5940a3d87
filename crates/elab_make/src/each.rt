// Objects that are built alike.

ghost use Rattle.std.specs.Prelude.{IfOk};
ghost use Rattle.elab_init.specs.cpp_types.Typ.{typ_of};
ghost use Rattle.elab_init.specs.cpp_types.Class.{classes_of};
ghost use Rattle.elab_init.specs.cpp_tree.Trees.{node, none, more};
ghost use Rattle.elab_init.specs.cpp_tree.Arena.{trees_of, Adds};
ghost use Rattle.elab_init.specs.elab_ctx.Ctx.{ctx_of};
ghost use Rattle.elab_init.specs.elab_rules.Objects.{count_in, element_of, size_of as size_by, destroys as destroys_by};
ghost use Rattle.elab_make.specs.Each.{each_by as each_by_of};

use crate::destructions::{count_of, destroys};
use elab_init::below::{
    At, Cat, Env, Shape, TKind, TNode, TNodeId, Ty, add_leaf, add_node, copy, size_of,
};
use elab_init::{element_type, object_kids};
use std::alloc::{AllocError, Global};

/// An array of objects that a function builds.
pub fn elements_by(
    alloc: Global,
    env: &Env,
    nodes: &mut Vec<TNode>,
    kind: TKind,
    ty: &Ty,
    at: At,
) -> Result<TNodeId, AllocError>
    ensures { IfOk result (λ r. Adds (trees_of nodes.old.items) (trees_of nodes.new.items) r (node (TKind.Elements (count_in (typ_of ty.now)) (size_by (classes_of env.now.classes.items) (element_of (typ_of ty.now)))) (typ_of ty.now) Cat.Prvalue at (more (node kind (element_of (typ_of ty.now)) Cat.Prvalue at none) (destroys_by (ctx_of env.now) at (element_of (typ_of ty.now)))))) }
{
    let element = element_type(alloc, ty)?;
    let count = count_of(ty)?;
    let stride = size_of(env, &element)?;
    let ends = destroys(alloc, env, nodes, at, &element)?;
    let init = add_leaf(alloc, nodes, kind, element, Cat::Prvalue, at)?;
    let kids = object_kids(alloc, init, &ends)?;
    let ty = copy(alloc, ty)?;
    let kind = TKind::Elements { count, stride };
    add_node(
        nodes,
        TNode {
            kind,
            ty,
            cat: Cat::Prvalue,
            at,
            kids,
        },
    )
}

/// An object, or each one of an array, by a function.
pub fn each_by(
    alloc: Global,
    env: &Env,
    nodes: &mut Vec<TNode>,
    kind: TKind,
    ty: &Ty,
    at: At,
) -> Result<TNodeId, AllocError>
    ensures { IfOk result (λ r. Adds (trees_of nodes.old.items) (trees_of nodes.new.items) r (each_by_of (ctx_of env.now) kind (typ_of ty.now) at)) }
{
    match &ty.shape {
        Shape::Array(_, _) => elements_by(alloc, env, nodes, kind, ty, at),
        Shape::Void
        | Shape::Int(_)
        | Shape::Enum { .. }
        | Shape::Null
        | Shape::Ptr(_)
        | Shape::Ref(_)
        | Shape::Func(_)
        | Shape::Class(_)
        | Shape::Closure(_)
        | Shape::TxEx(_) => {
            let ty = copy(alloc, ty)?;
            add_leaf(alloc, nodes, kind, ty, Cat::Prvalue, at)
        }
    }
}
