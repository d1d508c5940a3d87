// The objects that expressions stand for (C++14 12.2).

ghost use Rattle.std.specs.Prelude.{◌<◌, IfOk, length};
ghost use Rattle.elab_init.specs.cpp_types.Typ.{typ_of};
ghost use Rattle.elab_init.specs.cpp_tree.Arena.{trees_of, tree_at};
ghost use Rattle.elab_init.specs.elab_ctx.Ctx.{ctx_of, work_of};
ghost use Rattle.elab_init.specs.elab_ctx.Says.{Puts};
ghost use Rattle.elab_init.specs.elab_rules.Values.{builder as builder_of, temporary as temporary_of};
ghost use Rattle.elab_init.specs.elab_rules.Objects.{destroys as destroys_by};
ghost use Rattle.elab_init.specs.elab_rules.Initialising.{object_of as object_by};

use crate::destructions::destroys;
use elab_init::below::{At, Env, TNodeId, Ty, Work, copy, node_at};
use elab_init::{builder, is_class_prvalue, temporary};
use std::alloc::{AllocError, Global};

// The object that a class prvalue of a type stands for, in a temporary.
fn built_object(
    alloc: Global,
    env: &Env,
    work: &mut Work,
    ty: &Ty,
    at: At,
    id: TNodeId,
) -> Result<TNodeId, AllocError>
    requires { id.0 < length (trees_of work.old.nodes.items) }
    ensures { IfOk result (λ r. Puts (trees_of work.old.nodes.items) (trees_of work.new.nodes.items) (work_of work.new) r (temporary_of (work_of work.old) (typ_of ty.now) at (builder_of (tree_at (trees_of work.old.nodes.items) id)) (destroys_by (ctx_of env.now) at (typ_of ty.now)))) }
{
    let init = builder(&work.nodes, id)?;
    let ends = destroys(alloc, env, &mut work.nodes, at, ty)?;
    temporary(alloc, work, ty, at, init, &ends)
}

/// The object that a class prvalue stands for, in a temporary; another expression as it is.
pub fn object_of(
    alloc: Global,
    env: &Env,
    work: &mut Work,
    at: At,
    id: TNodeId,
) -> Result<TNodeId, AllocError>
    requires { id.0 < length (trees_of work.old.nodes.items) }
    ensures { IfOk result (λ r. Puts (trees_of work.old.nodes.items) (trees_of work.new.nodes.items) (work_of work.new) r (object_by (ctx_of env.now) (work_of work.old) at (tree_at (trees_of work.old.nodes.items) id))) }
{
    let node = node_at(&work.nodes, id);
    if !is_class_prvalue(&node.ty, node.cat) {
        return Ok(id);
    }
    let ty = copy(alloc, &node.ty)?;
    built_object(alloc, env, work, &ty, at, id)
}
