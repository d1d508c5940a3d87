// Conversions that initialise objects and references (C++14 clause 4, 8.5.3).

ghost use Rattle.std.specs.Prelude.{◌≡◌, ◌<◌, IfOk, length};
ghost use Rattle.cpp_types.specs.Typ.{typ_of};
ghost use Rattle.elab_conv.specs.cpp_tree.Trees.{none};
ghost use Rattle.elab_conv.specs.cpp_tree.Typing.{unqualified};
ghost use Rattle.elab_conv.specs.cpp_tree.Arena.{trees_of, tree_at, Adds};
ghost use Rattle.elab_conv.specs.elab_ctx.Ctx.{ctx_of, work_of};
ghost use Rattle.elab_conv.specs.elab_ctx.Operands.{operand_in};
ghost use Rattle.elab_conv.specs.elab_ctx.Says.{Puts};
ghost use Rattle.elab_conv.specs.elab_rules.Values.{stepped as stepped_of, stored as stored_of, temporary as temporary_of, valued as valued_of};
ghost use Rattle.elab_conv.specs.elab_rules.Initialising.{conversion};

use crate::temporaries::temporary;
use cpp_types::{At, Conversion, Step, Ty, conversion_between};
use elab_conv::below::{Env, Operand, TNode, TNodeId, Work, node_at};
use elab_conv::types::unqualified_type;
use elab_conv::{stepped, stored, valued};
use std::alloc::{AllocError, Global};

/// The value of an expression as one of a type, stored.
pub fn stored_value(
    alloc: Global,
    nodes: &mut Vec<TNode>,
    step: Step,
    ty: &Ty,
    bare: &Ty,
    at: At,
    id: TNodeId,
) -> Result<TNodeId, AllocError>
    requires { id.0 < length (trees_of nodes.old.items) }
    ensures { IfOk result (λ r. Adds (trees_of nodes.old.items) (trees_of nodes.new.items) r (stored_of at (typ_of bare.now) (stepped_of at step (typ_of ty.now) (valued_of at (tree_at (trees_of nodes.old.items) id))))) }
{
    let read = valued(alloc, nodes, at, id)?;
    let value = stepped(alloc, nodes, at, step, ty, read)?;
    stored(alloc, nodes, at, bare, value)
}

/// A temporary of a type that has the value of an expression.
pub fn bound_temporary(
    alloc: Global,
    work: &mut Work,
    step: Step,
    ty: &Ty,
    at: At,
    id: TNodeId,
) -> Result<TNodeId, AllocError>
    requires { id.0 < length (trees_of work.old.nodes.items) }
    ensures { IfOk result (λ r. Puts (trees_of work.old.nodes.items) (trees_of work.new.nodes.items) (work_of work.new) r (temporary_of (work_of work.old) (unqualified (typ_of ty.now)) at (stored_of at (unqualified (typ_of ty.now)) (stepped_of at step (typ_of ty.now) (valued_of at (tree_at (trees_of work.old.nodes.items) id)))) none)) }
{
    let bare = unqualified_type(alloc, ty)?;
    let init = stored_value(alloc, &mut work.nodes, step, ty, &bare, at, id)?;
    temporary(alloc, work, &bare, at, init, &[])
}

/// The conversion of an expression that initialises an object or a reference of a type.
pub fn conversion_of(env: &Env, nodes: &Vec<TNode>, ty: &Ty, o: Operand) -> Option<Conversion>
    requires { o.id.0 < length (trees_of nodes.now.items) }
    ensures { result ≡ conversion (ctx_of env.now) (typ_of ty.now) (operand_in (trees_of nodes.now.items) o) }
{
    let node = node_at(nodes, o.id);
    conversion_between(&node.ty, node.cat, o.zero, ty, &env.classes)
}
