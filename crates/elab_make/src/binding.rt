// Conversions that initialise objects and references (C++14 clause 4, 8.5.3).

ghost use Rattle.std.specs.Prelude.{◌<◌, IfOk, length};
ghost use Rattle.elab_init.specs.cpp_types.Typ.{typ_of};
ghost use Rattle.elab_init.specs.cpp_tree.Arena.{trees_of, tree_at};
ghost use Rattle.elab_init.specs.elab_ctx.Ctx.{ctx_of, work_of};
ghost use Rattle.elab_init.specs.elab_ctx.Operands.{operand_in};
ghost use Rattle.elab_init.specs.elab_ctx.Says.{Puts, Makes};
ghost use Rattle.elab_init.specs.elab_rules.Initialising.{bound_by as bound, initial as initial_of, object_of as object_by, seen_as as seen_as_of, with_tree};

use crate::objects::object_of;
use elab_init::below::{
    At, Binding, ElabFault, Env, IllRule, Operand, Step, TNodeId, Ty, Work, stepped, valued,
};
use elab_init::{bound_temporary, conversion_of, ill, referred_type, seen_as};
use std::alloc::{AllocError, Global};

// The object that a reference to a type is bound to.
fn bound_object(
    alloc: Global,
    env: &Env,
    work: &mut Work,
    ty: &Ty,
    at: At,
    id: TNodeId,
) -> Result<TNodeId, AllocError>
    requires { id.0 < length (trees_of work.old.nodes.items) }
    ensures { IfOk result (λ r. Puts (trees_of work.old.nodes.items) (trees_of work.new.nodes.items) (work_of work.new) r (with_tree (seen_as_of at (typ_of ty.now)) (object_by (ctx_of env.now) (work_of work.old) at (tree_at (trees_of work.old.nodes.items) id)))) }
{
    let object = object_of(alloc, env, work, at, id)?;
    seen_as(alloc, &mut work.nodes, at, ty, object)
}

/// What a conversion makes of an expression that initialises an object or a reference of a type.
pub fn bound_by(
    alloc: Global,
    env: &Env,
    work: &mut Work,
    binding: Binding,
    step: Step,
    ty: &Ty,
    at: At,
    id: TNodeId,
) -> Result<TNodeId, AllocError>
    requires { id.0 < length (trees_of work.old.nodes.items) }
    ensures { IfOk result (λ r. Puts (trees_of work.old.nodes.items) (trees_of work.new.nodes.items) (work_of work.new) r (bound (ctx_of env.now) (work_of work.old) binding step (typ_of ty.now) at (tree_at (trees_of work.old.nodes.items) id))) }
{
    match binding {
        Binding::Value => {
            let value = valued(alloc, &mut work.nodes, at, id)?;
            stepped(alloc, &mut work.nodes, at, step, ty, value)
        }
        Binding::Direct => bound_object(alloc, env, work, referred_type(ty), at, id),
        Binding::Temporary => bound_temporary(alloc, work, step, referred_type(ty), at, id),
    }
}

/// A scalar's value, or the object that a reference refers to.
pub fn initial(
    alloc: Global,
    env: &Env,
    work: &mut Work,
    ty: &Ty,
    o: Operand,
) -> Result<TNodeId, ElabFault>
    requires { o.id.0 < length (trees_of work.old.nodes.items) }
    ensures { Makes (trees_of work.old.nodes.items) (trees_of work.new.nodes.items) (work_of work.new) result (initial_of (ctx_of env.now) (work_of work.old) (typ_of ty.now) (operand_in (trees_of work.old.nodes.items) o)) }
{
    let Some(found) = conversion_of(env, &work.nodes, ty, o) else {
        return Err(ill(o.at, IllRule::NoConversion));
    };
    let made = bound_by(alloc, env, work, found.binding, found.step, ty, o.at, o.id)?;
    Ok(made)
}
