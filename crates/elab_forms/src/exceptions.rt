// A `std::tx_exception` that is written with its value, where it stands beside another operand.

ghost use Rattle.std.specs.Prelude.{◌≡◌, ◌<◌, length, IfOk};
ghost use Rattle.elab_make.specs.cpp_types.Typ.{typ_of};
ghost use Rattle.elab_make.specs.cpp_tree.Arena.{trees_of, tree_at};
ghost use Rattle.elab_make.specs.cpp_tree.Trees.{typ_in};
ghost use Rattle.elab_make.specs.elab_ctx.Ctx.{ctx_of, work_of};
ghost use Rattle.elab_make.specs.elab_ctx.Operands.{operand_in};
ghost use Rattle.elab_make.specs.elab_ctx.Says.{Puts};
ghost use Rattle.elab_make.specs.elab_rules.Initialising.{object_of as object_by, exception_copied as exception_copied_of, with_tree};
ghost use Rattle.elab_make.specs.elab_rules.Operators.{settled};

use elab_make::below::{Env, Operand, TNodeId, Work, copy, node_at};
use elab_make::{exception_copied, is_written_exception, object_of};
use std::alloc::{AllocError, Global};

// A copy of the object that is built of a `std::tx_exception`.
fn object_copied(
    alloc: Global,
    env: &Env,
    work: &mut Work,
    o: Operand,
) -> Result<TNodeId, AllocError>
    requires { o.id.0 < length (trees_of work.old.nodes.items) }
    ensures { IfOk result (λ r. Puts (trees_of work.old.nodes.items) (trees_of work.new.nodes.items) (work_of work.new) r (with_tree (exception_copied_of (ctx_of env.now) (typ_in (tree_at (trees_of work.old.nodes.items) o.id)) o.at) (object_by (ctx_of env.now) (work_of work.old) o.at (tree_at (trees_of work.old.nodes.items) o.id)))) }
{
    let ty = copy(alloc, &node_at(&work.nodes, o.id).ty)?;
    let object = object_of(alloc, env, work, o.at, o.id)?;
    exception_copied(alloc, env, &mut work.nodes, &ty, o.at, object)
}

/// An operand beside another: such an exception is a copy of the object that is built.
pub fn settled(alloc: Global, env: &Env, work: &mut Work, o: Operand) -> Result<TNodeId, AllocError>
    requires { o.id.0 < length (trees_of work.old.nodes.items) }
    ensures { IfOk result (λ r. Puts (trees_of work.old.nodes.items) (trees_of work.new.nodes.items) (work_of work.new) r (settled (ctx_of env.now) (work_of work.old) (operand_in (trees_of work.old.nodes.items) o))) }
{
    if is_written_exception(&work.nodes, o.id) {
        return object_copied(alloc, env, work, o);
    }
    Ok(o.id)
}
