// Calls, casts, sizes and the objects of lambdas.

ghost use Rattle.std.specs.Prelude.{◌≡◌, ◌<◌, length, map, true};
ghost use Rattle.elab_casts.specs.cpp_types.Typ.{typ_of};
ghost use Rattle.elab_casts.specs.cpp_tree.Arena.{trees_of};
ghost use Rattle.elab_casts.specs.elab_ctx.Ctx.{ctx_of, work_of, closure_of};
ghost use Rattle.elab_casts.specs.elab_ctx.Operands.{operand_in, operands_in, are_in};
ghost use Rattle.elab_casts.specs.elab_rules.Calls.{call as call_of};
ghost use Rattle.elab_casts.specs.elab_rules.Casts.{cast as cast_of, functional as functional_of, size_literal as size_literal_of};
ghost use Rattle.elab_casts.specs.elab_rules.Expressions.{an_operand, a_tree, chosen_operand, closure_object as closure_object_of};
ghost use Rattle.elab_rows.specs.Typed.{Types};

use crate::closures::closure_object;
use crate::few::operand;
use elab_call::call;
use elab_casts::below::{At, Closure, ElabFault, Env, Operand, Ty, Work};
use elab_casts::{cast, functional, size_literal};
use elab_names::resolved;
use std::alloc::Global;

/// An operand whose functions, if it names any, are one function.
pub fn chosen_row(
    alloc: Global,
    env: &Env,
    o: Operand,
    work: &mut Work,
) -> Result<Operand, ElabFault>
    requires { o.id.0 < length (trees_of work.old.nodes.items) }
    ensures { Types (trees_of work.old.nodes.items) (trees_of work.new.nodes.items) (work_of work.new) result (chosen_operand (ctx_of env.now) (record { operand = operand_in (trees_of work.old.nodes.items) o; work = work_of work.old })) }
{
    let id = resolved(alloc, env, &mut work.nodes, o.id)?;
    Ok(Operand {
        id,
        at: o.at,
        zero: o.zero,
    })
}

/// A call.
pub fn call_row(
    alloc: Global,
    env: &Env,
    at: At,
    callee: Operand,
    arguments: &[Operand],
    work: &mut Work,
) -> Result<Operand, ElabFault>
    requires callee { callee.id.0 < length (trees_of work.old.nodes.items) }
    requires arguments { are_in (length (trees_of work.old.nodes.items)) arguments.now ≡ true }
    ensures { Types (trees_of work.old.nodes.items) (trees_of work.new.nodes.items) (work_of work.new) result (an_operand at (call_of (ctx_of env.now) (work_of work.old) at (operand_in (trees_of work.old.nodes.items) callee) (operands_in (trees_of work.old.nodes.items) arguments.now))) }
{
    let id = call(alloc, env, work, at, callee, arguments)?;
    Ok(operand(at, id))
}

/// `T(e, ..)`
pub fn functional_row(
    alloc: Global,
    env: &Env,
    at: At,
    ty: &Ty,
    values: &[Operand],
    work: &mut Work,
) -> Result<Operand, ElabFault>
    requires { are_in (length (trees_of work.old.nodes.items)) values.now ≡ true }
    ensures { Types (trees_of work.old.nodes.items) (trees_of work.new.nodes.items) (work_of work.new) result (an_operand at (functional_of (ctx_of env.now) (work_of work.old) at (typ_of ty.now) (operands_in (trees_of work.old.nodes.items) values.now))) }
{
    let id = functional(alloc, env, work, at, ty, values)?;
    Ok(operand(at, id))
}

/// `static_cast<T>(e)` and `(T)e`.
pub fn cast_row(
    alloc: Global,
    env: &Env,
    at: At,
    ty: &Ty,
    value: Operand,
    work: &mut Work,
) -> Result<Operand, ElabFault>
    requires { value.id.0 < length (trees_of work.old.nodes.items) }
    ensures { Types (trees_of work.old.nodes.items) (trees_of work.new.nodes.items) (work_of work.new) result (an_operand at (cast_of (ctx_of env.now) (work_of work.old) at (typ_of ty.now) (operand_in (trees_of work.old.nodes.items) value))) }
{
    let id = cast(alloc, env, work, at, ty, value)?;
    Ok(operand(at, id))
}

/// `sizeof` of a type; `place` is that of the operand.
pub fn sized_row(
    alloc: Global,
    env: &Env,
    at: At,
    place: At,
    ty: &Ty,
    work: &mut Work,
) -> Result<Operand, ElabFault>
    ensures { Types (trees_of work.old.nodes.items) (trees_of work.new.nodes.items) (work_of work.new) result (a_tree at (work_of work.old) (size_literal_of (ctx_of env.now) at place (typ_of ty.now))) }
{
    let id = size_literal(alloc, env, &mut work.nodes, at, place, ty)?;
    Ok(operand(at, id))
}

/// The object of a lambda.
pub fn closure_row(
    alloc: Global,
    env: &Env,
    closures: &[Closure],
    at: At,
    work: &mut Work,
) -> Result<Operand, ElabFault>
    ensures { Types (trees_of work.old.nodes.items) (trees_of work.new.nodes.items) (work_of work.new) result (an_operand at (closure_object_of (ctx_of env.now) (map closure_of closures.now) (work_of work.old) at)) }
{
    let id = closure_object(alloc, env, closures, work, at)?;
    Ok(operand(at, id))
}
