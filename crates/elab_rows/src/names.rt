// Enumerators by the name of their enum (C++14 5.1.1 p11).

ghost use Rattle.std.specs.Prelude.{◌≡◌, IfOk};
ghost use Rattle.elab_casts.specs.cpp_tree.Arena.{trees_of};
ghost use Rattle.elab_casts.specs.elab_ctx.Ctx.{ctx_of, work_of};
ghost use Rattle.elab_casts.specs.elab_rules.Expressions.{a_tree, qualified_name as qualified_name_of, scope_name as scope_name_of};
ghost use Rattle.elab_casts.specs.elab_ctx.Says.{Gives};
ghost use Rattle.elab_rows.specs.Typed.{Types};

use crate::few::operand;
use elab_casts::below::{At, ElabFault, Env, IllRule, Operand, Shape, TNodeId, Work};
use elab_names::of_entity;
use elab_types::specifiers::ill;
use elab_types::types::type_named;
use std::alloc::{AllocError, Global};

// The name that an enumerator has in the scope of a file.
fn scope_name(alloc: Global, owner: &[u8], name: &[u8]) -> Result<Vec<u8>, AllocError>
    ensures { IfOk result (λ v. v.items ≡ scope_name_of owner.now name.now) }
{
    let mut all = Vec::from_slice(alloc, owner)?;
    all.extend_from_slice(b"::")?;
    all.extend_from_slice(name)?;
    Ok(all)
}

// What an enum, by its name, has by a name.
fn qualified_name(
    alloc: Global,
    env: &Env,
    work: &mut Work,
    at: At,
    owner: &[u8],
    name: &[u8],
) -> Result<TNodeId, ElabFault>
    ensures tree { Gives (trees_of work.old.nodes.items) (trees_of work.new.nodes.items) result (qualified_name_of (ctx_of env.now) (work_of work.old) at owner.now name.now) }
    ensures work { work_of work.new ≡ work_of work.old }
{
    let Some(ty) = type_named(&env.types, owner) else {
        return Err(ill(at, IllRule::UnknownName));
    };
    let Shape::Enum { name: scope, .. } = &ty.shape else {
        return Err(ill(at, IllRule::OutOfProfile));
    };
    let full = scope_name(alloc, scope, name)?;
    let Some(entity) = env.scopes.lookup(&full) else {
        return Err(ill(at, IllRule::NoMember));
    };
    of_entity(alloc, env, work, at, entity)
}

/// `E::N`
pub fn qualified_row(
    alloc: Global,
    env: &Env,
    at: At,
    owner: &[u8],
    name: &[u8],
    work: &mut Work,
) -> Result<Operand, ElabFault>
    ensures { Types (trees_of work.old.nodes.items) (trees_of work.new.nodes.items) (work_of work.new) result (a_tree at (work_of work.old) (qualified_name_of (ctx_of env.now) (work_of work.old) at owner.now name.now)) }
{
    let id = qualified_name(alloc, env, work, at, owner, name)?;
    Ok(operand(at, id))
}
