// The base of a class (C++14 clause 10).

ghost use Rattle.std.specs.Prelude.{◌≡◌, slice_get};
ghost use Rattle.cpp_types.specs.Typ.{typ_of};
ghost use Rattle.elab_init.specs.elab_ctx.Ctx.{ctx_of};
ghost use Rattle.elab_init.specs.elab_ctx.Says.{Tells};
ghost use Rattle.elab_init.specs.elab_rules.Classes.{base_class as base_class_of, based_on as based_on_of, keeps as keeps_of, is_final_class as is_final_class_of};
ghost use Rattle.class_members.specs.Parts.{may_be_base as may_be_base_of};

use cpp_types::{At, Shape, Ty};
use elab_init::below::{ElabFault, Env, IllRule, OverrideRule, class_at, completion};
use elab_init::ill;
use elab_types::types::type_named;

/// What has to hold of overriding and of bases.
pub fn keeps(at: At, rule: OverrideRule, holds: bool) -> Result<bool, ElabFault>
    ensures { Tells result (keeps_of at rule holds) }
{
    if !holds {
        return Err(ElabFault::Override { at, rule });
    }
    Ok(true)
}

fn base_class(at: At, ty: &Ty) -> Result<u32, ElabFault>
    ensures { Tells result (base_class_of at (typ_of ty.now)) }
{
    match &ty.shape {
        Shape::Class(class) => Ok(*class),
        Shape::Void
        | Shape::Int(_)
        | Shape::Enum { .. }
        | Shape::Null
        | Shape::Ptr(_)
        | Shape::Ref(_)
        | Shape::Array(_, _)
        | Shape::Func(_)
        | Shape::Closure(_)
        | Shape::TxEx(_) => Err(ill(at, IllRule::BadDeclaration)),
    }
}

fn is_final_class(env: &Env, class: u32) -> bool
    ensures { result ≡ is_final_class_of (slice_get (ctx_of env.now).classes class) }
{
    match class_at(env, class) {
        Some(found) => found.is_final,
        None => false,
    }
}

// A class that others may stand on.
fn may_be_base(env: &Env, at: At, class: u32) -> Result<u32, ElabFault>
    ensures { Tells result (may_be_base_of (ctx_of env.now) at class) }
{
    if completion(env, class).is_none() {
        return Err(ill(at, IllRule::Incomplete));
    }
    keeps(at, OverrideRule::BaseFinal, !is_final_class(env, class))?;
    Ok(class)
}

/// The class with a name, as the base of another: complete, and not final.
pub fn based_on(env: &Env, at: At, name: &[u8]) -> Result<u32, ElabFault>
    ensures { Tells result (based_on_of (ctx_of env.now) at name.now) }
{
    let Some(found) = type_named(&env.types, name) else {
        return Err(ill(at, IllRule::UnknownName));
    };
    let class = base_class(at, found)?;
    may_be_base(env, at, class)
}
