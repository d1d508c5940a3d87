// The limit on spellings: none is longer than the greatest object (profile).

ghost use Rattle.std.specs.Prelude.{◌≡◌};
ghost use Rattle.cpp_types.specs.Typ.{typ_of, signature_of, func};
ghost use Rattle.elab_rules.specs.cpp_tree.Notation.{plain};
ghost use Rattle.elab_rules.specs.elab_ctx.Ctx.{ctx_of};
ghost use Rattle.elab_rules.specs.elab_ctx.Says.{Tells};
ghost use Rattle.elab_rules.specs.Sizes.{typ_sized as typ_sized_of};

use crate::rooms::{function_room, type_room};
use cpp_types::{At, FnTy, Ty};
use elab_rules::below::{ElabFault, Env, GREATEST_SIZE, LimitKind};

/// What passes the greatest size.
pub fn too_long(at: At) -> ElabFault
    ensures { result ≡ ElabFault.Limit at LimitKind.Size }
{
    ElabFault::Limit {
        at,
        which: LimitKind::Size,
    }
}

/// Tests that the spelling of the type of a declaration is not too long.
pub fn typ_sized(env: &Env, at: At, ty: &Ty) -> Result<bool, ElabFault>
    ensures { Tells result (typ_sized_of (ctx_of env.now).classes at (typ_of ty.now)) }
{
    match type_room(GREATEST_SIZE, ty, &env.classes) {
        Some(_) => Ok(true),
        None => Err(too_long(at)),
    }
}

/// Tests that the spelling of a function's type is not too long.
pub fn function_sized(env: &Env, at: At, function: &FnTy) -> Result<bool, ElabFault>
    ensures { Tells result (typ_sized_of (ctx_of env.now).classes at (plain (func (signature_of function.now)))) }
{
    match function_room(GREATEST_SIZE, function, &env.classes) {
        Some(_) => Ok(true),
        None => Err(too_long(at)),
    }
}
