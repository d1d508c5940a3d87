// Lists that grow by one.

ghost use Rattle.std.specs.Prelude.{◌≡◌, ◌++◌, ◌∷◌, [], OnOk, map};
ghost use Rattle.cpp_types.specs.Class.{member_of};
ghost use Rattle.elab_init.specs.cpp_tree.Units.{param_of};
ghost use Rattle.elab_init.specs.elab_ctx.Ctx.{ctx_of, func_of};

use cpp_types::MemberRec;
use elab_init::below::{Env, FuncDecl, TParam};
use std::alloc::AllocError;

/// One more data member.
pub fn keep_member(list: &mut Vec<MemberRec>, member: MemberRec) -> Result<(), AllocError>
    ensures { OnOk result (map member_of list.new.items ≡ map member_of list.old.items ++ member_of member ∷ []) }
{
    list.push(member)?;
    Ok(())
}

/// One more parameter.
pub fn keep_param(list: &mut Vec<TParam>, param: TParam) -> Result<(), AllocError>
    ensures { OnOk result (map param_of list.new.items ≡ map param_of list.old.items ++ param_of param ∷ []) }
{
    list.push(param)?;
    Ok(())
}

/// One more function of the unit.
pub fn add_function(env: &mut Env, function: FuncDecl) -> Result<(), AllocError>
    ensures { OnOk result (ctx_of env.new ≡ record (ctx_of env.old) { funcs = (ctx_of env.old).funcs ++ func_of function ∷ [] }) }
{
    env.funcs.push(function)?;
    Ok(())
}
