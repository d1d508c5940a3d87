// What is made beside nodes.

ghost use Rattle.std.specs.Prelude.{◌≡◌, IfOk, OnOk};
ghost use Rattle.cpp_tree.specs.cpp_types.Typ.{typ_of};
ghost use Rattle.elab_ctx.specs.Ctx.{work_of, with_item, next_place};

use crate::env::Work;
use cpp_tree::below::Ty;
use std::alloc::AllocError;

/// One more item of the frame; the answer is its place. Where no number is left, that counts as want of memory.
pub fn add_item(work: &mut Work, ty: Ty) -> Result<u32, AllocError>
    ensures place { IfOk result (λ place. place ≡ next_place (work_of work.old)) }
    ensures item { OnOk result (work_of work.new ≡ with_item (work_of work.old) (typ_of ty)) }
    ensures nodes { work.new.nodes.items ≡ work.old.nodes.items }
{
    let Ok(place) = u32::try_from(work.frame.len()) else {
        return Err(AllocError);
    };
    work.frame.push(ty)?;
    Ok(place)
}
