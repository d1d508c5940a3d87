// Where members lie.

ghost use Rattle.std.specs.Prelude.{◌≡◌, IfOk};
ghost use Rattle.elab_conv.specs.cpp_types.Class.{classes_of};
ghost use Rattle.elab_conv.specs.elab_rules.Names.{offset_at as offset_of};

use elab_conv::below::{Env, class_at, member_place};
use std::alloc::AllocError;

/// The offset of a member in the objects of a class, by its index. A class that is not complete, or too large, has no
/// offsets: that counts as want of memory, since the declaration of such a class is refused.
pub fn offset_at(env: &Env, class: u32, index: u32) -> Result<u32, AllocError>
    ensures { IfOk result (λ o. o ≡ offset_of (classes_of env.now.classes.items) class index) }
{
    let Some(found) = class_at(env, class) else {
        return Ok(0);
    };
    if index as usize >= found.members.len() {
        return Ok(0);
    }
    match member_place(env, class, index) {
        Some(place) => Ok(place),
        None => Err(AllocError),
    }
}
