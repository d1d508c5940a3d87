// How long the types and symbols of functions are, and the texts of definitions: none is longer than 1,048,576 bytes
// (profile).

ghost use Rattle.std.specs.Prelude.{◌≡◌, ◌<◌, ◌+◌, length, MatchOption};
ghost use Rattle.cpp_types.specs.Typ.{signature_of};
ghost use Rattle.cpp_types.specs.Class.{classes_of};
ghost use Rattle.elab_init.specs.elab_ctx.Ctx.{ctx_of};
ghost use Rattle.elab_init.specs.elab_ctx.Says.{Tells};
ghost use Rattle.elab_init.specs.elab_rules.Sizes.{symbol_length};
ghost use Rattle.elab_init.specs.elab_rules.Functions.{header_sized as header_sized_of, text_sized as text_sized_of};
ghost use Rattle.class_members.specs.Shown.{header_of};

use crate::records::Header;
use cpp_types::{At, ClassRec};
use elab_init::below::{ElabFault, Env, GREATEST_SIZE};
use elab_sizes::rooms::{if_set, left, owner_room, parameters_room};
use elab_sizes::{function_sized, too_long};

// The room behind the symbol of a function.
fn symbol_room(room: u32, header: &Header, classes: &[ClassRec]) -> Option<u32>
    ensures { let n = symbol_length (classes_of classes.now) header.now.class header.now.name.items (signature_of header.now.ty) header.now.qualifiers.is_const in MatchOption result (room < n) (λ r. r + n ≡ room) }
{
    let room = owner_room(room, header.class, classes)?;
    let room = left(room, header.name.len())?;
    let room = parameters_room(room, &header.ty, classes)?;
    left(room, if_set(header.qualifiers.is_const, 5))
}

/// Tests that the type and the symbol of a function are not too long.
pub fn header_sized(env: &Env, header: &Header) -> Result<bool, ElabFault>
    ensures { Tells result (header_sized_of (ctx_of env.now) (header_of header.now)) }
{
    function_sized(env, header.at, &header.ty)?;
    match symbol_room(GREATEST_SIZE, header, &env.classes) {
        Some(_) => Ok(true),
        None => Err(too_long(header.at)),
    }
}

/// Tests that the text of a definition is not too long.
pub fn text_sized(at: At, text: &[u8]) -> Result<bool, ElabFault>
    ensures { Tells result (text_sized_of at text.now) }
{
    if text.len() > GREATEST_SIZE as usize {
        return Err(too_long(at));
    }
    Ok(true)
}
