// Parts of a class: its base and its members.

ghost use Rattle.std.specs.Prelude.{◌≡◌, map, length, slice_get, IfOk};
ghost use Rattle.cpp_types.specs.Typ.{typ_of};
ghost use Rattle.cpp_types.specs.Class.{classes_of, member_of};
ghost use Rattle.elab_entry.specs.elab_rules.Names.{members_in};
ghost use Rattle.elab_entry.specs.elab_rules.Calls.{base_of_class as base_of_class_of};
ghost use Rattle.elab_entry.specs.elab_rules.Members.{member_type as member_type_of, member_index as member_index_of};

use cpp_types::{MemberRec, Shape, Ty, copy};
use elab_entry::below::{Env, class_at, members_at, plain_type};
use std::alloc::{AllocError, Global};

/// The base of a class.
pub fn base_of_class(env: &Env, class: u32) -> Option<u32>
    ensures { result ≡ base_of_class_of (slice_get (classes_of env.now.classes.items) class) }
{
    match class_at(env, class) {
        Some(found) => found.base,
        None => None,
    }
}

/// The place of the data member of a name.
pub fn member_index(members: &[MemberRec], name: &[u8]) -> Result<Option<u32>, AllocError>
    ensures { IfOk result (λ o. o ≡ member_index_of 0 name.now (map member_of members.now)) }
{
    for (i, member) in members.iter().enumerate() {
        if member.name.as_slice() == name {
            let Ok(index) = u32::try_from(i) else {
                return Err(AllocError);
            };
            return Ok(Some(index));
        }
    }
    Ok(None)
}

/// The place of the data member of a name in a class.
pub fn member_of_class(env: &Env, class: u32, name: &[u8]) -> Result<Option<u32>, AllocError>
    ensures { IfOk result (λ o. o ≡ member_index_of 0 name.now (members_in (slice_get (classes_of env.now.classes.items) class))) }
{
    member_index(members_at(&env.classes, class), name)
}

// The type of the data member with an index.
fn type_at(alloc: Global, members: &[MemberRec], index: u32) -> Result<Ty, AllocError>
    ensures { IfOk result (λ t. typ_of t ≡ member_type_of (slice_get (map member_of members.now) index)) }
{
    match members.get(index as usize) {
        Some(member) => copy(alloc, &member.ty),
        None => Ok(plain_type(Shape::Void)),
    }
}

/// The type of a data member of a class.
pub fn member_type(alloc: Global, env: &Env, class: u32, index: u32) -> Result<Ty, AllocError>
    ensures { IfOk result (λ t. typ_of t ≡ member_type_of (slice_get (members_in (slice_get (classes_of env.now.classes.items) class)) index)) }
{
    type_at(alloc, members_at(&env.classes, class), index)
}

/// How many data members a class has.
pub fn member_count(env: &Env, class: u32) -> Result<u32, AllocError>
    ensures { IfOk result (λ n. n ≡ length (members_in (slice_get (classes_of env.now.classes.items) class))) }
{
    let Ok(count) = u32::try_from(members_at(&env.classes, class).len()) else {
        return Err(AllocError);
    };
    Ok(count)
}
