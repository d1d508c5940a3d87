// Members by their names (C++14 10.2): the class itself first, then its bases; a name hides those of a base.

ghost use Rattle.std.specs.Prelude.{◌≡◌, map, option_map, slice_get, IfOk};
ghost use Rattle.elab_conv.specs.cpp_types.Class.{classes_of, member_of, base_of};
ghost use Rattle.elab_conv.specs.cpp_types.Conversion.{chain};
ghost use Rattle.elab_conv.specs.elab_ctx.Ctx.{ctx_of};
ghost use Rattle.elab_conv.specs.elab_rules.Names.{field_from, members_in, own_member as own_member_of, found_along, member_found as member_found_of};
ghost use Rattle.elab_names.specs.Members.{found_of};

use crate::functions::first_method;
use elab_conv::below::{ClassRec, Env, MemberRec, Ty, completion};
use std::alloc::AllocError;

/// What a name is among the members of a class.
#[derive(Clone, Copy)]
pub enum FoundMember<'a> {
    /// A data member, by its class and its index there.
    Field { class: u32, index: u32, ty: &'a Ty },
    /// The first of the functions of the name.
    Methods(u32),
}

// The data member of a name.
fn field_at<'a>(
    class: u32,
    members: &'a [MemberRec],
    name: &[u8],
) -> Result<Option<FoundMember<'a>>, AllocError>
    ensures { IfOk result (λ o. option_map found_of o ≡ field_from class 0 name.now (map member_of members.now)) }
{
    for (i, member) in members.iter().enumerate() {
        if member.name.as_slice() == name {
            let Ok(index) = u32::try_from(i) else {
                return Err(AllocError);
            };
            return Ok(Some(FoundMember::Field {
                class,
                index,
                ty: &member.ty,
            }));
        }
    }
    Ok(None)
}

/// The data members of a class; none where there is no such class.
pub fn members_at(classes: &[ClassRec], class: u32) -> &[MemberRec]
    ensures { map member_of result.now ≡ members_in (slice_get (classes_of classes.now) class) }
{
    match classes.get(class as usize) {
        Some(found) => &found.members,
        None => &[],
    }
}

// A member of the class itself.
fn own_member<'a>(
    env: &'a Env,
    name: &[u8],
    class: u32,
) -> Result<Option<FoundMember<'a>>, AllocError>
    ensures { IfOk result (λ o. option_map found_of o ≡ own_member_of (ctx_of env.now) name.now class) }
{
    let field = field_at(class, members_at(&env.classes, class), name)?;
    match field {
        Some(found) => Ok(Some(found)),
        None => match first_method(&env.funcs, class, name) {
            Some(first) => Ok(Some(FoundMember::Methods(first))),
            None => Ok(None),
        },
    }
}

/// The base of a complete class.
pub fn base_of_complete(classes: &[ClassRec], class: u32) -> Option<u32>
    ensures { result ≡ base_of (classes_of classes.now) class }
{
    let record = classes.get(class as usize)?;
    match record.complete {
        Some(_) => record.base,
        None => None,
    }
}

// A member of one of the bases, of which there are at most `most`.
fn inherited_member<'a>(
    env: &'a Env,
    name: &[u8],
    class: u32,
    most: u32,
) -> Result<Option<FoundMember<'a>>, AllocError>
    ensures { IfOk result (λ o. option_map found_of o ≡ found_along (ctx_of env.now) name.now (chain most (classes_of env.now.classes.items) class)) }
{
    let mut below = class;
    for _passed in 0..most {
        let Some(base) = base_of_complete(&env.classes, below) else {
            return Ok(None);
        };
        match own_member(env, name, base)? {
            Some(found) => return Ok(Some(found)),
            None => {}
        }
        below = base;
    }
    Ok(None)
}

/// What a name is among the members of a class and of its bases.
pub fn member_found<'a>(
    env: &'a Env,
    name: &[u8],
    class: u32,
) -> Result<Option<FoundMember<'a>>, AllocError>
    ensures { IfOk result (λ o. option_map found_of o ≡ member_found_of (ctx_of env.now) name.now class) }
{
    match own_member(env, name, class)? {
        Some(found) => Ok(Some(found)),
        None => {
            let most = completion(env, class).unwrap_or(0);
            inherited_member(env, name, class, most)
        }
    }
}
