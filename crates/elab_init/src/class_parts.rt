// The parts of the objects of a class, where they lie (C++14 9.2, clause 10).

ghost use Rattle.std.specs.Prelude.{◌≡◌, ◌≤◌, ◌+◌, ◌++◌, ◌∷◌, [], false, IfOk, OnOk, map};
ghost use Rattle.cpp_types.specs.Typ.{typ_of, class as class_form, typ};
ghost use Rattle.cpp_types.specs.Class.{classes_of, class_of, member_of};
ghost use Rattle.elab_conv.specs.cpp_layout.Layout.{next_multiple, class_extent, base_items, pointer_items, head_items, end_from};
ghost use Rattle.elab_conv.specs.elab_rules.Objects.{parts_of as parts_by, base_part};
ghost use Rattle.elab_init.specs.Parts.{part_of, placed};

use crate::parts::ObjectPart;
use cpp_types::{ClassRec, MemberRec, Shape, Ty, copy};
use elab_conv::below::{Env, SizeAlign, class_at, extent, has_pointer};
use std::alloc::{AllocError, Global};

// Where an item lies that follows others, and where it ends.
#[derive(Clone, Copy)]
struct Spot {
    offset: u32,
    end: u32,
}

// The spot of an item behind others.
fn spot_behind(end: u32, item: SizeAlign) -> Result<Spot, AllocError>
    requires { 1 ≤ item.align }
    ensures offset { IfOk result (λ p. p.offset ≡ next_multiple end item.align) }
    ensures end { IfOk result (λ p. p.end ≡ next_multiple end item.align + item.size) }
{
    let align = item.align as u64;
    let offset = (end as u64 + (align - 1)) / align * align;
    let Ok(end) = u32::try_from(offset + item.size as u64) else {
        return Err(AllocError);
    };
    Ok(Spot {
        offset: offset as u32,
        end,
    })
}

// The type of an object of a class, without qualifiers.
fn base_type(class: u32) -> Ty
    ensures { typ_of result ≡ typ (class_form class) false false }
{
    Ty {
        shape: Shape::Class(class),
        is_const: false,
        is_volatile: false,
    }
}

// Where the base ends.
fn base_end(env: &Env, base: Option<u32>) -> Result<u32, AllocError>
    ensures { IfOk result (λ end. end ≡ end_from 0 (base_items (class_extent (classes_of env.now.classes.items)) base)) }
{
    let Some(class) = base else {
        return Ok(0);
    };
    let item = extent(env, &base_type(class))?;
    Ok(spot_behind(0, item)?.end)
}

// Where the class pointer ends, if there is one.
fn pointer_end(end: u32, has_pointer: bool) -> Result<u32, AllocError>
    ensures { IfOk result (λ r. r ≡ end_from end (pointer_items has_pointer)) }
{
    if !has_pointer {
        return Ok(end);
    }
    let pointer = SizeAlign { size: 8, align: 8 };
    Ok(spot_behind(end, pointer)?.end)
}

// Where the members of a class begin.
fn head_end(env: &Env, class: u32, found: &ClassRec) -> Result<u32, AllocError>
    ensures { IfOk result (λ end. end ≡ end_from 0 (head_items (class_extent (classes_of env.now.classes.items)) (classes_of env.now.classes.items) class (class_of found.now))) }
{
    let end = base_end(env, found.base)?;
    pointer_end(end, has_pointer(&env.classes, class))
}

fn keep_part(parts: &mut Vec<ObjectPart>, part: ObjectPart) -> Result<(), AllocError>
    ensures { OnOk result (map part_of parts.new.items ≡ map part_of parts.old.items ++ part_of part ∷ []) }
{
    parts.push(part)?;
    Ok(())
}

// The base as a part.
fn base_parts(alloc: Global, base: Option<u32>) -> Result<Vec<ObjectPart>, AllocError>
    ensures { IfOk result (λ parts. map part_of parts.items ≡ base_part base) }
{
    let mut parts = Vec::new(alloc);
    if let Some(class) = base {
        keep_part(
            &mut parts,
            ObjectPart {
                offset: 0,
                ty: base_type(class),
            },
        )?;
    }
    Ok(parts)
}

// Adds members that follow other items.
fn add_members(
    alloc: Global,
    env: &Env,
    start: u32,
    members: &[MemberRec],
    parts: &mut Vec<ObjectPart>,
) -> Result<(), AllocError>
    ensures { OnOk result (map part_of parts.new.items ≡ map part_of parts.old.items ++ placed (classes_of env.now.classes.items) start (map member_of members.now)) }
{
    let mut end = start;
    for member in members {
        let item = extent(env, &member.ty)?;
        let found = spot_behind(end, item)?;
        let ty = copy(alloc, &member.ty)?;
        keep_part(
            parts,
            ObjectPart {
                offset: found.offset,
                ty,
            },
        )?;
        end = found.end;
    }
    Ok(())
}

/// The base of a class, if it has one, and its members, with their offsets.
pub fn parts_of(alloc: Global, env: &Env, class: u32) -> Result<Vec<ObjectPart>, AllocError>
    ensures { IfOk result (λ parts. map part_of parts.items ≡ parts_by (classes_of env.now.classes.items) class) }
{
    let Some(found) = class_at(env, class) else {
        return Ok(Vec::new(alloc));
    };
    let mut parts = base_parts(alloc, found.base)?;
    let end = head_end(env, class, found)?;
    add_members(alloc, env, end, &found.members, &mut parts)?;
    Ok(parts)
}
