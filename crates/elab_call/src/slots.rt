// Slots of virtual functions, and where objects have their class pointers (C++14 10.3).

ghost use Rattle.std.specs.Prelude.{◌≡◌, ◌≤◌, map, option_map, IfOk, if◌then◌else◌};
ghost use Rattle.cpp_types.specs.Class.{classes_of};
ghost use Rattle.cpp_types.specs.Conversion.{chain};
ghost use Rattle.elab_make.specs.cpp_tree.Units.{slot_of};
ghost use Rattle.elab_make.specs.cpp_layout.Layout.{next_multiple};
ghost use Rattle.elab_make.specs.elab_ctx.Ctx.{ctx_of, func_of};
ghost use Rattle.elab_make.specs.elab_rules.Initialising.{func_at};
ghost use Rattle.elab_make.specs.elab_rules.Calls.{index_in_class as index_in_class_of, slot_from, slot_of_function as slot_of_function_of, own_pointer_offset as own_pointer_offset_of, pointer_along, pointer_offset as pointer_offset_of, member_kind as member_kind_of};
ghost use Rattle.elab_call.specs.Slots.{places_before, slots_in, end_of_base, virtual_kind};

use cpp_types::Shape;
use elab_make::below::{
    Env, Functions, SlotRec, TKind, class_at, completion, has_pointer, size_of,
};
use elab_names::members::base_of_complete;
use elab_names::parts::plain_type;
use std::alloc::AllocError;

fn one_if(holds: bool) -> usize
    ensures { result ≡ (if holds then 1 else 0) }
{
    if holds { 1 } else { 0 }
}

// How many of some places stand before a place.
fn count_before(places: &[u32], place: u32) -> usize
    ensures { result ≡ places_before place places.now }
{
    let mut count: usize = 0;
    for found in places {
        count += one_if(*found < place);
    }
    count
}

/// How many functions of a class stand before a place.
pub fn index_in_class(funcs: &Functions, class: u32, place: u32) -> usize
    ensures { result ≡ index_in_class_of class place (map func_of funcs.now) }
{
    count_before(funcs.of_class(class), place)
}

// The slot of the function with an index in a class.
fn slot_at(slots: &[SlotRec], class: u32, index: usize) -> Result<Option<u32>, AllocError>
    ensures { IfOk result (λ o. o ≡ slot_from 0 class index (map slot_of slots.now)) }
{
    for (i, slot) in slots.iter().enumerate() {
        if slot.class == class && slot.func as usize == index {
            let Ok(place) = u32::try_from(i) else {
                return Err(AllocError);
            };
            return Ok(Some(place));
        }
    }
    Ok(None)
}

// The slots of a class; none where there is no such class.
fn slots_at(env: &Env, class: u32) -> &[SlotRec]
    ensures { map slot_of result.now ≡ slots_in (ctx_of env.now) class }
{
    match env.slots.get(class as usize) {
        Some(slots) => slots,
        None => &[],
    }
}

/// The slot in which a class has its function as the final overrider.
pub fn slot_of_function(env: &Env, class: u32, func: u32) -> Result<u32, AllocError>
    ensures { IfOk result (λ s. s ≡ slot_of_function_of (ctx_of env.now) class func) }
{
    let index = index_in_class(&env.funcs, class, func);
    match slot_at(slots_at(env, class), class, index)? {
        Some(slot) => Ok(slot),
        None => Ok(0),
    }
}

// The next multiple of 8.
fn in_eights(size: u32) -> Result<u32, AllocError>
    ensures { IfOk result (λ n. n ≡ next_multiple size 8) }
{
    let Ok(found) = u32::try_from((u64::from(size) + 7) / 8 * 8) else {
        return Err(AllocError);
    };
    Ok(found)
}

// Where the base of a class ends.
fn base_end(env: &Env, class: u32) -> Result<u32, AllocError>
    ensures { IfOk result (λ n. n ≡ end_of_base (classes_of env.now.classes.items) class) }
{
    let Some(found) = class_at(env, class) else {
        return Ok(0);
    };
    match found.base {
        Some(base) => size_of(env, &plain_type(Shape::Class(base))),
        None => Ok(0),
    }
}

// Where a class that has a class pointer of its own has it: behind its base.
fn own_pointer_offset(env: &Env, class: u32) -> Result<u32, AllocError>
    ensures { IfOk result (λ n. n ≡ own_pointer_offset_of (classes_of env.now.classes.items) class) }
{
    let end = base_end(env, class)?;
    in_eights(end)
}

// The same along the bases of a class, of which there are at most `most`.
fn inherited_pointer(env: &Env, class: u32, most: u32) -> Result<Option<u32>, AllocError>
    ensures { IfOk result (λ o. o ≡ pointer_along (classes_of env.now.classes.items) (chain most (classes_of env.now.classes.items) class)) }
{
    let mut below = class;
    for _passed in 0..most {
        let Some(base) = base_of_complete(&env.classes, below) else {
            return Ok(None);
        };
        if has_pointer(&env.classes, base) {
            let offset = own_pointer_offset(env, base)?;
            return Ok(Some(offset));
        }
        below = base;
    }
    Ok(None)
}

/// Where objects of a class have their class pointer, if they have one.
pub fn pointer_offset(env: &Env, class: u32) -> Result<Option<u32>, AllocError>
    ensures { IfOk result (λ o. o ≡ pointer_offset_of (classes_of env.now.classes.items) class) }
{
    if has_pointer(&env.classes, class) {
        let offset = own_pointer_offset(env, class)?;
        return Ok(Some(offset));
    }
    let most = completion(env, class).unwrap_or(0);
    inherited_pointer(env, class, most)
}

// A call of a virtual function of a class.
fn virtual_call(env: &Env, class: u32, func: u32) -> Result<TKind, AllocError>
    ensures { IfOk result (λ k. k ≡ virtual_kind (ctx_of env.now) class func) }
{
    let slot = slot_of_function(env, class, func)?;
    let pointer = pointer_offset(env, class)?.unwrap_or(0);
    Ok(TKind::VirtualCall {
        func,
        class,
        slot,
        pointer,
    })
}

fn is_virtual(env: &Env, func: u32) -> bool
    ensures { result ≡ (func_at (ctx_of env.now).funcs func).declared.is_virtual }
{
    match env.funcs.get(func as usize) {
        Some(found) => found.rec.is_virtual,
        None => false,
    }
}

/// How a member function of a class is called.
pub fn member_kind(env: &Env, class: u32, func: u32) -> Result<TKind, AllocError>
    ensures { IfOk result (λ k. k ≡ member_kind_of (ctx_of env.now) class func) }
{
    if is_virtual(env, func) {
        virtual_call(env, class, func)
    } else {
        Ok(TKind::Call { func })
    }
}
