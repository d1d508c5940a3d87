// The functions of a class in its record, and its slots (C++14 10.3).

ghost use Rattle.std.specs.Prelude.{◌≡◌, ◌&&◌, ◌++◌, ◌∷◌, [], Some, is_none, IfOk, OnOk, map, slice_get};
ghost use Rattle.cpp_types.specs.Class.{classes_of, function_of};
ghost use Rattle.elab_init.specs.cpp_tree.Units.{slot_of as slot_shown};
ghost use Rattle.elab_init.specs.elab_ctx.Ctx.{ctx_of, func_of};
ghost use Rattle.elab_init.specs.elab_rules.Classes.{own_functions as own_functions_of, slot_of as slot_of_of, overrider_from, overriding as overriding_of, new_slots as new_slots_of, slots_of as slots_of_of, slot_function as slot_function_of, same_virtual as same_virtual_of, overridden as overridden_of};
ghost use Rattle.class_members.specs.Shown.{home_of};
ghost use Rattle.class_records.specs.Own.{declared_in};

use class_members::overriding::{
    base_slots, is_dynamic, is_safe, overridden, same_virtual, slot_function,
};
use class_members::records::Home;
use cpp_types::{ClassRec, FuncRec, copy_function};
use elab_init::below::{Env, Functions, SlotRec};
use std::alloc::{AllocError, Global};

fn keep_record(list: &mut Vec<FuncRec>, function: FuncRec) -> Result<(), AllocError>
    ensures { OnOk result (map function_of list.new.items ≡ map function_of list.old.items ++ function_of function ∷ []) }
{
    list.push(function)?;
    Ok(())
}

fn keep_slot(list: &mut Vec<SlotRec>, slot: SlotRec) -> Result<(), AllocError>
    ensures { OnOk result (map slot_shown list.new.items ≡ map slot_shown list.old.items ++ slot_shown slot ∷ []) }
{
    list.push(slot)?;
    Ok(())
}

fn record_copy(alloc: Global, found: &FuncRec) -> Result<FuncRec, AllocError>
    ensures { IfOk result (λ f. function_of f ≡ function_of found.now) }
{
    let name = Vec::from_slice(alloc, &found.name)?;
    let ty = copy_function(alloc, &found.ty)?;
    Ok(FuncRec {
        name,
        ty,
        is_const: found.is_const,
        is_virtual: found.is_virtual,
        is_override: found.is_override,
        is_final: found.is_final,
        pure_virtual: found.pure_virtual,
        safety: found.safety,
        considered: found.considered,
        no_except: found.no_except,
        at: found.at,
    })
}

// One more function, that at a place.
fn keep_own(
    alloc: Global,
    list: &mut Vec<FuncRec>,
    funcs: &Functions,
    place: u32,
) -> Result<(), AllocError>
    ensures { OnOk result (map function_of list.new.items ≡ map function_of list.old.items ++ declared_in (slice_get funcs.now place)) }
{
    match funcs.get(place as usize) {
        Some(found) => {
            let copied = record_copy(alloc, &found.rec)?;
            keep_record(list, copied)
        }
        None => Ok(()),
    }
}

fn own_among(alloc: Global, funcs: &Functions, class: u32) -> Result<Vec<FuncRec>, AllocError>
    ensures { IfOk result (λ v. map function_of v.items ≡ own_functions_of class (map func_of funcs.now)) }
{
    let members = funcs.of_class(class);
    let mut list = Vec::new(alloc);
    for place in members {
        keep_own(alloc, &mut list, funcs, *place)?;
    }
    Ok(list)
}

/// The functions of a class, in order.
pub fn own_functions(alloc: Global, env: &Env, class: u32) -> Result<Vec<FuncRec>, AllocError>
    ensures { IfOk result (λ v. map function_of v.items ≡ own_functions_of class (ctx_of env.now).funcs) }
{
    own_among(alloc, &env.funcs, class)
}

// The slot in which a function stands.
fn slot_of(alloc: Global, class: u32, func: u32, found: &FuncRec) -> Result<SlotRec, AllocError>
    ensures { IfOk result (λ x. slot_shown x ≡ slot_of_of class func (function_of found.now)) }
{
    let name = Vec::from_slice(alloc, &found.name)?;
    let ty = copy_function(alloc, &found.ty)?;
    let dynamic = is_dynamic(found.safety);
    Ok(SlotRec {
        name,
        ty,
        class,
        func,
        safe: is_safe(found.safety) || dynamic || found.considered,
        dynamic,
    })
}

fn slot_at(alloc: Global, class: u32, place: usize, found: &FuncRec) -> Result<SlotRec, AllocError>
    ensures { IfOk result (λ x. slot_shown x ≡ slot_of_of class place (function_of found.now)) }
{
    let Ok(func) = u32::try_from(place) else {
        return Err(AllocError);
    };
    slot_of(alloc, class, func, found)
}

fn slot_copy(alloc: Global, slot: &SlotRec) -> Result<SlotRec, AllocError>
    ensures { IfOk result (λ x. slot_shown x ≡ slot_shown slot.now) }
{
    let name = Vec::from_slice(alloc, &slot.name)?;
    let ty = copy_function(alloc, &slot.ty)?;
    Ok(SlotRec {
        name,
        ty,
        class: slot.class,
        func: slot.func,
        safe: slot.safe,
        dynamic: slot.dynamic,
    })
}

fn overrides(f: &FuncRec, over: &FuncRec) -> bool
    ensures { result ≡ (f.now.is_virtual && same_virtual_of (function_of f.now) (function_of over.now)) }
{
    f.is_virtual && same_virtual(f, over)
}

// A slot whose function is known, with the function of the class that overrides it, if one does.
fn overrider(
    alloc: Global,
    class: u32,
    over: &FuncRec,
    slot: &SlotRec,
    functions: &[FuncRec],
) -> Result<SlotRec, AllocError>
    ensures { IfOk result (λ x. slot_shown x ≡ overrider_from class 0 (Some (function_of over.now)) (slot_shown slot.now) (map function_of functions.now)) }
{
    for (i, found) in functions.iter().enumerate() {
        if overrides(found, over) {
            return slot_at(alloc, class, i, found);
        }
    }
    slot_copy(alloc, slot)
}

// The slot of a base, in a class.
fn slot_in(
    alloc: Global,
    classes: &[ClassRec],
    class: u32,
    slot: &SlotRec,
    functions: &[FuncRec],
) -> Result<SlotRec, AllocError>
    ensures { IfOk result (λ x. slot_shown x ≡ overrider_from class 0 (slot_function_of (classes_of classes.now) (slot_shown slot.now)) (slot_shown slot.now) (map function_of functions.now)) }
{
    match slot_function(classes, slot) {
        Some(over) => overrider(alloc, class, over, slot, functions),
        None => slot_copy(alloc, slot),
    }
}

// The slots of a base, each with its final overrider.
fn overriding(
    alloc: Global,
    classes: &[ClassRec],
    class: u32,
    functions: &[FuncRec],
    slots: &[SlotRec],
) -> Result<Vec<SlotRec>, AllocError>
    ensures { IfOk result (λ v. map slot_shown v.items ≡ overriding_of (classes_of classes.now) class (map function_of functions.now) (map slot_shown slots.now)) }
{
    let mut list = Vec::new(alloc);
    for slot in slots {
        let made = slot_in(alloc, classes, class, slot, functions)?;
        keep_slot(&mut list, made)?;
    }
    Ok(list)
}

// Whether a function has a slot of its own.
fn is_new(env: &Env, home: &Home, found: &FuncRec) -> bool
    ensures { result ≡ ((function_of found.now).is_virtual && is_none (overridden_of (ctx_of env.now) (home_of home.now).base (function_of found.now))) }
{
    found.is_virtual && overridden(env, home.base, found).is_none()
}

fn keep_new(
    alloc: Global,
    env: &Env,
    home: &Home,
    list: &mut Vec<SlotRec>,
    place: usize,
    found: &FuncRec,
) -> Result<(), AllocError>
    ensures { OnOk result (map slot_shown list.new.items ≡ map slot_shown list.old.items ++ new_slots_of (ctx_of env.now) (home_of home.now).base (home_of home.now).number place (function_of found.now ∷ [])) }
{
    if !is_new(env, home, found) {
        return Ok(());
    }
    let made = slot_at(alloc, home.number, place, found)?;
    keep_slot(list, made)
}

// Adds the slots of new virtual functions.
fn add_new(
    alloc: Global,
    env: &Env,
    home: &Home,
    functions: &[FuncRec],
    list: &mut Vec<SlotRec>,
) -> Result<(), AllocError>
    ensures { OnOk result (map slot_shown list.new.items ≡ map slot_shown list.old.items ++ new_slots_of (ctx_of env.now) (home_of home.now).base (home_of home.now).number 0 (map function_of functions.now)) }
{
    for (i, found) in functions.iter().enumerate() {
        keep_new(alloc, env, home, list, i, found)?;
    }
    Ok(())
}

/// The slots of a class with these functions: those of its base, each with its final overrider, and behind them those of
/// new virtual functions.
pub fn slots_of(
    alloc: Global,
    env: &Env,
    home: &Home,
    functions: &[FuncRec],
) -> Result<Vec<SlotRec>, AllocError>
    ensures { IfOk result (λ v. map slot_shown v.items ≡ slots_of_of (ctx_of env.now) (home_of home.now) (map function_of functions.now)) }
{
    let slots = base_slots(env, home.base);
    let mut list = overriding(alloc, &env.classes, home.number, functions, slots)?;
    add_new(alloc, env, home, functions, &mut list)?;
    Ok(list)
}
