// The closing brace: the class is complete (C++14 9.2, 3.9).

ghost use Rattle.std.specs.Prelude.{◌≡◌, Some, IfOk, OnOk, map, slice_get, slice_set};
ghost use Rattle.std.specs.List.{list_any};
ghost use Rattle.cpp_types.specs.Class.{classes_of, class_of, member_of, function_of};
ghost use Rattle.cpp_types.specs.Trivial.{hinders, is_plain as is_plain_of};
ghost use Rattle.elab_init.specs.cpp_tree.Units.{slot_of, SlotFunc};
ghost use Rattle.elab_init.specs.elab_ctx.Ctx.{ctx_of, traits_of as traits_shown, special_of};
ghost use Rattle.elab_init.specs.elab_rules.Classes.{class_named, is_pure as is_pure_of, slot_function as slot_function_of, with_record, with_traits, with_specials, completed as completed_of, closed_class as closed_class_of, sized_class as sized_class_of, base_of as base_of_class, is_final_destructor as is_final_destructor_of, inherits_final_destructor as inherits_final_destructor_of, base_slots as base_slots_of};
ghost use Rattle.class_members.specs.Shown.{home_of, Answers};
ghost use Rattle.class_records.specs.Traits.{about_parts, traits_by};

use crate::renewing::{next_completion, put_class};
use crate::slots::{own_functions, slots_of};
use class_members::bases::keeps;
use class_members::overriding::{base_slots, is_destructor_name, slot_function};
use class_members::records::Home;
use class_specials::part_tests::{PartTest, all_held, has_volatile_member, may_assign};
use class_specials::places::{Wanted, is_copy_constructor, written, written_copy};
use class_specials::specials::{
    has_no_constructor, takes_const, with_copy, with_default, with_destructor,
};
use cpp_types::{At, ClassRec, FuncRec, MemberRec, Shape, Ty};
use elab_init::below::{
    ElabFault, Env, LimitKind, OverrideRule, SlotRec, Special, Traits, class_at, completion,
    measured,
};
use std::alloc::{AllocError, Global};

/// What is known of the parts of a class that is completed.
#[derive(Clone, Copy)]
pub struct PartFacts {
    pub is_assignable: bool,
    pub is_volatile: bool,
    pub copied_by_bytes: bool,
}

/// The special members of a class.
#[derive(Clone, Copy)]
pub struct SpecialMembers {
    pub default: Special,
    pub copy: Special,
    pub destructor: Special,
    /// Whether the copy takes `const` objects.
    pub copies_const: bool,
}

fn part_facts(
    alloc: Global,
    env: &Env,
    home: &Home,
    members: &[MemberRec],
) -> Result<PartFacts, AllocError>
    ensures { IfOk result (λ x. x ≡ about_parts (ctx_of env.now) (home_of home.now) (map member_of members.now)) }
{
    let is_assignable = may_assign(alloc, env, home.base, members)?;
    let is_volatile = !all_held(env, PartTest::NotVolatile, home.base, members)
        || has_volatile_member(members);
    let copied_by_bytes = all_held(env, PartTest::CopiedByBytes, home.base, members);
    Ok(PartFacts {
        is_assignable,
        is_volatile,
        copied_by_bytes,
    })
}

fn complete_record(
    alloc: Global,
    home: &Home,
    members: Vec<MemberRec>,
    functions: Vec<FuncRec>,
    number: u32,
) -> Result<ClassRec, AllocError>
    ensures shown { IfOk result (λ r. class_of r ≡ class_named home.now.name.items home.now.base home.now.is_final (map member_of members.items) (map function_of functions.items) (Some number)) }
    ensures complete { IfOk result (λ r. r.complete ≡ Some number) }
{
    let name = Vec::from_slice(alloc, &home.name)?;
    Ok(ClassRec {
        name,
        base: home.base,
        members,
        functions,
        is_final: home.is_final,
        complete: Some(number),
    })
}

fn put_slots(env: &mut Env, class: u32, slots: Vec<SlotRec>) -> Result<(), AllocError>
    ensures { OnOk result (ctx_of env.new ≡ record (ctx_of env.old) { slots = slice_set (ctx_of env.old).slots class (map slot_of slots.items) }) }
{
    if class as usize >= env.slots.len() {
        return Err(AllocError);
    }
    env.slots[class as usize] = slots;
    Ok(())
}

fn put_traits(env: &mut Env, class: u32, traits: Traits) -> Result<(), AllocError>
    ensures { OnOk result (ctx_of env.new ≡ record (ctx_of env.old) { traits = slice_set (ctx_of env.old).traits class (traits_shown traits) }) }
{
    if class as usize >= env.traits.len() {
        return Err(AllocError);
    }
    env.traits[class as usize] = traits;
    Ok(())
}

// The record of a class and its slots.
fn put_record(
    alloc: Global,
    env: &mut Env,
    home: &Home,
    members: Vec<MemberRec>,
) -> Result<(), AllocError>
    ensures { OnOk result (ctx_of env.new ≡ with_record (ctx_of env.old) (home_of home.now) (map member_of members.items)) }
{
    let functions = own_functions(alloc, env, home.number)?;
    let slots = slots_of(alloc, env, home, &functions)?;
    let number = next_completion(env);
    let made = complete_record(alloc, home, members, functions, number)?;
    put_class(alloc, env, home.number, number, made)?;
    put_slots(env, home.number, slots)?;
    Ok(())
}

fn is_pure_slot(classes: &[ClassRec], slot: &SlotRec) -> bool
    ensures { result ≡ is_pure_of (slot_function_of (classes_of classes.now) (slot_of slot.now)) }
{
    match slot_function(classes, slot) {
        Some(found) => found.pure_virtual,
        None => false,
    }
}

fn has_pure(classes: &[ClassRec], slots: &[SlotRec]) -> bool
    ensures { result ≡ list_any (λ (s : SlotFunc). is_pure_of (slot_function_of (classes_of classes.now) s)) (map slot_of slots.now) }
{
    for slot in slots {
        if is_pure_slot(classes, slot) {
            return true;
        }
    }
    false
}

fn is_abstract(env: &Env, class: u32) -> bool
    ensures { result ≡ list_any (λ (s : SlotFunc). is_pure_of (slot_function_of (ctx_of env.now).classes s)) (base_slots_of (ctx_of env.now) (Some class)) }
{
    has_pure(&env.classes, base_slots(env, Some(class)))
}

fn is_hindrance(function: &FuncRec, class: u32, name: &[u8]) -> bool
    ensures { result ≡ hinders class name.now (function_of function.now) }
{
    function.is_virtual
        || is_copy_constructor(function, class, name)
        || is_destructor_name(&function.name)
}

fn has_hindrance(functions: &[FuncRec], class: u32, name: &[u8]) -> bool
    ensures { result ≡ list_any (hinders class name.now) (map function_of functions.now) }
{
    for function in functions {
        if is_hindrance(function, class, name) {
            return true;
        }
    }
    false
}

fn is_plain_record(class: u32, found: &ClassRec) -> bool
    ensures { result ≡ is_plain_of class (Some (class_of found.now)) }
{
    found.complete.is_some()
        && !has_hindrance(&found.functions, class, &found.name)
        && !has_volatile_member(&found.members)
}

// Whether a class has nothing of its own against copies byte by byte.
fn is_plain(env: &Env, class: u32) -> bool
    ensures { result ≡ is_plain_of class (slice_get (ctx_of env.now).classes class) }
{
    match class_at(env, class) {
        Some(found) => is_plain_record(class, found),
        None => false,
    }
}

fn traits_from(env: &Env, class: u32, facts: PartFacts, specials: SpecialMembers) -> Traits
    ensures { traits_shown result ≡ traits_by (ctx_of env.now) class facts specials.copies_const (special_of specials.default) (special_of specials.copy) (special_of specials.destructor) }
{
    Traits {
        default: specials.default,
        copy: specials.copy,
        copies_const: specials.copies_const,
        destructor: specials.destructor,
        is_assignable: facts.is_assignable,
        is_abstract: is_abstract(env, class),
        is_volatile: facts.is_volatile,
        is_trivially_copyable: is_plain(env, class) && facts.copied_by_bytes,
    }
}

fn finished(
    alloc: Global,
    env: &mut Env,
    home: &Home,
    members: Vec<MemberRec>,
    specials: SpecialMembers,
) -> Result<(), AllocError>
    ensures { OnOk result (ctx_of env.new ≡ with_specials (home_of home.now) (map member_of members.items) specials.copies_const (special_of specials.copy) (special_of specials.destructor) (record { ctx = ctx_of env.old; special = special_of specials.default })) }
{
    let facts = part_facts(alloc, env, home, &members)?;
    put_record(alloc, env, home, members)?;
    let traits = traits_from(env, home.number, facts, specials);
    put_traits(env, home.number, traits)?;
    Ok(())
}

/// The class is complete: its implicit members stand behind the written ones, the destructor, the copy and the constructor
/// without arguments, each of which may name those before it; then come its record, its slots and what holds of it.
pub fn completed(
    alloc: Global,
    env: &mut Env,
    home: &Home,
    at: At,
    members: Vec<MemberRec>,
    initialised: &[u32],
) -> Result<(), AllocError>
    ensures { OnOk result (ctx_of env.new ≡ completed_of (ctx_of env.old) (home_of home.now) at (map member_of members.items) initialised.now) }
{
    let none_written = has_no_constructor(env, home)?;
    let first_copy = written_copy(env, home)?;
    let copies_const = takes_const(env, home, &members, first_copy);
    let place = written(env, home, Wanted::Destructor)?;
    let destructor = with_destructor(alloc, env, home, at, &members, place)?;
    let copy_place = written_copy(env, home)?;
    let copy = with_copy(alloc, env, home, at, &members, copy_place)?;
    let default = with_default(alloc, env, home, at, &members, initialised, none_written)?;
    let specials = SpecialMembers {
        default,
        copy,
        destructor,
        copies_const,
    };
    finished(alloc, env, home, members, specials)?;
    Ok(())
}

// Whether a slot has a destructor that is final.
fn is_final_destructor(classes: &[ClassRec], slot: &SlotRec) -> bool
    ensures { result ≡ is_final_destructor_of (slot_function_of (classes_of classes.now) (slot_of slot.now)) }
{
    match slot_function(classes, slot) {
        Some(found) => is_destructor_name(&found.name) && found.is_final,
        None => false,
    }
}

fn has_final_destructor(classes: &[ClassRec], slots: &[SlotRec]) -> bool
    ensures { result ≡ list_any (λ (s : SlotFunc). is_final_destructor_of (slot_function_of (classes_of classes.now) s)) (map slot_of slots.now) }
{
    for slot in slots {
        if is_final_destructor(classes, slot) {
            return true;
        }
    }
    false
}

fn base_of(env: &Env, class: u32) -> Option<u32>
    ensures { result ≡ base_of_class (slice_get (ctx_of env.now).classes class) }
{
    match class_at(env, class) {
        Some(found) => found.base,
        None => None,
    }
}

// Whether the destructor of a class overrides one that is final (C++14 10.3 p4).
fn inherits_final_destructor(env: &Env, class: u32) -> bool
    ensures { result ≡ inherits_final_destructor_of (ctx_of env.now) class }
{
    has_final_destructor(&env.classes, base_slots(env, base_of(env, class)))
}

/// The class, unless its objects are too large. A class that is not complete counts as want of memory.
pub fn sized_class(env: &Env, at: At, class: u32) -> Result<(), ElabFault>
    ensures { Answers (ctx_of env.now) result (sized_class_of at class (ctx_of env.now)) }
{
    let Some(_) = completion(env, class) else {
        return Err(ElabFault::Memory);
    };
    let ty = Ty {
        shape: Shape::Class(class),
        is_const: false,
        is_volatile: false,
    };
    match measured(env, &ty) {
        Some(_) => Ok(()),
        None => Err(ElabFault::Limit {
            at,
            which: LimitKind::Size,
        }),
    }
}

/// The class, complete, unless its destructor, be it implicit, overrides one that is final (C++14 10.3 p4, 12.4 p9), or
/// its objects are too large. A class that is not complete counts as want of memory.
pub fn closed_class(env: &Env, at: At, class: u32) -> Result<(), ElabFault>
    ensures { Answers (ctx_of env.now) result (closed_class_of at class (ctx_of env.now)) }
{
    keeps(
        at,
        OverrideRule::OverridesFinal,
        !inherits_final_destructor(env, class),
    )?;
    sized_class(env, at, class)
}
