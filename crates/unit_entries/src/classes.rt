//! The entries of classes.
ghost use Rattle.std.specs.Prelude.{◌≡◌, ◌-◌, map, slice_get, length, Some, None, MatchOption, IfOk, OnOk, List};
ghost use Rattle.cpp_tree.specs.cpp_types.Class.{classes_of, class_of, member_of};
ghost use Rattle.cpp_tree.specs.Units.{slot_of, definition_of, unit_of, program_of};
ghost use Rattle.tx_code.specs.Objects.{bytes_of, class_view};
ghost use Rattle.link_faults.specs.Faults.{class_record, member_record, text_in};
ghost use Rattle.unit_entries.specs.Records.{naming};
ghost use Rattle.unit_entries.specs.Uses.{slots_in};
ghost use Rattle.unit_entries.specs.Entries.{class_at as class_in, no_pointer, end_of_base as base_end, pointer_from as pointer_in, pointer_offset as pointer_of_class, base_name as name_of_base, member_entry_of, members_from, slot_symbol as symbol_of_slot, class_entry_of, unit_classes};

use crate::functions::Setting;
use crate::places::{place_and_one, place_of};
use crate::sizes::{class_size, member_offset};
use crate::uses::{is_pure, slot_index, slots_of};
use cpp_layout::has_pointer;
use cpp_tree::below::{ClassRec, MemberRec, spell};
use cpp_tree::{ClassDef, SlotRec, UnitTree};
use std::alloc::{AllocError, Global};
use tx_code::{ObjClass, ObjMember};

/// The pointer of a class without a class pointer.
const NO_POINTER: u32 = 4_294_967_295;

/// The class with this index. One that is not there counts as want of memory.
pub fn class_at(classes: &[ClassRec], class: u32) -> Result<&ClassRec, AllocError>
    ensures is { IfOk result (λ c. class_in (classes_of classes.now) class ≡ class_of c.now) }
    ensures stands { IfOk result (λ c. slice_get (classes_of classes.now) class ≡ Some (class_of c.now)) }
{
    match classes.get(class as usize) {
        Some(found) => Ok(found),
        None => Err(AllocError),
    }
}

// The size of a base in bytes, rounded up to a multiple of 8; 0 of none.
fn end_of_base(classes: &[ClassRec], base: Option<u32>) -> Result<u32, AllocError>
    ensures { IfOk result (λ n. n ≡ base_end (classes_of classes.now) base) }
{
    let Some(base) = base else {
        return Ok(0);
    };
    let found = class_size(base, classes)?;
    match found.size.checked_add(7) {
        Some(size) => Ok(size / 8 * 8),
        None => Err(AllocError),
    }
}

// Where objects of a class have their class pointer, if it is in one of so many bases: behind the base of the first class
// of the chain that has one.
fn pointer_from(classes: &[ClassRec], class: u32, most: usize) -> Result<u32, AllocError>
    ensures { IfOk result (λ n. n ≡ pointer_in most (classes_of classes.now) class) }
{
    if most == 0 {
        return Ok(NO_POINTER);
    }
    let found = class_at(classes, class)?;
    if has_pointer(classes, class) {
        return end_of_base(classes, found.base);
    }
    match found.base {
        Some(base) => pointer_from(classes, base, most - 1),
        None => Ok(NO_POINTER),
    }
}

// The place of the name of a base, and 1; 0 of none.
fn base_place(names: &[Vec<u8>], classes: &[ClassRec], base: Option<u32>) -> Result<u32, AllocError>
    ensures { IfOk result (λ n. text_in (naming (map bytes_of names.now)) n ≡ name_of_base (classes_of classes.now) base) }
{
    match base {
        Some(base) => place_and_one(names, &class_at(classes, base)?.name),
        None => Ok(0),
    }
}

// A member of a class, which has it at this index.
fn member_entry(
    alloc: Global,
    names: &[Vec<u8>],
    classes: &[ClassRec],
    class: u32,
    member: &MemberRec,
    index: u32,
) -> Result<ObjMember, AllocError>
    requires class { slice_get (classes_of classes.now) class ≡ Some (class_in (classes_of classes.now) class) }
    requires member { slice_get (class_in (classes_of classes.now) class).members index ≡ Some (member_of member.now) }
    ensures { IfOk result (λ m. member_record (naming (map bytes_of names.now)) m ≡ member_entry_of (classes_of classes.now) class index (member_of member.now)) }
{
    let text = spell(alloc, &member.ty, classes)?;
    Ok(ObjMember {
        name: place_of(names, &member.name)?,
        offset: member_offset(classes, class, index)?,
        ty: place_of(names, &text)?,
    })
}

// The members of a class.
fn member_entries(
    alloc: Global,
    names: &[Vec<u8>],
    classes: &[ClassRec],
    class: u32,
    members: &[MemberRec],
) -> Result<Vec<ObjMember>, AllocError>
    requires class { slice_get (classes_of classes.now) class ≡ Some (class_in (classes_of classes.now) class) }
    requires members { (class_in (classes_of classes.now) class).members ≡ map member_of members.now }
    ensures { IfOk result (λ v. map (member_record (naming (map bytes_of names.now))) v.items ≡ members_from (classes_of classes.now) class 0 (class_in (classes_of classes.now) class).members) }
{
    let mut entries = Vec::new(alloc);
    for (i, member) in members.iter().enumerate() {
        let Ok(index) = u32::try_from(i) else {
            return Err(AllocError);
        };
        entries.push(member_entry(alloc, names, classes, class, member, index)?)?;
    }
    Ok(entries)
}

/// The symbol of the function in a slot; `None` where it is pure, and where the unit does not have it.
pub fn slot_symbol<'a>(classes: &[ClassRec], unit: &'a UnitTree, slot: &SlotRec) -> Option<&'a [u8]>
    ensures { MatchOption result (symbol_of_slot (classes_of classes.now) (unit_of unit.now).funcs (slot_of slot.now) ≡ None) (λ s. symbol_of_slot (classes_of classes.now) (unit_of unit.now).funcs (slot_of slot.now) ≡ Some s.now) }
{
    if is_pure(classes, slot) {
        return None;
    }
    let index = slot_index(classes, &unit.funcs, slot)?;
    match unit.funcs.get(index) {
        Some(func) => Some(&func.symbol),
        None => None,
    }
}

// The place of that symbol, and 1; 0 of none.
fn slot_place(
    names: &[Vec<u8>],
    classes: &[ClassRec],
    unit: &UnitTree,
    slot: &SlotRec,
) -> Result<u32, AllocError>
    ensures { IfOk result (λ n. text_in (naming (map bytes_of names.now)) n ≡ symbol_of_slot (classes_of classes.now) (unit_of unit.now).funcs (slot_of slot.now)) }
{
    match slot_symbol(classes, unit, slot) {
        Some(symbol) => place_and_one(names, symbol),
        None => Ok(0),
    }
}

fn slot_places(
    alloc: Global,
    names: &[Vec<u8>],
    classes: &[ClassRec],
    unit: &UnitTree,
    slots: &[SlotRec],
) -> Result<Vec<u32>, AllocError>
    ensures { IfOk result (λ v. map (text_in (naming (map bytes_of names.now))) v.items ≡ map (symbol_of_slot (classes_of classes.now) (unit_of unit.now).funcs) (map slot_of slots.now)) }
{
    let mut places = Vec::new(alloc);
    for slot in slots {
        places.push(slot_place(names, classes, unit, slot)?)?;
    }
    Ok(places)
}

// A class that the unit defines.
fn class_entry(alloc: Global, setting: Setting<'_>, def: &ClassDef) -> Result<ObjClass, AllocError>
    ensures { IfOk result (λ c. class_record (naming (map bytes_of setting.entry.names.now)) (class_view c) ≡ class_entry_of (program_of setting.entry.program.now) (unit_of setting.entry.unit.now).funcs (definition_of def.now)) }
{
    let names = setting.names;
    let classes = setting.program.classes.as_slice();
    let found = class_at(classes, def.class)?;
    let measured = class_size(def.class, classes)?;
    let slots = slots_of(setting.program, def.class);
    Ok(ObjClass {
        name: place_of(names, &found.name)?,
        size: measured.size,
        align: measured.align,
        base: base_place(names, classes, found.base)?,
        pointer: pointer_from(classes, def.class, classes.len())?,
        text: place_of(names, &def.text)?,
        members: member_entries(alloc, names, classes, def.class, &found.members)?,
        slots: slot_places(alloc, names, classes, setting.unit, slots)?,
    })
}

/// The entries of the classes that the unit defines, in its order.
pub fn class_entries(alloc: Global, setting: Setting<'_>) -> Result<Vec<ObjClass>, AllocError>
    ensures { IfOk result (λ v. map (class_record (naming (map bytes_of setting.entry.names.now))) (map class_view v.items) ≡ unit_classes (program_of setting.entry.program.now) (unit_of setting.entry.unit.now)) }
{
    let mut classes = Vec::new(alloc);
    for def in &setting.unit.classes {
        classes.push(class_entry(alloc, setting, def)?)?;
    }
    Ok(classes)
}
