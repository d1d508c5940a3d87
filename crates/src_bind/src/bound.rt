//! What a thread asks of a bound program.

ghost use Rattle.std.specs.Prelude.{◌≡◌, ◌+◌, ◌*◌, ◌&&◌, ℕ, [], option_copied, option_map, option_and_then, unwrap_or, slice_get, Option, MatchOption};
ghost use Rattle.std.specs.List.{list_any};
ghost use Rattle.cpp_tree.specs.cpp_types.Typ.{Signature};
ghost use Rattle.cpp_tree.specs.cpp_types.Class.{classes_of, base_of as base_found, completion_of};
ghost use Rattle.cpp_tree.specs.cpp_types.Conversion.{chain};
ghost use Rattle.cpp_tree.specs.cpp_types.Equal.{name_eq};
ghost use Rattle.cpp_tree.specs.cpp_types.Spelling.{function_spelling};
ghost use Rattle.src_mean.specs.Links.{class_name as name_of_class, is_or_has_base as is_class_or_base, unsafe as without_safety};
ghost use Rattle.src_bind.specs.Infos.{info_of};
ghost use Rattle.src_bind.specs.Numbers.{entry};
ghost use Rattle.src_bind.specs.Bases.{is_named};
ghost use Rattle.src_bind.specs.Tables.{typed, linked_of};
ghost use Rattle.src_bind.specs.Bounds.{given};

use crate::bound_program::Bound;
use crate::infos::FuncInfo;
use crate::lists::class_name;
use cpp_tree::Program;
use cpp_tree::below::{ClassRec, GLOBALS_START, is_name, vtable_addr};

// What stands in a row of a table of numbers.
fn number_at(table: &[Vec<u32>], row: u32, place: u32) -> Option<u32>
    ensures { result ≡ entry table.now row place }
{
    match table.get(row as usize) {
        Some(numbers) => match numbers.get(place as usize) {
            Some(number) => Some(*number),
            None => None,
        },
        None => None,
    }
}

// What stands in a row of a table of addresses.
fn address_at(table: &[Vec<u64>], row: u32, place: u32) -> Option<u64>
    ensures { result ≡ entry table.now row place }
{
    match table.get(row as usize) {
        Some(addresses) => match addresses.get(place as usize) {
            Some(address) => Some(*address),
            None => None,
        },
        None => None,
    }
}

// What stands in a row of a table of slots.
fn slot_at(table: &[Vec<Option<u32>>], row: u32, place: u32) -> Option<u32>
    ensures { result ≡ option_and_then (λ (o : Option ℕ). o) (entry table.now row place) }
{
    match table.get(row as usize) {
        Some(slots) => match slots.get(place as usize) {
            Some(number) => *number,
            None => None,
        },
        None => None,
    }
}

// A function by its number.
fn info_at(infos: &[FuncInfo], number: usize) -> Option<&FuncInfo>
    ensures { option_copied result ≡ slice_get infos.now number }
{
    infos.get(number)
}

// A class by its number.
fn place_at(places: &[u32], number: usize) -> Option<u32>
    ensures { result ≡ slice_get places.now number }
{
    match places.get(number) {
        Some(place) => Some(*place),
        None => None,
    }
}

// Whether the function is no member, and its type has this spelling.
fn is_of(info: &FuncInfo, ty: &[u8]) -> bool
    ensures { result ≡ (info.now.free && name_eq ty.now info.now.ty.items) }
{
    info.free && is_name(ty, &info.ty)
}

// Which number has this address, where the first one has `base` and each takes 16 bytes.
fn number_of_address(address: u64, base: u64) -> Option<u64>
    ensures { MatchOption result ((i : ℕ) → address ≡ base + 16 * i → ⊥) (λ k. address ≡ base + 16 * k) }
{
    if address < base {
        return None;
    }
    let distance = address - base;
    if distance % 16 != 0 {
        return None;
    }
    Some(distance / 16)
}

// The base of a complete class.
fn base_of(classes: &[ClassRec], class: u32) -> Option<u32>
    ensures { result ≡ base_found (classes_of classes.now) class }
{
    let record = classes.get(class as usize)?;
    match record.complete {
        Some(_) => record.base,
        None => None,
    }
}

// How many classes were completed before this one; 0 where it is not complete.
fn completion(classes: &[ClassRec], class: u32) -> u32
    ensures { result ≡ unwrap_or (completion_of (classes_of classes.now) class) 0 }
{
    match classes.get(class as usize) {
        Some(record) => match record.complete {
            Some(number) => number,
            None => 0,
        },
        None => 0,
    }
}

// Whether one of the bases, of which there are at most `most`, has this name.
fn has_base(classes: &[ClassRec], class: u32, most: u32, name: &[u8]) -> bool
    ensures { result ≡ list_any (is_named (classes_of classes.now) name.now) (chain most (classes_of classes.now) class) }
{
    let mut below = class;
    for _passed in 0..most {
        let Some(base) = base_of(classes, below) else {
            return false;
        };
        if is_name(class_name(classes, base), name) {
            return true;
        }
        below = base;
    }
    false
}

// Whether the class or one of its bases has this name.
fn is_or_has_base(classes: &[ClassRec], class: u32, name: &[u8]) -> bool
    ensures { result ≡ is_class_or_base (classes_of classes.now) class name.now }
{
    is_name(class_name(classes, class), name)
        || has_base(classes, class, completion(classes, class), name)
}

// Whether a class is the other one or derived from it, by their names.
fn leads_to(program: &Program, place: u32, class: u32) -> bool
    ensures { result ≡ is_class_or_base (classes_of program.now.classes.items) place (name_of_class (classes_of program.now.classes.items) class) }
{
    let classes = program.classes.as_slice();
    is_or_has_base(classes, place, class_name(classes, class))
}

impl<'a> Bound<'a> {
    /// The program.
    pub fn program(&self) -> &Program
        ensures { result.now ≡ (given self.now).program }
    {
        self.program
    }

    /// The number of a unit's function.
    pub fn number(&self, unit: u32, func: u32) -> u32
        ensures { result ≡ (linked_of (given self.now)).number unit func }
    {
        number_at(&self.numbers, unit, func).unwrap_or(0)
    }

    /// The function with this number.
    pub fn info(&self, number: u32) -> Option<&FuncInfo>
        ensures { option_map (info_of (given self.now).program) (option_copied result) ≡ (linked_of (given self.now)).func number }
    {
        info_at(&self.infos, number as usize)
    }

    /// The address of a unit's global.
    pub fn global(&self, unit: u32, global: u32) -> u64
        ensures { result ≡ (linked_of (given self.now)).global unit global }
    {
        address_at(&self.globals, unit, global).unwrap_or(GLOBALS_START)
    }

    /// The class address of a class.
    pub fn table(&self, class: u32) -> u64
        ensures { result ≡ (linked_of (given self.now)).table class }
    {
        vtable_addr(place_at(&self.classes, class as usize).unwrap_or(self.nameless))
    }

    /// Of the class with this address, the number of the function in a slot of the class `class`.
    pub fn slot(&self, address: u64, class: u32, slot: u32) -> Option<u32>
        ensures { result ≡ (linked_of (given self.now)).slot address class slot }
    {
        let number = number_of_address(address, 0x200_0000_0000)?;
        let place = place_at(&self.places, number as usize)?;
        if leads_to(self.program, place, class) {
            slot_at(&self.slots, place, slot)
        } else {
            None
        }
    }

    /// The number of the function with this address, where it is no member and its type has this spelling, safety aside.
    pub fn pointed(&self, address: u64, ty: &[u8]) -> Option<u32>
        ensures { (sig : Signature) → ty.now ≡ function_spelling (typed (given self.now)).classes (without_safety sig) [] → result ≡ (linked_of (given self.now)).pointed address sig }
    {
        let number = number_of_address(address, 0x100_0000_0000)?;
        let info = info_at(&self.infos, number as usize)?;
        if is_of(info, ty) {
            Some(number as u32)
        } else {
            None
        }
    }

    /// The number of the function that thread 0 starts in.
    pub fn main(&self) -> u32
        ensures { result ≡ (linked_of (given self.now)).main }
    {
        self.main
    }
}
