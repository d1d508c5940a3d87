//! What the names of an instruction stand for in a function of the source.

ghost use Rattle.std.specs.Prelude.{◌≡◌, IfOk, option_map};
ghost use Rattle.code_follows.specs.Names.{number_in};
ghost use Rattle.note_landing.specs.Shown.{types_by, table_by};
ghost use Rattle.body_notes.specs.Named.{IsTableAt};

use code_follows::names::{NameTable, Named};
use image_links::lookups::class_address;
use image_links::tables::{class_with, function_with, global_at};
use note_landing::compiled::{Compiled, Room};
use note_landing::spellings::number_of;
use std::alloc::{AllocError, Global};
use symbolic_leaving::source::unit_of;
use symbolic_terms::refusal::Refusal;
use tx_code::Instr;

/// The address of the first global.
const GLOBALS: u64 = 65_536;

/// The unit's global with this offset in the image.
pub(crate) fn global_of<'a>(body: &Compiled<'a>, offset: u32) -> Result<Option<u32>, AllocError>
    ensures { IfOk result (λ o. o ≡ (table_by body.now).global_of offset) }
{
    let unit = unit_of(&body.source);
    match body.source.bound.program().units.get(unit as usize) {
        Some(tree) => {
            let address = GLOBALS + u64::from(offset);
            let found = global_at(body.source.bound, unit, &tree.globals, address)?;
            Ok(found)
        }
        None => Ok(None),
    }
}

/// The unit's function with this number in the image.
pub(crate) fn function_of<'a>(body: &Compiled<'a>, number: u32) -> Result<Option<u32>, AllocError>
    ensures { IfOk result (λ o. o ≡ (table_by body.now).function_of number) }
{
    if body.image.funcs.len() <= number as usize {
        return Ok(None);
    }
    let unit = unit_of(&body.source);
    match body.source.bound.program().units.get(unit as usize) {
        Some(tree) => {
            let found = function_with(body.source.bound, unit, &tree.funcs, number)?;
            Ok(found)
        }
        None => Ok(None),
    }
}

// The class with this number in the image.
fn class_of<'a>(body: &Compiled<'a>, number: u32) -> Option<u32>
    ensures { result ≡ (table_by body.now).class_of number }
{
    let unit = unit_of(&body.source);
    match body.source.bound.program().units.get(unit as usize) {
        Some(tree) => class_with(body.source.bound, &tree.classes, class_address(number)),
        None => None,
    }
}

// The type of exceptions with this number in the image, by its number among those of the source.
#[tactic(auto, using(crate::proofs::Tables::type_here))]
fn type_of<'a>(alloc: Global, body: &Compiled<'a>, number: u32) -> Result<Option<u32>, Refusal>
    ensures { IfOk result (λ o. option_map (types_by body.now) o ≡ (table_by body.now).type_of number) }
{
    for (n, ty) in body.source.types.iter().enumerate() {
        if number_of(alloc, body, ty)? == number as usize {
            return match u32::try_from(n) {
                Ok(typ) => Ok(Some(typ)),
                Err(_) => Err(Refusal::Beyond),
            };
        }
    }
    Ok(None)
}

// A name that stands for a number, or for nothing.
fn named<'a>(room: Room<'a>, name: u32, found: Option<u32>) -> Result<&'a [Named], Refusal>
    ensures { IfOk result (λ names. number_in names.now name ≡ found) }
{
    let mut names: Vec<Named> = Vec::new(room.alloc);
    if let Some(number) = found {
        names.push(Named { name, number })?;
    }
    Ok(room.arena.try_alloc_slice_copy(&names)?)
}

/// What the names of an instruction stand for.
pub(crate) fn names_of<'a>(
    room: Room<'a>,
    body: &Compiled<'a>,
    instr: Instr,
) -> Result<NameTable<'a>, Refusal>
    ensures { IfOk result (λ t. IsTableAt (types_by body.now) t (table_by body.now) instr) }
{
    let mut table = NameTable {
        globals: named(room, 0, None)?,
        functions: named(room, 0, None)?,
        classes: named(room, 0, None)?,
        types: named(room, 0, None)?,
    };
    match instr {
        Instr::GlobalAddr(offset) => {
            table.globals = named(room, offset, global_of(body, offset)?)?;
        }
        Instr::FuncAddr(number) => {
            table.functions = named(room, number, function_of(body, number)?)?;
        }
        Instr::ClassAddr(number) => {
            table.classes = named(room, number, class_of(body, number))?;
        }
        Instr::Slot { class, .. } => {
            table.classes = named(room, class, class_of(body, class))?;
        }
        Instr::NewException(number) => {
            table.types = named(room, number, type_of(room.alloc, body, number)?)?;
        }
        _ => {}
    }
    Ok(table)
}
