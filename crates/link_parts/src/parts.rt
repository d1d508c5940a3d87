//! The parts of an image.
ghost use Rattle.std.specs.Prelude.{◌≡◌, ◌<◌, ◌≤◌, ◌+◌, ◌^◌, ◌++◌, true, map, length, IfOk, OnOk, ◌&&◌};
ghost use Rattle.std.specs.List.{All, position_from};
ghost use Rattle.std.specs.Option.{option_map};
ghost use Rattle.std.specs.Str.{bytes_eq};
ghost use Rattle.tx_code.specs.Objects.{bytes_of, class_view, global_view, object_view};
ghost use Rattle.tx_code.specs.WellFormed.{cell_fits, global_fits};
ghost use Rattle.tx_code.specs.Images.{image_class_view, image_func_view};
ghost use Rattle.tx_code.specs.Linked.{end_of, name_in, or_none, rounded};
ghost use Rattle.link_tables.specs.Found.{class_row, func_row, global_of_row, global_row};
ghost use Rattle.link_tables.specs.Renamed.{told};
ghost use Rattle.link_parts.specs.Parts.{IsPlacedGlobal, cell_number, cell_told, cells_told, class_told, func_told, is_main_row};
ghost use Rattle.tx_events.specs.declared.TheConstants.{GLOBALS_LIMIT};

use link_tables::found::{FoundClass, FoundFunc, FoundGlobal};
use link_tables::kept::end_behind;
use link_tables::renamed::{Numbers, number_or_absent, optional_number, plain_in, safe_in};
use std::alloc::{AllocError, Global};
use tx_code::{ImageClass, ImageFunc, ObjCell, Object};
use tx_events::{GLOBALS_START, GlobalCell};

/// A copy of a name of an object.
fn name_of(alloc: Global, object: &Object, name: u32) -> Result<Vec<u8>, AllocError>
    ensures { IfOk result (λ v. v.items ≡ name_in (object_view object.now) name) }
{
    match object.names.get(name as usize) {
        Some(name) => Vec::from_slice(alloc, name.as_slice()),
        None => Ok(Vec::new(alloc)),
    }
}

fn source_of(alloc: Global, source: &Option<Vec<u8>>) -> Result<Option<Vec<u8>>, AllocError>
    ensures { IfOk result (λ s. option_map bytes_of s ≡ option_map bytes_of source.now) }
{
    match source {
        Some(name) => {
            let copy = Vec::from_slice(alloc, name.as_slice())?;
            Ok(Some(copy))
        }
        None => Ok(None),
    }
}

fn func_of(alloc: Global, numbers: &Numbers, found: FoundFunc<'_>) -> Result<ImageFunc, AllocError>
    ensures { IfOk result (λ f. image_func_view f ≡ func_told numbers.now (func_row found.entry)) }
{
    let symbol = name_of(alloc, found.home.object, found.func.symbol)?;
    let ty = name_of(alloc, found.home.object, found.func.ty)?;
    let plain = plain_in(alloc, numbers, found.home.start, &found.func.plain)?;
    let safe = safe_in(alloc, numbers, found.home.start, &found.func.safe)?;
    let source = source_of(alloc, &found.home.object.source)?;
    Ok(ImageFunc {
        symbol,
        ty,
        frame: found.func.frame,
        no_except: found.func.flags / 8 % 2 == 1,
        plain,
        safe,
        source,
    })
}

/// The functions of the image.
pub fn funcs_of(
    alloc: Global,
    numbers: &Numbers,
    kept: &[FoundFunc<'_>],
) -> Result<Vec<ImageFunc>, AllocError>
    ensures { IfOk result (λ v. map image_func_view v.items ≡ map (func_told numbers.now) (map func_row kept.now)) }
{
    let mut funcs = Vec::new(alloc);
    for func in kept {
        let copy = func_of(alloc, numbers, *func)?;
        funcs.push(copy)?;
    }
    Ok(funcs)
}

fn slots_of(
    alloc: Global,
    numbers: &Numbers,
    start: u32,
    slots: &[u32],
) -> Result<Vec<Option<u32>>, AllocError>
    ensures { IfOk result (λ v. v.items ≡ map (or_none (λ n. told numbers.now.funcs.items (start + n))) slots.now) }
{
    let mut copy = Vec::new(alloc);
    for slot in slots {
        copy.push(optional_number(&numbers.funcs, start, *slot))?;
    }
    Ok(copy)
}

fn class_of(
    alloc: Global,
    numbers: &Numbers,
    found: FoundClass<'_>,
) -> Result<ImageClass, AllocError>
    ensures { IfOk result (λ c. image_class_view c ≡ class_told numbers.now (class_row found.entry)) }
{
    let name = name_of(alloc, found.home.object, found.class.name)?;
    let base = optional_number(&numbers.classes, found.home.start, found.class.base);
    let slots = slots_of(alloc, numbers, found.home.start, &found.class.slots)?;
    Ok(ImageClass { name, base, slots })
}

/// The classes of the image.
pub fn classes_of(
    alloc: Global,
    numbers: &Numbers,
    kept: &[FoundClass<'_>],
) -> Result<Vec<ImageClass>, AllocError>
    ensures { IfOk result (λ v. map image_class_view v.items ≡ map (class_told numbers.now) (map class_row kept.now)) }
{
    let mut classes = Vec::new(alloc);
    for class in kept {
        let copy = class_of(alloc, numbers, *class)?;
        classes.push(copy)?;
    }
    Ok(classes)
}

/// A cell's bytes as a number.
fn value_of(numbers: &Numbers, start: u32, cell: ObjCell) -> u64
    ensures { result ≡ cell_number numbers.now start cell cell.what }
{
    if cell.what == 0 {
        return cell.value;
    }
    let name = cell.symbol.saturating_sub(1);
    if cell.what == 1 {
        let offset = number_or_absent(&numbers.globals, start, name);
        return (GLOBALS_START + u64::from(offset)).wrapping_add(cell.value);
    }
    let func = number_or_absent(&numbers.funcs, start, name);
    (1 << 40) + 16 * u64::from(func)
}

/// The cells of a global that lies at this offset.
fn add_cells(
    numbers: &Numbers,
    place: u32,
    found: FoundGlobal<'_>,
    cells: &mut Vec<GlobalCell>,
) -> Result<(), AllocError>
    requires fits { IsPlacedGlobal found }
    requires place { place + rounded found.global.now.size ≤ GLOBALS_LIMIT }
    ensures { OnOk result (cells.new.items ≡ cells.old.items ++ map (cell_told numbers.now found.entry.home.start place) found.entry.global.now.cells.items) }
{
    for cell in &found.global.cells {
        let value = value_of(numbers, found.home.start, *cell);
        cells.push(GlobalCell {
            offset: place + cell.offset,
            size: cell.size,
            value,
        })?;
    }
    Ok(())
}

/// The first bytes of the globals.
pub fn cells_of(
    alloc: Global,
    numbers: &Numbers,
    found: &[FoundGlobal<'_>],
) -> Result<Vec<GlobalCell>, AllocError>
    requires fit { All IsPlacedGlobal found.now }
    requires size { end_of 0 (map global_of_row (map global_row found.now)) ≤ GLOBALS_LIMIT }
    ensures { IfOk result (λ v. v.items ≡ cells_told numbers.now 0 (map global_row found.now)) }
{
    let mut cells = Vec::new(alloc);
    let mut place = 0;
    for global in found {
        add_cells(numbers, place, *global, &mut cells)?;
        place = end_behind(place, global.global.size);
    }
    Ok(cells)
}

fn is_named(object: &Object, name: u32, text: &[u8]) -> bool
    ensures { result ≡ bytes_eq (name_in (object_view object.now) name) text.now }
{
    match object.names.get(name as usize) {
        Some(name) => name.as_slice() == text,
        None => text.is_empty(),
    }
}

fn is_main(found: FoundFunc<'_>) -> bool
    ensures { result ≡ is_main_row (func_row found.entry) }
{
    found.func.linkage == 0
        && is_named(found.home.object, found.func.symbol, b"main()")
        && is_named(found.home.object, found.func.ty, b"int()")
}

/// The number of the first external `main()` of type `int()`.
pub fn main_of(kept: &[FoundFunc<'_>]) -> Option<u32>
    requires { length kept.now < 2 ^ 32 }
    ensures { result ≡ position_from is_main_row 0 (map func_row kept.now) }
{
    let mut number = 0;
    for func in kept {
        if is_main(*func) {
            return Some(number);
        }
        number += 1;
    }
    None
}
