//! The image.
ghost use Rattle.std.specs.Prelude.{◌≡◌, ◌<◌, ◌≤◌, ◌^◌, ℕ, List, Some, map, length, IfOk};
ghost use Rattle.std.specs.List.{All, flat_map, position_from};
ghost use Rattle.tx_code.specs.Images.{IsImage, image_class_view, image_func_view};
ghost use Rattle.tx_code.specs.Linked.{ImageOf, end_of, global_defs, image_cells, image_class, image_func, is_main_def, kept_classes, kept_funcs, types_named};
ghost use Rattle.tx_code.specs.Objects.{bytes_of, object_view};
ghost use Rattle.tx_code.specs.Views.{image_view};
ghost use Rattle.tx_code.specs.WellFormed.{IsObject};
ghost use Rattle.link_faults.specs.Answers.{Links};
ghost use Rattle.link_faults.specs.Ranks.{names_of};
ghost use Rattle.link_parts.specs.Told.{AreTypes, TellNames};
ghost use Rattle.tx_linker.specs.Kept.{AreKept, objects_of};
ghost use Rattle.tx_linker.specs.Parts.{parts_view};
ghost use Rattle.tx_events.specs.declared.TheConstants.{GLOBALS_LIMIT};

use crate::kept::{Kept, kept_of};
use crate::numbering::numbers_of;
use link_faults::globals_size;
use link_parts::parts::{cells_of, classes_of, funcs_of, main_of};
use link_parts::types::types_named;
use link_tables::renamed::Numbers;
use std::alloc::{AllocError, Global};
use tx_code::{Image, ImageClass, ImageFunc, Object};
use tx_events::GlobalCell;

/// All that an image has.
#[derive(Drop)]
struct Parts {
    types: Vec<Vec<u8>>,
    funcs: Vec<ImageFunc>,
    classes: Vec<ImageClass>,
    globals: Vec<GlobalCell>,
    size: u32,
    main: u32,
}

fn types_of(alloc: Global, kept: &Kept<'_>) -> Result<Vec<Vec<u8>>, AllocError>
    requires { AreKept kept.now }
    ensures types { IfOk result (λ v. AreTypes (types_named (objects_of kept.now)) (map bytes_of v.items)) }
    ensures few { IfOk result (λ v. length v.items < 2 ^ 32) }
{
    types_named(alloc, &kept.names, &kept.ranks, &kept.funcs)
}

fn image_funcs(
    alloc: Global,
    kept: &Kept<'_>,
    numbers: &Numbers,
) -> Result<Vec<ImageFunc>, AllocError>
    requires { AreKept kept.now }
    ensures { (types : List (List ℕ)) → TellNames (objects_of kept.now) types numbers.now → IfOk result (λ v. map image_func_view v.items ≡ map (image_func (objects_of kept.now) types) (kept_funcs (objects_of kept.now))) }
{
    funcs_of(alloc, numbers, &kept.funcs)
}

fn image_classes(
    alloc: Global,
    kept: &Kept<'_>,
    numbers: &Numbers,
) -> Result<Vec<ImageClass>, AllocError>
    requires { AreKept kept.now }
    ensures { (types : List (List ℕ)) → TellNames (objects_of kept.now) types numbers.now → IfOk result (λ v. map image_class_view v.items ≡ map (image_class (objects_of kept.now)) (kept_classes (objects_of kept.now))) }
{
    classes_of(alloc, numbers, &kept.classes)
}

fn image_globals(
    alloc: Global,
    kept: &Kept<'_>,
    numbers: &Numbers,
) -> Result<Vec<GlobalCell>, AllocError>
    requires kept { AreKept kept.now }
    requires size { end_of 0 (global_defs 0 (objects_of kept.now)) ≤ GLOBALS_LIMIT }
    ensures { (types : List (List ℕ)) → TellNames (objects_of kept.now) types numbers.now → IfOk result (λ v. v.items ≡ image_cells (objects_of kept.now) 0 (global_defs 0 (objects_of kept.now))) }
{
    cells_of(alloc, numbers, &kept.globals)
}

fn image_size(kept: &Kept<'_>) -> u32
    requires kept { AreKept kept.now }
    requires size { end_of 0 (global_defs 0 (objects_of kept.now)) ≤ GLOBALS_LIMIT }
    ensures { result ≡ end_of 0 (global_defs 0 (objects_of kept.now)) }
{
    globals_size(kept.objects) as u32
}

/// The number of `main`. Objects that can be linked define it (C++14 3.6.1).
fn main_in(kept: &Kept<'_>) -> u32
    requires kept { AreKept kept.now }
    requires links { Links (objects_of kept.now) }
    ensures { position_from is_main_def 0 (kept_funcs (objects_of kept.now)) ≡ Some result }
{
    match main_of(&kept.funcs) {
        Some(main) => main,
        None => unreachable!(),
    }
}

fn parts_of(alloc: Global, kept: &Kept<'_>) -> Result<Parts, AllocError>
    requires kept { AreKept kept.now }
    requires links { Links (objects_of kept.now) }
    ensures { IfOk result (λ p. ImageOf (objects_of kept.now) (parts_view p)) }
{
    let types = types_of(alloc, kept)?;
    let numbers = numbers_of(alloc, kept, &types)?;
    let funcs = image_funcs(alloc, kept, &numbers)?;
    let classes = image_classes(alloc, kept, &numbers)?;
    let globals = image_globals(alloc, kept, &numbers)?;
    Ok(Parts {
        types,
        funcs,
        classes,
        globals,
        size: image_size(kept),
        main: main_in(kept),
    })
}

fn image_with(parts: Parts) -> Image
    requires { IsImage (parts_view parts) }
    ensures { image_view result ≡ parts_view parts }
{
    Image {
        types: parts.types,
        funcs: parts.funcs,
        classes: parts.classes,
        globals: parts.globals,
        size: parts.size,
        main: parts.main,
    }
}

/// The image of objects that can be linked.
pub(crate) fn image_of(alloc: Global, objects: &[Object]) -> Result<Image, AllocError>
    requires objects { All (λ o. IsObject (object_view o)) objects.now }
    requires names { length (flat_map names_of (map object_view objects.now)) < 4294967295 }
    requires links { Links (map object_view objects.now) }
    ensures { IfOk result (λ i. ImageOf (map object_view objects.now) (image_view i)) }
{
    let kept = kept_of(alloc, objects)?;
    let parts = parts_of(alloc, &kept)?;
    Ok(image_with(parts))
}
