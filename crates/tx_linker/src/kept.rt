//! What the image of objects is made of.
ghost use Rattle.std.specs.Prelude.{◌≡◌, ◌<◌, map, length, IfOk};
ghost use Rattle.std.specs.List.{All, flat_map};
ghost use Rattle.tx_code.specs.Objects.{object_view};
ghost use Rattle.tx_code.specs.WellFormed.{IsObject};
ghost use Rattle.link_faults.specs.Ranks.{names_of};
ghost use Rattle.tx_linker.specs.Kept.{AreKept};

use link_faults::all_names;
use link_tables::found::{
    FoundClass, FoundFunc, FoundGlobal, found_classes, found_funcs, found_globals,
};
use link_tables::homes::{Home, homes_of, ranks_of};
use link_tables::kept::{kept_classes, kept_funcs};
use std::alloc::{AllocError, Global};
use tx_code::Object;

/// The definitions that an image has, with the names of all objects.
#[derive(Drop)]
pub(crate) struct Kept<'a> {
    pub objects: &'a [Object],
    /// All names, ascending.
    pub names: Vec<Vec<u8>>,
    pub homes: Vec<Home<'a>>,
    /// The rank of the name at each place.
    pub ranks: Vec<u32>,
    pub funcs: Vec<FoundFunc<'a>>,
    pub globals: Vec<FoundGlobal<'a>>,
    pub classes: Vec<FoundClass<'a>>,
}

/// The definitions that the image of these objects has.
pub(crate) fn kept_of<'a>(alloc: Global, objects: &'a [Object]) -> Result<Kept<'a>, AllocError>
    requires objects { All (λ o. IsObject (object_view o)) objects.now }
    requires names { length (flat_map names_of (map object_view objects.now)) < 4294967295 }
    ensures kept { IfOk result AreKept }
    ensures objects { IfOk result (λ k. k.objects.now ≡ objects.now) }
{
    let names = all_names(alloc, objects)?;
    let homes = homes_of(alloc, objects)?;
    let ranks = ranks_of(alloc, &names, &homes)?;
    let all_funcs = found_funcs(alloc, &names, &homes)?;
    let funcs = kept_funcs(alloc, names.len(), &all_funcs)?;
    let globals = found_globals(alloc, &names, &homes)?;
    let all_classes = found_classes(alloc, &names, &homes)?;
    let classes = kept_classes(alloc, names.len(), &all_classes)?;
    Ok(Kept {
        objects,
        names,
        homes,
        ranks,
        funcs,
        globals,
        classes,
    })
}
