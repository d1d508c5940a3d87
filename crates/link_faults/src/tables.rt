//! All that objects say of symbols.
ghost use Rattle.std.specs.Prelude.{◌≡◌, ◌<◌, true, map, length, IfOk, OnOk};
ghost use Rattle.std.specs.List.{All, flat_map};
ghost use Rattle.tx_code.specs.Objects.{bytes_of, object_view};
ghost use Rattle.tx_code.specs.WellFormed.{IsObject};
ghost use Rattle.link_faults.specs.Ranks.{AreNames, Known, names_of};
ghost use Rattle.link_faults.specs.Told.{AreTables};

use crate::classes::{RankedClass, ranked_classes};
use crate::entries::{RankedEntry, ranked_funcs, ranked_globals};
use crate::names::all_names;
use std::alloc::{AllocError, Global};
use tx_code::Object;

/// All that objects say of symbols, with ranks in place of names.
#[derive(Drop)]
pub(crate) struct Tables<'a> {
    pub objects: &'a [Object],
    /// All names, ascending.
    pub names: Vec<Vec<u8>>,
    pub funcs: Vec<RankedEntry>,
    pub globals: Vec<RankedEntry>,
    pub classes: Vec<RankedClass>,
}

/// The tables of the objects.
pub(crate) fn tables_of<'a>(alloc: Global, objects: &'a [Object]) -> Result<Tables<'a>, AllocError>
    requires objects { All (λ o. IsObject (object_view o)) objects.now }
    requires names { length (flat_map names_of (map object_view objects.now)) < 4294967295 }
    ensures told { IfOk result AreTables }
    ensures objects { IfOk result (λ t. t.objects.now ≡ objects.now) }
{
    let names = all_names(alloc, objects)?;
    let funcs = ranked_funcs(alloc, &names, objects)?;
    let globals = ranked_globals(alloc, &names, objects)?;
    let classes = ranked_classes(alloc, &names, objects)?;
    Ok(Tables {
        objects,
        names,
        funcs,
        globals,
        classes,
    })
}
