//! Symbols that are defined twice, and symbols of which objects say different things.
ghost use Rattle.std.specs.Prelude.{◌≡◌, ◌<◌, true, map, length, IfOk, OnOk};
ghost use Rattle.link_faults.specs.Faults.{is_twice, is_different};
ghost use Rattle.link_faults.specs.Told.{AreTables, objects_of, names_in};
ghost use Rattle.link_faults.specs.Tests.{IsFirst};

use crate::claims::{least_clash, least_text_dispute, least_type_dispute};
use crate::classes::least_difference;
use crate::disputes::lesser;
use crate::tables::Tables;
use std::alloc::{AllocError, Global};

/// The least symbol that two objects define.
pub(crate) fn least_twice(alloc: Global, tables: &Tables<'_>) -> Result<Option<u32>, AllocError>
    requires { AreTables tables.now }
    ensures { IfOk result (IsFirst (is_twice (objects_of tables.now)) (names_in tables.now)) }
{
    let of_funcs = least_clash(alloc, &tables.funcs, tables.names.len())?;
    let of_globals = least_clash(alloc, &tables.globals, tables.names.len())?;
    Ok(lesser(of_funcs, of_globals))
}

/// The least name of which two objects say different things.
pub(crate) fn least_different(alloc: Global, tables: &Tables<'_>) -> Result<Option<u32>, AllocError>
    requires { AreTables tables.now }
    ensures { IfOk result (IsFirst (is_different (objects_of tables.now)) (names_in tables.now)) }
{
    let classes = least_difference(alloc, &tables.classes, tables.names.len())?;
    let texts = least_text_dispute(alloc, &tables.funcs, tables.names.len())?;
    let funcs = least_type_dispute(alloc, &tables.funcs, tables.names.len())?;
    let globals = least_type_dispute(alloc, &tables.globals, tables.names.len())?;
    let definitions = lesser(classes, texts);
    let with_funcs = lesser(definitions, funcs);
    Ok(lesser(with_funcs, globals))
}
