//! The public call.
ghost use Rattle.std.specs.Prelude.{◌≡◌, slice_get, Some, IfOk};
ghost use Rattle.std.specs.Option.{option_map};
ghost use Rattle.cpp_tree.specs.Units.{Unit, unit_of, program_of};
ghost use Rattle.tx_code.specs.Objects.{bytes_of, object_view};
ghost use Rattle.tx_code.specs.WellFormed.{IsObject};
ghost use Rattle.unit_entries.specs.Uses.{marks_of};
ghost use Rattle.unit_entries.specs.Marked.{marks_in};
ghost use Rattle.clone_gen.specs.Generated.{IsObjectOf, source_name as name_of_source};

use crate::entries::{sorted_classes, sorted_funcs, sorted_globals, with_bodies};
use crate::lowered::{Lowering, lower_bodies};
use crate::naming::{Named, is_source_name, name_all};
use cpp_tree::{Program, UnitTree};
use low_code::temporaries::with_temporaries;
use object_check::is_object;
use std::alloc::{AllocError, Global};
use tx_code::Object;
use unit_entries::{
    Setting, Uses, class_entries, entry_names, func_entries, global_entries, uses_of,
};

// The name that an object has of its source.
fn source_name(alloc: Global, source: &[u8]) -> Result<Option<Vec<u8>>, AllocError>
    ensures { IfOk result (λ o. option_map bytes_of o ≡ name_of_source source.now) }
{
    if !is_source_name(source) {
        return Ok(None);
    }
    Ok(Some(Vec::from_slice(alloc, source)?))
}

// The object of a unit with these names and bodies.
fn unit_object(
    alloc: Global,
    program: &Program,
    unit: &UnitTree,
    uses: &Uses,
    safe: &[bool],
    named: Named,
    source: &[u8],
) -> Result<Object, AllocError>
    requires { marks_in uses.now ≡ marks_of (program_of program.now) (unit_of unit.now) safe.now }
    ensures { IfOk result (λ o. IsObjectOf (program_of program.now) (unit_of unit.now) safe.now source.now (object_view o)) }
{
    let Named { names, bodies } = named;
    let setting = Setting {
        names: &names,
        program,
        unit,
        uses,
        safe,
    };
    let classes = sorted_classes(class_entries(alloc, setting)?)?;
    let globals = sorted_globals(global_entries(alloc, setting)?)?;
    let mut funcs = func_entries(alloc, setting)?;
    with_bodies(&mut funcs, bodies)?;
    let funcs = sorted_funcs(funcs)?;
    let source = source_name(alloc, source)?;
    Ok(Object {
        version: 2,
        names,
        source,
        classes,
        globals,
        funcs,
    })
}

// The names and the bodies of a unit's object.
fn named_bodies(
    alloc: Global,
    program: &Program,
    unit: &UnitTree,
    uses: &Uses,
    safe: &[bool],
    source: &[u8],
    starts: &[u32],
) -> Result<Named, AllocError> {
    let temporaries = with_temporaries(alloc, unit)?;
    let lowering = Lowering {
        program,
        unit,
        uses,
        safe,
        temporaries: &temporaries,
        starts,
    };
    let lowered = lower_bodies(alloc, lowering)?;
    let entries = entry_names(alloc, program, unit, uses)?;
    name_all(alloc, lowered, &entries, source)
}

/// The object of a unit: version 2, with what the unit defines and refers to. Each function that is defined has a plain
/// body, and those that `safe` names, by their indexes, have a safe body too. `source` is the name of the unit's source,
/// and its lines begin at the offsets `starts`. Some bytes spell the object, so that it can be written and linked, and its
/// entries are exactly those of the unit.
pub fn generate(
    alloc: Global,
    program: &Program,
    unit: u32,
    safe: &[bool],
    source: &[u8],
    starts: &[u32],
) -> Result<Object, AllocError>
    ensures object { IfOk result (λ o. IsObject (object_view o)) }
    ensures unit { IfOk result (λ o. (u : Unit) → slice_get (program_of program.now).units unit ≡ Some u → IsObjectOf (program_of program.now) u safe.now source.now (object_view o)) }
{
    let Some(tree) = program.units.get(unit as usize) else {
        return Err(AllocError);
    };
    let uses = uses_of(alloc, program, tree, safe)?;
    let named = named_bodies(alloc, program, tree, &uses, safe, source, starts)?;
    let object = unit_object(alloc, program, tree, &uses, safe, named, source)?;
    if !is_object(alloc, &object)? {
        return Err(AllocError);
    }
    Ok(object)
}
