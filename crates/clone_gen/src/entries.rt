//! The entries of an object with their bodies, and in their order.
ghost use Rattle.std.specs.Prelude.{◌≡◌, map, IfOk, OnOk};
ghost use Rattle.std.specs.List.Sorted.{IsPermutation};
ghost use Rattle.tx_code.specs.Objects.{ObjectView, func_view};
ghost use Rattle.unit_entries.specs.Records.{func_record};

use crate::lowered::Bodies;
use std::alloc::AllocError;
use tx_code::{ObjClass, ObjFunc, ObjGlobal};

// Gives an entry its bodies.
fn put_bodies(funcs: &mut Vec<ObjFunc>, index: usize, bodies: Bodies)
    ensures { (o : ObjectView) → map (func_record o) (map func_view funcs.new.items) ≡ map (func_record o) (map func_view funcs.old.items) }
{
    if let Some(func) = funcs.get_mut(index) {
        let Bodies { plain, safe } = bodies;
        func.plain = plain;
        func.safe = safe;
    }
}

/// Gives the entries of functions their bodies, which stand in the same order. Where there are too few, that counts as
/// want of memory.
pub fn with_bodies(funcs: &mut Vec<ObjFunc>, bodies: Vec<Bodies>) -> Result<(), AllocError>
    ensures { OnOk result ((o : ObjectView) → map (func_record o) (map func_view funcs.new.items) ≡ map (func_record o) (map func_view funcs.old.items)) }
{
    let mut bodies = bodies.into_iter();
    for i in 0..funcs.len() {
        let Some(found) = bodies.next() else {
            return Err(AllocError);
        };
        put_bodies(funcs, i, found);
    }
    Ok(())
}

/// Classes in the order of their names, whose numbers are in the order of their bytes.
pub fn sorted_classes(classes: Vec<ObjClass>) -> Result<Vec<ObjClass>, AllocError>
    ensures { IfOk result (λ v. IsPermutation classes.items v.items) }
{
    let mut classes = classes;
    classes.sort_by_key(|class| class.name)?;
    Ok(classes)
}

/// Globals in the order of their symbols.
pub fn sorted_globals(globals: Vec<ObjGlobal>) -> Result<Vec<ObjGlobal>, AllocError>
    ensures { IfOk result (λ v. IsPermutation globals.items v.items) }
{
    let mut globals = globals;
    globals.sort_by_key(|global| global.symbol)?;
    Ok(globals)
}

/// Functions in the order of their symbols.
pub fn sorted_funcs(funcs: Vec<ObjFunc>) -> Result<Vec<ObjFunc>, AllocError>
    ensures { IfOk result (λ v. IsPermutation funcs.items v.items) }
{
    let mut funcs = funcs;
    funcs.sort_by_key(|func| func.symbol)?;
    Ok(funcs)
}
