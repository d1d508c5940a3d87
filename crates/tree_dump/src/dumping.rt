// A program as text.

use crate::classes::class_sections;
use crate::functions::function_sections;
use crate::globals::{global_sections, put_unit};
use crate::kinds::Named;
use crate::places::all_places;
use crate::sections::put_sections;
use crate::sizes::in_order;
use cpp_tree::{Program, UnitTree};
use std::alloc::{AllocError, Global};

// A unit: classes, then globals, then functions, each sorted by their names.
fn put_unit_tree(
    alloc: Global,
    out: &mut Vec<u8>,
    program: &Program,
    unit: &UnitTree,
    source: u32,
    text: &[u8],
) -> Result<(), AllocError> {
    let places = all_places(alloc, text)?;
    // A typed program's classes are in order.
    let Some(classes) = in_order(&program.classes) else {
        return Err(AllocError);
    };
    let named = Named {
        funcs: &unit.funcs,
        globals: &unit.globals,
        classes,
    };
    let sections = class_sections(alloc, program, unit, source, named)?;
    put_sections(out, sections)?;
    let globals = global_sections(alloc, unit, named)?;
    put_sections(out, globals)?;
    let functions = function_sections(alloc, unit, named, &places)?;
    put_sections(out, functions)
}

/// A typed program as text, with the texts of its sources: of each unit its classes, globals and functions, each sorted by
/// their names, and the trees of bodies with a line for each node. Numbers of lists are not shown: what has a symbol or a
/// name is named by it.
pub fn dump(alloc: Global, program: &Program, texts: &[&[u8]]) -> Result<Vec<u8>, AllocError> {
    let mut out = Vec::new(alloc);
    let is_only = program.units.len() == 1;
    for (i, unit) in program.units.iter().enumerate() {
        let Ok(source) = u32::try_from(i) else {
            return Err(AllocError);
        };
        if !is_only {
            put_unit(&mut out, i as u64)?;
        }
        let text: &[u8] = match texts.get(i) {
            Some(text) => text,
            None => &[],
        };
        put_unit_tree(alloc, &mut out, program, unit, source, text)?;
    }
    Ok(out)
}
