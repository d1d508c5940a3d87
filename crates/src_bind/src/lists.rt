//! The definitions of a program, unit by unit, each unit's in the order of their symbols.

ghost use Rattle.std.specs.Prelude.{◌≡◌, ◌++◌, ℕ, IfOk, OnOk, not, filter, map, Bool};
ghost use Rattle.cpp_tree.specs.cpp_types.Class.{classes_of};
ghost use Rattle.cpp_tree.specs.cpp_types.Equal.{flag_eq};
ghost use Rattle.cpp_tree.specs.Units.{unit_of, program_of};
ghost use Rattle.src_mean.specs.Links.{Def, funcs_defined, globals_defined, classes_defined, class_name as name_of_class, is_internal as is_internal_linkage, is_string as is_string_def, strings_last, sorted as sorted_defs, all_funcs as funcs_of_all, all_globals as globals_of_all, all_classes as classes_of_all, kept_funcs as funcs_kept, kept_globals as globals_kept, kept_classes as classes_kept};
ghost use Rattle.src_bind.specs.Defs.{def_of, defs_of};

use crate::defs::{Found, add_if, kept, sorted};
use cpp_tree::below::ClassRec;
use cpp_tree::{Linkage, Program, UnitTree};
use std::alloc::{AllocError, Global};

// A place as a number of 32 bits. More count as want of memory.
pub(crate) fn numbered(place: usize) -> Result<u32, AllocError>
    ensures { IfOk result (λ n. n ≡ place) }
{
    match u32::try_from(place) {
        Ok(number) => Ok(number),
        Err(_) => Err(AllocError),
    }
}

/// Whether no other unit sees what is declared so.
pub(crate) fn is_internal(linkage: Linkage) -> bool
    ensures { result ≡ is_internal_linkage linkage }
{
    match linkage {
        Linkage::Internal => true,
        Linkage::External | Linkage::Inline => false,
    }
}

/// The name of a class, empty where there is none with that index.
pub(crate) fn class_name(classes: &[ClassRec], class: u32) -> &[u8]
    ensures { result.now ≡ name_of_class (classes_of classes.now) class }
{
    match classes.get(class as usize) {
        Some(record) => &record.name,
        None => &[],
    }
}

// The functions that a unit defines.
fn funcs_in<'a>(alloc: Global, unit: u32, tree: &'a UnitTree) -> Result<Vec<Found<'a>>, AllocError>
    ensures { IfOk result (λ v. defs_of v.items ≡ funcs_defined unit 0 (unit_of tree.now).funcs) }
{
    let mut out = Vec::new(alloc);
    for (i, func) in tree.funcs.iter().enumerate() {
        let def = Found {
            unit,
            place: numbered(i)?,
            symbol: &func.symbol,
            internal: is_internal(func.linkage),
        };
        add_if(&mut out, func.body.is_some(), def)?;
    }
    Ok(out)
}

// The globals that a unit defines.
fn globals_in<'a>(
    alloc: Global,
    unit: u32,
    tree: &'a UnitTree,
) -> Result<Vec<Found<'a>>, AllocError>
    ensures { IfOk result (λ v. defs_of v.items ≡ globals_defined unit 0 (unit_of tree.now).globals) }
{
    let mut out = Vec::new(alloc);
    for (i, global) in tree.globals.iter().enumerate() {
        let def = Found {
            unit,
            place: numbered(i)?,
            symbol: &global.symbol,
            internal: is_internal(global.linkage),
        };
        add_if(&mut out, global.defined, def)?;
    }
    Ok(out)
}

// The classes that a unit defines.
fn classes_in<'a>(
    alloc: Global,
    classes: &'a [ClassRec],
    unit: u32,
    tree: &'a UnitTree,
) -> Result<Vec<Found<'a>>, AllocError>
    ensures { IfOk result (λ v. defs_of v.items ≡ classes_defined (classes_of classes.now) unit 0 (unit_of tree.now).classes) }
{
    let mut out = Vec::new(alloc);
    for class in &tree.classes {
        out.push(Found {
            unit,
            place: class.class,
            symbol: class_name(classes, class.class),
            internal: false,
        })?;
    }
    Ok(out)
}

// Whether it is a string, whose symbol is no name.
fn is_string(def: &Found<'_>) -> bool
    ensures { result ≡ is_string_def (def_of def.now) }
{
    def.symbol.starts_with(b"string:")
}

// Adds the strings, or the others.
fn add_strings<'a>(
    out: &mut Vec<Found<'a>>,
    defs: &[Found<'a>],
    strings: bool,
) -> Result<(), AllocError>
    ensures { OnOk result (defs_of out.new.items ≡ defs_of out.old.items ++ filter (λ (d : Def). flag_eq strings (is_string_def d)) (defs_of defs.now)) }
{
    for def in defs {
        add_if(out, is_string(def) == strings, *def)?;
    }
    Ok(())
}

// The same with named globals first.
fn with_strings_last<'a>(alloc: Global, defs: &[Found<'a>]) -> Result<Vec<Found<'a>>, AllocError>
    ensures { IfOk result (λ v. defs_of v.items ≡ strings_last (defs_of defs.now)) }
{
    let mut out = Vec::new(alloc);
    add_strings(&mut out, defs, false)?;
    add_strings(&mut out, defs, true)?;
    Ok(out)
}

/// The functions that the units define.
pub fn all_funcs<'a>(alloc: Global, program: &'a Program) -> Result<Vec<Found<'a>>, AllocError>
    ensures { IfOk result (λ v. defs_of v.items ≡ funcs_of_all 0 (program_of program.now).units) }
{
    let mut all = Vec::new(alloc);
    for (i, tree) in program.units.iter().enumerate() {
        let found = funcs_in(alloc, numbered(i)?, tree)?;
        let found = sorted(alloc, &found)?;
        all.extend_from_slice(&found)?;
    }
    Ok(all)
}

/// The globals that the units define.
pub fn all_globals<'a>(alloc: Global, program: &'a Program) -> Result<Vec<Found<'a>>, AllocError>
    ensures { IfOk result (λ v. defs_of v.items ≡ globals_of_all 0 (program_of program.now).units) }
{
    let mut all = Vec::new(alloc);
    for (i, tree) in program.units.iter().enumerate() {
        let found = globals_in(alloc, numbered(i)?, tree)?;
        let found = sorted(alloc, &found)?;
        let found = with_strings_last(alloc, &found)?;
        all.extend_from_slice(&found)?;
    }
    Ok(all)
}

/// The classes that the units define.
pub fn all_classes<'a>(alloc: Global, program: &'a Program) -> Result<Vec<Found<'a>>, AllocError>
    ensures { IfOk result (λ v. defs_of v.items ≡ classes_of_all (program_of program.now).classes 0 (program_of program.now).units) }
{
    let mut all = Vec::new(alloc);
    for (i, tree) in program.units.iter().enumerate() {
        let found = classes_in(alloc, &program.classes, numbered(i)?, tree)?;
        let found = sorted(alloc, &found)?;
        all.extend_from_slice(&found)?;
    }
    Ok(all)
}

/// The functions that are kept, by their numbers.
pub fn kept_funcs<'a>(alloc: Global, program: &'a Program) -> Result<Vec<Found<'a>>, AllocError>
    ensures { IfOk result (λ v. defs_of v.items ≡ funcs_kept (program_of program.now)) }
{
    let all = all_funcs(alloc, program)?;
    kept(alloc, &all)
}

/// The globals that are kept, by their numbers.
pub fn kept_globals<'a>(alloc: Global, program: &'a Program) -> Result<Vec<Found<'a>>, AllocError>
    ensures { IfOk result (λ v. defs_of v.items ≡ globals_kept (program_of program.now)) }
{
    let all = all_globals(alloc, program)?;
    kept(alloc, &all)
}

/// The classes that are kept, by their numbers.
pub fn kept_classes<'a>(alloc: Global, program: &'a Program) -> Result<Vec<Found<'a>>, AllocError>
    ensures { IfOk result (λ v. defs_of v.items ≡ classes_kept (program_of program.now)) }
{
    let all = all_classes(alloc, program)?;
    kept(alloc, &all)
}
