//! The definitions of the objects with their symbols.
ghost use Rattle.std.specs.Prelude.{◌≡◌, ◌<◌, ◌++◌, ◌∷◌, [], if◌then◌else◌, map, filter, length, nat_eq, codes, ◌&&◌, IfOk, OnOk};
ghost use Rattle.std.specs.List.{All, flat_map, starts_with};
ghost use Rattle.tx_code.specs.Objects.{bytes_of, class_view, func_view, global_view, object_view};
ghost use Rattle.tx_code.specs.WellFormed.{same};
ghost use Rattle.tx_code.specs.Linked.{is_defined_global, is_string, name_in};
ghost use Rattle.link_tables.specs.Homes.{IsHome, home_view};
ghost use Rattle.link_tables.specs.Found.{class_row, classes_in, func_row, funcs_in, global_row, globals_in, row_of_global};

use crate::homes::{Home, symbol_in};
use crate::symbols::Symbol;
use std::alloc::{AllocError, Global};
use tx_code::{ObjClass, ObjFunc, ObjGlobal, Object};

/// A definition of a function.
#[derive(Clone, Copy)]
pub struct FoundFunc<'a> {
    pub home: Home<'a>,
    pub func: &'a ObjFunc,
    pub symbol: Symbol,
}

/// A definition of a global.
#[derive(Clone, Copy)]
pub struct FoundGlobal<'a> {
    pub home: Home<'a>,
    pub global: &'a ObjGlobal,
    pub symbol: Symbol,
}

/// A class.
#[derive(Clone, Copy)]
pub struct FoundClass<'a> {
    pub home: Home<'a>,
    pub class: &'a ObjClass,
    pub symbol: Symbol,
}

fn add_funcs<'a>(
    all: &[Vec<u8>],
    home: Home<'a>,
    found: &mut Vec<FoundFunc<'a>>,
) -> Result<(), AllocError>
    requires { IsHome (map bytes_of all.now) home }
    ensures { OnOk result (map func_row found.new.items ≡ map func_row found.old.items ++ funcs_in (map bytes_of all.now) (home_view home.entry)) }
{
    for func in &home.object.funcs {
        if func.flags % 2 == 1 {
            let symbol = symbol_in(all, home, func.symbol, func.linkage == 1);
            found.push(FoundFunc { home, func, symbol })?;
        }
    }
    Ok(())
}

/// The functions that the objects define.
pub fn found_funcs<'a>(
    alloc: Global,
    all: &[Vec<u8>],
    homes: &[Home<'a>],
) -> Result<Vec<FoundFunc<'a>>, AllocError>
    requires { All (IsHome (map bytes_of all.now)) homes.now }
    ensures { IfOk result (λ v. map func_row v.items ≡ flat_map (funcs_in (map bytes_of all.now)) (map home_view homes.now)) }
{
    let mut found = Vec::new(alloc);
    for home in homes {
        add_funcs(all, *home, &mut found)?;
    }
    Ok(found)
}

fn add_classes<'a>(
    all: &[Vec<u8>],
    home: Home<'a>,
    found: &mut Vec<FoundClass<'a>>,
) -> Result<(), AllocError>
    requires { IsHome (map bytes_of all.now) home }
    ensures { OnOk result (map class_row found.new.items ≡ map class_row found.old.items ++ classes_in (map bytes_of all.now) (home_view home.entry)) }
{
    for class in &home.object.classes {
        let symbol = symbol_in(all, home, class.name, false);
        found.push(FoundClass {
            home,
            class,
            symbol,
        })?;
    }
    Ok(())
}

/// The classes of the objects.
pub fn found_classes<'a>(
    alloc: Global,
    all: &[Vec<u8>],
    homes: &[Home<'a>],
) -> Result<Vec<FoundClass<'a>>, AllocError>
    requires { All (IsHome (map bytes_of all.now)) homes.now }
    ensures { IfOk result (λ v. map class_row v.items ≡ flat_map (classes_in (map bytes_of all.now)) (map home_view homes.now)) }
{
    let mut found = Vec::new(alloc);
    for home in homes {
        add_classes(all, *home, &mut found)?;
    }
    Ok(found)
}

/// Whether a name is that of a string literal.
fn is_literal(object: &Object, name: u32) -> bool
    requires { name < length object.now.names.items }
    ensures { result ≡ starts_with nat_eq (name_in (object_view object.now) name) (codes "string:") }
{
    object.names[name as usize]
        .as_slice()
        .starts_with(b"string:")
}

/// Whether a global is defined, and a string literal or not as asked.
fn is_placed(object: &Object, global: &ObjGlobal, literal: bool) -> bool
    requires { global.now.symbol < length object.now.names.items }
    ensures { result ≡ (is_defined_global (global_view global.now) && same literal (is_string (object_view object.now) (global_view global.now))) }
{
    global.defined == 1 && is_literal(object, global.symbol) == literal
}

fn add_global<'a>(
    all: &[Vec<u8>],
    home: Home<'a>,
    literals: bool,
    global: &'a ObjGlobal,
    found: &mut Vec<FoundGlobal<'a>>,
) -> Result<(), AllocError>
    requires home { IsHome (map bytes_of all.now) home }
    requires named { global.now.symbol < length home.object.now.names.items }
    ensures { OnOk result (map global_row found.new.items ≡ (if is_defined_global (global_view global.now) && same literals (is_string (object_view home.entry.object.now) (global_view global.now)) then map global_row found.old.items ++ row_of_global (map bytes_of all.now) (home_view home.entry) (global_view global.now) ∷ [] else map global_row found.old.items)) }
{
    if is_placed(home.object, global, literals) {
        let symbol = symbol_in(all, home, global.symbol, global.linkage == 1);
        found.push(FoundGlobal {
            home,
            global,
            symbol,
        })?;
    }
    Ok(())
}

/// The globals that an object defines, those of string literals or the others.
fn add_globals<'a>(
    all: &[Vec<u8>],
    home: Home<'a>,
    literals: bool,
    found: &mut Vec<FoundGlobal<'a>>,
) -> Result<(), AllocError>
    requires { IsHome (map bytes_of all.now) home }
    ensures { OnOk result (map global_row found.new.items ≡ map global_row found.old.items ++ map (row_of_global (map bytes_of all.now) (home_view home.entry)) (filter (λ g. is_defined_global g && same literals (is_string (object_view home.entry.object.now) g)) (object_view home.entry.object.now).globals)) }
{
    for global in &home.object.globals {
        add_global(all, home, literals, global, found)?;
    }
    Ok(())
}

/// The globals of an object: string literals lie behind the others.
fn add_placed<'a>(
    all: &[Vec<u8>],
    home: Home<'a>,
    found: &mut Vec<FoundGlobal<'a>>,
) -> Result<(), AllocError>
    requires { IsHome (map bytes_of all.now) home }
    ensures { OnOk result (map global_row found.new.items ≡ map global_row found.old.items ++ globals_in (map bytes_of all.now) (home_view home.entry)) }
{
    add_globals(all, home, false, found)?;
    add_globals(all, home, true, found)?;
    Ok(())
}

/// The globals that the objects define, in the order in which they lie.
pub fn found_globals<'a>(
    alloc: Global,
    all: &[Vec<u8>],
    homes: &[Home<'a>],
) -> Result<Vec<FoundGlobal<'a>>, AllocError>
    requires { All (IsHome (map bytes_of all.now)) homes.now }
    ensures { IfOk result (λ v. map global_row v.items ≡ flat_map (globals_in (map bytes_of all.now)) (map home_view homes.now)) }
{
    let mut found = Vec::new(alloc);
    for home in homes {
        add_placed(all, *home, &mut found)?;
    }
    Ok(found)
}
