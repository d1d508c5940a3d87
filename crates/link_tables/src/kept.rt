//! Which definitions are kept, and the numbers that they have.
ghost use Rattle.std.specs.Prelude.{◌≡◌, ◌<◌, ◌≤◌, ◌+◌, ◌^◌, ◌++◌, ◌∷◌, [], map, length, if◌then◌else◌, IfOk, OnOk};
ghost use Rattle.std.specs.List.{All};
ghost use Rattle.tx_code.specs.Linked.{end_of, rounded};
ghost use Rattle.link_tables.specs.Found.{class_row, class_symbol_of, func_row, func_symbol_of, global_of_row, global_row, kept_class_rows, kept_rows, numbered, placed};
ghost use Rattle.tx_events.specs.declared.TheConstants.{GLOBALS_LIMIT};

use crate::found::{FoundClass, FoundFunc, FoundGlobal};
use crate::places::{is_new, no_marks};
use crate::symbols::Numbered;
use std::alloc::{AllocError, Global};

fn keep_func<'a>(
    kept: &mut Vec<FoundFunc<'a>>,
    func: FoundFunc<'a>,
    new: bool,
) -> Result<(), AllocError>
    ensures { OnOk result (map func_row kept.new.items ≡ (if new then map func_row kept.old.items ++ func_row func.entry ∷ [] else map func_row kept.old.items)) }
{
    if new {
        kept.push(func)?;
    }
    Ok(())
}

fn keep_class<'a>(
    kept: &mut Vec<FoundClass<'a>>,
    class: FoundClass<'a>,
    new: bool,
) -> Result<(), AllocError>
    ensures { OnOk result (map class_row kept.new.items ≡ (if new then map class_row kept.old.items ++ class_row class.entry ∷ [] else map class_row kept.old.items)) }
{
    if new {
        kept.push(class)?;
    }
    Ok(())
}

/// The functions that are kept: of each symbol that other objects see the first (C++14 3.2), and all internal ones.
pub fn kept_funcs<'a>(
    alloc: Global,
    names: usize,
    found: &[FoundFunc<'a>],
) -> Result<Vec<FoundFunc<'a>>, AllocError>
    requires { All (λ f. f.symbol.rank < names) found.now }
    ensures { IfOk result (λ v. map func_row v.items ≡ kept_rows [] (map func_row found.now)) }
{
    let mut seen = no_marks(alloc, names)?;
    let mut kept = Vec::new(alloc);
    for func in found {
        let new = is_new(&mut seen, func.symbol);
        keep_func(&mut kept, *func, new)?;
    }
    Ok(kept)
}

/// The classes that are kept: of each name the first.
pub fn kept_classes<'a>(
    alloc: Global,
    names: usize,
    found: &[FoundClass<'a>],
) -> Result<Vec<FoundClass<'a>>, AllocError>
    requires { All (λ c. c.symbol.rank < names) found.now }
    ensures { IfOk result (λ v. map class_row v.items ≡ kept_class_rows [] (map class_row found.now)) }
{
    let mut seen = no_marks(alloc, names)?;
    let mut kept = Vec::new(alloc);
    for class in found {
        let new = is_new(&mut seen, class.symbol);
        keep_class(&mut kept, *class, new)?;
    }
    Ok(kept)
}

/// The kept functions with their numbers.
pub fn numbered_funcs(alloc: Global, kept: &[FoundFunc<'_>]) -> Result<Vec<Numbered>, AllocError>
    requires { length kept.now < 2 ^ 32 }
    ensures { IfOk result (λ v. v.items ≡ numbered 0 (map func_symbol_of (map func_row kept.now))) }
{
    let mut defs = Vec::new(alloc);
    for func in kept {
        let number = defs.len() as u32;
        defs.push(Numbered {
            symbol: func.symbol,
            number,
        })?;
    }
    Ok(defs)
}

/// The kept classes with their numbers.
pub fn numbered_classes(alloc: Global, kept: &[FoundClass<'_>]) -> Result<Vec<Numbered>, AllocError>
    requires { length kept.now < 2 ^ 32 }
    ensures { IfOk result (λ v. v.items ≡ numbered 0 (map class_symbol_of (map class_row kept.now))) }
{
    let mut defs = Vec::new(alloc);
    for class in kept {
        let number = defs.len() as u32;
        defs.push(Numbered {
            symbol: class.symbol,
            number,
        })?;
    }
    Ok(defs)
}

/// The globals with their offsets: each lies at the next multiple of 8.
pub fn placed_globals(alloc: Global, found: &[FoundGlobal<'_>]) -> Result<Vec<Numbered>, AllocError>
    requires { end_of 0 (map global_of_row (map global_row found.now)) ≤ GLOBALS_LIMIT }
    ensures { IfOk result (λ v. v.items ≡ placed 0 (map global_row found.now)) }
{
    let mut defs = Vec::new(alloc);
    let mut number = 0;
    for global in found {
        defs.push(Numbered {
            symbol: global.symbol,
            number,
        })?;
        number = end_behind(number, global.global.size);
    }
    Ok(defs)
}

/// Where a global of this size ends that begins here: at a multiple of 8.
pub fn end_behind(start: u32, size: u32) -> u32
    requires { start + rounded size ≤ GLOBALS_LIMIT }
    ensures { result ≡ start + rounded size }
{
    start + (size + 7) / 8 * 8
}
