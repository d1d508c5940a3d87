//! What the objects say of symbols.
ghost use Rattle.std.specs.Prelude.{◌≡◌, ◌<◌, ◌≤◌, ◌++◌, true, map, length, IfOk, OnOk};
ghost use Rattle.std.specs.List.{All, flat_map};
ghost use Rattle.std.specs.Option.{option_map};
ghost use Rattle.std.specs.Str.{bytes_eq};
ghost use Rattle.tx_code.specs.Objects.{bytes_of, object_view, func_view, global_view};
ghost use Rattle.tx_code.specs.WellFormed.{func_fits, global_fits};
ghost use Rattle.tx_code.specs.Linked.{name_in};
ghost use Rattle.link_faults.specs.Faults.{func_entry, global_entry, funcs_of, globals_of, func_entries, global_entries, text_in, names_main};
ghost use Rattle.link_faults.specs.Ranks.{rank_of, Known};
ghost use Rattle.link_faults.specs.Ranked.{ranked};

use crate::names::rank;
use std::alloc::{AllocError, Global};
use tx_code::{ObjFunc, ObjGlobal, Object};

/// What an object says of a symbol. Names are their ranks.
#[derive(Clone, Copy)]
pub(crate) struct RankedEntry {
    pub symbol: u32,
    pub ty: u32,
    pub linkage: u8,
    pub defined: bool,
    /// Of an inline definition.
    pub text: Option<u32>,
    pub wanted_safe: bool,
    pub safe: bool,
    /// An external definition of `int main()`.
    pub main: bool,
}

pub fn name_rank(all: &[Vec<u8>], object: &Object, name: u32) -> u32
    requires known { Known (map bytes_of all.now) (object_view object.now) }
    requires named { name < length object.now.names.items }
    ensures { result ≡ rank_of (map bytes_of all.now) (name_in (object_view object.now) name) }
{
    rank(all, &object.names[name as usize])
}

/// The rank of a name that may be there: its number plus 1, or 0.
pub(crate) fn optional_rank(all: &[Vec<u8>], object: &Object, name: u32) -> Option<u32>
    requires known { Known (map bytes_of all.now) (object_view object.now) }
    requires named { name ≤ length object.now.names.items }
    ensures { result ≡ option_map (rank_of (map bytes_of all.now)) (text_in (object_view object.now) name) }
{
    if name == 0 {
        return None;
    }
    Some(name_rank(all, object, name - 1))
}

fn is_name(name: &Vec<u8>, text: &[u8]) -> bool
    ensures { result ≡ bytes_eq name.now.items text.now }
{
    name.as_slice() == text
}

/// Whether these are the names of `int main()`.
fn is_main(object: &Object, symbol: u32, ty: u32) -> bool
    requires symbol { symbol < length object.now.names.items }
    requires ty { ty < length object.now.names.items }
    ensures { result ≡ names_main (name_in (object_view object.now) symbol) (name_in (object_view object.now) ty) }
{
    is_name(&object.names[symbol as usize], b"main()")
        && is_name(&object.names[ty as usize], b"int()")
}

fn ranked_func(all: &[Vec<u8>], object: &Object, func: &ObjFunc) -> RankedEntry
    requires known { Known (map bytes_of all.now) (object_view object.now) }
    requires fits { func_fits object.now.version (length object.now.names.items) (func_view func.now) ≡ true }
    ensures { result ≡ ranked (map bytes_of all.now) (func_entry (object_view object.now) (func_view func.now)) }
{
    RankedEntry {
        symbol: name_rank(all, object, func.symbol),
        ty: name_rank(all, object, func.ty),
        linkage: func.linkage,
        defined: func.flags % 2 == 1,
        text: optional_rank(all, object, func.text),
        wanted_safe: func.flags / 4 % 2 == 1,
        safe: func.flags / 2 % 2 == 1,
        main: func.flags % 2 == 1 && func.linkage == 0 && is_main(object, func.symbol, func.ty),
    }
}

fn ranked_global(all: &[Vec<u8>], object: &Object, global: &ObjGlobal) -> RankedEntry
    requires known { Known (map bytes_of all.now) (object_view object.now) }
    requires fits { global_fits (length object.now.names.items) (global_view global.now) ≡ true }
    ensures { result ≡ ranked (map bytes_of all.now) (global_entry (object_view object.now) (global_view global.now)) }
{
    RankedEntry {
        symbol: name_rank(all, object, global.symbol),
        ty: name_rank(all, object, global.ty),
        linkage: global.linkage,
        defined: global.defined == 1,
        text: None,
        wanted_safe: false,
        safe: false,
        main: global.defined == 1
            && global.linkage == 0
            && is_main(object, global.symbol, global.ty),
    }
}

fn add_funcs(
    all: &[Vec<u8>],
    object: &Object,
    entries: &mut Vec<RankedEntry>,
) -> Result<(), AllocError>
    requires known { Known (map bytes_of all.now) (object_view object.now) }
    ensures { OnOk result (entries.new.items ≡ entries.old.items ++ map (ranked (map bytes_of all.now)) (funcs_of (object_view object.now))) }
{
    for func in &object.funcs {
        entries.push(ranked_func(all, object, func))?;
    }
    Ok(())
}

fn add_globals(
    all: &[Vec<u8>],
    object: &Object,
    entries: &mut Vec<RankedEntry>,
) -> Result<(), AllocError>
    requires known { Known (map bytes_of all.now) (object_view object.now) }
    ensures { OnOk result (entries.new.items ≡ entries.old.items ++ map (ranked (map bytes_of all.now)) (globals_of (object_view object.now))) }
{
    for global in &object.globals {
        entries.push(ranked_global(all, object, global))?;
    }
    Ok(())
}

/// The functions of all objects.
pub(crate) fn ranked_funcs(
    alloc: Global,
    all: &[Vec<u8>],
    objects: &[Object],
) -> Result<Vec<RankedEntry>, AllocError>
    requires known { All (λ o. Known (map bytes_of all.now) (object_view o)) objects.now }
    ensures { IfOk result (λ v. v.items ≡ map (ranked (map bytes_of all.now)) (func_entries (map object_view objects.now))) }
{
    let mut entries = Vec::new(alloc);
    for object in objects {
        add_funcs(all, object, &mut entries)?;
    }
    Ok(entries)
}

/// The globals of all objects.
pub(crate) fn ranked_globals(
    alloc: Global,
    all: &[Vec<u8>],
    objects: &[Object],
) -> Result<Vec<RankedEntry>, AllocError>
    requires known { All (λ o. Known (map bytes_of all.now) (object_view o)) objects.now }
    ensures { IfOk result (λ v. v.items ≡ map (ranked (map bytes_of all.now)) (global_entries (map object_view objects.now))) }
{
    let mut entries = Vec::new(alloc);
    for object in objects {
        add_globals(all, object, &mut entries)?;
    }
    Ok(entries)
}
