//! The objects with the places of their names among all names.
ghost use Rattle.std.specs.Prelude.{◌≡◌, ◌<◌, ◌+◌, ◌^◌, ◌++◌, map, length, nat_eq, IfOk, OnOk};
ghost use Rattle.std.specs.List.{All, flat_map};
ghost use Rattle.tx_code.specs.Objects.{bytes_of, object_view};
ghost use Rattle.tx_code.specs.WellFormed.{IsObject};
ghost use Rattle.link_faults.specs.Ranks.{AreNames, Known, names_of, rank_of};
ghost use Rattle.link_tables.specs.Homes.{IsHome, home_view, homes, names_at, symbol_of};

use crate::symbols::Symbol;
use link_faults::{name_rank, rank};
use std::alloc::{AllocError, Global};
use tx_code::Object;

/// An object among all that are linked.
#[derive(Clone, Copy)]
pub struct Home<'a> {
    /// Its position among the objects.
    pub at: usize,
    /// How many names the objects before it have.
    pub start: u32,
    pub object: &'a Object,
}

/// The objects in their order.
pub fn homes_of<'a>(alloc: Global, objects: &'a [Object]) -> Result<Vec<Home<'a>>, AllocError>
    requires names { length (flat_map names_of (map object_view objects.now)) < 4294967295 }
    ensures { IfOk result (λ v. map home_view v.items ≡ homes 0 0 (map object_view objects.now)) }
{
    let mut found = Vec::new(alloc);
    let mut start = 0;
    for object in objects {
        let at = found.len();
        found.push(Home { at, start, object })?;
        start += object.names.len() as u32;
    }
    Ok(found)
}

/// The symbol of a name of an object.
pub(crate) fn symbol_in(all: &[Vec<u8>], at: Home<'_>, name: u32, internal: bool) -> Symbol
    requires home { IsHome (map bytes_of all.now) at }
    requires named { name < length at.object.now.names.items }
    ensures { result ≡ symbol_of (map bytes_of all.now) (home_view at.entry) name internal }
{
    Symbol {
        place: at.start + name,
        rank: name_rank(all, at.object, name),
        internal,
    }
}

fn add_ranks(all: &[Vec<u8>], at: Home<'_>, ranks: &mut Vec<u32>) -> Result<(), AllocError>
    requires { IsHome (map bytes_of all.now) at }
    ensures { OnOk result (ranks.new.items ≡ ranks.old.items ++ map (rank_of (map bytes_of all.now)) (map bytes_of at.entry.object.now.names.items)) }
{
    for name in &at.object.names {
        ranks.push(rank(all, name))?;
    }
    Ok(())
}

/// The rank of the name at each place.
pub fn ranks_of(alloc: Global, all: &[Vec<u8>], found: &[Home<'_>]) -> Result<Vec<u32>, AllocError>
    requires { All (IsHome (map bytes_of all.now)) found.now }
    ensures { IfOk result (λ v. v.items ≡ map (rank_of (map bytes_of all.now)) (flat_map names_at (map home_view found.now))) }
{
    let mut ranks = Vec::new(alloc);
    for at in found {
        add_ranks(all, *at, &mut ranks)?;
    }
    Ok(ranks)
}
