//! All names of the objects in ascending order: a name's rank is its position there.
ghost use Rattle.std.specs.Prelude.{◌≡◌, ◌<◌, ◌≤◌, ◌^◌, ◌++◌, ◌∷◌, [], true, map, length, IfOk, OnOk};
ghost use Rattle.std.specs.List.{flat_map};
ghost use Rattle.tx_code.specs.Objects.{bytes_of, object_view};
ghost use Rattle.tx_code.specs.WellFormed.{ascends, bytes_lt};
ghost use Rattle.link_faults.specs.Ranks.{AreNames, is_listed, names_of, rank_of};

use std::alloc::{AllocError, Global};
use tx_code::Object;

fn push_name(alloc: Global, names: &mut Vec<Vec<u8>>, name: &Vec<u8>) -> Result<(), AllocError>
    ensures { OnOk result (map bytes_of names.new.items ≡ map bytes_of names.old.items ++ name.now.items ∷ []) }
{
    let copy = Vec::from_slice(alloc, name.as_slice())?;
    Ok(names.push(copy)?)
}

fn add_names(alloc: Global, names: &mut Vec<Vec<u8>>, object: &Object) -> Result<(), AllocError>
    ensures { OnOk result (map bytes_of names.new.items ≡ map bytes_of names.old.items ++ names_of (object_view object.now)) }
{
    for name in &object.names {
        push_name(alloc, names, name)?;
    }
    Ok(())
}

/// Copies of the names of all objects.
fn copies(alloc: Global, objects: &[Object]) -> Result<Vec<Vec<u8>>, AllocError>
    ensures { IfOk result (λ v. map bytes_of v.items ≡ flat_map names_of (map object_view objects.now)) }
{
    let mut names = Vec::new(alloc);
    for object in objects {
        add_names(alloc, &mut names, object)?;
    }
    Ok(names)
}

/// The names of all objects in ascending order, each once.
pub fn all_names(alloc: Global, objects: &[Object]) -> Result<Vec<Vec<u8>>, AllocError>
    ensures { IfOk result (λ v. AreNames (map object_view objects.now) (map bytes_of v.items)) }
{
    let mut names = copies(alloc, objects)?;
    names.sort_unstable();
    names.dedup();
    Ok(names)
}

/// The position of a name among all names.
pub fn rank(all: &[Vec<u8>], name: &Vec<u8>) -> u32
    requires ascend { ascends bytes_lt (map bytes_of all.now) ≡ true }
    requires few { length all.now < 2 ^ 32 }
    requires listed { is_listed (map bytes_of all.now) name.now.items ≡ true }
    ensures { result ≡ rank_of (map bytes_of all.now) name.now.items }
{
    match all.binary_search(name) {
        Ok(i) => i as u32,
        Err(i) => i as u32,
    }
}
