//! The names of an object, and its bodies by them.
ghost use Rattle.std.specs.Prelude.{◌≡◌};
ghost use Rattle.clone_gen.specs.Generated.{is_source_name as is_name_of_source};

use crate::lowered::{Bodies, Lowered};
use crate::renaming::Renaming;
use std::alloc::{AllocError, Global};
use tx_code::LONGEST_NAME;

/// The names that are used, in the order of their bytes, and bodies that use them.
#[derive(Drop)]
pub struct Named {
    pub names: Vec<Vec<u8>>,
    pub bodies: Vec<Bodies>,
}

/// Whether an object can name this source.
pub fn is_source_name(source: &[u8]) -> bool
    ensures { result ≡ is_name_of_source source.now }
{
    source.len() > 0 && source.len() <= LONGEST_NAME as usize
}

/// The names of bodies with these names of entries and the name of the source, and the bodies by them.
pub fn name_all(
    alloc: Global,
    lowered: Lowered,
    entries: &[Vec<u8>],
    source: &[u8],
) -> Result<Named, AllocError> {
    let Lowered { bodies, names } = lowered;
    let mut bodies = bodies;
    let mut names = names;
    let mut numbers = Vec::new(alloc);
    for name in entries {
        numbers.push(names.number(alloc, name)?)?;
    }
    if is_source_name(source) {
        numbers.push(names.number(alloc, source)?)?;
    }
    let mut renaming = Renaming::new(alloc, &names)?;
    for number in &numbers {
        renaming.note(*number);
    }
    for found in &bodies {
        renaming.note_body(&found.plain);
        renaming.note_body(&found.safe);
    }
    let kept = renaming.settle(alloc, &names)?;
    for found in bodies.iter_mut() {
        renaming.rename_body(&mut found.plain);
        renaming.rename_body(&mut found.safe);
    }
    Ok(Named {
        names: kept,
        bodies,
    })
}
