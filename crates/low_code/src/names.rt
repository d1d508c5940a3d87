//! Names and their numbers.

ghost use Rattle.std.specs.Prelude.{◌≡◌, ◌↔◌, ◌<◌, [], length, slice_get, option_copied, Some, IfOk, IfSome, OnOk, OnErr, IsSome};
ghost use Rattle.low_code.specs.Names.{number_of, with_name};

use indexmap::IndexSet;
use std::alloc::{AllocError, Global};
use std::marker::Model;

/// Names, each once. A name has as its number how many others came before it.
#[derive(Drop)]
pub struct NameTable {
    names: IndexSet<Vec<u8>>,
}

impl Model for NameTable {
    ghost use Rattle.std.specs.Prelude.{List, ℕ, map};

    ghost Value = { List (List ℕ) };

    ghost view = { λ table. map (λ name. name.items) table.names.keys };
}

impl NameTable {
    /// A table without names.
    pub fn new(alloc: Global) -> NameTable
        ensures { result ≡ [] }
    {
        NameTable {
            names: IndexSet::new(alloc),
        }
    }

    /// How many names there are.
    pub fn count(&self) -> usize
        ensures { result ≡ length self.now }
    {
        self.names.len()
    }

    /// The name with this number.
    pub fn name(&self, number: u32) -> Option<&Vec<u8>>
        ensures found { IsSome result ↔ (number < length self.now) }
        ensures name { IfSome result (λ name. slice_get self.now number ≡ Some name.now.items) }
    {
        self.names.get_index(number as usize)
    }

    /// The number of a name, which is added where it is new. More than there are numbers for count as want of memory.
    pub fn number(&mut self, alloc: Global, name: &[u8]) -> Result<u32, AllocError>
        ensures number { IfOk result (λ number. number ≡ number_of name.now self.old) }
        ensures names { OnOk result (self.new ≡ with_name name.now self.old) }
    {
        match self.names.get_index_of(name) {
            Some(place) => numbered(place),
            None => {
                let number = numbered(self.names.len())?;
                self.names.insert(Vec::from_slice(alloc, name)?)?;
                Ok(number)
            }
        }
    }

    /// The numbers of the names, in the order of their bytes.
    pub fn order(&self, alloc: Global) -> Result<Vec<u32>, AllocError> {
        let mut named = Vec::new(alloc);
        for (place, name) in self.names.iter().enumerate() {
            named.push((Vec::from_slice(alloc, name)?, numbered(place)?))?;
        }
        named.sort()?;
        let mut order = Vec::new(alloc);
        for (_, number) in &named {
            order.push(*number)?;
        }
        Ok(order)
    }
}

// A place as a number.
fn numbered(place: usize) -> Result<u32, AllocError>
    ensures { IfOk result (λ number. number ≡ place) }
{
    match u32::try_from(place) {
        Ok(number) => Ok(number),
        Err(_) => Err(AllocError),
    }
}
