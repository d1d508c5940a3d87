// The places of functions in the list of a unit's functions, by their class and by their name.

ghost use Rattle.std.specs.Prelude.{◌≡◌, ◌==◌, ℕ, List, OnOk, [], is_ok, false, ◌&&◌};
ghost use Rattle.std.specs.Str.{bytes_eq};
ghost use Rattle.elab_ctx.specs.Places.{places_in, places_called, is_listed, one_more, one_less};

use indexmap::IndexMap;
use std::alloc::{AllocError, Global};

/// For each class the places of its functions.
#[derive(Drop)]
pub struct ClassPlaces {
    lists: Vec<Vec<u32>>,
}

impl ClassPlaces {
    /// No places, which take no memory.
    pub fn new(alloc: Global) -> ClassPlaces
        ensures { (n : ℕ) → places_in result n ≡ [] }
    {
        ClassPlaces {
            lists: Vec::new(alloc),
        }
    }

    /// The places of a class.
    pub fn of_class(&self, class: u32) -> &[u32]
        ensures { result.now ≡ places_in self.now class }
    {
        match self.lists.get(class as usize) {
            Some(list) => list.as_slice(),
            None => &[],
        }
    }

    // A list for one more class.
    fn add_list(&mut self, alloc: Global) -> Result<(), AllocError>
        ensures { (n : ℕ) → places_in self.new n ≡ places_in self.old n }
    {
        self.lists.push(Vec::new(alloc))?;
        Ok(())
    }

    // Lists for all classes up to one.
    fn reach(&mut self, alloc: Global, class: u32) -> Result<(), AllocError>
        ensures { (n : ℕ) → places_in self.new n ≡ places_in self.old n }
    {
        let wanted = class as usize + 1;
        for _ in self.lists.len()..wanted {
            self.add_list(alloc)?;
        }
        Ok(())
    }

    // One more place of a class that has a list.
    fn put(&mut self, class: u32, place: u32) -> Result<(), AllocError>
        ensures { (n : ℕ) → places_in self.new n ≡ one_more (is_ok result && class == n) (places_in self.old n) place }
    {
        match self.lists.get_mut(class as usize) {
            Some(list) => {
                list.push(place)?;
                Ok(())
            }
            None => Err(AllocError),
        }
    }

    /// One more place of a class, behind those that it has.
    pub fn add(&mut self, alloc: Global, class: u32, place: u32) -> Result<(), AllocError>
        ensures { (n : ℕ) → places_in self.new n ≡ one_more (is_ok result && class == n) (places_in self.old n) place }
    {
        self.reach(alloc, class)?;
        self.put(class, place)
    }

    /// The last place of a class is gone.
    pub fn drop_last(&mut self, class: u32)
        ensures { (n : ℕ) → places_in self.new n ≡ one_less (class == n) (places_in self.old n) }
    {
        match self.lists.get_mut(class as usize) {
            Some(list) => {
                let _last = list.pop();
            }
            None => {}
        }
    }
}

/// For each name the places of the functions of that name that are no members.
#[derive(Drop)]
pub struct NamePlaces {
    lists: IndexMap<Vec<u8>, Vec<u32>>,
}

impl NamePlaces {
    /// No places, which take no memory.
    pub fn new(alloc: Global) -> NamePlaces
        ensures { (name : List ℕ) → places_called result name ≡ [] }
    {
        NamePlaces {
            lists: IndexMap::new(alloc),
        }
    }

    /// The places of a name.
    pub fn of_name(&self, name: &[u8]) -> &[u32]
        ensures { result.now ≡ places_called self.now name.now }
    {
        match self.lists.get(name) {
            Some(list) => list.as_slice(),
            None => &[],
        }
    }

    // Whether a name has a list.
    fn has_list(&self, name: &[u8]) -> bool
        ensures { result ≡ is_listed self.now name.now }
    {
        self.lists.get(name).is_some()
    }

    // The first place of a name that has no list.
    fn add_list(&mut self, alloc: Global, name: &[u8], place: u32) -> Result<(), AllocError>
        requires { is_listed self.old name.now ≡ false }
        ensures { (other : List ℕ) → places_called self.new other ≡ one_more (is_ok result && bytes_eq other name.now) (places_called self.old other) place }
    {
        let mut list = Vec::new(alloc);
        list.push(place)?;
        let key = Vec::from_slice(alloc, name)?;
        let _before = self.lists.insert(key, list)?;
        Ok(())
    }

    // One more place of a name that has a list.
    fn put(&mut self, name: &[u8], place: u32) -> Result<(), AllocError>
        ensures { (other : List ℕ) → places_called self.new other ≡ one_more (is_ok result && bytes_eq other name.now) (places_called self.old other) place }
    {
        match self.lists.get_mut(name) {
            Some(list) => {
                list.push(place)?;
                Ok(())
            }
            None => Err(AllocError),
        }
    }

    /// One more place of a name, behind those that it has.
    pub fn add(&mut self, alloc: Global, name: &[u8], place: u32) -> Result<(), AllocError>
        ensures { (other : List ℕ) → places_called self.new other ≡ one_more (is_ok result && bytes_eq other name.now) (places_called self.old other) place }
    {
        if self.has_list(name) {
            self.put(name, place)
        } else {
            self.add_list(alloc, name, place)
        }
    }

    /// The last place of a name is gone.
    pub fn drop_last(&mut self, name: &[u8])
        ensures { (other : List ℕ) → places_called self.new other ≡ one_less (bytes_eq other name.now) (places_called self.old other) }
    {
        match self.lists.get_mut(name) {
            Some(list) => {
                let _last = list.pop();
            }
            None => {}
        }
    }
}
