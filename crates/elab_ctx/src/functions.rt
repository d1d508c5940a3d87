// The functions of a unit.

ghost use Rattle.std.specs.Prelude.{ℕ, List, ◌&&◌, ◌≡◌, ◌++◌, ◌∷◌, ◌-◌, [], length, take, true, is_ok, cond, slice_get, option_map, option_copied};
ghost use Rattle.elab_ctx.specs.Places.{places_where, is_member_of, is_free_of, changed_at, places_in, places_called, one_more, one_less};
ghost use Rattle.cpp_tree.specs.declared.program.Linkage.TheVariants.{Inline};

use crate::env::FuncDecl;
use crate::places::{ClassPlaces, NamePlaces};
use cpp_tree::{Linkage, TParam};
use std::alloc::{AllocError, Global};
use std::marker::Model;

/// The functions of a unit, in order of declaration. Those of a class and those of a name are found without going over all.
#[derive(Drop)]
pub struct Functions {
    list: Vec<FuncDecl>,
    by_class: ClassPlaces,
    by_name: NamePlaces,
}

impl Model for Functions {
    ghost use Rattle.std.specs.Prelude.{List};
    ghost use Rattle.elab_ctx.specs.declared.env.FuncDecl.{FuncDecl as FuncRec};
    ghost use Rattle.elab_ctx.specs.contracts.env.FuncDecl as declared;
    ghost use Rattle.std.specs.Coded.{coded_list};

    ghost Value = { List FuncRec };

    ghost coded = { coded_list declared.the_row.coded };

    ghost view = { λ f. f.list.items };

    ghost use Rattle.elab_ctx.specs.Indexed.{IsIndexed};

    ghost invariant = { IsIndexed };
}

// One more place in the table that a function stands in.
fn add_place(
    alloc: Global,
    by_class: &mut ClassPlaces,
    by_name: &mut NamePlaces,
    function: &FuncDecl,
    place: u32,
) -> Result<(), AllocError>
    ensures members { (n : ℕ) → places_in by_class.new n ≡ one_more (is_ok result && is_member_of n function.now) (places_in by_class.old n) place }
    ensures named { (name : List ℕ) → places_called by_name.new name ≡ one_more (is_ok result && is_free_of name function.now) (places_called by_name.old name) place }
{
    match function.class {
        Some(class) => by_class.add(alloc, class, place),
        None => by_name.add(alloc, &function.rec.name, place),
    }
}

// One place less in the table that a function stands in.
fn drop_place(by_class: &mut ClassPlaces, by_name: &mut NamePlaces, function: &FuncDecl)
    ensures members { (n : ℕ) → places_in by_class.new n ≡ one_less (is_member_of n function.now) (places_in by_class.old n) }
    ensures named { (name : List ℕ) → places_called by_name.new name ≡ one_less (is_free_of name function.now) (places_called by_name.old name) }
{
    match function.class {
        Some(class) => by_class.drop_last(class),
        None => by_name.drop_last(&function.rec.name),
    }
}

// The function at a place is defined.
fn define_at(
    list: &mut Vec<FuncDecl>,
    place: usize,
    params: Vec<TParam>,
    text: Vec<u8>,
    closed_at: u32,
)
    ensures { list.new.items ≡ changed_at (λ f. record f { is_defined = true; params = params; text = text; closed_at = closed_at }) place list.old.items }
{
    match list.get_mut(place) {
        Some(found) => {
            found.is_defined = true;
            found.params = params;
            found.text = text;
            found.closed_at = closed_at;
        }
        None => {}
    }
}

// The function at a place is inline.
fn make_inline_at(list: &mut Vec<FuncDecl>, place: usize)
    ensures { list.new.items ≡ changed_at (λ f. record f { linkage = Inline }) place list.old.items }
{
    match list.get_mut(place) {
        Some(found) => {
            found.linkage = Linkage::Inline;
        }
        None => {}
    }
}

impl Functions {
    /// No function, which takes no memory.
    pub fn new(alloc: Global) -> Functions
        ensures { result ≡ [] }
    {
        Functions {
            list: Vec::new(alloc),
            by_class: ClassPlaces::new(alloc),
            by_name: NamePlaces::new(alloc),
        }
    }

    /// How many there are.
    pub fn len(&self) -> usize
        ensures { result ≡ length self.now }
    {
        self.list.len()
    }

    /// All of them.
    pub fn as_slice(&self) -> &[FuncDecl]
        ensures { result.now ≡ self.now }
    {
        self.list.as_slice()
    }

    /// The one at a place.
    pub fn get(&self, place: usize) -> Option<&FuncDecl>
        ensures { option_copied result ≡ slice_get self.now place }
    {
        self.list.get(place)
    }

    /// The places of the functions of a class.
    pub fn of_class(&self, class: u32) -> &[u32]
        ensures { result.now ≡ places_where (is_member_of class) 0 self.now }
    {
        self.by_class.of_class(class)
    }

    /// The places of the functions with a name that are no members.
    pub fn of_name(&self, name: &[u8]) -> &[u32]
        ensures { result.now ≡ places_where (is_free_of name.now) 0 self.now }
    {
        self.by_name.of_name(name)
    }

    /// One more, behind the others.
    pub fn push(&mut self, function: FuncDecl) -> Result<(), AllocError>
        ensures { self.new ≡ cond (is_ok result) (self.old ++ function ∷ []) self.old }
    {
        let Ok(place) = u32::try_from(self.list.len()) else {
            return Err(AllocError);
        };
        let alloc = *self.list.allocator();
        self.list.reserve(1)?;
        add_place(
            alloc,
            &mut self.by_class,
            &mut self.by_name,
            &function,
            place,
        )?;
        let _ = self.list.push(function);
        Ok(())
    }

    // The last one is gone.
    fn drop_last(&mut self)
        ensures { self.new ≡ take (length self.old - 1) self.old }
    {
        if let Some(function) = self.list.pop() {
            drop_place(&mut self.by_class, &mut self.by_name, &function);
        }
    }

    /// Those from a place on are gone.
    pub fn truncate(&mut self, count: usize)
        ensures { self.new ≡ take count self.old }
    {
        let past = self.len().saturating_sub(count);
        for _ in 0..past {
            self.drop_last();
        }
    }

    /// The one at a place is defined, with these parameters, by a text, and up to a byte.
    pub fn define(&mut self, place: usize, params: Vec<TParam>, text: Vec<u8>, closed_at: u32)
        ensures { self.new ≡ changed_at (λ f. record f { is_defined = true; params = params; text = text; closed_at = closed_at }) place self.old }
    {
        define_at(&mut self.list, place, params, text, closed_at);
    }

    /// The one at a place is inline.
    pub fn make_inline(&mut self, place: usize)
        ensures { self.new ≡ changed_at (λ f. record f { linkage = Inline }) place self.old }
    {
        make_inline_at(&mut self.list, place);
    }

    /// All of them, without the tables.
    pub fn into_list(self) -> Vec<FuncDecl>
        ensures { result.items ≡ self }
    {
        self.list
    }
}
