//! Accesses of a trace that nothing orders.
//!
//! The definition stands in `specs/Races`: conflicting accesses, the steps of order, chains of them, and the words of a
//! trace's races. `races` finds them, for a trace that `is_regular`. The functions of this file do nothing: the clause of
//! each is a law.
#![tactic(auto)]

mod blocks;
mod clocks;
mod found;
mod items;
mod marks;
mod pieces;
mod regular;
mod rows;
mod tables;
mod words;

ghost use Rattle.std.specs.Prelude.{◌≡◌, ℕ, Bool, true, List, [], ◌∷◌, Some, slice_get};
ghost use Rattle.tx_events.specs.declared.Item.{Item};
ghost use Rattle.race_check.specs.Races.{Leads, Ordered, Races};
ghost use Rattle.race_check.specs.Examples.{two_counters};

pub use found::races;
pub use regular::is_regular;

/// A trace has at most one list of races.
pub fn one_list()
    ensures { (items : List Item) (words others : List ℕ) → Races items words → Races items others → others ≡ words }
{}

/// Where a set of items is closed under the steps of order, no chain leads out of it. So two items are shown unordered.
pub fn chains_stay_inside()
    ensures { (items : List Item) (inside : ℕ → Bool) → ((i j : ℕ) → Leads items i j → inside i ≡ true → inside j ≡ true) →
        (i j : ℕ) → Ordered items i j → inside i ≡ true → inside j ≡ true }
{}

/// A trace of one thread has no races, nor has one without items.
pub fn one_thread_has_no_races()
    ensures { (items : List Item) (t : ℕ) → ((i : ℕ) (a : Item) → slice_get items i ≡ Some a → a.t ≡ t) → Races items [] }
{}

/// Two threads that count up one global race on its word, and on no other.
pub fn two_counters_race()
    ensures { Races two_counters (65536 ∷ []) }
{}
