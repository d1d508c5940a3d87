//! Worked runs of threads that are lists of events.
ghost use Rattle.std.specs.Prelude.{◌≡◌, [], ◌∷◌};
ghost use Rattle.tx_events.specs.declared.TurnKind.TheVariants.{Ran, Waited, Rolled, Undone, Released};
ghost use Rattle.tx_serial.specs.Examples.{crossed, cancelled, inner_cancelled, outer_cancelled};

/// Two blocks that store to two words in crossed order, under the policy `older`: the younger one gives up, and when it
/// is tried again, with the birth that it has, both words hold what it stores.
pub fn crossed_words()
    ensures { crossed ≡ record {
      kinds = Ran ∷ Ran ∷ Ran ∷ Ran ∷ Ran ∷ Waited 65544 1 ∷ Rolled 65536 0 ∷ Undone 65544 ∷ Ran ∷ Ran ∷ Released 65536 ∷ Released 65544 ∷ Ran ∷ Ran ∷ Ran ∷ [];
      order = 0 ∷ 0 ∷ 1 ∷ [];
      births = 2;
      first_word = 4;
      second_word = 3;
    } }
{}

/// A block that cancels puts its words back one by one, and then lets them go one by one.
pub fn cancel_word_by_word()
    ensures { cancelled ≡ record {
      kinds = Ran ∷ Ran ∷ Ran ∷ Undone 65536 ∷ Undone 65544 ∷ Ran ∷ Released 65536 ∷ Released 65544 ∷ [];
      order = 0 ∷ [];
      births = 1;
      first_word = 0;
      second_word = 0;
    } }
{}

/// An inner block that cancels puts back what it stored, and no more: the word holds what the outer block stored before.
pub fn inner_cancel()
    ensures { inner_cancelled ≡ record {
      kinds = Ran ∷ Ran ∷ Ran ∷ Ran ∷ Undone 65536 ∷ Ran ∷ Ran ∷ Released 65536 ∷ [];
      order = 0 ∷ [];
      births = 1;
      first_word = 1;
      second_word = 0;
    } }
{}

/// An outer block that cancels puts back what an inner block stored that committed.
pub fn outer_cancel()
    ensures { outer_cancelled ≡ record {
      kinds = Ran ∷ Ran ∷ Ran ∷ Ran ∷ Undone 65536 ∷ Ran ∷ Released 65536 ∷ [];
      order = 0 ∷ [];
      births = 1;
      first_word = 0;
      second_word = 0;
    } }
{}
