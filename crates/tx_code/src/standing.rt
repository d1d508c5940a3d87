//! Laws of threads of sound images. A function here does nothing: its clauses are the laws.
ghost use Rattle.std.specs.Prelude.{◌≡◌};
ghost use Rattle.tx_events.specs.Thread.{Lawful};
ghost use Rattle.tx_events.specs.Same.{Descends};
ghost use Rattle.tx_code.specs.Images.{IsImage, ImageView};
ghost use Rattle.tx_code.specs.Meaning.{State, thread};
ghost use Rattle.tx_code.specs.Program.{first_state, names_of};
ghost use Rattle.tx_code.specs.Sound.{Sound};
ghost use Rattle.tx_code.specs.InShape.{InShape, IsLost};

/// A thread of a sound image keeps the laws of threads: which events come where which blocks are open, and what they do
/// to these.
pub fn threads_are_lawful()
    ensures laws { (i : ImageView) → Sound i → Lawful State (InShape i) (thread (names_of i)) }
    ensures starts { (i : ImageView) → IsImage i → Sound i → InShape i (first_state i) }
{}

/// Code of a sound image never meets a missing operand, an index outside its body or an absent row.
pub fn sound_code_is_never_lost()
    ensures here { (i : ImageView) → Sound i → (s : State) → InShape i s → IsLost i s → ⊥ }
    ensures ever { (i : ImageView) → IsImage i → Sound i → (s : State) →
        Descends (thread (names_of i)) (first_state i) s → IsLost i s → ⊥ }
{}
