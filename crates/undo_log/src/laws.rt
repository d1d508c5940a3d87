//! What putting notes back comes to. The function does nothing: its clauses are the laws.
ghost use Rattle.std.specs.Prelude.{◌≡◌, ◌++◌, ℕ, List, true, false, [], if◌then◌else◌};
ghost use Rattle.tx_events.specs.Memory.{update};
ghost use Rattle.undo_log.specs.Notes.{first_note, is_noted, put_back, word_back, others, noted_too, HoldsOf};
ghost use Rattle.undo_log.specs.declared.notes.Note.{Note};

/// Putting back the notes since a mark gives the memory at that mark:
/// where each first note has what its word held then, each noted word holds it again, and every other word is as it was;
/// a word that is noted before a store makes the store of no account, and no notes change nothing;
/// notes may be put back in two parts, the newer first, or word by word.
pub fn puts_back()
    ensures noted { (notes : List Note) (before now : ℕ → ℕ) (word : ℕ) → HoldsOf notes before
        → is_noted notes word ≡ true → put_back notes now word ≡ before word }
    ensures untouched { (notes : List Note) (now : ℕ → ℕ) (word : ℕ) → is_noted notes word ≡ false
        → put_back notes now word ≡ now word }
    ensures nothing { (memory : ℕ → ℕ) → put_back [] memory ≡ memory }
    ensures store { (notes : List Note) (memory : ℕ → ℕ) (word value : ℕ)
        → put_back (noted_too notes word (memory word)) (update memory word value) ≡ put_back notes memory }
    ensures parts { (older newer : List Note) (memory : ℕ → ℕ)
        → put_back (older ++ newer) memory ≡ put_back older (put_back newer memory) }
    ensures by_word { (notes : List Note) (memory : ℕ → ℕ) (word : ℕ)
        → put_back (others word notes) (word_back (first_note notes word) word memory) ≡ put_back notes memory }
{}
