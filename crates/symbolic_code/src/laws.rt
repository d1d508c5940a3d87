//! What symbolic instructions show of real ones. A function here does nothing: its clauses are the laws.

ghost use Rattle.std.specs.Prelude.{◌≡◌, ℕ, true, List};
ghost use Rattle.tx_code.specs.declared.instr.Instr.{Instr};
ghost use Rattle.tx_code.specs.Meaning as code;
ghost use Rattle.tx_code.specs.Renaming.{Numbering, renamed};
ghost use Rattle.cpp_tree.specs.cpp_types.Typ.{Typ};
ghost use Rattle.src_mean.specs.Linked.{Func, Program};
ghost use Rattle.src_mean.specs.Frames as frames;
ghost use Rattle.symbolic_source.specs.Terms.{Term, Values};
ghost use Rattle.symbolic_source.specs.Outcomes.{Outcome, Shows};
ghost use Rattle.symbolic_source.specs.Small.{IsSmall, AreWords};
ghost use Rattle.symbolic_code.specs.Same.{same_term};
ghost use Rattle.symbolic_code.specs.Facts.{Fact, AllHold};
ghost use Rattle.symbolic_code.specs.Places.{Place, frame_at};
ghost use Rattle.symbolic_code.specs.Following.{Table, followed, Follows, AreNames};

/// Terms that are found to be the same are.
pub fn same_terms()
    ensures { (a b : Term) → same_term a b ≡ true → a ≡ b }
{}

/// An instruction does what is foreseen, in a frame that stands at a place, where the source is in a state that is
/// foreseen, whatever the words are of which the facts hold.
pub fn instructions_are_followed()
    ensures { (p : Program) (f : Func) (numbers : Typ → ℕ) (x : Values) (home : code.Home) (rest : List frames.Frame) (below : List code.Frame) →
        IsSmall p → AreWords x → home.base ≡ x.base →
        (names : code.Names) (numbering : Numbering) (t : Table) → AreNames p f numbers names numbering t →
        (ks : List Fact) (i : ℕ) (a : Instr) (q : Place) (o : Outcome) (s : frames.State) → AllHold p f x ks → Shows p f x rest o s →
        Follows p f numbers x home rest below (followed t ks i a q o)
        (code.act names (renamed numbering a) (frame_at p f numbers x home i q) below) s }
{}
