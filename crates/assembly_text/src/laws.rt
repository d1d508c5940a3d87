//! Laws of the lines of a text. A function here does nothing: its clause is the law.
ghost use Rattle.std.specs.Prelude.{◌≡◌, List, ℕ};
ghost use Rattle.assembly_text.specs.Lines.{Line};
ghost use Rattle.assembly_text.specs.Front.{LineHere};

/// A text begins with one line at most, and what follows it is one text.
pub fn one_line()
    ensures line { (text : List ℕ) (l m : Line) (rest tail : List ℕ) → LineHere text l rest → LineHere text m tail → l ≡ m }
    ensures rest { (text : List ℕ) (l m : Line) (rest tail : List ℕ) → LineHere text l rest → LineHere text m tail → rest ≡ tail }
{}
