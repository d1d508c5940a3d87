//! Laws of expressions that throw. A function here does nothing: its clauses are the laws.

ghost use Rattle.elab_throws_apart.specs.Throws.{ApartIsNoThrow, ExpressionsAreApart, ChosenAreApart, OperandsAreApart};
ghost use Rattle.elab_throws_apart.specs.Throws.{TextsThrowApart, InitialisersApart};

/// Expressions and operands.
pub fn expressions()
    ensures apart { ApartIsNoThrow }
    ensures expressions { ExpressionsAreApart }
    ensures chosen { ChosenAreApart }
    ensures operands { OperandsAreApart }
{}

/// What statements read.
pub fn texts()
    ensures texts { TextsThrowApart }
{}

/// What initialises an object.
pub fn initialisers()
    ensures initialisers { InitialisersApart }
{}
