//! Laws of states whose items are whole. A function here does nothing: its clauses are the laws.

ghost use Rattle.elab_whole_states.specs.States.{StaysWhole};

/// Without initialisers and lambdas, places of statements leave whole items whole.
pub fn places()
    ensures places { StaysWhole }
{}
