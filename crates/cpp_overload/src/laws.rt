//! Facts for whoever says what a call means. A function here does nothing: its clauses are the laws.

ghost use Rattle.cpp_overload.specs.Choosing.{ChosenIsMeant};

/// What a call means is the candidate that is found by computation, and none where none is found.
pub fn choosing()
    ensures { ChosenIsMeant }
{}
