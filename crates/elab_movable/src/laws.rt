//! Laws of trees that can be moved. A function here does nothing: its clauses are the laws.

ghost use Rattle.elab_movable.specs.Movable.{ExpressionsMove, LambdasKeepThis, CopiesMove, StringsMove};

/// Expressions in a function that has only `this`.
pub fn expressions()
    ensures expressions { ExpressionsMove }
{}

/// Initialisers of members.
pub fn values()
    ensures lambdas { LambdasKeepThis }
    ensures copies { CopiesMove }
    ensures strings { StringsMove }
{}
