//! Laws of the states of elaboration inside of a function. A function here does nothing: its clauses are the laws.

ghost use Rattle.elab_fits_states.specs.Bodies.{BodiesFit};
ghost use Rattle.elab_fits_states.specs.Lambdas.{NoLambdasKeep, LambdasKeep};
ghost use Rattle.elab_fits_states.specs.Made.{BodiesStay};

/// Statements of the body of a function fit.
pub fn bodies()
    ensures bodies { BodiesFit }
    ensures stay { BodiesStay }
{}

/// What makes the lambdas of an expression leads to good states.
pub fn lambdas()
    ensures none { NoLambdasKeep }
    ensures all { LambdasKeep }
{}
