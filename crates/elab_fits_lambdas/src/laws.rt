//! Laws of the lambdas of a full-expression. A function here does nothing: its clauses are the laws.

ghost use Rattle.elab_fits_lambdas.specs.Captured.{ExplicitAreCaptures, DefaultsAreCaptures};
ghost use Rattle.elab_fits_lambdas.specs.Lambdas.{BodiesBegin, LambdasAreGood};
ghost use Rattle.elab_fits_lambdas.specs.Made.{AllAtHand, LambdasAreMade, OneAtHand};

/// What a lambda captures is at hand.
pub fn captured()
    ensures explicit { ExplicitAreCaptures }
    ensures defaults { DefaultsAreCaptures }
{}

/// A lambda that is made is at hand.
pub fn made()
    ensures made { LambdasAreMade }
    ensures hand { OneAtHand }
    ensures all { AllAtHand }
{}

/// The body of a lambda begins in a good state, and lambdas lead to good ones.
pub fn lambdas()
    ensures begin { BodiesBegin }
    ensures good { LambdasAreGood }
{}
