//! Laws of bodies. A function here does nothing: its clauses are the laws.

ghost use Rattle.elab_bodies.specs.Bodies.{ShownFit, UnitsFit};
ghost use Rattle.elab_bodies.specs.Making.{FunctionBodiesFit, ConstructorBodiesFit, DestructorBodiesFit, ImpliedBodiesFit, LambdasFit, StatementsFit};
ghost use Rattle.elab_bodies.specs.Keeping.{FunctionsKeep, ConstructorsKeep, DestructorsKeep, DefaultsKeep, CompletedStand, ImpliedKeep};

/// A body of a function is what the test of well-formed bodies asks of it in the unit.
pub fn shown()
    ensures functions { ShownFit }
    ensures units { UnitsFit }
{}

/// What makes the body of a function makes one of it.
pub fn made()
    ensures functions { FunctionBodiesFit }
    ensures constructors { ConstructorBodiesFit }
    ensures destructors { DestructorBodiesFit }
    ensures implied { ImpliedBodiesFit }
{}

/// All bodies fit still behind lambdas, and behind statements with lambdas in them.
pub fn lambdas()
    ensures lambdas { LambdasFit }
    ensures statements { StatementsFit }
{}

/// All bodies fit still behind a body that is written, and behind those that are implied.
pub fn kept()
    ensures functions { FunctionsKeep }
    ensures constructors { ConstructorsKeep }
    ensures destructors { DestructorsKeep }
    ensures defaults { DefaultsKeep }
    ensures completed { CompletedStand }
    ensures implied { ImpliedKeep }
{}
