//! Laws of places of the frame. A function here does nothing: its clauses are the laws.

ghost use Rattle.elab_places.specs.Bodies.{ItemsOwn, StatementsOwn, BlocksOwn, HandlersOwn};
ghost use Rattle.elab_places.specs.Round.{LambdasKeepBodies, StatementsKeepBodies, FunctionsKeepBodies, ConstructorsKeepBodies};
ghost use Rattle.elab_places.specs.Round.{DestructorsKeepBodies, DefaultsKeepBodies, ImpliedKeepBodies};
ghost use Rattle.elab_places.specs.Declared.{DeclarationsKeep, AllDeclarationsKeep, UnitsKeep, UnitsBegin, AllDefaultsOwn};
ghost use Rattle.elab_places.specs.Functions.{FunctionBodiesOwn, ConstructorBodiesOwn, DestructorBodiesOwn, ImpliedBodiesOwn, DefaultsMadeOwn};
ghost use Rattle.elab_places.specs.Functions.{LambdaBodiesOwn, LambdasLeave, NoLambdasLeave, WordsCounted, PlacesFree};
ghost use Rattle.elab_places.specs.Places.{ExpressionsOwn, OperandsOwn, InitialsOwn, ClassObjectsOwn, ValuesOwn, WordsOwn};

/// What an expression and several operands own.
pub fn expressions()
    ensures expressions { ExpressionsOwn }
    ensures operands { OperandsOwn }
{}

/// What is made of operands owns what they own, and what was added for it.
pub fn initials()
    ensures initials { InitialsOwn }
    ensures objects { ClassObjectsOwn }
    ensures values { ValuesOwn }
    ensures words { WordsOwn }
{}

/// What braces and statements own.
pub fn statements()
    ensures items { ItemsOwn }
    ensures statements { StatementsOwn }
    ensures blocks { BlocksOwn }
    ensures handlers { HandlersOwn }
{}

/// What the bodies of functions own, and the initialisers that are kept for members.
pub fn bodies()
    ensures functions { FunctionBodiesOwn }
    ensures constructors { ConstructorBodiesOwn }
    ensures destructors { DestructorBodiesOwn }
    ensures implied { ImpliedBodiesOwn }
    ensures defaults { DefaultsMadeOwn }
{}

/// What the bodies of lambdas own, and that what makes them leaves the frame.
pub fn lambdas()
    ensures bodies { LambdaBodiesOwn }
    ensures leave { LambdasLeave }
    ensures none { NoLambdasLeave }
{}

/// How many words a call has, and which places are behind them.
pub fn words()
    ensures counted { WordsCounted }
    ensures free { PlacesFree }
{}

/// The initialisers that are kept for members own their places wherever elaboration comes.
pub fn declarations()
    ensures each { DeclarationsKeep }
    ensures all { AllDeclarationsKeep }
    ensures units { UnitsKeep }
    ensures begin { UnitsBegin }
    ensures defaults { AllDefaultsOwn }
{}

/// All bodies that are made so far own the places behind the words that their functions are shown with.
pub fn made()
    ensures lambdas { LambdasKeepBodies }
    ensures statements { StatementsKeepBodies }
    ensures functions { FunctionsKeepBodies }
    ensures constructors { ConstructorsKeepBodies }
    ensures destructors { DestructorsKeepBodies }
    ensures defaults { DefaultsKeepBodies }
    ensures implied { ImpliedKeepBodies }
{}
