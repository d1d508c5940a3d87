//! Laws of what initialises objects of class type. A function here does nothing: its clauses are the laws.

ghost use Rattle.elab_fits_objects.specs.Items.{ItemsBuild};
ghost use Rattle.elab_fits_objects.specs.Capturing.{CapturesBuild};
ghost use Rattle.elab_fits_objects.specs.Making.{ObjectsPlaced, ClassesBuild, ExactsBuild, WordsPass, AllWordsFit, WordsKeep, ChosenViable};
ghost use Rattle.elab_fits_objects.specs.Making.{NothingBuilds, ConstructorsBuild, ScalarsBuild, ExceptionsBuild, ValuesBuild, CastsStand, FunctionalsStand};

/// An object of class type, by an expression.
pub fn objects()
    ensures placed { ObjectsPlaced }
    ensures classes { ClassesBuild }
    ensures exacts { ExactsBuild }
{}

/// The words of a call.
pub fn words()
    ensures passed { WordsPass }
    ensures words { AllWordsFit }
    ensures kept { WordsKeep }
    ensures chosen { ChosenViable }
{}

/// An object from nothing, from values in parentheses, or from an item in braces that is an expression.
pub fn values()
    ensures nothing { NothingBuilds }
    ensures constructors { ConstructorsBuild }
    ensures scalars { ScalarsBuild }
    ensures exceptions { ExceptionsBuild }
    ensures values { ValuesBuild }
    ensures items { ItemsBuild }
{}

/// An object that a cast makes.
pub fn casts()
    ensures casts { CastsStand }
    ensures functionals { FunctionalsStand }
{}

/// What a lambda captures.
pub fn lambdas()
    ensures captures { CapturesBuild }
{}
