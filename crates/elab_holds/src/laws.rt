//! Laws of the contexts that elaboration makes. A function here does nothing: its clauses are the laws.

ghost use Rattle.elab_holds.specs.Contexts.{ClassesInOrder, SettingsHold, MakersHold, ClassesComplete, AloneByKinds, AloneByNames, SlotsWhereAlone, SlotsHold, FunctionsListed, ContextsHold, TextsHaveNames};
ghost use Rattle.elab_holds.specs.Locals.{LocalsStay, LocalsGrow, FunctionsEntered, ObjectsEntered, ParametersPlaced, LambdasEntered, VariablesPlaced, VariablesDeclared};

/// The function at hand, from its parameters on.
pub fn locals()
    ensures stay { LocalsStay }
    ensures grow { LocalsGrow }
    ensures functions { FunctionsEntered }
    ensures objects { ObjectsEntered }
    ensures parameters { ParametersPlaced }
    ensures lambdas { LambdasEntered }
    ensures variables { VariablesPlaced }
    ensures declared { VariablesDeclared }
{}

/// The context of a unit, where its types are sound.
pub fn contexts()
    ensures order { ClassesInOrder }
    ensures settings { SettingsHold }
    ensures makers { MakersHold }
    ensures complete { ClassesComplete }
    ensures names { AloneByNames }
    ensures kinds { AloneByKinds }
    ensures alone { SlotsWhereAlone }
    ensures slots { SlotsHold }
    ensures listed { FunctionsListed }
    ensures contexts { ContextsHold }
    ensures texts { TextsHaveNames }
{}
