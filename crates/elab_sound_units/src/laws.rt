//! Laws of the types in the contexts of units. A function here does nothing: its clauses are the laws.

ghost use Rattle.elab_sound_units.specs.Units.{StartsSound, LaterStartsSound, DeclarationsKeepSound, UnitsKeepSound, ProgramsAreSound};
ghost use Rattle.elab_sound_units.specs.Steps.{VariablesKeepSound, AliasesKeepSound, EnumsKeepSound, NamesKeepSound, FunctionsAreSound};
ghost use Rattle.elab_sound_units.specs.Steps.{DefinitionsKeepSound, MethodsAreSound, OutsideMethodsAreSound, MembersAreSound, ClassesAreSound};
ghost use Rattle.elab_sound_units.specs.Steps.{MembersAreSpelled, EnteredIsSound, ObjectsAreSound, ParametersKeepSound, GivenKeepsSound};
ghost use Rattle.elab_sound_units.specs.Steps.{PartsKeepSound, CopiesKeepSound, ConstructorsKeepSound, DestructorsKeepSound, MethodsKeepSound};
ghost use Rattle.elab_sound_units.specs.Steps.{DefaultsKeepSound, LateMethodsKeepSound, OutsideBodiesKeepSound, ImpliedKeepsSound};

/// Units begin with sound types and keep them.
pub fn units()
    ensures starts { StartsSound }
    ensures later { LaterStartsSound }
    ensures declarations { DeclarationsKeepSound }
    ensures units { UnitsKeepSound }
    ensures programs { ProgramsAreSound }
{}

/// So does each declaration of a file.
pub fn declarations()
    ensures variables { VariablesKeepSound }
    ensures aliases { AliasesKeepSound }
    ensures enums { EnumsKeepSound }
    ensures names { NamesKeepSound }
    ensures functions { FunctionsAreSound }
    ensures definitions { DefinitionsKeepSound }
{}

/// Classes: headers of their members, and the class up to its brace.
pub fn classes()
    ensures methods { MethodsAreSound }
    ensures outside { OutsideMethodsAreSound }
    ensures members { MembersAreSound }
    ensures classes { ClassesAreSound }
    ensures spelled { MembersAreSpelled }
{}

/// Bodies of members: what is known at their start, and what they leave.
pub fn bodies()
    ensures entered { EnteredIsSound }
    ensures objects { ObjectsAreSound }
    ensures parameters { ParametersKeepSound }
    ensures given { GivenKeepsSound }
    ensures parts { PartsKeepSound }
    ensures copies { CopiesKeepSound }
{}

/// Bodies of members, as a whole.
pub fn members()
    ensures constructors { ConstructorsKeepSound }
    ensures destructors { DestructorsKeepSound }
    ensures methods { MethodsKeepSound }
    ensures defaults { DefaultsKeepSound }
    ensures late { LateMethodsKeepSound }
    ensures outside { OutsideBodiesKeepSound }
    ensures implied { ImpliedKeepsSound }
{}
