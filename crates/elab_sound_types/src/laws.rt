//! Laws of the types that elaboration makes. A function here does nothing: its clauses are the laws.

ghost use Rattle.elab_sound_types.specs.Laws.{TargetsAreTypes, HeadsAreTypes, PointersLead, ReferencesLead, ArraysHold, VoidsAreValues};
ghost use Rattle.elab_sound_types.specs.Laws.{TypesAreSound, SpecifiersAreSound, DeclaratorsAreSound, ParametersAreSound};
ghost use Rattle.elab_sound_types.specs.Laws.{ExpressionsAreSound, OperandsAreSound, ZerosAreLiterals, OperandZerosAreLiterals};
ghost use Rattle.elab_sound_types.specs.Laws.{IndirectionsLead, SubscriptsLead};
ghost use Rattle.elab_sound_types.specs.States.{TypesStay, SignaturesStay, KeptStepwise};
ghost use Rattle.elab_sound_types.specs.States.{StatementsKeep, BlocksKeep, FunctionsKeep, LambdasKeep, NoLambdasKeep};

/// Sound types are types of expressions, and so is what lies behind them.
pub fn types()
    ensures targets { TargetsAreTypes }
    ensures heads { HeadsAreTypes }
    ensures pointers { PointersLead }
    ensures references { ReferencesLead }
    ensures arrays { ArraysHold }
    ensures voids { VoidsAreValues }
{}

/// Types that are written are sound.
pub fn written()
    ensures types { TypesAreSound }
    ensures specifiers { SpecifiersAreSound }
    ensures declarators { DeclaratorsAreSound }
    ensures parameters { ParametersAreSound }
{}

/// Expressions have sound types.
pub fn expressions()
    ensures expressions { ExpressionsAreSound }
    ensures operands { OperandsAreSound }
{}

/// Types stay sound where classes are kept.
pub fn growth()
    ensures types { TypesStay }
    ensures signatures { SignaturesStay }
    ensures stepwise { KeptStepwise }
{}

/// What `*` and `[]` lead to.
pub fn operands()
    ensures indirections { IndirectionsLead }
    ensures subscripts { SubscriptsLead }
{}

/// An operand that is said to be the literal 0 is its tree.
pub fn zeros()
    ensures expressions { ZerosAreLiterals }
    ensures operands { OperandZerosAreLiterals }
{}

/// Statements keep the types of a context sound.
pub fn statements()
    ensures statements { StatementsKeep }
    ensures blocks { BlocksKeep }
    ensures functions { FunctionsKeep }
{}

/// Lambdas keep them sound too.
pub fn lambdas()
    ensures lambdas { LambdasKeep }
    ensures none { NoLambdasKeep }
{}
