//! Laws of the contexts that elaboration makes. A function here does nothing: its clauses are the laws.

ghost use Rattle.elab_contexts.specs.Holding.{StartsHold, LaterStartsHold, DeclarationsHold, UnitsHold, SpecialsHold};
ghost use Rattle.elab_contexts.specs.Holding.{LambdasHold, OperandsHold, StatementsHold};
ghost use Rattle.elab_contexts.specs.Holding.{VariablesHold, AliasesHold, EnumsHold, NamesHold, FunctionsHold, OutsideHold};
ghost use Rattle.elab_contexts.specs.Holding.{ClassesHold, MemberDefaultsHold, MethodsHold, ImpliedHold};
ghost use Rattle.elab_contexts.specs.Overriders.{LambdasOverride, OperandsOverride, StatementsOverride, VariablesOverride, FunctionsOverride};
ghost use Rattle.elab_contexts.specs.Overriders.{StartsOverride, AliasesOverride, EnumsOverride, NamesOverride};
ghost use Rattle.elab_contexts.specs.Overriders.{OutsideOverride, ClassesOverride, MemberDefaultsOverride, MethodsOverride, ImpliedOverride};
ghost use Rattle.elab_contexts.specs.Walks.{LambdasWalk, OperandsWalk, StatementsWalk, BodiesWalk, DeclarationsWalk, UnitsWalk};

/// Whatever is elaborated, the classes and functions of the unit go on by steps.
pub fn walks()
    ensures lambdas { LambdasWalk }
    ensures operands { OperandsWalk }
    ensures statements { StatementsWalk }
    ensures bodies { BodiesWalk }
    ensures declarations { DeclarationsWalk }
    ensures units { UnitsWalk }
{}

/// What the laws of expressions ask of the context of a unit, from its start on.
pub fn holding()
    ensures starts { StartsHold }
    ensures later { LaterStartsHold }
    ensures declarations { DeclarationsHold }
    ensures units { UnitsHold }
    ensures specials { SpecialsHold }
{}

/// The same inside of a body.
pub fn bodies()
    ensures lambdas { LambdasHold }
    ensures operands { OperandsHold }
    ensures statements { StatementsHold }
{}

/// The same behind each kind of declaration, and behind the parts of a class.
pub fn parts()
    ensures variables { VariablesHold }
    ensures aliases { AliasesHold }
    ensures enums { EnumsHold }
    ensures names { NamesHold }
    ensures functions { FunctionsHold }
    ensures outside { OutsideHold }
    ensures classes { ClassesHold }
    ensures defaults { MemberDefaultsHold }
    ensures methods { MethodsHold }
    ensures implied { ImpliedHold }
{}

/// No constructor becomes virtual, but as a member that a text declares.
pub fn overriders()
    ensures starts { StartsOverride }
    ensures lambdas { LambdasOverride }
    ensures operands { OperandsOverride }
    ensures statements { StatementsOverride }
    ensures variables { VariablesOverride }
    ensures aliases { AliasesOverride }
    ensures enums { EnumsOverride }
    ensures names { NamesOverride }
    ensures functions { FunctionsOverride }
    ensures outside { OutsideOverride }
    ensures classes { ClassesOverride }
    ensures defaults { MemberDefaultsOverride }
    ensures methods { MethodsOverride }
    ensures implied { ImpliedOverride }
{}
