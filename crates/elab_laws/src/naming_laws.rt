//! Laws of names. A function here does nothing: its clauses are the laws.

ghost use Rattle.elab_laws.specs.Naming.{
  Captures,
  Enumerators,
  Functions,
  GivesBack,
  Globals,
  Hides,
  Innermost,
  OthersStay,
  OwnMembers,
  QualifiedEnumerators,
  Variables,
};

/// A name stands for what the innermost scope that declares it says.
pub fn innermost()
    ensures { Innermost }
{}

/// A declaration in a block hides those outside of it, changes no other name, and is gone behind the block.
pub fn blocks()
    ensures hides { Hides }
    ensures others_stay { OthersStay }
    ensures gives_back { GivesBack }
{}

/// A name is an lvalue where it stands for a variable, a member or a function, and a prvalue where it stands for an
/// enumerator. Variables of a function hide members of its class, and these hide names of the file.
pub fn names()
    ensures variables { Variables }
    ensures captures { Captures }
    ensures own_members { OwnMembers }
    ensures globals { Globals }
    ensures enumerators { Enumerators }
    ensures functions { Functions }
    ensures qualified_enumerators { QualifiedEnumerators }
{}
