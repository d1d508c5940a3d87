//! Laws of units that are read from texts. A function here does nothing: its clauses are the laws.

ghost use Rattle.elab_read_texts.specs.Texts.{ReadUnitsAreTexts, ReadUnitsHaveClassNames};
ghost use Rattle.elab_read_texts.specs.Names.{ReadUnitsAreNamed};
ghost use Rattle.elab_read_texts.specs.Overriding.{DeclaratorsNamed, MembersOverride, ClassMembersOverride};

/// Each token of a unit is spelled, each `try` has a handler, and each class has a name.
pub fn texts()
    ensures texts { ReadUnitsAreTexts }
    ensures names { ReadUnitsHaveClassNames }
{}

/// Names of members and functions are those of no type, and classes have names of types.
pub fn names()
    ensures named { ReadUnitsAreNamed }
{}

/// Members that a text declares: what overrides has a name that goes with its kind.
pub fn members()
    ensures declarators { DeclaratorsNamed }
    ensures members { MembersOverride }
    ensures classes { ClassMembersOverride }
{}
