//! Laws of classes that have a name and their brace. A function here does nothing: its clauses are the laws.

ghost use Rattle.elab_fits_parts.specs.Parts.{PointersAreWords, PartsHold, ObjectsAreMade, TypesAreSound};
ghost use Rattle.elab_fits_parts.specs.Bases.{BasesBuild};
ghost use Rattle.elab_fits_parts.specs.Implicit.{StartsImplicit, LaterStartsImplicit, StepsImplicit, HomesStay, DeclarationsImplicit, UnitsImplicit};
ghost use Rattle.elab_fits_parts.specs.Implicit.{LambdasImplicit, OperandsImplicit, StatementsImplicit};
ghost use Rattle.elab_fits_parts.specs.Implicit.{VariablesImplicit, AliasesImplicit, EnumsImplicit, NamesImplicit, FunctionsImplicit, OutsideImplicit};
ghost use Rattle.elab_fits_parts.specs.Implicit.{ClassesImplicit, MemberDefaultsImplicit, MethodsImplicit, BodiesImplicit};

/// Their parts, and the types of objects.
pub fn parts()
    ensures pointers { PointersAreWords }
    ensures parts { PartsHold }
    ensures objects { ObjectsAreMade }
    ensures sound { TypesAreSound }
{}

/// Functions that no text declares, from the start of a unit on, and in the bodies of functions.
pub fn implicit()
    ensures starts { StartsImplicit }
    ensures later { LaterStartsImplicit }
    ensures steps { StepsImplicit }
    ensures homes { HomesStay }
    ensures all { DeclarationsImplicit }
    ensures units { UnitsImplicit }
    ensures lambdas { LambdasImplicit }
    ensures operands { OperandsImplicit }
    ensures statements { StatementsImplicit }
{}

/// The same behind each kind of declaration, and behind the parts of a class.
pub fn declarations()
    ensures variables { VariablesImplicit }
    ensures aliases { AliasesImplicit }
    ensures enums { EnumsImplicit }
    ensures names { NamesImplicit }
    ensures functions { FunctionsImplicit }
    ensures outside { OutsideImplicit }
    ensures classes { ClassesImplicit }
    ensures defaults { MemberDefaultsImplicit }
    ensures methods { MethodsImplicit }
    ensures bodies { BodiesImplicit }
{}

/// The base of an object under construction, by parenthesised values.
pub fn bases()
    ensures build { BasesBuild }
{}
