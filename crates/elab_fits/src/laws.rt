//! Laws of what elaboration makes. A function here does nothing: its clauses are the laws.

ghost use Rattle.elab_fits.specs.Scalars.{ValuesStand, ValuesGive, ConversionsGive, ScalarsStand, StoresBuild, InitialsGive, ReferencesBind};
ghost use Rattle.elab_fits.specs.Scalars.{BinariesGive, LogicalsGive, NegationsGive, UnariesGive, AddressesGive, IndirectionsStand, SubscriptsStand};
ghost use Rattle.elab_fits.specs.Scalars.{PartsStand, AssignmentsStand, CompoundsStand, StepsStand, ConditionalsStand, CommasStand};

/// Values of expressions, their conversions, and the objects that they build.
pub fn values()
    ensures values { ValuesStand }
    ensures scalars { ValuesGive }
    ensures conversions { ConversionsGive }
    ensures standing { ScalarsStand }
    ensures stores { StoresBuild }
{}

/// What initialises a scalar, or a reference.
pub fn initials()
    ensures scalars { InitialsGive }
    ensures references { ReferencesBind }
{}

/// Operators that give values.
pub fn operators()
    ensures binaries { BinariesGive }
    ensures logicals { LogicalsGive }
    ensures negations { NegationsGive }
    ensures unaries { UnariesGive }
    ensures addresses { AddressesGive }
{}

/// Operators that name objects, and those that change them.
pub fn objects()
    ensures parts { PartsStand }
    ensures indirections { IndirectionsStand }
    ensures subscripts { SubscriptsStand }
    ensures assignments { AssignmentsStand }
    ensures compounds { CompoundsStand }
    ensures steps { StepsStand }
{}

/// `?:` and `,`.
pub fn choices()
    ensures conditionals { ConditionalsStand }
    ensures commas { CommasStand }
{}
