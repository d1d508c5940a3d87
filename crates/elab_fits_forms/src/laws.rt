//! Laws of the forms of expressions. A function here does nothing: its clauses are the laws.

ghost use Rattle.elab_fits_forms.specs.Names.{VariablesStand, ThisStands, EntitiesMean, MembersMean, NamesMean, ResolvedStand, LeavesMean};
ghost use Rattle.elab_fits_forms.specs.Forms.{ThrowsStand, ValueThrowsStand, CastsStand, FunctionalsStand, SizesStand, ObjectCommasStand};
ghost use Rattle.elab_fits_forms.specs.Forms.{ObjectChoicesStand, ObjectAssignmentsStand, CallsStand, RowsMean};

/// Names, members, `this` and literals.
pub fn names()
    ensures variables { VariablesStand }
    ensures this { ThisStands }
    ensures entities { EntitiesMean }
    ensures members { MembersMean }
    ensures names { NamesMean }
    ensures resolved { ResolvedStand }
    ensures leaves { LeavesMean }
{}

/// Casts, `sizeof`, and what is thrown.
pub fn casts()
    ensures casts { CastsStand }
    ensures functionals { FunctionalsStand }
    ensures sizes { SizesStand }
    ensures throws { ValueThrowsStand }
    ensures objects { ThrowsStand }
{}

/// `,` and `?:` with objects of classes.
pub fn choices()
    ensures commas { ObjectCommasStand }
    ensures conditionals { ObjectChoicesStand }
    ensures assignments { ObjectAssignmentsStand }
{}

/// Calls of what is named or given.
pub fn calls()
    ensures calls { CallsStand }
{}

/// The rows of expressions.
pub fn rows()
    ensures rows { RowsMean }
{}
