//! That folding keeps programs well formed. A function here does nothing: its clauses are the laws.

ghost use Rattle.fold_fits.specs.Laws.{BodiesFit, ProgramsFit};

/// A well-formed body whose declarations name their variables is folded to a well-formed body.
pub fn bodies()
    ensures { BodiesFit }
{}

/// A well-formed program in which declarations name their variables is folded to a well-formed one.
pub fn programs()
    ensures { ProgramsFit }
{}
