//! The law of programs. The function does nothing: its clause is the law.

ghost use Rattle.elab_fits_units.specs.Programs.{ProgramsFit};

/// The nodes of each body of each unit of a program fit.
pub fn programs()
    ensures fit { ProgramsFit }
{}
