//! Laws of the bodies of programs. A function here does nothing: its clauses are the laws.

ghost use Rattle.elab_program_bodies.specs.Programs.{UnitsCome, ProgramsHavePlaces, ProgramsFit};
ghost use Rattle.elab_program_bodies.specs.Units.{UnitsHold, UnitsHaveOneBody, PlacesShown, FunctionsShown};

/// What holds behind the declarations of a unit, and of the bodies that it shows.
pub fn units()
    ensures hold { UnitsHold }
    ensures once { UnitsHaveOneBody }
    ensures places { PlacesShown }
    ensures functions { FunctionsShown }
{}

/// The same of all units of a program.
pub fn programs()
    ensures come { UnitsCome }
    ensures places { ProgramsHavePlaces }
    ensures functions { ProgramsFit }
{}
