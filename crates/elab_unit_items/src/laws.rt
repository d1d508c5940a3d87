//! Laws of the items of bodies of a unit and of programs. A function here does nothing: its clauses are the laws.

ghost use Rattle.elab_unit_items.specs.Bodies.{StatementsKeepWhole};
ghost use Rattle.elab_unit_items.specs.Units.{ProgramsHaveItems};

/// The statements of a body keep all items whole.
pub fn bodies()
    ensures statements { StatementsKeepWhole }
{}

/// Each class that an item of a frame holds is complete, in each function of each unit of a program.
pub fn programs()
    ensures items { ProgramsHaveItems }
{}
