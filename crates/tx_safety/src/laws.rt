//! What the check needs of a program. A function here does nothing: its clause is the law.
ghost use Rattle.cpp_tree.specs.declared.program.Program.{Program};
ghost use Rattle.cpp_tree.specs.WellFormed.{WellFormed};
ghost use Rattle.tx_safety.specs.Marks.{AreReadable};

/// A well-formed program can be checked.
pub fn readable()
    ensures { (p : Program) → WellFormed p → AreReadable p.units.items }
{}
