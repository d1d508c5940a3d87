//! What holds of forests. A function here does nothing: its clauses are the laws.

ghost use Rattle.cpp_tree.specs.cpp_types.Class.{InOrder, classes_of};
ghost use Rattle.cpp_tree.specs.declared.program.Program.{Program};
ghost use Rattle.cpp_tree.specs.Units.{program_of};
ghost use Rattle.cpp_tree.specs.WellFormed.{WellFormed};
ghost use Rattle.tree_forests.specs.Forests.{HaveForests, HasWellFormedBodies};

/// A program whose lists of nodes are forests is well formed where the bodies that it shows are.
pub fn forests()
    ensures { (p : Program) → HaveForests p.units.items → InOrder (classes_of p.classes.items) → HasWellFormedBodies (program_of p) → WellFormed p }
{}
