//! What holds of folded trees. A function here does nothing: its clauses are the laws.

ghost use Rattle.std.specs.Prelude.{◌≡◌, ◌==◌, ℕ, Bool, true, List, Some, cond};
ghost use Rattle.cpp_tree.specs.cpp_types.Typ.{Typ};
ghost use Rattle.cpp_tree.specs.cpp_types.declared.classes.At.{At};
ghost use Rattle.cpp_tree.specs.cpp_types.declared.ranks.Cat.{Cat};
ghost use Rattle.cpp_tree.specs.declared.kinds.TKind.TheVariants.{Conditional};
ghost use Rattle.cpp_tree.specs.Trees.{Tree, node, none, more};
ghost use Rattle.cpp_tree.specs.Units.{TypedProgram};
ghost use Rattle.src_mean.specs.Linked.{Program};
ghost use Rattle.src_mean.specs.Frames.{Here, Way, Frame};
ghost use Rattle.tree_fold.specs.Constants.{integer_word};
ghost use Rattle.tree_fold.specs.Folding.{folded};
ghost use Rattle.tree_fold.specs.Folded.{is_folded};
ghost use Rattle.tree_fold.specs.Programs.{folded_program, IsFolded};
ghost use Rattle.tree_fold.specs.Quiet.{ComesTo, GoesTo};

/// Nothing is left to fold in a folded tree, nor in the bodies of a folded program.
pub fn nothing_left()
    ensures tree { (volatile : ℕ → Bool) (tree : Tree) → is_folded volatile (folded volatile tree) ≡ true }
    ensures program { (p : TypedProgram) → IsFolded (folded_program p) }
{}

/// What folds to a literal of an integer type comes to its word in each run, without an event, where it is run for its value: whatever its
/// parts are, none of them traps, reads, writes or calls.
pub fn same_values()
    ensures { (volatile : ℕ → Bool) (p : Program) (h : Here) (k : List Frame) (tree : Tree) (w : ℕ) → integer_word (folded volatile tree) ≡ Some w → ComesTo p h tree w k }
{}

/// Where the condition of a conditional folds to a literal, each run of the conditional, for its value or into an object, goes on without an event
/// as a run of the operand that folding takes.
pub fn same_choices()
    ensures { (volatile : ℕ → Bool) (p : Program) (h : Here) (k : List Frame) (way : Way) (t : Typ) (cat : Cat) (place : At) (test chosen other : Tree) (w : ℕ) → integer_word (folded volatile test) ≡ Some w → GoesTo p h way (node Conditional t cat place (more test (more chosen (more other none)))) (cond (w == 0) other chosen) k }
{}
