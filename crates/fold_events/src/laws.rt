//! What holds of a program and the folded one. A function here does nothing: its clauses are the laws.

ghost use Rattle.std.specs.Prelude.{◌≡◌, ℕ};
ghost use Rattle.cpp_tree.specs.tx_events.declared.Reply.{Reply};
ghost use Rattle.cpp_tree.specs.tx_events.Same.{SameEvents, StepsWithin};
ghost use Rattle.cpp_tree.specs.declared.program.Program.{Program};
ghost use Rattle.cpp_tree.specs.Units.{program_of};
ghost use Rattle.cpp_tree.specs.WellFormed.{WellFormed};
ghost use Rattle.src_bind.specs.Tables.{Given, typed, linked_of};
ghost use Rattle.src_bind.specs.declared.choices.Choices.{Choices};
ghost use Rattle.src_link.specs.Slots.{AreChoices};
ghost use Rattle.src_mean.specs.Links.{first_cells, globals_size};
ghost use Rattle.tree_fold.specs.Programs.{folded_program};
ghost use Rattle.tx_safety.specs.Safe.{IsSafe, is_safe};
ghost use Rattle.fold_events.specs.Keeping.{Linking, linked_by, Keeps};
ghost use Rattle.fold_events.specs.Lagging.{Lags};

use tx_events::Actor;

/// Folding keeps what each function does and what the whole program does, and costs no more. It is so of each well-formed program, in
/// whatever way it is linked.
pub fn same_events()
    ensures { (p : Program) (l : Linking) → WellFormed p → Keeps (linked_by l (program_of p)) (linked_by l (folded_program (program_of p))) }
{}

/// The same of bound programs, which are bound by the same choices.
pub fn same_bound()
    ensures { (g h : Given) → WellFormed g.program → program_of h.program ≡ folded_program (program_of g.program) → h.choices ≡ g.choices → Keeps (linked_of g) (linked_of h) }
{}

/// The choices by which a program is bound are those of the folded one.
pub fn same_choices()
    ensures { (p : Program) (c : Choices) → WellFormed p → AreChoices (program_of p) c → AreChoices (folded_program (program_of p)) c }
{}

/// Each function is safe exactly where it was, and a safe program stays one.
pub fn same_safety()
    ensures program { (p : Program) → WellFormed p → IsSafe (program_of p) → IsSafe (folded_program (program_of p)) }
    ensures functions { (p : Program) (unit n : ℕ) → WellFormed p → is_safe (folded_program (program_of p)) unit n ≡ is_safe (program_of p) unit n }
{}

/// Memory begins with the same bytes, and the globals take as many.
pub fn same_memory()
    ensures cells { (p : Program) (l : Linking) → WellFormed p → first_cells (folded_program (program_of p)) (linked_by l (folded_program (program_of p))) ≡ first_cells (program_of p) (linked_by l (program_of p)) }
    ensures size { (p : Program) → globals_size (folded_program (program_of p)) ≡ globals_size (program_of p) }
    ensures bound { (g h : Given) → WellFormed g.program → program_of h.program ≡ folded_program (program_of g.program) → h.choices ≡ g.choices → first_cells (typed h) (linked_of h) ≡ first_cells (typed g) (linked_of g) }
{}

/// A thread that leaves out silent steps of another one has the same events, and takes up to each of them no more steps: `shown` gives for a
/// state of the first thread the one of the second that stands for it, with the same next event, and after a reply the first comes by silent
/// steps to a state for which that of the second stands.
pub fn leaving_out<A: Actor, B: Actor>()
    ensures same { (shown : A.State → B.State) (s : A.State) (r : B.State) →
        ((s : A.State) → B.thread.next (shown s) ≡ A.thread.next s) →
        ((s : A.State) (reply : Reply) → Lags A.thread shown (A.thread.after s reply) (B.thread.after (shown s) reply)) →
        Lags A.thread shown s r → SameEvents A.thread B.thread s r }
    ensures no_more { (shown : A.State → B.State) (s : A.State) (r : B.State) →
        ((s : A.State) → B.thread.next (shown s) ≡ A.thread.next s) →
        ((s : A.State) (reply : Reply) → Lags A.thread shown (A.thread.after s reply) (B.thread.after (shown s) reply)) →
        Lags A.thread shown s r → StepsWithin A.thread B.thread 1 0 s r }
{}
