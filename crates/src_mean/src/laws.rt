//! What holds of the source thread of every program. A function here does nothing: its clauses are the laws.
ghost use Rattle.std.specs.Prelude.{◌≡◌, ◌++◌, ◌∷◌, ℕ, ℤ, Bool, true, List};
ghost use Rattle.std.specs.List.{list_all};
ghost use Rattle.cpp_tree.specs.tx_events.declared.End.TheVariants.{Terminate};
ghost use Rattle.cpp_tree.specs.tx_events.declared.Reply.{Reply};
ghost use Rattle.cpp_tree.specs.tx_events.declared.Reply.TheVariants.{Nothing};
ghost use Rattle.cpp_tree.specs.tx_events.declared.Event.TheVariants.{Silent, Stop};
ghost use Rattle.cpp_tree.specs.tx_events.Thread.{Lawful, is_silent};
ghost use Rattle.cpp_tree.specs.Trees.{Tree};
ghost use Rattle.src_mean.specs.Linked.{Program};
ghost use Rattle.src_mean.specs.Exceptions.{Exception};
ghost use Rattle.src_mean.specs.Frames.{Frame, Here, Way, Run, Called, Leaves, throws, State, at};
ghost use Rattle.src_mean.specs.Source.{source, begins, main_state};
ghost use Rattle.src_mean.specs.Laws.{IsSettled, GoesOn, Begins, follows, closes_block, LeftOnce, is_passed, StaysSafe, IsSafeState};

/// Threads begin with no open block. The open blocks are those that the events open and close, and no event comes
/// that these blocks do not admit: the last event of a block is that of the innermost one, and a thread ends where
/// none is open. Loads and stores have sizes of 1, 2, 4 or 8, and a stored value is below 2^(8 * size).
pub fn blocks()
    ensures thread { (p : Program) (number func : ℕ) (arg : ℤ) → Begins p (begins p number func arg) }
    ensures main { (p : Program) → Begins p (main_state p) }
    ensures goes_on { (p : Program) (s : State) (reply : Reply) → IsSettled s → GoesOn p s reply }
    ensures comes { (p : Program) (s : State) → IsSettled s → follows ((source p).next s) ((source p).blocks s) ≡ true }
{}

/// With what safety adds, a test of states under which no output, input, start or join of a thread and no volatile
/// access comes inside an atomic block, the thread meets all laws of threads.
pub fn lawful()
    ensures { (p : Program) (test : State → Bool) → StaysSafe p test → Lawful State (IsSafeState test) (source p) }
{}

/// A node is entered by a silent step.
pub fn entering_is_silent()
    ensures { (s : State) (way : Way) (tree : Tree) (k : List Frame) → IsSettled s → s.frames ≡ Run way tree ∷ k → is_silent s.event ≡ true }
{}

/// A block is left exactly once: its last event comes where its frame is the first one, and takes that frame away;
/// no other event takes a block away.
pub fn left_once()
    ensures { (p : Program) (s : State) (reply : Reply) → IsSettled s → closes_block ((source p).next s) ≡ true → LeftOnce p s reply }
{}

/// An exception that comes to the frame of a `noexcept` function or a destructor, past what it passes, stops with
/// Terminate (C++14 15.5.1).
pub fn terminates()
    ensures { (p : Program) (h caller : Here) (e : Exception) (passed k : List Frame) → list_all is_passed passed ≡ true →
        (source p).next ((source p).after (at Silent h (Leaves (throws e) ∷ (passed ++ Called caller true ∷ k))) Nothing) ≡ Stop Terminate }
{}
