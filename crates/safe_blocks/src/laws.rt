//! What holds of the blocks of linked programs. A function here does nothing: its clauses are the laws.
ghost use Rattle.std.specs.Prelude.{◌≡◌, ℕ, ℤ, Bool, true};
ghost use Rattle.src_mean.specs.Linked.{Program};
ghost use Rattle.src_mean.specs.Frames.{State};
ghost use Rattle.src_mean.specs.Source.{begins, main_state};
ghost use Rattle.src_mean.specs.Laws.{StaysSafe};
ghost use Rattle.cpp_tree.specs.declared.program.Program.{Program as TypedUnits};
ghost use Rattle.safe_blocks.specs.UnsafeFree.{HidesBlocks, UnsafeFree};

/// A test of states that stays true as threads go on, and under which no event comes that safety rules out, shows that
/// the blocks are hidden, where it is true of all first states.
pub fn hidden()
    ensures { (p : Program) (test : State → Bool) → StaysSafe p test → test (main_state p) ≡ true → ((number func : ℕ) (arg : ℤ) → test (begins p number func arg) ≡ true) → HidesBlocks p }
{}

/// The blocks of a well-formed, safe, linked program make no event that is volatile, output, input, or the start or
/// join of a thread, in every state that a thread comes to, and no unsafe function is entered in them.
pub fn unsafe_free()
    ensures { (p : TypedUnits) → UnsafeFree p }
{}
