//! What holds of the marked states of linked programs. A function here does nothing: its clauses are the laws.
ghost use Rattle.std.specs.Prelude.{◌≡◌, ℕ, ℤ, Bool, true};
ghost use Rattle.src_mean.specs.Linked.{Program};
ghost use Rattle.src_mean.specs.Frames.{State};
ghost use Rattle.src_mean.specs.Source.{begins, main_state};
ghost use Rattle.src_mean.specs.Laws.{StaysSafe};
ghost use Rattle.block_marks.specs.Marks.{IsTame, is_marked};

/// Threads of a tame program begin marked, and stay so whatever the replies; where a state is marked, its event is
/// neither volatile nor output, input, or the start or join of a thread inside an atomic block.
pub fn marked()
    ensures stays { (p : Program) (safe : ℕ → ℕ → Bool) → IsTame p safe → StaysSafe p (is_marked p safe) }
    ensures main { (p : Program) (safe : ℕ → ℕ → Bool) → IsTame p safe → is_marked p safe (main_state p) ≡ true }
    ensures thread { (p : Program) (safe : ℕ → ℕ → Bool) → IsTame p safe → (number func : ℕ) (arg : ℤ) → is_marked p safe (begins p number func arg) ≡ true }
{}
