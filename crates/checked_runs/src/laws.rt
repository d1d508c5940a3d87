//! Runs of checked code. A function here does nothing: its clauses are the laws.

ghost use Rattle.std.specs.Prelude.{ℕ, pos, ◌≡◌, ◌+◌, ◌*◌, ◌/◌, ◌≤◌, List, [], ◌∷◌, Option};
ghost use Rattle.tx_events.specs.declared.TheConstants.{THREAD_LIMIT};
ghost use Rattle.tx_events.specs.declared.End.TheVariants.{Exit};
ghost use Rattle.tx_events.specs.Memory.{MemoryLayout};
ghost use Rattle.tx_events.specs.World.{Alive, World, Replays, first_world};
ghost use Rattle.tx_events.specs.Same.{with_threads};
ghost use Rattle.tx_code.specs.Meaning.{Names, State as CodeState, thread, starts};
ghost use Rattle.tx_code.specs.Images.{ImageView};
ghost use Rattle.tx_code.specs.Program.{names_of, first_state};
ghost use Rattle.cpp_tree.specs.Units.{TypedProgram};
ghost use Rattle.src_mean.specs.Linked.{Program};
ghost use Rattle.src_mean.specs.Links.{first_cells, globals_size};
ghost use Rattle.src_mean.specs.Frames.{State as SourceState};
ghost use Rattle.src_mean.specs.Source.{source, main_state};
ghost use Rattle.symbolic_source.specs.Small.{IsSmall};
ghost use Rattle.body_check.specs.Notes.{Bounds};
ghost use Rattle.body_check.specs.Calls.{Book, Links};
ghost use Rattle.checked_runs.specs.Beginnings.{AllBegin, CanStart};
ghost use Rattle.checked_runs.specs.Images.{IsCodeOf, SameGlobals};
ghost use Rattle.checked_runs.specs.Starting.{starting_program, starting_names, RunsTo};

/// Where the notes of each body fit and all threads can begin, a replay of the code's threads is one of the source's, whole
/// blocks and threads that are started included: in the same order, on any memory and input, to the same world but for the
/// states of its threads. So is a replay of the source's threads one of the code's.
pub fn runs_of_checked_code()
    ensures source { (p : Program) (names : Names) (b : Bounds) (book : Book) → Links p names b book → IsSmall p → AllBegin p names book →
        (layout : MemoryLayout) → layout.limit ≤ THREAD_LIMIT → (memory : ℕ → ℕ) (input order : List ℕ) (world : World CodeState) →
        Replays (thread names) layout (first_world memory input (starts names 0 p.main [])) order world →
        (threads : ℕ → Option (Alive SourceState)) ×
        Replays (source p) layout (first_world memory input (main_state p)) order (with_threads world threads) }
    ensures code { (p : Program) (names : Names) (b : Bounds) (book : Book) → Links p names b book → IsSmall p → AllBegin p names book →
        (layout : MemoryLayout) → layout.limit ≤ THREAD_LIMIT → (memory : ℕ → ℕ) (input order : List ℕ) (world : World SourceState) →
        Replays (source p) layout (first_world memory input (main_state p)) order world →
        (threads : ℕ → Option (Alive CodeState)) ×
        Replays (thread names) layout (first_world memory input (starts names 0 p.main [])) order (with_threads world threads) }
{}

/// Threads can begin where their functions are there, take and hand back what threads do, and have frames that fit a stack.
pub fn threads_begin()
    ensures { (p : Program) (names : Names) (b : Bounds) (book : Book) → Links p names b book → CanStart p names book → AllBegin p names book }
{}

/// `void f(long a) { } int main() { return spawn(&f, 0); }` is such a program. Its code runs from the start of a thread, by the thread's
/// store and end, to the end of `main`, and so does its source.
pub fn worked_start()
    ensures all { (layout : MemoryLayout) → layout.limit ≤ THREAD_LIMIT → (memory : ℕ → ℕ) (input order : List ℕ) (world : World CodeState) →
        Replays (thread starting_names) layout (first_world memory input (starts starting_names 0 0 [])) order world →
        (threads : ℕ → Option (Alive SourceState)) ×
        Replays (source starting_program) layout (first_world memory input (main_state starting_program)) order (with_threads world threads) }
    ensures code { RunsTo (thread starting_names) (starts starting_names 0 0 []) (0 ∷ 1 ∷ 1 ∷ 0 ∷ []) (Exit (pos 1)) }
    ensures source { RunsTo (source starting_program) (main_state starting_program) (0 ∷ 1 ∷ 1 ∷ 0 ∷ []) (Exit (pos 1)) }
{}

/// Where an image is the code of a program, its threads from `main` on run as those of the source do, and the other way round: in
/// the same order, from the same memory and input, to the same world but for the states of the threads.
pub fn runs_of_checked_images()
    ensures source { (p : Program) (i : ImageView) (b : Bounds) (book : Book) → IsCodeOf p i b book →
        (layout : MemoryLayout) → layout.limit ≤ THREAD_LIMIT → (memory : ℕ → ℕ) (input order : List ℕ) (world : World CodeState) →
        Replays (thread (names_of i)) layout (first_world memory input (first_state i)) order world →
        (threads : ℕ → Option (Alive SourceState)) ×
        Replays (source p) layout (first_world memory input (main_state p)) order (with_threads world threads) }
    ensures image { (p : Program) (i : ImageView) (b : Bounds) (book : Book) → IsCodeOf p i b book →
        (layout : MemoryLayout) → layout.limit ≤ THREAD_LIMIT → (memory : ℕ → ℕ) (input order : List ℕ) (world : World SourceState) →
        Replays (source p) layout (first_world memory input (main_state p)) order world →
        (threads : ℕ → Option (Alive CodeState)) ×
        Replays (thread (names_of i)) layout (first_world memory input (first_state i)) order (with_threads world threads) }
{}

/// An image of that size and with these cells begins with the memory of the program.
pub fn same_cells()
    ensures { (t : TypedProgram) (p : Program) (i : ImageView) → i.size ≡ (globals_size t + 7) / 8 * 8 → i.globals ≡ first_cells t p → SameGlobals t p i }
{}
