//! Runs of linked images. A function here does nothing: its clauses are the laws.

ghost use Rattle.std.specs.Prelude.{◌≡◌, ◌≤◌, ℕ, Bool, List, Option};
ghost use Rattle.body_check.specs.Notes.{Note, Bounds};
ghost use Rattle.body_check.specs.Calls.{Book};
ghost use Rattle.checked_runs.specs.Images.{IsCodeOf};
ghost use Rattle.cpp_tree.specs.cpp_types.Typ.{Typ};
ghost use Rattle.image_links.specs.Agreeing.{AllChecked, linked_book};
ghost use Rattle.linked_images.specs.LinkedImages.{IsLinkedFrom, IsLinked, Agree};
ghost use Rattle.linked_runs.specs.SourceRuns.{RunsAsSource};
ghost use Rattle.src_bind.specs.Tables.{Given, CanBind, typed, linked_of};
ghost use Rattle.src_mean.specs.Frames.{State as SourceState};
ghost use Rattle.src_mean.specs.Linked.{Program};
ghost use Rattle.src_mean.specs.Source.{source, main_state};
ghost use Rattle.tx_code.specs.Images.{ImageView};
ghost use Rattle.tx_events.specs.declared.TheConstants.{THREAD_LIMIT};
ghost use Rattle.tx_events.specs.Memory.{MemoryLayout};
ghost use Rattle.tx_events.specs.Same.{with_threads};
ghost use Rattle.tx_events.specs.World.{Alive, World, Replays, first_world};
ghost use Rattle.vm_thread.specs.Threads.{Running, running, at_main};

/// Where an image is the code of a program, its threads from `main` on, each with its image, run as those of the source do, and the
/// other way round: in the same order, from the same memory and input, to the same world but for the states of the threads.
pub fn runs_of_running_threads()
    ensures source { (p : Program) (i : ImageView) (b : Bounds) (book : Book) → IsCodeOf p i b book →
        (layout : MemoryLayout) → layout.limit ≤ THREAD_LIMIT → (memory : ℕ → ℕ) (input order : List ℕ) (world : World Running) →
        Replays running layout (first_world memory input (at_main i)) order world →
        (threads : ℕ → Option (Alive SourceState)) ×
        Replays (source p) layout (first_world memory input (main_state p)) order (with_threads world threads) }
    ensures image { (p : Program) (i : ImageView) (b : Bounds) (book : Book) → IsCodeOf p i b book →
        (layout : MemoryLayout) → layout.limit ≤ THREAD_LIMIT → (memory : ℕ → ℕ) (input order : List ℕ) (world : World SourceState) →
        Replays (source p) layout (first_world memory input (main_state p)) order world →
        (threads : ℕ → Option (Alive Running)) ×
        Replays running layout (first_world memory input (at_main i)) order (with_threads world threads) }
{}

/// Where an image is linked from a program, with a book that is given or with some book, its runs are runs of the program's source.
pub fn runs_of_linked_images()
    ensures given { (g : Given) (i : ImageView) (b : Bounds) (book : Book) → IsLinkedFrom g i b book → RunsAsSource g i }
    ensures some { (g : Given) (i : ImageView) → IsLinked g i → RunsAsSource g i }
{}

/// So they are where the image and a program that can be bound agree, and each body of the image is checked against its function with
/// any notes.
pub fn runs_of_agreeing_images()
    ensures { (g : Given) (i : ImageView) → Agree g i → CanBind (typed g) →
        (b : Bounds) (notes : ℕ → Bool → List Note) (typs : ℕ → Bool → List Typ) → AllChecked i (linked_of g) b (linked_book i g notes typs) → RunsAsSource g i }
{}
