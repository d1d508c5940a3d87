//! Laws of memory, and laws of runs, these for every actor. A function here does nothing: its clause is the law.
ghost use Rattle.std.specs.Prelude.{◌≡◌, ◌⊎◌, ℕ, ◌<◌, ◌≤◌, ◌+◌, ◌*◌, ◌/◌, ◌%◌, ◌^◌, true, false, List, Option, Some};
ghost use Rattle.tx_events.specs.declared.TheConstants.{THREAD_LIMIT};
ghost use Rattle.tx_events.specs.declared.End.{End};
ghost use Rattle.tx_events.specs.declared.End.TheVariants.{StepsOut};
ghost use Rattle.tx_events.specs.declared.Event.TheVariants.{Stop};
ghost use Rattle.tx_events.specs.Thread.{is_size};
ghost use Rattle.tx_events.specs.Memory.{MemoryLayout, load, store, byte_at, number_at, is_aligned, is_mapped, can_access, word_of, word_bound};
ghost use Rattle.tx_events.specs.Alone.{Alone, outcome};
ghost use Rattle.tx_events.specs.World.{Alive, World, Step, Replays, first_world};
ghost use Rattle.tx_events.specs.Same.{SameEvents, StepsWithin, SameChildren, SameThread, with_threads};
ghost use Rattle.tx_events.specs.Simulation.{Sim};
ghost use Rattle.tx_events.specs.Laws.{AgreesOn, RunsAlike, StoresOnly};

use crate::Actor;

/// A load reads these bytes, the least significant first.
pub fn a_load_reads_bytes()
    ensures { (memory : ℕ → ℕ) (addr size : ℕ) → is_size size ≡ true → is_aligned addr size ≡ true →
        load memory addr size ≡ number_at memory addr size }
{}

/// A store writes the bytes of its value, the least significant first, and changes no other byte. Words stay below
/// 2^64.
pub fn a_store_writes_bytes()
    ensures written { (memory : ℕ → ℕ) (addr size value k : ℕ) → is_size size ≡ true → is_aligned addr size ≡ true →
        value < 2 ^ (8 * size) → k < size →
        byte_at (store memory addr size value) (addr + k) ≡ value / 2 ^ (8 * k) % 2 ^ 8 }
    ensures others { (memory : ℕ → ℕ) (addr size value other : ℕ) →
        value < 2 ^ (8 * size) → (other < addr) ⊎ (addr + size ≤ other) →
        byte_at (store memory addr size value) other ≡ byte_at memory other }
    ensures fits { (memory : ℕ → ℕ) (addr size value word : ℕ) → is_size size ≡ true → is_aligned addr size ≡ true →
        value < 2 ^ (8 * size) → memory (word_of addr) < 2 ^ 64 → memory word < 2 ^ 64 →
        store memory addr size value word < 2 ^ 64 }
{}

/// An access that does not trap lies in one word, which is mapped as a whole and lies below the bound of all words.
pub fn an_access_lies_in_a_word()
    ensures one_word { (p : MemoryLayout) (addr size k : ℕ) → is_size size ≡ true → can_access p addr size ≡ true → k < size →
        word_of (addr + k) ≡ word_of addr }
    ensures mapped { (p : MemoryLayout) (addr size k : ℕ) → is_size size ≡ true → can_access p addr size ≡ true → k < size →
        is_mapped p (addr + k) ≡ true }
    ensures below { (p : MemoryLayout) (addr size : ℕ) → can_access p addr size ≡ true → word_of addr < word_bound p }
{}

/// Two replays of one order agree, in the whole world that they lead to.
pub fn one_replay<A: Actor>()
    ensures { (p : MemoryLayout) (w v u : World A.State) (order : List ℕ) →
        Replays A.thread p w order v → Replays A.thread p w order u → v ≡ u }
{}

/// Nothing is enabled after an end.
pub fn no_step_after_end<A: Actor>()
    ensures { (p : MemoryLayout) (t : ℕ) (w v : World A.State) (end : End) →
        w.end ≡ Some end → Step A.thread p t w v → ⊥ }
{}

/// Locality: a block depends on the words that it accessed and on no others, and leaves the others as they are, with
/// nested and cancelled blocks in it. It ends alike on each memory that agrees on these words.
pub fn locality<A: Actor>()
    ensures { (p : MemoryLayout) (s : A.State) (m n : ℕ → ℕ) (alone : Alone A.thread p s m) →
        AgreesOn alone.last.accessed m n → RunsAlike alone n }
{}

/// A block changes no word but those that it stored to, and it accessed these.
pub fn stores_only<A: Actor>()
    ensures rest { (p : MemoryLayout) (s : A.State) (m : ℕ → ℕ) (alone : Alone A.thread p s m) →
        StoresOnly alone.last.stored m (outcome alone) }
    ensures accessed { (p : MemoryLayout) (s : A.State) (m : ℕ → ℕ) (alone : Alone A.thread p s m) →
        (x : ℕ) → alone.last.stored x ≡ true → alone.last.accessed x ≡ true }
{}

/// A block has one run: two runs of it come to the same end, and they access and store to the same words.
pub fn one_run<A: Actor>()
    ensures outcome { (p : MemoryLayout) (s : A.State) (m : ℕ → ℕ) (run other : Alone A.thread p s m) →
        outcome run ≡ outcome other }
    ensures accessed { (p : MemoryLayout) (s : A.State) (m : ℕ → ℕ) (run other : Alone A.thread p s m) →
        run.last.accessed ≡ other.last.accessed }
    ensures stored { (p : MemoryLayout) (s : A.State) (m : ℕ → ℕ) (run other : Alone A.thread p s m) →
        run.last.stored ≡ other.last.stored }
{}

/// No thread ends the program with `StepsOut`: that is the end of a run that is cut off.
pub fn a_thread_never_stops_with_steps_out<A: Actor>()
    ensures { (s : A.State) (end : End) → A.is_reached s → A.thread.next s ≡ Stop end → end ≡ StepsOut → ⊥ }
{}

/// Lifting of one step: where the threads of two worlds have the same events, and so do the threads that they start, a
/// step of the one is a step of the other, a whole block included, to the same world but for the states of its threads.
pub fn a_step_lifts<A: Actor, B: Actor>()
    ensures { (p : MemoryLayout) (main : A.State) (main' : B.State) (t : ℕ) (w v : World A.State) (threads : ℕ → Option (Alive B.State)) →
        SameChildren A.thread B.thread main main' → p.limit ≤ THREAD_LIMIT →
        ((u : ℕ) → SameThread A.thread B.thread main main' (w.threads u) (threads u)) →
        Step A.thread p t w v →
        (after : ℕ → Option (Alive B.State)) ×
        Step B.thread p t (with_threads w threads) (with_threads v after) ×
        ((u : ℕ) → SameThread A.thread B.thread main main' (v.threads u) (after u)) }
{}

/// Lifting: where the first threads of two programs have the same events, and so do the threads that they start, a
/// replay of the one is a replay of the other, whole blocks included: in the same order, to the same world but for
/// the states of its threads.
pub fn lifting<A: Actor, B: Actor>()
    ensures { (p : MemoryLayout) (memory : ℕ → ℕ) (input : List ℕ) (main : A.State) (main' : B.State) (order : List ℕ) (v : World A.State) →
        SameEvents A.thread B.thread main main' → SameChildren A.thread B.thread main main' →
        p.limit ≤ THREAD_LIMIT → Replays A.thread p (first_world memory input main) order v →
        (threads : ℕ → Option (Alive B.State)) ×
        Replays B.thread p (first_world memory input main') order (with_threads v threads) ×
        ((t : ℕ) → SameThread A.thread B.thread main main' (v.threads t) (threads t)) }
{}

/// The same events are so both ways, of threads and of the threads that two programs start.
pub fn same_events_turn<A: Actor, B: Actor>()
    ensures events { (s : A.State) (r : B.State) →
        SameEvents A.thread B.thread s r → SameEvents B.thread A.thread r s }
    ensures children { (main : A.State) (main' : B.State) →
        SameChildren A.thread B.thread main main' → SameChildren B.thread A.thread main' main }
{}

/// A simulation of any length shows that two threads have the same events, and that the second takes up to each event
/// at most `rate` steps for each step of the first and `credit` more.
pub fn simulation<A: Actor, B: Actor>()
    ensures same { (rate most patience credit : ℕ) (s : A.State) (r : B.State) →
        ((n : ℕ) → Sim (record { first = A.thread; second = B.thread; rate = rate; most = most }) n patience credit s r) →
        SameEvents A.thread B.thread s r }
    ensures within { (rate most patience credit : ℕ) (s : A.State) (r : B.State) →
        ((n : ℕ) → Sim (record { first = A.thread; second = B.thread; rate = rate; most = most }) n patience credit s r) →
        StepsWithin A.thread B.thread rate credit s r }
{}

/// The same events, twice over, are the same events.
pub fn same_events_compose<A: Actor, B: Actor, C: Actor>()
    ensures { (s : A.State) (r : B.State) (q : C.State) →
        SameEvents A.thread B.thread s r → SameEvents B.thread C.thread r q → SameEvents A.thread C.thread s q }
{}

/// Bounds on the steps up to an event multiply.
pub fn bounds_compose<A: Actor, B: Actor, C: Actor>()
    ensures { (s : A.State) (r : B.State) (q : C.State) (many more many' more' : ℕ) →
        SameEvents A.thread B.thread s r →
        StepsWithin A.thread B.thread many more s r → StepsWithin B.thread C.thread many' more' r q →
        StepsWithin A.thread C.thread (many' * many) (many' * more + more') s q }
{}
