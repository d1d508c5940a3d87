//! What each trace of a run keeps.
//!
//! `races` of `race_check` needs a trace that is regular: threads numbered below 64, accesses that end within the
//! addresses, and no item of a thread before the item that starts it. The law says that each trace of a run is such
//! a list. No function here does anything: its clause is the law.
#![tactic(auto)]

ghost use Rattle.std.specs.Prelude.{ℕ, ◌<◌, ◌≤◌, ◌^◌, List};
ghost use Rattle.tx_events.specs.declared.Item.{Item};
ghost use Rattle.tx_events.specs.declared.TheConstants.{THREAD_LIMIT};
ghost use Rattle.tx_events.specs.Memory.{MemoryLayout};
ghost use Rattle.tx_events.specs.World.{first_world};
ghost use Rattle.tx_serial.specs.Trace.{TraceOf};
ghost use Rattle.race_check.specs.Regular.{Regular};

use tx_events::Actor;

/// The trace of an order is regular, whatever the threads do.
pub fn a_trace_is_regular<A: Actor>()
    ensures { (p : MemoryLayout) (memory : ℕ → ℕ) (input : List ℕ) (main : A.State) (order : List ℕ) (items : List Item) →
        p.limit ≤ THREAD_LIMIT → p.globals < 2 ^ 62 →
        TraceOf A.thread p (first_world memory input main) order items → Regular items }
{}
