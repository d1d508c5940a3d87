//! The trace of a run, kept turn by turn.
//!
//! A trace is what a run's order reads, writes, enters, leaves, starts and joins in the world where each outermost atomic
//! block is one step. Here stands how it is kept while turns are taken, of the thread, its next event and the kind of each
//! turn alone (`specs/Keeping`): what a thread does in an atomic block is kept apart until the block's end, and dropped
//! where the transaction gives up. The law says that what is kept is the trace of the order. A `TraceKeeper`
//! keeps it.
#![tactic(auto)]

pub mod keeper;
mod thread_trace;

ghost use Rattle.std.specs.Prelude.{◌≡◌, ℕ, ◌≤◌, List, []};
ghost use Rattle.tx_events.specs.declared.TheConstants.{THREAD_LIMIT};
ghost use Rattle.tx_events.specs.Memory.{MemoryLayout};
ghost use Rattle.tx_events.specs.World.{first_world};
ghost use Rattle.tx_serial.specs.Trace.{TraceOf};
ghost use Rattle.tx_serial.specs.Turn.{Slot, turns, first_machine};
ghost use Rattle.turn_traces.specs.Keeping.{keep, not_kept};

use tx_events::Actor;

/// Whatever turns come, and whatever the policy answers in each: the items that are kept are the trace of the order.
pub fn keeps_the_trace<A: Actor>()
    ensures { (p : MemoryLayout) (memory : ℕ → ℕ) (input : List ℕ) (main : A.State) (slots : List Slot) →
        p.limit ≤ THREAD_LIMIT → A.is_reached main → A.thread.blocks main ≡ [] →
        TraceOf A.thread p (first_world memory input main) (turns A.thread p slots (first_machine memory input main)).order
        (keep A.thread p slots (first_machine memory input main) not_kept).items }
{}
