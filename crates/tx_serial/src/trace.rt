//! The trace of an order.
ghost use Rattle.std.specs.Prelude.{◌≡◌, ℕ, List, [], ◌∷◌, ◌++◌};
ghost use Rattle.tx_events.specs.Memory.{MemoryLayout};
ghost use Rattle.tx_events.specs.World.{World, Replays};
ghost use Rattle.tx_events.specs.declared.Item.{Item};
ghost use Rattle.tx_serial.specs.Trace.{TraceOf, OneStepMore};

use tx_events::Actor;

/// An order that replays has a trace, and only one.
pub fn one_trace<A: Actor>()
    ensures exists { (p : MemoryLayout) (start v : World A.State) (order : List ℕ) → Replays A.thread p start order v
        → (items : List Item) × TraceOf A.thread p start order items }
    ensures unique { (p : MemoryLayout) (start : World A.State) (order : List ℕ) (items other : List Item) →
        TraceOf A.thread p start order items → TraceOf A.thread p start order other → other ≡ items }
{}

/// An order that grows by one thread has a trace that grows by the items of one step of that thread: the step from the
/// world to which that very order replays.
pub fn trace_grows<A: Actor>()
    ensures { (p : MemoryLayout) (start : World A.State) (order : List ℕ) (t : ℕ) (items more : List Item) →
        TraceOf A.thread p start order items → TraceOf A.thread p start (order ++ t ∷ []) more →
        OneStepMore A.thread p start order t items more }
{}
