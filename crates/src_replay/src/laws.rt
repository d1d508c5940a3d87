//! What holds of the answers on an order. A function here does nothing: its clauses are the laws.

ghost use Rattle.std.specs.Prelude.{◌≡◌, ◌<◌, ℕ, List};
ghost use Rattle.tx_events.specs.Memory.{MemoryLayout};
ghost use Rattle.tx_events.specs.World.{World, Step, Replays};
ghost use Rattle.src_mean.specs.Cost.{step_cost, cost};
ghost use Rattle.src_mean.specs.Frames.{State};
ghost use Rattle.src_mean.specs.Linked.{Program};
ghost use Rattle.src_mean.specs.Source.{source};
ghost use Rattle.src_replay.specs.Entries.{Refused, Unfinished};
ghost use Rattle.src_replay.specs.Orders.{IsReplay, IsNotARun, IsSpent, IsOnly};
ghost use Rattle.src_replay.specs.declared.replaying.Replayed.{Replayed};

/// Of an entry one thing alone holds: it has a step, within the units that are left, or it is refused within them, or it
/// goes on behind them.
pub fn one_cause()
    ensures refused { (program : Program) (p : MemoryLayout) (t most : ℕ) (w v : World State) → Refused (source program) p t w most → Step (source program) p t w v → ⊥ }
    ensures unfinished { (program : Program) (p : MemoryLayout) (t most : ℕ) (w v : World State) → Unfinished (source program) p t w most → (step : Step (source program) p t w v)
        → most < step_cost (source program) p t w v step }
    ensures both { (program : Program) (p : MemoryLayout) (t most : ℕ) (w : World State) → Refused (source program) p t w most → Unfinished (source program) p t w most → ⊥ }
{}

/// Of an order one answer alone is right. A replay of it has the output, end and cost that `replay` answers; it has none where an entry is not enabled; and
/// where the units are spent it has none that costs no more than they were.
pub fn one_answer()
    ensures replay { (program : Program) (p : MemoryLayout) (first v : World State) (order : List ℕ) (most : ℕ) (r : Replayed) → IsReplay (source program) p first order most r
        → (k : Replays (source program) p first order v) → IsOnly (source program) p first order r v k }
    ensures not_a_run { (program : Program) (p : MemoryLayout) (first v : World State) (order : List ℕ) (most index : ℕ) → IsNotARun (source program) p first order most index
        → Replays (source program) p first order v → ⊥ }
    ensures spent { (program : Program) (p : MemoryLayout) (first v : World State) (order : List ℕ) (most index : ℕ) → IsSpent (source program) p first order most index
        → (k : Replays (source program) p first order v) → most < cost (source program) p first order v k }
{}
