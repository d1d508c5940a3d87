//! The run of a program by itself, in which threads take turns.

ghost use Rattle.std.specs.Prelude.{◌≡◌, ◌≤◌, ◌<◌, ◌+◌, ◌++◌, ℕ, true, false, length, None, IfOk, OnOk};
ghost use Rattle.tx_events.specs.declared.BlockKind.{BlockKind};
ghost use Rattle.tx_events.specs.declared.Event.TheVariants.{BeginAtomic};
ghost use Rattle.tx_events.specs.Memory.{MemoryLayout};
ghost use Rattle.tx_events.specs.World.{World as Worlds, goes};
ghost use Rattle.tx_memory.specs.View.{layout_of};
ghost use Rattle.src_bind.specs.Bounds.{given};
ghost use Rattle.src_bind.specs.Tables.{CanBind, typed};
ghost use Rattle.src_mean.specs.Frames.{State};
ghost use Rattle.src_mean.specs.Linked.{Program};
ghost use Rattle.src_replay.specs.Entries.{is_enabled as is_enabled_in};
ghost use Rattle.src_replay.specs.LoneRuns.{loud, RunsAlone};
ghost use Rattle.src_replay.specs.Seen.{is_begin, SeenAct};
ghost use Rattle.src_replay.specs.Shown.{world_of, Stands};
ghost use Rattle.src_replay.specs.Turns.{steps_of, IsReady, Entered};
ghost use Rattle.src_replay.specs.declared.world.Entry.TheVariants.{Taken};

use crate::block::{Step, comes_inside};
use crate::nested::Nested;
use crate::turns::{Ahead, Choice, next};
use crate::world::{Entry, World, is_silent};
use src_bind::Bound;
use std::alloc::{AllocError, Global};
use tx_events::{End, Event, Reply};

/// How the run of a program by itself stopped.
#[derive(Clone, Copy, Debug, PartialEq, Eq)]
pub enum AloneEnd {
    /// The program has ended.
    Ended(End),
    /// No thread can go on: each has ended, or waits for a thread or for the lock.
    NotEnabled,
    /// In the atomic block of the next thread comes what may not come in one.
    InBlock,
    /// The next entry takes more steps than are left.
    Spent,
}

/// What a program did by itself: the threads of its entries, its events but the silent ones, its output, how it stopped,
/// and how many steps it took.
#[derive(Drop)]
pub struct AloneRun {
    pub order: Vec<u8>,
    pub events: Vec<Event>,
    pub out: Vec<u8>,
    pub stopped: AloneEnd,
    pub cost: u32,
}

// The event is written down if it is not silent.
fn note(events: &mut Vec<Event>, event: Event) -> Result<(), AllocError>
    ensures { OnOk result (events.new.items ≡ events.old.items ++ loud event) }
{
    if !is_silent(event) {
        events.push(event)?;
    }
    Ok(())
}

// Whether an atomic block begins.
fn begins_block(event: Event) -> bool
    ensures { result ≡ is_begin event }
{
    match event {
        Event::BeginAtomic { .. } => true,
        Event::Silent | Event::Load { .. } | Event::Store { .. } | Event::Out { .. } => false,
        Event::Inp | Event::Spawn { .. } | Event::Join { .. } | Event::EndAtomic => false,
        Event::Raise { .. } | Event::BeginSync | Event::EndSync => false,
        Event::Done | Event::Stop { .. } => false,
    }
}

// Runs the outermost atomic block that this event begins to its end, and writes down what comes in it.
fn run_block(
    world: &mut World<'_>,
    events: &mut Vec<Event>,
    t: u8,
    event: Event,
) -> Result<Entry, AllocError>
    requires { t < length world.old.threads.alive.items }
    ensures less { OnOk result (world.new.left ≤ world.old.left) }
    ensures seen { (program : Program) (w : Worlds State) (s : State) (kind : BlockKind) → Stands program world.old → w.end ≡ None → world_of world.old ≡ goes t w s
        → s.event ≡ event → event ≡ BeginAtomic kind → is_enabled_in t w event ≡ true
        → IfOk result (SeenAct program (layout_of world.old.memory) t w s world.old.left world.new events.old.items events.new.items) }
{
    events.push(event)?;
    let mut nested = Nested::new(world.alloc);
    nested.begin()?;
    world.threads.go_on(t, Reply::Nothing)?;
    for _taken in 0..world.left {
        let inner = world.threads.next(t);
        if !comes_inside(inner) {
            return Ok(Entry::Refused);
        }
        note(events, inner)?;
        let step = world.step_in_block(t, &mut nested)?;
        let _ = world.pay();
        match step {
            // No block goes on without one that is open.
            Step::Goes => {
                if !nested.is_open() {
                    return Ok(Entry::Refused);
                }
            }
            Step::Leaves => return Ok(Entry::Taken),
            Step::Halts(end) => return world.halt(end),
            // It is the step of no event that may come there.
            Step::Never => return Ok(Entry::Refused),
        }
    }
    if comes_inside(world.threads.next(t)) {
        Ok(Entry::Spent)
    } else {
        Ok(Entry::Refused)
    }
}

// An enabled event comes that begins no block, and is written down.
fn act_once(
    world: &mut World<'_>,
    events: &mut Vec<Event>,
    t: u8,
    event: Event,
) -> Result<Entry, AllocError>
    requires { t < length world.old.threads.alive.items }
    ensures less { OnOk result (world.new.left ≤ world.old.left) }
    ensures seen { (program : Program) (w : Worlds State) (s : State) → Stands program world.old → w.end ≡ None → world_of world.old ≡ goes t w s
        → s.event ≡ event → is_begin event ≡ false → is_enabled_in t w event ≡ true
        → IfOk result (SeenAct program (layout_of world.old.memory) t w s world.old.left world.new events.old.items events.new.items) }
{
    events.push(event)?;
    world.act(t, event)
}

// An enabled event comes, and is written down, and what comes in its block.
fn act(
    world: &mut World<'_>,
    events: &mut Vec<Event>,
    t: u8,
    event: Event,
) -> Result<Entry, AllocError>
    requires { t < length world.old.threads.alive.items }
    ensures less { OnOk result (world.new.left ≤ world.old.left) }
    ensures seen { (program : Program) (w : Worlds State) (s : State) → Stands program world.old → w.end ≡ None → world_of world.old ≡ goes t w s
        → s.event ≡ event → is_enabled_in t w event ≡ true
        → IfOk result (SeenAct program (layout_of world.old.memory) t w s world.old.left world.new events.old.items events.new.items) }
{
    if begins_block(event) {
        run_block(world, events, t, event)
    } else {
        act_once(world, events, t, event)
    }
}

// The entry of a thread that does not wait, whose silent steps are paid.
fn take(
    world: &mut World<'_>,
    ahead: &mut Ahead,
    events: &mut Vec<Event>,
    t: u8,
) -> Result<Entry, AllocError>
    requires { t < length world.old.threads.alive.items }
    ensures less { OnOk result (world.new.left ≤ world.old.left) }
    ensures paid { IfOk result (λ e. e ≡ Taken → world.new.left < world.old.left) }
    ensures entered { (program : Program) (p : MemoryLayout) (w : Worlds State) (left : ℕ) → w.end ≡ None → IsReady program p t w left world.old (steps_of ahead.old)
        → IfOk result (Entered program p t w left world.new (steps_of ahead.new) events.old.items events.new.items) }
{
    let event = world.threads.next(t);
    if !world.pay() {
        return Ok(Entry::Spent);
    }
    ahead.put(t, 0);
    act(world, events, t, event)
}

// What is told of a run that stopped so.
fn told(
    world: World<'_>,
    order: Vec<u8>,
    events: Vec<Event>,
    most: u32,
    stopped: AloneEnd,
) -> AloneRun
    requires { world.left ≤ most }
    ensures order { result.order.items ≡ order.items }
    ensures events { result.events.items ≡ events.items }
    ensures out { result.out.items ≡ world.entry.out.items }
    ensures stopped { result.stopped ≡ stopped }
    ensures cost { result.cost + world.entry.left ≡ most }
{
    let World { out, left, .. } = world;
    AloneRun {
        order,
        events,
        out,
        stopped,
        cost: most - left,
    }
}

/// Runs a program by itself, for at most `most` steps. Threads take turns: turn `n` is of thread `n % s`, where `s` were
/// started so far, and is one entry, silent steps and then one event or one whole atomic block; it passes where the thread
/// cannot go on. Of an entry that does not come to its end the events are told that came, also those in its block.
pub fn run_alone<'a>(
    alloc: Global,
    bound: &'a Bound<'a>,
    input: &'a [u8],
    most: u32,
) -> Result<AloneRun, AllocError>
    requires { CanBind (typed (given bound.now)) }
    ensures { IfOk result (RunsAlone (given bound.now) input.now most) }
{
    let mut world = World::new(alloc, bound, input, most)?;
    let mut ahead = Ahead::new();
    let mut order = Vec::new(alloc);
    let mut events = Vec::new(alloc);
    let mut turn: u64 = 0;
    'entries: loop {
        if let Some(end) = world.end {
            return Ok(told(world, order, events, most, AloneEnd::Ended(end)));
        }
        match next(&mut world, &mut ahead, turn)? {
            Choice::Nobody => return Ok(told(world, order, events, most, AloneEnd::NotEnabled)),
            Choice::Spent(_, _) => return Ok(told(world, order, events, most, AloneEnd::Spent)),
            Choice::Ready(at, t) => match take(&mut world, &mut ahead, &mut events, t)? {
                Entry::Taken => {
                    order.push(t)?;
                    turn = at + 1;
                }
                Entry::Refused => {
                    return Ok(told(world, order, events, most, AloneEnd::InBlock));
                }
                Entry::Spent => return Ok(told(world, order, events, most, AloneEnd::Spent)),
            },
        }
    }
}
