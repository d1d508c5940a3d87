//! Whose entry is next, where threads take turns.

ghost use Rattle.std.specs.Prelude.{◌≡◌, ◌≤◌, ◌<◌, ◌+◌, ◌%◌, ◌^◌, ℕ, length, true, None, Ok, IfOk, OnOk};
ghost use Rattle.tx_events.specs.Memory.{update};
ghost use Rattle.tx_events.specs.World.{World as Worlds};
ghost use Rattle.tx_memory.specs.View.{layout_of};
ghost use Rattle.src_mean.specs.Frames.{State};
ghost use Rattle.src_mean.specs.Linked.{Program};
ghost use Rattle.src_replay.specs.Entries.{is_going};
ghost use Rattle.src_replay.specs.Shown.{Stands};
ghost use Rattle.src_replay.specs.Turns.{steps_of, IsAhead, Looked, Chosen};
ghost use Rattle.src_replay.specs.declared.turns.Choice.TheVariants.{Ready};

use crate::world::World;
use std::alloc::AllocError;

/// How many threads a number of 8 bits tells apart.
const NUMBERS: usize = 256;

/// How many silent steps of its next entry each thread has taken already, by its number.
#[derive(Drop)]
pub(crate) struct Ahead {
    pub(crate) steps: [u32; NUMBERS],
}

impl Ahead {
    /// None has taken any.
    pub(crate) fn new() -> Ahead
        ensures { (k : ℕ) → steps_of result k ≡ 0 }
    {
        Ahead {
            steps: [0; NUMBERS],
        }
    }

    /// Those of this thread.
    pub(crate) fn of(&self, t: u8) -> u32
        ensures { result ≡ steps_of self.now t }
    {
        self.steps[usize::from(t)]
    }

    /// This thread has taken so many.
    pub(crate) fn put(&mut self, t: u8, steps: u32)
        ensures { (k : ℕ) → steps_of self.new k ≡ update (steps_of self.old) t steps k }
    {
        self.steps[usize::from(t)] = steps;
    }
}

/// What a thread comes to behind its silent steps.
#[derive(Clone, Copy, PartialEq, Eq)]
pub(crate) enum Look {
    /// An event that is enabled.
    Ready,
    /// One that is not; or it was not started, or has ended.
    Waits,
    /// It takes more silent steps than there are left.
    Spent,
}

/// Whose entry is next.
#[derive(Clone, Copy, PartialEq, Eq)]
pub(crate) enum Choice {
    /// No thread can go on.
    Nobody,
    /// That of this turn and thread, and its event is enabled.
    Ready(u64, u8),
    /// That of this turn and thread, and it takes more silent steps than there are left.
    Spent(u64, u8),
}

// Takes the silent steps of a thread that goes, as far as the steps that are left allow, of which those it has taken
// already are paid now. They stay paid where its event is enabled.
fn look_at(world: &mut World<'_>, ahead: &mut Ahead, t: u8) -> Result<Look, AllocError>
    requires { t < length world.old.threads.alive.items }
    ensures less { OnOk result (world.new.left ≤ world.old.left) }
    ensures count { OnOk result (length world.new.threads.alive.items ≡ length world.old.threads.alive.items) }
    ensures looked { (program : Program) (w : Worlds State) → Stands program world.old → w.end ≡ None → IsAhead program (steps_of ahead.old) w world.old → is_going (w.threads t) ≡ true
        → IfOk result (Looked program (layout_of world.old.memory) t w world.old.left world.new (steps_of ahead.new)) }
{
    let left = world.left;
    let Some(rest) = left.checked_sub(ahead.of(t)) else {
        world.left = 0;
        return Ok(Look::Spent);
    };
    world.left = rest;
    let loud = world.skip_silent(t)?;
    if !loud {
        return Ok(Look::Spent);
    }
    ahead.put(t, left - world.left);
    if world.is_enabled(t, world.threads.next(t)) {
        Ok(Look::Ready)
    } else {
        world.left = left;
        Ok(Look::Waits)
    }
}

// The same of any thread.
fn ask(world: &mut World<'_>, ahead: &mut Ahead, t: u8) -> Result<Look, AllocError>
    requires { t < length world.old.threads.alive.items }
    ensures less { OnOk result (world.new.left ≤ world.old.left) }
    ensures count { OnOk result (length world.new.threads.alive.items ≡ length world.old.threads.alive.items) }
    ensures looked { (program : Program) (w : Worlds State) → Stands program world.old → w.end ≡ None → IsAhead program (steps_of ahead.old) w world.old
        → IfOk result (Looked program (layout_of world.old.memory) t w world.old.left world.new (steps_of ahead.new)) }
{
    if world.threads.is_going(t) {
        look_at(world, ahead, t)
    } else {
        Ok(Look::Waits)
    }
}

// The thread of a turn, where so many were started.
fn thread_of(turn: u64, count: usize) -> u8
    requires some { 0 < count }
    requires few { count ≤ 256 }
    ensures is { result ≡ turn % count }
    ensures within { result < count }
{
    (turn % count as u64) as u8
}

/// The first turn from this one on whose thread can go on. Turns are of thread 0, 1, .. in a circle, as many as were
/// started, so that as many turns are looked at.
pub(crate) fn next(
    world: &mut World<'_>,
    ahead: &mut Ahead,
    turn: u64,
) -> Result<Choice, AllocError>
    requires few { length world.old.threads.alive.items ≤ 256 }
    requires early { turn + 256 < 2 ^ 64 }
    ensures less { OnOk result (world.new.left ≤ world.old.left) }
    ensures within { (k t : ℕ) → result ≡ Ok (Ready k t) → t < length world.new.threads.alive.items }
    ensures chosen { (program : Program) (w : Worlds State) → Stands program world.old → w.end ≡ None → IsAhead program (steps_of ahead.old) w world.old
        → IfOk result (Chosen program (layout_of world.old.memory) turn w world.old.left world.new (steps_of ahead.new)) }
{
    let count = world.threads.count();
    for passed in 0..count {
        let at = turn + passed as u64;
        let t = thread_of(at, count);
        match ask(world, ahead, t)? {
            Look::Ready => return Ok(Choice::Ready(at, t)),
            Look::Spent => return Ok(Choice::Spent(at, t)),
            Look::Waits => {}
        }
    }
    Ok(Choice::Nobody)
}
