//! Who keeps the trace.
ghost use Rattle.std.specs.Prelude.{◌≡◌, ◌<◌, ◌+◌, ◌++◌, ◌==◌, ◌∷◌, [], ℕ, Bool, cond, length, Some, None, OnOk, IfOk};
ghost use Rattle.tx_events.specs.declared.TurnKind.TheVariants.{Ran, Rolled};
ghost use Rattle.tx_serial.specs.Trace.{item_if};
ghost use Rattle.tx_serial.specs.Turn.{number_of};
ghost use Rattle.tx_events.specs.declared.What.TheVariants.{Joined};
ghost use Rattle.turn_traces.specs.Keeper.{kept_of, keeping_of};
ghost use Rattle.turn_traces.specs.Keeping.{gained, started_after, block_so_far, whole_block, named, not_kept, shown, told, told_of, access_outside};

use crate::thread_trace::ThreadTrace;
use std::alloc::{AllocError, Global};
use tx_events::{End, Event, Item, THREAD_LIMIT, Trace, TurnKind, What};

/// Keeps the trace of a run whose turns it is shown and told.
#[derive(Drop)]
pub struct TraceKeeper {
    pub(crate) items: Vec<Item>,
    pub(crate) threads: Vec<ThreadTrace>,
    /// How many threads were started.
    pub(crate) started: u8,
    /// The thread of the turn that comes, and its next event, if it was started.
    pub(crate) thread: u8,
    pub(crate) event: Option<Event>,
}

/// One more item of thread `t`.
fn put(items: &mut Vec<Item>, t: u8, what: What) -> Result<(), AllocError>
    ensures { OnOk result (items.new.items ≡ items.old.items ++ record { t = t; what = what } ∷ []) }
{
    items.push(Item { t, what })?;
    Ok(())
}

/// And where this holds.
fn put_if(items: &mut Vec<Item>, holds: bool, t: u8, what: What) -> Result<(), AllocError>
    ensures { OnOk result (items.new.items ≡ items.old.items ++ item_if holds t what) }
{
    if holds { put(items, t, what) } else { Ok(()) }
}

/// The atomic block of the thread, as far as it went.
fn put_block(items: &mut Vec<Item>, t: u8, thread: &ThreadTrace) -> Result<(), AllocError>
    ensures { OnOk result (items.new.items ≡ items.old.items ++ block_so_far t (kept_of thread.now)) }
{
    put_if(items, thread.at_entry == 1, t, What::Enter)?;
    put_all(items, t, &thread.accesses)
}

/// These items of the thread.
fn put_all(items: &mut Vec<Item>, t: u8, whats: &Vec<What>) -> Result<(), AllocError>
    ensures { OnOk result (items.new.items ≡ items.old.items ++ named t whats.now.items) }
{
    for what in whats {
        put(items, t, *what)?;
    }
    Ok(())
}

/// The whole atomic block of the thread.
fn put_whole(items: &mut Vec<Item>, t: u8, thread: &ThreadTrace) -> Result<(), AllocError>
    ensures { OnOk result (items.new.items ≡ items.old.items ++ whole_block t (kept_of thread.now)) }
{
    put_block(items, t, thread)?;
    put_if(items, thread.at_entry == 1, t, What::Leave)
}

/// An atomic block ends: the trace gains it where it is the outermost.
fn put_ended(
    items: &mut Vec<Item>,
    outermost: bool,
    t: u8,
    thread: &ThreadTrace,
) -> Result<(), AllocError>
    ensures { OnOk result (items.new.items ≡ items.old.items ++ cond outermost (whole_block t (kept_of thread.now)) []) }
{
    if outermost {
        put_whole(items, t, thread)
    } else {
        Ok(())
    }
}

/// The program has ended: the trace gains the atomic block, as far as it went, unless none is open.
fn put_halted(
    items: &mut Vec<Item>,
    outside: bool,
    t: u8,
    thread: &ThreadTrace,
) -> Result<(), AllocError>
    ensures { OnOk result (items.new.items ≡ items.old.items ++ cond outside [] (block_so_far t (kept_of thread.now))) }
{
    if outside {
        Ok(())
    } else {
        put_block(items, t, thread)
    }
}

/// What the trace gains where the thread has executed this event.
fn put_step(
    items: &mut Vec<Item>,
    t: u8,
    started: u8,
    event: Event,
    thread: &ThreadTrace,
) -> Result<(), AllocError>
    ensures { OnOk result (items.new.items ≡ items.old.items ++ gained t started event (kept_of thread.now)) }
{
    match event {
        Event::Load { addr, size, .. } => {
            put_if(
                items,
                thread.atomic_blocks == 0,
                t,
                What::Read { addr, size },
            )
        }
        Event::Store { addr, size, .. } => {
            put_if(
                items,
                thread.atomic_blocks == 0,
                t,
                What::Write { addr, size },
            )
        }
        Event::EndAtomic => put_ended(items, thread.atomic_blocks == 1, t, thread),
        Event::Raise { .. } => put_ended(items, thread.atomic_blocks == 1, t, thread),
        Event::BeginSync => put_if(items, thread.open_blocks == 0, t, What::Enter),
        Event::EndSync => put_if(items, thread.open_blocks == 1, t, What::Leave),
        Event::Spawn { .. } => put(items, t, What::Spawned { child: started }),
        Event::Join { id } => put_join(items, t, id),
        Event::BeginAtomic { .. } => Ok(()),
        Event::Silent => Ok(()),
        Event::Out { .. } => Ok(()),
        Event::Inp => Ok(()),
        Event::Done => Ok(()),
        Event::Stop { .. } => Ok(()),
    }
}

// A number that no thread has is want of memory: no run joins one.
fn put_join(items: &mut Vec<Item>, t: u8, id: i32) -> Result<(), AllocError>
    ensures { OnOk result (items.new.items ≡ items.old.items ++ record { t = t; what = Joined (number_of id) } ∷ []) }
{
    if id < 0 {
        return Err(AllocError);
    }
    if id > 255 {
        return Err(AllocError);
    }
    put(items, t, What::Joined { child: id as u8 })
}

// How many threads are started, once the event is executed.
fn count(started: u8, event: Event) -> Result<u8, AllocError>
    ensures { IfOk result (λ n. n ≡ started_after event started) }
{
    match event {
        Event::Spawn { .. } => match started.checked_add(1) {
            Some(more) => Ok(more),
            None => Err(AllocError),
        },
        Event::Load { .. } => Ok(started),
        Event::Store { .. } => Ok(started),
        Event::BeginAtomic { .. } => Ok(started),
        Event::EndAtomic => Ok(started),
        Event::Raise { .. } => Ok(started),
        Event::BeginSync => Ok(started),
        Event::EndSync => Ok(started),
        Event::Silent => Ok(started),
        Event::Out { .. } => Ok(started),
        Event::Inp => Ok(started),
        Event::Join { .. } => Ok(started),
        Event::Done => Ok(started),
        Event::Stop { .. } => Ok(started),
    }
}

impl TraceKeeper {
    /// Nothing has happened.
    pub fn new(alloc: Global) -> Result<TraceKeeper, AllocError>
        ensures { IfOk result (λ k. keeping_of k ≡ not_kept) }
    {
        let mut threads = Vec::new(alloc);
        for _thread in 0..THREAD_LIMIT {
            threads.push(ThreadTrace::new(alloc))?;
        }
        Ok(TraceKeeper {
            items: Vec::new(alloc),
            threads,
            started: 1,
            thread: 0,
            event: None,
        })
    }

    /// A turn of this thread comes, which has this next event, if it was started.
    pub fn show(&mut self, thread: u8, event: Option<Event>)
        ensures { keeping_of self.new ≡ shown (keeping_of self.old) thread event }
    {
        self.thread = thread;
        self.event = event;
    }

    /// The turn was of this kind, and the program's end is this one, if it has come.
    pub fn tell(&mut self, kind: TurnKind, end: Option<End>) -> Result<(), AllocError>
        ensures { OnOk result (keeping_of self.new ≡ told (keeping_of self.old) kind end) }
    {
        match self.event {
            Some(event) => self.tell_event(event, kind, end),
            None => Ok(()),
        }
    }

    fn tell_event(
        &mut self,
        event: Event,
        kind: TurnKind,
        end: Option<End>,
    ) -> Result<(), AllocError>
        ensures { OnOk result (keeping_of self.new ≡ told_of (keeping_of self.old) event kind end) }
    {
        match kind {
            TurnKind::Ran => self.run(event, end),
            TurnKind::Rolled { word, holder } => self.roll(event, word, holder, end),
            TurnKind::Waited { .. } => Ok(()),
            TurnKind::BlockWait { .. } => Ok(()),
            TurnKind::JoinWait { .. } => Ok(()),
            TurnKind::Undone { .. } => Ok(()),
            TurnKind::Released { .. } => Ok(()),
            TurnKind::Idle => Ok(()),
        }
    }

    /// The thread has executed its event, or the program has ended in its turn.
    fn run(&mut self, event: Event, end: Option<End>) -> Result<(), AllocError>
        ensures { OnOk result (keeping_of self.new ≡ told_of (keeping_of self.old) event Ran end) }
    {
        match end {
            None => self.step(event),
            Some(end) => self.halt(event, end),
        }
    }

    /// The trace so far.
    pub fn into_trace(self) -> Trace
        ensures { result.items.items ≡ (keeping_of self).items }
    {
        Trace { items: self.items }
    }

    /// The thread has executed its event.
    fn step(&mut self, event: Event) -> Result<(), AllocError>
        ensures { OnOk result (keeping_of self.new ≡ told_of (keeping_of self.old) event Ran None) }
    {
        let at = self.thread as usize;
        if at >= self.threads.len() {
            return Err(AllocError);
        }
        let thread = &self.threads[at];
        put_step(&mut self.items, self.thread, self.started, event, thread)?;
        self.started = count(self.started, event)?;
        let changed = &mut self.threads[at];
        changed.go_on(event)
    }

    /// The program has ended in the thread's turn.
    fn halt(&mut self, event: Event, end: End) -> Result<(), AllocError>
        ensures { OnOk result (keeping_of self.new ≡ told_of (keeping_of self.old) event Ran (Some end)) }
    {
        let at = self.thread as usize;
        if at >= self.threads.len() {
            return Err(AllocError);
        }
        let thread = &self.threads[at];
        put_halted(
            &mut self.items,
            thread.atomic_blocks == 0,
            self.thread,
            thread,
        )
    }

    /// The thread's transaction gives up.
    fn roll(
        &mut self,
        event: Event,
        word: u64,
        holder: u8,
        end: Option<End>,
    ) -> Result<(), AllocError>
        ensures { OnOk result (keeping_of self.new ≡ told_of (keeping_of self.old) event (Rolled word holder) end) }
    {
        let at = self.thread as usize;
        if at >= self.threads.len() {
            return Err(AllocError);
        }
        let thread = &mut self.threads[at];
        thread.give_up();
        Ok(())
    }
}
