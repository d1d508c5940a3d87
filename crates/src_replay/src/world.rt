//! The world in which each outermost atomic block is one indivisible step (the TS, [stmt.tx]).

ghost use Rattle.std.specs.Prelude.{◌≡◌, ◌≢◌, ◌≤◌, ◌<◌, ◌+◌, ℕ, Bool, List, [], ◌∷◌, true, false, pos, cond, nat_lt, length, Some, None, IfOk, OnOk};
ghost use Rattle.tx_events.specs.Alone.{Inner};
ghost use Rattle.tx_events.specs.World.{World as Worlds, alive, goes, lock_free, byte_of};
ghost use Rattle.tx_events.specs.declared.Reply.TheVariants.{Byte, Id};
ghost use Rattle.tx_events.specs.declared.BlockKind.{BlockKind};
ghost use Rattle.tx_events.specs.declared.Event.TheVariants.{Load, Store, Out, Inp, Spawn, Join, BeginAtomic, BeginSync, EndSync, Done, Stop};
ghost use Rattle.tx_events.specs.Thread.{is_silent as is_silent_event};
ghost use Rattle.tx_memory.specs.View.{layout_of};
ghost use Rattle.src_bind.specs.Bounds.{given};
ghost use Rattle.src_bind.specs.Tables.{CanBind, typed};
ghost use Rattle.src_mean.specs.Frames.{State};
ghost use Rattle.src_mean.specs.Linked.{Program};
ghost use Rattle.src_replay.specs.Entries.{is_enabled as is_enabled_in};
ghost use Rattle.src_replay.specs.Orders.{program_in, layout_in, first_in};
ghost use Rattle.src_replay.specs.Shown.{world_of, Stands, WentOn, Took, Acted, Skipped, InBlock, InnerStep, Stepped};
ghost use Rattle.src_replay.specs.Undone.{IsNested};
ghost use Rattle.src_replay.specs.declared.world.Entry.TheVariants.{Taken};

use crate::block::{Step, comes_inside, fits, goes_on, inside, is_size};
use crate::memories::first_memory;
use crate::nested::Nested;
use crate::threads::Threads;
use src_bind::Bound;
use src_thread::SourceThread;
use std::alloc::{AllocError, Global};
use tx_events::{End, Event, Reply, THREAD_LIMIT, Trap};
use tx_memory::Memory;

/// What an entry of an order came to.
#[derive(Clone, Copy, PartialEq, Eq)]
pub(crate) enum Entry {
    Taken,
    /// It is not enabled.
    Refused,
    /// It takes more steps than there are left.
    Spent,
}

/// Memory, threads, the lock of all synchronized blocks, the output, the input left, and the end.
#[derive(Drop)]
pub(crate) struct World<'a> {
    pub(crate) alloc: Global,
    pub(crate) memory: Memory,
    pub(crate) threads: Threads<'a>,
    pub(crate) holder: Option<u8>,
    pub(crate) depth: u64,
    pub(crate) out: Vec<u8>,
    pub(crate) input: &'a [u8],
    pub(crate) end: Option<End>,
    /// How many steps may still be taken.
    pub(crate) left: u32,
}

// Whether an event is silent.
pub(crate) fn is_silent(event: Event) -> bool
    ensures { result ≡ is_silent_event event }
{
    match event {
        Event::Silent => true,
        Event::Load { .. } | Event::Store { .. } | Event::Out { .. } | Event::Inp => false,
        Event::Spawn { .. } | Event::Join { .. } | Event::BeginAtomic { .. } => false,
        Event::EndAtomic | Event::Raise { .. } | Event::BeginSync | Event::EndSync => false,
        Event::Done | Event::Stop { .. } => false,
    }
}

// What a byte of input is answered by.
fn byte_reply(byte: u8) -> Reply
    ensures { (rest : List ℕ) → result ≡ Byte (byte_of (byte ∷ rest)) }
{
    Reply::Byte {
        value: i32::from(byte),
    }
}

// What the start of a thread of this number is answered by.
fn id_reply(number: u8) -> Reply
    ensures { result ≡ Id (pos number) }
{
    Reply::Id {
        id: i32::from(number),
    }
}

impl<'a> World<'a> {
    /// The world at the start, where thread 0 alone was started.
    pub(crate) fn new(
        alloc: Global,
        bound: &'a Bound<'a>,
        input: &'a [u8],
        most: u32,
    ) -> Result<World<'a>, AllocError>
        requires { CanBind (typed (given bound.now)) }
        ensures world { IfOk result (λ w. world_of w ≡ first_in (given bound.now) input.now) }
        ensures layout { IfOk result (λ w. layout_of w.memory ≡ layout_in (given bound.now)) }
        ensures stands { IfOk result (Stands (program_in (given bound.now))) }
        ensures left { IfOk result (λ w. w.left ≡ most) }
    {
        let main = SourceThread::main(alloc, bound)?;
        let threads = Threads::new(alloc, main)?;
        let memory = first_memory(alloc, bound, THREAD_LIMIT)?;
        Ok(World {
            alloc,
            memory,
            threads,
            holder: None,
            depth: 0,
            out: Vec::new(alloc),
            input,
            end: None,
            left: most,
        })
    }

    // One step is taken, if one is left.
    pub(crate) fn pay(&mut self) -> bool
        ensures paid { result ≡ true → self.new.left + 1 ≡ self.old.left }
        ensures spent { result ≡ false → self.old.left ≡ 0 }
        ensures less { self.new.left ≤ self.old.left }
        ensures same { self.new ≡ record self.old { left = self.new.left } }
    {
        match self.left.checked_sub(1) {
            Some(left) => {
                self.left = left;
                true
            }
            None => false,
        }
    }

    /// The step of a thread: silent steps, and one event or one whole block.
    pub(crate) fn step(&mut self, t: u8) -> Result<Entry, AllocError>
        ensures less { OnOk result (self.new.left ≤ self.old.left) }
        ensures paid { IfOk result (λ e. e ≡ Taken → self.new.left < self.old.left) }
        ensures stepped { (program : Program) → Stands program self.old → IfOk result (Stepped program (layout_of self.old.memory) t (world_of self.old) self.old.left self.new) }
    {
        if self.end.is_some() {
            return Ok(Entry::Refused);
        }
        if self.threads.is_going(t) {
            self.step_of(t)
        } else {
            Ok(Entry::Refused)
        }
    }

    // The step of a thread that was started and has not ended, where the program has not ended.
    fn step_of(&mut self, t: u8) -> Result<Entry, AllocError>
        requires { t < length self.old.threads.alive.items }
        ensures less { OnOk result (self.new.left ≤ self.old.left) }
        ensures paid { IfOk result (λ e. e ≡ Taken → self.new.left < self.old.left) }
        ensures stepped { (program : Program) (s : State) → Stands program self.old → self.old.end ≡ None → (world_of self.old).threads t ≡ alive s
            → IfOk result (Stepped program (layout_of self.old.memory) t (world_of self.old) self.old.left self.new) }
    {
        let loud = self.skip_silent(t)?;
        if !loud {
            return Ok(Entry::Spent);
        }
        let event = self.threads.next(t);
        if !self.is_enabled(t, event) {
            return Ok(Entry::Refused);
        }
        if !self.pay() {
            return Ok(Entry::Spent);
        }
        self.act(t, event)
    }

    // Takes the silent steps of a thread: `false` where more come than are left.
    pub(crate) fn skip_silent(&mut self, t: u8) -> Result<bool, AllocError>
        requires { t < length self.old.threads.alive.items }
        ensures less { OnOk result (self.new.left ≤ self.old.left) }
        ensures count { OnOk result (length self.new.threads.alive.items ≡ length self.old.threads.alive.items) }
        ensures skipped { (program : Program) (s : State) → Stands program self.old → (world_of self.old).threads t ≡ alive s
            → IfOk result (Skipped program (layout_of self.old.memory) t (world_of self.old) s self.old.left self.new) }
    {
        for _taken in 0..self.left {
            if !is_silent(self.threads.next(t)) {
                return Ok(true);
            }
            let _ = self.pay();
            self.threads.go_on(t, Reply::Nothing)?;
        }
        Ok(!is_silent(self.threads.next(t)))
    }

    // No other thread holds the lock.
    fn is_lock_free(&self, t: u8) -> bool
        ensures { result ≡ lock_free t (world_of self.now).lock }
    {
        match self.holder {
            Some(holder) => holder == t,
            None => true,
        }
    }

    // Whether a join may come now.
    fn may_join(&self, t: u8, id: i32) -> bool
        ensures { length self.now.threads.alive.items ≤ 256 → result ≡ is_enabled_in t (world_of self.now) (Join id) }
    {
        match self.threads.target(t, id) {
            Some(ended) => ended,
            None => true,
        }
    }

    // Whether an event of a thread may come now.
    pub(crate) fn is_enabled(&self, t: u8, event: Event) -> bool
        ensures { length self.now.threads.alive.items ≤ 256 → result ≡ is_enabled_in t (world_of self.now) event }
    {
        match event {
            Event::Silent | Event::EndAtomic | Event::Raise { .. } => false,
            Event::BeginAtomic { .. } | Event::BeginSync => self.is_lock_free(t),
            Event::Join { id } => self.may_join(t, id),
            Event::Load { .. } | Event::Store { .. } | Event::Out { .. } | Event::Inp => true,
            Event::Spawn { .. } | Event::EndSync | Event::Done | Event::Stop { .. } => true,
        }
    }

    // The program ends so.
    pub(crate) fn halt(&mut self, end: End) -> Result<Entry, AllocError>
        ensures left { self.new.left ≡ self.old.left }
        ensures halted { IfOk result (λ e. (e ≡ Taken) × (self.new ≡ record self.old { end = Some end })) }
    {
        self.end = Some(end);
        Ok(Entry::Taken)
    }

    // The thread goes on.
    fn goes(&mut self, t: u8, reply: Reply) -> Result<Entry, AllocError>
        requires { t < length self.old.threads.alive.items }
        ensures left { self.new.left ≡ self.old.left }
        ensures went { (program : Program) (s : State) → Stands program self.old → (world_of self.old).threads t ≡ alive s
            → IfOk result (WentOn program t s reply self.old self.new) }
    {
        self.threads.go_on(t, reply)?;
        Ok(Entry::Taken)
    }

    // An enabled event comes.
    pub(crate) fn act(&mut self, t: u8, event: Event) -> Result<Entry, AllocError>
        requires { t < length self.old.threads.alive.items }
        ensures less { OnOk result (self.new.left ≤ self.old.left) }
        ensures acted { (program : Program) (w : Worlds State) (s : State) → Stands program self.old → w.end ≡ None → world_of self.old ≡ goes t w s → s.event ≡ event
            → is_enabled_in t w event ≡ true → IfOk result (Acted program (layout_of self.old.memory) t w s self.old.left self.new) }
    {
        match event {
            Event::Load { addr, size, .. } => self.load(t, addr, size),
            Event::Store {
                addr,
                size,
                value,
                ..
            } => self.store(t, addr, size, value),
            Event::Out { byte } => self.write(t, byte),
            Event::Inp => self.read(t),
            Event::Spawn { func, arg } => self.spawn(t, func, arg),
            Event::Join { id } => self.join(t, id),
            Event::BeginAtomic { .. } => self.run_block(t),
            Event::BeginSync => self.lock(t),
            Event::EndSync => self.unlock(t),
            Event::Done => self.finish(t),
            Event::Stop { end } => self.stop(end),
            Event::Silent | Event::EndAtomic | Event::Raise { .. } => Ok(Entry::Refused),
        }
    }

    // The thread stops the program.
    fn stop(&mut self, end: End) -> Result<Entry, AllocError>
        ensures left { self.new.left ≡ self.old.left }
        ensures took { (program : Program) (t : ℕ) (w : Worlds State) (s : State) → Stands program self.old → w.end ≡ None → world_of self.old ≡ goes t w s
            → IfOk result (Took program t w s (Stop end) self.old self.new) }
    {
        self.halt(end)
    }

    // A byte is written.
    fn write(&mut self, t: u8, byte: u8) -> Result<Entry, AllocError>
        requires { t < length self.old.threads.alive.items }
        ensures left { OnOk result (self.new.left ≡ self.old.left) }
        ensures took { (program : Program) (w : Worlds State) (s : State) → Stands program self.old → w.end ≡ None → world_of self.old ≡ goes t w s
            → IfOk result (Took program t w s (Out byte) self.old self.new) }
    {
        self.out.push(byte)?;
        self.goes(t, Reply::Nothing)
    }

    // The next byte of input, or -1 at its end.
    fn read(&mut self, t: u8) -> Result<Entry, AllocError>
        requires { t < length self.old.threads.alive.items }
        ensures left { OnOk result (self.new.left ≡ self.old.left) }
        ensures took { (program : Program) (w : Worlds State) (s : State) → Stands program self.old → w.end ≡ None → world_of self.old ≡ goes t w s
            → IfOk result (Took program t w s Inp self.old self.new) }
    {
        match self.input.split_first() {
            Some((first, others)) => {
                let reply = byte_reply(*first);
                self.input = others;
                self.goes(t, reply)
            }
            None => self.goes(t, Reply::Byte { value: -1 }),
        }
    }

    // A thread is joined that has ended, or that may not be joined.
    fn join(&mut self, t: u8, id: i32) -> Result<Entry, AllocError>
        requires { t < length self.old.threads.alive.items }
        ensures left { OnOk result (self.new.left ≡ self.old.left) }
        ensures took { (program : Program) (w : Worlds State) (s : State) → Stands program self.old → w.end ≡ None → world_of self.old ≡ goes t w s
            → is_enabled_in t w (Join id) ≡ true → IfOk result (Took program t w s (Join id) self.old self.new) }
    {
        if self.threads.target(t, id).is_some() {
            self.goes(t, Reply::Nothing)
        } else {
            self.halt(End::Trapped(Trap::BadJoin))
        }
    }

    // The thread holds the lock once more. A depth that no number of 64 bits says counts as want of memory.
    fn lock(&mut self, t: u8) -> Result<Entry, AllocError>
        requires { t < length self.old.threads.alive.items }
        ensures left { OnOk result (self.new.left ≡ self.old.left) }
        ensures took { (program : Program) (w : Worlds State) (s : State) → Stands program self.old → w.end ≡ None → world_of self.old ≡ goes t w s
            → is_enabled_in t w BeginSync ≡ true → IfOk result (Took program t w s BeginSync self.old self.new) }
    {
        let Some(depth) = self.depth.checked_add(1) else {
            return Err(AllocError);
        };
        self.holder = Some(t);
        self.depth = depth;
        self.goes(t, Reply::Nothing)
    }

    // Who holds the lock, where it is held once less.
    fn holder_left(&self) -> Option<u8>
        ensures { result ≡ cond (nat_lt 1 self.now.depth) self.now.holder None }
    {
        if self.depth > 1 { self.holder } else { None }
    }

    // It holds it once less, and at 0 no one does.
    fn unlock(&mut self, t: u8) -> Result<Entry, AllocError>
        requires { t < length self.old.threads.alive.items }
        ensures left { OnOk result (self.new.left ≡ self.old.left) }
        ensures took { (program : Program) (w : Worlds State) (s : State) → Stands program self.old → w.end ≡ None → world_of self.old ≡ goes t w s
            → IfOk result (Took program t w s EndSync self.old self.new) }
    {
        self.holder = self.holder_left();
        self.depth = self.depth.saturating_sub(1);
        self.goes(t, Reply::Nothing)
    }

    // Reads memory.
    fn load(&mut self, t: u8, addr: u64, size: u8) -> Result<Entry, AllocError>
        requires { t < length self.old.threads.alive.items }
        ensures left { OnOk result (self.new.left ≡ self.old.left) }
        ensures took { (program : Program) (w : Worlds State) (s : State) (volatile : Bool) → Stands program self.old → w.end ≡ None → world_of self.old ≡ goes t w s
            → s.event ≡ Load addr size volatile → IfOk result (Took program t w s (Load addr size volatile) self.old self.new) }
    {
        if !is_size(size) {
            return Ok(Entry::Refused);
        }
        match self.memory.load(addr, size) {
            Some(value) => self.goes(t, Reply::Loaded { value }),
            None => self.halt(End::Trapped(Trap::BadAddress)),
        }
    }

    // Writes to memory.
    fn store(&mut self, t: u8, addr: u64, size: u8, value: u64) -> Result<Entry, AllocError>
        requires { t < length self.old.threads.alive.items }
        ensures left { OnOk result (self.new.left ≡ self.old.left) }
        ensures took { (program : Program) (w : Worlds State) (s : State) (volatile : Bool) → Stands program self.old → w.end ≡ None → world_of self.old ≡ goes t w s
            → s.event ≡ Store addr size value volatile → IfOk result (Took program t w s (Store addr size value volatile) self.old self.new) }
    {
        if !fits(size, value) {
            return Ok(Entry::Refused);
        }
        if self.memory.store(addr, size, value) {
            self.goes(t, Reply::Nothing)
        } else {
            self.halt(End::Trapped(Trap::BadAddress))
        }
    }

    // Starts a thread.
    fn spawn(&mut self, t: u8, func: u64, arg: i64) -> Result<Entry, AllocError>
        requires { t < length self.old.threads.alive.items }
        ensures left { OnOk result (self.new.left ≡ self.old.left) }
        ensures took { (program : Program) (w : Worlds State) (s : State) → Stands program self.old → w.end ≡ None → world_of self.old ≡ goes t w s
            → IfOk result (Took program t w s (Spawn func arg) self.old self.new) }
    {
        let count = self.threads.count();
        if count >= usize::from(THREAD_LIMIT) {
            return self.halt(End::Trapped(Trap::TooManyThreads));
        }
        let number = count as u8;
        self.threads.start(t, number, func, arg)?;
        self.goes(t, id_reply(number))
    }

    // The thread ends.
    fn finish(&mut self, t: u8) -> Result<Entry, AllocError>
        requires { t < length self.old.threads.alive.items }
        ensures left { OnOk result (self.new.left ≡ self.old.left) }
        ensures took { (program : Program) (w : Worlds State) (s : State) → Stands program self.old → w.end ≡ None → world_of self.old ≡ goes t w s
            → IfOk result (Took program t w s Done self.old self.new) }
    {
        self.threads.go_on(t, Reply::Nothing)?;
        self.threads.end(t);
        Ok(Entry::Taken)
    }

    // Runs an outermost atomic block to its end.
    fn run_block(&mut self, t: u8) -> Result<Entry, AllocError>
        requires { t < length self.old.threads.alive.items }
        ensures less { OnOk result (self.new.left ≤ self.old.left) }
        ensures acted { (program : Program) (w : Worlds State) (s : State) (kind : BlockKind) → Stands program self.old → w.end ≡ None → world_of self.old ≡ goes t w s
            → s.event ≡ BeginAtomic kind → is_enabled_in t w (BeginAtomic kind) ≡ true → IfOk result (Acted program (layout_of self.old.memory) t w s self.old.left self.new) }
    {
        let mut nested = Nested::new(self.alloc);
        nested.begin()?;
        self.threads.go_on(t, Reply::Nothing)?;
        for _taken in 0..self.left {
            let step = self.step_in_block(t, &mut nested)?;
            let _ = self.pay();
            match step {
                // No block goes on without one that is open.
                Step::Goes => {
                    if !nested.is_open() {
                        return Ok(Entry::Refused);
                    }
                }
                Step::Leaves => return Ok(Entry::Taken),
                Step::Halts(end) => return self.halt(end),
                // It is the step of no checked program.
                Step::Never => return Ok(Entry::Refused),
            }
        }
        if comes_inside(self.threads.next(t)) {
            Ok(Entry::Spent)
        } else {
            Ok(Entry::Refused)
        }
    }

    // One step in a block.
    pub(crate) fn step_in_block(&mut self, t: u8, nested: &mut Nested) -> Result<Step, AllocError>
        requires at { t < length self.old.threads.alive.items }
        requires nested { IsNested (layout_of self.old.memory) nested.old }
        requires open { nested.old.marks.items ≢ [] }
        ensures layout { layout_of self.new.memory ≡ layout_of self.old.memory }
        ensures count { length self.new.threads.alive.items ≡ length self.old.threads.alive.items }
        ensures nested { IfOk result (λ step. IsNested (layout_of self.old.memory) nested.new) }
        ensures same { self.new ≡ record self.old { memory = self.new.memory; threads = self.new.threads } }
        ensures steps { (program : Program) (w : Worlds State) (i : Inner State) → Stands program self.old → InBlock t w i self.old nested.old
            → IfOk result (InnerStep program (layout_of self.old.memory) t w i self.new nested.new) }
    {
        let event = self.threads.next(t);
        let done = inside(event, &mut self.memory, nested)?;
        if goes_on(done.step) {
            self.threads.go_on(t, done.reply)?;
            Ok(done.step)
        } else {
            Ok(done.step)
        }
    }
}
