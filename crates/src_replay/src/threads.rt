//! The threads that were started.

ghost use Rattle.std.specs.Prelude.{◌≡◌, ◌<◌, ◌≤◌, [], ◌∷◌, true, false, pos, length, Some, option_map, IfOk, OnOk};
ghost use Rattle.src_mean.specs.Frames.{State};
ghost use Rattle.src_mean.specs.Linked.{Program};
ghost use Rattle.src_mean.specs.Source.{source};
ghost use Rattle.tx_events.specs.Memory.{MemoryLayout};
ghost use Rattle.tx_events.specs.World.{Alive as Started, alive, target};
ghost use Rattle.src_replay.specs.Entries.{is_going, has_ended};
ghost use Rattle.src_replay.specs.Shown.{threads_of, Stand, IsSet, IsMore};

use src_thread::SourceThread;
use std::alloc::{AllocError, Global};
use tx_events::{Event, Reply};

/// A thread that was started.
#[derive(Drop)]
pub(crate) struct Alive<'a> {
    pub(crate) thread: SourceThread<'a>,
    pub(crate) ended: bool,
}

/// The threads that were started, by their numbers.
#[derive(Drop)]
pub(crate) struct Threads<'a> {
    pub(crate) alive: Vec<Alive<'a>>,
}

impl<'a> Threads<'a> {
    /// Thread 0 alone.
    pub(crate) fn new(alloc: Global, main: SourceThread<'a>) -> Result<Threads<'a>, AllocError>
        ensures { IfOk result (λ t. t.alive.items ≡ record { thread = main.entry; ended = false } ∷ []) }
    {
        let mut alive = Vec::new(alloc);
        alive.push(Alive {
            thread: main,
            ended: false,
        })?;
        Ok(Threads { alive })
    }

    /// How many were started.
    pub(crate) fn count(&self) -> usize
        ensures { result ≡ length self.now.alive.items }
    {
        self.alive.len()
    }

    /// Whether the thread was started and has not ended.
    pub(crate) fn is_going(&self, t: u8) -> bool
        ensures { result ≡ is_going (threads_of self.now.alive.items t) }
    {
        match self.alive.get(t as usize) {
            Some(alive) => !alive.ended,
            None => false,
        }
    }

    /// The next event of a thread that was started.
    pub(crate) fn next(&self, t: u8) -> Event
        requires { t < length self.now.alive.items }
        ensures { (s : Started State) → threads_of self.now.alive.items t ≡ Some s → result ≡ s.state.event }
    {
        let alive = &self.alive[t as usize];
        alive.thread.next()
    }

    /// The thread, which has not ended, goes on with a reply.
    pub(crate) fn go_on(&mut self, t: u8, reply: Reply) -> Result<(), AllocError>
        requires { t < length self.old.alive.items }
        ensures count { length self.new.alive.items ≡ length self.old.alive.items }
        ensures set { (program : Program) (p : MemoryLayout) (s : State) → Stand program p self.old.alive.items → threads_of self.old.alive.items t ≡ alive s
            → OnOk result (IsSet program p t (record { state = (source program).after s reply; ended = false }) self.old.alive.items self.new.alive.items) }
    {
        let alive = &mut self.alive[t as usize];
        alive.thread.go_on(reply)
    }

    /// The thread ends.
    pub(crate) fn end(&mut self, t: u8)
        requires { t < length self.old.alive.items }
        ensures { (program : Program) (p : MemoryLayout) (s : State) → Stand program p self.old.alive.items → threads_of self.old.alive.items t ≡ alive s
            → IsSet program p t (record { state = s; ended = true }) self.old.alive.items self.new.alive.items }
    {
        let alive = &mut self.alive[t as usize];
        alive.ended = true;
    }

    /// Starts a thread of this number, as this one asks for.
    pub(crate) fn start(&mut self, t: u8, number: u8, func: u64, arg: i64) -> Result<(), AllocError>
        requires { t < length self.old.alive.items }
        ensures count { length self.old.alive.items ≤ length self.new.alive.items }
        ensures more { (program : Program) (p : MemoryLayout) (s : State) → Stand program p self.old.alive.items → threads_of self.old.alive.items t ≡ alive s
            → OnOk result (IsMore program ((source program).child s number func arg) self.old.alive.items self.new.alive.items) }
    {
        let alive = &self.alive[t as usize];
        let thread = alive.thread.start(number, func, arg)?;
        self.alive.push(Alive {
            thread,
            ended: false,
        })?;
        Ok(())
    }

    /// Whether the thread of that number has ended, where this one may join it: not thread 0, and not itself.
    pub(crate) fn target(&self, t: u8, id: i32) -> Option<bool>
        ensures { length self.now.alive.items ≤ 256 → result ≡ option_map has_ended (target t id (threads_of self.now.alive.items)) }
    {
        match u8::try_from(id) {
            Ok(number) => self.target_number(t, number),
            Err(_) => None,
        }
    }

    // The same of a number that a thread can have.
    fn target_number(&self, t: u8, number: u8) -> Option<bool>
        ensures { result ≡ option_map has_ended (target t (pos number) (threads_of self.now.alive.items)) }
    {
        if number == 0 {
            return None;
        }
        if number == t {
            return None;
        }
        match self.alive.get(number as usize) {
            Some(alive) => Some(alive.ended),
            None => None,
        }
    }
}
