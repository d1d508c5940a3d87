//! What is kept of one thread.
ghost use Rattle.std.specs.Prelude.{◌≡◌, ◌+◌, ◌-◌, ◌++◌, ◌∷◌, [], OnOk, IfOk};
ghost use Rattle.turn_traces.specs.Keeper.{kept_of};
ghost use Rattle.turn_traces.specs.Keeping.{kept_after, given_up, nothing_kept, with_access, with_atomic, without_atomic};

use std::alloc::{AllocError, Global};
use tx_events::{Event, What};

/// Of one thread: its open blocks, and what it has done in the outermost atomic one.
#[derive(Drop)]
pub(crate) struct ThreadTrace {
    pub(crate) open_blocks: u32,
    /// How many of the open blocks are atomic.
    pub(crate) atomic_blocks: u32,
    /// How many blocks were open once the outermost atomic one was entered.
    pub(crate) at_entry: u32,
    /// The accesses since then.
    pub(crate) accesses: Vec<What>,
}

// A number that does not fit is want of memory: no run opens so many blocks.
fn one_more(count: u32) -> Result<u32, AllocError>
    ensures { IfOk result (λ n. n ≡ count + 1) }
{
    match count.checked_add(1) {
        Some(more) => Ok(more),
        None => Err(AllocError),
    }
}

fn one_less(count: u32) -> u32
    ensures { result ≡ count - 1 }
{
    if count == 0 { 0 } else { count - 1 }
}

impl ThreadTrace {
    /// A thread that has done nothing.
    pub(crate) fn new(alloc: Global) -> ThreadTrace
        ensures { kept_of result ≡ nothing_kept }
    {
        ThreadTrace {
            open_blocks: 0,
            atomic_blocks: 0,
            at_entry: 0,
            accesses: Vec::new(alloc),
        }
    }

    /// An access is kept where an atomic block is open.
    fn access(&mut self, what: What) -> Result<(), AllocError>
        ensures { OnOk result (kept_of self.new ≡ with_access what (kept_of self.old)) }
    {
        if self.atomic_blocks == 0 {
            return Ok(());
        }
        self.accesses.push(what)?;
        Ok(())
    }

    fn enter_atomic(&mut self) -> Result<(), AllocError>
        ensures { OnOk result (kept_of self.new ≡ with_atomic (kept_of self.old)) }
    {
        let open_blocks = one_more(self.open_blocks)?;
        let atomic_blocks = one_more(self.atomic_blocks)?;
        if self.atomic_blocks == 0 {
            self.at_entry = open_blocks;
            self.accesses.clear();
        }
        self.open_blocks = open_blocks;
        self.atomic_blocks = atomic_blocks;
        Ok(())
    }

    fn leave_atomic(&mut self)
        ensures { kept_of self.new ≡ without_atomic (kept_of self.old) }
    {
        self.open_blocks = one_less(self.open_blocks);
        self.atomic_blocks = one_less(self.atomic_blocks);
    }

    /// The thread has executed this event.
    pub(crate) fn go_on(&mut self, event: Event) -> Result<(), AllocError>
        ensures { OnOk result (kept_of self.new ≡ kept_after event (kept_of self.old)) }
    {
        match event {
            Event::Load { addr, size, .. } => self.access(What::Read { addr, size }),
            Event::Store { addr, size, .. } => self.access(What::Write { addr, size }),
            Event::BeginAtomic { .. } => self.enter_atomic(),
            Event::EndAtomic => {
                self.leave_atomic();
                Ok(())
            }
            Event::Raise { .. } => {
                self.leave_atomic();
                Ok(())
            }
            Event::BeginSync => {
                self.open_blocks = one_more(self.open_blocks)?;
                Ok(())
            }
            Event::EndSync => {
                self.open_blocks = one_less(self.open_blocks);
                Ok(())
            }
            Event::Silent => Ok(()),
            Event::Out { .. } => Ok(()),
            Event::Inp => Ok(()),
            Event::Spawn { .. } => Ok(()),
            Event::Join { .. } => Ok(()),
            Event::Done => Ok(()),
            Event::Stop { .. } => Ok(()),
        }
    }

    /// Its transaction gives up.
    pub(crate) fn give_up(&mut self)
        ensures { kept_of self.new ≡ given_up (kept_of self.old) }
    {
        self.open_blocks = self.at_entry;
        self.atomic_blocks = 1;
        self.accesses.clear();
    }
}
