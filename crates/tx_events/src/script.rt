//! A thread that is a list of events: a plain actor, for tests.
ghost use Rattle.std.specs.Prelude.{◌≡◌, true};
ghost use Rattle.tx_events.specs.Script.{Cursor, IsLawful, is_lawful, script};
ghost use Rattle.tx_events.specs.ScriptLaws.{script_laws};
ghost use Rattle.tx_events.specs.declared.Reply.TheVariants.{Nothing};

use crate::{Actor, Event, Reply};
use std::alloc::AllocError;

/// The events of all functions, one function after another, and the index of the thread's next event in them. A
/// function's number is the index of its first event. Past the list every event is `Silent`.
///
/// The events keep the laws of threads: those of blocks from index 0 on, and at each function that is spawned no
/// block is open.
#[derive(Drop)]
pub struct Script {
    events: Vec<Event>,
    at: usize,
    ghost lawful: { is_lawful events.items ≡ true },
}

impl Actor for Script {
    type Saved = Script;

    ghost State = { Cursor };

    ghost state = { λ s. record { events = s.events.items; at = s.at } };

    ghost saved_state = { λ s. record { events = s.events.items; at = s.at } };

    ghost has_capacity = { λ _. Unit {0} };

    ghost is_reached = { IsLawful };

    ghost thread = { script };

    fn next(&self) -> Event {
        if self.at < self.events.len() {
            self.events[self.at]
        } else {
            Event::Silent
        }
    }

    fn ready(&mut self) -> Result<(), AllocError> {
        Ok(())
    }

    fn take(&mut self, _reply: Reply) {
        self.go_on();
    }

    fn save(&self) -> Result<Script, AllocError> {
        let events = self.events.clone()?;
        Ok(Script {
            events,
            at: self.at,
        })
    }

    fn restore(&mut self, saved: Script) {
        *self = saved;
    }

    fn copy_saved(&self, saved: &Script) -> Result<Script, AllocError> {
        saved.save()
    }

    fn start(&self, _number: u8, func: u64, _arg: i64) -> Result<Script, AllocError> {
        let events = self.events.clone()?;
        Ok(Script {
            events,
            at: func as usize,
        })
    }

    ghost laws = { script_laws };
}

impl Script {
    /// A thread at the first of these events.
    pub fn new(events: Vec<Event>) -> Script
        requires lawful { is_lawful events.items ≡ true }
        ensures { ⟦<Script as Actor>⟧.state result ≡ record { events = events.items; at = 0 } }
    {
        Script { events, at: 0 }
    }

    /// Goes on past the next event, whatever answers it.
    pub fn go_on(&mut self)
        ensures { ⟦<Script as Actor>⟧.state self.new ≡ script.after (⟦<Script as Actor>⟧.state self.old) Nothing }
    {
        if self.at < self.events.len() {
            self.at += 1;
        }
    }
}
