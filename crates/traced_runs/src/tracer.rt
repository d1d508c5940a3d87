//! The observer that keeps the trace.
ghost use Rattle.tx_events.specs.declared.Event.{Event};
ghost use Rattle.turn_traces.specs.Keeper.{keeping_of};
ghost use Rattle.turn_traces.specs.Keeping.{Keeping, shown, told};

use std::alloc::AllocError;
use turn_traces::keeper::TraceKeeper;
use tx_events::{Actor, End, TurnKind};
use tx_machine::Observer;

/// Keeps the trace of the run that it watches.
#[derive(Drop)]
pub(crate) struct Tracer {
    pub(crate) keeper: TraceKeeper,
}

impl<A: Actor> Observer<A> for Tracer {
    ghost State = { Keeping };

    ghost state = { λ w. keeping_of w.keeper };

    ghost Place = { Event };

    ghost place = { λ a. A.thread.next (A.state a) };

    ghost after_shown = { λ w t place. shown w t place };

    ghost after_told = { λ w kind end. told w kind end };

    fn before(&mut self, thread: u8, actor: Option<&A>) -> Result<(), AllocError> {
        let event = match actor {
            Some(actor) => Some(actor.next()),
            None => None,
        };
        self.keeper.show(thread, event);
        Ok(())
    }

    fn after(&mut self, kind: TurnKind, end: Option<End>) -> Result<(), AllocError> {
        self.keeper.tell(kind, end)
    }
}
