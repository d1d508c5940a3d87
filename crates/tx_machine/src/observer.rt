//! Who watches the turns of a run.
ghost use Rattle.std.specs.Prelude.{◌≡◌, ℕ, Option, OnOk, ⊤, option_copied};
ghost use Rattle.tx_events.specs.declared.TurnKind.{TurnKind};
ghost use Rattle.tx_events.specs.declared.End.{End};
ghost use Rattle.std.specs.Option.{option_map};

use std::alloc::AllocError;
use tx_events::{Actor, End, TurnKind};

/// Watches the turns of a run. It is shown each turn, and changes nothing of it.
pub trait Observer<A: Actor>: Drop {
    // What it has seen.
    ghost State: { Type 0 };

    ghost state: { Self → State };

    // What it is shown of a thread that stands so.
    ghost Place: { Type 0 };

    ghost place: { A → Place };

    // What it has seen once it is shown a thread before its turn, and the place of that thread, if it was started.
    ghost after_shown: { State → ℕ → Option Place → State };

    // And once it is told the kind of that turn, and the program's end, if it has come.
    ghost after_told: { State → TurnKind → Option End → State };

    /// A turn of this thread comes next; the actor is the thread as it stands, if it was started.
    fn before(&mut self, thread: u8, actor: Option<&A>) -> Result<(), AllocError>
        ensures { OnOk result (state self.new ≡ after_shown (state self.old) thread (option_map place (option_copied actor.entry))) };

    /// The turn was of this kind, and the program's end is this one, if it has come.
    fn after(&mut self, kind: TurnKind, end: Option<End>) -> Result<(), AllocError>
        ensures { OnOk result (state self.new ≡ after_told (state self.old) kind end) };
}

/// No one watches.
#[derive(Drop)]
pub struct Unwatched;

impl<A: Actor> Observer<A> for Unwatched {
    ghost State = { ⊤ };

    ghost state = { λ _. tt };

    ghost Place = { ⊤ };

    ghost place = { λ _. tt };

    ghost after_shown = { λ w _ _. w };

    ghost after_told = { λ w _ _. w };

    fn before(&mut self, _thread: u8, _actor: Option<&A>) -> Result<(), AllocError> {
        Ok(())
    }

    fn after(&mut self, _kind: TurnKind, _end: Option<End>) -> Result<(), AllocError> {
        Ok(())
    }
}
