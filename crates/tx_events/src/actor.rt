//! What runs as a thread.
ghost use Rattle.std.specs.Prelude.{◌≡◌, IfOk, OnOk};
ghost use Rattle.tx_events.specs.Thread.{Thread, Answers, Lawful};
ghost use Rattle.tx_events.specs.declared.Event.TheVariants.{Spawn};

use crate::{Event, Reply};
use std::alloc::AllocError;

/// A thread of a program, as a machine of events. What it is now is its state, which the laws speak of; room in
/// memory is no part of it.
pub trait Actor: Drop {
    /// A state that is kept, to be gone back to.
    type Saved: Drop;

    ghost State: { Type 0 };

    ghost state: { Self → State };

    ghost saved_state: { Self.Saved → State };

    // There is capacity for one `take`.
    ghost has_capacity: { Self → Type 0 };

    // The states of which the laws hold.
    ghost is_reached: { State → Type 0 };

    // How a thread goes on.
    ghost thread: { Thread State };

    /// The next event.
    fn next(&self) -> Event
        ensures event { result ≡ thread.next (state self.now) }
        ensures reached { is_reached (state self.now) };

    /// Makes the capacity for one `take`. On `AllocError` there is none, and on both the state is as before.
    fn ready(&mut self) -> Result<(), AllocError>
        ensures same { state self.new ≡ state self.old }
        ensures capacity { OnOk result (has_capacity self.new) };

    /// Goes on after the next event, which was answered so.
    fn take(&mut self, reply: Reply)
        requires capacity { has_capacity self.old }
        requires answers { Answers (thread.next (state self.old)) reply }
        ensures { state self.new ≡ thread.after (state self.old) reply };

    /// Keeps the state.
    fn save(&self) -> Result<Self::Saved, AllocError>
        ensures { IfOk result (λ saved. saved_state saved ≡ state self.now) };

    /// Goes back to a kept state.
    fn restore(&mut self, saved: Self::Saved)
        ensures { state self.new ≡ saved_state saved };

    /// Keeps once more what was kept, so that a `restore` can use up one of them.
    fn copy_saved(&self, saved: &Self::Saved) -> Result<Self::Saved, AllocError>
        ensures { IfOk result (λ copy. saved_state copy ≡ saved_state saved.now) };

    /// A new thread of that number, at the start of the function that this one spawns.
    fn start(&self, number: u8, func: u64, arg: i64) -> Result<Self, AllocError>
        requires { thread.next (state self.now) ≡ Spawn func arg }
        ensures { IfOk result (λ child. state child ≡ thread.child (state self.now) number func arg) };

    // The laws of blocks, sizes and values.
    ghost laws: { Lawful State is_reached thread };
}
