//! How many turns of a run were of which kind.
ghost use Rattle.std.specs.Prelude.{◌≡◌, ◌<◌, ◌^◌, ◌-◌};
ghost use Rattle.tx_serial.specs.Run.{no_counts, count_in, sum_of};
ghost use Rattle.tx_machine.specs.Course.{counts_of};

use tx_events::TurnKind;

/// How many turns were of which kind.
#[derive(Clone, Copy, PartialEq, Eq, Debug)]
pub struct Counts {
    /// Those that executed a step, ended the program, put a word back or let one go.
    pub ran: u64,
    /// Those that waited for a word or for a block.
    pub waited: u64,
    /// Those at which a transaction began to give up.
    pub rolled: u64,
    /// Those that waited for another thread's end, or were of a thread that was not started or has ended.
    pub idle: u64,
}

impl Counts {
    /// No turns.
    pub(crate) fn none() -> Counts
        ensures { counts_of result ≡ no_counts }
    {
        Counts {
            ran: 0,
            waited: 0,
            rolled: 0,
            idle: 0,
        }
    }

    /// One turn more.
    pub(crate) fn count(&mut self, kind: TurnKind)
        requires { sum_of (counts_of self.old) < 2 ^ 64 - 1 }
        ensures { counts_of self.new ≡ count_in kind (counts_of self.old) }
    {
        match kind {
            TurnKind::Ran => self.ran += 1,
            TurnKind::Undone { .. } => self.ran += 1,
            TurnKind::Released { .. } => self.ran += 1,
            TurnKind::Waited { .. } => self.waited += 1,
            TurnKind::BlockWait { .. } => self.waited += 1,
            TurnKind::Rolled { .. } => self.rolled += 1,
            TurnKind::Idle => self.idle += 1,
            TurnKind::JoinWait { .. } => self.idle += 1,
        }
    }
}
