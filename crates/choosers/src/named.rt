//! What the named policies answer and the named pickers pick.
ghost use Rattle.std.specs.Prelude.{◌≡◌, ◌<◌, ◌%◌, Some, None};
ghost use Rattle.tx_events.specs.declared.TheConstants.{THREAD_LIMIT};
ghost use Rattle.choosers.specs.Answers.{answer, PolicyName};
ghost use Rattle.choosers.specs.Answers.PolicyName.{Older, Yielding, Polite};
ghost use Rattle.choosers.specs.Picks.{pick, PickerName};
ghost use Rattle.choosers.specs.Picks.PickerName.{Round, Clashing, Listed};

use crate::{Choice, Clash, Seen};
use tx_events::TurnKind;

/// How many turns in a row a polite transaction waits at a clash.
const PATIENCE: u32 = 8;

/// `older`: the older transaction waits, and the younger yields.
pub fn older(clash: &Clash) -> Choice
    ensures { result ≡ answer Older clash.now }
{
    if clash.mine < clash.least {
        Choice::Wait
    } else {
        Choice::Yield
    }
}

/// `yield`: each yields at once.
pub fn yielding(_clash: &Clash) -> Choice
    ensures { result ≡ answer Yielding _clash.now }
{
    Choice::Yield
}

/// `polite`: each waits for eight turns, and then yields.
pub fn polite(clash: &Clash) -> Choice
    ensures { result ≡ answer Polite clash.now }
{
    if clash.waits < PATIENCE {
        Choice::Wait
    } else {
        Choice::Yield
    }
}

/// `round:K`: each started thread in turn, for `slot` turns.
pub fn round(slot: u32, seen: &Seen) -> u8
    requires slot { 0 < slot }
    requires started { 0 < seen.now.started }
    ensures pick { pick (Round slot) seen.now.turn seen.now None ≡ Some result }
    ensures below { result < seen.now.started }
{
    rest(seen.turn / slot, seen.started)
}

/// `clash`: thread 0 first.
pub fn clash_first(_seen: &Seen) -> u8
    ensures { pick Clashing _seen.now.turn _seen.now None ≡ Some result }
{
    0
}

/// `clash`: the last thread again, or the next one after a turn that was not done or was an access in a transaction.
pub fn clash_next(before: u8, seen: &Seen) -> u8
    requires started { 0 < seen.now.started }
    requires before { before < THREAD_LIMIT }
    ensures pick { pick Clashing seen.now.turn seen.now (Some before) ≡ Some result }
{
    if seen.last == Some(TurnKind::Ran) && !seen.inside {
        before
    } else {
        (before + 1) % seen.started
    }
}

/// `file`: the thread that a schedule has for the turn, and none past its end.
pub fn listed(schedule: &[u8], seen: &Seen) -> Option<u8>
    ensures { result ≡ pick (Listed schedule.now) seen.now.turn seen.now None }
{
    schedule.get(seen.turn as usize).copied()
}

/// `n` modulo `count`.
fn rest(n: u32, count: u8) -> u8
    requires { 0 < count }
    ensures value { result ≡ n % count }
    ensures below { result < count }
{
    (n % u32::from(count)) as u8
}
