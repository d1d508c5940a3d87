//! What the named pickers pick, in each state and whatever they are shown: a thread below the limit.

ghost use Rattle.std.specs.Prelude.{◌≡◌, ◌↔◌, ◌<◌, ℕ, None, Some, IsTrue};
ghost use Rattle.choosers.specs.Picks.{pick};
ghost use Rattle.choosers.specs.Picks.PickerName.{Round, Clashing, Listed};
ghost use Rattle.tx_events.specs.declared.TheConstants.{THREAD_LIMIT};
ghost use Rattle.tx_machine.specs.Course.{IsOneToLimit};
ghost use Rattle.named_runs.specs.NamedRuns.{IsBelow};

use choosers::Seen;
use choosers::named::{clash_first, clash_next, listed, round};
use tx_events::THREAD_LIMIT;

// So many threads are started in a run.
fn is_one_to_limit(started: u8) -> bool
    ensures { IsTrue result ↔ IsOneToLimit started }
{
    0 < started && started <= THREAD_LIMIT
}

/// `round:K`.
pub fn round_at(slot: u32, seen: &Seen) -> u8
    ensures below { result < THREAD_LIMIT }
    ensures pick { 0 < slot → IsOneToLimit seen.now.started → pick (Round slot) seen.now.turn seen.now None ≡ Some result }
{
    if slot > 0 && is_one_to_limit(seen.started) {
        round(slot, seen)
    } else {
        0
    }
}

/// `clash`, behind a turn of this thread.
pub fn clash_at(before: Option<u8>, seen: &Seen) -> u8
    ensures below { result < THREAD_LIMIT }
    ensures pick { IsBelow before → IsOneToLimit seen.now.started → pick Clashing seen.now.turn seen.now before ≡ Some result }
{
    match before {
        None => clash_first(seen),
        Some(thread) => {
            if thread < THREAD_LIMIT && is_one_to_limit(seen.started) {
                clash_next(thread, seen)
            } else {
                0
            }
        }
    }
}

/// `file`: the entry of the schedule, if it is below the limit.
pub fn listed_at(schedule: &[u8], seen: &Seen) -> u8
    ensures below { result < THREAD_LIMIT }
    ensures pick { (t : ℕ) → t < THREAD_LIMIT → pick (Listed schedule.now) seen.now.turn seen.now None ≡ Some t → t ≡ result }
{
    match listed(schedule, seen) {
        Some(thread) => { if thread < THREAD_LIMIT { thread } else { 0 } }
        None => 0,
    }
}
