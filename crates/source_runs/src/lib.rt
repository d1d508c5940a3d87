//! Whether a run is one of its source: its order, replayed with the threads of the source, has its output and its end.
#![tactic(auto)]

ghost use Rattle.std.specs.Prelude.{◌≡◌, IfOk, IfNone, IfSome, true, false};
ghost use Rattle.source_runs.specs.Sources.{RunsWithin, RunsWith, end_in};
ghost use Rattle.src_bind.specs.Bounds.{given};
ghost use Rattle.src_bind.specs.Tables.{CanBind, typed};

use cpp_tree::Program;
use src_bind::{Bound, Choices, bind};
use src_link::can_bind;
use src_replay::{ReplayFault, Replayed, replay};
use std::alloc::{AllocError, Global};
use tx_events::End;

// The end of a run whose replay ends so.
fn end_of(end: Option<End>) -> End
    ensures { result ≡ end_in end }
{
    match end {
        Some(end) => end,
        None => End::StepsOut,
    }
}

// Whether a replay comes to this output and end.
fn agrees(replayed: &Replayed, out: &[u8], end: End) -> bool
    ensures out { result ≡ true → out.now ≡ replayed.now.out.items }
    ensures end { result ≡ true → end ≡ end_in replayed.now.end }
    ensures no { result ≡ false → out.now ≡ replayed.now.out.items → end ≡ end_in replayed.now.end → ⊥ }
{
    replayed.out.as_slice() == out && end_of(replayed.end) == end
}

// How many threads are started in the order of a bound program, where it comes to this output and end.
fn bound_run<'a>(
    alloc: Global,
    bound: &'a Bound<'a>,
    input: &'a [u8],
    order: &[u8],
    out: &[u8],
    end: End,
) -> Result<Option<usize>, AllocError>
    requires { CanBind (typed (given bound.now)) }
    ensures some { IfOk result (λ o. IfSome o (λ n. RunsWith n 4294967295 (given bound.now) input.now order.now out.now end)) }
    ensures none { IfOk result (λ o. IfNone o (RunsWithin 4294967295 (given bound.now) input.now order.now out.now end → ⊥)) }
{
    match replay(alloc, bound, input, order, u32::MAX) {
        Ok(replayed) => {
            if agrees(&replayed, out, end) {
                Ok(Some(replayed.started))
            } else {
                Ok(None)
            }
        }
        Err(ReplayFault::NotARun { .. }) => Ok(None),
        Err(ReplayFault::Spent { .. }) => Ok(None),
        Err(ReplayFault::Memory) => Err(AllocError),
    }
}

/// How many threads are started, thread 0 among them, where the threads of the program's source, run in this order, write this
/// and end so: each entry is one step of the thread of that number, or one whole outermost atomic block, and `StepsOut` says that
/// the program has not ended. The program is linked by these choices.
///
/// `None` means that there is no such run, or that its threads take more than 4,294,967,295 steps, each silent one and each event
/// counted as one. A program of which `can_bind` says no counts as want of memory. The time grows with the steps.
pub fn source_run(
    alloc: Global,
    program: &Program,
    choices: &Choices,
    input: &[u8],
    order: &[u8],
    out: &[u8],
    end: End,
) -> Result<Option<usize>, AllocError>
    ensures some { IfOk result (λ o. IfSome o (λ n. RunsWith n 4294967295 (record { program = program.now; choices = choices.now }) input.now order.now out.now end)) }
    ensures none { IfOk result (λ o. IfNone o (RunsWithin 4294967295 (record { program = program.now; choices = choices.now }) input.now order.now out.now end → ⊥)) }
{
    if !can_bind(alloc, program)? {
        return Err(AllocError);
    }
    let bound = bind(alloc, program, choices)?;
    bound_run(alloc, &bound, input, order, out, end)
}
