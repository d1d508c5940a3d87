//! A run is held against its source.

ghost use Rattle.std.specs.Prelude.{◌≡◌, ◌≤◌, ◌<◌, ◌+◌, ◌*◌, ℕ, List, true, false, IfOk, IfNone, IfSome};
ghost use Rattle.bounded_runs.specs.BoundedRuns.{IsRunOf, IsPlain, has_ended};
ghost use Rattle.cpp_tree.specs.tx_events.declared.End.{End};
ghost use Rattle.source_runs.specs.Sources.{RunsWith};
ghost use Rattle.turn_bounds.specs.Alone.{zeros_in};
ghost use Rattle.turn_bounds.specs.Linked.{EndsAloneIn, KeepsTurnBound};

use cpp_tree::Program;
use source_runs::source_run;
use src_bind::{Choices, bind};
use src_link::can_bind;
use src_replay::{AloneEnd, run_alone};
use std::alloc::{AllocError, Global};
use tx_events::End;
use tx_machine::Ran;
use vm_thread::Here;

// How many of the picks are thread 0.
fn first_turns(picked: &[u8]) -> usize
    ensures { result ≡ zeros_in picked.now }
{
    let mut turns: usize = 0;
    for t in picked {
        if *t == 0 {
            turns += 1;
        }
    }
    turns
}

// The most that a source may cost that has to be done in so many turns of thread 0.
fn cost_within(turns: usize) -> Option<usize>
    ensures none { IfNone result (turns < 64) }
    ensures some { IfSome result (λ cost. turns < 66 * (cost + 1) + 64) }
    ensures enough { IfSome result (λ cost. 64 ≤ turns) }
{
    match turns.checked_sub(64) {
        Some(rest) => Some(rest / 66),
        None => None,
    }
}

// Whether the program has ended.
fn is_done(end: AloneEnd) -> bool
    ensures { result ≡ has_ended end }
{
    match end {
        AloneEnd::Ended(_) => true,
        AloneEnd::NotEnabled | AloneEnd::InBlock | AloneEnd::Spent => false,
    }
}

// Whether the program by itself costs more than this: the source is run so far.
fn costs_more(
    alloc: Global,
    program: &Program,
    choices: &Choices,
    input: &[u8],
    cost: u32,
) -> Result<bool, AllocError>
    ensures { IfOk result (λ more. more ≡ true → (n : ℕ) (out : List ℕ) (end : End) →
        EndsAloneIn (record { program = program.now; choices = choices.now }) input.now n out end → cost < n) }
{
    if !can_bind(alloc, program)? {
        return Err(AllocError);
    }
    let bound = bind(alloc, program, choices)?;
    let alone = run_alone(alloc, &bound, input, cost)?;
    Ok(!is_done(alone.stopped))
}

// Whether the program by itself needs more turns than were thread 0's.
fn needs_more(
    alloc: Global,
    program: &Program,
    choices: &Choices,
    input: &[u8],
    picked: &[u8],
) -> Result<bool, AllocError>
    ensures more { IfOk result (λ more. more ≡ true → (n : ℕ) (out : List ℕ) (end : End) →
        EndsAloneIn (record { program = program.now; choices = choices.now }) input.now n out end → zeros_in picked.now < 66 * n + 64) }
    ensures some { IfOk result (λ more. more ≡ false → 64 ≤ zeros_in picked.now) }
{
    let Some(cost) = cost_within(first_turns(picked)) else {
        return Ok(true);
    };
    match u32::try_from(cost) {
        Ok(cost) => costs_more(alloc, program, choices, input, cost),
        Err(_) => Ok(false),
    }
}

// Whether a run of the source in which so many threads were started keeps the turn bound.
fn keeps_turn_bound(
    alloc: Global,
    program: &Program,
    choices: &Choices,
    input: &[u8],
    ran: &Ran<Here>,
    started: usize,
) -> Result<bool, AllocError>
    requires { RunsWith started 4294967295 (record { program = program.now; choices = choices.now }) input.now ran.now.order.items ran.now.out.items ran.now.end }
    ensures yes { IfOk result (λ yes. yes ≡ true → KeepsTurnBound (record { program = program.now; choices = choices.now }) input.now ran.now) }
    ensures no { IfOk result (λ yes. yes ≡ false → IsPlain (record { program = program.now; choices = choices.now }) input.now ran.now → ⊥) }
{
    if started != 1 {
        return Ok(true);
    }
    if ran.waited != 0 || ran.rolled != 0 {
        return Ok(false);
    }
    if ran.end != End::StepsOut {
        return Ok(true);
    }
    needs_more(alloc, program, choices, input, ran.picked.as_slice())
}

/// Whether a run of the program's code is a run of its source, linked by these choices: the order that it answers, replayed on the source, has its output and
/// its end (`source_run` of source_runs). And whether it keeps the turn bound: where the source spawns nothing, no turn waits or rolls back; and where it ends at
/// cost n, the run has come to that end with that output once `66 * n + 64` turns were thread 0's.
///
/// A no means that there is no such run of the source within 4,294,967,295 steps, or that one that starts no thread waited, rolled back, or went on where the
/// source has ended by then. The time grows with the steps.
pub fn is_run_of(
    alloc: Global,
    program: &Program,
    choices: &Choices,
    input: &[u8],
    ran: &Ran<Here>,
) -> Result<bool, AllocError>
    ensures yes { IfOk result (λ yes. yes ≡ true → IsRunOf (record { program = program.now; choices = choices.now }) input.now ran.now) }
    ensures no { IfOk result (λ yes. yes ≡ false → IsPlain (record { program = program.now; choices = choices.now }) input.now ran.now → ⊥) }
{
    let order = ran.order.as_slice();
    let out = ran.out.as_slice();
    match source_run(alloc, program, choices, input, order, out, ran.end)? {
        Some(started) => keeps_turn_bound(alloc, program, choices, input, ran, started),
        None => Ok(false),
    }
}
