//! Runs with their traces, under a picker and a policy that have names.

ghost use Rattle.std.specs.Prelude.{◌≡◌, ◌≤◌, ◌<◌, ℕ, true, IfOk, nat_lt, None, Some};
ghost use Rattle.std.specs.Borrow.{Bor};
ghost use Rattle.std.specs.List.{list_all};
ghost use Rattle.choosers.specs.Answers.{answer};
ghost use Rattle.choosers.specs.Answers.PolicyName.{Older, Yielding, Polite};
ghost use Rattle.choosers.specs.Picks.{IsSeen, pick};
ghost use Rattle.choosers.specs.Picks.PickerName.{Round, Clashing, Listed};
ghost use Rattle.tx_code.specs.Sound.{Sound};
ghost use Rattle.tx_code.specs.Views.{image_view};
ghost use Rattle.tx_events.specs.declared.TheConstants.{THREAD_LIMIT};
ghost use Rattle.tx_serial.specs.Run.{is_answer};
ghost use Rattle.tx_machine.specs.declared.TheConstants.{TURN_LIMIT};
ghost use Rattle.tx_machine.specs.Course.{IsOneToLimit};
ghost use Rattle.tx_machine.specs.ImageRuns.{RunsImage};
ghost use Rattle.named_runs.specs.NamedRuns.{IsNamedRun, IsBelow, CanPick, policy_of, picker_of};
ghost use Rattle.traced_runs.specs.TracedRuns.{TracesImage};

use crate::picks::{clash_at, listed_at, round_at};
use choosers::named::{older, polite, yielding};
use choosers::picker::Picker;
use choosers::policy::{AnyRule, OlderRule, Policy};
use choosers::{Clash, Seen};
use std::alloc::{AllocError, Global};
use traced_runs::run_traced;
use tx_code::Image;
use tx_events::{THREAD_LIMIT, Trace};
use tx_machine::{Ran, TURN_LIMIT};
use tx_words::{PickerName, PolicyName};
use vm_thread::Here;

// The run, with its trace, under a policy that has a name, and any picker.
fn trace_under<G: FnMut(&Seen) -> u8>(
    alloc: Global,
    image: &Image,
    input: Vec<u8>,
    picker: &mut Picker<G>,
    policy: PolicyName,
    bound: u32,
) -> Result<(Ran<Here>, Trace), AllocError>
    requires sound { Sound (image_view image.now) }
    requires bound { bound ≤ TURN_LIMIT }
    requires callable { (g : G) (s : _) → G.pre g s }
    requires below { (g h : G) (s : _) (t : _) → IsSeen s.now → G.step g s t h → t < picker.old.limit }
    requires limit { picker.old.limit ≡ THREAD_LIMIT }
    ensures run { IfOk result (λ both. RunsImage (image_view image.now) (is_answer (answer (policy_of policy)))
        (λ g s t h. (shown : Bor Seen) × (shown.now ≡ s) × IsOneToLimit s.started × G.step g shown t h)
        bound input.items picker.old.choose picker.new.choose both.0) }
    ensures trace { IfOk result (λ both. TracesImage (image_view image.now) input.items both.0.order.items both.1.items.items) }
{
    match policy {
        PolicyName::Older => {
            let policy: Policy<OlderRule, _> = Policy::new(
                |c: &Clash|
                    ensures { result ≡ answer Older c.now }
                { older(c) },
            );
            run_traced(alloc, image, input, picker, &policy, bound)
        }
        PolicyName::Yield => {
            let policy: Policy<AnyRule, _> = Policy::new(
                |c: &Clash|
                    ensures { result ≡ answer Yielding c.now }
                { yielding(c) },
            );
            run_traced(alloc, image, input, picker, &policy, bound)
        }
        PolicyName::Polite => {
            let policy: Policy<AnyRule, _> = Policy::new(
                |c: &Clash|
                    ensures { result ≡ answer Polite c.now }
                { polite(c) },
            );
            run_traced(alloc, image, input, picker, &policy, bound)
        }
    }
}

// The run, with its trace, under `round:K`.
fn trace_round(
    alloc: Global,
    image: &Image,
    input: Vec<u8>,
    slot: u32,
    policy: PolicyName,
    bound: u32,
) -> Result<(Ran<Here>, Trace), AllocError>
    requires sound { Sound (image_view image.now) }
    requires bound { bound ≤ TURN_LIMIT }
    requires slot { 0 < slot }
    ensures run { IfOk result (λ both. IsNamedRun (image_view image.now) (Round slot) (policy_of policy) bound input.items both.0) }
    ensures trace { IfOk result (λ both. TracesImage (image_view image.now) input.items both.0.order.items both.1.items.items) }
{
    let mut picker = Picker::new(
        move |s: &Seen|
            ensures below { result < THREAD_LIMIT }
            ensures pick { 0 < slot → IsOneToLimit s.now.started → pick (Round slot) s.now.turn s.now None ≡ Some result }
        { round_at(slot, s) },
        THREAD_LIMIT,
    );
    trace_under(alloc, image, input, &mut picker, policy, bound)
}

// The run, with its trace, under `clash`.
fn trace_clash(
    alloc: Global,
    image: &Image,
    input: Vec<u8>,
    policy: PolicyName,
    bound: u32,
) -> Result<(Ran<Here>, Trace), AllocError>
    requires sound { Sound (image_view image.now) }
    requires bound { bound ≤ TURN_LIMIT }
    ensures run { IfOk result (λ both. IsNamedRun (image_view image.now) Clashing (policy_of policy) bound input.items both.0) }
    ensures trace { IfOk result (λ both. TracesImage (image_view image.now) input.items both.0.order.items both.1.items.items) }
{
    let mut before: Option<u8> = None;
    let mut picker = Picker::new(
        move |s: &Seen|
            ensures below { result < THREAD_LIMIT }
            ensures pick { IsBelow before.entry → IsOneToLimit s.now.started → pick Clashing s.now.turn s.now before.entry ≡ Some result }
            ensures kept { before.exit ≡ Some result }
        {
            let thread = clash_at(before, s);
            before = Some(thread);
            thread
        },
        THREAD_LIMIT,
    );
    trace_under(alloc, image, input, &mut picker, policy, bound)
}

// The run, with its trace, under a schedule: it ends with the schedule.
fn trace_listed(
    alloc: Global,
    image: &Image,
    input: Vec<u8>,
    schedule: &[u8],
    policy: PolicyName,
    bound: u32,
) -> Result<(Ran<Here>, Trace), AllocError>
    requires sound { Sound (image_view image.now) }
    requires bound { bound ≤ TURN_LIMIT }
    requires threads { list_all (λ t. nat_lt t THREAD_LIMIT) schedule.now ≡ true }
    ensures run { IfOk result (λ both. IsNamedRun (image_view image.now) (Listed schedule.now) (policy_of policy) bound input.items both.0) }
    ensures trace { IfOk result (λ both. TracesImage (image_view image.now) input.items both.0.order.items both.1.items.items) }
{
    let turns = (bound as usize).min(schedule.len()) as u32;
    let mut picker = Picker::new(
        move |s: &Seen|
            ensures below { result < THREAD_LIMIT }
            ensures pick { (t : ℕ) → t < THREAD_LIMIT → pick (Listed schedule.entry.now) s.now.turn s.now None ≡ Some t → t ≡ result }
        { listed_at(schedule, s) },
        THREAD_LIMIT,
    );
    trace_under(alloc, image, input, &mut picker, policy, turns)
}

/// Runs a sound image on this input under a picker and a policy of the command line, as `run_named` of `named_runs` does,
/// and keeps the trace of its order; `schedule` is that of the picker's file, if it has one.
pub fn trace_named(
    alloc: Global,
    image: &Image,
    input: Vec<u8>,
    picker: &PickerName,
    schedule: &[u8],
    policy: PolicyName,
    bound: u32,
) -> Result<(Ran<Here>, Trace), AllocError>
    requires sound { Sound (image_view image.now) }
    requires bound { bound ≤ TURN_LIMIT }
    requires picker { CanPick picker.now schedule.now }
    ensures run { IfOk result (λ both. IsNamedRun (image_view image.now) (picker_of picker.now schedule.now) (policy_of policy) bound input.items both.0) }
    ensures trace { IfOk result (λ both. TracesImage (image_view image.now) input.items both.0.order.items both.1.items.items) }
{
    match picker {
        PickerName::Round(slot) => trace_round(alloc, image, input, *slot, policy, bound),
        PickerName::Clash => trace_clash(alloc, image, input, policy, bound),
        PickerName::File(_) => trace_listed(alloc, image, input, schedule, policy, bound),
    }
}
