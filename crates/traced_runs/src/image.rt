//! Traced runs of a linked program.
ghost use Rattle.std.specs.Prelude.{◌≡◌, ◌≤◌, ◌<◌, true, List, IfOk, OnErr};
ghost use Rattle.std.specs.Borrow.{Bor};
ghost use Rattle.std.specs.Fn.{FnReturnsAt};
ghost use Rattle.std.specs.Option.{option_map};
ghost use Rattle.choosers.specs.Answers.{KeepsRule};
ghost use Rattle.choosers.specs.Picks.{IsSeen};
ghost use Rattle.choosers.specs.declared.Seen.{Seen};
ghost use Rattle.tx_code.specs.Sound.{Sound};
ghost use Rattle.tx_code.specs.Views.{image_view};
ghost use Rattle.tx_events.specs.declared.TheConstants.{THREAD_LIMIT};
ghost use Rattle.tx_memory.specs.View.{layout_of, words_of};
ghost use Rattle.tx_serial.specs.Turn.{Slot};
ghost use Rattle.vm_thread.specs.Threads.{running};
ghost use Rattle.tx_machine.specs.declared.TheConstants.{TURN_LIMIT};
ghost use Rattle.tx_machine.specs.Course.{Asks, IsOneToLimit};
ghost use Rattle.tx_machine.specs.Finished.{outcome_of};
ghost use Rattle.tx_machine.specs.ImageRuns.{RunsImage, here_of, layout_of_image, first_words, machine_at_main};
ghost use Rattle.traced_runs.specs.TracedRuns.{TracesImage};

use crate::run::trace_actor;
use choosers::picker::Picker;
use choosers::policy::{Policy, Rule};
use choosers::{Choice, Clash, Seen};
use std::alloc::{AllocError, Global};
use tx_code::Image;
use tx_code::laws::an_image_is_whole;
use tx_events::{THREAD_LIMIT, Trace};
use tx_machine::{Finished, Ran};
use tx_memory::Memory;
use vm_thread::{Here, VmThread};

/// Runs a sound image on this input, as `run` of `tx_machine` does, and keeps the trace of the order. After `AllocError`
/// the picker has been asked once for each turn that was taken, and at most once more.
pub fn run_traced<R: Rule, F: Fn(&Clash) -> Choice, G: FnMut(&Seen) -> u8>(
    alloc: Global,
    image: &Image,
    input: Vec<u8>,
    picker: &mut Picker<G>,
    policy: &Policy<R, F>,
    bound: u32,
) -> Result<(Ran<Here>, Trace), AllocError>
    requires sound { Sound (image_view image.now) }
    requires bound { bound ≤ TURN_LIMIT }
    requires keeps { KeepsRule (F.IsAlwaysCallable policy.now.answer) (FnReturnsAt F.Fn policy.now.answer) R.allows }
    requires callable { (g : G) (s : _) → G.pre g s }
    requires below { (g h : G) (s : _) (t : _) → IsSeen s.now → G.step g s t h → t < picker.old.limit }
    requires limit { picker.old.limit ≡ THREAD_LIMIT }
    ensures run { IfOk result (λ both. RunsImage (image_view image.now)
        (λ c choice. FnReturnsAt F.Fn policy.now.answer c choice × (R.allows c choice ≡ true))
        (λ g s t h. (shown : Bor Seen) × (shown.now ≡ s) × IsOneToLimit s.started × G.step g shown t h)
        bound input.items picker.old.choose picker.new.choose both.0) }
    ensures trace { IfOk result (λ both. TracesImage (image_view image.now) input.items both.0.order.items both.1.items.items) }
    ensures asked { OnErr result ((slots : List Slot) × Asks running (layout_of_image (image_view image.now))
        (λ c choice. FnReturnsAt F.Fn policy.now.answer c choice × (R.allows c choice ≡ true))
        (λ g s t h. (shown : Bor Seen) × (shown.now ≡ s) × IsOneToLimit s.started × G.step g shown t h)
        (machine_at_main (image_view image.now) input.items) slots picker.old.choose picker.new.choose) }
    ensures picker { picker.new.limit ≡ picker.old.limit }
{
    let main = VmThread::new(alloc, image)?;
    let memory = first_memory(alloc, image)?;
    let traced = trace_actor(alloc, main, memory, input, picker, policy, bound)?;
    let place = trap_place(&traced.finished);
    let ran = traced.finished.into_ran(alloc, place)?;
    Ok((ran, traced.trace))
}

/// The memory with which a run of the image begins.
fn first_memory(alloc: Global, image: &Image) -> Result<Memory, AllocError>
    ensures layout { IfOk result (λ m. layout_of m ≡ layout_of_image (image_view image.now)) }
    ensures words { IfOk result (λ m. words_of m ≡ first_words (image_view image.now)) }
{
    an_image_is_whole(image);
    Memory::new(alloc, image.globals.as_slice(), image.size, THREAD_LIMIT)
}

/// The place of the trap, exactly after a trap.
fn trap_place<'a>(finished: &Finished<VmThread<'a>>) -> Option<Here>
    ensures { result ≡ option_map here_of (outcome_of finished.now).place }
{
    let thread = finished.place()?;
    Some(thread.here())
}
