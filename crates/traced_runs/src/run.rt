//! Traced runs of any threads.
ghost use Rattle.std.specs.Prelude.{◌≡◌, ◌≤◌, ◌<◌, true, List, [], IfOk, OnErr};
ghost use Rattle.std.specs.Borrow.{Bor};
ghost use Rattle.std.specs.Fn.{FnReturnsAt};
ghost use Rattle.choosers.specs.Answers.{KeepsRule};
ghost use Rattle.choosers.specs.Picks.{IsSeen};
ghost use Rattle.choosers.specs.declared.Seen.{Seen};
ghost use Rattle.tx_events.specs.declared.TheConstants.{THREAD_LIMIT};
ghost use Rattle.tx_events.specs.World.{first_world};
ghost use Rattle.tx_memory.specs.View.{layout_of, words_of};
ghost use Rattle.tx_serial.specs.Trace.{TraceOf};
ghost use Rattle.tx_serial.specs.Turn.{Slot, first_machine};
ghost use Rattle.tx_machine.specs.declared.TheConstants.{TURN_LIMIT};
ghost use Rattle.tx_machine.specs.Course.{Asks, IsOneToLimit};
ghost use Rattle.tx_machine.specs.Finished.{RunsTo, outcome_of};
ghost use Rattle.traced_runs.specs.TracedRuns.{no_one};

use crate::tracer::Tracer;
use choosers::picker::Picker;
use choosers::policy::{Policy, Rule};
use choosers::{Choice, Clash, Seen};
use std::alloc::{AllocError, Global};
use turn_traces::keeper::TraceKeeper;
use tx_events::{Actor, Trace};
use tx_machine::{Finished, run_actor};
use tx_memory::Memory;

/// A run that has come to its end, and its trace.
#[derive(Drop)]
pub struct TracedRun<A: Actor> {
    pub finished: Finished<A>,
    pub trace: Trace,
}

/// Runs the threads that begin with `main`, as `run_actor` does, and keeps the trace of the order.
pub fn trace_actor<A: Actor, R: Rule, F: Fn(&Clash) -> Choice, G: FnMut(&Seen) -> u8>(
    alloc: Global,
    main: A,
    memory: Memory,
    input: Vec<u8>,
    picker: &mut Picker<G>,
    policy: &Policy<R, F>,
    bound: u32,
) -> Result<TracedRun<A>, AllocError>
    requires memory { (layout_of memory).limit ≡ THREAD_LIMIT }
    requires bound { bound ≤ TURN_LIMIT }
    requires reached { A.is_reached (A.state main) }
    requires free { A.thread.blocks (A.state main) ≡ [] }
    requires keeps { KeepsRule (F.IsAlwaysCallable policy.now.answer) (FnReturnsAt F.Fn policy.now.answer) R.allows }
    requires callable { (g : G) (s : _) → G.pre g s }
    requires below { (g h : G) (s : _) (t : _) → IsSeen s.now → G.step g s t h → t < picker.old.limit }
    requires limit { picker.old.limit ≡ THREAD_LIMIT }
    ensures run { IfOk result (λ traced. RunsTo A.thread (layout_of memory)
        (λ c choice. FnReturnsAt F.Fn policy.now.answer c choice × (R.allows c choice ≡ true))
        (λ g s t h. (shown : Bor Seen) × (shown.now ≡ s) × IsOneToLimit s.started × G.step g shown t h)
        no_one bound (words_of memory) input.items (A.state main)
        picker.old.choose picker.new.choose tt tt (outcome_of traced.finished)) }
    ensures trace { IfOk result (λ traced. TraceOf A.thread (layout_of memory) (first_world (words_of memory) input.items (A.state main))
        (outcome_of traced.finished).order traced.trace.items.items) }
    ensures asked { OnErr result ((slots : List Slot) × Asks A.thread (layout_of memory)
        (λ c choice. FnReturnsAt F.Fn policy.now.answer c choice × (R.allows c choice ≡ true))
        (λ g s t h. (shown : Bor Seen) × (shown.now ≡ s) × IsOneToLimit s.started × G.step g shown t h)
        (first_machine (words_of memory) input.items (A.state main)) slots picker.old.choose picker.new.choose) }
    ensures picker { picker.new.limit ≡ picker.old.limit }
{
    let keeper = TraceKeeper::new(alloc)?;
    let mut tracer = Tracer { keeper };
    let finished = run_actor(
        alloc,
        main,
        memory,
        input,
        picker,
        policy,
        bound,
        &mut tracer,
    )?;
    let trace = tracer.keeper.into_trace();
    Ok(TracedRun { finished, trace })
}
