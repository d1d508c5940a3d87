//! A thread of a bound program.

ghost use Rattle.std.specs.Prelude.{◌≡◌, ◌∷◌, [], IfOk, OnOk};
ghost use Rattle.src_mean.specs.Frames.{Starts};
ghost use Rattle.src_mean.specs.Source.{source, empty_stack as empty_stack_of, begins, main_state};
ghost use Rattle.src_frames.specs.Bounds.{here_of, frames_of, linked_in, state_of, after};
ghost use Rattle.src_thread.specs.Thread.{program_of, shown};

use crate::giving::give;
use cpp_tree::below::{Event, Reply, word_of};
use src_bind::Bound;
use src_frames::frames::{EndFrame, Frame};
use src_frames::stack::Stack;
use src_frames::state::{State, empty_stack};
use src_frames::words::reply_word;
use std::alloc::{AllocError, Global};

/// A thread of a bound program, which it shares with the other threads.
#[derive(Drop)]
pub struct SourceThread<'a> {
    bound: &'a Bound<'a>,
    state: State,
}

// The state of a thread of this number on whose stack nothing lies yet.
#[tactic(auto, using(src_frames::proofs::Stacks::shown_empty, src_frames::proofs::Stacks::shown_none))]
fn first_state(
    alloc: Global,
    bound: &Bound<'_>,
    number: u8,
    main: bool,
) -> Result<State, AllocError>
    ensures here { IfOk result (λ s. here_of bound.now s ≡ empty_stack_of number) }
    ensures frames { IfOk result (λ s. frames_of bound.now s ≡ Starts main ∷ []) }
{
    let mut state = State {
        alloc,
        event: Event::Silent,
        here: empty_stack(alloc, bound, number),
        frames: Stack::new(alloc),
    };
    state.push(bound, Frame::End(EndFrame::Starts { main }))?;
    Ok(state)
}

// Ends a step, which came to this.
fn settle(state: &mut State, bound: &Bound<'_>, going: Option<u64>) -> Result<(), AllocError>
    ensures { OnOk result (state_of bound.now state.new ≡ after bound.now going state.old) }
{
    match going {
        Some(word) => give(state, bound, word),
        None => Ok(()),
    }
}

// Thread 0 at the start of `main`.
fn main_thread(alloc: Global, bound: &Bound<'_>) -> Result<State, AllocError>
    ensures { IfOk result (λ s. state_of bound.now s ≡ main_state (linked_in bound.now)) }
{
    let mut state = first_state(alloc, bound, 0, true)?;
    let going = state.enter(bound, Vec::new(alloc), bound.main())?;
    settle(&mut state, bound, going)?;
    Ok(state)
}

// A thread of this number, at the start of the function with that number.
fn started_thread(
    alloc: Global,
    bound: &Bound<'_>,
    number: u8,
    func: u64,
    arg: i64,
) -> Result<State, AllocError>
    ensures { IfOk result (λ s. state_of bound.now s ≡ begins (linked_in bound.now) number func arg) }
{
    // A number that no function has counts as want of memory; no event has one.
    let Ok(func) = u32::try_from(func) else {
        return Err(AllocError);
    };
    let mut state = first_state(alloc, bound, number, false)?;
    let words = state.one_word(word_of(i128::from(arg)))?;
    let going = state.enter(bound, words, func)?;
    settle(&mut state, bound, going)?;
    Ok(state)
}

impl<'a> SourceThread<'a> {
    /// Thread 0 at the start of `main`.
    pub fn main(alloc: Global, bound: &'a Bound<'a>) -> Result<SourceThread<'a>, AllocError>
        ensures program { IfOk result (λ t. program_of t ≡ linked_in bound.now) }
        ensures state { IfOk result (λ t. shown t ≡ main_state (linked_in bound.now)) }
    {
        let state = main_thread(alloc, bound)?;
        Ok(SourceThread { bound, state })
    }

    /// A thread of this number, at the start of the function with that number.
    pub fn start(&self, number: u8, func: u64, arg: i64) -> Result<SourceThread<'a>, AllocError>
        ensures program { IfOk result (λ t. program_of t ≡ program_of self.now) }
        ensures state { IfOk result (λ t. shown t ≡ (source (program_of self.now)).child (shown self.now) number func arg) }
    {
        let bound = self.bound;
        let state = started_thread(self.state.alloc, bound, number, func, arg)?;
        Ok(SourceThread { bound, state })
    }

    /// The next event.
    pub fn next(&self) -> Event
        ensures { result ≡ (source (program_of self.now)).next (shown self.now) }
    {
        self.state.event
    }

    /// Goes on after the next event, which was answered so. On `AllocError` the thread is of no more use.
    pub fn go_on(&mut self, reply: Reply) -> Result<(), AllocError>
        ensures program { program_of self.new ≡ program_of self.old }
        ensures state { OnOk result (shown self.new ≡ (source (program_of self.old)).after (shown self.old) reply) }
    {
        give(&mut self.state, self.bound, reply_word(reply))
    }
}
