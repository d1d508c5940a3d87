//! Objects, from their initialisation to their destruction (C++14 12.2, 12.4, 12.6).

ghost use Rattle.std.specs.Prelude.{◌≡◌, ◌*◌, ◌∷◌, [], IfOk};
ghost use Rattle.cpp_tree.specs.tx_events.declared.Event.TheVariants.{Silent};
ghost use Rattle.cpp_tree.specs.declared.program.Program.{Program};
ghost use Rattle.cpp_tree.specs.Trees.{literal};
ghost use Rattle.src_mean.specs.Frames.{at, into, of_pieces, Run as Runs, Keeps as KeepsSome, Waits as WaitsIn, InitAt as InitsAt, Cleans as CleansAll, Due as DueAt, Destroys as DestroysSome, Parts as PartsOf, Each as EachOf};
ghost use Rattle.src_mean.specs.Source.{give, with_temporaries, kept as kept_of, destroy as destroys, plus as sum_of, enter as enters};
ghost use Rattle.src_bind.specs.Bounds.{given};
ghost use Rattle.src_frames.specs.Shown.{object_shown, all_waiting, owner_shown};
ghost use Rattle.src_frames.specs.Bounds.{tree_of, all_kids, frame_of, here_of, frames_of, linked_in, after};

use crate::roots::destruction_of;
use cpp_tree::TKind;
use src_bind::Bound;
use src_frames::frames::{Frame, ObjectFrame, Owner, Waiting, Way};
use src_frames::state::{Going, State, unit_of};
use src_frames::trees::{KidsAt, TreeAt, head, is_past, kind_of, rest};
use src_frames::words::plus;
use std::mem;

/// Goes on with a value for objects.
pub(crate) fn give_objects(
    state: &mut State,
    bound: &Bound<'_>,
    frame: ObjectFrame,
    value: u64,
) -> Going
    ensures { IfOk result (λ o. after bound.now o state.new ≡ give (linked_in bound.now) (here_of bound.now state.old) value (object_shown (given bound.now).program frame ∷ frames_of bound.now state.old)) }
{
    match frame {
        ObjectFrame::Full { outer } => end_full(state, bound, outer, Frame::Gives(value)),
        ObjectFrame::Keeps(waiting) => keep(state, bound, waiting, value),
        ObjectFrame::Scope {
            owner: _,
            always,
            waiting,
        } => {
            let due = kept(state, always, waiting);
            clean(state, bound, due, Frame::Gives(value))
        }
        ObjectFrame::Waits(owner, waiting) => wait(state, bound, owner, waiting, value),
        ObjectFrame::InitAt { init, destroys } => build(state, bound, value, init, destroys),
        ObjectFrame::Cleans(waiting) => clean_next(state, bound, waiting, value),
        ObjectFrame::Due(kids) => destroy_due(state, bound, value, kids),
        ObjectFrame::Destroys {
            number,
            address,
            stride,
            left,
        } => match left.checked_sub(1) {
            Some(others) => destroy_element(state, bound, number, address, stride, others),
            None => Ok(Some(value)),
        },
        ObjectFrame::Parts {
            kids,
            target,
            source,
        } => build_part(state, bound, kids, target, source, value),
        ObjectFrame::Each {
            init,
            destroys,
            stride,
            left,
            target,
            source,
        } => match left.checked_sub(1) {
            Some(others) => build_element(
                state, bound, init, destroys, stride, others, target, source,
            ),
            None => Ok(Some(value)),
        },
    }
}

/// A full-expression ends: its temporaries are destroyed, and then this frame goes on.
pub(crate) fn end_full(
    state: &mut State,
    bound: &Bound<'_>,
    outer: Vec<Waiting>,
    then: Frame,
) -> Going
    ensures { IfOk result (λ o. after bound.now o state.new ≡ at Silent (with_temporaries (here_of bound.now state.old) (all_waiting (given bound.now).program outer.items)) (CleansAll (here_of bound.now state.old).temporaries ∷ frame_of bound.now then ∷ (frames_of bound.now state.old))) }
{
    let inner = mem::replace(&mut state.here.temporaries, outer);
    clean(state, bound, inner, then)
}

// What is destroyed where a scope is left by its end.
fn kept(state: &State, always: bool, waiting: Vec<Waiting>) -> Vec<Waiting>
    ensures { (p : Program) → all_waiting p result.items ≡ kept_of always (all_waiting p waiting.items) }
{
    if always {
        waiting
    } else {
        Vec::new(state.alloc)
    }
}

/// These objects are destroyed, and then this frame goes on.
pub(crate) fn clean(
    state: &mut State,
    bound: &Bound<'_>,
    waiting: Vec<Waiting>,
    then: Frame,
) -> Going
    ensures { IfOk result (λ o. after bound.now o state.new ≡ at Silent (here_of bound.now state.old) (CleansAll (all_waiting (given bound.now).program waiting.items) ∷ frame_of bound.now then ∷ frames_of bound.now state.old)) }
{
    state.push(bound, then)?;
    state.goes(bound, Frame::Object(ObjectFrame::Cleans(waiting)))
}

// These objects are among the temporaries, where they have destructions.
#[tactic(auto, using(crate::proofs::Steps::waiting_more, crate::proofs::Steps::waiting_none, crate::proofs::Waits::waiting_push))]
fn keep(state: &mut State, bound: &Bound<'_>, waiting: Waiting, value: u64) -> Going
    ensures { IfOk result (λ o. after bound.now o state.new ≡ give (linked_in bound.now) (here_of bound.now state.old) value (KeepsSome (tree_of bound.now waiting.address) (all_kids bound.now waiting.destroys) ∷ (frames_of bound.now state.old))) }
{
    if !is_past(bound, waiting.destroys) {
        state.here.temporaries.push(waiting)?;
    }
    state.gives(bound, value)
}

// These objects are in the nearest scope of that owner, where they have destructions.
#[tactic(auto, using(crate::proofs::Steps::puts_more, crate::proofs::Steps::puts_none))]
fn wait(state: &mut State, bound: &Bound<'_>, owner: Owner, waiting: Waiting, value: u64) -> Going
    ensures { IfOk result (λ o. after bound.now o state.new ≡ give (linked_in bound.now) (here_of bound.now state.old) value (WaitsIn (owner_shown owner) (tree_of bound.now waiting.address) (all_kids bound.now waiting.destroys) ∷ (frames_of bound.now state.old))) }
{
    if !is_past(bound, waiting.destroys) {
        state.put_waiting(bound, owner, waiting)?;
    }
    state.gives(bound, value)
}

// Builds a variable, a base or a member at an address.
fn build(
    state: &mut State,
    bound: &Bound<'_>,
    address: u64,
    init: TreeAt,
    destroys: KidsAt,
) -> Going
    ensures { IfOk result (λ o. after bound.now o state.new ≡ give (linked_in bound.now) (here_of bound.now state.old) address (InitsAt (tree_of bound.now init) (all_kids bound.now destroys) ∷ (frames_of bound.now state.old))) }
{
    let waiting = Waiting {
        address: TreeAt::Word(address),
        destroys,
    };
    state.push(
        bound,
        Frame::Object(ObjectFrame::Waits(Owner::Block, waiting)),
    )?;
    let way = Way::Into {
        target: address,
        source: 0,
    };
    state.run_next(bound, way, init)
}

// Destroys the newest of the objects that wait.
#[tactic(auto, using(crate::proofs::Waits::waiting_push))]
fn clean_next(state: &mut State, bound: &Bound<'_>, mut waiting: Vec<Waiting>, value: u64) -> Going
    ensures { IfOk result (λ o. after bound.now o state.new ≡ give (linked_in bound.now) (here_of bound.now state.old) value (CleansAll (all_waiting (given bound.now).program waiting.items) ∷ (frames_of bound.now state.old))) }
{
    match waiting.pop() {
        Some(next) => {
            state.push(bound, Frame::Object(ObjectFrame::Cleans(waiting)))?;
            state.push(bound, Frame::Object(ObjectFrame::Due(next.destroys)))?;
            state.run_next(bound, Way::Value, next.address)
        }
        None => Ok(Some(value)),
    }
}

// The destructions at an address.
#[tactic(auto, using(crate::proofs::Steps::due_more, crate::proofs::Steps::due_none))]
fn destroy_due(state: &mut State, bound: &Bound<'_>, address: u64, kids: KidsAt) -> Going
    ensures { IfOk result (λ o. after bound.now o state.new ≡ give (linked_in bound.now) (here_of bound.now state.old) address (DueAt (all_kids bound.now kids) ∷ (frames_of bound.now state.old))) }
{
    match head(bound, kids) {
        Some(first) => {
            let kind = kind_of(bound, first);
            destroy(state, bound, address, kind, rest(bound, kids))
        }
        None => Ok(Some(address)),
    }
}

// The destructions at an address, of which this one is first.
#[tactic(auto, using(crate::proofs::Steps::destroy_some, crate::proofs::Steps::destroy_other))]
fn destroy(state: &mut State, bound: &Bound<'_>, address: u64, kind: TKind, others: KidsAt) -> Going
    ensures { IfOk result (λ o. after bound.now o state.new ≡ destroys (linked_in bound.now) (here_of bound.now state.old) address kind (all_kids bound.now others) (frames_of bound.now state.old)) }
{
    state.push(bound, Frame::Object(ObjectFrame::Due(others)))?;
    match destruction_of(kind) {
        Some(found) => {
            let number = bound.number(unit_of(bound, &state.here), found.func);
            state.push(bound, Frame::Gives(address))?;
            let frame = ObjectFrame::Destroys {
                number,
                address: plus(address, u64::from(found.offset)),
                stride: found.stride,
                left: found.count,
            };
            state.goes(bound, Frame::Object(frame))
        }
        None => state.gives(bound, address),
    }
}

// Destroys the last of the elements, before which these others stand.
fn destroy_element(
    state: &mut State,
    bound: &Bound<'_>,
    number: u32,
    address: u64,
    stride: u32,
    others: u32,
) -> Going
    ensures { IfOk result (λ o. after bound.now o state.new ≡ enters (here_of bound.now state.old) (sum_of address (others * stride) ∷ []) ((linked_in bound.now).func number) (DestroysSome number address stride others ∷ (frames_of bound.now state.old))) }
{
    let frame = ObjectFrame::Destroys {
        number,
        address,
        stride,
        left: others,
    };
    state.push(bound, Frame::Object(frame))?;
    let element = plus(address, u64::from(others) * u64::from(stride));
    let words = state.one_word(element)?;
    state.enter(bound, words, number)
}

// Builds the first of these parts, and then the others.
#[tactic(auto, using(crate::proofs::Steps::parts_more, crate::proofs::Steps::parts_none))]
fn build_part(
    state: &mut State,
    bound: &Bound<'_>,
    kids: KidsAt,
    target: u64,
    source: u64,
    value: u64,
) -> Going
    ensures { IfOk result (λ o. after bound.now o state.new ≡ give (linked_in bound.now) (here_of bound.now state.old) value (PartsOf (all_kids bound.now kids) target source ∷ (frames_of bound.now state.old))) }
{
    let Some(part) = head(bound, kids) else {
        return Ok(Some(value));
    };
    let frame = ObjectFrame::Parts {
        kids: rest(bound, kids),
        target,
        source,
    };
    state.push(bound, Frame::Object(frame))?;
    state.run_next(bound, Way::Into { target, source }, part)
}

// Builds the next element, behind which these others stand.
fn build_element(
    state: &mut State,
    bound: &Bound<'_>,
    init: TreeAt,
    destroys: KidsAt,
    stride: u32,
    others: u32,
    target: u64,
    source: u64,
) -> Going
    ensures { IfOk result (λ o. after bound.now o state.new ≡ at Silent (here_of bound.now state.old) (Runs (into target source) (tree_of bound.now init) ∷ WaitsIn of_pieces (literal target) (all_kids bound.now destroys) ∷ EachOf (tree_of bound.now init) (all_kids bound.now destroys) stride others (sum_of target stride) (sum_of source stride) ∷ (frames_of bound.now state.old))) }
{
    let frame = ObjectFrame::Each {
        init,
        destroys,
        stride,
        left: others,
        target: plus(target, u64::from(stride)),
        source: plus(source, u64::from(stride)),
    };
    state.push(bound, Frame::Object(frame))?;
    let waiting = Waiting {
        address: TreeAt::Word(target),
        destroys,
    };
    state.push(
        bound,
        Frame::Object(ObjectFrame::Waits(Owner::Pieces, waiting)),
    )?;
    state.run_next(bound, Way::Into { target, source }, init)
}
