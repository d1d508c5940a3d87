//! Statements (C++14 clause 6).

ghost use Rattle.std.specs.Prelude.{◌≡◌, ◌∷◌, ℕ, IfOk};
ghost use Rattle.cpp_tree.specs.tx_events.declared.Event.TheVariants.{Silent};
ghost use Rattle.src_mean.specs.Source.{give, is_case as is_case_kind, is_default as is_default_kind, from_label, run_items as runs_items, compare as compares};
ghost use Rattle.src_mean.specs.Frames.{at, value as for_value, Run as Runs, Items as ItemsOf, Test as Tests, Body as Bodies, Step as Steps};
ghost use Rattle.src_bind.specs.Bounds.{given};
ghost use Rattle.src_frames.specs.Shown.{statement_shown};
ghost use Rattle.src_frames.specs.Bounds.{tree_of, all_kids, here_of, frames_of, linked_in, after};

use crate::giving::run_before;
use crate::leaving::leave;
use crate::roots::{case_word, is_case, is_default};
use src_bind::Bound;
use src_frames::frames::{Exit, Frame, LoopParts, Owner, StatementFrame};
use src_frames::state::{Going, State};
use src_frames::trees::{KidsAt, head, kind_of, rest};

// From the first `case` on.
#[tactic(auto, using(crate::proofs::Labels::fewer, crate::proofs::Labels::label_next, crate::proofs::Labels::label_here, crate::proofs::Labels::label_none))]
fn from_case(bound: &Bound<'_>, items: KidsAt) -> KidsAt
    ensures { all_kids bound.now result ≡ from_label is_case_kind (all_kids bound.now items) }
{
    let mut at = items;
    while let Some(item) = head(bound, at) {
        if is_case(kind_of(bound, item)) {
            return at;
        }
        at = rest(bound, at);
    }
    at
}

// From `default` on.
#[tactic(auto, using(crate::proofs::Labels::fewer, crate::proofs::Labels::label_next, crate::proofs::Labels::label_here, crate::proofs::Labels::label_none))]
fn from_default(bound: &Bound<'_>, items: KidsAt) -> KidsAt
    ensures { all_kids bound.now result ≡ from_label is_default_kind (all_kids bound.now items) }
{
    let mut at = items;
    while let Some(item) = head(bound, at) {
        if is_default(kind_of(bound, item)) {
            return at;
        }
        at = rest(bound, at);
    }
    at
}

/// Goes on with a value for a statement.
pub(crate) fn give_statement(
    state: &mut State,
    bound: &Bound<'_>,
    frame: StatementFrame,
    value: u64,
) -> Going
    ensures { IfOk result (λ o. after bound.now o state.new ≡ give (linked_in bound.now) (here_of bound.now state.old) value (statement_shown (given bound.now).program frame ∷ frames_of bound.now state.old)) }
{
    match frame {
        StatementFrame::Items(kids) => run_item(state, bound, kids),
        StatementFrame::Test(parts) => {
            if value == 0 {
                state.gives(bound, 0)
            } else {
                run_body(state, bound, parts)
            }
        }
        StatementFrame::Body(parts) => run_step(state, bound, parts),
        StatementFrame::Step(parts) => run_test(state, bound, parts),
        StatementFrame::Picks(items) => {
            compare(state, bound, value, from_case(bound, items), items)
        }
        StatementFrame::Compares {
            word,
            label,
            behind,
            items,
        } => {
            if case_word(label) == word {
                run_items(state, bound, behind)
            } else {
                compare(state, bound, word, from_case(bound, behind), items)
            }
        }
        StatementFrame::Switches => Ok(Some(0)),
        StatementFrame::Returning => leave(state, bound, Exit::Returns(value)),
    }
}

// Runs the first of these statements, and then the others.
#[tactic(auto, using(crate::proofs::Steps::items_more, crate::proofs::Steps::items_none))]
fn run_item(state: &mut State, bound: &Bound<'_>, kids: KidsAt) -> Going
    ensures { (v : ℕ) → IfOk result (λ o. after bound.now o state.new ≡ give (linked_in bound.now) (here_of bound.now state.old) v (ItemsOf (all_kids bound.now kids) ∷ (frames_of bound.now state.old))) }
{
    match head(bound, kids) {
        Some(item) => {
            let then = StatementFrame::Items(rest(bound, kids));
            run_before(state, bound, item, Frame::Statement(then))
        }
        None => Ok(Some(0)),
    }
}

/// Runs the test of a loop.
pub(crate) fn run_test(state: &mut State, bound: &Bound<'_>, parts: LoopParts) -> Going
    ensures { IfOk result (λ o. after bound.now o state.new ≡ at Silent (here_of bound.now state.old) (Runs for_value (tree_of bound.now parts.test) ∷ Tests (tree_of bound.now parts.test) (tree_of bound.now parts.body) (tree_of bound.now parts.step) ∷ frames_of bound.now state.old)) }
{
    let then = Frame::Statement(StatementFrame::Test(parts));
    run_before(state, bound, parts.test, then)
}

/// Runs the body of a loop.
pub(crate) fn run_body(state: &mut State, bound: &Bound<'_>, parts: LoopParts) -> Going
    ensures { IfOk result (λ o. after bound.now o state.new ≡ at Silent (here_of bound.now state.old) (Runs for_value (tree_of bound.now parts.body) ∷ Bodies (tree_of bound.now parts.test) (tree_of bound.now parts.body) (tree_of bound.now parts.step) ∷ frames_of bound.now state.old)) }
{
    let then = Frame::Statement(StatementFrame::Body(parts));
    run_before(state, bound, parts.body, then)
}

/// Runs the step of a loop.
pub(crate) fn run_step(state: &mut State, bound: &Bound<'_>, parts: LoopParts) -> Going
    ensures { IfOk result (λ o. after bound.now o state.new ≡ at Silent (here_of bound.now state.old) (Runs for_value (tree_of bound.now parts.step) ∷ Steps (tree_of bound.now parts.test) (tree_of bound.now parts.body) (tree_of bound.now parts.step) ∷ frames_of bound.now state.old)) }
{
    let then = Frame::Statement(StatementFrame::Step(parts));
    run_before(state, bound, parts.step, then)
}

// Runs statements of a switch.
fn run_items(state: &mut State, bound: &Bound<'_>, items: KidsAt) -> Going
    ensures { IfOk result (λ o. after bound.now o state.new ≡ runs_items (here_of bound.now state.old) (all_kids bound.now items) (frames_of bound.now state.old)) }
{
    state.push(bound, Frame::Statement(StatementFrame::Switches))?;
    state.push_scope(bound, Owner::Block, true)?;
    state.goes(bound, Frame::Statement(StatementFrame::Items(items)))
}

// The next label is compared; where there is none, the items go on from `default`.
#[tactic(auto, using(crate::proofs::Steps::compare_more, crate::proofs::Steps::compare_none))]
fn compare(state: &mut State, bound: &Bound<'_>, word: u64, labels: KidsAt, items: KidsAt) -> Going
    ensures { IfOk result (λ o. after bound.now o state.new ≡ compares (here_of bound.now state.old) word (all_kids bound.now labels) (all_kids bound.now items) (frames_of bound.now state.old)) }
{
    match head(bound, labels) {
        Some(first) => {
            let frame = StatementFrame::Compares {
                word,
                label: kind_of(bound, first),
                behind: rest(bound, labels),
                items,
            };
            state.goes(bound, Frame::Statement(frame))
        }
        None => run_items(state, bound, from_default(bound, items)),
    }
}
