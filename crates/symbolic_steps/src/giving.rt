//! How a function goes on with a value.

ghost use Rattle.std.specs.Prelude.{ℕ, ◌≡◌, ◌∷◌, cond, IfOk};
ghost use Rattle.cpp_tree.specs.cpp_types.Typ.{Typ};
ghost use Rattle.cpp_tree.specs.cpp_layout.Layout.{kind_size};
ghost use Rattle.src_frames.specs.Bounds.{tree_of};
ghost use Rattle.src_frames.specs.Shown.{change_shown};
ghost use Rattle.symbolic_source.specs.Terms.{converted_to, result as result_of};
ghost use Rattle.symbolic_source.specs.Frames.{into, Run as Runs, Gives as GivesWord, Loaded as LoadedSo, UpdateOld as UpdatesOld};
ghost use Rattle.symbolic_source.specs.Outcomes.{silent, reads as reads_word, writes as writes_word, goes as goes_on, results as results_in, either as either_of};
ghost use Rattle.symbolic_source.specs.Steps.{given as gives};
ghost use Rattle.symbolic_terms.specs.Meanings.{Meaning, word_of, Agrees};
ghost use Rattle.symbolic_terms.specs.Shown.{way_of, value_of, block_of};
ghost use Rattle.symbolic_leaving.specs.Source.{types_at, linked_to, units_of, func_of};
ghost use Rattle.symbolic_leaving.specs.Answers.{answers_at};
ghost use Rattle.symbolic_leaving.specs.Shown.{frame_at, frames_at, left_in, waits_in, waiting_at, outcome_at};
ghost use Rattle.symbolic_running.specs.Next.{next_of, given_to};

use crate::calls::give_call;
use crate::objects::give_objects;
use crate::statements::give_statement;
use crate::throwing::give_exception;
use bumpalo::Bump;
use cpp_tree::below::{BinOp, IntKind};
use src_frames::frames::Change;
use src_frames::trees::TreeAt;
use std::alloc::Global;
use symbolic_leaving::answers::CaseAnswers;
use symbolic_leaving::source::Source;
use symbolic_leaving::states::{
    Made, chooses, either, number, reads, run_into, run_next, with_frame, writes,
};
use symbolic_running::next::{
    Going, Next, When, coming, converting, leaving, reading, running, running_before, running_into,
    writing,
};
use symbolic_running::running::run;
use symbolic_terms::arena::keep;
use symbolic_terms::frames::{BlockFrame, Frame, Frames, ValueFrame, Waitings, Way};
use symbolic_terms::ids::WordId;
use symbolic_terms::made::{applied, converted};
use symbolic_terms::outcomes::{Doing, Outcome, Rest};
use symbolic_terms::refusal::Refusal;
use symbolic_terms::words::Words;

/// Goes on with a value.
pub fn give<'a>(
    alloc: Global,
    arena: &'a Bump,
    words: &mut Words<'a>,
    source: &Source<'a>,
    answers: CaseAnswers<'_>,
    temporaries: Waitings<'a>,
    value: WordId,
    frames: Frames<'a>,
) -> Made<'a>
    ensures is { IfOk result (λ o. (m : Meaning) → Agrees (types_at source.now) m words.new → outcome_at source.now m o ≡ gives (linked_to source.now) (func_of source.now) (answers_at source.now answers.entry) (waiting_at source.now m temporaries.entry) (word_of m value) (frames_at source.now m frames.entry)) }
    ensures grows { (types : ℕ → Typ) (m : Meaning) → Agrees types m words.new → Agrees types m words.old }
{
    match frames {
        Frames::Empty => Ok(Outcome::Hands(value, temporaries)),
        Frames::More(frame, others) => {
            let rest = Rest {
                temporaries,
                frames: *others,
            };
            match give_to(alloc, arena, words, source, answers, rest, frame, value)? {
                Next::Made(When::Always, outcome) => Ok(outcome),
                Next::Gives(word) => give(
                    alloc,
                    arena,
                    words,
                    source,
                    answers,
                    temporaries,
                    word,
                    *others,
                ),
                Next::Applied {
                    op,
                    kind,
                    left,
                    right,
                } => {
                    let word = applied(arena, words, op, kind, left, right)?;
                    let then = give(
                        alloc,
                        arena,
                        words,
                        source,
                        answers,
                        temporaries,
                        word,
                        *others,
                    )?;
                    results(arena, source, op, kind, left, right, then)
                }
                Next::Made(When::NotZero { word, value }, other) => {
                    let zero = give(
                        alloc,
                        arena,
                        words,
                        source,
                        answers,
                        temporaries,
                        value,
                        *others,
                    )?;
                    chooses(arena, source, word, zero, other)
                }
            }
        }
    }
}

// This, where an operator does not trap.
fn results<'a>(
    arena: &'a Bump,
    source: &Source<'a>,
    op: BinOp,
    kind: IntKind,
    left: WordId,
    right: WordId,
    then: Outcome<'a>,
) -> Made<'a>
    ensures { IfOk result (λ o. (m : Meaning) → outcome_at source.now m o ≡ results_in op kind (word_of m left) (word_of m right) (outcome_at source.now m then.entry)) }
{
    let _shown = source;
    Ok(Outcome::Results {
        op,
        kind,
        left,
        right,
        then: keep(arena, then)?,
    })
}

// Goes on with a value for a frame, behind which this is left.
fn give_to<'a>(
    alloc: Global,
    arena: &'a Bump,
    words: &mut Words<'a>,
    source: &Source<'a>,
    answers: CaseAnswers<'_>,
    rest: Rest<'a>,
    frame: Frame<'a>,
    value: WordId,
) -> Going<'a>
    ensures is { IfOk result (λ o. (m : Meaning) → Agrees (types_at source.now) m words.new → next_of source.now m answers.entry rest.entry o ≡ given_to source.now m answers.entry rest.entry (word_of m value) (frame_at source.now m frame.entry)) }
    ensures grows { (types : ℕ → Typ) (m : Meaning) → Agrees types m words.new → Agrees types m words.old }
{
    match frame {
        Frame::Run(way, tree) => run(alloc, arena, words, source, answers, rest, way, tree),
        Frame::Address(word) => Ok(Next::Gives(word)),
        Frame::Then(way, tree) => running(arena, source, answers, rest, way, tree),
        Frame::Gives(word) => Ok(Next::Gives(word)),
        Frame::Leaves(exit) => leaving(arena, words, source, answers, rest, exit),
        Frame::Value(frame) => give_value(arena, words, source, answers, rest, frame, value),
        Frame::Call(frame) => give_call(arena, words, source, answers, rest, frame, value),
        Frame::Object(frame) => give_objects(arena, words, source, answers, rest, frame, value),
        Frame::Statement(frame) => give_statement(
            arena, words, source, answers, rest, frame, value,
        ),
        Frame::Block(frame) => give_block(arena, words, source, answers, rest, frame, value),
        Frame::Exception(frame) => {
            give_exception(alloc, arena, words, source, answers, rest, frame, value)
        }
    }
}

// Goes on with the value of an operand.
fn give_value<'a>(
    arena: &'a Bump,
    words: &mut Words<'a>,
    source: &Source<'a>,
    answers: CaseAnswers<'_>,
    rest: Rest<'a>,
    frame: ValueFrame,
    value: WordId,
) -> Going<'a>
    ensures is { IfOk result (λ o. (m : Meaning) → Agrees (types_at source.now) m words.new → next_of source.now m answers.entry rest.entry o ≡ given_to source.now m answers.entry rest.entry (word_of m value) (value_of (types_at source.now) m (units_of source.now) frame)) }
    ensures grows { (types : ℕ → Typ) (m : Meaning) → Agrees types m words.new → Agrees types m words.old }
{
    match frame {
        ValueFrame::Loads(kind, volatile) => {
            reading(arena, source, answers, rest, value, kind, volatile)
        }
        ValueFrame::Loaded(kind) => converting(arena, words, source, answers, rest, kind, value),
        ValueFrame::Replied => Ok(Next::Gives(value)),
        ValueFrame::StoreTo {
            address,
            kind,
            volatile,
            answer,
        } => writing(
            arena, source, answers, rest, address, kind, value, volatile, answer,
        ),
        ValueFrame::Converts(kind) => converting(arena, words, source, answers, rest, kind, value),
        ValueFrame::Right(op, kind, right) => {
            let then = Frame::Value(ValueFrame::Apply(op, kind, value));
            running_before(arena, source, answers, rest, right, then)
        }
        ValueFrame::Apply(op, kind, left) => Ok(Next::Applied {
            op,
            kind,
            left,
            right: value,
        }),
        ValueFrame::Choose { way, chosen, other } => {
            choose(
                arena, words, source, answers, rest, way, chosen, other, value,
            )
        }
        ValueFrame::AssignTo(kind, volatile, right) => {
            let then = ValueFrame::StoreTo {
                address: value,
                kind,
                volatile,
                answer: value,
            };
            running_before(arena, source, answers, rest, right, Frame::Value(then))
        }
        ValueFrame::UpdateAt(change, right) => {
            update_at(arena, source, answers, rest, change, right, value)
        }
        ValueFrame::UpdateOld(change, address, right) => {
            let then = ValueFrame::UpdateBy {
                change,
                address,
                old: value,
            };
            running_before(arena, source, answers, rest, right, Frame::Value(then))
        }
        ValueFrame::UpdateBy {
            change,
            address,
            old,
        } => update(
            arena, words, source, answers, rest, change, address, old, value,
        ),
        ValueFrame::CopyTo { source: from, init } => {
            let then = ValueFrame::CopyBy {
                target: value,
                init,
            };
            running_before(arena, source, answers, rest, from, Frame::Value(then))
        }
        ValueFrame::CopyBy { target, init } => {
            copy_by(arena, source, answers, rest, target, value, init)
        }
        ValueFrame::From { target, init } => {
            running_into(arena, source, answers, rest, target, value, init)
        }
    }
}

// Runs one tree where the value is 0, and else the other.
fn choose<'a>(
    arena: &'a Bump,
    words: &Words<'_>,
    source: &Source<'a>,
    answers: CaseAnswers<'_>,
    rest: Rest<'a>,
    way: Way,
    chosen: TreeAt,
    other: TreeAt,
    value: WordId,
) -> Going<'a>
    ensures { IfOk result (λ o. (m : Meaning) → Agrees (types_at source.now) m words.now → next_of source.now m answers.entry rest.entry o ≡ either_of (word_of m value) (goes_on silent (waits_in source.now m rest.entry) (Runs (way_of (types_at source.now) m way) (tree_of source.now.bound.now other) ∷ left_in source.now m rest.entry)) (goes_on silent (waits_in source.now m rest.entry) (Runs (way_of (types_at source.now) m way) (tree_of source.now.bound.now chosen) ∷ left_in source.now m rest.entry))) }
{
    let _shown = answers;
    let zero = run_next(arena, source, rest, way, other)?;
    let then = run_next(arena, source, rest, way, chosen)?;
    Ok(Next::Made(
        When::Always,
        either(arena, words, source, value, zero, then)?,
    ))
}

// Reads what is updated.
fn update_at<'a>(
    arena: &'a Bump,
    source: &Source<'a>,
    answers: CaseAnswers<'_>,
    rest: Rest<'a>,
    change: Change,
    right: TreeAt,
    address: WordId,
) -> Going<'a>
    ensures { IfOk result (λ o. (m : Meaning) → next_of source.now m answers.entry rest.entry o ≡ goes_on (reads_word (word_of m address) (kind_size change.stored) change.volatile) (waits_in source.now m rest.entry) (LoadedSo change.stored ∷ UpdatesOld (change_shown change) (word_of m address) (tree_of source.now.bound.now right) ∷ left_in source.now m rest.entry)) }
{
    let _shown = answers;
    let then = Frame::Value(ValueFrame::UpdateOld(change, address, right));
    let with = with_frame(arena, source, rest, then)?;
    Ok(Next::Made(
        When::Always,
        reads(arena, source, with, address, change.stored, change.volatile)?,
    ))
}

// Copies an object, whose address is given then.
fn copy_by<'a>(
    arena: &'a Bump,
    source: &Source<'a>,
    answers: CaseAnswers<'_>,
    rest: Rest<'a>,
    target: WordId,
    from: WordId,
    init: TreeAt,
) -> Going<'a>
    ensures { IfOk result (λ o. (m : Meaning) → next_of source.now m answers.entry rest.entry o ≡ goes_on silent (waits_in source.now m rest.entry) (Runs (into (word_of m target) (word_of m from)) (tree_of source.now.bound.now init) ∷ GivesWord (word_of m target) ∷ left_in source.now m rest.entry)) }
{
    let _shown = answers;
    let with = with_frame(arena, source, rest, Frame::Gives(target))?;
    Ok(Next::Made(
        When::Always,
        run_into(arena, source, with, target, from, init)?,
    ))
}

// What an update stores.
fn stored_word<'a>(
    arena: &'a Bump,
    words: &mut Words<'a>,
    change: Change,
    old: WordId,
    right: WordId,
) -> Result<WordId, Refusal>
    ensures is { IfOk result (λ t. (types : ℕ → Typ) (m : Meaning) → Agrees types m words.new → word_of m t ≡ converted_to change.stored (result_of change.op change.operation (word_of m old) (word_of m right))) }
    ensures grows { (types : ℕ → Typ) (m : Meaning) → Agrees types m words.new → Agrees types m words.old }
{
    let word = applied(arena, words, change.op, change.operation, old, right)?;
    converted(arena, words, change.stored, word)
}

// What an update gives.
fn updated<'a>(change: Change, address: WordId, old: WordId) -> WordId
    ensures { (m : Meaning) → word_of m result ≡ cond change.old (word_of m old) (word_of m address) }
{
    if change.old { old } else { address }
}

// Stores the value of an update.
fn update<'a>(
    arena: &'a Bump,
    words: &mut Words<'a>,
    source: &Source<'a>,
    answers: CaseAnswers<'_>,
    rest: Rest<'a>,
    change: Change,
    address: WordId,
    old: WordId,
    right: WordId,
) -> Going<'a>
    ensures is { IfOk result (λ o. (m : Meaning) → Agrees (types_at source.now) m words.new → next_of source.now m answers.entry rest.entry o ≡ results_in change.op change.operation (word_of m old) (word_of m right) (goes_on (writes_word (word_of m address) change.stored (converted_to change.stored (result_of change.op change.operation (word_of m old) (word_of m right))) change.volatile) (waits_in source.now m rest.entry) (GivesWord (cond change.old (word_of m old) (word_of m address)) ∷ left_in source.now m rest.entry))) }
    ensures grows { (types : ℕ → Typ) (m : Meaning) → Agrees types m words.new → Agrees types m words.old }
{
    let _shown = answers;
    let stored = stored_word(arena, words, change, old, right)?;
    let then = Frame::Gives(updated(change, address, old));
    let written = writes(
        arena,
        source,
        rest,
        address,
        change.stored,
        stored,
        change.volatile,
        then,
    )?;
    let outcome = results(
        arena,
        source,
        change.op,
        change.operation,
        old,
        right,
        written,
    )?;
    Ok(Next::Made(When::Always, outcome))
}

// Goes on in a block of the TS.
fn give_block<'a>(
    arena: &'a Bump,
    words: &mut Words<'a>,
    source: &Source<'a>,
    answers: CaseAnswers<'_>,
    rest: Rest<'a>,
    frame: BlockFrame,
    value: WordId,
) -> Going<'a>
    ensures is { IfOk result (λ o. (m : Meaning) → Agrees (types_at source.now) m words.new → next_of source.now m answers.entry rest.entry o ≡ given_to source.now m answers.entry rest.entry (word_of m value) (block_of frame (units_of source.now))) }
    ensures grows { (types : ℕ → Typ) (m : Meaning) → Agrees types m words.new → Agrees types m words.old }
{
    let _given = value;
    match frame {
        BlockFrame::Opens(block, body) => {
            let then = Frame::Block(BlockFrame::Within(block));
            running_before(arena, source, answers, rest, body, then)
        }
        BlockFrame::Within(block) => {
            let then = Frame::Block(BlockFrame::Closes(block));
            coming(arena, source, answers, rest, Doing::EndsBlock(block), then)
        }
        BlockFrame::Closes(_) => Ok(Next::Gives(number(words, 0)?)),
    }
}
