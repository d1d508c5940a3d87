//! Objects, from their initialisation to their destruction (C++14 12.2, 12.4, 12.6).

ghost use Rattle.std.specs.Prelude.{ℕ, ◌≡◌, ◌∷◌, IfOk};
ghost use Rattle.src_frames.specs.Bounds.{tree_of, all_kids};
ghost use Rattle.src_frames.specs.Shown.{owner_shown};
ghost use Rattle.src_mean.specs.Frames.{of_block};
ghost use Rattle.symbolic_source.specs.Terms.{number as number_of_term, plus_number as plus_number_of};
ghost use Rattle.symbolic_source.specs.Frames.{into, at_word, spot_frame as frame_of_spot, Run as Runs, Gives as GivesWord, Keeps as KeepsSome, Waits as WaitsIn, Cleans as CleansAll, Due as DueAt, Destroys as DestroysSome, Parts as PartsOf, Each as EachOf};
ghost use Rattle.symbolic_source.specs.Outcomes.{silent, goes as goes_on};
ghost use Rattle.symbolic_source.specs.Steps.{if_word, kept as kept_of, destroys_next as destroys, each_next as builds, destroyed};
ghost use Rattle.symbolic_terms.specs.Meanings.{Meaning, word_of, Agrees};
ghost use Rattle.cpp_tree.specs.cpp_types.Typ.{Typ};
ghost use Rattle.symbolic_terms.specs.Shown.{object_of, spot_of};
ghost use Rattle.symbolic_leaving.specs.Source.{types_at, linked_to, units_of, func_of};
ghost use Rattle.symbolic_leaving.specs.Answers.{answers_at};
ghost use Rattle.symbolic_leaving.specs.Shown.{frame_at, left_in, waits_in, waiting_at, outcome_at};
ghost use Rattle.symbolic_running.specs.Next.{next_of, given_to};

use bumpalo::Bump;
use cpp_tree::TKind;
use src_frames::frames::Owner;
use src_frames::trees::{KidsAt, TreeAt, head, kind_of, rest as rest_of};
use symbolic_frames::stacks::{put_some, with_waiting};
use symbolic_leaving::answers::CaseAnswers;
use symbolic_leaving::leaving::{clean, end_full};
use symbolic_leaving::roots::{Destruction, destruction_of};
use symbolic_leaving::source::{Source, number_of};
use symbolic_leaving::states::{Made, calls, gives, goes, is_zero, number, run_into, with_frame};
use symbolic_running::next::{Going, Next, When};
use symbolic_running::words::one_word;
use symbolic_terms::frames::{Callee, Frame, ObjectFrame, Spot, Waiting, Waitings, Way};
use symbolic_terms::ids::WordId;
use symbolic_terms::made::{element_at, one_less, plus_number};
use symbolic_terms::outcomes::{Outcome, Rest};
use symbolic_terms::refusal::Refusal;
use symbolic_terms::words::Words;

/// Goes on with a value for objects.
pub(crate) fn give_objects<'a>(
    arena: &'a Bump,
    words: &mut Words<'a>,
    source: &Source<'a>,
    answers: CaseAnswers<'_>,
    rest: Rest<'a>,
    frame: ObjectFrame<'a>,
    value: WordId,
) -> Going<'a>
    ensures is { IfOk result (λ o. (m : Meaning) → Agrees (types_at source.now) m words.new → next_of source.now m answers.entry rest.entry o ≡ given_to source.now m answers.entry rest.entry (word_of m value) (object_of (types_at source.now) m (units_of source.now) frame.entry)) }
    ensures grows { (types : ℕ → Typ) (m : Meaning) → Agrees types m words.new → Agrees types m words.old }
{
    match frame {
        ObjectFrame::Full { outer } => {
            Ok(Next::Made(
                When::Always,
                end_full(arena, source, rest, outer, Frame::Gives(value))?,
            ))
        }
        ObjectFrame::Keeps(waiting) => wait_among(arena, source, answers, rest, waiting, value),
        ObjectFrame::Scope {
            owner: _,
            always,
            waiting,
        } => {
            let due = kept(source, always, waiting);
            Ok(Next::Made(
                When::Always,
                clean(arena, source, rest, due, Frame::Gives(value))?,
            ))
        }
        ObjectFrame::Waits(owner, waiting) => {
            wait(arena, source, answers, rest, owner, waiting, value)
        }
        ObjectFrame::InitAt { init, destroys } => {
            Ok(Next::Made(
                When::Always,
                build(arena, words, source, rest, value, init, destroys)?,
            ))
        }
        ObjectFrame::Cleans(waiting) => clean_next(arena, source, answers, rest, waiting, value),
        ObjectFrame::Due(kids) => destroy_due(arena, words, source, answers, rest, value, kids),
        ObjectFrame::Destroys {
            number,
            address,
            stride,
            left,
        } => destroy_some(
            arena, words, source, answers, rest, number, address, stride, left, value,
        ),
        ObjectFrame::Parts {
            kids,
            target,
            source: from,
        } => build_part(arena, source, answers, rest, kids, target, from, value),
        ObjectFrame::Each {
            init,
            destroys,
            stride,
            left,
            target,
            source: from,
        } => build_some(
            arena,
            words,
            source,
            answers,
            rest,
            Elements {
                init,
                destroys,
                stride,
                target,
                from,
            },
            left,
            value,
        ),
    }
}

// What is destroyed where a scope is left by its end.
fn kept<'a>(source: &Source<'a>, always: bool, waiting: Waitings<'a>) -> Waitings<'a>
    ensures { (m : Meaning) → waiting_at source.now m result ≡ kept_of always (waiting_at source.now m waiting.entry) }
{
    let _shown = source;
    if always { waiting } else { Waitings::Empty }
}

// These objects are among the temporaries, where they have destructions.
fn wait_among<'a>(
    arena: &'a Bump,
    source: &Source<'a>,
    answers: CaseAnswers<'_>,
    rest: Rest<'a>,
    waiting: Waiting,
    value: WordId,
) -> Going<'a>
    ensures { IfOk result (λ o. (m : Meaning) → next_of source.now m answers.entry rest.entry o ≡ given_to source.now m answers.entry rest.entry (word_of m value) (KeepsSome (spot_of (types_at source.now) m (units_of source.now) waiting.address) (all_kids source.now.bound.now waiting.destroys))) }
{
    let _shown = answers;
    let with = Rest {
        temporaries: with_waiting(arena, source.bound, waiting, rest.temporaries)?,
        frames: rest.frames,
    };
    Ok(Next::Made(When::Always, gives(arena, source, with, value)?))
}

// These objects are in the nearest scope of that owner, where they have destructions.
fn wait<'a>(
    arena: &'a Bump,
    source: &Source<'a>,
    answers: CaseAnswers<'_>,
    rest: Rest<'a>,
    owner: Owner,
    waiting: Waiting,
    value: WordId,
) -> Going<'a>
    ensures { IfOk result (λ o. (m : Meaning) → next_of source.now m answers.entry rest.entry o ≡ given_to source.now m answers.entry rest.entry (word_of m value) (WaitsIn (owner_shown owner) (spot_of (types_at source.now) m (units_of source.now) waiting.address) (all_kids source.now.bound.now waiting.destroys))) }
{
    let _shown = answers;
    match put_some(arena, source.bound, owner, waiting, rest.frames)? {
        Some(frames) => {
            let put = Rest {
                temporaries: rest.temporaries,
                frames,
            };
            Ok(Next::Made(When::Always, gives(arena, source, put, value)?))
        }
        None => Ok(Next::Made(When::Always, Outcome::Stuck)),
    }
}

// Builds a variable, a base or a member at an address.
fn build<'a>(
    arena: &'a Bump,
    words: &mut Words<'a>,
    source: &Source<'a>,
    rest: Rest<'a>,
    address: WordId,
    init: TreeAt,
    destroys: KidsAt,
) -> Made<'a>
    ensures is { IfOk result (λ o. (m : Meaning) → Agrees (types_at source.now) m words.new → outcome_at source.now m o ≡ goes_on silent (waits_in source.now m rest.entry) (Runs (into (word_of m address) (number_of_term 0)) (tree_of source.now.bound.now init) ∷ WaitsIn of_block (at_word (word_of m address)) (all_kids source.now.bound.now destroys) ∷ left_in source.now m rest.entry)) }
    ensures grows { (types : ℕ → Typ) (m : Meaning) → Agrees types m words.new → Agrees types m words.old }
{
    let waiting = Waiting {
        address: Spot::Word(address),
        destroys,
    };
    let then = ObjectFrame::Waits(Owner::Block, waiting);
    let rest = with_frame(arena, source, rest, Frame::Object(then))?;
    let zero = number(words, 0)?;
    run_into(arena, source, rest, address, zero, init)
}

// The frame in which the address of a waiting object is found.
fn spot_frame<'a>(source: &Source<'a>, spot: Spot) -> Frame<'a>
    ensures { (m : Meaning) → frame_at source.now m result ≡ frame_of_spot (spot_of (types_at source.now) m (units_of source.now) spot) }
{
    let _shown = source;
    match spot {
        Spot::Word(word) => Frame::Address(word),
        Spot::Tree(tree) => Frame::Run(Way::Value, tree),
    }
}

// Destroys the newest of the objects that wait.
fn clean_next<'a>(
    arena: &'a Bump,
    source: &Source<'a>,
    answers: CaseAnswers<'_>,
    rest: Rest<'a>,
    waiting: Waitings<'a>,
    value: WordId,
) -> Going<'a>
    ensures { IfOk result (λ o. (m : Meaning) → next_of source.now m answers.entry rest.entry o ≡ given_to source.now m answers.entry rest.entry (word_of m value) (CleansAll (waiting_at source.now m waiting.entry))) }
{
    let _shown = answers;
    match waiting {
        Waitings::Empty => Ok(Next::Gives(value)),
        Waitings::More(newest, others) => {
            Ok(Next::Made(
                When::Always,
                clean_one(arena, source, rest, newest, *others)?,
            ))
        }
    }
}

// Destroys these objects, and then the others.
fn clean_one<'a>(
    arena: &'a Bump,
    source: &Source<'a>,
    rest: Rest<'a>,
    waiting: Waiting,
    others: Waitings<'a>,
) -> Made<'a>
    ensures { IfOk result (λ o. (m : Meaning) → outcome_at source.now m o ≡ goes_on silent (waits_in source.now m rest.entry) (frame_of_spot (spot_of (types_at source.now) m (units_of source.now) waiting.address) ∷ DueAt (all_kids source.now.bound.now waiting.destroys) ∷ CleansAll (waiting_at source.now m others.entry) ∷ left_in source.now m rest.entry)) }
{
    let behind = Frame::Object(ObjectFrame::Cleans(others));
    let rest = with_frame(arena, source, rest, behind)?;
    let due = Frame::Object(ObjectFrame::Due(waiting.destroys));
    let rest = with_frame(arena, source, rest, due)?;
    goes(arena, source, rest, spot_frame(source, waiting.address))
}

// The destructions at an address.
#[tactic(auto, using(crate::proofs::Looks::due_more, crate::proofs::Looks::due_none))]
fn destroy_due<'a>(
    arena: &'a Bump,
    words: &mut Words<'a>,
    source: &Source<'a>,
    answers: CaseAnswers<'_>,
    rest: Rest<'a>,
    address: WordId,
    kids: KidsAt,
) -> Going<'a>
    ensures is { IfOk result (λ o. (m : Meaning) → Agrees (types_at source.now) m words.new → next_of source.now m answers.entry rest.entry o ≡ given_to source.now m answers.entry rest.entry (word_of m address) (DueAt (all_kids source.now.bound.now kids))) }
    ensures grows { (types : ℕ → Typ) (m : Meaning) → Agrees types m words.new → Agrees types m words.old }
{
    match head(source.bound, kids) {
        Some(first) => {
            let kind = kind_of(source.bound, first);
            let others = rest_of(source.bound, kids);
            Ok(Next::Made(
                When::Always,
                destroy(arena, words, source, answers, rest, address, kind, others)?,
            ))
        }
        None => Ok(Next::Gives(address)),
    }
}

// The destructions at an address, of which this one is first.
#[tactic(auto, using(crate::proofs::Looks::destroy_some, crate::proofs::Looks::destroy_other))]
fn destroy<'a>(
    arena: &'a Bump,
    words: &mut Words<'a>,
    source: &Source<'a>,
    answers: CaseAnswers<'_>,
    rest: Rest<'a>,
    address: WordId,
    kind: TKind,
    others: KidsAt,
) -> Made<'a>
    ensures is { IfOk result (λ o. (m : Meaning) → Agrees (types_at source.now) m words.new → outcome_at source.now m o ≡ destroyed (linked_to source.now) (func_of source.now) (answers_at source.now answers.entry) (waits_in source.now m rest.entry) (word_of m address) kind (all_kids source.now.bound.now others) (left_in source.now m rest.entry)) }
    ensures grows { (types : ℕ → Typ) (m : Meaning) → Agrees types m words.new → Agrees types m words.old }
{
    let _shown = answers;
    match destruction_of(kind) {
        Some(found) => destroy_found(arena, words, source, rest, address, found, others),
        None => {
            let rest = with_frame(arena, source, rest, Frame::Object(ObjectFrame::Due(others)))?;
            gives(arena, source, rest, address)
        }
    }
}

// A destruction at an address, which is given then, for the others.
fn destroy_found<'a>(
    arena: &'a Bump,
    words: &mut Words<'a>,
    source: &Source<'a>,
    rest: Rest<'a>,
    address: WordId,
    found: Destruction,
    others: KidsAt,
) -> Made<'a>
    ensures is { IfOk result (λ o. (m : Meaning) → Agrees (types_at source.now) m words.new → outcome_at source.now m o ≡ if_word found.count (goes_on silent (waits_in source.now m rest.entry) (DestroysSome ((linked_to source.now).number (func_of source.now).unit found.func) (plus_number_of (word_of m address) found.offset) found.stride (number_of_term found.count) ∷ GivesWord (word_of m address) ∷ DueAt (all_kids source.now.bound.now others) ∷ left_in source.now m rest.entry))) }
    ensures grows { (types : ℕ → Typ) (m : Meaning) → Agrees types m words.new → Agrees types m words.old }
{
    let first = plus_number(arena, words, address, u64::from(found.offset))?;
    let rest = with_frame(arena, source, rest, Frame::Object(ObjectFrame::Due(others)))?;
    let rest = with_frame(arena, source, rest, Frame::Gives(address))?;
    let frame = ObjectFrame::Destroys {
        number: number_of(source, found.func),
        address: first,
        stride: found.stride,
        left: number(words, u64::from(found.count))?,
    };
    goes(arena, source, rest, Frame::Object(frame))
}

// Destroys the last of elements, of which so many are left.
#[tactic(auto, using(symbolic_leaving::proofs::Zeros::either_known, symbolic_leaving::proofs::Zeros::either_open))]
fn destroy_some<'a>(
    arena: &'a Bump,
    words: &mut Words<'a>,
    source: &Source<'a>,
    answers: CaseAnswers<'_>,
    rest: Rest<'a>,
    number: u32,
    address: WordId,
    stride: u32,
    left: WordId,
    value: WordId,
) -> Going<'a>
    ensures is { IfOk result (λ o. (m : Meaning) → Agrees (types_at source.now) m words.new → next_of source.now m answers.entry rest.entry o ≡ given_to source.now m answers.entry rest.entry (word_of m value) (DestroysSome number (word_of m address) stride (word_of m left))) }
    ensures grows { (types : ℕ → Typ) (m : Meaning) → Agrees types m words.new → Agrees types m words.old }
{
    let _shown = answers;
    match is_zero(words, left)? {
        Some(true) => Ok(Next::Gives(value)),
        Some(false) => {
            let fewer = one_less(arena, words, left)?;
            Ok(Next::Made(
                When::Always,
                destroy_next(arena, words, source, rest, number, address, stride, fewer)?,
            ))
        }
        None => {
            let fewer = one_less(arena, words, left)?;
            let other = destroy_next(arena, words, source, rest, number, address, stride, fewer)?;
            Ok(Next::Made(When::NotZero { word: left, value }, other))
        }
    }
}

// Destroys the element behind so many that are left.
fn destroy_next<'a>(
    arena: &'a Bump,
    words: &mut Words<'a>,
    source: &Source<'a>,
    rest: Rest<'a>,
    number: u32,
    address: WordId,
    stride: u32,
    left: WordId,
) -> Made<'a>
    ensures is { IfOk result (λ o. (m : Meaning) → Agrees (types_at source.now) m words.new → outcome_at source.now m o ≡ destroys (waits_in source.now m rest.entry) number (word_of m address) stride (word_of m left) (left_in source.now m rest.entry)) }
    ensures grows { (types : ℕ → Typ) (m : Meaning) → Agrees types m words.new → Agrees types m words.old }
{
    let element = element_at(arena, words, address, left, stride)?;
    let arguments = one_word(arena, element)?;
    let frame = ObjectFrame::Destroys {
        number,
        address,
        stride,
        left,
    };
    let rest = with_frame(arena, source, rest, Frame::Object(frame))?;
    Ok(calls(source, rest, Callee::Known(number), arguments))
}

// Builds the first of these parts, and then the others.
#[tactic(auto, using(crate::proofs::Looks::parts_more, crate::proofs::Looks::parts_none))]
fn build_part<'a>(
    arena: &'a Bump,
    source: &Source<'a>,
    answers: CaseAnswers<'_>,
    rest: Rest<'a>,
    kids: KidsAt,
    target: WordId,
    from: WordId,
    value: WordId,
) -> Going<'a>
    ensures { IfOk result (λ o. (m : Meaning) → next_of source.now m answers.entry rest.entry o ≡ given_to source.now m answers.entry rest.entry (word_of m value) (PartsOf (all_kids source.now.bound.now kids) (word_of m target) (word_of m from))) }
{
    let _shown = answers;
    let Some(part) = head(source.bound, kids) else {
        return Ok(Next::Gives(value));
    };
    let frame = ObjectFrame::Parts {
        kids: rest_of(source.bound, kids),
        target,
        source: from,
    };
    let rest = with_frame(arena, source, rest, Frame::Object(frame))?;
    Ok(Next::Made(
        When::Always,
        run_into(arena, source, rest, target, from, part)?,
    ))
}

// What an array of elements that are alike is built of, from an address on.
#[derive(Clone, Copy)]
struct Elements {
    init: TreeAt,
    destroys: KidsAt,
    stride: u32,
    target: WordId,
    from: WordId,
}

// Builds the next of elements, of which so many are left.
#[tactic(auto, using(symbolic_leaving::proofs::Zeros::either_known, symbolic_leaving::proofs::Zeros::either_open))]
fn build_some<'a>(
    arena: &'a Bump,
    words: &mut Words<'a>,
    source: &Source<'a>,
    answers: CaseAnswers<'_>,
    rest: Rest<'a>,
    elements: Elements,
    left: WordId,
    value: WordId,
) -> Going<'a>
    ensures is { IfOk result (λ o. (m : Meaning) → Agrees (types_at source.now) m words.new → next_of source.now m answers.entry rest.entry o ≡ given_to source.now m answers.entry rest.entry (word_of m value) (EachOf (tree_of source.now.bound.now elements.init) (all_kids source.now.bound.now elements.destroys) elements.stride (word_of m left) (word_of m elements.target) (word_of m elements.from))) }
    ensures grows { (types : ℕ → Typ) (m : Meaning) → Agrees types m words.new → Agrees types m words.old }
{
    let _shown = answers;
    match is_zero(words, left)? {
        Some(true) => Ok(Next::Gives(value)),
        Some(false) => {
            let fewer = one_less(arena, words, left)?;
            Ok(Next::Made(
                When::Always,
                build_next(arena, words, source, rest, elements, fewer)?,
            ))
        }
        None => {
            let fewer = one_less(arena, words, left)?;
            let other = build_next(arena, words, source, rest, elements, fewer)?;
            Ok(Next::Made(When::NotZero { word: left, value }, other))
        }
    }
}

// The elements behind the first.
fn behind_first<'a>(
    arena: &'a Bump,
    words: &mut Words<'a>,
    source: &Source<'a>,
    elements: Elements,
    left: WordId,
) -> Result<Frame<'a>, Refusal>
    ensures is { IfOk result (λ o. (m : Meaning) → Agrees (types_at source.now) m words.new → frame_at source.now m o ≡ EachOf (tree_of source.now.bound.now elements.init) (all_kids source.now.bound.now elements.destroys) elements.stride (word_of m left) (plus_number_of (word_of m elements.target) elements.stride) (plus_number_of (word_of m elements.from) elements.stride)) }
    ensures grows { (types : ℕ → Typ) (m : Meaning) → Agrees types m words.new → Agrees types m words.old }
{
    let _shown = source;
    let stride = u64::from(elements.stride);
    let target = plus_number(arena, words, elements.target, stride)?;
    let from = plus_number(arena, words, elements.from, stride)?;
    Ok(Frame::Object(ObjectFrame::Each {
        init: elements.init,
        destroys: elements.destroys,
        stride: elements.stride,
        left,
        target,
        source: from,
    }))
}

// Builds the next element, behind which so many are left.
fn build_next<'a>(
    arena: &'a Bump,
    words: &mut Words<'a>,
    source: &Source<'a>,
    rest: Rest<'a>,
    elements: Elements,
    left: WordId,
) -> Made<'a>
    ensures is { IfOk result (λ o. (m : Meaning) → Agrees (types_at source.now) m words.new → outcome_at source.now m o ≡ builds (waits_in source.now m rest.entry) (tree_of source.now.bound.now elements.init) (all_kids source.now.bound.now elements.destroys) elements.stride (word_of m left) (word_of m elements.target) (word_of m elements.from) (left_in source.now m rest.entry)) }
    ensures grows { (types : ℕ → Typ) (m : Meaning) → Agrees types m words.new → Agrees types m words.old }
{
    let others = behind_first(arena, words, source, elements, left)?;
    let waiting = Waiting {
        address: Spot::Word(elements.target),
        destroys: elements.destroys,
    };
    let rest = with_frame(arena, source, rest, others)?;
    let then = Frame::Object(ObjectFrame::Waits(Owner::Pieces, waiting));
    let rest = with_frame(arena, source, rest, then)?;
    run_into(
        arena,
        source,
        rest,
        elements.target,
        elements.from,
        elements.init,
    )
}
