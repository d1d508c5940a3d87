//! States that come of a step, and words.

ghost use Rattle.std.specs.Prelude.{ℕ, ◌≡◌, ◌∷◌, [], ◌^◌, true, nat_lt, IfOk, slice_get, unwrap_or};
ghost use Rattle.cpp_tree.specs.cpp_types.Typ.{Typ};
ghost use Rattle.cpp_tree.specs.cpp_layout.Layout.{kind_size};
ghost use Rattle.src_frames.specs.Bounds.{tree_of};
ghost use Rattle.src_frames.specs.Shown.{owner_shown};
ghost use Rattle.symbolic_source.specs.Terms.{number as number_of_term, local as local_of};
ghost use Rattle.symbolic_source.specs.Frames.{value as for_value, into, Run as Runs, Gives as GivesWord, Loaded as LoadsSo, Scope as ScopeOf, Test as Tests, Body as Bodies, Step as Steps};
ghost use Rattle.symbolic_source.specs.Outcomes.{silent, reads as reads_word, writes as writes_word, goes as goes_on, chooses as chooses_of, calls as calls_of, spawns as spawns_of, rethrows as rethrows_of, either as either_of};
ghost use Rattle.symbolic_terms.specs.Meanings.{Meaning, word_of, words_of, Agrees};
ghost use Rattle.symbolic_terms.specs.Shown.{way_of, doing_of, callee_of};
ghost use Rattle.symbolic_leaving.specs.Source.{types_at, units_of, func_of};
ghost use Rattle.symbolic_leaving.specs.Shown.{frame_at, left_in, waits_in, outcome_at};
ghost use Rattle.symbolic_leaving.specs.Left.{known_zero};

use crate::source::{Source, offset_of};
use bumpalo::Bump;
use cpp_tree::below::IntKind;
use src_frames::frames::{LoopParts, Owner};
use src_frames::trees::TreeAt;
use src_frames::words::size_of_kind;
use symbolic_terms::arena::keep;
use symbolic_terms::frames::{
    Callee, Frame, Frames, ObjectFrame, StatementFrame, ValueFrame, Waitings, Way,
};
use symbolic_terms::ids::{Terms, WordId};
use symbolic_terms::made;
use symbolic_terms::outcomes::{Doing, Leading, Outcome, Rest};
use symbolic_terms::refusal::Refusal;
use symbolic_terms::terms::Term;
use symbolic_terms::words::{Words, term};

/// What comes of a step.
pub type Made<'a> = Result<Outcome<'a>, Refusal>;

/// A frame on what is left.
pub fn with_frame<'a>(
    arena: &'a Bump,
    source: &Source<'a>,
    rest: Rest<'a>,
    frame: Frame<'a>,
) -> Result<Rest<'a>, Refusal>
    ensures frames { IfOk result (λ r. (m : Meaning) → left_in source.now m r ≡ frame_at source.now m frame.entry ∷ left_in source.now m rest.entry) }
    ensures temporaries { IfOk result (λ r. (m : Meaning) → waits_in source.now m r ≡ waits_in source.now m rest.entry) }
{
    let _shown = source;
    Ok(Rest {
        temporaries: rest.temporaries,
        frames: Frames::More(frame, keep(arena, rest.frames)?),
    })
}

/// A frame goes on after an event.
pub fn comes<'a>(
    arena: &'a Bump,
    source: &Source<'a>,
    rest: Rest<'a>,
    doing: Doing,
    frame: Frame<'a>,
) -> Made<'a>
    ensures { IfOk result (λ o. (m : Meaning) → outcome_at source.now m o ≡ goes_on (doing_of (types_at source.now) m (units_of source.now) (func_of source.now) doing) (waits_in source.now m rest.entry) (frame_at source.now m frame.entry ∷ left_in source.now m rest.entry)) }
{
    let rest = with_frame(arena, source, rest, frame)?;
    Ok(Outcome::Goes(Leading::Does(doing), rest))
}

/// A frame goes on after a silent step.
pub fn goes<'a>(arena: &'a Bump, source: &Source<'a>, rest: Rest<'a>, frame: Frame<'a>) -> Made<'a>
    ensures { IfOk result (λ o. (m : Meaning) → outcome_at source.now m o ≡ goes_on silent (waits_in source.now m rest.entry) (frame_at source.now m frame.entry ∷ left_in source.now m rest.entry)) }
{
    comes(arena, source, rest, Doing::Silent, frame)
}

/// A value goes on after a silent step.
pub fn gives<'a>(arena: &'a Bump, source: &Source<'a>, rest: Rest<'a>, word: WordId) -> Made<'a>
    ensures { IfOk result (λ o. (m : Meaning) → outcome_at source.now m o ≡ goes_on silent (waits_in source.now m rest.entry) (GivesWord (word_of m word) ∷ left_in source.now m rest.entry)) }
{
    goes(arena, source, rest, Frame::Gives(word))
}

/// A tree is run next.
pub fn run_next<'a>(
    arena: &'a Bump,
    source: &Source<'a>,
    rest: Rest<'a>,
    way: Way,
    tree: TreeAt,
) -> Made<'a>
    ensures { IfOk result (λ o. (m : Meaning) → outcome_at source.now m o ≡ goes_on silent (waits_in source.now m rest.entry) (Runs (way_of (types_at source.now) m way) (tree_of source.now.bound.now tree) ∷ left_in source.now m rest.entry)) }
{
    goes(arena, source, rest, Frame::Run(way, tree))
}

/// A tree is run for its value, and then this frame goes on.
pub fn run_before<'a>(
    arena: &'a Bump,
    source: &Source<'a>,
    rest: Rest<'a>,
    tree: TreeAt,
    then: Frame<'a>,
) -> Made<'a>
    ensures { IfOk result (λ o. (m : Meaning) → outcome_at source.now m o ≡ goes_on silent (waits_in source.now m rest.entry) (Runs for_value (tree_of source.now.bound.now tree) ∷ frame_at source.now m then.entry ∷ left_in source.now m rest.entry)) }
{
    let rest = with_frame(arena, source, rest, then)?;
    run_next(arena, source, rest, Way::Value, tree)
}

/// A tree is run into an object.
pub fn run_into<'a>(
    arena: &'a Bump,
    source: &Source<'a>,
    rest: Rest<'a>,
    target: WordId,
    from: WordId,
    tree: TreeAt,
) -> Made<'a>
    ensures { IfOk result (λ o. (m : Meaning) → outcome_at source.now m o ≡ goes_on silent (waits_in source.now m rest.entry) (Runs (into (word_of m target) (word_of m from)) (tree_of source.now.bound.now tree) ∷ left_in source.now m rest.entry)) }
{
    let way = Way::Into {
        target,
        source: from,
    };
    run_next(arena, source, rest, way, tree)
}

/// A scalar is read.
pub fn reads<'a>(
    arena: &'a Bump,
    source: &Source<'a>,
    rest: Rest<'a>,
    address: WordId,
    kind: IntKind,
    volatile: bool,
) -> Made<'a>
    ensures { IfOk result (λ o. (m : Meaning) → outcome_at source.now m o ≡ goes_on (reads_word (word_of m address) (kind_size kind) volatile) (waits_in source.now m rest.entry) (LoadsSo kind ∷ left_in source.now m rest.entry)) }
{
    let doing = Doing::Reads {
        address,
        size: u32::from(size_of_kind(kind)),
        volatile,
    };
    comes(
        arena,
        source,
        rest,
        doing,
        Frame::Value(ValueFrame::Loaded(kind)),
    )
}

/// A scalar is written, and then this frame goes on.
pub fn writes<'a>(
    arena: &'a Bump,
    source: &Source<'a>,
    rest: Rest<'a>,
    address: WordId,
    kind: IntKind,
    word: WordId,
    volatile: bool,
    then: Frame<'a>,
) -> Made<'a>
    ensures { IfOk result (λ o. (m : Meaning) → outcome_at source.now m o ≡ goes_on (writes_word (word_of m address) kind (word_of m word) volatile) (waits_in source.now m rest.entry) (frame_at source.now m then.entry ∷ left_in source.now m rest.entry)) }
{
    let doing = Doing::Writes {
        address,
        kind,
        word,
        volatile,
    };
    comes(arena, source, rest, doing, then)
}

/// A function is called with these words.
pub fn calls<'a>(
    source: &Source<'a>,
    rest: Rest<'a>,
    callee: Callee,
    words: Terms<'a>,
) -> Outcome<'a>
    ensures { (m : Meaning) → outcome_at source.now m result ≡ calls_of (callee_of (types_at source.now) m (units_of source.now) callee) (words_of m words.entry) (waits_in source.now m rest.entry) (left_in source.now m rest.entry) }
{
    let _shown = source;
    Outcome::Goes(Leading::Calls { callee, words }, rest)
}

/// A thread is to start.
pub fn spawns<'a>(
    source: &Source<'a>,
    rest: Rest<'a>,
    address: WordId,
    argument: WordId,
) -> Outcome<'a>
    ensures { (m : Meaning) → outcome_at source.now m result ≡ spawns_of (word_of m address) (word_of m argument) (waits_in source.now m rest.entry) (left_in source.now m rest.entry) }
{
    let _shown = source;
    Outcome::Goes(Leading::Spawns { address, argument }, rest)
}

/// What a caller's handler has is thrown once more.
pub fn rethrows<'a>(source: &Source<'a>, rest: Rest<'a>) -> Outcome<'a>
    ensures { (m : Meaning) → outcome_at source.now m result ≡ rethrows_of (waits_in source.now m rest.entry) (left_in source.now m rest.entry) }
{
    let _shown = source;
    Outcome::Goes(Leading::Rethrows, rest)
}

/// A scope in which no object waits.
pub fn scoped<'a>(
    arena: &'a Bump,
    source: &Source<'a>,
    rest: Rest<'a>,
    owner: Owner,
    always: bool,
) -> Result<Rest<'a>, Refusal>
    ensures frames { IfOk result (λ r. (m : Meaning) → left_in source.now m r ≡ ScopeOf (owner_shown owner) always [] ∷ left_in source.now m rest.entry) }
    ensures temporaries { IfOk result (λ r. (m : Meaning) → waits_in source.now m r ≡ waits_in source.now m rest.entry) }
{
    let frame = ObjectFrame::Scope {
        owner,
        always,
        waiting: Waitings::Empty,
    };
    with_frame(arena, source, rest, Frame::Object(frame))
}

/// One or the other, whether a word is 0.
pub fn chooses<'a>(
    arena: &'a Bump,
    source: &Source<'a>,
    word: WordId,
    zero: Outcome<'a>,
    other: Outcome<'a>,
) -> Made<'a>
    ensures { IfOk result (λ o. (m : Meaning) → outcome_at source.now m o ≡ chooses_of (word_of m word) (outcome_at source.now m zero.entry) (outcome_at source.now m other.entry)) }
{
    let _shown = source;
    Ok(Outcome::Chooses {
        word,
        zero: keep(arena, zero)?,
        other: keep(arena, other)?,
    })
}

/// One or the other, whether a word is 0: at once where that is known.
#[tactic(auto, using(crate::proofs::Zeros::either_known, crate::proofs::Zeros::either_open))]
pub fn either<'a>(
    arena: &'a Bump,
    words: &Words<'_>,
    source: &Source<'a>,
    word: WordId,
    zero: Outcome<'a>,
    other: Outcome<'a>,
) -> Made<'a>
    ensures { IfOk result (λ o. (m : Meaning) → Agrees (types_at source.now) m words.now → outcome_at source.now m o ≡ either_of (word_of m word) (outcome_at source.now m zero.entry) (outcome_at source.now m other.entry)) }
{
    match is_zero(words, word)? {
        Some(true) => Ok(zero),
        Some(false) => Ok(other),
        None => chooses(arena, source, word, zero, other),
    }
}

// Loops

/// Runs the test of a loop.
pub fn run_test<'a>(
    arena: &'a Bump,
    source: &Source<'a>,
    rest: Rest<'a>,
    parts: LoopParts,
) -> Made<'a>
    ensures { IfOk result (λ o. (m : Meaning) → outcome_at source.now m o ≡ goes_on silent (waits_in source.now m rest.entry) (Runs for_value (tree_of source.now.bound.now parts.test) ∷ Tests (tree_of source.now.bound.now parts.test) (tree_of source.now.bound.now parts.body) (tree_of source.now.bound.now parts.step) ∷ left_in source.now m rest.entry)) }
{
    let then = Frame::Statement(StatementFrame::Test(parts));
    run_before(arena, source, rest, parts.test, then)
}

/// Runs the body of a loop.
pub fn run_body<'a>(
    arena: &'a Bump,
    source: &Source<'a>,
    rest: Rest<'a>,
    parts: LoopParts,
) -> Made<'a>
    ensures { IfOk result (λ o. (m : Meaning) → outcome_at source.now m o ≡ goes_on silent (waits_in source.now m rest.entry) (Runs for_value (tree_of source.now.bound.now parts.body) ∷ Bodies (tree_of source.now.bound.now parts.test) (tree_of source.now.bound.now parts.body) (tree_of source.now.bound.now parts.step) ∷ left_in source.now m rest.entry)) }
{
    let then = Frame::Statement(StatementFrame::Body(parts));
    run_before(arena, source, rest, parts.body, then)
}

/// Runs the step of a loop.
pub fn run_step<'a>(
    arena: &'a Bump,
    source: &Source<'a>,
    rest: Rest<'a>,
    parts: LoopParts,
) -> Made<'a>
    ensures { IfOk result (λ o. (m : Meaning) → outcome_at source.now m o ≡ goes_on silent (waits_in source.now m rest.entry) (Runs for_value (tree_of source.now.bound.now parts.step) ∷ Steps (tree_of source.now.bound.now parts.test) (tree_of source.now.bound.now parts.body) (tree_of source.now.bound.now parts.step) ∷ left_in source.now m rest.entry)) }
{
    let then = Frame::Statement(StatementFrame::Step(parts));
    run_before(arena, source, rest, parts.step, then)
}

// Words

/// Whether a word is 0, where that is known.
pub fn is_zero(words: &Words<'_>, word: WordId) -> Result<Option<bool>, Refusal>
    ensures { IfOk result (λ o. (types : ℕ → Typ) (m : Meaning) → Agrees types m words.now → o ≡ known_zero (word_of m word)) }
{
    match term(words, word)? {
        Term::Number(number) => Ok(Some(number == 0)),
        _ => Ok(None),
    }
}

/// A number, which is a word.
pub fn number<'a>(words: &mut Words<'a>, word: u64) -> Result<WordId, Refusal>
    ensures is { IfOk result (λ w. (types : ℕ → Typ) (m : Meaning) → Agrees types m words.new → word_of m w ≡ number_of_term word) }
    ensures few { nat_lt word (2 ^ 64) ≡ true }
    ensures grows { (types : ℕ → Typ) (m : Meaning) → Agrees types m words.new → Agrees types m words.old }
{
    made::number(words, word)
}

/// The address of a place of the frame.
pub fn local<'a>(words: &mut Words<'a>, source: &Source<'a>, place: u32) -> Result<WordId, Refusal>
    ensures is { IfOk result (λ w. (m : Meaning) → Agrees (types_at source.now) m words.new → word_of m w ≡ local_of (unwrap_or (slice_get (func_of source.now).places place) 0)) }
    ensures grows { (types : ℕ → Typ) (m : Meaning) → Agrees types m words.new → Agrees types m words.old }
{
    made::local(words, u64::from(offset_of(source, place)))
}
