//! What a frame does with a value.

ghost use Rattle.std.specs.Prelude.{ℕ, ◌≡◌, ◌∷◌, IfOk};
ghost use Rattle.cpp_tree.specs.cpp_layout.Layout.{kind_size};
ghost use Rattle.src_frames.specs.Bounds.{tree_of};
ghost use Rattle.symbolic_source.specs.Terms.{converted_to};
ghost use Rattle.symbolic_source.specs.Frames.{value as for_value, into, Run as Runs, Gives as GivesWord, Loaded as LoadedSo};
ghost use Rattle.symbolic_source.specs.Outcomes.{silent, reads as reads_word, writes as writes_word, goes as goes_on};
ghost use Rattle.symbolic_source.specs.Steps.{left as leaves};
ghost use Rattle.cpp_tree.specs.cpp_types.Typ.{Typ};
ghost use Rattle.symbolic_terms.specs.Meanings.{Meaning, word_of, Agrees};
ghost use Rattle.symbolic_terms.specs.Shown.{way_of, doing_of, exit_of};
ghost use Rattle.symbolic_leaving.specs.Source.{types_at, units_of, func_of};
ghost use Rattle.symbolic_leaving.specs.Shown.{frame_at, left_in, waits_in};
ghost use Rattle.symbolic_running.specs.Next.{next_of, given_at};

use bumpalo::Bump;
use cpp_tree::below::{BinOp, IntKind};
use src_frames::trees::TreeAt;
use symbolic_leaving::answers::CaseAnswers;
use symbolic_leaving::leaving::leave;
use symbolic_leaving::source::Source;
use symbolic_leaving::states::{comes, gives, goes, reads, run_before, run_into, run_next, writes};
use symbolic_terms::frames::{Exit, Frame, Way};
use symbolic_terms::ids::WordId;
use symbolic_terms::made::converted;
use symbolic_terms::outcomes::{Doing, Outcome, Rest};
use symbolic_terms::refusal::Refusal;
use symbolic_terms::words::Words;

/// What comes of a frame.
pub type Going<'a> = Result<Next<'a>, Refusal>;

/// Where an outcome comes: always, or where a word is not 0, and else this value goes on to the frames behind.
#[derive(Clone, Copy)]
pub enum When {
    Always,
    NotZero { word: WordId, value: WordId },
}

/// What a frame does.
#[derive(Clone, Copy)]
pub enum Next<'a> {
    /// This comes of it.
    Made(When, Outcome<'a>),
    /// A value goes on to the frames behind it.
    Gives(WordId),
    /// Likewise the value of an operator, which can trap.
    Applied {
        op: BinOp,
        kind: IntKind,
        left: WordId,
        right: WordId,
    },
}

/// A frame goes on after an event.
pub fn coming<'a>(
    arena: &'a Bump,
    source: &Source<'a>,
    answers: CaseAnswers<'_>,
    rest: Rest<'a>,
    doing: Doing,
    frame: Frame<'a>,
) -> Going<'a>
    ensures { IfOk result (λ o. (m : Meaning) → next_of source.now m answers.entry rest.entry o ≡ goes_on (doing_of (types_at source.now) m (units_of source.now) (func_of source.now) doing) (waits_in source.now m rest.entry) (frame_at source.now m frame.entry ∷ left_in source.now m rest.entry)) }
{
    let _shown = answers;
    Ok(Next::Made(When::Always, comes(arena, source, rest, doing, frame)?))
}

/// A frame goes on after a silent step.
pub fn going<'a>(
    arena: &'a Bump,
    source: &Source<'a>,
    answers: CaseAnswers<'_>,
    rest: Rest<'a>,
    frame: Frame<'a>,
) -> Going<'a>
    ensures { IfOk result (λ o. (m : Meaning) → next_of source.now m answers.entry rest.entry o ≡ goes_on silent (waits_in source.now m rest.entry) (frame_at source.now m frame.entry ∷ left_in source.now m rest.entry)) }
{
    let _shown = answers;
    Ok(Next::Made(When::Always, goes(arena, source, rest, frame)?))
}

/// A tree is run next.
pub fn running<'a>(
    arena: &'a Bump,
    source: &Source<'a>,
    answers: CaseAnswers<'_>,
    rest: Rest<'a>,
    way: Way,
    tree: TreeAt,
) -> Going<'a>
    ensures { IfOk result (λ o. (m : Meaning) → next_of source.now m answers.entry rest.entry o ≡ goes_on silent (waits_in source.now m rest.entry) (Runs (way_of (types_at source.now) m way) (tree_of source.now.bound.now tree) ∷ left_in source.now m rest.entry)) }
{
    let _shown = answers;
    Ok(Next::Made(When::Always, run_next(arena, source, rest, way, tree)?))
}

/// A tree is run for its value, and then this frame goes on.
pub fn running_before<'a>(
    arena: &'a Bump,
    source: &Source<'a>,
    answers: CaseAnswers<'_>,
    rest: Rest<'a>,
    tree: TreeAt,
    then: Frame<'a>,
) -> Going<'a>
    ensures { IfOk result (λ o. (m : Meaning) → next_of source.now m answers.entry rest.entry o ≡ goes_on silent (waits_in source.now m rest.entry) (Runs for_value (tree_of source.now.bound.now tree) ∷ frame_at source.now m then.entry ∷ left_in source.now m rest.entry)) }
{
    let _shown = answers;
    Ok(Next::Made(When::Always, run_before(arena, source, rest, tree, then)?))
}

/// A tree is run into an object.
pub fn running_into<'a>(
    arena: &'a Bump,
    source: &Source<'a>,
    answers: CaseAnswers<'_>,
    rest: Rest<'a>,
    target: WordId,
    from: WordId,
    tree: TreeAt,
) -> Going<'a>
    ensures { IfOk result (λ o. (m : Meaning) → next_of source.now m answers.entry rest.entry o ≡ goes_on silent (waits_in source.now m rest.entry) (Runs (into (word_of m target) (word_of m from)) (tree_of source.now.bound.now tree) ∷ left_in source.now m rest.entry)) }
{
    let _shown = answers;
    Ok(Next::Made(
        When::Always,
        run_into(arena, source, rest, target, from, tree)?,
    ))
}

/// A scalar is read.
pub fn reading<'a>(
    arena: &'a Bump,
    source: &Source<'a>,
    answers: CaseAnswers<'_>,
    rest: Rest<'a>,
    address: WordId,
    kind: IntKind,
    volatile: bool,
) -> Going<'a>
    ensures { IfOk result (λ o. (m : Meaning) → next_of source.now m answers.entry rest.entry o ≡ goes_on (reads_word (word_of m address) (kind_size kind) volatile) (waits_in source.now m rest.entry) (LoadedSo kind ∷ left_in source.now m rest.entry)) }
{
    let _shown = answers;
    Ok(Next::Made(
        When::Always,
        reads(arena, source, rest, address, kind, volatile)?,
    ))
}

/// A scalar is written, and this value goes on then.
pub fn writing<'a>(
    arena: &'a Bump,
    source: &Source<'a>,
    answers: CaseAnswers<'_>,
    rest: Rest<'a>,
    address: WordId,
    kind: IntKind,
    word: WordId,
    volatile: bool,
    answer: WordId,
) -> Going<'a>
    ensures { IfOk result (λ o. (m : Meaning) → next_of source.now m answers.entry rest.entry o ≡ goes_on (writes_word (word_of m address) kind (word_of m word) volatile) (waits_in source.now m rest.entry) (GivesWord (word_of m answer) ∷ left_in source.now m rest.entry)) }
{
    let _shown = answers;
    let then = Frame::Gives(answer);
    Ok(Next::Made(
        When::Always,
        writes(arena, source, rest, address, kind, word, volatile, then)?,
    ))
}

/// A value goes on after a silent step.
pub fn giving<'a>(
    arena: &'a Bump,
    source: &Source<'a>,
    answers: CaseAnswers<'_>,
    rest: Rest<'a>,
    word: WordId,
) -> Going<'a>
    ensures { IfOk result (λ o. (m : Meaning) → next_of source.now m answers.entry rest.entry o ≡ goes_on silent (waits_in source.now m rest.entry) (GivesWord (word_of m word) ∷ left_in source.now m rest.entry)) }
{
    let _shown = answers;
    Ok(Next::Made(When::Always, gives(arena, source, rest, word)?))
}

/// The number of a word in a kind goes on.
pub fn converting<'a>(
    arena: &'a Bump,
    words: &mut Words<'a>,
    source: &Source<'a>,
    answers: CaseAnswers<'_>,
    rest: Rest<'a>,
    kind: IntKind,
    word: WordId,
) -> Going<'a>
    ensures is { IfOk result (λ o. (m : Meaning) → Agrees (types_at source.now) m words.new → next_of source.now m answers.entry rest.entry o ≡ given_at source.now m answers.entry rest.entry (converted_to kind (word_of m word))) }
    ensures grows { (types : ℕ → Typ) (m : Meaning) → Agrees types m words.new → Agrees types m words.old }
{
    let _shown = source;
    let _asked = answers;
    let _left = rest;
    Ok(Next::Gives(converted(arena, words, kind, word)?))
}

/// This goes outward.
pub fn leaving<'a>(
    arena: &'a Bump,
    words: &mut Words<'a>,
    source: &Source<'a>,
    answers: CaseAnswers<'_>,
    rest: Rest<'a>,
    exit: Exit,
) -> Going<'a>
    ensures is { IfOk result (λ o. (m : Meaning) → Agrees (types_at source.now) m words.new → next_of source.now m answers.entry rest.entry o ≡ leaves (waits_in source.now m rest.entry) (exit_of (types_at source.now) m exit) (left_in source.now m rest.entry)) }
    ensures grows { (types : ℕ → Typ) (m : Meaning) → Agrees types m words.new → Agrees types m words.old }
{
    let _shown = answers;
    Ok(Next::Made(
        When::Always,
        leave(arena, words, source, rest.temporaries, exit, rest.frames)?,
    ))
}
