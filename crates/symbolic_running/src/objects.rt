//! What nodes do first that make objects, copy them, or give them a place.

ghost use Rattle.std.specs.Prelude.{ℕ, ◌≡◌, ◌∷◌, [], false, IfOk, slice_get, unwrap_or};
ghost use Rattle.cpp_tree.specs.cpp_types.Typ.{Typ};
ghost use Rattle.cpp_tree.specs.cpp_layout.Layout.{kind_size};
ghost use Rattle.cpp_tree.specs.Trees.{first as first_kid, rest as kids_after};
ghost use Rattle.src_mean.specs.Frames.{of_call, of_pieces};
ghost use Rattle.src_frames.specs.Bounds.{tree_of, all_kids};
ghost use Rattle.symbolic_source.specs.Terms.{number as number_of_term, local as local_of, plus_number as plus_number_of};
ghost use Rattle.symbolic_source.specs.Frames.{into, known, at_word, Run as Runs, Gives as GivesWord, StoreTo as StoresTo, Loaded as LoadedSo, Waits as WaitsIn, Keeps as KeepsSome, Full as FullOf, Scope as ScopeOf, Parts as PartsOf, Each as EachOf};
ghost use Rattle.symbolic_source.specs.Outcomes.{silent, reads as reads_word, goes as goes_on, calls as calls_on};
ghost use Rattle.symbolic_source.specs.Steps.{target_of, source_of, called as calls_so, if_word};
ghost use Rattle.symbolic_terms.specs.Meanings.{Meaning, word_of, Agrees};
ghost use Rattle.symbolic_terms.specs.Shown.{way_of, spot_of, object_of};
ghost use Rattle.symbolic_leaving.specs.Source.{types_at, linked_to, units_of, func_of};
ghost use Rattle.symbolic_leaving.specs.Shown.{left_in, waits_in};
ghost use Rattle.symbolic_running.specs.Next.{next_of};

use crate::next::{Going, Next, When};
use crate::operations::stores;
use crate::words::{called, one_word, source_of_way, target_of_way, two_words};
use bumpalo::Bump;
use cpp_tree::below::IntKind;
use src_frames::frames::Owner;
use src_frames::trees::{KidsAt, TreeAt, first, rest as rest_of};
use symbolic_leaving::answers::CaseAnswers;
use symbolic_leaving::source::{Source, number_of};
use symbolic_leaving::states::{
    calls, goes, local, number, reads, run_into, run_next, scoped, with_frame,
};
use symbolic_terms::frames::{Callee, Frame, ObjectFrame, Spot, Waiting, Waitings, Way};
use symbolic_terms::ids::WordId;
use symbolic_terms::made::plus_number;
use symbolic_terms::outcomes::Rest;
use symbolic_terms::refusal::Refusal;
use symbolic_terms::words::Words;

// An object of the frame, with what is done before it is given.
fn run_local<'a>(
    arena: &'a Bump,
    words: &mut Words<'a>,
    source: &Source<'a>,
    answers: CaseAnswers<'_>,
    rest: Rest<'a>,
    place: u32,
    then: ObjectFrame<'a>,
    tree: TreeAt,
) -> Going<'a>
    ensures is { IfOk result (λ o. (m : Meaning) → Agrees (types_at source.now) m words.new → next_of source.now m answers.entry rest.entry o ≡ goes_on silent (waits_in source.now m rest.entry) (Runs (into (local_of (unwrap_or (slice_get (func_of source.now).places place) 0)) (number_of_term 0)) (tree_of source.now.bound.now tree) ∷ object_of (types_at source.now) m (units_of source.now) then.entry ∷ GivesWord (local_of (unwrap_or (slice_get (func_of source.now).places place) 0)) ∷ left_in source.now m rest.entry)) }
    ensures grows { (types : ℕ → Typ) (m : Meaning) → Agrees types m words.new → Agrees types m words.old }
{
    let _shown = answers;
    let address = local(words, source, place)?;
    let zero = number(words, 0)?;
    let with = with_given(arena, source, rest, address, then)?;
    Ok(Next::Made(
        When::Always,
        run_into(arena, source, with, address, zero, tree)?,
    ))
}

// What is left with this frame on it, behind which a word is given.
fn with_given<'a>(
    arena: &'a Bump,
    source: &Source<'a>,
    rest: Rest<'a>,
    word: WordId,
    then: ObjectFrame<'a>,
) -> Result<Rest<'a>, Refusal>
    ensures frames { IfOk result (λ r. (m : Meaning) → left_in source.now m r ≡ object_of (types_at source.now) m (units_of source.now) then.entry ∷ GivesWord (word_of m word) ∷ left_in source.now m rest.entry) }
    ensures temporaries { IfOk result (λ r. (m : Meaning) → waits_in source.now m r ≡ waits_in source.now m rest.entry) }
{
    let given = with_frame(arena, source, rest, Frame::Gives(word))?;
    with_frame(arena, source, given, Frame::Object(then))
}

// What waits for the destruction of an object of the frame.
fn local_waits<'a>(
    words: &mut Words<'a>,
    source: &Source<'a>,
    place: u32,
    kids: KidsAt,
) -> Result<Waiting, Refusal>
    ensures address { IfOk result (λ w. (m : Meaning) → Agrees (types_at source.now) m words.new → spot_of (types_at source.now) m (units_of source.now) w.address ≡ at_word (local_of (unwrap_or (slice_get (func_of source.now).places place) 0))) }
    ensures destroys { IfOk result (λ w. all_kids source.now.bound.now w.destroys ≡ kids_after (all_kids source.now.bound.now kids)) }
    ensures grows { (types : ℕ → Typ) (m : Meaning) → Agrees types m words.new → Agrees types m words.old }
{
    let address = local(words, source, place)?;
    Ok(Waiting {
        address: Spot::Word(address),
        destroys: rest_of(source.bound, kids),
    })
}

/// An argument of a call that is an object of the frame.
pub(crate) fn run_argument<'a>(
    arena: &'a Bump,
    words: &mut Words<'a>,
    source: &Source<'a>,
    answers: CaseAnswers<'_>,
    rest: Rest<'a>,
    place: u32,
    kids: KidsAt,
) -> Going<'a>
    ensures is { IfOk result (λ o. (m : Meaning) → Agrees (types_at source.now) m words.new → next_of source.now m answers.entry rest.entry o ≡ goes_on silent (waits_in source.now m rest.entry) (Runs (into (local_of (unwrap_or (slice_get (func_of source.now).places place) 0)) (number_of_term 0)) (first_kid (all_kids source.now.bound.now kids)) ∷ WaitsIn of_call (at_word (local_of (unwrap_or (slice_get (func_of source.now).places place) 0))) (kids_after (all_kids source.now.bound.now kids)) ∷ GivesWord (local_of (unwrap_or (slice_get (func_of source.now).places place) 0)) ∷ left_in source.now m rest.entry)) }
    ensures grows { (types : ℕ → Typ) (m : Meaning) → Agrees types m words.new → Agrees types m words.old }
{
    let then = ObjectFrame::Waits(Owner::Call, local_waits(words, source, place, kids)?);
    run_local(
        arena,
        words,
        source,
        answers,
        rest,
        place,
        then,
        first(source.bound, kids),
    )
}

/// Another temporary.
pub(crate) fn run_temporary<'a>(
    arena: &'a Bump,
    words: &mut Words<'a>,
    source: &Source<'a>,
    answers: CaseAnswers<'_>,
    rest: Rest<'a>,
    place: u32,
    kids: KidsAt,
) -> Going<'a>
    ensures is { IfOk result (λ o. (m : Meaning) → Agrees (types_at source.now) m words.new → next_of source.now m answers.entry rest.entry o ≡ goes_on silent (waits_in source.now m rest.entry) (Runs (into (local_of (unwrap_or (slice_get (func_of source.now).places place) 0)) (number_of_term 0)) (first_kid (all_kids source.now.bound.now kids)) ∷ KeepsSome (at_word (local_of (unwrap_or (slice_get (func_of source.now).places place) 0))) (kids_after (all_kids source.now.bound.now kids)) ∷ GivesWord (local_of (unwrap_or (slice_get (func_of source.now).places place) 0)) ∷ left_in source.now m rest.entry)) }
    ensures grows { (types : ℕ → Typ) (m : Meaning) → Agrees types m words.new → Agrees types m words.old }
{
    let then = ObjectFrame::Keeps(local_waits(words, source, place, kids)?);
    run_local(
        arena,
        words,
        source,
        answers,
        rest,
        place,
        then,
        first(source.bound, kids),
    )
}

/// An expression at whose end its temporaries are destroyed.
pub(crate) fn run_full<'a>(
    arena: &'a Bump,
    source: &Source<'a>,
    answers: CaseAnswers<'_>,
    rest: Rest<'a>,
    way: Way,
    kids: KidsAt,
) -> Going<'a>
    ensures { IfOk result (λ o. (m : Meaning) → next_of source.now m answers.entry rest.entry o ≡ goes_on silent [] (Runs (way_of (types_at source.now) m way) (first_kid (all_kids source.now.bound.now kids)) ∷ FullOf (waits_in source.now m rest.entry) ∷ left_in source.now m rest.entry)) }
{
    let _shown = answers;
    let full = ObjectFrame::Full {
        outer: rest.temporaries,
    };
    let inside = Rest {
        temporaries: Waitings::Empty,
        frames: rest.frames,
    };
    let inside = with_frame(arena, source, inside, Frame::Object(full))?;
    Ok(Next::Made(
        When::Always,
        run_next(arena, source, inside, way, first(source.bound, kids))?,
    ))
}

/// A class is built by a constructor.
pub(crate) fn construct<'a>(
    arena: &'a Bump,
    words: &mut Words<'a>,
    source: &Source<'a>,
    answers: CaseAnswers<'_>,
    rest: Rest<'a>,
    way: Way,
    func: u32,
    kids: KidsAt,
) -> Going<'a>
    ensures is { IfOk result (λ o. (m : Meaning) → Agrees (types_at source.now) m words.new → next_of source.now m answers.entry rest.entry o ≡ calls_so (waits_in source.now m rest.entry) (known ((linked_to source.now).number (func_of source.now).unit func)) (target_of (way_of (types_at source.now) m way) ∷ []) (all_kids source.now.bound.now kids) (left_in source.now m rest.entry)) }
    ensures grows { (types : ℕ → Typ) (m : Meaning) → Agrees types m words.new → Agrees types m words.old }
{
    let _shown = answers;
    let target = target_of_way(words, way)?;
    let before = one_word(arena, target)?;
    let callee = Callee::Known(number_of(source, func));
    Ok(Next::Made(
        When::Always,
        called(arena, words, source, rest, callee, before, kids)?,
    ))
}

/// A class is copied by its copy constructor.
pub(crate) fn copy_construct<'a>(
    arena: &'a Bump,
    words: &mut Words<'a>,
    source: &Source<'a>,
    answers: CaseAnswers<'_>,
    rest: Rest<'a>,
    way: Way,
    func: u32,
) -> Going<'a>
    ensures is { IfOk result (λ o. (m : Meaning) → Agrees (types_at source.now) m words.new → next_of source.now m answers.entry rest.entry o ≡ calls_on (known ((linked_to source.now).number (func_of source.now).unit func)) (target_of (way_of (types_at source.now) m way) ∷ source_of (way_of (types_at source.now) m way) ∷ []) (waits_in source.now m rest.entry) (left_in source.now m rest.entry)) }
    ensures grows { (types : ℕ → Typ) (m : Meaning) → Agrees types m words.new → Agrees types m words.old }
{
    let _shown = answers;
    let target = target_of_way(words, way)?;
    let from = source_of_way(words, way)?;
    let both = two_words(arena, target, from)?;
    let callee = Callee::Known(number_of(source, func));
    Ok(Next::Made(When::Always, calls(source, rest, callee, both)))
}

/// A scalar is copied.
pub(crate) fn copy_scalar<'a>(
    arena: &'a Bump,
    words: &mut Words<'a>,
    source: &Source<'a>,
    answers: CaseAnswers<'_>,
    rest: Rest<'a>,
    way: Way,
    kind: IntKind,
    volatile: bool,
) -> Going<'a>
    ensures is { IfOk result (λ o. (m : Meaning) → Agrees (types_at source.now) m words.new → next_of source.now m answers.entry rest.entry o ≡ goes_on (reads_word (source_of (way_of (types_at source.now) m way)) (kind_size kind) volatile) (waits_in source.now m rest.entry) (LoadedSo kind ∷ StoresTo (target_of (way_of (types_at source.now) m way)) kind volatile (number_of_term 0) ∷ left_in source.now m rest.entry)) }
    ensures grows { (types : ℕ → Typ) (m : Meaning) → Agrees types m words.new → Agrees types m words.old }
{
    let _shown = answers;
    let then = stores(words, source, way, kind, volatile)?;
    let with = with_frame(arena, source, rest, then)?;
    let from = source_of_way(words, way)?;
    Ok(Next::Made(
        When::Always,
        reads(arena, source, with, from, kind, volatile)?,
    ))
}

/// A class or an array is built part by part.
pub(crate) fn run_pieces<'a>(
    arena: &'a Bump,
    words: &mut Words<'a>,
    source: &Source<'a>,
    answers: CaseAnswers<'_>,
    rest: Rest<'a>,
    way: Way,
    kids: KidsAt,
) -> Going<'a>
    ensures is { IfOk result (λ o. (m : Meaning) → Agrees (types_at source.now) m words.new → next_of source.now m answers.entry rest.entry o ≡ goes_on silent (waits_in source.now m rest.entry) (PartsOf (all_kids source.now.bound.now kids) (target_of (way_of (types_at source.now) m way)) (source_of (way_of (types_at source.now) m way)) ∷ ScopeOf of_pieces false [] ∷ left_in source.now m rest.entry)) }
    ensures grows { (types : ℕ → Typ) (m : Meaning) → Agrees types m words.new → Agrees types m words.old }
{
    let _shown = answers;
    let with = scoped(arena, source, rest, Owner::Pieces, false)?;
    let frame = ObjectFrame::Parts {
        kids,
        target: target_of_way(words, way)?,
        source: source_of_way(words, way)?,
    };
    Ok(Next::Made(
        When::Always,
        goes(arena, source, with, Frame::Object(frame))?,
    ))
}

/// A part is built.
pub(crate) fn run_piece<'a>(
    arena: &'a Bump,
    words: &mut Words<'a>,
    source: &Source<'a>,
    answers: CaseAnswers<'_>,
    rest: Rest<'a>,
    way: Way,
    offset: u32,
    kids: KidsAt,
) -> Going<'a>
    ensures is { IfOk result (λ o. (m : Meaning) → Agrees (types_at source.now) m words.new → next_of source.now m answers.entry rest.entry o ≡ goes_on silent (waits_in source.now m rest.entry) (Runs (into (plus_number_of (target_of (way_of (types_at source.now) m way)) offset) (plus_number_of (source_of (way_of (types_at source.now) m way)) offset)) (first_kid (all_kids source.now.bound.now kids)) ∷ WaitsIn of_pieces (at_word (plus_number_of (target_of (way_of (types_at source.now) m way)) offset)) (kids_after (all_kids source.now.bound.now kids)) ∷ left_in source.now m rest.entry)) }
    ensures grows { (types : ℕ → Typ) (m : Meaning) → Agrees types m words.new → Agrees types m words.old }
{
    let _shown = answers;
    let target = target_of_way(words, way)?;
    let target = plus_number(arena, words, target, u64::from(offset))?;
    let from = source_of_way(words, way)?;
    let from = plus_number(arena, words, from, u64::from(offset))?;
    let waiting = Waiting {
        address: Spot::Word(target),
        destroys: rest_of(source.bound, kids),
    };
    let then = Frame::Object(ObjectFrame::Waits(Owner::Pieces, waiting));
    let with = with_frame(arena, source, rest, then)?;
    let init = first(source.bound, kids);
    Ok(Next::Made(
        When::Always,
        run_into(arena, source, with, target, from, init)?,
    ))
}

/// An array is built of elements that are alike.
pub(crate) fn run_elements<'a>(
    arena: &'a Bump,
    words: &mut Words<'a>,
    source: &Source<'a>,
    answers: CaseAnswers<'_>,
    rest: Rest<'a>,
    way: Way,
    count: u32,
    stride: u32,
    kids: KidsAt,
) -> Going<'a>
    ensures is { IfOk result (λ o. (m : Meaning) → Agrees (types_at source.now) m words.new → next_of source.now m answers.entry rest.entry o ≡ if_word count (goes_on silent (waits_in source.now m rest.entry) (EachOf (first_kid (all_kids source.now.bound.now kids)) (kids_after (all_kids source.now.bound.now kids)) stride (number_of_term count) (target_of (way_of (types_at source.now) m way)) (source_of (way_of (types_at source.now) m way)) ∷ ScopeOf of_pieces false [] ∷ left_in source.now m rest.entry))) }
    ensures grows { (types : ℕ → Typ) (m : Meaning) → Agrees types m words.new → Agrees types m words.old }
{
    let _shown = answers;
    let with = scoped(arena, source, rest, Owner::Pieces, false)?;
    let frame = ObjectFrame::Each {
        init: first(source.bound, kids),
        destroys: rest_of(source.bound, kids),
        stride,
        left: number(words, u64::from(count))?,
        target: target_of_way(words, way)?,
        source: source_of_way(words, way)?,
    };
    Ok(Next::Made(
        When::Always,
        goes(arena, source, with, Frame::Object(frame))?,
    ))
}
