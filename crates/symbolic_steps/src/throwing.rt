//! Exceptions and their handlers (C++14 15.1, 15.3).

ghost use Rattle.std.specs.Prelude.{ℕ, ◌≡◌, ◌∷◌, IfOk};
ghost use Rattle.src_frames.specs.Bounds.{tree_of, all_kids};
ghost use Rattle.cpp_tree.specs.cpp_types.Typ.{Typ};
ghost use Rattle.cpp_tree.specs.Trees.{rest as kids_after};
ghost use Rattle.cpp_tree.specs.cpp_layout.Layout.{kind_size};
ghost use Rattle.symbolic_source.specs.Terms.{put as put_on};
ghost use Rattle.symbolic_source.specs.Frames.{Fills as FillsIn, Trying as TryingOne, Takes as TakesOf, Taking as TakingOne};
ghost use Rattle.symbolic_source.specs.Outcomes.{silent, goes as goes_on};
ghost use Rattle.symbolic_source.specs.Steps.{handling as handles, fill_field as fills_field, take_field as takes_field, take_bytes as takes_bytes};
ghost use Rattle.symbolic_terms.specs.Meanings.{Meaning, word_of, thrown_of, given_of, Agrees};
ghost use Rattle.symbolic_terms.specs.Shown.{throwing_of};
ghost use Rattle.symbolic_leaving.specs.Source.{types_at, linked_to, units_of, func_of};
ghost use Rattle.symbolic_leaving.specs.Answers.{answers_at};
ghost use Rattle.symbolic_leaving.specs.Shown.{frame_at, left_in, waits_in, outcome_at};
ghost use Rattle.symbolic_running.specs.Next.{next_of, given_to};

use bumpalo::Bump;
use cpp_tree::TKind;
use cpp_tree::below::IntKind;
use src_frames::trees::{KidsAt, TreeAt, first, head, kids_of, kind_of, rest as rest_of};
use src_frames::words::size_of_kind;
use std::alloc::Global;
use symbolic_leaving::answers::{CaseAnswers, caught};
use symbolic_leaving::leaving::leave;
use symbolic_leaving::roots::{FieldAt, field_of, handler_place};
use symbolic_leaving::source::Source;
use symbolic_leaving::states::{Made, goes, local, number, reads, with_frame, writes};
use symbolic_leaving::texts::is_object;
use symbolic_running::next::{Going, Next, When};
use symbolic_terms::frames::{ExceptionFrame, Exit, Frame, Way};
use symbolic_terms::ids::{ExceptionId, PutsId, WordId};
use symbolic_terms::made::{self, field, made_of, plus_number, untouched};
use symbolic_terms::outcomes::{Outcome, Rest};
use symbolic_terms::refusal::Refusal;
use symbolic_terms::words::Words;

/// Goes on with a value for an exception.
pub(crate) fn give_exception<'a>(
    alloc: Global,
    arena: &'a Bump,
    words: &mut Words<'a>,
    source: &Source<'a>,
    answers: CaseAnswers<'_>,
    rest: Rest<'a>,
    frame: ExceptionFrame,
    value: WordId,
) -> Going<'a>
    ensures is { IfOk result (λ o. (m : Meaning) → Agrees (types_at source.now) m words.new → next_of source.now m answers.entry rest.entry o ≡ given_to source.now m answers.entry rest.entry (word_of m value) (throwing_of (types_at source.now) m (units_of source.now) frame)) }
    ensures grows { (types : ℕ → Typ) (m : Meaning) → Agrees types m words.new → Agrees types m words.old }
{
    match frame {
        ExceptionFrame::Throws { typ, fields } => {
            let puts = untouched(words)?;
            Ok(Next::Made(
                When::Always,
                fills(arena, source, rest, typ, value, fields, puts)?,
            ))
        }
        ExceptionFrame::Fills {
            typ,
            from,
            fields,
            puts,
        } => {
            let filling = Filling {
                typ,
                from,
                fields,
                puts,
            };
            fill(arena, words, source, answers, rest, filling, value)
        }
        ExceptionFrame::Filled {
            typ,
            from,
            offset,
            kind,
            fields,
            puts,
        } => {
            let puts = put(arena, words, offset, kind, value, puts)?;
            Ok(Next::Made(
                When::Always,
                fills(arena, source, rest, typ, from, fields, puts)?,
            ))
        }
        ExceptionFrame::Tries(_) => Ok(Next::Gives(number(words, 0)?)),
        ExceptionFrame::Trying {
            exception,
            handler,
            others,
        } => try_handler(
            alloc, arena, words, source, answers, rest, exception, handler, others, value,
        ),
        ExceptionFrame::Takes {
            exception,
            base,
            fields,
        } => take(
            arena, words, source, answers, rest, exception, base, fields, value,
        ),
        ExceptionFrame::Taking {
            exception,
            base,
            offset,
            kind,
        } => Ok(Next::Made(
            When::Always,
            take_bytes(
                arena, words, source, answers, rest, exception, base, offset, kind,
            )?,
        )),
        ExceptionFrame::Handling(_) => Ok(Next::Gives(value)),
    }
}

// An exception of this type that is filled, from a word or from an object.
#[derive(Clone, Copy)]
struct Filling {
    typ: u32,
    from: WordId,
    fields: KidsAt,
    puts: PutsId,
}

// One more word in an exception.
fn put<'a>(
    arena: &'a Bump,
    words: &mut Words<'a>,
    offset: u32,
    kind: IntKind,
    word: WordId,
    others: PutsId,
) -> Result<PutsId, Refusal>
    ensures is { IfOk result (λ q. (types : ℕ → Typ) (m : Meaning) → Agrees types m words.new → given_of m q ≡ put_on offset (kind_size kind) (word_of m word) (given_of m others)) }
    ensures grows { (types : ℕ → Typ) (m : Meaning) → Agrees types m words.new → Agrees types m words.old }
{
    let size = u32::from(size_of_kind(kind));
    made::put(arena, words, offset, size, word, others)
}

// Fills these fields of an exception.
fn fills<'a>(
    arena: &'a Bump,
    source: &Source<'a>,
    rest: Rest<'a>,
    typ: u32,
    from: WordId,
    fields: KidsAt,
    puts: PutsId,
) -> Made<'a>
    ensures { IfOk result (λ o. (m : Meaning) → outcome_at source.now m o ≡ goes_on silent (waits_in source.now m rest.entry) (FillsIn (types_at source.now typ) (word_of m from) (all_kids source.now.bound.now fields) (given_of m puts) ∷ left_in source.now m rest.entry)) }
{
    let frame = ExceptionFrame::Fills {
        typ,
        from,
        fields,
        puts,
    };
    goes(arena, source, rest, Frame::Exception(frame))
}

// Fills the next field of an exception, or throws it.
#[tactic(auto, using(crate::proofs::Looks::fills_more, crate::proofs::Looks::fills_none))]
fn fill<'a>(
    arena: &'a Bump,
    words: &mut Words<'a>,
    source: &Source<'a>,
    answers: CaseAnswers<'_>,
    rest: Rest<'a>,
    filling: Filling,
    value: WordId,
) -> Going<'a>
    ensures is { IfOk result (λ o. (m : Meaning) → Agrees (types_at source.now) m words.new → next_of source.now m answers.entry rest.entry o ≡ given_to source.now m answers.entry rest.entry (word_of m value) (FillsIn (types_at source.now filling.typ) (word_of m filling.from) (all_kids source.now.bound.now filling.fields) (given_of m filling.puts))) }
    ensures grows { (types : ℕ → Typ) (m : Meaning) → Agrees types m words.new → Agrees types m words.old }
{
    match head(source.bound, filling.fields) {
        Some(field) => {
            let kind = kind_of(source.bound, field);
            Ok(Next::Made(
                When::Always,
                fill_field(arena, words, source, answers, rest, filling, kind)?,
            ))
        }
        None => {
            let made = made_of(words, filling.typ, filling.puts)?;
            Ok(Next::Made(
                When::Always,
                leave(
                    arena,
                    words,
                    source,
                    rest.temporaries,
                    Exit::Throws(made),
                    rest.frames,
                )?,
            ))
        }
    }
}

// Fills the first field of an exception, which has this kind; what is no field is passed over.
#[tactic(auto, using(crate::proofs::Looks::fill_some, crate::proofs::Looks::fill_other))]
fn fill_field<'a>(
    arena: &'a Bump,
    words: &mut Words<'a>,
    source: &Source<'a>,
    answers: CaseAnswers<'_>,
    rest: Rest<'a>,
    filling: Filling,
    kind: TKind,
) -> Made<'a>
    ensures is { IfOk result (λ o. (m : Meaning) → Agrees (types_at source.now) m words.new → outcome_at source.now m o ≡ fills_field (linked_to source.now) (func_of source.now) (answers_at source.now answers.entry) (waits_in source.now m rest.entry) (types_at source.now filling.typ) (word_of m filling.from) kind (kids_after (all_kids source.now.bound.now filling.fields)) (given_of m filling.puts) (left_in source.now m rest.entry)) }
    ensures grows { (types : ℕ → Typ) (m : Meaning) → Agrees types m words.new → Agrees types m words.old }
{
    let Filling {
        typ,
        from,
        fields,
        puts,
    } = filling;
    let others = rest_of(source.bound, fields);
    match field_of(kind) {
        Some(field) => {
            let filling = Filling {
                typ,
                from,
                fields: others,
                puts,
            };
            fill_at(arena, words, source, answers, rest, field, filling)
        }
        None => fills(arena, source, rest, typ, from, others, puts),
    }
}

// Fills a field of an exception, from the object that is thrown or with the value; the others are filled then.
fn fill_at<'a>(
    arena: &'a Bump,
    words: &mut Words<'a>,
    source: &Source<'a>,
    answers: CaseAnswers<'_>,
    rest: Rest<'a>,
    field: FieldAt,
    filling: Filling,
) -> Made<'a>
    ensures is { IfOk result (λ o. (m : Meaning) → Agrees (types_at source.now) m words.new → outcome_at source.now m o ≡ fills_field (linked_to source.now) (func_of source.now) (answers_at source.now answers.entry) (waits_in source.now m rest.entry) (types_at source.now filling.typ) (word_of m filling.from) (TKind.Field field.offset field.kind) (all_kids source.now.bound.now filling.fields) (given_of m filling.puts) (left_in source.now m rest.entry)) }
    ensures grows { (types : ℕ → Typ) (m : Meaning) → Agrees types m words.new → Agrees types m words.old }
{
    let _shown = answers;
    let FieldAt { offset, kind } = field;
    let Filling {
        typ,
        from,
        fields,
        puts,
    } = filling;
    if is_object(source, typ) {
        let address = plus_number(arena, words, from, u64::from(offset))?;
        let frame = ExceptionFrame::Filled {
            typ,
            from,
            offset,
            kind,
            fields,
            puts,
        };
        let rest = with_frame(arena, source, rest, Frame::Exception(frame))?;
        reads(arena, source, rest, address, kind, false)
    } else {
        let filled = put(arena, words, offset, kind, from, puts)?;
        fills(arena, source, rest, typ, from, fields, filled)
    }
}

// Enters a handler that catches the exception, or tries the others.
fn try_handler<'a>(
    alloc: Global,
    arena: &'a Bump,
    words: &mut Words<'a>,
    source: &Source<'a>,
    answers: CaseAnswers<'_>,
    rest: Rest<'a>,
    exception: ExceptionId,
    handler: TreeAt,
    others: KidsAt,
    value: WordId,
) -> Going<'a>
    ensures is { IfOk result (λ o. (m : Meaning) → Agrees (types_at source.now) m words.new → next_of source.now m answers.entry rest.entry o ≡ given_to source.now m answers.entry rest.entry (word_of m value) (TryingOne (thrown_of m exception) (tree_of source.now.bound.now handler) (all_kids source.now.bound.now others))) }
    ensures grows { (types : ℕ → Typ) (m : Meaning) → Agrees types m words.new → Agrees types m words.old }
{
    match caught(alloc, words, source, answers, exception, handler)? {
        Some(true) => Ok(Next::Made(
            When::Always,
            handle(arena, words, source, answers, rest, exception, handler)?,
        )),
        Some(false) => {
            let then = Frame::Exception(ExceptionFrame::Tries(others));
            let rest = with_frame(arena, source, rest, then)?;
            Ok(Next::Made(
                When::Always,
                leave(
                    arena,
                    words,
                    source,
                    rest.temporaries,
                    Exit::Throws(exception),
                    rest.frames,
                )?,
            ))
        }
        None => Ok(Next::Made(When::Always, Outcome::Stuck)),
    }
}

// Enters a handler: its object gets the bytes, and then its body runs.
#[tactic(auto, using(crate::proofs::Looks::handling_tree, crate::proofs::Looks::taken_some, crate::proofs::Looks::taken_other))]
fn handle<'a>(
    arena: &'a Bump,
    words: &mut Words<'a>,
    source: &Source<'a>,
    answers: CaseAnswers<'_>,
    rest: Rest<'a>,
    exception: ExceptionId,
    handler: TreeAt,
) -> Made<'a>
    ensures is { IfOk result (λ o. (m : Meaning) → Agrees (types_at source.now) m words.new → outcome_at source.now m o ≡ handles (linked_to source.now) (func_of source.now) (answers_at source.now answers.entry) (waits_in source.now m rest.entry) (thrown_of m exception) (tree_of source.now.bound.now handler) (left_in source.now m rest.entry)) }
    ensures grows { (types : ℕ → Typ) (m : Meaning) → Agrees types m words.new → Agrees types m words.old }
{
    let _shown = answers;
    let kids = kids_of(source.bound, handler);
    let body = Frame::Then(Way::Value, first(source.bound, kids));
    let handling = Frame::Exception(ExceptionFrame::Handling(exception));
    let rest = with_frame(arena, source, rest, handling)?;
    match handler_place(kind_of(source.bound, handler)) {
        Some(place) => {
            let frame = ExceptionFrame::Takes {
                exception,
                base: local(words, source, place)?,
                fields: rest_of(source.bound, kids),
            };
            let rest = with_frame(arena, source, rest, body)?;
            goes(arena, source, rest, Frame::Exception(frame))
        }
        None => goes(arena, source, rest, body),
    }
}

// Stores the next field of an exception into a handler's object.
#[tactic(auto, using(crate::proofs::Looks::takes_more, crate::proofs::Looks::takes_none))]
fn take<'a>(
    arena: &'a Bump,
    words: &mut Words<'a>,
    source: &Source<'a>,
    answers: CaseAnswers<'_>,
    rest: Rest<'a>,
    exception: ExceptionId,
    base: WordId,
    fields: KidsAt,
    value: WordId,
) -> Going<'a>
    ensures is { IfOk result (λ o. (m : Meaning) → Agrees (types_at source.now) m words.new → next_of source.now m answers.entry rest.entry o ≡ given_to source.now m answers.entry rest.entry (word_of m value) (TakesOf (thrown_of m exception) (word_of m base) (all_kids source.now.bound.now fields))) }
    ensures grows { (types : ℕ → Typ) (m : Meaning) → Agrees types m words.new → Agrees types m words.old }
{
    match head(source.bound, fields) {
        Some(field) => {
            let kind = kind_of(source.bound, field);
            let others = rest_of(source.bound, fields);
            Ok(Next::Made(
                When::Always,
                take_field(arena, source, answers, rest, exception, base, kind, others)?,
            ))
        }
        None => Ok(Next::Gives(number(words, 0)?)),
    }
}

// Stores a field of an exception; what is no field is passed over.
#[tactic(auto, using(crate::proofs::Looks::take_some, crate::proofs::Looks::take_other))]
fn take_field<'a>(
    arena: &'a Bump,
    source: &Source<'a>,
    answers: CaseAnswers<'_>,
    rest: Rest<'a>,
    exception: ExceptionId,
    base: WordId,
    kind: TKind,
    others: KidsAt,
) -> Made<'a>
    ensures { IfOk result (λ o. (m : Meaning) → outcome_at source.now m o ≡ takes_field (linked_to source.now) (func_of source.now) (answers_at source.now answers.entry) (waits_in source.now m rest.entry) (thrown_of m exception) (word_of m base) kind (all_kids source.now.bound.now others) (left_in source.now m rest.entry)) }
{
    let _shown = answers;
    match field_of(kind) {
        Some(field) => take_found(arena, source, rest, exception, base, field, others),
        None => goes(arena, source, rest, takes(source, exception, base, others)),
    }
}

// Stores this field of an exception, and then the others.
fn take_found<'a>(
    arena: &'a Bump,
    source: &Source<'a>,
    rest: Rest<'a>,
    exception: ExceptionId,
    base: WordId,
    field: FieldAt,
    others: KidsAt,
) -> Made<'a>
    ensures { IfOk result (λ o. (m : Meaning) → outcome_at source.now m o ≡ goes_on silent (waits_in source.now m rest.entry) (TakingOne (thrown_of m exception) (word_of m base) field.offset field.kind ∷ TakesOf (thrown_of m exception) (word_of m base) (all_kids source.now.bound.now others) ∷ left_in source.now m rest.entry)) }
{
    let frame = ExceptionFrame::Taking {
        exception,
        base,
        offset: field.offset,
        kind: field.kind,
    };
    let behind = takes(source, exception, base, others);
    let rest = with_frame(arena, source, rest, behind)?;
    goes(arena, source, rest, Frame::Exception(frame))
}

// Stores these fields of an exception.
fn takes<'a>(source: &Source<'a>, exception: ExceptionId, base: WordId, fields: KidsAt) -> Frame<'a>
    ensures { (m : Meaning) → frame_at source.now m result ≡ TakesOf (thrown_of m exception) (word_of m base) (all_kids source.now.bound.now fields) }
{
    let _shown = source;
    Frame::Exception(ExceptionFrame::Takes {
        exception,
        base,
        fields,
    })
}

// Stores a field of an exception into a handler's object.
fn take_bytes<'a>(
    arena: &'a Bump,
    words: &mut Words<'a>,
    source: &Source<'a>,
    answers: CaseAnswers<'_>,
    rest: Rest<'a>,
    exception: ExceptionId,
    base: WordId,
    offset: u32,
    kind: IntKind,
) -> Made<'a>
    ensures is { IfOk result (λ o. (m : Meaning) → Agrees (types_at source.now) m words.new → outcome_at source.now m o ≡ takes_bytes (linked_to source.now) (func_of source.now) (answers_at source.now answers.entry) (waits_in source.now m rest.entry) (thrown_of m exception) (word_of m base) offset kind (left_in source.now m rest.entry)) }
    ensures grows { (types : ℕ → Typ) (m : Meaning) → Agrees types m words.new → Agrees types m words.old }
{
    let _shown = answers;
    let address = plus_number(arena, words, base, u64::from(offset))?;
    let size = u32::from(size_of_kind(kind));
    let word = field(arena, words, exception, offset, size)?;
    let zero = number(words, 0)?;
    writes(
        arena,
        source,
        rest,
        address,
        kind,
        word,
        false,
        Frame::Gives(zero),
    )
}
