//! Calls (C++14 5.2.2, 10.3).

ghost use Rattle.std.specs.Prelude.{ℕ, ◌≡◌, ◌∷◌, ◌++◌, [], false, drop, IfOk};
ghost use Rattle.cpp_tree.specs.cpp_types.Typ.{Typ};
ghost use Rattle.src_frames.specs.Bounds.{all_kids};
ghost use Rattle.symbolic_source.specs.Terms.{plus_number as plus_number_of};
ghost use Rattle.symbolic_source.specs.Frames.{Slot as SlotOf, Passes as PassesWords};
ghost use Rattle.symbolic_source.specs.Outcomes.{goes as goes_on, reads as reads_word, finds as finds_so};
ghost use Rattle.symbolic_terms.specs.Meanings.{Meaning, word_of, words_of, Agrees};
ghost use Rattle.symbolic_terms.specs.Shown.{call_of};
ghost use Rattle.symbolic_leaving.specs.Source.{types_at, units_of, func_of};
ghost use Rattle.symbolic_leaving.specs.Shown.{left_in, waits_in, outcome_at};
ghost use Rattle.symbolic_running.specs.Next.{next_of, given_to};

use bumpalo::Bump;
use src_frames::trees::KidsAt;
use symbolic_leaving::answers::CaseAnswers;
use symbolic_leaving::source::{Source, word_at};
use symbolic_leaving::states::{Made, comes, number, writes};
use symbolic_running::next::{Going, Next, When};
use symbolic_running::words::{called, next_word, one_word};
use symbolic_terms::arena::keep;
use symbolic_terms::frames::{CallFrame, Callee, Frame};
use symbolic_terms::ids::{Terms, WordId};
use symbolic_terms::made::{self, plus_number};
use symbolic_terms::outcomes::{Doing, Outcome, Rest};
use symbolic_terms::refusal::Refusal;
use symbolic_terms::words::Words;

/// Goes on with a value for a call.
pub(crate) fn give_call<'a>(
    arena: &'a Bump,
    words: &mut Words<'a>,
    source: &Source<'a>,
    answers: CaseAnswers<'_>,
    rest: Rest<'a>,
    frame: CallFrame<'a>,
    value: WordId,
) -> Going<'a>
    ensures is { IfOk result (λ o. (m : Meaning) → Agrees (types_at source.now) m words.new → next_of source.now m answers.entry rest.entry o ≡ given_to source.now m answers.entry rest.entry (word_of m value) (call_of (types_at source.now) m (units_of source.now) (func_of source.now) frame.entry)) }
    ensures grows { (types : ℕ → Typ) (m : Meaning) → Agrees types m words.new → Agrees types m words.old }
{
    match frame {
        CallFrame::Words {
            callee,
            before,
            rest: others,
        } => {
            let arguments = with_word(arena, before, value)?;
            Ok(Next::Made(
                When::Always,
                next_word(arena, words, source, rest, callee, arguments, others)?,
            ))
        }
        CallFrame::Object {
            before,
            class,
            slot,
            pointer,
            rest: others,
        } => {
            let object = Object {
                before,
                class,
                slot,
                pointer,
                others,
            };
            Ok(Next::Made(
                When::Always,
                read_class(arena, words, source, rest, object, value)?,
            ))
        }
        CallFrame::Slot {
            before,
            class,
            slot,
            rest: others,
        } => {
            let callee = Callee::Virtual {
                class,
                slot,
                address: value,
            };
            let then = called(arena, words, source, rest, callee, before, others)?;
            Ok(Next::Made(
                When::Always,
                finds(arena, source, class, slot, value, then)?,
            ))
        }
        CallFrame::Pointer {
            before,
            pointer,
            rest: others,
        } => {
            let callee = Callee::Pointer {
                address: value,
                pointer,
            };
            Ok(Next::Made(
                When::Always,
                called(arena, words, source, rest, callee, before, others)?,
            ))
        }
        CallFrame::Passes {
            words: passed,
            from,
        } => { pass_word(arena, words, source, answers, rest, passed, from, value) }
    }
}

// One more word behind the others.
fn with_word<'a>(arena: &'a Bump, before: Terms<'a>, word: WordId) -> Result<Terms<'a>, Refusal>
    ensures { IfOk result (λ v. (m : Meaning) → words_of m v ≡ words_of m before.entry ++ word_of m word ∷ []) }
{
    match before {
        Terms::Empty => one_word(arena, word),
        Terms::More(first, others) => {
            let behind = with_word(arena, *others, word)?;
            Ok(Terms::More(first, keep(arena, behind)?))
        }
    }
}

// The object of a virtual call.
#[derive(Clone, Copy)]
struct Object<'a> {
    before: Terms<'a>,
    class: u32,
    slot: u32,
    pointer: u32,
    others: KidsAt,
}

// Reads the class address of an object.
fn read_class<'a>(
    arena: &'a Bump,
    words: &mut Words<'a>,
    source: &Source<'a>,
    rest: Rest<'a>,
    object: Object<'a>,
    value: WordId,
) -> Made<'a>
    ensures is { IfOk result (λ o. (m : Meaning) → Agrees (types_at source.now) m words.new → outcome_at source.now m o ≡ goes_on (reads_word (plus_number_of (word_of m value) object.entry.pointer) 8 false) (waits_in source.now m rest.entry) (SlotOf (words_of m object.entry.before ++ word_of m value ∷ []) object.entry.class object.entry.slot (all_kids source.now.bound.now object.entry.others) ∷ left_in source.now m rest.entry)) }
    ensures grows { (types : ℕ → Typ) (m : Meaning) → Agrees types m words.new → Agrees types m words.old }
{
    let doing = Doing::Reads {
        address: plus_number(arena, words, value, u64::from(object.pointer))?,
        size: 8,
        volatile: false,
    };
    let then = CallFrame::Slot {
        before: with_word(arena, object.before, value)?,
        class: object.class,
        slot: object.slot,
        rest: object.others,
    };
    comes(arena, source, rest, doing, Frame::Call(then))
}

// This, where the slot has a function.
fn finds<'a>(
    arena: &'a Bump,
    source: &Source<'a>,
    class: u32,
    slot: u32,
    address: WordId,
    then: Outcome<'a>,
) -> Made<'a>
    ensures { IfOk result (λ o. (m : Meaning) → outcome_at source.now m o ≡ finds_so class slot (word_of m address) (outcome_at source.now m then.entry)) }
{
    let _shown = source;
    Ok(Outcome::Finds {
        class,
        slot,
        address,
        then: keep(arena, then)?,
    })
}

// Passes the next word into the frame.
#[tactic(auto, using(crate::proofs::Passes::pass_no_place, crate::proofs::Passes::pass_one))]
fn pass_word<'a>(
    arena: &'a Bump,
    words: &mut Words<'a>,
    source: &Source<'a>,
    answers: CaseAnswers<'_>,
    rest: Rest<'a>,
    passed: Terms<'a>,
    from: usize,
    value: WordId,
) -> Going<'a>
    ensures is { IfOk result (λ o. (m : Meaning) → Agrees (types_at source.now) m words.new → next_of source.now m answers.entry rest.entry o ≡ given_to source.now m answers.entry rest.entry (word_of m value) (PassesWords (words_of m passed.entry) (drop from (func_of source.now).words))) }
    ensures grows { (types : ℕ → Typ) (m : Meaning) → Agrees types m words.new → Agrees types m words.old }
{
    let _shown = answers;
    let Terms::More(word, others) = passed else {
        return Ok(Next::Gives(number(words, 0)?));
    };
    let Some(place) = word_at(source, from) else {
        return Ok(Next::Gives(number(words, 0)?));
    };
    let then = CallFrame::Passes {
        words: *others,
        from: from + 1,
    };
    let address = made::local(words, u64::from(place.offset))?;
    Ok(Next::Made(
        When::Always,
        writes(
            arena,
            source,
            rest,
            address,
            place.kind,
            word,
            place.volatile,
            Frame::Call(then),
        )?,
    ))
}
