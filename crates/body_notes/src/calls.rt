//! What a call leaves behind it.

ghost use Rattle.std.specs.Prelude.{ℕ, ◌≡◌, ◌∷◌, true, false, IfOk, OnOk};
ghost use Rattle.cpp_tree.specs.cpp_types.Typ.{Typ};
ghost use Rattle.cpp_tree.specs.declared.program.Program.{Program};
ghost use Rattle.src_mean.specs.Linked.{Func};
ghost use Rattle.symbolic_source.specs.Frames.{Gives, handled as exception_handled, blocks_in as blocks_among};
ghost use Rattle.symbolic_source.specs.Outcomes.{silent, goes};
ghost use Rattle.symbolic_terms.specs.Meanings.{Meaning, word_of, Agrees};
ghost use Rattle.symbolic_leaving.specs.Shown.{waiting_at, frames_at};
ghost use Rattle.note_landing.specs.declared.compiled.Compiled.{Compiled as CompiledBody};
ghost use Rattle.symbolic_terms.specs.Shown.{place_of, facts_of, frames_of};
ghost use Rattle.body_check.specs.Calls.{first_of, AllThrown};
ghost use Rattle.note_landing.specs.Shown.{types_by, place_by, facts_by, outcome_by, thrown_by};
ghost use Rattle.body_notes.specs.Called.{given_back, place_back, facts_back, BackBy, BackWithBy, BehindBy};

use crate::fits::rises;
use note_landing::ahead::{Pace, advance};
use note_landing::compiled::{Compiled, Room};
use note_landing::landing::{MOST, land};
use note_landing::notes::Notes;
use note_landing::spellings::is_thrown;
use note_landing::steps::steps_within;
use note_landing::unfit::Unfit;
use symbolic_equality::outcomes::equal_open_lists;
use symbolic_frames::outcomes::{replaced_facts, replaced_rest};
use symbolic_frames::places::place_later;
use symbolic_frames::stacks::{blocks_in, handled};
use symbolic_steps::{CaseAnswers, step};
use symbolic_terms::arena::keep;
use symbolic_terms::comparison::equal_thrown;
use symbolic_terms::frames::{Frame, Frames, Waitings};
use symbolic_terms::ids::{Exceptions, Terms, WordId};
use symbolic_terms::made;
use symbolic_terms::outcomes::{Doing, Leading, Outcome, Rest};
use symbolic_terms::places::{Facts, Place};
use symbolic_terms::refusal::Refusal;
use symbolic_terms::replacing::{Replacing, replaced_words};
use symbolic_terms::words::Words;

/// The most steps on the way back to a caller.
pub(crate) const HALF: u32 = 512;

// The caller goes on behind a call by at least one silent step.
fn back<'a>(
    room: Room<'a>,
    words: &mut Words<'a>,
    body: &Compiled<'a>,
    notes: &Notes<'a>,
    known: Facts<'a>,
    index: u32,
    place: Place<'a>,
    outcome: Outcome<'a>,
) -> Result<(), Unfit>
    ensures is { OnOk result ((m : Meaning) → Agrees (types_by body.now) m words.new → BackBy body.now m notes.now (facts_by body.now m known.entry) index (place_by body.now m place.entry) (outcome_by body.now m outcome.entry)) }
    ensures grows { OnOk result ((types : ℕ → Typ) (m : Meaning) → Agrees types m words.new → Agrees types m words.old) }
{
    let answers = CaseAnswers::Unanswered;
    let first = step(
        room.alloc,
        room.arena,
        words,
        &body.source,
        answers,
        outcome,
    )?;
    let ahead = advance(room, words, &body.source, answers, Pace::Plain, first)?;
    let _short = steps_within(1, ahead.steps, HALF)?;
    let _rank = land(room, words, body, notes, known, index, place, ahead.outcome)?;
    Ok(())
}

// A silent step that goes on with a word.
fn giving<'a>(
    room: Room<'a>,
    word: WordId,
    temporaries: Waitings<'a>,
    frames: Frames<'a>,
) -> Result<Outcome<'a>, Refusal>
    ensures { IfOk result (λ o. (b : CompiledBody) (m : Meaning) → outcome_by b m o ≡ goes silent (waiting_at b.source m temporaries.entry) (Gives (word_of m word) ∷ frames_at b.source m frames.entry)) }
{
    let others = keep(room.arena, frames)?;
    let rest = Rest {
        temporaries,
        frames: Frames::More(Frame::Gives(word), others),
    };
    Ok(Outcome::Goes(Leading::Does(Doing::Silent), rest))
}

// What the source does behind a call, with the word that is handed back.
fn outcome_by_word<'a>(
    room: Room<'a>,
    words: &mut Words<'a>,
    body: &Compiled<'a>,
    rest: Rest<'a>,
) -> Result<Outcome<'a>, Refusal>
    ensures is { IfOk result (λ o. (m : Meaning) → Agrees (types_by body.now) m words.new → outcome_by body.now m o ≡ given_back body.now m true rest.entry) }
    ensures grows { IfOk result (λ z. (types : ℕ → Typ) (m : Meaning) → Agrees types m words.new → Agrees types m words.old) }
{
    let later = replaced_rest(room.arena, words, Replacing::Later, rest)?;
    let word = made::variable(words, 0)?;
    let outcome = giving(room, word, later.temporaries, later.frames)?;
    Ok(outcome)
}

// The same, where none is handed back.
fn outcome_by_none<'a>(
    room: Room<'a>,
    words: &mut Words<'a>,
    body: &Compiled<'a>,
    rest: Rest<'a>,
) -> Result<Outcome<'a>, Refusal>
    ensures is { IfOk result (λ o. (m : Meaning) → Agrees (types_by body.now) m words.new → outcome_by body.now m o ≡ given_back body.now m false rest.entry) }
    ensures grows { IfOk result (λ z. (types : ℕ → Typ) (m : Meaning) → Agrees types m words.new → Agrees types m words.old) }
{
    let word = made::number(words, 0)?;
    let outcome = giving(room, word, rest.temporaries, rest.frames)?;
    Ok(outcome)
}

// What the source does behind a call.
fn outcome_back<'a>(
    room: Room<'a>,
    words: &mut Words<'a>,
    body: &Compiled<'a>,
    gives: bool,
    rest: Rest<'a>,
) -> Result<Outcome<'a>, Refusal>
    ensures is { IfOk result (λ o. (m : Meaning) → Agrees (types_by body.now) m words.new → outcome_by body.now m o ≡ given_back body.now m gives rest.entry) }
    ensures grows { IfOk result (λ z. (types : ℕ → Typ) (m : Meaning) → Agrees types m words.new → Agrees types m words.old) }
{
    if gives {
        outcome_by_word(room, words, body, rest)
    } else {
        outcome_by_none(room, words, body, rest)
    }
}

// Where the operands are behind a call, with the word that is handed back.
fn place_by_word<'a>(
    room: Room<'a>,
    words: &mut Words<'a>,
    place: Place<'a>,
) -> Result<Place<'a>, Refusal>
    ensures is { IfOk result (λ q. (types : ℕ → Typ) (m : Meaning) → Agrees types m words.new → place_of types m q ≡ place_back true (place_of types m place.entry)) }
    ensures grows { IfOk result (λ z. (types : ℕ → Typ) (m : Meaning) → Agrees types m words.new → Agrees types m words.old) }
{
    let others = replaced_words(room.arena, words, Replacing::Later, place.operands)?;
    let word = made::variable(words, 0)?;
    let kept = keep(room.arena, others)?;
    let later = place_later(room.arena, words, place, Terms::More(word, kept))?;
    Ok(later)
}

// Where the operands are behind a call.
fn place_back<'a>(
    room: Room<'a>,
    words: &mut Words<'a>,
    gives: bool,
    place: Place<'a>,
) -> Result<Place<'a>, Refusal>
    ensures is { IfOk result (λ q. (types : ℕ → Typ) (m : Meaning) → Agrees types m words.new → place_of types m q ≡ place_back gives (place_of types m place.entry)) }
    ensures grows { IfOk result (λ z. (types : ℕ → Typ) (m : Meaning) → Agrees types m words.new → Agrees types m words.old) }
{
    if gives {
        place_by_word(room, words, place)
    } else {
        Ok(place)
    }
}

// What is known behind a call.
fn facts_back<'a>(
    room: Room<'a>,
    words: &mut Words<'a>,
    gives: bool,
    known: Facts<'a>,
) -> Result<Facts<'a>, Refusal>
    ensures is { IfOk result (λ ks. (types : ℕ → Typ) (m : Meaning) → Agrees types m words.new → facts_of types m ks ≡ facts_back gives (facts_of types m known.entry)) }
    ensures grows { IfOk result (λ z. (types : ℕ → Typ) (m : Meaning) → Agrees types m words.new → Agrees types m words.old) }
{
    if gives {
        let later = replaced_facts(room.arena, words, Replacing::Later, known)?;
        Ok(later)
    } else {
        Ok(known)
    }
}

// The caller goes on with the word that is handed back, or with none.
fn back_with<'a>(
    room: Room<'a>,
    words: &mut Words<'a>,
    body: &Compiled<'a>,
    notes: &Notes<'a>,
    gives: bool,
    known: Facts<'a>,
    index: u32,
    place: Place<'a>,
    rest: Rest<'a>,
) -> Result<(), Unfit>
    ensures is { OnOk result ((m : Meaning) → Agrees (types_by body.now) m words.new → BackWithBy body.now m notes.now gives (facts_by body.now m known.entry) index (place_by body.now m place.entry) rest.entry) }
    ensures grows { OnOk result ((types : ℕ → Typ) (m : Meaning) → Agrees types m words.new → Agrees types m words.old) }
{
    let facts = facts_back(room, words, gives, known)?;
    let there = place_back(room, words, gives, place)?;
    let outcome = outcome_back(room, words, body, gives, rest)?;
    back(room, words, body, notes, facts, index, there, outcome)?;
    Ok(())
}

// Whether the open blocks of code are those of the source's frames.
fn has_blocks<'a>(room: Room<'a>, place: Place<'a>, frames: Frames<'a>) -> Result<bool, Refusal>
    ensures { IfOk result (λ b. b ≡ true → (types : ℕ → Typ) (m : Meaning) (p : Program) (f : Func) → (place_of types m place.entry).opens ≡ blocks_among (frames_of types m p f frames.entry)) }
{
    let blocks = blocks_in(room.arena, frames)?;
    Ok(equal_open_lists(&place.opens, &blocks))
}

// Whether the innermost exception of an entered handler is the source's.
#[tactic(auto, using(crate::proofs::Returned::none_caught, crate::proofs::Returned::one_caught))]
fn has_caught<'a>(words: &Words<'a>, place: Place<'a>, frames: Frames<'a>) -> bool
    ensures { result ≡ true → (types : ℕ → Typ) (m : Meaning) (p : Program) (f : Func) → Agrees types m words.now → first_of (place_of types m place.entry).caught ≡ exception_handled (frames_of types m p f frames.entry) }
{
    match handled(frames) {
        None => match place.caught {
            Exceptions::Empty => true,
            Exceptions::More(..) => false,
        },
        Some(exception) => match place.caught {
            Exceptions::Empty => false,
            Exceptions::More(caught, _) => equal_thrown(words, caught, exception),
        },
    }
}

// Whether the innermost exception of an entered handler is of a type that is thrown.
fn has_thrown<'a>(
    room: Room<'a>,
    words: &Words<'a>,
    body: &Compiled<'a>,
    place: Place<'a>,
) -> Result<bool, Refusal>
    ensures { IfOk result (λ b. b ≡ true → (m : Meaning) → Agrees (types_by body.now) m words.now → AllThrown (thrown_by body.now) (place_by body.now m place.entry).caught) }
{
    match place.caught {
        Exceptions::Empty => Ok(true),
        Exceptions::More(caught, _) => is_thrown(room.alloc, words, body, caught),
    }
}

/// What a function hands back, and whether it lets no exception out.
#[derive(Clone, Copy)]
pub(crate) struct Ends {
    pub gives: bool,
    pub stops: bool,
}

/// What a call leaves behind it, whose words have been taken off.
pub(crate) fn behind<'a>(
    room: Room<'a>,
    words: &mut Words<'a>,
    body: &Compiled<'a>,
    notes: &Notes<'a>,
    known: Facts<'a>,
    index: u32,
    ends: Ends,
    place: Place<'a>,
    rest: Rest<'a>,
) -> Result<(), Unfit>
    ensures is { OnOk result ((m : Meaning) → Agrees (types_by body.now) m words.new → BehindBy body.now m notes.now ends (facts_by body.now m known.entry) index (place_by body.now m place.entry) rest.entry) }
    ensures grows { OnOk result ((types : ℕ → Typ) (m : Meaning) → Agrees types m words.new → Agrees types m words.old) }
{
    let Some(next) = index.checked_add(1) else {
        return Err(Unfit::Never);
    };
    if !has_blocks(room, place, rest.frames)? {
        return Err(Unfit::Never);
    }
    if !has_caught(words, place, rest.frames) {
        return Err(Unfit::Never);
    }
    if !has_thrown(room, words, body, place)? {
        return Err(Unfit::Never);
    }
    back_with(
        room, words, body, notes, ends.gives, known, next, place, rest,
    )?;
    if ends.stops {
        return Ok(());
    }
    rises(room, words, body, notes, known, index, place, rest, MOST)?;
    Ok(())
}
