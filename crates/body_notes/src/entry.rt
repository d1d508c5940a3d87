//! Where a function is entered.

ghost use Rattle.std.specs.Prelude.{ℕ, ◌≡◌, [], true, IfOk, OnOk, IsTrue};
ghost use Rattle.symbolic_terms.specs.Shown.{facts_of};
ghost use Rattle.cpp_tree.specs.cpp_types.Typ.{Typ};
ghost use Rattle.symbolic_terms.specs.Meanings.{Meaning, words_of, Agrees};
ghost use Rattle.body_check.specs.Notes.{variables};
ghost use Rattle.body_check.specs.Calls.{bare};
ghost use Rattle.note_landing.specs.Shown.{types_by, place_by, outcome_by};
ghost use Rattle.body_notes.specs.Checked.{EntryBy};
ghost use Rattle.body_notes.specs.Entries.{entered_at, takes_by, IsEntry};

use image_links::calls::func_takes;
use note_landing::compiled::{Compiled, Room};
use note_landing::landing::{MOST, is_stuck};
use note_landing::notes::{Note, Notes};
use note_landing::unfit::Unfit;
use symbolic_equality::outcomes::{equal_outcomes, equal_places};
use symbolic_leaving::source::body_of;
use symbolic_steps::{CaseAnswers, step};
use symbolic_terms::arena::keep;
use symbolic_terms::frames::{CallFrame, Frame, Frames, Waitings, Way};
use symbolic_terms::ids::{Exceptions, Terms};
use symbolic_terms::made;
use symbolic_terms::outcomes::{Doing, Leading, Outcome, Rest};
use symbolic_terms::places::{Facts, Hold, Opens, Place};
use symbolic_terms::refusal::Refusal;
use symbolic_terms::words::Words;

// The variables from a number on, so many.
#[tactic(auto, using(crate::proofs::Noted::variables_more))]
fn variables<'a>(
    room: Room<'a>,
    words: &mut Words<'a>,
    from: u32,
    count: u32,
) -> Result<Terms<'a>, Refusal>
    ensures is { IfOk result (λ ws. (types : ℕ → Typ) (m : Meaning) → Agrees types m words.new → words_of m ws ≡ variables from count) }
    ensures grows { IfOk result (λ z. (types : ℕ → Typ) (m : Meaning) → Agrees types m words.new → Agrees types m words.old) }
{
    if count == 0 {
        return Ok(Terms::Empty);
    }
    match from.checked_add(1) {
        Some(next) => {
            let first = made::variable(words, from)?;
            let rest = variables(room, words, next, count - 1)?;
            Ok(Terms::More(first, keep(room.arena, rest)?))
        }
        None => Err(Refusal::Beyond),
    }
}

// How many words the function takes.
fn takes<'a>(body: &Compiled<'a>) -> Result<u32, Refusal>
    ensures { IfOk result (λ n. n ≡ takes_by body.now) }
{
    match u32::try_from(func_takes(body.source.bound, body.number)) {
        Ok(count) => Ok(count),
        Err(_) => Err(Refusal::Beyond),
    }
}

/// Where the function is entered: its operands are the words of the call.
pub(crate) fn entry_place<'a>(
    room: Room<'a>,
    words: &mut Words<'a>,
    body: &Compiled<'a>,
) -> Result<Place<'a>, Refusal>
    ensures is { IfOk result (λ q. (m : Meaning) → Agrees (types_by body.now) m words.new → place_by body.now m q ≡ bare (takes_by body.now)) }
    ensures grows { IfOk result (λ z. (types : ℕ → Typ) (m : Meaning) → Agrees types m words.new → Agrees types m words.old) }
{
    let operands = variables(room, words, 0, takes(body)?)?;
    Ok(Place {
        operands,
        opens: Opens::Empty,
        caught: Exceptions::Empty,
        hold: Hold::Nothing,
    })
}

/// What the source does there: one silent step has been taken.
pub(crate) fn entry_outcome<'a>(
    room: Room<'a>,
    words: &mut Words<'a>,
    body: &Compiled<'a>,
) -> Result<Outcome<'a>, Refusal>
    ensures is { IfOk result (λ o. (m : Meaning) → Agrees (types_by body.now) m words.new → outcome_by body.now m o ≡ entered_at body.now) }
    ensures grows { IfOk result (λ z. (types : ℕ → Typ) (m : Meaning) → Agrees types m words.new → Agrees types m words.old) }
{
    let taken = variables(room, words, 0, takes(body)?)?;
    let none = keep(room.arena, Frames::Empty)?;
    let then = Frames::More(Frame::Then(Way::Value, body_of(&body.source)), none);
    let passes = Frame::Call(CallFrame::Passes {
        words: taken,
        from: 0,
    });
    let rest = Rest {
        temporaries: Waitings::Empty,
        frames: Frames::More(passes, keep(room.arena, then)?),
    };
    let outcome = Outcome::Goes(Leading::Does(Doing::Silent), rest);
    let stepped = step(
        room.alloc,
        room.arena,
        words,
        &body.source,
        CaseAnswers::Unanswered,
        outcome,
    )?;
    Ok(stepped)
}

// Whether nothing is known.
fn has_none<'a>(facts: Facts<'a>) -> bool
    ensures { IsTrue result → (types : ℕ → Typ) (m : Meaning) → facts_of types m facts.entry ≡ [] }
{
    match facts {
        Facts::Empty => true,
        Facts::More(..) => false,
    }
}

// Whether a note is that of the entry.
fn is_entry<'a>(
    room: Room<'a>,
    words: &mut Words<'a>,
    body: &Compiled<'a>,
    note: &Note<'a>,
) -> Result<bool, Refusal>
    ensures is { IfOk result (λ b. b ≡ true → (m : Meaning) → Agrees (types_by body.now) m words.new → IsEntry body.now m note.now) }
    ensures grows { IfOk result (λ z. (types : ℕ → Typ) (m : Meaning) → Agrees types m words.new → Agrees types m words.old) }
{
    if note.index != 0 {
        return Ok(false);
    }
    if MOST < note.rank {
        return Ok(false);
    }
    if !has_none(note.facts) {
        return Ok(false);
    }
    if is_stuck(note.outcome) {
        return Ok(false);
    }
    let place = entry_place(room, words, body)?;
    if !equal_places(words, &note.place, &place) {
        return Ok(false);
    }
    let outcome = entry_outcome(room, words, body)?;
    Ok(equal_outcomes(words, &note.outcome, &outcome))
}

/// The first note is that of the entry.
pub(crate) fn entry_fits<'a>(
    room: Room<'a>,
    words: &mut Words<'a>,
    body: &Compiled<'a>,
    notes: &Notes<'a>,
) -> Result<(), Unfit>
    ensures is { OnOk result ((m : Meaning) → Agrees (types_by body.now) m words.new → EntryBy body.now m notes.now) }
    ensures grows { OnOk result ((types : ℕ → Typ) (m : Meaning) → Agrees types m words.new → Agrees types m words.old) }
{
    let Some(note) = notes.list.get(0) else {
        return Err(Unfit::Never);
    };
    if is_entry(room, words, body, note)? {
        Ok(())
    } else {
        Err(Unfit::Never)
    }
}
