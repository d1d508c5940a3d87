//! A note of a body, tested.

ghost use Rattle.std.specs.Prelude.{ℕ, ◌≡◌, true, OnOk};
ghost use Rattle.cpp_tree.specs.cpp_types.Typ.{Typ};
ghost use Rattle.symbolic_terms.specs.Meanings.{Meaning, Agrees};
ghost use Rattle.tx_code.specs.declared.instr.Instr.TheVariants.{Call, TCall, CallIndirect, TCallIndirect};
ghost use Rattle.note_landing.specs.Shown.{types_by, place_by, facts_by, outcome_by};
ghost use Rattle.body_notes.specs.Checked.{pending_of, is_plain, StepBy, NoteBy};

use crate::callees::{calling, calling_found};
use crate::calls::HALF;
use crate::fits::{Pending, fits};
use crate::named::{function_of, names_of};
use crate::returns::{is_covered, is_safe, returning};
use code_follows::following::follow;
use note_landing::compiled::{Compiled, Room};
use note_landing::landing::is_stuck;
use note_landing::notes::{Note, Notes};
use note_landing::unfit::Unfit;
use symbolic_leaving::source::number_of;
use symbolic_steps::{CaseAnswers, advanced};
use symbolic_terms::outcomes::Outcome;
use symbolic_terms::places::Place;
use symbolic_terms::words::Words;
use tx_code::Instr;

// A call by a name.
fn named<'a>(
    room: Room<'a>,
    words: &mut Words<'a>,
    body: &Compiled<'a>,
    notes: &Notes<'a>,
    note: &Note<'a>,
    place: Place<'a>,
    outcome: Outcome<'a>,
    func: u32,
    count: u8,
) -> Result<(), Unfit>
    ensures is { OnOk result ((m : Meaning) → Agrees (types_by body.now) m words.new → StepBy body.now m notes.now (facts_by body.now m note.now.facts) (pending_of note.now) note.now.index (Call func count) (place_by body.now m place.entry) (outcome_by body.now m outcome.entry)) }
    ensures grows { OnOk result ((types : ℕ → Typ) (m : Meaning) → Agrees types m words.new → Agrees types m words.old) }
{
    let Some(callee) = function_of(body, func)? else {
        return Err(Unfit::Never);
    };
    calling(
        room, words, body, notes, note.facts, note.index, place, outcome, callee, count,
    )?;
    Ok(())
}

// A call of a safe body by a name.
fn named_safe<'a>(
    room: Room<'a>,
    words: &mut Words<'a>,
    body: &Compiled<'a>,
    notes: &Notes<'a>,
    note: &Note<'a>,
    place: Place<'a>,
    outcome: Outcome<'a>,
    func: u32,
    count: u8,
) -> Result<(), Unfit>
    ensures is { OnOk result ((m : Meaning) → Agrees (types_by body.now) m words.new → StepBy body.now m notes.now (facts_by body.now m note.now.facts) (pending_of note.now) note.now.index (TCall func count) (place_by body.now m place.entry) (outcome_by body.now m outcome.entry)) }
    ensures grows { OnOk result ((types : ℕ → Typ) (m : Meaning) → Agrees types m words.new → Agrees types m words.old) }
{
    let Some(callee) = function_of(body, func)? else {
        return Err(Unfit::Never);
    };
    if !is_safe(body, number_of(&body.source, callee)) {
        return Err(Unfit::Never);
    }
    if !is_covered(body, place) {
        return Err(Unfit::Never);
    }
    calling(
        room, words, body, notes, note.facts, note.index, place, outcome, callee, count,
    )?;
    Ok(())
}

// A call by an address.
fn pointed<'a>(
    room: Room<'a>,
    words: &mut Words<'a>,
    body: &Compiled<'a>,
    notes: &Notes<'a>,
    note: &Note<'a>,
    place: Place<'a>,
    outcome: Outcome<'a>,
    ty: u32,
    count: u8,
) -> Result<(), Unfit>
    ensures is { OnOk result ((m : Meaning) → Agrees (types_by body.now) m words.new → StepBy body.now m notes.now (facts_by body.now m note.now.facts) (pending_of note.now) note.now.index (CallIndirect ty count) (place_by body.now m place.entry) (outcome_by body.now m outcome.entry)) }
    ensures grows { OnOk result ((types : ℕ → Typ) (m : Meaning) → Agrees types m words.new → Agrees types m words.old) }
{
    calling_found(
        room, words, body, notes, note.facts, note.index, place, outcome, ty, count,
    )?;
    Ok(())
}

// A call of a safe body by an address.
fn pointed_safe<'a>(
    room: Room<'a>,
    words: &mut Words<'a>,
    body: &Compiled<'a>,
    notes: &Notes<'a>,
    note: &Note<'a>,
    place: Place<'a>,
    outcome: Outcome<'a>,
    ty: u32,
    count: u8,
) -> Result<(), Unfit>
    ensures is { OnOk result ((m : Meaning) → Agrees (types_by body.now) m words.new → StepBy body.now m notes.now (facts_by body.now m note.now.facts) (pending_of note.now) note.now.index (TCallIndirect ty count) (place_by body.now m place.entry) (outcome_by body.now m outcome.entry)) }
    ensures grows { OnOk result ((types : ℕ → Typ) (m : Meaning) → Agrees types m words.new → Agrees types m words.old) }
{
    if !is_covered(body, place) {
        return Err(Unfit::Never);
    }
    calling_found(
        room, words, body, notes, note.facts, note.index, place, outcome, ty, count,
    )?;
    Ok(())
}

// Whether an instruction is neither a call nor a return.
#[tactic(auto, using(crate::proofs::Plain::plain_other))]
fn is_plain(instr: Instr) -> bool
    ensures { result ≡ is_plain instr }
{
    match instr {
        Instr::Call { .. } | Instr::TCall { .. } => false,
        Instr::CallIndirect { .. } | Instr::TCallIndirect { .. } => false,
        Instr::Ret(_) => false,
        _ => true,
    }
}

// Another instruction.
fn plain<'a>(
    room: Room<'a>,
    words: &mut Words<'a>,
    body: &Compiled<'a>,
    notes: &Notes<'a>,
    note: &Note<'a>,
    instr: Instr,
    place: Place<'a>,
    outcome: Outcome<'a>,
) -> Result<(), Unfit>
    ensures is { OnOk result ((m : Meaning) → Agrees (types_by body.now) m words.new → is_plain instr ≡ true → StepBy body.now m notes.now (facts_by body.now m note.now.facts) (pending_of note.now) note.now.index instr (place_by body.now m place.entry) (outcome_by body.now m outcome.entry)) }
    ensures grows { OnOk result ((types : ℕ → Typ) (m : Meaning) → Agrees types m words.new → Agrees types m words.old) }
{
    let table = names_of(room, body, instr)?;
    let next = follow(
        room.arena, words, &table, note.facts, note.index, &instr, place, &outcome,
    )?;
    let pending = Pending {
        lead: note.lead,
        rank: note.rank,
    };
    fits(room, words, body, notes, note.facts, pending, next, outcome)?;
    Ok(())
}

// What an instruction asks.
fn step_fits<'a>(
    room: Room<'a>,
    words: &mut Words<'a>,
    body: &Compiled<'a>,
    notes: &Notes<'a>,
    note: &Note<'a>,
    instr: Instr,
    place: Place<'a>,
    outcome: Outcome<'a>,
) -> Result<(), Unfit>
    ensures is { OnOk result ((m : Meaning) → Agrees (types_by body.now) m words.new → StepBy body.now m notes.now (facts_by body.now m note.now.facts) (pending_of note.now) note.now.index instr (place_by body.now m place.entry) (outcome_by body.now m outcome.entry)) }
    ensures grows { OnOk result ((types : ℕ → Typ) (m : Meaning) → Agrees types m words.new → Agrees types m words.old) }
{
    match instr {
        Instr::Call { func, words: count } => {
            named(room, words, body, notes, note, place, outcome, func, count)?;
            Ok(())
        }
        Instr::TCall { func, words: count } => {
            named_safe(room, words, body, notes, note, place, outcome, func, count)?;
            Ok(())
        }
        Instr::CallIndirect { ty, words: count } => {
            pointed(room, words, body, notes, note, place, outcome, ty, count)?;
            Ok(())
        }
        Instr::TCallIndirect { ty, words: count } => {
            pointed_safe(room, words, body, notes, note, place, outcome, ty, count)?;
            Ok(())
        }
        Instr::Ret(count) => {
            returning(words, body, notes, note, place, outcome, count)?;
            Ok(())
        }
        _ => {
            if !is_plain(instr) {
                return Err(Unfit::Never);
            }
            plain(room, words, body, notes, note, instr, place, outcome)?;
            Ok(())
        }
    }
}

/// A note fits.
pub(crate) fn note_fits<'a>(
    room: Room<'a>,
    words: &mut Words<'a>,
    body: &Compiled<'a>,
    notes: &Notes<'a>,
    note: &Note<'a>,
) -> Result<(), Unfit>
    ensures is { OnOk result ((m : Meaning) → Agrees (types_by body.now) m words.new → NoteBy body.now m notes.now note.now) }
    ensures grows { OnOk result ((types : ℕ → Typ) (m : Meaning) → Agrees types m words.new → Agrees types m words.old) }
{
    let Some(instr) = body.body.code.get(note.index as usize) else {
        return Err(Unfit::Never);
    };
    if HALF <= note.lead {
        return Err(Unfit::Never);
    }
    let outcome = advanced(
        room.alloc,
        room.arena,
        words,
        &body.source,
        CaseAnswers::Unanswered,
        note.lead,
        note.outcome,
    )?;
    if is_stuck(outcome) {
        return Err(Unfit::Never);
    }
    step_fits(room, words, body, notes, note, *instr, note.place, outcome)?;
    Ok(())
}
