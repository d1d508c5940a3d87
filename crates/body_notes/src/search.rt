//! The search for notes. Nothing is claimed of them: each is tested.

use crate::checked::note_fits;
use crate::entry::{entry_outcome, entry_place};
use note_landing::ahead::{Pace, advance};
use note_landing::compiled::{Compiled, Room};
use note_landing::landing::MOST;
use note_landing::notes::{Note, Notes};
use note_landing::unfit::{Missing, Unfit, missing_in};
use note_matching::{form_of, renumbered};
use symbolic_frames::outcomes::{replaced_facts, replaced_outcome, replaced_place};
use symbolic_steps::CaseAnswers;
use symbolic_terms::outcomes::Outcome;
use symbolic_terms::places::{Facts, Place};
use symbolic_terms::refusal::Refusal;
use symbolic_terms::words::Words;

/// How many notes an index may have.
const MOST_AT: usize = 64;

/// How often a note is looked at: it has few ways on, and its rank rises a few times.
const MOST_TRIES: u32 = 400;

/// How often all notes of a body are looked at: so many times, and so many more for each instruction.
const LOOKS: u32 = 10_000;

const LOOKS_EACH: u32 = 16;

// A note, with the silent steps that the source takes from here on.
fn note_of<'a>(
    room: Room<'a>,
    words: &mut Words<'a>,
    body: &Compiled<'a>,
    index: u32,
    facts: Facts<'a>,
    place: Place<'a>,
    outcome: Outcome<'a>,
) -> Result<Note<'a>, Refusal> {
    let ahead = advance(
        room,
        words,
        &body.source,
        CaseAnswers::Unanswered,
        Pace::Plain,
        outcome,
    )?;
    Ok(Note {
        index,
        place,
        facts,
        outcome,
        lead: ahead.steps,
        rank: 0,
        form: form_of(room.arena, words, room.alloc, place, outcome)?,
    })
}

// Puts a note among the others, unless its index has too many.
fn put<'a>(notes: &mut Notes<'a>, note: Note<'a>) -> Result<bool, Refusal> {
    let Ok(at) = u32::try_from(notes.list.len()) else {
        return Ok(false);
    };
    let Some(places) = notes.places.get_mut(note.index as usize) else {
        return Ok(false);
    };
    if MOST_AT <= places.len() {
        return Ok(false);
    }
    places.push(at)?;
    notes.list.push(note)?;
    Ok(true)
}

// The note of the entry alone.
fn first_notes<'a>(
    room: Room<'a>,
    words: &mut Words<'a>,
    body: &Compiled<'a>,
) -> Result<Notes<'a>, Refusal> {
    let mut places = Vec::new(room.alloc);
    for _instr in &body.body.code {
        places.push(Vec::new(room.alloc))?;
    }
    let mut notes = Notes {
        list: Vec::new(room.alloc),
        places,
    };
    let place = entry_place(room, words, body)?;
    let outcome = entry_outcome(room, words, body)?;
    let note = note_of(room, words, body, 0, Facts::Empty, place, outcome)?;
    let _put = put(&mut notes, note)?;
    Ok(notes)
}

// Puts a note like a missing one among the others: its variables have their numbers in the order in which they come.
fn put_missing<'a>(
    room: Room<'a>,
    words: &mut Words<'a>,
    body: &Compiled<'a>,
    notes: &mut Notes<'a>,
    missing: Missing<'a>,
) -> Result<bool, Refusal> {
    let form = form_of(
        room.arena,
        words,
        room.alloc,
        missing.place,
        missing.outcome,
    )?;
    let numbered = renumbered(room.arena, words, room.alloc, form, missing.known)?;
    let place = replaced_place(room.arena, words, numbered.with, missing.place)?;
    let outcome = replaced_outcome(room.arena, words, numbered.with, missing.outcome)?;
    let facts = replaced_facts(room.arena, words, numbered.with, numbered.facts)?;
    let note = note_of(room, words, body, missing.index, facts, place, outcome)?;
    put(notes, note)
}

// Raises the rank of a note.
fn raise<'a>(notes: &mut Notes<'a>, at: usize, least: u32) -> bool {
    let Some(note) = notes.list.get_mut(at) else {
        return false;
    };
    let next = note.rank.saturating_add(1);
    let rank = if next < least { least } else { next };
    note.rank = rank;
    rank <= MOST
}

/// What has become of a note.
#[derive(Clone, Copy, PartialEq, Eq)]
enum Looked {
    /// It fits as the others are now.
    Fits,
    /// Another note has come, or its rank has risen.
    Changed,
    /// It never will.
    Never,
}

// What is done about a note that does not fit.
fn mend<'a>(
    room: Room<'a>,
    words: &mut Words<'a>,
    body: &Compiled<'a>,
    notes: &mut Notes<'a>,
    at: usize,
    unfit: Unfit,
) -> Result<bool, Refusal> {
    match unfit {
        Unfit::Never => Ok(false),
        Unfit::Rank(least) => Ok(raise(notes, at, least)),
        Unfit::Missing => match missing_in(room) {
            Some(missing) => put_missing(room, words, body, notes, missing),
            None => Ok(false),
        },
        Unfit::Memory => Err(Refusal::Memory),
        Unfit::Beyond => Err(Refusal::Beyond),
        Unfit::Untold => Err(Refusal::Untold),
        Unfit::NotMade => Err(Refusal::NotMade),
    }
}

// Looks at a note: a note that is missing is put among the others, or its rank rises.
fn look<'a>(
    room: Room<'a>,
    words: &mut Words<'a>,
    body: &Compiled<'a>,
    notes: &mut Notes<'a>,
    at: usize,
) -> Result<Looked, Refusal> {
    let Some(note) = notes.list.get(at) else {
        return Ok(Looked::Never);
    };
    let note = *note;
    match note_fits(room, words, body, notes, &note) {
        Ok(()) => Ok(Looked::Fits),
        Err(unfit) => {
            if mend(room, words, body, notes, at, unfit)? {
                Ok(Looked::Changed)
            } else {
                Ok(Looked::Never)
            }
        }
    }
}

// How often the notes of a body may be looked at.
fn looks(body: &Compiled<'_>) -> u32 {
    match u32::try_from(body.body.code.len()) {
        Ok(length) => length.saturating_mul(LOOKS_EACH).saturating_add(LOOKS),
        Err(_) => LOOKS,
    }
}

// Looks at a note until it fits: whether anything has changed, or none where it never fits, or no look is left.
fn settle<'a>(
    room: Room<'a>,
    words: &mut Words<'a>,
    body: &Compiled<'a>,
    notes: &mut Notes<'a>,
    at: usize,
    left: &mut u32,
) -> Result<Option<bool>, Refusal> {
    let mut changed = false;
    for _ in 0..MOST_TRIES {
        if *left == 0 {
            return Ok(None);
        }
        *left = left.saturating_sub(1);
        match look(room, words, body, notes, at)? {
            Looked::Fits => return Ok(Some(changed)),
            Looked::Changed => changed = true,
            Looked::Never => return Ok(None),
        }
    }
    Ok(None)
}

// Notes of all that is reached.
fn collect<'a>(
    room: Room<'a>,
    words: &mut Words<'a>,
    body: &Compiled<'a>,
    notes: &mut Notes<'a>,
    left: &mut u32,
) -> Result<bool, Refusal> {
    let most = notes.places.len().saturating_mul(MOST_AT);
    for at in 0..most {
        if notes.list.len() <= at {
            return Ok(true);
        }
        if settle(room, words, body, notes, at, left)?.is_none() {
            return Ok(false);
        }
    }
    Ok(true)
}

// The ranks are raised from the last note on: whether all fit.
fn rank<'a>(
    room: Room<'a>,
    words: &mut Words<'a>,
    body: &Compiled<'a>,
    notes: &mut Notes<'a>,
    left: &mut u32,
) -> Result<bool, Refusal> {
    for _ in 0..=MOST {
        let mut changed = false;
        for at in (0..notes.list.len()).rev() {
            match settle(room, words, body, notes, at, left)? {
                Some(risen) => changed = changed || risen,
                None => return Ok(false),
            }
        }
        if !changed {
            return Ok(true);
        }
    }
    Ok(false)
}

/// Notes that are likely to fit.
pub(crate) fn search<'a>(
    room: Room<'a>,
    words: &mut Words<'a>,
    body: &Compiled<'a>,
) -> Result<Option<Notes<'a>>, Refusal> {
    let mut notes = first_notes(room, words, body)?;
    let mut left = looks(body);
    if !collect(room, words, body, &mut notes, &mut left)? {
        return Ok(None);
    }
    if !rank(room, words, body, &mut notes, &mut left)? {
        return Ok(None);
    }
    Ok(Some(notes))
}
