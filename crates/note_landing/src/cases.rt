//! An exception of which nothing is known, by the cases of its type.

ghost use Rattle.std.specs.Prelude.{ℕ, ◌≡◌, ◌||◌, ◌&&◌, not, nat_eq, IfOk, IsTrue, OnOk};
ghost use Rattle.tx_code.specs.Meaning.{covers};
ghost use Rattle.tx_code.specs.Views.{image_view};
ghost use Rattle.cpp_tree.specs.cpp_types.Class.{classes_of};
ghost use Rattle.cpp_tree.specs.cpp_types.Typ.{Typ};
ghost use Rattle.symbolic_terms.specs.Meanings.{Meaning, Agrees};
ghost use Rattle.body_check.specs.Cases.{is_known as known_so, of_spelling, class_cases, Each};
ghost use Rattle.symbolic_leaving.specs.Answers.{case_of, texts_of};
ghost use Rattle.note_landing.specs.Cases.{text_at as text_in, IsSpelledBy, SpelledBy, IsTextOf, is_that_text, row_in, spellings_by, EachFirst, CaseBy, NeededBy, CasesBy};
ghost use Rattle.note_landing.specs.Shown.{types_by, place_by, outcome_by, linked_by, image_by};

use crate::class_names::{class_text, names_class};
use crate::compiled::{Compiled, Room};
use crate::flights::{Flight, found_fits};
use crate::notes::Notes;
use crate::unfit::Unfit;
use cpp_tree::below::{ClassRec, is_name};
use image_links::tables::spelling_place;
use std::alloc::{AllocError, Global};
use symbolic_steps::{Case, CaseAnswers};
use symbolic_terms::made;
use symbolic_terms::outcomes::Outcome;
use symbolic_terms::places::{Facts, Place};
use symbolic_terms::words::Words;
use tx_code::{Image, Row};

/// The spelling of a type of the image, or none.
pub fn text_at(image: &Image, number: u32) -> &[u8]
    ensures { result.now ≡ text_in (image_view image.now) number }
{
    match image.types.get(number as usize) {
        Some(text) => text,
        None => b"",
    }
}

/// Whether a spelling is among others.
pub fn is_known(known: &[Vec<u8>], text: &[u8]) -> bool
    ensures { result ≡ known_so (texts_of known.now) text.now }
{
    for other in known {
        if is_name(text, other) {
            return true;
        }
    }
    false
}

// Whether the type's number of a row is that of its spelling, which is known.
fn is_spelled(image: &Image, known: &[Vec<u8>], number: u32) -> bool
    ensures { IsTrue result → IsSpelledBy (image_view image.now) (texts_of known.now) number }
{
    let text = text_at(image, number);
    if !is_known(known, text) {
        return false;
    }
    if spelling_place(text, &image.types) != number as usize {
        return false;
    }
    (number as usize) < image.types.len()
}

// Whether the types' numbers of rows are those of known spellings.
fn are_spelled(image: &Image, known: &[Vec<u8>], rows: &[Row]) -> bool
    ensures { IsTrue result → SpelledBy (image_view image.now) (texts_of known.now) rows.now }
{
    for row in rows {
        if row.what == 1 && !is_spelled(image, known, row.ty) {
            return false;
        }
    }
    true
}

// The spelling of the type of a case, where it has one.
fn case_text(
    alloc: Global,
    case: &Case,
    classes: &[ClassRec],
) -> Result<Option<Vec<u8>>, AllocError>
    ensures { IfOk result (λ o. IsTextOf (classes_of classes.now) (case_of case.now) o) }
{
    match case {
        Case::Class(class) => Ok(Some(class_text(alloc, *class, classes)?)),
        Case::Spelling(text) => Ok(Some(Vec::from_slice(alloc, text)?)),
        Case::Others => Ok(None),
    }
}

// Whether a row that covers an index takes the types with this spelling.
fn is_taken(image: &Image, row: &Row, index: u32, text: &Option<Vec<u8>>) -> bool
    ensures { result ≡ (covers row.now index && (not (nat_eq row.now.what 1) || is_that_text text.now (text_in (image_view image.now) row.now.ty))) }
{
    row.from <= index && index < row.to && (row.what != 1 || is_text(text, text_at(image, row.ty)))
}

// Whether the type of this spelling is that of the case.
fn is_text(text: &Option<Vec<u8>>, spelling: &[u8]) -> bool
    ensures { result ≡ is_that_text text.now spelling.now }
{
    match text {
        Some(text) => is_name(spelling, text),
        None => false,
    }
}

// The first row that covers the index and takes the types with this spelling.
fn find_text(image: &Image, rows: &[Row], index: u32, text: &Option<Vec<u8>>) -> Option<Row>
    ensures { result ≡ row_in (image_view image.now) text.now rows.now index }
{
    for row in rows {
        if is_taken(image, row, index, text) {
            return Some(*row);
        }
    }
    None
}

/// An exception in flight at an index: the number of the unknown exception, and a rank above those of what it comes to.
#[derive(Clone, Copy)]
pub(crate) struct Unknown<'a> {
    pub known: Facts<'a>,
    pub index: u32,
    pub number: u32,
    pub rank: u32,
}

// A case of the type.
fn case_fits<'a>(
    room: Room<'a>,
    words: &mut Words<'a>,
    body: &Compiled<'a>,
    notes: &Notes<'a>,
    unknown: Unknown<'a>,
    case: &Case,
    place: Place<'a>,
    outcome: Outcome<'a>,
) -> Result<(), Unfit>
    ensures is { OnOk result ((m : Meaning) → Agrees (types_by body.now) m words.new → CaseBy body.now m notes.now unknown.entry (place_by body.now m place.entry) (outcome_by body.now m outcome.entry) (case_of case.now)) }
    ensures grows { OnOk result ((types : ℕ → Typ) (m : Meaning) → Agrees types m words.new → Agrees types m words.old) }
{
    let classes = body.source.bound.program().classes.as_slice();
    let text = case_text(room.alloc, case, classes)?;
    let row = find_text(body.image, &body.body.rows, unknown.index, &text);
    let flight = Flight {
        known: unknown.known,
        answers: CaseAnswers::InCase {
            exception: unknown.number,
            case,
            known: body.spellings,
        },
        rank: unknown.rank,
    };
    let exception = made::unknown(words, unknown.number)?;
    found_fits(
        room, words, body, notes, flight, row, place, exception, outcome,
    )?;
    Ok(())
}

// The cases of the first classes, so many.
fn classes_fit<'a>(
    room: Room<'a>,
    words: &mut Words<'a>,
    body: &Compiled<'a>,
    notes: &Notes<'a>,
    unknown: Unknown<'a>,
    count: u32,
    place: Place<'a>,
    outcome: Outcome<'a>,
) -> Result<(), Unfit>
    ensures is { OnOk result ((m : Meaning) → Agrees (types_by body.now) m words.new → Each (CaseBy body.now m notes.now unknown.entry (place_by body.now m place.entry) (outcome_by body.now m outcome.entry)) (class_cases (linked_by body.now).classes (spellings_by body.now) count)) }
    ensures grows { OnOk result ((types : ℕ → Typ) (m : Meaning) → Agrees types m words.new → Agrees types m words.old) }
{
    if count == 0 {
        return Ok(());
    }
    let class = count - 1;
    case_fits(
        room,
        words,
        body,
        notes,
        unknown,
        &Case::Class(class),
        place,
        outcome,
    )?;
    classes_fit(room, words, body, notes, unknown, class, place, outcome)?;
    Ok(())
}

// The case of a spelling. No exception is in it where a class is spelled so.
fn spelling_fits<'a>(
    room: Room<'a>,
    words: &mut Words<'a>,
    body: &Compiled<'a>,
    notes: &Notes<'a>,
    unknown: Unknown<'a>,
    text: &[u8],
    place: Place<'a>,
    outcome: Outcome<'a>,
) -> Result<(), Unfit>
    ensures is { OnOk result ((m : Meaning) → Agrees (types_by body.now) m words.new → NeededBy body.now m notes.now unknown.entry (place_by body.now m place.entry) (outcome_by body.now m outcome.entry) (of_spelling text.now)) }
    ensures grows { OnOk result ((types : ℕ → Typ) (m : Meaning) → Agrees types m words.new → Agrees types m words.old) }
{
    let classes = body.source.bound.program().classes.as_slice();
    let named = names_class(room.alloc, classes, text)?;
    if named {
        return Ok(());
    }
    let case = Case::Spelling(Vec::from_slice(room.alloc, text)?);
    case_fits(room, words, body, notes, unknown, &case, place, outcome)?;
    Ok(())
}

// The cases of the first spellings, so many.
fn spellings_fit<'a>(
    room: Room<'a>,
    words: &mut Words<'a>,
    body: &Compiled<'a>,
    notes: &Notes<'a>,
    unknown: Unknown<'a>,
    count: usize,
    place: Place<'a>,
    outcome: Outcome<'a>,
) -> Result<(), Unfit>
    ensures is { OnOk result ((m : Meaning) → Agrees (types_by body.now) m words.new → EachFirst count (NeededBy body.now m notes.now unknown.entry (place_by body.now m place.entry) (outcome_by body.now m outcome.entry)) (spellings_by body.now)) }
    ensures grows { OnOk result ((types : ℕ → Typ) (m : Meaning) → Agrees types m words.new → Agrees types m words.old) }
{
    if count == 0 {
        return Ok(());
    }
    let last = count - 1;
    let Some(text) = body.spellings.get(last) else {
        return Err(Unfit::Never);
    };
    spelling_fits(room, words, body, notes, unknown, text, place, outcome)?;
    spellings_fit(room, words, body, notes, unknown, last, place, outcome)?;
    Ok(())
}

/// An exception of which nothing is known, in each case of its type.
pub(crate) fn cases_fit<'a>(
    room: Room<'a>,
    words: &mut Words<'a>,
    body: &Compiled<'a>,
    notes: &Notes<'a>,
    unknown: Unknown<'a>,
    place: Place<'a>,
    outcome: Outcome<'a>,
) -> Result<(), Unfit>
    ensures is { OnOk result ((m : Meaning) → Agrees (types_by body.now) m words.new → CasesBy body.now m notes.now unknown.entry (place_by body.now m place.entry) (outcome_by body.now m outcome.entry)) }
    ensures grows { OnOk result ((types : ℕ → Typ) (m : Meaning) → Agrees types m words.new → Agrees types m words.old) }
{
    if !are_spelled(body.image, body.spellings, &body.body.rows) {
        return Err(Unfit::Never);
    }
    let Ok(count) = u32::try_from(body.source.bound.program().classes.len()) else {
        return Err(Unfit::Never);
    };
    classes_fit(room, words, body, notes, unknown, count, place, outcome)?;
    let known = body.spellings.len();
    spellings_fit(room, words, body, notes, unknown, known, place, outcome)?;
    case_fits(
        room,
        words,
        body,
        notes,
        unknown,
        &Case::Others,
        place,
        outcome,
    )?;
    Ok(())
}
