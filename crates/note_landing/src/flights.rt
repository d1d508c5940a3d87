//! Exceptions in flight at an index.

ghost use Rattle.std.specs.Prelude.{◌≡◌, ℕ, IfOk, OnOk, IsTrue};
ghost use Rattle.tx_events.specs.Thread.{rest_of};
ghost use Rattle.tx_code.specs.Meaning.{find};
ghost use Rattle.cpp_tree.specs.cpp_types.Typ.{Typ};
ghost use Rattle.cpp_tree.specs.declared.program.Program.{Program};
ghost use Rattle.src_mean.specs.Linked.{Func};
ghost use Rattle.src_frames.specs.Shown.{open_shown};
ghost use Rattle.symbolic_source.specs.Terms.{unknown as unknown_one};
ghost use Rattle.symbolic_source.specs.Frames.{throws};
ghost use Rattle.symbolic_source.specs.Outcomes.{leaves_block};
ghost use Rattle.symbolic_source.specs.Steps.{advanced};
ghost use Rattle.body_check.specs.Notes.{Edges, Outward};
ghost use Rattle.symbolic_leaving.specs.Answers.{answers_at};
ghost use Rattle.symbolic_terms.specs.Meanings.{Meaning, thrown_of, Agrees};
ghost use Rattle.symbolic_terms.specs.Shown.{doing_of, opens_of};
ghost use Rattle.note_landing.specs.Books.{bounds};
ghost use Rattle.note_landing.specs.declared.compiled.Compiled.{Compiled as CompiledBody};
ghost use Rattle.note_landing.specs.Flights.{behind_edge, IsOut, BehindBy, given_later};
ghost use Rattle.note_landing.specs.Shown.{linked_by, func_by, notes_by, thrown_by, numbers_by, rows_by, types_by, place_by, facts_by, outcome_by, ReachesBy, RowFitsBy, FoundFitsBy, FliesBy};

use crate::ahead::{Pace, advance, one_more, tries};
use crate::cases::{Unknown, cases_fit};
use crate::compiled::{Compiled, Room};
use crate::forgotten::forgotten;
use crate::landing::{MOST, land};
use crate::notes::Notes;
use crate::operands::cut_to;
use crate::rows::{find_for_all, find_row};
use crate::spellings::number_of;
use crate::steps::{LONGEST, goes_on, land_ahead, steps_within};
use crate::unfit::{Unfit, missed, missing_in};
use cpp_tree::below::BlockKind;
use src_frames::frames::Open;
use symbolic_equality::parts::equal_opens;
use symbolic_frames::outcomes::{replaced_facts, replaced_rest};
use symbolic_frames::places::{catching, holding, opened_later};
use symbolic_steps::{CaseAnswers, give, step};
use symbolic_terms::comparison::equal_thrown;
use symbolic_terms::frames::Exit;
use symbolic_terms::ids::{ExceptionId, Exceptions};
use symbolic_terms::made;
use symbolic_terms::outcomes::{Doing, Leading, Outcome, Rest};
use symbolic_terms::places::{Facts, Hold, Opens, Place};
use symbolic_terms::refusal::Refusal;
use symbolic_terms::replacing::Replacing;
use symbolic_terms::terms::Exception;
use symbolic_terms::words::{Words, exception as exception_at};
use tx_code::Row;

/// What is known in a flight, whose ranks lie below this one, with these answers.
#[derive(Clone, Copy)]
pub(crate) struct Flight<'a, 'k> {
    pub known: Facts<'a>,
    pub answers: CaseAnswers<'k>,
    pub rank: u32,
}

// A row leads to an index.
fn reaches<'a>(
    room: Room<'a>,
    words: &mut Words<'a>,
    body: &Compiled<'a>,
    notes: &Notes<'a>,
    flight: Flight<'a, '_>,
    pace: Pace,
    index: u32,
    place: Place<'a>,
    outcome: Outcome<'a>,
) -> Result<(), Unfit>
    ensures is { OnOk result ((m : Meaning) → Agrees (types_by body.now) m words.new → ReachesBy body.now m notes.now (facts_by body.now m flight.entry.known) (answers_at body.now.source flight.entry.answers) flight.entry.rank index (place_by body.now m place.entry) (outcome_by body.now m outcome.entry)) }
    ensures grows { OnOk result ((types : ℕ → Typ) (m : Meaning) → Agrees types m words.new → Agrees types m words.old) }
{
    let landing = land_ahead(
        room,
        words,
        body,
        notes,
        flight.known,
        flight.answers,
        pace,
        index,
        place,
        outcome,
    )?;
    let steps = steps_within(0, landing.lag, LONGEST)?;
    goes_on(steps, landing.rank, flight.rank)?;
    Ok(())
}

// Whether a block is left with this exception.
#[tactic(auto, using(crate::proofs::Flown::left_as))]
fn is_left(words: &Words<'_>, doing: Doing, block: Open, exception: ExceptionId) -> bool
    ensures { IsTrue result → (types : ℕ → Typ) (m : Meaning) (p : Program) (f : Func) → Agrees types m words.now → doing_of types m p f doing ≡ leaves_block (open_shown block) (throws (thrown_of m exception)) }
{
    match doing {
        Doing::LeavesBlock(own, Exit::Throws(thrown)) => {
            if !equal_opens(own, block) {
                return false;
            }
            equal_thrown(words, thrown, exception)
        }
        _ => false,
    }
}

// What the source does behind an event whose reply is the first variable.
fn behind_reply<'a>(
    room: Room<'a>,
    words: &mut Words<'a>,
    body: &Compiled<'a>,
    rest: Rest<'a>,
) -> Result<Outcome<'a>, Refusal>
    ensures is { IfOk result (λ o. (m : Meaning) → Agrees (types_by body.now) m words.new → outcome_by body.now m o ≡ given_later body.now m rest.entry) }
    ensures grows { IfOk result (λ z. (types : ℕ → Typ) (m : Meaning) → Agrees types m words.new → Agrees types m words.old) }
{
    let later = replaced_rest(room.arena, words, Replacing::Later, rest)?;
    let reply = made::variable(words, 0)?;
    let outcome = give(
        room.alloc,
        room.arena,
        words,
        &body.source,
        CaseAnswers::Unanswered,
        later.temporaries,
        reply,
        later.frames,
    )?;
    Ok(outcome)
}

/// Lands at once behind an event: its reply is the first variable.
pub fn land_behind<'a>(
    room: Room<'a>,
    words: &mut Words<'a>,
    body: &Compiled<'a>,
    notes: &Notes<'a>,
    known: Facts<'a>,
    index: u32,
    place: Place<'a>,
    rest: Rest<'a>,
) -> Result<(), Unfit>
    ensures is { OnOk result ((m : Meaning) → Agrees (types_by body.now) m words.new → BehindBy body.now m notes.now (facts_by body.now m known.entry) index (place_by body.now m place.entry) rest.entry) }
    ensures grows { OnOk result ((types : ℕ → Typ) (m : Meaning) → Agrees types m words.new → Agrees types m words.old) }
{
    let facts = replaced_facts(room.arena, words, Replacing::Later, known)?;
    let outcome = behind_reply(room, words, body, rest)?;
    land(room, words, body, notes, facts, index, place, outcome)?;
    Ok(())
}

// The blocks around the innermost one.
fn outer<'a>(opens: Opens<'a>) -> Opens<'a>
    ensures { opens_of result ≡ rest_of (opens_of opens.entry) }
{
    match opens {
        Opens::Empty => Opens::Empty,
        Opens::More(_, rest) => *rest,
    }
}

// The place behind the edge of a block.
fn edge_place<'a>(
    room: Room<'a>,
    words: &mut Words<'a>,
    place: Place<'a>,
    exception: ExceptionId,
) -> Result<Place<'a>, Refusal>
    ensures is { IfOk result (λ q. (b : CompiledBody) (m : Meaning) → Agrees (types_by b) m words.new → place_by b m q ≡ behind_edge (place_by b m place.entry) (thrown_of m exception)) }
    ensures grows { IfOk result (λ z. (types : ℕ → Typ) (m : Meaning) → Agrees types m words.new → Agrees types m words.old) }
{
    let held = holding(place, Hold::Flying(exception));
    let opened = opened_later(room.arena, words, held, outer(place.opens))?;
    Ok(opened)
}

// An exception leaves a block, and the code goes on behind this event.
fn edges<'a>(
    room: Room<'a>,
    words: &mut Words<'a>,
    body: &Compiled<'a>,
    notes: &Notes<'a>,
    flight: Flight<'a, '_>,
    block: Open,
    index: u32,
    place: Place<'a>,
    exception: ExceptionId,
    outcome: Outcome<'a>,
) -> Result<(), Unfit>
    ensures is { OnOk result ((m : Meaning) → Agrees (types_by body.now) m words.new → Edges (linked_by body.now) (func_by body.now) bounds (notes_by body.now m notes.now) (thrown_by body.now) (facts_by body.now m flight.entry.known) (answers_at body.now.source flight.entry.answers) (open_shown block) index (place_by body.now m place.entry) (thrown_of m exception) (outcome_by body.now m outcome.entry)) }
    ensures grows { OnOk result ((types : ℕ → Typ) (m : Meaning) → Agrees types m words.new → Agrees types m words.old) }
{
    let ahead = advance(
        room,
        words,
        &body.source,
        flight.answers,
        Pace::Through,
        outcome,
    )?;
    let _short = steps_within(0, ahead.steps, LONGEST)?;
    match ahead.outcome {
        Outcome::Goes(Leading::Does(doing), rest) => {
            if !is_left(words, doing, block, exception) {
                return Err(Unfit::Never);
            }
            let place = edge_place(room, words, place, exception)?;
            land_behind(room, words, body, notes, flight.known, index, place, rest)?;
            Ok(())
        }
        _ => Err(Unfit::Never),
    }
}

// Whether the exception has left the function.
fn is_out<'a>(words: &Words<'a>, outcome: Outcome<'a>, exception: ExceptionId) -> bool
    ensures { IsTrue result → (b : CompiledBody) (m : Meaning) → Agrees (types_by b) m words.now → IsOut (outcome_by b m outcome.entry) (thrown_of m exception) }
{
    match outcome {
        Outcome::GoesOut(Exit::Throws(thrown), _) => equal_thrown(words, thrown, exception),
        _ => false,
    }
}

// How many silent steps the source takes until the exception has left the function.
fn steps_out<'a>(
    room: Room<'a>,
    words: &mut Words<'a>,
    body: &Compiled<'a>,
    answers: CaseAnswers<'_>,
    most: u32,
    exception: ExceptionId,
    outcome: Outcome<'a>,
) -> Result<u32, Unfit>
    ensures is { IfOk result (λ n. (m : Meaning) → Agrees (types_by body.now) m words.new → IsOut (advanced (linked_by body.now) (func_by body.now) (answers_at body.now.source answers.entry) n (outcome_by body.now m outcome.entry)) (thrown_of m exception)) }
    ensures grows { IfOk result (λ z. (types : ℕ → Typ) (m : Meaning) → Agrees types m words.new → Agrees types m words.old) }
{
    if is_out(words, outcome, exception) {
        return Ok(0);
    }
    if most == 0 {
        return Err(Unfit::Never);
    }
    if is_still(outcome) {
        return Err(Unfit::Never);
    }
    let next = step(
        room.alloc,
        room.arena,
        words,
        &body.source,
        answers,
        outcome,
    )?;
    let steps = steps_out(room, words, body, answers, most - 1, exception, next)?;
    let more = one_more(steps)?;
    Ok(more)
}

// Whether no silent step is next.
fn is_still<'a>(outcome: Outcome<'a>) -> bool {
    match outcome {
        Outcome::Goes(Leading::Does(Doing::Silent), _) => false,
        _ => true,
    }
}

// The exception leaves the function.
fn outward<'a>(
    room: Room<'a>,
    words: &mut Words<'a>,
    body: &Compiled<'a>,
    notes: &Notes<'a>,
    answers: CaseAnswers<'_>,
    exception: ExceptionId,
    outcome: Outcome<'a>,
) -> Result<(), Unfit>
    ensures is { OnOk result ((m : Meaning) → Agrees (types_by body.now) m words.new → Outward (linked_by body.now) (func_by body.now) bounds (notes_by body.now m notes.now) (thrown_by body.now) (answers_at body.now.source answers.entry) (thrown_of m exception) (outcome_by body.now m outcome.entry)) }
    ensures grows { OnOk result ((types : ℕ → Typ) (m : Meaning) → Agrees types m words.new → Agrees types m words.old) }
{
    let steps = steps_out(room, words, body, answers, LONGEST, exception, outcome)?;
    let _short = steps_within(steps, 1, LONGEST)?;
    Ok(())
}

// How many exceptions of entered handlers there are.
fn caught_count<'a>(caught: Exceptions<'a>) -> u32 {
    match caught {
        Exceptions::Empty => 0,
        Exceptions::More(_, rest) => caught_count(*rest).saturating_add(1),
    }
}

// The row leads to a cleanup.
fn cleans<'a>(
    room: Room<'a>,
    words: &mut Words<'a>,
    body: &Compiled<'a>,
    notes: &Notes<'a>,
    flight: Flight<'a, '_>,
    target: u32,
    place: Place<'a>,
    exception: ExceptionId,
    outcome: Outcome<'a>,
) -> Result<(), Unfit>
    ensures is { OnOk result ((m : Meaning) → Agrees (types_by body.now) m words.new → RowFitsBy body.now m notes.now (facts_by body.now m flight.entry.known) (answers_at body.now.source flight.entry.answers) flight.entry.rank 0 target (place_by body.now m place.entry) (thrown_of m exception) (outcome_by body.now m outcome.entry)) }
    ensures grows { OnOk result ((types : ℕ → Typ) (m : Meaning) → Agrees types m words.new → Agrees types m words.old) }
{
    let pace = Pace::Cleanup(caught_count(place.caught));
    let held = holding(place, Hold::Flying(exception));
    reaches(
        room, words, body, notes, flight, pace, target, held, outcome,
    )?;
    Ok(())
}

// A note that is missing at a handler, with nothing known of an exception.
fn forgets<'a>(
    room: Room<'a>,
    words: &mut Words<'a>,
    body: &Compiled<'a>,
    pace: Pace,
    exception: ExceptionId,
    before: Outcome<'a>,
    unfit: Unfit,
) -> Unfit {
    match unfit {
        Unfit::Missing => {
            let Ok(Exception::Made(typ, _)) = exception_at(words, exception) else {
                return unfit;
            };
            let Some(missing) = missing_in(room) else {
                return Unfit::Never;
            };
            match forgotten(room, words, body, pace, typ, exception, before, missing) {
                Ok(note) => missed(room, note),
                Err(why) => Unfit::from(why),
            }
        }
        _ => unfit,
    }
}

// The row leads to a handler. Where a note is missing, nothing is to be known there of the exception.
fn handles<'a>(
    room: Room<'a>,
    words: &mut Words<'a>,
    body: &Compiled<'a>,
    notes: &Notes<'a>,
    flight: Flight<'a, '_>,
    target: u32,
    place: Place<'a>,
    exception: ExceptionId,
    outcome: Outcome<'a>,
) -> Result<(), Unfit>
    ensures is { OnOk result ((m : Meaning) → Agrees (types_by body.now) m words.new → RowFitsBy body.now m notes.now (facts_by body.now m flight.entry.known) (answers_at body.now.source flight.entry.answers) flight.entry.rank 1 target (place_by body.now m place.entry) (thrown_of m exception) (outcome_by body.now m outcome.entry)) }
    ensures grows { OnOk result ((types : ℕ → Typ) (m : Meaning) → Agrees types m words.new → Agrees types m words.old) }
{
    let caught = catching(room.arena, place, exception)?;
    let pace = Pace::Handler(caught_count(caught.caught));
    match reaches(
        room, words, body, notes, flight, pace, target, caught, outcome,
    ) {
        Ok(()) => Ok(()),
        Err(unfit) => Err(forgets(room, words, body, pace, exception, outcome, unfit)),
    }
}

// The row takes the exception to an index.
#[tactic(auto, using(crate::proofs::Flown::row_as))]
fn row_fits<'a>(
    room: Room<'a>,
    words: &mut Words<'a>,
    body: &Compiled<'a>,
    notes: &Notes<'a>,
    flight: Flight<'a, '_>,
    row: Row,
    place: Place<'a>,
    exception: ExceptionId,
    outcome: Outcome<'a>,
) -> Result<(), Unfit>
    ensures is { OnOk result ((m : Meaning) → Agrees (types_by body.now) m words.new → RowFitsBy body.now m notes.now (facts_by body.now m flight.entry.known) (answers_at body.now.source flight.entry.answers) flight.entry.rank row.what row.target (place_by body.now m place.entry) (thrown_of m exception) (outcome_by body.now m outcome.entry)) }
    ensures grows { OnOk result ((types : ℕ → Typ) (m : Meaning) → Agrees types m words.new → Agrees types m words.old) }
{
    match row.what {
        0 => {
            cleans(
                room, words, body, notes, flight, row.target, place, exception, outcome,
            )?;
            Ok(())
        }
        1 => {
            handles(
                room, words, body, notes, flight, row.target, place, exception, outcome,
            )?;
            Ok(())
        }
        2 => {
            handles(
                room, words, body, notes, flight, row.target, place, exception, outcome,
            )?;
            Ok(())
        }
        3 => {
            let block = Open::Atomic(BlockKind::NoExcept);
            edges(
                room, words, body, notes, flight, block, row.target, place, exception, outcome,
            )?;
            Ok(())
        }
        4 => {
            let block = Open::Atomic(BlockKind::Commit);
            edges(
                room, words, body, notes, flight, block, row.target, place, exception, outcome,
            )?;
            Ok(())
        }
        5 => {
            let block = Open::Atomic(BlockKind::Cancel);
            edges(
                room, words, body, notes, flight, block, row.target, place, exception, outcome,
            )?;
            Ok(())
        }
        6 => {
            let block = Open::Sync;
            edges(
                room, words, body, notes, flight, block, row.target, place, exception, outcome,
            )?;
            Ok(())
        }
        _ => Err(Unfit::Never),
    }
}

/// The row that was found, or none, takes the exception where the source goes.
pub(crate) fn found_fits<'a>(
    room: Room<'a>,
    words: &mut Words<'a>,
    body: &Compiled<'a>,
    notes: &Notes<'a>,
    flight: Flight<'a, '_>,
    row: Option<Row>,
    place: Place<'a>,
    exception: ExceptionId,
    outcome: Outcome<'a>,
) -> Result<(), Unfit>
    ensures is { OnOk result ((m : Meaning) → Agrees (types_by body.now) m words.new → FoundFitsBy body.now m notes.now (facts_by body.now m flight.entry.known) (answers_at body.now.source flight.entry.answers) flight.entry.rank row (place_by body.now m place.entry) (thrown_of m exception) (outcome_by body.now m outcome.entry)) }
    ensures grows { OnOk result ((types : ℕ → Typ) (m : Meaning) → Agrees types m words.new → Agrees types m words.old) }
{
    match row {
        None => {
            outward(room, words, body, notes, flight.answers, exception, outcome)?;
            Ok(())
        }
        Some(row) => {
            let Some(cut) = cut_to(row.depth, place) else {
                return Err(Unfit::Never);
            };
            row_fits(
                room, words, body, notes, flight, row, cut, exception, outcome,
            )?;
            Ok(())
        }
    }
}

// An exception of the type with this number.
fn known_flies<'a>(
    room: Room<'a>,
    words: &mut Words<'a>,
    body: &Compiled<'a>,
    notes: &Notes<'a>,
    flight: Flight<'a, '_>,
    index: u32,
    place: Place<'a>,
    typ: u32,
    exception: ExceptionId,
    outcome: Outcome<'a>,
) -> Result<(), Unfit>
    ensures is { OnOk result ((m : Meaning) → Agrees (types_by body.now) m words.new → FoundFitsBy body.now m notes.now (facts_by body.now m flight.entry.known) (answers_at body.now.source flight.entry.answers) flight.entry.rank (find (rows_by body.now) index (numbers_by body.now (types_by body.now typ))) (place_by body.now m place.entry) (thrown_of m exception) (outcome_by body.now m outcome.entry)) }
    ensures grows { OnOk result ((types : ℕ → Typ) (m : Meaning) → Agrees types m words.new → Agrees types m words.old) }
{
    let Some(ty) = body.source.types.get(typ as usize) else {
        return Err(Unfit::Untold);
    };
    let number = number_of(room.alloc, body, ty)?;
    let row = find_row(&body.body.rows, index, number);
    found_fits(
        room, words, body, notes, flight, row, place, exception, outcome,
    )?;
    Ok(())
}

// An exception of which nothing is known, where no row by type comes first.
fn all_fly<'a>(
    room: Room<'a>,
    words: &mut Words<'a>,
    body: &Compiled<'a>,
    notes: &Notes<'a>,
    flight: Flight<'a, '_>,
    index: u32,
    place: Place<'a>,
    exception: ExceptionId,
    outcome: Outcome<'a>,
) -> Result<(), Unfit>
    ensures is { OnOk result ((m : Meaning) → Agrees (types_by body.now) m words.new → (number : ℕ) → FoundFitsBy body.now m notes.now (facts_by body.now m flight.entry.known) (answers_at body.now.source flight.entry.answers) flight.entry.rank (find (rows_by body.now) index number) (place_by body.now m place.entry) (thrown_of m exception) (outcome_by body.now m outcome.entry)) }
    ensures grows { OnOk result ((types : ℕ → Typ) (m : Meaning) → Agrees types m words.new → Agrees types m words.old) }
{
    match find_for_all(&body.body.rows, index) {
        Some(row) => {
            found_fits(
                room, words, body, notes, flight, row, place, exception, outcome,
            )?;
            Ok(())
        }
        None => Err(Unfit::Never),
    }
}

// Whether a handler of the function may take what goes outward.
fn has_handlers<'a>(outcome: Outcome<'a>) -> bool {
    match outcome {
        Outcome::Goes(_, rest) => tries(rest.frames),
        _ => false,
    }
}

// An exception of which nothing is known.
fn unknown_flies<'a>(
    room: Room<'a>,
    words: &mut Words<'a>,
    body: &Compiled<'a>,
    notes: &Notes<'a>,
    unknown: Unknown<'a>,
    place: Place<'a>,
    outcome: Outcome<'a>,
) -> Result<(), Unfit>
    ensures is { OnOk result ((m : Meaning) → Agrees (types_by body.now) m words.new → FliesBy body.now m notes.now (facts_by body.now m unknown.entry.known) unknown.entry.index (place_by body.now m place.entry) (unknown_one unknown.entry.number) (outcome_by body.now m outcome.entry) unknown.entry.rank) }
    ensures grows { OnOk result ((types : ℕ → Typ) (m : Meaning) → Agrees types m words.new → Agrees types m words.old) }
{
    if MOST < unknown.rank {
        return Err(Unfit::Never);
    }
    if has_handlers(outcome) {
        cases_fit(room, words, body, notes, unknown, place, outcome)?;
        return Ok(());
    }
    let flight = Flight {
        known: unknown.known,
        answers: CaseAnswers::Unanswered,
        rank: unknown.rank,
    };
    let exception = made::unknown(words, unknown.number)?;
    all_fly(
        room,
        words,
        body,
        notes,
        flight,
        unknown.index,
        place,
        exception,
        outcome,
    )?;
    Ok(())
}

/// An exception in flight at an index, where ranks lie below this one.
pub fn flies<'a>(
    room: Room<'a>,
    words: &mut Words<'a>,
    body: &Compiled<'a>,
    notes: &Notes<'a>,
    known: Facts<'a>,
    index: u32,
    place: Place<'a>,
    exception: ExceptionId,
    outcome: Outcome<'a>,
    rank: u32,
) -> Result<(), Unfit>
    ensures is { OnOk result ((m : Meaning) → Agrees (types_by body.now) m words.new → FliesBy body.now m notes.now (facts_by body.now m known.entry) index (place_by body.now m place.entry) (thrown_of m exception) (outcome_by body.now m outcome.entry) rank) }
    ensures grows { OnOk result ((types : ℕ → Typ) (m : Meaning) → Agrees types m words.new → Agrees types m words.old) }
{
    match exception_at(words, exception)? {
        Exception::Made(typ, _) => {
            if MOST < rank {
                return Err(Unfit::Never);
            }
            let flight = Flight {
                known,
                answers: CaseAnswers::Unanswered,
                rank,
            };
            known_flies(
                room, words, body, notes, flight, index, place, typ, exception, outcome,
            )?;
            Ok(())
        }
        Exception::Unknown(number) => {
            let unknown = Unknown {
                known,
                index,
                number,
                rank,
            };
            unknown_flies(room, words, body, notes, unknown, place, outcome)?;
            Ok(())
        }
    }
}
