//! What comes of an instruction that is no call and no return.

ghost use Rattle.std.specs.Prelude.{ℕ, ◌≡◌, ◌∷◌, true, IfOk, OnOk, IsTrue};
ghost use Rattle.cpp_tree.specs.cpp_types.Typ.{Typ};
ghost use Rattle.cpp_tree.specs.declared.program.Program.{Program};
ghost use Rattle.src_mean.specs.Linked.{Func};
ghost use Rattle.symbolic_terms.specs.Meanings.{Meaning, word_of, thrown_of, Agrees};
ghost use Rattle.symbolic_terms.specs.Shown.{facts_of, doing_of};
ghost use Rattle.body_check.specs.Notes.{is_loud};
ghost use Rattle.note_landing.specs.Shown.{types_by, place_by, facts_by, outcome_by, LandsOnBy};
ghost use Rattle.symbolic_code.specs.Facts.{not_zero, has_function};
ghost use Rattle.symbolic_terms.specs.declared.ids.WordId.{WordId as Word};
ghost use Rattle.tx_ints.specs.declared.kinds.BinOp.{BinOp};
ghost use Rattle.tx_ints.specs.declared.kinds.IntKind.{IntKind};
ghost use Rattle.code_follows.specs.declared.next.Course.TheVariants.{EitherWay, Chosen, UnlessTrap, Finding, Loudly, Starting, Rethrowing};
ghost use Rattle.body_notes.specs.Fits.{IsBelow, CourseBy, FitsBy, LoudBy, StartsBy, ThrowsBy, RethrowsBy, RisesBy, left_rising};

use code_follows::next::{Course, Next};
use note_landing::compiled::{Compiled, Room};
use note_landing::flights::{flies, land_behind};
use note_landing::landing::MOST;
use note_landing::notes::Notes;
use note_landing::spellings::is_thrown;
use note_landing::steps::lands_on;
use note_landing::unfit::Unfit;
use symbolic_frames::outcomes::{replaced_facts, replaced_place, replaced_rest};
use symbolic_steps::leave;
use symbolic_terms::arena::keep;
use symbolic_terms::frames::{Exit, Frame, Frames, ValueFrame};
use symbolic_terms::ids::{ExceptionId, WordId};
use symbolic_terms::made;
use symbolic_terms::outcomes::{Doing, Leading, Outcome, Rest};
use symbolic_terms::places::{Fact, Facts, Place};
use symbolic_terms::refusal::Refusal;
use symbolic_terms::replacing::Replacing;
use symbolic_terms::words::Words;

/// How many silent steps the source took before the instruction, and the note's rank.
#[derive(Clone, Copy)]
pub(crate) struct Pending {
    pub lead: u32,
    pub rank: u32,
}

/// Where the code is after an instruction, and what the source does next.
#[derive(Clone, Copy)]
pub(crate) struct After<'a> {
    pub index: u32,
    pub place: Place<'a>,
    pub outcome: Outcome<'a>,
}

// Whether it is an event, and a read is of a word at most.
fn is_event(doing: Doing) -> bool
    ensures { IsTrue result → (types : ℕ → Typ) (m : Meaning) (p : Program) (f : Func) → is_loud (doing_of types m p f doing) ≡ true }
{
    match doing {
        Doing::Silent => false,
        Doing::Reads { size, .. } => size <= 8,
        Doing::Writes { .. } | Doing::PutsOut(_) | Doing::TakesIn | Doing::Joins(_) => true,
        Doing::BeginsAtomic(_) | Doing::BeginsSync => true,
        Doing::EndsBlock(_) | Doing::LeavesBlock(..) => true,
    }
}

// The highest rank of a flight that is behind this.
fn flight_rank(pending: Pending) -> Result<u32, Unfit>
    ensures { IfOk result (λ n. IsBelow n pending) }
{
    if pending.lead != 0 {
        return Ok(MOST);
    }
    match pending.rank.checked_sub(1) {
        Some(rank) => Ok(rank),
        None => Err(Unfit::Rank(1)),
    }
}

// An event.
fn loudly<'a>(
    room: Room<'a>,
    words: &mut Words<'a>,
    body: &Compiled<'a>,
    notes: &Notes<'a>,
    known: Facts<'a>,
    doing: Doing,
    rest: Rest<'a>,
    index: u32,
    place: Place<'a>,
) -> Result<(), Unfit>
    ensures is { OnOk result ((m : Meaning) → Agrees (types_by body.now) m words.new → (p : Program) (f : Func) → LoudBy body.now m notes.now (facts_by body.now m known.entry) (doing_of (types_by body.now) m p f doing) rest.entry index (place_by body.now m place.entry)) }
    ensures grows { OnOk result ((types : ℕ → Typ) (m : Meaning) → Agrees types m words.new → Agrees types m words.old) }
{
    if !is_event(doing) {
        return Err(Unfit::Never);
    }
    land_behind(room, words, body, notes, known, index, place, rest)?;
    Ok(())
}

// A thread is started.
fn starting<'a>(
    room: Room<'a>,
    words: &mut Words<'a>,
    body: &Compiled<'a>,
    notes: &Notes<'a>,
    known: Facts<'a>,
    rest: Rest<'a>,
    index: u32,
    place: Place<'a>,
) -> Result<(), Unfit>
    ensures is { OnOk result ((m : Meaning) → Agrees (types_by body.now) m words.new → StartsBy body.now m notes.now (facts_by body.now m known.entry) rest.entry index (place_by body.now m place.entry)) }
    ensures grows { OnOk result ((types : ℕ → Typ) (m : Meaning) → Agrees types m words.new → Agrees types m words.old) }
{
    let others = keep(room.arena, rest.frames)?;
    let replied = Rest {
        temporaries: rest.temporaries,
        frames: Frames::More(Frame::Value(ValueFrame::Replied), others),
    };
    land_behind(room, words, body, notes, known, index, place, replied)?;
    Ok(())
}

// An exception is thrown.
fn throwing<'a>(
    room: Room<'a>,
    words: &mut Words<'a>,
    body: &Compiled<'a>,
    notes: &Notes<'a>,
    known: Facts<'a>,
    pending: Pending,
    exception: ExceptionId,
    index: u32,
    place: Place<'a>,
    outcome: Outcome<'a>,
) -> Result<(), Unfit>
    ensures is { OnOk result ((m : Meaning) → Agrees (types_by body.now) m words.new → ThrowsBy body.now m notes.now (facts_by body.now m known.entry) pending (thrown_of m exception) index (place_by body.now m place.entry) (outcome_by body.now m outcome.entry)) }
    ensures grows { OnOk result ((types : ℕ → Typ) (m : Meaning) → Agrees types m words.new → Agrees types m words.old) }
{
    if !is_thrown(room.alloc, words, body, exception)? {
        return Err(Unfit::Never);
    }
    let rank = flight_rank(pending)?;
    flies(
        room, words, body, notes, known, index, place, exception, outcome, rank,
    )?;
    Ok(())
}

// What the source does where an exception comes from elsewhere: the first unknown one.
fn risen<'a>(
    room: Room<'a>,
    words: &mut Words<'a>,
    body: &Compiled<'a>,
    rest: Rest<'a>,
) -> Result<Outcome<'a>, Refusal>
    ensures is { IfOk result (λ o. (m : Meaning) → Agrees (types_by body.now) m words.new → outcome_by body.now m o ≡ left_rising body.now m rest.entry) }
    ensures grows { IfOk result (λ z. (types : ℕ → Typ) (m : Meaning) → Agrees types m words.new → Agrees types m words.old) }
{
    let others = replaced_rest(room.arena, words, Replacing::Rising, rest)?;
    let unknown = made::unknown(words, 0)?;
    let outcome = leave(
        room.arena,
        words,
        &body.source,
        others.temporaries,
        Exit::Throws(unknown),
        others.frames,
    )?;
    Ok(outcome)
}

/// An exception comes from elsewhere: the first unknown one.
pub(crate) fn rises<'a>(
    room: Room<'a>,
    words: &mut Words<'a>,
    body: &Compiled<'a>,
    notes: &Notes<'a>,
    known: Facts<'a>,
    index: u32,
    place: Place<'a>,
    rest: Rest<'a>,
    rank: u32,
) -> Result<(), Unfit>
    ensures is { OnOk result ((m : Meaning) → Agrees (types_by body.now) m words.new → RisesBy body.now m notes.now (facts_by body.now m known.entry) index (place_by body.now m place.entry) rest.entry rank) }
    ensures grows { OnOk result ((types : ℕ → Typ) (m : Meaning) → Agrees types m words.new → Agrees types m words.old) }
{
    let facts = replaced_facts(room.arena, words, Replacing::Rising, known)?;
    let place = replaced_place(room.arena, words, Replacing::Rising, place)?;
    let outcome = risen(room, words, body, rest)?;
    let unknown = made::unknown(words, 0)?;
    flies(
        room, words, body, notes, facts, index, place, unknown, outcome, rank,
    )?;
    Ok(())
}

// What a caller's handler has is thrown again.
fn rethrowing<'a>(
    room: Room<'a>,
    words: &mut Words<'a>,
    body: &Compiled<'a>,
    notes: &Notes<'a>,
    known: Facts<'a>,
    pending: Pending,
    rest: Rest<'a>,
    index: u32,
    place: Place<'a>,
) -> Result<(), Unfit>
    ensures is { OnOk result ((m : Meaning) → Agrees (types_by body.now) m words.new → RethrowsBy body.now m notes.now (facts_by body.now m known.entry) pending rest.entry index (place_by body.now m place.entry)) }
    ensures grows { OnOk result ((types : ℕ → Typ) (m : Meaning) → Agrees types m words.new → Agrees types m words.old) }
{
    let rank = flight_rank(pending)?;
    rises(room, words, body, notes, known, index, place, rest, rank)?;
    Ok(())
}

// A silent step.
fn quietly<'a>(
    room: Room<'a>,
    words: &mut Words<'a>,
    body: &Compiled<'a>,
    notes: &Notes<'a>,
    known: Facts<'a>,
    pending: Pending,
    index: u32,
    place: Place<'a>,
    outcome: Outcome<'a>,
) -> Result<(), Unfit>
    ensures is { OnOk result ((m : Meaning) → Agrees (types_by body.now) m words.new → LandsOnBy body.now m notes.now (facts_by body.now m known.entry) pending.lead pending.rank index (place_by body.now m place.entry) (outcome_by body.now m outcome.entry)) }
    ensures grows { OnOk result ((types : ℕ → Typ) (m : Meaning) → Agrees types m words.new → Agrees types m words.old) }
{
    lands_on(
        room,
        words,
        body,
        notes,
        known,
        pending.lead,
        pending.rank,
        index,
        place,
        outcome,
    )?;
    Ok(())
}

// A word is not 0.
fn with_word<'a>(room: Room<'a>, known: Facts<'a>, word: WordId) -> Result<Facts<'a>, Refusal>
    ensures { IfOk result (λ ks. (types : ℕ → Typ) (m : Meaning) → facts_of types m ks ≡ (not_zero (word_of m word) ∷ facts_of types m known.entry)) }
{
    Ok(Facts::More(Fact::NotZero(word), keep(room.arena, known)?))
}

// A word is 0 or not.
fn either_way<'a>(
    room: Room<'a>,
    words: &mut Words<'a>,
    body: &Compiled<'a>,
    notes: &Notes<'a>,
    known: Facts<'a>,
    pending: Pending,
    word: WordId,
    target: u32,
    after: After<'a>,
) -> Result<(), Unfit>
    ensures is { OnOk result ((m : Meaning) → Agrees (types_by body.now) m words.new → CourseBy body.now m notes.now (facts_by body.now m known.entry) pending (EitherWay word target) after.entry.index (place_by body.now m after.entry.place) (outcome_by body.now m after.entry.outcome)) }
    ensures grows { OnOk result ((types : ℕ → Typ) (m : Meaning) → Agrees types m words.new → Agrees types m words.old) }
{
    quietly(
        room,
        words,
        body,
        notes,
        known,
        pending,
        target,
        after.place,
        after.outcome,
    )?;
    let more = with_word(room, known, word)?;
    quietly(
        room,
        words,
        body,
        notes,
        more,
        pending,
        after.index,
        after.place,
        after.outcome,
    )?;
    Ok(())
}

// The same, where the source chooses by it.
fn chosen<'a>(
    room: Room<'a>,
    words: &mut Words<'a>,
    body: &Compiled<'a>,
    notes: &Notes<'a>,
    known: Facts<'a>,
    pending: Pending,
    word: WordId,
    target: u32,
    after: After<'a>,
) -> Result<(), Unfit>
    ensures is { OnOk result ((m : Meaning) → Agrees (types_by body.now) m words.new → CourseBy body.now m notes.now (facts_by body.now m known.entry) pending (Chosen word target) after.entry.index (place_by body.now m after.entry.place) (outcome_by body.now m after.entry.outcome)) }
    ensures grows { OnOk result ((types : ℕ → Typ) (m : Meaning) → Agrees types m words.new → Agrees types m words.old) }
{
    match after.outcome {
        Outcome::Chooses { zero, other, .. } => {
            quietly(
                room,
                words,
                body,
                notes,
                known,
                pending,
                target,
                after.place,
                *zero,
            )?;
            let more = with_word(room, known, word)?;
            quietly(
                room,
                words,
                body,
                notes,
                more,
                pending,
                after.index,
                after.place,
                *other,
            )?;
            Ok(())
        }
        _ => Err(Unfit::Never),
    }
}

// A slot has a function.
fn with_function<'a>(
    room: Room<'a>,
    known: Facts<'a>,
    class: u32,
    slot: u32,
    address: WordId,
) -> Result<Facts<'a>, Refusal>
    ensures { IfOk result (λ ks. (types : ℕ → Typ) (m : Meaning) → facts_of types m ks ≡ (has_function class slot (word_of m address) ∷ facts_of types m known.entry)) }
{
    let fact = Fact::HasFunction {
        class,
        slot,
        address,
    };
    Ok(Facts::More(fact, keep(room.arena, known)?))
}

// A slot has a function, where the source looks for it too.
fn finding<'a>(
    room: Room<'a>,
    words: &mut Words<'a>,
    body: &Compiled<'a>,
    notes: &Notes<'a>,
    known: Facts<'a>,
    pending: Pending,
    class: u32,
    slot: u32,
    address: WordId,
    after: After<'a>,
) -> Result<(), Unfit>
    ensures is { OnOk result ((m : Meaning) → Agrees (types_by body.now) m words.new → CourseBy body.now m notes.now (facts_by body.now m known.entry) pending (Finding class slot address) after.entry.index (place_by body.now m after.entry.place) (outcome_by body.now m after.entry.outcome)) }
    ensures grows { OnOk result ((types : ℕ → Typ) (m : Meaning) → Agrees types m words.new → Agrees types m words.old) }
{
    match after.outcome {
        Outcome::Finds { then, .. } => {
            let more = with_function(room, known, class, slot, address)?;
            quietly(
                room,
                words,
                body,
                notes,
                more,
                pending,
                after.index,
                after.place,
                *then,
            )?;
            Ok(())
        }
        _ => Err(Unfit::Never),
    }
}

// An operator that does not trap, where the source applies it too.
fn unless_trap<'a>(
    room: Room<'a>,
    words: &mut Words<'a>,
    body: &Compiled<'a>,
    notes: &Notes<'a>,
    known: Facts<'a>,
    pending: Pending,
    after: After<'a>,
) -> Result<(), Unfit>
    ensures is { OnOk result ((m : Meaning) → Agrees (types_by body.now) m words.new → (op : BinOp) (kind : IntKind) (left right : Word) → CourseBy body.now m notes.now (facts_by body.now m known.entry) pending (UnlessTrap op kind left right) after.entry.index (place_by body.now m after.entry.place) (outcome_by body.now m after.entry.outcome)) }
    ensures grows { OnOk result ((types : ℕ → Typ) (m : Meaning) → Agrees types m words.new → Agrees types m words.old) }
{
    match after.outcome {
        Outcome::Results { then, .. } => {
            quietly(
                room,
                words,
                body,
                notes,
                known,
                pending,
                after.index,
                after.place,
                *then,
            )?;
            Ok(())
        }
        _ => Err(Unfit::Never),
    }
}

// An event, where the source has one.
fn does<'a>(
    room: Room<'a>,
    words: &mut Words<'a>,
    body: &Compiled<'a>,
    notes: &Notes<'a>,
    known: Facts<'a>,
    pending: Pending,
    after: After<'a>,
) -> Result<(), Unfit>
    ensures is { OnOk result ((m : Meaning) → Agrees (types_by body.now) m words.new → CourseBy body.now m notes.now (facts_by body.now m known.entry) pending Loudly after.entry.index (place_by body.now m after.entry.place) (outcome_by body.now m after.entry.outcome)) }
    ensures grows { OnOk result ((types : ℕ → Typ) (m : Meaning) → Agrees types m words.new → Agrees types m words.old) }
{
    match after.outcome {
        Outcome::Goes(Leading::Does(doing), rest) => {
            let index = after.index;
            loudly(
                room,
                words,
                body,
                notes,
                known,
                doing,
                rest,
                index,
                after.place,
            )?;
            Ok(())
        }
        _ => Err(Unfit::Never),
    }
}

// A thread, where the source starts one.
fn starts<'a>(
    room: Room<'a>,
    words: &mut Words<'a>,
    body: &Compiled<'a>,
    notes: &Notes<'a>,
    known: Facts<'a>,
    pending: Pending,
    after: After<'a>,
) -> Result<(), Unfit>
    ensures is { OnOk result ((m : Meaning) → Agrees (types_by body.now) m words.new → CourseBy body.now m notes.now (facts_by body.now m known.entry) pending Starting after.entry.index (place_by body.now m after.entry.place) (outcome_by body.now m after.entry.outcome)) }
    ensures grows { OnOk result ((types : ℕ → Typ) (m : Meaning) → Agrees types m words.new → Agrees types m words.old) }
{
    match after.outcome {
        Outcome::Goes(Leading::Spawns { .. }, rest) => {
            starting(
                room,
                words,
                body,
                notes,
                known,
                rest,
                after.index,
                after.place,
            )?;
            Ok(())
        }
        _ => Err(Unfit::Never),
    }
}

// What a caller's handler has, where the source asks for it.
fn rethrows<'a>(
    room: Room<'a>,
    words: &mut Words<'a>,
    body: &Compiled<'a>,
    notes: &Notes<'a>,
    known: Facts<'a>,
    pending: Pending,
    after: After<'a>,
) -> Result<(), Unfit>
    ensures is { OnOk result ((m : Meaning) → Agrees (types_by body.now) m words.new → CourseBy body.now m notes.now (facts_by body.now m known.entry) pending Rethrowing after.entry.index (place_by body.now m after.entry.place) (outcome_by body.now m after.entry.outcome)) }
    ensures grows { OnOk result ((types : ℕ → Typ) (m : Meaning) → Agrees types m words.new → Agrees types m words.old) }
{
    match after.outcome {
        Outcome::Goes(Leading::Rethrows, rest) => {
            let index = after.index;
            rethrowing(
                room,
                words,
                body,
                notes,
                known,
                pending,
                rest,
                index,
                after.place,
            )?;
            Ok(())
        }
        _ => Err(Unfit::Never),
    }
}

// What an instruction does fits.
fn course_fits<'a>(
    room: Room<'a>,
    words: &mut Words<'a>,
    body: &Compiled<'a>,
    notes: &Notes<'a>,
    known: Facts<'a>,
    pending: Pending,
    course: Course,
    after: After<'a>,
) -> Result<(), Unfit>
    ensures is { OnOk result ((m : Meaning) → Agrees (types_by body.now) m words.new → CourseBy body.now m notes.now (facts_by body.now m known.entry) pending course after.entry.index (place_by body.now m after.entry.place) (outcome_by body.now m after.entry.outcome)) }
    ensures grows { OnOk result ((types : ℕ → Typ) (m : Meaning) → Agrees types m words.new → Agrees types m words.old) }
{
    match course {
        Course::Quietly => {
            let index = after.index;
            let place = after.place;
            quietly(
                room,
                words,
                body,
                notes,
                known,
                pending,
                index,
                place,
                after.outcome,
            )?;
            Ok(())
        }
        Course::UnlessTrap { .. } => {
            unless_trap(room, words, body, notes, known, pending, after)?;
            Ok(())
        }
        Course::EitherWay { word, target } => {
            either_way(
                room, words, body, notes, known, pending, word, target, after,
            )?;
            Ok(())
        }
        Course::Chosen { word, target } => {
            chosen(
                room, words, body, notes, known, pending, word, target, after,
            )?;
            Ok(())
        }
        Course::Finding {
            class,
            slot,
            address,
        } => {
            finding(
                room, words, body, notes, known, pending, class, slot, address, after,
            )?;
            Ok(())
        }
        Course::Throwing(exception) => {
            let index = after.index;
            let place = after.place;
            let outcome = after.outcome;
            throwing(
                room, words, body, notes, known, pending, exception, index, place, outcome,
            )?;
            Ok(())
        }
        Course::Loudly => {
            does(room, words, body, notes, known, pending, after)?;
            Ok(())
        }
        Course::Starting => {
            starts(room, words, body, notes, known, pending, after)?;
            Ok(())
        }
        Course::Rethrowing => {
            rethrows(room, words, body, notes, known, pending, after)?;
            Ok(())
        }
    }
}

/// What comes of an instruction fits, where the source does this next.
pub(crate) fn fits<'a>(
    room: Room<'a>,
    words: &mut Words<'a>,
    body: &Compiled<'a>,
    notes: &Notes<'a>,
    known: Facts<'a>,
    pending: Pending,
    next: Next<'a>,
    outcome: Outcome<'a>,
) -> Result<(), Unfit>
    ensures is { OnOk result ((m : Meaning) → Agrees (types_by body.now) m words.new → FitsBy body.now m notes.now (facts_by body.now m known.entry) pending next.entry (outcome_by body.now m outcome.entry)) }
    ensures grows { OnOk result ((types : ℕ → Typ) (m : Meaning) → Agrees types m words.new → Agrees types m words.old) }
{
    match next {
        Next::Refused => Err(Unfit::Never),
        Next::Goes {
            course,
            index,
            place,
        } => {
            let after = After {
                index,
                place,
                outcome,
            };
            course_fits(room, words, body, notes, known, pending, course, after)?;
            Ok(())
        }
        Next::Ends(_) => Ok(()),
    }
}
