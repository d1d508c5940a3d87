//! What is called, with its words.

ghost use Rattle.std.specs.Prelude.{◌≡◌, ℕ, Bool, List, Some, None, true, IfOk, IfSome, MatchOption, OnOk, IsTrue};
ghost use Rattle.cpp_tree.specs.cpp_types.Typ.{Typ};
ghost use Rattle.cpp_tree.specs.declared.program.Program.{Program};
ghost use Rattle.symbolic_source.specs.Frames.{known as known_func};
ghost use Rattle.symbolic_terms.specs.Meanings.{Meaning, word_of, words_of, Agrees};
ghost use Rattle.symbolic_terms.specs.Shown.{facts_of, callee_of};
ghost use Rattle.symbolic_leaving.specs.Source.{units_of};
ghost use Rattle.body_check.specs.Notes.{Note};
ghost use Rattle.body_check.specs.Calls.{taken_off};
ghost use Rattle.note_landing.specs.declared.notes.Notes.{Notes};
ghost use Rattle.note_landing.specs.Shown.{types_by, image_by, linked_by, place_by, facts_by, outcome_by, table_by};
ghost use Rattle.image_links.specs.Books.{func_gives as gives_so, func_of as func_so};
ghost use Rattle.body_notes.specs.Callees.{PointsTo, IsInSlot, IsSlotFunction, FoundBy, CallsBy, CallsFoundBy};

use crate::calls::{Ends, behind};
use code_walk::words::gives_of;
use image_links::calls::{func_gives, func_takes, pointed_pass, slotted_pass};
use image_links::tables::{is_signature, is_slot};
use note_landing::cases::text_at;
use note_landing::compiled::{Compiled, Room};
use note_landing::notes::Notes;
use note_landing::unfit::Unfit;
use src_frames::texts::called_text;
use src_frames::trees::TreeAt;
use std::alloc::AllocError;
use symbolic_frames::known::is_among;
use symbolic_frames::places::with_operands;
use symbolic_leaving::source::number_of;
use symbolic_terms::arena::keep;
use symbolic_terms::comparison::{equal_lists, equal_words};
use symbolic_terms::frames::Callee;
use symbolic_terms::ids::{Terms, WordId};
use symbolic_terms::made;
use symbolic_terms::outcomes::{Leading, Outcome};
use symbolic_terms::places::{Fact, Facts, Place};
use symbolic_terms::refusal::Refusal;
use symbolic_terms::words::Words;

/// The words of a call, and what is under them.
#[derive(Clone, Copy)]
pub(crate) struct TakenOff<'a> {
    pub words: Terms<'a>,
    pub under: Terms<'a>,
}

// Takes so many words off, in front of those that have been taken off.
#[tactic(auto, using(crate::proofs::Called::taken_more))]
fn taken_off<'a>(
    room: Room<'a>,
    count: u8,
    operands: Terms<'a>,
    taken: Terms<'a>,
) -> Result<Option<TakenOff<'a>>, Refusal>
    ensures { IfOk result (λ o. IfSome o (λ t. (types : ℕ → Typ) (m : Meaning) → taken_off count (words_of m operands.entry) (words_of m taken.entry) ≡ Some (words_of m t.words, words_of m t.under))) }
{
    if count == 0 {
        return Ok(Some(TakenOff {
            words: taken,
            under: operands,
        }));
    }
    match operands {
        Terms::Empty => Ok(None),
        Terms::More(word, rest) => {
            let more = Terms::More(word, keep(room.arena, taken)?);
            match taken_off(room, count - 1, *rest, more)? {
                Some(taken) => Ok(Some(taken)),
                None => Ok(None),
            }
        }
    }
}

// Whether this is the function with the number.
fn is_known(callee: Callee, number: u32) -> bool
    ensures { IsTrue result → (types : ℕ → Typ) (m : Meaning) (p : Program) → callee_of types m p callee ≡ known_func number }
{
    match callee {
        Callee::Known(known) => known == number,
        _ => false,
    }
}

// What a function of the unit hands back, and whether it lets no exception out.
fn ends_of<'a>(body: &Compiled<'a>, number: u32) -> Ends
    ensures gives { result.gives ≡ gives_so (image_by body.now) number }
    ensures stops { result.stops ≡ (func_so (linked_by body.now) number).stops }
{
    Ends {
        gives: func_gives(body.image, number),
        stops: has_stops(body, number),
    }
}

// Whether a function lets no exception out.
fn has_stops<'a>(body: &Compiled<'a>, number: u32) -> bool
    ensures { result ≡ (func_so (linked_by body.now) number).stops }
{
    match body.source.bound.info(number) {
        Some(info) => info.stops,
        None => false,
    }
}

/// A call of a function of the unit by its name.
pub(crate) fn calling<'a>(
    room: Room<'a>,
    words: &mut Words<'a>,
    body: &Compiled<'a>,
    notes: &Notes<'a>,
    known: Facts<'a>,
    index: u32,
    place: Place<'a>,
    outcome: Outcome<'a>,
    callee: u32,
    count: u8,
) -> Result<(), Unfit>
    ensures is { OnOk result ((m : Meaning) → Agrees (types_by body.now) m words.new → (name : ℕ) (all : ℕ → Bool → List Note) (types : ℕ → Bool → List Typ) → (table_by body.now).function_of name ≡ Some callee → CallsBy body.now m notes.now (facts_by body.now m known.entry) index (place_by body.now m place.entry) (outcome_by body.now m outcome.entry) name count callee all types) }
    ensures grows { OnOk result ((types : ℕ → Typ) (m : Meaning) → Agrees types m words.new → Agrees types m words.old) }
{
    let number = number_of(&body.source, callee);
    let Outcome::Goes(
        Leading::Calls {
            callee: called,
            words: own,
        },
        rest,
    ) = outcome
    else {
        return Err(Unfit::Never);
    };
    if !is_known(called, number) {
        return Err(Unfit::Never);
    }
    if func_takes(body.source.bound, number) != count as usize {
        return Err(Unfit::Never);
    }
    let Some(taken) = taken_off(room, count, place.operands, Terms::Empty)? else {
        return Err(Unfit::Never);
    };
    if !equal_lists(words, &taken.words, &own) {
        return Err(Unfit::Never);
    }
    let under = with_operands(place, taken.under);
    let ends = ends_of(body, number);
    behind(room, words, body, notes, known, index, ends, under, rest)?;
    Ok(())
}

// Whether the functions of a pointer's type, which has this name, take so many words and hand one back or none.
fn points_to<'a>(
    room: Room<'a>,
    body: &Compiled<'a>,
    name: u32,
    count: u8,
    pointer: TreeAt,
    gives: bool,
) -> Result<bool, AllocError>
    ensures { IfOk result (λ b. b ≡ true → PointsTo body.now name count pointer gives) }
{
    let text = called_text(room.alloc, body.source.bound, pointer)?;
    if !is_signature(body.image, body.source.bound, name, &text)? {
        return Ok(false);
    }
    let all = pointed_pass(body.image, body.source.bound, &text, count as usize, gives)?;
    Ok(all)
}

// Whether the functions in a slot, whose type has this name, take so many words and hand one back or none.
fn is_in_slot<'a>(
    body: &Compiled<'a>,
    name: u32,
    count: u8,
    class: u32,
    slot: u32,
    gives: bool,
) -> Result<bool, AllocError>
    ensures { IfOk result (λ b. b ≡ true → IsInSlot body.now name count class slot gives) }
{
    if !is_slot(body.image, body.source.bound, name, class, slot)? {
        return Ok(false);
    }
    let all = slotted_pass(
        body.image,
        body.source.bound,
        class,
        slot,
        count as usize,
        gives,
    )?;
    Ok(all)
}

// Whether it is known that the slot of the class at this address has a function, and the operand is its address.
fn is_slot_function<'a>(
    room: Room<'a>,
    words: &mut Words<'a>,
    known: Facts<'a>,
    operand: WordId,
    class: u32,
    slot: u32,
    address: WordId,
) -> Result<bool, Refusal>
    ensures is { IfOk result (λ b. b ≡ true → (types : ℕ → Typ) (m : Meaning) → Agrees types m words.new → IsSlotFunction (facts_of types m known.entry) (word_of m operand) class slot (word_of m address)) }
    ensures grows { IfOk result (λ z. (types : ℕ → Typ) (m : Meaning) → Agrees types m words.new → Agrees types m words.old) }
{
    let function = made::slot_function(room.arena, words, class, slot, address)?;
    if !equal_words(words, operand, function) {
        return Ok(false);
    }
    let fact = Fact::HasFunction {
        class,
        slot,
        address,
    };
    Ok(is_among(words, &fact, &known))
}

// Whether an operand finds functions that take so many words and hand one back or none.
fn finds<'a>(
    room: Room<'a>,
    words: &mut Words<'a>,
    body: &Compiled<'a>,
    known: Facts<'a>,
    name: u32,
    count: u8,
    operand: WordId,
    callee: Callee,
    gives: bool,
) -> Result<bool, Refusal>
    ensures is { IfOk result (λ b. b ≡ true → (m : Meaning) → Agrees (types_by body.now) m words.new → (ns : Notes) → FoundBy body.now m ns (facts_by body.now m known.entry) name (word_of m operand) (callee_of (types_by body.now) m (units_of body.now.source) callee) count gives) }
    ensures grows { IfOk result (λ z. (types : ℕ → Typ) (m : Meaning) → Agrees types m words.new → Agrees types m words.old) }
{
    match callee {
        Callee::Pointer { address, pointer } => {
            if !equal_words(words, operand, address) {
                return Ok(false);
            }
            let points = points_to(room, body, name, count, pointer, gives)?;
            Ok(points)
        }
        Callee::Virtual {
            class,
            slot,
            address,
        } => {
            if !is_slot_function(room, words, known, operand, class, slot, address)? {
                return Ok(false);
            }
            let is_there = is_in_slot(body, name, count, class, slot, gives)?;
            Ok(is_there)
        }
        _ => Ok(false),
    }
}

/// A call by an address.
pub(crate) fn calling_found<'a>(
    room: Room<'a>,
    words: &mut Words<'a>,
    body: &Compiled<'a>,
    notes: &Notes<'a>,
    known: Facts<'a>,
    index: u32,
    place: Place<'a>,
    outcome: Outcome<'a>,
    name: u32,
    count: u8,
) -> Result<(), Unfit>
    ensures is { OnOk result ((m : Meaning) → Agrees (types_by body.now) m words.new → (all : ℕ → Bool → List Note) (types : ℕ → Bool → List Typ) → CallsFoundBy body.now m notes.now (facts_by body.now m known.entry) index (place_by body.now m place.entry) (outcome_by body.now m outcome.entry) name count all types) }
    ensures grows { OnOk result ((types : ℕ → Typ) (m : Meaning) → Agrees types m words.new → Agrees types m words.old) }
{
    let Outcome::Goes(Leading::Calls { callee, words: own }, rest) = outcome else {
        return Err(Unfit::Never);
    };
    let Some(taken) = taken_off(room, count, place.operands, Terms::Empty)? else {
        return Err(Unfit::Never);
    };
    if !equal_lists(words, &taken.words, &own) {
        return Err(Unfit::Never);
    }
    let Terms::More(address, others) = taken.under else {
        return Err(Unfit::Never);
    };
    let gives = gives_of(text_at(body.image, name)) == 1;
    if !finds(
        room, words, body, known, name, count, address, callee, gives,
    )? {
        return Err(Unfit::Never);
    }
    let ends = Ends {
        gives,
        stops: false,
    };
    let under = with_operands(place, *others);
    behind(room, words, body, notes, known, index, ends, under, rest)?;
    Ok(())
}
