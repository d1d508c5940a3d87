//! What an instruction does, where the source does this next.

ghost use Rattle.std.specs.Prelude.{◌≡◌, ℕ, Bool, ◌==◌, ◌&&◌, cond, slice_get, IfOk};
ghost use Rattle.cpp_tree.specs.cpp_types.Typ.{Typ, Signature};
ghost use Rattle.cpp_tree.specs.declared.program.Program.{Program};
ghost use Rattle.src_mean.specs.Linked.{Func};
ghost use Rattle.tx_code.specs.Meaning.{kinds, operators, block_kinds};
ghost use Rattle.symbolic_source.specs.Terms.{number as number_word, local as local_word, global as global_word, function as function_word, table as table_word, converted_to};
ghost use Rattle.symbolic_source.specs.Outcomes.{Outcome as SourceNext};
ghost use Rattle.symbolic_code.specs.Same.{same_term as is_same};
ghost use Rattle.symbolic_code.specs.Following.{refused, if_found, one_of, two_of, pushes as pushes_word, loads as loads_at, stores as stores_to, operates as operates_with, begins as begins_block, puts_in as puts_into, gets_caught as gets_from, bare_address as bare_of, slots_follow as slot_follows, followed as is_followed};
ghost use Rattle.symbolic_terms.specs.Words.{term_of};
ghost use Rattle.symbolic_terms.specs.Meanings.{Meaning, Agrees, word_of, words_of, all_thrown};
ghost use Rattle.symbolic_terms.specs.Shown.{facts_of, hold_of, outcome_of, place_of};
ghost use Rattle.code_follows.specs.Names.{number_in, table_of};
ghost use Rattle.code_follows.specs.Shown.{next_of};

use crate::blocks::{begins, begins_locked, ends_atomic, ends_locked};
use crate::events::{aborts, inputs, joins, loads, outputs, spawns, stores};
use crate::exceptions::{
    gets_caught, handler_ends, makes_new, puts_in, resumes, rethrows_caught, throws_made,
};
use crate::names::{NameTable, number_named};
use crate::next::{Course, Next};
use crate::operands::{copies_lower, drops, duplicates, pushes, pushes_by, swaps};
use crate::operators::{converts, jumps_zero, operates};
use bumpalo::Bump;
use cpp_tree::below::IntKind;
use symbolic_terms::comparison::same_term;
use symbolic_terms::ids::{Terms, WordId};
use symbolic_terms::made::{function, global, local, number, slot_function, table as table_at};
use symbolic_terms::outcomes::Outcome;
use symbolic_terms::places::{Facts, Place};
use symbolic_terms::refusal::Refusal;
use symbolic_terms::terms::Term;
use symbolic_terms::words::{Words, term};
use tx_code::{Instr, block_kind, int_kind, operator};

// `push`.
fn pushes_number<'a>(
    arena: &'a Bump,
    words: &mut Words<'a>,
    index: u32,
    value: u64,
    place: Place<'a>,
) -> Result<Next<'a>, Refusal>
    ensures is { IfOk result (λ n. (types : ℕ → Typ) (m : Meaning) (o : SourceNext) → Agrees types m words.new → next_of types m n o ≡ pushes_word index (place_of types m place.entry) o (number_word value) (words_of m place.entry.operands)) }
    ensures grows { (types : ℕ → Typ) (m : Meaning) → Agrees types m words.new → Agrees types m words.old }
{
    let word = number(words, value)?;
    pushes(arena, index, place, word, place.operands)
}

// `frame`.
fn pushes_local<'a>(
    arena: &'a Bump,
    words: &mut Words<'a>,
    index: u32,
    offset: u32,
    place: Place<'a>,
) -> Result<Next<'a>, Refusal>
    ensures is { IfOk result (λ n. (types : ℕ → Typ) (m : Meaning) (o : SourceNext) → Agrees types m words.new → next_of types m n o ≡ pushes_word index (place_of types m place.entry) o (local_word offset) (words_of m place.entry.operands)) }
    ensures grows { (types : ℕ → Typ) (m : Meaning) → Agrees types m words.new → Agrees types m words.old }
{
    let word = local(words, u64::from(offset))?;
    pushes(arena, index, place, word, place.operands)
}

// `global`.
fn names_global<'a>(
    arena: &'a Bump,
    words: &mut Words<'a>,
    table: &NameTable<'a>,
    index: u32,
    name: u32,
    place: Place<'a>,
) -> Result<Next<'a>, Refusal>
    ensures is { IfOk result (λ n. (types : ℕ → Typ) (m : Meaning) (o : SourceNext) → Agrees types m words.new → next_of types m n o ≡ if_found (number_in table.now.globals.now name) (λ g. pushes_word index (place_of types m place.entry) o (global_word g) (words_of m place.entry.operands))) }
    ensures grows { (types : ℕ → Typ) (m : Meaning) → Agrees types m words.new → Agrees types m words.old }
{
    match number_named(table.globals, name) {
        Some(number) => {
            let word = global(words, number)?;
            pushes(arena, index, place, word, place.operands)
        }
        None => Ok(Next::Refused),
    }
}

// `func`.
fn names_function<'a>(
    arena: &'a Bump,
    words: &mut Words<'a>,
    table: &NameTable<'a>,
    index: u32,
    name: u32,
    place: Place<'a>,
) -> Result<Next<'a>, Refusal>
    ensures is { IfOk result (λ n. (types : ℕ → Typ) (m : Meaning) (o : SourceNext) → Agrees types m words.new → next_of types m n o ≡ if_found (number_in table.now.functions.now name) (λ g. pushes_word index (place_of types m place.entry) o (function_word g) (words_of m place.entry.operands))) }
    ensures grows { (types : ℕ → Typ) (m : Meaning) → Agrees types m words.new → Agrees types m words.old }
{
    match number_named(table.functions, name) {
        Some(number) => {
            let word = function(words, number)?;
            pushes(arena, index, place, word, place.operands)
        }
        None => Ok(Next::Refused),
    }
}

// `class`.
fn names_class<'a>(
    arena: &'a Bump,
    words: &mut Words<'a>,
    table: &NameTable<'a>,
    index: u32,
    name: u32,
    place: Place<'a>,
) -> Result<Next<'a>, Refusal>
    ensures is { IfOk result (λ n. (types : ℕ → Typ) (m : Meaning) (o : SourceNext) → Agrees types m words.new → next_of types m n o ≡ if_found (number_in table.now.classes.now name) (λ g. pushes_word index (place_of types m place.entry) o (table_word g) (words_of m place.entry.operands))) }
    ensures grows { (types : ℕ → Typ) (m : Meaning) → Agrees types m words.new → Agrees types m words.old }
{
    match number_named(table.classes, name) {
        Some(number) => {
            let word = table_at(words, number)?;
            pushes(arena, index, place, word, place.operands)
        }
        None => Ok(Next::Refused),
    }
}

// A load of the kind with this number.
fn loads_kind<'a>(
    arena: &'a Bump,
    words: &mut Words<'a>,
    index: u32,
    number: u8,
    volatile: bool,
    place: Place<'a>,
    outcome: &Outcome<'a>,
) -> Result<Next<'a>, Refusal>
    ensures is { IfOk result (λ n. (types : ℕ → Typ) (m : Meaning) (p : Program) (f : Func) → Agrees types m words.new → next_of types m n (outcome_of types m p f outcome.now) ≡ if_found (slice_get kinds number) (λ k. one_of (words_of m place.entry.operands) (λ a ws. loads_at index (place_of types m place.entry) k volatile a ws (outcome_of types m p f outcome.now)))) }
    ensures grows { (types : ℕ → Typ) (m : Meaning) → Agrees types m words.new → Agrees types m words.old }
{
    match int_kind(number) {
        Some(kind) => loads(arena, words, index, place, kind, volatile, outcome),
        None => Ok(Next::Refused),
    }
}

// A store of the kind with this number.
fn stores_kind<'a>(
    arena: &'a Bump,
    words: &mut Words<'a>,
    index: u32,
    number: u8,
    volatile: bool,
    place: Place<'a>,
    outcome: &Outcome<'a>,
) -> Result<Next<'a>, Refusal>
    ensures is { IfOk result (λ n. (types : ℕ → Typ) (m : Meaning) (p : Program) (f : Func) → Agrees types m words.new → next_of types m n (outcome_of types m p f outcome.now) ≡ if_found (slice_get kinds number) (λ k. two_of (words_of m place.entry.operands) (λ a w ws. stores_to index (place_of types m place.entry) k volatile a w ws (outcome_of types m p f outcome.now)))) }
    ensures grows { (types : ℕ → Typ) (m : Meaning) → Agrees types m words.new → Agrees types m words.old }
{
    match int_kind(number) {
        Some(kind) => stores(arena, words, index, place, kind, volatile, outcome),
        None => Ok(Next::Refused),
    }
}

// The operator and the kind with these numbers.
fn operates_kind<'a>(
    arena: &'a Bump,
    words: &mut Words<'a>,
    facts: Facts<'a>,
    index: u32,
    op: u8,
    number: u8,
    place: Place<'a>,
    outcome: &Outcome<'a>,
) -> Result<Next<'a>, Refusal>
    ensures is { IfOk result (λ n. (types : ℕ → Typ) (m : Meaning) (p : Program) (f : Func) → Agrees types m words.new → next_of types m n (outcome_of types m p f outcome.now) ≡ if_found (slice_get operators op) (λ b. if_found (slice_get kinds number) (λ k. two_of (words_of m place.entry.operands) (λ a c ws. operates_with (facts_of types m facts.entry) index (place_of types m place.entry) b k a c ws (outcome_of types m p f outcome.now))))) }
    ensures grows { (types : ℕ → Typ) (m : Meaning) → Agrees types m words.new → Agrees types m words.old }
{
    let Some(op) = operator(op) else {
        return Ok(Next::Refused);
    };
    match int_kind(number) {
        Some(kind) => operates(arena, words, facts, index, place, op, kind, outcome),
        None => Ok(Next::Refused),
    }
}

// `conv`, between the kinds with these numbers.
fn converts_kind<'a>(
    arena: &'a Bump,
    words: &mut Words<'a>,
    index: u32,
    from: u8,
    to: u8,
    place: Place<'a>,
) -> Result<Next<'a>, Refusal>
    ensures is { IfOk result (λ n. (types : ℕ → Typ) (m : Meaning) (o : SourceNext) → Agrees types m words.new → next_of types m n o ≡ cond (from == 9) (if_found (slice_get kinds to) (λ k. one_of (words_of m place.entry.operands) (λ a ws. pushes_word index (place_of types m place.entry) o (converted_to k a) ws))) refused) }
    ensures grows { (types : ℕ → Typ) (m : Meaning) → Agrees types m words.new → Agrees types m words.old }
{
    if from != 9 {
        return Ok(Next::Refused);
    }
    match int_kind(to) {
        Some(kind) => converts(arena, words, index, place, kind),
        None => Ok(Next::Refused),
    }
}

// `begin`, of the kind of block with this number.
fn begins_kind<'a>(
    arena: &'a Bump,
    words: &mut Words<'a>,
    index: u32,
    number: u8,
    place: Place<'a>,
    outcome: &Outcome<'a>,
) -> Result<Next<'a>, Refusal>
    ensures is { IfOk result (λ n. (types : ℕ → Typ) (m : Meaning) (p : Program) (f : Func) → Agrees types m words.new → next_of types m n (outcome_of types m p f outcome.now) ≡ if_found (slice_get block_kinds number) (λ kind. begins_block index (place_of types m place.entry) kind (outcome_of types m p f outcome.now))) }
    ensures grows { (types : ℕ → Typ) (m : Meaning) → Agrees types m words.new → Agrees types m words.old }
{
    match block_kind(number) {
        Some(kind) => begins(arena, words, index, place, kind, outcome),
        None => Ok(Next::Refused),
    }
}

// `xput`, of the kind with this number.
fn puts_kind<'a>(
    arena: &'a Bump,
    words: &mut Words<'a>,
    index: u32,
    offset: u8,
    number: u8,
    place: Place<'a>,
) -> Result<Next<'a>, Refusal>
    ensures is { IfOk result (λ n. (types : ℕ → Typ) (m : Meaning) (o : SourceNext) → Agrees types m words.new → next_of types m n o ≡ if_found (slice_get kinds number) (λ k. puts_into index offset k (place_of types m place.entry) o (hold_of types m place.entry.hold))) }
    ensures grows { (types : ℕ → Typ) (m : Meaning) → Agrees types m words.new → Agrees types m words.old }
{
    match int_kind(number) {
        Some(kind) => puts_in(arena, words, index, offset, kind, place),
        None => Ok(Next::Refused),
    }
}

// `xget`, of the kind with this number.
fn gets_kind<'a>(
    arena: &'a Bump,
    words: &mut Words<'a>,
    index: u32,
    offset: u8,
    number: u8,
    place: Place<'a>,
) -> Result<Next<'a>, Refusal>
    ensures is { IfOk result (λ n. (types : ℕ → Typ) (m : Meaning) (o : SourceNext) → Agrees types m words.new → next_of types m n o ≡ if_found (slice_get kinds number) (λ k. gets_from index offset k (place_of types m place.entry) o (all_thrown m place.entry.caught))) }
    ensures grows { (types : ℕ → Typ) (m : Meaning) → Agrees types m words.new → Agrees types m words.old }
{
    match int_kind(number) {
        Some(kind) => gets_caught(arena, words, index, offset, kind, place),
        None => Ok(Next::Refused),
    }
}

// What reads an address as a number reads the address.
fn bare_address<'a>(term: Term<'a>) -> Term<'a>
    ensures { (types : ℕ → Typ) → term_of types result ≡ bare_of (term_of types term.entry) }
{
    match term {
        Term::Converted(IntKind::ULong, of) => *of,
        _ => term,
    }
}

// Whether a slot is the one in which the source looks.
fn finds_same(
    words: &Words<'_>,
    class: u32,
    slot: u32,
    address: WordId,
    other_class: u32,
    other_slot: u32,
    other_address: WordId,
) -> Result<bool, Refusal>
    ensures { IfOk result (λ b. (types : ℕ → Typ) (m : Meaning) → Agrees types m words.now → b ≡ ((class == other_class) && (slot == other_slot) && is_same (bare_of (word_of m address)) (word_of m other_address))) }
{
    let bare = bare_address(term(words, address)?);
    let same_address = same_term(&bare, &term(words, other_address)?);
    Ok(class == other_class && slot == other_slot && same_address)
}

// The function in a slot of a class, of the class at this address.
fn finds_at<'a>(
    arena: &'a Bump,
    words: &mut Words<'a>,
    index: u32,
    class: u32,
    slot: u32,
    place: Place<'a>,
    address: WordId,
    below: Terms<'a>,
    outcome: &Outcome<'a>,
) -> Result<Next<'a>, Refusal>
    ensures is { IfOk result (λ n. (types : ℕ → Typ) (m : Meaning) (p : Program) (f : Func) → Agrees types m words.new → next_of types m n (outcome_of types m p f outcome.now) ≡ slot_follows index class slot (place_of types m place.entry) (word_of m address) (words_of m below.entry) (outcome_of types m p f outcome.now)) }
    ensures grows { (types : ℕ → Typ) (m : Meaning) → Agrees types m words.new → Agrees types m words.old }
{
    match outcome {
        Outcome::Finds {
            class: other_class,
            slot: other_slot,
            address: found,
            ..
        } => {
            if finds_same(
                words,
                class,
                slot,
                address,
                *other_class,
                *other_slot,
                *found,
            )? {
                let word = slot_function(arena, words, *other_class, *other_slot, *found)?;
                let course = Course::Finding {
                    class: *other_class,
                    slot: *other_slot,
                    address: *found,
                };
                pushes_by(arena, course, index, place, word, below)
            } else {
                Ok(Next::Refused)
            }
        }
        _ => Ok(Next::Refused),
    }
}

// The function in a slot of the class with this number.
fn finds<'a>(
    arena: &'a Bump,
    words: &mut Words<'a>,
    index: u32,
    class: u32,
    slot: u32,
    place: Place<'a>,
    outcome: &Outcome<'a>,
) -> Result<Next<'a>, Refusal>
    ensures is { IfOk result (λ n. (types : ℕ → Typ) (m : Meaning) (p : Program) (f : Func) → Agrees types m words.new → next_of types m n (outcome_of types m p f outcome.now) ≡ one_of (words_of m place.entry.operands) (λ a ws. slot_follows index class slot (place_of types m place.entry) a ws (outcome_of types m p f outcome.now))) }
    ensures grows { (types : ℕ → Typ) (m : Meaning) → Agrees types m words.new → Agrees types m words.old }
{
    match place.operands {
        Terms::Empty => Ok(Next::Refused),
        Terms::More(address, below) => {
            finds_at(
                arena, words, index, class, slot, place, address, *below, outcome,
            )
        }
    }
}

// `slot`.
fn finds_named<'a>(
    arena: &'a Bump,
    words: &mut Words<'a>,
    table: &NameTable<'a>,
    index: u32,
    name: u32,
    slot: u32,
    place: Place<'a>,
    outcome: &Outcome<'a>,
) -> Result<Next<'a>, Refusal>
    ensures is { IfOk result (λ n. (types : ℕ → Typ) (m : Meaning) (p : Program) (f : Func) → Agrees types m words.new → next_of types m n (outcome_of types m p f outcome.now) ≡ if_found (number_in table.now.classes.now name) (λ class. one_of (words_of m place.entry.operands) (λ a ws. slot_follows index class slot (place_of types m place.entry) a ws (outcome_of types m p f outcome.now)))) }
    ensures grows { (types : ℕ → Typ) (m : Meaning) → Agrees types m words.new → Agrees types m words.old }
{
    match number_named(table.classes, name) {
        Some(class) => finds(arena, words, index, class, slot, place, outcome),
        None => Ok(Next::Refused),
    }
}

/// What an instruction at this index does, where the source does this next.
pub fn follow<'a>(
    arena: &'a Bump,
    words: &mut Words<'a>,
    table: &NameTable<'a>,
    facts: Facts<'a>,
    index: u32,
    instr: &Instr,
    place: Place<'a>,
    outcome: &Outcome<'a>,
) -> Result<Next<'a>, Refusal>
    ensures is { IfOk result (λ n. (types : ℕ → Typ) (m : Meaning) (p : Program) (f : Func) (sigs : ℕ → Signature → Bool) (slots : ℕ → ℕ → ℕ → Bool) → Agrees types m words.new → next_of types m n (outcome_of types m p f outcome.now) ≡ is_followed (table_of types table.now sigs slots) (facts_of types m facts.entry) index instr.now (place_of types m place.entry) (outcome_of types m p f outcome.now)) }
    ensures grows { (types : ℕ → Typ) (m : Meaning) → Agrees types m words.new → Agrees types m words.old }
{
    match *instr {
        Instr::Push(value) => pushes_number(arena, words, index, value, place),
        Instr::Dup => duplicates(arena, index, place),
        Instr::Pop => drops(index, place),
        Instr::Swap => swaps(arena, index, place),
        Instr::Over => copies_lower(arena, index, place),
        Instr::FrameAddr(offset) => pushes_local(arena, words, index, offset, place),
        Instr::GlobalAddr(name) => names_global(arena, words, table, index, name, place),
        Instr::FuncAddr(name) => names_function(arena, words, table, index, name, place),
        Instr::ClassAddr(name) => names_class(arena, words, table, index, name, place),
        Instr::Load(kind) => loads_kind(arena, words, index, kind, false, place, outcome),
        Instr::TLoad(kind) => loads_kind(arena, words, index, kind, false, place, outcome),
        Instr::VLoad(kind) => loads_kind(arena, words, index, kind, true, place, outcome),
        Instr::Store(kind) => stores_kind(arena, words, index, kind, false, place, outcome),
        Instr::TStore(kind) => stores_kind(arena, words, index, kind, false, place, outcome),
        Instr::VStore(kind) => stores_kind(arena, words, index, kind, true, place, outcome),
        Instr::Bin { op, kind } => operates_kind(
            arena, words, facts, index, op, kind, place, outcome,
        ),
        Instr::Conv { from, to } => converts_kind(arena, words, index, from, to, place),
        Instr::Jump(target) => Ok(Next::Goes {
            course: Course::Quietly,
            index: target,
            place,
        }),
        Instr::JumpZero(target) => jumps_zero(words, index, target, place, outcome),
        Instr::Begin(kind) => begins_kind(arena, words, index, kind, place, outcome),
        Instr::End => ends_atomic(arena, words, index, place, outcome),
        Instr::BeginSync => begins_locked(arena, words, index, place, outcome),
        Instr::EndSync => ends_locked(arena, words, index, place, outcome),
        Instr::Out => outputs(arena, words, index, place, outcome),
        Instr::Inp => inputs(arena, words, index, place, outcome),
        Instr::Spawn => spawns(arena, words, index, place, outcome),
        Instr::Join => joins(arena, words, index, place, outcome),
        Instr::Abort => Ok(aborts(outcome)),
        Instr::NewException(name) => makes_new(words, table, index, name, place),
        Instr::PutException { offset, kind } => {
            puts_kind(arena, words, index, offset, kind, place)
        }
        Instr::Throw => throws_made(words, index, place),
        Instr::Rethrow => Ok(rethrows_caught(index, place, outcome)),
        Instr::GetException { offset, kind } => {
            gets_kind(arena, words, index, offset, kind, place)
        }
        Instr::EndHandler => handler_ends(index, place),
        Instr::Resume => Ok(resumes(index, place)),
        Instr::Slot { class, slot } => {
            finds_named(arena, words, table, index, class, slot, place, outcome)
        }
        Instr::Neg(_) | Instr::Ret(_) => Ok(Next::Refused),
        Instr::Call { .. } | Instr::TCall { .. } => Ok(Next::Refused),
        Instr::CallIndirect { .. } | Instr::TCallIndirect { .. } => Ok(Next::Refused),
    }
}
