//! Instructions on exceptions.

ghost use Rattle.std.specs.Prelude.{ℕ, ◌≡◌, ◌+◌, ◌==◌, ◌&&◌, ◌||◌, nat_le, [], option_map, IfOk};
ghost use Rattle.cpp_tree.specs.declared.program.Program.{Program};
ghost use Rattle.cpp_tree.specs.cpp_types.Typ.{Typ};
ghost use Rattle.src_mean.specs.Linked.{Func};
ghost use Rattle.tx_code.specs.Meaning.{size_of};
ghost use Rattle.symbolic_source.specs.Terms.{untouched as untouched_yet};
ghost use Rattle.symbolic_source.specs.Outcomes.{Outcome as SourceNext};
ghost use Rattle.symbolic_code.specs.Places.{nothing, making as makes, holding as held};
ghost use Rattle.symbolic_code.specs.Following.{quietly, throwing, if_found, puts_in as puts_into, throws_made as throws_what, resumes as resumes_with, rethrows_caught as rethrows_what, was_put as put_at, put_in as found_put, read_as as reads_as, taken_word as word_taken, gets_caught as gets_from, handler_ends as ends_at};
ghost use Rattle.symbolic_terms.specs.Words.{term_of, exception_of, puts_of};
ghost use Rattle.symbolic_terms.specs.Meanings.{Meaning, Agrees, word_of, thrown_of, given_of, all_thrown};
ghost use Rattle.symbolic_terms.specs.Shown.{outcome_of, hold_of, place_of};
ghost use Rattle.code_follows.specs.Names.{number_in};
ghost use Rattle.code_follows.specs.Shown.{next_of};

use crate::events::is_bool;
use crate::names::{NameTable, number_named};
use crate::next::{Course, Next};
use crate::operands::{goes_by, pushes};
use bumpalo::Bump;
use cpp_tree::below::IntKind;
use symbolic_terms::arena::keep;
use symbolic_terms::ids::{ExceptionId, Exceptions, PutsId, Terms, WordId};
use symbolic_terms::made::{made_of, put, untouched};
use symbolic_terms::outcomes::{Leading, Outcome};
use symbolic_terms::places::{Hold, Place};
use symbolic_terms::refusal::Refusal;
use symbolic_terms::terms::{Exception, Puts, Term};
use symbolic_terms::words::{Words, exception, made};
use tx_code::size;

/// `xnew`.
pub fn makes_new<'a>(
    words: &mut Words<'a>,
    table: &NameTable<'a>,
    index: u32,
    name: u32,
    place: Place<'a>,
) -> Result<Next<'a>, Refusal>
    ensures is { IfOk result (λ n. (types : ℕ → Typ) (m : Meaning) (o : SourceNext) → Agrees types m words.new → next_of types m n o ≡ if_found (option_map types (number_in table.now.types.now name)) (λ (t : Typ). quietly (index + 1) (held (place_of types m place.entry) (makes t untouched_yet)) o)) }
    ensures grows { (types : ℕ → Typ) (m : Meaning) → Agrees types m words.new → Agrees types m words.old }
{
    match number_named(table.types, name) {
        Some(typ) => {
            let hold = Hold::Making(typ, untouched(words)?);
            goes_by(Course::Quietly, index, Place { hold, ..place })
        }
        None => Ok(Next::Refused),
    }
}

// A word is put into an exception of this type that has these already.
fn puts_word<'a>(
    arena: &'a Bump,
    words: &mut Words<'a>,
    index: u32,
    offset: u8,
    kind: IntKind,
    place: Place<'a>,
    typ: u32,
    others: PutsId,
) -> Result<Next<'a>, Refusal>
    ensures is { IfOk result (λ n. (types : ℕ → Typ) (m : Meaning) (o : SourceNext) → Agrees types m words.new → next_of types m n o ≡ puts_into index offset kind (place_of types m place.entry) o (makes (types typ) (given_of m others))) }
    ensures grows { (types : ℕ → Typ) (m : Meaning) → Agrees types m words.new → Agrees types m words.old }
{
    if is_bool(kind) {
        return Ok(Next::Refused);
    }
    match place.operands {
        Terms::Empty => Ok(Next::Refused),
        Terms::More(word, below) => {
            let size = u32::from(size(kind));
            let puts = put(arena, words, u32::from(offset), size, word, others)?;
            let after = Place {
                operands: *below,
                hold: Hold::Making(typ, puts),
                ..place
            };
            goes_by(Course::Quietly, index, after)
        }
    }
}

/// `xput`.
pub fn puts_in<'a>(
    arena: &'a Bump,
    words: &mut Words<'a>,
    index: u32,
    offset: u8,
    kind: IntKind,
    place: Place<'a>,
) -> Result<Next<'a>, Refusal>
    ensures is { IfOk result (λ n. (types : ℕ → Typ) (m : Meaning) (o : SourceNext) → Agrees types m words.new → next_of types m n o ≡ puts_into index offset kind (place_of types m place.entry) o (hold_of types m place.entry.hold)) }
    ensures grows { (types : ℕ → Typ) (m : Meaning) → Agrees types m words.new → Agrees types m words.old }
{
    match place.hold {
        Hold::Making(typ, others) => {
            puts_word(arena, words, index, offset, kind, place, typ, others)
        }
        Hold::Nothing | Hold::Flying(_) => Ok(Next::Refused),
    }
}

// An exception is in flight, and the frame has none of its own.
fn throws<'a>(index: u32, place: Place<'a>, exception: ExceptionId) -> Next<'a>
    ensures { (types : ℕ → Typ) (m : Meaning) (o : SourceNext) → next_of types m result o ≡ throwing (thrown_of m exception) index (held (place_of types m place.entry) nothing) o }
{
    Next::Goes {
        course: Course::Throwing(exception),
        index,
        place: Place {
            hold: Hold::Nothing,
            ..place
        },
    }
}

/// `throw`.
pub fn throws_made<'a>(
    words: &mut Words<'a>,
    index: u32,
    place: Place<'a>,
) -> Result<Next<'a>, Refusal>
    ensures is { IfOk result (λ n. (types : ℕ → Typ) (m : Meaning) (o : SourceNext) → Agrees types m words.new → next_of types m n o ≡ throws_what index (place_of types m place.entry) o (hold_of types m place.entry.hold)) }
    ensures grows { (types : ℕ → Typ) (m : Meaning) → Agrees types m words.new → Agrees types m words.old }
{
    match place.hold {
        Hold::Making(typ, puts) => Ok(throws(index, place, made_of(words, typ, puts)?)),
        Hold::Nothing | Hold::Flying(_) => Ok(Next::Refused),
    }
}

/// `resume`.
pub fn resumes<'a>(index: u32, place: Place<'a>) -> Next<'a>
    ensures { (types : ℕ → Typ) (m : Meaning) (o : SourceNext) → next_of types m result o ≡ resumes_with index (place_of types m place.entry) o (hold_of types m place.entry.hold) }
{
    match place.hold {
        Hold::Flying(exception) => throws(index, place, exception),
        Hold::Nothing | Hold::Making(..) => Next::Refused,
    }
}

// `rethrow`, where this function has entered no handler.
fn rethrows_outer<'a>(index: u32, place: Place<'a>, outcome: &Outcome<'a>) -> Next<'a>
    ensures { (types : ℕ → Typ) (m : Meaning) (p : Program) (f : Func) → next_of types m result (outcome_of types m p f outcome.now) ≡ rethrows_what index (place_of types m place.entry) (outcome_of types m p f outcome.now) [] }
{
    match outcome {
        Outcome::Goes(Leading::Rethrows, _) => Next::Goes {
            course: Course::Rethrowing,
            index,
            place: Place {
                hold: Hold::Nothing,
                ..place
            },
        },
        _ => Next::Refused,
    }
}

/// `rethrow`, of a handler of this function, or of a caller's.
#[tactic(auto, using(crate::proofs::Families::rethrows_some))]
pub fn rethrows_caught<'a>(index: u32, place: Place<'a>, outcome: &Outcome<'a>) -> Next<'a>
    ensures { (types : ℕ → Typ) (m : Meaning) (p : Program) (f : Func) → next_of types m result (outcome_of types m p f outcome.now) ≡ rethrows_what index (place_of types m place.entry) (outcome_of types m p f outcome.now) (all_thrown m place.entry.caught) }
{
    match place.caught {
        Exceptions::Empty => rethrows_outer(index, place, outcome),
        Exceptions::More(exception, _) => throws(index, place, exception),
    }
}

// Whether two numbers are two others.
fn are(left: u32, right: u32, other_left: u32, other_right: u32) -> bool
    ensures { result ≡ ((left == other_left) && (right == other_right)) }
{
    left == other_left && right == other_right
}

// Whether bytes from one place on, so many, and those from another do not meet.
fn are_apart(offset: u32, size: u32, other_offset: u32, other_size: u32) -> bool
    ensures { result ≡ (nat_le (offset + size) other_offset || nat_le (other_offset + other_size) offset) }
{
    u64::from(offset) + u64::from(size) <= u64::from(other_offset)
        || u64::from(other_offset) + u64::from(other_size) <= u64::from(offset)
}

// What was put at this place of an exception, so many bytes.
fn was_put<'a>(offset: u32, size: u32, puts: Puts<'a>) -> Option<Term<'a>>
    ensures { (types : ℕ → Typ) → option_map (term_of types) result ≡ put_at offset size (puts_of types puts.entry) }
{
    match puts {
        Puts::Untouched => None,
        Puts::Put {
            offset: other_offset,
            size: other_size,
            word,
            others,
        } => {
            if are(other_offset, other_size, offset, size) {
                Some(*word)
            } else if are_apart(other_offset, other_size, offset, size) {
                was_put(offset, size, *others)
            } else {
                None
            }
        }
    }
}

// The same of an exception.
fn put_in<'a>(offset: u32, size: u32, exception: Exception<'a>) -> Option<Term<'a>>
    ensures { (types : ℕ → Typ) → option_map (term_of types) result ≡ found_put offset size (exception_of types exception.entry) }
{
    match exception {
        Exception::Unknown(_) => None,
        Exception::Made(_, puts) => {
            if u64::from(offset) + u64::from(size) <= 64 {
                was_put(offset, size, puts)
            } else {
                None
            }
        }
    }
}

// A word read in a kind: what is read as an address is the word itself.
fn read_as<'a>(arena: &'a Bump, kind: IntKind, word: Term<'a>) -> Result<Term<'a>, Refusal>
    ensures { IfOk result (λ t. (types : ℕ → Typ) → term_of types t ≡ reads_as kind (term_of types word.entry)) }
{
    match kind {
        IntKind::ULong => Ok(word),
        _ => Ok(Term::Converted(kind, keep(arena, word)?)),
    }
}

// The word of a kind at a place of an exception.
fn taken_word<'a>(
    arena: &'a Bump,
    kind: IntKind,
    offset: u8,
    exception: Exception<'a>,
) -> Result<Term<'a>, Refusal>
    ensures { IfOk result (λ t. (types : ℕ → Typ) → term_of types t ≡ word_taken kind offset (exception_of types exception.entry) (found_put offset (size_of kind) (exception_of types exception.entry))) }
{
    let offset = u32::from(offset);
    let size = u32::from(size(kind));
    match put_in(offset, size, exception) {
        Some(word) => read_as(arena, kind, word),
        None => {
            let field = Term::Field {
                exception: keep(arena, exception)?,
                offset,
                size,
            };
            Ok(Term::Converted(kind, keep(arena, field)?))
        }
    }
}

// A number for the word of a kind at a place of an exception.
fn taken<'a>(
    arena: &'a Bump,
    words: &mut Words<'a>,
    kind: IntKind,
    offset: u8,
    from: ExceptionId,
) -> Result<WordId, Refusal>
    ensures is { IfOk result (λ w. (types : ℕ → Typ) (m : Meaning) → Agrees types m words.new → word_of m w ≡ word_taken kind offset (thrown_of m from) (found_put offset (size_of kind) (thrown_of m from))) }
    ensures grows { (types : ℕ → Typ) (m : Meaning) → Agrees types m words.new → Agrees types m words.old }
{
    let word = taken_word(arena, kind, offset, exception(words, from)?)?;
    made(words, word)
}

/// `xget`.
pub fn gets_caught<'a>(
    arena: &'a Bump,
    words: &mut Words<'a>,
    index: u32,
    offset: u8,
    kind: IntKind,
    place: Place<'a>,
) -> Result<Next<'a>, Refusal>
    ensures is { IfOk result (λ n. (types : ℕ → Typ) (m : Meaning) (o : SourceNext) → Agrees types m words.new → next_of types m n o ≡ gets_from index offset kind (place_of types m place.entry) o (all_thrown m place.entry.caught)) }
    ensures grows { (types : ℕ → Typ) (m : Meaning) → Agrees types m words.new → Agrees types m words.old }
{
    match place.caught {
        Exceptions::Empty => Ok(Next::Refused),
        Exceptions::More(exception, _) => {
            if is_bool(kind) {
                return Ok(Next::Refused);
            }
            let word = taken(arena, words, kind, offset, exception)?;
            pushes(arena, index, place, word, place.operands)
        }
    }
}

/// `xdone`.
pub fn handler_ends<'a>(index: u32, place: Place<'a>) -> Result<Next<'a>, Refusal>
    ensures { IfOk result (λ n. (types : ℕ → Typ) (m : Meaning) (o : SourceNext) → next_of types m n o ≡ ends_at index (place_of types m place.entry) o (all_thrown m place.entry.caught)) }
{
    match place.caught {
        Exceptions::Empty => Ok(Next::Refused),
        Exceptions::More(_, outer) => {
            let left = Place {
                caught: *outer,
                ..place
            };
            goes_by(Course::Quietly, index, left)
        }
    }
}
