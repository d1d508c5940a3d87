//! Instructions that are events: memory, input and output, threads and the end.

ghost use Rattle.std.specs.Prelude.{ℕ, ◌≡◌, ◌+◌, ◌∷◌, ◌==◌, ◌&&◌, not, IfOk};
ghost use Rattle.cpp_tree.specs.cpp_types.Typ.{Typ};
ghost use Rattle.cpp_tree.specs.declared.program.Program.{Program};
ghost use Rattle.cpp_tree.specs.cpp_layout.Layout.{kind_size};
ghost use Rattle.src_mean.specs.Linked.{Func};
ghost use Rattle.tx_code.specs.Meaning.{size_of};
ghost use Rattle.symbolic_source.specs.Terms.{converted_to, low_byte, variable as variable_term};
ghost use Rattle.symbolic_source.specs.Replacing.{in_terms};
ghost use Rattle.symbolic_source.specs.Outcomes.{Outcome as SourceNext};
ghost use Rattle.symbolic_code.specs.Same.{same_term as is_same};
ghost use Rattle.symbolic_code.specs.Places.{later, place_later as after_reply};
ghost use Rattle.symbolic_code.specs.Following.{one_of, two_of, same_flag as is_same_flag, is_bool as is_bool_kind, kept as kept_in, stored_term as stored_as, loads as loads_at, stores as stores_to, outputs as puts_byte, inputs as takes_byte, joining, aborts as stops_abort, spawning};
ghost use Rattle.symbolic_terms.specs.Words.{term_of};
ghost use Rattle.symbolic_terms.specs.Meanings.{Meaning, Agrees, word_of, words_of};
ghost use Rattle.symbolic_terms.specs.Shown.{outcome_of, place_of};
ghost use Rattle.code_follows.specs.Shown.{coming, next_of};

use crate::next::{Course, Next};
use crate::operands::{goes_by, pushed};
use bumpalo::Bump;
use cpp_tree::below::{End, IntKind};
use src_frames::words::size_of_kind;
use symbolic_frames::places::place_later;
use symbolic_terms::arena::keep;
use symbolic_terms::comparison::{same_term, same_word};
use symbolic_terms::ids::{Terms, WordId};
use symbolic_terms::made::{converted, variable};
use symbolic_terms::outcomes::{Doing, Leading, Outcome};
use symbolic_terms::places::Place;
use symbolic_terms::refusal::Refusal;
use symbolic_terms::replacing::{Replacing, replaced_words};
use symbolic_terms::terms::Term;
use symbolic_terms::words::{Words, term};
use tx_code::size;

/// Whether a kind is that of `bool`.
pub fn is_bool(kind: IntKind) -> bool
    ensures { result ≡ is_bool_kind kind }
{
    match kind {
        IntKind::Bool => true,
        IntKind::Char | IntKind::SChar | IntKind::UChar => false,
        IntKind::Short | IntKind::UShort | IntKind::Int | IntKind::UInt => false,
        IntKind::Long | IntKind::ULong | IntKind::LLong | IntKind::ULLong => false,
    }
}

// Whether two marks are the same.
fn same_flag(flag: bool, other: bool) -> bool
    ensures { result ≡ is_same_flag flag other }
{
    if flag { other } else { !other }
}

// The source and the code do the same, and the place is the one after the reply, where these operands stood before it.
fn answered<'a>(
    arena: &'a Bump,
    words: &mut Words<'a>,
    course: Course,
    index: u32,
    place: Place<'a>,
    operands: Terms<'a>,
) -> Result<Next<'a>, Refusal>
    ensures is { IfOk result (λ n. (types : ℕ → Typ) (m : Meaning) (o : SourceNext) → Agrees types m words.new → next_of types m n o ≡ coming m course (index + 1) (after_reply (place_of types m place.entry) (in_terms later (words_of m operands.entry))) o) }
    ensures grows { (types : ℕ → Typ) (m : Meaning) → Agrees types m words.new → Agrees types m words.old }
{
    let operands = replaced_words(arena, words, Replacing::Later, operands)?;
    goes_by(course, index, place_later(arena, words, place, operands)?)
}

// The same, and after the reply this word is on them.
fn answered_with<'a>(
    arena: &'a Bump,
    words: &mut Words<'a>,
    course: Course,
    index: u32,
    place: Place<'a>,
    word: WordId,
    operands: Terms<'a>,
) -> Result<Next<'a>, Refusal>
    ensures is { IfOk result (λ n. (types : ℕ → Typ) (m : Meaning) (o : SourceNext) → Agrees types m words.new → next_of types m n o ≡ coming m course (index + 1) (after_reply (place_of types m place.entry) (word_of m word ∷ in_terms later (words_of m operands.entry))) o) }
    ensures grows { (types : ℕ → Typ) (m : Meaning) → Agrees types m words.new → Agrees types m words.old }
{
    let below = replaced_words(arena, words, Replacing::Later, operands)?;
    let operands = pushed(arena, word, below)?;
    goes_by(course, index, place_later(arena, words, place, operands)?)
}

// Whether a read is the one that the source does.
fn reads_same(
    words: &Words<'_>,
    kind: IntKind,
    volatile: bool,
    address: WordId,
    read: WordId,
    bytes: u32,
    marked: bool,
) -> Result<bool, Refusal>
    ensures { IfOk result (λ b. (types : ℕ → Typ) (m : Meaning) → Agrees types m words.now → b ≡ (is_same (word_of m address) (word_of m read) && (bytes == size_of kind) && is_same_flag volatile marked)) }
{
    let same = same_word(words, address, read)?;
    Ok(same && bytes == u32::from(size(kind)) && same_flag(volatile, marked))
}

// What a load of this kind gives: the reply, as it is read.
fn loaded<'a>(arena: &'a Bump, words: &mut Words<'a>, kind: IntKind) -> Result<WordId, Refusal>
    ensures is { IfOk result (λ w. (types : ℕ → Typ) (m : Meaning) → Agrees types m words.new → word_of m w ≡ converted_to kind (variable_term 0)) }
    ensures grows { (types : ℕ → Typ) (m : Meaning) → Agrees types m words.new → Agrees types m words.old }
{
    let reply = variable(words, 0)?;
    converted(arena, words, kind, reply)
}

// A load from this address.
fn loads_from<'a>(
    arena: &'a Bump,
    words: &mut Words<'a>,
    index: u32,
    place: Place<'a>,
    kind: IntKind,
    volatile: bool,
    address: WordId,
    below: Terms<'a>,
    outcome: &Outcome<'a>,
) -> Result<Next<'a>, Refusal>
    ensures is { IfOk result (λ n. (types : ℕ → Typ) (m : Meaning) (p : Program) (f : Func) → Agrees types m words.new → next_of types m n (outcome_of types m p f outcome.now) ≡ loads_at index (place_of types m place.entry) kind volatile (word_of m address) (words_of m below.entry) (outcome_of types m p f outcome.now)) }
    ensures grows { (types : ℕ → Typ) (m : Meaning) → Agrees types m words.new → Agrees types m words.old }
{
    match outcome {
        Outcome::Goes(
            Leading::Does(
                Doing::Reads {
                    address: read,
                    size,
                    volatile: marked,
                },
            ),
            _,
        ) => {
            if reads_same(words, kind, volatile, address, *read, *size, *marked)? {
                let word = loaded(arena, words, kind)?;
                answered_with(arena, words, Course::Loudly, index, place, word, below)
            } else {
                Ok(Next::Refused)
            }
        }
        _ => Ok(Next::Refused),
    }
}

/// A load of this kind.
pub fn loads<'a>(
    arena: &'a Bump,
    words: &mut Words<'a>,
    index: u32,
    place: Place<'a>,
    kind: IntKind,
    volatile: bool,
    outcome: &Outcome<'a>,
) -> Result<Next<'a>, Refusal>
    ensures is { IfOk result (λ n. (types : ℕ → Typ) (m : Meaning) (p : Program) (f : Func) → Agrees types m words.new → next_of types m n (outcome_of types m p f outcome.now) ≡ one_of (words_of m place.entry.operands) (λ a ws. loads_at index (place_of types m place.entry) kind volatile a ws (outcome_of types m p f outcome.now))) }
    ensures grows { (types : ℕ → Typ) (m : Meaning) → Agrees types m words.new → Agrees types m words.old }
{
    match place.operands {
        Terms::Empty => Ok(Next::Refused),
        Terms::More(address, below) => {
            loads_from(
                arena, words, index, place, kind, volatile, address, *below, outcome,
            )
        }
    }
}

// Whether a conversion to a kind is not seen in so many bytes.
fn is_unseen(kind: IntKind, bytes: u8) -> bool
    ensures { result ≡ (not (is_bool_kind kind) && (kind_size kind == bytes)) }
{
    !is_bool(kind) && size_of_kind(kind) == bytes
}

// What of a word is seen in its lowest bytes, so many.
fn kept<'a>(bytes: u8, term: Term<'a>) -> Term<'a>
    ensures { (types : ℕ → Typ) → term_of types result ≡ kept_in bytes (term_of types term.entry) }
{
    match term {
        Term::Converted(kind, of) => { if is_unseen(kind, bytes) { *of } else { term } }
        _ => term,
    }
}

// The word that a store of this kind stores.
fn stored<'a>(arena: &'a Bump, kind: IntKind, term: Term<'a>) -> Result<Term<'a>, Refusal>
    ensures { IfOk result (λ t. (types : ℕ → Typ) → term_of types t ≡ stored_as kind (term_of types term.entry)) }
{
    match kind {
        IntKind::Bool => Ok(Term::Converted(IntKind::Bool, keep(arena, term)?)),
        _ => Ok(term),
    }
}

// Whether a store of this kind stores what the source writes.
fn stores_same<'a>(
    arena: &'a Bump,
    words: &Words<'a>,
    kind: IntKind,
    word: WordId,
    written: WordId,
) -> Result<bool, Refusal>
    ensures { IfOk result (λ b. (types : ℕ → Typ) (m : Meaning) → Agrees types m words.now → b ≡ is_same (kept_in (kind_size kind) (stored_as kind (word_of m word))) (kept_in (kind_size kind) (word_of m written))) }
{
    let bytes = size_of_kind(kind);
    let value = stored(arena, kind, term(words, word)?)?;
    let written = term(words, written)?;
    Ok(same_term(&kept(bytes, value), &kept(bytes, written)))
}

// Whether a store is the one that the source does.
fn writes_same<'a>(
    arena: &'a Bump,
    words: &Words<'a>,
    kind: IntKind,
    volatile: bool,
    address: WordId,
    word: WordId,
    written_at: WordId,
    written_as: IntKind,
    written: WordId,
    marked: bool,
) -> Result<bool, Refusal>
    ensures { IfOk result (λ b. (types : ℕ → Typ) (m : Meaning) → Agrees types m words.now → b ≡ (is_same (word_of m address) (word_of m written_at) && (kind_size kind == kind_size written_as) && (is_same (kept_in (kind_size kind) (stored_as kind (word_of m word))) (kept_in (kind_size kind) (word_of m written)) && is_same_flag volatile marked))) }
{
    let same_place = same_word(words, address, written_at)?;
    let same_value = stores_same(arena, words, kind, word, written)?;
    let same_size = size_of_kind(kind) == size_of_kind(written_as);
    Ok(same_place && same_size && same_value && same_flag(volatile, marked))
}

// A store of a word at this address.
fn stores_at<'a>(
    arena: &'a Bump,
    words: &mut Words<'a>,
    index: u32,
    place: Place<'a>,
    kind: IntKind,
    volatile: bool,
    address: WordId,
    word: WordId,
    below: Terms<'a>,
    outcome: &Outcome<'a>,
) -> Result<Next<'a>, Refusal>
    ensures is { IfOk result (λ n. (types : ℕ → Typ) (m : Meaning) (p : Program) (f : Func) → Agrees types m words.new → next_of types m n (outcome_of types m p f outcome.now) ≡ stores_to index (place_of types m place.entry) kind volatile (word_of m address) (word_of m word) (words_of m below.entry) (outcome_of types m p f outcome.now)) }
    ensures grows { (types : ℕ → Typ) (m : Meaning) → Agrees types m words.new → Agrees types m words.old }
{
    match outcome {
        Outcome::Goes(
            Leading::Does(
                Doing::Writes {
                    address: written_at,
                    kind: written_as,
                    word: written,
                    volatile: marked,
                },
            ),
            _,
        ) => {
            if writes_same(
                arena,
                words,
                kind,
                volatile,
                address,
                word,
                *written_at,
                *written_as,
                *written,
                *marked,
            )? {
                answered(arena, words, Course::Loudly, index, place, below)
            } else {
                Ok(Next::Refused)
            }
        }
        _ => Ok(Next::Refused),
    }
}

/// A store of this kind.
pub fn stores<'a>(
    arena: &'a Bump,
    words: &mut Words<'a>,
    index: u32,
    place: Place<'a>,
    kind: IntKind,
    volatile: bool,
    outcome: &Outcome<'a>,
) -> Result<Next<'a>, Refusal>
    ensures is { IfOk result (λ n. (types : ℕ → Typ) (m : Meaning) (p : Program) (f : Func) → Agrees types m words.new → next_of types m n (outcome_of types m p f outcome.now) ≡ two_of (words_of m place.entry.operands) (λ a w ws. stores_to index (place_of types m place.entry) kind volatile a w ws (outcome_of types m p f outcome.now))) }
    ensures grows { (types : ℕ → Typ) (m : Meaning) → Agrees types m words.new → Agrees types m words.old }
{
    match place.operands {
        Terms::Empty => Ok(Next::Refused),
        Terms::More(_, Terms::Empty) => Ok(Next::Refused),
        Terms::More(word, Terms::More(address, below)) => stores_at(
            arena, words, index, place, kind, volatile, *address, word, **below, outcome,
        ),
    }
}

// Whether the lowest byte of a word is the one that the source puts out.
fn puts_same<'a>(
    arena: &'a Bump,
    words: &Words<'a>,
    word: WordId,
    byte: WordId,
) -> Result<bool, Refusal>
    ensures { IfOk result (λ b. (types : ℕ → Typ) (m : Meaning) → Agrees types m words.now → b ≡ is_same (low_byte (word_of m word)) (word_of m byte)) }
{
    let low = Term::LowByte(keep(arena, term(words, word)?)?);
    let byte = term(words, byte)?;
    Ok(same_term(&low, &byte))
}

// Output of a word.
fn outputs_word<'a>(
    arena: &'a Bump,
    words: &mut Words<'a>,
    index: u32,
    place: Place<'a>,
    word: WordId,
    below: Terms<'a>,
    outcome: &Outcome<'a>,
) -> Result<Next<'a>, Refusal>
    ensures is { IfOk result (λ n. (types : ℕ → Typ) (m : Meaning) (p : Program) (f : Func) → Agrees types m words.new → next_of types m n (outcome_of types m p f outcome.now) ≡ puts_byte index (place_of types m place.entry) (word_of m word) (words_of m below.entry) (outcome_of types m p f outcome.now)) }
    ensures grows { (types : ℕ → Typ) (m : Meaning) → Agrees types m words.new → Agrees types m words.old }
{
    match outcome {
        Outcome::Goes(Leading::Does(Doing::PutsOut(byte)), _) => {
            if puts_same(arena, words, word, *byte)? {
                let operands = pushed(arena, *byte, below)?;
                answered(arena, words, Course::Loudly, index, place, operands)
            } else {
                Ok(Next::Refused)
            }
        }
        _ => Ok(Next::Refused),
    }
}

/// `out`.
pub fn outputs<'a>(
    arena: &'a Bump,
    words: &mut Words<'a>,
    index: u32,
    place: Place<'a>,
    outcome: &Outcome<'a>,
) -> Result<Next<'a>, Refusal>
    ensures is { IfOk result (λ n. (types : ℕ → Typ) (m : Meaning) (p : Program) (f : Func) → Agrees types m words.new → next_of types m n (outcome_of types m p f outcome.now) ≡ one_of (words_of m place.entry.operands) (λ a ws. puts_byte index (place_of types m place.entry) a ws (outcome_of types m p f outcome.now))) }
    ensures grows { (types : ℕ → Typ) (m : Meaning) → Agrees types m words.new → Agrees types m words.old }
{
    match place.operands {
        Terms::Empty => Ok(Next::Refused),
        Terms::More(word, below) => outputs_word(arena, words, index, place, word, *below, outcome),
    }
}

/// `inp`.
pub fn inputs<'a>(
    arena: &'a Bump,
    words: &mut Words<'a>,
    index: u32,
    place: Place<'a>,
    outcome: &Outcome<'a>,
) -> Result<Next<'a>, Refusal>
    ensures is { IfOk result (λ n. (types : ℕ → Typ) (m : Meaning) (p : Program) (f : Func) → Agrees types m words.new → next_of types m n (outcome_of types m p f outcome.now) ≡ takes_byte index (place_of types m place.entry) (outcome_of types m p f outcome.now)) }
    ensures grows { (types : ℕ → Typ) (m : Meaning) → Agrees types m words.new → Agrees types m words.old }
{
    match outcome {
        Outcome::Goes(Leading::Does(Doing::TakesIn), _) => {
            let reply = variable(words, 0)?;
            answered_with(
                arena,
                words,
                Course::Loudly,
                index,
                place,
                reply,
                place.operands,
            )
        }
        _ => Ok(Next::Refused),
    }
}

// The end of this thread is waited for.
fn joins_thread<'a>(
    arena: &'a Bump,
    words: &mut Words<'a>,
    index: u32,
    place: Place<'a>,
    thread: WordId,
    below: Terms<'a>,
    outcome: &Outcome<'a>,
) -> Result<Next<'a>, Refusal>
    ensures is { IfOk result (λ n. (types : ℕ → Typ) (m : Meaning) (p : Program) (f : Func) → Agrees types m words.new → next_of types m n (outcome_of types m p f outcome.now) ≡ joining index (place_of types m place.entry) (word_of m thread) (words_of m below.entry) (outcome_of types m p f outcome.now)) }
    ensures grows { (types : ℕ → Typ) (m : Meaning) → Agrees types m words.new → Agrees types m words.old }
{
    match outcome {
        Outcome::Goes(Leading::Does(Doing::Joins(id)), _) => {
            if same_word(words, thread, *id)? {
                answered(arena, words, Course::Loudly, index, place, below)
            } else {
                Ok(Next::Refused)
            }
        }
        _ => Ok(Next::Refused),
    }
}

/// `join`.
pub fn joins<'a>(
    arena: &'a Bump,
    words: &mut Words<'a>,
    index: u32,
    place: Place<'a>,
    outcome: &Outcome<'a>,
) -> Result<Next<'a>, Refusal>
    ensures is { IfOk result (λ n. (types : ℕ → Typ) (m : Meaning) (p : Program) (f : Func) → Agrees types m words.new → next_of types m n (outcome_of types m p f outcome.now) ≡ one_of (words_of m place.entry.operands) (λ a ws. joining index (place_of types m place.entry) a ws (outcome_of types m p f outcome.now))) }
    ensures grows { (types : ℕ → Typ) (m : Meaning) → Agrees types m words.new → Agrees types m words.old }
{
    match place.operands {
        Terms::Empty => Ok(Next::Refused),
        Terms::More(thread, below) => joins_thread(
            arena, words, index, place, thread, *below, outcome,
        ),
    }
}

// Whether a thread is the one that the source starts.
fn starts_same(
    words: &Words<'_>,
    address: WordId,
    argument: WordId,
    called: WordId,
    passed: WordId,
) -> Result<bool, Refusal>
    ensures { IfOk result (λ b. (types : ℕ → Typ) (m : Meaning) → Agrees types m words.now → b ≡ (is_same (word_of m address) (word_of m called) && is_same (word_of m argument) (word_of m passed))) }
{
    let same_function = same_word(words, address, called)?;
    let same_argument = same_word(words, argument, passed)?;
    Ok(same_function && same_argument)
}

// A thread with this argument is started.
fn starts<'a>(
    arena: &'a Bump,
    words: &mut Words<'a>,
    index: u32,
    place: Place<'a>,
    address: WordId,
    argument: WordId,
    below: Terms<'a>,
    outcome: &Outcome<'a>,
) -> Result<Next<'a>, Refusal>
    ensures is { IfOk result (λ n. (types : ℕ → Typ) (m : Meaning) (p : Program) (f : Func) → Agrees types m words.new → next_of types m n (outcome_of types m p f outcome.now) ≡ spawning index (place_of types m place.entry) (word_of m address) (word_of m argument) (words_of m below.entry) (outcome_of types m p f outcome.now)) }
    ensures grows { (types : ℕ → Typ) (m : Meaning) → Agrees types m words.new → Agrees types m words.old }
{
    match outcome {
        Outcome::Goes(
            Leading::Spawns {
                address: called,
                argument: passed,
            },
            _,
        ) => {
            if starts_same(words, address, argument, *called, *passed)? {
                let reply = variable(words, 0)?;
                answered_with(arena, words, Course::Starting, index, place, reply, below)
            } else {
                Ok(Next::Refused)
            }
        }
        _ => Ok(Next::Refused),
    }
}

/// `spawn`.
pub fn spawns<'a>(
    arena: &'a Bump,
    words: &mut Words<'a>,
    index: u32,
    place: Place<'a>,
    outcome: &Outcome<'a>,
) -> Result<Next<'a>, Refusal>
    ensures is { IfOk result (λ n. (types : ℕ → Typ) (m : Meaning) (p : Program) (f : Func) → Agrees types m words.new → next_of types m n (outcome_of types m p f outcome.now) ≡ two_of (words_of m place.entry.operands) (λ a v ws. spawning index (place_of types m place.entry) a v ws (outcome_of types m p f outcome.now))) }
    ensures grows { (types : ℕ → Typ) (m : Meaning) → Agrees types m words.new → Agrees types m words.old }
{
    match place.operands {
        Terms::Empty => Ok(Next::Refused),
        Terms::More(_, Terms::Empty) => Ok(Next::Refused),
        Terms::More(argument, Terms::More(address, below)) => {
            starts(
                arena, words, index, place, *address, argument, **below, outcome,
            )
        }
    }
}

/// `abort`.
pub fn aborts<'a>(outcome: &Outcome<'a>) -> Next<'a>
    ensures { (types : ℕ → Typ) (m : Meaning) (p : Program) (f : Func) → next_of types m result (outcome_of types m p f outcome.now) ≡ stops_abort (outcome_of types m p f outcome.now) }
{
    match outcome {
        Outcome::Halts(End::Abort) => Next::Ends(End::Abort),
        _ => Next::Refused,
    }
}
