//! Words and exceptions made of others, by their numbers.

ghost use Rattle.std.specs.Prelude.{ℕ, ◌≡◌, IfOk};
ghost use Rattle.cpp_tree.specs.cpp_types.Typ.{Typ};
ghost use Rattle.symbolic_source.specs.Terms as symbolic;
ghost use Rattle.symbolic_source.specs.Replacing.{summed as summed_of, multiplied as multiplied_of};
ghost use Rattle.symbolic_source.specs.Steps.{element_at as element_of};
ghost use Rattle.symbolic_terms.specs.Meanings.{Meaning, word_of, thrown_of, given_of, Agrees};

use crate::arena::keep;
use crate::ids::{ExceptionId, PutsId, WordId};
use crate::refusal::Refusal;
use crate::sums;
use crate::terms::{Exception, Puts, Term};
use crate::words::{self, Words, made, made_exception, made_puts, term};
use bumpalo::Bump;
use cpp_tree::below::{BinOp, IntKind};

/// The word of a number.
pub fn number<'a>(words: &mut Words<'a>, number: u64) -> Result<WordId, Refusal>
    ensures is { IfOk result (λ w. (types : ℕ → Typ) (m : Meaning) → Agrees types m words.new → word_of m w ≡ symbolic.number number) }
    ensures grows { (types : ℕ → Typ) (m : Meaning) → Agrees types m words.new → Agrees types m words.old }
{
    made(words, Term::Number(number))
}

/// The address at this offset in the frame.
pub fn local<'a>(words: &mut Words<'a>, offset: u64) -> Result<WordId, Refusal>
    ensures is { IfOk result (λ w. (types : ℕ → Typ) (m : Meaning) → Agrees types m words.new → word_of m w ≡ symbolic.local offset) }
    ensures grows { (types : ℕ → Typ) (m : Meaning) → Agrees types m words.new → Agrees types m words.old }
{
    made(words, Term::Local(offset))
}

/// The address of a global of the unit.
pub fn global<'a>(words: &mut Words<'a>, number: u32) -> Result<WordId, Refusal>
    ensures is { IfOk result (λ w. (types : ℕ → Typ) (m : Meaning) → Agrees types m words.new → word_of m w ≡ symbolic.global number) }
    ensures grows { (types : ℕ → Typ) (m : Meaning) → Agrees types m words.new → Agrees types m words.old }
{
    made(words, Term::Global(number))
}

/// The address of a function of the unit.
pub fn function<'a>(words: &mut Words<'a>, number: u32) -> Result<WordId, Refusal>
    ensures is { IfOk result (λ w. (types : ℕ → Typ) (m : Meaning) → Agrees types m words.new → word_of m w ≡ symbolic.function number) }
    ensures grows { (types : ℕ → Typ) (m : Meaning) → Agrees types m words.new → Agrees types m words.old }
{
    made(words, Term::Function(number))
}

/// A class address.
pub fn table<'a>(words: &mut Words<'a>, class: u32) -> Result<WordId, Refusal>
    ensures is { IfOk result (λ w. (types : ℕ → Typ) (m : Meaning) → Agrees types m words.new → word_of m w ≡ symbolic.table class) }
    ensures grows { (types : ℕ → Typ) (m : Meaning) → Agrees types m words.new → Agrees types m words.old }
{
    made(words, Term::Table(class))
}

/// A variable.
pub fn variable<'a>(words: &mut Words<'a>, number: u32) -> Result<WordId, Refusal>
    ensures is { IfOk result (λ w. (types : ℕ → Typ) (m : Meaning) → Agrees types m words.new → word_of m w ≡ symbolic.variable number) }
    ensures grows { (types : ℕ → Typ) (m : Meaning) → Agrees types m words.new → Agrees types m words.old }
{
    made(words, Term::Variable(number))
}

/// The address at this offset from another.
pub fn at_offset<'a>(
    arena: &'a Bump,
    words: &mut Words<'a>,
    word: WordId,
    offset: u64,
) -> Result<WordId, Refusal>
    ensures is { IfOk result (λ w. (types : ℕ → Typ) (m : Meaning) → Agrees types m words.new → word_of m w ≡ symbolic.at_offset (word_of m word) offset) }
    ensures grows { (types : ℕ → Typ) (m : Meaning) → Agrees types m words.new → Agrees types m words.old }
{
    let word = term(words, word)?;
    let term = sums::at_offset(arena, word, offset)?;
    made(words, term)
}

/// A sum with a number, as it is written: numbers are added at once, and 0 is not.
pub fn plus_number<'a>(
    arena: &'a Bump,
    words: &mut Words<'a>,
    word: WordId,
    number: u64,
) -> Result<WordId, Refusal>
    ensures is { IfOk result (λ w. (types : ℕ → Typ) (m : Meaning) → Agrees types m words.new → word_of m w ≡ symbolic.plus_number (word_of m word) number) }
    ensures grows { (types : ℕ → Typ) (m : Meaning) → Agrees types m words.new → Agrees types m words.old }
{
    let word = term(words, word)?;
    let term = sums::plus_number(arena, word, number)?;
    made(words, term)
}

/// One less, of what is not 0.
pub fn one_less<'a>(arena: &'a Bump, words: &mut Words<'a>, word: WordId) -> Result<WordId, Refusal>
    ensures is { IfOk result (λ w. (types : ℕ → Typ) (m : Meaning) → Agrees types m words.new → word_of m w ≡ symbolic.one_less (word_of m word)) }
    ensures grows { (types : ℕ → Typ) (m : Meaning) → Agrees types m words.new → Agrees types m words.old }
{
    let word = term(words, word)?;
    let term = sums::one_less(arena, word)?;
    made(words, term)
}

/// The sum of two addresses.
pub fn sum<'a>(
    arena: &'a Bump,
    words: &mut Words<'a>,
    left: WordId,
    right: WordId,
) -> Result<WordId, Refusal>
    ensures is { IfOk result (λ w. (types : ℕ → Typ) (m : Meaning) → Agrees types m words.new → word_of m w ≡ symbolic.sum (word_of m left) (word_of m right)) }
    ensures grows { (types : ℕ → Typ) (m : Meaning) → Agrees types m words.new → Agrees types m words.old }
{
    let left = term(words, left)?;
    let right = term(words, right)?;
    let term = sums::sum(arena, left, right)?;
    made(words, term)
}

/// The product of two addresses.
pub fn product<'a>(
    arena: &'a Bump,
    words: &mut Words<'a>,
    left: WordId,
    right: WordId,
) -> Result<WordId, Refusal>
    ensures is { IfOk result (λ w. (types : ℕ → Typ) (m : Meaning) → Agrees types m words.new → word_of m w ≡ symbolic.product (word_of m left) (word_of m right)) }
    ensures grows { (types : ℕ → Typ) (m : Meaning) → Agrees types m words.new → Agrees types m words.old }
{
    let left = term(words, left)?;
    let right = term(words, right)?;
    let term = sums::product(arena, left, right)?;
    made(words, term)
}

/// A sum of what has come in the place of variables.
pub fn summed<'a>(
    arena: &'a Bump,
    words: &mut Words<'a>,
    left: WordId,
    right: WordId,
) -> Result<WordId, Refusal>
    ensures is { IfOk result (λ w. (types : ℕ → Typ) (m : Meaning) → Agrees types m words.new → word_of m w ≡ summed_of (word_of m left) (word_of m right)) }
    ensures grows { (types : ℕ → Typ) (m : Meaning) → Agrees types m words.new → Agrees types m words.old }
{
    let left = term(words, left)?;
    let right = term(words, right)?;
    let term = sums::summed(arena, left, right)?;
    made(words, term)
}

/// A product of what has come in the place of variables.
pub fn multiplied<'a>(
    arena: &'a Bump,
    words: &mut Words<'a>,
    left: WordId,
    right: WordId,
) -> Result<WordId, Refusal>
    ensures is { IfOk result (λ w. (types : ℕ → Typ) (m : Meaning) → Agrees types m words.new → word_of m w ≡ multiplied_of (word_of m left) (word_of m right)) }
    ensures grows { (types : ℕ → Typ) (m : Meaning) → Agrees types m words.new → Agrees types m words.old }
{
    let left = term(words, left)?;
    let right = term(words, right)?;
    let term = sums::multiplied(arena, left, right)?;
    made(words, term)
}

/// The element of an array with this number, where elements lie this far apart.
pub fn element_at<'a>(
    arena: &'a Bump,
    words: &mut Words<'a>,
    address: WordId,
    number: WordId,
    stride: u32,
) -> Result<WordId, Refusal>
    ensures is { IfOk result (λ w. (types : ℕ → Typ) (m : Meaning) → Agrees types m words.new → word_of m w ≡ element_of (word_of m address) (word_of m number) stride) }
    ensures grows { (types : ℕ → Typ) (m : Meaning) → Agrees types m words.new → Agrees types m words.old }
{
    let address = term(words, address)?;
    let number = term(words, number)?;
    let term = sums::element_at(arena, address, number, stride)?;
    made(words, term)
}

/// The low byte of a word.
pub fn low_byte<'a>(arena: &'a Bump, words: &mut Words<'a>, word: WordId) -> Result<WordId, Refusal>
    ensures is { IfOk result (λ w. (types : ℕ → Typ) (m : Meaning) → Agrees types m words.new → word_of m w ≡ symbolic.low_byte (word_of m word)) }
    ensures grows { (types : ℕ → Typ) (m : Meaning) → Agrees types m words.new → Agrees types m words.old }
{
    let of = keep(arena, term(words, word)?)?;
    made(words, Term::LowByte(of))
}

/// A word of another kind.
pub fn converted<'a>(
    arena: &'a Bump,
    words: &mut Words<'a>,
    kind: IntKind,
    word: WordId,
) -> Result<WordId, Refusal>
    ensures is { IfOk result (λ w. (types : ℕ → Typ) (m : Meaning) → Agrees types m words.new → word_of m w ≡ symbolic.converted_to kind (word_of m word)) }
    ensures grows { (types : ℕ → Typ) (m : Meaning) → Agrees types m words.new → Agrees types m words.old }
{
    let of = keep(arena, term(words, word)?)?;
    made(words, Term::Converted(kind, of))
}

/// What an operator that does not trap gives.
pub fn applied<'a>(
    arena: &'a Bump,
    words: &mut Words<'a>,
    op: BinOp,
    kind: IntKind,
    left: WordId,
    right: WordId,
) -> Result<WordId, Refusal>
    ensures is { IfOk result (λ w. (types : ℕ → Typ) (m : Meaning) → Agrees types m words.new → word_of m w ≡ symbolic.result op kind (word_of m left) (word_of m right)) }
    ensures grows { (types : ℕ → Typ) (m : Meaning) → Agrees types m words.new → Agrees types m words.old }
{
    let left = keep(arena, term(words, left)?)?;
    let right = keep(arena, term(words, right)?)?;
    made(
        words,
        Term::Applied {
            op,
            kind,
            left,
            right,
        },
    )
}

/// Bytes of an exception, as a number.
pub fn field<'a>(
    arena: &'a Bump,
    words: &mut Words<'a>,
    exception: ExceptionId,
    offset: u32,
    size: u32,
) -> Result<WordId, Refusal>
    ensures is { IfOk result (λ w. (types : ℕ → Typ) (m : Meaning) → Agrees types m words.new → word_of m w ≡ symbolic.field (thrown_of m exception) offset size) }
    ensures grows { (types : ℕ → Typ) (m : Meaning) → Agrees types m words.new → Agrees types m words.old }
{
    let exception = keep(arena, words::exception(words, exception)?)?;
    made(
        words,
        Term::Field {
            exception,
            offset,
            size,
        },
    )
}

/// The address of the function in a slot, of the class at this address.
pub fn slot_function<'a>(
    arena: &'a Bump,
    words: &mut Words<'a>,
    class: u32,
    slot: u32,
    address: WordId,
) -> Result<WordId, Refusal>
    ensures is { IfOk result (λ w. (types : ℕ → Typ) (m : Meaning) → Agrees types m words.new → word_of m w ≡ symbolic.slot_function class slot (word_of m address)) }
    ensures grows { (types : ℕ → Typ) (m : Meaning) → Agrees types m words.new → Agrees types m words.old }
{
    let address = keep(arena, term(words, address)?)?;
    made(
        words,
        Term::SlotFunction {
            class,
            slot,
            address,
        },
    )
}

/// An exception that is not known.
pub fn unknown<'a>(words: &mut Words<'a>, number: u32) -> Result<ExceptionId, Refusal>
    ensures is { IfOk result (λ e. (types : ℕ → Typ) (m : Meaning) → Agrees types m words.new → thrown_of m e ≡ symbolic.unknown number) }
    ensures grows { (types : ℕ → Typ) (m : Meaning) → Agrees types m words.new → Agrees types m words.old }
{
    made_exception(words, Exception::Unknown(number))
}

/// An exception of the type with this number, with these words.
pub fn made_of<'a>(words: &mut Words<'a>, typ: u32, puts: PutsId) -> Result<ExceptionId, Refusal>
    ensures is { IfOk result (λ e. (types : ℕ → Typ) (m : Meaning) → Agrees types m words.new → thrown_of m e ≡ symbolic.made (types typ) (given_of m puts)) }
    ensures grows { (types : ℕ → Typ) (m : Meaning) → Agrees types m words.new → Agrees types m words.old }
{
    let puts = words::given(words, puts)?;
    made_exception(words, Exception::Made(typ, puts))
}

/// Nothing was put into an exception.
pub fn untouched<'a>(words: &mut Words<'a>) -> Result<PutsId, Refusal>
    ensures is { IfOk result (λ q. (types : ℕ → Typ) (m : Meaning) → Agrees types m words.new → given_of m q ≡ symbolic.untouched) }
    ensures grows { (types : ℕ → Typ) (m : Meaning) → Agrees types m words.new → Agrees types m words.old }
{
    made_puts(words, Puts::Untouched)
}

/// A word more is put into an exception.
pub fn put<'a>(
    arena: &'a Bump,
    words: &mut Words<'a>,
    offset: u32,
    size: u32,
    word: WordId,
    others: PutsId,
) -> Result<PutsId, Refusal>
    ensures is { IfOk result (λ q. (types : ℕ → Typ) (m : Meaning) → Agrees types m words.new → given_of m q ≡ symbolic.put offset size (word_of m word) (given_of m others)) }
    ensures grows { (types : ℕ → Typ) (m : Meaning) → Agrees types m words.new → Agrees types m words.old }
{
    let word = keep(arena, term(words, word)?)?;
    let others = keep(arena, words::given(words, others)?)?;
    made_puts(
        words,
        Puts::Put {
            offset,
            size,
            word,
            others,
        },
    )
}
