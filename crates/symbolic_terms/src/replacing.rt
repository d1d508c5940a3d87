//! Terms in the place of variables.

ghost use Rattle.std.specs.Prelude.{ℕ, ◌≡◌, ◌+◌, IfOk};
ghost use Rattle.cpp_tree.specs.cpp_types.Typ.{Typ};
ghost use Rattle.symbolic_source.specs.Replacing.{in_term, in_exception, in_puts, in_terms};
ghost use Rattle.symbolic_terms.specs.Words.{term_of, exception_of, puts_of};
ghost use Rattle.symbolic_terms.specs.Meanings.{Meaning, word_of, thrown_of, given_of, words_of, Agrees};
ghost use Rattle.symbolic_terms.specs.Replaced.{replacing_of};

use crate::arena::keep;
use crate::ids::{ExceptionId, PutsId, Terms, WordId};
use crate::refusal::Refusal;
use crate::sums::{multiplied, one_less, summed};
use crate::terms::{Exception, Puts, Term};
use crate::words::{self, Words, made, made_exception, made_puts, term};
use bumpalo::Bump;

/// What comes in the place of each variable.
#[derive(Clone, Copy)]
pub enum Replacing<'a> {
    /// Each variable has the next number.
    Later,
    /// Each unknown exception has the next number.
    Rising,
    /// The word of a variable stands at its number, or is the number 0 past the end; the exception likewise, or is the
    /// unknown one with number 0.
    Table {
        words: &'a [Term<'a>],
        exceptions: &'a [Exception<'a>],
    },
}

// The number behind this one.
fn next(number: u32) -> Result<u32, Refusal>
    ensures { IfOk result (λ n. n ≡ number + 1) }
{
    match number.checked_add(1) {
        Some(next) => Ok(next),
        None => Err(Refusal::Beyond),
    }
}

// What comes in the place of a variable.
fn word_for<'a>(with: Replacing<'a>, number: u32) -> Result<Term<'a>, Refusal>
    ensures { IfOk result (λ w. (types : ℕ → Typ) → term_of types w ≡ (replacing_of types with.entry).word number) }
{
    match with {
        Replacing::Later => Ok(Term::Variable(next(number)?)),
        Replacing::Rising => Ok(Term::Variable(number)),
        Replacing::Table { words, .. } => match words.get(number as usize) {
            Some(word) => Ok(*word),
            None => Ok(Term::Number(0)),
        },
    }
}

// What comes in the place of an unknown exception.
fn exception_for<'a>(with: Replacing<'a>, number: u32) -> Result<Exception<'a>, Refusal>
    ensures { IfOk result (λ e. (types : ℕ → Typ) → exception_of types e ≡ (replacing_of types with.entry).exception number) }
{
    match with {
        Replacing::Later => Ok(Exception::Unknown(number)),
        Replacing::Rising => Ok(Exception::Unknown(next(number)?)),
        Replacing::Table { exceptions, .. } => match exceptions.get(number as usize) {
            Some(exception) => Ok(*exception),
            None => Ok(Exception::Unknown(0)),
        },
    }
}

/// A term with terms in the place of its variables.
#[cycle(replaced)]
pub fn replaced_term<'a>(
    arena: &'a Bump,
    with: Replacing<'a>,
    term: Term<'a>,
) -> Result<Term<'a>, Refusal>
    ensures { IfOk result (λ c. (types : ℕ → Typ) → term_of types c ≡ in_term (replacing_of types with.entry) (term_of types term.entry)) }
{
    match term {
        Term::Number(number) => Ok(Term::Number(number)),
        Term::Variable(number) => word_for(with, number),
        Term::Local(offset) => Ok(Term::Local(offset)),
        Term::Global(number) => Ok(Term::Global(number)),
        Term::Function(number) => Ok(Term::Function(number)),
        Term::Table(class) => Ok(Term::Table(class)),
        Term::SlotFunction {
            class,
            slot,
            address,
        } => {
            let address = keep(arena, replaced_term(arena, with, *address)?)?;
            Ok(Term::SlotFunction {
                class,
                slot,
                address,
            })
        }
        Term::Sum(left, right) => {
            let left = replaced_term(arena, with, *left)?;
            summed(arena, left, replaced_term(arena, with, *right)?)
        }
        Term::Product(left, right) => {
            let left = replaced_term(arena, with, *left)?;
            multiplied(arena, left, replaced_term(arena, with, *right)?)
        }
        Term::Before(of) => one_less(arena, replaced_term(arena, with, *of)?),
        Term::LowByte(of) => Ok(Term::LowByte(keep(arena, replaced_term(arena, with, *of)?)?)),
        Term::Converted(kind, of) => {
            Ok(Term::Converted(kind, keep(arena, replaced_term(arena, with, *of)?)?))
        }
        Term::Applied {
            op,
            kind,
            left,
            right,
        } => {
            let left = keep(arena, replaced_term(arena, with, *left)?)?;
            let right = keep(arena, replaced_term(arena, with, *right)?)?;
            Ok(Term::Applied {
                op,
                kind,
                left,
                right,
            })
        }
        Term::Field {
            exception,
            offset,
            size,
        } => {
            let exception = keep(arena, replaced_exception(arena, with, *exception)?)?;
            Ok(Term::Field {
                exception,
                offset,
                size,
            })
        }
    }
}

/// An exception with terms in the place of its variables.
#[cycle(replaced)]
pub fn replaced_exception<'a>(
    arena: &'a Bump,
    with: Replacing<'a>,
    exception: Exception<'a>,
) -> Result<Exception<'a>, Refusal>
    ensures { IfOk result (λ c. (types : ℕ → Typ) → exception_of types c ≡ in_exception (replacing_of types with.entry) (exception_of types exception.entry)) }
{
    match exception {
        Exception::Unknown(number) => exception_for(with, number),
        Exception::Made(typ, puts) => Ok(Exception::Made(typ, replaced_puts(arena, with, puts)?)),
    }
}

/// Words that were put into an exception, with terms in the place of their variables.
#[cycle(replaced)]
pub fn replaced_puts<'a>(
    arena: &'a Bump,
    with: Replacing<'a>,
    puts: Puts<'a>,
) -> Result<Puts<'a>, Refusal>
    ensures { IfOk result (λ c. (types : ℕ → Typ) → puts_of types c ≡ in_puts (replacing_of types with.entry) (puts_of types puts.entry)) }
{
    match puts {
        Puts::Untouched => Ok(Puts::Untouched),
        Puts::Put {
            offset,
            size,
            word,
            others,
        } => {
            let word = keep(arena, replaced_term(arena, with, *word)?)?;
            let others = keep(arena, replaced_puts(arena, with, *others)?)?;
            Ok(Puts::Put {
                offset,
                size,
                word,
                others,
            })
        }
    }
}

/// A word with terms in the place of its variables.
pub fn replaced_word<'a>(
    arena: &'a Bump,
    words: &mut Words<'a>,
    with: Replacing<'a>,
    word: WordId,
) -> Result<WordId, Refusal>
    ensures is { IfOk result (λ w. (types : ℕ → Typ) (m : Meaning) → Agrees types m words.new → word_of m w ≡ in_term (replacing_of types with.entry) (word_of m word)) }
    ensures grows { (types : ℕ → Typ) (m : Meaning) → Agrees types m words.new → Agrees types m words.old }
{
    let replaced = replaced_term(arena, with, term(words, word)?)?;
    made(words, replaced)
}

/// An exception with terms in the place of its variables.
pub fn replaced_thrown<'a>(
    arena: &'a Bump,
    words: &mut Words<'a>,
    with: Replacing<'a>,
    exception: ExceptionId,
) -> Result<ExceptionId, Refusal>
    ensures is { IfOk result (λ e. (types : ℕ → Typ) (m : Meaning) → Agrees types m words.new → thrown_of m e ≡ in_exception (replacing_of types with.entry) (thrown_of m exception)) }
    ensures grows { (types : ℕ → Typ) (m : Meaning) → Agrees types m words.new → Agrees types m words.old }
{
    let replaced = replaced_exception(arena, with, words::exception(words, exception)?)?;
    made_exception(words, replaced)
}

/// What was put into an exception, with terms in the place of its variables.
pub fn replaced_given<'a>(
    arena: &'a Bump,
    words: &mut Words<'a>,
    with: Replacing<'a>,
    puts: PutsId,
) -> Result<PutsId, Refusal>
    ensures is { IfOk result (λ q. (types : ℕ → Typ) (m : Meaning) → Agrees types m words.new → given_of m q ≡ in_puts (replacing_of types with.entry) (given_of m puts)) }
    ensures grows { (types : ℕ → Typ) (m : Meaning) → Agrees types m words.new → Agrees types m words.old }
{
    let replaced = replaced_puts(arena, with, words::given(words, puts)?)?;
    made_puts(words, replaced)
}

/// Words with terms in the place of their variables.
pub fn replaced_words<'a>(
    arena: &'a Bump,
    words: &mut Words<'a>,
    with: Replacing<'a>,
    list: Terms<'a>,
) -> Result<Terms<'a>, Refusal>
    ensures is { IfOk result (λ ws. (types : ℕ → Typ) (m : Meaning) → Agrees types m words.new → words_of m ws ≡ in_terms (replacing_of types with.entry) (words_of m list.entry)) }
    ensures grows { (types : ℕ → Typ) (m : Meaning) → Agrees types m words.new → Agrees types m words.old }
{
    match list {
        Terms::Empty => Ok(Terms::Empty),
        Terms::More(word, rest) => {
            let word = replaced_word(arena, words, with, word)?;
            let rest = keep(arena, replaced_words(arena, words, with, *rest)?)?;
            Ok(Terms::More(word, rest))
        }
    }
}
