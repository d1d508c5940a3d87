//! Words and exceptions by their numbers, so that frames that hold them are small.

ghost use Rattle.std.specs.Prelude.{ℕ, ◌≡◌, Some, IfOk, slice_get};
ghost use Rattle.cpp_tree.specs.cpp_types.Typ.{Typ};
ghost use Rattle.symbolic_terms.specs.Words.{term_of, exception_of, puts_of};
ghost use Rattle.symbolic_terms.specs.Meanings.{Meaning, word_of, thrown_of, given_of, Agrees};

use crate::ids::{ExceptionId, PutsId, WordId};
use crate::refusal::Refusal;
use crate::terms::{Exception, Puts, Term};

/// What was made: each word, exception and list of puts stands at its number.
#[derive(Drop)]
pub struct Words<'a> {
    pub terms: Vec<Term<'a>>,
    pub exceptions: Vec<Exception<'a>>,
    pub puts: Vec<Puts<'a>>,
}

/// The term with this number. A number that was not given is refused.
pub fn term<'a>(words: &Words<'a>, id: WordId) -> Result<Term<'a>, Refusal>
    ensures { IfOk result (λ t. (types : ℕ → Typ) (m : Meaning) → Agrees types m words.now → word_of m id ≡ term_of types t) }
{
    match words.terms.get(id.number as usize) {
        Some(term) => Ok(*term),
        None => Err(Refusal::NotMade),
    }
}

/// The exception with this number. A number that was not given is refused.
pub fn exception<'a>(words: &Words<'a>, id: ExceptionId) -> Result<Exception<'a>, Refusal>
    ensures { IfOk result (λ t. (types : ℕ → Typ) (m : Meaning) → Agrees types m words.now → thrown_of m id ≡ exception_of types t) }
{
    match words.exceptions.get(id.number as usize) {
        Some(exception) => Ok(*exception),
        None => Err(Refusal::NotMade),
    }
}

/// What was put into an exception, with this number. A number that was not given is refused.
pub fn given<'a>(words: &Words<'a>, id: PutsId) -> Result<Puts<'a>, Refusal>
    ensures { IfOk result (λ t. (types : ℕ → Typ) (m : Meaning) → Agrees types m words.now → given_of m id ≡ puts_of types t) }
{
    match words.puts.get(id.number as usize) {
        Some(puts) => Ok(*puts),
        None => Err(Refusal::NotMade),
    }
}

// Places a value behind the others of a list, and gives its number.
#[tactic(auto, using(crate::proofs::Pushed::at_end, crate::proofs::Pushed::within, crate::proofs::Pushed::alike))]
fn pushed<T: Copy>(list: &mut Vec<T>, value: T) -> Result<u32, Refusal>
    ensures stands { IfOk result (λ n. slice_get list.new.items n ≡ Some value) }
    ensures stay { (n : ℕ) (v : T) → slice_get list.old.items n ≡ Some v → slice_get list.new.items n ≡ Some v }
{
    let number = list.len();
    if number > 0xffff_ffff {
        return Err(Refusal::Beyond);
    }
    list.push(value)?;
    Ok(number as u32)
}

/// A number for a term.
pub fn made<'a>(words: &mut Words<'a>, term: Term<'a>) -> Result<WordId, Refusal>
    ensures is { IfOk result (λ w. (types : ℕ → Typ) (m : Meaning) → Agrees types m words.new → word_of m w ≡ term_of types term.entry) }
    ensures grows { (types : ℕ → Typ) (m : Meaning) → Agrees types m words.new → Agrees types m words.old }
{
    let number = pushed(&mut words.terms, term)?;
    Ok(WordId { number })
}

/// A number for an exception.
pub fn made_exception<'a>(
    words: &mut Words<'a>,
    exception: Exception<'a>,
) -> Result<ExceptionId, Refusal>
    ensures is { IfOk result (λ w. (types : ℕ → Typ) (m : Meaning) → Agrees types m words.new → thrown_of m w ≡ exception_of types exception.entry) }
    ensures grows { (types : ℕ → Typ) (m : Meaning) → Agrees types m words.new → Agrees types m words.old }
{
    let number = pushed(&mut words.exceptions, exception)?;
    Ok(ExceptionId { number })
}

/// A number for what was put into an exception.
pub fn made_puts<'a>(words: &mut Words<'a>, puts: Puts<'a>) -> Result<PutsId, Refusal>
    ensures is { IfOk result (λ w. (types : ℕ → Typ) (m : Meaning) → Agrees types m words.new → given_of m w ≡ puts_of types puts.entry) }
    ensures grows { (types : ℕ → Typ) (m : Meaning) → Agrees types m words.new → Agrees types m words.old }
{
    let number = pushed(&mut words.puts, puts)?;
    Ok(PutsId { number })
}
