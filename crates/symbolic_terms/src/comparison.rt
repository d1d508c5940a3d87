//! Whether terms are the same.

ghost use Rattle.std.specs.Prelude.{ℕ, ◌≡◌, IfOk, IsTrue, ◌↔◌};
ghost use Rattle.cpp_tree.specs.cpp_types.Typ.{Typ};
ghost use Rattle.symbolic_code.specs.Same.{same_term as is_same_term, same_exception as is_same_exception};
ghost use Rattle.symbolic_terms.specs.Words.{numbered, term_of, exception_of, puts_of};
ghost use Rattle.symbolic_terms.specs.Meanings.{Meaning, word_of, thrown_of, given_of, words_of, all_thrown, Agrees};

use crate::ids::{ExceptionId, Exceptions, PutsId, Terms, WordId};
use crate::refusal::Refusal;
use crate::terms::{Exception, Puts, Term};
use crate::words::{Words, exception, given, term};

/// Whether two exceptions are one unknown one. Exceptions that were made are not compared.
pub fn same_exception(left: &Exception<'_>, right: &Exception<'_>) -> bool
    ensures { (types : ℕ → Typ) → result ≡ is_same_exception (exception_of types left.now) (exception_of types right.now) }
{
    match (left, right) {
        (Exception::Unknown(m), Exception::Unknown(n)) => *m == *n,
        _ => false,
    }
}

/// Whether two terms are the same, as the definitions of the checker compare them.
pub fn same_term(left: &Term<'_>, right: &Term<'_>) -> bool
    ensures { (types : ℕ → Typ) → result ≡ is_same_term (term_of types left.now) (term_of types right.now) }
{
    match (left, right) {
        (Term::Number(m), Term::Number(n)) => *m == *n,
        (Term::Variable(m), Term::Variable(n)) => *m == *n,
        (Term::Local(m), Term::Local(n)) => *m == *n,
        (Term::Global(m), Term::Global(n)) => *m == *n,
        (Term::Function(m), Term::Function(n)) => *m == *n,
        (Term::Table(m), Term::Table(n)) => *m == *n,
        (
            Term::SlotFunction {
                class,
                slot,
                address,
            },
            Term::SlotFunction {
                class: other_class,
                slot: other_slot,
                address: other_address,
            },
        ) => *class == *other_class && *slot == *other_slot && same_term(address, other_address),
        (Term::Sum(a, b), Term::Sum(c, d)) => same_term(a, c) && same_term(b, d),
        (Term::Product(a, b), Term::Product(c, d)) => same_term(a, c) && same_term(b, d),
        (Term::Before(a), Term::Before(c)) => same_term(a, c),
        (Term::LowByte(a), Term::LowByte(c)) => same_term(a, c),
        (Term::Converted(j, a), Term::Converted(k, c)) => *j == *k && same_term(a, c),
        (
            Term::Applied {
                op,
                kind,
                left: a,
                right: b,
            },
            Term::Applied {
                op: other_op,
                kind: other_kind,
                left: c,
                right: d,
            },
        ) => *op == *other_op && *kind == *other_kind && same_term(a, c) && same_term(b, d),
        (
            Term::Field {
                exception,
                offset,
                size,
            },
            Term::Field {
                exception: other_exception,
                offset: other_offset,
                size: other_size,
            },
        ) => {
            same_exception(exception, other_exception)
                && *offset == *other_offset
                && *size == *other_size
        }
        _ => false,
    }
}

/// Whether two terms are one, with all that was put into exceptions.
#[cycle(equal)]
pub fn equal_terms(left: &Term<'_>, right: &Term<'_>) -> bool
    ensures shows { IsTrue result → (types : ℕ → Typ) → term_of types left.now ≡ term_of types right.now }
    ensures own { term_of numbered left.now ≡ term_of numbered right.now → IsTrue result }
{
    match (left, right) {
        (Term::Number(m), Term::Number(n)) => *m == *n,
        (Term::Variable(m), Term::Variable(n)) => *m == *n,
        (Term::Local(m), Term::Local(n)) => *m == *n,
        (Term::Global(m), Term::Global(n)) => *m == *n,
        (Term::Function(m), Term::Function(n)) => *m == *n,
        (Term::Table(m), Term::Table(n)) => *m == *n,
        (
            Term::SlotFunction {
                class,
                slot,
                address,
            },
            Term::SlotFunction {
                class: other_class,
                slot: other_slot,
                address: other_address,
            },
        ) => *class == *other_class && *slot == *other_slot && equal_terms(address, other_address),
        (Term::Sum(a, b), Term::Sum(c, d)) => equal_terms(a, c) && equal_terms(b, d),
        (Term::Product(a, b), Term::Product(c, d)) => equal_terms(a, c) && equal_terms(b, d),
        (Term::Before(a), Term::Before(c)) => equal_terms(a, c),
        (Term::LowByte(a), Term::LowByte(c)) => equal_terms(a, c),
        (Term::Converted(j, a), Term::Converted(k, c)) => *j == *k && equal_terms(a, c),
        (
            Term::Applied {
                op,
                kind,
                left: a,
                right: b,
            },
            Term::Applied {
                op: other_op,
                kind: other_kind,
                left: c,
                right: d,
            },
        ) => *op == *other_op && *kind == *other_kind && equal_terms(a, c) && equal_terms(b, d),
        (
            Term::Field {
                exception,
                offset,
                size,
            },
            Term::Field {
                exception: other_exception,
                offset: other_offset,
                size: other_size,
            },
        ) => {
            *offset == *other_offset
                && *size == *other_size
                && equal_exceptions(exception, other_exception)
        }
        _ => false,
    }
}

/// Whether two exceptions are one.
#[cycle(equal)]
pub fn equal_exceptions(left: &Exception<'_>, right: &Exception<'_>) -> bool
    ensures shows { IsTrue result → (types : ℕ → Typ) → exception_of types left.now ≡ exception_of types right.now }
    ensures own { exception_of numbered left.now ≡ exception_of numbered right.now → IsTrue result }
{
    match (left, right) {
        (Exception::Unknown(m), Exception::Unknown(n)) => *m == *n,
        (Exception::Made(typ, puts), Exception::Made(other_typ, other_puts)) => {
            *typ == *other_typ && equal_puts(puts, other_puts)
        }
        _ => false,
    }
}

/// Whether the same words were put at the same places in the same order.
#[cycle(equal)]
pub fn equal_puts(left: &Puts<'_>, right: &Puts<'_>) -> bool
    ensures shows { IsTrue result → (types : ℕ → Typ) → puts_of types left.now ≡ puts_of types right.now }
    ensures own { puts_of numbered left.now ≡ puts_of numbered right.now → IsTrue result }
{
    match (left, right) {
        (Puts::Untouched, Puts::Untouched) => true,
        (
            Puts::Put {
                offset,
                size,
                word,
                others,
            },
            Puts::Put {
                offset: other_offset,
                size: other_size,
                word: other_word,
                others: other_others,
            },
        ) => {
            *offset == *other_offset
                && *size == *other_size
                && equal_terms(word, other_word)
                && equal_puts(others, other_others)
        }
        _ => false,
    }
}

/// Whether two words are the same, as the definitions of the checker compare them.
pub fn same_word(words: &Words<'_>, left: WordId, right: WordId) -> Result<bool, Refusal>
    ensures { IfOk result (λ yes. (types : ℕ → Typ) (m : Meaning) → Agrees types m words.now → yes ≡ is_same_term (word_of m left) (word_of m right)) }
{
    let left = term(words, left)?;
    let right = term(words, right)?;
    Ok(same_term(&left, &right))
}

/// Whether two words are one, with all that was put into exceptions.
pub fn equal_words(words: &Words<'_>, left: WordId, right: WordId) -> bool
    ensures shows { IsTrue result → (types : ℕ → Typ) (m : Meaning) → Agrees types m words.now → word_of m left ≡ word_of m right }
{
    if left.number == right.number {
        return true;
    }
    match (term(words, left), term(words, right)) {
        (Ok(left), Ok(right)) => equal_terms(&left, &right),
        _ => false,
    }
}

/// Whether two exceptions are one.
pub fn equal_thrown(words: &Words<'_>, left: ExceptionId, right: ExceptionId) -> bool
    ensures shows { IsTrue result → (types : ℕ → Typ) (m : Meaning) → Agrees types m words.now → thrown_of m left ≡ thrown_of m right }
{
    if left.number == right.number {
        return true;
    }
    match (exception(words, left), exception(words, right)) {
        (Ok(left), Ok(right)) => equal_exceptions(&left, &right),
        _ => false,
    }
}

/// Whether the same words were put at the same places in the same order.
pub fn equal_given(words: &Words<'_>, left: PutsId, right: PutsId) -> bool
    ensures shows { IsTrue result → (types : ℕ → Typ) (m : Meaning) → Agrees types m words.now → given_of m left ≡ given_of m right }
{
    if left.number == right.number {
        return true;
    }
    match (given(words, left), given(words, right)) {
        (Ok(left), Ok(right)) => equal_puts(&left, &right),
        _ => false,
    }
}

/// Whether two lists of words are one.
pub fn equal_lists(words: &Words<'_>, left: &Terms<'_>, right: &Terms<'_>) -> bool
    ensures shows { IsTrue result → (types : ℕ → Typ) (m : Meaning) → Agrees types m words.now → words_of m left.now ≡ words_of m right.now }
{
    match (left, right) {
        (Terms::Empty, Terms::Empty) => true,
        (Terms::More(word, rest), Terms::More(other, others)) => {
            equal_words(words, *word, *other) && equal_lists(words, rest, others)
        }
        _ => false,
    }
}

/// Whether two lists of exceptions are one.
pub fn equal_exception_lists(
    words: &Words<'_>,
    left: &Exceptions<'_>,
    right: &Exceptions<'_>,
) -> bool
    ensures shows { IsTrue result → (types : ℕ → Typ) (m : Meaning) → Agrees types m words.now → all_thrown m left.now ≡ all_thrown m right.now }
{
    match (left, right) {
        (Exceptions::Empty, Exceptions::Empty) => true,
        (Exceptions::More(exception, rest), Exceptions::More(other, others)) => {
            equal_thrown(words, *exception, *other) && equal_exception_lists(words, rest, others)
        }
        _ => false,
    }
}
