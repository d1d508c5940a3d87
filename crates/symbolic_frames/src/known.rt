//! What is known of words.

ghost use Rattle.std.specs.Prelude.{ℕ, ◌≡◌, IfOk, IsTrue};
ghost use Rattle.cpp_tree.specs.cpp_types.Typ.{Typ};
ghost use Rattle.cpp_tree.specs.declared.program.Program.{Program};
ghost use Rattle.src_mean.specs.Linked.{Func};
ghost use Rattle.symbolic_code.specs.Facts.{Evident, Among, AllAmong, is_not_zero as is_known, settled as settled_by};
ghost use Rattle.symbolic_terms.specs.Meanings.{Meaning, word_of, Agrees};
ghost use Rattle.symbolic_terms.specs.Shown.{fact_of, facts_of, outcome_of};

use symbolic_terms::comparison::{equal_words, same_word};
use symbolic_terms::ids::WordId;
use symbolic_terms::outcomes::Outcome;
use symbolic_terms::places::{Fact, Facts};
use symbolic_terms::refusal::Refusal;
use symbolic_terms::terms::Term;
use symbolic_terms::words::{Words, term};

/// Whether two facts are one.
pub fn equal_fact(words: &Words<'_>, left: &Fact, right: &Fact) -> bool
    ensures shows { IsTrue result → (types : ℕ → Typ) (m : Meaning) → Agrees types m words.now → fact_of types m left.now ≡ fact_of types m right.now }
{
    match (left, right) {
        (Fact::NotZero(word), Fact::NotZero(other_word)) => equal_words(words, *word, *other_word),
        (
            Fact::HasFunction {
                class,
                slot,
                address,
            },
            Fact::HasFunction {
                class: other_class,
                slot: other_slot,
                address: other_address,
            },
        ) => *class == *other_class
            && *slot == *other_slot
            && equal_words(words, *address, *other_address),
        _ => false,
    }
}

/// Whether two lists of facts are one.
pub fn equal_facts(words: &Words<'_>, left: &Facts<'_>, right: &Facts<'_>) -> bool
    ensures shows { IsTrue result → (types : ℕ → Typ) (m : Meaning) → Agrees types m words.now → facts_of types m left.now ≡ facts_of types m right.now }
{
    match (left, right) {
        (Facts::Empty, Facts::Empty) => true,
        (Facts::More(fact, rest), Facts::More(other, others)) => {
            equal_fact(words, fact, other) && equal_facts(words, rest, others)
        }
        _ => false,
    }
}

/// Whether a fact holds of itself.
pub fn is_evident(words: &Words<'_>, fact: &Fact) -> bool
    ensures shows { IsTrue result → (types : ℕ → Typ) (m : Meaning) → Agrees types m words.now → Evident (fact_of types m fact.now) }
{
    match fact {
        Fact::NotZero(word) => match term(words, *word) {
            Ok(Term::Number(number)) => number != 0,
            _ => false,
        },
        Fact::HasFunction { .. } => false,
    }
}

/// Whether a fact is among others, or holds of itself.
pub fn is_among(words: &Words<'_>, fact: &Fact, facts: &Facts<'_>) -> bool
    ensures shows { IsTrue result → (types : ℕ → Typ) (m : Meaning) → Agrees types m words.now → Among (fact_of types m fact.now) (facts_of types m facts.now) }
{
    match facts {
        Facts::Empty => is_evident(words, fact),
        Facts::More(other, rest) => equal_fact(words, fact, other) || is_among(words, fact, rest),
    }
}

/// Whether each of these facts is among others, or holds of itself.
pub fn are_among(words: &Words<'_>, facts: &Facts<'_>, others: &Facts<'_>) -> bool
    ensures shows { IsTrue result → (types : ℕ → Typ) (m : Meaning) → Agrees types m words.now → AllAmong (facts_of types m facts.now) (facts_of types m others.now) }
{
    match facts {
        Facts::Empty => true,
        Facts::More(fact, rest) => is_among(words, fact, others) && are_among(words, rest, others),
    }
}

/// Whether it is known that a word is not 0.
pub fn is_not_zero(words: &Words<'_>, facts: &Facts<'_>, word: WordId) -> Result<bool, Refusal>
    ensures { IfOk result (λ yes. (types : ℕ → Typ) (m : Meaning) → Agrees types m words.now → yes ≡ is_known (facts_of types m facts.now) (word_of m word)) }
{
    match facts {
        Facts::Empty => Ok(false),
        Facts::More(Fact::NotZero(known), rest) => {
            if same_word(words, *known, word)? {
                return Ok(true);
            }
            is_not_zero(words, rest, word)
        }
        Facts::More(Fact::HasFunction { .. }, rest) => is_not_zero(words, rest, word),
    }
}

/// The outcome with each decision at its root made that is made by what is known.
#[tactic(auto, using(crate::proofs::Settled::settled_plain))]
pub fn settled<'a>(
    words: &Words<'_>,
    facts: Facts<'a>,
    outcome: Outcome<'a>,
) -> Result<Outcome<'a>, Refusal>
    ensures { IfOk result (λ o. (types : ℕ → Typ) (m : Meaning) (p : Program) (f : Func) → Agrees types m words.now → outcome_of types m p f o ≡ settled_by (facts_of types m facts.entry) (outcome_of types m p f outcome.entry)) }
{
    match outcome {
        Outcome::Chooses { word, zero, other } => {
            if is_not_zero(words, &facts, word)? {
                settled(words, facts, *other)
            } else {
                Ok(Outcome::Chooses { word, zero, other })
            }
        }
        other => Ok(other),
    }
}
