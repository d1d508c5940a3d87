//! What comes in the place of a note's variables.

use crate::bindings::{Bindings, no_bindings, number_all, replacing_by};
use crate::form::Form;
use crate::terms::{bind_exception, bind_later, bind_term, has_come};
use bumpalo::Bump;
use std::alloc::Global;
use symbolic_terms::arena::keep;
use symbolic_terms::ids::WordId;
use symbolic_terms::places::{Fact, Facts};
use symbolic_terms::refusal::Refusal;
use symbolic_terms::replacing::Replacing;
use symbolic_terms::terms::{Exception, Term};
use symbolic_terms::words::{Words, term};

// Terms against terms.
fn bind_terms<'a>(
    bindings: &mut Bindings<'a>,
    note: &[Term<'a>],
    made: &[Term<'a>],
) -> Result<bool, Refusal> {
    for (left, right) in note.iter().zip(made.iter()) {
        if !bind_term(bindings, *left, *right)? {
            return Ok(false);
        }
    }
    Ok(note.len() == made.len())
}

// Exceptions against exceptions.
fn bind_exceptions<'a>(
    bindings: &mut Bindings<'a>,
    note: &[Exception<'a>],
    made: &[Exception<'a>],
) -> Result<bool, Refusal> {
    for (left, right) in note.iter().zip(made.iter()) {
        if !bind_exception(bindings, *left, *right)? {
            return Ok(false);
        }
    }
    Ok(note.len() == made.len())
}

// A form against another.
fn bind_form<'a>(
    bindings: &mut Bindings<'a>,
    note: Form<'a>,
    made: Form<'a>,
) -> Result<bool, Refusal> {
    if !bind_exceptions(bindings, note.exceptions, made.exceptions)? {
        return Ok(false);
    }
    if !bind_terms(bindings, note.terms, made.terms)? {
        return Ok(false);
    }
    bind_later(bindings)?;
    Ok(true)
}

// What comes in the place of variables, where nothing has come yet.
fn found_between<'a>(
    arena: &'a Bump,
    alloc: Global,
    bindings: &mut Bindings<'a>,
    note: Form<'a>,
    made: Form<'a>,
) -> Result<Option<Replacing<'a>>, Refusal> {
    if !bind_form(bindings, note, made)? {
        return Ok(None);
    }
    Ok(Some(replacing_by(arena, alloc, bindings)?))
}

/// What comes in the place of the variables of a note, where what was computed may have its form.
pub fn terms_between<'a>(
    arena: &'a Bump,
    alloc: Global,
    note: Form<'a>,
    made: Form<'a>,
) -> Result<Option<Replacing<'a>>, Refusal> {
    let mut bindings = no_bindings(alloc);
    found_between(arena, alloc, &mut bindings, note, made)
}

/// The numbers 0, 1, .. in the place of the variables of a form, in the order in which these come, and the facts whose
/// variables have come.
#[derive(Clone, Copy)]
pub struct Numbering<'a> {
    pub with: Replacing<'a>,
    pub facts: Facts<'a>,
}

// Whether each variable of a word has come.
fn word_has_come<'a>(
    words: &Words<'a>,
    bindings: &Bindings<'a>,
    word: WordId,
) -> Result<bool, Refusal> {
    let whole = term(words, word)?;
    Ok(has_come(bindings, &whole))
}

// Whether each variable of a fact has come.
fn fact_has_come<'a>(
    words: &Words<'a>,
    bindings: &Bindings<'a>,
    fact: Fact,
) -> Result<bool, Refusal> {
    match fact {
        Fact::NotZero(word) => word_has_come(words, bindings, word),
        Fact::HasFunction { address, .. } => word_has_come(words, bindings, address),
    }
}

// The facts whose variables have come.
fn facts_kept<'a>(
    arena: &'a Bump,
    words: &Words<'a>,
    bindings: &Bindings<'a>,
    facts: Facts<'a>,
) -> Result<Facts<'a>, Refusal> {
    match facts {
        Facts::Empty => Ok(Facts::Empty),
        Facts::More(fact, rest) => {
            let others = facts_kept(arena, words, bindings, *rest)?;
            if fact_has_come(words, bindings, fact)? {
                Ok(Facts::More(fact, keep(arena, others)?))
            } else {
                Ok(others)
            }
        }
    }
}

// Other numbers for the variables of a form, where nothing has come yet.
fn numbered<'a>(
    arena: &'a Bump,
    words: &Words<'a>,
    alloc: Global,
    bindings: &mut Bindings<'a>,
    form: Form<'a>,
    facts: Facts<'a>,
) -> Result<Numbering<'a>, Refusal> {
    let _bound = bind_form(bindings, form, form)?;
    let facts = facts_kept(arena, words, bindings, facts)?;
    number_all(bindings);
    let with = replacing_by(arena, alloc, bindings)?;
    Ok(Numbering { with, facts })
}

/// Other numbers for the variables of a form.
pub fn renumbered<'a>(
    arena: &'a Bump,
    words: &Words<'a>,
    alloc: Global,
    form: Form<'a>,
    facts: Facts<'a>,
) -> Result<Numbering<'a>, Refusal> {
    let mut bindings = no_bindings(alloc);
    numbered(arena, words, alloc, &mut bindings, form, facts)
}
