//! The terms and exceptions of a place and an outcome.

use crate::outcomes::{put_outcome, put_place};
use bumpalo::Bump;
use std::alloc::Global;
use symbolic_terms::ids::{ExceptionId, Exceptions, PutsId, Terms, WordId};
use symbolic_terms::outcomes::Outcome;
use symbolic_terms::places::Place;
use symbolic_terms::refusal::Refusal;
use symbolic_terms::terms::{Exception, Puts, Term};
use symbolic_terms::words::{Words, exception, given, term};

/// The terms and exceptions of a place and an outcome, in the order in which they stand; behind them the terms that were
/// put into exceptions.
#[derive(Clone, Copy)]
pub struct Form<'a> {
    pub terms: &'a [Term<'a>],
    pub exceptions: &'a [Exception<'a>],
}

/// Words, exceptions and what was put into exceptions, as far as they have been found.
#[derive(Drop)]
pub(crate) struct Found {
    pub words: Vec<WordId>,
    pub exceptions: Vec<ExceptionId>,
    pub puts: Vec<PutsId>,
}

// The terms and exceptions of what has been found.
#[derive(Drop)]
struct Read<'a> {
    terms: Vec<Term<'a>>,
    exceptions: Vec<Exception<'a>>,
}

/// One more word.
pub(crate) fn put(found: &mut Found, word: WordId) -> Result<(), Refusal> {
    found.words.push(word)?;
    Ok(())
}

/// Two more words.
pub(crate) fn put_two(found: &mut Found, first: WordId, second: WordId) -> Result<(), Refusal> {
    put(found, first)?;
    put(found, second)
}

/// Three more words.
pub(crate) fn put_three(
    found: &mut Found,
    first: WordId,
    second: WordId,
    third: WordId,
) -> Result<(), Refusal> {
    put(found, first)?;
    put_two(found, second, third)
}

/// One more exception.
pub(crate) fn put_thrown(found: &mut Found, exception: ExceptionId) -> Result<(), Refusal> {
    found.exceptions.push(exception)?;
    Ok(())
}

/// More words.
pub(crate) fn put_terms<'a>(found: &mut Found, words: Terms<'a>) -> Result<(), Refusal> {
    match words {
        Terms::Empty => Ok(()),
        Terms::More(word, rest) => {
            put(found, word)?;
            put_terms(found, *rest)
        }
    }
}

/// More exceptions.
pub(crate) fn put_exceptions<'a>(
    found: &mut Found,
    exceptions: Exceptions<'a>,
) -> Result<(), Refusal> {
    match exceptions {
        Exceptions::Empty => Ok(()),
        Exceptions::More(exception, rest) => {
            put_thrown(found, exception)?;
            put_exceptions(found, *rest)
        }
    }
}

/// The words that were put into an exception.
pub(crate) fn put_puts(found: &mut Found, puts: PutsId) -> Result<(), Refusal> {
    found.puts.push(puts)?;
    Ok(())
}

// The terms of words.
fn read_words<'a>(
    words: &Words<'a>,
    terms: &mut Vec<Term<'a>>,
    found: &[WordId],
) -> Result<(), Refusal> {
    for word in found {
        terms.push(term(words, *word)?)?;
    }
    Ok(())
}

// The exceptions with these numbers.
fn read_exceptions<'a>(
    words: &Words<'a>,
    exceptions: &mut Vec<Exception<'a>>,
    found: &[ExceptionId],
) -> Result<(), Refusal> {
    for thrown in found {
        exceptions.push(exception(words, *thrown)?)?;
    }
    Ok(())
}

// The terms that were put into an exception.
fn read_given<'a>(terms: &mut Vec<Term<'a>>, puts: Puts<'a>) -> Result<(), Refusal> {
    match puts {
        Puts::Untouched => Ok(()),
        Puts::Put { word, others, .. } => {
            terms.push(*word)?;
            read_given(terms, *others)
        }
    }
}

// The terms that were put into exceptions.
fn read_puts<'a>(
    words: &Words<'a>,
    terms: &mut Vec<Term<'a>>,
    found: &[PutsId],
) -> Result<(), Refusal> {
    for puts in found {
        read_given(terms, given(words, *puts)?)?;
    }
    Ok(())
}

// The terms and exceptions of what has been found.
fn read_all<'a>(words: &Words<'a>, read: &mut Read<'a>, found: &Found) -> Result<(), Refusal> {
    read_words(words, &mut read.terms, &found.words)?;
    read_puts(words, &mut read.terms, &found.puts)?;
    read_exceptions(words, &mut read.exceptions, &found.exceptions)
}

// What has been read, in the arena.
fn form_kept<'a>(arena: &'a Bump, read: &Read<'a>) -> Result<Form<'a>, Refusal> {
    let terms = arena.try_alloc_slice_copy(&read.terms)?;
    let exceptions = arena.try_alloc_slice_copy(&read.exceptions)?;
    Ok(Form { terms, exceptions })
}

// The form of what has been found, where nothing has been read yet.
fn form_read<'a>(
    arena: &'a Bump,
    words: &Words<'a>,
    read: &mut Read<'a>,
    found: &Found,
) -> Result<Form<'a>, Refusal> {
    read_all(words, read, found)?;
    form_kept(arena, read)
}

// The words and exceptions of a place and an outcome.
fn put_all<'a>(found: &mut Found, place: Place<'a>, outcome: Outcome<'a>) -> Result<(), Refusal> {
    put_place(found, place)?;
    put_outcome(found, outcome)
}

// The form of a place and an outcome, where nothing has been found or read yet.
fn form_found<'a>(
    arena: &'a Bump,
    words: &Words<'a>,
    found: &mut Found,
    read: &mut Read<'a>,
    place: Place<'a>,
    outcome: Outcome<'a>,
) -> Result<Form<'a>, Refusal> {
    put_all(found, place, outcome)?;
    form_read(arena, words, read, found)
}

/// The terms and exceptions of a place and an outcome, in the order in which they stand.
pub fn form_of<'a>(
    arena: &'a Bump,
    words: &Words<'a>,
    alloc: Global,
    place: Place<'a>,
    outcome: Outcome<'a>,
) -> Result<Form<'a>, Refusal> {
    let mut found = Found {
        words: Vec::new(alloc),
        exceptions: Vec::new(alloc),
        puts: Vec::new(alloc),
    };
    let mut read = Read {
        terms: Vec::new(alloc),
        exceptions: Vec::new(alloc),
    };
    form_found(arena, words, &mut found, &mut read, place, outcome)
}
