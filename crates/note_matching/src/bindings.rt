//! What has come in the place of variables so far.

use bumpalo::Bump;
use std::alloc::Global;
use symbolic_terms::comparison::{equal_exceptions, equal_terms};
use symbolic_terms::refusal::Refusal;
use symbolic_terms::replacing::Replacing;
use symbolic_terms::terms::{Exception, Term};

/// A term of a note, and the one that was computed in its place.
#[derive(Clone, Copy)]
pub(crate) struct Pair<'a> {
    pub note: Term<'a>,
    pub made: Term<'a>,
}

/// Terms and exceptions by the numbers of the variables, and these numbers in the order in which the variables came.
#[derive(Drop)]
pub(crate) struct Bindings<'a> {
    pub words: Vec<Option<Term<'a>>>,
    pub exceptions: Vec<Option<Exception<'a>>>,
    pub word_order: Vec<u32>,
    pub exception_order: Vec<u32>,
    /// What is looked at last: sums, products and differences.
    pub later: Vec<Pair<'a>>,
}

/// How many variables a note may have.
const MOST_VARIABLES: usize = 4096;

/// Nothing has come yet.
pub(crate) fn no_bindings<'a>(alloc: Global) -> Bindings<'a> {
    Bindings {
        words: Vec::new(alloc),
        exceptions: Vec::new(alloc),
        word_order: Vec::new(alloc),
        exception_order: Vec::new(alloc),
        later: Vec::new(alloc),
    }
}

/// The term of a variable.
pub(crate) fn word_of<'a>(bindings: &Bindings<'a>, number: u32) -> Option<Term<'a>> {
    *bindings.words.get(number as usize)?
}

/// The exception of a variable.
pub(crate) fn exception_of<'a>(bindings: &Bindings<'a>, number: u32) -> Option<Exception<'a>> {
    *bindings.exceptions.get(number as usize)?
}

// This term at this place.
fn set_word<'a>(words: &mut Vec<Option<Term<'a>>>, at: usize, made: Term<'a>) {
    if let Some(place) = words.get_mut(at) {
        *place = Some(made);
    }
}

// This exception at this place.
fn set_exception<'a>(exceptions: &mut Vec<Option<Exception<'a>>>, at: usize, made: Exception<'a>) {
    if let Some(place) = exceptions.get_mut(at) {
        *place = Some(made);
    }
}

// This term comes in the place of a variable that has none yet; not where the number is too large.
fn add_word<'a>(bindings: &mut Bindings<'a>, number: u32, made: Term<'a>) -> Result<bool, Refusal> {
    let at = number as usize;
    if MOST_VARIABLES <= at {
        return Ok(false);
    }
    grow_words(&mut bindings.words, at)?;
    bindings.word_order.push(number)?;
    set_word(&mut bindings.words, at, made);
    Ok(true)
}

// This exception comes in the place of a variable that has none yet; not where the number is too large.
fn add_exception<'a>(
    bindings: &mut Bindings<'a>,
    number: u32,
    made: Exception<'a>,
) -> Result<bool, Refusal> {
    let at = number as usize;
    if MOST_VARIABLES <= at {
        return Ok(false);
    }
    grow_exceptions(&mut bindings.exceptions, at)?;
    bindings.exception_order.push(number)?;
    set_exception(&mut bindings.exceptions, at, made);
    Ok(true)
}

/// This term comes in the place of a variable; not where another one has come, or the number is too large.
pub(crate) fn put_word<'a>(
    bindings: &mut Bindings<'a>,
    number: u32,
    made: Term<'a>,
) -> Result<bool, Refusal> {
    match word_of(bindings, number) {
        Some(word) => Ok(equal_terms(&word, &made)),
        None => add_word(bindings, number, made),
    }
}

/// This exception comes in the place of a variable; not where another one has come, or the number is too large.
pub(crate) fn put_exception<'a>(
    bindings: &mut Bindings<'a>,
    number: u32,
    made: Exception<'a>,
) -> Result<bool, Refusal> {
    match exception_of(bindings, number) {
        Some(exception) => Ok(equal_exceptions(&exception, &made)),
        None => add_exception(bindings, number, made),
    }
}

/// These two are looked at last.
pub(crate) fn put_later<'a>(
    bindings: &mut Bindings<'a>,
    note: Term<'a>,
    made: Term<'a>,
) -> Result<bool, Refusal> {
    bindings.later.push(Pair { note, made })?;
    Ok(true)
}

// The list has a place for this number.
fn grow_words<'a>(words: &mut Vec<Option<Term<'a>>>, at: usize) -> Result<(), Refusal> {
    for _ in words.len()..MOST_VARIABLES {
        if at < words.len() {
            return Ok(());
        }
        words.push(None)?;
    }
    Ok(())
}

// The list has a place for this number.
fn grow_exceptions<'a>(
    exceptions: &mut Vec<Option<Exception<'a>>>,
    at: usize,
) -> Result<(), Refusal> {
    for _ in exceptions.len()..MOST_VARIABLES {
        if at < exceptions.len() {
            return Ok(());
        }
        exceptions.push(None)?;
    }
    Ok(())
}

// The terms in a table, with the number 0 where none has come.
fn fill_words<'a>(table: &mut Vec<Term<'a>>, words: &[Option<Term<'a>>]) -> Result<(), Refusal> {
    for word in words {
        table.push(word.unwrap_or(Term::Number(0)))?;
    }
    Ok(())
}

fn words_kept<'a>(
    arena: &'a Bump,
    alloc: Global,
    words: &[Option<Term<'a>>],
) -> Result<&'a [Term<'a>], Refusal> {
    let mut table = Vec::new(alloc);
    fill_words(&mut table, words)?;
    Ok(arena.try_alloc_slice_copy(&table)?)
}

// The exceptions in a table, with the unknown one with number 0 where none has come.
fn fill_exceptions<'a>(
    table: &mut Vec<Exception<'a>>,
    exceptions: &[Option<Exception<'a>>],
) -> Result<(), Refusal> {
    for exception in exceptions {
        table.push(exception.unwrap_or(Exception::Unknown(0)))?;
    }
    Ok(())
}

fn exceptions_kept<'a>(
    arena: &'a Bump,
    alloc: Global,
    exceptions: &[Option<Exception<'a>>],
) -> Result<&'a [Exception<'a>], Refusal> {
    let mut table = Vec::new(alloc);
    fill_exceptions(&mut table, exceptions)?;
    Ok(arena.try_alloc_slice_copy(&table)?)
}

/// What has come, as what is put in the place of variables.
pub(crate) fn replacing_by<'a>(
    arena: &'a Bump,
    alloc: Global,
    bindings: &Bindings<'a>,
) -> Result<Replacing<'a>, Refusal> {
    let words = words_kept(arena, alloc, &bindings.words)?;
    let exceptions = exceptions_kept(arena, alloc, &bindings.exceptions)?;
    Ok(Replacing::Table { words, exceptions })
}

/// Each variable that has come gets its place in the order as its number.
pub(crate) fn number_all<'a>(bindings: &mut Bindings<'a>) {
    let mut next: u32 = 0;
    for number in &bindings.word_order {
        set_word(&mut bindings.words, *number as usize, Term::Variable(next));
        next = next.saturating_add(1);
    }
    let mut next: u32 = 0;
    for number in &bindings.exception_order {
        let known = Exception::Unknown(next);
        set_exception(&mut bindings.exceptions, *number as usize, known);
        next = next.saturating_add(1);
    }
}
