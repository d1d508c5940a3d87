//! Terms against terms.

use crate::bindings::{Bindings, Pair, exception_of, put_exception, put_later, put_word, word_of};
use symbolic_terms::comparison::equal_terms;
use symbolic_terms::refusal::Refusal;
use symbolic_terms::terms::{Exception, Puts, Term};

/// A term of a note against one that was computed: whether it may have the note's form.
#[cycle(bound)]
pub(crate) fn bind_term<'a>(
    bindings: &mut Bindings<'a>,
    note: Term<'a>,
    made: Term<'a>,
) -> Result<bool, Refusal> {
    match note {
        Term::Variable(number) => put_word(bindings, number, made),
        Term::Number(_) | Term::Local(_) | Term::Global(_) | Term::Function(_) | Term::Table(_) =>
            Ok(equal_terms(&note, &made)),
        Term::Sum(..) | Term::Product(..) | Term::Before(_) => put_later(bindings, note, made),
        Term::SlotFunction { address, .. } => match made {
            Term::SlotFunction { address: other, .. } => bind_term(bindings, *address, *other),
            _ => Ok(false),
        },
        Term::LowByte(of) => match made {
            Term::LowByte(other) => bind_term(bindings, *of, *other),
            _ => Ok(false),
        },
        Term::Converted(_, of) => match made {
            Term::Converted(_, other) => bind_term(bindings, *of, *other),
            _ => Ok(false),
        },
        Term::Applied { left, right, .. } => match made {
            Term::Applied {
                left: other_left,
                right: other_right,
                ..
            } => {
                if !bind_term(bindings, *left, *other_left)? {
                    return Ok(false);
                }
                bind_term(bindings, *right, *other_right)
            }
            _ => Ok(false),
        },
        Term::Field { exception, .. } => match made {
            Term::Field {
                exception: other,
                ..
            } => bind_exception(bindings, *exception, *other),
            _ => Ok(false),
        },
    }
}

/// An exception of a note against one that was computed.
#[cycle(bound)]
pub(crate) fn bind_exception<'a>(
    bindings: &mut Bindings<'a>,
    note: Exception<'a>,
    made: Exception<'a>,
) -> Result<bool, Refusal> {
    match note {
        Exception::Unknown(number) => put_exception(bindings, number, made),
        Exception::Made(typ, puts) => match made {
            Exception::Made(other_typ, other) => {
                if typ != other_typ {
                    return Ok(false);
                }
                bind_puts(bindings, puts, other)
            }
            Exception::Unknown(_) => Ok(false),
        },
    }
}

/// The words that were put into an exception.
#[cycle(bound)]
pub(crate) fn bind_puts<'a>(
    bindings: &mut Bindings<'a>,
    note: Puts<'a>,
    made: Puts<'a>,
) -> Result<bool, Refusal> {
    match note {
        Puts::Untouched => match made {
            Puts::Untouched => Ok(true),
            Puts::Put { .. } => Ok(false),
        },
        Puts::Put { word, others, .. } => match made {
            Puts::Put {
                word: other_word,
                others: other_others,
                ..
            } => {
                if !bind_term(bindings, *word, *other_word)? {
                    return Ok(false);
                }
                bind_puts(bindings, *others, *other_others)
            }
            Puts::Untouched => Ok(false),
        },
    }
}

// A variable that has nothing yet is this term.
fn solve<'a>(bindings: &mut Bindings<'a>, note: Term<'a>, made: Term<'a>) -> Result<(), Refusal> {
    if let Term::Variable(number) = note {
        if word_of(bindings, number).is_none() {
            let _put = put_word(bindings, number, made)?;
        }
    }
    Ok(())
}

// A number less, where a term is a number or a place in the frame.
fn less<'a>(term: Term<'a>, number: u64) -> Option<Term<'a>> {
    match term {
        Term::Number(sum) => Some(Term::Number(sum.checked_sub(number)?)),
        Term::Local(sum) => Some(Term::Local(sum.checked_sub(number)?)),
        _ => None,
    }
}

// One more.
fn above<'a>(term: Term<'a>) -> Option<Term<'a>> {
    match term {
        Term::Number(number) => Some(Term::Number(number.checked_add(1)?)),
        _ => None,
    }
}

// A sum of a variable and a number.
fn solve_sum<'a>(
    bindings: &mut Bindings<'a>,
    left: Term<'a>,
    right: Term<'a>,
    made: Term<'a>,
) -> Result<(), Refusal> {
    if let Term::Number(number) = right {
        if let Some(rest) = less(made, number) {
            solve(bindings, left, rest)?;
        }
    }
    Ok(())
}

// The parts of sums and products.
fn bind_parts<'a>(
    bindings: &mut Bindings<'a>,
    left: Term<'a>,
    right: Term<'a>,
    other_left: Term<'a>,
    other_right: Term<'a>,
) -> Result<(), Refusal> {
    let _left = bind_term(bindings, left, other_left)?;
    let _right = bind_term(bindings, right, other_right)?;
    Ok(())
}

// A sum: its parts are compared, or a variable is solved for.
fn bind_sum<'a>(
    bindings: &mut Bindings<'a>,
    left: Term<'a>,
    right: Term<'a>,
    made: Term<'a>,
) -> Result<(), Refusal> {
    match made {
        Term::Sum(other_left, other_right) => {
            bind_parts(bindings, left, right, *other_left, *other_right)
        }
        made => solve_sum(bindings, left, right, made),
    }
}

// A product.
fn bind_product<'a>(
    bindings: &mut Bindings<'a>,
    left: Term<'a>,
    right: Term<'a>,
    made: Term<'a>,
) -> Result<(), Refusal> {
    match made {
        Term::Product(other_left, other_right) => {
            bind_parts(bindings, left, right, *other_left, *other_right)
        }
        _ => Ok(()),
    }
}

// One less.
fn bind_before<'a>(
    bindings: &mut Bindings<'a>,
    of: Term<'a>,
    made: Term<'a>,
) -> Result<(), Refusal> {
    match made {
        Term::Before(other) => {
            let _of = bind_term(bindings, of, *other)?;
            Ok(())
        }
        made => match above(made) {
            Some(more) => solve(bindings, of, more),
            None => Ok(()),
        },
    }
}

// Sums, products and differences, where the parts of both are compared or a variable is solved for. Whether they are
// equal is not said.
fn bind_composed<'a>(bindings: &mut Bindings<'a>, pair: Pair<'a>) -> Result<(), Refusal> {
    match pair.note {
        Term::Sum(left, right) => bind_sum(bindings, *left, *right, pair.made),
        Term::Product(left, right) => bind_product(bindings, *left, *right, pair.made),
        Term::Before(of) => bind_before(bindings, *of, pair.made),
        _ => Ok(()),
    }
}

// One round of what is looked at last; its parts come in the next.
fn bind_round<'a>(bindings: &mut Bindings<'a>, from: usize) -> Result<usize, Refusal> {
    let to = bindings.later.len();
    for at in from..to {
        let Some(pair) = bindings.later.get(at) else {
            return Ok(to);
        };
        let pair = *pair;
        bind_composed(bindings, pair)?;
    }
    Ok(to)
}

/// What is looked at last, with the parts of its parts.
pub(crate) fn bind_later<'a>(bindings: &mut Bindings<'a>) -> Result<(), Refusal> {
    let mut from = 0;
    for _round in 0..4 {
        from = bind_round(bindings, from)?;
    }
    Ok(())
}

/// Whether each variable of a term has come.
#[cycle(comes)]
pub(crate) fn has_come<'a>(bindings: &Bindings<'a>, term: &Term<'a>) -> bool {
    match term {
        Term::Variable(number) => word_of(bindings, *number).is_some(),
        Term::Number(_) | Term::Local(_) | Term::Global(_) | Term::Function(_) | Term::Table(_) =>
            true,
        Term::Sum(left, right) => has_come(bindings, left) && has_come(bindings, right),
        Term::Product(left, right) => has_come(bindings, left) && has_come(bindings, right),
        Term::Before(of) => has_come(bindings, of),
        Term::LowByte(of) => has_come(bindings, of),
        Term::SlotFunction { address, .. } => has_come(bindings, address),
        Term::Converted(_, of) => has_come(bindings, of),
        Term::Applied { left, right, .. } => has_come(bindings, left) && has_come(bindings, right),
        Term::Field { exception, .. } => exception_has_come(bindings, exception),
    }
}

#[cycle(comes)]
fn exception_has_come<'a>(bindings: &Bindings<'a>, exception: &Exception<'a>) -> bool {
    match exception {
        Exception::Unknown(number) => exception_of(bindings, *number).is_some(),
        Exception::Made(_, puts) => puts_have_come(bindings, puts),
    }
}

#[cycle(comes)]
fn puts_have_come<'a>(bindings: &Bindings<'a>, puts: &Puts<'a>) -> bool {
    match puts {
        Puts::Untouched => true,
        Puts::Put { word, others, .. } => {
            has_come(bindings, word) && puts_have_come(bindings, others)
        }
    }
}
