//! Sums, products and differences of terms, as they are written where they are known at once.

ghost use Rattle.std.specs.Prelude.{ℕ, ◌≡◌, ◌+◌, ◌^◌, ◌≤◌, IfOk, OnErr};
ghost use Rattle.cpp_tree.specs.cpp_types.Typ.{Typ};
ghost use Rattle.symbolic_source.specs.Terms.{sum as sum_term, product as product_term, at_offset as at_offset_of, plus_number as plus_number_of, one_less as one_less_of};
ghost use Rattle.symbolic_source.specs.Replacing.{joined as joined_of, summed as summed_of, multiplied as multiplied_of};
ghost use Rattle.symbolic_source.specs.Steps.{element_at as element_of};
ghost use Rattle.symbolic_terms.specs.Words.{term_of};

use crate::arena::keep;
use crate::refusal::Refusal;
use crate::terms::Term;
use bumpalo::Bump;

// The sum of two numbers.
fn added(left: u64, right: u64) -> Result<u64, Refusal>
    ensures is { IfOk result (λ n. n ≡ left + right) }
    ensures beyond { OnErr result (2 ^ 64 ≤ left + right) }
{
    match left.checked_add(right) {
        Some(number) => Ok(number),
        None => Err(Refusal::Beyond),
    }
}

/// The sum of two addresses.
pub fn sum<'a>(arena: &'a Bump, left: Term<'a>, right: Term<'a>) -> Result<Term<'a>, Refusal>
    ensures { IfOk result (λ s. (types : ℕ → Typ) → term_of types s ≡ sum_term (term_of types left.entry) (term_of types right.entry)) }
{
    Ok(Term::Sum(keep(arena, left)?, keep(arena, right)?))
}

/// The product of two addresses.
pub fn product<'a>(arena: &'a Bump, left: Term<'a>, right: Term<'a>) -> Result<Term<'a>, Refusal>
    ensures { IfOk result (λ s. (types : ℕ → Typ) → term_of types s ≡ product_term (term_of types left.entry) (term_of types right.entry)) }
{
    Ok(Term::Product(keep(arena, left)?, keep(arena, right)?))
}

/// The address at this offset from another.
pub fn at_offset<'a>(arena: &'a Bump, term: Term<'a>, offset: u64) -> Result<Term<'a>, Refusal>
    ensures { IfOk result (λ s. (types : ℕ → Typ) → term_of types s ≡ at_offset_of (term_of types term.entry) offset) }
{
    if offset == 0 {
        return Ok(term);
    }
    sum(arena, term, Term::Number(offset))
}

/// A sum with a number, as it is written: numbers are added at once, and 0 is not.
pub fn plus_number<'a>(arena: &'a Bump, term: Term<'a>, number: u64) -> Result<Term<'a>, Refusal>
    ensures { IfOk result (λ s. (types : ℕ → Typ) → term_of types s ≡ plus_number_of (term_of types term.entry) number) }
{
    match term {
        Term::Number(first) => Ok(Term::Number(added(first, number)?)),
        Term::Local(offset) => Ok(Term::Local(added(offset, number)?)),
        Term::Sum(of, Term::Number(first)) => {
            sum(arena, *of, Term::Number(added(*first, number)?))
        }
        other => at_offset(arena, other, number),
    }
}

/// One less, of what is not 0.
pub fn one_less<'a>(arena: &'a Bump, term: Term<'a>) -> Result<Term<'a>, Refusal>
    ensures { IfOk result (λ s. (types : ℕ → Typ) → term_of types s ≡ one_less_of (term_of types term.entry)) }
{
    match term {
        Term::Number(number) => Ok(Term::Number(number.saturating_sub(1))),
        other => Ok(Term::Before(keep(arena, other)?)),
    }
}

/// A sum with a number that has come in the place of a variable.
pub fn joined<'a>(arena: &'a Bump, term: Term<'a>, number: u64) -> Result<Term<'a>, Refusal>
    ensures { IfOk result (λ s. (types : ℕ → Typ) → term_of types s ≡ joined_of (term_of types term.entry) number) }
{
    match term {
        Term::Number(first) => Ok(Term::Number(added(first, number)?)),
        Term::Local(offset) => Ok(Term::Local(added(offset, number)?)),
        Term::Sum(of, Term::Number(first)) => {
            sum(arena, *of, Term::Number(added(*first, number)?))
        }
        other => sum(arena, other, Term::Number(number)),
    }
}

/// A sum of what has come in the place of variables.
pub fn summed<'a>(arena: &'a Bump, left: Term<'a>, right: Term<'a>) -> Result<Term<'a>, Refusal>
    ensures { IfOk result (λ s. (types : ℕ → Typ) → term_of types s ≡ summed_of (term_of types left.entry) (term_of types right.entry)) }
{
    match right {
        Term::Number(number) => joined(arena, left, number),
        other => sum(arena, left, other),
    }
}

/// A product of what has come in the place of variables.
pub fn multiplied<'a>(arena: &'a Bump, left: Term<'a>, right: Term<'a>) -> Result<Term<'a>, Refusal>
    ensures { IfOk result (λ s. (types : ℕ → Typ) → term_of types s ≡ multiplied_of (term_of types left.entry) (term_of types right.entry)) }
{
    match left {
        Term::Number(0) => Ok(Term::Number(0)),
        other => product(arena, other, right),
    }
}

/// The element of an array with this number, where elements lie this far apart.
pub fn element_at<'a>(
    arena: &'a Bump,
    address: Term<'a>,
    number: Term<'a>,
    stride: u32,
) -> Result<Term<'a>, Refusal>
    ensures { IfOk result (λ s. (types : ℕ → Typ) → term_of types s ≡ element_of (term_of types address.entry) (term_of types number.entry) stride) }
{
    match number {
        Term::Number(0) => Ok(address),
        other => {
            let offset = product(arena, other, Term::Number(stride as u64))?;
            sum(arena, address, offset)
        }
    }
}
