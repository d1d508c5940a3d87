// The candidate that is better than all others.

ghost use Rattle.std.specs.Prelude.{◌≡◌, ◌<◌, ◌^◌, ℕ, true, false, IsTrue, ◌↔◌, length, map, MatchOption, None, Some, slice_get};
ghost use Rattle.cpp_types.specs.Typ.{typ_of, typs_of};
ghost use Rattle.cpp_types.specs.Class.{classes_of};
ghost use Rattle.cpp_overload.specs.Overload.{Candidate, candidate_of, argument_of, parameters_of, typ_at, count_of, category_at, conversion_at, better_at, IsViable, IsBetter, BeatsAll, IsUnbeaten, NoneViable, HasFirst, IsOnlyHope, IsChosen};

use crate::calls::{Arg, Cand, NoBest};
use cpp_types::{Cat, ClassRec, Conversion, Ty, better, conversion_between};

// A type of a list by its index.
fn type_at(types: &[Ty], i: usize) -> Option<&Ty>
    ensures { MatchOption result (slice_get (map typ_of types.now) i ≡ None) (λ t. slice_get (map typ_of types.now) i ≡ Some (typ_of t.now)) }
{
    types.get(i)
}

// How many types a list has.
fn count(types: &[Ty]) -> usize
    ensures { result ≡ count_of (typs_of types.now) }
{
    types.len()
}

// The type of a candidate's parameter, the object's first.
fn parameter(cand: &Cand, i: usize) -> Option<&Ty>
    ensures { MatchOption result (typ_at (parameters_of (candidate_of cand.now)) i ≡ None) (λ t. typ_at (parameters_of (candidate_of cand.now)) i ≡ Some (typ_of t.now)) }
{
    match &cand.this {
        None => type_at(&cand.ty.params, i),
        Some(object) => {
            if i == 0 {
                Some(object)
            } else {
                type_at(&cand.ty.params, i - 1)
            }
        }
    }
}

// Whether a candidate has as many parameters as there are arguments.
fn has_count(cand: &Cand, args: usize) -> bool
    ensures { IsTrue result ↔ (count_of (parameters_of (candidate_of cand.now)) ≡ args) }
{
    match &cand.this {
        None => count(&cand.ty.params) == args,
        Some(_) => args > 0 && count(&cand.ty.params) == args - 1,
    }
}

// Whether an argument stands for an object; a candidate's own object always does.
fn category(cand: &Cand, i: usize, cat: Cat) -> Cat
    ensures { result ≡ category_at (candidate_of cand.now).this i cat }
{
    match &cand.this {
        None => cat,
        Some(_) => { if i == 0 { Cat::Lvalue } else { cat } }
    }
}

// The conversion of an argument to the parameter at its index.
fn conversion(args: &[Arg], cand: &Cand, i: usize, classes: &[ClassRec]) -> Option<Conversion>
    ensures { result ≡ conversion_at (classes_of classes.now) (map argument_of args.now) (candidate_of cand.now) i }
{
    let arg = args.get(i)?;
    let to = parameter(cand, i)?;
    conversion_between(
        &arg.ty,
        category(cand, i, arg.cat),
        arg.null_constant,
        to,
        classes,
    )
}

// Whether a candidate has a parameter for each argument, and each has a conversion.
fn is_viable(args: &[Arg], cand: &Cand, classes: &[ClassRec]) -> bool
    ensures { IsTrue result ↔ IsViable (classes_of classes.now) (map argument_of args.now) (candidate_of cand.now) }
{
    if !has_count(cand, args.len()) {
        return false;
    }
    for i in 0..args.len() {
        if conversion(args, cand, i, classes).is_none() {
            return false;
        }
    }
    true
}

// Whether an argument's conversion for the candidate `p` is better than for `q`.
fn converts_better(args: &[Arg], p: &Cand, q: &Cand, i: usize, classes: &[ClassRec]) -> bool
    ensures { result ≡ better_at (classes_of classes.now) (map argument_of args.now) (candidate_of p.now) (candidate_of q.now) i }
{
    match (conversion(args, p, i, classes), parameter(p, i)) {
        (Some(first), Some(to)) => match (conversion(args, q, i, classes), parameter(q, i)) {
            (Some(second), Some(other)) => better(first, to, second, other),
            _ => false,
        },
        _ => false,
    }
}

// Whether no argument's conversion is worse for `p` than for `q`, and one is better.
fn is_better(args: &[Arg], p: &Cand, q: &Cand, classes: &[ClassRec]) -> bool
    ensures { IsTrue result ↔ IsBetter (classes_of classes.now) (map argument_of args.now) (candidate_of p.now) (candidate_of q.now) }
{
    let mut one = false;
    for i in 0..args.len() {
        if converts_better(args, q, p, i, classes) {
            return false;
        }
        one = one | converts_better(args, p, q, i, classes);
    }
    one
}

// Whether the candidate `q` is `p` itself, takes the arguments not, or is one that `p` is better
// than.
fn is_passed(args: &[Arg], p: &Cand, q: &Cand, is_itself: bool, classes: &[ClassRec]) -> bool
    ensures yes { result ≡ true → is_itself ≡ false → IsViable (classes_of classes.now) (map argument_of args.now) (candidate_of q.now) → IsBetter (classes_of classes.now) (map argument_of args.now) (candidate_of p.now) (candidate_of q.now) }
    ensures no { result ≡ false → (is_itself ≡ false) × IsViable (classes_of classes.now) (map argument_of args.now) (candidate_of q.now) × (IsBetter (classes_of classes.now) (map argument_of args.now) (candidate_of p.now) (candidate_of q.now) → ⊥) }
{
    is_itself || !is_viable(args, q, classes) || is_better(args, p, q, classes)
}

// The candidate of an index.
fn cand_at(cands: &[Cand], i: u32) -> &Cand
    requires { i < length cands.now }
    ensures { slice_get (map candidate_of cands.now) i ≡ Some (candidate_of result.now) }
{
    &cands[i as usize]
}

// The lowest viable candidate, other than the candidate `p` of index `i`, that `p` is not better
// than.
fn lowest_unbeaten(
    cands: &[Cand],
    args: &[Arg],
    i: u32,
    p: &Cand,
    classes: &[ClassRec],
) -> Option<u32>
    requires { length cands.now < 2 ^ 32 }
    ensures { MatchOption result (BeatsAll (classes_of classes.now) (map candidate_of cands.now) (map argument_of args.now) i (candidate_of p.now)) (λ j. IsUnbeaten (classes_of classes.now) (map candidate_of cands.now) (map argument_of args.now) i (candidate_of p.now) j) }
{
    for (j, q) in cands.iter().enumerate() {
        if !is_passed(args, p, q, j == i as usize, classes) {
            return Some(j as u32);
        }
    }
    None
}

// The lowest viable candidate.
fn lowest_viable(cands: &[Cand], args: &[Arg], classes: &[ClassRec]) -> Option<u32>
    requires { length cands.now < 2 ^ 32 }
    ensures { MatchOption result (NoneViable (classes_of classes.now) (map candidate_of cands.now) (map argument_of args.now)) (λ i. HasFirst (classes_of classes.now) (map candidate_of cands.now) (map argument_of args.now) i) }
{
    for (i, p) in cands.iter().enumerate() {
        if is_viable(args, p, classes) {
            return Some(i as u32);
        }
    }
    None
}

// The index of a viable candidate that alone may be better than all others. Each index that it
// leaves was not better than one that follows.
fn only_hope(cands: &[Cand], args: &[Arg], first: u32, classes: &[ClassRec]) -> u32
    requires few { length cands.now < 2 ^ 32 }
    requires viable { HasFirst (classes_of classes.now) (map candidate_of cands.now) (map argument_of args.now) first }
    ensures { IsOnlyHope (classes_of classes.now) (map candidate_of cands.now) (map argument_of args.now) (length cands.now) result }
{
    let mut hope = first;
    let mut best = cand_at(cands, first);
    for (i, q) in cands.iter().enumerate() {
        if !is_passed(args, best, q, i == hope as usize, classes) {
            hope = i as u32;
            best = q;
        }
    }
    hope
}

/// The index of the candidate that a call means: the one that is better than all others that
/// take the arguments.
///
/// One candidate is better than another where no argument's conversion is worse and one is
/// better. An object that is no lvalue is taken as one, whatever its parameter.
pub fn choose(cands: &[Cand], args: &[Arg], classes: &[ClassRec]) -> Result<u32, NoBest>
    requires { length cands.now < 2 ^ 32 }
    ensures { IsChosen (classes_of classes.now) (map candidate_of cands.now) (map argument_of args.now) result }
{
    let Some(first) = lowest_viable(cands, args, classes) else {
        return Err(NoBest::NoViable);
    };
    let hope = only_hope(cands, args, first, classes);
    let p = cand_at(cands, hope);
    match lowest_unbeaten(cands, args, hope, p, classes) {
        None => return Ok(hope),
        Some(_) => {}
    }
    let q = cand_at(cands, first);
    match lowest_unbeaten(cands, args, first, q, classes) {
        Some(second) => Err(NoBest::Ambiguous { first, second }),
        None => Ok(first),
    }
}
