//! Symbols of which objects claim what cannot both be.
ghost use Rattle.std.specs.Prelude.{◌≡◌, ◌<◌, ◌++◌, ◌∷◌, [], ℕ, Bool, List, true, length, slice_get, Some, nat_eq, ◌&&◌, ◌||◌, IfOk, OnOk, IfSome};
ghost use Rattle.std.specs.List.{All};
ghost use Rattle.link_faults.specs.declared.disputes.Claim.{Claim};
ghost use Rattle.link_faults.specs.Faults.{first_of};
ghost use Rattle.link_faults.specs.Disputes.{IsLeast, is_of, clashes, is_disputed, AreFirst};

use std::alloc::{AllocError, Global};

/// What an object claims of a symbol.
#[derive(Clone, Copy)]
pub(crate) struct Claim {
    pub symbol: u32,
    /// No other claim of the symbol may stand beside it.
    pub alone: bool,
    /// What others have to say too.
    pub says: u32,
}

/// The lesser one, of those that are there.
pub(crate) fn lesser(a: Option<u32>, b: Option<u32>) -> Option<u32>
    ensures least { (p q : ℕ → Bool) → IsLeast p a → IsLeast q b → IsLeast (λ k. p k || q k) result }
    ensures within { (n : ℕ) → IfSome a (λ k. k < n) → IfSome b (λ k. k < n) → IfSome result (λ k. k < n) }
{
    let Some(a) = a else {
        return b;
    };
    let Some(b) = b else {
        return Some(a);
    };
    Some(if a < b { a } else { b })
}

/// The least name, with one more where the test says so.
pub(crate) fn with_name(least: Option<u32>, name: u32, passes: bool) -> Option<u32>
    ensures least { (p : ℕ → Bool) → IsLeast p least → IsLeast (λ k. p k || (nat_eq name k && passes)) result }
    ensures within { (n : ℕ) → (passes ≡ true → name < n) → IfSome least (λ k. k < n) → IfSome result (λ k. k < n) }
{
    if passes {
        return lesser(least, Some(name));
    }
    least
}

fn is_clash(first: Option<Claim>, claim: Claim) -> bool
    ensures { result ≡ clashes first claim }
{
    match first {
        None => false,
        Some(first) => first.alone || claim.alone || first.says != claim.says,
    }
}

/// The least disputed symbol with one more claim.
fn with_claim(least: Option<u32>, first: Option<Claim>, claim: Claim) -> Option<u32>
    ensures least { (claims : List Claim) → first ≡ first_of (is_of claim.symbol) claims → IsLeast (is_disputed claims) least → IsLeast (is_disputed (claims ++ claim ∷ [])) result }
    ensures within { (n : ℕ) → claim.symbol < n → IfSome least (λ k. k < n) → IfSome result (λ k. k < n) }
{
    if is_clash(first, claim) {
        return lesser(least, Some(claim.symbol));
    }
    least
}

pub(crate) fn first_claim(first: &[Option<Claim>], symbol: u32) -> Option<Claim>
    requires { symbol < length first.now }
    ensures { slice_get first.now symbol ≡ Some result }
{
    first[symbol as usize]
}

/// Notes a claim where it is the first one of its symbol.
fn note(first: &mut Vec<Option<Claim>>, claim: Claim)
    requires { claim.symbol < length first.old.items }
    ensures first { (claims : List Claim) → AreFirst claims first.old.items → AreFirst (claims ++ claim ∷ []) first.new.items }
    ensures length { length first.new.items ≡ length first.old.items }
{
    match first_claim(first, claim.symbol) {
        Some(_) => {}
        None => first[claim.symbol as usize] = Some(claim),
    }
}

fn none_noted(alloc: Global, symbols: usize) -> Result<Vec<Option<Claim>>, AllocError>
    ensures first { IfOk result (λ v. AreFirst [] v.items) }
    ensures length { IfOk result (λ v. length v.items ≡ symbols) }
{
    vec![in alloc; None; symbols]
}

/// The least symbol of which two claims cannot both stand, where there are so many symbols.
pub(crate) fn least_dispute(
    alloc: Global,
    claims: &[Claim],
    symbols: usize,
) -> Result<Option<u32>, AllocError>
    requires { All (λ c. c.symbol < symbols) claims.now }
    ensures least { IfOk result (λ o. IsLeast (is_disputed claims.now) o) }
    ensures within { IfOk result (λ o. IfSome o (λ k. k < symbols)) }
{
    let mut first = none_noted(alloc, symbols)?;
    let mut least = None;
    for claim in claims {
        least = with_claim(least, first_claim(&first, claim.symbol), *claim);
        note(&mut first, *claim);
    }
    Ok(least)
}

/// Of each symbol the first claim, where there are so many symbols.
pub(crate) fn first_claims(
    alloc: Global,
    claims: &[Claim],
    symbols: usize,
) -> Result<Vec<Option<Claim>>, AllocError>
    requires { All (λ c. c.symbol < symbols) claims.now }
    ensures first { IfOk result (λ v. AreFirst claims.now v.items) }
    ensures length { IfOk result (λ v. length v.items ≡ symbols) }
{
    let mut first = none_noted(alloc, symbols)?;
    for claim in claims {
        note(&mut first, *claim);
    }
    Ok(first)
}
