//! The records of all words, in stripes by the word's address.
ghost use Rattle.std.specs.Prelude.{◌≡◌, ◌==◌, ◌≢◌, ◌<◌, ◌&&◌, ℕ, true, false, [], length, if◌then◌else◌, None, is_none, IfOk, OnOk, slice_get, is_some};
ghost use Rattle.std.specs.List.{list_all};
ghost use Rattle.tx_events.specs.declared.TheConstants.{THREAD_LIMIT};
ghost use Rattle.own_table.specs.declared.TheConstants.{STRIPES};
ghost use Rattle.own_table.specs.Records.{stripe_of, blocks, is_write, raised};
ghost use Rattle.own_table.specs.Stripes.{records_at, hold_at, HasStripeCapacity, IsPlaced};

use crate::STRIPES;
use crate::hold::Mode;
use crate::stripe::Stripe;
use std::alloc::{AllocError, Global};

/// The stripe of the word.
pub(crate) fn stripe_index(word: u64) -> usize
    ensures value { result ≡ stripe_of word }
    ensures within { result < STRIPES }
{
    (word / 8 % STRIPES) as usize
}

/// Stripes without records.
pub(crate) fn free_stripes(alloc: Global) -> Result<Vec<Stripe>, AllocError>
    ensures len { IfOk result (λ v. length v.items ≡ STRIPES) }
    ensures free { IfOk result (λ v. (s : ℕ) → records_at v.items s ≡ []) }
{
    let mut stripes = Vec::new(alloc);
    for _stripe in 0..STRIPES {
        stripes.push(Stripe::new(alloc))?;
    }
    Ok(stripes)
}

/// Makes room for a record of the word.
pub(crate) fn reserve_record(stripes: &mut Vec<Stripe>, word: u64) -> Result<(), AllocError>
    requires { length stripes.old.items ≡ STRIPES }
    ensures len { length stripes.new.items ≡ STRIPES }
    ensures same { (s : ℕ) → records_at stripes.new.items s ≡ records_at stripes.old.items s }
    ensures capacity { OnOk result (HasStripeCapacity (slice_get stripes.new.items (stripe_of word))) }
{
    let stripe = &mut stripes[stripe_index(word)];
    stripe.reserve()
}

/// Adds the thread's hold to the word's record, and answers whether it held nothing of the word before.
pub(crate) fn take_record(stripes: &mut Vec<Stripe>, word: u64, t: u8, mode: Mode) -> bool
    requires len { length stripes.old.items ≡ STRIPES }
    requires placed { IsPlaced stripes.old.items }
    requires thread { t < THREAD_LIMIT }
    requires capacity { HasStripeCapacity (slice_get stripes.old.items (stripe_of word)) }
    requires unblocked { (u : ℕ) → u ≢ t → blocks (hold_at stripes.old.items u word) (is_write mode) ≡ false }
    ensures len { length stripes.new.items ≡ STRIPES }
    ensures placed { IsPlaced stripes.new.items }
    ensures taken { (u w : ℕ) → hold_at stripes.new.items u w
        ≡ (if u == t && word == w then raised (hold_at stripes.old.items t word) mode else hold_at stripes.old.items u w) }
    ensures is_new { result ≡ is_none (hold_at stripes.old.items t word) }
{
    let stripe = &mut stripes[stripe_index(word)];
    let index = stripe.index_of(word);
    let holds = stripe.holds_at(index, word);
    stripe.put_at(index, holds.with_hold(t, mode));
    holds.mode_of(t).is_none()
}

/// Takes the thread's hold from the word's record, and the record out where no hold is left.
pub(crate) fn release_record(stripes: &mut Vec<Stripe>, word: u64, t: u8)
    requires len { length stripes.old.items ≡ STRIPES }
    requires placed { IsPlaced stripes.old.items }
    requires thread { t < THREAD_LIMIT }
    ensures len { length stripes.new.items ≡ STRIPES }
    ensures placed { IsPlaced stripes.new.items }
    ensures released { (u w : ℕ) → hold_at stripes.new.items u w
        ≡ (if u == t && word == w then None else hold_at stripes.old.items u w) }
{
    let stripe = &mut stripes[stripe_index(word)];
    let Some(index) = stripe.index_of(word) else {
        return;
    };
    let left = stripe.holds_at(Some(index), word).without_hold(t);
    if left.is_free() {
        stripe.remove_at(index, word);
    } else {
        stripe.put_at(Some(index), left);
    }
}
