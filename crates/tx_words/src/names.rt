//! The policies and pickers that words name.
ghost use Rattle.std.specs.Prelude.{◌≡◌, ◌≢◌, ◌++◌, ℕ, List, IfOk, IfSome, MatchOption, Ok, None, codes, slice_index};
ghost use Rattle.std.specs.Fmt.{decimal};
ghost use Rattle.tx_words.specs.Names.{IsPicker, IsSlot, policy_word};
ghost use Rattle.tx_words.specs.declared.command.PolicyName.{PolicyName as PolicyNames};
ghost use Rattle.tx_words.specs.declared.command.PickerName.{PickerName as PickerNames};

use crate::command::{PickerName, PolicyName};
use std::alloc::{AllocError, Global};

/// The most turns that `round:K` may give a thread.
const MOST_TURNS: u32 = 1_000_000;

/// The policy of this word.
pub fn policy_named(word: &str) -> Option<PolicyName>
    ensures { MatchOption result ((p : PolicyNames) → word.now ≢ policy_word p) (λ p. word.now ≡ policy_word p) }
{
    if word == "older" {
        Some(PolicyName::Older)
    } else if word == "yield" {
        Some(PolicyName::Yield)
    } else if word == "polite" {
        Some(PolicyName::Polite)
    } else {
        None
    }
}

/// The picker that this word names.
pub fn picker_named(alloc: Global, word: &str) -> Result<Option<PickerName>, AllocError>
    ensures some { IfOk result (λ o. IfSome o (IsPicker word.now)) }
    ensures none { result ≡ Ok None → (p : PickerNames) → IsPicker word.now p → ⊥ }
{
    if word == "clash" {
        return Ok(Some(PickerName::Clash));
    }
    if let Some(name) = after(word, "file:") {
        return Ok(Some(PickerName::File(name.to_string(alloc)?)));
    }
    match slot_of(word) {
        Some(slot) => Ok(Some(PickerName::Round(slot))),
        None => Ok(None),
    }
}

/// The number K of `round:K`, written in decimal without leading zeros.
fn slot_of(word: &str) -> Option<u32>
    ensures { MatchOption result ((n : ℕ) → IsSlot n → word.now ≢ codes "round:" ++ decimal n) (λ n. (word.now ≡ codes "round:" ++ decimal n) × IsSlot n) }
{
    slot_written(after(word, "round:")?)
}

/// The number of a slot that the digits write.
fn slot_written(digits: &str) -> Option<u32>
    ensures { MatchOption result ((n : ℕ) → IsSlot n → digits.now ≢ decimal n) (λ n. (digits.now ≡ decimal n) × IsSlot n) }
{
    let first = first_byte(digits);
    if first == b'+' || first == b'0' {
        return None;
    }
    match digits.parse::<u32>() {
        Ok(slot) => bounded(slot),
        Err(_) => None,
    }
}

/// The number, where it is one of a slot.
fn bounded(slot: u32) -> Option<u32>
    ensures { MatchOption result (IsSlot slot → ⊥) (λ n. (n ≡ slot) × IsSlot slot) }
{
    if 1 <= slot && slot <= MOST_TURNS {
        Some(slot)
    } else {
        None
    }
}

/// The first byte of a text, and 0 of the empty one.
fn first_byte(text: &str) -> u8
    ensures { result ≡ slice_index text.now 0 }
{
    text.as_bytes().first().copied().unwrap_or(0)
}

/// What follows the prefix.
fn after<'a>(word: &'a str, prefix: &str) -> Option<&'a str>
    ensures { MatchOption result ((rest : List ℕ) → word.now ≢ prefix.now ++ rest) (λ rest. word.now ≡ prefix.now ++ rest.now) }
{
    word.strip_prefix(prefix)
}
