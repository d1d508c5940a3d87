//! What `races` needs of a list of items.
ghost use Rattle.std.specs.Prelude.{◌≡◌, ℕ, ◌<◌, ◌≤◌, ◌+◌, ◌^◌, true, false, length};
ghost use Rattle.race_check.specs.Regular.{HasItem, Regular, StartsLate, end_of};

use crate::items::item_at;
use crate::rows::THREADS;
use tx_events::{Item, What};

// An access ends within the addresses.
fn ends_within(what: What) -> bool
    ensures yes { result ≡ true → end_of what < 2 ^ 64 }
    ensures no { result ≡ false → end_of what < 2 ^ 64 → ⊥ }
{
    match what {
        What::Read { addr, size } | What::Write { addr, size } => u64::from(size)
            <= u64::MAX - addr,
        What::Enter | What::Leave | What::Spawned { .. } | What::Joined { .. } => true,
    }
}

// The thread has an item before this index.
fn has_item(items: &[Item], n: usize, t: u8) -> bool
    requires { n ≤ length items.now }
    ensures yes { result ≡ true → HasItem items.now n t }
    ensures no { result ≡ false → HasItem items.now n t → ⊥ }
{
    'earlier: for k in 0..n {
        if item_at(items, k).t == t {
            return true;
        }
    }
    false
}

// It starts a thread that has an item before this index.
fn starts_late(items: &[Item], what: What, n: usize) -> bool
    requires { n ≤ length items.now }
    ensures yes { result ≡ true → StartsLate items.now what n }
    ensures no { result ≡ false → StartsLate items.now what n → ⊥ }
{
    match what {
        What::Spawned { child } => has_item(items, n, child),
        What::Read { .. } | What::Write { .. } | What::Enter | What::Leave | What::Joined { .. } =>
            false,
    }
}

/// Whether `races` can be asked: threads are numbered below 64, accesses end within the addresses, and a thread has no
/// item before it is started.
pub fn is_regular(items: &[Item]) -> bool
    ensures yes { result ≡ true → Regular items.now }
    ensures no { result ≡ false → Regular items.now → ⊥ }
{
    'items: for i in 0..items.len() {
        let item = item_at(items, i);
        if usize::from(item.t) >= THREADS {
            return false;
        }
        if !ends_within(item.what) {
            return false;
        }
        if starts_late(items, item.what, i + 1) {
            return false;
        }
    }
    true
}
