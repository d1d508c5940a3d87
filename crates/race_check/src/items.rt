//! Items of a trace, one by one.
ghost use Rattle.std.specs.Prelude.{◌≡◌, ℕ, ◌<◌, ◌≤◌, ◌^◌, true, Some, length, slice_get};
ghost use Rattle.tx_events.specs.declared.What.TheVariants.{Enter, Leave};
ghost use Rattle.race_check.specs.Races.{touches, writes};
ghost use Rattle.race_check.specs.Regular.{end_of};

use tx_events::{Item, What};

/// Bytes from one address to another.
#[derive(Clone, Copy)]
pub(crate) struct Bytes {
    pub(crate) from: u64,
    pub(crate) to: u64,
}

/// The item at an index.
pub(crate) fn item_at(items: &[Item], index: usize) -> Item
    requires { index < length items.now }
    ensures { slice_get items.now index ≡ Some result }
{
    items[index]
}

/// It is an Enter.
pub(crate) fn is_enter(what: What) -> bool
    ensures yes { result ≡ true → what ≡ Enter }
    ensures no { what ≡ Enter → result ≡ true }
{
    match what {
        What::Enter => true,
        What::Read { .. }
        | What::Write { .. }
        | What::Leave
        | What::Spawned { .. }
        | What::Joined { .. } => false,
    }
}

/// It is a Leave.
pub(crate) fn is_leave(what: What) -> bool
    ensures yes { result ≡ true → what ≡ Leave }
    ensures no { what ≡ Leave → result ≡ true }
{
    match what {
        What::Leave => true,
        What::Read { .. }
        | What::Write { .. }
        | What::Enter
        | What::Spawned { .. }
        | What::Joined { .. } => false,
    }
}

/// It writes.
pub(crate) fn is_write(what: What) -> bool
    ensures { result ≡ writes what }
{
    match what {
        What::Write { .. } => true,
        What::Read { .. }
        | What::Enter
        | What::Leave
        | What::Spawned { .. }
        | What::Joined { .. } => false,
    }
}

/// The bytes that it accesses.
pub(crate) fn bytes_of(what: What) -> Bytes
    requires { end_of what < 2 ^ 64 }
    ensures inside { (x : ℕ) → result.from ≤ x → x < result.to → touches what x ≡ true }
    ensures all { (x : ℕ) → touches what x ≡ true → (result.from ≤ x) × (x < result.to) }
{
    match what {
        What::Read { addr, size } | What::Write { addr, size } => Bytes {
            from: addr,
            to: addr + u64::from(size),
        },
        What::Enter | What::Leave | What::Spawned { .. } | What::Joined { .. } => Bytes {
            from: 0,
            to: 0,
        },
    }
}
