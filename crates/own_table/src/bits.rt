//! Sets of thread numbers below `THREAD_LIMIT`, as the bits of a number.
ghost use Rattle.tx_events.specs.declared.TheConstants.{THREAD_LIMIT};
ghost use Rattle.std.specs.Prelude.{◌≡◌, ◌==◌, ◌<◌, ◌^◌, ◌&&◌, ◌||◌, not, ℕ};
ghost use Rattle.own_table.specs.Bits.{has_bit};

/// The set of the thread `t` alone.
pub(crate) fn bit_of(t: u8) -> u64
    requires { t < THREAD_LIMIT }
    ensures { result ≡ 2 ^ t }
{
    1 << t
}

/// Whether the thread `t` is in the set.
pub fn is_in(bits: u64, t: u8) -> bool
    requires { t < THREAD_LIMIT }
    ensures { result ≡ has_bit bits t }
{
    bits & bit_of(t) != 0
}

/// The set with the thread `t`.
pub(crate) fn with(bits: u64, t: u8) -> u64
    requires { t < THREAD_LIMIT }
    ensures { (u : ℕ) → has_bit result u ≡ (has_bit bits u || u == t) }
{
    bits | bit_of(t)
}

/// The set without the thread `t`.
pub(crate) fn without(bits: u64, t: u8) -> u64
    requires { t < THREAD_LIMIT }
    ensures { (u : ℕ) → has_bit result u ≡ (has_bit bits u && not (u == t)) }
{
    bits & !bit_of(t)
}
