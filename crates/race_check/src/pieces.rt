//! A range of bytes in pieces: aligned groups of four, and single bytes.
ghost use Rattle.std.specs.Prelude.{◌≡◌, ℕ, ◌<◌, ◌≤◌};
ghost use Rattle.race_check.specs.Marks.{IsPiece};

/// The end of the first piece of the bytes from `at` to `to`.
pub(crate) fn piece_end(at: u64, to: u64) -> u64
    requires { at < to }
    ensures piece { IsPiece at result }
    ensures within { result ≤ to }
{
    if at % 4 == 0 && to - at >= 4 {
        at + 4
    } else {
        at + 1
    }
}
