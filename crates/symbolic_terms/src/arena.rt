//! Values that live as long as their arena. They are never changed, so that lists share their ends and nothing is copied.

ghost use Rattle.std.specs.Prelude.{◌≡◌, IfOk};

use crate::refusal::Refusal;
use bumpalo::Bump;

/// Keeps a value in the arena.
pub fn keep<'a, T: Copy>(arena: &'a Bump, value: T) -> Result<&'a T, Refusal>
    ensures { IfOk result (λ kept. kept.now ≡ value) }
{
    Ok(arena.try_alloc(value)?)
}
