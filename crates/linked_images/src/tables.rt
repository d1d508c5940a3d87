//! Whether an image is linked from a bound program, but for its bodies.

ghost use Rattle.std.specs.Prelude.{◌≡◌, true, false, IfOk};
ghost use Rattle.tx_code.specs.Views.{image_view};
ghost use Rattle.src_bind.specs.Bounds.{given};
ghost use Rattle.src_bind.specs.Tables.{CanBind, typed};
ghost use Rattle.linked_images.specs.LinkedImages.{Agree};

use crate::globals::same_globals;
use image_links::agreeing::agrees;
use src_bind::{Bound, Choices};
use std::alloc::{AllocError, Global};
use tx_code::Image;

/// Whether the tables of an image agree with a program that is bound by these choices, and both begin with the same globals. Where
/// they do, and the bodies of the image are checked, the image is linked from the program (`laws`).
pub fn tables_agree(
    alloc: Global,
    image: &Image,
    bound: &Bound<'_>,
    choices: &Choices,
) -> Result<bool, AllocError>
    requires choices { choices.now ≡ (given bound.now).choices }
    requires can { CanBind (typed (given bound.now)) }
    ensures yes { IfOk result (λ yes. yes ≡ true → Agree (given bound.now) (image_view image.now)) }
    ensures no { IfOk result (λ yes. yes ≡ false → Agree (given bound.now) (image_view image.now) → ⊥) }
{
    if !agrees(alloc, image, bound, choices)? {
        return Ok(false);
    }
    same_globals(alloc, image, bound)
}
