//! Whether an image is the code of a program's source.

ghost use Rattle.std.specs.Prelude.{◌≡◌, true, IfOk};
ghost use Rattle.tx_code.specs.Views.{image_view};
ghost use Rattle.src_bind.specs.Bounds.{given};
ghost use Rattle.src_bind.specs.Tables.{CanBind, typed};
ghost use Rattle.linked_images.specs.LinkedImages.{IsLinked};
ghost use Rattle.image_checks.specs.Shown.{IsShown};

use cpp_tree::Program;
use image_notes::all_have_notes;
use linked_images::tables::tables_agree;
use src_bind::{Bound, Choices, bind};
use src_link::can_bind;
use std::alloc::Global;
use symbolic_terms::refusal::Refusal;
use tx_code::Image;

/// Whether an image is the code of a program that is bound by these choices: their tables agree, they begin with the same globals, and
/// notes are found for each body. Then each run of the image is a run of the program's source.
///
/// No means that a test said no, or that no notes were found for some body. The image may be right nevertheless.
pub fn is_code_of_source(
    alloc: Global,
    image: &Image,
    bound: &Bound<'_>,
    choices: &Choices,
) -> Result<bool, Refusal>
    requires choices { choices.now ≡ (given bound.now).choices }
    requires can { CanBind (typed (given bound.now)) }
    ensures linked { IfOk result (λ yes. yes ≡ true → IsLinked (given bound.now) (image_view image.now)) }
    ensures shown { IfOk result (λ yes. yes ≡ true → IsShown (given bound.now) (image_view image.now)) }
{
    if !tables_agree(alloc, image, bound, choices)? {
        return Ok(false);
    }
    all_have_notes(alloc, image, bound)
}

/// The same of a program that these choices bind. No is also said of a program that cannot be bound.
pub fn is_code_of_program(
    alloc: Global,
    image: &Image,
    program: &Program,
    choices: &Choices,
) -> Result<bool, Refusal>
    ensures linked { IfOk result (λ yes. yes ≡ true → IsLinked (record { program = program.now; choices = choices.now }) (image_view image.now)) }
    ensures shown { IfOk result (λ yes. yes ≡ true → IsShown (record { program = program.now; choices = choices.now }) (image_view image.now)) }
{
    if !can_bind(alloc, program)? {
        return Ok(false);
    }
    let bound = bind(alloc, program, choices)?;
    is_code_of_source(alloc, image, &bound, choices)
}
