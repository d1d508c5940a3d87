//! Whether an image and a bound program begin with the same globals.

ghost use Rattle.std.specs.Prelude.{◌≡◌, ◌≤◌, ◌*◌, ◌+◌, ◌/◌, true, false, IfOk};
ghost use Rattle.tx_code.specs.Views.{image_view};
ghost use Rattle.src_mean.specs.Links.{globals_size as size_of_globals};
ghost use Rattle.src_bind.specs.Bounds.{given};
ghost use Rattle.src_bind.specs.Tables.{CanBind, typed};
ghost use Rattle.linked_images.specs.Globals.{SameCells};
ghost use Rattle.tx_events.specs.declared.TheConstants.{GLOBALS_LIMIT};

use src_bind::Bound;
use src_link::{first_cells, globals_size};
use std::alloc::{AllocError, Global};
use tx_code::Image;
use tx_events::GlobalCell;

// Whether an image has these cells in this order.
fn has_cells(image: &Image, cells: &[GlobalCell]) -> bool
    ensures yes { result ≡ true → (image_view image.now).globals ≡ cells.now }
    ensures no { result ≡ false → (image_view image.now).globals ≡ cells.now → ⊥ }
{
    image.globals.as_slice() == cells
}

// Whether an image has so many bytes of globals, up to the next multiple of 8.
fn has_size(image: &Image, size: u32) -> bool
    requires { size ≤ GLOBALS_LIMIT }
    ensures yes { result ≡ true → (image_view image.now).size ≡ (size + 7) / 8 * 8 }
    ensures no { result ≡ false → (image_view image.now).size ≡ (size + 7) / 8 * 8 → ⊥ }
{
    image.size == (size + 7) / 8 * 8
}

/// Whether an image and a bound program begin with the same globals: as many bytes, up to the next multiple of 8, and the same cells in
/// the same order.
pub fn same_globals(alloc: Global, image: &Image, bound: &Bound<'_>) -> Result<bool, AllocError>
    requires { CanBind (typed (given bound.now)) }
    ensures yes { IfOk result (λ yes. yes ≡ true → SameCells (given bound.now) (image_view image.now)) }
    ensures no { IfOk result (λ yes. yes ≡ false → SameCells (given bound.now) (image_view image.now) → ⊥) }
{
    let size = globals_size(alloc, bound.program())?;
    let cells = first_cells(alloc, bound)?;
    Ok(has_size(image, size) && has_cells(image, &cells))
}
