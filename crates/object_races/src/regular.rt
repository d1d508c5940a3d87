//! The traces of a linked program are such that `races` can be asked of them.

ghost use Rattle.std.specs.Prelude.{ℕ, List};
ghost use Rattle.race_check.specs.Regular.{Regular};
ghost use Rattle.traced_runs.specs.TracedRuns.{TracesImage};
ghost use Rattle.tx_code.specs.Views.{image_view};
ghost use Rattle.tx_events.specs.declared.Item.{Item};

use tx_code::Image;
use tx_code::laws::an_image_is_whole;

/// The trace of an order of the image's threads is regular, on each input.
pub(crate) fn a_trace_of_an_image_is_regular(image: &Image)
    ensures { (input order : List ℕ) (items : List Item) → TracesImage (image_view image.now) input order items → Regular items }
{
    an_image_is_whole(image);
}
