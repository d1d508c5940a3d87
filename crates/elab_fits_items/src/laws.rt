//! Laws of items in braces. A function here does nothing: its clauses are the laws.

ghost use Rattle.elab_fits_items.specs.Items.{BracesBuild, PartsBuild};

/// Objects that braces initialise.
pub fn items()
    ensures braces { BracesBuild }
    ensures parts { PartsBuild }
{}
