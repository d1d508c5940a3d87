//! Laws of linking. A function here does nothing: its clause is the law.
ghost use Rattle.std.specs.Prelude.{◌≡◌, List};
ghost use Rattle.tx_code.specs.Images.{ImageView};
ghost use Rattle.tx_code.specs.Linked.{ImageOf};
ghost use Rattle.tx_code.specs.Objects.{ObjectView};

/// Objects are linked to one image at most.
pub fn one_image()
    ensures { (os : List ObjectView) (i j : ImageView) → ImageOf os i → ImageOf os j → i ≡ j }
{}
