//! What follows where an image and a program agree.
ghost use Rattle.std.specs.Prelude.{◌≡◌, true};
ghost use Rattle.tx_code.specs.Images.{ImageView};
ghost use Rattle.symbolic_source.specs.Small.{IsSmall};
ghost use Rattle.src_bind.specs.Tables.{Given, CanBind, typed, linked_of};
ghost use Rattle.image_links.specs.Agreeing.{agrees, AreLinked};

/// Where an image and a linked program agree, and each body of the image is checked against its function, the image is
/// that of the program, and threads begin alike. The addresses of the program are numbers of 64 bits.
pub fn agreeing_programs_are_linked()
    ensures linked { (i : ImageView) (g : Given) → agrees i g ≡ true → AreLinked i g }
    ensures small { (i : ImageView) (g : Given) → agrees i g ≡ true → CanBind (typed g) → IsSmall (linked_of g) }
{}
