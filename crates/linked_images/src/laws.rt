//! What follows where an image and a bound program agree.
ghost use Rattle.tx_code.specs.Images.{ImageView};
ghost use Rattle.body_check.specs.Notes.{Bounds};
ghost use Rattle.src_bind.specs.Tables.{Given, CanBind, typed};
ghost use Rattle.linked_images.specs.LinkedImages.{Agree, AllNoted, IsLinked, IsLinkedWhereChecked};

/// Where an image and a program that can be bound agree, and each body of the image is checked against its function with any notes,
/// the image is linked from the program.
pub fn agreeing_images_are_linked()
    ensures { (g : Given) (i : ImageView) → Agree g i → CanBind (typed g) → IsLinkedWhereChecked g i }
{}

/// So it is where there are notes for each body.
pub fn noted_images_are_linked()
    ensures { (g : Given) (i : ImageView) (b : Bounds) → Agree g i → CanBind (typed g) → AllNoted g i b → IsLinked g i }
{}
