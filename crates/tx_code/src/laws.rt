//! Laws of objects and images. A function here does nothing: its clause is the law.
ghost use Rattle.std.specs.Prelude.{List};
ghost use Rattle.tx_code.specs.Meaning.{State, thread};
ghost use Rattle.tx_code.specs.Images.{IsImage, ImageView};
ghost use Rattle.tx_code.specs.Program.{names_of};
ghost use Rattle.tx_code.specs.Linked.{ImageOf, own_names};
ghost use Rattle.tx_code.specs.Objects.{ObjectView};
ghost use Rattle.tx_events.specs.Same.{SameEvents, StepsWithin};
ghost use Rattle.tx_code.specs.Views.{image_view};

use crate::Image;

/// What each image keeps.
pub fn an_image_is_whole(image: &Image)
    ensures { IsImage (image_view image.now) }
{
    let _size = image.size;
}

/// A body of an object has the events that its own names give it in each image that the object is linked to, with
/// whatever other objects: instruction by instruction.
pub fn bodies_keep_their_events()
    ensures same { (os : List ObjectView) (i : ImageView) → ImageOf os i → (s : State) →
        SameEvents (thread (own_names os i)) (thread (names_of i)) s s }
    ensures within { (os : List ObjectView) (i : ImageView) → ImageOf os i → (s : State) →
        StepsWithin (thread (own_names os i)) (thread (names_of i)) 1 0 s s }
{}
