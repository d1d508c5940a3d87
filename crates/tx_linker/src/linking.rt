//! The public call.
ghost use Rattle.std.specs.Prelude.{◌≡◌, map, length, nat_lt, MatchResult};
ghost use Rattle.std.specs.List.{All, flat_map};
ghost use Rattle.tx_code.specs.Linked.{ImageOf};
ghost use Rattle.tx_code.specs.Objects.{object_view};
ghost use Rattle.tx_code.specs.Views.{image_view};
ghost use Rattle.tx_code.specs.WellFormed.{IsObject};
ghost use Rattle.link_faults.specs.Answers.{Faulty};
ghost use Rattle.link_faults.specs.Ranks.{names_of};

use crate::image::image_of;
use link_faults::{LinkFault, check_objects};
use std::alloc::Global;
use tx_code::{Image, Object};

/// How many names objects may have in all.
const MAX_NAMES: usize = 4_294_967_294;

/// Whether the objects have no more names than there are numbers for them.
fn are_names_few(objects: &[Object]) -> bool
    ensures { result ≡ nat_lt (length (flat_map names_of (map object_view objects.now))) 4294967295 }
{
    let mut room = MAX_NAMES;
    for object in objects {
        if object.names.len() > room {
            return false;
        }
        room -= object.names.len();
    }
    true
}

/// The image that the objects are linked to, or their first fault, with its least symbol by bytes. Want of memory is
/// `Memory`, and so is it where the objects have more than 4,294,967,294 names.
pub fn link(alloc: Global, objects: &[Object]) -> Result<Image, LinkFault>
    requires { All (λ o. IsObject (object_view o)) objects.now }
    ensures { MatchResult result (λ i. ImageOf (map object_view objects.now) (image_view i)) (Faulty (map object_view objects.now)) }
{
    if !are_names_few(objects) {
        return Err(LinkFault::Memory);
    }
    check_objects(alloc, objects)?;
    let image = image_of(alloc, objects)?;
    Ok(image)
}
