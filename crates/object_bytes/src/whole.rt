//! What speaks of an object as a whole.
ghost use Rattle.std.specs.Prelude.{◌≡◌, true, map, IfOk};
ghost use Rattle.tx_code.specs.Objects.{ClassView, class_view, object_view};
ghost use Rattle.tx_code.specs.WellFormed.{ascends_by};
ghost use Rattle.object_bytes.specs.Objects.{is_whole};

use crate::chains::bases_fit;
use crate::naming::names_used;
use crate::unused::all_used;
use std::alloc::{AllocError, Global};
use tx_code::Object;

/// Whether each name is used, each base is a class of the list, and no chain of bases is a circle.
pub fn is_whole(alloc: Global, object: &Object) -> Result<bool, AllocError>
    requires { ascends_by (λ (c : ClassView). c.name) (map class_view object.now.classes.items) ≡ true }
    ensures { IfOk result (λ b. b ≡ is_whole (object_view object.now)) }
{
    let used = names_used(alloc, object)?;
    if !all_used(alloc, &object.source, &used, &object.names)? {
        return Ok(false);
    }
    bases_fit(alloc, &object.classes)
}
