// Copies of types, and work that is not kept.

ghost use Rattle.std.specs.Prelude.{◌≡◌, [], map, IfOk};
ghost use Rattle.elab_rows.specs.cpp_types.Typ.{typ_of};
ghost use Rattle.elab_rows.specs.elab_ctx.Ctx.{work_of};

use elab_rows::below::{Ty, Work, copy};
use std::alloc::{AllocError, Global};

/// The same types once more.
pub fn copy_types(alloc: Global, types: &[Ty]) -> Result<Vec<Ty>, AllocError>
    ensures { IfOk result (λ v. map typ_of v.items ≡ map typ_of types.now) }
{
    let mut copies = Vec::new(alloc);
    for ty in types {
        copies.push(copy(alloc, ty)?)?;
    }
    Ok(copies)
}

/// Nothing made yet, for an expression that needs nothing of what was made before.
pub fn no_work(alloc: Global) -> Work
    ensures { work_of result ≡ record { frame = []; globals = [] } }
{
    Work {
        nodes: Vec::new(alloc),
        frame: Vec::new(alloc),
        globals: Vec::new(alloc),
    }
}
