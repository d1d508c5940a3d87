// Lists of nodes.

ghost use Rattle.std.specs.Prelude.{◌≡◌, ◌++◌, ◌∷◌, [], OnOk};

use elab_conv::below::TNodeId;
use std::alloc::AllocError;

/// One more node.
pub fn keep(list: &mut Vec<TNodeId>, id: TNodeId) -> Result<(), AllocError>
    ensures { OnOk result (list.new.items ≡ list.old.items ++ id ∷ []) }
{
    list.push(id)?;
    Ok(())
}

/// More nodes.
pub fn keep_all(list: &mut Vec<TNodeId>, ids: &[TNodeId]) -> Result<(), AllocError>
    ensures { OnOk result (list.new.items ≡ list.old.items ++ ids.now) }
{
    list.extend_from_slice(ids)?;
    Ok(())
}
