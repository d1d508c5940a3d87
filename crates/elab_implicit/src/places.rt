// Places in lists of nodes.

ghost use Rattle.std.specs.Prelude.{◌≡◌, ◌<◌, length, true, OnOk};
ghost use Rattle.elab_entry.specs.cpp_tree.Arena.{trees_of};
ghost use Rattle.elab_entry.specs.elab_ctx.Says.{are_within};

use elab_entry::below::{TNode, TNodeId};
use std::alloc::AllocError;

/// Tests that a node with an id stands in a list. Each id that is asked for here was made in that list; one that does
/// not stand there counts as want of memory.
pub fn stands(nodes: &Vec<TNode>, id: TNodeId) -> Result<(), AllocError>
    ensures { OnOk result (id.0 < length (trees_of nodes.now.items)) }
{
    if id.0 as usize >= nodes.len() {
        return Err(AllocError);
    }
    Ok(())
}

/// Tests the same of several ids.
pub fn all_stand(nodes: &Vec<TNode>, ids: &[TNodeId]) -> Result<(), AllocError>
    ensures { OnOk result (are_within (length (trees_of nodes.now.items)) ids.now ≡ true) }
{
    for id in ids {
        stands(nodes, *id)?;
    }
    Ok(())
}
