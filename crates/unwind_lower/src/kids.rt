//! Kids of nodes.

ghost use Rattle.std.specs.Prelude.{◌≡◌};
ghost use Rattle.low_code.specs.Nodes.{node_of};
ghost use Rattle.unwind_lower.specs.Kids.{kids_from};

use cpp_tree::{TNode, TNodeId};

/// The kids of a node, from one on.
pub fn kids_from(node: &TNode, first: usize) -> &[TNodeId]
    ensures { result.now ≡ kids_from (node_of node.now) first }
{
    let kids = node.kids.as_slice();
    if first < kids.len() {
        &kids[first..]
    } else {
        &[]
    }
}
