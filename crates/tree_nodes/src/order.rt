// The order of nodes: kids have lower ids.

ghost use Rattle.std.specs.Prelude.{◌≡◌, IsTrue, ◌↔◌};
ghost use Rattle.cpp_tree.specs.Arena.{are_below, IsOrdered};
ghost use Rattle.tree_nodes.specs.Order.{ordered_from};

use cpp_tree::{TNode, TNodeId};

// Whether each id is below a place.
fn are_lower(place: usize, ids: &[TNodeId]) -> bool
    ensures { result ≡ are_below place ids.now }
{
    for id in ids {
        if id.0 as usize >= place {
            return false;
        }
    }
    true
}

// Whether the kids of each node stand before it.
fn are_kids_lower(nodes: &[TNode]) -> bool
    ensures { result ≡ ordered_from 0 nodes.now }
{
    for (i, node) in nodes.iter().enumerate() {
        if !are_lower(i, &node.kids) {
            return false;
        }
    }
    true
}

/// Whether the kids of each node have lower ids than it: then each place shows one tree.
pub fn is_ordered(nodes: &[TNode]) -> bool
    ensures { IsTrue result ↔ IsOrdered nodes.now }
{
    are_kids_lower(nodes)
}
