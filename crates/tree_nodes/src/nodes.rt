// Nodes of a unit and their trees.

ghost use Rattle.std.specs.Prelude.{◌≡◌, ◌<◌, length, true};
ghost use Rattle.cpp_tree.specs.Arena.{IsOrdered, are_below, trees_of, tree_of, tree_at};

use cpp_tree::{TNode, TNodeId, UnitTree};

/// The node with this id, which shows its tree, and whose kids stand before it.
pub fn node_at(unit: &UnitTree, id: TNodeId) -> &TNode
    requires ordered { IsOrdered unit.now.nodes.items }
    requires within { id.0 < length unit.now.nodes.items }
    ensures tree { tree_at (trees_of unit.now.nodes.items) id ≡ tree_of (trees_of unit.now.nodes.items) result.now }
    ensures lower { are_below id.0 result.now.kids.items ≡ true }
    ensures below { are_below (length unit.now.nodes.items) result.now.kids.items ≡ true }
{
    unit.tnode(id)
}
