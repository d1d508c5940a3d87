//! Nodes by their ids.

ghost use Rattle.std.specs.Prelude.{◌≡◌, Some, slice_get, IfOk};
ghost use Rattle.low_code.specs.Nodes.{node_of, node_in, kid_in};

use cpp_tree::{TNode, TNodeId, UnitTree};
use std::alloc::AllocError;

/// The node with this id.
pub fn node_at(unit: &UnitTree, id: TNodeId) -> Result<&TNode, AllocError>
    ensures found { IfOk result (λ n. slice_get unit.now.nodes.items id.0 ≡ Some n.now) }
    ensures shown { IfOk result (λ n. node_of n.now ≡ node_in unit.now.nodes.items id) }
{
    match unit.nodes.get(id.0 as usize) {
        Some(node) => Ok(node),
        None => Err(AllocError),
    }
}

/// The kid of a node with this index.
pub fn kid(node: &TNode, index: usize) -> Result<TNodeId, AllocError>
    ensures found { IfOk result (λ id. slice_get node.now.kids.items index ≡ Some id) }
    ensures shown { IfOk result (λ id. id ≡ kid_in node.now.kids.items index) }
{
    match node.kids.get(index) {
        Some(id) => Ok(*id),
        None => Err(AllocError),
    }
}
