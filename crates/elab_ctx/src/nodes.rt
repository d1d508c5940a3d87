// Reading typed nodes.

ghost use Rattle.std.specs.Prelude.{◌≡◌, ◌<◌, length, true, IfOk};
ghost use Rattle.cpp_tree.specs.cpp_types.Typ.{typ_of};
ghost use Rattle.cpp_tree.specs.Trees.{kind_of, typ_in, cat_of, kids_of};
ghost use Rattle.cpp_tree.specs.Arena.{trees_of, tree_at, trees_at, are_below};
ghost use Rattle.elab_ctx.specs.Says.{place_in, are_within};

use cpp_tree::{TNode, TNodeId};
use std::alloc::AllocError;

/// The node with an id: its kind, type, category and place are those of the tree that stands there.
pub fn node_at(nodes: &Vec<TNode>, id: TNodeId) -> &TNode
    requires { id.0 < length (trees_of nodes.now.items) }
    ensures kind { kind_of (tree_at (trees_of nodes.now.items) id) ≡ result.now.kind }
    ensures typ { typ_in (tree_at (trees_of nodes.now.items) id) ≡ typ_of result.now.ty }
    ensures cat { cat_of (tree_at (trees_of nodes.now.items) id) ≡ result.now.cat }
    ensures place { place_in (tree_at (trees_of nodes.now.items) id) ≡ result.now.at }
{
    &nodes[id.0 as usize]
}

// Whether each id is below a place.
fn are_before(ids: &[TNodeId], place: u32) -> bool
    ensures { result ≡ are_below place ids.now }
{
    for id in ids {
        if id.0 >= place {
            return false;
        }
    }
    true
}

/// The kids of a node. They stand before it in each list that is made by adding nodes; one that does not counts as
/// want of memory.
pub fn kids_at(nodes: &Vec<TNode>, id: TNodeId) -> Result<&[TNodeId], AllocError>
    requires { id.0 < length (trees_of nodes.now.items) }
    ensures kids { IfOk result (λ ids. kids_of (tree_at (trees_of nodes.now.items) id) ≡ trees_at (trees_of nodes.now.items) ids.now) }
    ensures before { IfOk result (λ ids. are_below id.0 ids.now ≡ true) }
    ensures within { IfOk result (λ ids. are_within (length (trees_of nodes.now.items)) ids.now ≡ true) }
{
    let kids = &nodes[id.0 as usize].kids;
    if !are_before(kids, id.0) {
        return Err(AllocError);
    }
    Ok(kids)
}
