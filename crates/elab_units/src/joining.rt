// The bodies of a unit in one list of nodes.

ghost use Rattle.std.specs.Prelude.{◌≡◌, ◌∷◌, ◌++◌, [], length, map, true, IfOk, OnOk};
ghost use Rattle.elab_entry.specs.cpp_tree.Arena.{trees_of};
ghost use Rattle.elab_entry.specs.elab_scopes.States.{body_of};
ghost use Rattle.elab_units.specs.Joined.{placed_in, are_placed, roots_of, bodies_in};
ghost use Rattle.tree_forests.specs.Copies.{OwnForest};

use elab_entry::below::{Body, TNode, TNodeId};
use std::alloc::{AllocError, Global};
use tree_forests::copy_tree;

/// Where the tree of a body stands among the nodes of the unit, and the items of its frame.
#[derive(Drop)]
pub struct Placed {
    pub func: u32,
    pub tree: TNodeId,
    pub frame: Vec<elab_entry::below::Ty>,
}

/// The nodes of a unit, and where its bodies stand in them.
#[derive(Drop)]
pub struct Joined {
    pub nodes: Vec<TNode>,
    pub bodies: Vec<Placed>,
}

// Puts a copy of a body behind others: its nodes are no kids of other nodes.
fn put_body(
    alloc: Global,
    nodes: &mut Vec<TNode>,
    placed: &mut Vec<Placed>,
    body: Body,
) -> Result<(), AllocError>
    requires { are_placed (length (trees_of nodes.old.items)) placed.old.items ≡ true }
    ensures placed { OnOk result (are_placed (length (trees_of nodes.new.items)) placed.new.items ≡ true) }
    ensures bodies { OnOk result (map (placed_in (trees_of nodes.new.items)) placed.new.items ≡ map (placed_in (trees_of nodes.old.items)) placed.old.items ++ body_of body ∷ []) }
    ensures forest { OwnForest [] nodes.old.items (roots_of placed.old.items) → OnOk result (OwnForest [] nodes.new.items (roots_of placed.new.items)) }
{
    let tree = copy_tree(alloc, &body.nodes, body.tree, nodes)?;
    placed.push(Placed {
        func: body.func,
        tree,
        frame: body.frame,
    })?;
    Ok(())
}

/// Bodies, one behind the other: those that stand in the list are those that were given, and their trees are a forest.
pub fn joined_bodies(alloc: Global, bodies: Vec<Body>) -> Result<Joined, AllocError>
    ensures bodies { IfOk result (λ j. bodies_in j ≡ map body_of bodies.items) }
    ensures forest { IfOk result (λ j. OwnForest [] j.nodes.items (roots_of j.bodies.items)) }
{
    let mut nodes = Vec::new(alloc);
    let mut placed = Vec::new(alloc);
    for body in bodies {
        put_body(alloc, &mut nodes, &mut placed, body)?;
    }
    Ok(Joined {
        nodes,
        bodies: placed,
    })
}
