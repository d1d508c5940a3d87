//! Nodes of bodies and how they are run. A function here does nothing: its clauses are the laws.

ghost use Rattle.std.specs.Prelude.{◌<◌, length};
ghost use Rattle.cpp_tree.specs.Arena.{IsOrdered};
ghost use Rattle.cpp_tree.specs.declared.arena.TNodeId.{TNodeId};
ghost use Rattle.unwind_lower.specs.Settings.{Setting};
ghost use Rattle.lowered_trees.specs.Bodies.{IsTree, MayBeLowered, RunsWhole};

/// A well-formed body that suits is a block, and may be run as one: each of its nodes is run in a way that it may be run.
pub fn bodies_run()
    ensures { (g : Setting) (root : TNodeId) → MayBeLowered g root → RunsWhole g root }
{}

/// The tree of a node has the node's parts, and the trees of its kids.
pub fn nodes_are_trees()
    ensures { (g : Setting) (id : TNodeId) → IsOrdered g.unit.nodes.items → id.0 < length g.unit.nodes.items → IsTree g id }
{}
