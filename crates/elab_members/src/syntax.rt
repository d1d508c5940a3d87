// Kids of syntax nodes.

ghost use Rattle.std.specs.Prelude.{◌≡◌, ◌<◌, ◌+◌, length, true, MatchOption, option_map};
ghost use Rattle.elab_entry.specs.cpp_ast.Orders.{are_below};
ghost use Rattle.elab_entry.specs.elab_rules.Lambdas.{kids_of as kids_of_tree};
ghost use Rattle.elab_entry.specs.elab_rules.Members.{initialiser_in as initialiser_in_of};
ghost use Rattle.elab_entry.specs.elab_types.Syntax.{syntax_of, tree_at, trees_at};
ghost use Rattle.elab_members.specs.Initialisers.{only_tree, initialiser_by};

use elab_implicit::below::{Kids, NodeId, NodeKind, Nodes, elab_types_node_at as node_at, kids_of};

/// The kids of a node, each of which is one of the nodes.
pub fn kids_in(nodes: &Nodes, id: NodeId) -> &[NodeId]
    requires { id.0 < length nodes.now }
    ensures kids { trees_at (syntax_of nodes.now) result.now ≡ kids_of_tree (tree_at (syntax_of nodes.now) id) }
    ensures below { are_below (length nodes.now) result.now ≡ true }
{
    let node = node_at(nodes, id);
    &node.kids
}

// The kid that stands alone.
fn only_kid(nodes: &Nodes, parent: NodeId, ids: &[NodeId]) -> Option<NodeId>
    requires { are_below parent.0 ids.now ≡ true }
    ensures tree { option_map (tree_at (syntax_of nodes.now)) result ≡ only_tree (trees_at (syntax_of nodes.now) ids.now) }
    ensures lower { MatchOption result (Unit {0}) (λ found. found.0 < parent.0) }
{
    match kids_of(ids) {
        Kids::One(kid) => Some(kid),
        Kids::None | Kids::Two(_, _) | Kids::Three(_, _, _) | Kids::Many => None,
    }
}

// The expression of an initialiser, by its kind and its kids.
fn initialiser_of(nodes: &Nodes, parent: NodeId, kind: NodeKind, ids: &[NodeId]) -> Option<NodeId>
    requires { are_below parent.0 ids.now ≡ true }
    ensures tree { option_map (tree_at (syntax_of nodes.now)) result ≡ initialiser_by kind (only_tree (trees_at (syntax_of nodes.now) ids.now)) }
    ensures lower { MatchOption result (Unit {0}) (λ found. found.0 < parent.0) }
{
    match kind {
        NodeKind::EqualInitializer | NodeKind::PureSpecifier => only_kid(nodes, parent, ids),
        _ => None,
    }
}

/// The expression of the initialiser behind a declarator, if one stands among its kids (C++14 9.2 p5).
pub fn initialiser_in(nodes: &Nodes, ids: &[NodeId]) -> Option<NodeId>
    requires { are_below (length nodes.now) ids.now ≡ true }
    ensures tree { option_map (tree_at (syntax_of nodes.now)) result ≡ initialiser_in_of (trees_at (syntax_of nodes.now) ids.now) }
    ensures within { MatchOption result (Unit {0}) (λ found. found.0 < length nodes.now) }
{
    for id in ids {
        let node = node_at(nodes, *id);
        match initialiser_of(nodes, *id, node.kind, &node.kids) {
            Some(found) => return Some(found),
            None => {}
        }
    }
    None
}
