// The kids of a node.

ghost use Rattle.std.specs.Prelude.{◌≡◌, ◌<◌, ◌-◌, ◌++◌, ◌∷◌, [], ℕ, List, true, MatchOption, take, drop, length};
ghost use Rattle.elab_conv.specs.cpp_ast.Orders.{are_below};
ghost use Rattle.elab_conv.specs.cpp_ast.Trees.{Tree};
ghost use Rattle.elab_types.specs.Syntax.{trees_at};
ghost use Rattle.elab_types.specs.Kids.{HasKids, AreLower};

use elab_conv::below::NodeId;

/// The kids of a node, as far as forms with a fixed number of parts ask for them.
#[derive(Clone, Copy)]
pub enum Kids {
    None,
    One(NodeId),
    Two(NodeId, NodeId),
    Three(NodeId, NodeId, NodeId),
    Many,
}

/// The kids of a node by their number.
pub fn kids_of(ids: &[NodeId]) -> Kids
    ensures trees { (trees : List Tree) → HasKids trees result (trees_at trees ids.now) }
    ensures lower { (limit : ℕ) → are_below limit ids.now ≡ true → AreLower limit result }
{
    let count = ids.len();
    if count == 0 {
        return Kids::None;
    }
    if count == 1 {
        return Kids::One(ids[0]);
    }
    if count == 2 {
        return Kids::Two(ids[0], ids[1]);
    }
    if count == 3 {
        return Kids::Three(ids[0], ids[1], ids[2]);
    }
    Kids::Many
}

/// The first kid.
pub fn first_kid(ids: &[NodeId]) -> Option<NodeId>
    ensures kid { MatchOption result (ids.now ≡ []) (λ kid. ids.now ≡ kid ∷ drop 1 ids.now) }
    ensures lower { MatchOption result (Unit {0}) (λ kid. (limit : ℕ) → are_below limit ids.now ≡ true → kid.0 < limit) }
{
    if ids.is_empty() { None } else { Some(ids[0]) }
}

/// The last kid.
pub fn last_kid(ids: &[NodeId]) -> Option<NodeId>
    ensures kid { MatchOption result (ids.now ≡ []) (λ kid. ids.now ≡ take (length ids.now - 1) ids.now ++ kid ∷ []) }
    ensures within { MatchOption result (Unit {0}) (λ kid. 0 < length ids.now) }
    ensures lower { MatchOption result (Unit {0}) (λ kid. (limit : ℕ) → are_below limit ids.now ≡ true → kid.0 < limit) }
{
    if ids.is_empty() {
        None
    } else {
        Some(ids[ids.len() - 1])
    }
}
