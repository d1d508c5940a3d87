// Kids of a node by their places.

ghost use Rattle.std.specs.Prelude.{◌≡◌, ◌<◌, ◌≤◌, ◌∷◌, ◌+◌, [], ℕ, MatchOption, true, drop, length};
ghost use Rattle.elab_init.specs.cpp_ast.Orders.{are_below};

use elab_init::below::NodeId;

/// The kid at a place.
pub fn kid_at(ids: &[NodeId], place: usize) -> Option<NodeId>
    ensures kid { MatchOption result (drop place ids.now ≡ []) (λ kid. drop place ids.now ≡ kid ∷ drop (place + 1) ids.now) }
    ensures within { MatchOption result (Unit {0}) (λ kid. place < length ids.now) }
    ensures lower { MatchOption result (Unit {0}) (λ kid. (limit : ℕ) → are_below limit ids.now ≡ true → kid.0 < limit) }
{
    if place >= ids.len() {
        return None;
    }
    Some(ids[place])
}

/// The kids from a place on.
pub fn rest_from(ids: &[NodeId], place: usize) -> &[NodeId]
    requires { place ≤ length ids.now }
    ensures rest { result.now ≡ drop place ids.now }
    ensures below { (limit : ℕ) → are_below limit ids.now ≡ true → are_below limit result.now ≡ true }
{
    &ids[place..]
}
