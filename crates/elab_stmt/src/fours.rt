// The kids of a `for`.

ghost use Rattle.std.specs.Prelude.{◌≡◌, ◌<◌, ℕ, List, true, MatchOption};
ghost use Rattle.elab_locals.specs.cpp_ast.Orders.{are_below};
ghost use Rattle.elab_locals.specs.cpp_ast.Trees.{Tree};
ghost use Rattle.elab_locals.specs.elab_types.Syntax.{trees_at};
ghost use Rattle.elab_stmt.specs.Fours.{IsFour, four_trees};

use elab_locals::below::NodeId;

/// The four kids of a `for`.
#[derive(Clone, Copy)]
pub struct Four {
    pub first: NodeId,
    pub test: NodeId,
    pub step: NodeId,
    pub body: NodeId,
}

/// These, if there are four.
pub fn four_of(ids: &[NodeId]) -> Option<Four>
    ensures trees { MatchOption result (Unit {0}) (λ four. (trees : List Tree) → trees_at trees ids.now ≡ four_trees trees four) }
    ensures lower { MatchOption result (Unit {0}) (λ four. (limit : ℕ) → are_below limit ids.now ≡ true → IsFour limit four) }
{
    if ids.len() != 4 {
        return None;
    }
    Some(Four {
        first: ids[0],
        test: ids[1],
        step: ids[2],
        body: ids[3],
    })
}
