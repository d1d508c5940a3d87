//! Which nodes make temporaries that wait.

ghost use Rattle.std.specs.Prelude.{◌≡◌, IfOk};
ghost use Rattle.low_code.specs.Temporaries.{has_one as has_one_among, makes_by as makes_one_by, makes_one as makes_one_there, temporaries_of};

use cpp_tree::{TKind, TNode, TNodeId, UnitTree};
use std::alloc::{AllocError, Global};

// Whether one of the kids does, where so much is known of the nodes before.
fn has_one(kids: &[TNodeId], known: &[bool]) -> bool
    ensures { result ≡ has_one_among known.now kids.now }
{
    for kid in kids {
        if known.get(kid.0 as usize).copied().unwrap_or(false) {
            return true;
        }
    }
    false
}

// Whether a node of this kind with so many kids does, of which one may do so.
fn makes_by(kind: TKind, kids: usize, below: bool) -> bool
    ensures { result ≡ makes_one_by kind kids below }
{
    match kind {
        TKind::FullExpression => false,
        TKind::Materialize { argument, .. } => (!argument && kids > 1) || below,
        _ => below,
    }
}

// Whether a node makes temporaries that wait in the full-expression around it.
fn makes_one(node: &TNode, known: &[bool]) -> bool
    ensures { result ≡ makes_one_there known.now node.now }
{
    makes_by(node.kind, node.kids.len(), has_one(&node.kids, known))
}

/// Of each node of a unit, whether it makes temporaries that wait for the end of the full-expression around it.
pub fn with_temporaries(alloc: Global, unit: &UnitTree) -> Result<Vec<bool>, AllocError>
    ensures { IfOk result (λ known. known.items ≡ temporaries_of unit.now.nodes.items) }
{
    let mut known = Vec::new(alloc);
    for node in &unit.nodes {
        let makes = makes_one(node, &known);
        known.push(makes)?;
    }
    Ok(known)
}
