//! How deep the nodes of a tree lie.

ghost use Rattle.std.specs.Prelude.{◌≡◌, ◌≤◌, ◌<◌, ◌^◌, List, length, IfOk, true, slice_get};
ghost use Rattle.cpp_ast.specs.declared.units.LamBody.{LamBody as LamBodyRecord};
ghost use Rattle.cpp_ast.specs.Orders.{are_below};
ghost use Rattle.cpp_ast.specs.Trees.{Tree, Trees, ShowsWith, ShowsAllWith, kid_depth};
ghost use Rattle.cpp_syntax.specs.View.{is_lambda};
ghost use Rattle.cpp_parse_expr.specs.Depths.{deep_node, deep_kid, lambda_depths, lambda_depths_in, Searches, HaveNodes, IsNotedIn, at_most_one};

use cpp_ast::{At, NodeId, NodeKind, Nodes};
use cpp_syntax::shapes::descend;
use std::alloc::AllocError;

/// The position of the first node that lies deeper than a limit, of a tree whose root has a depth: a node comes before its
/// kids, these come in their order, and the body that is noted for a lambda comes after its kids. Where no node lies so deep,
/// the depths of the lambdas are noted, in the order in which the lambdas end.
#[cycle(down)]
pub fn first_deep(
    nodes: &Nodes,
    noted: &[Option<NodeId>],
    id: NodeId,
    depth: u64,
    limit: u32,
    depth_left: u32,
    lambdas: &mut Vec<u32>,
) -> Result<Option<At>, AllocError>
    requires there { HaveNodes (length nodes.now) noted.now }
    requires inside { id.0 < length nodes.now }
    ensures { IfOk result (λ position. (bodies : List LamBodyRecord) (tree : Tree) → IsNotedIn bodies noted.now → ShowsWith bodies nodes.now id.0 tree
        → Searches (deep_node limit depth tree) (lambda_depths depth tree) lambdas.old.items lambdas.new.items position) }
{
    let node = nodes.node(id);
    let most = u64::from(limit);
    if depth > most {
        return Ok(Some(node.at));
    }
    let inner = descend(depth_left)?;
    if let Some(position) = first_deep_kid(
        nodes, noted, &node.kids, depth, limit, inner, lambdas,
    )? {
        return Ok(Some(position));
    }
    if let Some(behind) = first_deep_in_body(nodes, noted, id, depth, limit, inner, lambdas)? {
        return Ok(Some(behind));
    }
    if is_lambda(node.kind) {
        lambdas.push(depth as u32)?;
        return Ok(None);
    }
    Ok(None)
}

/// The same among the trees of the kids of a node of a depth.
#[cycle(down)]
pub fn first_deep_kid(
    nodes: &Nodes,
    noted: &[Option<NodeId>],
    kids: &[NodeId],
    depth: u64,
    limit: u32,
    depth_left: u32,
    lambdas: &mut Vec<u32>,
) -> Result<Option<At>, AllocError>
    requires there { HaveNodes (length nodes.now) noted.now }
    requires below { are_below (length nodes.now) kids.now ≡ true }
    requires here { depth ≤ limit }
    ensures { IfOk result (λ position. (bodies : List LamBodyRecord) (trees : Trees) → IsNotedIn bodies noted.now
        → ShowsAllWith bodies nodes.now kids.now trees
        → Searches (deep_kid limit depth trees) (lambda_depths_in depth trees) lambdas.old.items lambdas.new.items position) }
{
    'kids: for kid in kids {
        let below = depth_of_kid(nodes.node(*kid).kind, depth);
        if let Some(position) = first_deep(nodes, noted, *kid, below, limit, depth_left, lambdas)? {
            return Ok(Some(position));
        }
    }
    Ok(None)
}

/// The same in the body of a lambda of a depth, if one is noted for a node.
#[cycle(down)]
fn first_deep_in_body(
    nodes: &Nodes,
    noted: &[Option<NodeId>],
    id: NodeId,
    depth: u64,
    limit: u32,
    depth_left: u32,
    lambdas: &mut Vec<u32>,
) -> Result<Option<At>, AllocError>
    requires there { HaveNodes (length nodes.now) noted.now }
    requires here { depth ≤ limit }
    ensures { IfOk result (λ position. (bodies : List LamBodyRecord) (trees : Trees) → IsNotedIn bodies noted.now
        → ShowsAllWith bodies nodes.now (at_most_one (slice_get noted.now id.0)) trees
        → Searches (deep_kid limit depth trees) (lambda_depths_in depth trees) lambdas.old.items lambdas.new.items position) }
{
    let lambda = id.0 as usize;
    let many = noted.len();
    if lambda >= many {
        return Ok(None);
    }
    match noted[lambda] {
        Some(body) => first_deep_kid(nodes, noted, &[body], depth, limit, depth_left, lambdas),
        None => Ok(None),
    }
}

/// The depth of a kid of a kind in a node of a depth.
fn depth_of_kid(kind: NodeKind, depth: u64) -> u64
    requires { depth < 2 ^ 32 }
    ensures { result ≡ kid_depth depth kind }
{
    if kind.counts_one() { depth + 1 } else { depth }
}

/// Whether a node of a kind is a lambda.
fn is_lambda(kind: NodeKind) -> bool
    ensures { result ≡ is_lambda kind }
{
    matches!(kind, NodeKind::Lambda)
}
