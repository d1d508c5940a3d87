// Bodies of lambdas among the kids of lambdas (C++14 5.1.2).

ghost use Rattle.std.specs.Prelude.{◌≡◌, ◌<◌, ◌++◌, ◌∷◌, [], length, take, set, slice_get, true, IfOk, OnOk, Some, None};
ghost use Rattle.cpp_ast.specs.Orders.{are_below};
ghost use Rattle.elab_types.specs.Syntax.{syntax_of, tree_at, trees_at};
ghost use Rattle.unit_syntax.specs.Whole.{IsWhole};
ghost use Rattle.unit_syntax.specs.Copies.{body_in, IsNotedIn, IsCopied, AreCopied, Keeps};

use cpp_ast::arena::MAX_NODES;
use cpp_ast::{LamBody, Node, NodeId, Nodes, Unit};
use std::alloc::{AllocError, Global};

/// The declarations of a unit, whose lambdas have their bodies as their last kids.
#[derive(Drop)]
pub struct WholeUnit {
    pub nodes: Nodes,
    pub decls: Vec<NodeId>,
}

/// How many nodes stand in one another at most: more than a unit has that was read.
const MOST_NESTED: u32 = 100_000;

// Notes the body of a lambda. A second body of a lambda, or one of a node that is not there, counts as want of memory:
// no unit that was read has one.
fn note(table: &mut Vec<Option<NodeId>>, body: LamBody) -> Result<(), AllocError>
    ensures first { OnOk result (slice_get table.old.items body.lam.0 ≡ Some None) }
    ensures noted { OnOk result (table.new.items ≡ set table.old.items body.lam.0 (Some body.body)) }
{
    let Some(slot) = table.get_mut(body.lam.0 as usize) else {
        return Err(AllocError);
    };
    if slot.is_some() {
        return Err(AllocError);
    }
    *slot = Some(body.body);
    Ok(())
}

// The body of each node, by the index of the node.
fn bodies_by_node(
    alloc: Global,
    count: u32,
    bodies: &[LamBody],
) -> Result<Vec<Option<NodeId>>, AllocError>
    ensures { IfOk result (λ table. IsNotedIn bodies.now table.items) }
{
    let mut table: Vec<Option<NodeId>> = vec![in alloc; None; count as usize]?;
    'bodies: for body in bodies {
        note(&mut table, *body)?;
    }
    Ok(table)
}

fn body_of(table: &[Option<NodeId>], id: NodeId) -> Option<NodeId>
    ensures { body_in (slice_get table.now id.0) ≡ body_in (Some result) }
{
    match table.get(id.0 as usize) {
        Some(found) => *found,
        None => None,
    }
}

// Adds a node behind the others. A list that is full counts as want of memory.
fn add(nodes: &mut Nodes, node: Node) -> Result<NodeId, AllocError>
    requires { are_below (length nodes.old) node.kids.items ≡ true }
    ensures { IfOk result (λ id. (id.0 ≡ length nodes.old) × (nodes.new ≡ nodes.old ++ node ∷ [])) }
{
    if nodes.len() == MAX_NODES {
        return Err(AllocError);
    }
    nodes.add(node)
}

// Adds an id behind others.
fn put(ids: &mut Vec<NodeId>, id: NodeId) -> Result<(), AllocError>
    ensures { OnOk result (ids.new.items ≡ ids.old.items ++ id ∷ []) }
{
    ids.push(id)?;
    Ok(())
}

// The kids of a node, and behind them its body.
fn kids_and_body(
    alloc: Global,
    kids: &[NodeId],
    body: Option<NodeId>,
) -> Result<Vec<NodeId>, AllocError>
    ensures { IfOk result (λ ids. ids.items ≡ kids.now ++ body_in (Some body)) }
{
    let mut ids = Vec::new(alloc);
    ids.extend_from_slice(kids)?;
    match body {
        Some(body) => put(&mut ids, body)?,
        None => {}
    }
    Ok(ids)
}

// Copies a tree, with the bodies of its lambdas, to another list.
#[cycle(copies)]
fn copied(
    alloc: Global,
    unit: &Unit,
    table: &[Option<NodeId>],
    id: NodeId,
    most: u32,
    to: &mut Nodes,
) -> Result<NodeId, AllocError>
    requires { IsNotedIn unit.now.bodies.items table.now }
    ensures { IfOk result (λ copy. IsCopied unit.now to.old to.new id copy) }
{
    let Some(less) = most.checked_sub(1) else {
        return Err(AllocError);
    };
    if id.0 >= unit.nodes.len() {
        return Err(AllocError);
    }
    let node = unit.nodes.node(id);
    let ids = kids_and_body(alloc, &node.kids, body_of(table, id))?;
    let kids = all_copied(alloc, unit, table, &ids, less, to)?;
    add(
        to,
        Node {
            kind: node.kind,
            at: node.at,
            kids,
            token: node.token,
        },
    )
}

// The same of several trees.
#[cycle(copies)]
fn all_copied(
    alloc: Global,
    unit: &Unit,
    table: &[Option<NodeId>],
    ids: &[NodeId],
    most: u32,
    to: &mut Nodes,
) -> Result<Vec<NodeId>, AllocError>
    requires { IsNotedIn unit.now.bodies.items table.now }
    ensures { IfOk result (λ copies. AreCopied unit.now to.old to.new ids.now copies.items) }
{
    let Some(less) = most.checked_sub(1) else {
        return Err(AllocError);
    };
    let mut copies = Vec::new(alloc);
    'ids: for id in ids {
        let copy = copied(alloc, unit, table, *id, less, to)?;
        put(&mut copies, copy)?;
    }
    Ok(copies)
}

/// The declarations of a unit with the bodies of its lambdas among the kids of these. Every kid stands below its node,
/// bodies too, so that what goes down the trees ends.
///
/// A unit that nests deeper than 100,000 nodes, with two bodies for a lambda or with ids of no nodes counts as want of
/// memory: none that was read does.
pub fn whole_unit(alloc: Global, unit: &Unit) -> Result<WholeUnit, AllocError>
    ensures there { IfOk result (λ w. are_below (length w.nodes) w.decls.items ≡ true) }
    ensures whole { IfOk result (λ w. IsWhole unit.now (trees_at (syntax_of w.nodes) w.decls.items)) }
{
    let table = bodies_by_node(alloc, unit.nodes.len(), &unit.bodies)?;
    let mut nodes = Nodes::new(alloc);
    let decls = all_copied(alloc, unit, &table, &unit.decls, MOST_NESTED, &mut nodes)?;
    Ok(WholeUnit { nodes, decls })
}
