//! Nodes that become the kids of a new one, and the names that nodes declare.

ghost use Rattle.std.specs.Prelude.{◌≡◌, ◌<◌, ℕ, List, true, OnErr, IfOk, IfSome, length, drop, slice_get, option_map};
ghost use Rattle.cpp_ast.specs.Orders.{are_below};
ghost use Rattle.cpp_ast.specs.Trees.{Tree, Trees, Shows, ShowsAll};
ghost use Rattle.cpp_syntax.specs.Derivations.{declared, declared_in, is_of_declarator, leads_to_name, name_by};
ghost use Rattle.cpp_syntax.specs.View.{name_of};
ghost use Rattle.cpp_syntax.specs.Gathers.{Gathered, FirstLeads, last_or_none};

use crate::positions::DeclaredName;
use cpp_ast::arena::MAX_NODES;
use cpp_ast::{At, Node, NodeId, NodeKind, Nodes};
use std::alloc::{AllocError, Global};

/// The ids from an index on, of which there may be none.
pub(crate) fn from_index(ids: &[NodeId], start: usize) -> &[NodeId]
    ensures { result.now ≡ drop start ids.now }
{
    if start <= ids.len() {
        &ids[start..]
    } else {
        &[]
    }
}

/// The id at an index, if there is one.
pub(crate) fn id_at(ids: &[NodeId], at: usize) -> Option<NodeId>
    ensures { result ≡ slice_get ids.now at }
{
    ids.get(at).copied()
}

/// The ids from an index on as the kids of a node.
fn kids_from(alloc: Global, ids: &[NodeId], start: usize) -> Result<Vec<NodeId>, AllocError>
    ensures { IfOk result (λ kids. kids.items ≡ drop start ids.now) }
{
    let mut kids = Vec::new(alloc);
    kids.extend_from_slice(from_index(ids, start))?;
    Ok(kids)
}

/// Makes one node of those at the ids from an index on.
pub(crate) fn gather(
    alloc: Global,
    nodes: &mut Nodes,
    ids: &mut Vec<NodeId>,
    start: usize,
    kind: NodeKind,
    at: At,
    token: Option<u32>,
) -> Result<NodeId, AllocError>
    requires { are_below (length nodes.old) ids.old.items ≡ true }
    ensures gathered { IfOk result (λ id. Gathered nodes.old nodes.new ids.old.items ids.new.items start id kind at token) }
    ensures nodes { OnErr result (nodes.new ≡ nodes.old) }
    ensures ids { OnErr result (ids.new.items ≡ ids.old.items) }
{
    if nodes.len() == MAX_NODES {
        return Err(AllocError);
    }
    ids.reserve(1)?;
    let kids = kids_from(alloc, ids, start)?;
    let id = nodes.add(Node {
        kind,
        at,
        kids,
        token,
    })?;
    ids.truncate(start);
    ids.push_reserved(id);
    Ok(id)
}

/// The last number, or 0 where there is none.
pub(crate) fn last_or_none(numbers: &[usize]) -> usize
    ensures { result ≡ last_or_none numbers.now }
{
    match numbers.last() {
        Some(number) => *number,
        None => 0,
    }
}

/// Whether nodes of a kind lead from a declarator to the name that it declares.
fn leads_to_name(kind: NodeKind) -> bool
    ensures { result ≡ leads_to_name kind }
{
    match kind {
        NodeKind::PointerDeclarator
        | NodeKind::ReferenceDeclarator
        | NodeKind::ArrayDeclarator
        | NodeKind::FunctionDeclarator
        | NodeKind::ParenthesizedDeclarator
        | NodeKind::InitDeclarator
        | NodeKind::MemberDeclarator => true,
        _ => false,
    }
}

/// The name that a node of a kind with a token is.
fn name_by(kind: NodeKind, token: Option<u32>) -> Option<DeclaredName>
    ensures { option_map name_of result ≡ name_by kind token }
{
    let token = token?;
    match kind {
        NodeKind::DeclaratorId | NodeKind::QualifiedDeclaratorId => Some(DeclaredName {
            first: token,
            token,
        }),
        NodeKind::DestructorId | NodeKind::QualifiedDestructorId => Some(DeclaredName {
            first: token.saturating_sub(1),
            token,
        }),
        _ => None,
    }
}

/// Whether a node is a name or leads to one.
fn is_of_declarator(nodes: &Nodes, id: NodeId) -> bool
    requires { id.0 < length nodes.now }
    ensures { (tree : Tree) → Shows nodes.now id.0 tree → result ≡ is_of_declarator tree }
{
    let node = nodes.node(id);
    leads_to_name(node.kind) || name_by(node.kind, node.token).is_some()
}

/// The first of some nodes that is a name or leads to one.
fn first_of_declarator(nodes: &Nodes, ids: &[NodeId]) -> Option<NodeId>
    requires { are_below (length nodes.now) ids.now ≡ true }
    ensures first { FirstLeads nodes.now ids.now result }
    ensures below { (index : ℕ) → are_below index ids.now ≡ true → IfSome result (λ id. id.0 < index) }
{
    for id in ids {
        if is_of_declarator(nodes, *id) {
            return Some(*id);
        }
    }
    None
}

/// The name that the first of some nodes declares which is of a declarator.
pub(crate) fn named_by(nodes: &Nodes, ids: &[NodeId]) -> Option<DeclaredName>
    requires { are_below (length nodes.now) ids.now ≡ true }
    ensures { (trees : Trees) → ShowsAll nodes.now ids.now trees → option_map name_of result ≡ declared_in trees }
{
    let first = first_of_declarator(nodes, ids)?;
    name_of_node(nodes, first)
}

/// The name that a node declares which is a name or leads to one.
fn name_of_node(nodes: &Nodes, id: NodeId) -> Option<DeclaredName>
    requires { id.0 < length nodes.now }
    ensures { (tree : Tree) → Shows nodes.now id.0 tree → is_of_declarator tree ≡ true → option_map name_of result ≡ declared tree }
{
    let mut at = id;
    'names: loop {
        let node = nodes.node(at);
        if !leads_to_name(node.kind) {
            return name_by(node.kind, node.token);
        }
        let Some(next) = first_of_declarator(nodes, &node.kids) else {
            return None;
        };
        at = next;
    }
}
