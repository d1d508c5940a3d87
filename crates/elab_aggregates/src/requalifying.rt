// Initialisers that were made for members, in objects that are `const` or volatile (C++14 3.9.3, 8.5.1 p7).

ghost use Rattle.std.specs.Prelude.{◌≡◌, ◌<◌, IfOk, length, true};
ghost use Rattle.elab_make.specs.cpp_types.Typ.{typ_of};
ghost use Rattle.elab_make.specs.cpp_tree.Trees.{node, kind_of, typ_in, cat_of};
ghost use Rattle.elab_make.specs.cpp_tree.Arena.{trees_of, tree_at, trees_at, are_below, Adds};
ghost use Rattle.elab_make.specs.cpp_tree.Typing.{qualified};
ghost use Rattle.elab_make.specs.elab_ctx.Says.{AddsAll, are_within, place_in};
ghost use Rattle.elab_make.specs.elab_rules.Names.{is_const_typ, is_volatile_object};
ghost use Rattle.elab_make.specs.elab_rules.Braces.{requalified as requalified_of};
ghost use Rattle.elab_aggregates.specs.Requalified.{has_qualifiers as has_qualifiers_of, marked_kind as marked_kind_of, is_part as is_part_of, kid_requalified, kids_requalified};

use elab_make::below::{
    TKind, TNode, TNodeId, Ty, add_node, keep, kids_at, node_at, qualified_type,
};
use std::alloc::{AllocError, Global};

// Whether a node has the qualifiers of the object that it initialises.
fn has_qualifiers(kind: TKind, has_kids: bool) -> bool
    ensures { result ≡ has_qualifiers_of kind has_kids }
{
    match kind {
        TKind::Store { .. }
        | TKind::CopyScalar { .. }
        | TKind::Construct { .. }
        | TKind::CopyConstruct { .. }
        | TKind::Pieces => true,
        TKind::CopyFrom | TKind::Piece { .. } | TKind::Elements { .. } => has_kids,
        _ => false,
    }
}

// What a node is in an object that is volatile, or not.
fn marked_kind(is_volatile: bool, kind: TKind) -> TKind
    ensures { result ≡ marked_kind_of is_volatile kind }
{
    match kind {
        TKind::Store { kind, volatile } => TKind::Store {
            kind,
            volatile: volatile || is_volatile,
        },
        TKind::CopyScalar { kind, volatile } => TKind::CopyScalar {
            kind,
            volatile: volatile || is_volatile,
        },
        _ => kind,
    }
}

// Whether the kid with an index initialises the same object as its parent, or a part of it.
fn is_part(kind: TKind, index: usize) -> bool
    ensures { result ≡ is_part_of kind index }
{
    match kind {
        TKind::Pieces => true,
        TKind::CopyFrom => index != 0,
        TKind::Piece { .. } | TKind::Elements { .. } => index == 0,
        _ => false,
    }
}

// A node like another with these kids, in an object with these qualifiers.
fn requalified_node(
    alloc: Global,
    nodes: &mut Vec<TNode>,
    id: TNodeId,
    kids: Vec<TNodeId>,
    is_const: bool,
    is_volatile: bool,
) -> Result<TNodeId, AllocError>
    requires { id.0 < length (trees_of nodes.old.items) }
    ensures { IfOk result (λ r. Adds (trees_of nodes.old.items) (trees_of nodes.new.items) r (node (marked_kind_of is_volatile (kind_of (tree_at (trees_of nodes.old.items) id))) (qualified is_const is_volatile (typ_in (tree_at (trees_of nodes.old.items) id))) (cat_of (tree_at (trees_of nodes.old.items) id)) (place_in (tree_at (trees_of nodes.old.items) id)) (trees_at (trees_of nodes.old.items) kids.items))) }
{
    let node = node_at(nodes, id);
    let kind = marked_kind(is_volatile, node.kind);
    let ty = qualified_type(alloc, is_const, is_volatile, &node.ty)?;
    let cat = node.cat;
    let at = node.at;
    add_node(
        nodes,
        TNode {
            kind,
            ty,
            cat,
            at,
            kids,
        },
    )
}

// An initialiser in an object with these qualifiers.
#[cycle(requalified)]
fn requalified(
    alloc: Global,
    nodes: &mut Vec<TNode>,
    id: TNodeId,
    is_const: bool,
    is_volatile: bool,
) -> Result<TNodeId, AllocError>
    requires { id.0 < length (trees_of nodes.old.items) }
    ensures { IfOk result (λ r. Adds (trees_of nodes.old.items) (trees_of nodes.new.items) r (requalified_of is_const is_volatile (tree_at (trees_of nodes.old.items) id))) }
{
    let kind = node_at(nodes, id).kind;
    let kids = kids_at(nodes, id)?;
    if !has_qualifiers(kind, !kids.is_empty()) {
        return Ok(id);
    }
    let ids = Vec::from_slice(alloc, kids)?;
    let parts = all_requalified(alloc, nodes, id, kind, &ids, is_const, is_volatile)?;
    requalified_node(alloc, nodes, id, parts, is_const, is_volatile)
}

// The same of a kid of one, which is as it was where it is no part of the object.
#[cycle(requalified)]
fn requalified_kid(
    alloc: Global,
    nodes: &mut Vec<TNode>,
    kid: TNodeId,
    is_part: bool,
    is_const: bool,
    is_volatile: bool,
) -> Result<TNodeId, AllocError>
    requires { kid.0 < length (trees_of nodes.old.items) }
    ensures { IfOk result (λ r. Adds (trees_of nodes.old.items) (trees_of nodes.new.items) r (kid_requalified is_const is_volatile is_part (tree_at (trees_of nodes.old.items) kid))) }
{
    if !is_part {
        return Ok(kid);
    }
    requalified(alloc, nodes, kid, is_const, is_volatile)
}

// The same of all kids of one, which stand below it.
#[cycle(requalified)]
fn all_requalified(
    alloc: Global,
    nodes: &mut Vec<TNode>,
    parent: TNodeId,
    kind: TKind,
    ids: &[TNodeId],
    is_const: bool,
    is_volatile: bool,
) -> Result<Vec<TNodeId>, AllocError>
    requires within { are_within (length (trees_of nodes.old.items)) ids.now ≡ true }
    requires lower { are_below parent.0 ids.now ≡ true }
    ensures { IfOk result (λ r. AddsAll (trees_of nodes.old.items) (trees_of nodes.new.items) r.items (kids_requalified is_const is_volatile kind 0 (trees_at (trees_of nodes.old.items) ids.now))) }
{
    let mut list = Vec::new(alloc);
    for index in 0..ids.len() {
        let part = is_part(kind, index);
        let kid = requalified_kid(alloc, nodes, ids[index], part, is_const, is_volatile)?;
        keep(&mut list, kid)?;
    }
    Ok(list)
}

/// An initialiser that was made for a member, in an object of a type: it has the qualifiers of that object.
pub fn requalified_in(
    alloc: Global,
    nodes: &mut Vec<TNode>,
    whole: &Ty,
    id: TNodeId,
) -> Result<TNodeId, AllocError>
    requires { id.0 < length (trees_of nodes.old.items) }
    ensures { IfOk result (λ r. Adds (trees_of nodes.old.items) (trees_of nodes.new.items) r (requalified_of (is_const_typ (typ_of whole.now)) (is_volatile_object (typ_of whole.now)) (tree_at (trees_of nodes.old.items) id))) }
{
    if !whole.is_const && !whole.is_volatile {
        return Ok(id);
    }
    requalified(alloc, nodes, id, whole.is_const, whole.is_volatile)
}
