// Trees of default member initialisers in another frame (C++14 9.2, 12.6.2).

ghost use Rattle.std.specs.Prelude.{◌≡◌, ◌<◌, IfOk, length, true};
ghost use Rattle.elab_make.specs.cpp_types.Typ.{typ_of};
ghost use Rattle.elab_make.specs.cpp_tree.Trees.{node, kids_of};
ghost use Rattle.elab_make.specs.cpp_tree.Arena.{trees_of, tree_at, trees_at, are_below, Adds};
ghost use Rattle.elab_make.specs.elab_ctx.Says.{AddsAll, are_within};
ghost use Rattle.elab_make.specs.elab_rules.Values.{only_tree};
ghost use Rattle.elab_make.specs.elab_rules.Braces.{this_of, moved_place as moved_place_of, relocated as relocated_of, all_relocated as all_relocated_of, as_part as as_part_of};
ghost use Rattle.elab_aggregates.specs.Relocated.{is_first_item, is_only_first_item, reads_this as reads_this_of, moved_kind as moved_kind_of, this_at, IsThere};

use elab_make::below::{
    At, Cat, TKind, TNode, TNodeId, This, Ty, add_node, copy, keep, kids_at, node_at, pointer_to,
    unqualified_type,
};
use elab_names::parts::retyped;
use elab_names::variables::this_pointer;
use std::alloc::{AllocError, Global};

/// What `this` in a default member initialiser is: the address of an object at hand, or the pointer at a place of the
/// frame.
#[derive(Clone, Copy)]
pub enum Pointed {
    Object(TNodeId),
    Place(u32),
}

// Whether a node is the first item of the frame.
fn is_first(kind: TKind) -> bool
    ensures { result ≡ is_first_item kind }
{
    match kind {
        TKind::Local { place } => place == 0,
        _ => false,
    }
}

// Whether there is one kid, and it is the first item of the frame.
fn is_only_first(nodes: &Vec<TNode>, kids: &[TNodeId]) -> bool
    requires { are_within (length (trees_of nodes.now.items)) kids.now ≡ true }
    ensures { result ≡ is_only_first_item (trees_at (trees_of nodes.now.items) kids.now) }
{
    if kids.len() == 1 {
        is_first(node_at(nodes, kids[0]).kind)
    } else {
        false
    }
}

// Whether a node reads `this`.
fn reads_this(nodes: &Vec<TNode>, kind: TKind, cat: Cat, kids: &[TNodeId]) -> bool
    requires { are_within (length (trees_of nodes.now.items)) kids.now ≡ true }
    ensures { result ≡ reads_this_of kind cat (trees_at (trees_of nodes.now.items) kids.now) }
{
    match kind {
        TKind::Load { volatile, .. } => match cat {
            Cat::Prvalue => !volatile && is_only_first(nodes, kids),
            Cat::Lvalue => false,
        },
        _ => false,
    }
}

// A place of the frame in which the initialiser was made, in the frame at hand.
fn moved_place(by: u32, place: u32) -> Result<u32, AllocError>
    ensures { IfOk result (λ r. r ≡ moved_place_of by place) }
{
    let Ok(moved) = u32::try_from((place as u64 + by as u64).saturating_sub(1)) else {
        return Err(AllocError);
    };
    Ok(moved)
}

fn moved_kind(by: u32, kind: TKind) -> Result<TKind, AllocError>
    ensures { IfOk result (λ r. r ≡ moved_kind_of by kind) }
{
    match kind {
        TKind::Materialize { place, argument } => {
            let place = moved_place(by, place)?;
            Ok(TKind::Materialize { place, argument })
        }
        _ => Ok(kind),
    }
}

// The address of an object at hand, as of one without qualifiers.
fn address_of(
    alloc: Global,
    nodes: &mut Vec<TNode>,
    at: At,
    target: &Ty,
    object: TNodeId,
) -> Result<TNodeId, AllocError>
    requires { object.0 < length (trees_of nodes.old.items) }
    ensures { IfOk result (λ r. Adds (trees_of nodes.old.items) (trees_of nodes.new.items) r (this_of (typ_of target.now) (tree_at (trees_of nodes.old.items) object) at)) }
{
    let pointer = pointer_to(alloc, unqualified_type(alloc, target)?)?;
    retyped(alloc, nodes, at, pointer, Cat::Prvalue, object)
}

// The pointer to the object that is initialised.
fn pointer_tree(
    alloc: Global,
    nodes: &mut Vec<TNode>,
    at: At,
    target: &Ty,
    this: Pointed,
) -> Result<TNodeId, AllocError>
    requires { IsThere (length (trees_of nodes.old.items)) this }
    ensures { IfOk result (λ r. Adds (trees_of nodes.old.items) (trees_of nodes.new.items) r (this_at (trees_of nodes.old.items) (typ_of target.now) this at)) }
{
    match this {
        Pointed::Object(object) => address_of(alloc, nodes, at, target, object),
        Pointed::Place(place) => {
            let ty = copy(alloc, target)?;
            this_pointer(alloc, nodes, at, &This { ty, place })
        }
    }
}

// A node with these kids.
fn moved_node(
    alloc: Global,
    nodes: &mut Vec<TNode>,
    by: u32,
    kind: TKind,
    ty: &Ty,
    cat: Cat,
    at: At,
    kids: Vec<TNodeId>,
) -> Result<TNodeId, AllocError>
    ensures { IfOk result (λ r. Adds (trees_of nodes.old.items) (trees_of nodes.new.items) r (node (moved_kind_of by kind) (typ_of ty.now) cat at (trees_at (trees_of nodes.old.items) kids.items))) }
{
    let kind = moved_kind(by, kind)?;
    let ty = copy(alloc, ty)?;
    add_node(
        nodes,
        TNode {
            kind,
            ty,
            cat,
            at,
            kids,
        },
    )
}

/// The tree of a default member initialiser for an object: its temporaries have places of the frame at hand, and `this`
/// points to the object.
#[cycle(relocated)]
pub fn relocated(
    alloc: Global,
    from: &Vec<TNode>,
    id: TNodeId,
    by: u32,
    target: &Ty,
    this: Pointed,
    nodes: &mut Vec<TNode>,
) -> Result<TNodeId, AllocError>
    requires within { id.0 < length (trees_of from.now.items) }
    requires this { IsThere (length (trees_of nodes.old.items)) this }
    ensures { IfOk result (λ r. Adds (trees_of nodes.old.items) (trees_of nodes.new.items) r (relocated_of by (this_at (trees_of nodes.old.items) (typ_of target.now) this) (tree_at (trees_of from.now.items) id))) }
{
    let node = node_at(from, id);
    let kids = kids_at(from, id)?;
    if reads_this(from, node.kind, node.cat, kids) {
        return pointer_tree(alloc, nodes, node.at, target, this);
    }
    let moved = all_relocated(alloc, from, id, kids, by, target, this, nodes)?;
    moved_node(
        alloc, nodes, by, node.kind, &node.ty, node.cat, node.at, moved,
    )
}

// The same of several trees, which stand below their parent.
#[cycle(relocated)]
fn all_relocated(
    alloc: Global,
    from: &Vec<TNode>,
    parent: TNodeId,
    ids: &[TNodeId],
    by: u32,
    target: &Ty,
    this: Pointed,
    nodes: &mut Vec<TNode>,
) -> Result<Vec<TNodeId>, AllocError>
    requires within { are_within (length (trees_of from.now.items)) ids.now ≡ true }
    requires lower { are_below parent.0 ids.now ≡ true }
    requires this { IsThere (length (trees_of nodes.old.items)) this }
    ensures { IfOk result (λ r. AddsAll (trees_of nodes.old.items) (trees_of nodes.new.items) r.items (all_relocated_of by (this_at (trees_of nodes.old.items) (typ_of target.now) this) (trees_at (trees_of from.now.items) ids.now))) }
{
    let mut list = Vec::new(alloc);
    for id in ids {
        let moved = relocated(alloc, from, *id, by, target, this, nodes)?;
        keep(&mut list, moved)?;
    }
    Ok(list)
}

// The only kid of a node, if it has one kid, else the node.
fn only_kid_or(nodes: &Vec<TNode>, id: TNodeId) -> Result<TNodeId, AllocError>
    requires { id.0 < length (trees_of nodes.now.items) }
    ensures is { IfOk result (λ r. tree_at (trees_of nodes.now.items) r ≡ only_tree (kids_of (tree_at (trees_of nodes.now.items) id)) (tree_at (trees_of nodes.now.items) id)) }
    ensures within { IfOk result (λ r. r.0 < length (trees_of nodes.now.items)) }
{
    match kids_at(nodes, id)? {
        [kid] => Ok(*kid),
        _ => Ok(id),
    }
}

/// An initialiser as a part of one: the expression of a full-expression.
pub fn as_part(nodes: &Vec<TNode>, id: TNodeId) -> Result<TNodeId, AllocError>
    requires { id.0 < length (trees_of nodes.now.items) }
    ensures is { IfOk result (λ r. tree_at (trees_of nodes.now.items) r ≡ as_part_of (tree_at (trees_of nodes.now.items) id)) }
    ensures within { IfOk result (λ r. r.0 < length (trees_of nodes.now.items)) }
{
    match node_at(nodes, id).kind {
        TKind::FullExpression => only_kid_or(nodes, id),
        _ => Ok(id),
    }
}
