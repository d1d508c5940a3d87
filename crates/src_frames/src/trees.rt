//! The trees of a program by the places of their nodes.

ghost use Rattle.std.specs.Prelude.{◌≡◌, ◌<◌, ◌^◌, option_copied, MatchOption, IfSome, Some, None, true, false};
ghost use Rattle.cpp_tree.specs.cpp_types.Typ.{typ, void, typ_of};
ghost use Rattle.cpp_tree.specs.Trees.{node, literal, kind_of as root_kind, typ_in, kids_of as kids_in, first as first_kid, rest as kids_after, second as second_kid, third as third_kid};
ghost use Rattle.src_bind.specs.Bounds.{given};
ghost use Rattle.src_bind.specs.Infos.{trees_in};
ghost use Rattle.src_frames.specs.Trees.{node_found, are_none, kid_of, count_of, kid_tree, kids_below};
ghost use Rattle.src_frames.specs.Bounds.{tree_of, all_kids};

use cpp_tree::below::Ty;
use cpp_tree::{Program, TKind, TNode, TNodeId};
use src_bind::Bound;

/// A tree: that of a node of a unit, or a word.
#[derive(Clone, Copy, Debug, PartialEq, Eq)]
pub enum TreeAt {
    Node { unit: u32, id: TNodeId },
    Word(u64),
}

/// The kids of a tree, from one of them on.
#[derive(Clone, Copy, Debug, PartialEq, Eq)]
pub struct KidsAt {
    pub of: TreeAt,
    pub from: usize,
}

// The node with this place.
fn node_at(program: &Program, unit: u32, id: TNodeId) -> Option<&TNode>
    ensures { option_copied result ≡ node_found program.now unit id }
{
    match program.units.get(unit as usize) {
        Some(tree) => tree.nodes.get(id.0 as usize),
        None => None,
    }
}

// The node of a place.
fn shown_node<'b>(bound: &'b Bound<'_>, unit: u32, id: TNodeId) -> Option<&'b TNode>
    ensures { MatchOption result (tree_of bound.now (TreeAt.Node unit id) ≡ literal 0) (λ n. tree_of bound.now (TreeAt.Node unit id) ≡ node n.now.kind (typ_of n.now.ty) n.now.cat n.now.at (kids_below (trees_in (given bound.now).program unit) id.0 n.now.kids.items)) }
{
    match node_at(bound.program(), unit, id) {
        Some(node) => Some(node),
        None => None,
    }
}

/// What stands at the root of a tree.
pub fn kind_of(bound: &Bound<'_>, tree: TreeAt) -> TKind
    ensures { result ≡ root_kind (tree_of bound.now tree) }
{
    match tree {
        TreeAt::Word(word) => TKind::Literal { word },
        TreeAt::Node { unit, id } => match shown_node(bound, unit, id) {
            Some(node) => node.kind,
            None => TKind::Literal { word: 0 },
        },
    }
}

/// The type of a tree; that of a word is `void`, and none stands for it.
pub fn type_of<'b>(bound: &'b Bound<'_>, tree: TreeAt) -> Option<&'b Ty>
    ensures { MatchOption result (typ_in (tree_of bound.now tree) ≡ typ void false false) (λ ty. typ_in (tree_of bound.now tree) ≡ typ_of ty.now) }
{
    match tree {
        TreeAt::Word(_) => None,
        TreeAt::Node { unit, id } => match shown_node(bound, unit, id) {
            Some(node) => Some(&node.ty),
            None => None,
        },
    }
}

// How many kids a tree has.
#[tactic(auto, using(crate::proofs::Kids::count_below))]
fn kid_count(bound: &Bound<'_>, tree: TreeAt) -> usize
    ensures count { result ≡ count_of (kids_in (tree_of bound.now tree)) }
    ensures few { result < 2 ^ 63 }
{
    match tree {
        TreeAt::Word(_) => 0,
        TreeAt::Node { unit, id } => match shown_node(bound, unit, id) {
            Some(node) => node.kids.len(),
            None => 0,
        },
    }
}

// A kid of a node. Kids have lower ids; what has not shows the word 0.
fn kid_below(bound: &Bound<'_>, unit: u32, id: TNodeId, kid: TNodeId) -> TreeAt
    ensures { tree_of bound.now result ≡ kid_tree (given bound.now).program unit id kid }
{
    if kid.0 < id.0 {
        TreeAt::Node { unit, id: kid }
    } else {
        TreeAt::Word(0)
    }
}

// A kid of a node that has these kids.
fn kid_in(
    bound: &Bound<'_>,
    unit: u32,
    id: TNodeId,
    kids: &[TNodeId],
    index: usize,
) -> Option<TreeAt>
    ensures { MatchOption result (kid_of index (kids_below (trees_in (given bound.now).program unit) id.0 kids.now) ≡ None) (λ kid. kid_of index (kids_below (trees_in (given bound.now).program unit) id.0 kids.now) ≡ Some (tree_of bound.now kid)) }
{
    match kids.get(index) {
        Some(kid) => Some(kid_below(bound, unit, id, *kid)),
        None => None,
    }
}

// A kid of a tree.
fn kid_at(bound: &Bound<'_>, tree: TreeAt, index: usize) -> Option<TreeAt>
    ensures { MatchOption result (kid_of index (kids_in (tree_of bound.now tree)) ≡ None) (λ kid. kid_of index (kids_in (tree_of bound.now tree)) ≡ Some (tree_of bound.now kid)) }
{
    match tree {
        TreeAt::Word(_) => None,
        TreeAt::Node { unit, id } => match shown_node(bound, unit, id) {
            Some(node) => kid_in(bound, unit, id, &node.kids, index),
            None => None,
        },
    }
}

/// All kids of a tree.
pub fn kids_of(bound: &Bound<'_>, tree: TreeAt) -> KidsAt
    ensures { all_kids bound.now result ≡ kids_in (tree_of bound.now tree) }
{
    let _shown = bound;
    KidsAt { of: tree, from: 0 }
}

/// The first of these kids, if there is one.
#[tactic(auto, using(crate::proofs::Kids::some_there, crate::proofs::Kids::some_first, crate::proofs::Kids::none_there))]
pub fn head(bound: &Bound<'_>, kids: KidsAt) -> Option<TreeAt>
    ensures there { MatchOption result (are_none (all_kids bound.now kids) ≡ true) (λ kid. are_none (all_kids bound.now kids) ≡ false) }
    ensures first { IfSome result (λ kid. tree_of bound.now kid ≡ first_kid (all_kids bound.now kids)) }
{
    kid_at(bound, kids.of, kids.from)
}

/// The kids behind the first.
#[tactic(auto, using(crate::proofs::Kids::behind_next, crate::proofs::Kids::behind_past))]
pub fn rest(bound: &Bound<'_>, kids: KidsAt) -> KidsAt
    ensures { all_kids bound.now result ≡ kids_after (all_kids bound.now kids) }
{
    if kids.from < kid_count(bound, kids.of) {
        KidsAt {
            of: kids.of,
            from: kids.from + 1,
        }
    } else {
        kids
    }
}

/// Whether there are none.
pub fn is_past(bound: &Bound<'_>, kids: KidsAt) -> bool
    ensures { result ≡ are_none (all_kids bound.now kids) }
{
    match head(bound, kids) {
        Some(_) => false,
        None => true,
    }
}

/// The first of these kids; the word 0 where there is none.
#[tactic(auto, using(crate::proofs::Kids::first_none))]
pub fn first(bound: &Bound<'_>, kids: KidsAt) -> TreeAt
    ensures { tree_of bound.now result ≡ first_kid (all_kids bound.now kids) }
{
    match head(bound, kids) {
        Some(tree) => tree,
        None => TreeAt::Word(0),
    }
}

/// The second of these kids.
pub fn second(bound: &Bound<'_>, kids: KidsAt) -> TreeAt
    ensures { tree_of bound.now result ≡ second_kid (all_kids bound.now kids) }
{
    first(bound, rest(bound, kids))
}

/// The third of these kids.
pub fn third(bound: &Bound<'_>, kids: KidsAt) -> TreeAt
    ensures { tree_of bound.now result ≡ third_kid (all_kids bound.now kids) }
{
    second(bound, rest(bound, kids))
}
