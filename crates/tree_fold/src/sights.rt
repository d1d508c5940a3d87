// What the folded tree of each node shows of itself.

ghost use Rattle.std.specs.Prelude.{◌≡◌, ◌<◌, ◌++◌, ◌∷◌, [], ℕ, Some, true, IfOk, IfSome, OnOk, length, slice_get};
ghost use Rattle.cpp_tree.specs.cpp_types.Typ.{typ_of};
ghost use Rattle.cpp_tree.specs.declared.kinds.TKind.TheVariants.{Literal};
ghost use Rattle.cpp_tree.specs.Typing.{is_prvalue, goes_both_ways};
ghost use Rattle.cpp_tree.specs.Roles.{is_throw};
ghost use Rattle.cpp_tree.specs.Arena.{IsOrdered, are_below, trees_of};
ghost use Rattle.tx_unsafe.specs.Volatile.{marked};
ghost use Rattle.tree_fold.specs.Constants.{is_integer, literal_word, both_words, of_integer};
ghost use Rattle.tree_fold.specs.Folding.{stands_for};
ghost use Rattle.tree_fold.specs.Sights.{AreSights, has_none, only_word, pair_of_words, constant_seen, only_taken_seen, taken_by_word, taken_among, taken_seen, all_bare, own_sight, kid_or, sight_seen};

use crate::bare::is_bare_node;
use crate::words::{Operands, comma_word, converted, operator_word};
use cpp_tree::below::{Cat, Shape, Ty};
use cpp_tree::{TKind, TNode, TNodeId};
use std::alloc::{AllocError, Global};

/// What the folded tree of a node shows of itself.
#[derive(Clone, Copy)]
pub struct Sight {
    pub kind: TKind,
    /// Its word, where it is a literal of an integer type.
    pub word: Option<u64>,
    /// Whether it may be dropped where it is not run.
    pub bare: bool,
}

fn is_integer(ty: &Ty) -> bool
    ensures { result ≡ is_integer (typ_of ty.now) }
{
    match &ty.shape {
        Shape::Int(_) => true,
        _ => false,
    }
}

fn is_value(cat: Cat) -> bool
    ensures { result ≡ is_prvalue cat }
{
    match cat {
        Cat::Prvalue => true,
        Cat::Lvalue => false,
    }
}

fn has_none(ids: &[TNodeId]) -> bool
    ensures { result ≡ has_none ids.now }
{
    match ids {
        [] => true,
        _ => false,
    }
}

// The word of a literal of an integer type.
fn literal_word(kind: TKind, test: bool) -> Option<u64>
    ensures { result ≡ literal_word kind test }
{
    match kind {
        TKind::Literal { word } => { if test { Some(word) } else { None } }
        _ => None,
    }
}

fn both_words(left: Option<u64>, right: Option<u64>) -> Option<Operands>
    ensures { result ≡ both_words left right }
{
    match left {
        Some(left) => match right {
            Some(right) => Some(Operands { left, right }),
            None => None,
        },
        None => None,
    }
}

// What is known of a node.
fn sight_at(sights: &[Sight], id: TNodeId) -> Sight
    requires { id.0 < length sights.now }
    ensures { slice_get sights.now id.0 ≡ Some result }
{
    sights[id.0 as usize]
}

// The word of an only kid.
fn one_word(sights: &[Sight], ids: &[TNodeId]) -> Option<u64>
    requires below { are_below (length sights.now) ids.now ≡ true }
    ensures { result ≡ only_word sights.now ids.now }
{
    match ids {
        [id] => sight_at(sights, *id).word,
        _ => None,
    }
}

// The words of two kids.
fn two_words(sights: &[Sight], ids: &[TNodeId]) -> Option<Operands>
    requires below { are_below (length sights.now) ids.now ≡ true }
    ensures { result ≡ pair_of_words sights.now ids.now }
{
    match ids {
        [left, right] => { both_words(sight_at(sights, *left).word, sight_at(sights, *right).word) }
        _ => None,
    }
}

// Of a value of an integer type.
fn of_integer(ty: &Ty, cat: Cat, word: Option<u64>) -> Option<u64>
    ensures { result ≡ of_integer (typ_of ty.now) cat word }
{
    if is_integer(ty) && is_value(cat) {
        word
    } else {
        None
    }
}

/// The word of a node that has a value before the run.
pub(crate) fn constant(sights: &[Sight], node: &TNode) -> Option<u64>
    requires below { are_below (length sights.now) node.now.kids.items ≡ true }
    ensures { result ≡ constant_seen sights.now node.now.kind (typ_of node.now.ty) node.now.cat node.now.kids.items }
{
    match node.kind {
        TKind::Convert { to } => of_integer(
            &node.ty,
            node.cat,
            converted(to, one_word(sights, &node.kids)),
        ),
        TKind::Binary { op, kind } => of_integer(
            &node.ty,
            node.cat,
            operator_word(op, kind, two_words(sights, &node.kids)),
        ),
        TKind::Comma => of_integer(
            &node.ty,
            node.cat,
            comma_word(two_words(sights, &node.kids)),
        ),
        _ => None,
    }
}

fn is_throw(kind: TKind) -> bool
    ensures { result ≡ is_throw kind }
{
    match kind {
        TKind::Throw | TKind::Rethrow => true,
        _ => false,
    }
}

fn goes_both_ways(kind: TKind) -> bool
    ensures { result ≡ goes_both_ways kind }
{
    match kind {
        TKind::Conditional
        | TKind::Comma
        | TKind::FullExpression
        | TKind::Call { .. }
        | TKind::VirtualCall { .. }
        | TKind::PointerCall
        | TKind::Throw
        | TKind::Rethrow => true,
        _ => false,
    }
}

// Whether what is taken may stand where a conditional of this type and category stood.
fn stands_for(ty: &Ty, cat: Cat, kind: TKind) -> bool
    ensures { result ≡ stands_for (typ_of ty.now) cat kind }
{
    match &ty.shape {
        Shape::Void | Shape::Enum { .. } | Shape::Ptr(_) => false,
        Shape::Class(_) | Shape::Closure(_) | Shape::TxEx(_) => {
            !is_throw(kind) && (!is_value(cat) || goes_both_ways(kind))
        }
        _ => !is_throw(kind),
    }
}

// The kid that is taken where the other one may be dropped.
fn only_taken(sights: &[Sight], ty: &Ty, cat: Cat, run: TNodeId, other: TNodeId) -> Option<TNodeId>
    requires run { run.0 < length sights.now }
    requires other { other.0 < length sights.now }
    ensures is { result ≡ only_taken_seen sights.now (typ_of ty.now) cat run other }
    ensures one { IfSome result (λ id. id ≡ run) }
{
    if stands_for(ty, cat, sight_at(sights, run).kind) && sight_at(sights, other).bare {
        Some(run)
    } else {
        None
    }
}

// The kid that is taken by the word of the condition.
fn taken_by(
    sights: &[Sight],
    ty: &Ty,
    cat: Cat,
    word: Option<u64>,
    chosen: TNodeId,
    other: TNodeId,
) -> Option<TNodeId>
    requires chosen { chosen.0 < length sights.now }
    requires other { other.0 < length sights.now }
    ensures is { result ≡ taken_by_word sights.now (typ_of ty.now) cat word chosen other }
    ensures within { IfSome result (λ id. id.0 < length sights.now) }
    ensures lower { (n : ℕ) → chosen.0 < n → other.0 < n → IfSome result (λ id. id.0 < n) }
{
    match word {
        Some(word) => {
            if word == 0 {
                only_taken(sights, ty, cat, other, chosen)
            } else {
                only_taken(sights, ty, cat, chosen, other)
            }
        }
        None => None,
    }
}

// The kid that is taken among the kids of a conditional.
fn taken_among(sights: &[Sight], ty: &Ty, cat: Cat, ids: &[TNodeId]) -> Option<TNodeId>
    requires below { are_below (length sights.now) ids.now ≡ true }
    ensures is { result ≡ taken_among sights.now (typ_of ty.now) cat ids.now }
    ensures within { IfSome result (λ id. id.0 < length sights.now) }
    ensures lower { (n : ℕ) → are_below n ids.now ≡ true → IfSome result (λ id. id.0 < n) }
{
    match ids {
        [test, chosen, other] => taken_by(
            sights,
            ty,
            cat,
            sight_at(sights, *test).word,
            *chosen,
            *other,
        ),
        _ => None,
    }
}

/// The kid that is taken where it is known before the run and the other one may be dropped.
pub(crate) fn taken(sights: &[Sight], node: &TNode) -> Option<TNodeId>
    requires below { are_below (length sights.now) node.now.kids.items ≡ true }
    ensures is { result ≡ taken_seen sights.now node.now.kind (typ_of node.now.ty) node.now.cat node.now.kids.items }
    ensures within { IfSome result (λ id. id.0 < length sights.now) }
    ensures lower { (n : ℕ) → are_below n node.now.kids.items ≡ true → IfSome result (λ id. id.0 < n) }
{
    match node.kind {
        TKind::Conditional => taken_among(sights, &node.ty, node.cat, &node.kids),
        _ => None,
    }
}

// Whether all of these may be dropped.
fn are_bare(sights: &[Sight], ids: &[TNodeId]) -> bool
    requires below { are_below (length sights.now) ids.now ≡ true }
    ensures { result ≡ all_bare sights.now ids.now }
{
    for id in ids {
        if !sight_at(sights, *id).bare {
            return false;
        }
    }
    true
}

// What a node shows that stays as it is, its kids apart.
fn own_sight(sights: &[Sight], volatile: &[bool], node: &TNode) -> Sight
    requires below { are_below (length sights.now) node.now.kids.items ≡ true }
    ensures { result ≡ own_sight (marked volatile.now) sights.now node.now.kind (typ_of node.now.ty) node.now.kids.items }
{
    Sight {
        kind: node.kind,
        word: literal_word(node.kind, is_integer(&node.ty) && has_none(&node.kids)),
        bare: is_bare_node(node.kind, &node.ty, volatile) && are_bare(sights, &node.kids),
    }
}

fn literal_sight(word: u64) -> Sight
    ensures { result ≡ record { kind = Literal word; word = Some word; bare = true } }
{
    Sight {
        kind: TKind::Literal { word },
        word: Some(word),
        bare: true,
    }
}

// What the kid shows that is taken, or the node itself.
fn kid_or_own_sight(sights: &[Sight], volatile: &[bool], node: &TNode) -> Sight
    requires below { are_below (length sights.now) node.now.kids.items ≡ true }
    ensures { result ≡ kid_or sights.now (taken_seen sights.now node.now.kind (typ_of node.now.ty) node.now.cat node.now.kids.items) (own_sight (marked volatile.now) sights.now node.now.kind (typ_of node.now.ty) node.now.kids.items) }
{
    match taken(sights, node) {
        Some(id) => sight_at(sights, id),
        None => own_sight(sights, volatile, node),
    }
}

// What the folded tree of a node shows.
fn folded_sight(sights: &[Sight], volatile: &[bool], node: &TNode) -> Sight
    requires below { are_below (length sights.now) node.now.kids.items ≡ true }
    ensures { result ≡ sight_seen (marked volatile.now) sights.now node.now }
{
    match constant(sights, node) {
        Some(word) => literal_sight(word),
        None => kid_or_own_sight(sights, volatile, node),
    }
}

// One more.
fn keep_sight(sights: &mut Vec<Sight>, next: Sight) -> Result<(), AllocError>
    ensures { OnOk result (sights.new.items ≡ sights.old.items ++ next ∷ []) }
{
    sights.push(next)?;
    Ok(())
}

/// What the folded tree of each node shows.
pub(crate) fn sights_of(
    alloc: Global,
    nodes: &[TNode],
    volatile: &[bool],
) -> Result<Vec<Sight>, AllocError>
    requires { IsOrdered nodes.now }
    ensures many { IfOk result (λ sights. length sights.items ≡ length nodes.now) }
    ensures shown { IfOk result (λ sights. AreSights (marked volatile.now) (trees_of nodes.now) sights.items) }
{
    let mut sights = Vec::new(alloc);
    for node in nodes {
        let seen = sights.as_slice();
        let next = folded_sight(seen, volatile, node);
        keep_sight(&mut sights, next)?;
    }
    Ok(sights)
}
