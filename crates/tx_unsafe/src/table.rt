// The table of unsafe parts: one function for each row, and all of them for a node.

ghost use Rattle.std.specs.Prelude.{◌≡◌, ◌<◌, ℕ, true, None, Some, MatchOption, fold, length};
ghost use Rattle.cpp_types.specs.Typ.{typ_of, signature_of};
ghost use Rattle.cpp_tree.specs.Typing.{is_void, is_prvalue};
ghost use Rattle.cpp_tree.specs.Arena.{IsOrdered, are_below, trees_of, tree_of};
ghost use Rattle.tx_unsafe.specs.Volatile.{marked};
ghost use Rattle.tx_unsafe.specs.Unsafe.{writes_volatile, reads_volatile, builds_object, is_made, is_exception, is_local, calls_predeclared, is_safe_signature, is_safe_pointer, called, is_atomic, where_so, place_of, read_at, initialises_volatile, declares_volatile, calls_unsafe_pointer, kid_in, accesses_of, objects_of, foreign_calls_of, own_of};
ghost use Rattle.tx_unsafe.specs.First.{sooner, is_before};

use crate::finding::Finding;
use crate::volatility::{has_volatile, is_class, is_volatile_class};
use cpp_tree::{Builtin, TKind, TNode, TNodeId, UnsafeReason};
use cpp_types::{At, Cat, FnTy, Shape, Ty};

// A modification through a volatile glvalue.
fn is_volatile_write(node: &TNode) -> bool
    ensures { result ≡ writes_volatile node.now.kind (typ_of node.now.ty) }
{
    match node.kind {
        TKind::Assign { volatile, .. } | TKind::Update { volatile, .. } => volatile,
        TKind::Store { volatile, .. } => volatile && is_of_no_type(&node.ty),
        _ => false,
    }
}

fn is_of_no_type(ty: &Ty) -> bool
    ensures { result ≡ is_void (typ_of ty.now) }
{
    match &ty.shape {
        Shape::Void => true,
        _ => false,
    }
}

// A read through a volatile glvalue.
fn is_volatile_read(kind: TKind) -> bool
    ensures { result ≡ reads_volatile kind }
{
    match kind {
        TKind::Load { volatile, .. } | TKind::Update { volatile, .. } => volatile,
        _ => false,
    }
}

// Building, copying or assigning an object.
fn is_building(kind: TKind, cat: Cat) -> bool
    ensures { result ≡ builds_object kind cat }
{
    match kind {
        TKind::Call { .. } | TKind::VirtualCall { .. } | TKind::PointerCall => is_value(cat),
        TKind::CopyAssign
        | TKind::Construct { .. }
        | TKind::CopyConstruct { .. }
        | TKind::CopyFrom
        | TKind::Pieces
        | TKind::Piece { .. }
        | TKind::Elements { .. } => true,
        _ => false,
    }
}

fn is_value(cat: Cat) -> bool
    ensures { result ≡ is_prvalue cat }
{
    match cat {
        Cat::Prvalue => true,
        Cat::Lvalue => false,
    }
}

// The creation of a temporary that is no argument, or of a `std::tx_exception` that is one.
fn is_temporary(kind: TKind, ty: &Ty) -> bool
    ensures { result ≡ is_made kind (typ_of ty.now) }
{
    match kind {
        TKind::Materialize { argument, .. } => !argument || is_exception_type(ty),
        _ => false,
    }
}

fn is_exception_type(ty: &Ty) -> bool
    ensures { result ≡ is_exception (typ_of ty.now) }
{
    match &ty.shape {
        Shape::TxEx(_) => true,
        _ => false,
    }
}

fn is_variable(kind: TKind) -> bool
    ensures { result ≡ is_local kind }
{
    match kind {
        TKind::Local { .. } => true,
        _ => false,
    }
}

// A call of a predeclared function, all of which but `std::abort` are unsafe.
fn is_predeclared_call(kind: TKind) -> bool
    ensures { result ≡ calls_predeclared kind }
{
    match kind {
        TKind::Builtin { which } => match which {
            Builtin::Abort => false,
            _ => true,
        },
        _ => false,
    }
}

// A pointer to a `transaction_safe` function.
fn is_safe_function_pointer(ty: &Ty) -> bool
    ensures { result ≡ is_safe_pointer (typ_of ty.now) }
{
    match &ty.shape {
        Shape::Ptr(target) => match &target.shape {
            Shape::Func(function) => is_safe_function(function),
            _ => false,
        },
        _ => false,
    }
}

#[tactic(auto, using(cpp_types::proofs::Views::signature_view))]
fn is_safe_function(function: &FnTy) -> bool
    ensures { result ≡ is_safe_signature (signature_of function.now) }
{
    function.safe
}

/// The function that a node calls by name, or implicitly.
pub(crate) fn callee(kind: TKind) -> Option<u32>
    ensures { result ≡ called kind }
{
    match kind {
        TKind::Call { func }
        | TKind::VirtualCall { func, .. }
        | TKind::Construct { func }
        | TKind::CopyConstruct { func }
        | TKind::Destroy { func, .. } => Some(func),
        _ => None,
    }
}

/// Whether a node is an atomic block.
pub(crate) fn is_atomic_block(kind: TKind) -> bool
    ensures { result ≡ is_atomic kind }
{
    match kind {
        TKind::Atomic { .. } => true,
        _ => false,
    }
}

// The kid of a node with this number, where it has one.
pub(crate) fn kid_at<'a>(nodes: &'a [TNode], ids: &[TNodeId], i: usize) -> Option<&'a TNode>
    requires ordered { IsOrdered nodes.now }
    requires below { are_below (length nodes.now) ids.now ≡ true }
    ensures { MatchOption result (kid_in (trees_of nodes.now) ids.now i ≡ None) (λ kid. kid_in (trees_of nodes.now) ids.now i ≡ Some (tree_of (trees_of nodes.now) kid.now)) }
{
    if i < ids.len() {
        let id = ids[i];
        Some(&nodes[id.0 as usize])
    } else {
        None
    }
}

// A variable, a part that is no class object, or what a handler has a name for, that is volatile or has a volatile part.
fn is_volatile_declaration(nodes: &[TNode], volatile: &[bool], node: &TNode) -> bool
    requires ordered { IsOrdered nodes.now }
    requires below { are_below (length nodes.now) node.now.kids.items ≡ true }
    ensures { result ≡ declares_volatile (marked volatile.now) node.now.kind (typ_of node.now.ty) (kid_in (trees_of nodes.now) node.now.kids.items 0) }
{
    match node.kind {
        TKind::Init => match kid_at(nodes, &node.kids, 0) {
            Some(address) => {
                (is_variable(address.kind) || !is_class(&address.ty))
                    && has_volatile(&address.ty, volatile)
            }
            None => false,
        },
        TKind::Handler { place: Some(_) } => has_volatile(&node.ty, volatile),
        _ => false,
    }
}

// An object that a declaration builds, of a class that is volatile or has a volatile part.
fn is_volatile_initialisation(nodes: &[TNode], volatile: &[bool], node: &TNode) -> bool
    requires ordered { IsOrdered nodes.now }
    requires below { are_below (length nodes.now) node.now.kids.items ≡ true }
    ensures { result ≡ initialises_volatile (marked volatile.now) node.now.kind (kid_in (trees_of nodes.now) node.now.kids.items 0) }
{
    match node.kind {
        TKind::Init => match kid_at(nodes, &node.kids, 0) {
            Some(address) => is_volatile_class(&address.ty, volatile),
            None => false,
        },
        _ => false,
    }
}

// A call through a pointer whose function type is not `transaction_safe`.
fn is_unsafe_pointer_call(nodes: &[TNode], node: &TNode) -> bool
    requires ordered { IsOrdered nodes.now }
    requires below { are_below (length nodes.now) node.now.kids.items ≡ true }
    ensures { result ≡ calls_unsafe_pointer node.now.kind (kid_in (trees_of nodes.now) node.now.kids.items 0) }
{
    match node.kind {
        TKind::PointerCall => match kid_at(nodes, &node.kids, 0) {
            Some(pointer) => !is_safe_function_pointer(&pointer.ty),
            None => true,
        },
        _ => false,
    }
}

// The place of a kid, or of the node itself where it has none.
fn place(nodes: &[TNode], node: &TNode, i: usize) -> At
    requires ordered { IsOrdered nodes.now }
    requires below { are_below (length nodes.now) node.now.kids.items ≡ true }
    ensures { result ≡ place_of node.now.at (kid_in (trees_of nodes.now) node.now.kids.items i) }
{
    match kid_at(nodes, &node.kids, i) {
        Some(kid) => kid.at,
        None => node.at,
    }
}

// Where a node reads: `op=` does so at its address.
fn read_place(nodes: &[TNode], node: &TNode) -> At
    requires ordered { IsOrdered nodes.now }
    requires below { are_below (length nodes.now) node.now.kids.items ≡ true }
    ensures { result ≡ read_at node.now.kind node.now.at (kid_in (trees_of nodes.now) node.now.kids.items 0) }
{
    match node.kind {
        TKind::Update { .. } => place(nodes, node, 0),
        _ => node.at,
    }
}

// Whether a place stands before another in the text.
fn stands_before(a: At, b: At) -> bool
    ensures { result ≡ is_before a b }
{
    a.source < b.source || a.source == b.source && a.offset < b.offset
}

/// The one found before, or this one where it stands before that one.
pub(crate) fn sooner_of(found: Option<Finding>, other: Finding) -> Option<Finding>
    ensures { result ≡ sooner found other }
{
    match found {
        Some(first) if !stands_before(other.at, first.at) => Some(first),
        _ => Some(other),
    }
}

/// The sooner one, where the test holds.
pub fn noted(found: Option<Finding>, test: bool, at: At, reason: UnsafeReason) -> Option<Finding>
    ensures { result ≡ fold sooner found (where_so test at reason) }
{
    if test {
        sooner_of(found, Finding { at, reason })
    } else {
        found
    }
}

// What a node declares, writes and reads.
fn with_accesses(
    nodes: &[TNode],
    volatile: &[bool],
    node: &TNode,
    found: Option<Finding>,
) -> Option<Finding>
    requires ordered { IsOrdered nodes.now }
    requires below { are_below (length nodes.now) node.now.kids.items ≡ true }
    ensures { result ≡ fold sooner found (accesses_of (marked volatile.now) (trees_of nodes.now) node.now) }
{
    let found = noted(
        found,
        is_volatile_declaration(nodes, volatile, node),
        node.at,
        UnsafeReason::VolatileLocal,
    );
    let found = noted(
        found,
        is_volatile_write(node),
        node.at,
        UnsafeReason::VolatileWrite,
    );
    noted(
        found,
        is_volatile_read(node.kind),
        read_place(nodes, node),
        UnsafeReason::VolatileRead,
    )
}

// What objects a node builds.
fn with_objects(
    nodes: &[TNode],
    volatile: &[bool],
    node: &TNode,
    found: Option<Finding>,
) -> Option<Finding>
    requires ordered { IsOrdered nodes.now }
    requires below { are_below (length nodes.now) node.now.kids.items ≡ true }
    ensures { result ≡ fold sooner found (objects_of (marked volatile.now) (trees_of nodes.now) node.now) }
{
    let found = noted(
        found,
        is_building(node.kind, node.cat) && is_volatile_class(&node.ty, volatile),
        node.at,
        UnsafeReason::VolatileWrite,
    );
    let found = noted(
        found,
        is_volatile_initialisation(nodes, volatile, node),
        place(nodes, node, 1),
        UnsafeReason::VolatileWrite,
    );
    noted(
        found,
        is_temporary(node.kind, &node.ty) && has_volatile(&node.ty, volatile),
        node.at,
        UnsafeReason::VolatileTemp,
    )
}

// What a node calls that is no function of the unit.
fn with_calls(nodes: &[TNode], node: &TNode, found: Option<Finding>) -> Option<Finding>
    requires ordered { IsOrdered nodes.now }
    requires below { are_below (length nodes.now) node.now.kids.items ≡ true }
    ensures { result ≡ fold sooner found (foreign_calls_of (trees_of nodes.now) node.now) }
{
    let found = noted(
        found,
        is_predeclared_call(node.kind),
        node.at,
        UnsafeReason::CallsUnsafe,
    );
    noted(
        found,
        is_unsafe_pointer_call(nodes, node),
        node.at,
        UnsafeReason::CallsUnsafePointer,
    )
}

/// What a node is unsafe for by itself, the first of that and of what was found before.
pub(crate) fn with_own(
    nodes: &[TNode],
    volatile: &[bool],
    node: &TNode,
    found: Option<Finding>,
) -> Option<Finding>
    requires ordered { IsOrdered nodes.now }
    requires below { are_below (length nodes.now) node.now.kids.items ≡ true }
    ensures { result ≡ fold sooner found (own_of (marked volatile.now) (trees_of nodes.now) node.now) }
{
    let found = with_accesses(nodes, volatile, node, found);
    let found = with_objects(nodes, volatile, node, found);
    with_calls(nodes, node, found)
}
