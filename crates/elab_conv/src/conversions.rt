// Conversions of values (C++14 4.5 to 4.12), each as a node of its own.

ghost use Rattle.std.specs.Prelude.{◌≡◌, ◌<◌, length, IfOk};
ghost use Rattle.elab_rules.specs.cpp_types.Typ.{typ_of};
ghost use Rattle.elab_rules.specs.cpp_types.Equal.{kind_eq, typ_eq};
ghost use Rattle.elab_rules.specs.cpp_tree.Arena.{trees_of, tree_at, Adds};
ghost use Rattle.elab_rules.specs.cpp_tree.Typing.{unqualified};
ghost use Rattle.elab_rules.specs.Values.{converted as converted_of, stepped as stepped_of, stored as stored_of};

use crate::types::{kind_of, unqualified_type};
use elab_rules::below::{
    At, Cat, IntKind, Step, TKind, TNode, TNodeId, Ty, add_unary, copy, node_at, same,
};
use std::alloc::{AllocError, Global};

fn is_same_kind(a: IntKind, b: IntKind) -> bool
    ensures { result ≡ kind_eq a b }
{
    a == b
}

// Whether the second type is the first without its own qualifiers.
fn is_unqualified(alloc: Global, ty: &Ty, other: &Ty) -> Result<bool, AllocError>
    ensures { IfOk result (λ b. b ≡ typ_eq (unqualified (typ_of ty.now)) (typ_of other.now)) }
{
    let target = unqualified_type(alloc, ty)?;
    Ok(is_same_type(&target, other))
}

fn is_same_type(a: &Ty, b: &Ty) -> bool
    ensures { result ≡ typ_eq (typ_of a.now) (typ_of b.now) }
{
    same(a, b)
}

/// A scalar's value as one of another type: `Convert` where the kinds differ, `Retype` where only the types do.
pub fn converted(
    alloc: Global,
    nodes: &mut Vec<TNode>,
    at: At,
    ty: &Ty,
    id: TNodeId,
) -> Result<TNodeId, AllocError>
    requires { id.0 < length (trees_of nodes.old.items) }
    ensures { IfOk result (λ r. Adds (trees_of nodes.old.items) (trees_of nodes.new.items) r (converted_of at (typ_of ty.now) (tree_at (trees_of nodes.old.items) id))) }
{
    let node = node_at(nodes, id);
    let Some(from) = kind_of(&node.ty) else {
        return Ok(id);
    };
    let Some(to) = kind_of(ty) else {
        return Ok(id);
    };
    if !is_same_kind(from, to) {
        let target = unqualified_type(alloc, ty)?;
        return add_unary(
            alloc,
            nodes,
            TKind::Convert { to },
            target,
            Cat::Prvalue,
            at,
            id,
        );
    }
    if is_unqualified(alloc, ty, &node.ty)? {
        return Ok(id);
    }
    let target = unqualified_type(alloc, ty)?;
    add_unary(alloc, nodes, TKind::Retype, target, Cat::Prvalue, at, id)
}

/// What a step of a conversion makes of a value: a null pointer is the same word, other steps convert.
pub fn stepped(
    alloc: Global,
    nodes: &mut Vec<TNode>,
    at: At,
    step: Step,
    ty: &Ty,
    id: TNodeId,
) -> Result<TNodeId, AllocError>
    requires { id.0 < length (trees_of nodes.old.items) }
    ensures { IfOk result (λ r. Adds (trees_of nodes.old.items) (trees_of nodes.new.items) r (stepped_of at step (typ_of ty.now) (tree_at (trees_of nodes.old.items) id))) }
{
    match step {
        Step::NullPointer => {
            let target = unqualified_type(alloc, ty)?;
            add_unary(alloc, nodes, TKind::Retype, target, Cat::Prvalue, at, id)
        }
        Step::Identity
        | Step::Qualify
        | Step::DropSafe
        | Step::Promote
        | Step::Integral
        | Step::PointerToBool
        | Step::ToBase(_) => converted(alloc, nodes, at, ty, id),
    }
}

/// A scalar, or the slot of a reference, that has a value; an object of another type is left as it is.
pub fn stored(
    alloc: Global,
    nodes: &mut Vec<TNode>,
    at: At,
    ty: &Ty,
    id: TNodeId,
) -> Result<TNodeId, AllocError>
    requires { id.0 < length (trees_of nodes.old.items) }
    ensures { IfOk result (λ r. Adds (trees_of nodes.old.items) (trees_of nodes.new.items) r (stored_of at (typ_of ty.now) (tree_at (trees_of nodes.old.items) id))) }
{
    let Some(kind) = kind_of(ty) else {
        return Ok(id);
    };
    let volatile = ty.is_volatile;
    let target = copy(alloc, ty)?;
    add_unary(
        alloc,
        nodes,
        TKind::Store { kind, volatile },
        target,
        Cat::Prvalue,
        at,
        id,
    )
}
