// Scalars of objects that are zero or copied.

ghost use Rattle.std.specs.Prelude.{◌≡◌, IfOk};
ghost use Rattle.cpp_types.specs.Typ.{typ_of};
ghost use Rattle.elab_conv.specs.cpp_tree.Arena.{trees_of, Adds};
ghost use Rattle.elab_conv.specs.elab_rules.Objects.{zero_leaf, copy_leaf};
ghost use Rattle.elab_init.specs.Leaves.{leaf_of, zero_word};

use crate::leaves::Leaf;
use cpp_types::{At, Cat, Shape, Ty, copy};
use elab_conv::below::{IntKind, TKind, TNode, TNodeId, add_leaf};
use elab_conv::stored;
use elab_conv::types::{kind_of, unqualified_type};
use std::alloc::{AllocError, Global};

// The type of the zero that a scalar is initialised by: the word of a reference, which a lambda may have captured.
fn zero_type(alloc: Global, ty: &Ty) -> Result<Ty, AllocError>
    ensures { IfOk result (λ t. typ_of t ≡ zero_word (typ_of ty.now)) }
{
    match &ty.shape {
        Shape::Ref(_) => Ok(Ty {
            shape: Shape::Int(IntKind::ULong),
            is_const: false,
            is_volatile: false,
        }),
        Shape::Void
        | Shape::Int(_)
        | Shape::Enum { .. }
        | Shape::Null
        | Shape::Ptr(_)
        | Shape::Array(_, _)
        | Shape::Func(_)
        | Shape::Class(_)
        | Shape::Closure(_)
        | Shape::TxEx(_) => unqualified_type(alloc, ty),
    }
}

// A scalar that is zero.
fn zero_scalar(
    alloc: Global,
    nodes: &mut Vec<TNode>,
    ty: &Ty,
    at: At,
) -> Result<TNodeId, AllocError>
    ensures { IfOk result (λ r. Adds (trees_of nodes.old.items) (trees_of nodes.new.items) r (zero_leaf (typ_of ty.now) at)) }
{
    let target = zero_type(alloc, ty)?;
    let zero = add_leaf(
        alloc,
        nodes,
        TKind::Literal { word: 0 },
        target,
        Cat::Prvalue,
        at,
    )?;
    stored(alloc, nodes, at, ty, zero)
}

// A scalar that is copied.
fn copied_scalar(
    alloc: Global,
    nodes: &mut Vec<TNode>,
    ty: &Ty,
    at: At,
) -> Result<TNodeId, AllocError>
    ensures { IfOk result (λ r. Adds (trees_of nodes.old.items) (trees_of nodes.new.items) r (copy_leaf (typ_of ty.now) at)) }
{
    let target = copy(alloc, ty)?;
    match kind_of(ty) {
        Some(kind) => {
            let volatile = ty.is_volatile;
            let kind = TKind::CopyScalar { kind, volatile };
            add_leaf(alloc, nodes, kind, target, Cat::Prvalue, at)
        }
        None => add_leaf(alloc, nodes, TKind::Pieces, target, Cat::Prvalue, at),
    }
}

/// What is done to a scalar of a type.
pub fn scalar_leaf(
    alloc: Global,
    nodes: &mut Vec<TNode>,
    leaf: Leaf,
    ty: &Ty,
    at: At,
) -> Result<TNodeId, AllocError>
    ensures { IfOk result (λ r. Adds (trees_of nodes.old.items) (trees_of nodes.new.items) r (leaf_of leaf (typ_of ty.now) at)) }
{
    match leaf {
        Leaf::Zero => zero_scalar(alloc, nodes, ty, at),
        Leaf::Copied => copied_scalar(alloc, nodes, ty, at),
    }
}
