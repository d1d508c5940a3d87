// The value of an expression.

ghost use Rattle.std.specs.Prelude.{◌≡◌, ◌<◌, length, IfOk};
ghost use Rattle.elab_rules.specs.cpp_types.Typ.{typ_of};
ghost use Rattle.elab_rules.specs.cpp_tree.Trees.{Tree};
ghost use Rattle.elab_rules.specs.cpp_tree.Typing.{form_in};
ghost use Rattle.elab_rules.specs.cpp_tree.Arena.{trees_of, tree_at, Adds};
ghost use Rattle.elab_rules.specs.cpp_types.declared.classes.At.{At};
ghost use Rattle.elab_rules.specs.Values.{valued as valued_of, value_in};
ghost use Rattle.elab_conv.specs.Reads.{read_as};

use crate::types::{decayed_type, unqualified_type};
use elab_rules::below::{At, Cat, IntKind, Shape, TKind, TNode, TNodeId, Ty, add_unary, node_at};
use std::alloc::{AllocError, Global};

/// What is read of an expression where its value is wanted.
#[derive(Clone, Copy)]
pub enum Reading {
    /// The expression is the value, or an object of a class.
    Stays,
    /// A pointer to the first element, or to the function.
    Decays,
    /// A scalar of this kind.
    Loads(IntKind),
}

// What is read of an expression of a type and category.
fn reading_at(cat: Cat, ty: &Ty) -> Reading
    ensures { (at : At) (e : Tree) → value_in at (form_in (typ_of ty.now)) cat e ≡ read_as result at e }
{
    match &ty.shape {
        Shape::Array(_, _) | Shape::Func(_) => Reading::Decays,
        Shape::Void | Shape::Class(_) | Shape::Closure(_) | Shape::TxEx(_) => Reading::Stays,
        Shape::Int(kind) => match cat {
            Cat::Lvalue => Reading::Loads(*kind),
            Cat::Prvalue => Reading::Stays,
        },
        Shape::Enum { .. } => match cat {
            Cat::Lvalue => Reading::Loads(IntKind::Int),
            Cat::Prvalue => Reading::Stays,
        },
        Shape::Null | Shape::Ptr(_) | Shape::Ref(_) => match cat {
            Cat::Lvalue => Reading::Loads(IntKind::ULong),
            Cat::Prvalue => Reading::Stays,
        },
    }
}

/// The value of an expression, at a place: a pointer for a function or an array, what a scalar holds, and an object of
/// a class as it is (C++14 4.1 to 4.3).
pub fn valued(
    alloc: Global,
    nodes: &mut Vec<TNode>,
    at: At,
    id: TNodeId,
) -> Result<TNodeId, AllocError>
    requires { id.0 < length (trees_of nodes.old.items) }
    ensures { IfOk result (λ r. Adds (trees_of nodes.old.items) (trees_of nodes.new.items) r (valued_of at (tree_at (trees_of nodes.old.items) id))) }
{
    let node = node_at(nodes, id);
    match reading_at(node.cat, &node.ty) {
        Reading::Stays => Ok(id),
        Reading::Decays => {
            let ty = decayed_type(alloc, &node.ty)?;
            add_unary(alloc, nodes, TKind::Retype, ty, Cat::Prvalue, at, id)
        }
        Reading::Loads(kind) => {
            let volatile = node.ty.is_volatile;
            let ty = unqualified_type(alloc, &node.ty)?;
            add_unary(
                alloc,
                nodes,
                TKind::Load { kind, volatile },
                ty,
                Cat::Prvalue,
                at,
                id,
            )
        }
    }
}
