// Two objects of a class in `? :`, each as one of a common type (C++14 5.16).

ghost use Rattle.std.specs.Prelude.{◌≡◌, ◌<◌, length, IfOk};
ghost use Rattle.elab_make.specs.cpp_types.Typ.{typ_of};
ghost use Rattle.elab_make.specs.cpp_tree.Arena.{trees_of};
ghost use Rattle.elab_make.specs.elab_ctx.Operands.{operand_in};
ghost use Rattle.elab_make.specs.elab_rules.Operators.{joined_type, joined_class};

use elab_make::below::{Operand, TNode, Ty, copy, node_at};
use std::alloc::{AllocError, Global};

// A type with the qualifiers of two.
fn joined_type(left: Ty, right: &Ty) -> Ty
    ensures { typ_of result ≡ joined_type (typ_of left) (typ_of right.now) }
{
    Ty {
        is_const: left.is_const || right.is_const,
        is_volatile: left.is_volatile || right.is_volatile,
        shape: left.shape,
    }
}

/// The type of both objects: it has the qualifiers of each.
pub fn joined_class(
    alloc: Global,
    nodes: &Vec<TNode>,
    a: Operand,
    b: Operand,
) -> Result<Ty, AllocError>
    requires left { a.id.0 < length (trees_of nodes.now.items) }
    requires right { b.id.0 < length (trees_of nodes.now.items) }
    ensures { IfOk result (λ t. typ_of t ≡ joined_class (operand_in (trees_of nodes.now.items) a) (operand_in (trees_of nodes.now.items) b)) }
{
    let left = copy(alloc, &node_at(nodes, a.id).ty)?;
    Ok(joined_type(left, &node_at(nodes, b.id).ty))
}
