// Class prvalues that have a type of their own: what is called, chosen, or written as a `std::tx_exception` with its value.

ghost use Rattle.std.specs.Prelude.{◌≡◌, ◌<◌, length};
ghost use Rattle.elab_init.specs.cpp_types.Typ.{typ_of};
ghost use Rattle.elab_init.specs.cpp_tree.Arena.{trees_of, tree_at};
ghost use Rattle.elab_init.specs.cpp_tree.Typing.{form_in, goes_both_ways as goes_both_ways_of};
ghost use Rattle.elab_init.specs.elab_rules.Values.{is_exception_form};
ghost use Rattle.elab_init.specs.elab_rules.Initialising.{is_written_exception as is_written_exception_of, is_given_value as is_given_value_of};

use elab_init::below::{Cat, Shape, TKind, TNode, TNodeId, Ty, node_at};

/// Whether a type is `std::tx_exception` of another.
pub fn is_exception_type(ty: &Ty) -> bool
    ensures { result ≡ is_exception_form (form_in (typ_of ty.now)) }
{
    match &ty.shape {
        Shape::TxEx(_) => true,
        Shape::Void
        | Shape::Int(_)
        | Shape::Enum { .. }
        | Shape::Null
        | Shape::Ptr(_)
        | Shape::Ref(_)
        | Shape::Array(_, _)
        | Shape::Func(_)
        | Shape::Class(_)
        | Shape::Closure(_) => false,
    }
}

/// Whether an expression is such an exception that is written with its value.
pub fn is_written_exception(nodes: &Vec<TNode>, id: TNodeId) -> bool
    requires { id.0 < length (trees_of nodes.now.items) }
    ensures { result ≡ is_written_exception_of (tree_at (trees_of nodes.now.items) id) }
{
    let node = node_at(nodes, id);
    match node.kind {
        TKind::Retype => match node.cat {
            Cat::Prvalue => is_exception_type(&node.ty),
            Cat::Lvalue => false,
        },
        _ => false,
    }
}

/// Whether nodes of a kind stand for a class prvalue or another value alike.
pub fn goes_both_ways(kind: TKind) -> bool
    ensures { result ≡ goes_both_ways_of kind }
{
    match kind {
        TKind::Conditional
        | TKind::Comma
        | TKind::FullExpression
        | TKind::Call { .. }
        | TKind::VirtualCall { .. }
        | TKind::PointerCall
        | TKind::Throw
        | TKind::Rethrow => true,
        _ => false,
    }
}

/// Whether such a prvalue stands for the value of a `std::tx_exception`.
pub fn is_given_value(nodes: &Vec<TNode>, id: TNodeId) -> bool
    requires { id.0 < length (trees_of nodes.now.items) }
    ensures { result ≡ is_given_value_of (tree_at (trees_of nodes.now.items) id) }
{
    let node = node_at(nodes, id);
    goes_both_ways(node.kind) && !is_exception_type(&node.ty)
}
