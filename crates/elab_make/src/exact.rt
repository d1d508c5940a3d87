// Objects of exactly one type, from expressions whose class prvalues may have another (C++14 12.8 p31).

ghost use Rattle.std.specs.Prelude.{◌≡◌, ◌<◌, length};
ghost use Rattle.elab_init.specs.cpp_types.Typ.{typ_of};
ghost use Rattle.elab_init.specs.cpp_tree.Arena.{trees_of, tree_at};
ghost use Rattle.elab_init.specs.elab_ctx.Ctx.{ctx_of, work_of};
ghost use Rattle.elab_init.specs.elab_ctx.Operands.{operand_in};
ghost use Rattle.elab_init.specs.elab_ctx.Says.{Makes};
ghost use Rattle.elab_init.specs.elab_rules.Initialising.{has_own_type as has_own_type_of, is_other_prvalue as is_other_prvalue_of, exact_object as exact_object_of};
ghost use Rattle.elab_make.specs.Exact.{copied_object as copied_object_of};

use crate::copying::class_from;
use crate::objects::object_of;
use crate::own_types::{goes_both_ways, is_exception_type, is_written_exception};
use elab_init::below::{
    At, ElabFault, Env, Operand, TNode, TNodeId, Ty, Work, equal_types, node_at,
};
use elab_init::is_class_prvalue;
use std::alloc::Global;

// Whether a class prvalue builds no object of exactly this type.
fn has_own_type(nodes: &Vec<TNode>, ty: &Ty, id: TNodeId) -> bool
    requires { id.0 < length (trees_of nodes.now.items) }
    ensures { result ≡ has_own_type_of (typ_of ty.now) (tree_at (trees_of nodes.now.items) id) }
{
    let node = node_at(nodes, id);
    let has_own = goes_both_ways(node.kind) || is_exception_type(&node.ty);
    is_written_exception(nodes, id) || (!equal_types(ty, &node.ty) && has_own)
}

// Whether an expression is such a class prvalue.
fn is_other_prvalue(nodes: &Vec<TNode>, ty: &Ty, id: TNodeId) -> bool
    requires { id.0 < length (trees_of nodes.now.items) }
    ensures { result ≡ is_other_prvalue_of (typ_of ty.now) (tree_at (trees_of nodes.now.items) id) }
{
    let node = node_at(nodes, id);
    is_class_prvalue(&node.ty, node.cat) && has_own_type(nodes, ty, id)
}

// An object of a type that is copied from the one that a class prvalue makes.
fn copied_object(
    alloc: Global,
    env: &Env,
    work: &mut Work,
    ty: &Ty,
    at: At,
    o: Operand,
) -> Result<TNodeId, ElabFault>
    requires { o.id.0 < length (trees_of work.old.nodes.items) }
    ensures { Makes (trees_of work.old.nodes.items) (trees_of work.new.nodes.items) (work_of work.new) result (copied_object_of (ctx_of env.now) (work_of work.old) (typ_of ty.now) at (operand_in (trees_of work.old.nodes.items) o)) }
{
    let id = object_of(alloc, env, work, o.at, o.id)?;
    let object = Operand {
        id,
        at: o.at,
        zero: false,
    };
    class_from(alloc, env, work, ty, at, object)
}

/// An object of exactly this type, from an expression: what is called or chosen has a type of its own, and is copied.
pub fn exact_object(
    alloc: Global,
    env: &Env,
    work: &mut Work,
    ty: &Ty,
    at: At,
    o: Operand,
) -> Result<TNodeId, ElabFault>
    requires { o.id.0 < length (trees_of work.old.nodes.items) }
    ensures { Makes (trees_of work.old.nodes.items) (trees_of work.new.nodes.items) (work_of work.new) result (exact_object_of (ctx_of env.now) (work_of work.old) (typ_of ty.now) at (operand_in (trees_of work.old.nodes.items) o)) }
{
    if is_other_prvalue(&work.nodes, ty, o.id) {
        return copied_object(alloc, env, work, ty, at, o);
    }
    class_from(alloc, env, work, ty, at, o)
}
