// Items in braces that are expressions (C++14 8.5.1 p12, 8.5.4 p7).

ghost use Rattle.std.specs.Prelude.{◌≡◌, ◌<◌, length};
ghost use Rattle.elab_make.specs.cpp_types.Typ.{typ_of};
ghost use Rattle.elab_make.specs.cpp_tree.Arena.{trees_of};
ghost use Rattle.elab_make.specs.cpp_tree.Typing.{form_in};
ghost use Rattle.elab_make.specs.elab_ctx.Ctx.{ctx_of, work_of};
ghost use Rattle.elab_make.specs.elab_ctx.Operands.{operand_in};
ghost use Rattle.elab_make.specs.elab_ctx.Steps.{and_then};
ghost use Rattle.elab_make.specs.elab_ctx.Says.{Makes};
ghost use Rattle.elab_make.specs.elab_rules.Initialising.{scalar_from as scalar_from_of};
ghost use Rattle.elab_make.specs.elab_rules.Braces.{not_narrowed, is_object_of as is_object_of_of, item_in as item_in_of};

use crate::aggregates::is_aggregate_class;
use crate::narrowing::is_not_narrowed;
use elab_make::below::{
    ElabFault, Env, IllRule, Operand, Shape, TNode, TNodeId, Ty, Work, class_number,
    elab_init_ill as ill, is_same_or_base, node_at,
};
use elab_make::{class_from, scalar_from};
use std::alloc::Global;

// A scalar that keeps the value of an expression.
fn kept_scalar(
    alloc: Global,
    env: &Env,
    work: &mut Work,
    ty: &Ty,
    o: Operand,
) -> Result<TNodeId, ElabFault>
    requires { o.id.0 < length (trees_of work.old.nodes.items) }
    ensures { Makes (trees_of work.old.nodes.items) (trees_of work.new.nodes.items) (work_of work.new) result (and_then (scalar_from_of (ctx_of env.now) (work_of work.old) (typ_of ty.now) (operand_in (trees_of work.old.nodes.items) o)) (not_narrowed (work_of work.old) (typ_of ty.now) (operand_in (trees_of work.old.nodes.items) o))) }
{
    let keeps = is_not_narrowed(alloc, work, ty, o)?;
    let made = scalar_from(alloc, env, work, ty, o)?;
    if !keeps {
        return Err(ill(o.at, IllRule::Narrowing));
    }
    Ok(made)
}

// Whether an expression is an object of a class or of one that is derived from it.
fn is_object_of(env: &Env, nodes: &Vec<TNode>, class: u32, o: Operand) -> bool
    requires { o.id.0 < length (trees_of nodes.now.items) }
    ensures { result ≡ is_object_of_of (ctx_of env.now) class (operand_in (trees_of nodes.now.items) o) }
{
    is_same_or_base(env, class_number(&node_at(nodes, o.id).ty), Some(class))
}

/// What an item that is an expression makes of an object of a type; one for an array or an aggregate would leave its
/// braces out.
pub fn item_in(
    alloc: Global,
    env: &Env,
    work: &mut Work,
    ty: &Ty,
    o: Operand,
) -> Result<TNodeId, ElabFault>
    requires { o.id.0 < length (trees_of work.old.nodes.items) }
    ensures { Makes (trees_of work.old.nodes.items) (trees_of work.new.nodes.items) (work_of work.new) result (item_in_of (ctx_of env.now) (work_of work.old) (typ_of ty.now) (form_in (typ_of ty.now)) (operand_in (trees_of work.old.nodes.items) o)) }
{
    match &ty.shape {
        Shape::Array(_, _) => Err(ill(o.at, IllRule::OutOfProfile)),
        Shape::Class(class) => {
            if is_aggregate_class(env, *class) && !is_object_of(env, &work.nodes, *class, o) {
                return Err(ill(o.at, IllRule::OutOfProfile));
            }
            class_from(alloc, env, work, ty, o.at, o)
        }
        Shape::Closure(_) | Shape::TxEx(_) => class_from(alloc, env, work, ty, o.at, o),
        Shape::Void
        | Shape::Int(_)
        | Shape::Enum { .. }
        | Shape::Null
        | Shape::Ptr(_)
        | Shape::Ref(_)
        | Shape::Func(_) => kept_scalar(alloc, env, work, ty, o),
    }
}
