// Members of objects by their names (C++14 5.2.5).

ghost use Rattle.std.specs.Prelude.{◌≡◌, ◌<◌, length};
ghost use Rattle.cpp_types.specs.Typ.{typ_of};
ghost use Rattle.elab_make.specs.cpp_tree.Arena.{trees_of, tree_at};
ghost use Rattle.elab_make.specs.elab_ctx.Ctx.{ctx_of, work_of};
ghost use Rattle.elab_make.specs.elab_ctx.Operands.{operand_in};
ghost use Rattle.elab_make.specs.elab_ctx.Says.{Gives, Makes};
ghost use Rattle.elab_make.specs.elab_rules.Names.{is_tx_exception as is_tx_exception_of, exception_member as exception_member_of, class_member as class_member_of, member_access as member_access_of};

use cpp_types::{At, Cat, Shape, Ty};
use elab_make::below::{
    ElabFault, Env, IllRule, Operand, TKind, TNode, TNodeId, Work, add_unary, class_number,
    completion, node_at,
};
use elab_make::object_of;
use elab_names::parts::{ill, plain_type};
use elab_names::{member_found, member_of};
use std::alloc::Global;

fn is_tx_exception(ty: &Ty) -> bool
    ensures { result ≡ is_tx_exception_of (typ_of ty.now) }
{
    matches!(ty.shape, Shape::TxEx(_))
}

// `get` of a `std::tx_exception`.
fn exception_member(
    alloc: Global,
    nodes: &mut Vec<TNode>,
    at: At,
    name: &[u8],
    object: TNodeId,
) -> Result<TNodeId, ElabFault>
    requires { object.0 < length (trees_of nodes.old.items) }
    ensures { Gives (trees_of nodes.old.items) (trees_of nodes.new.items) result (exception_member_of at name.now (tree_at (trees_of nodes.old.items) object)) }
{
    if name != b"get".as_slice() {
        return Err(ill(at, IllRule::NoMember));
    }
    let void = plain_type(Shape::Void);
    let made = add_unary(alloc, nodes, TKind::Default, void, Cat::Lvalue, at, object)?;
    Ok(made)
}

// A member of an object of a class; `dot` is the place of the name.
fn class_member(
    alloc: Global,
    env: &Env,
    nodes: &mut Vec<TNode>,
    at: At,
    dot: At,
    name: &[u8],
    object: TNodeId,
) -> Result<TNodeId, ElabFault>
    requires { object.0 < length (trees_of nodes.old.items) }
    ensures { Gives (trees_of nodes.old.items) (trees_of nodes.new.items) result (class_member_of (ctx_of env.now) at dot name.now (tree_at (trees_of nodes.old.items) object)) }
{
    let Some(class) = class_number(&node_at(nodes, object).ty) else {
        return Err(ill(dot, IllRule::BadOperand));
    };
    if completion(env, class).is_none() {
        return Err(ill(at, IllRule::Incomplete));
    }
    let Some(found) = member_found(env, name, class)? else {
        return Err(ill(at, IllRule::NoMember));
    };
    let made = member_of(alloc, env, nodes, at, object, found)?;
    Ok(made)
}

/// A member of an object by its name; `dot` is the place of the name.
pub fn member_access(
    alloc: Global,
    env: &Env,
    work: &mut Work,
    at: At,
    dot: At,
    name: &[u8],
    o: Operand,
) -> Result<TNodeId, ElabFault>
    requires { o.id.0 < length (trees_of work.old.nodes.items) }
    ensures { Makes (trees_of work.old.nodes.items) (trees_of work.new.nodes.items) (work_of work.new) result (member_access_of (ctx_of env.now) (work_of work.old) at dot name.now (operand_in (trees_of work.old.nodes.items) o)) }
{
    let is_exception = is_tx_exception(&node_at(&work.nodes, o.id).ty);
    let object = object_of(alloc, env, work, o.at, o.id)?;
    if is_exception {
        let made = exception_member(alloc, &mut work.nodes, at, name, object)?;
        return Ok(made);
    }
    let made = class_member(alloc, env, &mut work.nodes, at, dot, name, object)?;
    Ok(made)
}
