// `throw` (C++14 15.1).

ghost use Rattle.std.specs.Prelude.{◌≡◌, ◌<◌, length, true, IfOk};
ghost use Rattle.elab_forms.specs.cpp_types.Typ.{typ_of, void, class as class_form};
ghost use Rattle.elab_forms.specs.cpp_types.declared.ranks.Cat.TheVariants.{Prvalue};
ghost use Rattle.elab_forms.specs.cpp_tree.declared.kinds.TKind.TheVariants.{Rethrow};
ghost use Rattle.elab_forms.specs.cpp_tree.Trees.{node, none, typ_in};
ghost use Rattle.elab_forms.specs.cpp_tree.Notation.{plain};
ghost use Rattle.elab_forms.specs.cpp_tree.Arena.{trees_of, tree_at, Adds};
ghost use Rattle.elab_forms.specs.cpp_tree.Typing.{form_in};
ghost use Rattle.elab_forms.specs.elab_ctx.Ctx.{ctx_of, work_of};
ghost use Rattle.elab_forms.specs.elab_ctx.Operands.{operand_in, operands_in, are_in};
ghost use Rattle.elab_forms.specs.elab_ctx.Says.{Makes, Tells};
ghost use Rattle.elab_forms.specs.elab_rules.Casts.{is_thrown_scalar, within_exception, throw_node, throw_object, throw_in, throw};
ghost use Rattle.elab_forms.specs.elab_rules.Operators.{value as value_of, without_value};
ghost use Rattle.elab_casts.specs.Rows.{value_thrown, one_thrown};

use elab_forms::below::{
    At, Cat, EXCEPTION_SIZE, ElabFault, Env, IllRule, LimitKind, Operand, Shape, TKind, TNode,
    TNodeId, Ty, Work, add_leaf, add_node, add_unary, copy, elab_ops_ill as ill, fields, node_at,
    object_kids, object_of, size_of, traits_at, unqualified_type, value,
};
use elab_forms::conditionals::void_type;
use std::alloc::{AllocError, Global};

// Whether a type is one of scalars that are thrown.
fn is_thrown_scalar(ty: &Ty) -> bool
    ensures { result ≡ is_thrown_scalar (form_in (typ_of ty.now)) }
{
    match &ty.shape {
        Shape::Int(_) | Shape::Enum { .. } => true,
        Shape::Void
        | Shape::Null
        | Shape::Ptr(_)
        | Shape::Ref(_)
        | Shape::Array(_, _)
        | Shape::Func(_)
        | Shape::Class(_)
        | Shape::Closure(_)
        | Shape::TxEx(_) => false,
    }
}

/// Tests that objects of a type are no larger than an exception.
pub fn within_exception(env: &Env, at: At, ty: &Ty) -> Result<bool, ElabFault>
    ensures { Tells result (within_exception (ctx_of env.now) at (typ_of ty.now)) }
{
    let size = size_of(env, ty)?;
    if size > EXCEPTION_SIZE as u32 {
        return Err(ElabFault::Limit {
            at,
            which: LimitKind::Exception,
        });
    }
    Ok(true)
}

// A `throw` of what an expression gives, as an object of a type.
fn throw_node(
    alloc: Global,
    env: &Env,
    nodes: &mut Vec<TNode>,
    at: At,
    ty: &Ty,
    id: TNodeId,
) -> Result<TNodeId, AllocError>
    requires { id.0 < length (trees_of nodes.old.items) }
    ensures { IfOk result (λ r. Adds (trees_of nodes.old.items) (trees_of nodes.new.items) r (throw_node (ctx_of env.now) at (typ_of ty.now) (tree_at (trees_of nodes.old.items) id))) }
{
    let scalars = fields(alloc, env, nodes, at, ty)?;
    let kids = object_kids(alloc, id, &scalars)?;
    let ty = unqualified_type(alloc, ty)?;
    add_node(
        nodes,
        TNode {
            kind: TKind::Throw,
            ty,
            cat: Cat::Prvalue,
            at,
            kids,
        },
    )
}

// A class object that is thrown.
fn throw_object(
    alloc: Global,
    env: &Env,
    work: &mut Work,
    at: At,
    o: Operand,
) -> Result<TNodeId, ElabFault>
    requires { o.id.0 < length (trees_of work.old.nodes.items) }
    ensures { Makes (trees_of work.old.nodes.items) (trees_of work.new.nodes.items) (work_of work.new) result (throw_object (ctx_of env.now) (work_of work.old) at (operand_in (trees_of work.old.nodes.items) o)) }
{
    let node = node_at(&work.nodes, o.id);
    if node.ty.is_volatile {
        return Err(ill(o.at, IllRule::NoCopy));
    }
    let ty = copy(alloc, &node.ty)?;
    let _ = within_exception(env, at, &ty)?;
    let object = object_of(alloc, env, work, o.at, o.id)?;
    let made = throw_node(alloc, env, &mut work.nodes, at, &ty, object)?;
    Ok(made)
}

// A value of scalar type that is thrown.
fn value_thrown(
    alloc: Global,
    env: &Env,
    work: &mut Work,
    at: At,
    id: TNodeId,
) -> Result<TNodeId, ElabFault>
    requires { id.0 < length (trees_of work.old.nodes.items) }
    ensures { Makes (trees_of work.old.nodes.items) (trees_of work.new.nodes.items) (work_of work.new) result (value_thrown (ctx_of env.now) (work_of work.old) at (tree_at (trees_of work.old.nodes.items) id)) }
{
    let node = node_at(&work.nodes, id);
    if !is_thrown_scalar(&node.ty) {
        return Err(ill(at, IllRule::BadThrow));
    }
    let ty = copy(alloc, &node.ty)?;
    let made = throw_node(alloc, env, &mut work.nodes, at, &ty, id)?;
    Ok(made)
}

// An operand that is no object of a class, and is thrown as a value.
fn scalar_thrown(
    alloc: Global,
    env: &Env,
    work: &mut Work,
    at: At,
    o: Operand,
) -> Result<TNodeId, ElabFault>
    requires { o.id.0 < length (trees_of work.old.nodes.items) }
    ensures { Makes (trees_of work.old.nodes.items) (trees_of work.new.nodes.items) (work_of work.new) result (value_thrown (ctx_of env.now) (work_of work.old) at (value_of (operand_in (trees_of work.old.nodes.items) o))) }
{
    let id = value(alloc, &mut work.nodes, o)?;
    value_thrown(alloc, env, work, at, id)
}

// An object of a class that is thrown.
fn class_thrown(
    alloc: Global,
    env: &Env,
    work: &mut Work,
    at: At,
    class: u32,
    o: Operand,
) -> Result<TNodeId, ElabFault>
    requires { o.id.0 < length (trees_of work.old.nodes.items) }
    ensures { Makes (trees_of work.old.nodes.items) (trees_of work.new.nodes.items) (work_of work.new) result (throw_in (ctx_of env.now) (work_of work.old) at (class_form class) (operand_in (trees_of work.old.nodes.items) o)) }
{
    if !traits_at(env, class).is_trivially_copyable {
        return Err(ill(at, IllRule::NotTriviallyCopyable));
    }
    throw_object(alloc, env, work, at, o)
}

// What is thrown, by the form of its type.
fn throw_in(
    alloc: Global,
    env: &Env,
    work: &mut Work,
    at: At,
    ty: &Ty,
    o: Operand,
) -> Result<TNodeId, ElabFault>
    requires { o.id.0 < length (trees_of work.old.nodes.items) }
    ensures { Makes (trees_of work.old.nodes.items) (trees_of work.new.nodes.items) (work_of work.new) result (throw_in (ctx_of env.now) (work_of work.old) at (form_in (typ_of ty.now)) (operand_in (trees_of work.old.nodes.items) o)) }
{
    match &ty.shape {
        Shape::Class(class) => class_thrown(alloc, env, work, at, *class, o),
        Shape::TxEx(_) => throw_object(alloc, env, work, at, o),
        Shape::Void
        | Shape::Int(_)
        | Shape::Enum { .. }
        | Shape::Null
        | Shape::Ptr(_)
        | Shape::Ref(_)
        | Shape::Array(_, _)
        | Shape::Func(_)
        | Shape::Closure(_) => scalar_thrown(alloc, env, work, at, o),
    }
}

// The `throw` of an operand, by the form of its type.
fn operand_thrown(
    alloc: Global,
    env: &Env,
    work: &mut Work,
    at: At,
    o: Operand,
) -> Result<TNodeId, ElabFault>
    requires { o.id.0 < length (trees_of work.old.nodes.items) }
    ensures { Makes (trees_of work.old.nodes.items) (trees_of work.new.nodes.items) (work_of work.new) result (throw_in (ctx_of env.now) (work_of work.old) at (form_in (typ_in (tree_at (trees_of work.old.nodes.items) o.id))) (operand_in (trees_of work.old.nodes.items) o)) }
{
    let ty = copy(alloc, &node_at(&work.nodes, o.id).ty)?;
    throw_in(alloc, env, work, at, &ty, o)
}

// A `throw` as an expression, which has no value.
fn without_value(
    alloc: Global,
    nodes: &mut Vec<TNode>,
    at: At,
    id: TNodeId,
) -> Result<TNodeId, AllocError>
    ensures { IfOk result (λ r. Adds (trees_of nodes.old.items) (trees_of nodes.new.items) r (without_value at (tree_at (trees_of nodes.old.items) id))) }
{
    add_unary(
        alloc,
        nodes,
        TKind::Retype,
        void_type(),
        Cat::Prvalue,
        at,
        id,
    )
}

// `throw o`
fn throw_one(
    alloc: Global,
    env: &Env,
    work: &mut Work,
    at: At,
    o: Operand,
) -> Result<TNodeId, ElabFault>
    requires { o.id.0 < length (trees_of work.old.nodes.items) }
    ensures { Makes (trees_of work.old.nodes.items) (trees_of work.new.nodes.items) (work_of work.new) result (one_thrown (ctx_of env.now) (work_of work.old) at (operand_in (trees_of work.old.nodes.items) o)) }
{
    let thrown = operand_thrown(alloc, env, work, at, o)?;
    let made = without_value(alloc, &mut work.nodes, at, thrown)?;
    Ok(made)
}

// `throw`
fn rethrow(alloc: Global, nodes: &mut Vec<TNode>, at: At) -> Result<TNodeId, AllocError>
    ensures { IfOk result (λ r. Adds (trees_of nodes.old.items) (trees_of nodes.new.items) r (node Rethrow (plain void) Prvalue at none)) }
{
    add_leaf(alloc, nodes, TKind::Rethrow, void_type(), Cat::Prvalue, at)
}

/// `throw`, with or without an operand.
pub fn throw(
    alloc: Global,
    env: &Env,
    work: &mut Work,
    at: At,
    os: &[Operand],
) -> Result<TNodeId, ElabFault>
    requires { are_in (length (trees_of work.old.nodes.items)) os.now ≡ true }
    ensures { Makes (trees_of work.old.nodes.items) (trees_of work.new.nodes.items) (work_of work.new) result (throw (ctx_of env.now) (work_of work.old) at (operands_in (trees_of work.old.nodes.items) os.now)) }
{
    if os.is_empty() {
        let made = rethrow(alloc, &mut work.nodes, at)?;
        return Ok(made);
    }
    throw_one(alloc, env, work, at, os[0])
}
