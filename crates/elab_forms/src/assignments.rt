// Assignments (C++14 5.17).

ghost use Rattle.std.specs.Prelude.{◌≡◌, ◌<◌, length, is_some, IfOk};
ghost use Rattle.elab_make.specs.cpp_types.Typ.{typ_of, class as class_form, tx_ex};
ghost use Rattle.elab_make.specs.cpp_types.Equal.{form_eq};
ghost use Rattle.elab_make.specs.cpp_types.declared.ranks.Cat.TheVariants.{Lvalue};
ghost use Rattle.elab_make.specs.cpp_tree.declared.kinds.TKind.TheVariants.{CopyAssign};
ghost use Rattle.elab_make.specs.cpp_tree.Trees.{node, three, typ_in};
ghost use Rattle.elab_make.specs.cpp_tree.Arena.{trees_of, tree_at, Adds};
ghost use Rattle.elab_make.specs.cpp_tree.Typing.{form_in, kind_in};
ghost use Rattle.elab_make.specs.elab_ctx.Ctx.{ctx_of, work_of};
ghost use Rattle.elab_make.specs.elab_ctx.Operands.{operand_in};
ghost use Rattle.elab_make.specs.elab_ctx.Says.{Gives, Makes};
ghost use Rattle.elab_make.specs.elab_rules.Objects.{copies};
ghost use Rattle.elab_make.specs.elab_rules.Operators.{assigned, class_assigned_in, class_assigned, copy_assigned, is_assignable_form, assignment};
ghost use Rattle.elab_forms.specs.Rows.{scalar_assigned, as_object};

use elab_make::below::{
    At, Cat, ElabFault, Env, IllRule, Operand, Shape, TKind, TNode, TNodeId, Ty, Work, add_binary,
    as_source, class_number, copies, copy, equal_types, is_class_type, is_same_or_base, kind_of,
    node_at, traits_at, unqualified_type,
};
use elab_make::{initial, object_of};
use elab_ops::ill;
use elab_ops::truth::add_three;
use elab_ops::updates::target;
use std::alloc::{AllocError, Global};

// A scalar that is assigned a value.
fn assigned(
    alloc: Global,
    nodes: &mut Vec<TNode>,
    at: At,
    a: Operand,
    value: TNodeId,
) -> Result<TNodeId, ElabFault>
    requires { a.id.0 < length (trees_of nodes.old.items) }
    ensures { Gives (trees_of nodes.old.items) (trees_of nodes.new.items) result (assigned at (kind_in (form_in (typ_in (tree_at (trees_of nodes.old.items) a.id)))) (operand_in (trees_of nodes.old.items) a) (tree_at (trees_of nodes.old.items) value)) }
{
    let node = node_at(nodes, a.id);
    let Some(kind) = kind_of(&node.ty) else {
        return Err(ill(at, IllRule::BadOperand));
    };
    let volatile = node.ty.is_volatile;
    let ty = copy(alloc, &node.ty)?;
    let kind = TKind::Assign { kind, volatile };
    let made = add_binary(alloc, nodes, kind, ty, Cat::Lvalue, at, a.id, value)?;
    Ok(made)
}

// Whether a type is one of scalars.
fn is_scalar(ty: &Ty) -> bool
    ensures { result ≡ is_some (kind_in (form_in (typ_of ty.now))) }
{
    kind_of(ty).is_some()
}

// An operand that is no class object and is assigned another.
fn scalar_assigned(
    alloc: Global,
    env: &Env,
    work: &mut Work,
    at: At,
    a: Operand,
    b: Operand,
) -> Result<TNodeId, ElabFault>
    requires left { a.id.0 < length (trees_of work.old.nodes.items) }
    requires right { b.id.0 < length (trees_of work.old.nodes.items) }
    ensures { Makes (trees_of work.old.nodes.items) (trees_of work.new.nodes.items) (work_of work.new) result (scalar_assigned (ctx_of env.now) (work_of work.old) at (operand_in (trees_of work.old.nodes.items) a) (operand_in (trees_of work.old.nodes.items) b)) }
{
    let node = node_at(&work.nodes, a.id);
    if !is_scalar(&node.ty) {
        return Err(ill(at, IllRule::BadOperand));
    }
    let ty = unqualified_type(alloc, &node.ty)?;
    let value = initial(alloc, env, work, &ty, b)?;
    assigned(alloc, &mut work.nodes, at, a, value)
}

// A class object that is assigned another, which is copied as an object of a type.
fn copied_onto(
    alloc: Global,
    env: &Env,
    nodes: &mut Vec<TNode>,
    at: At,
    ty: &Ty,
    a: Operand,
    source: TNodeId,
) -> Result<TNodeId, AllocError>
    requires target { a.id.0 < length (trees_of nodes.old.items) }
    requires source { source.0 < length (trees_of nodes.old.items) }
    ensures { IfOk result (λ r. Adds (trees_of nodes.old.items) (trees_of nodes.new.items) r (node CopyAssign (typ_in (tree_at (trees_of nodes.old.items) a.id)) Lvalue at (three (tree_at (trees_of nodes.old.items) a.id) (tree_at (trees_of nodes.old.items) source) (copies (ctx_of env.now).classes at (typ_of ty.now))))) }
{
    let init = copies(alloc, env, nodes, at, ty)?;
    let object_type = copy(alloc, &node_at(nodes, a.id).ty)?;
    add_three(
        alloc,
        nodes,
        TKind::CopyAssign,
        object_type,
        Cat::Lvalue,
        at,
        a.id,
        source,
        init,
    )
}

// A class object that is assigned another, as one of a type and, where a class is given, as one of that class.
fn copy_assigned(
    alloc: Global,
    env: &Env,
    work: &mut Work,
    at: At,
    a: Operand,
    b: Operand,
    class: Option<u32>,
    ty: &Ty,
) -> Result<TNodeId, ElabFault>
    requires left { a.id.0 < length (trees_of work.old.nodes.items) }
    requires right { b.id.0 < length (trees_of work.old.nodes.items) }
    ensures { Makes (trees_of work.old.nodes.items) (trees_of work.new.nodes.items) (work_of work.new) result (copy_assigned (ctx_of env.now) (work_of work.old) at (operand_in (trees_of work.old.nodes.items) a) (operand_in (trees_of work.old.nodes.items) b) (as_object b.at class) (typ_of ty.now)) }
{
    if node_at(&work.nodes, b.id).ty.is_volatile {
        return Err(ill(b.at, IllRule::NoCopy));
    }
    let object = object_of(alloc, env, work, b.at, b.id)?;
    let source = as_object(alloc, &mut work.nodes, b.at, class, object)?;
    let made = copied_onto(alloc, env, &mut work.nodes, at, ty, a, source)?;
    Ok(made)
}

// An object as one of a class, where one is given.
fn as_object(
    alloc: Global,
    nodes: &mut Vec<TNode>,
    at: At,
    class: Option<u32>,
    id: TNodeId,
) -> Result<TNodeId, AllocError>
    requires { id.0 < length (trees_of nodes.old.items) }
    ensures { IfOk result (λ r. Adds (trees_of nodes.old.items) (trees_of nodes.new.items) r (as_object at class (tree_at (trees_of nodes.old.items) id))) }
{
    match class {
        Some(class) => as_source(alloc, nodes, at, class, id),
        None => Ok(id),
    }
}

// An object of a class that is assigned another.
fn object_assigned(
    alloc: Global,
    env: &Env,
    work: &mut Work,
    at: At,
    a: Operand,
    b: Operand,
    class: u32,
) -> Result<TNodeId, ElabFault>
    requires left { a.id.0 < length (trees_of work.old.nodes.items) }
    requires right { b.id.0 < length (trees_of work.old.nodes.items) }
    ensures { Makes (trees_of work.old.nodes.items) (trees_of work.new.nodes.items) (work_of work.new) result (class_assigned_in (ctx_of env.now) (work_of work.old) at (operand_in (trees_of work.old.nodes.items) a) (operand_in (trees_of work.old.nodes.items) b) (class_form class)) }
{
    let from = class_number(&node_at(&work.nodes, b.id).ty);
    if !is_same_or_base(env, from, Some(class)) {
        return Err(ill(b.at, IllRule::NoConversion));
    }
    if !traits_at(env, class).is_assignable || node_at(&work.nodes, a.id).ty.is_volatile {
        return Err(ill(at, IllRule::NoCopy));
    }
    let ty = copy(alloc, &node_at(&work.nodes, a.id).ty)?;
    copy_assigned(alloc, env, work, at, a, b, Some(class), &ty)
}

// Whether an object of a type is assigned another, in a `std::tx_exception`.
fn is_assignable_type(env: &Env, ty: &Ty) -> bool
    ensures { result ≡ is_assignable_form (ctx_of env.now) (form_in (typ_of ty.now)) }
{
    match &ty.shape {
        Shape::Class(class) => traits_at(env, *class).is_assignable,
        Shape::Void
        | Shape::Int(_)
        | Shape::Enum { .. }
        | Shape::Null
        | Shape::Ptr(_)
        | Shape::Ref(_)
        | Shape::Array(_, _)
        | Shape::Func(_)
        | Shape::Closure(_)
        | Shape::TxEx(_) => true,
    }
}

// A `std::tx_exception` that is assigned another; the type is that of its value.
fn exception_assigned(
    alloc: Global,
    env: &Env,
    work: &mut Work,
    at: At,
    a: Operand,
    b: Operand,
    value: &Ty,
) -> Result<TNodeId, ElabFault>
    requires left { a.id.0 < length (trees_of work.old.nodes.items) }
    requires right { b.id.0 < length (trees_of work.old.nodes.items) }
    ensures { Makes (trees_of work.old.nodes.items) (trees_of work.new.nodes.items) (work_of work.new) result (class_assigned_in (ctx_of env.now) (work_of work.old) at (operand_in (trees_of work.old.nodes.items) a) (operand_in (trees_of work.old.nodes.items) b) (tx_ex (typ_of value.now))) }
{
    if !is_exception_of(&node_at(&work.nodes, b.id).ty, value) {
        return Err(ill(b.at, IllRule::NoConversion));
    }
    if !is_assignable_type(env, value) || node_at(&work.nodes, a.id).ty.is_volatile {
        return Err(ill(at, IllRule::NoCopy));
    }
    copy_assigned(alloc, env, work, at, a, b, None, value)
}

// Whether a type is `std::tx_exception` of another.
fn is_exception_of(ty: &Ty, value: &Ty) -> bool
    ensures { result ≡ form_eq (form_in (typ_of ty.now)) (tx_ex (typ_of value.now)) }
{
    match &ty.shape {
        Shape::TxEx(found) => equal_types(found, value),
        Shape::Void
        | Shape::Int(_)
        | Shape::Enum { .. }
        | Shape::Null
        | Shape::Ptr(_)
        | Shape::Ref(_)
        | Shape::Array(_, _)
        | Shape::Func(_)
        | Shape::Class(_)
        | Shape::Closure(_) => false,
    }
}

// A class object of a type that is assigned another.
fn class_assigned_in(
    alloc: Global,
    env: &Env,
    work: &mut Work,
    at: At,
    a: Operand,
    b: Operand,
    ty: &Ty,
) -> Result<TNodeId, ElabFault>
    requires left { a.id.0 < length (trees_of work.old.nodes.items) }
    requires right { b.id.0 < length (trees_of work.old.nodes.items) }
    ensures { Makes (trees_of work.old.nodes.items) (trees_of work.new.nodes.items) (work_of work.new) result (class_assigned_in (ctx_of env.now) (work_of work.old) at (operand_in (trees_of work.old.nodes.items) a) (operand_in (trees_of work.old.nodes.items) b) (form_in (typ_of ty.now))) }
{
    match &ty.shape {
        Shape::Class(class) => object_assigned(alloc, env, work, at, a, b, *class),
        Shape::TxEx(value) => exception_assigned(alloc, env, work, at, a, b, value),
        Shape::Void
        | Shape::Int(_)
        | Shape::Enum { .. }
        | Shape::Null
        | Shape::Ptr(_)
        | Shape::Ref(_)
        | Shape::Array(_, _)
        | Shape::Func(_)
        | Shape::Closure(_) => Err(ill(at, IllRule::NoCopy)),
    }
}

// A class object that is assigned another.
fn class_assigned(
    alloc: Global,
    env: &Env,
    work: &mut Work,
    at: At,
    a: Operand,
    b: Operand,
) -> Result<TNodeId, ElabFault>
    requires left { a.id.0 < length (trees_of work.old.nodes.items) }
    requires right { b.id.0 < length (trees_of work.old.nodes.items) }
    ensures { Makes (trees_of work.old.nodes.items) (trees_of work.new.nodes.items) (work_of work.new) result (class_assigned (ctx_of env.now) (work_of work.old) at (operand_in (trees_of work.old.nodes.items) a) (operand_in (trees_of work.old.nodes.items) b)) }
{
    let ty = copy(alloc, &node_at(&work.nodes, a.id).ty)?;
    class_assigned_in(alloc, env, work, at, a, b, &ty)
}

/// `=`
pub fn assignment(
    alloc: Global,
    env: &Env,
    work: &mut Work,
    at: At,
    a: Operand,
    b: Operand,
) -> Result<TNodeId, ElabFault>
    requires left { a.id.0 < length (trees_of work.old.nodes.items) }
    requires right { b.id.0 < length (trees_of work.old.nodes.items) }
    ensures { Makes (trees_of work.old.nodes.items) (trees_of work.new.nodes.items) (work_of work.new) result (assignment (ctx_of env.now) (work_of work.old) at (operand_in (trees_of work.old.nodes.items) a) (operand_in (trees_of work.old.nodes.items) b)) }
{
    let _ = target(&work.nodes, at, a)?;
    if is_class_type(&node_at(&work.nodes, a.id).ty) {
        return class_assigned(alloc, env, work, at, a, b);
    }
    scalar_assigned(alloc, env, work, at, a, b)
}
