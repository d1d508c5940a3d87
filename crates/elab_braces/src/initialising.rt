// What declarations make of objects: nothing, `= e`, and values in parentheses (C++14 8.5).

ghost use Rattle.std.specs.Prelude.{◌≡◌, ◌<◌, length, true, if◌then◌else◌, Ok};
ghost use Rattle.elab_expr.specs.cpp_types.Typ.{typ_of};
ghost use Rattle.elab_expr.specs.cpp_tree.Arena.{trees_of};
ghost use Rattle.elab_expr.specs.elab_ctx.Ctx.{ctx_of, work_of, special_of};
ghost use Rattle.elab_expr.specs.elab_ctx.Operands.{operand_in, operands_in, are_in};
ghost use Rattle.elab_expr.specs.elab_ctx.Says.{Gives, Makes, Tells};
ghost use Rattle.elab_expr.specs.elab_rules.Initialising.{class_number as class_number_of};
ghost use Rattle.elab_expr.specs.elab_rules.Objects.{element_of};
ghost use Rattle.elab_expr.specs.elab_rules.Statements.{is_const_element, has_written_default as has_written_default_of, const_initialised as const_initialised_of, default_object as default_object_of, is_direct as is_direct_of, is_lasting as is_lasting_of, bound_reference as bound_reference_of, copy_initialised as copy_initialised_of, directly_initialised as directly_initialised_of, is_own_value as is_own_value_of, values_place as values_place_of};

use elab_expr::below::{
    At, Binding, Conversion, ElabFault, Env, IllRule, Operand, Shape, Special, TNode, TNodeId, Ty,
    Work, class_from, class_number, conversion_of, elab_init_ill as ill, element_type,
    from_nothing, from_values, function_at, is_class_prvalue, is_prvalue_of_class, node_at,
    scalar_from, traits_at,
};
use std::alloc::Global;

// Whether a class has a default constructor that is written.
fn has_written_default(env: &Env, special: Special) -> bool
    ensures { result ≡ has_written_default_of (ctx_of env.now) (special_of special) }
{
    match special {
        Special::Function(func) => match function_at(env, func) {
            Some(found) => !found.implicit,
            None => true,
        },
        Special::Absent | Special::Trivial => false,
    }
}

// Whether a `const` object of a type may be left without an initialiser.
fn const_initialised(env: &Env, at: At, element: &Ty) -> Result<bool, ElabFault>
    ensures { Tells result (const_initialised_of (ctx_of env.now) at (typ_of element.now)) }
{
    match &element.shape {
        Shape::Class(class) => {
            if !has_written_default(env, traits_at(env, *class).default) {
                return Err(ill(at, IllRule::NoDefault));
            }
            Ok(true)
        }
        Shape::Void
        | Shape::Int(_)
        | Shape::Enum { .. }
        | Shape::Null
        | Shape::Ptr(_)
        | Shape::Ref(_)
        | Shape::Array(_, _)
        | Shape::Func(_)
        | Shape::Closure(_)
        | Shape::TxEx(_) => Err(ill(at, IllRule::BadInit)),
    }
}

// Whether an object of a type may be left without an initialiser.
fn may_be_left(alloc: Global, env: &Env, ty: &Ty, at: At) -> Result<bool, ElabFault>
    ensures { Tells result (if is_const_element (typ_of ty.now) then const_initialised_of (ctx_of env.now) at (element_of (typ_of ty.now)) else Ok true) }
{
    let element = element_type(alloc, ty)?;
    if element.is_const {
        const_initialised(env, at, &element)
    } else {
        Ok(true)
    }
}

/// An object for which nothing is written.
pub fn default_object(
    alloc: Global,
    env: &Env,
    nodes: &mut Vec<TNode>,
    ty: &Ty,
    at: At,
) -> Result<TNodeId, ElabFault>
    ensures { Gives (trees_of nodes.old.items) (trees_of nodes.new.items) result (default_object_of (ctx_of env.now) (typ_of ty.now) at) }
{
    let _may = may_be_left(alloc, env, ty, at)?;
    from_nothing(alloc, env, nodes, ty, at)
}

fn is_direct(binding: Binding) -> bool
    ensures { result ≡ is_direct_of binding }
{
    match binding {
        Binding::Temporary => false,
        Binding::Value | Binding::Direct => true,
    }
}

// Whether what a reference is bound to lasts as long as it.
fn is_lasting(nodes: &Vec<TNode>, found: Option<Conversion>, o: Operand) -> bool
    requires { o.id.0 < length (trees_of nodes.now.items) }
    ensures { result ≡ is_lasting_of found (operand_in (trees_of nodes.now.items) o) }
{
    match found {
        None => true,
        Some(found) => {
            let node = node_at(nodes, o.id);
            is_direct(found.binding) && !is_class_prvalue(&node.ty, node.cat)
        }
    }
}

// A reference that is bound to an expression.
fn bound_reference(
    alloc: Global,
    env: &Env,
    work: &mut Work,
    ty: &Ty,
    o: Operand,
) -> Result<TNodeId, ElabFault>
    requires { o.id.0 < length (trees_of work.old.nodes.items) }
    ensures { Makes (trees_of work.old.nodes.items) (trees_of work.new.nodes.items) (work_of work.new) result (bound_reference_of (ctx_of env.now) (work_of work.old) (typ_of ty.now) (operand_in (trees_of work.old.nodes.items) o)) }
{
    let found = conversion_of(env, &work.nodes, ty, o);
    if !is_lasting(&work.nodes, found, o) {
        return Err(ill(o.at, IllRule::OutOfProfile));
    }
    scalar_from(alloc, env, work, ty, o)
}

/// An object by `= e`.
pub fn copy_initialised(
    alloc: Global,
    env: &Env,
    work: &mut Work,
    ty: &Ty,
    o: Operand,
) -> Result<TNodeId, ElabFault>
    requires { o.id.0 < length (trees_of work.old.nodes.items) }
    ensures { Makes (trees_of work.old.nodes.items) (trees_of work.new.nodes.items) (work_of work.new) result (copy_initialised_of (ctx_of env.now) (work_of work.old) (typ_of ty.now) (operand_in (trees_of work.old.nodes.items) o)) }
{
    match &ty.shape {
        Shape::Ref(_) => bound_reference(alloc, env, work, ty, o),
        Shape::Array(_, _) => Err(ill(o.at, IllRule::BadInit)),
        Shape::Class(_) | Shape::Closure(_) | Shape::TxEx(_) => {
            class_from(alloc, env, work, ty, o.at, o)
        }
        Shape::Void
        | Shape::Int(_)
        | Shape::Enum { .. }
        | Shape::Null
        | Shape::Ptr(_)
        | Shape::Func(_) => scalar_from(alloc, env, work, ty, o),
    }
}

/// An object by values in parentheses.
pub fn directly_initialised(
    alloc: Global,
    env: &Env,
    work: &mut Work,
    ty: &Ty,
    at: At,
    os: &[Operand],
) -> Result<TNodeId, ElabFault>
    requires { are_in (length (trees_of work.old.nodes.items)) os.now ≡ true }
    ensures { Makes (trees_of work.old.nodes.items) (trees_of work.new.nodes.items) (work_of work.new) result (directly_initialised_of (ctx_of env.now) (work_of work.old) (typ_of ty.now) at (operands_in (trees_of work.old.nodes.items) os.now)) }
{
    match &ty.shape {
        Shape::Ref(_) => {
            if os.len() == 1 {
                return bound_reference(alloc, env, work, ty, os[0]);
            }
            from_values(alloc, env, work, ty, at, os)
        }
        Shape::Void
        | Shape::Int(_)
        | Shape::Enum { .. }
        | Shape::Null
        | Shape::Ptr(_)
        | Shape::Array(_, _)
        | Shape::Func(_)
        | Shape::Class(_)
        | Shape::Closure(_)
        | Shape::TxEx(_) => from_values(alloc, env, work, ty, at, os),
    }
}

// Whether one value stands for the whole initialiser: it is no value that a constructor takes.
fn is_own_value(nodes: &Vec<TNode>, class: Option<u32>, o: Operand) -> bool
    requires { o.id.0 < length (trees_of nodes.now.items) }
    ensures { result ≡ is_own_value_of class (operand_in (trees_of nodes.now.items) o) }
{
    match class {
        Some(class) => is_prvalue_of_class(nodes, class, o.id),
        None => true,
    }
}

/// Where values in parentheses stand as a whole: at the one value, unless a constructor takes that.
pub fn values_place(nodes: &Vec<TNode>, ty: &Ty, at: At, os: &[Operand]) -> At
    requires { are_in (length (trees_of nodes.now.items)) os.now ≡ true }
    ensures { result ≡ values_place_of (typ_of ty.now) at (operands_in (trees_of nodes.now.items) os.now) }
{
    if os.len() == 1 {
        value_place(nodes, ty, at, os[0])
    } else {
        at
    }
}

// The same of one value.
fn value_place(nodes: &Vec<TNode>, ty: &Ty, at: At, o: Operand) -> At
    requires { o.id.0 < length (trees_of nodes.now.items) }
    ensures { result ≡ (if is_own_value_of (class_number_of (typ_of ty.now)) (operand_in (trees_of nodes.now.items) o) then o.at else at) }
{
    if is_own_value(nodes, class_number(ty), o) {
        o.at
    } else {
        at
    }
}
