// Objects from values in parentheses (C++14 8.5 p16).

ghost use Rattle.std.specs.Prelude.{◌≡◌, ◌<◌, ◌∷◌, drop, length, true, None};
ghost use Rattle.elab_init.specs.cpp_types.Typ.{typ_of, typ, tx_ex};
ghost use Rattle.elab_init.specs.cpp_types.Equal.{form_eq};
ghost use Rattle.elab_init.specs.cpp_tree.Typing.{form_in};
ghost use Rattle.elab_init.specs.cpp_tree.Arena.{trees_of};
ghost use Rattle.elab_init.specs.elab_ctx.Ctx.{ctx_of, work_of};
ghost use Rattle.elab_init.specs.elab_ctx.Operands.{operand_in, operands_in, are_in};
ghost use Rattle.elab_init.specs.elab_ctx.Says.{Makes};
ghost use Rattle.elab_init.specs.elab_rules.Initialising.{constructed as constructed_of, constructed_by as constructed_by_of, is_prvalue_itself as is_prvalue_itself_of, is_exception_itself as is_exception_itself_of, exception_from as exception_from_of, from_values as from_values_of, scalar_from as scalar_from_of};
ghost use Rattle.elab_make.specs.Others.{other_values};

use crate::binding::initial;
use crate::call_words::words;
use crate::copying::{class_from, copied_in_place, place_at};
use crate::exact::exact_object;
use crate::lists::first_operand;
use crate::nothing::from_nothing;
use elab_init::below::{
    At, ElabFault, Env, IllRule, Operand, Shape, TNode, TNodeId, Ty, Work, equal_types, node_at,
    stored,
};
use elab_init::{
    building, construct, constructors, ill, is_class_type, is_prvalue_of_class, makeable, makers,
    meant, parameters_at, without_exception,
};
use std::alloc::Global;

// Whether the one value is the object itself.
fn is_prvalue_itself(nodes: &Vec<TNode>, class: u32, os: &[Operand]) -> bool
    requires { are_in (length (trees_of nodes.now.items)) os.now ≡ true }
    ensures { result ≡ is_prvalue_itself_of class (operands_in (trees_of nodes.now.items) os.now) }
{
    os.len() == 1 && is_prvalue_of_class(nodes, class, os[0].id)
}

// A copy in place of the one value.
fn copied_alone(
    alloc: Global,
    env: &Env,
    work: &mut Work,
    class: u32,
    ty: &Ty,
    at: At,
    os: &[Operand],
) -> Result<TNodeId, ElabFault>
    requires { are_in (length (trees_of work.old.nodes.items)) os.now ≡ true }
    ensures { Makes (trees_of work.old.nodes.items) (trees_of work.new.nodes.items) (work_of work.new) result (constructed_by_of (ctx_of env.now) (work_of work.old) class (typ_of ty.now) at (operands_in (trees_of work.old.nodes.items) os.now) None) }
{
    if os.len() != 1 {
        return Err(ill(at, IllRule::NoViable));
    }
    let o = os[0];
    if node_at(&work.nodes, o.id).ty.is_volatile {
        return Err(ill(o.at, IllRule::NoCopy));
    }
    let made = copied_in_place(alloc, env, work, class, ty, at, o)?;
    Ok(made)
}

// An object by a constructor, or a copy in place.
fn constructed_by(
    alloc: Global,
    env: &Env,
    work: &mut Work,
    class: u32,
    ty: &Ty,
    at: At,
    os: &[Operand],
    maker: Option<u32>,
) -> Result<TNodeId, ElabFault>
    requires { are_in (length (trees_of work.old.nodes.items)) os.now ≡ true }
    ensures { Makes (trees_of work.old.nodes.items) (trees_of work.new.nodes.items) (work_of work.new) result (constructed_by_of (ctx_of env.now) (work_of work.old) class (typ_of ty.now) at (operands_in (trees_of work.old.nodes.items) os.now) maker) }
{
    match maker {
        None => copied_alone(alloc, env, work, class, ty, at, os),
        Some(func) => {
            let params = parameters_at(env, func)?;
            let kids = words(alloc, env, work, params, os)?;
            let made = construct(alloc, &mut work.nodes, func, ty, at, kids)?;
            Ok(made)
        }
    }
}

// An object of a class from one value or more.
fn constructed_from(
    alloc: Global,
    env: &Env,
    work: &mut Work,
    class: u32,
    ty: &Ty,
    at: At,
    first: Operand,
    os: &[Operand],
) -> Result<TNodeId, ElabFault>
    requires some { os.now ≡ first ∷ drop 1 os.now }
    requires within { are_in (length (trees_of work.old.nodes.items)) os.now ≡ true }
    ensures { Makes (trees_of work.old.nodes.items) (trees_of work.new.nodes.items) (work_of work.new) result (constructed_of (ctx_of env.now) (work_of work.old) class (typ_of ty.now) at (operands_in (trees_of work.old.nodes.items) os.now)) }
{
    let _number = makeable(env, at, class)?;
    if is_prvalue_itself(&work.nodes, class, os) {
        let made = building(alloc, env, &mut work.nodes, ty, first.id)?;
        return Ok(made);
    }
    let places = constructors(alloc, env, class)?;
    let cands = makers(alloc, env, class, &places)?;
    let i = meant(alloc, env, &work.nodes, at, &cands, os)?;
    let maker = place_at(&places, i);
    constructed_by(alloc, env, work, class, ty, at, os, maker)
}

/// An object of a class by one of its constructors.
pub fn constructed(
    alloc: Global,
    env: &Env,
    work: &mut Work,
    class: u32,
    ty: &Ty,
    at: At,
    os: &[Operand],
) -> Result<TNodeId, ElabFault>
    requires { are_in (length (trees_of work.old.nodes.items)) os.now ≡ true }
    ensures { Makes (trees_of work.old.nodes.items) (trees_of work.new.nodes.items) (work_of work.new) result (constructed_of (ctx_of env.now) (work_of work.old) class (typ_of ty.now) at (operands_in (trees_of work.old.nodes.items) os.now)) }
{
    match first_operand(os) {
        None => from_nothing(alloc, env, &mut work.nodes, ty, at),
        Some(first) => constructed_from(alloc, env, work, class, ty, at, first, os),
    }
}

/// A scalar, or the slot of a reference, from an expression.
pub fn scalar_from(
    alloc: Global,
    env: &Env,
    work: &mut Work,
    ty: &Ty,
    o: Operand,
) -> Result<TNodeId, ElabFault>
    requires { o.id.0 < length (trees_of work.old.nodes.items) }
    ensures { Makes (trees_of work.old.nodes.items) (trees_of work.new.nodes.items) (work_of work.new) result (scalar_from_of (ctx_of env.now) (work_of work.old) (typ_of ty.now) (operand_in (trees_of work.old.nodes.items) o)) }
{
    let value = initial(alloc, env, work, ty, o)?;
    let made = stored(alloc, &mut work.nodes, o.at, ty, value)?;
    Ok(made)
}

// The value in a `std::tx_exception`, which its constructor takes.
fn exception_from(
    alloc: Global,
    env: &Env,
    work: &mut Work,
    value: &Ty,
    at: At,
    os: &[Operand],
) -> Result<TNodeId, ElabFault>
    requires { are_in (length (trees_of work.old.nodes.items)) os.now ≡ true }
    ensures { Makes (trees_of work.old.nodes.items) (trees_of work.new.nodes.items) (work_of work.new) result (exception_from_of (ctx_of env.now) (work_of work.old) (typ_of value.now) at (operands_in (trees_of work.old.nodes.items) os.now)) }
{
    if os.len() != 1 {
        return Err(ill(at, IllRule::NoViable));
    }
    let o = os[0];
    if is_class_type(value) {
        return exact_object(alloc, env, work, value, at, o);
    }
    scalar_from(alloc, env, work, value, o)
}

// Whether the one value is such an exception itself.
fn is_exception_itself(nodes: &Vec<TNode>, value: &Ty, os: &[Operand]) -> bool
    requires { are_in (length (trees_of nodes.now.items)) os.now ≡ true }
    ensures { result ≡ is_exception_itself_of (typ_of value.now) (operands_in (trees_of nodes.now.items) os.now) }
{
    os.len() == 1 && is_exception_of(&node_at(nodes, os[0].id).ty, value)
}

// Whether a type is `std::tx_exception` of another.
fn is_exception_of(ty: &Ty, value: &Ty) -> bool
    ensures { result ≡ form_eq (form_in (typ_of ty.now)) (tx_ex (typ_of value.now)) }
{
    match &ty.shape {
        Shape::TxEx(inner) => equal_types(inner, value),
        Shape::Void
        | Shape::Int(_)
        | Shape::Enum { .. }
        | Shape::Null
        | Shape::Ptr(_)
        | Shape::Ref(_)
        | Shape::Array(_, _)
        | Shape::Func(_)
        | Shape::Class(_)
        | Shape::Closure(_) => false,
    }
}

// The same of a type that is no class with a name and no array, from one value or more.
fn other_from(
    alloc: Global,
    env: &Env,
    work: &mut Work,
    ty: &Ty,
    at: At,
    first: Operand,
    os: &[Operand],
) -> Result<TNodeId, ElabFault>
    requires some { os.now ≡ first ∷ drop 1 os.now }
    requires within { are_in (length (trees_of work.old.nodes.items)) os.now ≡ true }
    ensures { Makes (trees_of work.old.nodes.items) (trees_of work.new.nodes.items) (work_of work.new) result (other_values (ctx_of env.now) (work_of work.old) (typ_of ty.now) at (operands_in (trees_of work.old.nodes.items) os.now)) }
{
    if is_class_type(ty) {
        return class_from(alloc, env, work, ty, at, first);
    }
    if os.len() != 1 {
        return Err(ill(at, IllRule::BadInit));
    }
    scalar_from(alloc, env, work, ty, os[0])
}

// A `std::tx_exception` from values in parentheses.
fn exception_values(
    alloc: Global,
    env: &Env,
    work: &mut Work,
    ty: &Ty,
    value: &Ty,
    is_const: bool,
    is_volatile: bool,
    at: At,
    os: &[Operand],
) -> Result<TNodeId, ElabFault>
    requires itself { typ_of ty.now ≡ typ (tx_ex (typ_of value.now)) is_const is_volatile }
    requires within { are_in (length (trees_of work.old.nodes.items)) os.now ≡ true }
    ensures { Makes (trees_of work.old.nodes.items) (trees_of work.new.nodes.items) (work_of work.new) result (from_values_of (ctx_of env.now) (work_of work.old) (typ (tx_ex (typ_of value.now)) is_const is_volatile) at (operands_in (trees_of work.old.nodes.items) os.now)) }
{
    if os.is_empty() {
        return Err(ill(at, IllRule::NoDefault));
    }
    if is_exception_itself(&work.nodes, value, os) {
        return class_from(alloc, env, work, ty, at, os[0]);
    }
    let inner = without_exception(alloc, ty)?;
    exception_from(alloc, env, work, &inner, at, os)
}

/// An object of a type from values in parentheses, or from none.
pub fn from_values(
    alloc: Global,
    env: &Env,
    work: &mut Work,
    ty: &Ty,
    at: At,
    os: &[Operand],
) -> Result<TNodeId, ElabFault>
    requires { are_in (length (trees_of work.old.nodes.items)) os.now ≡ true }
    ensures { Makes (trees_of work.old.nodes.items) (trees_of work.new.nodes.items) (work_of work.new) result (from_values_of (ctx_of env.now) (work_of work.old) (typ_of ty.now) at (operands_in (trees_of work.old.nodes.items) os.now)) }
{
    match &ty.shape {
        Shape::Class(class) => constructed(alloc, env, work, *class, ty, at, os),
        Shape::TxEx(value) => exception_values(
            alloc,
            env,
            work,
            ty,
            value,
            ty.is_const,
            ty.is_volatile,
            at,
            os,
        ),
        Shape::Array(_, _) => {
            if os.is_empty() {
                return from_nothing(alloc, env, &mut work.nodes, ty, at);
            }
            Err(ill(at, IllRule::BadInit))
        }
        Shape::Void
        | Shape::Int(_)
        | Shape::Enum { .. }
        | Shape::Null
        | Shape::Ptr(_)
        | Shape::Ref(_)
        | Shape::Func(_)
        | Shape::Closure(_) => match first_operand(os) {
            None => from_nothing(alloc, env, &mut work.nodes, ty, at),
            Some(first) => other_from(alloc, env, work, ty, at, first, os),
        },
    }
}
