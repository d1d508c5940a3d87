// Objects of classes from one expression (C++14 8.5 p17, 12.8).

ghost use Rattle.std.specs.Prelude.{◌≡◌, ◌<◌, IfOk, length, slice_get};
ghost use Rattle.elab_init.specs.cpp_types.Typ.{typ_of, typs_of, tx_ex, typ, closure, class as class_form};
ghost use Rattle.elab_init.specs.cpp_types.Class.{classes_of};
ghost use Rattle.elab_init.specs.cpp_tree.Arena.{trees_of, tree_at, Adds};
ghost use Rattle.elab_init.specs.elab_ctx.Ctx.{ctx_of, work_of, special_of};
ghost use Rattle.elab_init.specs.elab_ctx.Operands.{operand_in};
ghost use Rattle.elab_init.specs.elab_ctx.Says.{Makes, MakesAll, Puts};
ghost use Rattle.elab_init.specs.elab_rules.Initialising.{initial as initial_of, has_copy as has_copy_of, reference_word as reference_word_of, constructed_copy as constructed_copy_of, copied_object as copied_object_of, class_from as class_from_of, copied_in_place as copied_in_place_of, with_tree, object_of as object_by, is_closure_itself as is_closure_itself_of, closure_copied as closure_copied_of, exception_built as exception_built_of, exception_copied as exception_copied_of, exception_made as exception_made_of};
ghost use Rattle.elab_make.specs.Passing.{copying_word};

use crate::binding::initial;
use crate::closures::{closure_copy, closure_type};
use crate::lists::one_of;
use crate::objects::object_of;
use crate::own_types::is_given_value;
use elab_init::below::{
    At, Cat, ElabFault, Env, IllRule, Operand, Shape, Special, TKind, TNode, TNodeId, Ty, Work,
    add_binary, copy, equal_shapes, equal_types, node_at,
};
use elab_init::{
    builder, building, class_number, construct, constructors, copies, copy_in_place, ill,
    is_class_prvalue, is_class_type, is_prvalue_of_class, is_same_or_base, makeable, makers, meant,
    parameters_at, same_number, traits_at, without_exception,
};
use std::alloc::{AllocError, Global};

/// A copy in place, part by part, of an object.
pub fn copied_in_place(
    alloc: Global,
    env: &Env,
    work: &mut Work,
    class: u32,
    ty: &Ty,
    at: At,
    o: Operand,
) -> Result<TNodeId, AllocError>
    requires { o.id.0 < length (trees_of work.old.nodes.items) }
    ensures { IfOk result (λ r. Puts (trees_of work.old.nodes.items) (trees_of work.new.nodes.items) (work_of work.new) r (copied_in_place_of (ctx_of env.now) (work_of work.old) class (typ_of ty.now) at (operand_in (trees_of work.old.nodes.items) o))) }
{
    let object = object_of(alloc, env, work, o.at, o.id)?;
    copy_in_place(alloc, env, &mut work.nodes, class, ty, at, o.at, object)
}

// The word of a constructor that copies, by a reference: an object of a class would need a copy itself.
fn one_word(
    alloc: Global,
    env: &Env,
    work: &mut Work,
    param: &Ty,
    o: Operand,
) -> Result<Vec<TNodeId>, ElabFault>
    requires { o.id.0 < length (trees_of work.old.nodes.items) }
    ensures { MakesAll (trees_of work.old.nodes.items) (trees_of work.new.nodes.items) (work_of work.new) result (copying_word (ctx_of env.now) (work_of work.old) (typ_of param.now) (operand_in (trees_of work.old.nodes.items) o)) }
{
    if is_class_type(param) {
        return Err(ill(o.at, IllRule::OutOfProfile));
    }
    let word = initial(alloc, env, work, param, o)?;
    let words = one_of(alloc, word)?;
    Ok(words)
}

// The same of a constructor with one parameter.
fn reference_word(
    alloc: Global,
    env: &Env,
    work: &mut Work,
    params: &[Ty],
    o: Operand,
) -> Result<Vec<TNodeId>, ElabFault>
    requires { o.id.0 < length (trees_of work.old.nodes.items) }
    ensures { MakesAll (trees_of work.old.nodes.items) (trees_of work.new.nodes.items) (work_of work.new) result (reference_word_of (ctx_of env.now) (work_of work.old) (typs_of params.now) (operand_in (trees_of work.old.nodes.items) o)) }
{
    if params.len() == 1 {
        one_word(alloc, env, work, &params[0], o)
    } else {
        Err(ill(o.at, IllRule::OutOfProfile))
    }
}

// A copy of an object by a constructor, or in place.
fn constructed_copy(
    alloc: Global,
    env: &Env,
    work: &mut Work,
    class: u32,
    ty: &Ty,
    at: At,
    o: Operand,
    maker: Option<u32>,
) -> Result<TNodeId, ElabFault>
    requires { o.id.0 < length (trees_of work.old.nodes.items) }
    ensures { Makes (trees_of work.old.nodes.items) (trees_of work.new.nodes.items) (work_of work.new) result (constructed_copy_of (ctx_of env.now) (work_of work.old) class (typ_of ty.now) at (operand_in (trees_of work.old.nodes.items) o) maker) }
{
    match maker {
        None => {
            let made = copied_in_place(alloc, env, work, class, ty, at, o)?;
            Ok(made)
        }
        Some(func) => {
            let params = parameters_at(env, func)?;
            let words = reference_word(alloc, env, work, params, o)?;
            let made = construct(alloc, &mut work.nodes, func, ty, at, words)?;
            Ok(made)
        }
    }
}

fn has_copy(copy: Special) -> bool
    ensures { result ≡ has_copy_of (special_of copy) }
{
    match copy {
        Special::Absent => false,
        Special::Trivial | Special::Function(_) => true,
    }
}

// A copy of an object of the class or of a class that is derived from it.
fn copied_object(
    alloc: Global,
    env: &Env,
    work: &mut Work,
    class: u32,
    ty: &Ty,
    at: At,
    o: Operand,
) -> Result<TNodeId, ElabFault>
    requires { o.id.0 < length (trees_of work.old.nodes.items) }
    ensures { Makes (trees_of work.old.nodes.items) (trees_of work.new.nodes.items) (work_of work.new) result (copied_object_of (ctx_of env.now) (work_of work.old) class (typ_of ty.now) at (operand_in (trees_of work.old.nodes.items) o)) }
{
    if node_at(&work.nodes, o.id).ty.is_volatile || !has_copy(traits_at(env, class).copy) {
        return Err(ill(o.at, IllRule::NoCopy));
    }
    let places = constructors(alloc, env, class)?;
    let cands = makers(alloc, env, class, &places)?;
    let i = meant(alloc, env, &work.nodes, at, &cands, &[o])?;
    let maker = place_at(&places, i);
    constructed_copy(alloc, env, work, class, ty, at, o, maker)
}

/// The place with an index.
pub fn place_at(places: &[u32], i: u32) -> Option<u32>
    ensures { result ≡ slice_get places.now i }
{
    let place = places.get(i as usize)?;
    Some(*place)
}

// Whether an expression is a prvalue of a lambda's class with exactly these qualifiers.
fn is_closure_itself(
    nodes: &Vec<TNode>,
    class: u32,
    is_const: bool,
    is_volatile: bool,
    id: TNodeId,
) -> bool
    requires { id.0 < length (trees_of nodes.now.items) }
    ensures { result ≡ is_closure_itself_of class is_const is_volatile (tree_at (trees_of nodes.now.items) id) }
{
    let ty = closure_type(class, is_const, is_volatile);
    is_prvalue_of_class(nodes, class, id) && equal_types(&ty, &node_at(nodes, id).ty)
}

// A copy of the lambda's object that an expression gives.
fn closure_copied(
    alloc: Global,
    env: &Env,
    work: &mut Work,
    class: u32,
    is_const: bool,
    is_volatile: bool,
    at: At,
    o: Operand,
) -> Result<TNodeId, AllocError>
    requires { o.id.0 < length (trees_of work.old.nodes.items) }
    ensures { IfOk result (λ r. Puts (trees_of work.old.nodes.items) (trees_of work.new.nodes.items) (work_of work.new) r (with_tree (closure_copied_of (ctx_of env.now) class is_const is_volatile at) (object_by (ctx_of env.now) (work_of work.old) o.at (tree_at (trees_of work.old.nodes.items) o.id)))) }
{
    let object = object_of(alloc, env, work, o.at, o.id)?;
    closure_copy(
        alloc,
        env,
        &mut work.nodes,
        class,
        is_const,
        is_volatile,
        at,
        object,
    )
}

// A lambda's object from an expression.
fn closure_from(
    alloc: Global,
    env: &Env,
    work: &mut Work,
    class: u32,
    is_const: bool,
    is_volatile: bool,
    at: At,
    o: Operand,
) -> Result<TNodeId, ElabFault>
    requires { o.id.0 < length (trees_of work.old.nodes.items) }
    ensures { Makes (trees_of work.old.nodes.items) (trees_of work.new.nodes.items) (work_of work.new) result (class_from_of (ctx_of env.now) (work_of work.old) (typ (closure class) is_const is_volatile) at (operand_in (trees_of work.old.nodes.items) o)) }
{
    if is_closure_itself(&work.nodes, class, is_const, is_volatile, o.id) {
        return Ok(o.id);
    }
    if !same_number(class, class_number(&node_at(&work.nodes, o.id).ty)) {
        return Err(ill(o.at, IllRule::NoConversion));
    }
    if node_at(&work.nodes, o.id).ty.is_volatile {
        return Err(ill(o.at, IllRule::NoCopy));
    }
    let made = closure_copied(alloc, env, work, class, is_const, is_volatile, at, o)?;
    Ok(made)
}

// An object of a class with a name from an expression.
fn object_from(
    alloc: Global,
    env: &Env,
    work: &mut Work,
    class: u32,
    is_const: bool,
    is_volatile: bool,
    at: At,
    o: Operand,
) -> Result<TNodeId, ElabFault>
    requires { o.id.0 < length (trees_of work.old.nodes.items) }
    ensures { Makes (trees_of work.old.nodes.items) (trees_of work.new.nodes.items) (work_of work.new) result (class_from_of (ctx_of env.now) (work_of work.old) (typ (class_form class) is_const is_volatile) at (operand_in (trees_of work.old.nodes.items) o)) }
{
    let _number = makeable(env, at, class)?;
    let ty = Ty {
        shape: Shape::Class(class),
        is_const,
        is_volatile,
    };
    if is_prvalue_of_class(&work.nodes, class, o.id) {
        let made = building(alloc, env, &mut work.nodes, &ty, o.id)?;
        return Ok(made);
    }
    let found = class_number(&node_at(&work.nodes, o.id).ty);
    if !is_same_or_base(env, found, Some(class)) {
        return Err(ill(o.at, IllRule::NoConversion));
    }
    copied_object(alloc, env, work, class, &ty, at, o)
}

// `std::tx_exception` of a type.
fn exception_type(
    alloc: Global,
    value: &Ty,
    is_const: bool,
    is_volatile: bool,
) -> Result<Ty, AllocError>
    ensures { IfOk result (λ t. typ_of t ≡ typ (tx_ex (typ_of value.now)) is_const is_volatile) }
{
    let value = Box::new(alloc, copy(alloc, value)?)?;
    Ok(Ty {
        shape: Shape::TxEx(value),
        is_const,
        is_volatile,
    })
}

/// A `std::tx_exception` of a type, copied from an object.
pub fn exception_copied(
    alloc: Global,
    env: &Env,
    nodes: &mut Vec<TNode>,
    ty: &Ty,
    at: At,
    id: TNodeId,
) -> Result<TNodeId, AllocError>
    requires { id.0 < length (trees_of nodes.old.items) }
    ensures { IfOk result (λ r. Adds (trees_of nodes.old.items) (trees_of nodes.new.items) r (exception_copied_of (ctx_of env.now) (typ_of ty.now) at (tree_at (trees_of nodes.old.items) id))) }
{
    let value = without_exception(alloc, ty)?;
    let parts = copies(alloc, env, nodes, at, &value)?;
    let ty = copy(alloc, ty)?;
    add_binary(
        alloc,
        nodes,
        TKind::CopyFrom,
        ty,
        Cat::Prvalue,
        at,
        id,
        parts,
    )
}

// What builds a `std::tx_exception` of a type.
fn exception_built(
    alloc: Global,
    env: &Env,
    nodes: &mut Vec<TNode>,
    ty: &Ty,
    id: TNodeId,
) -> Result<TNodeId, AllocError>
    requires { id.0 < length (trees_of nodes.old.items) }
    ensures { IfOk result (λ r. Adds (trees_of nodes.old.items) (trees_of nodes.new.items) r (exception_built_of (classes_of env.now.classes.items) (typ_of ty.now) (tree_at (trees_of nodes.old.items) id))) }
{
    if equal_types(ty, &node_at(nodes, id).ty) {
        return Ok(id);
    }
    let value = without_exception(alloc, ty)?;
    building(alloc, env, nodes, &value, id)
}

// A `std::tx_exception` of a type, copied from the temporary that an expression makes.
fn exception_given(
    alloc: Global,
    env: &Env,
    work: &mut Work,
    ty: &Ty,
    at: At,
    o: Operand,
) -> Result<TNodeId, AllocError>
    requires { o.id.0 < length (trees_of work.old.nodes.items) }
    ensures { IfOk result (λ r. Puts (trees_of work.old.nodes.items) (trees_of work.new.nodes.items) (work_of work.new) r (with_tree (exception_copied_of (ctx_of env.now) (typ_of ty.now) at) (object_by (ctx_of env.now) (work_of work.old) o.at (tree_at (trees_of work.old.nodes.items) o.id)))) }
{
    let object = object_of(alloc, env, work, o.at, o.id)?;
    exception_copied(alloc, env, &mut work.nodes, ty, at, object)
}

// A `std::tx_exception` of a type that is written with its value.
fn exception_made(
    alloc: Global,
    env: &Env,
    work: &mut Work,
    ty: &Ty,
    at: At,
    o: Operand,
) -> Result<TNodeId, AllocError>
    requires { o.id.0 < length (trees_of work.old.nodes.items) }
    ensures { IfOk result (λ r. Puts (trees_of work.old.nodes.items) (trees_of work.new.nodes.items) (work_of work.new) r (exception_made_of (ctx_of env.now) (work_of work.old) (typ_of ty.now) at (operand_in (trees_of work.old.nodes.items) o))) }
{
    let init = builder(&work.nodes, o.id)?;
    if is_given_value(&work.nodes, init) {
        return exception_given(alloc, env, work, ty, at, o);
    }
    exception_built(alloc, env, &mut work.nodes, ty, init)
}

// A `std::tx_exception` from an expression.
fn exception_from(
    alloc: Global,
    env: &Env,
    work: &mut Work,
    value: &Ty,
    is_const: bool,
    is_volatile: bool,
    at: At,
    o: Operand,
) -> Result<TNodeId, ElabFault>
    requires { o.id.0 < length (trees_of work.old.nodes.items) }
    ensures { Makes (trees_of work.old.nodes.items) (trees_of work.new.nodes.items) (work_of work.new) result (class_from_of (ctx_of env.now) (work_of work.old) (typ (tx_ex (typ_of value.now)) is_const is_volatile) at (operand_in (trees_of work.old.nodes.items) o)) }
{
    let ty = exception_type(alloc, value, is_const, is_volatile)?;
    let node = node_at(&work.nodes, o.id);
    if !equal_shapes(&node.ty.shape, &ty.shape) {
        return Err(ill(o.at, IllRule::NoConversion));
    }
    if is_class_prvalue(&node.ty, node.cat) {
        let made = exception_made(alloc, env, work, &ty, at, o)?;
        return Ok(made);
    }
    if node_at(&work.nodes, o.id).ty.is_volatile {
        return Err(ill(o.at, IllRule::NoCopy));
    }
    let made = exception_copied(alloc, env, &mut work.nodes, &ty, at, o.id)?;
    Ok(made)
}

/// An object of class type from an expression (C++14 8.5 p17): a prvalue of the class is its own initialiser.
pub fn class_from(
    alloc: Global,
    env: &Env,
    work: &mut Work,
    ty: &Ty,
    at: At,
    o: Operand,
) -> Result<TNodeId, ElabFault>
    requires { o.id.0 < length (trees_of work.old.nodes.items) }
    ensures { Makes (trees_of work.old.nodes.items) (trees_of work.new.nodes.items) (work_of work.new) result (class_from_of (ctx_of env.now) (work_of work.old) (typ_of ty.now) at (operand_in (trees_of work.old.nodes.items) o)) }
{
    let is_const = ty.is_const;
    let is_volatile = ty.is_volatile;
    match &ty.shape {
        Shape::Closure(class) => {
            closure_from(alloc, env, work, *class, is_const, is_volatile, at, o)
        }
        Shape::Class(class) => object_from(alloc, env, work, *class, is_const, is_volatile, at, o),
        Shape::TxEx(value) => exception_from(alloc, env, work, value, is_const, is_volatile, at, o),
        Shape::Void
        | Shape::Int(_)
        | Shape::Enum { .. }
        | Shape::Null
        | Shape::Ptr(_)
        | Shape::Ref(_)
        | Shape::Array(_, _)
        | Shape::Func(_) => Err(ill(o.at, IllRule::NoConversion)),
    }
}
