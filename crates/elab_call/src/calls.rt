// Calls (C++14 5.2.2, 13.3): by name, of member functions, through pointers, of lambdas.

ghost use Rattle.std.specs.Prelude.{◌≡◌, ◌<◌, ◌∷◌, [], true, map, None, length, option_map, IfOk};
ghost use Rattle.cpp_types.specs.Typ.{typ_of, signature_of};
ghost use Rattle.elab_make.specs.cpp_tree.Typing.{form_in};
ghost use Rattle.elab_make.specs.cpp_tree.Trees.{typ_in};
ghost use Rattle.elab_make.specs.cpp_tree.Arena.{trees_of, tree_at, Adds};
ghost use Rattle.elab_make.specs.cpp_overload.Overload.{candidate_of};
ghost use Rattle.elab_make.specs.elab_ctx.Ctx.{ctx_of, work_of};
ghost use Rattle.elab_make.specs.elab_ctx.Operands.{operand_in, operands_in, are_in};
ghost use Rattle.elab_make.specs.elab_ctx.Says.{Makes, Tells};
ghost use Rattle.elab_make.specs.elab_rules.Initialising.{func_at};
ghost use Rattle.elab_make.specs.elab_rules.Calls.{best_of as best_of_places, call_kind as call_kind_of, is_main as is_main_of, call_free as call_free_of, call_method_of as call_method_by, call_method as call_method_by_name, call_closure as call_closure_of, call_pointer as call_pointer_of, call_value as call_value_of, call_abort as call_abort_of, call_get as call_get_of, exception_value as exception_value_of, value_type as value_type_of, call as call_of};
ghost use Rattle.elab_call.specs.Callees.{closure_class, closure_called, function_in, copied_exception, read_exception};

use crate::callees::{CalleeForm, form_at};
use crate::results::{called, called_on};
use crate::slots::member_kind;
use cpp_types::{At, Cat, FnTy, Shape, Ty, copy, copy_function};
use elab_make::below::{
    Builtin, Cand, ElabFault, Env, IllRule, Operand, TKind, TNode, TNodeId, Work, add_binary,
    add_leaf, add_unary, as_source, candidates, copies, function_at, is_class_type, kind_of, meant,
    node_at, unqualified_type, valued,
};
use elab_make::object_of;
use elab_names::functions::{closure_places, free_places, method_places};
use elab_names::parts::{ill, plain_type, retyped};
use elab_names::resolving::name_at;
use std::alloc::{AllocError, Global};

// Which of the functions in these places a call means.
fn best_of(
    alloc: Global,
    env: &Env,
    nodes: &Vec<TNode>,
    at: At,
    places: &[u32],
    os: &[Operand],
) -> Result<u32, ElabFault>
    requires { are_in (length (trees_of nodes.now.items)) os.now ≡ true }
    ensures { Tells result (best_of_places (ctx_of env.now) at places.now (operands_in (trees_of nodes.now.items) os.now)) }
{
    let cands = candidates(alloc, env, places)?;
    let chosen = meant(alloc, env, nodes, at, &cands, os)?;
    let Some(place) = places.get(chosen as usize) else {
        return Err(ill(at, IllRule::NoViable));
    };
    Ok(*place)
}

fn call_kind(builtin: Option<Builtin>, func: u32) -> TKind
    ensures { result ≡ call_kind_of builtin func }
{
    match builtin {
        Some(which) => TKind::Builtin { which },
        None => TKind::Call { func },
    }
}

fn is_main(env: &Env, func: u32) -> bool
    ensures { result ≡ is_main_of (func_at (ctx_of env.now).funcs func) }
{
    let Some(found) = function_at(env, func) else {
        return false;
    };
    found.rec.name.as_slice() == b"main".as_slice() && found.class.is_none()
}

// A call by name of a function at file scope.
fn call_free(
    alloc: Global,
    env: &Env,
    work: &mut Work,
    at: At,
    func: u32,
    os: &[Operand],
) -> Result<TNodeId, ElabFault>
    requires { are_in (length (trees_of work.old.nodes.items)) os.now ≡ true }
    ensures { Makes (trees_of work.old.nodes.items) (trees_of work.new.nodes.items) (work_of work.new) result (call_free_of (ctx_of env.now) (work_of work.old) at func (operands_in (trees_of work.old.nodes.items) os.now)) }
{
    if is_main(env, func) {
        return Err(ill(at, IllRule::BadMain));
    }
    let places = free_places(alloc, &env.funcs, name_at(env, func))?;
    let best = best_of(alloc, env, &work.nodes, at, &places, os)?;
    let Some(found) = function_at(env, best) else {
        return Err(ElabFault::Memory);
    };
    let kind = call_kind(found.builtin, best);
    called(alloc, env, work, at, kind, &found.rec.ty, os)
}

// The arguments behind an object.
fn behind_object(alloc: Global, object: Operand, os: &[Operand]) -> Result<Vec<Operand>, AllocError>
    ensures { IfOk result (λ v. v.items ≡ object ∷ os.now) }
{
    let mut all = Vec::new(alloc);
    all.push(object)?;
    all.extend_from_slice(os)?;
    Ok(all)
}

// Which of the functions in these places a call on an object means.
fn best_on(
    alloc: Global,
    env: &Env,
    nodes: &Vec<TNode>,
    at: At,
    places: &[u32],
    object: Operand,
    os: &[Operand],
) -> Result<u32, ElabFault>
    requires object { object.id.0 < length (trees_of nodes.now.items) }
    requires arguments { are_in (length (trees_of nodes.now.items)) os.now ≡ true }
    ensures { Tells result (best_of_places (ctx_of env.now) at places.now (operand_in (trees_of nodes.now.items) object ∷ operands_in (trees_of nodes.now.items) os.now)) }
{
    let all = behind_object(alloc, object, os)?;
    best_of(alloc, env, nodes, at, places, &all)
}

// A call of a member function of a class.
fn call_method_of(
    alloc: Global,
    env: &Env,
    work: &mut Work,
    at: At,
    class: u32,
    func: u32,
    object: TNodeId,
    os: &[Operand],
) -> Result<TNodeId, ElabFault>
    requires object { object.0 < length (trees_of work.old.nodes.items) }
    requires arguments { are_in (length (trees_of work.old.nodes.items)) os.now ≡ true }
    ensures { Makes (trees_of work.old.nodes.items) (trees_of work.new.nodes.items) (work_of work.new) result (call_method_by (ctx_of env.now) (work_of work.old) at class func (tree_at (trees_of work.old.nodes.items) object) (operands_in (trees_of work.old.nodes.items) os.now)) }
{
    let places = method_places(alloc, &env.funcs, class, name_at(env, func))?;
    let first = Operand {
        id: object,
        at,
        zero: false,
    };
    let best = best_on(alloc, env, &work.nodes, at, &places, first, os)?;
    let Some(found) = function_at(env, best) else {
        return Err(ElabFault::Memory);
    };
    let kind = member_kind(env, class, best)?;
    let object = as_source(alloc, &mut work.nodes, at, class, object)?;
    called_on(alloc, env, work, at, kind, &found.rec.ty, object, os)
}

// A call by name of a member function.
fn call_method(
    alloc: Global,
    env: &Env,
    work: &mut Work,
    at: At,
    func: u32,
    object: TNodeId,
    os: &[Operand],
) -> Result<TNodeId, ElabFault>
    requires object { object.0 < length (trees_of work.old.nodes.items) }
    requires arguments { are_in (length (trees_of work.old.nodes.items)) os.now ≡ true }
    ensures { Makes (trees_of work.old.nodes.items) (trees_of work.new.nodes.items) (work_of work.new) result (call_method_by_name (ctx_of env.now) (work_of work.old) at func (tree_at (trees_of work.old.nodes.items) object) (operands_in (trees_of work.old.nodes.items) os.now)) }
{
    let Some(class) = class_of_function(env, func) else {
        return Err(ill(at, IllRule::NotCallable));
    };
    call_method_of(alloc, env, work, at, class, func, object, os)
}

// The class of which a function is a member.
fn class_of_function(env: &Env, func: u32) -> Option<u32>
    ensures { result ≡ (func_at (ctx_of env.now).funcs func).class }
{
    function_at(env, func)?.class
}

// A call of a lambda's object that stands where it is.
fn call_object(
    alloc: Global,
    env: &Env,
    work: &mut Work,
    at: At,
    class: u32,
    object: Operand,
    os: &[Operand],
) -> Result<TNodeId, ElabFault>
    requires object { object.id.0 < length (trees_of work.old.nodes.items) }
    requires arguments { are_in (length (trees_of work.old.nodes.items)) os.now ≡ true }
    ensures { Makes (trees_of work.old.nodes.items) (trees_of work.new.nodes.items) (work_of work.new) result (closure_called (ctx_of env.now) (work_of work.old) at class (operand_in (trees_of work.old.nodes.items) object) (operands_in (trees_of work.old.nodes.items) os.now)) }
{
    let places = closure_places(alloc, &env.funcs, class)?;
    let best = best_on(alloc, env, &work.nodes, at, &places, object, os)?;
    let Some(found) = function_at(env, best) else {
        return Err(ElabFault::Memory);
    };
    let kind = TKind::Call { func: best };
    called_on(alloc, env, work, at, kind, &found.rec.ty, object.id, os)
}

// A call of a lambda's object.
fn call_closure(
    alloc: Global,
    env: &Env,
    work: &mut Work,
    at: At,
    class: u32,
    callee: Operand,
    os: &[Operand],
) -> Result<TNodeId, ElabFault>
    requires callee { callee.id.0 < length (trees_of work.old.nodes.items) }
    requires arguments { are_in (length (trees_of work.old.nodes.items)) os.now ≡ true }
    ensures { Makes (trees_of work.old.nodes.items) (trees_of work.new.nodes.items) (work_of work.new) result (call_closure_of (ctx_of env.now) (work_of work.old) at class (operand_in (trees_of work.old.nodes.items) callee) (operands_in (trees_of work.old.nodes.items) os.now)) }
{
    let id = object_of(alloc, env, work, callee.at, callee.id)?;
    let object = Operand {
        id,
        at: callee.at,
        zero: false,
    };
    call_object(alloc, env, work, at, class, object, os)
}

// The type of the functions to which a pointer points.
fn pointed_function(alloc: Global, ty: &Ty) -> Result<Option<FnTy>, AllocError>
    ensures { IfOk result (λ o. option_map signature_of o ≡ function_in (form_in (typ_of ty.now))) }
{
    let Shape::Ptr(target) = &ty.shape else {
        return Ok(None);
    };
    let Shape::Func(found) = &target.shape else {
        return Ok(None);
    };
    let signature = copy_function(alloc, found)?;
    Ok(Some(signature))
}

// A function without a name as a candidate.
fn only_candidate(alloc: Global, ty: &FnTy) -> Result<Vec<Cand>, AllocError>
    ensures { IfOk result (λ v. map candidate_of v.items ≡ record { signature = signature_of ty.now; this = None } ∷ []) }
{
    let signature = copy_function(alloc, ty)?;
    let mut cands = Vec::new(alloc);
    cands.push(Cand {
        ty: signature,
        this: None,
    })?;
    Ok(cands)
}

// A call through a pointer.
fn call_pointer(
    alloc: Global,
    env: &Env,
    work: &mut Work,
    at: At,
    pointer: TNodeId,
    os: &[Operand],
) -> Result<TNodeId, ElabFault>
    requires pointer { pointer.0 < length (trees_of work.old.nodes.items) }
    requires arguments { are_in (length (trees_of work.old.nodes.items)) os.now ≡ true }
    ensures { Makes (trees_of work.old.nodes.items) (trees_of work.new.nodes.items) (work_of work.new) result (call_pointer_of (ctx_of env.now) (work_of work.old) at (form_in (typ_in (tree_at (trees_of work.old.nodes.items) pointer))) (tree_at (trees_of work.old.nodes.items) pointer) (operands_in (trees_of work.old.nodes.items) os.now)) }
{
    let Some(signature) = pointed_function(alloc, &node_at(&work.nodes, pointer).ty)? else {
        return Err(ill(at, IllRule::NotCallable));
    };
    let cands = only_candidate(alloc, &signature)?;
    let _only = meant(alloc, env, &work.nodes, at, &cands, os)?;
    let made = called_on(
        alloc,
        env,
        work,
        at,
        TKind::PointerCall,
        &signature,
        pointer,
        os,
    )?;
    Ok(made)
}

// The class of a lambda's object.
fn closure_in(ty: &Ty) -> Option<u32>
    ensures { result ≡ closure_class (form_in (typ_of ty.now)) }
{
    match &ty.shape {
        Shape::Closure(class) => Some(*class),
        _ => None,
    }
}

// A call of a value: of a lambda's object, or through a pointer.
fn call_value(
    alloc: Global,
    env: &Env,
    work: &mut Work,
    at: At,
    callee: Operand,
    os: &[Operand],
) -> Result<TNodeId, ElabFault>
    requires callee { callee.id.0 < length (trees_of work.old.nodes.items) }
    requires arguments { are_in (length (trees_of work.old.nodes.items)) os.now ≡ true }
    ensures { Makes (trees_of work.old.nodes.items) (trees_of work.new.nodes.items) (work_of work.new) result (call_value_of (ctx_of env.now) (work_of work.old) at (form_in (typ_in (tree_at (trees_of work.old.nodes.items) callee.id))) (operand_in (trees_of work.old.nodes.items) callee) (operands_in (trees_of work.old.nodes.items) os.now)) }
{
    if let Some(class) = closure_in(&node_at(&work.nodes, callee.id).ty) {
        return call_closure(alloc, env, work, at, class, callee, os);
    }
    let value = valued(alloc, &mut work.nodes, callee.at, callee.id)?;
    call_pointer(alloc, env, work, at, value, os)
}

// `std::abort()`
fn call_abort(
    alloc: Global,
    work: &mut Work,
    at: At,
    which: Builtin,
    os: &[Operand],
) -> Result<TNodeId, ElabFault>
    ensures { Makes (trees_of work.old.nodes.items) (trees_of work.new.nodes.items) (work_of work.new) result (call_abort_of (work_of work.old) at which (operands_in (trees_of work.old.nodes.items) os.now)) }
{
    if !os.is_empty() {
        return Err(ill(at, IllRule::NoViable));
    }
    let void = plain_type(Shape::Void);
    let kind = TKind::Builtin { which };
    let made = add_leaf(alloc, &mut work.nodes, kind, void, Cat::Prvalue, at)?;
    Ok(made)
}

// The type of the value in a `std::tx_exception`.
fn exception_type(alloc: Global, ty: &Ty) -> Result<Option<Ty>, AllocError>
    ensures { IfOk result (λ o. option_map typ_of o ≡ value_type_of (form_in (typ_of ty.now))) }
{
    let Shape::TxEx(value) = &ty.shape else {
        return Ok(None);
    };
    let found = copy(alloc, value)?;
    Ok(Some(found))
}

// A copy of the object in a `std::tx_exception`.
fn copied_object(
    alloc: Global,
    env: &Env,
    nodes: &mut Vec<TNode>,
    at: At,
    exception: TNodeId,
    ty: &Ty,
) -> Result<TNodeId, AllocError>
    requires { exception.0 < length (trees_of nodes.old.items) }
    ensures { IfOk result (λ r. Adds (trees_of nodes.old.items) (trees_of nodes.new.items) r (copied_exception (ctx_of env.now) at (tree_at (trees_of nodes.old.items) exception) (typ_of ty.now))) }
{
    let ty = unqualified_type(alloc, ty)?;
    let copied = copies(alloc, env, nodes, at, &ty)?;
    add_binary(
        alloc,
        nodes,
        TKind::CopyFrom,
        ty,
        Cat::Prvalue,
        at,
        exception,
        copied,
    )
}

// The scalar in a `std::tx_exception`.
fn read_value(
    alloc: Global,
    nodes: &mut Vec<TNode>,
    at: At,
    exception: TNodeId,
    ty: &Ty,
) -> Result<TNodeId, AllocError>
    requires { exception.0 < length (trees_of nodes.old.items) }
    ensures { IfOk result (λ r. Adds (trees_of nodes.old.items) (trees_of nodes.new.items) r (read_exception at (tree_at (trees_of nodes.old.items) exception) (typ_of ty.now))) }
{
    let value = unqualified_type(alloc, ty)?;
    match kind_of(ty) {
        Some(kind) => {
            let load = TKind::Load {
                kind,
                volatile: false,
            };
            add_unary(alloc, nodes, load, value, Cat::Prvalue, at, exception)
        }
        None => retyped(alloc, nodes, at, value, Cat::Prvalue, exception),
    }
}

fn exception_value(
    alloc: Global,
    env: &Env,
    nodes: &mut Vec<TNode>,
    at: At,
    exception: TNodeId,
    ty: &Ty,
) -> Result<TNodeId, AllocError>
    requires { exception.0 < length (trees_of nodes.old.items) }
    ensures { IfOk result (λ r. Adds (trees_of nodes.old.items) (trees_of nodes.new.items) r (exception_value_of (ctx_of env.now) at (tree_at (trees_of nodes.old.items) exception) (typ_of ty.now))) }
{
    if is_class_type(ty) {
        copied_object(alloc, env, nodes, at, exception, ty)
    } else {
        read_value(alloc, nodes, at, exception, ty)
    }
}

// `get()` of a `std::tx_exception`, which is not volatile: the value in it.
fn call_get(
    alloc: Global,
    env: &Env,
    work: &mut Work,
    at: At,
    exception: TNodeId,
    os: &[Operand],
) -> Result<TNodeId, ElabFault>
    requires { exception.0 < length (trees_of work.old.nodes.items) }
    ensures { Makes (trees_of work.old.nodes.items) (trees_of work.new.nodes.items) (work_of work.new) result (call_get_of (ctx_of env.now) (work_of work.old) at (tree_at (trees_of work.old.nodes.items) exception) (operands_in (trees_of work.old.nodes.items) os.now)) }
{
    if !os.is_empty() {
        return Err(ill(at, IllRule::NoViable));
    }
    let Some(ty) = exception_type(alloc, &node_at(&work.nodes, exception).ty)? else {
        return Err(ill(at, IllRule::NotCallable));
    };
    if node_at(&work.nodes, exception).ty.is_volatile {
        return Err(ill(at, IllRule::NoViable));
    }
    let made = exception_value(alloc, env, &mut work.nodes, at, exception, &ty)?;
    Ok(made)
}

/// A call of what an expression names or gives.
pub fn call(
    alloc: Global,
    env: &Env,
    work: &mut Work,
    at: At,
    callee: Operand,
    os: &[Operand],
) -> Result<TNodeId, ElabFault>
    requires callee { callee.id.0 < length (trees_of work.old.nodes.items) }
    requires arguments { are_in (length (trees_of work.old.nodes.items)) os.now ≡ true }
    ensures { Makes (trees_of work.old.nodes.items) (trees_of work.new.nodes.items) (work_of work.new) result (call_of (ctx_of env.now) (work_of work.old) at (operand_in (trees_of work.old.nodes.items) callee) (operands_in (trees_of work.old.nodes.items) os.now)) }
{
    match form_at(&work.nodes, callee.id)? {
        CalleeForm::Free(func) => call_free(alloc, env, work, at, func, os),
        CalleeForm::Method(func, object) => { call_method(alloc, env, work, at, func, object, os) }
        CalleeForm::Get(exception) => call_get(alloc, env, work, at, exception, os),
        CalleeForm::Known(which) => call_abort(alloc, work, at, which, os),
        CalleeForm::Value => call_value(alloc, env, work, at, callee, os),
    }
}
