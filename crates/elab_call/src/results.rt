// Calls as typed nodes (C++14 5.2.2).

ghost use Rattle.std.specs.Prelude.{◌≡◌, ◌<◌, ◌∷◌, length, true, IfOk};
ghost use Rattle.cpp_types.specs.Typ.{typ_of, signature_of};
ghost use Rattle.elab_make.specs.cpp_tree.Trees.{Trees, none, one, more};
ghost use Rattle.elab_make.specs.cpp_tree.Arena.{trees_of, tree_at, trees_at, Adds};
ghost use Rattle.elab_make.specs.elab_ctx.Ctx.{ctx_of, work_of};
ghost use Rattle.elab_make.specs.elab_ctx.Operands.{operands_in, are_in};
ghost use Rattle.elab_make.specs.elab_ctx.Says.{Makes, Tells};
ghost use Rattle.elab_make.specs.elab_rules.Calls.{result_category as result_category_of, result_type as result_type_of, call_node as call_node_of, complete_result as complete_result_of, called as called_of};

use cpp_types::{At, Cat, FnTy, Shape, Ty, copy};
use elab_make::below::{
    ElabFault, Env, IllRule, Operand, TKind, TNode, TNodeId, Work, add_node, completion,
    unqualified_type,
};
use elab_make::words;
use elab_names::parts::ill;
use std::alloc::{AllocError, Global};

fn result_category(ty: &Ty) -> Cat
    ensures { result ≡ result_category_of (typ_of ty.now) }
{
    match &ty.shape {
        Shape::Ref(_) => Cat::Lvalue,
        _ => Cat::Prvalue,
    }
}

// What a call gives: what a reference refers to, a class as it is, a scalar without qualifiers.
fn result_type(alloc: Global, ty: &Ty) -> Result<Ty, AllocError>
    ensures { IfOk result (λ t. typ_of t ≡ result_type_of (typ_of ty.now)) }
{
    match &ty.shape {
        Shape::Ref(target) => copy(alloc, target),
        Shape::Class(_) | Shape::Closure(_) | Shape::TxEx(_) => copy(alloc, ty),
        Shape::Void
        | Shape::Int(_)
        | Shape::Enum { .. }
        | Shape::Null
        | Shape::Ptr(_)
        | Shape::Array(_, _)
        | Shape::Func(_) => unqualified_type(alloc, ty),
    }
}

// A call that passes these words.
fn call_node(
    alloc: Global,
    nodes: &mut Vec<TNode>,
    at: At,
    kind: TKind,
    given: &Ty,
    words: Vec<TNodeId>,
) -> Result<TNodeId, AllocError>
    ensures { IfOk result (λ r. Adds (trees_of nodes.old.items) (trees_of nodes.new.items) r (call_node_of at kind (typ_of given.now) (trees_at (trees_of nodes.old.items) words.items))) }
{
    let cat = result_category(given);
    let ty = result_type(alloc, given)?;
    add_node(
        nodes,
        TNode {
            kind,
            ty,
            cat,
            at,
            kids: words,
        },
    )
}

// A class that is given is complete.
fn complete_result(env: &Env, at: At, ty: &Ty) -> Result<bool, ElabFault>
    ensures { Tells result (complete_result_of (ctx_of env.now) at (typ_of ty.now)) }
{
    let Shape::Class(class) = &ty.shape else {
        return Ok(true);
    };
    if completion(env, *class).is_none() {
        return Err(ill(at, IllRule::Incomplete));
    }
    Ok(true)
}

/// A call with these arguments, of a function of this type.
#[tactic(auto, using(cpp_types::proofs::Views::signature_view))]
pub fn called(
    alloc: Global,
    env: &Env,
    work: &mut Work,
    at: At,
    kind: TKind,
    ty: &FnTy,
    os: &[Operand],
) -> Result<TNodeId, ElabFault>
    requires { are_in (length (trees_of work.old.nodes.items)) os.now ≡ true }
    ensures { Makes (trees_of work.old.nodes.items) (trees_of work.new.nodes.items) (work_of work.new) result (called_of (ctx_of env.now) (work_of work.old) at kind (signature_of ty.now) none (operands_in (trees_of work.old.nodes.items) os.now)) }
{
    let _complete = complete_result(env, at, &ty.ret)?;
    let passed = words(alloc, env, work, &ty.params, os)?;
    let made = call_node(alloc, &mut work.nodes, at, kind, &ty.ret, passed)?;
    Ok(made)
}

// The words behind an object.
fn behind(alloc: Global, object: TNodeId, words: &[TNodeId]) -> Result<Vec<TNodeId>, AllocError>
    ensures { IfOk result (λ v. v.items ≡ object ∷ words.now) }
{
    let mut all = Vec::new(alloc);
    all.push(object)?;
    all.extend_from_slice(words)?;
    Ok(all)
}

/// The same with an object, or a pointer to the function, as the first word.
#[tactic(auto, using(cpp_types::proofs::Views::signature_view))]
pub fn called_on(
    alloc: Global,
    env: &Env,
    work: &mut Work,
    at: At,
    kind: TKind,
    ty: &FnTy,
    object: TNodeId,
    os: &[Operand],
) -> Result<TNodeId, ElabFault>
    requires object { object.0 < length (trees_of work.old.nodes.items) }
    requires arguments { are_in (length (trees_of work.old.nodes.items)) os.now ≡ true }
    ensures { Makes (trees_of work.old.nodes.items) (trees_of work.new.nodes.items) (work_of work.new) result (called_of (ctx_of env.now) (work_of work.old) at kind (signature_of ty.now) (one (tree_at (trees_of work.old.nodes.items) object)) (operands_in (trees_of work.old.nodes.items) os.now)) }
{
    let _complete = complete_result(env, at, &ty.ret)?;
    let passed = words(alloc, env, work, &ty.params, os)?;
    let all = behind(alloc, object, &passed)?;
    let made = call_node(alloc, &mut work.nodes, at, kind, &ty.ret, all)?;
    Ok(made)
}
