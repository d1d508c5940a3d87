// One function for those that an expression names, where it is no call (C++14 13.4).

ghost use Rattle.std.specs.Prelude.{◌≡◌, ◌<◌, ◌∷◌, [], length, IfOk};
ghost use Rattle.elab_conv.specs.cpp_types.Typ.{typ_of, signature_of, func};
ghost use Rattle.elab_conv.specs.cpp_tree.Notation.{plain};
ghost use Rattle.elab_conv.specs.cpp_types.Conversion.{is_lvalue as is_lvalue_of};
ghost use Rattle.elab_conv.specs.cpp_tree.Trees.{none};
ghost use Rattle.elab_conv.specs.cpp_tree.Typing.{is_void as is_void_typ};
ghost use Rattle.elab_conv.specs.cpp_tree.Arena.{trees_of, tree_at};
ghost use Rattle.elab_conv.specs.elab_ctx.Ctx.{ctx_of};
ghost use Rattle.elab_conv.specs.elab_ctx.Says.{Gives};
ghost use Rattle.elab_conv.specs.elab_rules.Names.{only_function, resolved_function, resolved as resolved_of};
ghost use Rattle.elab_conv.specs.elab_rules.Initialising.{func_at};
ghost use Rattle.elab_names.specs.Callees.{callee_in};

use crate::functions::free_places;
use crate::parts::{ill, plain_type};
use elab_conv::below::{
    At, Builtin, Cat, ElabFault, Env, FnTy, IllRule, Shape, TKind, TNode, TNodeId, Ty, add_leaf,
    copy_function, function_at, kids_at, node_at,
};
use std::alloc::{AllocError, Global};

/// What an expression names, where it is called or taken as a value.
#[derive(Clone, Copy)]
pub enum Callee {
    /// Functions of one name, of which one is given.
    Functions(u32),
    /// `get` of a `std::tx_exception`.
    Get,
    /// A function that every unit knows.
    Known(Builtin),
    /// A value.
    Value,
}

fn is_void(ty: &Ty) -> bool
    ensures { result ≡ is_void_typ (typ_of ty.now) }
{
    matches!(ty.shape, Shape::Void)
}

fn is_lvalue(cat: Cat) -> bool
    ensures { result ≡ is_lvalue_of cat }
{
    match cat {
        Cat::Lvalue => true,
        Cat::Prvalue => false,
    }
}

/// What an expression of this kind, type and category names.
pub fn callee_of(kind: TKind, ty: &Ty, cat: Cat) -> Callee
    ensures { result ≡ callee_in kind (typ_of ty.now) cat }
{
    let names = is_void(ty) && is_lvalue(cat);
    match kind {
        TKind::Function { func } => {
            if names {
                Callee::Functions(func)
            } else {
                Callee::Value
            }
        }
        TKind::Default => Callee::Get,
        TKind::Builtin { which } => {
            if names {
                Callee::Known(which)
            } else {
                Callee::Value
            }
        }
        _ => Callee::Value,
    }
}

/// The name of a function.
pub fn name_at(env: &Env, func: u32) -> &[u8]
    ensures { result.now ≡ (func_at (ctx_of env.now).funcs func).declared.name }
{
    match env.funcs.get(func as usize) {
        Some(found) => &found.rec.name,
        None => &[],
    }
}

fn function_type(alloc: Global, signature: &FnTy) -> Result<Ty, AllocError>
    ensures { IfOk result (λ t. typ_of t ≡ plain (func (signature_of signature.now))) }
{
    let found = copy_function(alloc, signature)?;
    let found = Box::new(alloc, found)?;
    Ok(plain_type(Shape::Func(found)))
}

// A function as an expression. No place is asked for where none stands.
fn function_value(
    alloc: Global,
    env: &Env,
    nodes: &mut Vec<TNode>,
    at: At,
    func: u32,
) -> Result<TNodeId, ElabFault>
    ensures { Gives (trees_of nodes.old.items) (trees_of nodes.new.items) result (only_function (ctx_of env.now) at func (func ∷ [])) }
{
    let Some(found) = function_at(env, func) else {
        return Err(ElabFault::Memory);
    };
    if found.builtin.is_some() {
        return Err(ill(at, IllRule::OutOfProfile));
    }
    let ty = function_type(alloc, &found.rec.ty)?;
    let kind = TKind::Function { func };
    let made = add_leaf(alloc, nodes, kind, ty, Cat::Lvalue, at)?;
    Ok(made)
}

// The one function at file scope of the name that a function has.
fn free_function(
    alloc: Global,
    env: &Env,
    nodes: &mut Vec<TNode>,
    at: At,
    func: u32,
) -> Result<TNodeId, ElabFault>
    ensures { Gives (trees_of nodes.old.items) (trees_of nodes.new.items) result (resolved_function (ctx_of env.now) at func none) }
{
    let places = free_places(alloc, &env.funcs, name_at(env, func))?;
    if places.len() != 1 {
        return Err(ill(at, IllRule::Ambiguous));
    }
    function_value(alloc, env, nodes, at, places[0])
}

/// An expression that names functions as the one function, and every other one as it is.
pub fn resolved(
    alloc: Global,
    env: &Env,
    nodes: &mut Vec<TNode>,
    id: TNodeId,
) -> Result<TNodeId, ElabFault>
    requires { id.0 < length (trees_of nodes.old.items) }
    ensures { Gives (trees_of nodes.old.items) (trees_of nodes.new.items) result (resolved_of (ctx_of env.now) (tree_at (trees_of nodes.old.items) id)) }
{
    let node = node_at(nodes, id);
    let at = node.at;
    match callee_of(node.kind, &node.ty, node.cat) {
        Callee::Functions(func) => {
            if !kids_at(nodes, id)?.is_empty() {
                return Err(ill(at, IllRule::BadOperand));
            }
            free_function(alloc, env, nodes, at, func)
        }
        Callee::Get => Err(ill(at, IllRule::BadOperand)),
        Callee::Known(_) => Err(ill(at, IllRule::OutOfProfile)),
        Callee::Value => Ok(id),
    }
}
