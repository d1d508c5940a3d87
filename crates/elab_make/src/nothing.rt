// Objects for which nothing is written (C++14 8.5 p12).

ghost use Rattle.elab_init.specs.cpp_types.Typ.{typ_of};
ghost use Rattle.elab_init.specs.cpp_tree.Typing.{form_in};
ghost use Rattle.elab_init.specs.cpp_tree.Arena.{trees_of};
ghost use Rattle.elab_init.specs.elab_ctx.Ctx.{ctx_of, special_of};
ghost use Rattle.elab_init.specs.elab_ctx.Says.{Gives};
ghost use Rattle.elab_init.specs.elab_rules.Initialising.{default_by as default_by_of, default_in as default_in_of, from_nothing as from_nothing_of};

use crate::each::each_by;
use elab_init::below::{At, ElabFault, Env, IllRule, Shape, Special, TKind, TNode, TNodeId, Ty};
use elab_init::{element_type, ill, makeable, traits_at, zeros};
use std::alloc::Global;

/// Objects of a class, or an array of them, by its default constructor.
pub fn default_by(
    alloc: Global,
    env: &Env,
    nodes: &mut Vec<TNode>,
    ty: &Ty,
    at: At,
    special: Special,
) -> Result<TNodeId, ElabFault>
    ensures { Gives (trees_of nodes.old.items) (trees_of nodes.new.items) result (default_by_of (ctx_of env.now) (typ_of ty.now) at (special_of special)) }
{
    match special {
        Special::Absent => Err(ill(at, IllRule::NoDefault)),
        Special::Trivial => {
            let made = zeros(alloc, env, nodes, at, ty)?;
            Ok(made)
        }
        Special::Function(func) => {
            let made = each_by(alloc, env, nodes, TKind::Construct { func }, ty, at)?;
            Ok(made)
        }
    }
}

// The same by the type of the elements.
fn default_in(
    alloc: Global,
    env: &Env,
    nodes: &mut Vec<TNode>,
    ty: &Ty,
    at: At,
    element: &Ty,
) -> Result<TNodeId, ElabFault>
    ensures { Gives (trees_of nodes.old.items) (trees_of nodes.new.items) result (default_in_of (ctx_of env.now) (typ_of ty.now) at (form_in (typ_of element.now))) }
{
    match &element.shape {
        Shape::Class(class) => {
            let _number = makeable(env, at, *class)?;
            let special = traits_at(env, *class).default;
            default_by(alloc, env, nodes, ty, at, special)
        }
        Shape::TxEx(_) | Shape::Closure(_) => Err(ill(at, IllRule::NoDefault)),
        Shape::Ref(_) => Err(ill(at, IllRule::BadInit)),
        Shape::Void => Err(ill(at, IllRule::BadDeclaration)),
        Shape::Func(_) => Err(ill(at, IllRule::OutOfProfile)),
        Shape::Int(_) | Shape::Enum { .. } | Shape::Null | Shape::Ptr(_) | Shape::Array(_, _) => {
            let made = zeros(alloc, env, nodes, at, ty)?;
            Ok(made)
        }
    }
}

/// What an object is initialised by where nothing is written; a scalar is zero.
pub fn from_nothing(
    alloc: Global,
    env: &Env,
    nodes: &mut Vec<TNode>,
    ty: &Ty,
    at: At,
) -> Result<TNodeId, ElabFault>
    ensures { Gives (trees_of nodes.old.items) (trees_of nodes.new.items) result (from_nothing_of (ctx_of env.now) (typ_of ty.now) at) }
{
    let element = element_type(alloc, ty)?;
    default_in(alloc, env, nodes, ty, at, &element)
}
