// Objects of classes from one expression (C++14 8.5 p17, 12.8).

ghost use Rattle.std.specs.Prelude.{◌≡◌, IfOk};
ghost use Rattle.cpp_types.specs.Typ.{typ_of};
ghost use Rattle.elab_conv.specs.cpp_tree.Trees.{node};
ghost use Rattle.elab_conv.specs.cpp_tree.Arena.{trees_of, trees_at, Adds};
ghost use Rattle.elab_conv.specs.elab_ctx.Ctx.{ctx_of};
ghost use Rattle.elab_conv.specs.elab_ctx.Says.{Tells};
ghost use Rattle.elab_conv.specs.elab_rules.Initialising.{makeable as makeable_of};

use crate::types::traits_at;
use cpp_types::{At, Cat, Ty, copy};
use elab_conv::below::{ElabFault, Env, IllRule, TKind, TNode, TNodeId, add_node, completion};
use std::alloc::{AllocError, Global};

/// A fault at a place.
pub fn ill(at: At, rule: IllRule) -> ElabFault
    ensures { result ≡ ElabFault.Ill at rule }
{
    ElabFault::Ill { at, rule }
}

/// A class of which objects are made: complete, and not abstract. The answer is how many classes were completed before.
pub fn makeable(env: &Env, at: At, class: u32) -> Result<u32, ElabFault>
    ensures { Tells result (makeable_of (ctx_of env.now) at class) }
{
    let Some(number) = completion(env, class) else {
        return Err(ill(at, IllRule::Incomplete));
    };
    if traits_at(env, class).is_abstract {
        return Err(ill(at, IllRule::AbstractObject));
    }
    Ok(number)
}

/// An object that a constructor builds, with these words behind `this`.
pub fn construct(
    alloc: Global,
    nodes: &mut Vec<TNode>,
    func: u32,
    ty: &Ty,
    at: At,
    kids: Vec<TNodeId>,
) -> Result<TNodeId, AllocError>
    ensures { IfOk result (λ r. Adds (trees_of nodes.old.items) (trees_of nodes.new.items) r (node (TKind.Construct func) (typ_of ty.now) Cat.Prvalue at (trees_at (trees_of nodes.old.items) kids.items))) }
{
    let ty = copy(alloc, ty)?;
    add_node(
        nodes,
        TNode {
            kind: TKind::Construct { func },
            ty,
            cat: Cat::Prvalue,
            at,
            kids,
        },
    )
}
