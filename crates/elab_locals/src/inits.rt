// Nodes of variables and their initialisers (C++14 8.5).

ghost use Rattle.std.specs.Prelude.{◌≡◌, ◌<◌, ◌∷◌, length, IfOk};
ghost use Rattle.elab_scopes.specs.cpp_types.Typ.{typ_of};
ghost use Rattle.elab_scopes.specs.cpp_types.declared.ranks.Cat.TheVariants.{Lvalue};
ghost use Rattle.elab_scopes.specs.cpp_tree.declared.kinds.TKind.TheVariants.{Local};
ghost use Rattle.elab_scopes.specs.cpp_tree.Trees.{node, none};
ghost use Rattle.elab_scopes.specs.cpp_tree.Arena.{trees_of, tree_at, Adds};
ghost use Rattle.elab_scopes.specs.elab_ctx.Ctx.{ctx_of};
ghost use Rattle.elab_locals.specs.Inits.{init_in as init_in_of};

use elab_scopes::below::{
    At, Cat, Env, TKind, TNode, TNodeId, Ty, add_leaf, copy, destroys, keep, keep_all,
};
use elab_scopes::full::full;
use elab_scopes::nodes::statement;
use std::alloc::{AllocError, Global};

/// A variable, which stands in a place of the frame.
pub fn local(
    alloc: Global,
    nodes: &mut Vec<TNode>,
    place: u32,
    ty: &Ty,
    at: At,
) -> Result<TNodeId, AllocError>
    ensures { IfOk result (λ r. Adds (trees_of nodes.old.items) (trees_of nodes.new.items) r (node (Local place) (typ_of ty.now) Lvalue at none)) }
{
    let ty = copy(alloc, ty)?;
    add_leaf(alloc, nodes, TKind::Local { place }, ty, Cat::Lvalue, at)
}

// A variable, its initialiser, and its destructions.
fn init_kids(
    alloc: Global,
    variable: TNodeId,
    init: TNodeId,
    ends: &[TNodeId],
) -> Result<Vec<TNodeId>, AllocError>
    ensures { IfOk result (λ v. v.items ≡ variable ∷ init ∷ ends.now) }
{
    let mut kids = Vec::new(alloc);
    keep(&mut kids, variable)?;
    keep(&mut kids, init)?;
    keep_all(&mut kids, ends)?;
    Ok(kids)
}

/// A variable with its initialiser, which stands as a whole at a place.
pub fn init_node(
    alloc: Global,
    env: &Env,
    nodes: &mut Vec<TNode>,
    ty: &Ty,
    at: At,
    whole: At,
    variable: TNodeId,
    init: TNodeId,
) -> Result<TNodeId, AllocError>
    requires variable { variable.0 < length (trees_of nodes.old.items) }
    requires init { init.0 < length (trees_of nodes.old.items) }
    ensures { IfOk result (λ r. Adds (trees_of nodes.old.items) (trees_of nodes.new.items) r (init_in_of (ctx_of env.now) (typ_of ty.now) at whole (tree_at (trees_of nodes.old.items) variable) (tree_at (trees_of nodes.old.items) init))) }
{
    let init = full(alloc, nodes, whole, init)?;
    let ends = destroys(alloc, env, nodes, at, ty)?;
    let kids = init_kids(alloc, variable, init, &ends)?;
    statement(nodes, TKind::Init, at, kids)
}
