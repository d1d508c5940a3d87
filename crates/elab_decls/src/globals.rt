// Variables at file scope, with their initialisers (C++14 3.6.2, 8.5).

ghost use Rattle.std.specs.Prelude.{◌≡◌, ◌<◌, List, map, length, true, IfOk};
ghost use Rattle.elab_expr.specs.cpp_lex.Tokens.{lexemes_of};
ghost use Rattle.elab_expr.specs.cpp_ast.Orders.{are_below};
ghost use Rattle.elab_expr.specs.cpp_ast.Trees.{Tree};
ghost use Rattle.cpp_types.specs.Typ.{Typ, typ_of};
ghost use Rattle.elab_expr.specs.cpp_tree.Arena.{trees_of, tree_at as tree_in, Adds};
ghost use Rattle.elab_expr.specs.elab_ctx.Ctx.{ctx_of, work_of};
ghost use Rattle.elab_expr.specs.elab_ctx.Says.{Makes, Tells};
ghost use Rattle.elab_expr.specs.elab_rules.Statements.{Body};
ghost use Rattle.elab_expr.specs.elab_rules.Globals.{global_object as global_object_of, global_declared as global_declared_of, is_definition as is_definition_of};
ghost use Rattle.elab_expr.specs.elab_types.Syntax.{syntax_of, trees_at};
ghost use Rattle.elab_braces.specs.Forms.{object_by as object_by_of};
ghost use Rattle.class_members.specs.Shown.{Answers, storage_of};
ghost use Rattle.elab_decls.specs.Says.{definable as definable_of, celled as celled_of, global_made as global_made_of, state_of};

use crate::declarations::{define_global, global_declarable, global_named, is_trivial_class};
use class_members::Storage;
use cpp_types::{At, Cat, Ty, copy};
use elab_braces::object_by;
use elab_expr::below::{
    ElabFault, Env, IllRule, NodeId, Nodes, TKind, TNode, TNodeId, Tokens, Work, add_leaf,
    class_number, element_type, first_kid, ill, is_complete_type,
};
use elab_expr::copy_types;
use elab_globals::cells_of;
use std::alloc::{AllocError, Global};

// The object of a global.
fn global_object(
    alloc: Global,
    nodes: &mut Vec<TNode>,
    global: u32,
    ty: &Ty,
    at: At,
) -> Result<TNodeId, AllocError>
    ensures { IfOk result (λ r. Adds (trees_of nodes.old.items) (trees_of nodes.new.items) r (global_object_of global (typ_of ty.now) at)) }
{
    let ty = copy(alloc, ty)?;
    add_leaf(alloc, nodes, TKind::Global { global }, ty, Cat::Lvalue, at)
}

// Tests that a global of a type may be defined.
fn definable(alloc: Global, env: &Env, ty: &Ty, at: At) -> Result<bool, ElabFault>
    ensures { Tells result (definable_of (ctx_of env.now) (typ_of ty.now) at) }
{
    if !is_complete_type(env, ty) {
        return Err(ill(at, IllRule::Incomplete));
    }
    let element = element_type(alloc, ty)?;
    if !is_trivial_class(env, class_number(&element)) {
        return Err(ill(at, IllRule::NotConstant));
    }
    Ok(true)
}

// The first bytes of a global by what was made of its initialiser; the frame is as before.
fn celled(
    alloc: Global,
    env: &Env,
    work: &mut Work,
    frame: Vec<Ty>,
    place: u32,
    init: TNodeId,
) -> Result<(), ElabFault>
    requires { init.0 < length (trees_of work.old.nodes.items) }
    ensures { (t : Typ) → Answers (work_of work.new) result (celled_of (ctx_of env.now) place t (map typ_of frame.items) (record { tree = tree_in (trees_of work.old.nodes.items) init; work = work_of work.old })) }
{
    let cells = cells_of(alloc, env, work, init)?;
    work.frame = frame;
    define_global(work, place, cells);
    Ok(())
}

// What a global is initialised by.
fn global_from(
    alloc: Global,
    env: &Env,
    work: &mut Work,
    tokens: &Tokens,
    nodes: &Nodes,
    parent: NodeId,
    ids: &[NodeId],
    place: u32,
    ty: &Ty,
    at: At,
) -> Result<TNodeId, ElabFault>
    requires within { parent.0 < length nodes.now }
    requires lower { are_below parent.0 ids.now ≡ true }
    ensures { Makes (trees_of work.old.nodes.items) (trees_of work.new.nodes.items) (work_of work.new) result (object_by_of (lexemes_of tokens.now) (ctx_of env.now) (work_of work.old) (global_object_of place (typ_of ty.now) at) (typ_of ty.now) at (trees_at (syntax_of nodes.now) ids.now)) }
{
    let object = global_object(alloc, &mut work.nodes, place, ty, at)?;
    object_by(alloc, env, tokens, nodes, parent, ids, work, object, ty, at)
}

// The first bytes of a global, from its initialiser.
fn global_made(
    alloc: Global,
    env: &Env,
    work: &mut Work,
    tokens: &Tokens,
    nodes: &Nodes,
    parent: NodeId,
    ids: &[NodeId],
    place: u32,
    ty: &Ty,
    at: At,
) -> Result<(), ElabFault>
    requires within { parent.0 < length nodes.now }
    requires lower { are_below parent.0 ids.now ≡ true }
    ensures { Answers (work_of work.new) result (global_made_of (lexemes_of tokens.now) (ctx_of env.now) (work_of work.old) at (typ_of ty.now) (trees_at (syntax_of nodes.now) ids.now) place) }
{
    definable(alloc, env, ty, at)?;
    let frame = copy_types(alloc, &work.frame)?;
    let init = global_from(alloc, env, work, tokens, nodes, parent, ids, place, ty, at)?;
    celled(alloc, env, work, frame, place, init)
}

// Whether a declaration defines its variable (C++14 3.1).
fn is_definition(storage: Storage, ids: &[NodeId]) -> bool
    ensures { (trees : List Tree) → result ≡ is_definition_of (storage_of storage) (trees_at trees ids.now) }
{
    match first_kid(ids) {
        None => !storage.is_extern,
        Some(_) => true,
    }
}

/// A variable that is declared at file scope, with the kids of a node that are its initialiser, if it has one.
pub fn global_declared(
    alloc: Global,
    env: &mut Env,
    work: &mut Work,
    tokens: &Tokens,
    nodes: &Nodes,
    parent: NodeId,
    ids: &[NodeId],
    storage: Storage,
    at: At,
    name: &[u8],
    ty: &Ty,
) -> Result<(), ElabFault>
    requires within { parent.0 < length nodes.now }
    requires lower { are_below parent.0 ids.now ≡ true }
    ensures { (bodies : List Body) → Answers (state_of env.new work.new bodies) result (global_declared_of (lexemes_of tokens.now) (state_of env.old work.old bodies) (storage_of storage) at name.now (typ_of ty.now) (trees_at (syntax_of nodes.now) ids.now)) }
{
    global_declarable(env, at, name, ty)?;
    let defines = is_definition(storage, ids);
    let place = global_named(alloc, env, work, at, name, storage, ty, defines)?;
    if !defines {
        return Ok(());
    }
    global_made(alloc, env, work, tokens, nodes, parent, ids, place, ty, at)
}
