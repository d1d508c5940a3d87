// Items in braces, and braces in braces.

ghost use Rattle.std.specs.Prelude.{◌≡◌, ◌<◌, length, true};
ghost use Rattle.elab_expr.specs.cpp_lex.Tokens.{lexemes_of};
ghost use Rattle.elab_expr.specs.cpp_ast.Orders.{are_below};
ghost use Rattle.elab_expr.specs.cpp_types.Typ.{typ_of};
ghost use Rattle.elab_expr.specs.cpp_tree.Arena.{trees_of, tree_at as tree_in};
ghost use Rattle.elab_expr.specs.elab_ctx.Ctx.{ctx_of, work_of};
ghost use Rattle.elab_expr.specs.elab_ctx.Says.{Makes, MakesAll};
ghost use Rattle.elab_expr.specs.elab_rules.Braces.{item_of, items_of};
ghost use Rattle.elab_expr.specs.elab_init.Parts.{part_of};
ghost use Rattle.elab_expr.specs.elab_types.Syntax.{syntax_of, tree_at, trees_at};
ghost use Rattle.elab_braces.specs.ItemPieces.{placed_item as placed_item_of, item_piece as item_piece_of, braced as braced_of};

use crate::expressions::plain_item;
use elab_aggregates::{braceable, part_in, piece, pieces_made, rest_in};
use elab_expr::below::{
    At, ElabFault, Env, IllRule, NodeId, NodeKind, Nodes, ObjectPart, TNodeId, Tokens, Ty, Work,
    copy, elab_init_ill as ill, elab_types_node_at as node_at, keep, keep_all,
    node_at as typed_node_at, part_at, place,
};
use std::alloc::Global;

/// What an item, in braces or not, makes of an object of a type, which stands where an expression says.
#[cycle(items)]
pub fn item(
    alloc: Global,
    env: &Env,
    tokens: &Tokens,
    nodes: &Nodes,
    id: NodeId,
    work: &mut Work,
    object: TNodeId,
    ty: &Ty,
) -> Result<TNodeId, ElabFault>
    requires within { id.0 < length nodes.now }
    requires object { object.0 < length (trees_of work.old.nodes.items) }
    ensures { Makes (trees_of work.old.nodes.items) (trees_of work.new.nodes.items) (work_of work.new) result (item_of (lexemes_of tokens.now) (ctx_of env.now) (work_of work.old) (tree_in (trees_of work.old.nodes.items) object) (typ_of ty.now) (tree_at (syntax_of nodes.now) id)) }
{
    let node = node_at(nodes, id);
    match node.kind {
        NodeKind::BracedInitList => braced(
            alloc,
            env,
            tokens,
            nodes,
            id,
            &node.kids,
            work,
            object,
            ty,
            place(node.at),
        ),
        _ => plain_item(alloc, env, tokens, nodes, id, work, ty),
    }
}

// Braces with these items.
#[cycle(items)]
fn braced(
    alloc: Global,
    env: &Env,
    tokens: &Tokens,
    nodes: &Nodes,
    parent: NodeId,
    ids: &[NodeId],
    work: &mut Work,
    object: TNodeId,
    ty: &Ty,
    at: At,
) -> Result<TNodeId, ElabFault>
    requires within { parent.0 < length nodes.now }
    requires lower { are_below parent.0 ids.now ≡ true }
    requires object { object.0 < length (trees_of work.old.nodes.items) }
    ensures { Makes (trees_of work.old.nodes.items) (trees_of work.new.nodes.items) (work_of work.new) result (braced_of (lexemes_of tokens.now) (ctx_of env.now) (work_of work.old) (tree_in (trees_of work.old.nodes.items) object) (typ_of ty.now) at (trees_at (syntax_of nodes.now) ids.now)) }
{
    let _is_braceable = braceable(env, at, ty)?;
    let kids = items(alloc, env, tokens, nodes, parent, ids, work, object, ty, at)?;
    let made = pieces_made(alloc, &mut work.nodes, ty, at, kids)?;
    Ok(made)
}

// The items in braces, and the parts behind the last one.
#[cycle(items)]
fn items(
    alloc: Global,
    env: &Env,
    tokens: &Tokens,
    nodes: &Nodes,
    parent: NodeId,
    ids: &[NodeId],
    work: &mut Work,
    object: TNodeId,
    ty: &Ty,
    at: At,
) -> Result<Vec<TNodeId>, ElabFault>
    requires within { parent.0 < length nodes.now }
    requires lower { are_below parent.0 ids.now ≡ true }
    requires object { object.0 < length (trees_of work.old.nodes.items) }
    ensures { MakesAll (trees_of work.old.nodes.items) (trees_of work.new.nodes.items) (work_of work.new) result (items_of (lexemes_of tokens.now) (ctx_of env.now) (work_of work.old) (tree_in (trees_of work.old.nodes.items) object) (typ_of ty.now) 0 at (trees_at (syntax_of nodes.now) ids.now)) }
{
    let Ok(count) = u32::try_from(ids.len()) else {
        return Err(ElabFault::Memory);
    };
    let mut list = Vec::new(alloc);
    for index in 0..count {
        let id = ids[index as usize];
        let kid = item_piece(alloc, env, tokens, nodes, id, work, object, ty, index, at)?;
        keep(&mut list, kid)?;
    }
    let rest = rest_in(alloc, env, work, at, object, ty, count)?;
    keep_all(&mut list, &rest)?;
    Ok(list)
}

// An item as the part of an object that an index names.
#[cycle(items)]
fn item_piece(
    alloc: Global,
    env: &Env,
    tokens: &Tokens,
    nodes: &Nodes,
    id: NodeId,
    work: &mut Work,
    object: TNodeId,
    ty: &Ty,
    index: u32,
    at: At,
) -> Result<TNodeId, ElabFault>
    requires within { id.0 < length nodes.now }
    requires object { object.0 < length (trees_of work.old.nodes.items) }
    ensures { Makes (trees_of work.old.nodes.items) (trees_of work.new.nodes.items) (work_of work.new) result (item_piece_of (lexemes_of tokens.now) (ctx_of env.now) (work_of work.old) (tree_in (trees_of work.old.nodes.items) object) (typ_of ty.now) index at (tree_at (syntax_of nodes.now) id)) }
{
    let Some(part) = part_in(alloc, env, ty, index)? else {
        return Err(ill(place(node_at(nodes, id).at), IllRule::BadInit));
    };
    placed_item(alloc, env, tokens, nodes, id, work, object, at, &part)
}

// The same of a part that is there.
#[cycle(items)]
fn placed_item(
    alloc: Global,
    env: &Env,
    tokens: &Tokens,
    nodes: &Nodes,
    id: NodeId,
    work: &mut Work,
    object: TNodeId,
    at: At,
    part: &ObjectPart,
) -> Result<TNodeId, ElabFault>
    requires within { id.0 < length nodes.now }
    requires object { object.0 < length (trees_of work.old.nodes.items) }
    ensures { Makes (trees_of work.old.nodes.items) (trees_of work.new.nodes.items) (work_of work.new) result (placed_item_of (lexemes_of tokens.now) (ctx_of env.now) (work_of work.old) (tree_in (trees_of work.old.nodes.items) object) at (part_of part.now) (tree_at (syntax_of nodes.now) id)) }
{
    let ty = copy(alloc, &part.ty)?;
    let target = part_at(alloc, &mut work.nodes, part.offset, ty, at, object)?;
    let init = item(alloc, env, tokens, nodes, id, work, target, &part.ty)?;
    let place = typed_node_at(&work.nodes, init).at;
    let made = piece(
        alloc,
        env,
        &mut work.nodes,
        part.offset,
        &part.ty,
        place,
        init,
    )?;
    Ok(made)
}
