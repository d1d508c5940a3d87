// Bodies of functions (C++14 8.4).

ghost use Rattle.std.specs.Prelude.{◌≡◌, ◌<◌, ◌+◌, ◌++◌, ◌∷◌, [], length, map, option_map, true, IfOk, OnOk};
ghost use Rattle.cpp_types.specs.Typ.{typ_of};
ghost use Rattle.cpp_types.specs.Class.{classes_of};
ghost use Rattle.elab_stmt.specs.cpp_lex.Tokens.{lexemes_of};
ghost use Rattle.elab_stmt.specs.cpp_layout.Layout.{extent_of, end_from, next_multiple};
ghost use Rattle.elab_stmt.specs.cpp_tree.Arena.{trees_of, tree_at, trees_at, Adds};
ghost use Rattle.elab_stmt.specs.elab_ctx.Ctx.{ctx_of};
ghost use Rattle.elab_stmt.specs.elab_ctx.Says.{Tells, are_within};
ghost use Rattle.elab_stmt.specs.elab_rules.Objects.{followed_by};
ghost use Rattle.elab_stmt.specs.elab_rules.Statements.{block as block_of};
ghost use Rattle.elab_stmt.specs.elab_types.Syntax.{syntax_of, tree_at as syntax_at};
ghost use Rattle.elab_stmt.specs.elab_rules.Initialising.{signature_result};
ghost use Rattle.elab_stmt.specs.elab_rules.Functions.{within_frame as within_frame_of, end_of as end_of_typ};
ghost use Rattle.class_members.specs.Shown.{header_of};
ghost use Rattle.elab_stmt.specs.elab_scopes.States.{state_of, made, body_of};
ghost use Rattle.elab_stmt.specs.elab_scopes.Says.{Changes, Does};
ghost use Rattle.elab_entry.specs.Says.{Lists};
ghost use Rattle.elab_entry.specs.Bodies.{statements_in, body_kept, body_inside as body_inside_of, function_body as function_body_of};

use crate::around::{Inside, enter_function, leave_function};
use crate::copying::copy_tree;
use crate::ends::end_of;
use crate::parameters::with_parameters;
use class_members::Header;
use cpp_types::{At, Ty};
use elab_stmt::below::{
    Body, ElabFault, Env, GREATEST_FRAME, IllRule, LimitKind, MakeLambdas, NodeId, Nodes, State,
    TNodeId, Tokens, block, elab_types_node_at as node_at, extent, ill, is_complete_type, place,
};
use elab_stmt::statements;
use std::alloc::{AllocError, Global};

// The end of an item behind others. What does not end below 2 to the 64 counts as want of memory.
fn item_end(env: &Env, end: u64, item: &Ty) -> Result<u64, AllocError>
    ensures { IfOk result (λ e. e ≡ next_multiple end (extent_of (classes_of env.now.classes.items) (typ_of item.now)).align + (extent_of (classes_of env.now.classes.items) (typ_of item.now)).size) }
{
    let found = extent(env, item)?;
    let align = u64::from(found.align);
    let Some(over) = end.checked_add(align - 1) else {
        return Err(AllocError);
    };
    let start = over / align * align;
    let Some(next) = start.checked_add(u64::from(found.size)) else {
        return Err(AllocError);
    };
    Ok(next)
}

// The end of items one behind the other.
fn items_end(env: &Env, items: &[Ty]) -> Result<u64, AllocError>
    ensures { IfOk result (λ e. e ≡ end_from 0 (map (extent_of (classes_of env.now.classes.items)) (map typ_of items.now))) }
{
    let mut end: u64 = 0;
    for item in items {
        let next = item_end(env, end, item)?;
        end = next;
    }
    Ok(end)
}

// Tests that a frame of these items is not too large (profile).
fn within_frame(env: &Env, at: At, items: &[Ty]) -> Result<bool, ElabFault>
    ensures { Tells result (within_frame_of (ctx_of env.now) at (map typ_of items.now)) }
{
    let end = items_end(env, items)?;
    if end > u64::from(GREATEST_FRAME) {
        return Err(ElabFault::Limit {
            at,
            which: LimitKind::Frame,
        });
    }
    Ok(true)
}

// Keeps a body with a copy of its tree.
fn keep_body(
    alloc: Global,
    bodies: &mut Vec<Body>,
    func: u32,
    inside: Inside,
    tree: TNodeId,
) -> Result<(), AllocError>
    ensures { OnOk result (map body_of bodies.new.items ≡ map body_of bodies.old.items ++ record { func = func; tree = tree_at (trees_of inside.nodes.items) tree; frame = map typ_of inside.frame.items } ∷ []) }
{
    // It stands there.
    if tree.0 as usize >= inside.nodes.len() {
        return Err(AllocError);
    }
    let mut nodes = Vec::new(alloc);
    let tree = copy_tree(alloc, &inside.nodes, tree, &mut nodes)?;
    bodies.push(Body {
        func,
        nodes,
        tree,
        frame: inside.frame,
    })?;
    Ok(())
}

/// Keeps the body of a function, whose tree stands among what was made inside.
pub fn body_made(
    alloc: Global,
    st: &mut State,
    at: At,
    func: u32,
    inside: Inside,
    tree: TNodeId,
) -> Result<(), ElabFault>
    ensures { Changes st.old st.new result (body_kept (state_of st.old) at func (tree_at (trees_of inside.nodes.items) tree) (map typ_of inside.frame.items)) }
{
    within_frame(&st.env, at, &inside.frame)?;
    keep_body(alloc, &mut st.bodies, func, inside, tree)?;
    Ok(())
}

// The type of a result.
#[tactic(auto, using(cpp_types::proofs::Views::signature_view))]
fn result_type(header: &Header) -> &Ty
    ensures { typ_of result.now ≡ signature_result (header_of header.now).signature }
{
    &header.ty.ret
}

// Statements as one block, with the end of the body behind them.
fn ended_block(
    alloc: Global,
    st: &mut State,
    ret: &Ty,
    at: At,
    list: Vec<TNodeId>,
) -> Result<TNodeId, AllocError>
    requires { are_within (length (made st.old)) list.items ≡ true }
    ensures is { state_of st.new ≡ state_of st.old }
    ensures tree { IfOk result (λ r. Adds (made st.old) (made st.new) r (block_of at (followed_by (trees_at (made st.old) list.items) (end_of_typ (ctx_of st.old.env) (typ_of ret.now) at)))) }
{
    let mut list = list;
    end_of(alloc, &st.env, &mut st.work.nodes, ret, at, &mut list)?;
    block(&mut st.work.nodes, at, list)
}

// The statements of a body, one behind the other.
fn statements_inside<L: MakeLambdas>(
    alloc: Global,
    lams: &L,
    tokens: &Tokens,
    nodes: &Nodes,
    st: &mut State,
    body: NodeId,
) -> Result<Vec<TNodeId>, ElabFault>
    requires { body.0 < length nodes.now }
    ensures { Lists st.old st.new result (statements_in (L.lambdas lams.now) (lexemes_of tokens.now) (state_of st.old) (syntax_at (syntax_of nodes.now) body)) }
{
    let mut list = Vec::new(alloc);
    let kids = &node_at(nodes, body).kids;
    statements(alloc, lams, tokens, nodes, body, kids, st, &mut list)?;
    Ok(list)
}

// The statements of a body and its end, in the scope of its parameters.
fn body_inside<L: MakeLambdas>(
    alloc: Global,
    lams: &L,
    tokens: &Tokens,
    nodes: &Nodes,
    st: &mut State,
    header: &Header,
    body: NodeId,
) -> Result<TNodeId, ElabFault>
    requires { body.0 < length nodes.now }
    ensures { Does st.old st.new result (body_inside_of (L.lambdas lams.now) (lexemes_of tokens.now) (state_of st.old) (header_of header.now) (syntax_at (syntax_of nodes.now) body)) }
{
    let ret = result_type(header);
    with_parameters(alloc, tokens, st, &header.params)?;
    let list = statements_inside(alloc, lams, tokens, nodes, st, body)?;
    let at = place(node_at(nodes, body).at);
    let made = ended_block(alloc, st, ret, at, list)?;
    Ok(made)
}

/// The body of a function that is no constructor and no destructor.
pub fn function_body<L: MakeLambdas>(
    alloc: Global,
    lams: &L,
    tokens: &Tokens,
    nodes: &Nodes,
    st: &mut State,
    header: &Header,
    this: Option<Ty>,
    func: u32,
    body: NodeId,
) -> Result<(), ElabFault>
    requires { body.0 < length nodes.now }
    ensures { Changes st.old st.new result (function_body_of (L.lambdas lams.now) (lexemes_of tokens.now) (state_of st.old) (header_of header.now) (option_map typ_of this) func (syntax_at (syntax_of nodes.now) body)) }
{
    let ret = result_type(header);
    if !is_complete_type(&st.env, ret) {
        return Err(ill(header.at, IllRule::Incomplete));
    }
    let around = enter_function(alloc, st, ret, this, header.class)?;
    let made = body_inside(alloc, lams, tokens, nodes, st, header, body);
    let inside = leave_function(st, around);
    body_made(alloc, st, header.at, func, inside, made?)
}
