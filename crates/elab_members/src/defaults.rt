// Initialisers of members in the class (C++14 9.2 p5): elaborated as wholes, in a function of their own that has only
// `this`.

ghost use Rattle.std.specs.Prelude.{◌≡◌, ◌<◌, ℕ, List, length, map, drop, true, IfOk, OnOk};
ghost use Rattle.elab_entry.specs.cpp_types.Typ.{typ_of};
ghost use Rattle.elab_entry.specs.cpp_lex.Tokens.{Lexeme, lexemes_of};
ghost use Rattle.elab_entry.specs.cpp_ast.declared.arena.At.{At as SyntaxAt};
ghost use Rattle.elab_entry.specs.cpp_ast.Trees.{node as syntax_node, Trees as SyntaxTrees};
ghost use Rattle.elab_entry.specs.cpp_tree.Arena.{trees_of, tree_at as typed_at};
ghost use Rattle.elab_entry.specs.elab_ctx.Ctx.{Ctx, ctx_of};
ghost use Rattle.elab_entry.specs.elab_types.Syntax.{syntax_of, tree_at};
ghost use Rattle.elab_entry.specs.elab_scopes.States.{state_of, made, full_in};
ghost use Rattle.elab_entry.specs.elab_scopes.Says.{Changes, Does};
ghost use Rattle.elab_members.specs.Initialisers.{value_made as value_made_of, value_by as value_by_of, default_from, default_added, default_made as default_made_of, member_declared, member_by_token, default_of as default_of_of, are_known};

use crate::syntax::{initialiser_in, kids_in};
use elab_implicit::below::{
    DefaultInit, ElabFault, Env, Inside, MakeLambdas, NodeId, NodeKind, Nodes, Operand, State,
    TNodeId, Tokens, Ty, copy_initialised, copy_tree, elab_types_node_at as node_at, full,
    full_operand, is_char_array, leave_function, place, spelling, string_initialiser, string_token,
};
use elab_implicit::object::enter_object;
use elab_implicit::parts::{member_of_class, member_type};
use elab_implicit::places::stands;
use std::alloc::{AllocError, Global};

// By a value that was read.
fn value_made(alloc: Global, st: &mut State, ty: &Ty, o: Operand) -> Result<TNodeId, ElabFault>
    requires { o.id.0 < length (made st.old) }
    ensures { Does st.old st.new result (value_made_of (typ_of ty.now) (full_in st.old o)) }
{
    let init = copy_initialised(alloc, &st.env, &mut st.work, ty, o)?;
    let made = full(alloc, &mut st.work.nodes, o.at, init)?;
    st.env.closures.clear();
    Ok(made)
}

// By an expression.
fn by_value<L: MakeLambdas>(
    alloc: Global,
    lams: &L,
    tokens: &Tokens,
    nodes: &Nodes,
    st: &mut State,
    ty: &Ty,
    id: NodeId,
) -> Result<TNodeId, ElabFault>
    requires { id.0 < length nodes.now }
    ensures { Does st.old st.new result (value_by_of (L.lambdas lams.now) (lexemes_of tokens.now) (state_of st.old) (typ_of ty.now) (tree_at (syntax_of nodes.now) id)) }
{
    let o = full_operand(alloc, lams, tokens, nodes, id, st)?;
    value_made(alloc, st, ty, o)
}

// What a member of a type is initialised by.
fn default_value<L: MakeLambdas>(
    alloc: Global,
    lams: &L,
    tokens: &Tokens,
    nodes: &Nodes,
    st: &mut State,
    ty: &Ty,
    id: NodeId,
) -> Result<TNodeId, ElabFault>
    requires { id.0 < length nodes.now }
    ensures { Does st.old st.new result (default_from (L.lambdas lams.now) (lexemes_of tokens.now) (state_of st.old) (typ_of ty.now) (tree_at (syntax_of nodes.now) id)) }
{
    if !is_char_array(ty) {
        return by_value(alloc, lams, tokens, nodes, st, ty, id);
    }
    match string_token(nodes, id) {
        Some(token) => {
            let at = place(node_at(nodes, id).at);
            string_initialiser(alloc, &st.env, tokens, token, &mut st.work.nodes, ty, at)
        }
        None => by_value(alloc, lams, tokens, nodes, st, ty, id),
    }
}

// The items of a frame behind `this`.
fn behind_this(frame: Vec<Ty>) -> Vec<Ty>
    ensures { map typ_of result.items ≡ drop 1 (map typ_of frame.items) }
{
    let mut items = frame;
    if !items.is_empty() {
        let _this = items.remove(0);
    }
    items
}

// Tests that initialisers stand among the first nodes; one that does not counts as want of memory.
fn are_first(list: &[DefaultInit], count: usize) -> Result<(), AllocError>
    ensures { OnOk result (are_known count list.now ≡ true) }
{
    for found in list {
        if found.init.0 as usize >= count {
            return Err(AllocError);
        }
    }
    Ok(())
}

// Keeps the initialiser of a member.
fn keep_default(
    alloc: Global,
    env: &mut Env,
    class: u32,
    member: u32,
    inside: Inside,
    tree: TNodeId,
) -> Result<(), AllocError>
    ensures { OnOk result (ctx_of env.new ≡ default_added (ctx_of env.old) class member (typed_at (trees_of inside.nodes.items) tree) (drop 1 (map typ_of inside.frame.items))) }
{
    are_first(&env.defaults, env.default_nodes.len())?;
    stands(&inside.nodes, tree)?;
    let init = copy_tree(alloc, &inside.nodes, tree, &mut env.default_nodes)?;
    let frame = behind_this(inside.frame);
    env.defaults.push(DefaultInit {
        class,
        member,
        init,
        frame,
    })?;
    Ok(())
}

// The initialiser of a member of a type.
fn default_typed<L: MakeLambdas>(
    alloc: Global,
    lams: &L,
    tokens: &Tokens,
    nodes: &Nodes,
    st: &mut State,
    class: u32,
    member: u32,
    ty: &Ty,
    id: NodeId,
) -> Result<(), ElabFault>
    requires { id.0 < length nodes.now }
    ensures { Changes st.old st.new result (default_made_of (L.lambdas lams.now) (lexemes_of tokens.now) (state_of st.old) class member (typ_of ty.now) (tree_at (syntax_of nodes.now) id)) }
{
    let around = enter_object(alloc, st, class)?;
    let made = default_value(alloc, lams, tokens, nodes, st, ty, id);
    let inside = leave_function(st, around);
    keep_default(alloc, &mut st.env, class, member, inside, made?)?;
    Ok(())
}

// The token of a declarator of a member.
fn member_token(kind: NodeKind, token: Option<u32>) -> Option<u32>
    ensures { (s : List Lexeme) (c : Ctx) (n : ℕ) (at : SyntaxAt) (kids : SyntaxTrees) → member_declared s c n (syntax_node kind at token kids) ≡ member_by_token s c n result }
{
    match kind {
        NodeKind::MemberDeclarator => match token {
            Some(found) => Some(found),
            None => None,
        },
        _ => None,
    }
}

// The data member that a declarator declares, if it declares one.
fn declared_member(
    tokens: &Tokens,
    nodes: &Nodes,
    env: &Env,
    class: u32,
    id: NodeId,
) -> Result<Option<u32>, AllocError>
    requires { id.0 < length nodes.now }
    ensures { IfOk result (λ o. o ≡ member_declared (lexemes_of tokens.now) (ctx_of env.now) class (tree_at (syntax_of nodes.now) id)) }
{
    let node = node_at(nodes, id);
    match member_token(node.kind, node.token) {
        Some(token) => member_of_class(env, class, spelling(tokens, token)),
        None => Ok(None),
    }
}

/// The initialiser of a declarator, if it is a data member's and has one.
pub fn default_of<L: MakeLambdas>(
    alloc: Global,
    lams: &L,
    tokens: &Tokens,
    nodes: &Nodes,
    st: &mut State,
    class: u32,
    id: NodeId,
) -> Result<(), ElabFault>
    requires { id.0 < length nodes.now }
    ensures { Changes st.old st.new result (default_of_of (L.lambdas lams.now) (lexemes_of tokens.now) class (state_of st.old) (tree_at (syntax_of nodes.now) id)) }
{
    let Some(member) = declared_member(tokens, nodes, &st.env, class, id)? else {
        return Ok(());
    };
    match initialiser_in(nodes, kids_in(nodes, id)) {
        Some(value) => {
            let ty = member_type(alloc, &st.env, class, member)?;
            default_typed(alloc, lams, tokens, nodes, st, class, member, &ty, value)
        }
        None => Ok(()),
    }
}
