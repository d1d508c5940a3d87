// Variables with the initialisers that are written (C++14 8.5).

ghost use Rattle.std.specs.Prelude.{◌≡◌, ◌<◌, length, true};
ghost use Rattle.elab_scopes.specs.cpp_lex.Tokens.{lexemes_of};
ghost use Rattle.elab_scopes.specs.cpp_ast.Orders.{are_below};
ghost use Rattle.elab_scopes.specs.cpp_types.Typ.{typ_of};
ghost use Rattle.elab_scopes.specs.cpp_tree.Arena.{tree_at as tree_in};
ghost use Rattle.elab_scopes.specs.elab_ctx.Ctx.{work_of};
ghost use Rattle.elab_scopes.specs.elab_ctx.Operands.{operands_in, are_in};
ghost use Rattle.elab_scopes.specs.elab_rules.Braces.{is_char_array as is_char_array_of, string_token as string_token_of};
ghost use Rattle.elab_scopes.specs.elab_types.Syntax.{syntax_of, tree_at, trees_at};
ghost use Rattle.elab_scopes.specs.States.{state_of, made, full_in};
ghost use Rattle.elab_scopes.specs.Says.{Does};
ghost use Rattle.elab_braces.specs.Forms.{form_of, shown_in, IsLower};
ghost use Rattle.elab_locals.specs.Inits.{nothing_made as nothing_made_of, expression_made as expression_made_of, by_value_in, by_string_in, by_expression_in, values_made as values_made_of, kids_read, by_values_in, braces_made as braces_made_of, by_braces_in, initialised_by};

use crate::inits::init_node;
use elab_aggregates::{is_char_array, string_token};
use elab_braces::{
    Written, copy_initialised, default_object, directly_initialised, item, read_initialiser,
    string_initialiser, values_place,
};
use elab_scopes::below::{
    At, ElabFault, IllRule, NodeId, Nodes, Operand, TNodeId, Tokens, Ty,
    elab_types_node_at as node_at, ill, place,
};
use elab_scopes::full::{all_lambdas, full_operand};
use elab_scopes::reading::values;
use elab_scopes::{MakeLambdas, State};
use std::alloc::Global;

// Without an initialiser.
fn nothing_made(
    alloc: Global,
    st: &mut State,
    variable: TNodeId,
    ty: &Ty,
    at: At,
) -> Result<TNodeId, ElabFault>
    requires { variable.0 < length (made st.old) }
    ensures { Does st.old st.new result (nothing_made_of (tree_in (made st.old) variable) (state_of st.old) (typ_of ty.now) at) }
{
    let init = default_object(alloc, &st.env, &mut st.work.nodes, ty, at)?;
    let made = init_node(
        alloc,
        &st.env,
        &mut st.work.nodes,
        ty,
        at,
        at,
        variable,
        init,
    )?;
    Ok(made)
}

// By an expression that was read.
fn expression_made(
    alloc: Global,
    st: &mut State,
    variable: TNodeId,
    ty: &Ty,
    at: At,
    o: Operand,
) -> Result<TNodeId, ElabFault>
    requires variable { variable.0 < length (made st.old) }
    requires operand { o.id.0 < length (made st.old) }
    ensures { Does st.old st.new result (expression_made_of (typ_of ty.now) at (tree_in (made st.old) variable) (full_in st.old o)) }
{
    let init = copy_initialised(alloc, &st.env, &mut st.work, ty, o)?;
    let made = init_node(
        alloc,
        &st.env,
        &mut st.work.nodes,
        ty,
        at,
        o.at,
        variable,
        init,
    )?;
    st.env.closures.clear();
    Ok(made)
}

// By an expression.
fn by_value<L: MakeLambdas>(
    alloc: Global,
    lams: &L,
    tokens: &Tokens,
    nodes: &Nodes,
    id: NodeId,
    st: &mut State,
    variable: TNodeId,
    ty: &Ty,
    at: At,
) -> Result<TNodeId, ElabFault>
    requires within { id.0 < length nodes.now }
    requires variable { variable.0 < length (made st.old) }
    ensures { Does st.old st.new result (by_value_in (L.lambdas lams.now) (lexemes_of tokens.now) (tree_in (made st.old) variable) (state_of st.old) (typ_of ty.now) at (tree_at (syntax_of nodes.now) id)) }
{
    let o = full_operand(alloc, lams, tokens, nodes, id, st)?;
    expression_made(alloc, st, variable, ty, at, o)
}

// By a string.
fn by_string(
    alloc: Global,
    tokens: &Tokens,
    token: u32,
    st: &mut State,
    variable: TNodeId,
    ty: &Ty,
    at: At,
    whole: At,
) -> Result<TNodeId, ElabFault>
    requires { variable.0 < length (made st.old) }
    ensures { Does st.old st.new result (by_string_in (lexemes_of tokens.now) (tree_in (made st.old) variable) (state_of st.old) (typ_of ty.now) at whole token) }
{
    let init = string_initialiser(alloc, &st.env, tokens, token, &mut st.work.nodes, ty, whole)?;
    let made = init_node(
        alloc,
        &st.env,
        &mut st.work.nodes,
        ty,
        at,
        whole,
        variable,
        init,
    )?;
    Ok(made)
}

// By what stands behind `=`, where that is not in braces.
fn by_expression<L: MakeLambdas>(
    alloc: Global,
    lams: &L,
    tokens: &Tokens,
    nodes: &Nodes,
    id: NodeId,
    st: &mut State,
    variable: TNodeId,
    ty: &Ty,
    at: At,
) -> Result<TNodeId, ElabFault>
    requires within { id.0 < length nodes.now }
    requires variable { variable.0 < length (made st.old) }
    ensures { Does st.old st.new result (by_expression_in (L.lambdas lams.now) (lexemes_of tokens.now) (tree_in (made st.old) variable) (state_of st.old) (typ_of ty.now) at (tree_at (syntax_of nodes.now) id) (is_char_array_of (typ_of ty.now)) (string_token_of (tree_at (syntax_of nodes.now) id))) }
{
    if !is_char_array(ty) {
        return by_value(alloc, lams, tokens, nodes, id, st, variable, ty, at);
    }
    match string_token(nodes, id) {
        Some(token) => {
            let whole = place(node_at(nodes, id).at);
            by_string(alloc, tokens, token, st, variable, ty, at, whole)
        }
        None => by_value(alloc, lams, tokens, nodes, id, st, variable, ty, at),
    }
}

// By values that were read.
fn values_made(
    alloc: Global,
    st: &mut State,
    variable: TNodeId,
    ty: &Ty,
    at: At,
    place: At,
    os: &[Operand],
) -> Result<TNodeId, ElabFault>
    requires variable { variable.0 < length (made st.old) }
    requires operands { are_in (length (made st.old)) os.now ≡ true }
    ensures { Does st.old st.new result (values_made_of (state_of st.old) (typ_of ty.now) at (tree_in (made st.old) variable) place (record { operands = operands_in (made st.old) os.now; work = work_of st.old.work })) }
{
    let whole = values_place(&st.work.nodes, ty, at, os);
    let init = directly_initialised(alloc, &st.env, &mut st.work, ty, at, os)?;
    let made = init_node(
        alloc,
        &st.env,
        &mut st.work.nodes,
        ty,
        at,
        whole,
        variable,
        init,
    )?;
    st.env.closures.clear();
    Ok(made)
}

// By values, whose lambdas are made.
fn values_read(
    alloc: Global,
    tokens: &Tokens,
    nodes: &Nodes,
    id: NodeId,
    st: &mut State,
    variable: TNodeId,
    ty: &Ty,
    at: At,
) -> Result<TNodeId, ElabFault>
    requires within { id.0 < length nodes.now }
    requires variable { variable.0 < length (made st.old) }
    ensures { Does st.old st.new result (kids_read (lexemes_of tokens.now) (tree_in (made st.old) variable) (state_of st.old) (typ_of ty.now) at (tree_at (syntax_of nodes.now) id)) }
{
    let node = node_at(nodes, id);
    let os = values(alloc, &st.env, tokens, nodes, id, &node.kids, &mut st.work)?;
    values_made(alloc, st, variable, ty, at, place(node.at), &os)
}

// By values in parentheses.
fn by_values<L: MakeLambdas>(
    alloc: Global,
    lams: &L,
    tokens: &Tokens,
    nodes: &Nodes,
    id: NodeId,
    st: &mut State,
    variable: TNodeId,
    ty: &Ty,
    at: At,
) -> Result<TNodeId, ElabFault>
    requires within { id.0 < length nodes.now }
    requires variable { variable.0 < length (made st.old) }
    ensures { Does st.old st.new result (by_values_in (L.lambdas lams.now) (lexemes_of tokens.now) (tree_in (made st.old) variable) (state_of st.old) (typ_of ty.now) at (tree_at (syntax_of nodes.now) id)) }
{
    let kids = &node_at(nodes, id).kids;
    all_lambdas(alloc, lams, tokens, nodes, id, kids, st)?;
    values_read(alloc, tokens, nodes, id, st, variable, ty, at)
}

// By braces, whose lambdas are made.
fn braces_made(
    alloc: Global,
    tokens: &Tokens,
    nodes: &Nodes,
    id: NodeId,
    st: &mut State,
    variable: TNodeId,
    ty: &Ty,
    at: At,
) -> Result<TNodeId, ElabFault>
    requires within { id.0 < length nodes.now }
    requires variable { variable.0 < length (made st.old) }
    ensures { Does st.old st.new result (braces_made_of (lexemes_of tokens.now) (tree_in (made st.old) variable) (state_of st.old) (typ_of ty.now) at (tree_at (syntax_of nodes.now) id)) }
{
    let whole = place(node_at(nodes, id).at);
    let init = item(
        alloc,
        &st.env,
        tokens,
        nodes,
        id,
        &mut st.work,
        variable,
        ty,
    )?;
    let made = init_node(
        alloc,
        &st.env,
        &mut st.work.nodes,
        ty,
        at,
        whole,
        variable,
        init,
    )?;
    st.env.closures.clear();
    Ok(made)
}

// By braces.
fn by_braces<L: MakeLambdas>(
    alloc: Global,
    lams: &L,
    tokens: &Tokens,
    nodes: &Nodes,
    id: NodeId,
    st: &mut State,
    variable: TNodeId,
    ty: &Ty,
    at: At,
) -> Result<TNodeId, ElabFault>
    requires within { id.0 < length nodes.now }
    requires variable { variable.0 < length (made st.old) }
    ensures { Does st.old st.new result (by_braces_in (L.lambdas lams.now) (lexemes_of tokens.now) (tree_in (made st.old) variable) (state_of st.old) (typ_of ty.now) at (tree_at (syntax_of nodes.now) id)) }
{
    let kids = &node_at(nodes, id).kids;
    all_lambdas(alloc, lams, tokens, nodes, id, kids, st)?;
    braces_made(alloc, tokens, nodes, id, st, variable, ty, at)
}

// By what is written.
fn by_written<L: MakeLambdas>(
    alloc: Global,
    lams: &L,
    tokens: &Tokens,
    nodes: &Nodes,
    form: Written,
    st: &mut State,
    variable: TNodeId,
    ty: &Ty,
    at: At,
) -> Result<TNodeId, ElabFault>
    requires form { IsLower (length nodes.now) form }
    requires variable { variable.0 < length (made st.old) }
    ensures { Does st.old st.new result (initialised_by (L.lambdas lams.now) (lexemes_of tokens.now) (tree_in (made st.old) variable) (state_of st.old) (typ_of ty.now) at (shown_in (syntax_of nodes.now) form)) }
{
    match form {
        Written::Nothing => nothing_made(alloc, st, variable, ty, at),
        Written::Values(id) => by_values(alloc, lams, tokens, nodes, id, st, variable, ty, at),
        Written::Braces(id) => by_braces(alloc, lams, tokens, nodes, id, st, variable, ty, at),
        Written::Expression(id) => {
            by_expression(alloc, lams, tokens, nodes, id, st, variable, ty, at)
        }
        Written::Other => Err(ill(at, IllRule::OutOfProfile)),
    }
}

/// A variable, which a node stands for, with the initialiser that is written.
pub fn initialised<L: MakeLambdas>(
    alloc: Global,
    lams: &L,
    tokens: &Tokens,
    nodes: &Nodes,
    parent: NodeId,
    ids: &[NodeId],
    st: &mut State,
    variable: TNodeId,
    ty: &Ty,
    at: At,
) -> Result<TNodeId, ElabFault>
    requires within { parent.0 < length nodes.now }
    requires lower { are_below parent.0 ids.now ≡ true }
    requires variable { variable.0 < length (made st.old) }
    ensures { Does st.old st.new result (initialised_by (L.lambdas lams.now) (lexemes_of tokens.now) (tree_in (made st.old) variable) (state_of st.old) (typ_of ty.now) at (form_of (trees_at (syntax_of nodes.now) ids.now))) }
{
    let form = read_initialiser(nodes, parent, ids);
    by_written(alloc, lams, tokens, nodes, form, st, variable, ty, at)
}
