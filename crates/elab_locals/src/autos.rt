// Variables whose type their initialiser gives (C++14 7.1.6.4).

ghost use Rattle.std.specs.Prelude.{◌≡◌, ◌<◌, ◌+◌, Some, MatchOption, length, true, slice_set, option_map, IfOk};
ghost use Rattle.elab_scopes.specs.cpp_lex.Tokens.{lexemes_of};
ghost use Rattle.elab_scopes.specs.cpp_ast.Orders.{are_below};
ghost use Rattle.elab_scopes.specs.cpp_types.Typ.{typ_of};
ghost use Rattle.elab_scopes.specs.elab_ctx.Ctx.{ctx_of, work_of, next_place};
ghost use Rattle.elab_scopes.specs.elab_rules.Statements.{same_deduction as same_deduction_of, replaced as replaced_of};
ghost use Rattle.elab_scopes.specs.elab_types.Syntax.{syntax_of, tree_at, trees_at};
ghost use Rattle.elab_scopes.specs.States.{state_of, made, full_in};
ghost use Rattle.elab_scopes.specs.Says.{OneDone, Does};
ghost use Rattle.elab_scopes.specs.cpp_tree.Arena.{tree_at as tree_in};
ghost use Rattle.elab_locals.specs.Variables.{auto_node, auto_of_type as auto_of_type_of, auto_from as auto_from_of, auto_read, auto_declared as auto_declared_of};
ghost use Rattle.elab_locals.specs.Deducing.{Variables};
ghost use Rattle.elab_locals.specs.Values.{only_value as only_value_of, plain_value as plain_value_of, equal_value as equal_value_of, expression_in as expression_in_of, value_of as value_of_of};

use crate::deduction::{deduced_type, replaced};
use crate::inits::{init_node, local};
use elab_braces::copy_initialised;
use elab_scopes::below::{
    At, ElabFault, Env, IllRule, Kids, NodeId, NodeKind, Nodes, Operand, TNodeId, Tokens, Ty,
    Variable, Work, add_item, copy, elab_types_node_at as node_at, equal_types, ill, kids_of,
};
use elab_scopes::full::full_operand;
use elab_scopes::scopes::declare;
use elab_scopes::{MakeLambdas, State};
use std::alloc::{AllocError, Global};

// Whether a type is the one that was deduced before, if one was.
fn same_deduction(before: &Option<Ty>, ty: &Ty) -> bool
    ensures { result ≡ same_deduction_of (option_map typ_of before.now) (typ_of ty.now) }
{
    match before {
        Some(found) => equal_types(found, ty),
        None => true,
    }
}

// A variable gets its type and its place.
fn set_variable(env: &mut Env, index: usize, ty: Ty, place: u32)
    requires { index < length env.old.variables.items }
    ensures { ctx_of env.new ≡ record (ctx_of env.old) { variables = slice_set (ctx_of env.old).variables index (record { typ = Some (typ_of ty); place = place }) } }
{
    env.variables[index] = Variable {
        ty: Some(ty),
        place,
    };
}

// The item of a variable of a deduced type, and its node with an initialiser that was made.
fn auto_placed(
    alloc: Global,
    st: &mut State,
    index: usize,
    ty: &Ty,
    at: At,
    whole: At,
    init: TNodeId,
) -> Result<TNodeId, AllocError>
    requires init { init.0 < length (made st.old) }
    requires index { index < length st.old.env.variables.items }
    ensures { IfOk result (λ r. OneDone st.old st.new r (auto_node (state_of st.old) index (typ_of ty.now) at whole (tree_in (made st.old) init))) }
{
    let item = copy(alloc, ty)?;
    let place = add_item(&mut st.work, item)?;
    let variable = local(alloc, &mut st.work.nodes, place, ty, at)?;
    let made = init_node(
        alloc,
        &st.env,
        &mut st.work.nodes,
        ty,
        at,
        whole,
        variable,
        init,
    )?;
    let ty = copy(alloc, ty)?;
    set_variable(&mut st.env, index, ty, place);
    st.env.closures.clear();
    Ok(made)
}

// A variable of a type from its initialiser.
fn auto_of_type(
    alloc: Global,
    st: &mut State,
    index: usize,
    ty: &Ty,
    at: At,
    o: Operand,
) -> Result<TNodeId, ElabFault>
    requires operand { o.id.0 < length (made st.old) }
    requires index { index < length st.old.env.variables.items }
    ensures { Does st.old st.new result (auto_of_type_of index (typ_of ty.now) at (full_in st.old o)) }
{
    let init = copy_initialised(alloc, &st.env, &mut st.work, ty, o)?;
    let made = auto_placed(alloc, st, index, ty, at, o.at, init)?;
    Ok(made)
}

// A variable from its initialiser, where `auto` stands for a type that is known.
fn auto_known(
    alloc: Global,
    st: &mut State,
    index: usize,
    pattern: &Ty,
    auto: &Ty,
    at: At,
    o: Operand,
) -> Result<TNodeId, ElabFault>
    requires operand { o.id.0 < length (made st.old) }
    requires index { index < length st.old.env.variables.items }
    ensures { Does st.old st.new result (auto_of_type_of index (replaced_of (typ_of auto.now) (typ_of pattern.now)) at (full_in st.old o)) }
{
    let ty = replaced(alloc, auto, pattern)?;
    auto_of_type(alloc, st, index, &ty, at, o)
}

// A variable from its initialiser, and what stands for `auto`.
fn auto_from(
    alloc: Global,
    st: &mut State,
    index: usize,
    pattern: &Ty,
    at: At,
    auto: &mut Option<Ty>,
    o: Operand,
) -> Result<TNodeId, ElabFault>
    requires operand { o.id.0 < length (made st.old) }
    requires index { index < length st.old.env.variables.items }
    ensures { Variables st.old st.new auto.new result (auto_from_of index (typ_of pattern.now) at (option_map typ_of auto.old) (full_in st.old o)) }
{
    let found = deduced_type(alloc, &mut st.work.nodes, at, pattern, o)?;
    if !same_deduction(auto, &found) {
        return Err(ill(at, IllRule::TypeDiffers));
    }
    let made = auto_known(alloc, st, index, pattern, &found, at, o)?;
    *auto = Some(found);
    Ok(made)
}

// What stands alone among these kids of a node.
fn only_value(nodes: &Nodes, parent: NodeId, ids: &[NodeId]) -> Option<NodeId>
    requires within { parent.0 < length nodes.now }
    requires lower { are_below parent.0 ids.now ≡ true }
    ensures is { option_map (tree_at (syntax_of nodes.now)) result ≡ only_value_of (trees_at (syntax_of nodes.now) ids.now) }
    ensures lower { MatchOption result (Unit {0}) (λ found. found.0 < parent.0) }
{
    match kids_of(ids) {
        Kids::One(kid) => Some(kid),
        Kids::None | Kids::Two(_, _) | Kids::Three(_, _, _) | Kids::Many => None,
    }
}

// The same, if it is not in braces.
fn plain_value(nodes: &Nodes, id: NodeId) -> Option<NodeId>
    requires { id.0 < length nodes.now }
    ensures is { option_map (tree_at (syntax_of nodes.now)) result ≡ plain_value_of (tree_at (syntax_of nodes.now) id) }
    ensures lower { MatchOption result (Unit {0}) (λ found. found.0 < (id.0 + 1)) }
{
    match node_at(nodes, id).kind {
        NodeKind::BracedInitList => None,
        _ => Some(id),
    }
}

// What stands alone behind `=`, if it is not in braces.
fn equal_value(nodes: &Nodes, parent: NodeId, ids: &[NodeId]) -> Option<NodeId>
    requires within { parent.0 < length nodes.now }
    requires lower { are_below parent.0 ids.now ≡ true }
    ensures is { option_map (tree_at (syntax_of nodes.now)) result ≡ equal_value_of (trees_at (syntax_of nodes.now) ids.now) }
    ensures lower { MatchOption result (Unit {0}) (λ found. found.0 < parent.0) }
{
    match kids_of(ids) {
        Kids::One(kid) => plain_value(nodes, kid),
        Kids::None | Kids::Two(_, _) | Kids::Three(_, _, _) | Kids::Many => None,
    }
}

// The one expression of an initialiser.
fn expression_in(nodes: &Nodes, id: NodeId) -> Option<NodeId>
    requires { id.0 < length nodes.now }
    ensures is { option_map (tree_at (syntax_of nodes.now)) result ≡ expression_in_of (tree_at (syntax_of nodes.now) id) }
    ensures lower { MatchOption result (Unit {0}) (λ found. found.0 < (id.0 + 1)) }
{
    let node = node_at(nodes, id);
    match node.kind {
        NodeKind::EqualInitializer => equal_value(nodes, id, &node.kids),
        _ => only_value(nodes, id, &node.kids),
    }
}

// The one expression of the initialiser that these kids of a node are.
fn only_expression(nodes: &Nodes, parent: NodeId, ids: &[NodeId]) -> Option<NodeId>
    requires within { parent.0 < length nodes.now }
    requires lower { are_below parent.0 ids.now ≡ true }
    ensures is { option_map (tree_at (syntax_of nodes.now)) result ≡ value_of_of (trees_at (syntax_of nodes.now) ids.now) }
    ensures lower { MatchOption result (Unit {0}) (λ found. found.0 < parent.0) }
{
    match kids_of(ids) {
        Kids::One(kid) => expression_in(nodes, kid),
        Kids::None | Kids::Two(_, _) | Kids::Three(_, _, _) | Kids::Many => None,
    }
}

// A variable that is declared without a type, from its initialiser.
fn auto_declared<L: MakeLambdas>(
    alloc: Global,
    lams: &L,
    tokens: &Tokens,
    nodes: &Nodes,
    id: NodeId,
    st: &mut State,
    pattern: &Ty,
    at: At,
    auto: &mut Option<Ty>,
) -> Result<TNodeId, ElabFault>
    requires { id.0 < length nodes.now }
    ensures { Variables st.old st.new auto.new result (auto_declared_of (L.lambdas lams.now) (lexemes_of tokens.now) (state_of st.old) (typ_of pattern.now) at (option_map typ_of auto.old) (tree_at (syntax_of nodes.now) id)) }
{
    let Some(index) = st.env.variables.len().checked_sub(1) else {
        return Err(ElabFault::Memory);
    };
    let o = full_operand(alloc, lams, tokens, nodes, id, st)?;
    if index >= st.env.variables.len() {
        return Err(ElabFault::Memory);
    }
    auto_from(alloc, st, index, pattern, at, auto, o)
}

// The place of the item that comes next.
fn following_place(work: &Work) -> Result<u32, AllocError>
    ensures { IfOk result (λ place. place ≡ next_place (work_of work.now)) }
{
    let Ok(place) = u32::try_from(work.frame.len()) else {
        return Err(AllocError);
    };
    Ok(place)
}

/// A variable of a block whose type its initialiser gives.
pub fn auto_variable<L: MakeLambdas>(
    alloc: Global,
    lams: &L,
    tokens: &Tokens,
    nodes: &Nodes,
    parent: NodeId,
    ids: &[NodeId],
    st: &mut State,
    name: &[u8],
    pattern: &Ty,
    at: At,
    auto: &mut Option<Ty>,
) -> Result<TNodeId, ElabFault>
    requires within { parent.0 < length nodes.now }
    requires lower { are_below parent.0 ids.now ≡ true }
    ensures { Variables st.old st.new auto.new result (auto_read (L.lambdas lams.now) (lexemes_of tokens.now) (state_of st.old) name.now (typ_of pattern.now) at (option_map typ_of auto.old) (trees_at (syntax_of nodes.now) ids.now)) }
{
    let place = following_place(&st.work)?;
    declare(&mut st.env, at, name, None, place)?;
    let Some(id) = only_expression(nodes, parent, ids) else {
        return Err(ill(at, IllRule::BadInit));
    };
    auto_declared(alloc, lams, tokens, nodes, id, st, pattern, at, auto)
}
