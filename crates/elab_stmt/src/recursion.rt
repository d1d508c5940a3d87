// Statements in statements (C++14 clause 6, 15.3; the TS, [stmt.sync], [stmt.tx]).

ghost use Rattle.std.specs.Prelude.{◌≡◌, ◌<◌, length, true};
ghost use Rattle.elab_locals.specs.cpp_lex.Tokens.{lexemes_of};
ghost use Rattle.elab_locals.specs.cpp_ast.Orders.{are_below};
ghost use Rattle.elab_locals.specs.cpp_ast.Trees.{kind_of};
ghost use Rattle.elab_locals.specs.cpp_ast.declared.kinds.NodeKind.TheVariants as k;
ghost use Rattle.elab_locals.specs.cpp_types.Typ.{typ_of};
ghost use Rattle.elab_locals.specs.cpp_tree.Arena.{tree_at as tree_in, trees_at as trees_in};
ghost use Rattle.elab_locals.specs.elab_ctx.Says.{are_within};
ghost use Rattle.elab_locals.specs.elab_rules.Statements.{statement_of, statements_of, handlers_of};
ghost use Rattle.elab_locals.specs.elab_types.Syntax.{syntax_of, tree_at, trees_at};
ghost use Rattle.elab_locals.specs.elab_scopes.States.{state_of, made};
ghost use Rattle.elab_locals.specs.elab_scopes.Says.{Does, DoesAll};
ghost use Rattle.elab_stmt.specs.Parts as parts;
ghost use Rattle.elab_stmt.specs.Parts.{is_single};
ghost use Rattle.elab_stmt.specs.Fours.{IsFour};

use crate::fours::{Four, four_of};
use crate::nodes::{empty_block, for_node, handler_node, switch_node, try_node};
use crate::simple::{atomic_kind, for_first, for_step, for_test, may_stand, one_part};
use elab_locals::below::{
    At, Caught, ElabFault, IllRule, Kids, MakeLambdas, NodeId, NodeKind, Nodes, State, TKind,
    TNodeId, Tokens, Ty, block, case_label, condition, default_label,
    elab_types_node_at as node_at, enter, enter_block, enter_loop, enter_switch,
    expression_statement, first_kid, handler_type, ill, jump, keep, kids_of, leave, leave_switch,
    mark_here, place, returned, switched, ternary_statement, unary_statement,
};
use elab_locals::block_declaration;
use std::alloc::Global;

/// A statement: its nodes, of which a declaration has one for each declarator, behind others.
#[cycle(statements)]
pub fn statement<L: MakeLambdas>(
    alloc: Global,
    lams: &L,
    tokens: &Tokens,
    nodes: &Nodes,
    id: NodeId,
    st: &mut State,
    out: &mut Vec<TNodeId>,
) -> Result<(), ElabFault>
    requires within { id.0 < length nodes.now }
    requires out { are_within (length (made st.old)) out.old.items ≡ true }
    ensures { DoesAll st.old st.new out.old.items out.new.items result (statement_of (L.lambdas lams.now) (lexemes_of tokens.now) (state_of st.old) (tree_at (syntax_of nodes.now) id)) }
{
    let node = node_at(nodes, id);
    match node.kind {
        NodeKind::SimpleDeclaration => {
            let at = place(node.at);
            block_declaration(alloc, lams, tokens, nodes, id, &node.kids, st, at, out)
        }
        NodeKind::CaseStatement => case_statement(alloc, lams, tokens, nodes, id, st, out),
        NodeKind::DefaultStatement => default_statement(alloc, lams, tokens, nodes, id, st, out),
        _ => other_statement(alloc, lams, tokens, nodes, id, st, out),
    }
}

/// Statements, one behind the other. They stand below the node of which they are kids.
#[cycle(statements)]
pub fn statements<L: MakeLambdas>(
    alloc: Global,
    lams: &L,
    tokens: &Tokens,
    nodes: &Nodes,
    parent: NodeId,
    ids: &[NodeId],
    st: &mut State,
    out: &mut Vec<TNodeId>,
) -> Result<(), ElabFault>
    requires within { parent.0 < length nodes.now }
    requires lower { are_below parent.0 ids.now ≡ true }
    requires out { are_within (length (made st.old)) out.old.items ≡ true }
    ensures { DoesAll st.old st.new out.old.items out.new.items result (statements_of (L.lambdas lams.now) (lexemes_of tokens.now) (state_of st.old) (trees_at (syntax_of nodes.now) ids.now)) }
{
    for id in ids {
        statement(alloc, lams, tokens, nodes, *id, st, out)?;
    }
    Ok(())
}

// A statement of which one tree is made, behind others.
#[cycle(statements)]
fn other_statement<L: MakeLambdas>(
    alloc: Global,
    lams: &L,
    tokens: &Tokens,
    nodes: &Nodes,
    id: NodeId,
    st: &mut State,
    out: &mut Vec<TNodeId>,
) -> Result<(), ElabFault>
    requires within { id.0 < length nodes.now }
    requires single { is_single (kind_of (tree_at (syntax_of nodes.now) id)) ≡ true }
    requires out { are_within (length (made st.old)) out.old.items ≡ true }
    ensures { DoesAll st.old st.new out.old.items out.new.items result (statement_of (L.lambdas lams.now) (lexemes_of tokens.now) (state_of st.old) (tree_at (syntax_of nodes.now) id)) }
{
    let made = single(alloc, lams, tokens, nodes, id, st)?;
    keep(out, made)?;
    Ok(())
}

// `case e: s`
#[cycle(statements)]
fn case_statement<L: MakeLambdas>(
    alloc: Global,
    lams: &L,
    tokens: &Tokens,
    nodes: &Nodes,
    id: NodeId,
    st: &mut State,
    out: &mut Vec<TNodeId>,
) -> Result<(), ElabFault>
    requires within { id.0 < length nodes.now }
    requires kind { kind_of (tree_at (syntax_of nodes.now) id) ≡ k.CaseStatement }
    requires out { are_within (length (made st.old)) out.old.items ≡ true }
    ensures { DoesAll st.old st.new out.old.items out.new.items result (statement_of (L.lambdas lams.now) (lexemes_of tokens.now) (state_of st.old) (tree_at (syntax_of nodes.now) id)) }
{
    let node = node_at(nodes, id);
    let Kids::Two(first, second) = kids_of(&node.kids) else {
        return Err(ElabFault::Memory);
    };
    let label = case_label(alloc, tokens, nodes, place(node.at), first, st)?;
    keep(out, label)?;
    statement(alloc, lams, tokens, nodes, second, st, out)
}

// `default: s`
#[cycle(statements)]
fn default_statement<L: MakeLambdas>(
    alloc: Global,
    lams: &L,
    tokens: &Tokens,
    nodes: &Nodes,
    id: NodeId,
    st: &mut State,
    out: &mut Vec<TNodeId>,
) -> Result<(), ElabFault>
    requires within { id.0 < length nodes.now }
    requires kind { kind_of (tree_at (syntax_of nodes.now) id) ≡ k.DefaultStatement }
    requires out { are_within (length (made st.old)) out.old.items ≡ true }
    ensures { DoesAll st.old st.new out.old.items out.new.items result (statement_of (L.lambdas lams.now) (lexemes_of tokens.now) (state_of st.old) (tree_at (syntax_of nodes.now) id)) }
{
    let node = node_at(nodes, id);
    let Kids::One(kid) = kids_of(&node.kids) else {
        return Err(ElabFault::Memory);
    };
    let label = default_label(alloc, place(node.at), st)?;
    keep(out, label)?;
    statement(alloc, lams, tokens, nodes, kid, st, out)
}

// A statement of which one tree is made.
#[cycle(statements)]
fn single<L: MakeLambdas>(
    alloc: Global,
    lams: &L,
    tokens: &Tokens,
    nodes: &Nodes,
    id: NodeId,
    st: &mut State,
) -> Result<TNodeId, ElabFault>
    requires within { id.0 < length nodes.now }
    requires single { is_single (kind_of (tree_at (syntax_of nodes.now) id)) ≡ true }
    ensures { Does st.old st.new result (statement_of (L.lambdas lams.now) (lexemes_of tokens.now) (state_of st.old) (tree_at (syntax_of nodes.now) id)) }
{
    let node = node_at(nodes, id);
    let at = place(node.at);
    match node.kind {
        NodeKind::CompoundStatement => compound(alloc, lams, tokens, nodes, id, st),
        NodeKind::NullStatement => {
            let made = empty_block(alloc, &mut st.work.nodes, at)?;
            Ok(made)
        }
        NodeKind::ExpressionStatement => {
            let Kids::One(kid) = kids_of(&node.kids) else {
                return Err(ElabFault::Memory);
            };
            expression_statement(alloc, lams, tokens, nodes, kid, st)
        }
        NodeKind::IfStatement => if_statement(alloc, lams, tokens, nodes, id, st),
        NodeKind::WhileStatement => while_statement(alloc, lams, tokens, nodes, id, st),
        NodeKind::DoStatement => do_statement(alloc, lams, tokens, nodes, id, st),
        NodeKind::ForStatement => for_statement(alloc, lams, tokens, nodes, id, st),
        NodeKind::SwitchStatement => switch_statement(alloc, lams, tokens, nodes, id, st),
        NodeKind::BreakStatement => {
            let is_allowed = st.env.breaks;
            jump(alloc, is_allowed, TKind::Break, st, at)
        }
        NodeKind::ContinueStatement => {
            let is_allowed = st.env.continues;
            jump(alloc, is_allowed, TKind::Continue, st, at)
        }
        NodeKind::ReturnStatement => returned(alloc, lams, tokens, nodes, id, at, &node.kids, st),
        NodeKind::TryBlock => try_block(alloc, lams, tokens, nodes, id, st),
        NodeKind::SynchronizedStatement => synchronized_statement(
            alloc, lams, tokens, nodes, id, st,
        ),
        NodeKind::AtomicStatement => atomic_statement(alloc, lams, tokens, nodes, id, st),
        _ => Err(ill(at, IllRule::OutOfProfile)),
    }
}

// The statements in a node, as one.
#[cycle(statements)]
fn body<L: MakeLambdas>(
    alloc: Global,
    lams: &L,
    tokens: &Tokens,
    nodes: &Nodes,
    id: NodeId,
    st: &mut State,
) -> Result<TNodeId, ElabFault>
    requires within { id.0 < length nodes.now }
    ensures { Does st.old st.new result (parts.body_of (L.lambdas lams.now) (lexemes_of tokens.now) (state_of st.old) (tree_at (syntax_of nodes.now) id)) }
{
    let node = node_at(nodes, id);
    let mut list = Vec::new(alloc);
    statements(alloc, lams, tokens, nodes, id, &node.kids, st, &mut list)?;
    let made = block(&mut st.work.nodes, place(node.at), list)?;
    Ok(made)
}

// `{ .. }`
#[cycle(statements)]
fn compound<L: MakeLambdas>(
    alloc: Global,
    lams: &L,
    tokens: &Tokens,
    nodes: &Nodes,
    id: NodeId,
    st: &mut State,
) -> Result<TNodeId, ElabFault>
    requires within { id.0 < length nodes.now }
    requires kind { kind_of (tree_at (syntax_of nodes.now) id) ≡ k.CompoundStatement }
    ensures { Does st.old st.new result (statement_of (L.lambdas lams.now) (lexemes_of tokens.now) (state_of st.old) (tree_at (syntax_of nodes.now) id)) }
{
    let mark = mark_here(&st.env);
    enter(&mut st.env)?;
    let made = body(alloc, lams, tokens, nodes, id, st)?;
    leave(&mut st.env, mark);
    Ok(made)
}

// A statement in another, as one tree: a declaration stands in a block of its own.
#[cycle(statements)]
fn part<L: MakeLambdas>(
    alloc: Global,
    lams: &L,
    tokens: &Tokens,
    nodes: &Nodes,
    id: NodeId,
    st: &mut State,
    at: At,
) -> Result<TNodeId, ElabFault>
    requires within { id.0 < length nodes.now }
    ensures { Does st.old st.new result (parts.part_of (L.lambdas lams.now) (lexemes_of tokens.now) (state_of st.old) at (tree_at (syntax_of nodes.now) id)) }
{
    let mut list = Vec::new(alloc);
    statement(alloc, lams, tokens, nodes, id, st, &mut list)?;
    let made = one_part(tokens, nodes, id, st, at, list)?;
    Ok(made)
}

// The same in a scope of its own.
#[cycle(statements)]
fn inner_part<L: MakeLambdas>(
    alloc: Global,
    lams: &L,
    tokens: &Tokens,
    nodes: &Nodes,
    id: NodeId,
    st: &mut State,
    at: At,
) -> Result<TNodeId, ElabFault>
    requires within { id.0 < length nodes.now }
    ensures { Does st.old st.new result (parts.inner_part (L.lambdas lams.now) (lexemes_of tokens.now) (state_of st.old) at (tree_at (syntax_of nodes.now) id)) }
{
    let mark = mark_here(&st.env);
    enter(&mut st.env)?;
    let made = part(alloc, lams, tokens, nodes, id, st, at)?;
    leave(&mut st.env, mark);
    Ok(made)
}

// The same in a loop.
#[cycle(statements)]
fn loop_part<L: MakeLambdas>(
    alloc: Global,
    lams: &L,
    tokens: &Tokens,
    nodes: &Nodes,
    id: NodeId,
    st: &mut State,
    at: At,
) -> Result<TNodeId, ElabFault>
    requires within { id.0 < length nodes.now }
    ensures { Does st.old st.new result (parts.loop_part (L.lambdas lams.now) (lexemes_of tokens.now) (state_of st.old) at (tree_at (syntax_of nodes.now) id)) }
{
    let mark = mark_here(&st.env);
    enter_loop(&mut st.env)?;
    let made = part(alloc, lams, tokens, nodes, id, st, at)?;
    leave(&mut st.env, mark);
    Ok(made)
}

// `if (e) a` and `if (e) a else b`
#[cycle(statements)]
fn if_statement<L: MakeLambdas>(
    alloc: Global,
    lams: &L,
    tokens: &Tokens,
    nodes: &Nodes,
    id: NodeId,
    st: &mut State,
) -> Result<TNodeId, ElabFault>
    requires within { id.0 < length nodes.now }
    requires kind { kind_of (tree_at (syntax_of nodes.now) id) ≡ k.IfStatement }
    ensures { Does st.old st.new result (statement_of (L.lambdas lams.now) (lexemes_of tokens.now) (state_of st.old) (tree_at (syntax_of nodes.now) id)) }
{
    let node = node_at(nodes, id);
    let at = place(node.at);
    match kids_of(&node.kids) {
        Kids::Two(first, second) => {
            if_short(alloc, lams, tokens, nodes, id, first, second, st, at)
        }
        Kids::Three(first, second, third) => {
            if_long(alloc, lams, tokens, nodes, id, first, second, third, st, at)
        }
        Kids::None | Kids::One(_) | Kids::Many => Err(ElabFault::Memory),
    }
}

// A condition and what it chooses, kids of a node.
#[cycle(statements)]
fn if_short<L: MakeLambdas>(
    alloc: Global,
    lams: &L,
    tokens: &Tokens,
    nodes: &Nodes,
    parent: NodeId,
    first: NodeId,
    second: NodeId,
    st: &mut State,
    at: At,
) -> Result<TNodeId, ElabFault>
    requires within { parent.0 < length nodes.now }
    requires first { first.0 < parent.0 }
    requires second { second.0 < parent.0 }
    ensures { Does st.old st.new result (parts.if_short (L.lambdas lams.now) (lexemes_of tokens.now) (state_of st.old) at (tree_at (syntax_of nodes.now) first) (tree_at (syntax_of nodes.now) second)) }
{
    let test = condition(alloc, lams, tokens, nodes, first, st)?;
    if_alone(alloc, lams, tokens, nodes, second, st, at, test)
}

// The same with `else`.
#[cycle(statements)]
fn if_long<L: MakeLambdas>(
    alloc: Global,
    lams: &L,
    tokens: &Tokens,
    nodes: &Nodes,
    parent: NodeId,
    first: NodeId,
    second: NodeId,
    third: NodeId,
    st: &mut State,
    at: At,
) -> Result<TNodeId, ElabFault>
    requires within { parent.0 < length nodes.now }
    requires first { first.0 < parent.0 }
    requires second { second.0 < parent.0 }
    requires third { third.0 < parent.0 }
    ensures { Does st.old st.new result (parts.if_long (L.lambdas lams.now) (lexemes_of tokens.now) (state_of st.old) at (tree_at (syntax_of nodes.now) first) (tree_at (syntax_of nodes.now) second) (tree_at (syntax_of nodes.now) third)) }
{
    let test = condition(alloc, lams, tokens, nodes, first, st)?;
    if_both(
        alloc, lams, tokens, nodes, parent, second, third, st, at, test,
    )
}

// Behind the condition, without `else`.
#[cycle(statements)]
fn if_alone<L: MakeLambdas>(
    alloc: Global,
    lams: &L,
    tokens: &Tokens,
    nodes: &Nodes,
    id: NodeId,
    st: &mut State,
    at: At,
    test: TNodeId,
) -> Result<TNodeId, ElabFault>
    requires within { id.0 < length nodes.now }
    requires test { test.0 < length (made st.old) }
    ensures { Does st.old st.new result (parts.if_alone (L.lambdas lams.now) (lexemes_of tokens.now) (state_of st.old) at (tree_in (made st.old) test) (tree_at (syntax_of nodes.now) id)) }
{
    let chosen = inner_part(alloc, lams, tokens, nodes, id, st, at)?;
    let other = empty_block(alloc, &mut st.work.nodes, at)?;
    let made = ternary_statement(
        alloc,
        &mut st.work.nodes,
        TKind::Conditional,
        at,
        test,
        chosen,
        other,
    )?;
    Ok(made)
}

// Behind the condition, with `else`.
#[cycle(statements)]
fn if_both<L: MakeLambdas>(
    alloc: Global,
    lams: &L,
    tokens: &Tokens,
    nodes: &Nodes,
    parent: NodeId,
    first: NodeId,
    second: NodeId,
    st: &mut State,
    at: At,
    test: TNodeId,
) -> Result<TNodeId, ElabFault>
    requires within { parent.0 < length nodes.now }
    requires first { first.0 < parent.0 }
    requires second { second.0 < parent.0 }
    requires test { test.0 < length (made st.old) }
    ensures { Does st.old st.new result (parts.if_both (L.lambdas lams.now) (lexemes_of tokens.now) (state_of st.old) at (tree_in (made st.old) test) (tree_at (syntax_of nodes.now) first) (tree_at (syntax_of nodes.now) second)) }
{
    let chosen = inner_part(alloc, lams, tokens, nodes, first, st, at)?;
    if_other(alloc, lams, tokens, nodes, second, st, at, test, chosen)
}

// Behind the first branch.
#[cycle(statements)]
fn if_other<L: MakeLambdas>(
    alloc: Global,
    lams: &L,
    tokens: &Tokens,
    nodes: &Nodes,
    id: NodeId,
    st: &mut State,
    at: At,
    test: TNodeId,
    chosen: TNodeId,
) -> Result<TNodeId, ElabFault>
    requires within { id.0 < length nodes.now }
    requires test { test.0 < length (made st.old) }
    requires chosen { chosen.0 < length (made st.old) }
    ensures { Does st.old st.new result (parts.if_other (L.lambdas lams.now) (lexemes_of tokens.now) (state_of st.old) at (tree_in (made st.old) test) (tree_in (made st.old) chosen) (tree_at (syntax_of nodes.now) id)) }
{
    let other = inner_part(alloc, lams, tokens, nodes, id, st, at)?;
    let made = ternary_statement(
        alloc,
        &mut st.work.nodes,
        TKind::Conditional,
        at,
        test,
        chosen,
        other,
    )?;
    Ok(made)
}

// `while (e) a`
#[cycle(statements)]
fn while_statement<L: MakeLambdas>(
    alloc: Global,
    lams: &L,
    tokens: &Tokens,
    nodes: &Nodes,
    id: NodeId,
    st: &mut State,
) -> Result<TNodeId, ElabFault>
    requires within { id.0 < length nodes.now }
    requires kind { kind_of (tree_at (syntax_of nodes.now) id) ≡ k.WhileStatement }
    ensures { Does st.old st.new result (statement_of (L.lambdas lams.now) (lexemes_of tokens.now) (state_of st.old) (tree_at (syntax_of nodes.now) id)) }
{
    let node = node_at(nodes, id);
    let at = place(node.at);
    let Kids::Two(first, second) = kids_of(&node.kids) else {
        return Err(ElabFault::Memory);
    };
    let test = condition(alloc, lams, tokens, nodes, first, st)?;
    while_body(alloc, lams, tokens, nodes, second, st, at, test)
}

// Behind the condition.
#[cycle(statements)]
fn while_body<L: MakeLambdas>(
    alloc: Global,
    lams: &L,
    tokens: &Tokens,
    nodes: &Nodes,
    id: NodeId,
    st: &mut State,
    at: At,
    test: TNodeId,
) -> Result<TNodeId, ElabFault>
    requires within { id.0 < length nodes.now }
    requires test { test.0 < length (made st.old) }
    ensures { Does st.old st.new result (parts.while_body (L.lambdas lams.now) (lexemes_of tokens.now) (state_of st.old) at (tree_in (made st.old) test) (tree_at (syntax_of nodes.now) id)) }
{
    let inside = loop_part(alloc, lams, tokens, nodes, id, st, at)?;
    let step = empty_block(alloc, &mut st.work.nodes, at)?;
    let made = ternary_statement(
        alloc,
        &mut st.work.nodes,
        TKind::Loop { test_first: true },
        at,
        test,
        inside,
        step,
    )?;
    Ok(made)
}

// `do a while (e);`
#[cycle(statements)]
fn do_statement<L: MakeLambdas>(
    alloc: Global,
    lams: &L,
    tokens: &Tokens,
    nodes: &Nodes,
    id: NodeId,
    st: &mut State,
) -> Result<TNodeId, ElabFault>
    requires within { id.0 < length nodes.now }
    requires kind { kind_of (tree_at (syntax_of nodes.now) id) ≡ k.DoStatement }
    ensures { Does st.old st.new result (statement_of (L.lambdas lams.now) (lexemes_of tokens.now) (state_of st.old) (tree_at (syntax_of nodes.now) id)) }
{
    let node = node_at(nodes, id);
    let Kids::Two(first, second) = kids_of(&node.kids) else {
        return Err(ElabFault::Memory);
    };
    let at = place(node.at);
    let inside = loop_part(alloc, lams, tokens, nodes, first, st, at)?;
    do_test(alloc, lams, tokens, nodes, second, st, at, inside)
}

// Behind the body.
fn do_test<L: MakeLambdas>(
    alloc: Global,
    lams: &L,
    tokens: &Tokens,
    nodes: &Nodes,
    id: NodeId,
    st: &mut State,
    at: At,
    inside: TNodeId,
) -> Result<TNodeId, ElabFault>
    requires within { id.0 < length nodes.now }
    requires inside { inside.0 < length (made st.old) }
    ensures { Does st.old st.new result (parts.do_test (L.lambdas lams.now) (lexemes_of tokens.now) (state_of st.old) at (tree_in (made st.old) inside) (tree_at (syntax_of nodes.now) id)) }
{
    let test = condition(alloc, lams, tokens, nodes, id, st)?;
    let step = empty_block(alloc, &mut st.work.nodes, at)?;
    let made = ternary_statement(
        alloc,
        &mut st.work.nodes,
        TKind::Loop { test_first: false },
        at,
        test,
        inside,
        step,
    )?;
    Ok(made)
}

// `for (i; e; n) a`
#[cycle(statements)]
fn for_statement<L: MakeLambdas>(
    alloc: Global,
    lams: &L,
    tokens: &Tokens,
    nodes: &Nodes,
    id: NodeId,
    st: &mut State,
) -> Result<TNodeId, ElabFault>
    requires within { id.0 < length nodes.now }
    requires kind { kind_of (tree_at (syntax_of nodes.now) id) ≡ k.ForStatement }
    ensures { Does st.old st.new result (statement_of (L.lambdas lams.now) (lexemes_of tokens.now) (state_of st.old) (tree_at (syntax_of nodes.now) id)) }
{
    let mark = mark_here(&st.env);
    enter_loop(&mut st.env)?;
    let made = for_inside(alloc, lams, tokens, nodes, id, st)?;
    leave(&mut st.env, mark);
    Ok(made)
}

// The same in its scope.
#[cycle(statements)]
fn for_inside<L: MakeLambdas>(
    alloc: Global,
    lams: &L,
    tokens: &Tokens,
    nodes: &Nodes,
    id: NodeId,
    st: &mut State,
) -> Result<TNodeId, ElabFault>
    requires within { id.0 < length nodes.now }
    ensures { Does st.old st.new result (parts.for_inside_kids (L.lambdas lams.now) (lexemes_of tokens.now) (state_of st.old) (tree_at (syntax_of nodes.now) id)) }
{
    let node = node_at(nodes, id);
    let at = place(node.at);
    let Some(four) = four_of(&node.kids) else {
        return Err(ElabFault::Memory);
    };
    for_all(alloc, lams, tokens, nodes, id, four, st, at)
}

// What is done first, and all behind it.
#[cycle(statements)]
fn for_all<L: MakeLambdas>(
    alloc: Global,
    lams: &L,
    tokens: &Tokens,
    nodes: &Nodes,
    parent: NodeId,
    four: Four,
    st: &mut State,
    at: At,
) -> Result<TNodeId, ElabFault>
    requires within { parent.0 < length nodes.now }
    requires four { IsFour parent.0 four }
    ensures { Does st.old st.new result (parts.for_inside (L.lambdas lams.now) (lexemes_of tokens.now) (state_of st.old) at (tree_at (syntax_of nodes.now) four.first) (tree_at (syntax_of nodes.now) four.test) (tree_at (syntax_of nodes.now) four.step) (tree_at (syntax_of nodes.now) four.body)) }
{
    let mut first = Vec::new(alloc);
    for_first(alloc, lams, tokens, nodes, four.first, st, &mut first)?;
    for_tested(
        alloc, lams, tokens, nodes, four.test, four.step, four.body, st, at, first,
    )
}

// Behind what is done first.
#[cycle(statements)]
fn for_tested<L: MakeLambdas>(
    alloc: Global,
    lams: &L,
    tokens: &Tokens,
    nodes: &Nodes,
    test: NodeId,
    step: NodeId,
    id: NodeId,
    st: &mut State,
    at: At,
    first: Vec<TNodeId>,
) -> Result<TNodeId, ElabFault>
    requires within { id.0 < length nodes.now }
    requires test { test.0 < length nodes.now }
    requires step { step.0 < length nodes.now }
    requires first { are_within (length (made st.old)) first.items ≡ true }
    ensures { Does st.old st.new result (parts.for_tested (L.lambdas lams.now) (lexemes_of tokens.now) (state_of st.old) at (trees_in (made st.old) first.items) (tree_at (syntax_of nodes.now) test) (tree_at (syntax_of nodes.now) step) (tree_at (syntax_of nodes.now) id)) }
{
    let test = for_test(alloc, lams, tokens, nodes, test, st, at)?;
    for_stepped(alloc, lams, tokens, nodes, step, id, st, at, first, test)
}

// Behind the test.
#[cycle(statements)]
fn for_stepped<L: MakeLambdas>(
    alloc: Global,
    lams: &L,
    tokens: &Tokens,
    nodes: &Nodes,
    step: NodeId,
    id: NodeId,
    st: &mut State,
    at: At,
    first: Vec<TNodeId>,
    test: TNodeId,
) -> Result<TNodeId, ElabFault>
    requires within { id.0 < length nodes.now }
    requires step { step.0 < length nodes.now }
    requires first { are_within (length (made st.old)) first.items ≡ true }
    requires test { test.0 < length (made st.old) }
    ensures { Does st.old st.new result (parts.for_stepped (L.lambdas lams.now) (lexemes_of tokens.now) (state_of st.old) at (trees_in (made st.old) first.items) (tree_in (made st.old) test) (tree_at (syntax_of nodes.now) step) (tree_at (syntax_of nodes.now) id)) }
{
    let step = for_step(alloc, lams, tokens, nodes, step, st, at)?;
    for_last(alloc, lams, tokens, nodes, id, st, at, first, test, step)
}

// Behind the step.
#[cycle(statements)]
fn for_last<L: MakeLambdas>(
    alloc: Global,
    lams: &L,
    tokens: &Tokens,
    nodes: &Nodes,
    id: NodeId,
    st: &mut State,
    at: At,
    first: Vec<TNodeId>,
    test: TNodeId,
    step: TNodeId,
) -> Result<TNodeId, ElabFault>
    requires within { id.0 < length nodes.now }
    requires first { are_within (length (made st.old)) first.items ≡ true }
    requires test { test.0 < length (made st.old) }
    requires step { step.0 < length (made st.old) }
    ensures { Does st.old st.new result (parts.for_last (L.lambdas lams.now) (lexemes_of tokens.now) (state_of st.old) at (trees_in (made st.old) first.items) (tree_in (made st.old) test) (tree_in (made st.old) step) (tree_at (syntax_of nodes.now) id)) }
{
    let inside = for_body(alloc, lams, tokens, nodes, id, st, at)?;
    let made = for_node(alloc, &mut st.work.nodes, at, first, test, inside, step)?;
    Ok(made)
}

// The body of a `for`, in whose scope it stands.
#[cycle(statements)]
fn for_body<L: MakeLambdas>(
    alloc: Global,
    lams: &L,
    tokens: &Tokens,
    nodes: &Nodes,
    id: NodeId,
    st: &mut State,
    at: At,
) -> Result<TNodeId, ElabFault>
    requires within { id.0 < length nodes.now }
    ensures { Does st.old st.new result (parts.for_body (L.lambdas lams.now) (lexemes_of tokens.now) (state_of st.old) at (tree_at (syntax_of nodes.now) id)) }
{
    match node_at(nodes, id).kind {
        NodeKind::CompoundStatement => body(alloc, lams, tokens, nodes, id, st),
        _ => part(alloc, lams, tokens, nodes, id, st, at),
    }
}

// `switch (e) { .. }`
#[cycle(statements)]
fn switch_statement<L: MakeLambdas>(
    alloc: Global,
    lams: &L,
    tokens: &Tokens,
    nodes: &Nodes,
    id: NodeId,
    st: &mut State,
) -> Result<TNodeId, ElabFault>
    requires within { id.0 < length nodes.now }
    requires kind { kind_of (tree_at (syntax_of nodes.now) id) ≡ k.SwitchStatement }
    ensures { Does st.old st.new result (statement_of (L.lambdas lams.now) (lexemes_of tokens.now) (state_of st.old) (tree_at (syntax_of nodes.now) id)) }
{
    let node = node_at(nodes, id);
    let at = place(node.at);
    let Kids::Two(first, second) = kids_of(&node.kids) else {
        return Err(ElabFault::Memory);
    };
    let found = switched(alloc, lams, tokens, nodes, first, st)?;
    switch_body(
        alloc,
        lams,
        tokens,
        nodes,
        second,
        st,
        at,
        found.value,
        found.ty,
    )
}

// Behind the value.
#[cycle(statements)]
fn switch_body<L: MakeLambdas>(
    alloc: Global,
    lams: &L,
    tokens: &Tokens,
    nodes: &Nodes,
    id: NodeId,
    st: &mut State,
    at: At,
    value: TNodeId,
    ty: Ty,
) -> Result<TNodeId, ElabFault>
    requires within { id.0 < length nodes.now }
    requires value { value.0 < length (made st.old) }
    ensures { Does st.old st.new result (parts.switch_body (L.lambdas lams.now) (lexemes_of tokens.now) at (record { value = (tree_in (made st.old) value); typ = typ_of ty; state = (state_of st.old) }) (tree_at (syntax_of nodes.now) id)) }
{
    let mark = mark_here(&st.env);
    let labels = enter_switch(alloc, &mut st.env, ty)?;
    let mut list = Vec::new(alloc);
    statements(
        alloc,
        lams,
        tokens,
        nodes,
        id,
        &node_at(nodes, id).kids,
        st,
        &mut list,
    )?;
    leave_switch(&mut st.env, mark, labels);
    let made = switch_node(alloc, &mut st.work.nodes, at, value, &list)?;
    Ok(made)
}

// A block of a transaction or a synchronized one.
#[cycle(statements)]
fn guarded<L: MakeLambdas>(
    alloc: Global,
    lams: &L,
    tokens: &Tokens,
    nodes: &Nodes,
    id: NodeId,
    st: &mut State,
    at: At,
    kind: TKind,
) -> Result<TNodeId, ElabFault>
    requires within { id.0 < length nodes.now }
    ensures { Does st.old st.new result (parts.guarded (L.lambdas lams.now) (lexemes_of tokens.now) (state_of st.old) at kind (tree_at (syntax_of nodes.now) id)) }
{
    let mark = mark_here(&st.env);
    enter_block(&mut st.env)?;
    let inside = body(alloc, lams, tokens, nodes, id, st)?;
    leave(&mut st.env, mark);
    let made = unary_statement(alloc, &mut st.work.nodes, kind, at, inside)?;
    Ok(made)
}

// `synchronized { .. }`
#[cycle(statements)]
fn synchronized_statement<L: MakeLambdas>(
    alloc: Global,
    lams: &L,
    tokens: &Tokens,
    nodes: &Nodes,
    id: NodeId,
    st: &mut State,
) -> Result<TNodeId, ElabFault>
    requires within { id.0 < length nodes.now }
    requires kind { kind_of (tree_at (syntax_of nodes.now) id) ≡ k.SynchronizedStatement }
    ensures { Does st.old st.new result (statement_of (L.lambdas lams.now) (lexemes_of tokens.now) (state_of st.old) (tree_at (syntax_of nodes.now) id)) }
{
    let node = node_at(nodes, id);
    let Kids::One(kid) = kids_of(&node.kids) else {
        return Err(ElabFault::Memory);
    };
    guarded(
        alloc,
        lams,
        tokens,
        nodes,
        kid,
        st,
        place(node.at),
        TKind::Synchronized,
    )
}

// `atomic_noexcept { .. }` and the like
#[cycle(statements)]
fn atomic_statement<L: MakeLambdas>(
    alloc: Global,
    lams: &L,
    tokens: &Tokens,
    nodes: &Nodes,
    id: NodeId,
    st: &mut State,
) -> Result<TNodeId, ElabFault>
    requires within { id.0 < length nodes.now }
    requires kind { kind_of (tree_at (syntax_of nodes.now) id) ≡ k.AtomicStatement }
    ensures { Does st.old st.new result (statement_of (L.lambdas lams.now) (lexemes_of tokens.now) (state_of st.old) (tree_at (syntax_of nodes.now) id)) }
{
    let node = node_at(nodes, id);
    let Some(token) = node.token else {
        return Err(ElabFault::Memory);
    };
    let Kids::One(kid) = kids_of(&node.kids) else {
        return Err(ElabFault::Memory);
    };
    guarded(
        alloc,
        lams,
        tokens,
        nodes,
        kid,
        st,
        place(node.at),
        atomic_kind(tokens, token),
    )
}

// What is tried, in a scope of its own.
#[cycle(statements)]
fn tried<L: MakeLambdas>(
    alloc: Global,
    lams: &L,
    tokens: &Tokens,
    nodes: &Nodes,
    id: NodeId,
    st: &mut State,
) -> Result<TNodeId, ElabFault>
    requires within { id.0 < length nodes.now }
    ensures { Does st.old st.new result (parts.tried (L.lambdas lams.now) (lexemes_of tokens.now) (state_of st.old) (tree_at (syntax_of nodes.now) id)) }
{
    let mark = mark_here(&st.env);
    enter(&mut st.env)?;
    let made = body(alloc, lams, tokens, nodes, id, st)?;
    leave(&mut st.env, mark);
    Ok(made)
}

// `try { .. }` with its handlers
#[cycle(statements)]
fn try_block<L: MakeLambdas>(
    alloc: Global,
    lams: &L,
    tokens: &Tokens,
    nodes: &Nodes,
    id: NodeId,
    st: &mut State,
) -> Result<TNodeId, ElabFault>
    requires within { id.0 < length nodes.now }
    requires kind { kind_of (tree_at (syntax_of nodes.now) id) ≡ k.TryBlock }
    ensures { Does st.old st.new result (statement_of (L.lambdas lams.now) (lexemes_of tokens.now) (state_of st.old) (tree_at (syntax_of nodes.now) id)) }
{
    let node = node_at(nodes, id);
    let at = place(node.at);
    let Some(kid) = first_kid(&node.kids) else {
        return Err(ElabFault::Memory);
    };
    let inside = tried(alloc, lams, tokens, nodes, kid, st)?;
    try_handlers(
        alloc,
        lams,
        tokens,
        nodes,
        id,
        &node.kids[1..],
        st,
        at,
        inside,
    )
}

// Behind what is tried.
#[cycle(statements)]
fn try_handlers<L: MakeLambdas>(
    alloc: Global,
    lams: &L,
    tokens: &Tokens,
    nodes: &Nodes,
    parent: NodeId,
    ids: &[NodeId],
    st: &mut State,
    at: At,
    inside: TNodeId,
) -> Result<TNodeId, ElabFault>
    requires within { parent.0 < length nodes.now }
    requires lower { are_below parent.0 ids.now ≡ true }
    requires inside { inside.0 < length (made st.old) }
    ensures { Does st.old st.new result (parts.try_handlers (L.lambdas lams.now) (lexemes_of tokens.now) (state_of st.old) at (tree_in (made st.old) inside) (trees_at (syntax_of nodes.now) ids.now)) }
{
    let mut list = Vec::new(alloc);
    handlers(alloc, lams, tokens, nodes, parent, ids, st, &mut list)?;
    let made = try_node(alloc, &mut st.work.nodes, at, inside, &list)?;
    Ok(made)
}

// Handlers, one behind the other.
#[cycle(statements)]
fn handlers<L: MakeLambdas>(
    alloc: Global,
    lams: &L,
    tokens: &Tokens,
    nodes: &Nodes,
    parent: NodeId,
    ids: &[NodeId],
    st: &mut State,
    out: &mut Vec<TNodeId>,
) -> Result<(), ElabFault>
    requires within { parent.0 < length nodes.now }
    requires lower { are_below parent.0 ids.now ≡ true }
    requires out { are_within (length (made st.old)) out.old.items ≡ true }
    ensures { DoesAll st.old st.new out.old.items out.new.items result (handlers_of (L.lambdas lams.now) (lexemes_of tokens.now) (state_of st.old) (trees_at (syntax_of nodes.now) ids.now)) }
{
    let count = ids.len();
    for (i, id) in ids.iter().enumerate() {
        let made = handler(alloc, lams, tokens, nodes, *id, st, i + 1 == count)?;
        keep(out, made)?;
    }
    Ok(())
}

// A handler: `...` stands last.
#[cycle(statements)]
fn handler<L: MakeLambdas>(
    alloc: Global,
    lams: &L,
    tokens: &Tokens,
    nodes: &Nodes,
    id: NodeId,
    st: &mut State,
    is_last: bool,
) -> Result<TNodeId, ElabFault>
    requires within { id.0 < length nodes.now }
    ensures { Does st.old st.new result (parts.handler_if (L.lambdas lams.now) (lexemes_of tokens.now) (state_of st.old) is_last (tree_at (syntax_of nodes.now) id)) }
{
    let node = node_at(nodes, id);
    let at = place(node.at);
    let Kids::Two(first, second) = kids_of(&node.kids) else {
        return Err(ElabFault::Memory);
    };
    if !may_stand(nodes, first, is_last) {
        return Err(ill(at, IllRule::BadCatch));
    }
    handler_scope(alloc, lams, tokens, nodes, first, second, st, at)
}

// A handler in a scope of its own.
#[cycle(statements)]
fn handler_scope<L: MakeLambdas>(
    alloc: Global,
    lams: &L,
    tokens: &Tokens,
    nodes: &Nodes,
    caught: NodeId,
    id: NodeId,
    st: &mut State,
    at: At,
) -> Result<TNodeId, ElabFault>
    requires within { id.0 < length nodes.now }
    requires caught { caught.0 < length nodes.now }
    ensures { Does st.old st.new result (parts.handler_of (L.lambdas lams.now) (lexemes_of tokens.now) (state_of st.old) at (tree_at (syntax_of nodes.now) caught) (tree_at (syntax_of nodes.now) id)) }
{
    let mark = mark_here(&st.env);
    enter(&mut st.env)?;
    let made = handler_inside(alloc, lams, tokens, nodes, caught, id, st, at)?;
    leave(&mut st.env, mark);
    Ok(made)
}

// The same in that scope.
#[cycle(statements)]
fn handler_inside<L: MakeLambdas>(
    alloc: Global,
    lams: &L,
    tokens: &Tokens,
    nodes: &Nodes,
    caught: NodeId,
    id: NodeId,
    st: &mut State,
    at: At,
) -> Result<TNodeId, ElabFault>
    requires within { id.0 < length nodes.now }
    requires caught { caught.0 < length nodes.now }
    ensures { Does st.old st.new result (parts.handler_inside (L.lambdas lams.now) (lexemes_of tokens.now) (state_of st.old) at (tree_at (syntax_of nodes.now) caught) (tree_at (syntax_of nodes.now) id)) }
{
    let found = handler_type(alloc, tokens, nodes, at, caught, st)?;
    handler_body(alloc, lams, tokens, nodes, id, st, at, found)
}

// Behind what is caught.
#[cycle(statements)]
fn handler_body<L: MakeLambdas>(
    alloc: Global,
    lams: &L,
    tokens: &Tokens,
    nodes: &Nodes,
    id: NodeId,
    st: &mut State,
    at: At,
    found: Caught,
) -> Result<TNodeId, ElabFault>
    requires within { id.0 < length nodes.now }
    requires fields { are_within (length (made st.old)) found.fields.items ≡ true }
    ensures { Does st.old st.new result (parts.handler_body (L.lambdas lams.now) (lexemes_of tokens.now) (record { state = (state_of st.old); typ = typ_of found.ty; place = found.place; fields = trees_in (made st.old) found.fields.items }) at (tree_at (syntax_of nodes.now) id)) }
{
    let inside = body(alloc, lams, tokens, nodes, id, st)?;
    let made = handler_node(alloc, &mut st.work.nodes, at, found, inside)?;
    Ok(made)
}
