// Parts of statements that hold no statements.

ghost use Rattle.std.specs.Prelude.{◌≡◌, ◌≢◌, ◌<◌, ◌∷◌, [], true, length, IfOk, MatchOption, not, ◌||◌};
ghost use Rattle.elab_locals.specs.cpp_lex.Tokens.{lexemes_of};
ghost use Rattle.elab_locals.specs.cpp_tree.declared.kinds.TKind.TheVariants.{Atomic};
ghost use Rattle.elab_locals.specs.cpp_tree.Arena.{trees_of, trees_at as trees_in, Adds};
ghost use Rattle.elab_locals.specs.elab_ctx.Says.{are_within};
ghost use Rattle.elab_locals.specs.elab_ctx.Steps.{spelling as spelling_of};
ghost use Rattle.elab_locals.specs.elab_rules.Statements.{block_kind, the_tree, beginning as beginning_of, for_first as for_first_of, for_test as for_test_of, for_step as for_step_of, expression_statement as expression_statement_of, is_ellipsis as is_ellipsis_of};
ghost use Rattle.elab_locals.specs.elab_types.Syntax.{syntax_of, tree_at};
ghost use Rattle.elab_locals.specs.elab_scopes.States.{state_of, made};
ghost use Rattle.elab_locals.specs.elab_scopes.Says.{OneDone, Does, DoesAll};
ghost use Rattle.elab_stmt.specs.Parts.{one_part as one_part_of};

use crate::nodes::empty_block;
use elab_locals::below::{
    At, BlockKind, ElabFault, IntKind, MakeLambdas, NodeId, NodeKind, Nodes, State, TKind, TNode,
    TNodeId, Tokens, block, condition, elab_types_node_at as node_at, expression_statement,
    is_spelled, keep, number, place, token_place,
};
use elab_locals::block_declaration;
use std::alloc::{AllocError, Global};

/// The kind of an atomic block, by its first word.
pub fn atomic_kind(tokens: &Tokens, token: u32) -> TKind
    ensures { result ≡ Atomic (block_kind (spelling_of (lexemes_of tokens.now) token)) }
{
    if is_spelled(tokens, token, b"atomic_noexcept") {
        return TKind::Atomic {
            kind: BlockKind::NoExcept,
        };
    }
    if is_spelled(tokens, token, b"atomic_cancel") {
        return TKind::Atomic {
            kind: BlockKind::Cancel,
        };
    }
    TKind::Atomic {
        kind: BlockKind::Commit,
    }
}

// Where a statement begins: the place of a declaration is that of its name.
fn beginning(tokens: &Tokens, nodes: &Nodes, id: NodeId) -> At
    requires { id.0 < length nodes.now }
    ensures { result ≡ beginning_of (lexemes_of tokens.now) (tree_at (syntax_of nodes.now) id) }
{
    let node = node_at(nodes, id);
    match node.kind {
        NodeKind::SimpleDeclaration => match node.token {
            Some(token) => token_place(tokens, node.at.source, token),
            None => place(node.at),
        },
        _ => place(node.at),
    }
}

// The one of these, if there are no others.
fn the_one(list: &[TNodeId]) -> Option<TNodeId>
    ensures { MatchOption result (length list.now ≢ 1) (λ id. list.now ≡ id ∷ []) }
{
    if list.len() == 1 {
        return Some(list[0]);
    }
    None
}

// These as one: the one of them, or a block of them.
fn only(nodes: &mut Vec<TNode>, at: At, list: Vec<TNodeId>) -> Result<TNodeId, AllocError>
    requires { are_within (length (trees_of nodes.old.items)) list.items ≡ true }
    ensures { IfOk result (λ r. Adds (trees_of nodes.old.items) (trees_of nodes.new.items) r (the_tree at (trees_in (trees_of nodes.old.items) list.items))) }
{
    match the_one(&list) {
        Some(id) => Ok(id),
        None => block(nodes, at, list),
    }
}

/// The trees of a statement as those of a part of another: a declaration stands in a block of its own.
pub fn one_part(
    tokens: &Tokens,
    nodes: &Nodes,
    id: NodeId,
    st: &mut State,
    at: At,
    list: Vec<TNodeId>,
) -> Result<TNodeId, AllocError>
    requires within { id.0 < length nodes.now }
    requires list { are_within (length (made st.old)) list.items ≡ true }
    ensures { IfOk result (λ r. OneDone st.old st.new r (one_part_of (lexemes_of tokens.now) at (tree_at (syntax_of nodes.now) id) (record { trees = trees_in (made st.old) list.items; state = state_of st.old }))) }
{
    match node_at(nodes, id).kind {
        NodeKind::SimpleDeclaration => {
            let begins = beginning(tokens, nodes, id);
            block(&mut st.work.nodes, begins, list)
        }
        _ => only(&mut st.work.nodes, at, list),
    }
}

// An expression as a statement, behind others.
fn first_expression<L: MakeLambdas>(
    alloc: Global,
    lams: &L,
    tokens: &Tokens,
    nodes: &Nodes,
    id: NodeId,
    st: &mut State,
    out: &mut Vec<TNodeId>,
) -> Result<(), ElabFault>
    requires within { id.0 < length nodes.now }
    requires out { are_within (length (made st.old)) out.old.items ≡ true }
    ensures { DoesAll st.old st.new out.old.items out.new.items result (expression_statement_of (L.lambdas lams.now) (lexemes_of tokens.now) (state_of st.old) (tree_at (syntax_of nodes.now) id)) }
{
    let made = expression_statement(alloc, lams, tokens, nodes, id, st)?;
    keep(out, made)?;
    Ok(())
}

/// What a `for` does first.
pub fn for_first<L: MakeLambdas>(
    alloc: Global,
    lams: &L,
    tokens: &Tokens,
    nodes: &Nodes,
    id: NodeId,
    st: &mut State,
    out: &mut Vec<TNodeId>,
) -> Result<(), ElabFault>
    requires within { id.0 < length nodes.now }
    requires out { are_within (length (made st.old)) out.old.items ≡ true }
    ensures { DoesAll st.old st.new out.old.items out.new.items result (for_first_of (L.lambdas lams.now) (lexemes_of tokens.now) (state_of st.old) (tree_at (syntax_of nodes.now) id)) }
{
    let node = node_at(nodes, id);
    match node.kind {
        NodeKind::Absent => Ok(()),
        NodeKind::SimpleDeclaration => {
            let at = place(node.at);
            block_declaration(alloc, lams, tokens, nodes, id, &node.kids, st, at, out)
        }
        _ => first_expression(alloc, lams, tokens, nodes, id, st, out),
    }
}

/// What a `for` tests.
pub fn for_test<L: MakeLambdas>(
    alloc: Global,
    lams: &L,
    tokens: &Tokens,
    nodes: &Nodes,
    id: NodeId,
    st: &mut State,
    at: At,
) -> Result<TNodeId, ElabFault>
    requires { id.0 < length nodes.now }
    ensures { Does st.old st.new result (for_test_of (L.lambdas lams.now) (lexemes_of tokens.now) (state_of st.old) at (tree_at (syntax_of nodes.now) id)) }
{
    match node_at(nodes, id).kind {
        NodeKind::Absent => {
            let made = number(alloc, &mut st.work.nodes, IntKind::Bool, 1, at)?;
            Ok(made)
        }
        _ => condition(alloc, lams, tokens, nodes, id, st),
    }
}

/// What a `for` does behind its body.
pub fn for_step<L: MakeLambdas>(
    alloc: Global,
    lams: &L,
    tokens: &Tokens,
    nodes: &Nodes,
    id: NodeId,
    st: &mut State,
    at: At,
) -> Result<TNodeId, ElabFault>
    requires { id.0 < length nodes.now }
    ensures { Does st.old st.new result (for_step_of (L.lambdas lams.now) (lexemes_of tokens.now) (state_of st.old) at (tree_at (syntax_of nodes.now) id)) }
{
    match node_at(nodes, id).kind {
        NodeKind::Absent => {
            let made = empty_block(alloc, &mut st.work.nodes, at)?;
            Ok(made)
        }
        _ => expression_statement(alloc, lams, tokens, nodes, id, st),
    }
}

fn is_ellipsis(nodes: &Nodes, id: NodeId) -> bool
    requires { id.0 < length nodes.now }
    ensures { result ≡ is_ellipsis_of (tree_at (syntax_of nodes.now) id) }
{
    match node_at(nodes, id).kind {
        NodeKind::Ellipsis => true,
        _ => false,
    }
}

/// Whether a handler may stand where it does: `...` stands last.
pub fn may_stand(nodes: &Nodes, id: NodeId, is_last: bool) -> bool
    requires { id.0 < length nodes.now }
    ensures { result ≡ (not (is_ellipsis_of (tree_at (syntax_of nodes.now) id)) || is_last) }
{
    !is_ellipsis(nodes, id) || is_last
}
