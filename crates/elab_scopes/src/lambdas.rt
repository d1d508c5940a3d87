// What makes lambdas (C++14 5.1.2).

ghost use Rattle.std.specs.Prelude.{◌≡◌, ◌<◌, length, true};
ghost use Rattle.elab_expr.specs.cpp_lex.Tokens.{lexemes_of};
ghost use Rattle.elab_expr.specs.cpp_ast.Orders.{are_below};
ghost use Rattle.elab_expr.specs.elab_rules.Lambdas.{no_lambda, first_of, first_lambda as first_lambda_of};
ghost use Rattle.elab_expr.specs.elab_rules.Statements.{Lambdas};
ghost use Rattle.elab_expr.specs.elab_types.Syntax.{syntax_of, tree_at, trees_at};
ghost use Rattle.elab_scopes.specs.States.{state_of};
ghost use Rattle.elab_scopes.specs.Says.{Changes};

use crate::state::State;
use elab_expr::below::{
    At, ElabFault, IllRule, NodeId, NodeKind, Nodes, Tokens, elab_types_node_at as node_at, ill,
    place,
};
use std::alloc::Global;

/// What makes the lambdas of a full-expression before it. In the body of a lambda there are none.
pub trait MakeLambdas {
    ghost lambdas: { Self → Lambdas };

    /// Makes the lambdas of the full-expression that a node stands for.
    fn make(
        &self,
        alloc: Global,
        tokens: &Tokens,
        nodes: &Nodes,
        id: NodeId,
        st: &mut State,
    ) -> Result<(), ElabFault>
        requires { id.0 < length nodes.now }
        ensures { Changes st.old st.new result (lambdas self.now (lexemes_of tokens.now) (state_of st.old) (tree_at (syntax_of nodes.now) id)) };
}

/// Where no lambda may stand: in the body of a lambda, and in what a member is initialised by (profile).
#[derive(Clone, Copy)]
pub struct NoLambdas;

impl MakeLambdas for NoLambdas {
    ghost lambdas = { λ self. no_lambda };

    fn make(
        &self,
        alloc: Global,
        tokens: &Tokens,
        nodes: &Nodes,
        id: NodeId,
        st: &mut State,
    ) -> Result<(), ElabFault> {
        match first_lambda(nodes, id) {
            Some(at) => Err(ill(at, IllRule::OutOfProfile)),
            None => Ok(()),
        }
    }
}

/// The place of the first lambda in a tree.
#[cycle(lambdas)]
pub fn first_lambda(nodes: &Nodes, id: NodeId) -> Option<At>
    requires { id.0 < length nodes.now }
    ensures { result ≡ first_lambda_of (tree_at (syntax_of nodes.now) id) }
{
    let node = node_at(nodes, id);
    match node.kind {
        NodeKind::Lambda => Some(place(node.at)),
        _ => first_among(nodes, id, &node.kids),
    }
}

// The place of the first lambda in some trees, which are kids of a node.
#[cycle(lambdas)]
fn first_among(nodes: &Nodes, parent: NodeId, ids: &[NodeId]) -> Option<At>
    requires within { parent.0 < length nodes.now }
    requires lower { are_below parent.0 ids.now ≡ true }
    ensures { result ≡ first_of (trees_at (syntax_of nodes.now) ids.now) }
{
    for id in ids {
        if let Some(at) = first_lambda(nodes, *id) {
            return Some(at);
        }
    }
    None
}
