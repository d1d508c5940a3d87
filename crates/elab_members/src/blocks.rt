// The block of a body.

ghost use Rattle.std.specs.Prelude.{◌<◌, length};
ghost use Rattle.elab_entry.specs.cpp_lex.Tokens.{lexemes_of};
ghost use Rattle.elab_entry.specs.elab_types.Syntax.{syntax_of, tree_at};
ghost use Rattle.elab_entry.specs.elab_scopes.States.{state_of};
ghost use Rattle.elab_entry.specs.Bodies.{statements_in};
ghost use Rattle.elab_entry.specs.Says.{Lists};

use elab_implicit::below::{
    ElabFault, MakeLambdas, NodeId, Nodes, State, TNodeId, Tokens, elab_types_node_at as node_at,
    statements,
};
use std::alloc::Global;

/// The statements of a body, one behind the other.
pub fn statements_inside<L: MakeLambdas>(
    alloc: Global,
    lams: &L,
    tokens: &Tokens,
    nodes: &Nodes,
    st: &mut State,
    body: NodeId,
) -> Result<Vec<TNodeId>, ElabFault>
    requires { body.0 < length nodes.now }
    ensures { Lists st.old st.new result (statements_in (L.lambdas lams.now) (lexemes_of tokens.now) (state_of st.old) (tree_at (syntax_of nodes.now) body)) }
{
    let mut list = Vec::new(alloc);
    let kids = &node_at(nodes, body).kids;
    statements(alloc, lams, tokens, nodes, body, kids, st, &mut list)?;
    Ok(list)
}
