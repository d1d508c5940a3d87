// The initialisers of the members of a class, declaration by declaration.

ghost use Rattle.std.specs.Prelude.{◌≡◌, ◌<◌, length, true};
ghost use Rattle.elab_entry.specs.cpp_ast.Orders.{are_below};
ghost use Rattle.elab_entry.specs.cpp_lex.Tokens.{lexemes_of};
ghost use Rattle.elab_entry.specs.elab_ctx.Steps.{each_of};
ghost use Rattle.elab_entry.specs.elab_types.Syntax.{syntax_of, tree_at, trees_at};
ghost use Rattle.elab_entry.specs.elab_scopes.States.{state_of};
ghost use Rattle.elab_entry.specs.elab_scopes.Says.{Changes};
ghost use Rattle.elab_members.specs.Initialisers.{default_of as default_of_of, defaults_of as defaults_of_of, all_defaults as all_defaults_of, declares_members};

use crate::defaults::default_of;
use crate::syntax::kids_in;
use elab_implicit::below::{
    ElabFault, MakeLambdas, NodeId, NodeKind, Nodes, State, Tokens, elab_types_node_at as node_at,
};
use std::alloc::Global;

// Whether a node declares data members.
fn is_declaration(kind: NodeKind) -> bool
    ensures { result ≡ declares_members kind }
{
    match kind {
        NodeKind::MemberDeclaration => true,
        _ => false,
    }
}

// The initialisers of the declarators of a declaration.
fn defaults_among<L: MakeLambdas>(
    alloc: Global,
    lams: &L,
    tokens: &Tokens,
    nodes: &Nodes,
    st: &mut State,
    class: u32,
    ids: &[NodeId],
) -> Result<(), ElabFault>
    requires { are_below (length nodes.now) ids.now ≡ true }
    ensures { Changes st.old st.new result (each_of (default_of_of (L.lambdas lams.now) (lexemes_of tokens.now) class) (state_of st.old) (trees_at (syntax_of nodes.now) ids.now)) }
{
    for id in ids {
        default_of(alloc, lams, tokens, nodes, st, class, *id)?;
    }
    Ok(())
}

// The initialisers of a declaration.
fn defaults_of<L: MakeLambdas>(
    alloc: Global,
    lams: &L,
    tokens: &Tokens,
    nodes: &Nodes,
    st: &mut State,
    class: u32,
    id: NodeId,
) -> Result<(), ElabFault>
    requires { id.0 < length nodes.now }
    ensures { Changes st.old st.new result (defaults_of_of (L.lambdas lams.now) (lexemes_of tokens.now) class (state_of st.old) (tree_at (syntax_of nodes.now) id)) }
{
    if !is_declaration(node_at(nodes, id).kind) {
        return Ok(());
    }
    defaults_among(alloc, lams, tokens, nodes, st, class, kids_in(nodes, id))
}

/// The initialisers of the members of a class, in the order of the text.
pub fn all_defaults<L: MakeLambdas>(
    alloc: Global,
    lams: &L,
    tokens: &Tokens,
    nodes: &Nodes,
    st: &mut State,
    class: u32,
    ids: &[NodeId],
) -> Result<(), ElabFault>
    requires { are_below (length nodes.now) ids.now ≡ true }
    ensures { Changes st.old st.new result (all_defaults_of (L.lambdas lams.now) (lexemes_of tokens.now) class (state_of st.old) (trees_at (syntax_of nodes.now) ids.now)) }
{
    for id in ids {
        defaults_of(alloc, lams, tokens, nodes, st, class, *id)?;
    }
    Ok(())
}
