// Destructors (C++14 12.4): what is to be done for the object, round the block.

ghost use Rattle.std.specs.Prelude.{◌<◌, length};
ghost use Rattle.elab_entry.specs.cpp_lex.Tokens.{lexemes_of};
ghost use Rattle.elab_entry.specs.elab_types.Syntax.{syntax_of, tree_at};
ghost use Rattle.elab_entry.specs.elab_scopes.States.{state_of};
ghost use Rattle.elab_entry.specs.elab_scopes.Says.{Changes, Does};
ghost use Rattle.class_members.specs.Shown.{header_of};
ghost use Rattle.elab_members.specs.Bodies.{destructor_inside as destructor_inside_of, destructor_body as destructor_body_of};

use crate::blocks::statements_inside;
use elab_implicit::below::{
    ElabFault, Header, MakeLambdas, NodeId, Nodes, State, TNodeId, Tokens, body_made,
    elab_types_node_at as node_at, leave_function, place,
};
use elab_implicit::ending::destructor_tree;
use elab_implicit::object::enter_object;
use std::alloc::Global;

// What a destructor does, in its own scope.
fn destructor_inside<L: MakeLambdas>(
    alloc: Global,
    lams: &L,
    tokens: &Tokens,
    nodes: &Nodes,
    st: &mut State,
    class: u32,
    header: &Header,
    body: NodeId,
) -> Result<TNodeId, ElabFault>
    requires { body.0 < length nodes.now }
    ensures { Does st.old st.new result (destructor_inside_of (L.lambdas lams.now) (lexemes_of tokens.now) (state_of st.old) (header_of header.now) class (tree_at (syntax_of nodes.now) body)) }
{
    let list = statements_inside(alloc, lams, tokens, nodes, st, body)?;
    let at = place(node_at(nodes, body).at);
    let made = destructor_tree(
        alloc,
        &st.env,
        &mut st.work.nodes,
        header.at,
        at,
        class,
        list,
    )?;
    Ok(made)
}

/// The body of a destructor.
pub fn destructor_body<L: MakeLambdas>(
    alloc: Global,
    lams: &L,
    tokens: &Tokens,
    nodes: &Nodes,
    st: &mut State,
    class: u32,
    func: u32,
    header: &Header,
    body: NodeId,
) -> Result<(), ElabFault>
    requires { body.0 < length nodes.now }
    ensures { Changes st.old st.new result (destructor_body_of (L.lambdas lams.now) (lexemes_of tokens.now) (state_of st.old) (header_of header.now) class func (tree_at (syntax_of nodes.now) body)) }
{
    let around = enter_object(alloc, st, class)?;
    let made = destructor_inside(alloc, lams, tokens, nodes, st, class, header, body);
    let inside = leave_function(st, around);
    body_made(alloc, st, header.at, func, inside, made?)
}
