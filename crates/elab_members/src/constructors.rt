// Constructors: the parts of the object, then the block (C++14 12.6.2).

ghost use Rattle.std.specs.Prelude.{◌≡◌, ◌<◌, length, true};
ghost use Rattle.elab_entry.specs.cpp_ast.Orders.{are_below};
ghost use Rattle.elab_entry.specs.cpp_lex.Tokens.{lexemes_of};
ghost use Rattle.elab_entry.specs.cpp_tree.Arena.{trees_at as typed_at};
ghost use Rattle.elab_entry.specs.elab_ctx.Says.{are_within};
ghost use Rattle.elab_entry.specs.elab_types.Syntax.{syntax_of, tree_at, trees_at};
ghost use Rattle.elab_entry.specs.elab_scopes.States.{state_of, made};
ghost use Rattle.elab_entry.specs.elab_scopes.Says.{Changes, Does};
ghost use Rattle.class_members.specs.Shown.{header_of};
ghost use Rattle.elab_members.specs.Bodies.{constructor_block as constructor_block_of, constructor_given as constructor_given_of, constructor_inside as constructor_inside_of, constructor_body as constructor_body_of};

use crate::blocks::statements_inside;
use crate::written::all_given;
use elab_implicit::below::{
    ElabFault, Header, MakeLambdas, NodeId, Nodes, State, TNodeId, Tokens, body_made,
    elab_types_node_at as node_at, leave_function, place, with_parameters,
};
use elab_implicit::building::{constructor_tree, parts_built};
use elab_implicit::object::enter_object;
use std::alloc::Global;

// The parts of the object, then the block.
fn constructor_block<L: MakeLambdas>(
    alloc: Global,
    lams: &L,
    tokens: &Tokens,
    nodes: &Nodes,
    st: &mut State,
    parts: Vec<TNodeId>,
    body: NodeId,
) -> Result<TNodeId, ElabFault>
    requires body { body.0 < length nodes.now }
    requires parts { are_within (length (made st.old)) parts.items ≡ true }
    ensures { Does st.old st.new result (constructor_block_of (L.lambdas lams.now) (lexemes_of tokens.now) (record { trees = typed_at (made st.old) parts.items; state = state_of st.old }) (tree_at (syntax_of nodes.now) body)) }
{
    let list = statements_inside(alloc, lams, tokens, nodes, st, body)?;
    let at = place(node_at(nodes, body).at);
    let made = constructor_tree(&mut st.work.nodes, at, parts, list)?;
    Ok(made)
}

// What is written for the parts, the parts, and the block.
fn constructor_given<L: MakeLambdas>(
    alloc: Global,
    lams: &L,
    tokens: &Tokens,
    nodes: &Nodes,
    st: &mut State,
    class: u32,
    header: &Header,
    inits: &[NodeId],
    body: NodeId,
) -> Result<TNodeId, ElabFault>
    requires inits { are_below (length nodes.now) inits.now ≡ true }
    requires body { body.0 < length nodes.now }
    ensures { Does st.old st.new result (constructor_given_of (L.lambdas lams.now) (lexemes_of tokens.now) (state_of st.old) (header_of header.now) class (trees_at (syntax_of nodes.now) inits.now) (tree_at (syntax_of nodes.now) body)) }
{
    let given = all_given(alloc, lams, tokens, nodes, st, class, inits)?;
    let parts = parts_built(alloc, st, header.at, class, &given)?;
    constructor_block(alloc, lams, tokens, nodes, st, parts, body)
}

// What a constructor does, in its own scope.
fn constructor_inside<L: MakeLambdas>(
    alloc: Global,
    lams: &L,
    tokens: &Tokens,
    nodes: &Nodes,
    st: &mut State,
    class: u32,
    header: &Header,
    inits: &[NodeId],
    body: NodeId,
) -> Result<TNodeId, ElabFault>
    requires inits { are_below (length nodes.now) inits.now ≡ true }
    requires body { body.0 < length nodes.now }
    ensures { Does st.old st.new result (constructor_inside_of (L.lambdas lams.now) (lexemes_of tokens.now) (state_of st.old) (header_of header.now) class (trees_at (syntax_of nodes.now) inits.now) (tree_at (syntax_of nodes.now) body)) }
{
    with_parameters(alloc, tokens, st, &header.params)?;
    constructor_given(alloc, lams, tokens, nodes, st, class, header, inits, body)
}

/// The body of a constructor.
pub fn constructor_body<L: MakeLambdas>(
    alloc: Global,
    lams: &L,
    tokens: &Tokens,
    nodes: &Nodes,
    st: &mut State,
    class: u32,
    func: u32,
    header: &Header,
    inits: &[NodeId],
    body: NodeId,
) -> Result<(), ElabFault>
    requires inits { are_below (length nodes.now) inits.now ≡ true }
    requires body { body.0 < length nodes.now }
    ensures { Changes st.old st.new result (constructor_body_of (L.lambdas lams.now) (lexemes_of tokens.now) (state_of st.old) (header_of header.now) class func (trees_at (syntax_of nodes.now) inits.now) (tree_at (syntax_of nodes.now) body)) }
{
    let around = enter_object(alloc, st, class)?;
    let made = constructor_inside(alloc, lams, tokens, nodes, st, class, header, inits, body);
    let inside = leave_function(st, around);
    body_made(alloc, st, header.at, func, inside, made?)
}
