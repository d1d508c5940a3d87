// Reading tokens and syntax nodes.

ghost use Rattle.std.specs.Prelude.{◌≡◌, ◌<◌, length, true, Some, slice_get};
ghost use Rattle.elab_conv.specs.cpp_lex.Tokens.{lexemes_of};
ghost use Rattle.elab_conv.specs.cpp_ast.Orders.{are_below};
ghost use Rattle.elab_conv.specs.cpp_ast.Trees as shown;
ghost use Rattle.elab_conv.specs.elab_ctx.Steps.{spelling as spelling_of, value_at as value_of, token_place as place_of, at_of};
ghost use Rattle.elab_types.specs.Syntax.{syntax_of, tree_at, trees_at};

use cpp_types::At;
use elab_conv::below::{Node, NodeId, Nodes, Tokens};

/// The spelling of a token; nothing where there is none.
pub fn spelling(tokens: &Tokens, token: u32) -> &[u8]
    ensures { result.now ≡ spelling_of (lexemes_of tokens.now) token }
{
    match tokens.items.get(token as usize) {
        Some(found) => &found.bytes,
        None => &[],
    }
}

/// The value of a literal.
pub fn value_at(tokens: &Tokens, token: u32) -> u64
    ensures { result ≡ value_of (lexemes_of tokens.now) token }
{
    match tokens.items.get(token as usize) {
        Some(found) => found.value,
        None => 0,
    }
}

/// The place of a token in a source.
pub fn token_place(tokens: &Tokens, source: u32, token: u32) -> At
    ensures { result ≡ place_of (lexemes_of tokens.now) source token }
{
    let offset = match tokens.items.get(token as usize) {
        Some(found) => found.from,
        None => 0,
    };
    At { source, offset }
}

/// The place of a syntax node.
pub fn place(at: elab_conv::below::CppAstAt) -> At
    ensures { result ≡ at_of at }
{
    At {
        source: at.source,
        offset: at.offset,
    }
}

/// The syntax node with an id, whose kids have lower ids.
pub fn node_at(nodes: &Nodes, id: NodeId) -> &Node
    requires { id.0 < length nodes.now }
    ensures node { tree_at (syntax_of nodes.now) id ≡ shown.node result.now.kind result.now.at result.now.token (trees_at (syntax_of nodes.now) result.now.kids.items) }
    ensures lower { are_below id.0 result.now.kids.items ≡ true }
{
    nodes.node(id)
}
