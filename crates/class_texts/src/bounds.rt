// Bounds of arrays in a class name none of its members (profile).

ghost use Rattle.std.specs.Prelude.{◌≡◌, ◌<◌, ℕ, Option, MatchOption, length, true, List, if◌then◌else◌};
ghost use Rattle.elab_init.specs.cpp_lex.Tokens.{lexemes_of, Lexeme};
ghost use Rattle.elab_init.specs.cpp_ast.Orders.{are_below};
ghost use Rattle.elab_init.specs.cpp_ast.Trees.{node, Trees, more};
ghost use Rattle.elab_init.specs.cpp_ast.declared.arena.At.{At as SyntaxAt};
ghost use Rattle.elab_init.specs.elab_ctx.Ctx.{ctx_of, Work};
ghost use Rattle.elab_init.specs.elab_ctx.Says.{Tells};
ghost use Rattle.elab_init.specs.elab_ctx.Steps.{at_of, spelling as spelling_of};
ghost use Rattle.elab_init.specs.elab_rules.Statements.{Body};
ghost use Rattle.elab_init.specs.elab_rules.Classes.{Members as MembersRead, place_if, is_own_member as is_own_member_of, member_named as member_named_of, member_among as member_among_of, declarator_among as declarator_among_of, within_bounds as within_bounds_of};
ghost use Rattle.elab_types.specs.Syntax.{syntax_of, tree_at, trees_at};
ghost use Rattle.class_members.specs.Shown.{reading};

use class_members::{Members, has_function, has_member};
use cpp_types::At;
use elab_init::below::{ElabFault, Env, IllRule, NodeId, NodeKind, Nodes, Tokens};
use elab_init::ill;
use elab_types::syntax::{node_at, place, spelling};

fn is_own_member(env: &Env, class: u32, members: &Members, name: &[u8]) -> bool
    ensures { (w : Work) (bodies : List Body) → result ≡ is_own_member_of class (reading (ctx_of env.now) w bodies members.now) name.now }
{
    has_member(&members.members, name) || has_function(env, class, name)
}

// The token of a name that stands alone.
fn named_token(kind: NodeKind, token: Option<u32>) -> Option<u32>
    ensures { (s : List Lexeme) (n : ℕ) (r : MembersRead) (at : SyntaxAt) (kids : Trees) → MatchOption result (member_named_of s n r (node kind at token kids) ≡ member_among_of s n r kids) (λ found. member_named_of s n r (node kind at token kids) ≡ place_if (is_own_member_of n r (spelling_of s found)) (at_of at)) }
{
    match kind {
        NodeKind::UnqualifiedId => match token {
            Some(found) => Some(found),
            None => None,
        },
        _ => None,
    }
}

/// The first name of a member in an expression.
#[cycle(named)]
pub fn member_named(
    tokens: &Tokens,
    nodes: &Nodes,
    env: &Env,
    class: u32,
    members: &Members,
    id: NodeId,
) -> Option<At>
    requires { id.0 < length nodes.now }
    ensures { (w : Work) (bodies : List Body) → result ≡ member_named_of (lexemes_of tokens.now) class (reading (ctx_of env.now) w bodies members.now) (tree_at (syntax_of nodes.now) id) }
{
    let node = node_at(nodes, id);
    match named_token(node.kind, node.token) {
        Some(token) => {
            if is_own_member(env, class, members, spelling(tokens, token)) {
                Some(place(node.at))
            } else {
                None
            }
        }
        None => member_among(tokens, nodes, env, class, members, id, &node.kids),
    }
}

// The same in several nodes below one.
#[cycle(named)]
fn member_among(
    tokens: &Tokens,
    nodes: &Nodes,
    env: &Env,
    class: u32,
    members: &Members,
    parent: NodeId,
    kids: &[NodeId],
) -> Option<At>
    requires parent { parent.0 < length nodes.now }
    requires lower { are_below parent.0 kids.now ≡ true }
    ensures { (w : Work) (bodies : List Body) → result ≡ member_among_of (lexemes_of tokens.now) class (reading (ctx_of env.now) w bodies members.now) (trees_at (syntax_of nodes.now) kids.now) }
{
    for kid in kids {
        match member_named(tokens, nodes, env, class, members, *kid) {
            Some(found) => return Some(found),
            None => {}
        }
    }
    None
}

// Whether a node is the declarator of a function.
fn is_declarator(kind: NodeKind) -> bool
    ensures { (s : List Lexeme) (n : ℕ) (r : MembersRead) (at : SyntaxAt) (token : Option ℕ) (kids rest : Trees) → declarator_among_of s n r (more (node kind at token kids) rest) ≡ (if result then member_among_of s n r kids else declarator_among_of s n r rest) }
{
    match kind {
        NodeKind::FunctionDeclarator => true,
        NodeKind::PointerDeclarator => true,
        NodeKind::ReferenceDeclarator => true,
        _ => false,
    }
}

/// The first name of a member in the declarator of a function, its body apart.
pub fn declarator_among(
    tokens: &Tokens,
    nodes: &Nodes,
    env: &Env,
    class: u32,
    members: &Members,
    kids: &[NodeId],
) -> Option<At>
    requires { are_below (length nodes.now) kids.now ≡ true }
    ensures { (w : Work) (bodies : List Body) → result ≡ declarator_among_of (lexemes_of tokens.now) class (reading (ctx_of env.now) w bodies members.now) (trees_at (syntax_of nodes.now) kids.now) }
{
    for kid in kids {
        let node = node_at(nodes, *kid);
        if is_declarator(node.kind) {
            return member_among(tokens, nodes, env, class, members, *kid, &node.kids);
        }
    }
    None
}

/// No name of a member stands there.
pub fn within_bounds(found: Option<At>) -> Result<bool, ElabFault>
    ensures { Tells result (within_bounds_of found) }
{
    match found {
        Some(at) => Err(ill(at, IllRule::OutOfProfile)),
        None => Ok(true),
    }
}
