// Names in the body of a lambda (C++14 3.4, 5.1.2).

ghost use Rattle.std.specs.Prelude.{◌≡◌, ◌<◌, length, true, false, is_some, IfOk, MatchOption};
ghost use Rattle.elab_init.specs.cpp_ast.Orders.{are_below};
ghost use Rattle.elab_init.specs.elab_ctx.Ctx.{ctx_of};
ghost use Rattle.elab_init.specs.elab_rules.Names.{is_local_entity, member_here};
ghost use Rattle.elab_init.specs.elab_rules.Lambdas.{entity_number, name_token as name_token_of, name_among as name_among_of};
ghost use Rattle.elab_types.specs.Syntax.{syntax_of, tree_at, trees_at};

use elab_init::below::{Entity, EntityKind, Env, NodeId, NodeKind, Nodes};
use elab_names::member_found;
use elab_types::syntax::node_at;
use std::alloc::AllocError;

/// The variable of the function around that an entity stands for.
pub fn local_number(entity: Option<Entity>) -> Option<u32>
    ensures local { MatchOption result (is_local_entity entity ≡ false) (λ n. is_local_entity entity ≡ true) }
    ensures number { MatchOption result (Unit {0}) (λ n. n ≡ entity_number entity) }
{
    match entity {
        Some(found) => match found.kind {
            EntityKind::Local => Some(found.id),
            EntityKind::Global
            | EntityKind::Funcs
            | EntityKind::Enumerator
            | EntityKind::Member
            | EntityKind::Captured => None,
        },
        None => None,
    }
}

/// Whether a name is that of a member of the class at hand.
pub fn is_member_here(env: &Env, name: &[u8]) -> Result<bool, AllocError>
    ensures { IfOk result (λ b. b ≡ is_some (member_here (ctx_of env.now) name.now env.now.class)) }
{
    let Some(class) = env.class else {
        return Ok(false);
    };
    match member_found(env, name, class)? {
        Some(_) => Ok(true),
        None => Ok(false),
    }
}

/// The token of the name in a declarator.
#[cycle(named)]
pub fn name_token(nodes: &Nodes, id: NodeId) -> Option<u32>
    requires { id.0 < length nodes.now }
    ensures { result ≡ name_token_of (tree_at (syntax_of nodes.now) id) }
{
    let node = node_at(nodes, id);
    match node.kind {
        NodeKind::DeclaratorId => node.token,
        _ => name_among(nodes, id, &node.kids),
    }
}

/// The same in the first of several that has one; they stand below their parent.
#[cycle(named)]
pub fn name_among(nodes: &Nodes, parent: NodeId, ids: &[NodeId]) -> Option<u32>
    requires within { parent.0 < length nodes.now }
    requires lower { are_below parent.0 ids.now ≡ true }
    ensures { result ≡ name_among_of (trees_at (syntax_of nodes.now) ids.now) }
{
    for id in ids {
        if let Some(token) = name_token(nodes, *id) {
            return Some(token);
        }
    }
    None
}
