// What stands before the type of a member (C++14 7.1, 9.2).

ghost use Rattle.std.specs.Prelude.{◌≡◌, ◌≤◌, length, true, drop, MatchOption};
ghost use Rattle.elab_init.specs.cpp_lex.Tokens.{lexemes_of};
ghost use Rattle.elab_init.specs.cpp_ast.Orders.{are_below};
ghost use Rattle.elab_init.specs.cpp_ast.Trees.{node, Trees, more};
ghost use Rattle.elab_init.specs.cpp_ast.declared.arena.At.{At as SyntaxAt};
ghost use Rattle.elab_init.specs.elab_ctx.Steps.{spelling as spelling_of};
ghost use Rattle.elab_init.specs.elab_rules.Functions.{no_storage as no_storage_of, with_specifier as with_specifier_of};
ghost use Rattle.elab_init.specs.elab_rules.Classes.{started_from as started_from_of};
ghost use Rattle.elab_types.specs.Syntax.{syntax_of, trees_at};
ghost use Rattle.class_members.specs.Shown.{storage_of};

use class_members::Storage;
use elab_init::below::{NodeId, NodeKind, Nodes, Tokens};
use elab_types::specifiers::is_spelled;
use elab_types::syntax::node_at;

/// What stands before the type, and how many kids that are.
#[derive(Clone, Copy)]
pub struct Started {
    pub storage: Storage,
    pub count: usize,
}

/// No word yet.
pub fn no_storage() -> Storage
    ensures { storage_of result ≡ no_storage_of }
{
    Storage {
        is_static: false,
        is_extern: false,
        is_inline: false,
        is_virtual: false,
        is_c: false,
    }
}

/// The words with one more.
pub fn with_specifier(tokens: &Tokens, storage: Storage, token: u32) -> Storage
    ensures { storage_of result ≡ with_specifier_of (storage_of storage) (spelling_of (lexemes_of tokens.now) token) }
{
    let mut found = storage;
    if is_spelled(tokens, token, b"static") {
        found.is_static = true;
    } else if is_spelled(tokens, token, b"extern") {
        found.is_extern = true;
    } else if is_spelled(tokens, token, b"inline") {
        found.is_inline = true;
    } else if is_spelled(tokens, token, b"virtual") {
        found.is_virtual = true;
    }
    found
}

// The words with one more, if the node is one of them.
fn with_node(
    tokens: &Tokens,
    storage: Storage,
    kind: NodeKind,
    token: Option<u32>,
) -> Option<Storage>
    ensures { (at : SyntaxAt) (kids rest : Trees) → MatchOption result (started_from_of (lexemes_of tokens.now) (storage_of storage) (more (node kind at token kids) rest) ≡ record { storage = storage_of storage; rest = more (node kind at token kids) rest }) (λ next. started_from_of (lexemes_of tokens.now) (storage_of storage) (more (node kind at token kids) rest) ≡ started_from_of (lexemes_of tokens.now) (storage_of next) rest) }
{
    match kind {
        NodeKind::Attribute => Some(storage),
        NodeKind::DeclSpecifier => match token {
            Some(word) => Some(with_specifier(tokens, storage, word)),
            None => None,
        },
        _ => None,
    }
}

/// What stands before the type of a declaration, behind the words that are known.
pub fn started_from(tokens: &Tokens, nodes: &Nodes, known: Storage, kids: &[NodeId]) -> Started
    requires { are_below (length nodes.now) kids.now ≡ true }
    ensures started { started_from_of (lexemes_of tokens.now) (storage_of known) (trees_at (syntax_of nodes.now) kids.now) ≡ record { storage = storage_of result.storage; rest = trees_at (syntax_of nodes.now) (drop result.count kids.now) } }
    ensures within { result.count ≤ length kids.now }
{
    let mut storage = known;
    for (i, kid) in kids.iter().enumerate() {
        let node = node_at(nodes, *kid);
        match with_node(tokens, storage, node.kind, node.token) {
            Some(next) => storage = next,
            None => return Started { storage, count: i },
        }
    }
    Started {
        storage,
        count: kids.len(),
    }
}
