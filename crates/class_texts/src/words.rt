// The words behind the declarator of a member (C++14 9.2).

ghost use Rattle.std.specs.Prelude.{◌≡◌, ◌<◌, ◌||◌, ℕ, Option, length, true};
ghost use Rattle.elab_init.specs.cpp_lex.Tokens.{lexemes_of};
ghost use Rattle.elab_init.specs.cpp_ast.Orders.{are_below};
ghost use Rattle.elab_init.specs.cpp_ast.Trees.{node, Trees, more};
ghost use Rattle.elab_init.specs.cpp_ast.declared.kinds.NodeKind.TheVariants.{VirtSpecifier};
ghost use Rattle.elab_init.specs.cpp_ast.declared.arena.At.{At as SyntaxAt};
ghost use Rattle.elab_init.specs.elab_rules.Classes.{with_mark as with_mark_of, marks_from as marks_from_of, no_marks, is_initialiser as is_initialiser_of, has_initialiser as has_initialiser_of, has_equal as has_equal_of};
ghost use Rattle.elab_types.specs.Syntax.{syntax_of, trees_at};
ghost use Rattle.class_members.specs.Shown.{marks_of};

use class_members::Marks;
use elab_init::below::{NodeId, NodeKind, Nodes, Tokens};
use elab_types::specifiers::is_spelled;
use elab_types::syntax::node_at;

fn with_word(tokens: &Tokens, marks: Marks, token: Option<u32>) -> Marks
    ensures { (at : SyntaxAt) (kids : Trees) → with_mark_of (lexemes_of tokens.now) (marks_of marks) (node VirtSpecifier at token kids) ≡ marks_of result }
{
    let Some(token) = token else {
        return marks;
    };
    if is_spelled(tokens, token, b"override") {
        return Marks {
            is_override: true,
            ..marks
        };
    }
    Marks {
        is_final: true,
        ..marks
    }
}

fn with_mark(tokens: &Tokens, marks: Marks, kind: NodeKind, token: Option<u32>) -> Marks
    ensures { (at : SyntaxAt) (kids : Trees) → with_mark_of (lexemes_of tokens.now) (marks_of marks) (node kind at token kids) ≡ marks_of result }
{
    match kind {
        NodeKind::VirtSpecifier => with_word(tokens, marks, token),
        NodeKind::PureSpecifier => Marks {
            is_pure: true,
            ..marks
        },
        _ => marks,
    }
}

/// The words `override` and `final`, and whether the function is pure.
pub fn marks_from(tokens: &Tokens, nodes: &Nodes, kids: &[NodeId]) -> Marks
    requires { are_below (length nodes.now) kids.now ≡ true }
    ensures { marks_of result ≡ marks_from_of (lexemes_of tokens.now) no_marks (trees_at (syntax_of nodes.now) kids.now) }
{
    let mut found = Marks {
        is_override: false,
        is_final: false,
        is_pure: false,
    };
    for kid in kids {
        let node = node_at(nodes, *kid);
        found = with_mark(tokens, found, node.kind, node.token);
    }
    found
}

fn is_initialiser(kind: NodeKind, token: Option<u32>) -> bool
    ensures { (at : SyntaxAt) (kids : Trees) → is_initialiser_of (node kind at token kids) ≡ result }
{
    match kind {
        NodeKind::EqualInitializer => true,
        NodeKind::PureSpecifier => true,
        _ => false,
    }
}

/// Whether a member has an initialiser of its own.
pub fn has_initialiser(nodes: &Nodes, kids: &[NodeId]) -> bool
    requires { are_below (length nodes.now) kids.now ≡ true }
    ensures { result ≡ has_initialiser_of (trees_at (syntax_of nodes.now) kids.now) }
{
    for kid in kids {
        let node = node_at(nodes, *kid);
        if is_initialiser(node.kind, node.token) {
            return true;
        }
    }
    false
}

fn is_equal(kind: NodeKind) -> bool
    ensures { (at : SyntaxAt) (token : Option ℕ) (kids rest : Trees) → has_equal_of (more (node kind at token kids) rest) ≡ (result || has_equal_of rest) }
{
    match kind {
        NodeKind::EqualInitializer => true,
        _ => false,
    }
}

/// Whether an expression or braces stand behind `=`.
pub fn has_equal(nodes: &Nodes, kids: &[NodeId]) -> bool
    requires { are_below (length nodes.now) kids.now ≡ true }
    ensures { result ≡ has_equal_of (trees_at (syntax_of nodes.now) kids.now) }
{
    for kid in kids {
        if is_equal(node_at(nodes, *kid).kind) {
            return true;
        }
    }
    false
}
