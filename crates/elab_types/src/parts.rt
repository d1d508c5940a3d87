// Parts of declarators that hold no expressions (C++14 8.3).

ghost use Rattle.std.specs.Prelude.{◌≡◌, ◌<◌, length, true, IfOk};
ghost use Rattle.elab_conv.specs.cpp_lex.Tokens.{lexemes_of};
ghost use Rattle.cpp_types.specs.Typ.{typ_of};
ghost use Rattle.elab_conv.specs.cpp_ast.Orders.{are_below};
ghost use Rattle.elab_conv.specs.cpp_ast.Trees.{node, Trees};
ghost use Rattle.elab_conv.specs.cpp_ast.declared.kinds.NodeKind.TheVariants.{TxQualifier};
ghost use Rattle.elab_conv.specs.cpp_ast.declared.arena.At.{At as SyntaxAt};
ghost use Rattle.elab_conv.specs.elab_ctx.Steps.{spelling as spelling_of};
ghost use Rattle.elab_conv.specs.elab_rules.Types.{is_name as is_name_of, owner_token as owner_token_of, with_qualifier as with_qualifier_of, qualifiers_of as all_qualifiers_of, qualifiers_from, no_qualifiers};
ghost use Rattle.elab_types.specs.Specified.{pointer_qualified as pointer_qualified_of};
ghost use Rattle.elab_types.specs.Syntax.{syntax_of, tree_at, trees_at};
ghost use Rattle.elab_types.specs.Shown.{qualifiers_of as qualifiers_view};

use crate::kids::{Kids, kids_of};
use crate::records::Qualifiers;
use crate::specifiers::is_spelled;
use crate::syntax::node_at;
use crate::types::with_qualifiers;
use cpp_types::Ty;
use elab_conv::below::{NodeId, NodeKind, Nodes, Tokens};
use std::alloc::{AllocError, Global};

/// Whether a declarator is a name alone, in parentheses or not.
pub fn is_name(nodes: &Nodes, id: NodeId) -> bool
    requires { id.0 < length nodes.now }
    ensures { result ≡ is_name_of (tree_at (syntax_of nodes.now) id) }
{
    let node = node_at(nodes, id);
    match node.kind {
        NodeKind::DeclaratorId
        | NodeKind::QualifiedDeclaratorId
        | NodeKind::DestructorId
        | NodeKind::QualifiedDestructorId
        | NodeKind::OmittedId => true,
        NodeKind::ParenthesizedDeclarator => match kids_of(&node.kids) {
            Kids::One(kid) => is_name(nodes, kid),
            Kids::None | Kids::Two(_, _) | Kids::Three(_, _, _) | Kids::Many => false,
        },
        _ => false,
    }
}

/// The token of the class before a name.
pub fn owner_token(nodes: &Nodes, kids: &[NodeId]) -> Option<u32>
    requires { are_below (length nodes.now) kids.now ≡ true }
    ensures { result ≡ owner_token_of (trees_at (syntax_of nodes.now) kids.now) }
{
    if kids.is_empty() {
        return None;
    }
    node_at(nodes, kids[0]).token
}

// What follows the parameters of a function, with one more.
fn with_qualifier(
    tokens: &Tokens,
    qualifiers: Qualifiers,
    kind: NodeKind,
    token: Option<u32>,
) -> Qualifiers
    ensures { (at : SyntaxAt) (kids : Trees) → with_qualifier_of (lexemes_of tokens.now) (qualifiers_view qualifiers) (node kind at token kids) ≡ qualifiers_view result }
{
    match kind {
        NodeKind::CvQualifier => Qualifiers {
            is_const: true,
            ..qualifiers
        },
        NodeKind::TxQualifier => with_tx_qualifier(tokens, qualifiers, token),
        NodeKind::NoexceptSpecification => Qualifiers {
            no_except: true,
            ..qualifiers
        },
        _ => qualifiers,
    }
}

fn with_tx_qualifier(tokens: &Tokens, qualifiers: Qualifiers, token: Option<u32>) -> Qualifiers
    ensures { (at : SyntaxAt) (kids : Trees) → with_qualifier_of (lexemes_of tokens.now) (qualifiers_view qualifiers) (node TxQualifier at token kids) ≡ qualifiers_view result }
{
    let Some(token) = token else {
        return qualifiers;
    };
    if is_spelled(tokens, token, b"transaction_safe") {
        return Qualifiers {
            is_safe: true,
            ..qualifiers
        };
    }
    Qualifiers {
        is_dynamic: true,
        ..qualifiers
    }
}

// What several nodes behind the parameters of a function say.
fn qualifiers_among(tokens: &Tokens, nodes: &Nodes, kids: &[NodeId]) -> Qualifiers
    requires { are_below (length nodes.now) kids.now ≡ true }
    ensures { qualifiers_view result ≡ qualifiers_from (lexemes_of tokens.now) no_qualifiers (trees_at (syntax_of nodes.now) kids.now) }
{
    let mut found = Qualifiers {
        is_const: false,
        is_safe: false,
        is_dynamic: false,
        no_except: false,
    };
    for kid in kids {
        let node = node_at(nodes, *kid);
        found = with_qualifier(tokens, found, node.kind, node.token);
    }
    found
}

/// What follows the parameters of a function.
pub fn qualifiers_of(tokens: &Tokens, nodes: &Nodes, id: NodeId) -> Qualifiers
    requires { id.0 < length nodes.now }
    ensures { qualifiers_view result ≡ all_qualifiers_of (lexemes_of tokens.now) (tree_at (syntax_of nodes.now) id) }
{
    qualifiers_among(tokens, nodes, &node_at(nodes, id).kids)
}

/// A type with one more qualifier of a pointer.
pub fn pointer_qualified(
    alloc: Global,
    tokens: &Tokens,
    token: u32,
    ty: &Ty,
) -> Result<Ty, AllocError>
    ensures { IfOk result (λ t. typ_of t ≡ pointer_qualified_of (spelling_of (lexemes_of tokens.now) token) (typ_of ty.now)) }
{
    if is_spelled(tokens, token, b"const") {
        with_qualifiers(alloc, true, false, ty)
    } else {
        with_qualifiers(alloc, false, true, ty)
    }
}
