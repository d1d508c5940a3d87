// Nodes that are built by hand.

ghost use Rattle.std.specs.Prelude.{◌≡◌, [], ◌∷◌, IfOk};

use cpp_ast::{At, LamBody, Node, NodeId, NodeKind, Nodes, Unit};
use cpp_lex::{Tokens, lex};
use cpp_syntax::Builder;
use std::alloc::{AllocError, Global};

// A position in the source 0.
fn at(offset: u32) -> At {
    At { source: 0, offset }
}

// A node at an offset, which is also the number of its token.
fn leaf(alloc: Global, kind: NodeKind, offset: u32) -> Node
    ensures { result.kids.items ≡ [] }
{
    Node {
        kind,
        at: at(offset),
        kids: Vec::new(alloc),
        token: Some(offset),
    }
}

// A node of two kids.
fn pair(
    alloc: Global,
    kind: NodeKind,
    offset: u32,
    left: NodeId,
    right: NodeId,
) -> Result<Node, AllocError>
    ensures { IfOk result (λ node. node.kids.items ≡ left ∷ right ∷ []) }
{
    let mut node = leaf(alloc, kind, offset);
    node.kids.push(left)?;
    node.kids.push(right)?;
    Ok(node)
}

// How many nodes there are, and what the last is.
fn state(alloc: Global, nodes: &Nodes) -> Result<String, AllocError> {
    let counts = format!(in alloc; "{} {} {}", nodes.len(), nodes.is_empty(), nodes.is_full())?;
    if nodes.len() == 0 {
        return Ok(counts);
    }
    let last = nodes.node(NodeId(nodes.len() - 1));
    format!(in alloc; "{counts} {last:?}")
}

// `a + b`: its nodes are added behind their kids.
fn added(alloc: Global) -> Result<String, AllocError> {
    let mut nodes = Nodes::new(alloc);
    let empty = state(alloc, &nodes)?;
    nodes.add(leaf(alloc, NodeKind::UnqualifiedId, 0))?;
    nodes.add(leaf(alloc, NodeKind::UnqualifiedId, 2))?;
    let two = state(alloc, &nodes)?;
    let sum = pair(alloc, NodeKind::BinaryExpression, 1, NodeId(0), NodeId(1))?;
    let id = nodes.add(sum)?;
    let three = state(alloc, &nodes)?;
    format!(in alloc; "{empty}, {two}, {id:?} {three}")
}

// Two nodes, cut back to two and to one.
fn cut(alloc: Global) -> Result<String, AllocError> {
    let mut nodes = Nodes::new(alloc);
    nodes.add(leaf(alloc, NodeKind::This, 0))?;
    nodes.add(leaf(alloc, NodeKind::NullStatement, 4))?;
    nodes.truncate(2);
    let two = state(alloc, &nodes)?;
    nodes.truncate(1);
    let one = state(alloc, &nodes)?;
    format!(in alloc; "{two}, {one}")
}

// `[] {}`, a lambda with an empty body, which a unit keeps apart: how many tokens, nodes, declarations and bodies there are.
fn unit(alloc: Global, tokens: Tokens) -> Result<String, AllocError> {
    let mut bodies = Vec::new(alloc);
    bodies.push(LamBody {
        lam: NodeId(1),
        body: NodeId(2),
    })?;
    let unit = Unit {
        source: 0,
        tokens,
        nodes: Nodes::new(alloc),
        decls: Vec::new(alloc),
        bodies,
    };
    format!(in alloc;
        "{} {} {} {}",
        unit.tokens.items.len(),
        unit.nodes.len(),
        unit.decls.len(),
        unit.bodies.len()
    )
}

// `a[1]`, and behind it a lambda, which is cut off again.
fn built(alloc: Global) -> Result<String, AllocError> {
    let mut out = Builder::over(alloc, Nodes::new(alloc));
    let start = out.checkpoint();
    out.leaf(NodeKind::UnqualifiedId, at(0), Some(0))?;
    out.leaf(NodeKind::IntegerLiteral, at(2), Some(2))?;
    let first = out.first_position(start.trees, at(9));
    out.node(start.trees, NodeKind::Subscript, at(0), Some(1))?;
    let mark = out.checkpoint();
    out.leaf(NodeKind::LambdaIntroducer, at(7), Some(5))?;
    out.lambda(mark.trees, at(7), 5, 8, 8)?;
    out.cut(mark);
    let declared = out.declared(0);
    let parts = out.into_parts();
    format!(in alloc;
        "{first:?} {} {declared:?} {} {}",
        mark.trees,
        parts.roots.len(),
        parts.bodies.len()
    )
}

// Of some kinds, whether they count in depth, or have a token.
fn kinds(alloc: Global) -> Result<String, AllocError> {
    format!(in alloc;
        "{} {} {} {} {} {}",
        NodeKind::ParenthesizedExpression.counts_one(),
        NodeKind::PointerDeclarator.counts_one(),
        NodeKind::InitDeclarator.counts_one(),
        NodeKind::Handler.counts_one(),
        NodeKind::BinaryExpression.has_token(),
        NodeKind::TypeId.has_token()
    )
}

/// What is built where a word asks for it.
pub fn answer(alloc: Global, word: &str) -> Result<String, AllocError> {
    match word {
        "added" => added(alloc),
        "cut" => cut(alloc),
        "built" => built(alloc),
        "kinds" => kinds(alloc),
        _ => match lex(alloc, b"[] {}") {
            Ok(tokens) => unit(alloc, tokens),
            Err(fault) => format!(in alloc; "{fault:?}"),
        },
    }
}
