// Trees as texts: a node is its kind, its token, and in parentheses its kids.

ghost use Rattle.std.specs.Prelude.{◌≤◌, length};

use case_texts::add_word;
use cpp_ast::{Node, NodeId, Nodes, Unit};
use cpp_lex::Tokens;
use cpp_parse::parse_unit;
use cpp_parse_expr::{ExprForm, ParseFault, parse_expr};
use cpp_syntax::TypeNames;
use std::alloc::{AllocError, Global};

// How many tokens `class T; ` is, which stands before each expression, so that T names a type.
const FROM: u32 = 3;

// The trees of some nodes, with blanks between them.
fn joined(alloc: Global, trees: &[String], ids: &[NodeId]) -> Result<String, AllocError> {
    let mut line = String::new(alloc);
    for id in ids {
        if let Some(tree) = trees.get(id.0 as usize) {
            add_word(&mut line, tree)?;
        }
    }
    Ok(line)
}

// The tree of a node whose kids have these trees.
fn tree(
    alloc: Global,
    node: &Node,
    tokens: &Tokens,
    trees: &[String],
) -> Result<String, AllocError> {
    let mut text = format!(in alloc; "{:?}", node.kind)?;
    if let Some(at) = node.token
        && let Some(token) = tokens.items.get(at as usize)
    {
        text.push_str(":")?;
        text.push_str(&format!(in alloc; "{}", token.bytes.escape_ascii())?)?;
    }
    if !node.kids.is_empty() {
        let kids = joined(alloc, trees, &node.kids)?;
        text.push_str(&format!(in alloc; "({kids})")?)?;
    }
    Ok(text)
}

// The trees of all nodes.
fn trees(alloc: Global, nodes: &Nodes, tokens: &Tokens) -> Result<Vec<String>, AllocError> {
    let mut trees: Vec<String> = Vec::new(alloc);
    for id in 0..nodes.len() {
        let tree = tree(alloc, nodes.node(NodeId(id)), tokens, &trees)?;
        trees.push(tree)?;
    }
    Ok(trees)
}

// The declarations of a unit, and behind them the bodies of its lambdas.
fn written(alloc: Global, unit: &Unit) -> Result<String, AllocError> {
    let trees = trees(alloc, &unit.nodes, &unit.tokens)?;
    let mut line = joined(alloc, &trees, &unit.decls)?;
    for body in &unit.bodies {
        add_word(&mut line, "/")?;
        add_word(&mut line, &joined(alloc, &trees, &[body.body])?)?;
    }
    Ok(line)
}

// A fault, and behind how many tokens from an index it stands.
fn refused(alloc: Global, fault: &ParseFault, from: u32) -> Result<String, AllocError> {
    match fault {
        ParseFault::Syntax { token } => {
            format!(in alloc; "Syntax {}", token.saturating_sub(from))
        }
        ParseFault::Nesting { token } => {
            format!(in alloc; "Nesting {}", token.saturating_sub(from))
        }
        ParseFault::Memory => format!(in alloc; "Memory"),
    }
}

/// The trees of a unit, or its fault.
pub fn unit(alloc: Global, tokens: &Tokens) -> Result<String, AllocError>
    requires { length tokens.now.items.items ≤ 1_048_576 }
{
    match parse_unit(alloc, 0, tokens) {
        Ok(unit) => written(alloc, &unit),
        Err(fault) => refused(alloc, &fault, 0),
    }
}

/// Of how many declarations a unit is, or its fault.
pub fn declarations(alloc: Global, tokens: &Tokens) -> Result<String, AllocError>
    requires { length tokens.now.items.items ≤ 1_048_576 }
{
    match parse_unit(alloc, 0, tokens) {
        Ok(unit) => format!(in alloc; "{} declarations", unit.decls.len()),
        Err(fault) => refused(alloc, &fault, 0),
    }
}

/// The bytes of a text from where its Syntax fault stands.
pub fn slip(alloc: Global, bytes: &[u8], tokens: &Tokens) -> Result<String, AllocError>
    requires { length tokens.now.items.items ≤ 1_048_576 }
{
    let Err(ParseFault::Syntax { token }) = parse_unit(alloc, 0, tokens) else {
        return format!(in alloc; "no slip");
    };
    let at = match tokens.items.get(token as usize) {
        Some(token) => token.from as usize,
        None => bytes.len(),
    };
    let rest = bytes.get(at..).unwrap_or(b"");
    format!(in alloc; "{}", rest.escape_ascii())
}

/// The tree of an expression, or of another form, and how many tokens it has, or its fault. Its root has a depth.
pub fn expression(
    alloc: Global,
    form: ExprForm,
    depth: u32,
    tokens: &Tokens,
) -> Result<String, AllocError>
    requires { length tokens.now.items.items ≤ 1_048_576 }
{
    let types = TypeNames::of(alloc, 0, tokens)?;
    if types.len() < FROM as usize {
        return format!(in alloc; "too short");
    }
    let mut nodes = Nodes::new(alloc);
    match parse_expr(alloc, form, FROM, &types, depth, 200, &mut nodes) {
        Ok(out) => {
            let trees = trees(alloc, &nodes, tokens)?;
            let tree = joined(alloc, &trees, &[out.root])?;
            format!(in alloc; "{tree} {}", out.next.saturating_sub(FROM))
        }
        Err(fault) => refused(alloc, &fault, FROM),
    }
}
