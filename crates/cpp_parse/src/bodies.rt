//! Bodies of lambdas: C++14 5.1.2. A lambda is read without its body, and each body is read alone.

ghost use Rattle.std.specs.Prelude.{◌≡◌, length, IfOk};
ghost use Rattle.cpp_parse_expr.specs.Depths.{HaveNodes, IsNotedIn};
ghost use Rattle.cpp_parse.specs.NotedBodies.{AreWithin, IsOnceEach};
ghost use Rattle.cpp_parse.specs.Bodies.{AreInside, IsInside, ReadsBodies, ReadsBody, ReadsBlock};

use crate::statements::compound_statement;
use cpp_ast::{LamBody, NodeId, Nodes};
use cpp_parse_expr::parse::{Found, Reading, take_reading};
use cpp_syntax::limits::MAX_NESTED_CALLS;
use cpp_syntax::shapes::descend;
use cpp_syntax::{Builder, OpenBody, TypeNames};
use std::alloc::{AllocError, Global};
use std::mem;

/// What the tokens of a body are.
#[derive(Drop)]
enum Block {
    /// A compound statement, with the bodies of its lambdas, which are not read yet.
    Read { root: NodeId, bodies: Vec<OpenBody> },
    /// None; the token up to which they could be one.
    Refused { token: u32 },
}

/// Reads bodies and the bodies in them, and notes each at its lambda. It answers the token up to which it could go on
/// where one of them is no compound statement.
#[cycle(bodies_in_bodies)]
pub fn read_bodies(
    alloc: Global,
    types: &TypeNames,
    bodies: &[OpenBody],
    depth_left: u32,
    nodes: &mut Nodes,
    noted: &mut Vec<LamBody>,
) -> Result<Option<u32>, AllocError>
    requires { AreInside (length types.now.terminals) bodies.now }
    ensures { ReadsBodies types.now bodies.now nodes.old nodes.new noted.old.items noted.new.items result }
{
    'bodies: for body in bodies {
        if let Some(token) = read_body(alloc, types, *body, depth_left, nodes, noted)? {
            return Ok(Some(token));
        }
    }
    Ok(None)
}

/// Reads a body and the bodies in it.
#[cycle(bodies_in_bodies)]
fn read_body(
    alloc: Global,
    types: &TypeNames,
    body: OpenBody,
    depth_left: u32,
    nodes: &mut Nodes,
    noted: &mut Vec<LamBody>,
) -> Result<Option<u32>, AllocError>
    requires { IsInside (length types.now.terminals) body }
    ensures { ReadsBody types.now body nodes.old nodes.new noted.old.items noted.new.items result }
{
    match read_block(alloc, types, body, nodes)? {
        Block::Read { root, bodies } => {
            noted.push(LamBody {
                lam: body.lam,
                body: root,
            })?;
            read_bodies(alloc, types, &bodies, descend(depth_left)?, nodes, noted)
        }
        Block::Refused { token } => Ok(Some(token)),
    }
}

/// Reads the tokens between the braces of a body, with the braces.
fn read_block(
    alloc: Global,
    types: &TypeNames,
    body: OpenBody,
    nodes: &mut Nodes,
) -> Result<Block, AllocError>
    requires { IsInside (length types.now.terminals) body }
    ensures { ReadsBlock types.now body nodes.old nodes.new result }
{
    let start = (body.from - 1) as usize;
    let mut out = Builder::over(alloc, mem::replace(nodes, Nodes::new(alloc)));
    let read = compound_statement(types, start, MAX_NESTED_CALLS, &mut out);
    let Reading { found, token } = take_reading(types, start, read, out, nodes)?;
    let Some(
        Found {
            roots,
            next,
            bodies,
        },
    ) = found
    else {
        return Ok(Block::Refused { token });
    };
    if next as usize != body.to as usize + 1 {
        return Ok(Block::Refused { token });
    }
    let root = roots[0];
    Ok(Block::Read { root, bodies })
}

/// The body of each node, by the index of the node.
pub fn bodies_by_node(
    alloc: Global,
    nodes: &Nodes,
    bodies: &[LamBody],
) -> Result<Vec<Option<NodeId>>, AllocError>
    requires within { AreWithin (length nodes.now) bodies.now }
    requires once { IsOnceEach bodies.now }
    ensures noted { IfOk result (λ noted. IsNotedIn bodies.now noted.items) }
    ensures long { IfOk result (λ noted. length noted.items ≡ length nodes.now) }
    ensures there { IfOk result (λ noted. HaveNodes (length nodes.now) noted.items) }
{
    let mut noted: Vec<Option<NodeId>> = vec![in alloc; None; nodes.len() as usize]?;
    'bodies: for body in bodies {
        noted[body.lam.0 as usize] = Some(body.body);
    }
    Ok(noted)
}
