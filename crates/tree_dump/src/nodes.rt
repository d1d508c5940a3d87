// Trees of nodes.

ghost use Rattle.std.specs.Prelude.{◌≡◌, ◌<◌, length};

use crate::kinds::{Named, put_node_kind};
use crate::places::Place;
use crate::texts::{put, put_indent, put_number, put_type};
use cpp_tree::below::{At, Cat, Shape, Ty};
use cpp_tree::{TNode, TNodeId};
use std::alloc::{AllocError, Global};

/// Puts a place.
pub fn put_place(out: &mut Vec<u8>, places: &[Place], at: At) -> Result<(), AllocError> {
    match places.get(at.offset as usize) {
        Some(found) => {
            put_number(out, u64::from(found.line))?;
            put(out, b":")?;
            put_number(out, u64::from(found.column))
        }
        None => put(out, b"0:0"),
    }
}

// Whether a node is shown without its category and type.
fn is_untyped(cat: Cat, ty: &Ty) -> bool {
    matches!(cat, Cat::Prvalue)
        && matches!(&ty.shape, Shape::Void)
        && !ty.is_const
        && !ty.is_volatile
}

// The category and the type of a node.
fn put_typed(
    alloc: Global,
    out: &mut Vec<u8>,
    named: Named<'_>,
    cat: Cat,
    ty: &Ty,
) -> Result<(), AllocError> {
    if is_untyped(cat, ty) {
        return Ok(());
    }
    match cat {
        Cat::Lvalue => put(out, b" l ")?,
        Cat::Prvalue => put(out, b" p ")?,
    }
    put_type(alloc, out, ty, named.classes.list)
}

// A line for a node.
fn put_node(
    alloc: Global,
    out: &mut Vec<u8>,
    named: Named<'_>,
    places: &[Place],
    depth: u32,
    node: &TNode,
) -> Result<(), AllocError> {
    put_indent(out, depth)?;
    put_node_kind(alloc, out, named, node.kind)?;
    put(out, b" @")?;
    put_place(out, places, node.at)?;
    put_typed(alloc, out, named, node.cat, &node.ty)?;
    put(out, b"\n")
}

/// Puts a tree, with a line for each node. A node whose kids do not stand before it counts as want of memory.
pub fn put_tree(
    alloc: Global,
    out: &mut Vec<u8>,
    named: Named<'_>,
    places: &[Place],
    nodes: &[TNode],
    depth: u32,
    id: TNodeId,
) -> Result<(), AllocError> {
    let Some(node) = nodes.get(id.0 as usize) else {
        return Err(AllocError);
    };
    put_node(alloc, out, named, places, depth, node)?;
    for kid in &node.kids {
        if kid.0 >= id.0 {
            return Err(AllocError);
        }
        put_tree(
            alloc,
            out,
            named,
            places,
            nodes,
            depth.saturating_add(1),
            *kid,
        )?;
    }
    Ok(())
}
