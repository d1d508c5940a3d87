//! The types of exceptions that the code of a program makes.

use cpp_tree::below::{IntKind, Shape, Ty, copy, same};
use cpp_tree::{Program, TKind, TNode, UnitTree};
use std::alloc::{AllocError, Global};

// A type without its own qualifiers.
fn plain(alloc: Global, ty: &Ty) -> Result<Ty, AllocError> {
    let copied = copy(alloc, ty)?;
    Ok(Ty {
        shape: copied.shape,
        is_const: false,
        is_volatile: false,
    })
}

// Whether a type is among others.
fn is_among(types: &[Ty], ty: &Ty) -> bool {
    for other in types {
        if same(other, ty) {
            return true;
        }
    }
    false
}

// Puts the type of what a node throws among the others, if it throws.
fn put_thrown(
    alloc: Global,
    types: &mut Vec<Ty>,
    nodes: &[TNode],
    node: &TNode,
) -> Result<(), AllocError> {
    if node.kind != TKind::Throw {
        return Ok(());
    }
    let Some(kid) = node.kids.get(0) else {
        return Ok(());
    };
    let Some(thrown) = nodes.get(kid.0 as usize) else {
        return Ok(());
    };
    let ty = plain(alloc, &thrown.ty)?;
    if !is_among(types, &ty) {
        types.push(ty)?;
    }
    Ok(())
}

// Puts the types of what a unit throws among the others.
fn put_unit(alloc: Global, types: &mut Vec<Ty>, unit: &UnitTree) -> Result<(), AllocError> {
    for node in &unit.nodes {
        put_thrown(alloc, types, &unit.nodes, node)?;
    }
    Ok(())
}

/// The types of exceptions that the code of a program makes, without qualifiers of their own, and one of each: those that the program
/// throws, and `int`, in an exception of which the compiler holds the addresses while an array is copied element by element.
pub fn exception_types(alloc: Global, program: &Program) -> Result<Vec<Ty>, AllocError> {
    let mut types: Vec<Ty> = Vec::new(alloc);
    types.push(Ty {
        shape: Shape::Int(IntKind::Int),
        is_const: false,
        is_volatile: false,
    })?;
    for unit in &program.units {
        put_unit(alloc, &mut types, unit)?;
    }
    Ok(types)
}
