// Objects part by part: zeros, copies, and the scalars of an exception (C++14 8.5, 12.8).

ghost use Rattle.std.specs.Prelude.{◌≡◌, ◌<◌, length, false, IfOk, map};
ghost use Rattle.cpp_types.specs.Typ.{typ, typ_of, class as class_form};
ghost use Rattle.cpp_types.specs.Class.{classes_of};
ghost use Rattle.elab_conv.specs.cpp_tree.Arena.{trees_of, tree_at, Adds};
ghost use Rattle.elab_conv.specs.cpp_tree.Typing.{form_in, qualified};
ghost use Rattle.elab_conv.specs.cpp_tree.Trees.{node, one};
ghost use Rattle.elab_conv.specs.elab_ctx.Says.{AddsAll};
ghost use Rattle.elab_conv.specs.elab_rules.Objects.{as_closure as as_closure_of, whole, whole_form, class_whole, size_of as size_by, zeros as zeros_by, copies as copies_by};
ghost use Rattle.elab_init.specs.Leaves.{leaf_of, pieces_by};
ghost use Rattle.elab_init.specs.Parts.{part_of};

use crate::class_parts::parts_of;
use crate::leaves::Leaf;
use crate::lists::keep;
use crate::parts::ObjectPart;
use crate::scalars::scalar_leaf;
use crate::temporaries::with_type;
use crate::types::qualified_type;
use cpp_types::{At, Cat, Shape, Ty, copy};
use elab_conv::below::{
    Env, TKind, TNode, TNodeId, add_leaf, add_node, add_unary, node_at, size_of,
};
use std::alloc::{AllocError, Global};

// How deep calls nest that go into arrays and classes: deeper than types and classes do. A deeper one counts as want
// of memory.
const LEVELS: u32 = 4_000_000_000;

// A type with these qualifiers in the place of its own.
fn with_qualifiers(
    alloc: Global,
    ty: &Ty,
    is_const: bool,
    is_volatile: bool,
) -> Result<Ty, AllocError>
    ensures { IfOk result (λ t. typ_of t ≡ typ (form_in (typ_of ty.now)) is_const is_volatile) }
{
    let found = copy(alloc, ty)?;
    Ok(Ty {
        shape: found.shape,
        is_const,
        is_volatile,
    })
}

// The type of an object of a class.
fn class_type(class: u32, is_const: bool, is_volatile: bool) -> Ty
    ensures { typ_of result ≡ typ (class_form class) is_const is_volatile }
{
    Ty {
        shape: Shape::Class(class),
        is_const,
        is_volatile,
    }
}

// The type of an array in an object with these qualifiers.
fn array_type(alloc: Global, is_const: bool, is_volatile: bool, ty: &Ty) -> Result<Ty, AllocError>
    ensures { IfOk result (λ t. typ_of t ≡ qualified is_const is_volatile (typ (form_in (typ_of ty.now)) false false)) }
{
    let plain = with_qualifiers(alloc, ty, false, false)?;
    qualified_type(alloc, is_const, is_volatile, &plain)
}

// An array whose elements are built by this.
fn elements(
    alloc: Global,
    env: &Env,
    nodes: &mut Vec<TNode>,
    at: At,
    ty: Ty,
    element: &Ty,
    count: u32,
    init: TNodeId,
) -> Result<TNodeId, AllocError>
    ensures { IfOk result (λ r. Adds (trees_of nodes.old.items) (trees_of nodes.new.items) r (node (TKind.Elements count (size_by (classes_of env.now.classes.items) (typ_of element.now))) (typ_of ty) Cat.Prvalue at (one (tree_at (trees_of nodes.old.items) init)))) }
{
    let stride = size_of(env, element)?;
    let kind = TKind::Elements { count, stride };
    add_unary(alloc, nodes, kind, ty, Cat::Prvalue, at, init)
}

// What is done to an object of a type in an object with these qualifiers, in which classes nest no deeper than this.
#[cycle(whole)]
fn add_whole(
    alloc: Global,
    env: &Env,
    nodes: &mut Vec<TNode>,
    levels: u32,
    leaf: Leaf,
    depth: usize,
    at: At,
    is_const: bool,
    is_volatile: bool,
    ty: &Ty,
) -> Result<TNodeId, AllocError>
    ensures { IfOk result (λ r. Adds (trees_of nodes.old.items) (trees_of nodes.new.items) r (whole (class_whole depth (leaf_of leaf) (classes_of env.now.classes.items) at) (leaf_of leaf) (classes_of env.now.classes.items) at is_const is_volatile (typ_of ty.now))) }
{
    if levels == 0 {
        return Err(AllocError);
    }
    let is_const = is_const || ty.is_const;
    let is_volatile = is_volatile || ty.is_volatile;
    add_form(
        alloc,
        env,
        nodes,
        levels - 1,
        leaf,
        depth,
        at,
        is_const,
        is_volatile,
        ty,
    )
}

// An object of a lambda's class, as one of a class.
fn as_closure(
    alloc: Global,
    nodes: &mut Vec<TNode>,
    class: u32,
    is_const: bool,
    is_volatile: bool,
    id: TNodeId,
) -> Result<TNodeId, AllocError>
    requires { id.0 < length (trees_of nodes.old.items) }
    ensures { IfOk result (λ r. Adds (trees_of nodes.old.items) (trees_of nodes.new.items) r (as_closure_of class is_const is_volatile (tree_at (trees_of nodes.old.items) id))) }
{
    let ty = Ty {
        shape: Shape::Closure(class),
        is_const,
        is_volatile,
    };
    let kind = node_at(nodes, id).kind;
    with_type(alloc, nodes, kind, &ty, id)
}

// The same by what the type is, its own qualifiers apart.
#[cycle(whole)]
fn add_form(
    alloc: Global,
    env: &Env,
    nodes: &mut Vec<TNode>,
    levels: u32,
    leaf: Leaf,
    depth: usize,
    at: At,
    is_const: bool,
    is_volatile: bool,
    ty: &Ty,
) -> Result<TNodeId, AllocError>
    ensures { IfOk result (λ r. Adds (trees_of nodes.old.items) (trees_of nodes.new.items) r (whole_form (class_whole depth (leaf_of leaf) (classes_of env.now.classes.items) at) (leaf_of leaf) (classes_of env.now.classes.items) at is_const is_volatile (form_in (typ_of ty.now)))) }
{
    if levels == 0 {
        return Err(AllocError);
    }
    match &ty.shape {
        Shape::Array(element, count) => {
            let init = add_whole(
                alloc,
                env,
                nodes,
                levels - 1,
                leaf,
                depth,
                at,
                is_const,
                is_volatile,
                element,
            )?;
            let target = array_type(alloc, is_const, is_volatile, ty)?;
            elements(alloc, env, nodes, at, target, element, *count, init)
        }
        Shape::Class(class) => add_class(
            alloc,
            env,
            nodes,
            levels - 1,
            leaf,
            depth,
            at,
            is_const,
            is_volatile,
            *class,
        ),
        Shape::Closure(class) => {
            let object = add_class(
                alloc,
                env,
                nodes,
                levels - 1,
                leaf,
                depth,
                at,
                is_const,
                is_volatile,
                *class,
            )?;
            as_closure(alloc, nodes, *class, is_const, is_volatile, object)
        }
        Shape::TxEx(value) => add_form(
            alloc,
            env,
            nodes,
            levels - 1,
            leaf,
            depth,
            at,
            is_const,
            is_volatile,
            value,
        ),
        Shape::Ref(_) => {
            let target = with_qualifiers(alloc, ty, false, false)?;
            scalar_leaf(alloc, nodes, leaf, &target, at)
        }
        Shape::Void
        | Shape::Int(_)
        | Shape::Enum { .. }
        | Shape::Null
        | Shape::Ptr(_)
        | Shape::Func(_) => {
            let target = with_qualifiers(alloc, ty, is_const, is_volatile)?;
            scalar_leaf(alloc, nodes, leaf, &target, at)
        }
    }
}

// The same of a class.
#[cycle(whole)]
fn add_class(
    alloc: Global,
    env: &Env,
    nodes: &mut Vec<TNode>,
    levels: u32,
    leaf: Leaf,
    depth: usize,
    at: At,
    is_const: bool,
    is_volatile: bool,
    class: u32,
) -> Result<TNodeId, AllocError>
    ensures { IfOk result (λ r. Adds (trees_of nodes.old.items) (trees_of nodes.new.items) r (class_whole depth (leaf_of leaf) (classes_of env.now.classes.items) at class is_const is_volatile)) }
{
    if levels == 0 {
        return Err(AllocError);
    }
    let ty = class_type(class, is_const, is_volatile);
    if depth == 0 {
        return add_leaf(alloc, nodes, TKind::Pieces, ty, Cat::Prvalue, at);
    }
    let parts = parts_of(alloc, env, class)?;
    let kids = add_pieces(
        alloc,
        env,
        nodes,
        levels - 1,
        leaf,
        depth - 1,
        at,
        is_const,
        is_volatile,
        &parts,
    )?;
    add_node(
        nodes,
        TNode {
            kind: TKind::Pieces,
            ty,
            cat: Cat::Prvalue,
            at,
            kids,
        },
    )
}

// A part, built by this.
fn piece(
    alloc: Global,
    nodes: &mut Vec<TNode>,
    at: At,
    is_const: bool,
    is_volatile: bool,
    part: &ObjectPart,
    init: TNodeId,
) -> Result<TNodeId, AllocError>
    ensures { IfOk result (λ r. Adds (trees_of nodes.old.items) (trees_of nodes.new.items) r (node (TKind.Piece part.now.offset) (qualified is_const is_volatile (typ_of part.now.ty)) Cat.Prvalue at (one (tree_at (trees_of nodes.old.items) init)))) }
{
    let ty = qualified_type(alloc, is_const, is_volatile, &part.ty)?;
    let kind = TKind::Piece {
        offset: part.offset,
    };
    add_unary(alloc, nodes, kind, ty, Cat::Prvalue, at, init)
}

// The same of each part of a class.
#[cycle(whole)]
fn add_pieces(
    alloc: Global,
    env: &Env,
    nodes: &mut Vec<TNode>,
    levels: u32,
    leaf: Leaf,
    depth: usize,
    at: At,
    is_const: bool,
    is_volatile: bool,
    parts: &[ObjectPart],
) -> Result<Vec<TNodeId>, AllocError>
    ensures { IfOk result (λ ids. AddsAll (trees_of nodes.old.items) (trees_of nodes.new.items) ids.items (pieces_by depth (leaf_of leaf) (classes_of env.now.classes.items) at is_const is_volatile (map part_of parts.now))) }
{
    if levels == 0 {
        return Err(AllocError);
    }
    let mut kids = Vec::new(alloc);
    for part in parts {
        let init = add_whole(
            alloc,
            env,
            nodes,
            levels - 1,
            leaf,
            depth,
            at,
            is_const,
            is_volatile,
            &part.ty,
        )?;
        let kid = piece(alloc, nodes, at, is_const, is_volatile, part, init)?;
        keep(&mut kids, kid)?;
    }
    Ok(kids)
}

/// An object whose scalars are all zero.
pub fn zeros(
    alloc: Global,
    env: &Env,
    nodes: &mut Vec<TNode>,
    at: At,
    ty: &Ty,
) -> Result<TNodeId, AllocError>
    ensures { IfOk result (λ r. Adds (trees_of nodes.old.items) (trees_of nodes.new.items) r (zeros_by (classes_of env.now.classes.items) at (typ_of ty.now))) }
{
    let depth = env.classes.len();
    add_whole(
        alloc,
        env,
        nodes,
        LEVELS,
        Leaf::Zero,
        depth,
        at,
        false,
        false,
        ty,
    )
}

/// An object that is copied scalar by scalar.
pub fn copies(
    alloc: Global,
    env: &Env,
    nodes: &mut Vec<TNode>,
    at: At,
    ty: &Ty,
) -> Result<TNodeId, AllocError>
    ensures { IfOk result (λ r. Adds (trees_of nodes.old.items) (trees_of nodes.new.items) r (copies_by (classes_of env.now.classes.items) at (typ_of ty.now))) }
{
    let depth = env.classes.len();
    add_whole(
        alloc,
        env,
        nodes,
        LEVELS,
        Leaf::Copied,
        depth,
        at,
        false,
        false,
        ty,
    )
}
