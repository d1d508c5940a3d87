// Copies of the objects of lambdas (C++14 5.1.2, 12.8).

ghost use Rattle.std.specs.Prelude.{◌≡◌, ◌<◌, false, IfOk, length, map};
ghost use Rattle.elab_init.specs.cpp_types.Typ.{typ_of, typ, closure};
ghost use Rattle.elab_init.specs.cpp_types.Class.{classes_of};
ghost use Rattle.elab_init.specs.cpp_tree.Trees.{node, two, more};
ghost use Rattle.elab_init.specs.cpp_tree.Arena.{trees_of, tree_at, Adds};
ghost use Rattle.elab_init.specs.elab_ctx.Ctx.{ctx_of, special_of};
ghost use Rattle.elab_init.specs.elab_ctx.Says.{AddsAll};
ghost use Rattle.elab_init.specs.elab_rules.Objects.{parts_of as parts_by, destroys as destroys_by};
ghost use Rattle.elab_init.specs.elab_rules.Initialising.{copied_part as copied_part_of, copy_of_held as copy_of_held_of, closure_part as closure_part_of, closure_piece as closure_piece_of, qualified_part as qualified_part_of, closure_pieces as closure_pieces_of, closure_copied as closure_copied_of};
ghost use Rattle.elab_init.specs.Parts.{part_of};

use crate::destructions::destroys;
use crate::each::each_by;
use elab_init::below::{
    At, Cat, Env, Shape, Special, TKind, TNode, TNodeId, Ty, add_binary, add_node, copy,
};
use elab_init::{
    ObjectPart, class_number, copies, element_type, keep, object_kids, parts_of, qualified_type,
    traits_at,
};
use std::alloc::{AllocError, Global};

// A part of a lambda's object, copied from the source at hand.
fn copied_part(
    alloc: Global,
    env: &Env,
    nodes: &mut Vec<TNode>,
    at: At,
    ty: &Ty,
    special: Special,
) -> Result<TNodeId, AllocError>
    ensures { IfOk result (λ r. Adds (trees_of nodes.old.items) (trees_of nodes.new.items) r (copied_part_of (ctx_of env.now) at (typ_of ty.now) (special_of special))) }
{
    match special {
        Special::Function(func) => {
            each_by(alloc, env, nodes, TKind::CopyConstruct { func }, ty, at)
        }
        Special::Absent | Special::Trivial => copies(alloc, env, nodes, at, ty),
    }
}

// How an object of a class is copied; what is none is copied in place.
fn copy_of_held(env: &Env, class: Option<u32>) -> Special
    ensures { special_of result ≡ copy_of_held_of (ctx_of env.now) class }
{
    match class {
        Some(class) => traits_at(env, class).copy,
        None => Special::Trivial,
    }
}

fn closure_part(
    alloc: Global,
    env: &Env,
    nodes: &mut Vec<TNode>,
    at: At,
    part: &ObjectPart,
) -> Result<TNodeId, AllocError>
    ensures { IfOk result (λ r. Adds (trees_of nodes.old.items) (trees_of nodes.new.items) r (closure_part_of (ctx_of env.now) at (part_of part.now))) }
{
    let element = element_type(alloc, &part.ty)?;
    let special = copy_of_held(env, class_number(&element));
    copied_part(alloc, env, nodes, at, &part.ty, special)
}

// A part with its destructions.
fn closure_piece(
    alloc: Global,
    env: &Env,
    nodes: &mut Vec<TNode>,
    at: At,
    part: &ObjectPart,
) -> Result<TNodeId, AllocError>
    ensures { IfOk result (λ r. Adds (trees_of nodes.old.items) (trees_of nodes.new.items) r (closure_piece_of (ctx_of env.now) at (part_of part.now))) }
{
    let init = closure_part(alloc, env, nodes, at, part)?;
    let ends = destroys(alloc, env, nodes, at, &part.ty)?;
    let kids = object_kids(alloc, init, &ends)?;
    let ty = copy(alloc, &part.ty)?;
    let kind = TKind::Piece {
        offset: part.offset,
    };
    add_node(
        nodes,
        TNode {
            kind,
            ty,
            cat: Cat::Prvalue,
            at,
            kids,
        },
    )
}

// A part of an object with these qualifiers.
fn qualified_part(
    alloc: Global,
    is_const: bool,
    is_volatile: bool,
    part: &ObjectPart,
) -> Result<ObjectPart, AllocError>
    ensures { IfOk result (λ p. part_of p ≡ qualified_part_of is_const is_volatile (part_of part.now)) }
{
    let ty = qualified_type(alloc, is_const, is_volatile, &part.ty)?;
    Ok(ObjectPart {
        offset: part.offset,
        ty,
    })
}

fn closure_pieces(
    alloc: Global,
    env: &Env,
    nodes: &mut Vec<TNode>,
    at: At,
    is_const: bool,
    is_volatile: bool,
    parts: &[ObjectPart],
) -> Result<Vec<TNodeId>, AllocError>
    ensures { IfOk result (λ ids. AddsAll (trees_of nodes.old.items) (trees_of nodes.new.items) ids.items (closure_pieces_of (ctx_of env.now) at is_const is_volatile (map part_of parts.now))) }
{
    let mut kids = Vec::new(alloc);
    for part in parts {
        let part = qualified_part(alloc, is_const, is_volatile, part)?;
        let kid = closure_piece(alloc, env, nodes, at, &part)?;
        keep(&mut kids, kid)?;
    }
    Ok(kids)
}

/// The type of a lambda's object.
pub fn closure_type(class: u32, is_const: bool, is_volatile: bool) -> Ty
    ensures { typ_of result ≡ typ (closure class) is_const is_volatile }
{
    Ty {
        shape: Shape::Closure(class),
        is_const,
        is_volatile,
    }
}

// The parts of a lambda's object, copied.
fn closure_parts(
    alloc: Global,
    env: &Env,
    nodes: &mut Vec<TNode>,
    class: u32,
    is_const: bool,
    is_volatile: bool,
    at: At,
) -> Result<TNodeId, AllocError>
    ensures { IfOk result (λ r. Adds (trees_of nodes.old.items) (trees_of nodes.new.items) r (node TKind.Pieces (typ (closure class) is_const is_volatile) Cat.Prvalue at (closure_pieces_of (ctx_of env.now) at is_const is_volatile (parts_by (classes_of env.now.classes.items) class)))) }
{
    let parts = parts_of(alloc, env, class)?;
    let kids = closure_pieces(alloc, env, nodes, at, is_const, is_volatile, &parts)?;
    add_node(
        nodes,
        TNode {
            kind: TKind::Pieces,
            ty: closure_type(class, is_const, is_volatile),
            cat: Cat::Prvalue,
            at,
            kids,
        },
    )
}

/// A copy of a lambda's object.
pub fn closure_copy(
    alloc: Global,
    env: &Env,
    nodes: &mut Vec<TNode>,
    class: u32,
    is_const: bool,
    is_volatile: bool,
    at: At,
    id: TNodeId,
) -> Result<TNodeId, AllocError>
    requires { id.0 < length (trees_of nodes.old.items) }
    ensures { IfOk result (λ r. Adds (trees_of nodes.old.items) (trees_of nodes.new.items) r (closure_copied_of (ctx_of env.now) class is_const is_volatile at (tree_at (trees_of nodes.old.items) id))) }
{
    let parts = closure_parts(alloc, env, nodes, class, is_const, is_volatile, at)?;
    add_binary(
        alloc,
        nodes,
        TKind::CopyFrom,
        closure_type(class, is_const, is_volatile),
        Cat::Prvalue,
        at,
        id,
        parts,
    )
}
