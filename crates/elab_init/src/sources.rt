// Objects as those of a class, and initialisers as those of a type (C++14 8.5, 12.8).

ghost use Rattle.std.specs.Prelude.{◌≡◌, ◌<◌, IfOk, length};
ghost use Rattle.cpp_types.specs.Typ.{typ_of};
ghost use Rattle.elab_conv.specs.cpp_tree.Trees.{node, two, typ_in, cat_of, kids_of};
ghost use Rattle.cpp_types.specs.Class.{classes_of};
ghost use Rattle.elab_conv.specs.cpp_tree.Arena.{trees_of, tree_at, Adds};
ghost use Rattle.elab_conv.specs.elab_rules.Values.{place_of};
ghost use Rattle.elab_conv.specs.elab_rules.Objects.{copies as copies_by};
ghost use Rattle.elab_conv.specs.elab_rules.Initialising.{as_base as as_base_of, as_source as as_source_of, copied_anew as copied_anew_of, rebuilt as rebuilt_of, building as building_of, same_number as same_number_of};

use crate::objects::{copies, zeros};
use crate::temporaries::with_type;
use crate::types::class_number;
use cpp_types::{At, Cat, Shape, Ty, copy, equal_types};
use elab_conv::below::{
    Env, TKind, TNode, TNodeId, add_binary, add_node, add_unary, kids_at, node_at,
};
use std::alloc::{AllocError, Global};

/// Whether a class is the one with a number.
pub fn same_number(class: u32, found: Option<u32>) -> bool
    ensures { result ≡ same_number_of class found }
{
    match found {
        Some(number) => number == class,
        None => false,
    }
}

/// An object as one of a base of its class.
pub fn as_base(
    alloc: Global,
    nodes: &mut Vec<TNode>,
    at: At,
    class: u32,
    id: TNodeId,
) -> Result<TNodeId, AllocError>
    requires { id.0 < length (trees_of nodes.old.items) }
    ensures { IfOk result (λ r. Adds (trees_of nodes.old.items) (trees_of nodes.new.items) r (as_base_of at class (typ_in (tree_at (trees_of nodes.old.items) id)) (tree_at (trees_of nodes.old.items) id))) }
{
    let node = node_at(nodes, id);
    let ty = Ty {
        shape: Shape::Class(class),
        is_const: node.ty.is_const,
        is_volatile: node.ty.is_volatile,
    };
    add_unary(alloc, nodes, TKind::Retype, ty, Cat::Lvalue, at, id)
}

/// An object as one of the class, where it is none already.
pub fn as_source(
    alloc: Global,
    nodes: &mut Vec<TNode>,
    at: At,
    class: u32,
    id: TNodeId,
) -> Result<TNodeId, AllocError>
    requires { id.0 < length (trees_of nodes.old.items) }
    ensures { IfOk result (λ r. Adds (trees_of nodes.old.items) (trees_of nodes.new.items) r (as_source_of at class (tree_at (trees_of nodes.old.items) id))) }
{
    let node = node_at(nodes, id);
    if same_number(class, class_number(&node.ty)) {
        return Ok(id);
    }
    as_base(alloc, nodes, at, class, id)
}

// A copy of an object as one of another type.
fn copied_anew(
    alloc: Global,
    env: &Env,
    nodes: &mut Vec<TNode>,
    ty: &Ty,
    id: TNodeId,
) -> Result<TNodeId, AllocError>
    requires { id.0 < length (trees_of nodes.old.items) }
    ensures { IfOk result (λ r. Adds (trees_of nodes.old.items) (trees_of nodes.new.items) r (copied_anew_of (classes_of env.now.classes.items) (typ_of ty.now) (tree_at (trees_of nodes.old.items) id) (kids_of (tree_at (trees_of nodes.old.items) id)))) }
{
    let node = node_at(nodes, id);
    let cat = node.cat;
    let at = node.at;
    let source = match kids_at(nodes, id)? {
        [] => return Ok(id),
        [source, ..] => *source,
    };
    let parts = copies(alloc, env, nodes, at, ty)?;
    let ty = copy(alloc, ty)?;
    add_binary(alloc, nodes, TKind::CopyFrom, ty, cat, at, source, parts)
}

// What builds an object, by its kind, as one of another type.
fn rebuilt(
    alloc: Global,
    env: &Env,
    nodes: &mut Vec<TNode>,
    kind: TKind,
    ty: &Ty,
    id: TNodeId,
) -> Result<TNodeId, AllocError>
    requires { id.0 < length (trees_of nodes.old.items) }
    ensures { IfOk result (λ r. Adds (trees_of nodes.old.items) (trees_of nodes.new.items) r (rebuilt_of (classes_of env.now.classes.items) kind (typ_of ty.now) (tree_at (trees_of nodes.old.items) id))) }
{
    match kind {
        TKind::Construct { .. } => with_type(alloc, nodes, kind, ty, id),
        TKind::Store { kind, .. } => {
            let volatile = ty.is_volatile;
            with_type(alloc, nodes, TKind::Store { kind, volatile }, ty, id)
        }
        TKind::CopyFrom => copied_anew(alloc, env, nodes, ty, id),
        TKind::Pieces => {
            let at = node_at(nodes, id).at;
            zeros(alloc, env, nodes, at, ty)
        }
        _ => Ok(id),
    }
}

/// The initialiser of an object of a type, which has the qualifiers of that object, and its parts have them too; what is called has
/// its own type.
pub fn building(
    alloc: Global,
    env: &Env,
    nodes: &mut Vec<TNode>,
    ty: &Ty,
    id: TNodeId,
) -> Result<TNodeId, AllocError>
    requires { id.0 < length (trees_of nodes.old.items) }
    ensures { IfOk result (λ r. Adds (trees_of nodes.old.items) (trees_of nodes.new.items) r (building_of (classes_of env.now.classes.items) (typ_of ty.now) (tree_at (trees_of nodes.old.items) id))) }
{
    if equal_types(ty, &node_at(nodes, id).ty) {
        return Ok(id);
    }
    let kind = node_at(nodes, id).kind;
    rebuilt(alloc, env, nodes, kind, ty, id)
}

/// A copy of an object of a class, part by part.
pub fn copy_in_place(
    alloc: Global,
    env: &Env,
    nodes: &mut Vec<TNode>,
    class: u32,
    ty: &Ty,
    at: At,
    source_at: At,
    id: TNodeId,
) -> Result<TNodeId, AllocError>
    requires { id.0 < length (trees_of nodes.old.items) }
    ensures { IfOk result (λ r. Adds (trees_of nodes.old.items) (trees_of nodes.new.items) r (node TKind.CopyFrom (typ_of ty.now) Cat.Prvalue at (two (as_source_of source_at class (tree_at (trees_of nodes.old.items) id)) (copies_by (classes_of env.now.classes.items) at (typ_of ty.now))))) }
{
    let source = as_source(alloc, nodes, source_at, class, id)?;
    let parts = copies(alloc, env, nodes, at, ty)?;
    let ty = copy(alloc, ty)?;
    add_binary(
        alloc,
        nodes,
        TKind::CopyFrom,
        ty,
        Cat::Prvalue,
        at,
        source,
        parts,
    )
}
