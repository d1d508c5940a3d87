// The object of a lambda: what it captured, piece by piece (C++14 5.1.2).

ghost use Rattle.std.specs.Prelude.{◌≡◌, ◌<◌, length, map, None, Some, slice_get, MatchOption, IfOk};
ghost use Rattle.elab_casts.specs.cpp_types.Typ.{typ_of, closure};
ghost use Rattle.elab_casts.specs.cpp_types.Class.{classes_of};
ghost use Rattle.elab_casts.specs.cpp_tree.Trees.{node, two};
ghost use Rattle.elab_casts.specs.cpp_tree.Notation.{plain};
ghost use Rattle.elab_casts.specs.cpp_tree.Arena.{trees_of, tree_at, trees_at, Adds};
ghost use Rattle.elab_casts.specs.elab_ctx.Ctx.{ctx_of, work_of, closure_of, capture_of, special_of};
ghost use Rattle.elab_casts.specs.elab_ctx.Operands.{operand_in};
ghost use Rattle.elab_casts.specs.elab_ctx.Says.{Gives, Makes, MakesAll};
ghost use Rattle.elab_casts.specs.elab_init.Parts.{part_of};
ghost use Rattle.elab_casts.specs.elab_rules.Values.{stored as stored_of, valued as valued_of};
ghost use Rattle.elab_casts.specs.elab_rules.Initialising.{copied_part as copied_part_of, copy_of_held as copy_of_held_of, closure_part as closure_part_of};
ghost use Rattle.elab_casts.specs.elab_rules.Expressions.{closure_at as closure_at_of, capture_source as capture_source_of, captured_value as captured_value_of, captured as captured_of, captured_pieces as captured_pieces_of, closure_object as closure_object_of};
ghost use Rattle.elab_rows.specs.Pieces.{piece_tree, one_piece};

use elab_casts::below::{
    At, Capture, Cat, Closure, ElabFault, Env, IllRule, ObjectPart, Operand, Shape, Special, TKind,
    TNode, TNodeId, Ty, Work, add_binary, add_node, class_from, class_number, copies, copy,
    destroys, each_by, element_type, keep, object_kids, parts_of, same_at, stored, traits_at,
    valued,
};
use elab_names::parts::{ill, plain_type};
use elab_names::{this_tree, variable_at};
use std::alloc::{AllocError, Global};

// The lambda at a place.
fn closure_at<'a>(at: At, closures: &'a [Closure]) -> Option<&'a Closure>
    ensures { MatchOption result (closure_at_of at (map closure_of closures.now) ≡ None) (λ x. closure_at_of at (map closure_of closures.now) ≡ Some (closure_of x.now)) }
{
    for closure in closures {
        if same_at(at, closure.at) {
            return Some(closure);
        }
    }
    None
}

// What is captured: a variable, or `this`.
fn capture_source(
    alloc: Global,
    env: &Env,
    work: &mut Work,
    capture: &Capture,
) -> Result<TNodeId, ElabFault>
    ensures tree { Gives (trees_of work.old.nodes.items) (trees_of work.new.nodes.items) result (capture_source_of (ctx_of env.now) (work_of work.old) (capture_of capture.now) capture.now.variable) }
    ensures work { work_of work.new ≡ work_of work.old }
{
    match capture.variable {
        Some(variable) => variable_at(alloc, env, work, capture.at, variable),
        None => this_tree(alloc, env, &mut work.nodes, capture.at),
    }
}

// A scalar that is captured.
fn captured_scalar(
    alloc: Global,
    nodes: &mut Vec<TNode>,
    at: At,
    ty: &Ty,
    id: TNodeId,
) -> Result<TNodeId, AllocError>
    requires { id.0 < length (trees_of nodes.old.items) }
    ensures { IfOk result (λ r. Adds (trees_of nodes.old.items) (trees_of nodes.new.items) r (stored_of at (typ_of ty.now) (valued_of at (tree_at (trees_of nodes.old.items) id)))) }
{
    let value = valued(alloc, nodes, at, id)?;
    stored(alloc, nodes, at, ty, value)
}

// An object, copied from the source at hand.
fn copied_by(
    alloc: Global,
    env: &Env,
    nodes: &mut Vec<TNode>,
    at: At,
    ty: &Ty,
    special: Special,
) -> Result<TNodeId, AllocError>
    ensures { IfOk result (λ r. Adds (trees_of nodes.old.items) (trees_of nodes.new.items) r (copied_part_of (ctx_of env.now) at (typ_of ty.now) (special_of special))) }
{
    match special {
        Special::Function(func) => {
            each_by(alloc, env, nodes, TKind::CopyConstruct { func }, ty, at)
        }
        Special::Absent | Special::Trivial => copies(alloc, env, nodes, at, ty),
    }
}

// How an object of a class is copied; what is none is copied in place.
fn copy_of_held(env: &Env, class: Option<u32>) -> Special
    ensures { special_of result ≡ copy_of_held_of (ctx_of env.now) class }
{
    match class {
        Some(class) => traits_at(env, class).copy,
        None => Special::Trivial,
    }
}

// The elements of an array, each copied.
fn elements_copied(
    alloc: Global,
    env: &Env,
    nodes: &mut Vec<TNode>,
    at: At,
    ty: &Ty,
) -> Result<TNodeId, AllocError>
    ensures { IfOk result (λ r. Adds (trees_of nodes.old.items) (trees_of nodes.new.items) r (closure_part_of (ctx_of env.now) at (record { offset = 0; typ = typ_of ty.now }))) }
{
    let element = element_type(alloc, ty)?;
    let special = copy_of_held(env, class_number(&element));
    copied_by(alloc, env, nodes, at, ty, special)
}

// An array that is captured.
fn captured_array(
    alloc: Global,
    env: &Env,
    nodes: &mut Vec<TNode>,
    at: At,
    ty: &Ty,
    id: TNodeId,
) -> Result<TNodeId, AllocError>
    requires { id.0 < length (trees_of nodes.old.items) }
    ensures { IfOk result (λ r. Adds (trees_of nodes.old.items) (trees_of nodes.new.items) r (node TKind.CopyFrom (typ_of ty.now) Cat.Prvalue at (two (tree_at (trees_of nodes.old.items) id) (closure_part_of (ctx_of env.now) at (record { offset = 0; typ = typ_of ty.now }))))) }
{
    let elements = elements_copied(alloc, env, nodes, at, ty)?;
    let ty = copy(alloc, ty)?;
    add_binary(
        alloc,
        nodes,
        TKind::CopyFrom,
        ty,
        Cat::Prvalue,
        at,
        id,
        elements,
    )
}

// The initialiser of the member for a capture.
fn captured_value(
    alloc: Global,
    env: &Env,
    work: &mut Work,
    capture: &Capture,
    o: Operand,
) -> Result<TNodeId, ElabFault>
    requires { o.id.0 < length (trees_of work.old.nodes.items) }
    ensures { Makes (trees_of work.old.nodes.items) (trees_of work.new.nodes.items) (work_of work.new) result (captured_value_of (ctx_of env.now) (work_of work.old) (capture_of capture.now) (typ_of capture.now.ty) (operand_in (trees_of work.old.nodes.items) o)) }
{
    match &capture.ty.shape {
        Shape::Ref(_) => {
            let made = stored(alloc, &mut work.nodes, capture.at, &capture.ty, o.id)?;
            Ok(made)
        }
        Shape::Class(_) | Shape::Closure(_) | Shape::TxEx(_) => {
            class_from(alloc, env, work, &capture.ty, capture.at, o)
        }
        Shape::Array(_, _) => {
            let made = captured_array(alloc, env, &mut work.nodes, capture.at, &capture.ty, o.id)?;
            Ok(made)
        }
        Shape::Void
        | Shape::Int(_)
        | Shape::Enum { .. }
        | Shape::Null
        | Shape::Ptr(_)
        | Shape::Func(_) => {
            let made = captured_scalar(alloc, &mut work.nodes, capture.at, &capture.ty, o.id)?;
            Ok(made)
        }
    }
}

// What a capture is initialised by.
fn captured(
    alloc: Global,
    env: &Env,
    work: &mut Work,
    capture: &Capture,
) -> Result<TNodeId, ElabFault>
    ensures { Makes (trees_of work.old.nodes.items) (trees_of work.new.nodes.items) (work_of work.new) result (captured_of (ctx_of env.now) (work_of work.old) (capture_of capture.now)) }
{
    let source = capture_source(alloc, env, work, capture)?;
    let o = Operand {
        id: source,
        at: capture.at,
        zero: false,
    };
    captured_value(alloc, env, work, capture, o)
}

// A member of the object of a lambda.
fn piece_node(
    alloc: Global,
    env: &Env,
    nodes: &mut Vec<TNode>,
    part: &ObjectPart,
    at: At,
    init: TNodeId,
) -> Result<TNodeId, AllocError>
    requires { init.0 < length (trees_of nodes.old.items) }
    ensures { IfOk result (λ r. Adds (trees_of nodes.old.items) (trees_of nodes.new.items) r (piece_tree (ctx_of env.now) (part_of part.now) at (tree_at (trees_of nodes.old.items) init))) }
{
    let ends = destroys(alloc, env, nodes, at, &part.ty)?;
    let kids = object_kids(alloc, init, &ends)?;
    let ty = copy(alloc, &part.ty)?;
    let kind = TKind::Piece {
        offset: part.offset,
    };
    add_node(
        nodes,
        TNode {
            kind,
            ty,
            cat: Cat::Prvalue,
            at,
            kids,
        },
    )
}

fn piece(
    alloc: Global,
    env: &Env,
    work: &mut Work,
    part: &ObjectPart,
    capture: &Capture,
) -> Result<TNodeId, ElabFault>
    ensures { Makes (trees_of work.old.nodes.items) (trees_of work.new.nodes.items) (work_of work.new) result (one_piece (ctx_of env.now) (work_of work.old) (part_of part.now) (capture_of capture.now)) }
{
    let init = captured(alloc, env, work, capture)?;
    let made = piece_node(alloc, env, &mut work.nodes, part, capture.at, init)?;
    Ok(made)
}

// The capture with an index.
fn capture_at<'a>(captures: &'a [Capture], i: usize) -> Option<&'a Capture>
    ensures { MatchOption result (slice_get captures.now i ≡ None) (λ x. slice_get captures.now i ≡ Some x.now) }
{
    captures.get(i)
}

// The members of the object of a lambda, one for each capture.
fn captured_pieces(
    alloc: Global,
    env: &Env,
    work: &mut Work,
    parts: &[ObjectPart],
    captures: &[Capture],
) -> Result<Vec<TNodeId>, ElabFault>
    ensures { MakesAll (trees_of work.old.nodes.items) (trees_of work.new.nodes.items) (work_of work.new) result (captured_pieces_of (ctx_of env.now) (work_of work.old) (map part_of parts.now) (map capture_of captures.now)) }
{
    let mut list = Vec::new(alloc);
    'members: for (i, part) in parts.iter().enumerate() {
        let Some(capture) = capture_at(captures, i) else {
            return Ok(list);
        };
        let kid = piece(alloc, env, work, part, capture)?;
        keep(&mut list, kid)?;
    }
    Ok(list)
}

// The object itself.
fn object_node(
    nodes: &mut Vec<TNode>,
    class: u32,
    at: At,
    kids: Vec<TNodeId>,
) -> Result<TNodeId, AllocError>
    ensures { IfOk result (λ r. Adds (trees_of nodes.old.items) (trees_of nodes.new.items) r (node TKind.Pieces (plain (closure class)) Cat.Prvalue at (trees_at (trees_of nodes.old.items) kids.items))) }
{
    let ty = plain_type(Shape::Closure(class));
    add_node(
        nodes,
        TNode {
            kind: TKind::Pieces,
            ty,
            cat: Cat::Prvalue,
            at,
            kids,
        },
    )
}

/// The object of the lambda at a place.
pub fn closure_object(
    alloc: Global,
    env: &Env,
    closures: &[Closure],
    work: &mut Work,
    at: At,
) -> Result<TNodeId, ElabFault>
    ensures { Makes (trees_of work.old.nodes.items) (trees_of work.new.nodes.items) (work_of work.new) result (closure_object_of (ctx_of env.now) (map closure_of closures.now) (work_of work.old) at) }
{
    let Some(found) = closure_at(at, closures) else {
        return Err(ill(at, IllRule::OutOfProfile));
    };
    let parts = parts_of(alloc, env, found.class)?;
    let kids = captured_pieces(alloc, env, work, &parts, &found.captures)?;
    let made = object_node(&mut work.nodes, found.class, at, kids)?;
    Ok(made)
}
