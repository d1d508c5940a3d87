// The parts of an object behind the last item of its braces (C++14 8.5.1 p7).

ghost use Rattle.std.specs.Prelude.{◌≡◌, ◌<◌, ◌*◌, ◌-◌, IfOk, length, drop, map, is_some, slice_get, if◌then◌else◌};
ghost use Rattle.elab_make.specs.cpp_types.Typ.{typ_of, array};
ghost use Rattle.elab_make.specs.cpp_types.Class.{classes_of, member_of};
ghost use Rattle.elab_make.specs.cpp_tree.Arena.{trees_of, tree_at, Adds};
ghost use Rattle.elab_make.specs.cpp_tree.Notation.{plain};
ghost use Rattle.elab_make.specs.cpp_tree.Typing.{form_in};
ghost use Rattle.elab_make.specs.elab_ctx.Ctx.{ctx_of, work_of, default_of};
ghost use Rattle.elab_make.specs.elab_ctx.Says.{Puts, Makes, MakesAll};
ghost use Rattle.elab_make.specs.elab_rules.Initialising.{with_tree};
ghost use Rattle.elab_make.specs.elab_rules.Objects.{size_of as size_by};
ghost use Rattle.elab_make.specs.elab_rules.Names.{offset_at as offset_by, members_in, is_const_typ, is_volatile_object};
ghost use Rattle.elab_make.specs.elab_rules.Braces.{this_of, default_at as default_at_of, default_made as default_made_of, requalified, default_member as default_member_of, piece as piece_of, tree_place, rest_piece as rest_piece_of, rest_members as rest_members_of, rest_in as rest_in_of};
ghost use Rattle.elab_aggregates.specs.MemberPieces.{default_piece as default_piece_of, member_piece as member_piece_of, piece_from_nothing as piece_from_nothing_of};

use crate::aggregates::offset_of;
use crate::defaults::{default_at, default_made};
use crate::pieces::piece;
use crate::relocating::Pointed;
use crate::requalifying::requalified_in;
use crate::strings::array_type;
use elab_make::below::{
    At, DefaultInit, ElabFault, Env, MemberRec, Shape, TNode, TNodeId, Ty, Work, keep, node_at,
    qualified_type, size_of,
};
use elab_make::{from_nothing, one_of};
use elab_names::members::members_at;
use elab_names::offset_at;
use std::alloc::{AllocError, Global};

// A default initialiser of a member of an object, whose qualifiers it has.
fn default_in_object(
    alloc: Global,
    env: &Env,
    work: &mut Work,
    whole: &Ty,
    object: TNodeId,
    found: &DefaultInit,
) -> Result<TNodeId, AllocError>
    requires { object.0 < length (trees_of work.old.nodes.items) }
    ensures { IfOk result (λ r. Puts (trees_of work.old.nodes.items) (trees_of work.new.nodes.items) (work_of work.new) r (with_tree (requalified (is_const_typ (typ_of whole.now)) (is_volatile_object (typ_of whole.now))) (default_made_of (work_of work.old) (this_of (typ_of whole.now) (tree_at (trees_of work.old.nodes.items) object)) (default_of (trees_of env.now.default_nodes.items) found.now)))) }
{
    let made = default_made(alloc, env, work, whole, Pointed::Object(object), found)?;
    requalified_in(alloc, &mut work.nodes, whole, made)
}

// A member by its default initialiser, or from nothing.
fn default_member(
    alloc: Global,
    env: &Env,
    work: &mut Work,
    whole: &Ty,
    object: TNodeId,
    class: u32,
    index: u32,
    ty: &Ty,
    at: At,
) -> Result<TNodeId, ElabFault>
    requires { object.0 < length (trees_of work.old.nodes.items) }
    ensures { Makes (trees_of work.old.nodes.items) (trees_of work.new.nodes.items) (work_of work.new) result (default_member_of (ctx_of env.now) (work_of work.old) (is_const_typ (typ_of whole.now)) (is_volatile_object (typ_of whole.now)) (this_of (typ_of whole.now) (tree_at (trees_of work.old.nodes.items) object)) (typ_of ty.now) at (default_at_of class index (ctx_of env.now).defaults)) }
{
    match default_at(env, class, index) {
        Some(found) => {
            let made = default_in_object(alloc, env, work, whole, object, found)?;
            Ok(made)
        }
        None => from_nothing(alloc, env, &mut work.nodes, ty, at),
    }
}

// The place of a member's part: that of its default initialiser, or that of the braces.
fn part_place(env: &Env, nodes: &Vec<TNode>, class: u32, index: u32, at: At, init: TNodeId) -> At
    requires { init.0 < length (trees_of nodes.now.items) }
    ensures { result ≡ (if is_some (default_at_of class index (ctx_of env.now).defaults) then tree_place (tree_at (trees_of nodes.now.items) init) else at) }
{
    match default_at(env, class, index) {
        Some(_) => node_at(nodes, init).at,
        None => at,
    }
}

// A part of a class, at the offset of a member.
fn placed_piece(
    alloc: Global,
    env: &Env,
    nodes: &mut Vec<TNode>,
    class: u32,
    index: u32,
    ty: &Ty,
    at: At,
    init: TNodeId,
) -> Result<TNodeId, AllocError>
    requires { init.0 < length (trees_of nodes.old.items) }
    ensures { IfOk result (λ r. Adds (trees_of nodes.old.items) (trees_of nodes.new.items) r (piece_of (ctx_of env.now) (offset_by (classes_of env.now.classes.items) class index) (typ_of ty.now) at (tree_at (trees_of nodes.old.items) init))) }
{
    let offset = offset_at(env, class, index)?;
    piece(alloc, env, nodes, offset, ty, at, init)
}

// A member that has no item, of a type as part of the object.
fn default_piece(
    alloc: Global,
    env: &Env,
    work: &mut Work,
    at: At,
    object: TNodeId,
    whole: &Ty,
    class: u32,
    index: u32,
    ty: &Ty,
) -> Result<TNodeId, ElabFault>
    requires { object.0 < length (trees_of work.old.nodes.items) }
    ensures { Makes (trees_of work.old.nodes.items) (trees_of work.new.nodes.items) (work_of work.new) result (default_piece_of (ctx_of env.now) (work_of work.old) at (tree_at (trees_of work.old.nodes.items) object) (typ_of whole.now) class index (typ_of ty.now)) }
{
    let init = default_member(alloc, env, work, whole, object, class, index, ty, at)?;
    let place = part_place(env, &work.nodes, class, index, at, init);
    let made = placed_piece(alloc, env, &mut work.nodes, class, index, ty, place, init)?;
    Ok(made)
}

// The same of the declared type of the member.
fn member_piece(
    alloc: Global,
    env: &Env,
    work: &mut Work,
    at: At,
    object: TNodeId,
    whole: &Ty,
    class: u32,
    index: u32,
    ty: &Ty,
) -> Result<TNodeId, ElabFault>
    requires { object.0 < length (trees_of work.old.nodes.items) }
    ensures { Makes (trees_of work.old.nodes.items) (trees_of work.new.nodes.items) (work_of work.new) result (member_piece_of (ctx_of env.now) (work_of work.old) at (tree_at (trees_of work.old.nodes.items) object) (typ_of whole.now) class index (typ_of ty.now)) }
{
    let ty = qualified_type(alloc, whole.is_const, whole.is_volatile, ty)?;
    default_piece(alloc, env, work, at, object, whole, class, index, &ty)
}

// The members from an index on.
fn members_from(
    alloc: Global,
    env: &Env,
    work: &mut Work,
    at: At,
    object: TNodeId,
    whole: &Ty,
    class: u32,
    members: &[MemberRec],
    from: u32,
) -> Result<Vec<TNodeId>, ElabFault>
    requires { object.0 < length (trees_of work.old.nodes.items) }
    ensures { MakesAll (trees_of work.old.nodes.items) (trees_of work.new.nodes.items) (work_of work.new) result (rest_members_of (ctx_of env.now) (work_of work.old) at (tree_at (trees_of work.old.nodes.items) object) (typ_of whole.now) class from (map member_of (drop from members.now))) }
{
    let Ok(count) = u32::try_from(members.len()) else {
        return Err(ElabFault::Memory);
    };
    let mut list = Vec::new(alloc);
    for index in from..count {
        let ty = &members[index as usize].ty;
        let kid = member_piece(alloc, env, work, at, object, whole, class, index, ty)?;
        keep(&mut list, kid)?;
    }
    Ok(list)
}

// The members of a class from an index on, which have no item.
fn rest_members(
    alloc: Global,
    env: &Env,
    work: &mut Work,
    at: At,
    object: TNodeId,
    whole: &Ty,
    class: u32,
    from: u32,
) -> Result<Vec<TNodeId>, ElabFault>
    requires { object.0 < length (trees_of work.old.nodes.items) }
    ensures { MakesAll (trees_of work.old.nodes.items) (trees_of work.new.nodes.items) (work_of work.new) result (rest_members_of (ctx_of env.now) (work_of work.old) at (tree_at (trees_of work.old.nodes.items) object) (typ_of whole.now) class from (drop from (members_in (slice_get (classes_of env.now.classes.items) class)))) }
{
    let members = members_at(&env.classes, class);
    members_from(alloc, env, work, at, object, whole, class, members, from)
}

// A part of an object from nothing.
fn piece_from_nothing(
    alloc: Global,
    env: &Env,
    work: &mut Work,
    offset: u32,
    ty: &Ty,
    at: At,
) -> Result<Vec<TNodeId>, ElabFault>
    ensures { MakesAll (trees_of work.old.nodes.items) (trees_of work.new.nodes.items) (work_of work.new) result (piece_from_nothing_of (ctx_of env.now) (work_of work.old) offset (typ_of ty.now) at) }
{
    let init = from_nothing(alloc, env, &mut work.nodes, ty, at)?;
    let kid = piece(alloc, env, &mut work.nodes, offset, ty, at, init)?;
    let kids = one_of(alloc, kid)?;
    Ok(kids)
}

// So many elements of an array from an index on, as one part.
fn elements_from(
    alloc: Global,
    env: &Env,
    work: &mut Work,
    element: &Ty,
    index: u32,
    count: u32,
    at: At,
) -> Result<Vec<TNodeId>, ElabFault>
    ensures { MakesAll (trees_of work.old.nodes.items) (trees_of work.new.nodes.items) (work_of work.new) result (piece_from_nothing_of (ctx_of env.now) (work_of work.old) (index * size_by (classes_of env.now.classes.items) (typ_of element.now)) (plain (array (typ_of element.now) count)) at) }
{
    let size = size_of(env, element)?;
    let offset = offset_of(index, size)?;
    let ty = array_type(alloc, element, count)?;
    piece_from_nothing(alloc, env, work, offset, &ty, at)
}

// The same, if there are any.
fn rest_of_array(
    alloc: Global,
    env: &Env,
    work: &mut Work,
    element: &Ty,
    index: u32,
    count: u32,
    at: At,
) -> Result<Vec<TNodeId>, ElabFault>
    ensures { MakesAll (trees_of work.old.nodes.items) (trees_of work.new.nodes.items) (work_of work.new) result (rest_piece_of (ctx_of env.now) (work_of work.old) (typ_of element.now) index count at) }
{
    if count == 0 {
        return Ok(Vec::new(alloc));
    }
    elements_from(alloc, env, work, element, index, count, at)
}

// How many are left from an index on.
fn left_from(count: u32, index: u32) -> u32
    ensures { result ≡ count - index }
{
    count.saturating_sub(index)
}

/// The parts of an object behind the last item.
pub fn rest_in(
    alloc: Global,
    env: &Env,
    work: &mut Work,
    at: At,
    object: TNodeId,
    ty: &Ty,
    index: u32,
) -> Result<Vec<TNodeId>, ElabFault>
    requires { object.0 < length (trees_of work.old.nodes.items) }
    ensures { MakesAll (trees_of work.old.nodes.items) (trees_of work.new.nodes.items) (work_of work.new) result (rest_in_of (ctx_of env.now) (work_of work.old) at (tree_at (trees_of work.old.nodes.items) object) (typ_of ty.now) (form_in (typ_of ty.now)) index) }
{
    match &ty.shape {
        Shape::Array(element, count) => {
            let element = qualified_type(alloc, ty.is_const, ty.is_volatile, element)?;
            let left = left_from(*count, index);
            rest_of_array(alloc, env, work, &element, index, left, at)
        }
        Shape::Class(class) => rest_members(alloc, env, work, at, object, ty, *class, index),
        Shape::Void
        | Shape::Int(_)
        | Shape::Enum { .. }
        | Shape::Null
        | Shape::Ptr(_)
        | Shape::Ref(_)
        | Shape::Func(_)
        | Shape::Closure(_)
        | Shape::TxEx(_) => Ok(Vec::new(alloc)),
    }
}
