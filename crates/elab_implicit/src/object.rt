// The object at hand in a constructor, a destructor or an initialiser of a member: the pointer in place 0 of the frame.

ghost use Rattle.std.specs.Prelude.{◌≡◌, ◌∷◌, [], Some, IfOk, OnOk};
ghost use Rattle.cpp_types.specs.Typ.{class as class_form, void, typ_of};
ghost use Rattle.cpp_types.specs.Class.{classes_of};
ghost use Rattle.elab_entry.specs.cpp_tree.Trees.{one};
ghost use Rattle.elab_entry.specs.cpp_tree.Notation.{plain};
ghost use Rattle.elab_entry.specs.cpp_tree.Arena.{trees_of, tree_at, Adds};
ghost use Rattle.elab_entry.specs.elab_ctx.Ctx.{ctx_of};
ghost use Rattle.elab_entry.specs.elab_rules.Values.{part_at as part_at_of, size_type as size_type_of};
ghost use Rattle.elab_entry.specs.elab_rules.Names.{this_pointer as this_pointer_of, held_by as held_by_of};
ghost use Rattle.elab_entry.specs.elab_rules.Calls.{pointer_offset as pointer_offset_of};
ghost use Rattle.elab_entry.specs.elab_rules.Members.{own_this, own_base as own_base_of, part_init as part_init_of, pointer_stored as pointer_stored_of};
ghost use Rattle.elab_entry.specs.elab_ctx.Says.{AddsAll};
ghost use Rattle.elab_entry.specs.elab_scopes.States.{state_of, made};
ghost use Rattle.elab_entry.specs.Round.{round_of, trees_round, round_function};
ghost use Rattle.elab_entry.specs.Bodies.{entered};
ghost use Rattle.elab_implicit.specs.Building.{table_tree, assigned, stored_tree, base_init as base_init_of, member_init as member_init_of};

use crate::places::stands;
use cpp_types::{At, Cat, Shape, Ty, copy};
use elab_call::slots::pointer_offset;
use elab_entry::below::{
    Env, IntKind, State, TKind, TNode, TNodeId, This, add_binary, add_leaf, add_unary, destroys,
    keep, keep_all, offset_at, one_of, part_at, plain_type, pointer_to, statement, this_pointer,
};
use elab_entry::{Around, enter_function};
use std::alloc::{AllocError, Global};

/// The type of objects of a class.
pub fn class_type(class: u32) -> Ty
    ensures { typ_of result ≡ plain (class_form class) }
{
    plain_type(Shape::Class(class))
}

/// Into a function of an object: no result, and the pointer to the object in place 0.
pub fn enter_object(alloc: Global, st: &mut State, class: u32) -> Result<Around, AllocError>
    ensures is { OnOk result (state_of st.new ≡ entered (state_of st.old) (plain void) (Some (plain (class_form class))) (Some class)) }
    ensures nodes { OnOk result (made st.new ≡ []) }
    ensures round { IfOk result (λ a. round_of a ≡ round_function (state_of st.old)) }
    ensures trees { IfOk result (λ a. trees_round a ≡ made st.old) }
{
    let void = plain_type(Shape::Void);
    enter_function(alloc, st, &void, Some(class_type(class)), Some(class))
}

// The pointer to the object.
fn own_pointer(
    alloc: Global,
    nodes: &mut Vec<TNode>,
    at: At,
    class: u32,
) -> Result<TNodeId, AllocError>
    ensures { IfOk result (λ r. Adds (trees_of nodes.old.items) (trees_of nodes.new.items) r (this_pointer_of at (own_this class))) }
{
    let this = This {
        ty: class_type(class),
        place: 0,
    };
    this_pointer(alloc, nodes, at, &this)
}

/// A part of the object, at an offset.
pub fn own_part(
    alloc: Global,
    nodes: &mut Vec<TNode>,
    at: At,
    class: u32,
    offset: u32,
    ty: &Ty,
) -> Result<TNodeId, AllocError>
    ensures { IfOk result (λ r. Adds (trees_of nodes.old.items) (trees_of nodes.new.items) r (part_at_of offset (typ_of ty.now) at (this_pointer_of at (own_this class)))) }
{
    let pointer = own_pointer(alloc, nodes, at, class)?;
    let ty = copy(alloc, ty)?;
    part_at(alloc, nodes, offset, ty, at, pointer)
}

/// An object to which a slot in a place of the frame holds a pointer.
pub fn held_by(
    alloc: Global,
    nodes: &mut Vec<TNode>,
    ty: Ty,
    item: Ty,
    at: At,
    place: u32,
) -> Result<TNodeId, AllocError>
    ensures { IfOk result (λ r. Adds (trees_of nodes.old.items) (trees_of nodes.new.items) r (held_by_of (typ_of ty) (typ_of item) at place)) }
{
    let slot = add_leaf(alloc, nodes, TKind::Local { place }, item, Cat::Lvalue, at)?;
    let load = TKind::Load {
        kind: IntKind::ULong,
        volatile: false,
    };
    add_unary(alloc, nodes, load, ty, Cat::Lvalue, at, slot)
}

/// The base of the object.
pub fn own_base(
    alloc: Global,
    nodes: &mut Vec<TNode>,
    at: At,
    class: u32,
    base: u32,
) -> Result<TNodeId, AllocError>
    ensures { IfOk result (λ r. Adds (trees_of nodes.old.items) (trees_of nodes.new.items) r (own_base_of class at base)) }
{
    let item = pointer_to(alloc, class_type(class))?;
    held_by(alloc, nodes, class_type(base), item, at, 0)
}

// A part, its initialiser, and its destructions.
fn init_kids(
    alloc: Global,
    object: TNodeId,
    init: TNodeId,
    ends: &[TNodeId],
) -> Result<Vec<TNodeId>, AllocError>
    ensures { IfOk result (λ v. v.items ≡ object ∷ init ∷ ends.now) }
{
    let mut kids = Vec::new(alloc);
    keep(&mut kids, object)?;
    keep(&mut kids, init)?;
    keep_all(&mut kids, ends)?;
    Ok(kids)
}

/// A part of the object with its initialiser, and its destructions at the name of the function.
pub fn part_init(
    alloc: Global,
    env: &Env,
    nodes: &mut Vec<TNode>,
    at: At,
    place: At,
    ty: &Ty,
    object: TNodeId,
    init: TNodeId,
) -> Result<TNodeId, AllocError>
    ensures { IfOk result (λ r. Adds (trees_of nodes.old.items) (trees_of nodes.new.items) r (part_init_of (ctx_of env.now) at place (typ_of ty.now) (tree_at (trees_of nodes.old.items) object) (tree_at (trees_of nodes.old.items) init))) }
{
    stands(nodes, object)?;
    stands(nodes, init)?;
    let ends = destroys(alloc, env, nodes, at, ty)?;
    let kids = init_kids(alloc, object, init, &ends)?;
    statement(nodes, TKind::Init, place, kids)
}

fn size_type() -> Ty
    ensures { typ_of result ≡ size_type_of }
{
    plain_type(Shape::Int(IntKind::ULong))
}

// The table of a class.
fn class_table(
    alloc: Global,
    nodes: &mut Vec<TNode>,
    at: At,
    class: u32,
) -> Result<TNodeId, AllocError>
    ensures { IfOk result (λ r. Adds (trees_of nodes.old.items) (trees_of nodes.new.items) r (table_tree at class)) }
{
    add_leaf(
        alloc,
        nodes,
        TKind::ClassTable { class },
        size_type(),
        Cat::Prvalue,
        at,
    )
}

// A word is assigned to an object.
fn word_assigned(
    alloc: Global,
    nodes: &mut Vec<TNode>,
    at: At,
    object: TNodeId,
    value: TNodeId,
) -> Result<TNodeId, AllocError>
    ensures { IfOk result (λ r. Adds (trees_of nodes.old.items) (trees_of nodes.new.items) r (assigned at (tree_at (trees_of nodes.old.items) object) (tree_at (trees_of nodes.old.items) value))) }
{
    let assign = TKind::Assign {
        kind: IntKind::ULong,
        volatile: false,
    };
    add_binary(
        alloc,
        nodes,
        assign,
        size_type(),
        Cat::Lvalue,
        at,
        object,
        value,
    )
}

// The class pointer at an offset points to the table of the class.
fn stored_at(
    alloc: Global,
    nodes: &mut Vec<TNode>,
    at: At,
    class: u32,
    offset: u32,
) -> Result<TNodeId, AllocError>
    ensures { IfOk result (λ r. Adds (trees_of nodes.old.items) (trees_of nodes.new.items) r (stored_tree at class offset)) }
{
    let object = own_part(alloc, nodes, at, class, offset, &size_type())?;
    let table = class_table(alloc, nodes, at, class)?;
    word_assigned(alloc, nodes, at, object, table)
}

// The same as a list.
fn pointer_at(
    alloc: Global,
    nodes: &mut Vec<TNode>,
    at: At,
    class: u32,
    offset: u32,
) -> Result<Vec<TNodeId>, AllocError>
    ensures { IfOk result (λ ids. AddsAll (trees_of nodes.old.items) (trees_of nodes.new.items) ids.items (one (stored_tree at class offset))) }
{
    let made = stored_at(alloc, nodes, at, class, offset)?;
    one_of(alloc, made)
}

/// The class pointer, where the class or a base has one, points to the table of the class (C++14 10.3, 12.7).
pub fn pointer_stored(
    alloc: Global,
    env: &Env,
    nodes: &mut Vec<TNode>,
    at: At,
    class: u32,
) -> Result<Vec<TNodeId>, AllocError>
    ensures { IfOk result (λ ids. AddsAll (trees_of nodes.old.items) (trees_of nodes.new.items) ids.items (pointer_stored_of at class (pointer_offset_of (classes_of env.now.classes.items) class))) }
{
    match pointer_offset(env, class)? {
        Some(offset) => pointer_at(alloc, nodes, at, class, offset),
        None => Ok(Vec::new(alloc)),
    }
}

/// The base of a number with its initialiser, which stands at a place as a whole.
pub fn base_init(
    alloc: Global,
    env: &Env,
    nodes: &mut Vec<TNode>,
    at: At,
    place: At,
    class: u32,
    base: u32,
    init: TNodeId,
) -> Result<TNodeId, AllocError>
    ensures { IfOk result (λ r. Adds (trees_of nodes.old.items) (trees_of nodes.new.items) r (base_init_of (ctx_of env.now) at place class base (tree_at (trees_of nodes.old.items) init))) }
{
    stands(nodes, init)?;
    let object = own_base(alloc, nodes, place, class, base)?;
    let ty = class_type(base);
    part_init(alloc, env, nodes, at, place, &ty, object, init)
}

/// A member with its initialiser, which stands at a place as a whole.
pub fn member_init(
    alloc: Global,
    env: &Env,
    nodes: &mut Vec<TNode>,
    at: At,
    place: At,
    class: u32,
    member: u32,
    ty: &Ty,
    init: TNodeId,
) -> Result<TNodeId, AllocError>
    ensures { IfOk result (λ r. Adds (trees_of nodes.old.items) (trees_of nodes.new.items) r (member_init_of (ctx_of env.now) at place class member (typ_of ty.now) (tree_at (trees_of nodes.old.items) init))) }
{
    stands(nodes, init)?;
    let offset = offset_at(env, class, member)?;
    let object = own_part(alloc, nodes, place, class, offset, ty)?;
    part_init(alloc, env, nodes, at, place, ty, object, init)
}
