// What a constructor does to the parts of its object: the base, the class pointer, the members (C++14 12.6.2).

ghost use Rattle.std.specs.Prelude.{◌≡◌, ◌<◌, true, None, Some, map, option_map, slice_get, length, IfOk, OnOk};
ghost use Rattle.cpp_types.specs.Typ.{class as class_form, typ_of};
ghost use Rattle.cpp_types.specs.Class.{classes_of};
ghost use Rattle.elab_entry.specs.cpp_tree.Notation.{plain};
ghost use Rattle.elab_entry.specs.cpp_tree.Arena.{trees_of, tree_at, trees_at, Adds};
ghost use Rattle.elab_entry.specs.elab_ctx.Ctx.{ctx_of, work_of};
ghost use Rattle.elab_entry.specs.elab_ctx.Says.{Gives, Makes, are_within};
ghost use Rattle.elab_entry.specs.elab_rules.Names.{members_in};
ghost use Rattle.elab_entry.specs.elab_rules.Braces.{default_at as default_at_of};
ghost use Rattle.elab_entry.specs.elab_rules.Calls.{base_of_class as base_of_class_of};
ghost use Rattle.elab_entry.specs.elab_rules.Statements.{default_object as default_object_of};
ghost use Rattle.elab_entry.specs.elab_rules.Members.{as_base_of, given_for as given_for_of, member_type as member_type_of, member_built as member_built_of, members_built as members_built_of, parts_built as parts_built_of, constructor_tree as constructor_tree_of};
ghost use Rattle.elab_entry.specs.elab_scopes.States.{state_of, made};
ghost use Rattle.elab_entry.specs.elab_scopes.Says.{Does, DoesAll, OneDone};
ghost use Rattle.elab_entry.specs.Says.{Lists};
ghost use Rattle.elab_implicit.specs.Says.{GivesAll};
ghost use Rattle.elab_implicit.specs.Written.{given_in, are_there as are_there_of};
ghost use Rattle.elab_implicit.specs.Building.{base_default as base_default_of, base_tree, base_trees, first_trees, default_tree, member_default as member_default_of};

use crate::given::{Given, allow_base, are_there, given_for, restore_base};
use crate::object::{base_init, class_type, member_init, pointer_stored};
use crate::parts::{base_of_class, member_count, member_type};
use crate::places::all_stand;
use cpp_types::{At, Ty};
use elab_entry::below::{
    ElabFault, Env, Pointed, State, TKind, TNode, TNodeId, Work, block, default_at, default_object,
    default_whole, keep, keep_all, one_of, statement,
};
use std::alloc::{AllocError, Global};

// The base from nothing.
fn base_from_nothing(
    alloc: Global,
    env: &mut Env,
    nodes: &mut Vec<TNode>,
    at: At,
    base: u32,
) -> Result<TNodeId, ElabFault>
    ensures ctx { ctx_of env.new ≡ ctx_of env.old }
    ensures made { Gives (trees_of nodes.old.items) (trees_of nodes.new.items) result (default_object_of (as_base_of (ctx_of env.old) base) (plain (class_form base)) at) }
{
    let was = allow_base(env, Some(base));
    let made = default_object(alloc, env, nodes, &class_type(base), at);
    restore_base(env, Some(base), was);
    made
}

// The same as a part of the object.
fn base_default(
    alloc: Global,
    env: &mut Env,
    nodes: &mut Vec<TNode>,
    at: At,
    class: u32,
    base: u32,
) -> Result<TNodeId, ElabFault>
    ensures ctx { OnOk result (ctx_of env.new ≡ ctx_of env.old) }
    ensures made { Gives (trees_of nodes.old.items) (trees_of nodes.new.items) result (base_default_of (ctx_of env.old) at class base) }
{
    let init = base_from_nothing(alloc, env, nodes, at, base)?;
    let made = base_init(alloc, env, nodes, at, at, class, base, init)?;
    Ok(made)
}

// The base by what is written for it, or from nothing.
fn base_built(
    alloc: Global,
    env: &mut Env,
    nodes: &mut Vec<TNode>,
    at: At,
    class: u32,
    base: u32,
    given: Option<Given>,
) -> Result<TNodeId, ElabFault>
    ensures ctx { OnOk result (ctx_of env.new ≡ ctx_of env.old) }
    ensures made { Gives (trees_of nodes.old.items) (trees_of nodes.new.items) result (base_tree (ctx_of env.old) at class base (option_map (given_in (trees_of nodes.old.items)) given)) }
{
    match given {
        Some(found) => {
            let made = base_init(alloc, env, nodes, at, found.at, class, base, found.init)?;
            Ok(made)
        }
        None => base_default(alloc, env, nodes, at, class, base),
    }
}

// The base, if there is one, as a list.
fn base_listed(
    alloc: Global,
    env: &mut Env,
    nodes: &mut Vec<TNode>,
    at: At,
    class: u32,
    given: Option<Given>,
) -> Result<Vec<TNodeId>, ElabFault>
    ensures ctx { OnOk result (ctx_of env.new ≡ ctx_of env.old) }
    ensures made { GivesAll (trees_of nodes.old.items) (trees_of nodes.new.items) result (base_trees (ctx_of env.old) at class (base_of_class_of (slice_get (ctx_of env.old).classes class)) (option_map (given_in (trees_of nodes.old.items)) given)) }
{
    match base_of_class(env, class) {
        Some(base) => {
            let made = base_built(alloc, env, nodes, at, class, base, given)?;
            let list = one_of(alloc, made)?;
            Ok(list)
        }
        None => Ok(Vec::new(alloc)),
    }
}

// The base, then the class pointer.
fn first_parts(
    alloc: Global,
    env: &mut Env,
    nodes: &mut Vec<TNode>,
    at: At,
    class: u32,
    given: Option<Given>,
) -> Result<Vec<TNodeId>, ElabFault>
    ensures ctx { OnOk result (ctx_of env.new ≡ ctx_of env.old) }
    ensures made { GivesAll (trees_of nodes.old.items) (trees_of nodes.new.items) result (first_trees (ctx_of env.old) at class (option_map (given_in (trees_of nodes.old.items)) given)) }
{
    let mut list = base_listed(alloc, env, nodes, at, class, given)?;
    let more = pointer_stored(alloc, env, nodes, at, class)?;
    keep_all(&mut list, &more)?;
    Ok(list)
}

// A member by its own initialiser, or from nothing.
fn default_built(
    alloc: Global,
    env: &Env,
    work: &mut Work,
    at: At,
    class: u32,
    member: u32,
    ty: &Ty,
) -> Result<TNodeId, ElabFault>
    ensures { Makes (trees_of work.old.nodes.items) (trees_of work.new.nodes.items) (work_of work.new) result (default_tree (ctx_of env.now) (work_of work.old) at class (typ_of ty.now) (default_at_of class member (ctx_of env.now).defaults)) }
{
    match default_at(env, class, member) {
        Some(found) => {
            let target = class_type(class);
            let made = default_whole(alloc, env, work, &target, Pointed::Place(0), found)?;
            Ok(made)
        }
        None => default_object(alloc, env, &mut work.nodes, ty, at),
    }
}

// The same as a part of the object.
fn member_default(
    alloc: Global,
    env: &Env,
    work: &mut Work,
    at: At,
    class: u32,
    member: u32,
    ty: &Ty,
) -> Result<TNodeId, ElabFault>
    ensures { Makes (trees_of work.old.nodes.items) (trees_of work.new.nodes.items) (work_of work.new) result (member_default_of (ctx_of env.now) (work_of work.old) at class member (typ_of ty.now)) }
{
    let init = default_built(alloc, env, work, at, class, member, ty)?;
    let made = member_init(alloc, env, &mut work.nodes, at, at, class, member, ty, init)?;
    Ok(made)
}

// The same, behind which no lambdas are known.
fn default_done(
    alloc: Global,
    st: &mut State,
    at: At,
    class: u32,
    member: u32,
    ty: &Ty,
) -> Result<TNodeId, ElabFault>
    ensures is { Does st.old st.new result (member_built_of (state_of st.old) at class member (typ_of ty.now) None) }
    ensures classes { OnOk result (classes_of st.new.env.classes.items ≡ classes_of st.old.env.classes.items) }
{
    let made = member_default(alloc, &st.env, &mut st.work, at, class, member, ty)?;
    st.env.closures.clear();
    Ok(made)
}

// A member by what is written for it.
fn member_given(
    alloc: Global,
    st: &mut State,
    at: At,
    class: u32,
    member: u32,
    ty: &Ty,
    found: Given,
) -> Result<TNodeId, AllocError>
    ensures is { IfOk result (λ r. OneDone st.old st.new r (member_built_of (state_of st.old) at class member (typ_of ty.now) (Some (given_in (made st.old) found)))) }
    ensures classes { OnOk result (classes_of st.new.env.classes.items ≡ classes_of st.old.env.classes.items) }
{
    member_init(
        alloc,
        &st.env,
        &mut st.work.nodes,
        at,
        found.at,
        class,
        member,
        ty,
        found.init,
    )
}

// A member of a type by what is written for it, by its own initialiser, or from nothing.
fn typed_built(
    alloc: Global,
    st: &mut State,
    at: At,
    class: u32,
    member: u32,
    ty: &Ty,
    given: Option<Given>,
) -> Result<TNodeId, ElabFault>
    ensures is { Does st.old st.new result (member_built_of (state_of st.old) at class member (typ_of ty.now) (option_map (given_in (made st.old)) given)) }
    ensures classes { OnOk result (classes_of st.new.env.classes.items ≡ classes_of st.old.env.classes.items) }
{
    match given {
        Some(found) => {
            let made = member_given(alloc, st, at, class, member, ty, found)?;
            Ok(made)
        }
        None => default_done(alloc, st, at, class, member, ty),
    }
}

// The same of the member with an index.
fn member_built(
    alloc: Global,
    st: &mut State,
    at: At,
    class: u32,
    member: u32,
    given: Option<Given>,
) -> Result<TNodeId, ElabFault>
    ensures is { Does st.old st.new result (member_built_of (state_of st.old) at class member (member_type_of (slice_get (members_in (slice_get (classes_of st.old.env.classes.items) class)) member)) (option_map (given_in (made st.old)) given)) }
    ensures classes { OnOk result (classes_of st.new.env.classes.items ≡ classes_of st.old.env.classes.items) }
{
    let ty = member_type(alloc, &st.env, class, member)?;
    typed_built(alloc, st, at, class, member, &ty, given)
}

// The members, behind what stands in a list.
fn members_built(
    alloc: Global,
    st: &mut State,
    at: At,
    class: u32,
    given: &[Given],
    list: &mut Vec<TNodeId>,
) -> Result<(), ElabFault>
    requires within { are_within (length (made st.old)) list.old.items ≡ true }
    requires there { are_there_of (length (made st.old)) given.now ≡ true }
    ensures { DoesAll st.old st.new list.old.items list.new.items result (members_built_of at class (map (given_in (made st.old)) given.now) (state_of st.old) 0 (members_in (slice_get (classes_of st.old.env.classes.items) class))) }
{
    let count = member_count(&st.env, class)?;
    for member in 0..count {
        let found = given_for(given, Some(member));
        let made = member_built(alloc, st, at, class, member, found)?;
        keep(list, made)?;
    }
    Ok(())
}

/// The parts of an object in order: the base, the class pointer, the members.
pub fn parts_built(
    alloc: Global,
    st: &mut State,
    at: At,
    class: u32,
    given: &[Given],
) -> Result<Vec<TNodeId>, ElabFault>
    ensures { Lists st.old st.new result (parts_built_of (state_of st.old) at class (map (given_in (made st.old)) given.now)) }
{
    are_there(&st.work.nodes, given)?;
    let found = given_for(given, None);
    let mut list = first_parts(alloc, &mut st.env, &mut st.work.nodes, at, class, found)?;
    members_built(alloc, st, at, class, given, &mut list)?;
    Ok(list)
}

/// The parts of an object, then a block of these statements.
pub fn constructor_tree(
    nodes: &mut Vec<TNode>,
    at: At,
    parts: Vec<TNodeId>,
    list: Vec<TNodeId>,
) -> Result<TNodeId, AllocError>
    ensures { IfOk result (λ r. Adds (trees_of nodes.old.items) (trees_of nodes.new.items) r (constructor_tree_of at (trees_at (trees_of nodes.old.items) parts.items) (trees_at (trees_of nodes.old.items) list.items))) }
{
    all_stand(nodes, &parts)?;
    let inner = block(nodes, at, list)?;
    let mut kids = parts;
    keep(&mut kids, inner)?;
    statement(nodes, TKind::Block { subobjects: true }, at, kids)
}
