// What an implicit copy constructor does: each part of the object from that of the object that is copied (C++14 12.8 p15).

ghost use Rattle.std.specs.Prelude.{◌≡◌, ◌<◌, ℕ, true, Some, length, slice_get, IfOk, OnOk};
ghost use Rattle.cpp_types.specs.Typ.{typ_of, class as class_form};
ghost use Rattle.cpp_types.specs.Class.{classes_of};
ghost use Rattle.cpp_types.specs.Conversion.{referred};
ghost use Rattle.elab_entry.specs.cpp_tree.Arena.{trees_of, tree_at, Adds};
ghost use Rattle.elab_entry.specs.cpp_tree.Notation.{plain};
ghost use Rattle.elab_entry.specs.elab_ctx.Ctx.{ctx_of, work_of, special_of};
ghost use Rattle.elab_entry.specs.elab_ctx.Says.{Makes, are_within};
ghost use Rattle.elab_entry.specs.elab_rules.Values.{stored as stored_of, valued as valued_of};
ghost use Rattle.elab_entry.specs.elab_rules.Names.{held_by as held_by_of, members_in};
ghost use Rattle.elab_entry.specs.elab_rules.Objects.{is_array as is_array_of};
ghost use Rattle.elab_entry.specs.elab_rules.Initialising.{copied_part as copied_part_of, copy_of_held as copy_of_held_of, closure_part as closure_part_of, class_from as class_from_of, as_source as as_source_of};
ghost use Rattle.elab_entry.specs.elab_rules.Calls.{base_of_class as base_of_class_of};
ghost use Rattle.elab_entry.specs.elab_rules.Members.{as_base_of, member_type as member_type_of};
ghost use Rattle.elab_entry.specs.elab_rules.Implicit.{source_object as source_object_of, source_const as source_const_of, own_operand, part_of_source, members_copied as members_copied_of, base_copied as base_copied_of, parts_copied as parts_copied_of, with_source};
ghost use Rattle.elab_entry.specs.elab_scopes.States.{state_of, made};
ghost use Rattle.elab_entry.specs.elab_scopes.Says.{Does, DoesAll};
ghost use Rattle.elab_entry.specs.Says.{Lists};
ghost use Rattle.elab_implicit.specs.Copying.{array_copied as array_copied_of, part_from, member_from, member_done, base_from, first_copied as first_copied_of};

use crate::given::{allow_base, restore_base};
use crate::object::{base_init, class_type, held_by, member_init, pointer_stored};
use crate::parts::{base_of_class, member_count, member_type};
use cpp_types::{At, Cat, Shape, Ty, copy};
use elab_entry::below::{
    ElabFault, Env, Operand, Special, State, TKind, TNode, TNodeId, Work, add_binary, add_item,
    as_source, class_from, class_number, copies, each_by,
    elab_names_qualified_type as qualified_type, element_type, is_class_type, keep, keep_all,
    offset_at, one_of, part_at, referred_type, stored, traits_at, valued,
};
use std::alloc::{AllocError, Global};

// The object that is copied: to it the parameter in place 1 refers.
fn referred_object(
    alloc: Global,
    nodes: &mut Vec<TNode>,
    param: &Ty,
    at: At,
) -> Result<TNodeId, AllocError>
    ensures { IfOk result (λ r. Adds (trees_of nodes.old.items) (trees_of nodes.new.items) r (held_by_of (referred (typ_of param.now)) (typ_of param.now) at 1)) }
{
    let ty = copy(alloc, referred_type(param))?;
    let item = copy(alloc, param)?;
    held_by(alloc, nodes, ty, item, at, 1)
}

// The same as the definition names it.
fn source_object(
    alloc: Global,
    nodes: &mut Vec<TNode>,
    param: &Ty,
    at: At,
) -> Result<TNodeId, AllocError>
    ensures { (class : ℕ) → IfOk result (λ r. Adds (trees_of nodes.old.items) (trees_of nodes.new.items) r (source_object_of class (typ_of param.now) at)) }
{
    referred_object(alloc, nodes, param, at)
}

// Whether the object that is copied is `const`.
fn source_const(param: &Ty) -> bool
    ensures { result ≡ source_const_of (typ_of param.now) }
{
    match &param.shape {
        Shape::Ref(inner) => inner.is_const,
        _ => false,
    }
}

fn is_array(ty: &Ty) -> bool
    ensures { result ≡ is_array_of (typ_of ty.now) }
{
    matches!(&ty.shape, Shape::Array(_, _))
}

// How an object is copied; what is of no class is copied in place.
fn copy_of_held(env: &Env, class: Option<u32>) -> Special
    ensures { special_of result ≡ copy_of_held_of (ctx_of env.now) class }
{
    match class {
        Some(class) => traits_at(env, class).copy,
        None => Special::Trivial,
    }
}

// The elements of an array from those of the source at hand.
fn copied_part(
    alloc: Global,
    env: &Env,
    nodes: &mut Vec<TNode>,
    at: At,
    ty: &Ty,
    special: Special,
) -> Result<TNodeId, AllocError>
    ensures { IfOk result (λ r. Adds (trees_of nodes.old.items) (trees_of nodes.new.items) r (copied_part_of (ctx_of env.now) at (typ_of ty.now) (special_of special))) }
{
    match special {
        Special::Function(func) => {
            each_by(alloc, env, nodes, TKind::CopyConstruct { func }, ty, at)
        }
        Special::Absent | Special::Trivial => copies(alloc, env, nodes, at, ty),
    }
}

fn elements_copied(
    alloc: Global,
    env: &Env,
    nodes: &mut Vec<TNode>,
    at: At,
    ty: &Ty,
) -> Result<TNodeId, AllocError>
    ensures { IfOk result (λ r. Adds (trees_of nodes.old.items) (trees_of nodes.new.items) r (closure_part_of (ctx_of env.now) at (record { offset = 0; typ = typ_of ty.now }))) }
{
    let element = element_type(alloc, ty)?;
    let special = copy_of_held(env, class_number(&element));
    copied_part(alloc, env, nodes, at, ty, special)
}

// An array from that of the object that is copied.
fn array_copied(
    alloc: Global,
    env: &Env,
    nodes: &mut Vec<TNode>,
    at: At,
    ty: &Ty,
    source: TNodeId,
) -> Result<TNodeId, AllocError>
    requires { source.0 < length (trees_of nodes.old.items) }
    ensures { IfOk result (λ r. Adds (trees_of nodes.old.items) (trees_of nodes.new.items) r (array_copied_of (ctx_of env.now) at (typ_of ty.now) (tree_at (trees_of nodes.old.items) source))) }
{
    let init = elements_copied(alloc, env, nodes, at, ty)?;
    let object = copy(alloc, ty)?;
    add_binary(
        alloc,
        nodes,
        TKind::CopyFrom,
        object,
        Cat::Prvalue,
        at,
        source,
        init,
    )
}

// A scalar, or the slot of a reference, from that of the object that is copied.
fn scalar_copied(
    alloc: Global,
    nodes: &mut Vec<TNode>,
    at: At,
    ty: &Ty,
    source: TNodeId,
) -> Result<TNodeId, AllocError>
    requires { source.0 < length (trees_of nodes.old.items) }
    ensures { IfOk result (λ r. Adds (trees_of nodes.old.items) (trees_of nodes.new.items) r (stored_of at (typ_of ty.now) (valued_of at (tree_at (trees_of nodes.old.items) source)))) }
{
    let value = valued(alloc, nodes, at, source)?;
    stored(alloc, nodes, at, ty, value)
}

// A part from that of the object that is copied.
fn part_copied(
    alloc: Global,
    env: &Env,
    work: &mut Work,
    at: At,
    ty: &Ty,
    source: TNodeId,
) -> Result<TNodeId, ElabFault>
    requires { source.0 < length (trees_of work.old.nodes.items) }
    ensures { Makes (trees_of work.old.nodes.items) (trees_of work.new.nodes.items) (work_of work.new) result (part_from (ctx_of env.now) (work_of work.old) at (typ_of ty.now) (tree_at (trees_of work.old.nodes.items) source)) }
{
    if is_array(ty) {
        let made = array_copied(alloc, env, &mut work.nodes, at, ty, source)?;
        return Ok(made);
    }
    if is_class_type(ty) {
        let o = Operand {
            id: source,
            at,
            zero: false,
        };
        return class_from(alloc, env, work, ty, at, o);
    }
    let made = scalar_copied(alloc, &mut work.nodes, at, ty, source)?;
    Ok(made)
}

// A member of the object that is copied.
fn part_in_source(
    alloc: Global,
    env: &Env,
    nodes: &mut Vec<TNode>,
    at: At,
    class: u32,
    member: u32,
    ty: &Ty,
    param: &Ty,
) -> Result<TNodeId, AllocError>
    ensures { IfOk result (λ r. Adds (trees_of nodes.old.items) (trees_of nodes.new.items) r (part_of_source (ctx_of env.now) class at (source_object_of class (typ_of param.now) at) (source_const_of (typ_of param.now)) member (typ_of ty.now))) }
{
    let offset = offset_at(env, class, member)?;
    let seen = qualified_type(alloc, source_const(param), false, ty)?;
    let source = source_object(alloc, nodes, param, at)?;
    part_at(alloc, nodes, offset, seen, at, source)
}

// A member from that of the object that is copied.
fn member_copied(
    alloc: Global,
    env: &Env,
    work: &mut Work,
    at: At,
    class: u32,
    member: u32,
    ty: &Ty,
    param: &Ty,
) -> Result<TNodeId, ElabFault>
    ensures { Makes (trees_of work.old.nodes.items) (trees_of work.new.nodes.items) (work_of work.new) result (member_from (ctx_of env.now) (work_of work.old) at class (source_object_of class (typ_of param.now) at) (source_const_of (typ_of param.now)) member (typ_of ty.now)) }
{
    let part = part_in_source(alloc, env, &mut work.nodes, at, class, member, ty, param)?;
    let init = part_copied(alloc, env, work, at, ty, part)?;
    let made = member_init(alloc, env, &mut work.nodes, at, at, class, member, ty, init)?;
    Ok(made)
}

// The same, behind which no lambdas are known.
fn member_ready(
    alloc: Global,
    st: &mut State,
    at: At,
    class: u32,
    member: u32,
    ty: &Ty,
    param: &Ty,
) -> Result<TNodeId, ElabFault>
    ensures is { Does st.old st.new result (member_done (state_of st.old) at class (source_object_of class (typ_of param.now) at) (source_const_of (typ_of param.now)) member (typ_of ty.now)) }
    ensures classes { OnOk result (classes_of st.new.env.classes.items ≡ classes_of st.old.env.classes.items) }
{
    let made = member_copied(alloc, &st.env, &mut st.work, at, class, member, ty, param)?;
    st.env.closures.clear();
    Ok(made)
}

// The same of the member with an index.
fn member_at(
    alloc: Global,
    st: &mut State,
    at: At,
    class: u32,
    member: u32,
    param: &Ty,
) -> Result<TNodeId, ElabFault>
    ensures is { Does st.old st.new result (member_done (state_of st.old) at class (source_object_of class (typ_of param.now) at) (source_const_of (typ_of param.now)) member (member_type_of (slice_get (members_in (slice_get (classes_of st.old.env.classes.items) class)) member))) }
    ensures classes { OnOk result (classes_of st.new.env.classes.items ≡ classes_of st.old.env.classes.items) }
{
    let ty = member_type(alloc, &st.env, class, member)?;
    member_ready(alloc, st, at, class, member, &ty, param)
}

// The members, behind what stands in a list.
fn members_copied(
    alloc: Global,
    st: &mut State,
    at: At,
    class: u32,
    param: &Ty,
    list: &mut Vec<TNodeId>,
) -> Result<(), ElabFault>
    requires { are_within (length (made st.old)) list.old.items ≡ true }
    ensures { DoesAll st.old st.new list.old.items list.new.items result (members_copied_of at class (source_object_of class (typ_of param.now) at) (source_const_of (typ_of param.now)) (state_of st.old) 0 (members_in (slice_get (classes_of st.old.env.classes.items) class))) }
{
    let count = member_count(&st.env, class)?;
    for member in 0..count {
        let made = member_at(alloc, st, at, class, member, param)?;
        keep(list, made)?;
    }
    Ok(())
}

// The object of a base from the whole object that is copied.
fn base_object(
    alloc: Global,
    env: &mut Env,
    work: &mut Work,
    at: At,
    base: u32,
    source: TNodeId,
) -> Result<TNodeId, ElabFault>
    requires { source.0 < length (trees_of work.old.nodes.items) }
    ensures ctx { ctx_of env.new ≡ ctx_of env.old }
    ensures made { Makes (trees_of work.old.nodes.items) (trees_of work.new.nodes.items) (work_of work.new) result (class_from_of (as_base_of (ctx_of env.old) base) (work_of work.old) (plain (class_form base)) at (own_operand at (tree_at (trees_of work.old.nodes.items) source))) }
{
    let o = Operand {
        id: source,
        at,
        zero: false,
    };
    let was = allow_base(env, Some(base));
    let copied = class_from(alloc, env, work, &class_type(base), at, o);
    restore_base(env, Some(base), was);
    copied
}

// The base of the object that is copied.
fn source_base(
    alloc: Global,
    nodes: &mut Vec<TNode>,
    base: u32,
    param: &Ty,
    at: At,
) -> Result<TNodeId, AllocError>
    ensures { (class : ℕ) → IfOk result (λ r. Adds (trees_of nodes.old.items) (trees_of nodes.new.items) r (as_source_of at base (source_object_of class (typ_of param.now) at))) }
{
    let source = source_object(alloc, nodes, param, at)?;
    as_source(alloc, nodes, at, base, source)
}

// The base from the object that is copied.
fn base_copied(
    alloc: Global,
    env: &mut Env,
    work: &mut Work,
    at: At,
    class: u32,
    base: u32,
    param: &Ty,
) -> Result<TNodeId, ElabFault>
    ensures ctx { OnOk result (ctx_of env.new ≡ ctx_of env.old) }
    ensures made { Makes (trees_of work.old.nodes.items) (trees_of work.new.nodes.items) (work_of work.new) result (base_from (ctx_of env.old) (work_of work.old) at class base (as_source_of at base (source_object_of class (typ_of param.now) at))) }
{
    let source = source_base(alloc, &mut work.nodes, base, param, at)?;
    let init = base_object(alloc, env, work, at, base, source)?;
    let made = base_init(alloc, env, &mut work.nodes, at, at, class, base, init)?;
    Ok(made)
}

// The same as a list, behind which no lambdas are known.
fn base_ready(
    alloc: Global,
    st: &mut State,
    at: At,
    class: u32,
    base: u32,
    param: &Ty,
) -> Result<Vec<TNodeId>, ElabFault>
    ensures is { Lists st.old st.new result (base_copied_of (state_of st.old) at class (source_object_of class (typ_of param.now) at) (Some base)) }
    ensures classes { OnOk result (classes_of st.new.env.classes.items ≡ classes_of st.old.env.classes.items) }
{
    let made = base_copied(alloc, &mut st.env, &mut st.work, at, class, base, param)?;
    st.env.closures.clear();
    let list = one_of(alloc, made)?;
    Ok(list)
}

// The base, if there is one.
fn base_listed(
    alloc: Global,
    st: &mut State,
    at: At,
    class: u32,
    param: &Ty,
) -> Result<Vec<TNodeId>, ElabFault>
    ensures is { Lists st.old st.new result (base_copied_of (state_of st.old) at class (source_object_of class (typ_of param.now) at) (base_of_class_of (slice_get (classes_of st.old.env.classes.items) class))) }
    ensures classes { OnOk result (classes_of st.new.env.classes.items ≡ classes_of st.old.env.classes.items) }
{
    match base_of_class(&st.env, class) {
        Some(base) => base_ready(alloc, st, at, class, base, param),
        None => Ok(Vec::new(alloc)),
    }
}

// The base, then the class pointer.
fn first_copied(
    alloc: Global,
    st: &mut State,
    at: At,
    class: u32,
    param: &Ty,
) -> Result<Vec<TNodeId>, ElabFault>
    ensures is { Lists st.old st.new result (first_copied_of (state_of st.old) at class (source_object_of class (typ_of param.now) at)) }
    ensures classes { OnOk result (classes_of st.new.env.classes.items ≡ classes_of st.old.env.classes.items) }
{
    let mut list = base_listed(alloc, st, at, class, param)?;
    let more = pointer_stored(alloc, &st.env, &mut st.work.nodes, at, class)?;
    keep_all(&mut list, &more)?;
    Ok(list)
}

// The parts of an object from those of the object that is copied, whose slot the frame has.
fn parts_from(
    alloc: Global,
    st: &mut State,
    at: At,
    class: u32,
    param: &Ty,
) -> Result<Vec<TNodeId>, ElabFault>
    ensures { Lists st.old st.new result (parts_copied_of (state_of st.old) at class (source_object_of class (typ_of param.now) at) (source_const_of (typ_of param.now))) }
{
    let mut list = first_copied(alloc, st, at, class, param)?;
    members_copied(alloc, st, at, class, param, &mut list)?;
    Ok(list)
}

/// The parts of an object, each from that of the object that is copied, to which a parameter of this type refers.
pub fn parts_copied(
    alloc: Global,
    st: &mut State,
    at: At,
    class: u32,
    param: &Ty,
) -> Result<Vec<TNodeId>, ElabFault>
    ensures { Lists st.old st.new result (parts_copied_of (with_source (state_of st.old) (typ_of param.now)) at class (source_object_of class (typ_of param.now) at) (source_const_of (typ_of param.now))) }
{
    let item = copy(alloc, param)?;
    let _place = add_item(&mut st.work, item)?;
    parts_from(alloc, st, at, class, param)
}
