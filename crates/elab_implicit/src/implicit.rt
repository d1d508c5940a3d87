// The bodies of implicit members, for those to which something refers (C++14 12.1 p5, 12.4 p6, 12.8 p13 to p15). They
// stand at the name of the class.

ghost use Rattle.std.specs.Prelude.{◌≡◌, ◌<◌, length, false, get_or, option_map, IfOk, OnOk};
ghost use Rattle.cpp_types.specs.Typ.{typ_of, typs_of};
ghost use Rattle.elab_entry.specs.elab_scopes.States.{state_of};
ghost use Rattle.elab_entry.specs.elab_scopes.Says.{Changes, Does, OneDone};
ghost use Rattle.elab_entry.specs.Says.{Lists};
ghost use Rattle.elab_entry.specs.elab_ctx.Ctx.{func_of};
ghost use Rattle.elab_entry.specs.elab_rules.Initialising.{signature_parameters};
ghost use Rattle.elab_entry.specs.elab_rules.Implicit.{is_referred as is_referred_of};
ghost use Rattle.elab_implicit.specs.Implied.{IsTable, first_of, constructor_parts as constructor_parts_of, destructor_inside as destructor_inside_of, implied_below as implied_below_of, constructor_inside as constructor_inside_of, inside_implied as inside_implied_of, body_implied as body_implied_of, wanted as wanted_of, body_at as body_at_of, implied as implied_of, with_implied as with_implied_of};

use crate::building::{constructor_tree, parts_built};
use crate::copying::parts_copied;
use crate::ending::destructor_tree;
use crate::marks::{mark_names, table};
use crate::object::enter_object;
use crate::slots::mark_slots;
use cpp_types::{At, Ty, copy};
use elab_entry::below::{ElabFault, FuncDecl, FuncKind, State, TNodeId, function_at};
use elab_entry::{body_made, leave_function};
use std::alloc::{AllocError, Global};

// The parts of an object by an implicit constructor.
fn constructor_parts(
    alloc: Global,
    st: &mut State,
    at: At,
    class: u32,
    param: &Option<Ty>,
) -> Result<Vec<TNodeId>, ElabFault>
    ensures { Lists st.old st.new result (constructor_parts_of (state_of st.old) at class (option_map typ_of param.now)) }
{
    match param {
        Some(param) => parts_copied(alloc, st, at, class, param),
        None => parts_built(alloc, st, at, class, &[]),
    }
}

// What an implicit constructor does.
fn constructor_inside(
    alloc: Global,
    st: &mut State,
    at: At,
    class: u32,
    param: &Option<Ty>,
) -> Result<TNodeId, ElabFault>
    ensures { Does st.old st.new result (constructor_inside_of (state_of st.old) at class (option_map typ_of param.now)) }
{
    let parts = constructor_parts(alloc, st, at, class, param)?;
    let made = constructor_tree(&mut st.work.nodes, at, parts, Vec::new(alloc))?;
    Ok(made)
}

// What an implicit destructor does.
fn destructor_inside(
    alloc: Global,
    st: &mut State,
    at: At,
    class: u32,
) -> Result<TNodeId, AllocError>
    ensures { IfOk result (λ r. OneDone st.old st.new r (destructor_inside_of (state_of st.old) at class)) }
{
    let list = Vec::new(alloc);
    destructor_tree(alloc, &st.env, &mut st.work.nodes, at, at, class, list)
}

// What an implicit member does, in its own scope.
fn inside_implied(
    alloc: Global,
    st: &mut State,
    at: At,
    class: u32,
    kind: FuncKind,
    param: &Option<Ty>,
) -> Result<TNodeId, ElabFault>
    ensures { Does st.old st.new result (inside_implied_of (state_of st.old) at class kind (option_map typ_of param.now)) }
{
    match kind {
        FuncKind::Destructor => {
            let made = destructor_inside(alloc, st, at, class)?;
            Ok(made)
        }
        FuncKind::Plain | FuncKind::Constructor | FuncKind::ClosureCall => {
            constructor_inside(alloc, st, at, class, param)
        }
    }
}

// The body of an implicit member. The functions that it names are marked.
fn body_implied(
    alloc: Global,
    st: &mut State,
    marks: &mut Vec<bool>,
    func: u32,
    at: At,
    class: u32,
    kind: FuncKind,
    param: &Option<Ty>,
) -> Result<(), ElabFault>
    requires { IsTable marks.old.items st.old }
    ensures is { Changes st.old st.new result (body_implied_of (state_of st.old) at func class kind (option_map typ_of param.now)) }
    ensures table { OnOk result (IsTable marks.new.items st.new) }
    ensures size { OnOk result (length marks.new.items ≡ length marks.old.items) }
{
    let around = enter_object(alloc, st, class)?;
    let made = inside_implied(alloc, st, at, class, kind, param);
    let inside = leave_function(st, around);
    let tree = made?;
    mark_names(&inside.nodes, tree, marks)?;
    body_made(alloc, st, at, func, inside, tree)
}

// The type of the first parameter.
fn first_parameter(alloc: Global, types: &[Ty]) -> Result<Option<Ty>, AllocError>
    ensures { IfOk result (λ o. option_map typ_of o ≡ first_of (typs_of types.now)) }
{
    match types.first() {
        Some(ty) => Ok(Some(copy(alloc, ty)?)),
        None => Ok(None),
    }
}

// The type of the first parameter of a function.
#[tactic(auto, using(cpp_types::proofs::Views::signature_view))]
fn parameter_of(alloc: Global, found: &FuncDecl) -> Result<Option<Ty>, AllocError>
    ensures { IfOk result (λ o. option_map typ_of o ≡ first_of (signature_parameters (func_of found.now).declared.signature)) }
{
    first_parameter(alloc, &found.rec.ty.params)
}

// The body of an implicit function of a class.
fn body_at(
    alloc: Global,
    st: &mut State,
    marks: &mut Vec<bool>,
    func: u32,
    class: u32,
) -> Result<(), ElabFault>
    requires { IsTable marks.old.items st.old }
    ensures is { Changes st.old st.new result (body_at_of (state_of st.old) func class) }
    ensures table { OnOk result (IsTable marks.new.items st.new) }
    ensures size { OnOk result (length marks.new.items ≡ length marks.old.items) }
{
    // It stands there.
    let Some(found) = function_at(&st.env, func) else {
        return Err(ElabFault::Memory);
    };
    let at = found.rec.at;
    let kind = found.kind;
    let param = parameter_of(alloc, found)?;
    body_implied(alloc, st, marks, func, at, class, kind, &param)
}

fn is_marked(marks: &[bool], func: u32) -> bool
    ensures { result ≡ get_or marks.now func false }
{
    match marks.get(func as usize) {
        Some(found) => *found,
        None => false,
    }
}

// Whether the unit refers to a function: the table of its state says so.
fn is_referred(_st: &State, marks: &[bool], func: u32) -> bool
    requires table { IsTable marks.now _st.now }
    requires below { func < length marks.now }
    ensures { result ≡ is_referred_of (state_of _st.now) func }
{
    is_marked(marks, func)
}

// The class of a function, if that is implicit and something refers to it.
fn wanted(st: &State, marks: &[bool], func: u32) -> Option<u32>
    requires table { IsTable marks.now st.now }
    requires below { func < length marks.now }
    ensures { result ≡ wanted_of (state_of st.now) func }
{
    let found = function_at(&st.env, func)?;
    if !found.implicit {
        return None;
    }
    if !is_referred(st, marks, func) {
        return None;
    }
    found.class
}

// The body of a function, if it is implicit and something refers to it.
fn implied(alloc: Global, st: &mut State, marks: &mut Vec<bool>, func: u32) -> Result<(), ElabFault>
    requires table { IsTable marks.old.items st.old }
    requires below { func < length marks.old.items }
    ensures is { Changes st.old st.new result (implied_of (state_of st.old) func) }
    ensures table { OnOk result (IsTable marks.new.items st.new) }
    ensures size { OnOk result (length marks.new.items ≡ length marks.old.items) }
{
    match wanted(st, marks, func) {
        Some(class) => body_at(alloc, st, marks, func, class),
        None => Ok(()),
    }
}

// The same of so many functions, from the last one back.
fn implied_below(
    alloc: Global,
    st: &mut State,
    marks: &mut Vec<bool>,
    count: u32,
) -> Result<(), ElabFault>
    requires table { IsTable marks.old.items st.old }
    requires size { length marks.old.items ≡ count }
    ensures { Changes st.old st.new result (implied_below_of (state_of st.old) count) }
{
    let mut left = count;
    while left > 0 {
        left -= 1;
        implied(alloc, st, marks, left)?;
    }
    Ok(())
}

/// The bodies of implicit members, from the last function back: one refers only to functions before it and to itself.
/// What bodies name and what stands in slots is marked in a table, so each body and each slot is gone through once.
pub fn with_implied(alloc: Global, st: &mut State) -> Result<(), ElabFault>
    ensures { Changes st.old st.new result (with_implied_of (state_of st.old)) }
{
    let Ok(count) = u32::try_from(st.env.funcs.len()) else {
        return Err(ElabFault::Memory);
    };
    let mut marks = table(alloc, &st.bodies, count)?;
    mark_slots(&st.env, &mut marks);
    implied_below(alloc, st, &mut marks, count)
}
