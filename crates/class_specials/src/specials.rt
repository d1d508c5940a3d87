// The special members of a class: written, trivial, implicit or not there (C++14 12.1, 12.4, 12.8).

ghost use Rattle.std.specs.Prelude.{◌≡◌, ◌&&◌, true, IfOk, map};
ghost use Rattle.cpp_types.specs.Class.{member_of};
ghost use Rattle.elab_init.specs.elab_ctx.Ctx.{ctx_of, special_of};
ghost use Rattle.elab_init.specs.elab_rules.Initialising.{is_constructor, places_from};
ghost use Rattle.elab_init.specs.elab_rules.Classes.{with_destructor as with_destructor_of, with_copy as with_copy_of, with_default as with_default_of, copies_const_parts as copies_const_parts_of, takes_const as takes_const_of, is_trivial_default as is_trivial_default_of, is_no_place, written_default as written_default_of, has_no_pointer as has_no_pointer_of, all_held as all_held_of};
ghost use Rattle.elab_init.specs.elab_rules.Objects.{traits_at};
ghost use Rattle.elab_init.specs.elab_rules.Statements.{is_trivial};
ghost use Rattle.class_members.specs.Shown.{home_of};

use crate::implicit::{add_implicit, implicit_copy, implicit_default, implicit_destructor};
use crate::part_tests::{PartTest, all_default, all_held, has_no_pointer, may_copy};
use crate::places::{Wanted, is_copy_from, written};
use class_members::records::Home;
use cpp_types::{At, MemberRec};
use elab_init::below::{Env, Special, function_at};
use std::alloc::{AllocError, Global};

/// The destructor (C++14 12.4).
pub fn with_destructor(
    alloc: Global,
    env: &mut Env,
    home: &Home,
    at: At,
    members: &[MemberRec],
    place: Option<u32>,
) -> Result<Special, AllocError>
    ensures { IfOk result (λ s. with_destructor_of (ctx_of env.old) (home_of home.now) at (map member_of members.now) place ≡ record { ctx = ctx_of env.new; special = special_of s }) }
{
    if let Some(found) = place {
        return Ok(Special::Function(found));
    }
    if all_held(env, PartTest::TrivialDestructor, home.base, members) {
        return Ok(Special::Trivial);
    }
    let made = implicit_destructor(alloc, env, home, at)?;
    add_implicit(env, made)
}

fn copies_const_parts(env: &Env, home: &Home, members: &[MemberRec]) -> bool
    ensures { result ≡ copies_const_parts_of (ctx_of env.now) (home_of home.now).base (map member_of members.now) }
{
    all_held(env, PartTest::CopiesConst, home.base, members)
}

/// Whether the copy takes `const` objects.
pub fn takes_const(env: &Env, home: &Home, members: &[MemberRec], place: Option<u32>) -> bool
    ensures { result ≡ takes_const_of (ctx_of env.now) (home_of home.now) (map member_of members.now) place }
{
    match place {
        Some(found) => match function_at(env, found) {
            Some(function) => is_copy_from(function, home.number, true),
            None => false,
        },
        None => copies_const_parts(env, home, members),
    }
}

fn is_trivial_copy(env: &Env, home: &Home, members: &[MemberRec]) -> bool
    ensures { result ≡ (has_no_pointer_of (ctx_of env.now) (home_of home.now) && all_held_of (λ n. is_trivial (traits_at (ctx_of env.now) n).copy) (home_of home.now).base (map member_of members.now)) }
{
    has_no_pointer(env, home) && all_held(env, PartTest::TrivialCopy, home.base, members)
}

/// The copy (C++14 12.8).
pub fn with_copy(
    alloc: Global,
    env: &mut Env,
    home: &Home,
    at: At,
    members: &[MemberRec],
    place: Option<u32>,
) -> Result<Special, AllocError>
    ensures { IfOk result (λ s. with_copy_of (ctx_of env.old) (home_of home.now) at (map member_of members.now) place ≡ record { ctx = ctx_of env.new; special = special_of s }) }
{
    if let Some(found) = place {
        return Ok(Special::Function(found));
    }
    if !may_copy(alloc, env, home.base, members)? {
        return Ok(Special::Absent);
    }
    if is_trivial_copy(env, home, members) {
        return Ok(Special::Trivial);
    }
    let is_const = copies_const_parts(env, home, members);
    let made = implicit_copy(alloc, home, at, is_const)?;
    add_implicit(env, made)
}

fn is_trivial_default(env: &Env, home: &Home, members: &[MemberRec], initialised: &[u32]) -> bool
    ensures { result ≡ is_trivial_default_of (ctx_of env.now) (home_of home.now) (map member_of members.now) initialised.now }
{
    initialised.is_empty()
        && has_no_pointer(env, home)
        && all_held(env, PartTest::TrivialDefault, home.base, members)
}

/// Whether no constructor of a class is written.
pub fn has_no_constructor(env: &Env, home: &Home) -> Result<bool, AllocError>
    ensures { IfOk result (λ b. b ≡ is_no_place (places_from (is_constructor (home_of home.now).number) 0 (ctx_of env.now).funcs)) }
{
    Ok(written(env, home, Wanted::Constructor)?.is_none())
}

fn written_default(place: Option<u32>) -> Special
    ensures { special_of result ≡ written_default_of place }
{
    match place {
        Some(found) => Special::Function(found),
        None => Special::Absent,
    }
}

// The constructor without arguments, where no constructor is written.
fn implied_default(
    alloc: Global,
    env: &mut Env,
    home: &Home,
    at: At,
    members: &[MemberRec],
    initialised: &[u32],
) -> Result<Special, AllocError>
    ensures { IfOk result (λ s. with_default_of (ctx_of env.old) (home_of home.now) at (map member_of members.now) initialised.now true ≡ record { ctx = ctx_of env.new; special = special_of s }) }
{
    if !all_default(alloc, env, home.base, initialised, members)? {
        return Ok(Special::Absent);
    }
    if is_trivial_default(env, home, members, initialised) {
        return Ok(Special::Trivial);
    }
    let made = implicit_default(alloc, home, at)?;
    add_implicit(env, made)
}

/// The constructor without arguments (C++14 12.1).
pub fn with_default(
    alloc: Global,
    env: &mut Env,
    home: &Home,
    at: At,
    members: &[MemberRec],
    initialised: &[u32],
    none_written: bool,
) -> Result<Special, AllocError>
    ensures { IfOk result (λ s. with_default_of (ctx_of env.old) (home_of home.now) at (map member_of members.now) initialised.now none_written ≡ record { ctx = ctx_of env.new; special = special_of s }) }
{
    if none_written {
        return implied_default(alloc, env, home, at, members, initialised);
    }
    let place = written(env, home, Wanted::Default)?;
    Ok(written_default(place))
}
