// What holds of the class of a lambda: it is neither made from nothing nor assigned; a copy and a destruction do what is
// to be done to each capture, in place, and have no function.

ghost use Rattle.std.specs.Prelude.{◌≡◌, map, not};
ghost use Rattle.std.specs.List.{list_any};
ghost use Rattle.elab_entry.specs.cpp_types.Typ.{typ_of};
ghost use Rattle.elab_entry.specs.cpp_types.Class.{held};
ghost use Rattle.elab_entry.specs.cpp_types.Conversion.{volatile_of};
ghost use Rattle.elab_entry.specs.elab_ctx.Ctx.{Capture as CaptureOf, ctx_of, special_of, traits_of, capture_of};
ghost use Rattle.elab_entry.specs.elab_rules.Objects.{traits_at as traits_at_of};
ghost use Rattle.elab_entry.specs.elab_rules.Statements.{is_trivial as is_trivial_of};
ghost use Rattle.elab_entry.specs.elab_rules.Lambdas.{class_of_held, all_captured, copied_and_left as copied_and_left_of, closure_traits as closure_traits_of};

use class_specials::part_tests::is_volatile;
use elab_entry::below::{Capture, Env, Special, Traits, Ty, held_class, traits_at};

fn is_trivial(special: Special) -> bool
    ensures { result ≡ is_trivial_of (special_of special) }
{
    match special {
        Special::Trivial => true,
        Special::Absent | Special::Function(_) => false,
    }
}

// Whether an object is copied and destroyed without a call.
fn copied_and_left(traits: Traits) -> bool
    ensures { result ≡ copied_and_left_of (traits_of traits) }
{
    is_trivial(traits.copy) && is_trivial(traits.destructor)
}

fn is_copied(env: &Env, ty: &Ty) -> bool
    ensures { result ≡ class_of_held (λ n. copied_and_left_of (traits_at_of (ctx_of env.now) n)) (held (typ_of ty.now)) }
{
    match held_class(&ty.shape) {
        Some(class) => copied_and_left(traits_at(env, class)),
        None => true,
    }
}

fn is_whole(env: &Env, ty: &Ty) -> bool
    ensures { result ≡ class_of_held (λ n. not (traits_at_of (ctx_of env.now) n).is_volatile) (held (typ_of ty.now)) }
{
    match held_class(&ty.shape) {
        Some(class) => !traits_at(env, class).is_volatile,
        None => true,
    }
}

fn is_by_bytes(env: &Env, ty: &Ty) -> bool
    ensures { result ≡ class_of_held (λ n. (traits_at_of (ctx_of env.now) n).is_trivially_copyable) (held (typ_of ty.now)) }
{
    match held_class(&ty.shape) {
        Some(class) => traits_at(env, class).is_trivially_copyable,
        None => true,
    }
}

fn all_copied(env: &Env, captures: &[Capture]) -> bool
    ensures { result ≡ all_captured (λ n. copied_and_left_of (traits_at_of (ctx_of env.now) n)) (map capture_of captures.now) }
{
    for found in captures {
        if !is_copied(env, &found.ty) {
            return false;
        }
    }
    true
}

fn all_whole(env: &Env, captures: &[Capture]) -> bool
    ensures { result ≡ all_captured (λ n. not (traits_at_of (ctx_of env.now) n).is_volatile) (map capture_of captures.now) }
{
    for found in captures {
        if !is_whole(env, &found.ty) {
            return false;
        }
    }
    true
}

fn all_by_bytes(env: &Env, captures: &[Capture]) -> bool
    ensures { result ≡ all_captured (λ n. (traits_at_of (ctx_of env.now) n).is_trivially_copyable) (map capture_of captures.now) }
{
    for found in captures {
        if !is_by_bytes(env, &found.ty) {
            return false;
        }
    }
    true
}

fn any_volatile(captures: &[Capture]) -> bool
    ensures { result ≡ list_any (λ (x : CaptureOf). volatile_of x.typ) (map capture_of captures.now) }
{
    for found in captures {
        if is_volatile(&found.ty) {
            return true;
        }
    }
    false
}

// How an object of the class is copied.
fn closure_copy(env: &Env, captures: &[Capture]) -> Special
    ensures { special_of result ≡ (closure_traits_of (ctx_of env.now) (map capture_of captures.now)).copy }
{
    if all_copied(env, captures) {
        Special::Trivial
    } else {
        Special::Absent
    }
}

/// What holds of the class of a lambda with these captures.
pub fn closure_traits(env: &Env, captures: &[Capture]) -> Traits
    ensures { traits_of result ≡ closure_traits_of (ctx_of env.now) (map capture_of captures.now) }
{
    let is_volatile = any_volatile(captures);
    Traits {
        default: Special::Absent,
        copy: closure_copy(env, captures),
        copies_const: true,
        destructor: Special::Trivial,
        is_assignable: false,
        is_abstract: false,
        is_volatile: is_volatile || !all_whole(env, captures),
        is_trivially_copyable: all_by_bytes(env, captures) && !is_volatile,
    }
}
