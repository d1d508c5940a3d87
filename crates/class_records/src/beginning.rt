// The name of a class (C++14 9.1).

ghost use Rattle.std.specs.Prelude.{◌≡◌, false, IfOk, OnOk, length};
ghost use Rattle.cpp_types.specs.Typ.{typ_of, typ, class as class_form};
ghost use Rattle.elab_init.specs.elab_ctx.Ctx.{ctx_of, traits_of};
ghost use Rattle.elab_init.specs.elab_rules.Objects.{no_traits as no_traits_of};
ghost use Rattle.elab_init.specs.elab_rules.Classes.{begun as begun_of, begun_by, with_class};
ghost use Rattle.class_members.specs.Shown.{Begins};

use crate::renewing::{add_class, add_name, add_rows};
use cpp_types::{At, Shape, Ty};
use elab_init::below::{ElabFault, Env, IllRule, Special, Traits, completion};
use elab_init::ill;
use elab_types::types::type_named;
use std::alloc::{AllocError, Global};

/// What is known of a class that is not complete.
pub fn no_traits() -> Traits
    ensures { traits_of result ≡ no_traits_of }
{
    Traits {
        default: Special::Absent,
        copy: Special::Absent,
        copies_const: false,
        destructor: Special::Trivial,
        is_assignable: false,
        is_abstract: false,
        is_volatile: false,
        is_trivially_copyable: false,
    }
}

fn class_type(class: u32) -> Ty
    ensures { typ_of result ≡ typ (class_form class) false false }
{
    Ty {
        shape: Shape::Class(class),
        is_const: false,
        is_volatile: false,
    }
}

// A class that no text has named before.
fn add_whole(alloc: Global, env: &mut Env, name: &[u8], class: u32) -> Result<(), AllocError>
    requires { class ≡ length (ctx_of env.old).classes }
    ensures { OnOk result (ctx_of env.new ≡ with_class (ctx_of env.old) name.now) }
{
    let named = Vec::from_slice(alloc, name)?;
    add_name(env, named, class_type(class))?;
    let copied = Vec::from_slice(alloc, name)?;
    add_class(alloc, env, copied)?;
    add_rows(alloc, env, no_traits())?;
    Ok(())
}

fn new_class(alloc: Global, env: &mut Env, name: &[u8]) -> Result<u32, AllocError>
    ensures number { IfOk result (λ n. n ≡ length (ctx_of env.old).classes) }
    ensures class { OnOk result (ctx_of env.new ≡ with_class (ctx_of env.old) name.now) }
{
    let Ok(class) = u32::try_from(env.classes.len()) else {
        return Err(AllocError);
    };
    add_whole(alloc, env, name, class)?;
    Ok(class)
}

// A class whose name stands for a type.
fn class_begun(env: &Env, at: At, defines: bool, ty: &Ty) -> Result<u32, ElabFault>
    ensures { Begins (ctx_of env.now) result (begun_by (ctx_of env.now) at defines (typ_of ty.now)) }
{
    match &ty.shape {
        Shape::Class(class) => {
            if ty.is_const || ty.is_volatile {
                return Err(ill(at, IllRule::Redeclared));
            }
            if defines && completion(env, *class).is_some() {
                return Err(ill(at, IllRule::Redeclared));
            }
            Ok(*class)
        }
        Shape::Void
        | Shape::Int(_)
        | Shape::Enum { .. }
        | Shape::Null
        | Shape::Ptr(_)
        | Shape::Ref(_)
        | Shape::Array(_, _)
        | Shape::Func(_)
        | Shape::Closure(_)
        | Shape::TxEx(_) => Err(ill(at, IllRule::Redeclared)),
    }
}

/// A class that is declared or begun: a new one, or one that was only declared.
pub fn begun(
    alloc: Global,
    env: &mut Env,
    at: At,
    name: &[u8],
    defines: bool,
) -> Result<u32, ElabFault>
    ensures { Begins (ctx_of env.new) result (begun_of (ctx_of env.old) at name.now defines) }
{
    match type_named(&env.types, name) {
        Some(found) => class_begun(env, at, defines, found),
        None => {
            let class = new_class(alloc, env, name)?;
            Ok(class)
        }
    }
}
