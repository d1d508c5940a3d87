// What stands at a number, and sizes.

ghost use Rattle.std.specs.Prelude.{◌≡◌, ◌≤◌, MatchOption, None, Some, slice_get, IfOk};
ghost use Rattle.cpp_tree.specs.cpp_types.Typ.{typ_of};
ghost use Rattle.cpp_tree.specs.cpp_types.Class.{classes_of, class_of, completion_of};
ghost use Rattle.cpp_tree.specs.cpp_layout.Layout.{extent_of};
ghost use Rattle.cpp_tree.specs.Typing.{form_in};
ghost use Rattle.elab_ctx.specs.Ctx.{ctx_of, func_of, traits_of};
ghost use Rattle.elab_ctx.specs.Sized.{is_whole};

use crate::env::{Env, FuncDecl, Traits};
use crate::layouts::measured;
use cpp_tree::below::{ClassRec, SizeAlign, Ty, held_class};
use std::alloc::AllocError;

/// The function with a number.
pub fn function_at(env: &Env, func: u32) -> Option<&FuncDecl>
    ensures { MatchOption result (slice_get (ctx_of env.now).funcs func ≡ None) (λ f. slice_get (ctx_of env.now).funcs func ≡ Some (func_of f.now)) }
{
    env.funcs.get(func as usize)
}

/// The class with a number.
pub fn class_at(env: &Env, class: u32) -> Option<&ClassRec>
    ensures { MatchOption result (slice_get (classes_of env.now.classes.items) class ≡ None) (λ c. slice_get (classes_of env.now.classes.items) class ≡ Some (class_of c.now)) }
{
    env.classes.get(class as usize)
}

/// How many classes were completed before a class; `None` where it is only declared.
pub fn completion(env: &Env, class: u32) -> Option<u32>
    ensures { result ≡ completion_of (classes_of env.now.classes.items) class }
{
    env.classes.get(class as usize)?.complete
}

/// What holds of a class; `None` for a number that no class has.
pub fn traits_of_class(env: &Env, class: u32) -> Option<&Traits>
    ensures { MatchOption result (slice_get (ctx_of env.now).traits class ≡ None) (λ t. slice_get (ctx_of env.now).traits class ≡ Some (traits_of t.now)) }
{
    env.traits.get(class as usize)
}

// Whether the class that values of a type hold, if they hold one, is complete.
fn is_sized(env: &Env, ty: &Ty) -> bool
    ensures { result ≡ is_whole (classes_of env.now.classes.items) (form_in (typ_of ty.now)) }
{
    match held_class(&ty.shape) {
        Some(class) => completion(env, class).is_some(),
        None => true,
    }
}

/// The size and the alignment of an object of a type. One whose class is not complete, and one that passes the greatest
/// size, are refused where the type is formed; here they count as want of memory.
pub fn extent(env: &Env, ty: &Ty) -> Result<SizeAlign, AllocError>
    ensures size { IfOk result (λ e. e.size ≡ (extent_of (classes_of env.now.classes.items) (typ_of ty.now)).size) }
    ensures align { IfOk result (λ e. e.align ≡ (extent_of (classes_of env.now.classes.items) (typ_of ty.now)).align) }
    ensures low { IfOk result (λ e. 1 ≤ e.align) }
{
    if !is_sized(env, ty) {
        return Err(AllocError);
    }
    match measured(env, ty) {
        Some(found) => Ok(found),
        None => Err(AllocError),
    }
}

/// The size of an object of a type, in bytes.
pub fn size_of(env: &Env, ty: &Ty) -> Result<u32, AllocError>
    ensures { IfOk result (λ n. n ≡ (extent_of (classes_of env.now.classes.items) (typ_of ty.now)).size) }
{
    Ok(extent(env, ty)?.size)
}
