// Classes that are begun, and classes that are completed: the list of them stays in order.

ghost use Rattle.std.specs.Prelude.{◌≡◌, ◌++◌, ◌∷◌, ◌+◌, [], Some, None, false, OnOk, count_by, slice_set, length};
ghost use Rattle.cpp_types.specs.Typ.{typ_of};
ghost use Rattle.cpp_types.specs.Class.{classes_of, class_of};
ghost use Rattle.cpp_types.specs.Order.{each_passes, holds_earlier};
ghost use Rattle.elab_init.specs.elab_ctx.Ctx.{ctx_of, traits_of};
ghost use Rattle.elab_init.specs.elab_rules.Globals.{with_type};
ghost use Rattle.elab_init.specs.elab_rules.Classes.{class_named, is_completed};
ghost use Rattle.class_records.specs.Within.{may_stand as may_stand_of, may_follow as may_follow_of};

use crate::within::{is_after_parts, is_class_below};
use class_layouts::{one_if_complete, push_laid_out, put_laid_out};
use cpp_types::{ClassRec, Ty};
use elab_init::below::{Env, Traits, completion};
use std::alloc::{AllocError, Global};

/// The number of the next class that is complete.
pub fn next_completion(env: &Env) -> u32
    ensures { result ≡ count_by is_completed (ctx_of env.now).classes }
{
    env.completed
}

// Whether a class may stand, complete, in the place of one that is only declared.
fn may_stand(env: &Env, class: u32, number: u32, class_record: &ClassRec) -> bool
    ensures { result ≡ may_stand_of (classes_of env.now.classes.items) class number (class_of class_record.now) }
{
    (class as usize) < env.classes.len()
        && completion(env, class).is_none()
        && is_class_below(class_record, env.classes.len())
        && is_after_parts(class_record, &env.classes, number)
}

/// Puts the record of a complete class in its place. What is held before it is complete is refused where it is declared;
/// here it counts as want of memory.
pub fn put_class(
    alloc: Global,
    env: &mut Env,
    class: u32,
    number: u32,
    class_record: ClassRec,
) -> Result<(), AllocError>
    requires { class_record.complete ≡ Some number }
    ensures { OnOk result (ctx_of env.new ≡ record (ctx_of env.old) { classes = slice_set (ctx_of env.old).classes class (class_of class_record) }) }
{
    if !may_stand(env, class, number, &class_record) {
        return Err(AllocError);
    }
    let Some(completed) = env.completed.checked_add(1) else {
        return Err(AllocError);
    };
    put_laid_out(
        alloc,
        &mut env.classes,
        &mut env.layouts,
        class,
        class_record,
    )?;
    env.completed = completed;
    Ok(())
}

// Whether a class holds only what was complete before it, if it is complete.
fn is_after_all(classes: &[ClassRec], class_record: &ClassRec) -> bool
    ensures { result ≡ each_passes (holds_earlier (classes_of classes.now) (class_of class_record.now)) class_record.now.complete }
{
    match class_record.complete {
        Some(number) => is_after_parts(class_record, classes, number),
        None => true,
    }
}

// Whether a class may stand behind the others.
fn may_follow(env: &Env, class_record: &ClassRec) -> bool
    ensures { result ≡ may_follow_of (classes_of env.now.classes.items) (class_of class_record.now) }
{
    is_class_below(class_record, env.classes.len() + 1) && is_after_all(&env.classes, class_record)
}

/// One more class, behind the others. What is held before it is complete is refused where it is declared; here it counts
/// as want of memory.
pub fn push_class(alloc: Global, env: &mut Env, class_record: ClassRec) -> Result<(), AllocError>
    ensures { OnOk result (ctx_of env.new ≡ record (ctx_of env.old) { classes = (ctx_of env.old).classes ++ class_of class_record ∷ [] }) }
{
    if !may_follow(env, &class_record) {
        return Err(AllocError);
    }
    let Some(completed) = env.completed.checked_add(one_if_complete(&class_record)) else {
        return Err(AllocError);
    };
    push_laid_out(alloc, &mut env.classes, &mut env.layouts, class_record)?;
    env.completed = completed;
    Ok(())
}

// A class that is only declared.
fn declared_class(alloc: Global, name: Vec<u8>) -> ClassRec
    ensures { class_of result ≡ class_named name.items None false [] [] None }
{
    ClassRec {
        name,
        base: None,
        members: Vec::new(alloc),
        functions: Vec::new(alloc),
        is_final: false,
        complete: None,
    }
}

/// One more class, which is only declared.
pub fn add_class(alloc: Global, env: &mut Env, name: Vec<u8>) -> Result<(), AllocError>
    ensures { OnOk result (ctx_of env.new ≡ record (ctx_of env.old) { classes = (ctx_of env.old).classes ++ class_named name.items None false [] [] None ∷ [] }) }
{
    let begun = declared_class(alloc, name);
    push_laid_out(alloc, &mut env.classes, &mut env.layouts, begun)?;
    Ok(())
}

/// One more name of a type, among those that were there.
pub fn add_name(env: &mut Env, name: Vec<u8>, ty: Ty) -> Result<(), AllocError>
    ensures { OnOk result (ctx_of env.new ≡ with_type (ctx_of env.old) name.items (typ_of ty)) }
{
    env.types.add(name, ty)?;
    Ok(())
}

/// One more row of what holds of classes, of their final overriders too.
pub fn add_rows(alloc: Global, env: &mut Env, traits: Traits) -> Result<(), AllocError>
    ensures { OnOk result (ctx_of env.new ≡ record (ctx_of env.old) { traits = (ctx_of env.old).traits ++ traits_of traits ∷ []; slots = (ctx_of env.old).slots ++ [] ∷ [] }) }
{
    env.traits.push(traits)?;
    env.slots.push(Vec::new(alloc))?;
    Ok(())
}
