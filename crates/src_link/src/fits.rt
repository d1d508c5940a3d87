//! Whether a program can be bound: frames and globals have sizes, and these are not too large.

ghost use Rattle.std.specs.Prelude.{◌≡◌, ◌≤◌, List, true, is_some, IfOk, IfSome, map};
ghost use Rattle.cpp_types.specs.Typ.{typ_of, shape_form};
ghost use Rattle.cpp_types.specs.Class.{InOrder, classes_of};
ghost use Rattle.cpp_layout.specs.Measured.{IsComplete, HoldsComplete};
ghost use Rattle.cpp_layout.specs.Frames.{AllComplete};
ghost use Rattle.cpp_tree.specs.Units.{func_of, global_of, unit_of, program_of};
ghost use Rattle.cpp_tree.specs.Trees.{Tree};
ghost use Rattle.src_mean.specs.Links.{global_size, globals_end, globals_size};
ghost use Rattle.src_bind.specs.Defs.{def_of, defs_of};
ghost use Rattle.src_bind.specs.Tables.{CanBind};
ghost use Rattle.src_link.specs.Fits.{FrameFits, GlobalFits, FramesFit, GlobalsFit, UnitsFit};
ghost use Rattle.cpp_tree.specs.tx_events.declared.TheConstants.{GLOBALS_LIMIT};

use crate::cells::global_at;
use cpp_layout::{FrameFault, frame, size_align};
use cpp_tree::below::GLOBALS_LIMIT;
use cpp_tree::{Program, TFunc, TGlobal, UnitTree};
use cpp_types::classes::record_at;
use cpp_types::copyability::held_class;
use cpp_types::{ClassRec, Ty, is_in_order};
use src_bind::defs::Found;
use src_bind::lists::kept_globals;
use std::alloc::{AllocError, Global};

// Whether a class of the list is complete.
#[tactic(auto, using(cpp_layout::proofs::Samples::complete_by))]
fn is_complete(classes: &[ClassRec], class: u32) -> bool
    ensures { result ≡ true → IsComplete (classes_of classes.now) class }
{
    match record_at(classes, class) {
        Some(found) => found.complete.is_some(),
        None => false,
    }
}

// Whether the class that a value of the type holds is complete.
fn holds_complete(ty: &Ty, classes: &[ClassRec]) -> bool
    ensures { result ≡ true → HoldsComplete (classes_of classes.now) (shape_form ty.now.shape) }
{
    match held_class(&ty.shape) {
        Some(part) => is_complete(classes, part),
        None => true,
    }
}

// Whether each class that an item holds is complete.
fn all_complete(items: &[Ty], classes: &[ClassRec]) -> bool
    ensures { result ≡ true → AllComplete (classes_of classes.now) (map typ_of items.now) }
{
    for item in items {
        if !holds_complete(item, classes) {
            return false;
        }
    }
    true
}

// Whether a frame of these items has a size that is not too large.
fn frame_fits(alloc: Global, items: &[Ty], classes: &[ClassRec]) -> Result<bool, AllocError>
    requires { InOrder (classes_of classes.now) }
    ensures { IfOk result (λ b. b ≡ true → FrameFits (classes_of classes.now) (map typ_of items.now)) }
{
    if !all_complete(items, classes) {
        return Ok(false);
    }
    match frame(alloc, items, classes) {
        Ok(_) => Ok(true),
        Err(FrameFault::TooLarge) => Ok(false),
        Err(FrameFault::Memory) => Err(AllocError),
    }
}

// Whether the frame of a function does, if the function is defined.
fn func_fits(alloc: Global, func: &TFunc, classes: &[ClassRec]) -> Result<bool, AllocError>
    requires { InOrder (classes_of classes.now) }
    ensures { (trees : List Tree) → IfOk result (λ b. b ≡ true → is_some (func_of trees func.now).body ≡ true → FrameFits (classes_of classes.now) (func_of trees func.now).frame) }
{
    match func.body {
        Some(_) => frame_fits(alloc, &func.frame, classes),
        None => Ok(true),
    }
}

// Whether the frames of the functions that a unit defines do.
fn frames_fit(alloc: Global, unit: &UnitTree, classes: &[ClassRec]) -> Result<bool, AllocError>
    requires { InOrder (classes_of classes.now) }
    ensures { IfOk result (λ b. b ≡ true → FramesFit (classes_of classes.now) (unit_of unit.now).funcs) }
{
    for func in &unit.funcs {
        if !func_fits(alloc, func, classes)? {
            return Ok(false);
        }
    }
    Ok(true)
}

// Whether a global has a size that is not too large.
fn global_fits(global: &TGlobal, classes: &[ClassRec]) -> bool
    requires { InOrder (classes_of classes.now) }
    ensures { result ≡ true → GlobalFits (classes_of classes.now) (global_of global.now) }
{
    holds_complete(&global.ty, classes) && size_align(&global.ty, classes).is_ok()
}

// Whether a global does, if it is defined.
fn is_fitting(global: &TGlobal, classes: &[ClassRec]) -> bool
    requires { InOrder (classes_of classes.now) }
    ensures { result ≡ true → (global_of global.now).defined ≡ true → GlobalFits (classes_of classes.now) (global_of global.now) }
{
    !global.defined || global_fits(global, classes)
}

// Whether the globals that a unit defines do.
fn globals_fit(unit: &UnitTree, classes: &[ClassRec]) -> bool
    requires { InOrder (classes_of classes.now) }
    ensures { result ≡ true → GlobalsFit (classes_of classes.now) (unit_of unit.now).globals }
{
    for global in &unit.globals {
        if !is_fitting(global, classes) {
            return false;
        }
    }
    true
}

// Whether all that a unit defines does.
fn unit_fits(alloc: Global, unit: &UnitTree, classes: &[ClassRec]) -> Result<bool, AllocError>
    requires { InOrder (classes_of classes.now) }
    ensures frames { IfOk result (λ b. b ≡ true → FramesFit (classes_of classes.now) (unit_of unit.now).funcs) }
    ensures globals { IfOk result (λ b. b ≡ true → GlobalsFit (classes_of classes.now) (unit_of unit.now).globals) }
{
    if !frames_fit(alloc, unit, classes)? {
        return Ok(false);
    }
    Ok(globals_fit(unit, classes))
}

// Whether all that the units define does.
fn units_fit(alloc: Global, units: &[UnitTree], classes: &[ClassRec]) -> Result<bool, AllocError>
    requires { InOrder (classes_of classes.now) }
    ensures { IfOk result (λ b. b ≡ true → UnitsFit (classes_of classes.now) (map unit_of units.now)) }
{
    for unit in units {
        if !unit_fits(alloc, unit, classes)? {
            return Ok(false);
        }
    }
    Ok(true)
}

// The size of a global, where it has one that is not too large; 0 where there is no global.
fn size_found(program: &Program, def: &Found<'_>) -> Option<u32>
    requires { InOrder (classes_of program.now.classes.items) }
    ensures size { IfSome result (λ s. s ≡ global_size (program_of program.now) (def_of def.now)) }
    ensures within { IfSome result (λ s. s ≤ GLOBALS_LIMIT) }
{
    let Some(global) = global_at(program, def.unit, def.place) else {
        return Some(0);
    };
    if !holds_complete(&global.ty, &program.classes) {
        return None;
    }
    match size_align(&global.ty, &program.classes) {
        Ok(found) => Some(found.size),
        Err(_) => None,
    }
}

// Whether globals that lie each at the next multiple of 8 have room.
fn have_room(program: &Program, kept: &[Found<'_>]) -> bool
    requires { InOrder (classes_of program.now.classes.items) }
    ensures { result ≡ true → globals_end 0 (map (global_size (program_of program.now)) (defs_of kept.now)) ≤ GLOBALS_LIMIT }
{
    let mut end = 0;
    for def in kept {
        let Some(size) = size_found(program, def) else {
            return false;
        };
        let start = (end + 7) / 8 * 8;
        end = start + size;
        if end > GLOBALS_LIMIT {
            return false;
        }
    }
    true
}

// Whether the globals of a program have room.
fn has_room(alloc: Global, program: &Program) -> Result<bool, AllocError>
    requires { InOrder (classes_of program.now.classes.items) }
    ensures { IfOk result (λ b. b ≡ true → globals_size (program_of program.now) ≤ GLOBALS_LIMIT) }
{
    let kept = kept_globals(alloc, program)?;
    Ok(have_room(program, kept.as_slice()))
}

// Whether classes are in order.
fn is_ordered(classes: &[ClassRec]) -> bool
    ensures { result ≡ true → InOrder (classes_of classes.now) }
{
    is_in_order(classes)
}

/// Whether a program can be bound. Where it cannot, a frame or a global is too large or has no size.
pub fn can_bind(alloc: Global, program: &Program) -> Result<bool, AllocError>
    ensures { IfOk result (λ b. b ≡ true → CanBind (program_of program.now)) }
{
    let classes = program.classes.as_slice();
    let units = program.units.as_slice();
    if !is_ordered(classes) {
        return Ok(false);
    }
    let fit = units_fit(alloc, units, classes)?;
    if !fit {
        return Ok(false);
    }
    has_room(alloc, program)
}
