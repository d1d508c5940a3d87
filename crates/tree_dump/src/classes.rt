// Classes with their sizes, members and slots.

use crate::kinds::Named;
use crate::sections::Section;
use crate::sizes::{Ordered, offset_of, size_of};
use crate::texts::{put, put_if, put_name, put_number, put_type, put_word, type_of_class};
use cpp_tree::below::{ClassRec, MemberRec, has_pointer};
use cpp_tree::{Program, SlotRec, UnitTree};
use std::alloc::{AllocError, Global};

// Where the base of a class ends.
fn base_end(classes: Ordered<'_>, found: &ClassRec) -> Result<u32, AllocError> {
    match found.base {
        Some(base) => Ok(size_of(classes, &type_of_class(classes.list, base))?.size),
        None => Ok(0),
    }
}

// The next multiple of 8, as far as there is one.
fn in_eights(number: u32) -> u32 {
    let over = number % 8;
    if over == 0 {
        number
    } else {
        number.saturating_add(8 - over)
    }
}

// Where objects of a class have their class pointer: behind the base of the first class that has one.
fn pointer_of(classes: Ordered<'_>, class: u32) -> Result<Option<u32>, AllocError> {
    let mut below = class;
    for _passed in 0..classes.list.len() {
        let Some(found) = classes.list.get(below as usize) else {
            return Ok(None);
        };
        if has_pointer(classes.list, below) {
            let end = base_end(classes, found)?;
            return Ok(Some(in_eights(end)));
        }
        match found.base {
            Some(base) => below = base,
            None => return Ok(None),
        }
    }
    Ok(None)
}

// The head of a class.
fn put_head(
    alloc: Global,
    out: &mut Vec<u8>,
    classes: Ordered<'_>,
    class: u32,
    found: &ClassRec,
) -> Result<(), AllocError> {
    let ty = type_of_class(classes.list, class);
    put(out, b"class ")?;
    put_type(alloc, out, &ty, classes.list)?;
    let size = size_of(classes, &ty)?;
    put(out, b" size")?;
    put_word(out, u64::from(size.size))?;
    put(out, b" align")?;
    put_word(out, u64::from(size.align))?;
    put_if(out, found.is_final, b" final")?;
    if let Some(base) = found.base {
        put(out, b" base ")?;
        put_type(alloc, out, &type_of_class(classes.list, base), classes.list)?;
    }
    if let Some(pointer) = pointer_of(classes, class)? {
        put(out, b" pointer")?;
        put_word(out, u64::from(pointer))?;
    }
    put(out, b"\n")
}

// A line for a member.
fn put_member(
    alloc: Global,
    out: &mut Vec<u8>,
    classes: Ordered<'_>,
    class: u32,
    index: u32,
    member: &MemberRec,
) -> Result<(), AllocError> {
    put(out, b"  member")?;
    if !member.name.is_empty() {
        put_name(out, &member.name)?;
    }
    put_word(out, u64::from(offset_of(classes, class, index)?))?;
    put(out, b" ")?;
    put_type(alloc, out, &member.ty, classes.list)?;
    put(out, b"\n")
}

// The symbol of the function with an index in its class.
fn put_method(
    out: &mut Vec<u8>,
    named: Named<'_>,
    class: u32,
    index: u32,
) -> Result<(), AllocError> {
    let mut count: u32 = 0;
    for func in named.funcs {
        if func.class == Some(class) {
            if count == index {
                return put_name(out, &func.symbol);
            }
            count = count.saturating_add(1);
        }
    }
    put(out, b" ?")
}

fn is_pure(classes: &[ClassRec], slot: &SlotRec) -> bool {
    match classes.get(slot.class as usize) {
        Some(found) => match found.functions.get(slot.func as usize) {
            Some(function) => function.pure_virtual,
            None => false,
        },
        None => false,
    }
}

// Lines for slots.
fn put_slots(out: &mut Vec<u8>, named: Named<'_>, slots: &[SlotRec]) -> Result<(), AllocError> {
    for (i, slot) in slots.iter().enumerate() {
        put(out, b"  slot ")?;
        put_number(out, i as u64)?;
        put_method(out, named, slot.class, slot.func)?;
        put_if(out, is_pure(named.classes.list, slot), b" pure")?;
        put(out, b"\n")?;
    }
    Ok(())
}

// A class.
fn class_section(
    alloc: Global,
    program: &Program,
    named: Named<'_>,
    class: u32,
    found: &ClassRec,
) -> Result<Section, AllocError> {
    let classes = named.classes;
    let mut name = Vec::new(alloc);
    put_type(
        alloc,
        &mut name,
        &type_of_class(classes.list, class),
        classes.list,
    )?;
    let mut text = Vec::new(alloc);
    put_head(alloc, &mut text, classes, class, found)?;
    for (i, member) in found.members.iter().enumerate() {
        let Ok(index) = u32::try_from(i) else {
            return Err(AllocError);
        };
        put_member(alloc, &mut text, classes, class, index, member)?;
    }
    if let Some(slots) = program.slots.get(class as usize) {
        put_slots(&mut text, named, slots)?;
    }
    Ok(Section { name, text })
}

// Whether a class is one of a lambda of a source.
fn is_lambda_of(found: &ClassRec, source: u32) -> bool {
    if !found.name.is_empty() {
        return false;
    }
    match found.functions.get(0) {
        Some(call) => call.at.source == source,
        None => false,
    }
}

fn is_defined(unit: &UnitTree, class: u32) -> bool {
    for found in &unit.classes {
        if found.class == class {
            return true;
        }
    }
    false
}

/// The classes that a unit completes, those of its lambdas too.
pub fn class_sections(
    alloc: Global,
    program: &Program,
    unit: &UnitTree,
    source: u32,
    named: Named<'_>,
) -> Result<Vec<Section>, AllocError> {
    let mut list = Vec::new(alloc);
    for (i, found) in named.classes.list.iter().enumerate() {
        let Ok(class) = u32::try_from(i) else {
            return Err(AllocError);
        };
        if is_defined(unit, class) || is_lambda_of(found, source) {
            let made = class_section(alloc, program, named, class, found)?;
            list.push(made)?;
        }
    }
    Ok(list)
}
