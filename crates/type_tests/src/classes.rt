// Classes as words: `B;base=0;member=int;function=~B` has the base 0, an `int` and a destructor. A class is complete behind
// as many as stand before it, where `complete=1` or `complete=never` says nothing else.

use crate::types::{plain, read as read_type, read_all};
use case_texts::field;
use cpp_layout::below::{At, ClassRec, FnTy, FuncRec, MemberRec, Safety, Shape};
use std::alloc::{AllocError, Global};

// A function from its name, its parameters and where it is written, with colons between them.
fn function(alloc: Global, text: &str, is_virtual: bool) -> Result<FuncRec, AllocError> {
    let name = Vec::from_slice(alloc, field(text, ':', 0).as_bytes())?;
    let params = read_all(alloc, field(text, ':', 1), ',')?;
    let offset = field(text, ':', 2).parse::<u32>().unwrap_or(0);
    let ret = plain(Shape::Void);
    Ok(FuncRec {
        name,
        ty: FnTy {
            params,
            ret,
            safe: false,
        },
        is_const: false,
        is_virtual,
        is_override: false,
        is_final: false,
        pure_virtual: false,
        safety: Safety::None,
        considered: false,
        no_except: false,
        at: At { source: 1, offset },
    })
}

// A member of a type.
fn member(alloc: Global, word: &str) -> Result<MemberRec, AllocError> {
    let name = Vec::from_slice(alloc, b"m")?;
    let ty = read_type(alloc, word)?;
    Ok(MemberRec { name, ty })
}

// A part is added to a class.
fn add_part(alloc: Global, made: &mut ClassRec, part: &str) -> Result<(), AllocError> {
    let (key, value) = part.split_once('=').unwrap_or((part, ""));
    match key {
        "base" => made.base = value.parse::<u32>().ok(),
        "complete" => made.complete = value.parse::<u32>().ok(),
        "member" => made.members.push(member(alloc, value)?)?,
        "function" => made.functions.push(function(alloc, value, false)?)?,
        "virtual" => made.functions.push(function(alloc, value, true)?)?,
        _ => {}
    }
    Ok(())
}

// A class from its word.
fn class_of(alloc: Global, text: &str, number: u32) -> Result<ClassRec, AllocError> {
    let (name, parts) = text.split_once(';').unwrap_or((text, ""));
    let mut made = ClassRec {
        name: Vec::from_slice(alloc, name.as_bytes())?,
        base: None,
        members: Vec::new(alloc),
        functions: Vec::new(alloc),
        is_final: false,
        complete: Some(number),
    };
    for part in parts.split(';') {
        add_part(alloc, &mut made, part)?;
    }
    Ok(made)
}

/// The classes of some words; `none` is no class.
pub fn read(alloc: Global, texts: &str) -> Result<Vec<ClassRec>, AllocError> {
    let mut classes = Vec::new(alloc);
    if texts == "none" {
        return Ok(classes);
    }
    let mut number: u32 = 0;
    for text in texts.split(' ') {
        classes.push(class_of(alloc, text, number)?)?;
        number = number.saturating_add(1);
    }
    Ok(classes)
}
