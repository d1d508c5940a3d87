// Parts of lines.

use cpp_tree::below::{ClassRec, Shape, Ty, spell};
use itoa::Buffer;
use std::alloc::{AllocError, Global};

/// Puts a text behind another.
pub fn put(out: &mut Vec<u8>, text: &[u8]) -> Result<(), AllocError> {
    out.extend_from_slice(text)
}

/// Puts a text behind another where a flag is set.
pub fn put_if(out: &mut Vec<u8>, flag: bool, text: &[u8]) -> Result<(), AllocError> {
    if flag {
        out.extend_from_slice(text)?;
    }
    Ok(())
}

/// Puts a number in decimal digits.
pub fn put_number(out: &mut Vec<u8>, number: u64) -> Result<(), AllocError> {
    let mut buffer = Buffer::new();
    out.extend_from_slice(buffer.format(number).as_bytes())
}

/// Puts a blank and a number.
pub fn put_word(out: &mut Vec<u8>, number: u64) -> Result<(), AllocError> {
    put(out, b" ")?;
    put_number(out, number)
}

/// Puts a blank and a name.
pub fn put_name(out: &mut Vec<u8>, name: &[u8]) -> Result<(), AllocError> {
    put(out, b" ")?;
    put(out, name)
}

/// Puts the blanks before a line.
pub fn put_indent(out: &mut Vec<u8>, depth: u32) -> Result<(), AllocError> {
    for _level in 0..depth {
        put(out, b"  ")?;
    }
    Ok(())
}

/// Puts a type; that of `nullptr` by this word.
pub fn put_type(
    alloc: Global,
    out: &mut Vec<u8>,
    ty: &Ty,
    classes: &[ClassRec],
) -> Result<(), AllocError> {
    if matches!(&ty.shape, Shape::Null) {
        return put(out, b"nullptr");
    }
    let text = spell(alloc, ty, classes)?;
    put(out, &text)
}

/// The type of objects of a class, of a lambda's where the class has no name.
pub fn type_of_class(classes: &[ClassRec], class: u32) -> Ty {
    let is_closure = match classes.get(class as usize) {
        Some(found) => found.name.is_empty(),
        None => false,
    };
    let shape = if is_closure {
        Shape::Closure(class)
    } else {
        Shape::Class(class)
    };
    Ty {
        shape,
        is_const: false,
        is_volatile: false,
    }
}
