// Types as words: `const-pointer-int`, `reference-3-#0` for a reference to an array of three of the class 0.

use cpp_layout::below::{FnTy, IntKind, Shape, Ty};
use std::alloc::{AllocError, Global};

const KINDS: [(&str, IntKind); 12] = [
    ("bool", IntKind::Bool),
    ("char", IntKind::Char),
    ("schar", IntKind::SChar),
    ("uchar", IntKind::UChar),
    ("short", IntKind::Short),
    ("ushort", IntKind::UShort),
    ("int", IntKind::Int),
    ("uint", IntKind::UInt),
    ("long", IntKind::Long),
    ("ulong", IntKind::ULong),
    ("llong", IntKind::LLong),
    ("ullong", IntKind::ULLong),
];

/// A type without qualifiers.
pub fn plain(shape: Shape) -> Ty {
    Ty {
        shape,
        is_const: false,
        is_volatile: false,
    }
}

// A function of some parameters.
fn function(alloc: Global, params: Vec<Ty>, ret: Shape, safe: bool) -> Result<Shape, AllocError> {
    let ret = plain(ret);
    Ok(Shape::Func(Box::new(alloc, FnTy { params, ret, safe })?))
}

// A function of an `int` and a `char*`.
fn of_two(alloc: Global, safe: bool) -> Result<Shape, AllocError> {
    let character = Box::new(alloc, plain(Shape::Int(IntKind::Char)))?;
    let mut params = Vec::new(alloc);
    params.push(plain(Shape::Int(IntKind::Int)))?;
    params.push(plain(Shape::Ptr(character)))?;
    function(alloc, params, Shape::Void, safe)
}

// A function of a pointer to a safe function.
fn taker(alloc: Global) -> Result<Shape, AllocError> {
    let pointed = plain(of_two(alloc, true)?);
    let mut params = Vec::new(alloc);
    params.push(plain(Shape::Ptr(Box::new(alloc, pointed)?)))?;
    function(alloc, params, Shape::Void, false)
}

// The shape of a word that stands last.
fn leaf(alloc: Global, word: &str) -> Result<Shape, AllocError> {
    for (name, kind) in KINDS.iter() {
        if word == *name {
            return Ok(Shape::Int(*kind));
        }
    }
    if let Some(number) = word.strip_prefix('#') {
        return Ok(Shape::Class(number.parse::<u32>().unwrap_or(0)));
    }
    if let Some(number) = word.strip_prefix("lambda#") {
        return Ok(Shape::Closure(number.parse::<u32>().unwrap_or(0)));
    }
    match word {
        "void" => Ok(Shape::Void),
        "null" => Ok(Shape::Null),
        "enum" | "scoped" => Ok(Shape::Enum {
            name: Vec::from_slice(alloc, b"E")?,
            scoped: word == "scoped",
        }),
        "taker" => taker(alloc),
        // A function of nothing that gives an `int`.
        "nothing" => function(alloc, Vec::new(alloc), Shape::Int(IntKind::Int), false),
        _ => of_two(alloc, word == "safe"),
    }
}

// What a word makes of the type that stands behind it.
fn around(alloc: Global, word: &str, mut inner: Ty) -> Result<Ty, AllocError> {
    match word {
        "const" => inner.is_const = true,
        "volatile" => inner.is_volatile = true,
        "pointer" => inner = plain(Shape::Ptr(Box::new(alloc, inner)?)),
        "reference" => inner = plain(Shape::Ref(Box::new(alloc, inner)?)),
        "exception" => inner = plain(Shape::TxEx(Box::new(alloc, inner)?)),
        _ => match word.parse::<u32>() {
            Ok(count) => inner = plain(Shape::Array(Box::new(alloc, inner)?, count)),
            Err(_) => inner = plain(leaf(alloc, word)?),
        },
    }
    Ok(inner)
}

/// A type from its word.
pub fn read(alloc: Global, word: &str) -> Result<Ty, AllocError> {
    let mut ty = plain(Shape::Void);
    for part in word.rsplit('-') {
        ty = around(alloc, part, ty)?;
    }
    Ok(ty)
}

/// The types of some words.
pub fn read_all(alloc: Global, words: &str, between: char) -> Result<Vec<Ty>, AllocError> {
    let mut types = Vec::new(alloc);
    if words.is_empty() {
        return Ok(types);
    }
    for word in words.split(between) {
        types.push(read(alloc, word)?)?;
    }
    Ok(types)
}
