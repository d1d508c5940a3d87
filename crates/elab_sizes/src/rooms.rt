// How much of a number of bytes is left behind the spelling of a type, counted without writing it.

ghost use Rattle.std.specs.Prelude.{◌≡◌, ◌<◌, ◌+◌, length, map, slice_get, MatchOption};
ghost use Rattle.cpp_types.specs.Typ.{typ_of, typs_of, shape_form, signature_of};
ghost use Rattle.cpp_types.specs.Class.{classes_of, class_of, function_of};
ghost use Rattle.cpp_types.specs.Spelling.{kind_spelling, name_of};
ghost use Rattle.elab_rules.specs.Sizes.{if_set, digit_count, marks_length, place_length, closure_length, typ_length, form_length, pointer_length, signature_length, typs_length, owner_length, parameters_length};

use cpp_types::{ClassRec, FnTy, FuncRec, Shape, Ty};
use elab_rules::below::IntKind;

/// The room that is left behind so many bytes.
pub fn left(room: u32, bytes: usize) -> Option<u32>
    ensures { MatchOption result (room < bytes) (λ r. r + bytes ≡ room) }
{
    if bytes <= room as usize {
        Some(room - bytes as u32)
    } else {
        None
    }
}

pub fn if_set(flag: bool, bytes: usize) -> usize
    ensures { result ≡ if_set flag bytes }
{
    if flag { bytes } else { 0 }
}

/// The decimal digits of a number.
pub fn digit_count(number: u32) -> usize
    ensures { result ≡ digit_count number }
{
    if number < 10 {
        1
    } else if number < 100 {
        2
    } else if number < 1000 {
        3
    } else if number < 10_000 {
        4
    } else if number < 100_000 {
        5
    } else if number < 1_000_000 {
        6
    } else {
        7
    }
}

/// The bytes of `const ` and `volatile `.
pub fn marks_length(is_const: bool, is_volatile: bool) -> usize
    ensures { result ≡ marks_length is_const is_volatile }
{
    match (is_const, is_volatile) {
        (false, false) => 0,
        (true, false) => 6,
        (false, true) => 9,
        (true, true) => 15,
    }
}

/// The bytes of the name of a kind.
pub fn kind_length(kind: IntKind) -> usize
    ensures { result ≡ length (kind_spelling kind) }
{
    match kind {
        IntKind::Bool | IntKind::Char | IntKind::Long => 4,
        IntKind::SChar => 11,
        IntKind::UChar => 13,
        IntKind::Short => 5,
        IntKind::UShort => 14,
        IntKind::Int => 3,
        IntKind::UInt => 12,
        IntKind::ULong => 13,
        IntKind::LLong => 9,
        IntKind::ULLong => 18,
    }
}

/// The bytes of the place of a lambda, which its first function has.
pub fn place_length(functions: &[FuncRec]) -> usize
    ensures { result ≡ place_length (map function_of functions.now) }
{
    match functions.first() {
        Some(call) => 8 + digit_count(call.at.source) + digit_count(call.at.offset),
        None => 0,
    }
}

/// The bytes of the name of a class.
pub fn class_length(class: u32, classes: &[ClassRec]) -> usize
    ensures { result ≡ length (name_of (slice_get (classes_of classes.now) class)) }
{
    match classes.get(class as usize) {
        Some(found) => found.name.len(),
        None => 0,
    }
}

/// The bytes of the place of a lambda's class.
pub fn closure_length(class: u32, classes: &[ClassRec]) -> usize
    ensures { result ≡ closure_length (slice_get (classes_of classes.now) class) }
{
    match classes.get(class as usize) {
        Some(found) => place_length(&found.functions),
        None => 0,
    }
}

/// The room behind a type.
#[cycle(room)]
pub fn type_room(room: u32, ty: &Ty, classes: &[ClassRec]) -> Option<u32>
    ensures { MatchOption result (room < typ_length (classes_of classes.now) (typ_of ty.now)) (λ r. r + typ_length (classes_of classes.now) (typ_of ty.now) ≡ room) }
{
    let room = left(room, marks_length(ty.is_const, ty.is_volatile))?;
    shape_room(room, &ty.shape, classes)
}

#[cycle(room)]
pub fn shape_room(room: u32, shape: &Shape, classes: &[ClassRec]) -> Option<u32>
    ensures { MatchOption result (room < form_length (classes_of classes.now) (shape_form shape.now)) (λ r. r + form_length (classes_of classes.now) (shape_form shape.now) ≡ room) }
{
    match shape {
        Shape::Void => left(room, 4),
        Shape::Int(kind) => left(room, kind_length(*kind)),
        Shape::Enum { name, scoped: _ } => {
            let room = left(room, 5)?;
            left(room, name.len())
        }
        Shape::Null => left(room, 14),
        Shape::Ptr(target) => pointer_room(room, target, classes),
        Shape::Ref(target) => {
            let room = left(room, 1)?;
            type_room(room, target, classes)
        }
        Shape::Array(element, count) => {
            let room = left(room, 2 + digit_count(*count))?;
            type_room(room, element, classes)
        }
        Shape::Func(function) => function_room(room, function, classes),
        Shape::Class(class) => left(room, class_length(*class, classes)),
        Shape::Closure(class) => left(room, closure_length(*class, classes)),
        Shape::TxEx(value) => {
            let room = left(room, 19)?;
            type_room(room, value, classes)
        }
    }
}

/// The room behind a pointer to a function, which has the star in parentheses.
#[cycle(room)]
pub fn function_pointer_room(room: u32, function: &FnTy, classes: &[ClassRec]) -> Option<u32>
    ensures { MatchOption result (room < 3 + signature_length (classes_of classes.now) (signature_of function.now)) (λ r. r + (3 + signature_length (classes_of classes.now) (signature_of function.now)) ≡ room) }
{
    let room = left(room, 3)?;
    function_room(room, function, classes)
}

/// The room behind any other pointer.
#[cycle(room)]
pub fn plain_pointer_room(room: u32, target: &Ty, classes: &[ClassRec]) -> Option<u32>
    ensures { MatchOption result (room < 1 + typ_length (classes_of classes.now) (typ_of target.now)) (λ r. r + (1 + typ_length (classes_of classes.now) (typ_of target.now)) ≡ room) }
{
    let room = left(room, 1)?;
    type_room(room, target, classes)
}

/// The room behind a pointer.
#[cycle(room)]
pub fn pointer_room(room: u32, target: &Ty, classes: &[ClassRec]) -> Option<u32>
    ensures { MatchOption result (room < pointer_length (classes_of classes.now) (typ_of target.now)) (λ r. r + pointer_length (classes_of classes.now) (typ_of target.now) ≡ room) }
{
    match &target.shape {
        Shape::Func(function) => function_pointer_room(room, function, classes),
        _ => plain_pointer_room(room, target, classes),
    }
}

/// The room behind a function's type.
#[cycle(room)]
#[tactic(auto, using(cpp_types::proofs::Views::signature_view))]
pub fn function_room(room: u32, function: &FnTy, classes: &[ClassRec]) -> Option<u32>
    ensures { MatchOption result (room < signature_length (classes_of classes.now) (signature_of function.now)) (λ r. r + signature_length (classes_of classes.now) (signature_of function.now) ≡ room) }
{
    let room = type_room(room, &function.ret, classes)?;
    let room = left(room, 2)?;
    let room = list_room(room, &function.params, classes)?;
    left(room, if_set(function.safe, 17))
}

/// The room behind types with commas between them.
#[cycle(room)]
pub fn list_room(room: u32, types: &[Ty], classes: &[ClassRec]) -> Option<u32>
    ensures { MatchOption result (room < typs_length (classes_of classes.now) (typs_of types.now)) (λ r. r + typs_length (classes_of classes.now) (typs_of types.now) ≡ room) }
{
    let mut rest = room;
    let mut comma = false;
    for ty in types {
        let behind = left(rest, if_set(comma, 1))?;
        rest = type_room(behind, ty, classes)?;
        comma = true;
    }
    Some(rest)
}

/// The room behind the parameters of a function in its symbol.
#[tactic(auto, using(cpp_types::proofs::Views::signature_view))]
pub fn parameters_room(room: u32, function: &FnTy, classes: &[ClassRec]) -> Option<u32>
    ensures { MatchOption result (room < parameters_length (classes_of classes.now) (signature_of function.now)) (λ r. r + parameters_length (classes_of classes.now) (signature_of function.now) ≡ room) }
{
    let room = left(room, 2)?;
    list_room(room, &function.params, classes)
}

/// The room behind the class of a function in its symbol.
pub fn owner_room(room: u32, class: Option<u32>, classes: &[ClassRec]) -> Option<u32>
    ensures { MatchOption result (room < owner_length (classes_of classes.now) class) (λ r. r + owner_length (classes_of classes.now) class ≡ room) }
{
    match class {
        Some(owner) => {
            let room = left(room, 2)?;
            left(room, class_length(owner, classes))
        }
        None => Some(room),
    }
}
