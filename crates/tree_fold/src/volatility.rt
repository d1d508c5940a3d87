// Which objects are volatile or have a volatile part.

ghost use Rattle.std.specs.Prelude.{◌≡◌};
ghost use Rattle.cpp_tree.specs.cpp_types.Typ.{typ_of, shape_form};
ghost use Rattle.cpp_tree.specs.Typing.{passes};
ghost use Rattle.tx_unsafe.specs.Volatile.{is_volatile_object, is_volatile_form, is_class_object, is_volatile_class, marked};

use cpp_tree::below::{Shape, Ty, held_class};

/// Whether an object of the type is volatile or has a volatile part; `volatile` tells which classes have one.
#[cycle(objects)]
pub(crate) fn has_volatile(ty: &Ty, volatile: &[bool]) -> bool
    ensures { result ≡ is_volatile_object (marked volatile.now) (typ_of ty.now) }
{
    ty.is_volatile || has_volatile_shape(&ty.shape, volatile)
}

#[cycle(objects)]
fn has_volatile_shape(shape: &Shape, volatile: &[bool]) -> bool
    ensures { result ≡ is_volatile_form (marked volatile.now) (shape_form shape.now) }
{
    match shape {
        Shape::Array(element, _) => has_volatile(element, volatile),
        Shape::TxEx(value) => has_volatile(value, volatile),
        _ => is_marked(held_class(shape), volatile),
    }
}

// Whether there is a class, and it is marked.
fn is_marked(class: Option<u32>, volatile: &[bool]) -> bool
    ensures { result ≡ passes (marked volatile.now) class }
{
    match class {
        Some(class) => (class as usize) < volatile.len() && volatile[class as usize],
        None => false,
    }
}

// Whether a type is a class, or an array of one.
fn is_class(ty: &Ty) -> bool
    ensures { result ≡ is_class_object (typ_of ty.now) }
{
    match &ty.shape {
        Shape::Array(element, _) => is_class(element),
        Shape::Class(_) | Shape::Closure(_) | Shape::TxEx(_) => true,
        _ => false,
    }
}

/// Whether a type is a class, or an array of one, whose objects are volatile or have a volatile part.
pub(crate) fn is_volatile_class(ty: &Ty, volatile: &[bool]) -> bool
    ensures { result ≡ is_volatile_class (marked volatile.now) (typ_of ty.now) }
{
    is_class(ty) && has_volatile(ty, volatile)
}
