//! What the numbers in an image's bodies name.
ghost use Rattle.std.specs.Prelude.{◌≡◌};
ghost use Rattle.tx_code.specs.Views.{image_view};
ghost use Rattle.tx_code.specs.Sound.{table_of};

use crate::words::{gives_of, takes_of};
use tx_code::Image;

/// A global begins there.
pub fn is_global(image: &Image, offset: u32) -> bool
    ensures { result ≡ (table_of (image_view image.now)).is_global offset }
{
    offset < image.size
}

/// It is a function.
pub fn is_func(image: &Image, func: u32) -> bool
    ensures { result ≡ (table_of (image_view image.now)).is_func func }
{
    (func as usize) < image.funcs.len()
}

/// It is a class.
pub fn is_class(image: &Image, class: u32) -> bool
    ensures { result ≡ (table_of (image_view image.now)).is_class class }
{
    (class as usize) < image.classes.len()
}

/// It is a slot of a class.
pub fn is_slot(image: &Image, class: u32, slot: u32) -> bool
    ensures { result ≡ (table_of (image_view image.now)).is_slot class slot }
{
    match image.classes.get(class as usize) {
        None => false,
        Some(class) => (slot as usize) < class.slots.len(),
    }
}

/// It is a type.
pub fn is_type(image: &Image, ty: u32) -> bool
    ensures { result ≡ (table_of (image_view image.now)).is_type ty }
{
    (ty as usize) < image.types.len()
}

/// It is a function with a safe body.
pub fn has_safe(image: &Image, func: u32) -> bool
    ensures { result ≡ (table_of (image_view image.now)).has_safe func }
{
    match image.funcs.get(func as usize) {
        None => false,
        Some(func) => func.safe.is_some(),
    }
}

/// How many words a function takes.
pub fn takes(image: &Image, func: u32) -> usize
    ensures { result ≡ (table_of (image_view image.now)).takes func }
{
    match image.funcs.get(func as usize) {
        None => 0,
        Some(func) => takes_of(&func.ty),
    }
}

/// How many words a function hands back.
pub fn gives(image: &Image, func: u32) -> usize
    ensures { result ≡ (table_of (image_view image.now)).gives func }
{
    match image.funcs.get(func as usize) {
        None => 0,
        Some(func) => gives_of(&func.ty),
    }
}

/// How many words a function of a type takes.
pub fn type_takes(image: &Image, ty: u32) -> usize
    ensures { result ≡ (table_of (image_view image.now)).type_takes ty }
{
    match image.types.get(ty as usize) {
        None => 0,
        Some(ty) => takes_of(ty),
    }
}

/// How many words a function of a type hands back.
pub fn type_gives(image: &Image, ty: u32) -> usize
    ensures { result ≡ (table_of (image_view image.now)).type_gives ty }
{
    match image.types.get(ty as usize) {
        None => 0,
        Some(ty) => gives_of(ty),
    }
}
