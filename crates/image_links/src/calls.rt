//! How many words the functions of an image take, and whether they hand one back.

ghost use Rattle.std.specs.Prelude.{◌≡◌, [], Some, IfOk};
ghost use Rattle.tx_code.specs.Views.{image_view};
ghost use Rattle.cpp_tree.specs.cpp_types.Typ.{Signature};
ghost use Rattle.cpp_tree.specs.cpp_types.Equal.{flag_eq};
ghost use Rattle.cpp_tree.specs.cpp_types.Spelling.{function_spelling};
ghost use Rattle.src_mean.specs.Links.{unsafe as without_safety};
ghost use Rattle.src_bind.specs.Tables.{typed, linked_of};
ghost use Rattle.src_bind.specs.Bounds.{given};
ghost use Rattle.image_links.specs.Books.{func_takes, func_gives, passes_as, pointed_pass, slotted_pass};

use crate::lookups::{class_address, func_address};
use code_walk::words::gives_of;
use src_bind::Bound;
use std::alloc::AllocError;
use tx_code::Image;

/// A place as a number of 32 bits. More count as want of memory.
pub(crate) fn numbered(place: usize) -> Result<u32, AllocError>
    ensures { IfOk result (λ n. n ≡ place) }
{
    match u32::try_from(place) {
        Ok(number) => Ok(number),
        Err(_) => Err(AllocError),
    }
}

// Whether both are set or none.
pub(crate) fn is_same(a: bool, b: bool) -> bool
    ensures { result ≡ flag_eq a b }
{
    if a { b } else { !b }
}

/// How many words a function takes.
pub fn func_takes(bound: &Bound<'_>, func: u32) -> usize
    ensures { result ≡ func_takes (linked_of (given bound.now)) func }
{
    match bound.info(func) {
        Some(info) => info.words.len(),
        None => 0,
    }
}

/// Whether a function hands back a word.
pub fn func_gives(image: &Image, func: u32) -> bool
    ensures { result ≡ func_gives (image_view image.now) func }
{
    match image.funcs.get(func as usize) {
        Some(func) => gives_of(&func.ty) == 1,
        None => false,
    }
}

// Whether this is a function of the image that takes so many words, and hands back a word or none.
fn takes_so(image: &Image, bound: &Bound<'_>, count: usize, gives: bool, func: u32) -> bool
    ensures { result ≡ passes_as (image_view image.now) (linked_of (given bound.now)) (typed (given bound.now)) count gives (Some func) }
{
    (func as usize) < image.funcs.len()
        && (func_takes(bound, func) == count && is_same(func_gives(image, func), gives))
}

/// Whether what was found, if anything, is a function of the image that takes so many words, and hands back a word or none.
pub fn passes_as(
    image: &Image,
    bound: &Bound<'_>,
    count: usize,
    gives: bool,
    found: Option<u32>,
) -> bool
    ensures { result ≡ passes_as (image_view image.now) (linked_of (given bound.now)) (typed (given bound.now)) count gives found }
{
    match found {
        Some(func) => takes_so(image, bound, count, gives, func),
        None => true,
    }
}

/// Whether all functions of a type do, where `ty` is its spelling, safety aside.
pub fn pointed_pass(
    image: &Image,
    bound: &Bound<'_>,
    ty: &[u8],
    count: usize,
    gives: bool,
) -> Result<bool, AllocError>
    ensures { (sig : Signature) → ty.now ≡ function_spelling (typed (given bound.now)).classes (without_safety sig) [] → IfOk result (λ b. b ≡ pointed_pass (image_view image.now) (linked_of (given bound.now)) (typed (given bound.now)) sig count gives) }
{
    for (n, _) in image.funcs.iter().enumerate() {
        let func = numbered(n)?;
        if !passes_as(
            image,
            bound,
            count,
            gives,
            bound.pointed(func_address(func), ty),
        ) {
            return Ok(false);
        }
    }
    Ok(true)
}

/// Whether all functions do that classes have in a slot of a class.
pub fn slotted_pass(
    image: &Image,
    bound: &Bound<'_>,
    class: u32,
    slot: u32,
    count: usize,
    gives: bool,
) -> Result<bool, AllocError>
    ensures { IfOk result (λ b. b ≡ slotted_pass (image_view image.now) (linked_of (given bound.now)) (typed (given bound.now)) class slot count gives) }
{
    for (n, _) in image.classes.iter().enumerate() {
        let at = numbered(n)?;
        if !passes_as(
            image,
            bound,
            count,
            gives,
            bound.slot(class_address(at), class, slot),
        ) {
            return Ok(false);
        }
    }
    Ok(true)
}
