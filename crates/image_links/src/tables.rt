//! What the numbers in the bodies of a unit's functions stand for.

ghost use Rattle.std.specs.Prelude.{◌≡◌, ◌==◌, [], map, Some, IfOk};
ghost use Rattle.tx_code.specs.Objects.{bytes_of};
ghost use Rattle.tx_code.specs.Views.{image_view};
ghost use Rattle.cpp_tree.specs.cpp_types.Typ.{Signature};
ghost use Rattle.cpp_tree.specs.cpp_types.Spelling.{function_spelling};
ghost use Rattle.cpp_tree.specs.Units.{definition_of};
ghost use Rattle.src_mean.specs.Links.{unsafe as without_safety};
ghost use Rattle.src_bind.specs.Tables.{typed, linked_of};
ghost use Rattle.src_bind.specs.Bounds.{given};
ghost use Rattle.image_links.specs.Books.{spelling_place, first_place, first_class, is_signature, is_of_type, is_slot};

use crate::agreeing::same_number;
use crate::calls::numbered;
use crate::lookups::{called, class_address, func_address};
use cpp_tree::below::is_name;
use cpp_tree::{ClassDef, TFunc, TGlobal};
use src_bind::Bound;
use std::alloc::AllocError;
use tx_code::Image;

/// The place of a spelling in a list, or the list's length where it is not there.
pub fn spelling_place(spelling: &[u8], types: &[Vec<u8>]) -> usize
    ensures { result ≡ spelling_place spelling.now (map bytes_of types.now) }
{
    for (n, ty) in types.iter().enumerate() {
        if is_name(spelling, ty) {
            return n;
        }
    }
    types.len()
}

// Whether a unit's global lies at an address.
fn lies_at(bound: &Bound<'_>, unit: u32, place: u32, address: u64) -> bool
    ensures { result ≡ ((linked_of (given bound.now)).global unit place == address) }
{
    bound.global(unit, place) == address
}

/// The first of a unit's globals that lies at an address.
pub fn global_at(
    bound: &Bound<'_>,
    unit: u32,
    globals: &[TGlobal],
    address: u64,
) -> Result<Option<u32>, AllocError>
    ensures { IfOk result (λ o. o ≡ first_place (λ n. (linked_of (given bound.now)).global unit n == address) 0 globals.now) }
{
    for (n, _) in globals.iter().enumerate() {
        let place = numbered(n)?;
        if lies_at(bound, unit, place, address) {
            return Ok(Some(place));
        }
    }
    Ok(None)
}

/// The first of a unit's functions with a number.
pub fn function_with(
    bound: &Bound<'_>,
    unit: u32,
    funcs: &[TFunc],
    number: u32,
) -> Result<Option<u32>, AllocError>
    ensures { IfOk result (λ o. o ≡ first_place (λ n. (linked_of (given bound.now)).number unit n == number) 0 funcs.now) }
{
    for (n, _) in funcs.iter().enumerate() {
        let place = numbered(n)?;
        if bound.number(unit, place) == number {
            return Ok(Some(place));
        }
    }
    Ok(None)
}

/// The first of the classes that a unit defines with an address.
pub fn class_with(bound: &Bound<'_>, definitions: &[ClassDef], address: u64) -> Option<u32>
    ensures { result ≡ first_class (λ c. (linked_of (given bound.now)).table c == address) (map definition_of definitions.now) }
{
    for definition in definitions {
        if bound.table(definition.class) == address {
            return Some(definition.class);
        }
    }
    None
}

/// Whether the functions of the type with this number are those of the type with this spelling, safety aside.
pub fn is_signature(
    image: &Image,
    bound: &Bound<'_>,
    number: u32,
    ty: &[u8],
) -> Result<bool, AllocError>
    ensures { (sig : Signature) → ty.now ≡ function_spelling (typed (given bound.now)).classes (without_safety sig) [] → IfOk result (λ b. b ≡ is_signature (image_view image.now) (linked_of (given bound.now)) (typed (given bound.now)) number sig) }
{
    for (n, _) in image.funcs.iter().enumerate() {
        let address = func_address(numbered(n)?);
        if !same_number(called(image, number, address), bound.pointed(address, ty)) {
            return Ok(false);
        }
    }
    Ok(true)
}

// Whether what was found, if anything, is a function of the type with this number.
fn is_of_type(image: &Image, number: u32, found: Option<u32>) -> bool
    ensures { result ≡ is_of_type (image_view image.now) number found }
{
    match found {
        Some(func) => same_number(called(image, number, func_address(func)), Some(func)),
        None => true,
    }
}

/// Whether the functions that classes have in a slot of a class are of the type with this number.
pub fn is_slot(
    image: &Image,
    bound: &Bound<'_>,
    number: u32,
    class: u32,
    slot: u32,
) -> Result<bool, AllocError>
    ensures { IfOk result (λ b. b ≡ is_slot (image_view image.now) (linked_of (given bound.now)) (typed (given bound.now)) number class slot) }
{
    for (n, _) in image.classes.iter().enumerate() {
        let address = class_address(numbered(n)?);
        if !is_of_type(image, number, bound.slot(address, class, slot)) {
            return Ok(false);
        }
    }
    Ok(true)
}
