//! What the numbers of an image stand for.

ghost use Rattle.std.specs.Prelude.{◌≡◌, map, length};
ghost use Rattle.std.specs.Str.{bytes_eq};
ghost use Rattle.tx_code.specs.Program.{names_of, number_at, func_at, func_address, class_address, derives};
ghost use Rattle.tx_code.specs.Signatures.{without_safety};
ghost use Rattle.tx_code.specs.Images.{image_class_view};
ghost use Rattle.tx_code.specs.Views.{image_view};

use tx_code::{Image, ImageClass};

/// The address of function 0; each function has 16 bytes.
const FUNCS: u64 = 1_099_511_627_776;

/// The address of class 0; each class has 16 bytes.
const CLASSES: u64 = 2_199_023_255_552;

// A type's spelling, safety aside.
fn without_safety(ty: &[u8]) -> &[u8]
    ensures { result.now ≡ without_safety ty.now }
{
    match ty.strip_suffix(b" transaction_safe") {
        Some(front) => front,
        None => ty,
    }
}

// Whether types are the same, safety aside.
fn is_same_type(a: &[u8], b: &[u8]) -> bool
    ensures { result ≡ bytes_eq (without_safety a.now) (without_safety b.now) }
{
    without_safety(a) == without_safety(b)
}

/// The number at an address of a table of 16 bytes each.
pub(crate) fn number_at(start: u64, address: u64) -> Option<u64>
    ensures { result ≡ number_at start address }
{
    if start <= address && (address - start) % 16 == 0 {
        Some((address - start) / 16)
    } else {
        None
    }
}

// The function of this type at an address, safety aside.
fn func_at(image: &Image, ty: &[u8], address: u64) -> Option<u32>
    ensures { result ≡ func_at (image_view image.now).funcs ty.now address }
{
    let number = number_at(FUNCS, address)?;
    let func = image.funcs.get(number as usize)?;
    if is_same_type(&func.ty, ty) {
        Some(number as u32)
    } else {
        None
    }
}

/// The function of this type at an address, safety aside.
pub fn called(image: &Image, ty: u32, address: u64) -> Option<u32>
    ensures { result ≡ (names_of (image_view image.now)).called ty address }
{
    let ty = image.types.get(ty as usize)?;
    func_at(image, ty, address)
}

/// The function at an address that a thread may start in.
pub fn spawned(image: &Image, address: u64) -> Option<u32>
    ensures { result ≡ (names_of (image_view image.now)).spawned address }
{
    func_at(image, b"void(long)", address)
}

// Whether a class is another or derived from it.
fn is_derived(classes: &[ImageClass], class: usize, base: usize) -> bool
    ensures { result ≡ derives (map image_class_view classes.now) (length classes.now) class base }
{
    let mut at = class;
    for _ in 0..classes.len() {
        if at == base {
            return true;
        }
        match classes.get(at) {
            None => return false,
            Some(class) => match class.base {
                None => return false,
                Some(next) => at = next as usize,
            },
        }
    }
    false
}

/// The function in a slot of the class at an address, which is a class or derived from it.
pub fn slot(image: &Image, class: u64, address: u64, slot: u32) -> Option<u32>
    ensures { result ≡ (names_of (image_view image.now)).slot_of class address slot }
{
    let number = number_at(CLASSES, address)?;
    if !is_derived(&image.classes, number as usize, class as usize) {
        return None;
    }
    let found = image.classes.get(number as usize)?;
    *found.slots.get(slot as usize)?
}

/// Whether a type supports cancellation (the TS, [except.spec]).
pub fn cancels(image: &Image, ty: usize) -> bool
    ensures { result ≡ (names_of (image_view image.now)).cancels ty }
{
    match image.types.get(ty) {
        None => false,
        Some(ty) => ty.starts_with(b"std::tx_exception<"),
    }
}

/// The number of the class at an address.
pub(crate) fn class_at(address: u64) -> Option<u64>
    ensures { result ≡ number_at 2199023255552 address }
{
    number_at(CLASSES, address)
}

/// The address of a function.
pub fn func_address(func: u32) -> u64
    ensures { result ≡ func_address func }
{
    FUNCS + 16 * u64::from(func)
}

/// The address of a class.
pub fn class_address(class: u32) -> u64
    ensures { result ≡ class_address class }
{
    CLASSES + 16 * u64::from(class)
}
