//! What the numbers of an image stand for.
ghost use Rattle.std.specs.Prelude.{◌≡◌, ◌<◌, ◌&&◌, not, true, is_some, IfSome, map, length};
ghost use Rattle.std.specs.Option.{option_map};
ghost use Rattle.tx_code.specs.Objects.{body_view};
ghost use Rattle.tx_code.specs.Meaning.{find, covers, takes};
ghost use Rattle.tx_code.specs.Program.{names_of, number_at, func_at, func_address, class_address, global_address, derives, stack_start, stack_end};
ghost use Rattle.tx_code.specs.Signatures.{without_safety};
ghost use Rattle.tx_code.specs.Images.{image_class_view};
ghost use Rattle.tx_code.specs.Views.{image_view};
ghost use Rattle.std.specs.Str.{bytes_eq};
ghost use Rattle.vm_thread.specs.Lookups.{body_of, instr_of, row_of};

use tx_code::{Body, Image, ImageClass, Instr, Row};
use tx_events::{GLOBALS_START, STACK_SIZE, STACK_STRIDE, STACKS_START};

/// The address of function 0; each function has 16 bytes.
const FUNCS: u64 = 1_099_511_627_776;

/// The address of class 0; each class has 16 bytes.
const CLASSES: u64 = 2_199_023_255_552;

/// A body of a function.
pub(crate) fn body<'i>(image: &'i Image, func: u32, safe: bool) -> Option<&'i Body>
    ensures { option_map (λ b. body_view b.now) result ≡ body_of image.now func safe }
{
    let func = image.funcs.get(func as usize)?;
    if safe {
        func.safe.as_ref()
    } else {
        Some(&func.plain)
    }
}

/// Whether a function has that body.
pub(crate) fn has_body(image: &Image, func: u32, safe: bool) -> bool
    ensures { result ≡ is_some (body_of image.now func safe) }
{
    body(image, func, safe).is_some()
}

/// Whether a function that is called in a transaction has no body for it.
pub(crate) fn is_unsafe(image: &Image, func: u32, transaction: bool) -> bool
    ensures { result ≡ (transaction && not (is_some (body_of image.now func true))) }
{
    transaction && !has_body(image, func, true)
}

/// An instruction of a body.
pub(crate) fn instr(image: &Image, func: u32, safe: bool, index: usize) -> Option<Instr>
    ensures is { result ≡ instr_of image.now func safe index }
    ensures more { IfSome result (λ _. index < 18446744073709551615) }
{
    let body = body(image, func, safe)?;
    body.code.get(index).copied()
}

/// The frame of a function in bytes.
pub(crate) fn frame_size(image: &Image, func: u32) -> u32
    ensures { result ≡ (names_of (image_view image.now)).frame func }
{
    match image.funcs.get(func as usize) {
        None => 0,
        Some(func) => func.frame,
    }
}

/// Whether no exception may leave a function.
pub(crate) fn is_no_except(image: &Image, func: u32) -> bool
    ensures { result ≡ (names_of (image_view image.now)).no_except func }
{
    match image.funcs.get(func as usize) {
        None => false,
        Some(func) => func.no_except,
    }
}

// Whether a row covers an index and takes a type.
fn is_taken(row: &Row, index: usize, ty: u32) -> bool
    ensures { result ≡ (covers row.now index && takes row.now ty) }
{
    row.from as usize <= index && index < row.to as usize && (row.what != 1 || row.ty == ty)
}

// The first row that covers an index and takes a type.
fn find_row(rows: &[Row], index: usize, ty: u32) -> Option<Row>
    ensures { result ≡ find rows.now index ty }
{
    for row in rows {
        if is_taken(row, index, ty) {
            return Some(*row);
        }
    }
    None
}

/// The row of a body that takes an exception of a type at an index.
pub(crate) fn row(image: &Image, func: u32, safe: bool, index: usize, ty: u32) -> Option<Row>
    ensures { result ≡ row_of image.now func safe index ty }
{
    let body = body(image, func, safe)?;
    find_row(&body.rows, index, ty)
}

// A type's spelling, safety aside.
fn without_safety(ty: &[u8]) -> &[u8]
    ensures { result.now ≡ without_safety ty.now }
{
    match ty.strip_suffix(b" transaction_safe") {
        Some(front) => front,
        None => ty,
    }
}

// Whether types are the same, safety aside.
fn is_same_type(a: &[u8], b: &[u8]) -> bool
    ensures { result ≡ bytes_eq (without_safety a.now) (without_safety b.now) }
{
    without_safety(a) == without_safety(b)
}

// The number at an address of a table of 16 bytes each.
fn number_at(start: u64, address: u64) -> Option<u64>
    ensures { result ≡ number_at start address }
{
    if start <= address && (address - start) % 16 == 0 {
        Some((address - start) / 16)
    } else {
        None
    }
}

// The function of this type at an address, safety aside.
fn func_at(image: &Image, ty: &[u8], address: u64) -> Option<u32>
    ensures { result ≡ func_at (image_view image.now).funcs ty.now address }
{
    let number = number_at(FUNCS, address)?;
    let func = image.funcs.get(number as usize)?;
    if is_same_type(&func.ty, ty) {
        Some(number as u32)
    } else {
        None
    }
}

/// The function of this type at an address, safety aside.
pub(crate) fn called(image: &Image, ty: u32, address: u64) -> Option<u32>
    ensures { result ≡ (names_of (image_view image.now)).called ty address }
{
    let ty = image.types.get(ty as usize)?;
    func_at(image, ty, address)
}

/// The function at an address that a thread may start in.
pub(crate) fn spawned(image: &Image, address: u64) -> Option<u32>
    ensures { result ≡ (names_of (image_view image.now)).spawned address }
{
    func_at(image, b"void(long)", address)
}

// Whether a class is another or derived from it.
fn is_derived(classes: &[ImageClass], class: usize, base: usize) -> bool
    ensures { result ≡ derives (map image_class_view classes.now) (length classes.now) class base }
{
    let mut at = class;
    for _ in 0..classes.len() {
        if at == base {
            return true;
        }
        match classes.get(at) {
            None => return false,
            Some(class) => match class.base {
                None => return false,
                Some(next) => at = next as usize,
            },
        }
    }
    false
}

/// The function in a slot of the class at an address, which is a class or derived from it.
pub(crate) fn slot(image: &Image, class: u32, address: u64, slot: u32) -> Option<u32>
    ensures { result ≡ (names_of (image_view image.now)).slot_of class address slot }
{
    let number = number_at(CLASSES, address)?;
    if !is_derived(&image.classes, number as usize, class as usize) {
        return None;
    }
    let found = image.classes.get(number as usize)?;
    *found.slots.get(slot as usize)?
}

/// Whether a type supports cancellation (the TS, [except.spec]).
pub(crate) fn cancels(image: &Image, ty: u32) -> bool
    ensures { result ≡ (names_of (image_view image.now)).cancels ty }
{
    match image.types.get(ty as usize) {
        None => false,
        Some(ty) => ty.starts_with(b"std::tx_exception<"),
    }
}

/// The address of a function.
pub(crate) fn func_address(func: u32) -> u64
    ensures { result ≡ func_address func }
{
    FUNCS + 16 * u64::from(func)
}

/// Where the stack of a thread begins.
pub(crate) fn stack_start(thread: u8) -> u32
    ensures { result ≡ stack_start thread }
{
    STACKS_START as u32 + STACK_STRIDE as u32 * u32::from(thread)
}

/// Where it ends.
pub(crate) fn stack_end(thread: u8) -> u64
    ensures is { result ≡ stack_end thread }
    ensures bound { result < 4294967296 }
{
    u64::from(stack_start(thread)) + STACK_SIZE
}

/// The address of a class.
pub(crate) fn class_address(class: u32) -> u64
    ensures { result ≡ class_address class }
{
    CLASSES + 16 * u64::from(class)
}

/// The address of a global.
pub(crate) fn global_address(offset: u32) -> u64
    ensures { result ≡ global_address offset }
{
    GLOBALS_START + u64::from(offset)
}
