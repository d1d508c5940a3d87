//! The bodies of an image.

ghost use Rattle.std.specs.Prelude.{◌≡◌, ℕ, Some, true, IfOk};
ghost use Rattle.tx_code.specs.Objects.{body_view};
ghost use Rattle.tx_code.specs.Program.{names_of};
ghost use Rattle.tx_code.specs.Views.{image_view};
ghost use Rattle.src_bind.specs.Bounds.{given};
ghost use Rattle.note_landing.specs.Books.{HasNotes};
ghost use Rattle.image_notes.specs.Noted.{BothHaveNotes, AllHaveNotes};

use crate::thrown::exception_types;
use body_notes::has_notes;
use bumpalo::Bump;
use cpp_tree::below::Ty;
use note_landing::cases::{is_known, text_at};
use note_landing::compiled::{Compiled, Room};
use src_bind::Bound;
use std::alloc::{AllocError, Global};
use std::cell::Cell;
use symbolic_leaving::Source;
use symbolic_terms::refusal::Refusal;
use symbolic_terms::words::Words;
use tx_code::{Body, Image, ImageFunc};

// The spellings of the types that a body's rows take.
fn spellings_of(alloc: Global, image: &Image, body: &Body) -> Result<Vec<Vec<u8>>, AllocError> {
    let mut spellings: Vec<Vec<u8>> = Vec::new(alloc);
    for row in &body.rows {
        let text = text_at(image, row.ty);
        if row.what == 1 && !is_known(&spellings, text) {
            spellings.push(Vec::from_slice(alloc, text)?)?;
        }
    }
    Ok(spellings)
}

// A body in an arena of its own.
fn arena_has_notes<'a>(
    alloc: Global,
    arena: &'a Bump,
    image: &'a Image,
    bound: &'a Bound<'a>,
    types: &'a [Ty],
    spellings: &'a [Vec<u8>],
    number: u32,
    safe: bool,
    body: &'a Body,
) -> Result<bool, Refusal>
    ensures { IfOk result (λ b. b ≡ true → (names_of (image_view image.now)).body number safe ≡ Some (body_view body.now) → HasNotes (image_view image.now) (given bound.now) number safe) }
{
    let Some(info) = bound.info(number) else {
        return Ok(false);
    };
    let compiled = Compiled {
        source: Source { bound, info, types },
        image,
        number,
        safe,
        body,
        spellings,
    };
    let missing = arena.try_alloc(Cell::new(None))?;
    let room = Room {
        arena,
        alloc,
        missing,
    };
    let mut words = Words {
        terms: Vec::new(alloc),
        exceptions: Vec::new(alloc),
        puts: Vec::new(alloc),
    };
    let found = has_notes(room, &mut words, &compiled)?;
    Ok(found)
}

/// Whether a body of an image, plain or safe, has notes, where the types of exceptions that the code makes are told.
pub fn body_has_notes(
    alloc: Global,
    image: &Image,
    bound: &Bound<'_>,
    types: &[Ty],
    number: u32,
    safe: bool,
    body: &Body,
) -> Result<bool, Refusal>
    ensures { IfOk result (λ b. b ≡ true → (names_of (image_view image.now)).body number safe ≡ Some (body_view body.now) → HasNotes (image_view image.now) (given bound.now) number safe) }
{
    let spellings = spellings_of(alloc, image, body)?;
    let arena = Bump::new(alloc);
    arena_has_notes(
        alloc, &arena, image, bound, types, &spellings, number, safe, body,
    )
}

// Whether the bodies of a function have notes.
fn func_has_notes(
    alloc: Global,
    image: &Image,
    bound: &Bound<'_>,
    types: &[Ty],
    number: u32,
    func: &ImageFunc,
) -> Result<bool, Refusal>
    ensures { IfOk result (λ b. b ≡ true → BothHaveNotes (image_view image.now) (given bound.now) number func.now) }
{
    if !body_has_notes(alloc, image, bound, types, number, false, &func.plain)? {
        return Ok(false);
    }
    match &func.safe {
        Some(body) => {
            let found = body_has_notes(alloc, image, bound, types, number, true, body)?;
            Ok(found)
        }
        None => Ok(true),
    }
}

/// Whether all bodies of an image have notes.
pub fn all_have_notes(alloc: Global, image: &Image, bound: &Bound<'_>) -> Result<bool, Refusal>
    ensures { IfOk result (λ b. b ≡ true → AllHaveNotes (image_view image.now) (given bound.now)) }
{
    let types = exception_types(alloc, bound.program())?;
    for (n, func) in image.funcs.iter().enumerate() {
        let Ok(number) = u32::try_from(n) else {
            return Err(Refusal::Beyond);
        };
        if !func_has_notes(alloc, image, bound, &types, number, func)? {
            return Ok(false);
        }
    }
    Ok(true)
}
