// The public call on images made by hand.

use code_verify::verify;
use std::alloc::{AllocError, Global};
use tx_code::{Body, Image, ImageFunc, Instr};

// An image of `main()` alone, with this body.
fn image_of(alloc: Global, code: Vec<Instr>) -> Result<Image, AllocError> {
    let symbol = Vec::from_slice(alloc, b"main()")?;
    let ty = Vec::from_slice(alloc, b"int()")?;
    let plain = Body {
        code,
        rows: Vec::new(alloc),
        lines: Vec::new(alloc),
    };
    let mut funcs = Vec::new(alloc);
    funcs.push(ImageFunc {
        symbol,
        ty,
        frame: 16,
        no_except: false,
        plain,
        safe: None,
        source: None,
    })?;
    Ok(Image {
        types: Vec::new(alloc),
        funcs,
        classes: Vec::new(alloc),
        globals: Vec::new(alloc),
        size: 0,
        main: 0,
    })
}

// Whether the image of this body is sound, or which rule it breaks first.
fn verified(alloc: Global, code: &[Instr]) -> Result<String, AllocError> {
    let image = image_of(alloc, Vec::from_slice(alloc, code)?)?;
    match verify(alloc, image) {
        Ok(_) => format!(in alloc; "sound"),
        Err(fault) => format!(in alloc; "{fault:?}"),
    }
}

/// A sound image.
pub fn sound(alloc: Global) -> Result<String, AllocError> {
    let code = [
        Instr::Push(65),
        Instr::Out,
        Instr::Pop,
        Instr::Push(0),
        Instr::Ret(1),
    ];
    verified(alloc, &code)
}

/// One whose `ret` finds no word.
pub fn missing(alloc: Global) -> Result<String, AllocError> {
    verified(alloc, &[Instr::Ret(1)])
}
