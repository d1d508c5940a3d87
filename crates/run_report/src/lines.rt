//! The lines for the error output.

ghost use Rattle.std.specs.Prelude.{◌≡◌, ◌++◌, map, codes, IfOk, IfSome, string_bytes, option_copied};
ghost use Rattle.std.specs.Option.{option_map};
ghost use Rattle.tx_code.specs.Objects.{body_view};
ghost use Rattle.tx_code.specs.Images.{image_func_view};
ghost use Rattle.tx_code.specs.Views.{image_view};
ghost use Rattle.tx_answers.specs.Report.{trap_name};
ghost use Rattle.run_report.specs.RunWrites.{body_at, line_in, func_place, trap_place, end_line, end_lines};

use std::alloc::{AllocError, Global};
use tx_answers as answers;
use tx_answers::trap_name;
use tx_code::{Body, Image, ImageFunc, line};
use tx_events::{End, Trap};
use tx_machine::Ran;
use vm_thread::Here;

// The plain or the safe body of a function.
fn body_at(func: &ImageFunc, safe: bool) -> Option<&Body>
    ensures { option_map body_view (option_copied result) ≡ body_at (image_func_view func.now) safe }
{
    if safe {
        func.safe.as_ref()
    } else {
        Some(&func.plain)
    }
}

// The source line of a place in a function.
fn line_in(func: &ImageFunc, here: Here) -> Option<u32>
    ensures { result ≡ line_in (body_at (image_func_view func.now) here.safe) here.index }
{
    let body = body_at(func, here.safe)?;
    line(body.lines.as_slice(), here.index)
}

// The source and the line of a place in a function, behind a blank; nothing where it has none.
fn func_place(alloc: Global, func: &ImageFunc, here: Here) -> Result<Vec<u8>, AllocError>
    ensures { IfOk result (λ text. text.items ≡ func_place (image_func_view func.now) here) }
{
    let mut text = Vec::new(alloc);
    let Some(source) = &func.source else {
        return Ok(text);
    };
    let Some(line) = line_in(func, here) else {
        return Ok(text);
    };
    let number = format!(in alloc; ":{line}")?;
    text.push(b' ')?;
    text.extend_from_slice(source.as_slice())?;
    text.extend_from_slice(number.as_bytes())?;
    Ok(text)
}

// The source and the line where the program trapped, behind a blank; nothing where it has none.
fn trap_place(alloc: Global, image: &Image, place: Option<Here>) -> Result<Vec<u8>, AllocError>
    ensures { IfOk result (λ text. text.items ≡ trap_place (image_view image.now) place) }
{
    let Some(here) = place else {
        return Ok(Vec::new(alloc));
    };
    let Some(func) = image.funcs.get(here.func as usize) else {
        return Ok(Vec::new(alloc));
    };
    func_place(alloc, func, here)
}

// The line of a trap.
fn trap_line(
    alloc: Global,
    image: &Image,
    trap: Trap,
    place: Option<Here>,
) -> Result<Vec<u8>, AllocError>
    ensures { IfOk result (λ text. text.items ≡ codes "trap " ++ (trap_name trap ++ (trap_place (image_view image.now) place ++ codes "\n"))) }
{
    let mut text = b"trap ".to_vec(alloc)?;
    let behind = trap_place(alloc, image, place)?;
    text.extend_from_slice(trap_name(trap).as_bytes())?;
    text.extend_from_slice(behind.as_slice())?;
    text.push(b'\n')?;
    Ok(text)
}

// The end line.
fn end_line(alloc: Global, image: &Image, ran: &Ran<Here>) -> Result<Vec<u8>, AllocError>
    ensures { IfOk result (λ text. text.items ≡ end_line (image_view image.now) ran.now.end ran.now.place) }
{
    match ran.end {
        End::Trapped(trap) => trap_line(alloc, image, trap, ran.place),
        End::Exit(_) | End::Abort | End::Terminate | End::StepsOut => {
            let line = answers::end_line(alloc, ran.end)?;
            Ok(line.into_bytes())
        }
    }
}

/// The end line and the turn line.
pub fn end_lines(alloc: Global, image: &Image, ran: &Ran<Here>) -> Result<Vec<u8>, AllocError>
    ensures { IfOk result (λ text. text.items ≡ end_lines (image_view image.now) ran.now) }
{
    let mut lines = end_line(alloc, image, ran)?;
    let turns = answers::turn_line(alloc, ran.ran, ran.waited, ran.rolled, ran.idle)?;
    lines.extend_from_slice(turns.as_bytes())?;
    Ok(lines)
}
