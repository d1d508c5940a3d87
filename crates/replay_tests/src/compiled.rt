// Whether the image of a program is shown to be the code of a program.

use case_texts::bytes_of;
use image_checks::is_code_of_program;
use source_verdict::{Verdict, verdict_of};
use src_link::choices;
use std::alloc::{AllocError, Global};
use tx_linker::link;
use unit_objects::unit_objects;

// What is answered of the image of one text and the program of another.
fn answer(alloc: Global, compiled: Vec<u8>, source: Vec<u8>) -> Result<&'static str, AllocError> {
    let names = vec![in alloc; String::from_str(alloc, "a.cc")?]?;
    let texts = vec![in alloc; compiled]?;
    let sources = vec![in alloc; source]?;
    let Verdict::Accepted(safe) = verdict_of(alloc, names.as_slice(), texts.as_slice())? else {
        return Ok("refused");
    };
    let Verdict::Accepted(other) = verdict_of(alloc, names.as_slice(), sources.as_slice())? else {
        return Ok("refused");
    };
    let objects = unit_objects(alloc, &safe, names.as_slice(), texts.as_slice())?;
    let Ok(image) = link(alloc, objects.as_slice()) else {
        return Ok("cannot be linked");
    };
    let choices = choices(alloc, &other)?;
    match is_code_of_program(alloc, &image, other.program(), &choices) {
        Ok(true) => Ok("shown"),
        Ok(false) => Ok("not shown"),
        Err(_) => Ok("given up"),
    }
}

/// Of the image of a program and the program itself, behind its name.
pub fn code(alloc: Global, name: &str, text: Vec<u8>) -> Result<String, AllocError> {
    let source = Vec::from_slice(alloc, text.as_slice())?;
    format!(in alloc; "{name}: {}\n", answer(alloc, text, source)?)
}

/// Of the image of the first of two texts, and the program of the second.
pub fn apart(alloc: Global, case: &str) -> Result<String, AllocError> {
    let (compiled, source) = case.split_once(" === ").unwrap_or((case, ""));
    let compiled = bytes_of(alloc, compiled)?;
    let source = bytes_of(alloc, source)?;
    format!(in alloc; "{}\n", answer(alloc, compiled, source)?)
}
