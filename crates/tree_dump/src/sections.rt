// Parts of a text that are sorted by names.

use crate::texts::put;
use std::alloc::AllocError;

/// A part of a text, with the name by which it is sorted.
#[derive(PartialEq, Eq, PartialOrd, Ord, Drop)]
pub struct Section {
    pub name: Vec<u8>,
    pub text: Vec<u8>,
}

/// Puts sections in order behind a text.
pub fn put_sections(out: &mut Vec<u8>, sections: Vec<Section>) -> Result<(), AllocError> {
    let mut sorted = sections;
    sorted.sort_unstable();
    for section in &sorted {
        put(out, &section.text)?;
    }
    Ok(())
}
