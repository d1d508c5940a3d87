//! Lines.

use cpp_tree::below::At;
use low_code::LowInstr;
use std::alloc::{AllocError, Global};
use tx_code::LineRow;

// The line of an offset: how many lines begin at or before it.
fn line_of(starts: &[u32], offset: u32) -> u32 {
    let mut low = 0;
    let mut high = starts.len();
    for _ in 0..64 {
        if low >= high {
            break;
        }
        let middle = low + (high - low) / 2;
        match starts.get(middle) {
            Some(start) if *start <= offset => low = middle + 1,
            _ => high = middle,
        }
    }
    u32::try_from(low).unwrap_or(0)
}

// The line of a place.
fn line_at(starts: &[u32], at: At) -> u32 {
    line_of(starts, at.offset)
}

/// The line rows of instructions, where the lines of the source begin at these offsets.
pub fn line_rows(
    alloc: Global,
    code: &[LowInstr],
    starts: &[u32],
) -> Result<Vec<LineRow>, AllocError> {
    let mut lines = Vec::new(alloc);
    let mut last = None;
    for (i, low) in code.iter().enumerate() {
        let line = line_at(starts, low.at);
        if last != Some(line) {
            let Ok(from) = u32::try_from(i) else {
                return Err(AllocError);
            };
            lines.push(LineRow { from, line })?;
            last = Some(line);
        }
    }
    Ok(lines)
}
