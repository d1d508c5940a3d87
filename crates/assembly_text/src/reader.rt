//! Lines of a text.
ghost use Rattle.std.specs.Prelude.{◌≡◌, MatchOption, IfOk};
ghost use Rattle.assembly_text.specs.Front.{LineHere, NoLineHere};
ghost use Rattle.assembly_text.specs.Views.{line_view};

use crate::line::Line;
use crate::names::name_at;
use crate::words::{record_at, word_at};
use std::alloc::{AllocError, Global};

/// A line, and what follows it.
#[derive(Drop)]
pub struct Read<'a> {
    pub line: Line,
    pub rest: &'a [u8],
}

/// The line at the front of a text. The numbers are room for those of the line.
pub fn line_at<'a>(
    alloc: Global,
    numbers: &mut Vec<u64>,
    text: &'a [u8],
) -> Result<Option<Read<'a>>, AllocError>
    ensures { IfOk result (λ r. MatchOption r (NoLineHere text.now) (λ l. LineHere text.now (line_view l.line) l.rest.now)) }
{
    let front = word_at(text);
    if front.word == b"name".as_slice() {
        return match name_at(alloc, front.rest)? {
            Some(named) => Ok(Some(Read {
                line: Line::Name(named.name),
                rest: named.rest,
            })),
            None => Ok(None),
        };
    }
    match record_at(numbers, front.word, front.rest)? {
        Some(found) => Ok(Some(Read {
            line: Line::Of(found.words),
            rest: found.rest,
        })),
        None => Ok(None),
    }
}
