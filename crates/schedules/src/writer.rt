//! The writer of schedules.
ghost use Rattle.std.specs.Prelude.{◌≡◌, ◌≢◌, ◌≤◌, ◌<◌, ◌++◌, ◌∷◌, [], ℕ, IfOk, OnOk, decimal, length, take, drop, replicate};
ghost use Rattle.schedules.specs.Text.{count_text, text_of, runs_of};
ghost use Rattle.schedules.specs.Number.{equal_len};

use itoa::Buffer;
use std::alloc::{AllocError, Global};

fn write_number(text: &mut Vec<u8>, number: usize) -> Result<(), AllocError>
    ensures { OnOk result (text.new.items ≡ text.old.items ++ decimal number) }
{
    let mut buffer = Buffer::new();
    text.extend_from_slice(buffer.format(number).as_bytes())?;
    Ok(())
}

fn write_count(text: &mut Vec<u8>, count: usize) -> Result<(), AllocError>
    ensures { OnOk result (text.new.items ≡ text.old.items ++ count_text count) }
{
    if count == 1 {
        return Ok(());
    }
    text.push(b'*')?;
    write_number(text, count)
}

fn write_line(text: &mut Vec<u8>, thread: u8, count: usize) -> Result<(), AllocError>
    ensures { OnOk result (text.new.items ≡ text.old.items ++ (decimal thread ++ (count_text count ++ 10 ∷ []))) }
{
    write_number(text, usize::from(thread))?;
    write_count(text, count)?;
    text.push(b'\n')?;
    Ok(())
}

/// How many entries at the front equal this one.
fn equal_at(entries: &[u8], thread: u8) -> usize
    ensures { result ≡ equal_len thread entries.now }
{
    entries.iter().take_while(|t| **t == thread).count()
}

/// The text of a schedule: each run of equal entries is one line.
pub fn write(alloc: Global, entries: &[u8]) -> Result<Vec<u8>, AllocError>
    ensures { IfOk result (λ text. text.items ≡ text_of (runs_of entries.now)) }
{
    let mut text = Vec::new(alloc);
    let mut rest = entries;
    'runs: while let Some((first, others)) = rest.split_first() {
        let equal = equal_at(others, *first);
        let behind = others.split_at(equal).1;
        write_line(&mut text, *first, rest.len() - behind.len())?;
        rest = behind;
    }
    Ok(text)
}
