// Numbers at the front of texts (`decimal-9`, where 9 is the most), the tables of instructions, and the first fault of no objects.

use decimal_text::number_at;
use link_faults::check_objects;
use std::alloc::{AllocError, Global};
use tx_code::{LineRow, block_kind, int_kind, line, operator, size};
use tx_ints::IntKind;

// The number at the front of a text, and how many bytes follow.
fn decimal(alloc: Global, text: &[u8], most: u64) -> Result<String, AllocError> {
    match number_at(text, most) {
        Some(number) => format!(in alloc; "{} {}", number.value, number.rest.len()),
        None => format!(in alloc; "none"),
    }
}

// What the tables have for numbers of instructions, and the lines of two indices.
fn tables(alloc: Global) -> Result<String, AllocError> {
    let lines = [LineRow { from: 1, line: 7 }, LineRow { from: 4, line: 9 }];
    format!(in alloc;
        "{:?} {:?} {:?} {:?} {} {:?} {:?}",
        int_kind(9),
        int_kind(12),
        operator(15),
        block_kind(2),
        size(IntKind::UShort),
        line(&lines, 0),
        line(&lines, 4)
    )
}

/// The answer to a word.
pub fn answer(alloc: Global, word: &str, text: &[u8]) -> Result<String, AllocError> {
    if let Some(most) = word.strip_prefix("decimal-") {
        return decimal(alloc, text, most.parse::<u64>().unwrap_or(0));
    }
    match word {
        "tables" => tables(alloc),
        _ => match check_objects(alloc, &[]) {
            Ok(_) => format!(in alloc; "links"),
            Err(fault) => format!(in alloc; "{fault:?}"),
        },
    }
}
