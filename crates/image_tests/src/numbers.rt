// Tables by hand.

use link_tables::kept::numbered_funcs;
use link_tables::places::numbers;
use link_tables::symbols::{Numbered, Symbol};
use std::alloc::{AllocError, Global};

/// The numbers of two definitions, of which that of the object itself comes first, and how many functions no objects have.
pub fn answer(alloc: Global) -> Result<String, AllocError> {
    let seen = Numbered {
        symbol: Symbol {
            place: 0,
            rank: 0,
            internal: false,
        },
        number: 7,
    };
    let own = Numbered {
        symbol: Symbol {
            place: 1,
            rank: 0,
            internal: true,
        },
        number: 9,
    };
    let table = numbers(alloc, 1, &[0, 0], &[seen, own])?;
    let none = numbered_funcs(alloc, &[])?;
    format!(in alloc; "{:?} {}", table.as_slice(), none.len())
}
