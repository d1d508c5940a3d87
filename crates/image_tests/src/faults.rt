// Objects that can't be linked, and objects that just can: `link FIRST | SECOND`, each the text of an object.

use crate::texts::objects_of;
use std::alloc::{AllocError, Global};
use tx_linker::{LinkFault, link};

// A fault and its symbol, or its number.
fn told(alloc: Global, fault: &LinkFault) -> Result<String, AllocError> {
    match fault {
        LinkFault::Twice { symbol } => format!(in alloc; "Twice {}", symbol.escape_ascii()),
        LinkFault::OdrDiffers { symbol } => {
            format!(in alloc; "OdrDiffers {}", symbol.escape_ascii())
        }
        LinkFault::Undefined { symbol } => {
            format!(in alloc; "Undefined {}", symbol.escape_ascii())
        }
        LinkFault::UnsafeSymbol { symbol } => {
            format!(in alloc; "UnsafeSymbol {}", symbol.escape_ascii())
        }
        LinkFault::NoMain => format!(in alloc; "NoMain"),
        LinkFault::Globals { size } => format!(in alloc; "Globals {size}"),
        LinkFault::Memory => format!(in alloc; "Memory"),
    }
}

/// Whether two objects are linked, or why they can't be.
pub fn answer(alloc: Global, case: &str) -> Result<String, AllocError> {
    let Ok(objects) = objects_of(alloc, case) else {
        return format!(in alloc; "no objects");
    };
    match link(alloc, &objects) {
        Ok(_) => format!(in alloc; "links"),
        Err(fault) => told(alloc, &fault),
    }
}
