// Objects as text, and back.

use code_asm::{AsmFault, assemble, print, printed_again};
use object_bytes::write;
use object_file::read;
use std::alloc::{AllocError, Global};
use tx_code::Object;

// Whether the text of an object is this.
fn compared(alloc: Global, object: &Object, text: &[u8]) -> Result<String, AllocError> {
    let is_same = print(alloc, object)?.as_slice() == text;
    format!(in alloc; "{}", if is_same { "same" } else { "differs" })
}

// Why a text is that of no object.
fn refused(alloc: Global, fault: AsmFault) -> Result<String, AllocError> {
    match fault {
        AsmFault::BadAsm { line } => format!(in alloc; "line {line}"),
        AsmFault::Memory => format!(in alloc; "memory"),
    }
}

/// How a text is answered: by an object, of which the same text is printed, or by its first wrong line.
pub fn answer(alloc: Global, text: &[u8]) -> Result<String, AllocError> {
    match assemble(alloc, text) {
        Ok(object) => compared(alloc, &object, text),
        Err(fault) => refused(alloc, fault),
    }
}

/// The bytes of the object of a text.
pub fn bytes(alloc: Global, text: &[u8]) -> Result<String, AllocError> {
    match assemble(alloc, text) {
        Ok(object) => format!(in alloc; "{}", write(alloc, &object)?.escape_ascii()),
        Err(fault) => refused(alloc, fault),
    }
}

/// The text of the object of some bytes.
pub fn printed(alloc: Global, bytes: &[u8]) -> Result<String, AllocError> {
    match read(alloc, bytes) {
        Ok(object) => format!(in alloc; "{}", print(alloc, &object)?.escape_ascii()),
        Err(fault) => format!(in alloc; "{fault:?}"),
    }
}

/// Whether the object that the text of an object is assembled to has that text.
pub fn again(alloc: Global, text: &[u8]) -> Result<String, AllocError> {
    match assemble(alloc, text) {
        Ok(object) => match printed_again(alloc, &object) {
            Ok(object) => compared(alloc, &object, text),
            Err(fault) => refused(alloc, fault),
        },
        Err(fault) => refused(alloc, fault),
    }
}
