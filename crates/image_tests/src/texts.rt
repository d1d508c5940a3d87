// Objects as texts.

ghost use Rattle.std.specs.Prelude.{IfOk};
ghost use Rattle.std.specs.List.{All};
ghost use Rattle.tx_code.specs.Objects.{object_view};
ghost use Rattle.tx_code.specs.WellFormed.{IsObject};

use case_texts::bytes_of;
use code_asm::{AsmFault, assemble};
use std::alloc::Global;
use tx_code::Object;

// The object of a text.
fn object_of(alloc: Global, text: &str) -> Result<Object, AsmFault>
    ensures { IfOk result (λ o. IsObject (object_view o)) }
{
    match bytes_of(alloc, text) {
        Ok(bytes) => assemble(alloc, &bytes),
        Err(_) => Err(AsmFault::Memory),
    }
}

/// The objects of two texts with a bar between them.
pub fn objects_of(alloc: Global, texts: &str) -> Result<[Object; 2], AsmFault>
    ensures { IfOk result (All (λ o. IsObject (object_view o))) }
{
    let (first, second) = texts.split_once(" | ").unwrap_or((texts, ""));
    Ok([object_of(alloc, first)?, object_of(alloc, second)?])
}
