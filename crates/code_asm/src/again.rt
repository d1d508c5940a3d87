//! Printing and assembling again.
ghost use Rattle.std.specs.Prelude.{◌≡◌, true};
ghost use Rattle.tx_code.specs.Objects.{object_view};
ghost use Rattle.tx_code.specs.WellFormed.{IsObject};
ghost use Rattle.object_bytes.specs.Spelling.{is_wide};
ghost use Rattle.code_asm.specs.Answers.{IsThat};

use crate::assembling::assemble;
use crate::fault::AsmFault;
use assembly_text::print;
use std::alloc::Global;
use tx_code::Object;

/// What the text of an object is assembled to: that object.
pub fn printed_again(alloc: Global, object: &Object) -> Result<Object, AsmFault>
    requires object { IsObject (object_view object.now) }
    requires wide { is_wide (object_view object.now) ≡ true }
    ensures { IsThat result (object_view object.now) }
{
    match print(alloc, object) {
        Ok(text) => assemble(alloc, &text),
        Err(_) => Err(AsmFault::Memory),
    }
}
