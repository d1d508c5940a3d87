//! Assembling: the object of a text.
ghost use Rattle.std.specs.Prelude.{[], ℕ, List, IfOk};
ghost use Rattle.tx_code.specs.Objects.{ObjectView, object_view};
ghost use Rattle.code_asm.specs.Steps.{IsSorted};
ghost use Rattle.code_asm.specs.Views.{state_of, place_of};
ghost use Rattle.code_asm.specs.Answers.{Reaches, IsWritten, IsThat, IsFault};
ghost use Rattle.code_asm.specs.Runs.{TookLine, IsRun};

use crate::assembly::{Assembly, Place, add_line, start};
use crate::fault::{AsmFault, Stop};
use assembly_text::{Read, line_at};
use std::alloc::Global;
use tx_code::Object;

/// The object so far, and what is left of the text.
#[derive(Drop)]
struct Behind<'a> {
    assembly: Assembly,
    rest: &'a [u8],
}

/// Reads and adds the line at the front of a text.
fn add_next<'a>(
    alloc: Global,
    numbers: &mut Vec<u64>,
    assembly: Assembly,
    text: &'a [u8],
) -> Result<Behind<'a>, Stop>
    requires { IsSorted (object_view assembly.object) (place_of assembly.place) }
    ensures { TookLine (state_of assembly) text.now result }
{
    let Some(read) = line_at(alloc, numbers, text)? else {
        return Err(Stop::Wrong);
    };
    let Read { line, rest } = read;
    match add_line(alloc, assembly, line, rest.is_empty()) {
        Ok(assembly) => Ok(Behind { assembly, rest }),
        Err(stop) => Err(stop),
    }
}

/// The object, if the text has ended where it may.
fn finished(assembly: Assembly, number: u64) -> Result<Object, AsmFault>
    ensures { (text : List ℕ) → Reaches text number (state_of assembly) [] → IsRun text result }
{
    let Assembly { object, place } = assembly;
    match place {
        Place::Ended => Ok(object),
        _ => Err(AsmFault::BadAsm { line: number }),
    }
}

/// Reads all lines.
fn run(alloc: Global, text: &[u8]) -> Result<Object, AsmFault>
    ensures { IsRun text.now result }
{
    let mut numbers = Vec::new(alloc);
    let mut assembly = start(alloc);
    let mut rest = text;
    let mut number: u64 = 1;
    'lines: while !rest.is_empty() {
        match add_next(alloc, &mut numbers, assembly, rest) {
            Ok(behind) => {
                let Behind {
                    assembly: next,
                    rest: after,
                } = behind;
                assembly = next;
                rest = after;
            }
            Err(Stop::Memory) => return Err(AsmFault::Memory),
            Err(Stop::Wrong) => return Err(AsmFault::BadAsm { line: number }),
        }
        number += 1;
    }
    finished(assembly, number)
}

/// The object that the text writes. `BadAsm` stands at the first wrong line.
pub fn assemble(alloc: Global, text: &[u8]) -> Result<Object, AsmFault>
    // The text writes what is answered, and some bytes spell it.
    ensures object { IfOk result (λ object. IsWritten (object_view object) text.now) }
    // A text that writes an object is answered with that object: `BadAsm` only where it writes none.
    ensures only { (o : ObjectView) → IsWritten o text.now → IsThat result o }
    // A fault names the first wrong line.
    ensures fault { IsFault result text.now }
{
    run(alloc, text)
}
