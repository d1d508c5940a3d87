//! The verdict.

ghost use Rattle.std.specs.Prelude.{map, IfOk, string_bytes};
ghost use Rattle.cpp_tree.specs.Units.{program_of};
ghost use Rattle.cpp_tree.specs.WellFormed.{WellFormed};
ghost use Rattle.source_verdict.specs.Elaborated.{HasProgram};
ghost use Rattle.source_verdict.specs.Front.{AreRead};
ghost use Rattle.source_verdict.specs.Verdict.{Says};

use crate::front::read_units;
use crate::refusals::{refuse_fault, refuse_front, refuse_unsafe};
use cpp_ast::Unit;
use cpp_tree::Program;
use elab_units::elaborate;
use elab_well_formed::laws::programs;
use offset_bounds::offsets_fit;
use std::alloc::{AllocError, Global};
use tree_forests::laws::forests;
use tx_answers::Decision;
use tx_safety::laws::readable;
use tx_safety::{SafeProgram, SafetyFault, check};
use unit_syntax::laws::wholes;

/// What becomes of the texts of sources.
#[derive(Drop)]
pub enum Verdict {
    /// Their typed program, which is safe.
    Accepted(SafeProgram),
    /// Their first refusal.
    Refused(Decision),
}

// A program that is well formed is checked for safety.
fn checked(
    alloc: Global,
    names: &[String],
    texts: &[Vec<u8>],
    units: &[Unit],
    program: Program,
) -> Result<Verdict, AllocError>
    requires read { AreRead 0 (map (λ text. text.items) texts.now) units.now }
    requires elaborated { HasProgram (map (λ text. text.items) texts.now) (program_of program) }
    requires well_formed { WellFormed program }
    ensures { IfOk result (Says (map string_bytes names.now) (map (λ text. text.items) texts.now)) }
{
    let _units = units;
    readable();
    match check(alloc, program) {
        Ok(safe) => {
            offsets_fit(&safe);
            Ok(Verdict::Accepted(safe))
        }
        Err(SafetyFault::Unsafe { at, reason }) => Ok(Verdict::Refused(refuse_unsafe(
            alloc, names, texts, at, reason,
        )?)),
        Err(SafetyFault::Memory) => Err(AllocError),
    }
}

// The units get their typed program, which is well formed: its nodes are forests, and its bodies are those of a text.
fn with_units(
    alloc: Global,
    names: &[String],
    texts: &[Vec<u8>],
    units: &[Unit],
) -> Result<Verdict, AllocError>
    requires { AreRead 0 (map (λ text. text.items) texts.now) units.now }
    ensures { IfOk result (Says (map string_bytes names.now) (map (λ text. text.items) texts.now)) }
{
    wholes();
    forests();
    programs();
    match elaborate(alloc, units) {
        Ok(program) => checked(alloc, names, texts, units, program),
        Err(fault) => Ok(Verdict::Refused(refuse_fault(alloc, names, texts, fault)?)),
    }
}

/// The verdict on the texts of sources, whose files have these names: each text in order is cut to tokens and read as a unit, then the units get their typed
/// program, then it is checked for safety. The first of these steps that refuses names its place.
pub fn verdict_of(alloc: Global, names: &[String], texts: &[Vec<u8>]) -> Result<Verdict, AllocError>
    ensures { IfOk result (Says (map string_bytes names.now) (map (λ text. text.items) texts.now)) }
{
    match read_units(alloc, texts) {
        Ok(units) => with_units(alloc, names, texts, units.as_slice()),
        Err(unread) => Ok(Verdict::Refused(refuse_front(alloc, names, texts, unread)?)),
    }
}
