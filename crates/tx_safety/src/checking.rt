// The check of a program.

ghost use Rattle.std.specs.Prelude.{◌≡◌, ◌<◌, ℕ, IfOk, Some, None, fold, length, map};
ghost use Rattle.std.specs.List.{flat_map};
ghost use Rattle.cpp_tree.specs.Arena.{IsOrdered};
ghost use Rattle.cpp_tree.specs.Units.{unit_of, program_of};
ghost use Rattle.tx_unsafe.specs.Volatile.{marked};
ghost use Rattle.tx_safety.specs.Safe.{safe, unit_findings, IsSafe, is_safe};
ghost use Rattle.tx_unsafe.specs.First.{sooner};
ghost use Rattle.tx_safety.specs.Marks.{may_from, HaveRoots, AreReadable, AreUnitMarks};
ghost use Rattle.tx_safety.specs.Answers.{checked_in, Checks};

use crate::fault::SafetyFault;
use crate::findings::with_funcs;
use crate::marks::{may_call_at, safe_marks};
use crate::safe_program::SafeProgram;
use cpp_tree::{Program, TFunc, UnitTree};
use std::alloc::{AllocError, Global};
use tx_unsafe::{Finding, volatile_classes};

impl SafeProgram {
    /// The checked program.
    pub fn program(&self) -> &Program
        ensures program { result.now ≡ checked_in self.now }
        ensures safe { IsSafe (program_of result.now) }
    {
        &self.program
    }

    /// Whether a function is safe in its unit.
    pub fn is_safe(&self, unit: u32, func: u32) -> bool
        requires { unit < length (checked_in self.now).units.items }
        ensures { result ≡ is_safe (program_of (checked_in self.now)) unit func }
    {
        may_call_at(&self.marks[unit as usize], u32::MAX, func)
    }

    /// The checked program. It takes no memory.
    pub fn into_program(self) -> Program
        ensures program { result ≡ checked_in self }
        ensures safe { IsSafe (program_of result) }
    {
        self.program
    }
}

// What is known of a unit.
#[derive(Drop)]
struct UnitCheck {
    found: Option<Finding>,
    marks: Vec<Option<u32>>,
}

// As many functions as have numbers of 32 bits. More count as want of memory.
fn has_numbers(funcs: &[TFunc]) -> Result<(), AllocError>
    ensures { IfOk result (λ _. length funcs.now < 4294967296) }
{
    if funcs.len() > 4_294_967_295 {
        return Err(AllocError);
    }
    Ok(())
}

fn check_unit(
    alloc: Global,
    unit: &UnitTree,
    volatile: &[bool],
    found: Option<Finding>,
) -> Result<UnitCheck, AllocError>
    requires ordered { IsOrdered unit.now.nodes.items }
    requires roots { HaveRoots unit.now.nodes.items unit.now.funcs.items }
    ensures found { IfOk result (λ c. c.found ≡ fold sooner found (unit_findings (marked volatile.now) (unit_of unit.now))) }
    ensures marks { IfOk result (λ c. (place n : ℕ) → may_from c.marks.items place n ≡ safe (marked volatile.now) (unit_of unit.now).funcs place n) }
{
    has_numbers(&unit.funcs)?;
    let marks = safe_marks(alloc, &unit.nodes, volatile, &unit.funcs)?;
    let found = with_funcs(alloc, &unit.nodes, volatile, &unit.funcs, &marks, found)?;
    Ok(UnitCheck { found, marks })
}

// What is known of all units.
#[derive(Drop)]
struct UnitsCheck {
    found: Option<Finding>,
    marks: Vec<Vec<Option<u32>>>,
}

fn check_units(
    alloc: Global,
    units: &[UnitTree],
    volatile: &[bool],
) -> Result<UnitsCheck, AllocError>
    requires { AreReadable units.now }
    ensures found { IfOk result (λ c. c.found ≡ fold sooner None (flat_map (unit_findings (marked volatile.now)) (map unit_of units.now))) }
    ensures long { IfOk result (λ c. length c.marks.items ≡ length units.now) }
    ensures marks { IfOk result (λ c. AreUnitMarks (marked volatile.now) units.now c.marks.items) }
{
    let mut found = None;
    let mut marks = Vec::new(alloc);
    for unit in units {
        let checked = check_unit(alloc, unit, volatile, found)?;
        found = checked.found;
        marks.push(checked.marks)?;
    }
    Ok(UnitsCheck { found, marks })
}

/// Checks a program, of which it needs that kids have lower ids and that bodies stand in their lists, as in each
/// well-formed one. `Unsafe` names the first unsafe node in the order of units and of their texts, and the program is
/// given up. The work is linear in the program, but that the calls of each unit are gone through until nothing changes:
/// twice, and once more for each implicit member, in a chain of calls, that calls what is defined behind it. So with the
/// classes: once more than a class holds one that stands behind it in the list, and that again one behind it.
pub fn check(alloc: Global, program: Program) -> Result<SafeProgram, SafetyFault>
    requires { AreReadable program.units.items }
    ensures { Checks program result }
{
    let volatile = volatile_classes(alloc, &program.classes)?;
    let checked = check_units(alloc, &program.units, &volatile)?;
    match checked.found {
        Some(first) => Err(SafetyFault::Unsafe {
            at: first.at,
            reason: first.reason,
        }),
        None => Ok(SafeProgram {
            program,
            marks: checked.marks,
        }),
    }
}
