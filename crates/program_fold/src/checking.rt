// Programs that passed the check.

ghost use Rattle.std.specs.Prelude.{◌≡◌, IfOk};
ghost use Rattle.cpp_tree.specs.Units.{program_of};
ghost use Rattle.cpp_tree.specs.WellFormed.{WellFormed};
ghost use Rattle.tx_safety.specs.Answers.{checked_in};
ghost use Rattle.tx_safety.specs.Safe.{IsSafe};

use cpp_tree::Program;
use std::alloc::{AllocError, Global};
use tx_safety::laws::readable;
use tx_safety::{SafeProgram, SafetyFault, check};

/// A safe program passes the check: it is not refused.
pub(crate) fn checked(alloc: Global, program: Program) -> Result<SafeProgram, AllocError>
    requires well_formed { WellFormed program }
    requires safe { IsSafe (program_of program) }
    ensures { IfOk result (λ r. checked_in r ≡ program) }
{
    readable();
    match check(alloc, program) {
        Ok(safe) => Ok(safe),
        Err(SafetyFault::Memory) => Err(AllocError),
        Err(SafetyFault::Unsafe { .. }) => unreachable!(),
    }
}
