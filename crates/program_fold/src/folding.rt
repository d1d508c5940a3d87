// Folded programs.

ghost use Rattle.std.specs.Prelude.{◌≡◌, IfOk};
ghost use Rattle.cpp_tree.specs.Units.{program_of};
ghost use Rattle.cpp_tree.specs.WellFormed.{WellFormed};
ghost use Rattle.tree_fold.specs.Declaring.{DeclaresPlainly};
ghost use Rattle.tree_fold.specs.Programs.{folded_program};
ghost use Rattle.tx_safety.specs.Answers.{checked_in};
ghost use Rattle.tx_safety.specs.Safe.{IsSafe};

use crate::checking::checked;
use fold_events::laws::same_safety;
use fold_fits::laws::programs;
use std::alloc::{AllocError, Global};
use tree_fold::fold_bodies;
use tx_safety::SafeProgram;

/// Folds the bodies of a program: what has a value before the run gets it, and of a conditional whose condition is known the operand that is
/// not run is dropped where nothing is lost with it. All else stays. The folded program is well formed and safe as the program is: this is
/// proved, and not tested: the check that makes a safe program has nothing to find. The work is linear in the program, but for that check. The
/// program is given up where memory is wanting, and nowhere else.
pub fn fold(alloc: Global, safe: SafeProgram) -> Result<SafeProgram, AllocError>
    requires well_formed { WellFormed (checked_in safe) }
    requires plain { DeclaresPlainly (program_of (checked_in safe)) }
    ensures program { IfOk result (λ r. program_of (checked_in r) ≡ folded_program (program_of (checked_in safe))) }
    ensures well_formed { IfOk result (λ r. WellFormed (checked_in r)) }
    ensures safe { IfOk result (λ r. IsSafe (program_of (checked_in r))) }
{
    let program = safe.into_program();
    programs();
    same_safety();
    let folded = fold_bodies(alloc, program)?;
    checked(alloc, folded)
}
