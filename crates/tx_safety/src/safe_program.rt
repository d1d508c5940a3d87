// Programs that passed the check.

ghost use Rattle.std.proofs.Props.{props};
ghost use Rattle.tx_safety.specs.Checked.{IsChecked};

use cpp_tree::Program;

/// A program in which no block and no function that has to be safe has an unsafe part.
#[derive(Drop)]
pub struct SafeProgram {
    pub(crate) program: Program,
    /// For each function of each unit the place from which on it is safe.
    pub(crate) marks: Vec<Vec<Option<u32>>>,
    ghost known: { IsChecked program marks.items } by { Prim.hlevel props },
}
