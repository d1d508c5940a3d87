// Lists of nodes and of operands.

ghost use Rattle.std.specs.Prelude.{◌≡◌, ◌∷◌, [], IfOk, MatchOption, drop, slice_get};

use elab_init::below::{Operand, TNodeId};
use elab_init::keep;
use std::alloc::{AllocError, Global};

/// A list of one node.
pub fn one_of(alloc: Global, id: TNodeId) -> Result<Vec<TNodeId>, AllocError>
    ensures { IfOk result (λ ids. ids.items ≡ id ∷ []) }
{
    let mut ids = Vec::new(alloc);
    keep(&mut ids, id)?;
    Ok(ids)
}

/// The first operand.
pub fn first_operand(os: &[Operand]) -> Option<Operand>
    ensures { MatchOption result (os.now ≡ []) (λ o. os.now ≡ o ∷ drop 1 os.now) }
{
    if os.is_empty() { None } else { Some(os[0]) }
}

/// The operand with an index.
pub fn operand_at(os: &[Operand], i: usize) -> Option<Operand>
    ensures { result ≡ slice_get os.now i }
{
    let o = os.get(i)?;
    Some(*o)
}
