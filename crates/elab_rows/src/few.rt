// Operands by their number.

ghost use Rattle.std.specs.Prelude.{◌≡◌, ℕ, true, false};
ghost use Rattle.elab_casts.specs.elab_ctx.Operands.{are_in};
ghost use Rattle.elab_rows.specs.Few.{HasOperands, AreWithin};

use elab_casts::below::{At, Operand, TNodeId};

/// The operands of a form, as far as forms with a fixed number of them ask for them.
#[derive(Clone, Copy)]
pub enum Few {
    None,
    One(Operand),
    Two(Operand, Operand),
    Three(Operand, Operand, Operand),
    Many,
}

/// Operands by their number.
pub fn counted(os: &[Operand]) -> Few
    ensures are { HasOperands result os.now }
    ensures within { (n : ℕ) → are_in n os.now ≡ true → AreWithin n result }
{
    let count = os.len();
    if count == 0 {
        return Few::None;
    }
    if count == 1 {
        return Few::One(os[0]);
    }
    if count == 2 {
        return Few::Two(os[0], os[1]);
    }
    if count == 3 {
        return Few::Three(os[0], os[1], os[2]);
    }
    Few::Many
}

/// A node as an operand that is no literal 0.
pub fn operand(at: At, id: TNodeId) -> Operand
    ensures { result ≡ record { id = id; at = at; zero = false } }
{
    Operand {
        id,
        at,
        zero: false,
    }
}
