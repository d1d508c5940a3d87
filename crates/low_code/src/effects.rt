//! How many operands an instruction takes and leaves.

ghost use Rattle.std.specs.Prelude.{◌≡◌};
ghost use Rattle.low_code.specs.Effects.{takes_of, leaves_of, ends as ends_code, in_transaction as transaction_instr};

use tx_code::Instr;

/// How many operands an instruction takes, and how many it leaves. A call's are not told here.
pub fn effect(instr: Instr) -> (u32, u32)
    ensures takes { result.0 ≡ takes_of instr }
    ensures leaves { result.1 ≡ leaves_of instr }
{
    match instr {
        Instr::Push(_)
        | Instr::FrameAddr(_)
        | Instr::GlobalAddr(_)
        | Instr::FuncAddr(_)
        | Instr::ClassAddr(_)
        | Instr::Inp
        | Instr::GetException { .. } => (0, 1),
        Instr::Dup => (1, 2),
        Instr::Pop | Instr::JumpZero(_) | Instr::Join | Instr::PutException { .. } => (1, 0),
        Instr::Swap => (2, 2),
        Instr::Over => (2, 3),
        Instr::Load(_)
        | Instr::TLoad(_)
        | Instr::VLoad(_)
        | Instr::Neg(_)
        | Instr::Conv { .. }
        | Instr::Slot { .. }
        | Instr::Out => (1, 1),
        Instr::Store(_) | Instr::TStore(_) | Instr::VStore(_) => (2, 0),
        Instr::Bin { .. } | Instr::Spawn => (2, 1),
        _ => (0, 0),
    }
}

/// Whether no instruction follows it.
pub fn ends(instr: Instr) -> bool
    ensures { result ≡ ends_code instr }
{
    matches!(
        instr,
        Instr::Jump(_)
            | Instr::Ret(_)
            | Instr::Throw
            | Instr::Rethrow
            | Instr::Resume
            | Instr::Abort
    )
}

/// What it is in a safe body and where an atomic block is open.
pub fn in_transaction(instr: Instr) -> Instr
    ensures { result ≡ transaction_instr instr }
{
    match instr {
        Instr::Load(kind) => Instr::TLoad(kind),
        Instr::Store(kind) => Instr::TStore(kind),
        Instr::Call { func, words } => Instr::TCall { func, words },
        Instr::CallIndirect { ty, words } => Instr::TCallIndirect { ty, words },
        _ => instr,
    }
}
