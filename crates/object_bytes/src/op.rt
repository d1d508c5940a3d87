//! Op bytes.
ghost use Rattle.std.specs.Prelude.{◌≡◌, slice_get};
ghost use Rattle.object_bytes.specs.Instructions.{ops};

/// The op of an instruction: its variants stand in the order of the op bytes, from 0 on, and have the names of those of
/// `Instr`.
#[derive(Clone, Copy, PartialEq, Eq, Debug)]
pub enum Op {
    Push,
    Dup,
    Pop,
    Swap,
    FrameAddr,
    GlobalAddr,
    FuncAddr,
    ClassAddr,
    Load,
    Store,
    TLoad,
    TStore,
    VLoad,
    VStore,
    Bin,
    Neg,
    Conv,
    Jump,
    JumpZero,
    Call,
    TCall,
    CallIndirect,
    TCallIndirect,
    Slot,
    Ret,
    Begin,
    End,
    BeginSync,
    EndSync,
    Out,
    Inp,
    Spawn,
    Join,
    Abort,
    NewException,
    PutException,
    Throw,
    Rethrow,
    GetException,
    EndHandler,
    Resume,
    Over,
}

/// In the order of their op bytes.
const OPS: [Op; 42] = [
    Op::Push,
    Op::Dup,
    Op::Pop,
    Op::Swap,
    Op::FrameAddr,
    Op::GlobalAddr,
    Op::FuncAddr,
    Op::ClassAddr,
    Op::Load,
    Op::Store,
    Op::TLoad,
    Op::TStore,
    Op::VLoad,
    Op::VStore,
    Op::Bin,
    Op::Neg,
    Op::Conv,
    Op::Jump,
    Op::JumpZero,
    Op::Call,
    Op::TCall,
    Op::CallIndirect,
    Op::TCallIndirect,
    Op::Slot,
    Op::Ret,
    Op::Begin,
    Op::End,
    Op::BeginSync,
    Op::EndSync,
    Op::Out,
    Op::Inp,
    Op::Spawn,
    Op::Join,
    Op::Abort,
    Op::NewException,
    Op::PutException,
    Op::Throw,
    Op::Rethrow,
    Op::GetException,
    Op::EndHandler,
    Op::Resume,
    Op::Over,
];

fn op_in(table: &[Op], byte: u8) -> Option<Op>
    ensures { result ≡ slice_get table.now byte }
{
    table.get(byte as usize).copied()
}

/// The op of an op byte.
pub fn op_of(byte: u8) -> Option<Op>
    ensures { result ≡ slice_get ops byte }
{
    op_in(&OPS, byte)
}
