//! Instructions.
ghost use Rattle.std.specs.Prelude.{◌≡◌};
ghost use Rattle.object_file.specs.Reading.{Gives};
ghost use Rattle.object_bytes.specs.Instructions.{op, operands, instr};

use crate::fault::ReadError;
use crate::numbers::{name_at, u8_at, u32_at, u64_at, wrong};
use object_bytes::{Op, op_of};
use tx_code::Instr;

#[tactic(auto, unfolding(object_bytes::specs::Decoder::such_that, object_bytes::specs::Decoder::bind, object_bytes::specs::Decoder::done, object_bytes::specs::Decoder::fail, object_bytes::specs::Instructions::op))]
fn op_at(bytes: &[u8]) -> Result<(Op, &[u8]), ReadError>
    ensures { Gives (λ x. (x.0, x.1.now)) result (op bytes.now) }
{
    let (byte, rest) = u8_at(bytes)?;
    match op_of(byte) {
        Some(op) => Ok((op, rest)),
        None => Err(wrong(bytes)),
    }
}

#[tactic(auto, unfolding(object_bytes::specs::Decoder::bind, object_bytes::specs::Decoder::done, object_bytes::specs::Instructions::operands))]
fn operands_at(names: usize, op: Op, bytes: &[u8]) -> Result<(Instr, &[u8]), ReadError>
    ensures { Gives (λ x. (x.0, x.1.now)) result (operands names op bytes.now) }
{
    match op {
        Op::Push => {
            let (value, rest) = u64_at(bytes)?;
            Ok((Instr::Push(value), rest))
        }
        Op::Dup => Ok((Instr::Dup, bytes)),
        Op::Pop => Ok((Instr::Pop, bytes)),
        Op::Swap => Ok((Instr::Swap, bytes)),
        Op::FrameAddr => {
            let (offset, rest) = u32_at(bytes)?;
            Ok((Instr::FrameAddr(offset), rest))
        }
        Op::GlobalAddr => {
            let (symbol, rest) = name_at(names, bytes)?;
            Ok((Instr::GlobalAddr(symbol), rest))
        }
        Op::FuncAddr => {
            let (symbol, rest) = name_at(names, bytes)?;
            Ok((Instr::FuncAddr(symbol), rest))
        }
        Op::ClassAddr => {
            let (symbol, rest) = name_at(names, bytes)?;
            Ok((Instr::ClassAddr(symbol), rest))
        }
        Op::Load => {
            let (kind, rest) = u8_at(bytes)?;
            Ok((Instr::Load(kind), rest))
        }
        Op::Store => {
            let (kind, rest) = u8_at(bytes)?;
            Ok((Instr::Store(kind), rest))
        }
        Op::TLoad => {
            let (kind, rest) = u8_at(bytes)?;
            Ok((Instr::TLoad(kind), rest))
        }
        Op::TStore => {
            let (kind, rest) = u8_at(bytes)?;
            Ok((Instr::TStore(kind), rest))
        }
        Op::VLoad => {
            let (kind, rest) = u8_at(bytes)?;
            Ok((Instr::VLoad(kind), rest))
        }
        Op::VStore => {
            let (kind, rest) = u8_at(bytes)?;
            Ok((Instr::VStore(kind), rest))
        }
        Op::Bin => {
            let (op, rest) = u8_at(bytes)?;
            let (kind, rest) = u8_at(rest)?;
            Ok((Instr::Bin { op, kind }, rest))
        }
        Op::Neg => {
            let (kind, rest) = u8_at(bytes)?;
            Ok((Instr::Neg(kind), rest))
        }
        Op::Conv => {
            let (from, rest) = u8_at(bytes)?;
            let (to, rest) = u8_at(rest)?;
            Ok((Instr::Conv { from, to }, rest))
        }
        Op::Jump => {
            let (target, rest) = u32_at(bytes)?;
            Ok((Instr::Jump(target), rest))
        }
        Op::JumpZero => {
            let (target, rest) = u32_at(bytes)?;
            Ok((Instr::JumpZero(target), rest))
        }
        Op::Call => {
            let (func, rest) = name_at(names, bytes)?;
            let (words, rest) = u8_at(rest)?;
            Ok((Instr::Call { func, words }, rest))
        }
        Op::TCall => {
            let (func, rest) = name_at(names, bytes)?;
            let (words, rest) = u8_at(rest)?;
            Ok((Instr::TCall { func, words }, rest))
        }
        Op::CallIndirect => {
            let (ty, rest) = name_at(names, bytes)?;
            let (words, rest) = u8_at(rest)?;
            Ok((Instr::CallIndirect { ty, words }, rest))
        }
        Op::TCallIndirect => {
            let (ty, rest) = name_at(names, bytes)?;
            let (words, rest) = u8_at(rest)?;
            Ok((Instr::TCallIndirect { ty, words }, rest))
        }
        Op::Slot => {
            let (class, rest) = name_at(names, bytes)?;
            let (slot, rest) = u32_at(rest)?;
            Ok((Instr::Slot { class, slot }, rest))
        }
        Op::Ret => {
            let (words, rest) = u8_at(bytes)?;
            Ok((Instr::Ret(words), rest))
        }
        Op::Begin => {
            let (kind, rest) = u8_at(bytes)?;
            Ok((Instr::Begin(kind), rest))
        }
        Op::End => Ok((Instr::End, bytes)),
        Op::BeginSync => Ok((Instr::BeginSync, bytes)),
        Op::EndSync => Ok((Instr::EndSync, bytes)),
        Op::Out => Ok((Instr::Out, bytes)),
        Op::Inp => Ok((Instr::Inp, bytes)),
        Op::Spawn => Ok((Instr::Spawn, bytes)),
        Op::Join => Ok((Instr::Join, bytes)),
        Op::Abort => Ok((Instr::Abort, bytes)),
        Op::NewException => {
            let (ty, rest) = name_at(names, bytes)?;
            Ok((Instr::NewException(ty), rest))
        }
        Op::PutException => {
            let (offset, rest) = u8_at(bytes)?;
            let (kind, rest) = u8_at(rest)?;
            Ok((Instr::PutException { offset, kind }, rest))
        }
        Op::Throw => Ok((Instr::Throw, bytes)),
        Op::Rethrow => Ok((Instr::Rethrow, bytes)),
        Op::GetException => {
            let (offset, rest) = u8_at(bytes)?;
            let (kind, rest) = u8_at(rest)?;
            Ok((Instr::GetException { offset, kind }, rest))
        }
        Op::EndHandler => Ok((Instr::EndHandler, bytes)),
        Op::Resume => Ok((Instr::Resume, bytes)),
        Op::Over => Ok((Instr::Over, bytes)),
    }
}

#[tactic(auto, unfolding(object_bytes::specs::Decoder::bind, object_bytes::specs::Instructions::instr))]
pub(crate) fn instr_at(names: usize, bytes: &[u8]) -> Result<(Instr, &[u8]), ReadError>
    ensures { Gives (λ x. (x.0, x.1.now)) result (instr names bytes.now) }
{
    let (op, rest) = op_at(bytes)?;
    operands_at(names, op, rest)
}
