//! Records made of a word and numbers.
ghost use Rattle.std.specs.Prelude.{◌≡◌};
ghost use Rattle.assembly_text.specs.Reading as spec;

use crate::key::{Key, key_of};
use crate::line::{ClassHead, FuncHead, GlobalHead, Record};
use object_bytes::Op;
use tx_code::{Instr, LineRow, ObjCell, ObjMember, Row};

fn word(number: u64) -> Option<u32>
    ensures { result ≡ spec.word number }
{
    if number < 0x1_0000_0000 {
        Some(number as u32)
    } else {
        None
    }
}

fn byte(number: u64) -> Option<u8>
    ensures { result ≡ spec.byte number }
{
    if number < 0x100 {
        Some(number as u8)
    } else {
        None
    }
}

/// The record, if there are no numbers.
fn alone(numbers: &[u64], made: Record) -> Option<Record>
    ensures { result ≡ spec.alone numbers.now made }
{
    match numbers {
        [] => Some(made),
        _ => None,
    }
}

fn one_long(numbers: &[u64]) -> Option<u64>
    ensures { result ≡ spec.one_long numbers.now }
{
    match numbers {
        [number] => Some(*number),
        _ => None,
    }
}

fn one_word(numbers: &[u64]) -> Option<u32>
    ensures { result ≡ spec.one_word numbers.now }
{
    match numbers {
        [number] => word(*number),
        _ => None,
    }
}

fn one_byte(numbers: &[u64]) -> Option<u8>
    ensures { result ≡ spec.one_byte numbers.now }
{
    match numbers {
        [number] => byte(*number),
        _ => None,
    }
}

fn two_bytes(numbers: &[u64]) -> Option<(u8, u8)>
    ensures { result ≡ spec.two_bytes numbers.now }
{
    match numbers {
        [first, second] => {
            let first = byte(*first)?;
            let second = byte(*second)?;
            Some((first, second))
        }
        _ => None,
    }
}

fn word_and_byte(numbers: &[u64]) -> Option<(u32, u8)>
    ensures { result ≡ spec.word_and_byte numbers.now }
{
    match numbers {
        [first, second] => {
            let first = word(*first)?;
            let second = byte(*second)?;
            Some((first, second))
        }
        _ => None,
    }
}

fn two_words(numbers: &[u64]) -> Option<(u32, u32)>
    ensures { result ≡ spec.two_words numbers.now }
{
    match numbers {
        [first, second] => {
            let first = word(*first)?;
            let second = word(*second)?;
            Some((first, second))
        }
        _ => None,
    }
}

fn class_head(numbers: &[u64]) -> Option<Record>
    ensures { result ≡ spec.class_head numbers.now }
{
    match numbers {
        [name, size, align, base, pointer, text] => {
            Some(Record::Class(ClassHead {
                name: word(*name)?,
                size: word(*size)?,
                align: word(*align)?,
                base: word(*base)?,
                pointer: word(*pointer)?,
                text: word(*text)?,
            }))
        }
        _ => None,
    }
}

fn global_head(numbers: &[u64]) -> Option<Record>
    ensures { result ≡ spec.global_head numbers.now }
{
    match numbers {
        [symbol, ty, linkage, defined, size] => {
            Some(Record::Global(GlobalHead {
                symbol: word(*symbol)?,
                ty: word(*ty)?,
                linkage: byte(*linkage)?,
                defined: byte(*defined)?,
                size: word(*size)?,
            }))
        }
        _ => None,
    }
}

fn func_head(numbers: &[u64]) -> Option<Record>
    ensures { result ≡ spec.func_head numbers.now }
{
    match numbers {
        [symbol, ty, linkage, flags, text, frame] => {
            Some(Record::Func(FuncHead {
                symbol: word(*symbol)?,
                ty: word(*ty)?,
                linkage: byte(*linkage)?,
                flags: byte(*flags)?,
                text: word(*text)?,
                frame: word(*frame)?,
            }))
        }
        _ => None,
    }
}

fn member_of(numbers: &[u64]) -> Option<Record>
    ensures { result ≡ spec.member_of numbers.now }
{
    match numbers {
        [name, offset, ty] => {
            Some(Record::Member(ObjMember {
                name: word(*name)?,
                offset: word(*offset)?,
                ty: word(*ty)?,
            }))
        }
        _ => None,
    }
}

fn cell_of(numbers: &[u64]) -> Option<Record>
    ensures { result ≡ spec.cell_of numbers.now }
{
    match numbers {
        [offset, size, what, value, symbol] => {
            Some(Record::Cell(ObjCell {
                offset: word(*offset)?,
                size: byte(*size)?,
                what: byte(*what)?,
                value: *value,
                symbol: word(*symbol)?,
            }))
        }
        _ => None,
    }
}

fn row_of(numbers: &[u64]) -> Option<Record>
    ensures { result ≡ spec.row_of numbers.now }
{
    match numbers {
        [from, to, target, what, ty, depth] => {
            Some(Record::Row(Row {
                from: word(*from)?,
                to: word(*to)?,
                target: word(*target)?,
                what: byte(*what)?,
                ty: word(*ty)?,
                depth: word(*depth)?,
            }))
        }
        _ => None,
    }
}

fn line_of(numbers: &[u64]) -> Option<Record>
    ensures { result ≡ spec.line_of numbers.now }
{
    match numbers {
        [from, line] => {
            Some(Record::Line(LineRow {
                from: word(*from)?,
                line: word(*line)?,
            }))
        }
        _ => None,
    }
}

/// The record of a mnemonic, which also begins lines of entries where it is `class`, `global`, `func` or `slot`.
#[tactic(auto, unfolding(crate::specs::Reading::made_by_op))]
fn made_by_op(op: Op, numbers: &[u64]) -> Option<Record>
    ensures { result ≡ spec.made_by_op op numbers.now }
{
    match op {
        Op::Push => {
            let value = one_long(numbers)?;
            Some(Record::Code(Instr::Push(value)))
        }
        Op::Dup => alone(numbers, Record::Code(Instr::Dup)),
        Op::Pop => alone(numbers, Record::Code(Instr::Pop)),
        Op::Swap => alone(numbers, Record::Code(Instr::Swap)),
        Op::FrameAddr => {
            let number = one_word(numbers)?;
            Some(Record::Code(Instr::FrameAddr(number)))
        }
        Op::GlobalAddr => match one_word(numbers) {
            Some(symbol) => Some(Record::Code(Instr::GlobalAddr(symbol))),
            None => global_head(numbers),
        },
        Op::FuncAddr => match one_word(numbers) {
            Some(symbol) => Some(Record::Code(Instr::FuncAddr(symbol))),
            None => func_head(numbers),
        },
        Op::ClassAddr => match one_word(numbers) {
            Some(symbol) => Some(Record::Code(Instr::ClassAddr(symbol))),
            None => class_head(numbers),
        },
        Op::Load => {
            let byte = one_byte(numbers)?;
            Some(Record::Code(Instr::Load(byte)))
        }
        Op::Store => {
            let byte = one_byte(numbers)?;
            Some(Record::Code(Instr::Store(byte)))
        }
        Op::TLoad => {
            let byte = one_byte(numbers)?;
            Some(Record::Code(Instr::TLoad(byte)))
        }
        Op::TStore => {
            let byte = one_byte(numbers)?;
            Some(Record::Code(Instr::TStore(byte)))
        }
        Op::VLoad => {
            let byte = one_byte(numbers)?;
            Some(Record::Code(Instr::VLoad(byte)))
        }
        Op::VStore => {
            let byte = one_byte(numbers)?;
            Some(Record::Code(Instr::VStore(byte)))
        }
        Op::Bin => {
            let (op, kind) = two_bytes(numbers)?;
            Some(Record::Code(Instr::Bin { op, kind }))
        }
        Op::Neg => {
            let byte = one_byte(numbers)?;
            Some(Record::Code(Instr::Neg(byte)))
        }
        Op::Conv => {
            let (from, to) = two_bytes(numbers)?;
            Some(Record::Code(Instr::Conv { from, to }))
        }
        Op::Jump => {
            let number = one_word(numbers)?;
            Some(Record::Code(Instr::Jump(number)))
        }
        Op::JumpZero => {
            let number = one_word(numbers)?;
            Some(Record::Code(Instr::JumpZero(number)))
        }
        Op::Call => {
            let (func, words) = word_and_byte(numbers)?;
            Some(Record::Code(Instr::Call { func, words }))
        }
        Op::TCall => {
            let (func, words) = word_and_byte(numbers)?;
            Some(Record::Code(Instr::TCall { func, words }))
        }
        Op::CallIndirect => {
            let (ty, words) = word_and_byte(numbers)?;
            Some(Record::Code(Instr::CallIndirect { ty, words }))
        }
        Op::TCallIndirect => {
            let (ty, words) = word_and_byte(numbers)?;
            Some(Record::Code(Instr::TCallIndirect { ty, words }))
        }
        Op::Slot => match one_word(numbers) {
            Some(slot) => Some(Record::Slot(slot)),
            None => {
                let (class, slot) = two_words(numbers)?;
                Some(Record::Code(Instr::Slot { class, slot }))
            }
        },
        Op::Ret => {
            let byte = one_byte(numbers)?;
            Some(Record::Code(Instr::Ret(byte)))
        }
        Op::Begin => {
            let byte = one_byte(numbers)?;
            Some(Record::Code(Instr::Begin(byte)))
        }
        Op::End => alone(numbers, Record::End),
        Op::BeginSync => alone(numbers, Record::Code(Instr::BeginSync)),
        Op::EndSync => alone(numbers, Record::Code(Instr::EndSync)),
        Op::Out => alone(numbers, Record::Code(Instr::Out)),
        Op::Inp => alone(numbers, Record::Code(Instr::Inp)),
        Op::Spawn => alone(numbers, Record::Code(Instr::Spawn)),
        Op::Join => alone(numbers, Record::Code(Instr::Join)),
        Op::Abort => alone(numbers, Record::Code(Instr::Abort)),
        Op::NewException => {
            let number = one_word(numbers)?;
            Some(Record::Code(Instr::NewException(number)))
        }
        Op::PutException => {
            let (offset, kind) = two_bytes(numbers)?;
            Some(Record::Code(Instr::PutException { offset, kind }))
        }
        Op::Throw => alone(numbers, Record::Code(Instr::Throw)),
        Op::Rethrow => alone(numbers, Record::Code(Instr::Rethrow)),
        Op::GetException => {
            let (offset, kind) = two_bytes(numbers)?;
            Some(Record::Code(Instr::GetException { offset, kind }))
        }
        Op::EndHandler => alone(numbers, Record::Code(Instr::EndHandler)),
        Op::Resume => alone(numbers, Record::Code(Instr::Resume)),
        Op::Over => alone(numbers, Record::Code(Instr::Over)),
    }
}

#[tactic(auto, unfolding(crate::specs::Reading::made))]
fn made(key: Key, numbers: &[u64]) -> Option<Record>
    ensures { result ≡ spec.made key numbers.now }
{
    match key {
        Key::Txob => {
            let version = one_word(numbers)?;
            Some(Record::Txob(version))
        }
        Key::Source => {
            let number = one_word(numbers)?;
            Some(Record::Source(number))
        }
        Key::Member => member_of(numbers),
        Key::Cell => cell_of(numbers),
        Key::Plain => alone(numbers, Record::Plain),
        Key::Safe => alone(numbers, Record::Safe),
        Key::Row => row_of(numbers),
        Key::Line => line_of(numbers),
        Key::Op(op) => made_by_op(op, numbers),
    }
}

/// The record that a word and numbers make.
#[tactic(auto, unfolding(crate::specs::Reading::record_by))]
pub(crate) fn record_by(word: &[u8], numbers: &[u64]) -> Option<Record>
    ensures { result ≡ spec.record_by word.now numbers.now }
{
    let key = key_of(word)?;
    made(key, numbers)
}
