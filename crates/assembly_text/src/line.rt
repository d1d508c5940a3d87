//! Lines.
use tx_code::{Instr, LineRow, ObjCell, ObjMember, Row};

/// The line that begins a class.
#[derive(Clone, Copy, PartialEq, Eq, Debug)]
pub struct ClassHead {
    pub name: u32,
    pub size: u32,
    pub align: u32,
    pub base: u32,
    pub pointer: u32,
    pub text: u32,
}

/// The line that begins a global.
#[derive(Clone, Copy, PartialEq, Eq, Debug)]
pub struct GlobalHead {
    pub symbol: u32,
    pub ty: u32,
    pub linkage: u8,
    pub defined: u8,
    pub size: u32,
}

/// The line that begins a function.
#[derive(Clone, Copy, PartialEq, Eq, Debug)]
pub struct FuncHead {
    pub symbol: u32,
    pub ty: u32,
    pub linkage: u8,
    pub flags: u8,
    pub text: u32,
    pub frame: u32,
}

/// A line of a word and numbers.
#[derive(Clone, Copy, PartialEq, Eq, Debug)]
pub enum Record {
    Txob(u32),
    Source(u32),
    Class(ClassHead),
    Member(ObjMember),
    Slot(u32),
    Global(GlobalHead),
    Cell(ObjCell),
    Func(FuncHead),
    Plain,
    Safe,
    /// Any instruction but `end`.
    Code(Instr),
    Row(Row),
    Line(LineRow),
    /// The last line, or the instruction `end` in a body.
    End,
}

/// A line.
#[derive(Drop)]
pub enum Line {
    Name(Vec<u8>),
    Of(Record),
}
