//! Bodies of functions: instructions, unwind rows and lines.
use crate::Instr;

/// An unwind row: what an exception does that leaves an instruction with an index from `from` to below `to`. Rows are
/// tried in order.
#[derive(Clone, Copy, PartialEq, Eq, Debug)]
pub struct Row {
    pub from: u32,
    pub to: u32,
    /// The index at which the thread goes on.
    pub target: u32,
    /// 0 a cleanup, 1 a handler of one type, 2 a handler of all (C++14 15.3), 3, 4 and 5 the edge of an atomic block that
    /// is noexcept, commit or cancel (the TS, [stmt.tx]), 6 the edge of a synchronized block.
    pub what: u8,
    /// The type that a row of `what` 1 handles.
    pub ty: u32,
    /// How many operands are kept.
    pub depth: u32,
}

/// From this index on the instructions stem from this line of the source, as far as the next line row.
#[derive(Clone, Copy, PartialEq, Eq, Debug)]
pub struct LineRow {
    pub from: u32,
    pub line: u32,
}

/// A body of a function.
#[derive(Drop)]
pub struct Body {
    pub code: Vec<Instr>,
    pub rows: Vec<Row>,
    /// Empty in objects of version 1.
    pub lines: Vec<LineRow>,
}
