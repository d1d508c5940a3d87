//! Words as terms over variables, and exceptions.

use cpp_tree::below::{BinOp, IntKind};

/// A word of a function that runs.
#[derive(Clone, Copy)]
#[cycle(terms)]
pub enum Term<'a> {
    Number(u64),
    Variable(u32),
    /// The address at this offset in the frame.
    Local(u64),
    /// The address of a global of the unit.
    Global(u32),
    /// The address of a function of the unit.
    Function(u32),
    /// A class address.
    Table(u32),
    /// The address of the function in a slot, of the class at this address.
    SlotFunction {
        class: u32,
        slot: u32,
        address: &'a Term<'a>,
    },
    /// A sum of addresses.
    Sum(&'a Term<'a>, &'a Term<'a>),
    /// A product of addresses.
    Product(&'a Term<'a>, &'a Term<'a>),
    /// One less, of what is not 0.
    Before(&'a Term<'a>),
    LowByte(&'a Term<'a>),
    Converted(IntKind, &'a Term<'a>),
    /// What an operator that does not trap gives.
    Applied {
        op: BinOp,
        kind: IntKind,
        left: &'a Term<'a>,
        right: &'a Term<'a>,
    },
    /// Bytes of an exception, as a number.
    Field {
        exception: &'a Exception<'a>,
        offset: u32,
        size: u32,
    },
}

/// An exception: one that is not known, or one of the type with this number in the list of types of exceptions, with these
/// words.
#[derive(Clone, Copy)]
#[cycle(terms)]
pub enum Exception<'a> {
    Unknown(u32),
    Made(u32, Puts<'a>),
}

/// The words that were put into an exception, the last one first.
#[derive(Clone, Copy)]
#[cycle(terms)]
pub enum Puts<'a> {
    Untouched,
    Put {
        offset: u32,
        size: u32,
        word: &'a Term<'a>,
        others: &'a Puts<'a>,
    },
}
