//! Objects: what a unit is compiled to. A name is a number of the object's name list.
use crate::Body;

/// The most bytes of a name, and of the name of a source.
pub const LONGEST_NAME: u32 = 1_048_576;

/// What a unit is compiled to.
#[derive(Drop)]
pub struct Object {
    /// 1 or 2. An object of version 1 has no source and no line rows.
    pub version: u32,
    /// Strictly ascending by bytes.
    pub names: Vec<Vec<u8>>,
    /// The name of the unit's source.
    pub source: Option<Vec<u8>>,
    /// Strictly ascending by name.
    pub classes: Vec<ObjClass>,
    /// Strictly ascending by symbol.
    pub globals: Vec<ObjGlobal>,
    /// Strictly ascending by symbol.
    pub funcs: Vec<ObjFunc>,
}

/// A class that the unit defines.
#[derive(Drop)]
pub struct ObjClass {
    pub name: u32,
    /// In bytes, as `align`.
    pub size: u32,
    pub align: u32,
    /// The base's name plus 1, or 0.
    pub base: u32,
    /// The offset of the class pointer, or 4,294,967,295.
    pub pointer: u32,
    /// The definition's text, a name.
    pub text: u32,
    pub members: Vec<ObjMember>,
    /// Of each virtual function its symbol plus 1, or 0 where it is pure.
    pub slots: Vec<u32>,
}

/// A member of a class.
#[derive(Clone, Copy, PartialEq, Eq, Debug)]
pub struct ObjMember {
    pub name: u32,
    pub offset: u32,
    /// The spelling of its type, a name.
    pub ty: u32,
}

/// A global that the unit defines or refers to.
#[derive(Drop)]
pub struct ObjGlobal {
    pub symbol: u32,
    /// The spelling of its type, a name.
    pub ty: u32,
    /// 0 external, 1 internal (C++14 3.5).
    pub linkage: u8,
    /// 0 or 1.
    pub defined: u8,
    /// In bytes.
    pub size: u32,
    /// The first bytes that are not zero, strictly ascending by offset.
    pub cells: Vec<ObjCell>,
}

/// A number or an address among the first bytes of a global.
#[derive(Clone, Copy, PartialEq, Eq, Debug)]
pub struct ObjCell {
    pub offset: u32,
    /// In bytes: 1, 2, 4 or 8.
    pub size: u8,
    /// 0 a number, 1 the address of a global plus `value`, 2 the address of a function.
    pub what: u8,
    pub value: u64,
    /// The symbol plus 1 of the global or function, or 0.
    pub symbol: u32,
}

/// A function that the unit defines or refers to.
#[derive(Drop)]
pub struct ObjFunc {
    pub symbol: u32,
    /// The spelling of its type without safety, a name.
    pub ty: u32,
    /// 0 external, 1 internal, 2 inline (C++14 3.5, 7.1.2).
    pub linkage: u8,
    /// Bit 0 defined, bit 1 has a safe body, bit 2 is wanted safe, bit 3 is noexcept.
    pub flags: u8,
    /// Of an inline definition its text, a name, plus 1; else 0.
    pub text: u32,
    /// The frame's size in bytes.
    pub frame: u32,
    pub plain: Option<Body>,
    /// What it runs in a transaction.
    pub safe: Option<Body>,
}
