//! The kinds of integers with their ranges, the operators on two integers, and why an operator has no value.

/// An integer type of the language (C++14 3.9.1).
#[derive(Clone, Copy, Debug, PartialEq, Eq)]
pub enum IntKind {
    Bool,
    /// Plain `char`, which is signed.
    Char,
    SChar,
    UChar,
    Short,
    UShort,
    Int,
    UInt,
    Long,
    ULong,
    LLong,
    ULLong,
}

/// Why an operator has no value: what C++14 leaves undefined (5/4, 5.6/4, 5.8/1 and 5.8/2) ends the program.
#[derive(Clone, Copy, Debug, PartialEq, Eq)]
pub enum ArithTrap {
    /// The value is none of a signed kind's, or a number that may not be shifted left was.
    Overflow,
    DivideByZero,
    /// A shift's count is below 0, or not below the width.
    ShiftRange,
}

/// An operator on two integers of one kind (C++14 5.6 to 5.13); a shift's count may be of another.
#[derive(Clone, Copy, Debug, PartialEq, Eq)]
pub enum BinOp {
    Add,
    Sub,
    Mul,
    Div,
    Rem,
    Shl,
    Shr,
    And,
    Xor,
    Or,
    Lt,
    Gt,
    Le,
    Ge,
    Eq,
    Ne,
}

impl IntKind {
    ghost use Rattle.std.specs.Prelude.{◌≡◌, ◌↔◌, IsTrue, pos};
    ghost use Rattle.tx_ints.specs.Integers.{width, is_signed, least, greatest, modulus, InRange, is_in_range};

    /// How many bits hold a value and its sign; `Bool` has one.
    pub fn width(self) -> u32
        ensures { result ≡ width self }
    {
        match self {
            IntKind::Bool => 1,
            IntKind::Char | IntKind::SChar | IntKind::UChar => 8,
            IntKind::Short | IntKind::UShort => 16,
            IntKind::Int | IntKind::UInt => 32,
            IntKind::Long | IntKind::ULong | IntKind::LLong | IntKind::ULLong => 64,
        }
    }

    /// Whether the kind has negative numbers.
    pub fn is_signed(self) -> bool
        ensures { result ≡ is_signed self }
    {
        match self {
            IntKind::Char | IntKind::SChar | IntKind::Short => true,
            IntKind::Int | IntKind::Long | IntKind::LLong => true,
            IntKind::Bool | IntKind::UChar | IntKind::UShort => false,
            IntKind::UInt | IntKind::ULong | IntKind::ULLong => false,
        }
    }

    /// The least number of the kind.
    pub fn least(self) -> i128
        ensures { result ≡ least self }
    {
        match self {
            IntKind::Char | IntKind::SChar => -0x80,
            IntKind::Short => -0x8000,
            IntKind::Int => -0x8000_0000,
            IntKind::Long | IntKind::LLong => -0x8000_0000_0000_0000,
            IntKind::Bool | IntKind::UChar | IntKind::UShort => 0,
            IntKind::UInt | IntKind::ULong | IntKind::ULLong => 0,
        }
    }

    /// The greatest number of the kind.
    pub fn greatest(self) -> i128
        ensures { result ≡ greatest self }
    {
        match self {
            IntKind::Bool => 1,
            IntKind::Char | IntKind::SChar => 0x7f,
            IntKind::UChar => 0xff,
            IntKind::Short => 0x7fff,
            IntKind::UShort => 0xffff,
            IntKind::Int => 0x7fff_ffff,
            IntKind::UInt => 0xffff_ffff,
            IntKind::Long | IntKind::LLong => 0x7fff_ffff_ffff_ffff,
            IntKind::ULong | IntKind::ULLong => 0xffff_ffff_ffff_ffff,
        }
    }

    /// How many numbers the kind has: 2 to the power of its width.
    pub fn modulus(self) -> i128
        ensures { result ≡ pos (modulus self) }
    {
        match self {
            IntKind::Bool => 0x2,
            IntKind::Char | IntKind::SChar | IntKind::UChar => 0x100,
            IntKind::Short | IntKind::UShort => 0x1_0000,
            IntKind::Int | IntKind::UInt => 0x1_0000_0000,
            IntKind::Long | IntKind::ULong => 0x1_0000_0000_0000_0000,
            IntKind::LLong | IntKind::ULLong => 0x1_0000_0000_0000_0000,
        }
    }

    /// Whether the number is one of the kind's.
    pub fn has(self, v: i128) -> bool
        ensures value { result ≡ is_in_range self v }
        ensures fact { IsTrue result ↔ InRange self v }
    {
        self.least() <= v && v <= self.greatest()
    }
}
