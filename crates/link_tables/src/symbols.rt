//! Symbols of definitions.

/// The symbol of a definition.
#[derive(Clone, Copy)]
pub struct Symbol {
    /// Where its name stands among the names of all objects, one object after another.
    pub place: u32,
    /// Where its name stands among all names in ascending order.
    pub rank: u32,
    /// Only its own object sees it (C++14 3.5).
    pub internal: bool,
}

/// A definition with the number that its symbol stands for: of a function, or the offset of a global.
#[derive(Clone, Copy)]
pub struct Numbered {
    pub symbol: Symbol,
    pub number: u32,
}
