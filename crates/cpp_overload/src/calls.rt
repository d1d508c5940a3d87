// A call: its candidates, its arguments, and why none may be meant.

use cpp_types::{Cat, FnTy, Ty};

/// A function that a call may mean: its type and, where it has an object, the type of the
/// parameter that stands for the object.
#[derive(Drop)]
pub struct Cand {
    pub ty: FnTy,
    pub this: Option<Ty>,
}

/// An argument: its type, whether it stands for an object, and whether it is a literal 0.
#[derive(Drop)]
pub struct Arg {
    pub ty: Ty,
    pub cat: Cat,
    pub null_constant: bool,
}

/// Why no candidate is meant.
#[derive(Clone, Copy, Debug, PartialEq, Eq)]
pub enum NoBest {
    /// No candidate takes the arguments.
    NoViable,
    /// Some take them, and none is better than all others that do. `first` is the lowest that
    /// takes them, and `second` the lowest other one that `first` is not better than.
    Ambiguous { first: u32, second: u32 },
}
