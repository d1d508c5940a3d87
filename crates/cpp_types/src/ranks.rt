// Conversions as values, and their ranks.

/// Whether an expression stands for an object or is a value (C++14 3.10).
#[derive(Clone, Copy, Debug, PartialEq, Eq)]
pub enum Cat {
    Lvalue,
    Prvalue,
}

/// How good a conversion is, the best first (C++14 13.3.3.1.1).
///
/// `Adjusted` is a rank of this language alone: it loses only to `Exact`.
#[derive(Clone, Copy, Debug, PartialEq, Eq)]
pub enum Rank {
    Exact,
    Adjusted,
    Promotion,
    Conversion,
}

/// What is done to a value on its way to another type, once it was read from an lvalue and once
/// an array or a function became a pointer.
#[derive(Clone, Copy)]
pub enum Step {
    Identity,
    /// `const` or `volatile` is added below a pointer (C++14 4.4).
    Qualify,
    /// `transaction_safe` is dropped from the function type that a pointer points to.
    DropSafe,
    /// An integral promotion (C++14 4.5).
    Promote,
    /// Another conversion of an integer or an unscoped enum, to `bool` too (C++14 4.7, 4.12).
    Integral,
    /// A null constant becomes a null pointer (C++14 4.10).
    NullPointer,
    /// A pointer is compared with null (C++14 4.12).
    PointerToBool,
    /// A class, or a pointer to one, becomes a base so many steps up its chain of bases
    /// (C++14 4.10, 13.3.3.1).
    ToBase(u32),
}

/// What becomes of the converted value.
#[derive(Clone, Copy)]
pub enum Binding {
    /// It initialises an object.
    Value,
    /// A reference is bound to the object itself or to its base (C++14 8.5.3).
    Direct,
    /// A reference is bound to a temporary that has the value.
    Temporary,
}

/// An implicit conversion.
#[derive(Clone, Copy)]
pub struct Conversion {
    pub step: Step,
    pub binding: Binding,
}

impl Conversion {
    ghost use Rattle.std.specs.Prelude.{◌≡◌};
    ghost use Rattle.cpp_types.specs.Conversion.{rank_of};

    /// The rank of the conversion.
    pub fn rank(self) -> Rank
        ensures { result ≡ rank_of self }
    {
        match self.step {
            Step::Identity => Rank::Exact,
            Step::Qualify | Step::DropSafe => Rank::Adjusted,
            Step::Promote => Rank::Promotion,
            Step::Integral | Step::NullPointer | Step::PointerToBool | Step::ToBase(_) => {
                Rank::Conversion
            }
        }
    }
}
