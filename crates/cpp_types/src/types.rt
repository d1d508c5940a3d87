// Types as values.

use tx_ints::IntKind;

/// A type (C++14 3.9), with its `const` and `volatile` (C++14 3.9.3).
///
/// The qualifiers of an array are those of its elements, so an array's own stay unset.
#[derive(Drop)]
#[cycle(types)]
pub struct Ty {
    pub shape: Shape,
    pub is_const: bool,
    pub is_volatile: bool,
}

/// What a type is, its own `const` and `volatile` apart.
#[derive(Drop)]
#[cycle(types)]
pub enum Shape {
    Void,
    Int(IntKind),
    /// An enum over `int`; `scoped` is set for an `enum class`.
    Enum { name: Vec<u8>, scoped: bool },
    /// The type of `nullptr`.
    Null,
    Ptr(Box<Ty>),
    /// An lvalue reference.
    Ref(Box<Ty>),
    /// An array, with the number of its elements.
    Array(Box<Ty>, u32),
    Func(Box<FnTy>),
    /// A class, by its index in the list of classes.
    Class(u32),
    /// A lambda's class, by its index in the list of classes.
    Closure(u32),
    /// `std::tx_exception` of a type.
    TxEx(Box<Ty>),
}

/// A function's type; `safe` says that it is `transaction_safe`.
#[derive(Drop)]
#[cycle(types)]
pub struct FnTy {
    pub params: Vec<Ty>,
    pub ret: Ty,
    pub safe: bool,
}
