// What specifiers and declarators say.

use cpp_types::{At, Ty};
use elab_conv::below::IntKind;

/// A type that words without a name of a type give.
#[derive(Clone, Copy, Debug, PartialEq, Eq)]
pub enum Base {
    Void,
    /// A type that is not known yet.
    Auto,
    Integer(IntKind),
}

/// How often each word stands among the specifiers of a type.
#[derive(Clone, Copy, Debug, PartialEq, Eq)]
pub struct WordCounts {
    pub all: u32,
    pub signs: u32,
    pub unsigned: u32,
    pub shorts: u32,
    pub longs: u32,
    pub chars: u32,
    pub ints: u32,
}

/// What the specifiers of a type say so far.
#[derive(Drop)]
pub struct Specifiers {
    pub is_const: bool,
    pub is_volatile: bool,
    /// The words of which the name of an integer type is made, `void`, `bool` or `auto`, by their tokens.
    pub words: Vec<u32>,
    /// The type that has a name.
    pub named: Option<Ty>,
}

/// A parameter.
#[derive(Drop)]
pub struct Parameter {
    /// Its name, by its token.
    pub name: Option<u32>,
    pub at: At,
    pub ty: Ty,
}

/// What follows the parameters of a function.
#[derive(Clone, Copy, Debug, PartialEq, Eq)]
pub struct Qualifiers {
    pub is_const: bool,
    /// `transaction_safe`.
    pub is_safe: bool,
    /// `transaction_safe_dynamic`.
    pub is_dynamic: bool,
    pub no_except: bool,
}

/// What a declarator declares.
#[derive(Drop)]
pub struct Declared {
    /// Its name, by its token.
    pub name: Option<u32>,
    /// The class before it, by its token.
    pub owner: Option<u32>,
    pub is_destructor: bool,
    pub ty: Ty,
    /// Of a function its parameters and what follows them.
    pub params: Vec<Parameter>,
    pub qualifiers: Qualifiers,
}
