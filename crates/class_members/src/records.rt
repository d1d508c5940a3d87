// What the members of a class say.

use cpp_types::{At, FnTy, MemberRec};
use elab_init::below::FuncKind;
use elab_types::{Parameter, Qualifiers};

/// What stands before the type of a declaration.
#[derive(Clone, Copy, Debug, PartialEq, Eq)]
pub struct Storage {
    pub is_static: bool,
    pub is_extern: bool,
    pub is_inline: bool,
    pub is_virtual: bool,
    /// Whether it stands behind `extern "C"`.
    pub is_c: bool,
}

/// A function as it is declared.
#[derive(Drop)]
pub struct Header {
    pub name: Vec<u8>,
    pub at: At,
    pub ty: FnTy,
    pub params: Vec<Parameter>,
    pub qualifiers: Qualifiers,
    pub storage: Storage,
    pub kind: FuncKind,
    /// The class of which it is a member.
    pub class: Option<u32>,
}

/// The words `override` and `final`, and whether it is pure.
#[derive(Clone, Copy, Debug, PartialEq, Eq)]
pub struct Marks {
    pub is_override: bool,
    pub is_final: bool,
    pub is_pure: bool,
}

/// The text of a function that is defined in its class, and the byte offset where it ends.
#[derive(Drop)]
pub struct Definition {
    pub text: Vec<u8>,
    pub closed_at: u32,
}

/// The class that is being read.
#[derive(Drop)]
pub struct Home {
    pub number: u32,
    pub name: Vec<u8>,
    pub base: Option<u32>,
    pub is_final: bool,
}

/// The data members so far, and the places of those with an initialiser of their own.
#[derive(Drop)]
pub struct Members {
    pub members: Vec<MemberRec>,
    pub initialised: Vec<u32>,
}
