// Class records.

ghost use Rattle.std.specs.Prelude.{◌≡◌, MatchOption, None, Some, slice_get};
ghost use Rattle.cpp_types.specs.Class.{classes_of, class_of};

use crate::types::{FnTy, Ty};

/// A position in a source: the number of the source and a byte offset in it.
#[derive(Clone, Copy, Debug, PartialEq, Eq)]
pub struct At {
    pub source: u32,
    pub offset: u32,
}

/// Which of the words of transactional memory a function is declared with.
#[derive(Clone, Copy, Debug, PartialEq, Eq)]
pub enum Safety {
    None,
    /// `transaction_safe`.
    Safe,
    /// `transaction_safe_dynamic`.
    Dynamic,
}

/// A class (C++14 clause 9).
#[derive(Drop)]
pub struct ClassRec {
    /// Empty for a lambda's class.
    pub name: Vec<u8>,
    /// The base, by its index in the list of classes.
    pub base: Option<u32>,
    /// The members that hold values, in order of declaration.
    pub members: Vec<MemberRec>,
    /// The functions that are written in the class, in order of declaration.
    pub functions: Vec<FuncRec>,
    pub is_final: bool,
    /// How many classes were completed before this one; `None` for one that is only declared.
    pub complete: Option<u32>,
}

/// A member that holds a value.
#[derive(Drop)]
pub struct MemberRec {
    pub name: Vec<u8>,
    pub ty: Ty,
}

/// A function. A constructor has the name of its class, and a destructor that name behind `~`.
#[derive(Drop)]
pub struct FuncRec {
    pub name: Vec<u8>,
    pub ty: FnTy,
    pub is_const: bool,
    /// Set also where the function overrides a virtual one.
    pub is_virtual: bool,
    pub is_override: bool,
    pub is_final: bool,
    pub pure_virtual: bool,
    pub safety: Safety,
    /// Whether it overrides a function that is declared `transaction_safe` or is itself
    /// considered so.
    pub considered: bool,
    pub no_except: bool,
    pub at: At,
}

/// The record of a class by its index in the list.
pub fn record_at(classes: &[ClassRec], class: u32) -> Option<&ClassRec>
    ensures { MatchOption result (slice_get (classes_of classes.now) class ≡ None) (λ found. slice_get (classes_of classes.now) class ≡ Some (class_of found.now)) }
{
    classes.get(class as usize)
}
