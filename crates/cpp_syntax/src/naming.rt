//! What a declarator names.

ghost use Rattle.std.specs.Prelude.{◌≡◌, Some, None, if◌then◌else◌};
ghost use Rattle.cpp_syntax.specs.FirstSets.{need_not_name};
ghost use Rattle.cpp_syntax.specs.Names.{naming_of, may_name, is_in_block};

/// Whether a declarator names what it declares.
#[derive(Clone, Copy, Debug, PartialEq, Eq)]
pub enum Naming {
    /// It does, and an initializer in parentheses may follow it.
    Named,
    /// It does not.
    Unnamed,
    /// It may.
    Either,
    /// It does, in a block, where no function is declared.
    InBlock,
}

impl Naming {
    /// Whether a declarator need not name what it declares.
    pub fn may_be_unnamed(self) -> bool
        ensures { result ≡ need_not_name (naming_of self) }
    {
        match self {
            Naming::Unnamed | Naming::Either => true,
            Naming::Named | Naming::InBlock => false,
        }
    }

    /// Whether a declarator may name what it declares.
    pub fn may_be_named(self) -> bool
        ensures { result ≡ may_name (naming_of self) }
    {
        match self {
            Naming::Unnamed => false,
            Naming::Named | Naming::Either | Naming::InBlock => true,
        }
    }

    /// Whether no function is declared, since the declarator stands in a block.
    pub fn is_in_block(self) -> bool
        ensures { result ≡ is_in_block (naming_of self) }
    {
        match self {
            Naming::InBlock => true,
            Naming::Named | Naming::Unnamed | Naming::Either => false,
        }
    }

    /// An index, where a declarator need not name what it declares.
    pub fn if_need_not_name(self, at: usize) -> Option<usize>
        ensures { result ≡ (if need_not_name (naming_of self) then Some at else None) }
    {
        match self {
            Naming::Unnamed | Naming::Either => Some(at),
            Naming::Named | Naming::InBlock => None,
        }
    }
}
