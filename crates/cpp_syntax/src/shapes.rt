//! The shapes of types, which know no expressions, and of the names and casts round them.
//!
//! Each function answers the index behind the longest text of its shape, or that there is none. A run of tokens in
//! brackets is passed in one step, and so are parameters that are known already, so that no token is looked at twice on
//! one level of brackets.

ghost use Rattle.std.specs.Prelude.{◌≡◌, ◌+◌, ◌≤◌, true, false, IfOk};
ghost use Rattle.cpp_syntax.specs.Rules.{by_shape, form, type_specifier, type_specifier_seq, type_id};
ghost use Rattle.cpp_syntax.specs.Grammar.{cv_qualifiers, tx_exception};
ghost use Rattle.cpp_syntax.specs.Lookahead.{BeginsOperand};
ghost use Rattle.cpp_syntax.specs.Shapes.{Spans, Recognised, KnownFrom, TypeFound, ThrownFound, is_qualified_name_at, begins_name_at};

use crate::naming::Naming;
use crate::outline::Outline;
use crate::terminal::Terminal;
use std::alloc::AllocError;

impl Outline {
    /// Whether a name that a declarator may declare begins at an index: `N` or `T::N`.
    pub fn begins_name(&self, at: usize) -> bool
        ensures { result ≡ begins_name_at self.now at }
    {
        self.is_name_at(at) || self.is_qualified_name(at)
    }

    /// Whether `T::N` stands at an index.
    pub fn is_qualified_name(&self, at: usize) -> bool
        ensures { result ≡ is_qualified_name_at self.now at }
    {
        self.is_at(at, Terminal::TypeName)
            && self.is_at(at + 1, Terminal::ColonColon)
            && self.is_name_at(at + 2)
    }

    /// The index of the type between the brackets of `std::tx_exception<..>` at an index.
    pub fn thrown_type(&self, at: usize) -> Option<usize>
        ensures { ThrownFound self.now at result }
    {
        let begins = self.is_at(at, Terminal::Std)
            && self.is_at(at + 1, Terminal::ColonColon)
            && self.is_at(at + 2, Terminal::TxException)
            && self.is_at(at + 3, Terminal::Less);
        if begins { Some(at + 4) } else { None }
    }

    /// Whether the operand of a cast begins at an index.
    pub fn begins_operand(&self, at: usize) -> bool
        ensures yes { result ≡ true → BeginsOperand self.now at }
        ensures no { result ≡ false → BeginsOperand self.now at → ⊥ }
    {
        let mut next = at;
        'steps: while self.is_step_at(next) {
            next += 1;
        }
        if self.is_at(next, Terminal::OpenParen) {
            return !self.is_at(next + 1, Terminal::CloseParen);
        }
        self.terminal(next).begins_operand()
    }

    /// The index behind a type in parentheses, where parameters are known.
    pub fn type_in_parentheses(
        &self,
        parameters: &Vec<u32>,
        at: usize,
        depth_left: u32,
    ) -> Result<Option<usize>, AllocError>
        requires known { KnownFrom self.now parameters.now.items at }
        ensures { TypeFound self.now at result }
    {
        if !self.is_at(at, Terminal::OpenParen) {
            return Ok(None);
        }
        let Some(close) = self.shaped_type_id(parameters, at + 1, depth_left)? else {
            return Ok(None);
        };
        if !self.is_at(close, Terminal::CloseParen) {
            return Ok(None);
        }
        Ok(Some(close + 1))
    }

    /// A type with a declarator that names nothing.
    #[cycle(shaped_types)]
    pub fn shaped_type_id(
        &self,
        parameters: &Vec<u32>,
        at: usize,
        depth_left: u32,
    ) -> Result<Option<usize>, AllocError>
        requires known { KnownFrom self.now parameters.now.items at }
        ensures { Recognised self.now (form (type_id by_shape)) at result }
    {
        let Some(behind) = self.shaped_type_specifier_seq(parameters, at, depth_left)? else {
            return Ok(None);
        };
        self.shaped_declarator(parameters, behind, Naming::Unnamed, depth_left)
    }

    /// A type with `const` and `volatile` round it.
    #[cycle(shaped_types)]
    pub fn shaped_type_specifier_seq(
        &self,
        parameters: &Vec<u32>,
        at: usize,
        depth_left: u32,
    ) -> Result<Option<usize>, AllocError>
        requires known { KnownFrom self.now parameters.now.items at }
        ensures { Recognised self.now (form (type_specifier_seq by_shape)) at result }
    {
        let before = self.behind_cv_qualifiers(at);
        let Some(behind) = self.shaped_type_specifier(parameters, before, depth_left)? else {
            return Ok(None);
        };
        Ok(Some(self.behind_cv_qualifiers(behind)))
    }

    /// Any number of `const` and `volatile`.
    pub fn behind_cv_qualifiers(&self, at: usize) -> usize
        ensures { Spans self.now cv_qualifiers at result }
    {
        let mut next = at;
        'words: while self.is_cv_at(next) {
            next += 1;
        }
        next
    }

    /// The words of a type, the name of one, or `std::tx_exception<..>`.
    #[cycle(shaped_types)]
    fn shaped_type_specifier(
        &self,
        parameters: &Vec<u32>,
        at: usize,
        depth_left: u32,
    ) -> Result<Option<usize>, AllocError>
        requires known { KnownFrom self.now parameters.now.items at }
        ensures { Recognised self.now (form (type_specifier by_shape)) at result }
    {
        if self.is_type_word_at(at) {
            return Ok(Some(self.behind_type_words(at)));
        }
        if self.is_at(at, Terminal::TypeName) {
            return Ok(Some(at + 1));
        }
        self.shaped_tx_exception(parameters, at, depth_left)
    }

    /// `std::tx_exception<type>`.
    #[cycle(shaped_types)]
    fn shaped_tx_exception(
        &self,
        parameters: &Vec<u32>,
        at: usize,
        depth_left: u32,
    ) -> Result<Option<usize>, AllocError>
        requires known { KnownFrom self.now parameters.now.items at }
        ensures { Recognised self.now (tx_exception by_shape) at result }
    {
        let Some(thrown) = self.thrown_type(at) else {
            return Ok(None);
        };
        let Some(greater) = self.shaped_type_id(parameters, thrown, descend(depth_left)?)? else {
            return Ok(None);
        };
        if !self.is_at(greater, Terminal::Greater) {
            return Ok(None);
        }
        Ok(Some(greater + 1))
    }
}

/// The depth left of the calls below one: each nested call has less, so that the machine's own stack is never used up.
pub fn descend(depth_left: u32) -> Result<u32, AllocError>
    ensures { IfOk result (λ less. less + 1 ≡ depth_left) }
{
    if depth_left == 0 {
        Err(AllocError)
    } else {
        Ok(depth_left - 1)
    }
}
