//! The shapes of declarations, in which any balanced run of tokens stands for what initialises.

ghost use Rattle.std.specs.Prelude.{◌≡◌, ◌+◌, true, false, IfOk};
ghost use Rattle.cpp_syntax.specs.Terminals.{is_unseparated, equal};
ghost use Rattle.cpp_syntax.specs.Source.{terminal_at};
ghost use Rattle.cpp_syntax.specs.Rules.{a_declaration, parameters, form, many, optional, shaped_init_declarator};
ghost use Rattle.cpp_syntax.specs.Grammar.{list, shaped_token, shaped_initializers};
ghost use Rattle.cpp_syntax.specs.Lookahead.{lookahead, lookahead_types};
ghost use Rattle.cpp_syntax.specs.Shapes.{Spans, Recognised, AlwaysRecognised, KnownFrom};

use crate::naming::Naming;
use crate::outline::Outline;
use crate::terminal::Terminal;
use std::alloc::AllocError;

impl Outline {
    /// Whether a declaration with its semicolon begins at an index, by its shape.
    pub fn lookahead_declaration(
        &self,
        parameters: &Vec<u32>,
        at: usize,
        depth_left: u32,
    ) -> Result<bool, AllocError>
        requires known { KnownFrom self.now parameters.now.items at }
        ensures yes { IfOk result (λ seen. seen ≡ true → lookahead self.now a_declaration at) }
        ensures no { IfOk result (λ seen. seen ≡ false → lookahead self.now a_declaration at → ⊥) }
    {
        let Some(behind) = self.shaped_type_specifier_seq(parameters, at, depth_left)? else {
            return Ok(false);
        };
        let Some(next) = self.shaped_init_declarators(parameters, behind, depth_left)? else {
            return Ok(false);
        };
        Ok(self.is_at(next, Terminal::Semicolon))
    }

    /// Declarators with what initialises them, with commas between them.
    fn shaped_init_declarators(
        &self,
        parameters: &Vec<u32>,
        at: usize,
        depth_left: u32,
    ) -> Result<Option<usize>, AllocError>
        requires known { KnownFrom self.now parameters.now.items at }
        ensures { Recognised self.now (list (form shaped_init_declarator)) at result }
    {
        let Some(first) = self.shaped_init_declarator(parameters, at, depth_left)? else {
            return Ok(None);
        };
        let mut next = first;
        'items: while self.is_at(next, Terminal::Comma) {
            let Some(behind) = self.shaped_init_declarator(parameters, next + 1, depth_left)? else {
                return Ok(Some(next));
            };
            next = behind;
        }
        Ok(Some(next))
    }

    /// A declarator with what initialises it.
    fn shaped_init_declarator(
        &self,
        parameters: &Vec<u32>,
        at: usize,
        depth_left: u32,
    ) -> Result<Option<usize>, AllocError>
        requires known { KnownFrom self.now parameters.now.items at }
        ensures { Recognised self.now (form shaped_init_declarator) at result }
    {
        let Some(behind) = self.shaped_declarator(parameters, at, Naming::Named, depth_left)? else {
            return Ok(None);
        };
        let next = self.behind_initializer(parameters, behind, depth_left)?;
        Ok(Some(next))
    }

    /// What initialises, if it is there: `=` and the tokens up to a comma or a semicolon outside brackets and outside `?`
    /// and `:`, or some in parentheses.
    fn behind_initializer(
        &self,
        parameters: &Vec<u32>,
        at: usize,
        depth_left: u32,
    ) -> Result<usize, AllocError>
        requires known { KnownFrom self.now parameters.now.items at }
        ensures { AlwaysRecognised self.now (optional shaped_initializers) at result }
    {
        if self.is_at(at, Terminal::Equal) {
            let next = self.behind_unseparated(at + 1, depth_left)?;
            if next == at + 1 {
                return Ok(at);
            }
            return Ok(next);
        }
        if self.behind_parameters(parameters, at).is_some() {
            return Ok(at);
        }
        Ok(self.behind_parentheses(at))
    }

    /// Some tokens in parentheses, if there are some.
    fn behind_parentheses(&self, at: usize) -> usize
        requires other { equal (terminal_at self.now at) ≡ false }
        requires unseen { lookahead_types self.now parameters at → ⊥ }
        ensures { Spans self.now (optional shaped_initializers) at result }
    {
        if !self.is_at(at, Terminal::OpenParen) {
            return at;
        }
        let Some(close) = self.partner(at) else {
            return at;
        };
        if close == at + 1 { at } else { close + 1 }
    }

    /// The index behind the tokens up to a comma or a semicolon outside brackets and outside `?` and `:`.
    fn behind_unseparated(&self, at: usize, depth_left: u32) -> Result<usize, AllocError>
        ensures { AlwaysRecognised self.now (many (shaped_token is_unseparated)) at result }
    {
        let mut next = at;
        'tokens: loop {
            let Some(behind) = self.behind_unseparated_token(next, depth_left)? else {
                return Ok(next);
            };
            next = behind;
        }
    }

    /// The index behind one such token, or behind `?` or a bracket and what it holds.
    fn behind_unseparated_token(
        &self,
        at: usize,
        depth_left: u32,
    ) -> Result<Option<usize>, AllocError>
        ensures { Recognised self.now (shaped_token is_unseparated) at result }
    {
        if self.is_unseparated_at(at) {
            return Ok(Some(at + 1));
        }
        if self.is_at(at, Terminal::Question) {
            return self.shaped_choice(at, depth_left);
        }
        let Some(close) = self.partner(at) else {
            return Ok(None);
        };
        Ok(Some(close + 1))
    }
}
