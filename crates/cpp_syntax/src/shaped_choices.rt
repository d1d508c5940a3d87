//! The shape of what stands between `?` and `:`, where commas separate no declarators.

ghost use Rattle.std.specs.Prelude.{◌≡◌};
ghost use Rattle.cpp_syntax.specs.Terminals.{is_chosen};
ghost use Rattle.cpp_syntax.specs.Rules.{form, many, shaped_choice};
ghost use Rattle.cpp_syntax.specs.Grammar.{shaped_token};
ghost use Rattle.cpp_syntax.specs.Shapes.{Recognised, AlwaysRecognised};

use crate::outline::Outline;
use crate::shapes::descend;
use crate::terminal::Terminal;
use std::alloc::AllocError;

impl Outline {
    /// `?` and `:` with what stands between them.
    #[cycle(shaped_choices)]
    pub fn shaped_choice(&self, at: usize, depth_left: u32) -> Result<Option<usize>, AllocError>
        ensures { Recognised self.now (form shaped_choice) at result }
    {
        if !self.is_at(at, Terminal::Question) {
            return Ok(None);
        }
        let colon = self.behind_chosen(at + 1, descend(depth_left)?)?;
        if !self.is_at(colon, Terminal::Colon) {
            return Ok(None);
        }
        Ok(Some(colon + 1))
    }

    /// The index behind the tokens up to a `:` or a semicolon outside brackets.
    #[cycle(shaped_choices)]
    fn behind_chosen(&self, at: usize, depth_left: u32) -> Result<usize, AllocError>
        ensures { AlwaysRecognised self.now (many (shaped_token is_chosen)) at result }
    {
        let mut next = at;
        'tokens: loop {
            let Some(behind) = self.chosen_token(next, depth_left)? else {
                return Ok(next);
            };
            next = behind;
        }
    }

    /// One such token, `?` and `:` with what stands between them, or brackets with what they hold.
    #[cycle(shaped_choices)]
    fn chosen_token(&self, at: usize, depth_left: u32) -> Result<Option<usize>, AllocError>
        ensures { Recognised self.now (shaped_token is_chosen) at result }
    {
        if self.is_chosen_at(at) {
            return Ok(Some(at + 1));
        }
        if self.is_at(at, Terminal::Question) {
            return self.shaped_choice(at, depth_left);
        }
        let Some(close) = self.partner(at) else {
            return Ok(None);
        };
        Ok(Some(close + 1))
    }
}
