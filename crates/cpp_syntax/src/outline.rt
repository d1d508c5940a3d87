//! The tokens of a unit as the grammar sees them, without what takes a reading of shapes.

ghost use Rattle.std.specs.Prelude.{◌≡◌, true, false, ◌≤◌, ◌<◌, ◌↔◌, ℕ, length, map, IfOk, IsTrue};
ghost use Rattle.cpp_lex.specs.Tokens.{Lexeme, lexeme_of, lexemes_of};
ghost use Rattle.cpp_syntax.specs.Source.{Source, terminal_at, position_at};
ghost use Rattle.cpp_syntax.specs.Classes.{source_of, end_of};
ghost use Rattle.cpp_syntax.specs.Terminals.{ReadsAs, is_end};
ghost use Rattle.cpp_syntax.specs.Balance.{IsPartner};
ghost use Rattle.cpp_syntax.specs.declared.limits.TheConstants.{MAX_TOKENS};

use crate::classes::terminals;
use crate::partners::partners;
use crate::terminal::Terminal;
use cpp_ast::At;
use cpp_lex::{Token, Tokens};
use std::alloc::{AllocError, Global};
use std::marker::Model;

/// The tokens of a unit as the grammar sees them: what each is, where it begins, and which bracket closes which.
#[derive(Drop)]
pub(crate) struct Outline {
    /// The number of the source.
    source: u32,
    terminals: Vec<Terminal>,
    begins: Vec<u32>,
    ends: u32,
    /// For each bracket that one closes the index of that one, and for each other token its own index.
    partners: Vec<u32>,
}

impl Model for Outline {
    ghost use Rattle.cpp_syntax.specs.Source.{Source};

    ghost Value = { Source };

    ghost use Rattle.cpp_syntax.specs.Balance.{IsTable};

    ghost view = { λ n. record { number = n.source; terminals = n.terminals.items; begins = n.begins.items; ends = n.ends } };

    ghost invariant = { λ n. IsTable n.terminals.items n.begins.items n.partners.items };
}

impl Outline {
    /// What is kept of the tokens of a unit.
    pub fn of(alloc: Global, source: u32, tokens: &Tokens) -> Result<Outline, AllocError>
        requires { length tokens.now.items.items ≤ MAX_TOKENS }
        ensures { IfOk result (λ names. names ≡ source_of source (lexemes_of tokens.now)) }
    {
        let items = tokens.items.as_slice();
        let terminals = terminals(alloc, items)?;
        let partners = partners(alloc, &terminals)?;
        Ok(Outline {
            source,
            begins: begins(alloc, items)?,
            ends: end(items),
            terminals,
            partners,
        })
    }

    /// How many tokens there are.
    pub fn len(&self) -> usize
        ensures len { result ≡ length self.now.terminals }
        ensures few { result ≤ MAX_TOKENS }
    {
        self.terminals.len()
    }

    /// Whether there are none.
    pub fn is_empty(&self) -> bool
        ensures { IsTrue result ↔ (length self.now.terminals ≡ 0) }
    {
        self.terminals.is_empty()
    }

    /// The terminal at an index, or `End` behind the last.
    pub fn terminal(&self, at: usize) -> Terminal
        ensures terminal { result ≡ terminal_at self.now at }
        ensures inside { is_end result ≡ false → at < length self.now.terminals }
        ensures few { length self.now.terminals ≤ MAX_TOKENS }
    {
        match self.terminals.get(at) {
            Some(terminal) => *terminal,
            None => Terminal::End,
        }
    }

    /// Whether a token that is read as this terminal stands at an index.
    pub fn is_at(&self, at: usize, terminal: Terminal) -> bool
        ensures yes { result ≡ true → ReadsAs (terminal_at self.now at) terminal }
        ensures no { result ≡ false → ReadsAs (terminal_at self.now at) terminal → ⊥ }
        ensures inside { result ≡ true → is_end terminal ≡ false → at < length self.now.terminals }
        ensures few { length self.now.terminals ≤ MAX_TOKENS }
    {
        self.terminal(at).is(terminal)
    }

    /// The position in the text of the token at an index, or of what is behind the last.
    pub fn position(&self, at: usize) -> At
        ensures position { result ≡ position_at self.now at }
        ensures few { length self.now.terminals ≤ MAX_TOKENS }
    {
        let offset = match self.begins.get(at) {
            Some(begin) => *begin,
            None => self.ends,
        };
        At {
            source: self.source,
            offset,
        }
    }

    /// The index of the bracket that closes the one at an index, with balanced tokens between. There is none where no
    /// opening bracket stands, or none that is closed so.
    pub fn partner(&self, at: usize) -> Option<usize>
        ensures { IsPartner self.now.terminals at result }
    {
        match self.partners.get(at) {
            Some(partner) if *partner as usize > at => Some(*partner as usize),
            _ => None,
        }
    }
}

/// Where each token begins.
fn begins(alloc: Global, tokens: &[Token]) -> Result<Vec<u32>, AllocError>
    ensures { IfOk result (λ begins. begins.items ≡ map (λ (t : Lexeme). t.from) (map lexeme_of tokens.now)) }
{
    let mut begins = Vec::with_capacity(alloc, tokens.len())?;
    for token in tokens {
        begins.push(token.from)?;
    }
    Ok(begins)
}

/// The byte behind the last token, or 0.
fn end(tokens: &[Token]) -> u32
    ensures { result ≡ end_of (map lexeme_of tokens.now) }
{
    match tokens.last() {
        Some(token) => token.to,
        None => 0,
    }
}
