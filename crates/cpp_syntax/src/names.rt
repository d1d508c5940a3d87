//! The tokens of a unit as the grammar sees them.

ghost use Rattle.std.specs.Prelude.{◌≡◌, ◌≤◌, ◌<◌, ℕ, suc, true, false, length, IfOk};
ghost use Rattle.cpp_lex.specs.Tokens.{lexemes_of};
ghost use Rattle.cpp_syntax.specs.Source.{terminal_at, position_at};
ghost use Rattle.cpp_syntax.specs.Terminals.{ReadsAs, is_end, is_name, is_cv, is_safety, is_type_word, is_prefix, is_step, is_assignment, is_capture_default, is_literal, level_of};
ghost use Rattle.cpp_syntax.specs.Classes.{source_of};
ghost use Rattle.cpp_syntax.specs.Balance.{IsPartner};
ghost use Rattle.cpp_syntax.specs.Rules.{a_cast, a_type_in_parentheses, parameters, a_declaration};
ghost use Rattle.cpp_syntax.specs.Lookahead.{lookahead};
ghost use Rattle.cpp_syntax.specs.Shapes.{BehindWords, ThrownFound, begins_name_at};
ghost use Rattle.cpp_syntax.specs.declared.limits.TheConstants.{MAX_TOKENS};

use crate::outline::Outline;
use crate::terminal::Terminal;
use cpp_ast::At;
use cpp_lex::Tokens;
use std::alloc::{AllocError, Global};
use std::marker::Model;

/// The tokens of a unit as the grammar sees them: what each is, where it begins, which bracket closes which, and which
/// parentheses hold parameters by their shape.
#[derive(Drop)]
pub struct TypeNames {
    outline: Outline,
    /// For each `(` before parameters the index of the `)` behind them, and for each other token its own index.
    parameters: Vec<u32>,
}

impl Model for TypeNames {
    ghost use Rattle.cpp_syntax.specs.Source.{Source};
    ghost use Rattle.cpp_syntax.specs.Shapes.{KnownFrom};

    ghost Value = { Source };

    ghost view = { λ n. n.outline };

    ghost invariant = { λ n. KnownFrom n.outline n.parameters.items 0 };
}

impl TypeNames {
    /// What is kept of the tokens of a unit, whose source has a number.
    pub fn of(alloc: Global, source: u32, tokens: &Tokens) -> Result<TypeNames, AllocError>
        requires { length tokens.now.items.items ≤ MAX_TOKENS }
        ensures { IfOk result (λ types. types ≡ source_of source (lexemes_of tokens.now)) }
    {
        let outline = Outline::of(alloc, source, tokens)?;
        let parameters = outline.table_of_parameters(alloc)?;
        Ok(TypeNames {
            outline,
            parameters,
        })
    }

    /// How many tokens there are.
    pub fn len(&self) -> usize
        ensures len { result ≡ length self.now.terminals }
        ensures few { result ≤ MAX_TOKENS }
    {
        self.outline.len()
    }

    /// The terminal at an index, or `End` behind the last.
    pub fn terminal(&self, at: usize) -> Terminal
        ensures terminal { result ≡ terminal_at self.now at }
        ensures inside { is_end result ≡ false → at < length self.now.terminals }
        ensures few { length self.now.terminals ≤ MAX_TOKENS }
    {
        self.outline.terminal(at)
    }

    /// Whether a token that is read as this terminal stands at an index.
    pub fn is_at(&self, at: usize, terminal: Terminal) -> bool
        ensures yes { result ≡ true → ReadsAs (terminal_at self.now at) terminal }
        ensures no { result ≡ false → ReadsAs (terminal_at self.now at) terminal → ⊥ }
        ensures inside { result ≡ true → is_end terminal ≡ false → at < length self.now.terminals }
        ensures few { length self.now.terminals ≤ MAX_TOKENS }
    {
        self.outline.is_at(at, terminal)
    }

    /// The position in the text of the token at an index, or of what is behind the last.
    pub fn position(&self, at: usize) -> At
        ensures position { result ≡ position_at self.now at }
        ensures few { length self.now.terminals ≤ MAX_TOKENS }
    {
        self.outline.position(at)
    }

    /// The index of the bracket that closes the one at an index, with balanced tokens between. There is none where no
    /// opening bracket stands, or none that is closed so.
    pub fn partner(&self, at: usize) -> Option<usize>
        ensures { IsPartner self.now.terminals at result }
    {
        self.outline.partner(at)
    }

    /// Whether a name that names anything but a type stands at an index.
    pub fn is_name_at(&self, at: usize) -> bool
        ensures test { result ≡ is_name (terminal_at self.now at) }
        ensures inside { result ≡ true → at < length self.now.terminals }
        ensures few { length self.now.terminals ≤ MAX_TOKENS }
    {
        self.outline.is_name_at(at)
    }

    /// Whether `const` or `volatile` stands at an index.
    pub fn is_cv_at(&self, at: usize) -> bool
        ensures test { result ≡ is_cv (terminal_at self.now at) }
        ensures inside { result ≡ true → at < length self.now.terminals }
        ensures few { length self.now.terminals ≤ MAX_TOKENS }
    {
        self.outline.is_cv_at(at)
    }

    /// Whether `transaction_safe` or `transaction_safe_dynamic` stands at an index.
    pub fn is_safety_at(&self, at: usize) -> bool
        ensures test { result ≡ is_safety (terminal_at self.now at) }
        ensures inside { result ≡ true → at < length self.now.terminals }
        ensures few { length self.now.terminals ≤ MAX_TOKENS }
    {
        self.outline.is_safety_at(at)
    }

    /// Whether a word of a type stands at an index.
    pub fn is_type_word_at(&self, at: usize) -> bool
        ensures test { result ≡ is_type_word (terminal_at self.now at) }
        ensures inside { result ≡ true → at < length self.now.terminals }
        ensures few { length self.now.terminals ≤ MAX_TOKENS }
    {
        self.outline.is_type_word_at(at)
    }

    /// Whether an operator before an operand stands at an index.
    pub fn is_prefix_at(&self, at: usize) -> bool
        ensures test { result ≡ is_prefix (terminal_at self.now at) }
        ensures inside { result ≡ true → at < length self.now.terminals }
        ensures few { length self.now.terminals ≤ MAX_TOKENS }
    {
        self.outline.is_prefix_at(at)
    }

    /// Whether `++` or `--` stands at an index.
    pub fn is_step_at(&self, at: usize) -> bool
        ensures test { result ≡ is_step (terminal_at self.now at) }
        ensures inside { result ≡ true → at < length self.now.terminals }
        ensures few { length self.now.terminals ≤ MAX_TOKENS }
    {
        self.outline.is_step_at(at)
    }

    /// Whether `=` or a compound assignment stands at an index.
    pub fn is_assignment_at(&self, at: usize) -> bool
        ensures test { result ≡ is_assignment (terminal_at self.now at) }
        ensures inside { result ≡ true → at < length self.now.terminals }
        ensures few { length self.now.terminals ≤ MAX_TOKENS }
    {
        self.outline.is_assignment_at(at)
    }

    /// Whether `=` or `&` stands at an index.
    pub fn is_capture_default_at(&self, at: usize) -> bool
        ensures test { result ≡ is_capture_default (terminal_at self.now at) }
        ensures inside { result ≡ true → at < length self.now.terminals }
        ensures few { length self.now.terminals ≤ MAX_TOKENS }
    {
        self.outline.is_capture_default_at(at)
    }

    /// Whether a literal or `this` stands at an index.
    pub fn is_literal_at(&self, at: usize) -> bool
        ensures test { result ≡ is_literal (terminal_at self.now at) }
        ensures inside { result ≡ true → at < length self.now.terminals }
        ensures few { length self.now.terminals ≤ MAX_TOKENS }
    {
        self.outline.is_literal_at(at)
    }

    /// How loosely the token at an index binds as an operator between two operands, from 1 for `*` to 10 for `||`; 0 where it
    /// is none.
    pub fn level_at(&self, at: usize) -> u32
        ensures level { result ≡ level_of (terminal_at self.now at) }
        ensures inside { (n : ℕ) → result ≡ suc n → at < length self.now.terminals }
        ensures few { length self.now.terminals ≤ MAX_TOKENS }
    {
        self.outline.level_at(at)
    }

    /// Whether a name that a declarator may declare begins at an index: `N` or `T::N`.
    pub fn begins_name(&self, at: usize) -> bool
        ensures { result ≡ begins_name_at self.now at }
    {
        self.outline.begins_name(at)
    }

    /// The index behind the words that spell a type from an index on, as many as there are.
    pub fn behind_type_words(&self, at: usize) -> usize
        ensures { BehindWords self.now at result }
    {
        self.outline.behind_type_words(at)
    }

    /// The index of the type between the brackets of `std::tx_exception<..>` at an index.
    pub fn thrown_type(&self, at: usize) -> Option<usize>
        ensures { ThrownFound self.now at result }
    {
        self.outline.thrown_type(at)
    }

    /// Whether parameters in parentheses begin at an index, by their shape.
    pub fn lookahead_parameters(&self, at: usize) -> bool
        ensures yes { result ≡ true → lookahead self.now parameters at }
        ensures no { result ≡ false → lookahead self.now parameters at → ⊥ }
    {
        self.outline
            .behind_parameters(&self.parameters, at)
            .is_some()
    }

    /// Whether a type in parentheses begins at an index, by its shape.
    pub fn lookahead_type_in_parentheses(
        &self,
        at: usize,
        depth_left: u32,
    ) -> Result<bool, AllocError>
        ensures yes { IfOk result (λ seen. seen ≡ true → lookahead self.now a_type_in_parentheses at) }
        ensures no { IfOk result (λ seen. seen ≡ false → lookahead self.now a_type_in_parentheses at → ⊥) }
    {
        Ok(
            self.outline
                .type_in_parentheses(&self.parameters, at, depth_left)?
                .is_some(),
        )
    }

    /// Whether a cast begins at an index: a type in parentheses, behind which an operand begins.
    pub fn lookahead_cast(&self, at: usize, depth_left: u32) -> Result<bool, AllocError>
        ensures yes { IfOk result (λ seen. seen ≡ true → lookahead self.now a_cast at) }
        ensures no { IfOk result (λ seen. seen ≡ false → lookahead self.now a_cast at → ⊥) }
    {
        match self
            .outline
            .type_in_parentheses(&self.parameters, at, depth_left)?
        {
            Some(behind) => Ok(self.outline.begins_operand(behind)),
            None => Ok(false),
        }
    }

    /// Whether a declaration with its semicolon begins at an index, by its shape.
    pub fn lookahead_declaration(&self, at: usize, depth_left: u32) -> Result<bool, AllocError>
        ensures yes { IfOk result (λ seen. seen ≡ true → lookahead self.now a_declaration at) }
        ensures no { IfOk result (λ seen. seen ≡ false → lookahead self.now a_declaration at → ⊥) }
    {
        self.outline
            .lookahead_declaration(&self.parameters, at, depth_left)
    }
}
