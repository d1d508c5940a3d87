//! What stands at an index.

ghost use Rattle.std.specs.Prelude.{◌≡◌, ◌<◌, ◌≤◌, ℕ, suc, true, length};
ghost use Rattle.cpp_syntax.specs.Source.{terminal_at};
ghost use Rattle.cpp_syntax.specs.Terminals.{is_name, is_cv, is_safety, is_type_word, is_prefix, is_step, is_assignment, is_capture_default, is_unseparated, is_chosen, is_literal, level_of};
ghost use Rattle.cpp_syntax.specs.declared.limits.TheConstants.{MAX_TOKENS};

use crate::outline::Outline;

impl Outline {
    /// Whether a name that names anything but a type stands at an index.
    pub fn is_name_at(&self, at: usize) -> bool
        ensures test { result ≡ is_name (terminal_at self.now at) }
        ensures inside { result ≡ true → at < length self.now.terminals }
        ensures few { length self.now.terminals ≤ MAX_TOKENS }
    {
        self.terminal(at).is_name()
    }

    /// Whether `const` or `volatile` stands at an index.
    pub fn is_cv_at(&self, at: usize) -> bool
        ensures test { result ≡ is_cv (terminal_at self.now at) }
        ensures inside { result ≡ true → at < length self.now.terminals }
        ensures few { length self.now.terminals ≤ MAX_TOKENS }
    {
        self.terminal(at).is_cv()
    }

    /// Whether `transaction_safe` or `transaction_safe_dynamic` stands at an index.
    pub fn is_safety_at(&self, at: usize) -> bool
        ensures test { result ≡ is_safety (terminal_at self.now at) }
        ensures inside { result ≡ true → at < length self.now.terminals }
        ensures few { length self.now.terminals ≤ MAX_TOKENS }
    {
        self.terminal(at).is_safety()
    }

    /// Whether a word of a type stands at an index.
    pub fn is_type_word_at(&self, at: usize) -> bool
        ensures test { result ≡ is_type_word (terminal_at self.now at) }
        ensures inside { result ≡ true → at < length self.now.terminals }
        ensures few { length self.now.terminals ≤ MAX_TOKENS }
    {
        self.terminal(at).is_type_word()
    }

    /// Whether an operator before an operand stands at an index.
    pub fn is_prefix_at(&self, at: usize) -> bool
        ensures test { result ≡ is_prefix (terminal_at self.now at) }
        ensures inside { result ≡ true → at < length self.now.terminals }
        ensures few { length self.now.terminals ≤ MAX_TOKENS }
    {
        self.terminal(at).is_prefix()
    }

    /// Whether `++` or `--` stands at an index.
    pub fn is_step_at(&self, at: usize) -> bool
        ensures test { result ≡ is_step (terminal_at self.now at) }
        ensures inside { result ≡ true → at < length self.now.terminals }
        ensures few { length self.now.terminals ≤ MAX_TOKENS }
    {
        self.terminal(at).is_step()
    }

    /// Whether `=` or a compound assignment stands at an index.
    pub fn is_assignment_at(&self, at: usize) -> bool
        ensures test { result ≡ is_assignment (terminal_at self.now at) }
        ensures inside { result ≡ true → at < length self.now.terminals }
        ensures few { length self.now.terminals ≤ MAX_TOKENS }
    {
        self.terminal(at).is_assignment()
    }

    /// Whether `=` or `&` stands at an index.
    pub fn is_capture_default_at(&self, at: usize) -> bool
        ensures test { result ≡ is_capture_default (terminal_at self.now at) }
        ensures inside { result ≡ true → at < length self.now.terminals }
        ensures few { length self.now.terminals ≤ MAX_TOKENS }
    {
        self.terminal(at).is_capture_default()
    }

    /// Whether a token that is no bracket, semicolon, `?` or `:` stands at an index.
    pub fn is_chosen_at(&self, at: usize) -> bool
        ensures test { result ≡ is_chosen (terminal_at self.now at) }
        ensures inside { result ≡ true → at < length self.now.terminals }
        ensures few { length self.now.terminals ≤ MAX_TOKENS }
    {
        self.terminal(at).is_chosen()
    }

    /// Whether a token that is no bracket, comma, semicolon or `?` stands at an index.
    pub fn is_unseparated_at(&self, at: usize) -> bool
        ensures test { result ≡ is_unseparated (terminal_at self.now at) }
        ensures inside { result ≡ true → at < length self.now.terminals }
        ensures few { length self.now.terminals ≤ MAX_TOKENS }
    {
        self.terminal(at).is_unseparated()
    }

    /// Whether a literal or `this` stands at an index.
    pub fn is_literal_at(&self, at: usize) -> bool
        ensures test { result ≡ is_literal (terminal_at self.now at) }
        ensures inside { result ≡ true → at < length self.now.terminals }
        ensures few { length self.now.terminals ≤ MAX_TOKENS }
    {
        self.terminal(at).is_literal()
    }

    /// How loosely the token at an index binds as an operator between two operands, from 1 for `*` to 10 for `||`; 0 where it
    /// is none.
    pub fn level_at(&self, at: usize) -> u32
        ensures level { result ≡ level_of (terminal_at self.now at) }
        ensures inside { (n : ℕ) → result ≡ suc n → at < length self.now.terminals }
        ensures few { length self.now.terminals ≤ MAX_TOKENS }
    {
        self.terminal(at).level()
    }
}
