//! What stands at an index, in groups that declarations ask for.

ghost use Rattle.std.specs.Prelude.{◌≡◌, ◌<◌, ◌≤◌, true, length};
ghost use Rattle.cpp_syntax.specs.Source.{terminal_at};
ghost use Rattle.cpp_syntax.specs.Terminals.{is_virt, is_class_key, is_access, is_specifier};
ghost use Rattle.cpp_syntax.specs.FirstSets.{first_of_types};
ghost use Rattle.cpp_syntax.specs.declared.limits.TheConstants.{MAX_TOKENS};

use cpp_syntax::{Terminal, TypeNames};

/// Whether `static`, `extern` or `inline` stands at an index.
pub fn is_specifier_at(text: &TypeNames, at: usize) -> bool
    ensures test { result ≡ is_specifier (terminal_at text.now at) }
    ensures inside { result ≡ true → at < length text.now.terminals }
    ensures few { length text.now.terminals ≤ MAX_TOKENS }
{
    text.terminal(at).is_specifier()
}

/// Whether `override` or `final` stands at an index.
pub fn is_virt_at(text: &TypeNames, at: usize) -> bool
    ensures test { result ≡ is_virt (terminal_at text.now at) }
    ensures inside { result ≡ true → at < length text.now.terminals }
    ensures few { length text.now.terminals ≤ MAX_TOKENS }
{
    text.terminal(at).is_virt()
}

/// Whether `class` or `struct` stands at an index.
pub fn is_class_key_at(text: &TypeNames, at: usize) -> bool
    ensures test { result ≡ is_class_key (terminal_at text.now at) }
    ensures inside { result ≡ true → at < length text.now.terminals }
    ensures few { length text.now.terminals ≤ MAX_TOKENS }
{
    text.terminal(at).is_class_key()
}

/// Whether `public`, `protected` or `private` stands at an index.
pub fn is_access_at(text: &TypeNames, at: usize) -> bool
    ensures test { result ≡ is_access (terminal_at text.now at) }
    ensures inside { result ≡ true → at < length text.now.terminals }
    ensures few { length text.now.terminals ≤ MAX_TOKENS }
{
    text.terminal(at).is_access()
}

/// Whether what begins a type with its `const` and `volatile` stands at an index.
pub fn begins_type_at(text: &TypeNames, at: usize) -> bool
    ensures test { result ≡ first_of_types (terminal_at text.now at) }
    ensures inside { result ≡ true → at < length text.now.terminals }
    ensures few { length text.now.terminals ≤ MAX_TOKENS }
{
    first_of_types(text.terminal(at))
}

/// Whether a type with its `const` and `volatile` may begin with a terminal.
fn first_of_types(terminal: Terminal) -> bool
    ensures { result ≡ first_of_types terminal }
{
    terminal.is_cv()
        || terminal.is_type_word()
        || terminal.is_type_name()
        || matches!(terminal, Terminal::Std)
}
