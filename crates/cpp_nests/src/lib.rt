//! How many constructs are open at a token, as brackets, operators and the words of statements show it, without a parse.
//!
//! A reader that has no room left for nested calls asks it which token lies too deep. `specs/Nests.antt` says what is open.
#![tactic(auto)]

ghost use Rattle.std.specs.Prelude.{◌≡◌, ◌≤◌, length, map, IfOk};
ghost use Rattle.cpp_lex.specs.Tokens.{lexeme_of, lexemes_of};
ghost use Rattle.cpp_nests.specs.Nests.{FirstNested, role_in};
ghost use Rattle.cpp_lex.specs.declared.TheConstants.{GREATEST_TEXT};

mod nest;
mod roles;

use cpp_lex::{Token, Tokens};
use nest::Nest;
use roles::{Role, role_of};
use std::alloc::{AllocError, Global};

/// The first token at which more constructs are open than a limit, the one that it opens among them; none where no token has so many.
/// A token has a byte at least, so there are at most as many as a text has bytes.
///
/// A bracket is open up to the one that closes it, an operator up to the end of its operand, `=`, `? :` and `throw` up to the end of
/// their last operand, and `if`, `else`, `while`, `for`, `do`, `case` and `default` up to the end of their statement. Where that end is
/// not seen by tokens alone, the construct is taken to end earlier, so a text has a tree as deep at least, if it has one.
pub fn first_nested(alloc: Global, tokens: &Tokens, limit: u32) -> Result<Option<u32>, AllocError>
    requires { length tokens.now.items.items ≤ GREATEST_TEXT }
    ensures { IfOk result (λ found. FirstNested limit (lexemes_of tokens.now) found) }
{
    let items = tokens.items.as_slice();
    let mut open = Nest::new(alloc);
    'tokens: for at in 0..items.len() {
        open.take(role_in(items, at), role_in(items, at + 1))?;
        if open.len() > limit as usize {
            return Ok(Some(at as u32));
        }
    }
    Ok(None)
}

/// What the token at an index does to the nest, or nothing behind the last.
fn role_in(tokens: &[Token], at: usize) -> Role
    ensures { result ≡ role_in (map lexeme_of tokens.now) at }
{
    match tokens.get(at) {
        Some(token) => role_of(token),
        None => Role::Silent,
    }
}
