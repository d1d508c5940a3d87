//! Reads types, declarators and expressions.
#![tactic(auto)]

/// Goes on where a token is what is asked for. Where it is not, notes that something else was expected there, and answers
/// from the reader around it that there is no text.
macro_rules! expect {
    ($text:ident.$is:ident($at:expr $(, $terminal:path)?), $out:ident) => {
        if !$text.$is($at $(, $terminal)?) {
            $out.expected_at($at);
            return Ok(None);
        }
    };
}

pub mod declarators;
pub mod depth;
pub mod expressions;
mod lambdas;
pub mod parse;
pub mod types;

pub use parse::{BodyRange, ExprForm, ExprOut, ParseFault, parse_expr};
