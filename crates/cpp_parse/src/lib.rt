//! Reads a unit of C++14: its declarations, members of classes, statements and the bodies of lambdas.
//!
//! `parse_unit` is the call; the readers beneath it each answer the longest text of their rule of the grammar ([`cpp_syntax`]).
#![tactic(auto)]

/// Goes on where a token is what is asked for. Where it is not, notes that something else was expected there, and answers
/// from the reader around it that there is no text.
macro_rules! expect {
    ($text:ident.$is:ident($at:expr $(, $terminal:path)?), $out:ident) => {
        if !$text.$is($at $(, $terminal)?) {
            $out.expected_at($at);
            return Ok(None);
        }
    };
    ($is:ident($text:ident, $at:expr), $out:ident) => {
        if !$is($text, $at) {
            $out.expected_at($at);
            return Ok(None);
        }
    };
}

mod blocks;
mod bodies;
mod classes;
mod constructors;
pub mod declarations;
mod functions;
pub mod initializers;
mod loops;
pub mod members;
pub mod parse;
mod single_members;
mod specifiers;
pub mod statements;
mod terminals;

pub use parse::parse_unit;
