//! Cuts a C++14 text into tokens.
//!
//! The tokens are those of C++14 clause 2 with the keywords of ISO/IEC TS 19841:2015, without floating literals,
//! prefixes of literals, raw strings, trigraphs and digraphs. `specs/Tokens.antt` says what the tokens of a text are.
#![tactic(auto)]

ghost use Rattle.std.specs.Prelude.{◌≡◌, ◌≤◌, ◌&&◌, length, ℕ, List, map, All, IfOk, OnOk, MatchResult};
ghost use Rattle.cpp_lex.specs.Tokens.{IsTokens, IsFault, IsFaultAt, IsPiece, lexeme_of, lexemes_of, Lexeme, as_one, is_str, IsAscending, IsTyped};
ghost use Rattle.cpp_lex.specs.Growth.{added, with_piece};

pub use ints::int_type;
use piece::{Piece, is_first_after, read_piece, token_kind};
use std::alloc::{AllocError, Global};
use thiserror::Error;

mod bytes;
mod ints;
mod piece;
mod puncts;
mod quoted;
mod skipped;
mod words;

/// The greatest length of a text, in bytes.
pub const GREATEST_TEXT: u64 = 1_048_576;

/// What a token is.
#[derive(Clone, Copy, Debug, PartialEq, Eq)]
pub enum TokKind {
    /// An identifier, those with a special meaning in some positions among them, as `override`.
    Name,
    /// A keyword of C++14 or of the TS, or an alternative token, as `and`.
    Key,
    /// An operator or a punctuator.
    Punct,
    /// An integer literal.
    Int,
    /// A character literal.
    Char,
    /// String literals with nothing but skipped text between them.
    Str,
}

/// A token of a text.
#[derive(Debug, Drop)]
pub struct Token {
    pub kind: TokKind,
    /// The offset of its first byte.
    pub from: u32,
    /// The offset of the byte after its last.
    pub to: u32,
    /// The value of an `Int`, or of a `Char` from 0 to 255; else 0.
    pub value: u64,
    /// Its spelling; for strings that are one token, theirs one after the other.
    pub bytes: Vec<u8>,
}

/// The tokens of a text in order.
#[derive(Debug, Drop)]
pub struct Tokens {
    pub items: Vec<Token>,
}

/// Why a text has no tokens.
#[derive(Debug, Drop, Error)]
pub enum LexFault {
    /// The offset of the first byte that begins neither a token nor something that is skipped.
    #[error("no token at byte {offset}")]
    At { offset: u32 },
    #[error("out of memory")]
    Memory,
}

/// Adds a token, or joins it to the last one where both are strings.
fn add_token(tokens: &mut Vec<Token>, token: Token) -> Result<(), AllocError>
    ensures { OnOk result (map lexeme_of tokens.new.items ≡ added (map lexeme_of tokens.old.items) (lexeme_of token)) }
{
    let Some(last) = tokens.pop() else {
        tokens.push(token)?;
        return Ok(());
    };
    if are_strings(&last, &token) {
        let joined = joined_strings(last, token)?;
        tokens.push(joined)?;
        return Ok(());
    }
    tokens.push(last)?;
    tokens.push(token)?;
    Ok(())
}

fn are_strings(first: &Token, second: &Token) -> bool
    ensures { result ≡ (is_str first.now.kind && is_str second.now.kind) }
{
    matches!(first.kind, TokKind::Str) && matches!(second.kind, TokKind::Str)
}

/// Two strings as one token.
fn joined_strings(first: Token, second: Token) -> Result<Token, AllocError>
    ensures { IfOk result (λ token. lexeme_of token ≡ as_one (lexeme_of first) (lexeme_of second)) }
{
    let mut bytes = first.bytes;
    bytes.extend_from_slice(&second.bytes)?;
    Ok(Token {
        kind: first.kind,
        from: first.from,
        to: second.to,
        value: first.value,
        bytes,
    })
}

/// Adds what a piece that begins at a position gives.
fn add_piece(
    alloc: Global,
    tokens: &mut Vec<Token>,
    text: &[u8],
    from: usize,
    piece: Piece,
) -> Result<(), AllocError>
    requires small { length text.now ≤ GREATEST_TEXT }
    requires piece { IsPiece text.now from piece }
    ensures { OnOk result (map lexeme_of tokens.new.items ≡ with_piece text.now (map lexeme_of tokens.old.items) piece.kind from piece.to) }
{
    let spelling = &text[from..piece.to];
    let Some(kind) = token_kind(piece.kind, spelling) else {
        return Ok(());
    };
    let bytes = spelling.to_vec(alloc)?;
    let token = Token {
        kind,
        from: from as u32,
        to: piece.to as u32,
        value: piece.value,
        bytes,
    };
    add_token(tokens, token)
}

/// The tokens of a text, or the position of the first byte where none begins.
pub fn lex(alloc: Global, text: &[u8]) -> Result<Tokens, LexFault>
    requires { length text.now ≤ GREATEST_TEXT }
    ensures { MatchResult result (λ tokens. IsTokens text.now (lexemes_of tokens)) (IsFault text.now) }
{
    let mut items = Vec::new(alloc);
    let mut at = 0;
    let mut is_first = true;
    'pieces: while at < text.len() {
        let Some(piece) = read_piece(text, at, is_first) else {
            return Err(LexFault::At { offset: at as u32 });
        };
        let Ok(()) = add_piece(alloc, &mut items, text, at, piece) else {
            return Err(LexFault::Memory);
        };
        is_first = is_first_after(text, at, piece, is_first);
        at = piece.to;
    }
    Ok(Tokens { items })
}

/// A text has one list of tokens or one fault and not both. The tokens stand in the text in order, the type of an
/// `Int` holds its value, and the value of a `Char` is at most 255.
pub fn one_reading()
    ensures one { (text : List ℕ) (ts us : List Lexeme) → IsTokens text ts → IsTokens text us → ts ≡ us }
    ensures none { (text : List ℕ) (at : ℕ) → IsFaultAt text at → (ts : List Lexeme) → IsTokens text ts → ⊥ }
    ensures first { (text : List ℕ) (at other : ℕ) → IsFaultAt text at → IsFaultAt text other → at ≡ other }
    ensures ordered { (text : List ℕ) (ts : List Lexeme) → IsTokens text ts → IsAscending 0 ts (length text) }
    ensures typed { (text : List ℕ) (ts : List Lexeme) → IsTokens text ts → All IsTyped ts }
{}
