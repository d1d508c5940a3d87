//! The pieces that a text is cut into.

ghost use Rattle.std.specs.Prelude.{◌≡◌, ◌+◌, ◌<◌, ◌≤◌, ◌^◌, ◌↔◌, IsTrue, MatchOption, length, ℕ, slice_range};
ghost use Rattle.std.specs.Option.{SomeIff};
ghost use Rattle.cpp_lex.specs.Kinds.{kind_by};
ghost use Rattle.cpp_lex.specs.Skipped.{IsFirstOnLine};
ghost use Rattle.cpp_lex.specs.declared.piece.PieceKind.TheVariants.{CharacterLiteral};
ghost use Rattle.cpp_lex.specs.Ints.{int_value};
ghost use Rattle.cpp_lex.specs.Pieces.{Spells, IsLegal, IsLegalInt, NoPiece};
ghost use Rattle.cpp_lex.specs.Tokens.{IsPiece, piece_value, token_kind};
ghost use Rattle.cpp_lex.specs.Readings.{IsLongest};

use crate::TokKind;
use crate::bytes::{byte, is_blank, is_letter, is_quote, is_word_byte};
use crate::ints::{int_end, int_type, int_value};
use crate::puncts::{is_digraph, punct_end};
use crate::quoted::{char_end, char_value, str_end};
use crate::skipped::{
    blank_end, block_comment_end, hash_line_end, is_first_behind, line_comment_end,
};
use crate::words::{is_keyword, word_end};

/// What a piece is, by the terms of C++14 clause 2.
#[derive(Clone, Copy, Debug, PartialEq, Eq)]
pub enum PieceKind {
    /// Spaces, tabs and ends of lines.
    Blank,
    /// `//` and the rest of its line.
    LineComment,
    /// `/*`, `*/` and what is between them.
    BlockComment,
    /// A line marker or a pragma.
    HashLine,
    /// A name or a keyword.
    Word,
    IntegerLiteral,
    CharacterLiteral,
    StringLiteral,
    /// An operator or a punctuator.
    Punctuator,
}

/// A piece of a text: what it is, the offset of the byte after its last, and its value.
#[derive(Clone, Copy, Debug)]
pub struct Piece {
    pub kind: PieceKind,
    pub to: usize,
    pub value: u64,
}

/// The kind of piece that two bytes can begin.
#[tactic(auto, unfolding(crate::specs::Kinds::kind_by))]
fn kind_by(b: u8, next: u8) -> PieceKind
    ensures { result ≡ kind_by b next }
{
    if is_letter(b) {
        PieceKind::Word
    } else if b.is_ascii_digit() {
        PieceKind::IntegerLiteral
    } else if is_blank(b) {
        PieceKind::Blank
    } else if b == b'\'' {
        PieceKind::CharacterLiteral
    } else if b == b'"' {
        PieceKind::StringLiteral
    } else if b == b'#' {
        PieceKind::HashLine
    } else if b == b'/' && next == b'/' {
        PieceKind::LineComment
    } else if b == b'/' && next == b'*' {
        PieceKind::BlockComment
    } else {
        PieceKind::Punctuator
    }
}

/// Where the longest spelling of the kind at a position ends.
fn spelled_end(kind: PieceKind, text: &[u8], from: usize, is_first: bool) -> Option<usize>
    requires here { from < length text.now }
    requires first { IsTrue is_first ↔ IsFirstOnLine text.now from }
    ensures { IsLongest (λ to. Spells text.now kind from to) result }
{
    match kind {
        PieceKind::Blank => blank_end(text, from),
        PieceKind::LineComment => line_comment_end(text, from),
        PieceKind::BlockComment => block_comment_end(text, from),
        PieceKind::HashLine => hash_line_end(text, from, is_first),
        PieceKind::Word => word_end(text, from),
        PieceKind::IntegerLiteral => int_end(text, from),
        PieceKind::CharacterLiteral => char_end(text, from),
        PieceKind::StringLiteral => str_end(text, from),
        PieceKind::Punctuator => punct_end(text, from),
    }
}

/// The value of a piece of this spelling, if it is below 2 to the 64.
fn piece_value(kind: PieceKind, bytes: &[u8]) -> Option<u64>
    requires { kind ≡ CharacterLiteral → 2 ≤ length bytes.now }
    ensures { SomeIff result (piece_value kind bytes.now < 2 ^ 64) (piece_value kind bytes.now) }
{
    match kind {
        PieceKind::IntegerLiteral => int_value(bytes),
        PieceKind::CharacterLiteral => char_value(bytes),
        PieceKind::Blank
        | PieceKind::LineComment
        | PieceKind::BlockComment
        | PieceKind::HashLine
        | PieceKind::Word
        | PieceKind::StringLiteral
        | PieceKind::Punctuator => Some(0),
    }
}

fn is_legal_int(text: &[u8], from: usize, to: usize, value: u64) -> bool
    requires ordered { from ≤ to }
    requires inside { to ≤ length text.now }
    requires value { value ≡ int_value (slice_range text.now from to) }
    ensures { IsTrue result ↔ IsLegalInt text.now from to }
{
    let next = byte(text, to);
    !is_word_byte(next) && next != b'.' && int_type(&text[from..to], value).is_some()
}

/// Whether a spelling of the kind and value is one that a piece may have at its position.
fn is_legal(kind: PieceKind, text: &[u8], from: usize, to: usize, value: u64) -> bool
    requires ordered { from ≤ to }
    requires inside { to ≤ length text.now }
    requires value { value ≡ piece_value kind (slice_range text.now from to) }
    ensures { IsTrue result ↔ IsLegal text.now kind from to }
{
    match kind {
        PieceKind::Word => !is_quote(byte(text, to)),
        PieceKind::IntegerLiteral => is_legal_int(text, from, to, value),
        PieceKind::Punctuator => !is_digraph(byte(text, from), byte(text, from + 1)),
        PieceKind::Blank
        | PieceKind::LineComment
        | PieceKind::BlockComment
        | PieceKind::HashLine
        | PieceKind::CharacterLiteral
        | PieceKind::StringLiteral => true,
    }
}

/// The piece at a position, where it is known whether only blanks stand before it on its line.
pub fn read_piece(text: &[u8], from: usize, is_first: bool) -> Option<Piece>
    requires here { from < length text.now }
    requires first { IsTrue is_first ↔ IsFirstOnLine text.now from }
    ensures { MatchOption result (NoPiece text.now from) (IsPiece text.now from) }
{
    let kind = kind_by(text[from], byte(text, from + 1));
    let Some(to) = spelled_end(kind, text, from, is_first) else {
        return None;
    };
    let Some(value) = piece_value(kind, &text[from..to]) else {
        return None;
    };
    if is_legal(kind, text, from, to, value) {
        Some(Piece { kind, to, value })
    } else {
        None
    }
}

/// The kind of token that a piece of this spelling is, or none where it is skipped.
pub fn token_kind(kind: PieceKind, bytes: &[u8]) -> Option<TokKind>
    ensures { result ≡ token_kind kind bytes.now }
{
    match kind {
        PieceKind::Blank | PieceKind::LineComment | PieceKind::BlockComment | PieceKind::HashLine =>
            None,
        PieceKind::Word => Some(if is_keyword(bytes) {
            TokKind::Key
        } else {
            TokKind::Name
        }),
        PieceKind::IntegerLiteral => Some(TokKind::Int),
        PieceKind::CharacterLiteral => Some(TokKind::Char),
        PieceKind::StringLiteral => Some(TokKind::Str),
        PieceKind::Punctuator => Some(TokKind::Punct),
    }
}

/// Whether only blanks stand on the line before the end of a piece, where it is known of its beginning.
pub fn is_first_after(text: &[u8], from: usize, piece: Piece, is_first: bool) -> bool
    requires piece { IsPiece text.now from piece }
    requires first { IsTrue is_first ↔ IsFirstOnLine text.now from }
    ensures { IsTrue result ↔ IsFirstOnLine text.now piece.to }
{
    if let PieceKind::Blank = piece.kind {
        is_first_behind(text, from, piece.to, is_first)
    } else {
        false
    }
}
