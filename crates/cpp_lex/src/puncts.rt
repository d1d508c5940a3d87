//! Operators and punctuators.

ghost use Rattle.std.specs.Prelude.{◌≡◌, ◌+◌, ◌<◌, ◌≤◌, length, ℕ};
ghost use Rattle.cpp_lex.specs.Puncts.{is_single_punct, is_double_punct, is_triple_punct, is_digraph, opens_comment, IsPunct};
ghost use Rattle.cpp_lex.specs.Readings.{IsLongest};

use crate::bytes::byte;

const SINGLE_PUNCTS: [u8; 24] = *b"{}[]();:?.,+-*/%^&|~!=<>";

const DOUBLE_PUNCTS: [[u8; 2]; 21] = [
    *b"+=", *b"-=", *b"*=", *b"/=", *b"%=", *b"^=", *b"&=", *b"|=", *b"<<", *b">>", *b"==", *b"!=",
    *b"<=", *b">=", *b"&&", *b"||", *b"++", *b"--", *b"->", *b"::", *b".*",
];

const TRIPLE_PUNCTS: [[u8; 3]; 4] = [*b"<<=", *b">>=", *b"...", *b"->*"];

const DIGRAPHS: [[u8; 2]; 5] = [*b"<:", *b":>", *b"<%", *b"%>", *b"%:"];

#[tactic(auto, unfolding(crate::specs::Puncts::is_single_punct, crate::specs::Puncts::single_puncts))]
fn is_single_punct(b: u8) -> bool
    ensures { result ≡ is_single_punct b }
{
    SINGLE_PUNCTS.iter().any(|spelling| *spelling == b)
}

#[tactic(auto, unfolding(crate::specs::Puncts::is_double_punct, crate::specs::Puncts::double_puncts))]
fn is_double_punct(b: u8, c: u8) -> bool
    ensures { result ≡ is_double_punct b c }
{
    DOUBLE_PUNCTS
        .iter()
        .any(|spelling| spelling[0] == b && spelling[1] == c)
}

#[tactic(auto, unfolding(crate::specs::Puncts::is_triple_punct, crate::specs::Puncts::triple_puncts))]
fn is_triple_punct(b: u8, c: u8, d: u8) -> bool
    ensures { result ≡ is_triple_punct b c d }
{
    TRIPLE_PUNCTS.iter().any(|spelling| spelling[0] == b && spelling[1] == c && spelling[2] == d)
}

/// Whether two bytes are a digraph.
#[tactic(auto, unfolding(crate::specs::Puncts::is_digraph, crate::specs::Puncts::digraphs))]
pub fn is_digraph(b: u8, c: u8) -> bool
    ensures { result ≡ is_digraph b c }
{
    DIGRAPHS
        .iter()
        .any(|spelling| spelling[0] == b && spelling[1] == c)
}

fn opens_comment(b: u8, c: u8) -> bool
    ensures { result ≡ opens_comment b c }
{
    b == b'/' && (c == b'/' || c == b'*')
}

/// Where the punct at a position ends.
pub fn punct_end(text: &[u8], from: usize) -> Option<usize>
    requires { from < length text.now }
    ensures { IsLongest (λ to. IsPunct text.now from to) result }
{
    let first = text[from];
    let second = byte(text, from + 1);
    if is_triple_punct(first, second, byte(text, from + 2)) {
        return Some(from + 3);
    }
    if is_double_punct(first, second) {
        return Some(from + 2);
    }
    if opens_comment(first, second) {
        return None;
    }
    if is_single_punct(first) {
        Some(from + 1)
    } else {
        None
    }
}
