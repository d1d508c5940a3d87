//! Names and keywords.

ghost use Rattle.std.specs.Prelude.{◌≡◌, ◌+◌, ◌<◌, ◌≤◌, length, ℕ};
ghost use Rattle.std.specs.List.{list_any};
ghost use Rattle.std.specs.Str.{bytes_eq};
ghost use Rattle.cpp_lex.specs.Words.{IsWord, is_keyword};
ghost use Rattle.cpp_lex.specs.Readings.{IsLongest};

use crate::bytes::{Class, is_letter, run_end};

const KEYWORDS: [&[u8]; 88] = [
    b"alignas",
    b"alignof",
    b"asm",
    b"auto",
    b"bool",
    b"break",
    b"case",
    b"catch",
    b"char",
    b"char16_t",
    b"char32_t",
    b"class",
    b"const",
    b"constexpr",
    b"const_cast",
    b"continue",
    b"decltype",
    b"default",
    b"delete",
    b"do",
    b"double",
    b"dynamic_cast",
    b"else",
    b"enum",
    b"explicit",
    b"export",
    b"extern",
    b"false",
    b"float",
    b"for",
    b"friend",
    b"goto",
    b"if",
    b"inline",
    b"int",
    b"long",
    b"mutable",
    b"namespace",
    b"new",
    b"noexcept",
    b"nullptr",
    b"operator",
    b"private",
    b"protected",
    b"public",
    b"register",
    b"reinterpret_cast",
    b"return",
    b"short",
    b"signed",
    b"sizeof",
    b"static",
    b"static_assert",
    b"static_cast",
    b"struct",
    b"switch",
    b"template",
    b"this",
    b"thread_local",
    b"throw",
    b"true",
    b"try",
    b"typedef",
    b"typeid",
    b"typename",
    b"union",
    b"unsigned",
    b"using",
    b"virtual",
    b"void",
    b"volatile",
    b"wchar_t",
    b"while",
    b"and",
    b"and_eq",
    b"bitand",
    b"bitor",
    b"compl",
    b"not",
    b"not_eq",
    b"or",
    b"or_eq",
    b"xor",
    b"xor_eq",
    b"synchronized",
    b"atomic_noexcept",
    b"atomic_cancel",
    b"atomic_commit",
];

fn is_among(words: &[&[u8]], word: &[u8]) -> bool
    ensures { result ≡ list_any (λ other. bytes_eq other.now word.now) words.now }
{
    words.iter().any(|other| *other == word)
}

/// Whether a word is a keyword of C++14 or of the TS, or an alternative token.
#[tactic(auto, unfolding(crate::specs::Words::is_keyword, crate::specs::Words::keywords))]
pub fn is_keyword(word: &[u8]) -> bool
    ensures { result ≡ is_keyword word.now }
{
    is_among(&KEYWORDS, word)
}

/// Where the word that begins at a position ends.
pub fn word_end(text: &[u8], from: usize) -> Option<usize>
    requires { from < length text.now }
    ensures { IsLongest (λ to. IsWord text.now from to) result }
{
    if is_letter(text[from]) {
        Some(run_end(Class::WordByte, text, from + 1))
    } else {
        None
    }
}
