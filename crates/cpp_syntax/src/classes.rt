//! What each token of a unit is to the grammar.

ghost use Rattle.std.specs.Prelude.{◌≡◌, ◌≤◌, ◌<◌, ℕ, List, Option, None, Some, map, length, slice_get, ◌+◌, false, IfOk, OnOk, MatchOption};
ghost use Rattle.std.specs.HashMap.{get_by};
ghost use Rattle.std.specs.Str.{bytes_eq};
ghost use Rattle.cpp_lex.specs.Tokens.{Lexeme, lexeme_of};
ghost use Rattle.cpp_lex.specs.declared.TokKind.TheVariants.{Name};
ghost use Rattle.cpp_syntax.specs.Classes.{Spelled, terminal_by, key_terminal, punct_terminal, integer_terminal, name_terminal, is_introducer, is_colon_colon, introduces, qualifies, is_introduced, names_type, type_index, or_here, class_at, class_by, terminals_of};
ghost use Rattle.cpp_syntax.specs.Rows.{spelled_of};

use crate::terminal::Terminal;
use cpp_lex::{TokKind, Token};
use std::alloc::{AllocError, Global};
use std::collections::HashMap;

const KEYS: [(&[u8], Terminal); 49] = [
    (b"true", Terminal::True),
    (b"false", Terminal::False),
    (b"nullptr", Terminal::Nullptr),
    (b"void", Terminal::Void),
    (b"bool", Terminal::Bool),
    (b"auto", Terminal::Auto),
    (b"char", Terminal::Char),
    (b"short", Terminal::Short),
    (b"int", Terminal::Int),
    (b"long", Terminal::Long),
    (b"signed", Terminal::Signed),
    (b"unsigned", Terminal::Unsigned),
    (b"const", Terminal::Const),
    (b"volatile", Terminal::Volatile),
    (b"this", Terminal::This),
    (b"sizeof", Terminal::Sizeof),
    (b"static_cast", Terminal::StaticCast),
    (b"throw", Terminal::Throw),
    (b"mutable", Terminal::Mutable),
    (b"noexcept", Terminal::Noexcept),
    (b"using", Terminal::Using),
    (b"class", Terminal::Class),
    (b"struct", Terminal::Struct),
    (b"enum", Terminal::Enum),
    (b"static", Terminal::Static),
    (b"extern", Terminal::Extern),
    (b"inline", Terminal::Inline),
    (b"virtual", Terminal::Virtual),
    (b"explicit", Terminal::Explicit),
    (b"public", Terminal::Public),
    (b"protected", Terminal::Protected),
    (b"private", Terminal::Private),
    (b"if", Terminal::If),
    (b"else", Terminal::Else),
    (b"while", Terminal::While),
    (b"do", Terminal::Do),
    (b"for", Terminal::For),
    (b"switch", Terminal::Switch),
    (b"case", Terminal::Case),
    (b"default", Terminal::Default),
    (b"break", Terminal::Break),
    (b"continue", Terminal::Continue),
    (b"return", Terminal::Return),
    (b"try", Terminal::Try),
    (b"catch", Terminal::Catch),
    (b"synchronized", Terminal::Synchronized),
    (b"atomic_noexcept", Terminal::AtomicNoexcept),
    (b"atomic_cancel", Terminal::AtomicCancel),
    (b"atomic_commit", Terminal::AtomicCommit),
];

const PUNCTS: [(&[u8], Terminal); 47] = [
    (b"(", Terminal::OpenParen),
    (b")", Terminal::CloseParen),
    (b"[", Terminal::OpenBracket),
    (b"]", Terminal::CloseBracket),
    (b"{", Terminal::OpenBrace),
    (b"}", Terminal::CloseBrace),
    (b";", Terminal::Semicolon),
    (b",", Terminal::Comma),
    (b":", Terminal::Colon),
    (b"::", Terminal::ColonColon),
    (b"?", Terminal::Question),
    (b".", Terminal::Dot),
    (b"->", Terminal::Arrow),
    (b"...", Terminal::Ellipsis),
    (b"+", Terminal::Plus),
    (b"-", Terminal::Minus),
    (b"*", Terminal::Star),
    (b"/", Terminal::Slash),
    (b"%", Terminal::Percent),
    (b"^", Terminal::Caret),
    (b"&", Terminal::Amp),
    (b"|", Terminal::Bar),
    (b"~", Terminal::Tilde),
    (b"!", Terminal::Bang),
    (b"<", Terminal::Less),
    (b">", Terminal::Greater),
    (b"<<", Terminal::ShiftLeft),
    (b">>", Terminal::ShiftRight),
    (b"==", Terminal::EqualEqual),
    (b"!=", Terminal::NotEqual),
    (b"<=", Terminal::LessEqual),
    (b">=", Terminal::GreaterEqual),
    (b"&&", Terminal::AmpAmp),
    (b"||", Terminal::BarBar),
    (b"++", Terminal::PlusPlus),
    (b"--", Terminal::MinusMinus),
    (b"=", Terminal::Equal),
    (b"+=", Terminal::PlusEqual),
    (b"-=", Terminal::MinusEqual),
    (b"*=", Terminal::StarEqual),
    (b"/=", Terminal::SlashEqual),
    (b"%=", Terminal::PercentEqual),
    (b"^=", Terminal::CaretEqual),
    (b"&=", Terminal::AmpEqual),
    (b"|=", Terminal::BarEqual),
    (b"<<=", Terminal::ShiftLeftEqual),
    (b">>=", Terminal::ShiftRightEqual),
];

const SPECIAL_NAMES: [(&[u8], Terminal); 7] = [
    (b"abort", Terminal::Abort),
    (b"tx_exception", Terminal::TxException),
    (
        b"optimize_for_synchronized",
        Terminal::OptimizeForSynchronized,
    ),
    (b"override", Terminal::Override),
    (b"final", Terminal::Final),
    (b"transaction_safe", Terminal::TransactionSafe),
    (
        b"transaction_safe_dynamic",
        Terminal::TransactionSafeDynamic,
    ),
];

/// What a spelling is by a table, or otherwise.
fn terminal_by(rows: &[(&[u8], Terminal)], word: &[u8], otherwise: Terminal) -> Terminal
    ensures { result ≡ terminal_by (map spelled_of rows.now) word.now otherwise }
{
    for row in rows {
        if row.0 == word {
            return row.1;
        }
    }
    otherwise
}

/// What a key is.
#[tactic(auto, unfolding(crate::specs::Classes::key_terminal, crate::specs::Classes::keys))]
fn key_terminal(word: &[u8]) -> Terminal
    ensures { result ≡ key_terminal word.now }
{
    terminal_by(&KEYS, word, Terminal::Other)
}

/// What an operator or punctuator is.
#[tactic(auto, unfolding(crate::specs::Classes::punct_terminal, crate::specs::Classes::puncts))]
fn punct_terminal(word: &[u8]) -> Terminal
    ensures { result ≡ punct_terminal word.now }
{
    terminal_by(&PUNCTS, word, Terminal::Other)
}

/// What an integer is.
#[tactic(auto, unfolding(crate::specs::Classes::integer_terminal))]
fn integer_terminal(word: &[u8]) -> Terminal
    ensures { result ≡ integer_terminal word.now }
{
    if word == b"0".as_slice() {
        Terminal::Zero
    } else {
        Terminal::Integer
    }
}

/// What a name is by its spelling alone, before `::` or not.
#[tactic(auto, unfolding(crate::specs::Classes::name_terminal, crate::specs::Classes::special_names))]
fn name_terminal(word: &[u8], qualifies: bool) -> Terminal
    ensures { result ≡ name_terminal word.now qualifies }
{
    if qualifies && word == b"std".as_slice() {
        return Terminal::Std;
    }
    terminal_by(&SPECIAL_NAMES, word, Terminal::Name)
}

/// Whether a token is `class`, `struct`, `enum` or `using`.
fn introduces(token: &Token) -> bool
    ensures { result ≡ introduces (Some (lexeme_of token.now)) }
{
    match token.kind {
        TokKind::Key => matches!(
            key_terminal(&token.bytes),
            Terminal::Class | Terminal::Struct | Terminal::Enum | Terminal::Using
        ),
        _ => false,
    }
}

/// Whether a token is `::`.
fn is_colon_colon(token: &Token) -> bool
    ensures { result ≡ qualifies (Some (lexeme_of token.now)) }
{
    match token.kind {
        TokKind::Punct => matches!(punct_terminal(&token.bytes), Terminal::ColonColon),
        _ => false,
    }
}

/// Whether the token at an index stands directly behind `class`, `struct`, `enum` or `using`.
fn is_introduced(tokens: &[Token], at: usize) -> bool
    requires { at ≤ length tokens.now }
    ensures { result ≡ is_introduced (map lexeme_of tokens.now) at }
{
    at > 0 && introduces(&tokens[at - 1])
}

/// Whether `::` stands directly behind the token at an index.
fn is_qualifying(tokens: &[Token], at: usize) -> bool
    requires { at < length tokens.now }
    ensures { result ≡ qualifies (slice_get (map lexeme_of tokens.now) (at + 1)) }
{
    at + 1 < tokens.len() && is_colon_colon(&tokens[at + 1])
}

/// The name that becomes the name of a type at an index.
fn type_named(tokens: &[Token], at: usize) -> Option<&[u8]>
    requires { at < length tokens.now }
    ensures { MatchOption result ((word : List ℕ) → names_type (map lexeme_of tokens.now) word at ≡ false) (λ name. (word : List ℕ) → names_type (map lexeme_of tokens.now) word at ≡ bytes_eq name.now word) }
{
    if !is_introduced(tokens, at) {
        return None;
    }
    match tokens[at].kind {
        TokKind::Name => Some(&tokens[at].bytes),
        _ => None,
    }
}

/// The first index at which each name becomes the name of a type.
fn type_indices(alloc: Global, tokens: &[Token]) -> Result<HashMap<&[u8], usize>, AllocError>
    ensures { IfOk result (λ indices. (word : List ℕ) → get_by (λ key. bytes_eq word key.now) indices ≡ type_index (map lexeme_of tokens.now) word (length tokens.now)) }
{
    let mut indices = HashMap::new(alloc);
    for at in 0..tokens.len() {
        note_type(&mut indices, tokens, at)?;
    }
    Ok(indices)
}

/// Notes an index where a name becomes the name of a type.
fn note_type<'a>(
    indices: &mut HashMap<&'a [u8], usize>,
    tokens: &'a [Token],
    at: usize,
) -> Result<(), AllocError>
    requires { at < length tokens.now }
    ensures { OnOk result ((word : List ℕ) → get_by (λ key. bytes_eq word key.now) indices.new ≡ or_here (get_by (λ key. bytes_eq word key.now) indices.old) (names_type (map lexeme_of tokens.now) word at) at) }
{
    match type_named(tokens, at) {
        Some(name) => note_index(indices, name, at),
        None => Ok(()),
    }
}

/// Notes the index of a name that has none.
fn note_index<'a>(
    indices: &mut HashMap<&'a [u8], usize>,
    name: &'a [u8],
    at: usize,
) -> Result<(), AllocError>
    ensures { OnOk result ((word : List ℕ) → get_by (λ key. bytes_eq word key.now) indices.new ≡ or_here (get_by (λ key. bytes_eq word key.now) indices.old) (bytes_eq name.now word) at) }
{
    if indices.get(&name).is_none() {
        indices.insert(name, at)?;
    }
    Ok(())
}

/// What the token at an index is, where names have these indices.
fn class_at(tokens: &[Token], indices: &HashMap<&[u8], usize>, at: usize) -> Terminal
    requires inside { at < length tokens.now }
    requires indices { (word : List ℕ) → get_by (λ key. bytes_eq word key.now) indices.now ≡ type_index (map lexeme_of tokens.now) word (length tokens.now) }
    ensures { result ≡ class_at (map lexeme_of tokens.now) at }
{
    let token = &tokens[at];
    match token.kind {
        TokKind::Name => name_class(tokens, indices, at),
        TokKind::Key => key_terminal(&token.bytes),
        TokKind::Punct => punct_terminal(&token.bytes),
        TokKind::Int => integer_terminal(&token.bytes),
        TokKind::Char => Terminal::Character,
        TokKind::Str => Terminal::String,
    }
}

/// What the name at an index is.
fn name_class(tokens: &[Token], indices: &HashMap<&[u8], usize>, at: usize) -> Terminal
    requires inside { at < length tokens.now }
    requires indices { (word : List ℕ) → get_by (λ key. bytes_eq word key.now) indices.now ≡ type_index (map lexeme_of tokens.now) word (length tokens.now) }
    ensures { (token : Lexeme) → slice_get (map lexeme_of tokens.now) at ≡ Some token → result ≡ class_by (map lexeme_of tokens.now) at Name token.bytes }
{
    let word = tokens[at].bytes.as_slice();
    let by_spelling = name_terminal(word, is_qualifying(tokens, at));
    if is_introduced(tokens, at) {
        return by_spelling;
    }
    match indices.get(&word) {
        Some(index) if *index < at => by_spelling.as_type_name(),
        Some(_) => by_spelling.before_type_name(),
        None => by_spelling,
    }
}

/// What each token is.
pub(crate) fn terminals(alloc: Global, tokens: &[Token]) -> Result<Vec<Terminal>, AllocError>
    ensures { IfOk result (λ terminals. terminals.items ≡ terminals_of (map lexeme_of tokens.now)) }
{
    let indices = type_indices(alloc, tokens)?;
    let mut terminals = Vec::with_capacity(alloc, tokens.len())?;
    for at in 0..tokens.len() {
        terminals.push(class_at(tokens, &indices, at))?;
    }
    Ok(terminals)
}
