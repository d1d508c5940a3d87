// The type that specifiers give (C++14 7.1.6).

ghost use Rattle.std.specs.Prelude.{◌≡◌, List, count_by, map, option_map, IfOk};
ghost use Rattle.std.specs.Str.{bytes_eq};
ghost use Rattle.elab_conv.specs.cpp_lex.Tokens.{Lexeme, lexemes_of};
ghost use Rattle.cpp_types.specs.Typ.{typ_of, int, tx_ex};
ghost use Rattle.elab_conv.specs.elab_ctx.Ctx.{ctx_of};
ghost use Rattle.elab_conv.specs.cpp_tree.Notation.{plain};
ghost use Rattle.elab_conv.specs.elab_ctx.Steps.{spelling as spelling_of};
ghost use Rattle.elab_conv.specs.elab_rules.Types.{times as times_of, words_of, is_modified as is_modified_of, signed_kind as signed_kind_of, char_kind as char_kind_of, integer_words as integer_words_of, word_form, base_type as base_type_of, specified_type as specified_type_of, no_specifiers as no_specifiers_of};
ghost use Rattle.elab_types.specs.Specified.{with_qualifier_word as with_qualifier_word_of, with_word as with_word_of, with_named as with_named_of, named_by as named_by_of, with_exception as with_exception_of};
ghost use Rattle.elab_types.specs.Shown.{Says, base_form, counts_of, specifiers_of};

use crate::records::{Base, Specifiers, WordCounts};
use crate::syntax::spelling;
use crate::types::{may_be_thrown, type_named, with_qualifiers};
use cpp_types::{At, Shape, Ty, copy};
use elab_conv::below::{ElabFault, Env, IllRule, IntKind, Tokens};
use std::alloc::{AllocError, Global};

/// A rule that is broken at a place.
pub fn ill(at: At, rule: IllRule) -> ElabFault
    ensures { result ≡ ElabFault.Ill at rule }
{
    ElabFault::Ill { at, rule }
}

/// Whether a token is spelled so.
pub fn is_spelled(tokens: &Tokens, token: u32, word: &[u8]) -> bool
    ensures { result ≡ bytes_eq (spelling_of (lexemes_of tokens.now) token) word.now }
{
    spelling(tokens, token) == word
}

fn occurrences(tokens: &Tokens, words: &[u32], word: &[u8]) -> usize
    ensures { result ≡ count_by (λ token. bytes_eq (spelling_of (lexemes_of tokens.now) token) word.now) words.now }
{
    words
        .iter()
        .filter(|token| is_spelled(tokens, **token, word))
        .count()
}

// How often a word stands among these.
fn times(tokens: &Tokens, words: &[u32], word: &[u8]) -> Result<u32, AllocError>
    ensures { IfOk result (λ n. n ≡ times_of (map (spelling_of (lexemes_of tokens.now)) words.now) word.now) }
{
    let Ok(found) = u32::try_from(occurrences(tokens, words, word)) else {
        return Err(AllocError);
    };
    Ok(found)
}

// How often each word stands among these.
fn counted(tokens: &Tokens, words: &[u32]) -> Result<WordCounts, AllocError>
    ensures { IfOk result (λ w. counts_of w ≡ words_of (map (spelling_of (lexemes_of tokens.now)) words.now)) }
{
    let Ok(all) = u32::try_from(words.len()) else {
        return Err(AllocError);
    };
    Ok(WordCounts {
        all,
        signs: times(tokens, words, b"signed")?,
        unsigned: times(tokens, words, b"unsigned")?,
        shorts: times(tokens, words, b"short")?,
        longs: times(tokens, words, b"long")?,
        chars: times(tokens, words, b"char")?,
        ints: times(tokens, words, b"int")?,
    })
}

// Whether there are so many words beside at most one sign and at most one `int`.
fn is_modified(words: WordCounts, others: u8) -> bool
    ensures { result ≡ is_modified_of (counts_of words) others }
{
    let signs = u64::from(words.signs) + u64::from(words.unsigned);
    let ints = u64::from(words.ints);
    signs <= 1 && ints <= 1 && u64::from(words.all) == signs + ints + u64::from(others)
}

fn signed_kind(words: WordCounts, signed: IntKind, unsigned: IntKind) -> IntKind
    ensures { result ≡ signed_kind_of (counts_of words) signed unsigned }
{
    if words.unsigned == 1 {
        unsigned
    } else {
        signed
    }
}

fn char_kind(words: WordCounts) -> IntKind
    ensures { result ≡ char_kind_of (counts_of words) }
{
    if words.unsigned == 1 {
        return IntKind::UChar;
    }
    if words.signs == 1 {
        IntKind::SChar
    } else {
        IntKind::Char
    }
}

// The integer type of one or several words (C++14 7.1.6.2, table 10).
fn integer_words(words: WordCounts) -> Option<IntKind>
    ensures { option_map int result ≡ integer_words_of (counts_of words) }
{
    if words.chars == 1 && words.ints == 0 && is_modified(words, 1) {
        return Some(char_kind(words));
    }
    if words.shorts == 1 && is_modified(words, 1) {
        return Some(signed_kind(words, IntKind::Short, IntKind::UShort));
    }
    if words.longs == 1 && is_modified(words, 1) {
        return Some(signed_kind(words, IntKind::Long, IntKind::ULong));
    }
    if words.longs == 2 && is_modified(words, 2) {
        return Some(signed_kind(words, IntKind::LLong, IntKind::ULLong));
    }
    if 0 < words.all && is_modified(words, 0) {
        return Some(signed_kind(words, IntKind::Int, IntKind::UInt));
    }
    None
}

fn integer_base(tokens: &Tokens, words: &[u32]) -> Result<Option<Base>, AllocError>
    ensures { IfOk result (λ b. option_map base_form b ≡ integer_words_of (words_of (map (spelling_of (lexemes_of tokens.now)) words.now))) }
{
    match integer_words(counted(tokens, words)?) {
        Some(kind) => Ok(Some(Base::Integer(kind))),
        None => Ok(None),
    }
}

// The type that words give.
fn word_base(tokens: &Tokens, words: &[u32]) -> Result<Option<Base>, AllocError>
    ensures { IfOk result (λ b. option_map base_form b ≡ word_form (map (spelling_of (lexemes_of tokens.now)) words.now)) }
{
    if words.len() != 1 {
        return integer_base(tokens, words);
    }
    let word = spelling(tokens, words[0]);
    if word == b"void".as_slice() {
        return Ok(Some(Base::Void));
    }
    if word == b"bool".as_slice() {
        return Ok(Some(Base::Integer(IntKind::Bool)));
    }
    if word == b"auto".as_slice() {
        return Ok(Some(Base::Auto));
    }
    integer_base(tokens, words)
}

fn type_of_base(alloc: Global, base: Base) -> Ty
    ensures { typ_of result ≡ plain (base_form base) }
{
    let shape = match base {
        Base::Void => Shape::Void,
        Base::Auto => Shape::Enum {
            name: Vec::new(alloc),
            scoped: false,
        },
        Base::Integer(kind) => Shape::Int(kind),
    };
    Ty {
        shape,
        is_const: false,
        is_volatile: false,
    }
}

// The type that has a name, or that words give.
fn base_type(
    alloc: Global,
    tokens: &Tokens,
    specifiers: &Specifiers,
) -> Result<Option<Ty>, AllocError>
    ensures { IfOk result (λ t. option_map typ_of t ≡ base_type_of (option_map typ_of specifiers.now.named) (map (spelling_of (lexemes_of tokens.now)) specifiers.now.words.items)) }
{
    match &specifiers.named {
        Some(ty) => Ok(Some(copy(alloc, ty)?)),
        None => match word_base(tokens, &specifiers.words)? {
            Some(base) => Ok(Some(type_of_base(alloc, base))),
            None => Ok(None),
        },
    }
}

/// The type that specifiers give.
pub fn specified_type(
    alloc: Global,
    tokens: &Tokens,
    at: At,
    specifiers: &Specifiers,
) -> Result<Ty, ElabFault>
    ensures { Says typ_of result (specified_type_of at (specifiers_of (lexemes_of tokens.now) specifiers.now)) }
{
    let Some(base) = base_type(alloc, tokens, specifiers)? else {
        return Err(ill(at, IllRule::BadDeclaration));
    };
    let ty = with_qualifiers(alloc, specifiers.is_const, specifiers.is_volatile, &base)?;
    Ok(ty)
}

/// No specifiers yet.
pub fn no_specifiers(alloc: Global) -> Specifiers
    ensures { (s : List Lexeme) → specifiers_of s result ≡ no_specifiers_of }
{
    Specifiers {
        is_const: false,
        is_volatile: false,
        words: Vec::new(alloc),
        named: None,
    }
}

/// One more `const` or `volatile`.
pub fn with_qualifier_word(tokens: &Tokens, token: u32, specifiers: Specifiers) -> Specifiers
    ensures { specifiers_of (lexemes_of tokens.now) result ≡ with_qualifier_word_of (spelling_of (lexemes_of tokens.now) token) (specifiers_of (lexemes_of tokens.now) specifiers) }
{
    let mut found = specifiers;
    if is_spelled(tokens, token, b"const") {
        found.is_const = true;
    } else {
        found.is_volatile = true;
    }
    found
}

/// One more word of an integer type.
pub fn with_word(
    tokens: &Tokens,
    token: u32,
    specifiers: Specifiers,
) -> Result<Specifiers, AllocError>
    ensures { IfOk result (λ d. specifiers_of (lexemes_of tokens.now) d ≡ with_word_of (spelling_of (lexemes_of tokens.now) token) (specifiers_of (lexemes_of tokens.now) specifiers)) }
{
    let mut found = specifiers;
    found.words.push(token)?;
    Ok(found)
}

/// A type in place of one that stood there.
pub fn with_named(tokens: &Tokens, ty: Ty, specifiers: Specifiers) -> Specifiers
    ensures { specifiers_of (lexemes_of tokens.now) result ≡ with_named_of (typ_of ty) (specifiers_of (lexemes_of tokens.now) specifiers) }
{
    Specifiers {
        is_const: specifiers.is_const,
        is_volatile: specifiers.is_volatile,
        words: specifiers.words,
        named: Some(ty),
    }
}

/// The name of a type.
pub fn named_by(
    alloc: Global,
    env: &Env,
    tokens: &Tokens,
    at: At,
    token: u32,
    specifiers: Specifiers,
) -> Result<Specifiers, ElabFault>
    ensures { Says (specifiers_of (lexemes_of tokens.now)) result (named_by_of (ctx_of env.now) at (spelling_of (lexemes_of tokens.now) token) (specifiers_of (lexemes_of tokens.now) specifiers)) }
{
    let Some(found) = type_named(&env.types, spelling(tokens, token)) else {
        return Err(ill(at, IllRule::UnknownName));
    };
    let ty = copy(alloc, found)?;
    Ok(with_named(tokens, ty, specifiers))
}

fn exception_type(alloc: Global, ty: Ty) -> Result<Ty, AllocError>
    ensures { IfOk result (λ t. typ_of t ≡ plain (tx_ex (typ_of ty))) }
{
    let value = Box::new(alloc, ty)?;
    Ok(Ty {
        shape: Shape::TxEx(value),
        is_const: false,
        is_volatile: false,
    })
}

/// `std::tx_exception` of a type.
pub fn with_exception(
    alloc: Global,
    env: &Env,
    tokens: &Tokens,
    at: At,
    ty: Ty,
    specifiers: Specifiers,
) -> Result<Specifiers, ElabFault>
    ensures { Says (specifiers_of (lexemes_of tokens.now)) result (with_exception_of (ctx_of env.now) at (typ_of ty) (specifiers_of (lexemes_of tokens.now) specifiers)) }
{
    if !may_be_thrown(env, &ty) {
        return Err(ill(at, IllRule::NotTriviallyCopyable));
    }
    let ty = exception_type(alloc, ty)?;
    Ok(with_named(tokens, ty, specifiers))
}
