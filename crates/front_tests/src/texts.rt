// Texts: `lex int x;`, `unit int x;`.

ghost use Rattle.std.specs.Prelude.{◌≤◌, length, IfOk};

use crate::{lookahead, trees};
use case_texts::bytes_of;
use cpp_lex::{LexFault, Tokens, int_type, lex};
use cpp_nests::first_nested;
use cpp_parse::parse_unit;
use cpp_parse_expr::{ExprForm, ParseFault};
use std::alloc::{AllocError, Global};

// The most bytes of a text, and the most tokens.
const LIMIT: usize = 1_048_576;

// The forms that are read alone, each with the word that asks for it and the depth of its root: 5 as in
// `int main() { return (..0..); }`.
const FORMS: [(&str, ExprForm, u32); 10] = [
    ("Expr", ExprForm::Expr, 1),
    ("Deep", ExprForm::Expr, 5),
    ("Assign", ExprForm::Assign, 1),
    ("Cond", ExprForm::Cond, 1),
    ("TypeHead", ExprForm::TypeHead, 1),
    ("TypeId", ExprForm::TypeId, 1),
    ("Declarator", ExprForm::Declarator, 1),
    ("Param", ExprForm::Param, 1),
    ("Params", ExprForm::Params, 1),
    ("Quals", ExprForm::Quals, 1),
];

// The tokens of a text. One of more than 1048576 bytes is answered as want of memory.
fn tokens_of(alloc: Global, text: &[u8]) -> Result<Tokens, LexFault>
    ensures { IfOk result (λ tokens. length tokens.items.items ≤ 1_048_576) }
{
    if text.len() > LIMIT {
        return Err(LexFault::Memory);
    }
    match lex(alloc, text) {
        Ok(tokens) if tokens.items.len() <= LIMIT => Ok(tokens),
        Ok(_) => Err(LexFault::Memory),
        Err(fault) => Err(fault),
    }
}

// Each token: its kind, where it begins and ends, its value and its spelling.
fn listed(alloc: Global, tokens: &Tokens) -> Result<String, AllocError> {
    let mut line = format!(in alloc; "{} tokens", tokens.items.len())?;
    for token in &tokens.items {
        let spelling = token.bytes.escape_ascii();
        line.push_str(&format!(in alloc;
            ", {:?} {} {} {} {spelling}",
            token.kind, token.from, token.to, token.value
        )?)?;
    }
    Ok(line)
}

// Whether a text is answered: as a unit, as no unit or as one without tokens.
fn is_answered(alloc: Global, text: &[u8]) -> bool {
    match tokens_of(alloc, text) {
        Ok(tokens) => matches!(
            parse_unit(alloc, 0, &tokens),
            Ok(_) | Err(ParseFault::Syntax { .. })
        ),
        Err(LexFault::At { .. }) => true,
        Err(LexFault::Memory) => false,
    }
}

// How many beginnings of a text are answered, of how many.
fn beginnings(alloc: Global, text: &[u8]) -> Result<String, AllocError> {
    let mut count = 0u64;
    for len in 0..text.len() {
        let beginning = text.get(..len).unwrap_or(b"");
        if is_answered(alloc, beginning) {
            count = count.saturating_add(1);
        }
    }
    format!(in alloc; "{count} of {}", text.len())
}

// The answer to a word of a text that has tokens.
fn asked(alloc: Global, word: &str, text: &[u8], tokens: &Tokens) -> Result<String, AllocError>
    requires { length tokens.now.items.items ≤ 1_048_576 }
{
    for (name, form, depth) in FORMS.iter() {
        if word == *name {
            return trees::expression(alloc, *form, *depth, tokens);
        }
    }
    match word {
        "lex" => listed(alloc, tokens),
        "nested" => format!(in alloc; "{:?}", first_nested(alloc, tokens, 3)?),
        "unit" => trees::unit(alloc, tokens),
        "declarations" => trees::declarations(alloc, tokens),
        "slip" => trees::slip(alloc, text, tokens),
        "beginnings" => beginnings(alloc, text),
        _ => lookahead::answer(alloc, word, tokens),
    }
}

/// The answer to a word of a text.
pub fn answer(alloc: Global, word: &str, text: &str) -> Result<String, AllocError> {
    if word == "int-type" {
        let (literal, value) = text.split_once(' ').unwrap_or((text, ""));
        let value = value.parse::<u64>().unwrap_or(0);
        return format!(in alloc; "{:?}", int_type(literal.as_bytes(), value));
    }
    let text = bytes_of(alloc, text)?;
    match tokens_of(alloc, &text) {
        Ok(tokens) => asked(alloc, word, &text, &tokens),
        Err(LexFault::At { offset }) => format!(in alloc; "fault {offset}"),
        Err(LexFault::Memory) => format!(in alloc; "memory"),
    }
}
