// What tokens are to the grammar, and what is seen ahead of an index: `cast:3 class T; (T)-1`.

ghost use Rattle.std.specs.Prelude.{◌≤◌, length};

use case_texts::add_word;
use cpp_lex::Tokens;
use cpp_syntax::{Terminal, TypeNames};
use std::alloc::{AllocError, Global};

// The number of the source.
const SOURCE: u32 = 7;

// How deep the search for a shape may go.
const DEPTH: u32 = 9;

// The terminals of a text, and two behind its end.
fn terminals(alloc: Global, types: &TypeNames) -> Result<String, AllocError> {
    let mut line = String::new(alloc);
    for at in 0..types.len() + 2 {
        add_word(&mut line, &format!(in alloc; "{:?}", types.terminal(at))?)?;
    }
    Ok(line)
}

// The partners of its brackets.
fn partners(alloc: Global, types: &TypeNames) -> Result<String, AllocError> {
    let mut line = String::new(alloc);
    for at in 0..types.len() {
        add_word(&mut line, &format!(in alloc; "{:?}", types.partner(at))?)?;
    }
    Ok(line)
}

// What is seen at an index.
fn seen(types: &TypeNames, word: &str, at: usize) -> Result<bool, AllocError> {
    match word {
        "final" => Ok(types.is_at(at, Terminal::Final)),
        "type-name" => Ok(types.is_at(at, Terminal::TypeName)),
        "begins-name" => Ok(types.begins_name(at)),
        "parameters" => Ok(types.lookahead_parameters(at)),
        "cast" => types.lookahead_cast(at, DEPTH),
        "declaration" => types.lookahead_declaration(at, DEPTH),
        _ => types.lookahead_type_in_parentheses(at, DEPTH),
    }
}

/// The answer to a word, and an index behind a colon, of a text.
pub fn answer(alloc: Global, question: &str, tokens: &Tokens) -> Result<String, AllocError>
    requires { length tokens.now.items.items ≤ 1_048_576 }
{
    let types = TypeNames::of(alloc, SOURCE, tokens)?;
    let (word, at) = question.split_once(':').unwrap_or((question, ""));
    let at = at.parse::<usize>().unwrap_or(0);
    match word {
        "terminals" => terminals(alloc, &types),
        "partners" => partners(alloc, &types),
        "len" => format!(in alloc; "{}", types.len()),
        "position" => format!(in alloc; "{:?}", types.position(at)),
        "behind-type-words" => format!(in alloc; "{}", types.behind_type_words(at)),
        "thrown-type" => format!(in alloc; "{:?}", types.thrown_type(at)),
        _ => format!(in alloc; "{}", seen(&types, word, at)?),
    }
}
