//! The units of the texts.

ghost use Rattle.std.specs.Prelude.{◌≡◌, map, IfOk, IfErr, IfSome};
ghost use Rattle.cpp_lex.specs.Tokens.{lexemes_of, IsTokens};
ghost use Rattle.source_verdict.specs.Front.{offset_of, IsRead, IsNotRead, AreRead, IsFirstUnread};

use cpp_ast::Unit;
use cpp_lex::{GREATEST_TEXT, LexFault, Tokens, lex};
use cpp_parse::parse_unit;
use cpp_parse_expr::ParseFault;
use cpp_syntax::limits::MAX_TOKENS;
use std::alloc::Global;

/// Why a text has no unit: where, in bytes from its beginning.
#[derive(Clone, Copy, Debug)]
pub enum FrontFault {
    /// No token begins there.
    Lex { offset: usize },
    /// The token there belongs to no unit.
    Syntax { offset: usize },
    /// The unit nests too deep.
    Nesting { offset: usize },
    Memory,
}

/// Why texts have no units: the fault of the first text that has none.
#[derive(Clone, Copy, Debug)]
pub struct Unread {
    pub index: usize,
    pub fault: FrontFault,
}

// The offset of a token; of the one behind the last the end of the text.
fn offset_of(tokens: &Tokens, end: usize, token: u32) -> usize
    ensures { result ≡ offset_of (lexemes_of tokens.now) end token }
{
    match tokens.items.get(token as usize) {
        Some(token) => token.from as usize,
        None => end,
    }
}

// The unit of the tokens of a text.
fn parsed(alloc: Global, number: u32, text: &[u8], tokens: &Tokens) -> Result<Unit, FrontFault>
    requires { IsTokens text.now (lexemes_of tokens.now) }
    ensures read { IfOk result (IsRead number text.now) }
    ensures unread { IfErr result (IsNotRead number text.now) }
{
    // A text of at most 1,048,576 bytes has no more tokens.
    if tokens.items.len() as u64 > MAX_TOKENS {
        return Err(FrontFault::Memory);
    }
    match parse_unit(alloc, number, tokens) {
        Ok(unit) => Ok(unit),
        Err(ParseFault::Syntax { token }) => Err(FrontFault::Syntax {
            offset: offset_of(tokens, text.len(), token),
        }),
        Err(ParseFault::Nesting { token }) => Err(FrontFault::Nesting {
            offset: offset_of(tokens, text.len(), token),
        }),
        Err(ParseFault::Memory) => Err(FrontFault::Memory),
    }
}

// The unit of a text, which is the source with this number.
fn read_unit(alloc: Global, number: u32, text: &[u8]) -> Result<Unit, FrontFault>
    ensures read { IfOk result (IsRead number text.now) }
    ensures unread { IfErr result (IsNotRead number text.now) }
{
    // No longer text was read.
    if text.len() as u64 > GREATEST_TEXT {
        return Err(FrontFault::Memory);
    }
    match lex(alloc, text) {
        Ok(tokens) => parsed(alloc, number, text, &tokens),
        Err(LexFault::At { offset }) => Err(FrontFault::Lex {
            offset: offset as usize,
        }),
        Err(LexFault::Memory) => Err(FrontFault::Memory),
    }
}

// The number of the text with this index.
fn number_of(index: usize) -> Option<u32>
    ensures { IfSome result (λ n. n ≡ index) }
{
    u32::try_from(index).ok()
}

/// The units of the texts, in their order.
pub fn read_units(alloc: Global, texts: &[Vec<u8>]) -> Result<Vec<Unit>, Unread>
    ensures read { IfOk result (λ units. AreRead 0 (map (λ text. text.items) texts.now) units.items) }
    ensures unread { IfErr result (IsFirstUnread (map (λ text. text.items) texts.now)) }
{
    let mut units = Vec::new(alloc);
    'texts: for (index, text) in texts.iter().enumerate() {
        let Some(number) = number_of(index) else {
            return Err(Unread {
                index,
                fault: FrontFault::Memory,
            });
        };
        let unit = match read_unit(alloc, number, text.as_slice()) {
            Ok(unit) => unit,
            Err(fault) => return Err(Unread { index, fault }),
        };
        if units.push(unit).is_err() {
            return Err(Unread {
                index,
                fault: FrontFault::Memory,
            });
        }
    }
    Ok(units)
}
