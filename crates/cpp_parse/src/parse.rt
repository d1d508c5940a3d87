//! The one call of this crate.

ghost use Rattle.std.specs.Prelude.{◌≡◌, ◌≤◌, ℕ, IfOk, None, Err, length, map};
ghost use Rattle.cpp_lex.specs.Tokens.{lexeme_of, lexemes_of};
ghost use Rattle.cpp_syntax.specs.Classes.{source_of};
ghost use Rattle.cpp_syntax.specs.Rules.{form, translation_unit};
ghost use Rattle.cpp_syntax.specs.Parsed.{ParsesLongest};
ghost use Rattle.cpp_parse.specs.Units.{ParsesUnit};
ghost use Rattle.cpp_parse.specs.Steps.{ReadsDeclarations, ReadsWhole, AnswersUnit, IsWholeRead};
ghost use Rattle.cpp_syntax.specs.declared.limits.TheConstants.{MAX_TOKENS};

use crate::bodies::{bodies_by_node, read_bodies};
use crate::declarations::translation_unit;
use crate::statements::compound_statement;
use cpp_ast::{LamBody, NodeId, Nodes, Unit};
use cpp_lex::{Token, Tokens};
use cpp_nests::first_nested;
use cpp_parse_expr::ParseFault;
use cpp_parse_expr::depth::first_deep_kid;
use cpp_parse_expr::parse::{Found, Reading, take_reading, token_at};
use cpp_syntax::limits::{MAX_DEPTH, MAX_NESTED_BODIES, MAX_NESTED_CALLS, MAX_NESTED_SEARCHES};
use cpp_syntax::{Builder, OpenBody, Terminal, TypeNames};
use std::alloc::{AllocError, Global};
use std::mem;

/// What the declarations of a unit were read as.
#[derive(Drop)]
enum Declarations {
    /// All tokens; the bodies of lambdas are not read yet.
    Read {
        decls: Vec<NodeId>,
        bodies: Vec<OpenBody>,
    },
    /// The tokens are no declarations; the token up to which they could be.
    Refused {
        token: u32,
    },
}

/// The nodes of a unit with its declarations and the bodies of its lambdas.
#[derive(Drop)]
struct Whole {
    pub nodes: Nodes,
    pub decls: Vec<NodeId>,
    pub bodies: Vec<LamBody>,
}

/// What all tokens were read as.
#[derive(Drop)]
enum UnitReading {
    Read(Whole),
    /// They are no unit; the token up to which they could be one.
    Refused { token: u32 },
}

/// What is answered of a unit, but for want of memory.
#[derive(Drop)]
enum Answer {
    Parsed(Unit),
    Refused { token: u32 },
    TooDeep { token: u32 },
}

/// The one unit of the tokens of a source, of which there are at most 1,048,576: C++14 annex A cut to the language, with the
/// blocks of ISO/IEC TS 19841:2015. `source` is the number that the positions of its nodes have.
///
/// Its trees are those of the grammar ([`cpp_syntax`]): its declarations, with the body of each lambda as its last kid.
///
/// `Syntax` comes exactly where the tokens are no unit; its token is the last up to which a reader came, and their number stands for the end
/// of the text. `Nesting` comes where they are a unit that nests deeper than 200; its token is that of the first node that does. It comes
/// also where no room is left for further nested calls, if more than 200 constructs are open at a token by brackets, operators and words
/// of statements alone ([`cpp_nests`]), whether or not the tokens are a unit; it names the first such token.
/// `Memory` comes where memory ran out, and where no room is left and no token has so many.
pub fn parse_unit(alloc: Global, source: u32, tokens: &Tokens) -> Result<Unit, ParseFault>
    requires { length tokens.now.items.items ≤ MAX_TOKENS }
    ensures { ParsesUnit source (lexemes_of tokens.now) result }
{
    match answer_unit(alloc, source, tokens) {
        Ok(Answer::Parsed(unit)) => Ok(unit),
        Ok(Answer::Refused { token }) => Err(ParseFault::Syntax { token }),
        Ok(Answer::TooDeep { token }) => Err(ParseFault::Nesting { token }),
        Err(_) => Err(fault_without_room(alloc, tokens)),
    }
}

/// What is answered where no memory was left, or no room for further nested calls: the first token that lies too deep by
/// brackets, operators and words of statements, if one does.
fn fault_without_room(alloc: Global, tokens: &Tokens) -> ParseFault
    requires { length tokens.now.items.items ≤ MAX_TOKENS }
    ensures { (source : ℕ) → ParsesUnit source (lexemes_of tokens.now) (Err result) }
{
    match first_nested(alloc, tokens, MAX_DEPTH) {
        Ok(Some(token)) => ParseFault::Nesting { token },
        Ok(None) => ParseFault::Memory,
        Err(_) => ParseFault::Memory,
    }
}

/// Reads a unit, and measures it.
fn answer_unit(alloc: Global, source: u32, tokens: &Tokens) -> Result<Answer, AllocError>
    requires { length tokens.now.items.items ≤ MAX_TOKENS }
    ensures { AnswersUnit source (lexemes_of tokens.now) result }
{
    let types = TypeNames::of(alloc, source, tokens)?;
    match read_whole(alloc, &types)? {
        UnitReading::Read(whole) => measure(alloc, source, tokens, &types, whole),
        UnitReading::Refused { token } => Ok(Answer::Refused { token }),
    }
}

/// Reads all tokens as declarations, and then the bodies of their lambdas.
fn read_whole(alloc: Global, types: &TypeNames) -> Result<UnitReading, AllocError>
    ensures { ReadsWhole types.now result }
{
    let mut nodes = Nodes::new(alloc);
    match read_declarations(alloc, types, &mut nodes)? {
        Declarations::Read { decls, bodies } => {
            let mut noted = Vec::new(alloc);
            match read_bodies(
                alloc,
                types,
                &bodies,
                MAX_NESTED_BODIES,
                &mut nodes,
                &mut noted,
            )? {
                None => Ok(UnitReading::Read(Whole {
                    nodes,
                    decls,
                    bodies: noted,
                })),
                Some(token) => Ok(UnitReading::Refused { token }),
            }
        }
        Declarations::Refused { token } => {
            let token = furthest_token(alloc, types, token)?;
            Ok(UnitReading::Refused { token })
        }
    }
}

/// The token up to which the tokens could be a unit, where readers came to one: in the body of a lambda whose brackets do
/// not match, which they leave unread, that is the one to which its statements lead.
fn furthest_token(alloc: Global, types: &TypeNames, token: u32) -> Result<u32, AllocError>
    requires { token ≤ length types.now.terminals }
    ensures { IfOk result (λ furthest. furthest ≤ length types.now.terminals) }
{
    let mut furthest = token;
    'bodies: for _ in 0..types.len() {
        let next = furthest_in_body(alloc, types, furthest)?;
        if next == furthest {
            return Ok(furthest);
        }
        furthest = next;
    }
    Ok(furthest)
}

/// The token to which statements in braces lead from a token on, where the braces do not match, and else that token.
fn furthest_in_body(alloc: Global, types: &TypeNames, token: u32) -> Result<u32, AllocError>
    requires { token ≤ length types.now.terminals }
    ensures { IfOk result (λ furthest. furthest ≤ length types.now.terminals) }
{
    let at = token as usize;
    if !types.is_at(at, Terminal::OpenBrace) {
        return Ok(token);
    }
    if types.partner(at).is_some() {
        return Ok(token);
    }
    let mut out = Builder::over(alloc, Nodes::new(alloc));
    compound_statement(types, at, MAX_NESTED_CALLS, &mut out)?;
    let furthest = out.furthest_failure().max(at).min(types.len());
    Ok(furthest as u32)
}

/// Reads all tokens as declarations.
fn read_declarations(
    alloc: Global,
    types: &TypeNames,
    nodes: &mut Nodes,
) -> Result<Declarations, AllocError>
    ensures { ReadsDeclarations types.now nodes.old nodes.new result }
{
    let mut out = Builder::over(alloc, mem::replace(nodes, Nodes::new(alloc)));
    let read = read_unit(types, &mut out);
    let Reading { found, token } = take_reading(types, 0, read, out, nodes)?;
    let Some(
        Found {
            roots,
            next,
            bodies,
        },
    ) = found
    else {
        return Ok(Declarations::Refused { token });
    };
    if next as usize != types.len() {
        return Ok(Declarations::Refused { token });
    }
    Ok(Declarations::Read {
        decls: roots,
        bodies,
    })
}

/// Reads declarations, as many as there are, into a builder.
fn read_unit(types: &TypeNames, out: &mut Builder) -> Result<Option<usize>, AllocError>
    ensures { ParsesLongest types.now (form translation_unit) 0 None out.old out.new result }
{
    Ok(Some(translation_unit(types, 0, MAX_NESTED_CALLS, out)?))
}

/// Answers a unit that was read, if it does not nest too deep.
fn measure(
    alloc: Global,
    source: u32,
    tokens: &Tokens,
    types: &TypeNames,
    whole: Whole,
) -> Result<Answer, AllocError>
    requires types { types.now ≡ source_of source (lexemes_of tokens.now) }
    requires read { IsWholeRead types.now whole }
    ensures { AnswersUnit source (lexemes_of tokens.now) result }
{
    let noted = bodies_by_node(alloc, &whole.nodes, &whole.bodies)?;
    let mut lambdas = Vec::new(alloc);
    if let Some(position) = first_deep_kid(
        &whole.nodes,
        &noted,
        &whole.decls,
        1,
        MAX_DEPTH,
        MAX_NESTED_SEARCHES,
        &mut lambdas,
    )? {
        let token = token_at(types, position);
        return Ok(Answer::TooDeep { token });
    }
    let tokens = copy_of(alloc, tokens)?;
    Ok(Answer::Parsed(Unit {
        source,
        tokens,
        nodes: whole.nodes,
        decls: whole.decls,
        bodies: whole.bodies,
    }))
}

/// The same tokens once more.
fn copy_of(alloc: Global, tokens: &Tokens) -> Result<Tokens, AllocError>
    ensures { IfOk result (λ copy. lexemes_of copy ≡ lexemes_of tokens.now) }
{
    let mut items = Vec::with_capacity(alloc, tokens.items.len())?;
    'tokens: for token in &tokens.items {
        items.push(copy_of_token(token)?)?;
    }
    Ok(Tokens { items })
}

/// The same token once more.
fn copy_of_token(token: &Token) -> Result<Token, AllocError>
    ensures { IfOk result (λ copy. lexeme_of copy ≡ lexeme_of token.now) }
{
    Ok(Token {
        kind: token.kind,
        from: token.from,
        to: token.to,
        value: token.value,
        bytes: token.bytes.clone()?,
    })
}
