// The texts of definitions: the spellings of tokens, joined by blanks.

ghost use Rattle.std.specs.Prelude.{◌≡◌, ℕ, ◌++◌, ◌<◌, suc, true, length, map, slice_range, IfOk, OnOk, option_map, slice_get, MatchOption, Some, None};
ghost use Rattle.elab_init.specs.cpp_lex.Tokens.{lexemes_of, lexeme_of};
ghost use Rattle.elab_init.specs.cpp_ast.Orders.{are_below};
ghost use Rattle.elab_init.specs.cpp_ast.Trees.{node, Trees, more};
ghost use Rattle.elab_init.specs.cpp_ast.declared.kinds.NodeKind.{NodeKind};
ghost use Rattle.elab_init.specs.cpp_ast.declared.arena.At.{At as SyntaxAt};
ghost use Rattle.elab_init.specs.elab_rules.Functions.{text_between as text_between_of, joined};
ghost use Rattle.elab_init.specs.elab_rules.Classes.{definition_between as definition_between_of, token_end as token_end_of, body_in as body_in_of, last_token as last_token_of, class_key as class_key_of, class_brace as class_brace_of, class_text as class_text_of};
ghost use Rattle.elab_types.specs.Syntax.{syntax_of, tree_at, trees_at};
ghost use Rattle.class_members.specs.Shown.{definition_of};
ghost use Rattle.class_texts.specs.Signatures.{gap};

use class_members::Definition;
use elab_init::below::{NodeId, NodeKind, Nodes, Token, Tokens};
use elab_types::kids::last_kid;
use elab_types::syntax::node_at;
use std::alloc::{AllocError, Global};

// Puts the spelling of a token behind a text, with a blank where others follow.
fn write_token(text: &mut Vec<u8>, token: &Token, is_followed: bool) -> Result<(), AllocError>
    ensures { OnOk result (text.new.items ≡ (text.old.items ++ token.now.bytes.items) ++ gap is_followed) }
{
    text.extend_from_slice(&token.bytes)?;
    if !is_followed {
        return Ok(());
    }
    text.push(b' ')?;
    Ok(())
}

// Puts the spellings of tokens behind a text, with blanks between them.
fn write_joined(text: &mut Vec<u8>, items: &[Token]) -> Result<(), AllocError>
    ensures { OnOk result (text.new.items ≡ text.old.items ++ joined (map lexeme_of items.now)) }
{
    for (i, token) in items.iter().enumerate() {
        write_token(text, token, i + 1 < items.len())?;
    }
    Ok(())
}

// The tokens from one to another, as far as there are any.
fn token_range(tokens: &Tokens, first: u32, last: u32) -> &[Token]
    ensures { map lexeme_of result.now ≡ slice_range (lexemes_of tokens.now) first (suc last) }
{
    let count = tokens.items.len();
    let end = (last as usize + 1).min(count);
    let start = (first as usize).min(end);
    &tokens.items[start..end]
}

/// The text from one token to another.
pub fn text_between(
    alloc: Global,
    tokens: &Tokens,
    first: u32,
    last: u32,
) -> Result<Vec<u8>, AllocError>
    ensures { IfOk result (λ v. v.items ≡ text_between_of (lexemes_of tokens.now) first last) }
{
    let mut text = Vec::new(alloc);
    write_joined(&mut text, token_range(tokens, first, last))?;
    Ok(text)
}

/// The offset behind a token.
pub fn token_end(tokens: &Tokens, token: u32) -> u32
    ensures { result ≡ token_end_of (slice_get (lexemes_of tokens.now) token) }
{
    match tokens.items.get(token as usize) {
        Some(found) => found.to,
        None => 0,
    }
}

/// The text of a definition from its first token to the brace, and where it ends.
pub fn definition_between(
    alloc: Global,
    tokens: &Tokens,
    first: u32,
    last: u32,
) -> Result<Definition, AllocError>
    ensures { IfOk result (λ d. definition_of d ≡ definition_between_of (lexemes_of tokens.now) first last) }
{
    let text = text_between(alloc, tokens, first, last)?;
    Ok(Definition {
        text,
        closed_at: token_end(tokens, last),
    })
}

/// The body of a function, which is its last part.
pub fn body_in(nodes: &Nodes, kids: &[NodeId]) -> Option<NodeId>
    requires { are_below (length nodes.now) kids.now ≡ true }
    ensures body { MatchOption result (body_in_of (trees_at (syntax_of nodes.now) kids.now) ≡ None) (λ id. body_in_of (trees_at (syntax_of nodes.now) kids.now) ≡ Some (tree_at (syntax_of nodes.now) id)) }
    ensures within { MatchOption result (Unit {0}) (λ id. id.0 < length nodes.now) }
{
    match last_kid(kids) {
        Some(id) => Some(id),
        None => None,
    }
}

// The token of a node; 0 where it has none.
fn token_or_zero(token: Option<u32>) -> u32
    ensures last { (kind : NodeKind) (at : SyntaxAt) (kids : Trees) → last_token_of (Some (node kind at token kids)) ≡ result }
    ensures key { (kind : NodeKind) (at : SyntaxAt) (kids rest : Trees) → class_key_of (more (node kind at token kids) rest) ≡ result }
{
    match token {
        Some(found) => found,
        None => 0,
    }
}

/// The last token of the body of a function.
pub fn body_end(nodes: &Nodes, kids: &[NodeId]) -> u32
    requires { are_below (length nodes.now) kids.now ≡ true }
    ensures { result ≡ last_token_of (body_in_of (trees_at (syntax_of nodes.now) kids.now)) }
{
    match body_in(nodes, kids) {
        Some(id) => token_or_zero(node_at(nodes, id).token),
        None => 0,
    }
}

// The first word of a class.
fn class_key(nodes: &Nodes, kids: &[NodeId]) -> u32
    requires { are_below (length nodes.now) kids.now ≡ true }
    ensures { result ≡ class_key_of (trees_at (syntax_of nodes.now) kids.now) }
{
    if kids.is_empty() {
        return 0;
    }
    token_or_zero(node_at(nodes, kids[0]).token)
}

fn brace_token(kind: NodeKind, token: Option<u32>) -> Option<u32>
    ensures { (at : SyntaxAt) (kids rest : Trees) → MatchOption result (class_brace_of (more (node kind at token kids) rest) ≡ class_brace_of rest) (λ found. class_brace_of (more (node kind at token kids) rest) ≡ found) }
{
    match kind {
        NodeKind::MemberSpecification => match token {
            Some(found) => Some(found),
            None => None,
        },
        _ => None,
    }
}

// The closing brace of a class.
fn class_brace(nodes: &Nodes, kids: &[NodeId]) -> u32
    requires { are_below (length nodes.now) kids.now ≡ true }
    ensures { result ≡ class_brace_of (trees_at (syntax_of nodes.now) kids.now) }
{
    for kid in kids {
        let node = node_at(nodes, *kid);
        match brace_token(node.kind, node.token) {
            Some(token) => return token,
            None => {}
        }
    }
    0
}

/// The text of a class, from its first word to the `;` behind the brace.
pub fn class_text(
    alloc: Global,
    tokens: &Tokens,
    nodes: &Nodes,
    kids: &[NodeId],
) -> Result<Vec<u8>, AllocError>
    requires { are_below (length nodes.now) kids.now ≡ true }
    ensures { IfOk result (λ v. v.items ≡ class_text_of (lexemes_of tokens.now) (trees_at (syntax_of nodes.now) kids.now)) }
{
    let first = class_key(nodes, kids);
    let Some(last) = class_brace(nodes, kids).checked_add(1) else {
        return Err(AllocError);
    };
    text_between(alloc, tokens, first, last)
}
