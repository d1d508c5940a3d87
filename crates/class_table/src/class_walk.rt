// A class: its head, its members, and the closing brace (C++14 clause 9, 9.2).

ghost use Rattle.std.specs.Prelude.{◌≡◌, ℕ, length, true, false, List, Option, MatchOption, IfOk, [], map, if◌then◌else◌};
ghost use Rattle.elab_expr.specs.cpp_types.Class.{member_of};
ghost use Rattle.elab_expr.specs.cpp_lex.Tokens.{lexemes_of, Lexeme};
ghost use Rattle.elab_expr.specs.cpp_ast.Orders.{are_below};
ghost use Rattle.elab_expr.specs.cpp_ast.Trees.{node, Trees, more};
ghost use Rattle.elab_expr.specs.cpp_ast.declared.arena.At.{At as SyntaxAt};
ghost use Rattle.elab_expr.specs.elab_ctx.Ctx.{ctx_of, work_of, Ctx};
ghost use Rattle.elab_expr.specs.elab_ctx.Says.{Tells};
ghost use Rattle.elab_expr.specs.elab_rules.Classes.{begun as begun_of};
ghost use Rattle.elab_expr.specs.elab_rules.Statements.{Body};
ghost use Rattle.elab_expr.specs.elab_rules.Members.{is_final_word as is_final_word_of, has_final as has_final_of, base_named as base_named_of, members_among as members_among_of};
ghost use Rattle.elab_expr.specs.elab_types.Syntax.{syntax_of, trees_at};
ghost use Rattle.elab_expr.specs.Unmoved.{Unmoved};
ghost use Rattle.class_members.specs.Shown.{home_of, Begins};
ghost use Rattle.class_table.specs.Written.{class_read as class_read_of, read_members as read_members_of, named_base, at_hand, Reads, StandsRead};

use crate::member_walk::members_of;
use class_members::{Home, Members, based_on, text_sized};
use class_records::{begun, closed_class, completed};
use class_texts::texts::class_text;
use elab_expr::below::{
    At, ElabFault, Env, NodeId, NodeKind, Nodes, Tokens, Work, elab_types_node_at as node_at,
    place, spelling, token_place,
};
use std::alloc::{AllocError, Global};

/// A class that is only declared, by its name (C++14 9.1).
pub fn class_declared(alloc: Global, env: &mut Env, at: At, name: &[u8]) -> Result<u32, ElabFault>
    ensures { Begins (ctx_of env.new) result (begun_of (ctx_of env.old) at name.now false) }
{
    begun(alloc, env, at, name, false)
}

fn is_final_word(kind: NodeKind) -> bool
    ensures { (at : SyntaxAt) (token : Option ℕ) (kids : Trees) → is_final_word_of (node kind at token kids) ≡ result }
{
    match kind {
        NodeKind::VirtSpecifier => true,
        _ => false,
    }
}

/// Whether the head of a class says that it is final.
pub fn has_final(nodes: &Nodes, kids: &[NodeId]) -> bool
    requires { are_below (length nodes.now) kids.now ≡ true }
    ensures { result ≡ has_final_of (trees_at (syntax_of nodes.now) kids.now) }
{
    for kid in kids {
        if is_final_word(node_at(nodes, *kid).kind) {
            return true;
        }
    }
    false
}

// The token of a base.
fn base_token(kind: NodeKind, token: Option<u32>) -> Option<u32>
    ensures { (s : List Lexeme) (c : Ctx) (at : SyntaxAt) (kids rest : Trees) → MatchOption result (base_named_of s c (more (node kind at token kids) rest) ≡ base_named_of s c rest) (λ found. base_named_of s c (more (node kind at token kids) rest) ≡ named_base s c at found) }
{
    match kind {
        NodeKind::BaseSpecifier => match token {
            Some(found) => Some(found),
            None => None,
        },
        _ => None,
    }
}

/// The base that is named in the head of a class, if one is.
pub fn base_named(
    env: &Env,
    tokens: &Tokens,
    nodes: &Nodes,
    kids: &[NodeId],
) -> Result<Option<u32>, ElabFault>
    requires { are_below (length nodes.now) kids.now ≡ true }
    ensures { Tells result (base_named_of (lexemes_of tokens.now) (ctx_of env.now) (trees_at (syntax_of nodes.now) kids.now)) }
{
    for kid in kids {
        let node = node_at(nodes, *kid);
        match base_token(node.kind, node.token) {
            Some(token) => {
                let at = token_place(tokens, node.at.source, token);
                let found = based_on(env, at, spelling(tokens, token))?;
                return Ok(Some(found));
            }
            None => {}
        }
    }
    Ok(None)
}

fn is_specification(kind: NodeKind) -> bool
    ensures { (at : SyntaxAt) (token : Option ℕ) (kids rest : Trees) → members_among_of (more (node kind at token kids) rest) ≡ (if result then kids else members_among_of rest) }
{
    match kind {
        NodeKind::MemberSpecification => true,
        _ => false,
    }
}

/// The members between the braces of a class.
pub fn members_among<'a>(nodes: &'a Nodes, kids: &[NodeId]) -> &'a [NodeId]
    requires { are_below (length nodes.now) kids.now ≡ true }
    ensures members { trees_at (syntax_of nodes.now) result.now ≡ members_among_of (trees_at (syntax_of nodes.now) kids.now) }
    ensures below { are_below (length nodes.now) result.now ≡ true }
{
    for kid in kids {
        let node = node_at(nodes, *kid);
        if is_specification(node.kind) {
            return &node.kids;
        }
    }
    &[]
}

// A class whose head was read.
fn head_of(
    alloc: Global,
    number: u32,
    name: &[u8],
    base: Option<u32>,
    is_final: bool,
) -> Result<Home, AllocError>
    ensures { IfOk result (λ h. home_of h ≡ record { number = number; name = name.now; base = base; is_final = is_final }) }
{
    let name = Vec::from_slice(alloc, name)?;
    Ok(Home {
        number,
        name,
        base,
        is_final,
    })
}

// A class of which no member is read.
fn no_members(alloc: Global) -> Members
    ensures members { map member_of result.members.items ≡ [] }
    ensures initialised { result.initialised.items ≡ [] }
{
    Members {
        members: Vec::new(alloc),
        initialised: Vec::new(alloc),
    }
}

// The members of a class, and what follows from them at the closing brace.
fn members_read(
    alloc: Global,
    env: &mut Env,
    tokens: &Tokens,
    nodes: &Nodes,
    home: &Home,
    at: At,
    ids: &[NodeId],
    work: &mut Work,
) -> Result<(), ElabFault>
    requires { are_below (length nodes.now) ids.now ≡ true }
    ensures read { (bodies : List Body) → StandsRead (at_hand (ctx_of env.new) (work_of work.old) bodies) (home_of home.now) result (read_members_of (lexemes_of tokens.now) (at_hand (ctx_of env.old) (work_of work.old) bodies) at (home_of home.now) (trees_at (syntax_of nodes.now) ids.now)) }
    ensures kept { IfOk result (λ u. Unmoved work.old work.new) }
{
    let mut read = no_members(alloc);
    members_of(alloc, env, tokens, nodes, home, &mut read, ids, work)?;
    completed(alloc, env, home, at, read.members, &read.initialised)?;
    closed_class(env, at, home.number)
}

/// A class as it is written, up to its closing brace: its text is not too long, its name is new or was only declared, its
/// base is complete, its members are declared in the order of the text, its special members stand behind them, and its
/// objects have a size. What stands in the bodies and the initialisers of its members is not read.
pub fn class_read(
    alloc: Global,
    env: &mut Env,
    tokens: &Tokens,
    nodes: &Nodes,
    at: At,
    name: &[u8],
    kids: &[NodeId],
    work: &mut Work,
) -> Result<Home, ElabFault>
    requires { are_below (length nodes.now) kids.now ≡ true }
    ensures read { (bodies : List Body) → Reads (at_hand (ctx_of env.new) (work_of work.old) bodies) result (class_read_of (lexemes_of tokens.now) (at_hand (ctx_of env.old) (work_of work.old) bodies) at name.now (trees_at (syntax_of nodes.now) kids.now)) }
    ensures kept { IfOk result (λ u. Unmoved work.old work.new) }
{
    let text = class_text(alloc, tokens, nodes, kids)?;
    text_sized(at, &text)?;
    let number = begun(alloc, env, at, name, true)?;
    let base = base_named(env, tokens, nodes, kids)?;
    let home = head_of(alloc, number, name, base, has_final(nodes, kids))?;
    let ids = members_among(nodes, kids);
    members_read(alloc, env, tokens, nodes, &home, at, ids, work)?;
    Ok(home)
}
