// Captures that are written (C++14 5.1.2 p8, p9, p10).

ghost use Rattle.std.specs.Prelude.{◌≡◌, ◌<◌, [], map, length, true};
ghost use Rattle.elab_init.specs.cpp_lex.Tokens.{lexemes_of};
ghost use Rattle.elab_init.specs.cpp_ast.Orders.{are_below};
ghost use Rattle.elab_init.specs.elab_ctx.Ctx.{ctx_of, capture_of};
ghost use Rattle.elab_init.specs.elab_ctx.Says.{Tells};
ghost use Rattle.elab_init.specs.elab_ctx.Steps.{spelling as spelling_of};
ghost use Rattle.elab_init.specs.elab_rules.Lambdas.{default_word as default_word_of, default_in as default_in_of, adds as adds_of, named_variable as named_variable_of, explicit_variable as explicit_variable_of, explicit_capture as explicit_capture_of, explicit_captures as explicit_captures_of};
ghost use Rattle.elab_types.specs.Shown.{Says};
ghost use Rattle.elab_types.specs.Syntax.{syntax_of, tree_at, trees_at};
ghost use Rattle.lambda_captures.specs.Shown.{otherwise_of, captures_of};
ghost use Rattle.lambda_captures.specs.Steps.{explicit_this as explicit_this_of, explicit_name as explicit_name_of};
ghost use Rattle.lambda_captures.specs.Says.{Collects};

use crate::captures::{capture_this, capture_variable, is_captured};
use crate::names::{is_member_here, local_number};
use elab_init::below::{At, Capture, ElabFault, Env, IllRule, NodeId, NodeKind, Nodes, Tokens};
use elab_types::kids::first_kid;
use elab_types::specifiers::{ill, is_spelled};
use elab_types::syntax::{node_at, place, spelling};
use std::alloc::Global;

/// How what is named and not written is captured.
#[derive(Clone, Copy, Debug, PartialEq, Eq)]
pub enum Otherwise {
    Nothing,
    ByCopy,
    ByReference,
}

// What the word of a default says.
fn default_word(tokens: &Tokens, token: u32) -> Otherwise
    ensures { otherwise_of result ≡ default_word_of (spelling_of (lexemes_of tokens.now) token) }
{
    if is_spelled(tokens, token, b"&") {
        Otherwise::ByReference
    } else {
        Otherwise::ByCopy
    }
}

/// How what is named and not written is captured, by the first of the captures.
pub fn default_in(tokens: &Tokens, nodes: &Nodes, parent: NodeId, ids: &[NodeId]) -> Otherwise
    requires within { parent.0 < length nodes.now }
    requires lower { are_below parent.0 ids.now ≡ true }
    ensures { otherwise_of result ≡ default_in_of (lexemes_of tokens.now) (trees_at (syntax_of nodes.now) ids.now) }
{
    let Some(first) = first_kid(ids) else {
        return Otherwise::Nothing;
    };
    let node = node_at(nodes, first);
    match node.kind {
        NodeKind::CaptureDefault => match node.token {
            Some(token) => default_word(tokens, token),
            None => Otherwise::Nothing,
        },
        _ => Otherwise::Nothing,
    }
}

// Whether a capture says something else than the default.
fn adds(otherwise: Otherwise, by_ref: bool) -> bool
    ensures { result ≡ adds_of (otherwise_of otherwise) by_ref }
{
    match otherwise {
        Otherwise::Nothing => true,
        Otherwise::ByCopy => by_ref,
        Otherwise::ByReference => !by_ref,
    }
}

// The variable of the function around that a captured name stands for.
fn named_variable(env: &Env, at: At, name: &[u8]) -> Result<u32, ElabFault>
    ensures { Tells result (named_variable_of (ctx_of env.now) at name.now) }
{
    let entity = env.scopes.lookup(name);
    if let Some(variable) = local_number(entity) {
        return Ok(variable);
    }
    if entity.is_some() || is_member_here(env, name)? {
        return Err(ill(at, IllRule::Capture));
    }
    Err(ill(at, IllRule::UnknownName))
}

fn explicit_variable(
    alloc: Global,
    env: &Env,
    otherwise: Otherwise,
    captures: &mut Vec<Capture>,
    at: At,
    name: &[u8],
    by_ref: bool,
) -> Result<(), ElabFault>
    ensures { Collects captures.new.items result (explicit_variable_of (ctx_of env.now) (otherwise_of otherwise) (map capture_of captures.old.items) at name.now by_ref) }
{
    let variable = named_variable(env, at, name)?;
    if !adds(otherwise, by_ref) || is_captured(captures, Some(variable)) {
        return Err(ill(at, IllRule::Capture));
    }
    capture_variable(alloc, env, captures, at, variable, by_ref)
}

fn explicit_this(
    alloc: Global,
    env: &Env,
    otherwise: Otherwise,
    captures: &mut Vec<Capture>,
    at: At,
) -> Result<(), ElabFault>
    ensures { Collects captures.new.items result (explicit_this_of (ctx_of env.now) (otherwise_of otherwise) (map capture_of captures.old.items) at) }
{
    if !adds(otherwise, false) || is_captured(captures, None) {
        return Err(ill(at, IllRule::Capture));
    }
    capture_this(alloc, env, captures, at)
}

// A name that is written, if one is.
fn explicit_name(
    alloc: Global,
    tokens: &Tokens,
    env: &Env,
    otherwise: Otherwise,
    captures: &mut Vec<Capture>,
    at: At,
    token: Option<u32>,
    by_ref: bool,
) -> Result<(), ElabFault>
    ensures { Collects captures.new.items result (explicit_name_of (lexemes_of tokens.now) (ctx_of env.now) (otherwise_of otherwise) (map capture_of captures.old.items) at token by_ref) }
{
    match token {
        Some(token) => {
            let name = spelling(tokens, token);
            explicit_variable(alloc, env, otherwise, captures, at, name, by_ref)
        }
        None => Ok(()),
    }
}

// A capture that is written.
fn explicit_capture(
    alloc: Global,
    tokens: &Tokens,
    nodes: &Nodes,
    env: &Env,
    otherwise: Otherwise,
    captures: &mut Vec<Capture>,
    id: NodeId,
) -> Result<(), ElabFault>
    requires { id.0 < length nodes.now }
    ensures { Collects captures.new.items result (explicit_capture_of (lexemes_of tokens.now) (ctx_of env.now) (otherwise_of otherwise) (map capture_of captures.old.items) (tree_at (syntax_of nodes.now) id)) }
{
    let node = node_at(nodes, id);
    let at = place(node.at);
    match node.kind {
        NodeKind::SimpleCapture => {
            explicit_name(
                alloc, tokens, env, otherwise, captures, at, node.token, false,
            )
        }
        NodeKind::ReferenceCapture => {
            explicit_name(
                alloc, tokens, env, otherwise, captures, at, node.token, true,
            )
        }
        NodeKind::ThisCapture => explicit_this(alloc, env, otherwise, captures, at),
        _ => Ok(()),
    }
}

/// The captures that are written, which are kids of a node.
pub fn explicit_captures(
    alloc: Global,
    tokens: &Tokens,
    nodes: &Nodes,
    env: &Env,
    otherwise: Otherwise,
    parent: NodeId,
    ids: &[NodeId],
) -> Result<Vec<Capture>, ElabFault>
    requires within { parent.0 < length nodes.now }
    requires lower { are_below parent.0 ids.now ≡ true }
    ensures { Says captures_of result (explicit_captures_of (lexemes_of tokens.now) (ctx_of env.now) (otherwise_of otherwise) (trees_at (syntax_of nodes.now) ids.now)) }
{
    let mut captures = Vec::new(alloc);
    for id in ids {
        explicit_capture(alloc, tokens, nodes, env, otherwise, &mut captures, *id)?;
    }
    Ok(captures)
}
