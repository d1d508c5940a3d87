// What the body of a lambda names of the function around, in the order of the text (C++14 5.1.2 p12).

ghost use Rattle.std.specs.Prelude.{◌≡◌, ◌<◌, ◌++◌, List, map, take, length, true, IfOk, OnOk};
ghost use Rattle.std.specs.List.{list_any};
ghost use Rattle.elab_init.specs.cpp_lex.Tokens.{Lexeme, lexemes_of};
ghost use Rattle.elab_init.specs.cpp_ast.Orders.{are_below};
ghost use Rattle.elab_init.specs.elab_ctx.Ctx.{ctx_of};
ghost use Rattle.elab_init.specs.elab_ctx.Steps.{spelling as spelling_of};
ghost use Rattle.elab_init.specs.elab_rules.Lambdas.{using, using_name, declaring, scanned, scanned_all, scanned_apart, left_scope, used_in as used_in_of};
ghost use Rattle.elab_types.specs.Shown.{parameter_of};
ghost use Rattle.elab_types.specs.Syntax.{syntax_of, tree_at, trees_at};
ghost use Rattle.lambda_captures.specs.Shown.{used_of, scan_of};
ghost use Rattle.lambda_captures.specs.Steps.{spells, is_name, declarator_scanned, tokens_back, token_if};
ghost use Rattle.lambda_captures.specs.Says.{Scanned};

use crate::names::{is_member_here, local_number, name_among};
use elab_init::below::{At, Env, NodeId, NodeKind, Nodes, Tokens};
use elab_types::Parameter;
use elab_types::syntax::{node_at, place, spelling};
use std::alloc::{AllocError, Global};

/// A variable that is named, or `None` for `this`.
#[derive(Clone, Copy)]
pub struct Used {
    pub variable: Option<u32>,
    pub at: At,
}

/// The names that the body has declared so far, by their tokens, and what it has named.
#[derive(Drop)]
pub struct Scan {
    pub own: Vec<u32>,
    pub used: Vec<Used>,
}

// Whether one of some tokens has this spelling.
fn is_spelled(tokens: &Tokens, own: &[u32], name: &[u8]) -> bool
    ensures { result ≡ list_any (spells (lexemes_of tokens.now) name.now) own.now }
{
    for token in own {
        if spelling(tokens, *token) == name {
            return true;
        }
    }
    false
}

// Whether a name is one that the body has declared.
fn is_own(tokens: &Tokens, scan: &Scan, name: &[u8]) -> bool
    ensures { result ≡ list_any (is_name name.now) (scan_of (lexemes_of tokens.now) scan.now).own }
{
    is_spelled(tokens, &scan.own, name)
}

fn add_used(scan: &mut Scan, variable: Option<u32>, at: At) -> Result<(), AllocError>
    ensures { (s : List Lexeme) → OnOk result (Scanned s scan.old scan.new (using (scan_of s scan.old) variable at)) }
{
    scan.used.push(Used { variable, at })?;
    Ok(())
}

fn declare(scan: &mut Scan, token: Option<u32>) -> Result<(), AllocError>
    ensures { (s : List Lexeme) → OnOk result (Scanned s scan.old scan.new (declaring s (scan_of s scan.old) token)) }
{
    if let Some(token) = token {
        scan.own.push(token)?;
    }
    Ok(())
}

// Behind a scope: what was declared in it is gone.
fn leave_scope(scan: &mut Scan, count: usize)
    ensures own { scan.new.own.items ≡ take count scan.old.own.items }
    ensures used { scan.new.used.items ≡ scan.old.used.items }
{
    scan.own.truncate(count);
}

// A name: of a variable around, or of a member of the class around, which stands for `this->N`.
fn use_name(
    tokens: &Tokens,
    env: &Env,
    scan: &mut Scan,
    at: At,
    token: u32,
) -> Result<(), AllocError>
    ensures { OnOk result (Scanned (lexemes_of tokens.now) scan.old scan.new (using_name (ctx_of env.now) (scan_of (lexemes_of tokens.now) scan.old) at (spelling_of (lexemes_of tokens.now) token))) }
{
    let name = spelling(tokens, token);
    if is_own(tokens, scan, name) {
        return Ok(());
    }
    match local_number(env.scopes.lookup(name)) {
        Some(variable) => add_used(scan, Some(variable), at),
        None => {
            if is_member_here(env, name)? {
                add_used(scan, None, at)
            } else {
                Ok(())
            }
        }
    }
}

// What a part of a body names.
#[cycle(scans)]
fn scan_node(
    tokens: &Tokens,
    nodes: &Nodes,
    env: &Env,
    id: NodeId,
    scan: &mut Scan,
) -> Result<(), AllocError>
    requires { id.0 < length nodes.now }
    ensures { OnOk result (Scanned (lexemes_of tokens.now) scan.old scan.new (scanned (lexemes_of tokens.now) (ctx_of env.now) (scan_of (lexemes_of tokens.now) scan.old) (tree_at (syntax_of nodes.now) id))) }
{
    let node = node_at(nodes, id);
    match node.kind {
        NodeKind::UnqualifiedId => match node.token {
            Some(token) => use_name(tokens, env, scan, place(node.at), token),
            None => scan_all(tokens, nodes, env, id, &node.kids, scan),
        },
        NodeKind::This => add_used(scan, None, place(node.at)),
        NodeKind::InitDeclarator => {
            scan_declarator(tokens, nodes, env, id, &node.kids, node.token, scan)
        }
        NodeKind::ParameterDeclaration => {
            scan_all(tokens, nodes, env, id, &node.kids, scan)?;
            declare(scan, name_among(nodes, id, &node.kids))
        }
        NodeKind::ParameterDeclarationClause
        | NodeKind::CompoundStatement
        | NodeKind::ForStatement
        | NodeKind::Handler => scan_scope(tokens, nodes, env, id, &node.kids, scan),
        NodeKind::IfStatement | NodeKind::WhileStatement | NodeKind::DoStatement => {
            scan_apart(tokens, nodes, env, id, &node.kids, scan)
        }
        _ => scan_all(tokens, nodes, env, id, &node.kids, scan),
    }
}

// A declarator, whose name is known in its initialiser.
#[cycle(scans)]
fn scan_declarator(
    tokens: &Tokens,
    nodes: &Nodes,
    env: &Env,
    parent: NodeId,
    ids: &[NodeId],
    token: Option<u32>,
    scan: &mut Scan,
) -> Result<(), AllocError>
    requires within { parent.0 < length nodes.now }
    requires lower { are_below parent.0 ids.now ≡ true }
    ensures { OnOk result (Scanned (lexemes_of tokens.now) scan.old scan.new (declarator_scanned (lexemes_of tokens.now) (ctx_of env.now) (scan_of (lexemes_of tokens.now) scan.old) token (trees_at (syntax_of nodes.now) ids.now))) }
{
    match ids.split_first() {
        Some((first, rest)) => {
            scan_node(tokens, nodes, env, *first, scan)?;
            declare(scan, token)?;
            scan_all(tokens, nodes, env, parent, rest, scan)
        }
        None => Ok(()),
    }
}

// Several nodes in a scope.
#[cycle(scans)]
fn scan_scope(
    tokens: &Tokens,
    nodes: &Nodes,
    env: &Env,
    parent: NodeId,
    ids: &[NodeId],
    scan: &mut Scan,
) -> Result<(), AllocError>
    requires within { parent.0 < length nodes.now }
    requires lower { are_below parent.0 ids.now ≡ true }
    ensures { OnOk result (Scanned (lexemes_of tokens.now) scan.old scan.new (left_scope (scan_of (lexemes_of tokens.now) scan.old) (scanned_all (lexemes_of tokens.now) (ctx_of env.now) (scan_of (lexemes_of tokens.now) scan.old) (trees_at (syntax_of nodes.now) ids.now)))) }
{
    let count = scan.own.len();
    scan_all(tokens, nodes, env, parent, ids, scan)?;
    leave_scope(scan, count);
    Ok(())
}

// A node in a scope of its own.
#[cycle(scans)]
fn scan_part(
    tokens: &Tokens,
    nodes: &Nodes,
    env: &Env,
    id: NodeId,
    scan: &mut Scan,
) -> Result<(), AllocError>
    requires { id.0 < length nodes.now }
    ensures { OnOk result (Scanned (lexemes_of tokens.now) scan.old scan.new (left_scope (scan_of (lexemes_of tokens.now) scan.old) (scanned (lexemes_of tokens.now) (ctx_of env.now) (scan_of (lexemes_of tokens.now) scan.old) (tree_at (syntax_of nodes.now) id)))) }
{
    let count = scan.own.len();
    scan_node(tokens, nodes, env, id, scan)?;
    leave_scope(scan, count);
    Ok(())
}

// Several nodes, one behind the other.
#[cycle(scans)]
fn scan_all(
    tokens: &Tokens,
    nodes: &Nodes,
    env: &Env,
    parent: NodeId,
    ids: &[NodeId],
    scan: &mut Scan,
) -> Result<(), AllocError>
    requires within { parent.0 < length nodes.now }
    requires lower { are_below parent.0 ids.now ≡ true }
    ensures { OnOk result (Scanned (lexemes_of tokens.now) scan.old scan.new (scanned_all (lexemes_of tokens.now) (ctx_of env.now) (scan_of (lexemes_of tokens.now) scan.old) (trees_at (syntax_of nodes.now) ids.now))) }
{
    for id in ids {
        scan_node(tokens, nodes, env, *id, scan)?;
    }
    Ok(())
}

// Several nodes, each in a scope of its own.
#[cycle(scans)]
fn scan_apart(
    tokens: &Tokens,
    nodes: &Nodes,
    env: &Env,
    parent: NodeId,
    ids: &[NodeId],
    scan: &mut Scan,
) -> Result<(), AllocError>
    requires within { parent.0 < length nodes.now }
    requires lower { are_below parent.0 ids.now ≡ true }
    ensures { OnOk result (Scanned (lexemes_of tokens.now) scan.old scan.new (scanned_apart (lexemes_of tokens.now) (ctx_of env.now) (scan_of (lexemes_of tokens.now) scan.old) (trees_at (syntax_of nodes.now) ids.now))) }
{
    for id in ids {
        scan_part(tokens, nodes, env, *id, scan)?;
    }
    Ok(())
}

fn keep_token(list: &mut Vec<u32>, token: Option<u32>) -> Result<(), AllocError>
    ensures { OnOk result (list.new.items ≡ list.old.items ++ token_if token) }
{
    if let Some(token) = token {
        list.push(token)?;
    }
    Ok(())
}

// The names of parameters, the last one first.
fn parameter_tokens(alloc: Global, params: &[Parameter]) -> Result<Vec<u32>, AllocError>
    ensures { IfOk result (λ v. v.items ≡ tokens_back (map parameter_of params.now)) }
{
    let mut list = Vec::new(alloc);
    let mut rest = params;
    'backwards: while let Some((last, before)) = rest.split_last() {
        keep_token(&mut list, last.name)?;
        rest = before;
    }
    Ok(list)
}

/// What the body of a lambda names of the function around.
pub fn used_in(
    alloc: Global,
    tokens: &Tokens,
    nodes: &Nodes,
    env: &Env,
    params: &[Parameter],
    body: NodeId,
) -> Result<Vec<Used>, AllocError>
    requires { body.0 < length nodes.now }
    ensures { IfOk result (λ v. map used_of v.items ≡ used_in_of (lexemes_of tokens.now) (ctx_of env.now) (map parameter_of params.now) (tree_at (syntax_of nodes.now) body)) }
{
    let own = parameter_tokens(alloc, params)?;
    let mut scan = Scan {
        own,
        used: Vec::new(alloc),
    };
    scan_node(tokens, nodes, env, body, &mut scan)?;
    Ok(scan.used)
}
