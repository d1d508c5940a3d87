// Functions with their bodies (C++14 8.4).

ghost use Rattle.std.specs.Prelude.{◌≡◌, ◌<◌, ℕ, List, length, true, false, IfOk, MatchOption};
ghost use Rattle.elab_entry.specs.cpp_ast.Orders.{are_below};
ghost use Rattle.elab_entry.specs.cpp_ast.Trees.{Tree, Trees, none, more};
ghost use Rattle.elab_entry.specs.cpp_lex.Tokens.{lexemes_of};
ghost use Rattle.elab_entry.specs.cpp_types.Typ.{typ_of};
ghost use Rattle.elab_entry.specs.cpp_tree.Typing.{form_in};
ghost use Rattle.elab_entry.specs.elab_rules.Units.{brace_of as brace_of_of, definition_text as definition_text_of, is_qualified as is_qualified_of};
ghost use Rattle.elab_entry.specs.elab_scopes.States.{state_of};
ghost use Rattle.elab_entry.specs.elab_types.Shown.{declared_of};
ghost use Rattle.elab_entry.specs.elab_types.Syntax.{syntax_of, tree_at, trees_at};
ghost use Rattle.class_members.specs.Shown.{Answers, header_of as header_shown, storage_of};
ghost use Rattle.elab_leaving.specs.Declaring.{are_three, defined_header as defined_header_of, defined_with as defined_with_of, defined_typed, function_defined as function_defined_of};

use crate::declarations::{header_of, is_function};
use crate::lambdas::UnitLambdas;
use class_members::defines_well;
use class_table::kids::rest_from;
use class_table::started::started_from;
use class_table::texts::{text_between, token_end};
use elab_decls::{define_function, function_declared};
use elab_entry::below::{
    At, Declared, ElabFault, FuncKind, Header, IllRule, Kids, NodeId, Nodes, State, Storage,
    Tokens, declared_by, elab_types_node_at as node_at, ill, kids_of, specified, text_sized,
};
use elab_entry::function_body;
use elab_members::member_defined;
use std::alloc::{AllocError, Global};

// The token behind which a body ends.
fn brace_of(nodes: &Nodes, body: NodeId) -> u32
    requires { body.0 < length nodes.now }
    ensures { result ≡ brace_of_of (tree_at (syntax_of nodes.now) body) }
{
    match node_at(nodes, body).token {
        Some(token) => token,
        None => 0,
    }
}

// The text of a definition, where it is inline.
fn definition_text(
    alloc: Global,
    tokens: &Tokens,
    storage: Storage,
    first: u32,
    last: u32,
) -> Result<Vec<u8>, AllocError>
    ensures { (body : Tree) → last ≡ brace_of_of body → IfOk result (λ v. v.items ≡ definition_text_of (lexemes_of tokens.now) (storage_of storage) first body) }
{
    if !storage.is_inline {
        return Ok(Vec::new(alloc));
    }
    text_between(alloc, tokens, first, last)
}

// A function that is no member, with its header and its text.
fn defined_header(
    alloc: Global,
    tokens: &Tokens,
    nodes: &Nodes,
    st: &mut State,
    header: &Header,
    text: Vec<u8>,
    body: NodeId,
) -> Result<(), ElabFault>
    requires { body.0 < length nodes.now }
    ensures { (first : ℕ) → text.items ≡ definition_text_of (lexemes_of tokens.now) (storage_of header.now.storage) first (tree_at (syntax_of nodes.now) body) → Answers (state_of st.new) result (defined_header_of (lexemes_of tokens.now) (state_of st.old) first (tree_at (syntax_of nodes.now) body) (header_shown header.now)) }
{
    defines_well(alloc, header)?;
    let func = function_declared(alloc, &mut st.env, header, true)?;
    let closed = token_end(tokens, brace_of(nodes, body));
    define_function(alloc, &mut st.env, func, header, text, closed)?;
    function_body(
        alloc,
        &UnitLambdas,
        tokens,
        nodes,
        st,
        header,
        None,
        func,
        body,
    )
}

// A function that is no member, with its body.
fn defined_with(
    alloc: Global,
    tokens: &Tokens,
    nodes: &Nodes,
    st: &mut State,
    storage: Storage,
    at: At,
    first: u32,
    found: Declared,
    body: NodeId,
) -> Result<(), ElabFault>
    requires { body.0 < length nodes.now }
    ensures { Answers (state_of st.new) result (defined_with_of (lexemes_of tokens.now) (state_of st.old) (storage_of storage) at first (declared_of found) (tree_at (syntax_of nodes.now) body) (form_in (typ_of found.ty))) }
{
    if !is_function(&found.ty) {
        return Err(ill(at, IllRule::BadDeclaration));
    }
    let last = brace_of(nodes, body);
    let text = definition_text(alloc, tokens, storage, first, last)?;
    text_sized(at, &text)?;
    let header = header_of(alloc, tokens, at, storage, found)?;
    defined_header(alloc, tokens, nodes, st, &header, text, body)
}

// What is behind the words before the definition of a function: its type, its declarator and its body.
#[derive(Clone, Copy)]
struct Parts {
    base: NodeId,
    declarator: NodeId,
    body: NodeId,
}

fn parts_of(ids: &[NodeId]) -> Option<Parts>
    ensures kids { (trees : List Tree) → MatchOption result (are_three (trees_at trees ids.now) ≡ false) (λ p. trees_at trees ids.now ≡ more (tree_at trees p.base) (more (tree_at trees p.declarator) (more (tree_at trees p.body) none))) }
    ensures lower { MatchOption result (Unit {0}) (λ p. (limit : ℕ) → are_below limit ids.now ≡ true → (p.base.0 < limit) × (p.declarator.0 < limit) × (p.body.0 < limit)) }
{
    match kids_of(ids) {
        Kids::Three(base, declarator, body) => Some(Parts {
            base,
            declarator,
            body,
        }),
        Kids::None | Kids::One(_) | Kids::Two(_, _) | Kids::Many => None,
    }
}

// Whether a declarator names the class that the function is of.
fn is_qualified(declared: &Declared) -> bool
    ensures { result ≡ is_qualified_of (declared_of declared.now) }
{
    declared.owner.is_some()
}

// The same where the words before it are known.
fn defined_behind(
    alloc: Global,
    tokens: &Tokens,
    nodes: &Nodes,
    st: &mut State,
    known: Storage,
    storage: Storage,
    at: At,
    first: u32,
    rest: &[NodeId],
    kids: &[NodeId],
) -> Result<(), ElabFault>
    requires rest { are_below (length nodes.now) rest.now ≡ true }
    requires kids { are_below (length nodes.now) kids.now ≡ true }
    ensures { Answers (state_of st.new) result (defined_typed (lexemes_of tokens.now) (state_of st.old) (storage_of known) (trees_at (syntax_of nodes.now) kids.now) (storage_of storage) at first (trees_at (syntax_of nodes.now) rest.now)) }
{
    let Some(parts) = parts_of(rest) else {
        return Err(ill(at, IllRule::OutOfProfile));
    };
    let ty = specified(alloc, &st.env, tokens, nodes, parts.base, &mut st.work)?;
    let found = declared_by(
        alloc,
        &st.env,
        tokens,
        nodes,
        at,
        &ty,
        parts.declarator,
        &mut st.work,
    )?;
    if is_qualified(&found) {
        return member_defined(
            alloc,
            &UnitLambdas,
            tokens,
            nodes,
            st,
            known,
            at,
            FuncKind::Plain,
            first,
            kids,
        );
    }
    defined_with(
        alloc, tokens, nodes, st, storage, at, first, found, parts.body,
    )
}

/// A function with its body, of a class or not: the kids of its node, and its first token.
pub fn function_defined(
    alloc: Global,
    tokens: &Tokens,
    nodes: &Nodes,
    st: &mut State,
    storage: Storage,
    at: At,
    first: u32,
    kids: &[NodeId],
) -> Result<(), ElabFault>
    requires { are_below (length nodes.now) kids.now ≡ true }
    ensures { Answers (state_of st.new) result (function_defined_of (lexemes_of tokens.now) (state_of st.old) (storage_of storage) at first (trees_at (syntax_of nodes.now) kids.now)) }
{
    let started = started_from(tokens, nodes, storage, kids);
    let rest = rest_from(kids, started.count);
    defined_behind(
        alloc,
        tokens,
        nodes,
        st,
        storage,
        started.storage,
        at,
        first,
        rest,
        kids,
    )
}
