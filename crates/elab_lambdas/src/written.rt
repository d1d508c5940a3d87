// Lambdas as they are written, and all of a full-expression.

ghost use Rattle.std.specs.Prelude.{◌≡◌, ◌<◌, List, map, option_map, length, true, MatchOption, IfOk};
ghost use Rattle.elab_entry.specs.cpp_types.Typ.{typ_of};
ghost use Rattle.elab_entry.specs.cpp_lex.Tokens.{lexemes_of};
ghost use Rattle.elab_entry.specs.cpp_ast.Orders.{are_below};
ghost use Rattle.elab_entry.specs.elab_ctx.Ctx.{ctx_of, work_of, capture_of};
ghost use Rattle.elab_entry.specs.elab_ctx.Says.{Tells};
ghost use Rattle.elab_entry.specs.elab_rules.Statements.{Body};
ghost use Rattle.elab_entry.specs.elab_rules.Types.{no_qualifiers as no_qualifiers_of, qualifiers_from};
ghost use Rattle.elab_entry.specs.elab_rules.Lambdas.{default_in as default_in_of, explicit_captures as explicit_captures_of, parameters_among as parameters_among_of, result_among as result_among_of, not_dynamic as not_dynamic_of, is_mutable_word as is_mutable_word_of, has_mutable as has_mutable_of, closing as closing_of, captured_uses, default_captures as default_captures_of, used_in as used_in_of, kids_of as kids_of_tree};
ghost use Rattle.elab_entry.specs.elab_rows.Typed.{parameters_of};
ghost use Rattle.elab_entry.specs.elab_types.Shown.{Says, parameter_of, qualifiers_of as qualifiers_view};
ghost use Rattle.elab_entry.specs.elab_types.Syntax.{syntax_of, tree_at, trees_at};
ghost use Rattle.elab_entry.specs.elab_scopes.elab_expr.Unmoved.{Unmoved};
ghost use Rattle.elab_entry.specs.elab_scopes.States.{state_of};
ghost use Rattle.elab_entry.specs.elab_scopes.Says.{Changes};
ghost use Rattle.lambda_captures.specs.Shown.{otherwise_of, captures_of as captures_view};
ghost use Rattle.elab_lambdas.specs.Steps.{trailing_in as trailing_in_of, trailing, result_written, at_hand};
ghost use Rattle.lambda_captures.specs.Says.{Collects};
ghost use Rattle.elab_lambdas.specs.Whole.{written_of, lambda_written as lambda_written_of, lambda_from as lambda_from_of, lambda_of as lambda_of_of, lambdas_of, lambdas_among};

use crate::closures::CallWords;
use crate::making::{Written, lambda_made};
use elab_entry::below::{
    At, Capture, ElabFault, Env, IllRule, Kids, MakeLambdas, NodeId, NodeKind, Nodes, OverrideRule,
    Parameter, Qualifiers, State, Tokens, Ty, Work, elab_types_node_at as node_at, first_kid, ill,
    kids_of, parameters, place, qualifiers_of, type_id,
};
use lambda_captures::captures::capture_uses;
use lambda_captures::explicit::{Otherwise, default_in, explicit_captures};
use lambda_captures::scanning::used_in;
use std::alloc::Global;

// The parameters of a lambda, among the kids of its declarator.
fn parameters_among(
    alloc: Global,
    tokens: &Tokens,
    nodes: &Nodes,
    env: &Env,
    work: &mut Work,
    parent: NodeId,
    ids: &[NodeId],
) -> Result<Vec<Parameter>, ElabFault>
    requires within { parent.0 < length nodes.now }
    requires lower { are_below parent.0 ids.now ≡ true }
    ensures says { Says parameters_of result (parameters_among_of (lexemes_of tokens.now) (ctx_of env.now) (work_of work.old) (trees_at (syntax_of nodes.now) ids.now)) }
    ensures kept { IfOk result (λ params. Unmoved work.old work.new) }
{
    let Some(first) = first_kid(ids) else {
        return Ok(Vec::new(alloc));
    };
    match node_at(nodes, first).kind {
        NodeKind::ParameterDeclarationClause => {
            parameters(alloc, env, &env.closures, tokens, nodes, first, work)
        }
        _ => Ok(Vec::new(alloc)),
    }
}

fn no_qualifiers() -> Qualifiers
    ensures { qualifiers_view result ≡ no_qualifiers_of }
{
    Qualifiers {
        is_const: false,
        is_safe: false,
        is_dynamic: false,
        no_except: false,
    }
}

// A lambda is not virtual.
fn not_dynamic(at: At, qualifiers: Qualifiers) -> Result<bool, ElabFault>
    ensures { Tells result (not_dynamic_of at (qualifiers_view qualifiers)) }
{
    if qualifiers.is_dynamic {
        let rule = OverrideRule::DynamicNotVirtual;
        return Err(ElabFault::Override { at, rule });
    }
    Ok(true)
}

fn is_mutable_word(nodes: &Nodes, id: NodeId) -> bool
    requires { id.0 < length nodes.now }
    ensures { result ≡ is_mutable_word_of (tree_at (syntax_of nodes.now) id) }
{
    match node_at(nodes, id).kind {
        NodeKind::Mutable => true,
        _ => false,
    }
}

fn has_mutable(nodes: &Nodes, parent: NodeId, ids: &[NodeId]) -> bool
    requires within { parent.0 < length nodes.now }
    requires lower { are_below parent.0 ids.now ≡ true }
    ensures { result ≡ has_mutable_of (trees_at (syntax_of nodes.now) ids.now) }
{
    for id in ids {
        if is_mutable_word(nodes, *id) {
            return true;
        }
    }
    false
}

// The type that stands behind `->`, if the node is one.
fn trailing_in(nodes: &Nodes, id: NodeId) -> Option<NodeId>
    requires { id.0 < length nodes.now }
    ensures found { trailing_in_of (tree_at (syntax_of nodes.now) id) ≡ option_map (tree_at (syntax_of nodes.now)) result }
    ensures lower { MatchOption result (Unit {0}) (λ kid. kid.0 < id.0) }
{
    let node = node_at(nodes, id);
    match node.kind {
        NodeKind::TrailingReturnType => match kids_of(&node.kids) {
            Kids::One(kid) => Some(kid),
            Kids::None | Kids::Two(_, _) | Kids::Three(_, _, _) | Kids::Many => None,
        },
        _ => None,
    }
}

// The first of them.
fn trailing_type(nodes: &Nodes, parent: NodeId, ids: &[NodeId]) -> Option<NodeId>
    requires within { parent.0 < length nodes.now }
    requires lower { are_below parent.0 ids.now ≡ true }
    ensures found { trailing (trees_at (syntax_of nodes.now) ids.now) ≡ option_map (tree_at (syntax_of nodes.now)) result }
    ensures lower { MatchOption result (Unit {0}) (λ kid. kid.0 < length nodes.now) }
{
    for id in ids {
        if let Some(kid) = trailing_in(nodes, *id) {
            return Some(kid);
        }
    }
    None
}

// The type that a type-id names, if there is one.
fn type_written(
    alloc: Global,
    tokens: &Tokens,
    nodes: &Nodes,
    env: &Env,
    work: &mut Work,
    id: Option<NodeId>,
) -> Result<Option<Ty>, ElabFault>
    requires { MatchOption id (Unit {0}) (λ kid. kid.0 < length nodes.now) }
    ensures says { Says (option_map typ_of) result (result_written (lexemes_of tokens.now) (ctx_of env.now) (work_of work.old) (option_map (tree_at (syntax_of nodes.now)) id)) }
    ensures kept { IfOk result (λ ty. Unmoved work.old work.new) }
{
    match id {
        Some(id) => {
            let ty = type_id(alloc, env, &env.closures, tokens, nodes, id, work)?;
            Ok(Some(ty))
        }
        None => Ok(None),
    }
}

// The result type that is written.
fn result_among(
    alloc: Global,
    tokens: &Tokens,
    nodes: &Nodes,
    env: &Env,
    work: &mut Work,
    parent: NodeId,
    ids: &[NodeId],
) -> Result<Option<Ty>, ElabFault>
    requires within { parent.0 < length nodes.now }
    requires lower { are_below parent.0 ids.now ≡ true }
    ensures says { Says (option_map typ_of) result (result_among_of (lexemes_of tokens.now) (ctx_of env.now) (work_of work.old) (trees_at (syntax_of nodes.now) ids.now)) }
    ensures kept { IfOk result (λ ty. Unmoved work.old work.new) }
{
    let found = trailing_type(nodes, parent, ids);
    type_written(alloc, tokens, nodes, env, work, found)
}

// The byte behind the brace of a body.
fn closing(tokens: &Tokens, nodes: &Nodes, body: NodeId) -> u32
    requires { body.0 < length nodes.now }
    ensures { result ≡ closing_of (lexemes_of tokens.now) (tree_at (syntax_of nodes.now) body) }
{
    let Some(token) = node_at(nodes, body).token else {
        return 0;
    };
    match tokens.items.get(token as usize) {
        Some(found) => found.to,
        None => 0,
    }
}

// How what is named and not written is captured, by an introducer.
fn default_of(tokens: &Tokens, nodes: &Nodes, intro: NodeId) -> Otherwise
    requires { intro.0 < length nodes.now }
    ensures { otherwise_of result ≡ default_in_of (lexemes_of tokens.now) (kids_of_tree (tree_at (syntax_of nodes.now) intro)) }
{
    let node = node_at(nodes, intro);
    default_in(tokens, nodes, intro, &node.kids)
}

// The captures that are written in an introducer.
fn captures_of(
    alloc: Global,
    tokens: &Tokens,
    nodes: &Nodes,
    env: &Env,
    otherwise: Otherwise,
    intro: NodeId,
) -> Result<Vec<Capture>, ElabFault>
    requires { intro.0 < length nodes.now }
    ensures { Says captures_view result (explicit_captures_of (lexemes_of tokens.now) (ctx_of env.now) (otherwise_of otherwise) (kids_of_tree (tree_at (syntax_of nodes.now) intro))) }
{
    let node = node_at(nodes, intro);
    explicit_captures(alloc, tokens, nodes, env, otherwise, intro, &node.kids)
}

// What is named is captured.
fn capture_named(
    alloc: Global,
    tokens: &Tokens,
    nodes: &Nodes,
    env: &Env,
    by_ref: bool,
    captures: &mut Vec<Capture>,
    params: &[Parameter],
    body: NodeId,
) -> Result<(), ElabFault>
    requires { body.0 < length nodes.now }
    ensures { Collects captures.new.items result (captured_uses (ctx_of env.now) by_ref (map capture_of captures.old.items) (used_in_of (lexemes_of tokens.now) (ctx_of env.now) (map parameter_of params.now) (tree_at (syntax_of nodes.now) body))) }
{
    let used = used_in(alloc, tokens, nodes, env, params, body)?;
    capture_uses(alloc, env, captures, by_ref, &used)
}

// What is named and not written is captured as the default says.
fn default_captures(
    alloc: Global,
    tokens: &Tokens,
    nodes: &Nodes,
    env: &Env,
    otherwise: Otherwise,
    captures: &mut Vec<Capture>,
    params: &[Parameter],
    body: NodeId,
) -> Result<(), ElabFault>
    requires { body.0 < length nodes.now }
    ensures { Collects captures.new.items result (default_captures_of (ctx_of env.now) (otherwise_of otherwise) (map capture_of captures.old.items) (used_in_of (lexemes_of tokens.now) (ctx_of env.now) (map parameter_of params.now) (tree_at (syntax_of nodes.now) body))) }
{
    match otherwise {
        Otherwise::Nothing => Ok(()),
        Otherwise::ByCopy => {
            capture_named(alloc, tokens, nodes, env, false, captures, params, body)
        }
        Otherwise::ByReference => {
            capture_named(alloc, tokens, nodes, env, true, captures, params, body)
        }
    }
}

// What is written of a lambda: its captures, the parts of its declarator, with the words among them, and its body.
fn lambda_written(
    alloc: Global,
    tokens: &Tokens,
    nodes: &Nodes,
    at: At,
    intro: NodeId,
    parent: NodeId,
    ids: &[NodeId],
    qualifiers: Qualifiers,
    body: NodeId,
    env: &Env,
    work: &mut Work,
) -> Result<Written, ElabFault>
    requires intro { intro.0 < length nodes.now }
    requires within { parent.0 < length nodes.now }
    requires lower { are_below parent.0 ids.now ≡ true }
    requires words { qualifiers_view qualifiers ≡ qualifiers_from (lexemes_of tokens.now) no_qualifiers_of (trees_at (syntax_of nodes.now) ids.now) }
    requires body { body.0 < length nodes.now }
    ensures is { (bodies : List Body) → Says (written_of (syntax_of nodes.now)) result (lambda_written_of (lexemes_of tokens.now) (at_hand (ctx_of env.now) (work_of work.old) bodies) at (kids_of_tree (tree_at (syntax_of nodes.now) intro)) (trees_at (syntax_of nodes.now) ids.now) (tree_at (syntax_of nodes.now) body)) }
    ensures body { IfOk result (λ x. x.body.0 < length nodes.now) }
    ensures kept { IfOk result (λ x. Unmoved work.old work.new) }
{
    let otherwise = default_of(tokens, nodes, intro);
    let mut captures = captures_of(alloc, tokens, nodes, env, otherwise, intro)?;
    let params = parameters_among(alloc, tokens, nodes, env, work, parent, ids)?;
    not_dynamic(at, qualifiers)?;
    let result = result_among(alloc, tokens, nodes, env, work, parent, ids)?;
    default_captures(
        alloc,
        tokens,
        nodes,
        env,
        otherwise,
        &mut captures,
        &params,
        body,
    )?;
    let words = CallWords {
        at,
        qualifiers,
        is_mutable: has_mutable(nodes, parent, ids),
        closed: closing(tokens, nodes, body),
    };
    Ok(Written {
        words,
        captures,
        params,
        result,
        body,
    })
}

// A lambda by its parts.
fn lambda_from(
    alloc: Global,
    tokens: &Tokens,
    nodes: &Nodes,
    at: At,
    intro: NodeId,
    parent: NodeId,
    ids: &[NodeId],
    qualifiers: Qualifiers,
    body: NodeId,
    st: &mut State,
) -> Result<(), ElabFault>
    requires intro { intro.0 < length nodes.now }
    requires within { parent.0 < length nodes.now }
    requires lower { are_below parent.0 ids.now ≡ true }
    requires words { qualifiers_view qualifiers ≡ qualifiers_from (lexemes_of tokens.now) no_qualifiers_of (trees_at (syntax_of nodes.now) ids.now) }
    requires body { body.0 < length nodes.now }
    ensures { Changes st.old st.new result (lambda_from_of (lexemes_of tokens.now) (state_of st.old) at (kids_of_tree (tree_at (syntax_of nodes.now) intro)) (trees_at (syntax_of nodes.now) ids.now) (tree_at (syntax_of nodes.now) body)) }
{
    let written = lambda_written(
        alloc,
        tokens,
        nodes,
        at,
        intro,
        parent,
        ids,
        qualifiers,
        body,
        &st.env,
        &mut st.work,
    )?;
    lambda_made(alloc, tokens, nodes, st, written)
}

// A lambda by its introducer and its body, with a declarator between them.
fn lambda_declared(
    alloc: Global,
    tokens: &Tokens,
    nodes: &Nodes,
    at: At,
    intro: NodeId,
    parts: NodeId,
    body: NodeId,
    st: &mut State,
) -> Result<(), ElabFault>
    requires intro { intro.0 < length nodes.now }
    requires parts { parts.0 < length nodes.now }
    requires body { body.0 < length nodes.now }
    ensures { Changes st.old st.new result (lambda_from_of (lexemes_of tokens.now) (state_of st.old) at (kids_of_tree (tree_at (syntax_of nodes.now) intro)) (kids_of_tree (tree_at (syntax_of nodes.now) parts)) (tree_at (syntax_of nodes.now) body)) }
{
    let qualifiers = qualifiers_of(tokens, nodes, parts);
    let node = node_at(nodes, parts);
    lambda_from(
        alloc, tokens, nodes, at, intro, parts, &node.kids, qualifiers, body, st,
    )
}

// A lambda, which a node stands for.
fn lambda_of(
    alloc: Global,
    tokens: &Tokens,
    nodes: &Nodes,
    at: At,
    parent: NodeId,
    ids: &[NodeId],
    st: &mut State,
) -> Result<(), ElabFault>
    requires within { parent.0 < length nodes.now }
    requires lower { are_below parent.0 ids.now ≡ true }
    ensures { Changes st.old st.new result (lambda_of_of (lexemes_of tokens.now) (state_of st.old) at (trees_at (syntax_of nodes.now) ids.now)) }
{
    match kids_of(ids) {
        Kids::Three(intro, parts, body) => {
            lambda_declared(alloc, tokens, nodes, at, intro, parts, body, st)
        }
        Kids::Two(intro, body) => {
            let qualifiers = no_qualifiers();
            lambda_from(
                alloc,
                tokens,
                nodes,
                at,
                intro,
                body,
                &[],
                qualifiers,
                body,
                st,
            )
        }
        Kids::None | Kids::One(_) | Kids::Many => Err(ill(at, IllRule::OutOfProfile)),
    }
}

// All lambdas in a tree, in the order of the text; none in an operand of `sizeof` (profile).
#[cycle(lambdas)]
fn all_in(
    alloc: Global,
    tokens: &Tokens,
    nodes: &Nodes,
    id: NodeId,
    st: &mut State,
) -> Result<(), ElabFault>
    requires { id.0 < length nodes.now }
    ensures { Changes st.old st.new result (lambdas_of (lexemes_of tokens.now) (state_of st.old) (tree_at (syntax_of nodes.now) id)) }
{
    let node = node_at(nodes, id);
    match node.kind {
        NodeKind::Lambda => { lambda_of(alloc, tokens, nodes, place(node.at), id, &node.kids, st) }
        NodeKind::SizeofExpression | NodeKind::SizeofType => Ok(()),
        _ => all_among(alloc, tokens, nodes, id, &node.kids, st),
    }
}

// The same of several trees.
#[cycle(lambdas)]
fn all_among(
    alloc: Global,
    tokens: &Tokens,
    nodes: &Nodes,
    parent: NodeId,
    ids: &[NodeId],
    st: &mut State,
) -> Result<(), ElabFault>
    requires within { parent.0 < length nodes.now }
    requires lower { are_below parent.0 ids.now ≡ true }
    ensures { Changes st.old st.new result (lambdas_among (lexemes_of tokens.now) (state_of st.old) (trees_at (syntax_of nodes.now) ids.now)) }
{
    for id in ids {
        all_in(alloc, tokens, nodes, *id, st)?;
    }
    Ok(())
}

/// Makes the lambdas of a full-expression before it.
#[derive(Clone, Copy)]
pub struct AllLambdas;

impl MakeLambdas for AllLambdas {
    ghost use Rattle.elab_lambdas.specs.Whole.{lambdas_of};

    ghost lambdas = { λ self. lambdas_of };

    fn make(
        &self,
        alloc: Global,
        tokens: &Tokens,
        nodes: &Nodes,
        id: NodeId,
        st: &mut State,
    ) -> Result<(), ElabFault> {
        all_in(alloc, tokens, nodes, id, st)
    }
}
