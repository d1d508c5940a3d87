// The initialiser of a declarator, as it is written (C++14 8.5).

ghost use Rattle.std.specs.Prelude.{◌≡◌, ◌<◌, ◌+◌, List, length, true, IfOk};
ghost use Rattle.elab_expr.specs.cpp_lex.Tokens.{lexemes_of};
ghost use Rattle.elab_expr.specs.cpp_ast.Orders.{are_below};
ghost use Rattle.elab_expr.specs.cpp_ast.Trees.{Tree};
ghost use Rattle.elab_expr.specs.cpp_types.Typ.{typ_of, typ, array};
ghost use Rattle.elab_expr.specs.elab_rules.Statements.{count, closed_bound as closed_bound_of, string_length as string_length_of, bound_by_initialiser as bound_by_initialiser_of};
ghost use Rattle.elab_expr.specs.elab_types.Syntax.{syntax_of, tree_at, trees_at};
ghost use Rattle.elab_braces.specs.Forms.{form_of, one_form, equal_form, equal_of, shown_in, IsLower, bound_by_form};

use elab_aggregates::string_token;
use elab_expr::below::{
    Kids, NodeId, NodeKind, Nodes, Shape, Tokens, Ty, copy, elab_types_node_at as node_at, kids_of,
    spelling, string_bytes,
};
use std::alloc::{AllocError, Global};

/// What initialises an object, as it is written.
#[derive(Clone, Copy)]
pub enum Written {
    Nothing,
    /// Values in parentheses: the node whose kids they are.
    Values(NodeId),
    /// Braces behind `=`.
    Braces(NodeId),
    /// An expression behind `=`.
    Expression(NodeId),
    Other,
}

// What stands behind `=`.
fn equal_to(nodes: &Nodes, id: NodeId) -> Written
    requires { id.0 < length nodes.now }
    ensures is { shown_in (syntax_of nodes.now) result ≡ equal_of (tree_at (syntax_of nodes.now) id) }
    ensures lower { IsLower (id.0 + 1) result }
{
    match node_at(nodes, id).kind {
        NodeKind::BracedInitList => Written::Braces(id),
        _ => Written::Expression(id),
    }
}

// The same of the kids of `=`.
fn equal_kids(nodes: &Nodes, parent: NodeId, ids: &[NodeId]) -> Written
    requires within { parent.0 < length nodes.now }
    requires lower { are_below parent.0 ids.now ≡ true }
    ensures is { shown_in (syntax_of nodes.now) result ≡ equal_form (trees_at (syntax_of nodes.now) ids.now) }
    ensures lower { IsLower parent.0 result }
{
    match kids_of(ids) {
        Kids::One(kid) => equal_to(nodes, kid),
        Kids::None | Kids::Two(_, _) | Kids::Three(_, _, _) | Kids::Many => Written::Other,
    }
}

// What an initialiser is.
fn one_initialiser(nodes: &Nodes, id: NodeId) -> Written
    requires { id.0 < length nodes.now }
    ensures is { shown_in (syntax_of nodes.now) result ≡ one_form (tree_at (syntax_of nodes.now) id) }
    ensures lower { IsLower (id.0 + 1) result }
{
    let node = node_at(nodes, id);
    match node.kind {
        NodeKind::ParenthesizedInitializer => Written::Values(id),
        NodeKind::EqualInitializer => equal_kids(nodes, id, &node.kids),
        _ => Written::Other,
    }
}

/// What initialises, where these kids of a node are its initialiser, if it has one.
pub fn read_initialiser(nodes: &Nodes, parent: NodeId, ids: &[NodeId]) -> Written
    requires within { parent.0 < length nodes.now }
    requires lower { are_below parent.0 ids.now ≡ true }
    ensures is { shown_in (syntax_of nodes.now) result ≡ form_of (trees_at (syntax_of nodes.now) ids.now) }
    ensures lower { IsLower parent.0 result }
{
    match kids_of(ids) {
        Kids::None => Written::Nothing,
        Kids::One(kid) => one_initialiser(nodes, kid),
        Kids::Two(_, _) | Kids::Three(_, _, _) | Kids::Many => Written::Other,
    }
}

// A type with this bound, if it is an array without one.
fn closed_bound(alloc: Global, count: u32, ty: &Ty) -> Result<Ty, AllocError>
    ensures { IfOk result (λ t. typ_of t ≡ closed_bound_of count (typ_of ty.now)) }
{
    match &ty.shape {
        Shape::Array(element, bound) => {
            if *bound != 0 {
                return copy(alloc, ty);
            }
            array_of(alloc, element, count, ty.is_const, ty.is_volatile)
        }
        Shape::Void
        | Shape::Int(_)
        | Shape::Enum { .. }
        | Shape::Null
        | Shape::Ptr(_)
        | Shape::Ref(_)
        | Shape::Func(_)
        | Shape::Class(_)
        | Shape::Closure(_)
        | Shape::TxEx(_) => copy(alloc, ty),
    }
}

// An array of so many elements.
fn array_of(
    alloc: Global,
    element: &Ty,
    count: u32,
    is_const: bool,
    is_volatile: bool,
) -> Result<Ty, AllocError>
    ensures { IfOk result (λ t. typ_of t ≡ typ (array (typ_of element.now) count) is_const is_volatile) }
{
    let element = Box::new(alloc, copy(alloc, element)?)?;
    Ok(Ty {
        shape: Shape::Array(element, count),
        is_const,
        is_volatile,
    })
}

// How many characters a string has, with the zero behind them; none where there is no string.
fn string_length(alloc: Global, tokens: &Tokens, token: Option<u32>) -> Result<u32, AllocError>
    ensures { IfOk result (λ n. n ≡ string_length_of (lexemes_of tokens.now) token) }
{
    match token {
        Some(token) => {
            let bytes = string_bytes(alloc, spelling(tokens, token))?;
            count_of(bytes.len() as u64 + 1)
        }
        None => Ok(0),
    }
}

// A number of elements, as far as types have it.
fn count_of(count: u64) -> Result<u32, AllocError>
    ensures { IfOk result (λ n. n ≡ count) }
{
    let Ok(count) = u32::try_from(count) else {
        return Err(AllocError);
    };
    Ok(count)
}

// A type with as many elements as there are kids.
fn bound_by_kids(alloc: Global, ids: &[NodeId], ty: &Ty) -> Result<Ty, AllocError>
    ensures { (trees : List Tree) → IfOk result (λ t. typ_of t ≡ closed_bound_of (count (trees_at trees ids.now)) (typ_of ty.now)) }
{
    let count = count_of(ids.len() as u64)?;
    closed_bound(alloc, count, ty)
}

// A type with as many elements as a string has.
fn bound_by_string(
    alloc: Global,
    tokens: &Tokens,
    token: Option<u32>,
    ty: &Ty,
) -> Result<Ty, AllocError>
    ensures { IfOk result (λ t. typ_of t ≡ closed_bound_of (string_length_of (lexemes_of tokens.now) token) (typ_of ty.now)) }
{
    let count = string_length(alloc, tokens, token)?;
    closed_bound(alloc, count, ty)
}

// A type with the bound that what is written gives.
fn bound_by(
    alloc: Global,
    tokens: &Tokens,
    nodes: &Nodes,
    form: Written,
    ty: &Ty,
) -> Result<Ty, AllocError>
    requires { IsLower (length nodes.now) form }
    ensures { IfOk result (λ t. typ_of t ≡ bound_by_form (lexemes_of tokens.now) (typ_of ty.now) (shown_in (syntax_of nodes.now) form)) }
{
    match form {
        Written::Braces(id) => bound_by_kids(alloc, &node_at(nodes, id).kids, ty),
        Written::Expression(id) => bound_by_string(alloc, tokens, string_token(nodes, id), ty),
        Written::Nothing | Written::Values(_) | Written::Other => copy(alloc, ty),
    }
}

/// A type with the bound that its initialiser gives, if it is an array without one.
pub fn bound_by_initialiser(
    alloc: Global,
    tokens: &Tokens,
    nodes: &Nodes,
    parent: NodeId,
    ids: &[NodeId],
    ty: &Ty,
) -> Result<Ty, AllocError>
    requires within { parent.0 < length nodes.now }
    requires lower { are_below parent.0 ids.now ≡ true }
    ensures { IfOk result (λ t. typ_of t ≡ bound_by_initialiser_of (lexemes_of tokens.now) (typ_of ty.now) (trees_at (syntax_of nodes.now) ids.now)) }
{
    let form = read_initialiser(nodes, parent, ids);
    bound_by(alloc, tokens, nodes, form, ty)
}
