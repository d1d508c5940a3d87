//! The call that reads a form alone, and what it is made of.

ghost use Rattle.std.specs.Prelude.{◌≡◌, ◌≤◌, ℕ, IfOk, None, length, map};
ghost use Rattle.cpp_syntax.specs.Source.{position_at};
ghost use Rattle.cpp_syntax.specs.Rules.{Rule};
ghost use Rattle.cpp_syntax.specs.Derivations.{no_read};
ghost use Rattle.cpp_syntax.specs.View.{BuilderState};
ghost use Rattle.cpp_syntax.specs.Parsed.{ParsesForm, ParsesLongest};
ghost use Rattle.cpp_parse_expr.specs.Parse.{form_of, open_bodies, EndsInside, Parses, Takes, TakesForm, Measures};

use crate::declarators::{
    declarator, function_qualifiers, parameter_clause, parameter_declaration, type_id,
};
use crate::depth::first_deep;
use crate::expressions::{assignment_expression, conditional_expression, expression};
use crate::types::type_specifier_seq;
use cpp_ast::{At, NodeId, Nodes};
use cpp_syntax::limits::{MAX_NESTED_CALLS, MAX_NESTED_SEARCHES};
use cpp_syntax::{Builder, Naming, OpenBody, Parts, TypeNames};
use std::alloc::{AllocError, Global};
use std::mem;
use thiserror::Error;

/// A form of the grammar that is read alone.
#[derive(Clone, Copy, Debug, PartialEq, Eq)]
pub enum ExprForm {
    /// An expression with its commas.
    Expr,
    /// An expression without commas outside its brackets.
    Assign,
    /// An expression without commas and assignments outside its brackets.
    Cond,
    /// A type without a declarator.
    TypeHead,
    /// A type with a declarator that names nothing.
    TypeId,
    /// A declarator with a name.
    Declarator,
    /// A parameter.
    Param,
    /// Parameters with commas, without their parentheses.
    Params,
    /// What follows parameters.
    Quals,
}

/// The body of a lambda, which is handed back unread.
#[derive(Clone, Copy, Debug, PartialEq, Eq)]
pub struct BodyRange {
    /// The lambda.
    pub lam: NodeId,
    /// The depth of the lambda.
    pub depth: u32,
    /// The index of the first token between its braces.
    pub from: u32,
    /// The index of its closing brace.
    pub to: u32,
}

/// The text of a form.
#[derive(Debug, Drop)]
pub struct ExprOut {
    /// The root of its tree.
    pub root: NodeId,
    /// The index behind its last token.
    pub next: u32,
    /// The bodies of its lambdas, in the order in which the lambdas end.
    pub bodies: Vec<BodyRange>,
}

/// Why no text was answered.
#[derive(Debug, Drop, Error)]
pub enum ParseFault {
    /// No text of the form begins there; the token up to which one could go on.
    #[error("token {token} does not go on")]
    Syntax { token: u32 },
    /// The text nests too deep; the token where its first node beyond the limit stands. Of a unit also the first token at which
    /// more constructs are open than a unit may nest, where no room is left for further nested calls.
    #[error("token {token} is nested too deep")]
    Nesting { token: u32 },
    /// No memory was left, or the text nests deeper than calls may be nested.
    #[error("out of memory")]
    Memory,
}

/// What was read of tokens from an index on.
#[derive(Drop)]
pub struct Reading {
    /// The longest text that begins there, if one does.
    pub found: Option<Found>,
    /// The token up to which there could be a longer one.
    pub token: u32,
}

/// The longest text from an index on.
#[derive(Drop)]
pub struct Found {
    /// The roots of its trees.
    pub roots: Vec<NodeId>,
    /// The index behind its last token.
    pub next: u32,
    /// The bodies of its lambdas, which are not read.
    pub bodies: Vec<OpenBody>,
}

/// What is answered of a form, but for want of memory.
#[derive(Drop)]
enum Outcome {
    Parsed(ExprOut),
    Refused { token: u32 },
    TooDeep { token: u32 },
}

/// The longest text of a form that begins at an index, whose root has a depth.
///
/// Its tree is that of the grammar ([`cpp_syntax`]), and its nodes are added behind those that are there. A lambda's body
/// is any run of tokens between matching braces, and is handed back as such. After a fault the nodes are as before.
pub fn parse_expr(
    alloc: Global,
    form: ExprForm,
    from: u32,
    types: &TypeNames,
    depth: u32,
    limit: u32,
    nodes: &mut Nodes,
) -> Result<ExprOut, ParseFault>
    requires { from ≤ length types.now.terminals }
    ensures { Parses types.now (form_of form) from depth limit nodes.old nodes.new result }
{
    let before = nodes.len();
    match parse_text(alloc, form, from, types, depth, limit, nodes) {
        Ok(Outcome::Parsed(out)) => Ok(out),
        Ok(Outcome::Refused { token }) => {
            nodes.truncate(before);
            Err(ParseFault::Syntax { token })
        }
        Ok(Outcome::TooDeep { token }) => {
            nodes.truncate(before);
            Err(ParseFault::Nesting { token })
        }
        Err(_) => {
            nodes.truncate(before);
            Err(ParseFault::Memory)
        }
    }
}

/// Reads the longest text of a form, and measures it. Further nodes may be left where it fails.
fn parse_text(
    alloc: Global,
    form: ExprForm,
    from: u32,
    types: &TypeNames,
    depth: u32,
    limit: u32,
    nodes: &mut Nodes,
) -> Result<Outcome, AllocError>
    requires { from ≤ length types.now.terminals }
    ensures { Measures types.now (form_of form) from depth limit nodes.old nodes.new result }
{
    let Reading { found, token } = read_text(alloc, form, from, types, nodes)?;
    let Some(
        Found {
            roots,
            next,
            bodies,
        },
    ) = found
    else {
        return Ok(Outcome::Refused { token });
    };
    let root = roots[0];
    let mut depths = Vec::new(alloc);
    if let Some(position) = first_deep(
        nodes,
        &[],
        root,
        u64::from(depth),
        limit,
        MAX_NESTED_SEARCHES,
        &mut depths,
    )? {
        let token = token_at(types, position);
        return Ok(Outcome::TooDeep { token });
    }
    let bodies = with_depths(alloc, &bodies, &depths)?;
    Ok(Outcome::Parsed(ExprOut { root, next, bodies }))
}

/// Reads the longest text of a form.
fn read_text(
    alloc: Global,
    form: ExprForm,
    from: u32,
    types: &TypeNames,
    nodes: &mut Nodes,
) -> Result<Reading, AllocError>
    requires { from ≤ length types.now.terminals }
    ensures { TakesForm types.now (form_of form) from nodes.old nodes.new result }
{
    let at = from as usize;
    let mut out = Builder::over(alloc, mem::replace(nodes, Nodes::new(alloc)));
    let read = read_form(form, types, at, &mut out);
    take_reading(types, at, read, out, nodes)
}

/// What a reader read of tokens from an index on: its answer, and the builder in which it left the rest. The builder's nodes are handed back.
pub fn take_reading(
    types: &TypeNames,
    from: usize,
    read: Result<Option<usize>, AllocError>,
    out: Builder,
    nodes: &mut Nodes,
) -> Result<Reading, AllocError>
    requires { EndsInside types.now read }
    ensures { (rule : Rule) (before : BuilderState) → before.read ≡ no_read → ParsesLongest types.now rule from None before out read
        → Takes types.now rule from before.base nodes.new result }
{
    let len = types.len();
    let furthest = out.furthest_failure().max(from);
    let Parts {
        nodes: grown,
        roots,
        bodies,
    } = out.into_parts();
    *nodes = grown;
    match read {
        Ok(Some(next)) => {
            let token = furthest.max(next).min(len) as u32;
            let next = next as u32;
            let found = Found {
                roots,
                next,
                bodies,
            };
            Ok(Reading {
                found: Some(found),
                token,
            })
        }
        Ok(None) => {
            let token = furthest.min(len) as u32;
            Ok(Reading { found: None, token })
        }
        Err(error) => Err(error),
    }
}

/// Reads the longest text of a form into a builder.
fn read_form(
    form: ExprForm,
    types: &TypeNames,
    at: usize,
    out: &mut Builder,
) -> Result<Option<usize>, AllocError>
    requires { at ≤ length types.now.terminals }
    ensures { ParsesForm types.now (form_of form) at out.old out.new result }
{
    match form {
        ExprForm::Expr => expression(types, at, MAX_NESTED_CALLS, out),
        ExprForm::Assign => assignment_expression(types, at, MAX_NESTED_CALLS, out),
        ExprForm::Cond => conditional_expression(types, at, MAX_NESTED_CALLS, out),
        ExprForm::TypeHead => type_specifier_seq(types, at, MAX_NESTED_CALLS, out),
        ExprForm::TypeId => type_id(types, at, MAX_NESTED_CALLS, out),
        ExprForm::Declarator => declarator(types, at, Naming::Named, MAX_NESTED_CALLS, out),
        ExprForm::Param => parameter_declaration(types, at, MAX_NESTED_CALLS, out),
        ExprForm::Params => Ok(Some(parameter_clause(types, at, MAX_NESTED_CALLS, out)?)),
        ExprForm::Quals => Ok(Some(function_qualifiers(types, at, out)?)),
    }
}

/// The first token that has an index, or the number of tokens where none has.
pub fn token_at(types: &TypeNames, position: At) -> u32
    ensures inside { result ≤ length types.now.terminals }
    ensures position { (k : ℕ) → k ≤ length types.now.terminals → position_at types.now k ≡ position → position_at types.now result ≡ position }
{
    'tokens: for k in 0..types.len() {
        if types.position(k) == position {
            return k as u32;
        }
    }
    types.len() as u32
}

/// Bodies with the depths of their lambdas.
fn with_depths(
    alloc: Global,
    bodies: &[OpenBody],
    depths: &[u32],
) -> Result<Vec<BodyRange>, AllocError>
    requires { length depths.now ≡ length bodies.now }
    ensures bodies { IfOk result (λ ranges. open_bodies ranges.items ≡ bodies.now) }
    ensures depths { IfOk result (λ ranges. map (λ range. range.depth) ranges.items ≡ depths.now) }
{
    let mut ranges = Vec::new(alloc);
    'bodies: for k in 0..bodies.len() {
        let body = bodies[k];
        ranges.push(BodyRange {
            lam: body.lam,
            depth: depths[k],
            from: body.from,
            to: body.to,
        })?;
    }
    Ok(ranges)
}
