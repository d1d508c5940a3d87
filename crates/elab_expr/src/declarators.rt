// Types as they are written: specifiers, declarators, parameters (C++14 7.1.6, 8.1 to 8.3). What is made for a bound stands behind
// what is there, and is cut off again.

ghost use Rattle.std.specs.Prelude.{◌≡◌, ◌<◌, length, map, true, false, IfOk};
ghost use Rattle.elab_rows.specs.cpp_lex.Tokens.{lexemes_of};
ghost use Rattle.elab_rows.specs.cpp_types.Typ.{typ_of};
ghost use Rattle.elab_rows.specs.cpp_ast.Trees.{kind_of};
ghost use Rattle.elab_rows.specs.cpp_ast.declared.kinds.NodeKind.TheVariants as syntax;
ghost use Rattle.elab_rows.specs.elab_ctx.Ctx.{ctx_of, work_of, closure_of};
ghost use Rattle.elab_rows.specs.elab_ctx.Steps.{and_then, Typed};
ghost use Rattle.elab_rows.specs.elab_rules.Expressions.{expression_with, chosen_operand, bounded as bounded_of, specified_with, specifiers_with, type_id_with, declared_with, parameters_in_with, parameter_with};
ghost use Rattle.elab_rows.specs.elab_types.Syntax.{syntax_of, tree_at};
ghost use Rattle.elab_rows.specs.elab_types.Shown.{Says, specifiers_of, declared_of, parameter_of as parameter_shown};
ghost use Rattle.elab_rows.specs.Typed.{parameters_of};
ghost use Rattle.elab_expr.specs.Forms.{is_exception as is_exception_of};
ghost use Rattle.elab_expr.specs.Unmoved.{Unmoved};

use crate::expressions::chosen_expression;
use crate::forms::{all_qualified, is_exception, is_integer_literal, keep_parameter};
use crate::literals::literal_bound;
use elab_growth::cut_back;
use elab_rows::below::{
    At, Closure, Declared, ElabFault, Env, IllRule, Kids, NodeId, NodeKind, Nodes, Parameter,
    Specifiers, Tokens, Ty, Work, elab_types_is_name as is_name, elab_types_node_at as node_at,
    elab_types_pointer_to as pointer_to, function_of, ill, is_declared_safe, kids_of, last_kid,
    name_declared, named_by, no_specifiers, open_array, owner_token, parameter_of, place,
    qualifiers_of, reference_to, specified_type, with_exception, with_function,
    with_qualifier_word, with_word,
};
use elab_rows::bounded;
use std::alloc::Global;
use std::mem;

/// The specifiers with one more.
#[cycle(expressions)]
pub fn specified(
    alloc: Global,
    env: &Env,
    closures: &[Closure],
    tokens: &Tokens,
    nodes: &Nodes,
    specifiers: Specifiers,
    id: NodeId,
    work: &mut Work,
) -> Result<Specifiers, ElabFault>
    requires within { id.0 < length nodes.now }
    ensures says { Says (specifiers_of (lexemes_of tokens.now)) result (specified_with (lexemes_of tokens.now) (ctx_of env.now) (map closure_of closures.now) (work_of work.old) (specifiers_of (lexemes_of tokens.now) specifiers) (tree_at (syntax_of nodes.now) id)) }
    ensures kept { IfOk result (λ x. Unmoved work.old work.new) }
{
    let node = node_at(nodes, id);
    if is_exception(node.kind) {
        return exception_specified(alloc, env, closures, tokens, nodes, specifiers, id, work);
    }
    simple_specified(alloc, env, closures, tokens, nodes, specifiers, id, work)
}

// `std::tx_exception<T>`
#[cycle(expressions)]
fn exception_specified(
    alloc: Global,
    env: &Env,
    closures: &[Closure],
    tokens: &Tokens,
    nodes: &Nodes,
    specifiers: Specifiers,
    id: NodeId,
    work: &mut Work,
) -> Result<Specifiers, ElabFault>
    requires within { id.0 < length nodes.now }
    requires kind { is_exception_of (kind_of (tree_at (syntax_of nodes.now) id)) ≡ true }
    ensures says { Says (specifiers_of (lexemes_of tokens.now)) result (specified_with (lexemes_of tokens.now) (ctx_of env.now) (map closure_of closures.now) (work_of work.old) (specifiers_of (lexemes_of tokens.now) specifiers) (tree_at (syntax_of nodes.now) id)) }
    ensures kept { IfOk result (λ x. Unmoved work.old work.new) }
{
    let node = node_at(nodes, id);
    let Kids::One(kid) = kids_of(&node.kids) else {
        return Err(ElabFault::Memory);
    };
    let ty = type_id(alloc, env, closures, tokens, nodes, kid, work)?;
    with_exception(alloc, env, tokens, place(node.at), ty, specifiers)
}

// A specifier that holds no type-id.
fn simple_specified(
    alloc: Global,
    env: &Env,
    closures: &[Closure],
    tokens: &Tokens,
    nodes: &Nodes,
    specifiers: Specifiers,
    id: NodeId,
    work: &Work,
) -> Result<Specifiers, ElabFault>
    requires within { id.0 < length nodes.now }
    requires simple { is_exception_of (kind_of (tree_at (syntax_of nodes.now) id)) ≡ false }
    ensures { Says (specifiers_of (lexemes_of tokens.now)) result (specified_with (lexemes_of tokens.now) (ctx_of env.now) (map closure_of closures.now) (work_of work.now) (specifiers_of (lexemes_of tokens.now) specifiers) (tree_at (syntax_of nodes.now) id)) }
{
    let node = node_at(nodes, id);
    let at = place(node.at);
    let Some(token) = node.token else {
        return Err(ill(at, IllRule::OutOfProfile));
    };
    match node.kind {
        NodeKind::CvQualifier => Ok(with_qualifier_word(tokens, token, specifiers)),
        NodeKind::SimpleTypeSpecifier => {
            let found = with_word(tokens, token, specifiers)?;
            Ok(found)
        }
        NodeKind::TypeName => named_by(alloc, env, tokens, at, token, specifiers),
        _ => Err(ill(at, IllRule::OutOfProfile)),
    }
}

/// The type that a list of specifiers gives.
#[cycle(expressions)]
pub fn type_of_specifiers(
    alloc: Global,
    env: &Env,
    closures: &[Closure],
    tokens: &Tokens,
    nodes: &Nodes,
    id: NodeId,
    work: &mut Work,
) -> Result<Ty, ElabFault>
    requires within { id.0 < length nodes.now }
    ensures says { Says typ_of result (specifiers_with (lexemes_of tokens.now) (ctx_of env.now) (map closure_of closures.now) (work_of work.old) (tree_at (syntax_of nodes.now) id)) }
    ensures kept { IfOk result (λ x. Unmoved work.old work.new) }
{
    let node = node_at(nodes, id);
    let mut specifiers = no_specifiers(alloc);
    for kid in &node.kids {
        specifiers = specified(alloc, env, closures, tokens, nodes, specifiers, *kid, work)?;
    }
    specified_type(alloc, tokens, place(node.at), &specifiers)
}

/// The type that a type-id names.
#[cycle(expressions)]
pub fn type_id(
    alloc: Global,
    env: &Env,
    closures: &[Closure],
    tokens: &Tokens,
    nodes: &Nodes,
    id: NodeId,
    work: &mut Work,
) -> Result<Ty, ElabFault>
    requires within { id.0 < length nodes.now }
    ensures says { Says typ_of result (type_id_with (lexemes_of tokens.now) (ctx_of env.now) (map closure_of closures.now) (work_of work.old) (tree_at (syntax_of nodes.now) id)) }
    ensures kept { IfOk result (λ x. Unmoved work.old work.new) }
{
    let node = node_at(nodes, id);
    let Kids::Two(base, declarator) = kids_of(&node.kids) else {
        return Err(ElabFault::Memory);
    };
    let ty = type_of_specifiers(alloc, env, closures, tokens, nodes, base, work)?;
    let found = declared(
        alloc,
        env,
        closures,
        tokens,
        nodes,
        place(node.at),
        &ty,
        declarator,
        work,
    )?;
    Ok(found.ty)
}

/// What a declarator declares of a type; the place is that of the declared name.
#[cycle(expressions)]
pub fn declared(
    alloc: Global,
    env: &Env,
    closures: &[Closure],
    tokens: &Tokens,
    nodes: &Nodes,
    at: At,
    ty: &Ty,
    id: NodeId,
    work: &mut Work,
) -> Result<Declared, ElabFault>
    requires within { id.0 < length nodes.now }
    ensures says { Says declared_of result (declared_with (lexemes_of tokens.now) (ctx_of env.now) (map closure_of closures.now) (work_of work.old) at (typ_of ty.now) (tree_at (syntax_of nodes.now) id)) }
    ensures kept { IfOk result (λ x. Unmoved work.old work.new) }
{
    let node = node_at(nodes, id);
    match node.kind {
        NodeKind::DeclaratorId => name_declared(alloc, node.token, None, false, ty),
        NodeKind::DestructorId => name_declared(alloc, node.token, None, true, ty),
        NodeKind::QualifiedDeclaratorId => {
            name_declared(alloc, node.token, owner_token(nodes, &node.kids), false, ty)
        }
        NodeKind::QualifiedDestructorId => {
            name_declared(alloc, node.token, owner_token(nodes, &node.kids), true, ty)
        }
        NodeKind::OmittedId => name_declared(alloc, None, None, false, ty),
        NodeKind::ParenthesizedDeclarator => {
            parenthesized_declarator(alloc, env, closures, tokens, nodes, at, ty, id, work)
        }
        NodeKind::PointerDeclarator => pointer_declarator(
            alloc, env, closures, tokens, nodes, at, ty, id, work,
        ),
        NodeKind::ReferenceDeclarator => reference_declarator(
            alloc, env, closures, tokens, nodes, at, ty, id, work,
        ),
        NodeKind::ArrayDeclarator => array_declarator(
            alloc, env, closures, tokens, nodes, at, ty, id, work,
        ),
        NodeKind::FunctionDeclarator => function_declarator(
            alloc, env, closures, tokens, nodes, at, ty, id, work,
        ),
        _ => Err(ill(at, IllRule::OutOfProfile)),
    }
}

// `(d)`
#[cycle(expressions)]
fn parenthesized_declarator(
    alloc: Global,
    env: &Env,
    closures: &[Closure],
    tokens: &Tokens,
    nodes: &Nodes,
    at: At,
    ty: &Ty,
    id: NodeId,
    work: &mut Work,
) -> Result<Declared, ElabFault>
    requires within { id.0 < length nodes.now }
    requires kind { kind_of (tree_at (syntax_of nodes.now) id) ≡ syntax.ParenthesizedDeclarator }
    ensures says { Says declared_of result (declared_with (lexemes_of tokens.now) (ctx_of env.now) (map closure_of closures.now) (work_of work.old) at (typ_of ty.now) (tree_at (syntax_of nodes.now) id)) }
    ensures kept { IfOk result (λ x. Unmoved work.old work.new) }
{
    let Kids::One(kid) = kids_of(&node_at(nodes, id).kids) else {
        return Err(ElabFault::Memory);
    };
    declared(alloc, env, closures, tokens, nodes, at, ty, kid, work)
}

// `* d`
#[cycle(expressions)]
fn pointer_declarator(
    alloc: Global,
    env: &Env,
    closures: &[Closure],
    tokens: &Tokens,
    nodes: &Nodes,
    at: At,
    ty: &Ty,
    id: NodeId,
    work: &mut Work,
) -> Result<Declared, ElabFault>
    requires within { id.0 < length nodes.now }
    requires kind { kind_of (tree_at (syntax_of nodes.now) id) ≡ syntax.PointerDeclarator }
    ensures says { Says declared_of result (declared_with (lexemes_of tokens.now) (ctx_of env.now) (map closure_of closures.now) (work_of work.old) at (typ_of ty.now) (tree_at (syntax_of nodes.now) id)) }
    ensures kept { IfOk result (λ x. Unmoved work.old work.new) }
{
    let kids = &node_at(nodes, id).kids;
    let Some(kid) = last_kid(kids) else {
        return Err(ElabFault::Memory);
    };
    let plain = pointer_to(alloc, at, ty)?;
    let pointer = all_qualified(alloc, tokens, nodes, plain, &kids[..kids.len() - 1])?;
    declared(alloc, env, closures, tokens, nodes, at, &pointer, kid, work)
}

// `& d`
#[cycle(expressions)]
fn reference_declarator(
    alloc: Global,
    env: &Env,
    closures: &[Closure],
    tokens: &Tokens,
    nodes: &Nodes,
    at: At,
    ty: &Ty,
    id: NodeId,
    work: &mut Work,
) -> Result<Declared, ElabFault>
    requires within { id.0 < length nodes.now }
    requires kind { kind_of (tree_at (syntax_of nodes.now) id) ≡ syntax.ReferenceDeclarator }
    ensures says { Says declared_of result (declared_with (lexemes_of tokens.now) (ctx_of env.now) (map closure_of closures.now) (work_of work.old) at (typ_of ty.now) (tree_at (syntax_of nodes.now) id)) }
    ensures kept { IfOk result (λ x. Unmoved work.old work.new) }
{
    let Kids::One(kid) = kids_of(&node_at(nodes, id).kids) else {
        return Err(ElabFault::Memory);
    };
    let reference = reference_to(alloc, at, ty)?;
    declared(
        alloc, env, closures, tokens, nodes, at, &reference, kid, work,
    )
}

// An array of a type, whose bound is an expression.
#[cycle(expressions)]
fn bound(
    alloc: Global,
    env: &Env,
    closures: &[Closure],
    tokens: &Tokens,
    nodes: &Nodes,
    at: At,
    ty: &Ty,
    id: NodeId,
    work: &mut Work,
) -> Result<Ty, ElabFault>
    requires within { id.0 < length nodes.now }
    ensures says { Says typ_of result (and_then (and_then (expression_with (lexemes_of tokens.now) (ctx_of env.now) (map closure_of closures.now) (work_of work.old) (tree_at (syntax_of nodes.now) id)) (chosen_operand (ctx_of env.now))) (λ (x : Typed). bounded_of (ctx_of env.now) (work_of work.old) at (typ_of ty.now) x.operand)) }
    ensures kept { IfOk result (λ x. Unmoved work.old work.new) }
{
    if is_integer_literal(node_at(nodes, id).kind) {
        return literal_bound(alloc, env, tokens, nodes, at, ty, id, work);
    }
    let frame = work.frame.len();
    let globals = work.globals.len();
    let before = mem::replace(&mut work.nodes, Vec::new(alloc));
    let operand = chosen_expression(alloc, env, closures, tokens, nodes, id, work)?;
    cut_back(work, frame, globals);
    let mut own = mem::replace(&mut work.nodes, before);
    bounded(alloc, env, at, ty, operand, &mut own, work)
}

// `d[]` and `d[e]`
#[cycle(expressions)]
fn array_declarator(
    alloc: Global,
    env: &Env,
    closures: &[Closure],
    tokens: &Tokens,
    nodes: &Nodes,
    at: At,
    ty: &Ty,
    id: NodeId,
    work: &mut Work,
) -> Result<Declared, ElabFault>
    requires within { id.0 < length nodes.now }
    requires kind { kind_of (tree_at (syntax_of nodes.now) id) ≡ syntax.ArrayDeclarator }
    ensures says { Says declared_of result (declared_with (lexemes_of tokens.now) (ctx_of env.now) (map closure_of closures.now) (work_of work.old) at (typ_of ty.now) (tree_at (syntax_of nodes.now) id)) }
    ensures kept { IfOk result (λ x. Unmoved work.old work.new) }
{
    match kids_of(&node_at(nodes, id).kids) {
        Kids::One(kid) => {
            let array = open_array(alloc, at, ty)?;
            declared(alloc, env, closures, tokens, nodes, at, &array, kid, work)
        }
        Kids::Two(kid, number) => {
            let array = bound(alloc, env, closures, tokens, nodes, at, ty, number, work)?;
            declared(alloc, env, closures, tokens, nodes, at, &array, kid, work)
        }
        Kids::None | Kids::Three(_, _, _) | Kids::Many => Err(ElabFault::Memory),
    }
}

// `d(..)`
#[cycle(expressions)]
fn function_declarator(
    alloc: Global,
    env: &Env,
    closures: &[Closure],
    tokens: &Tokens,
    nodes: &Nodes,
    at: At,
    ty: &Ty,
    id: NodeId,
    work: &mut Work,
) -> Result<Declared, ElabFault>
    requires within { id.0 < length nodes.now }
    requires kind { kind_of (tree_at (syntax_of nodes.now) id) ≡ syntax.FunctionDeclarator }
    ensures says { Says declared_of result (declared_with (lexemes_of tokens.now) (ctx_of env.now) (map closure_of closures.now) (work_of work.old) at (typ_of ty.now) (tree_at (syntax_of nodes.now) id)) }
    ensures kept { IfOk result (λ x. Unmoved work.old work.new) }
{
    let Kids::Three(kid, clause, behind) = kids_of(&node_at(nodes, id).kids) else {
        return Err(ElabFault::Memory);
    };
    let params = parameters(alloc, env, closures, tokens, nodes, clause, work)?;
    let qualifiers = qualifiers_of(tokens, nodes, behind);
    let function = function_of(alloc, env, at, ty, &params, is_declared_safe(qualifiers))?;
    let found = declared(
        alloc, env, closures, tokens, nodes, at, &function, kid, work,
    )?;
    with_function(at, is_name(nodes, kid), params, qualifiers, found)
}

/// The parameters of a function.
#[cycle(expressions)]
pub fn parameters(
    alloc: Global,
    env: &Env,
    closures: &[Closure],
    tokens: &Tokens,
    nodes: &Nodes,
    id: NodeId,
    work: &mut Work,
) -> Result<Vec<Parameter>, ElabFault>
    requires within { id.0 < length nodes.now }
    ensures says { Says parameters_of result (parameters_in_with (lexemes_of tokens.now) (ctx_of env.now) (map closure_of closures.now) (work_of work.old) (tree_at (syntax_of nodes.now) id)) }
    ensures kept { IfOk result (λ x. Unmoved work.old work.new) }
{
    let node = node_at(nodes, id);
    let mut found = Vec::new(alloc);
    for kid in &node.kids {
        let param = parameter(alloc, env, closures, tokens, nodes, *kid, work)?;
        keep_parameter(&mut found, param)?;
    }
    Ok(found)
}

/// A parameter, or what a handler catches.
#[cycle(expressions)]
pub fn parameter(
    alloc: Global,
    env: &Env,
    closures: &[Closure],
    tokens: &Tokens,
    nodes: &Nodes,
    id: NodeId,
    work: &mut Work,
) -> Result<Parameter, ElabFault>
    requires within { id.0 < length nodes.now }
    ensures says { Says parameter_shown result (parameter_with (lexemes_of tokens.now) (ctx_of env.now) (map closure_of closures.now) (work_of work.old) (tree_at (syntax_of nodes.now) id)) }
    ensures kept { IfOk result (λ x. Unmoved work.old work.new) }
{
    let node = node_at(nodes, id);
    let at = place(node.at);
    let Kids::Two(base, declarator) = kids_of(&node.kids) else {
        return Err(ElabFault::Memory);
    };
    let ty = type_of_specifiers(alloc, env, closures, tokens, nodes, base, work)?;
    let found = declared(
        alloc, env, closures, tokens, nodes, at, &ty, declarator, work,
    )?;
    parameter_of(alloc, env, at, &found)
}
