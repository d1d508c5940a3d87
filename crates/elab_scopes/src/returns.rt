// `return` (C++14 6.6.3).

ghost use Rattle.std.specs.Prelude.{◌≡◌, ◌<◌, length, true, IfOk, Some, None, option_map};
ghost use Rattle.elab_expr.specs.cpp_lex.Tokens.{lexemes_of};
ghost use Rattle.elab_expr.specs.cpp_ast.Orders.{are_below};
ghost use Rattle.elab_expr.specs.cpp_types.Typ.{typ_of};
ghost use Rattle.elab_expr.specs.cpp_tree.Arena.{trees_of, tree_at, Adds};
ghost use Rattle.elab_expr.specs.elab_ctx.Ctx.{ctx_of, returns_of};
ghost use Rattle.elab_expr.specs.elab_rules.Statements.{returned as returned_of, return_by as return_by_of, return_nothing as return_nothing_of, return_value as return_value_of, same_deduction as same_deduction_of, result_object as result_object_of, result_of as result_of_typ, full as full_of};
ghost use Rattle.elab_expr.specs.elab_types.Syntax.{syntax_of, trees_at as syntaxes_at};
ghost use Rattle.elab_scopes.specs.States.{state_of, made, full_in};
ghost use Rattle.elab_scopes.specs.Returning.{void_returned, object_returned as object_returned_of, return_object as return_object_of, return_void as return_void_of, return_scalar as return_scalar_of, return_known, return_deduced, return_deduced_by, object_built as object_built_of, scalar_returned as scalar_returned_of};
ghost use Rattle.elab_scopes.specs.Says.{Does};

use crate::full::{full, full_operand, holds_temporary};
use crate::lambdas::MakeLambdas;
use crate::nodes::{binary_statement, leaf_statement, unary_statement};
use crate::state::State;
use elab_expr::below::{
    At, Cat, ElabFault, IllRule, IntKind, NodeId, Nodes, Operand, Returns, Shape, TKind, TNode,
    TNodeId, Tokens, Ty, add_leaf, add_unary, bare_throw, class_from, copy,
    elab_names_is_class_type as is_class_type, equal_types, ill, initial, is_void_type, node_at,
    plain_type, pointer_to, unqualified_type, value,
};
use elab_init::seen_as;
use std::alloc::{AllocError, Global};

// Whether a type is the one that was deduced before, if one was.
fn same_deduction(before: &Option<Ty>, ty: &Ty) -> bool
    ensures { result ≡ same_deduction_of (option_map typ_of before.now) (typ_of ty.now) }
{
    match before {
        Some(found) => equal_types(found, ty),
        None => true,
    }
}

// An expression without a value, then the return.
fn void_block(
    alloc: Global,
    nodes: &mut Vec<TNode>,
    at: At,
    place: At,
    id: TNodeId,
) -> Result<TNodeId, AllocError>
    requires { id.0 < length (trees_of nodes.old.items) }
    ensures { IfOk result (λ r. Adds (trees_of nodes.old.items) (trees_of nodes.new.items) r (void_returned at place (tree_at (trees_of nodes.old.items) id))) }
{
    let whole = full(alloc, nodes, place, id)?;
    let end = leaf_statement(alloc, nodes, TKind::Return, at)?;
    binary_statement(
        alloc,
        nodes,
        TKind::Block { subobjects: false },
        at,
        whole,
        end,
    )
}

fn return_void(alloc: Global, st: &mut State, at: At, o: Operand) -> Result<TNodeId, ElabFault>
    requires { o.id.0 < length (made st.old) }
    ensures { Does st.old st.new result (return_void_of at (full_in st.old o)) }
{
    if !is_void_type(&node_at(&st.work.nodes, o.id).ty) {
        return Err(ill(at, IllRule::BadReturn));
    }
    let thrown = bare_throw(&st.work.nodes, o.id)?;
    let made = void_block(alloc, &mut st.work.nodes, at, o.at, thrown)?;
    Ok(made)
}

// The object that a call gives, at the address in place 0 of the frame.
fn result_object(
    alloc: Global,
    nodes: &mut Vec<TNode>,
    ty: &Ty,
    at: At,
) -> Result<TNodeId, AllocError>
    ensures { IfOk result (λ r. Adds (trees_of nodes.old.items) (trees_of nodes.new.items) r (result_object_of (typ_of ty.now) at)) }
{
    let pointer = pointer_to(alloc, copy(alloc, ty)?)?;
    let address = add_leaf(
        alloc,
        nodes,
        TKind::Local { place: 0 },
        pointer,
        Cat::Lvalue,
        at,
    )?;
    let ty = copy(alloc, ty)?;
    add_unary(
        alloc,
        nodes,
        TKind::Load {
            kind: IntKind::ULong,
            volatile: false,
        },
        ty,
        Cat::Lvalue,
        at,
        address,
    )
}

// An object that is built in the place of the result.
fn object_built(
    alloc: Global,
    nodes: &mut Vec<TNode>,
    ty: &Ty,
    at: At,
    place: At,
    id: TNodeId,
) -> Result<TNodeId, AllocError>
    requires { id.0 < length (trees_of nodes.old.items) }
    ensures { IfOk result (λ r. Adds (trees_of nodes.old.items) (trees_of nodes.new.items) r (object_built_of at (typ_of ty.now) place (tree_at (trees_of nodes.old.items) id))) }
{
    let whole = full(alloc, nodes, place, id)?;
    let object = result_object(alloc, nodes, ty, at)?;
    binary_statement(alloc, nodes, TKind::Init, at, object, whole)
}

fn object_returned(
    alloc: Global,
    nodes: &mut Vec<TNode>,
    ty: &Ty,
    at: At,
    place: At,
    id: TNodeId,
) -> Result<TNodeId, AllocError>
    requires { id.0 < length (trees_of nodes.old.items) }
    ensures { IfOk result (λ r. Adds (trees_of nodes.old.items) (trees_of nodes.new.items) r (object_returned_of at (typ_of ty.now) place (tree_at (trees_of nodes.old.items) id))) }
{
    let built = object_built(alloc, nodes, ty, at, place, id)?;
    let end = leaf_statement(alloc, nodes, TKind::Return, at)?;
    binary_statement(
        alloc,
        nodes,
        TKind::Block { subobjects: false },
        at,
        built,
        end,
    )
}

fn return_object(
    alloc: Global,
    st: &mut State,
    at: At,
    ty: &Ty,
    o: Operand,
) -> Result<TNodeId, ElabFault>
    requires { o.id.0 < length (made st.old) }
    ensures { Does st.old st.new result (return_object_of at (typ_of ty.now) (full_in st.old o)) }
{
    let object = class_from(alloc, &st.env, &mut st.work, ty, o.at, o)?;
    let made = object_returned(alloc, &mut st.work.nodes, ty, at, o.at, object)?;
    st.env.closures.clear();
    Ok(made)
}

// Behind temporaries, the object that a result refers to as one of the type that is written.
fn result_of(
    alloc: Global,
    nodes: &mut Vec<TNode>,
    ty: &Ty,
    at: At,
    id: TNodeId,
) -> Result<TNodeId, AllocError>
    requires { id.0 < length (trees_of nodes.old.items) }
    ensures { IfOk result (λ r. Adds (trees_of nodes.old.items) (trees_of nodes.new.items) r (result_of_typ (typ_of ty.now) at (tree_at (trees_of nodes.old.items) id))) }
{
    let Shape::Ref(target) = &ty.shape else {
        return Ok(id);
    };
    if !holds_temporary(nodes, id)? {
        return Ok(id);
    }
    seen_as(alloc, nodes, at, target, id)
}

// What is returned, as a whole.
fn whole_result(
    alloc: Global,
    nodes: &mut Vec<TNode>,
    ty: &Ty,
    at: At,
    id: TNodeId,
) -> Result<TNodeId, AllocError>
    requires { id.0 < length (trees_of nodes.old.items) }
    ensures { IfOk result (λ r. Adds (trees_of nodes.old.items) (trees_of nodes.new.items) r (full_of at (result_of_typ (typ_of ty.now) at (tree_at (trees_of nodes.old.items) id)))) }
{
    let result = result_of(alloc, nodes, ty, at, id)?;
    full(alloc, nodes, at, result)
}

fn scalar_returned(
    alloc: Global,
    nodes: &mut Vec<TNode>,
    at: At,
    place: At,
    ty: &Ty,
    id: TNodeId,
) -> Result<TNodeId, AllocError>
    requires { id.0 < length (trees_of nodes.old.items) }
    ensures { IfOk result (λ r. Adds (trees_of nodes.old.items) (trees_of nodes.new.items) r (scalar_returned_of at place (typ_of ty.now) (tree_at (trees_of nodes.old.items) id))) }
{
    let whole = whole_result(alloc, nodes, ty, place, id)?;
    unary_statement(alloc, nodes, TKind::Return, at, whole)
}

fn return_scalar(
    alloc: Global,
    st: &mut State,
    at: At,
    ty: &Ty,
    o: Operand,
) -> Result<TNodeId, ElabFault>
    requires { o.id.0 < length (made st.old) }
    ensures { Does st.old st.new result (return_scalar_of at (typ_of ty.now) (full_in st.old o)) }
{
    let value = initial(alloc, &st.env, &mut st.work, ty, o)?;
    let made = scalar_returned(alloc, &mut st.work.nodes, at, o.at, ty, value)?;
    st.env.closures.clear();
    Ok(made)
}

// A value of the result type, returned.
fn return_value(
    alloc: Global,
    st: &mut State,
    at: At,
    ty: &Ty,
    o: Operand,
) -> Result<TNodeId, ElabFault>
    requires { o.id.0 < length (made st.old) }
    ensures { Does st.old st.new result (return_value_of at (typ_of ty.now) (full_in st.old o)) }
{
    if is_void_type(ty) {
        return return_void(alloc, st, at, o);
    }
    if is_class_type(ty) {
        return return_object(alloc, st, at, ty, o);
    }
    return_scalar(alloc, st, at, ty, o)
}

// The return alone, from which the result type is known.
fn deduced_as(alloc: Global, st: &mut State, at: At, ty: Ty) -> Result<TNodeId, ElabFault>
    ensures { Does st.old st.new result (return_deduced at (state_of st.old) (ctx_of st.old.env).returns (typ_of ty)) }
{
    let is_same = match &st.env.returns {
        Returns::Known(_) => return Err(ElabFault::Memory),
        Returns::Deduced(before) => same_deduction(before, &ty),
    };
    if !is_same {
        return Err(ill(at, IllRule::BadReturn));
    }
    let made = leaf_statement(alloc, &mut st.work.nodes, TKind::Return, at)?;
    st.env.returns = Returns::Deduced(Some(ty));
    Ok(made)
}

fn deduced_return(alloc: Global, st: &mut State, at: At, o: Operand) -> Result<TNodeId, ElabFault>
    requires { o.id.0 < length (made st.old) }
    ensures { Does st.old st.new result (return_deduced_by at (full_in st.old o) (ctx_of st.old.env).returns) }
{
    let id = value(alloc, &mut st.work.nodes, o)?;
    let ty = unqualified_type(alloc, &node_at(&st.work.nodes, id).ty)?;
    deduced_as(alloc, st, at, ty)
}

// The result type, where it is known.
fn known_type(alloc: Global, returns: &Returns) -> Result<Option<Ty>, AllocError>
    ensures { IfOk result (λ t. option_map typ_of t ≡ return_known (returns_of returns.now)) }
{
    match returns {
        Returns::Known(ty) => Ok(Some(copy(alloc, ty)?)),
        Returns::Deduced(_) => Ok(None),
    }
}

fn return_by(alloc: Global, st: &mut State, at: At, o: Operand) -> Result<TNodeId, ElabFault>
    requires { o.id.0 < length (made st.old) }
    ensures { Does st.old st.new result (return_by_of at (ctx_of st.old.env).returns (full_in st.old o)) }
{
    match known_type(alloc, &st.env.returns)? {
        Some(ty) => return_value(alloc, st, at, &ty, o),
        None => deduced_return(alloc, st, at, o),
    }
}

fn return_nothing(alloc: Global, st: &mut State, at: At) -> Result<TNodeId, ElabFault>
    ensures { Does st.old st.new result (return_nothing_of (state_of st.old) at (ctx_of st.old.env).returns) }
{
    match known_type(alloc, &st.env.returns)? {
        Some(ty) => {
            if !is_void_type(&ty) {
                return Err(ill(at, IllRule::BadReturn));
            }
            let made = leaf_statement(alloc, &mut st.work.nodes, TKind::Return, at)?;
            Ok(made)
        }
        None => deduced_as(alloc, st, at, plain_type(Shape::Void)),
    }
}

/// `return`, with these kids.
pub fn returned<L: MakeLambdas>(
    alloc: Global,
    lams: &L,
    tokens: &Tokens,
    nodes: &Nodes,
    parent: NodeId,
    at: At,
    kids: &[NodeId],
    st: &mut State,
) -> Result<TNodeId, ElabFault>
    requires within { parent.0 < length nodes.now }
    requires lower { are_below parent.0 kids.now ≡ true }
    ensures { Does st.old st.new result (returned_of (L.lambdas lams.now) (lexemes_of tokens.now) (state_of st.old) at (syntaxes_at (syntax_of nodes.now) kids.now)) }
{
    if kids.is_empty() {
        return return_nothing(alloc, st, at);
    }
    let o = full_operand(alloc, lams, tokens, nodes, kids[0], st)?;
    return_by(alloc, st, at, o)
}
