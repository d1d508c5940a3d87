// Expressions as statements and as conditions, values of `switch`, and jumps (C++14 6.2, 6.4, 6.6).

ghost use Rattle.std.specs.Prelude.{◌≡◌, ◌<◌, length, Ok, IfOk};
ghost use Rattle.elab_expr.specs.cpp_lex.Tokens.{lexemes_of};
ghost use Rattle.elab_expr.specs.cpp_types.Typ.{typ_of};
ghost use Rattle.elab_expr.specs.cpp_tree.Arena.{trees_of, tree_at, Adds};
ghost use Rattle.elab_expr.specs.cpp_tree.Trees.{one};
ghost use Rattle.elab_expr.specs.cpp_tree.Typing.{form_in};
ghost use Rattle.elab_expr.specs.elab_ctx.Ctx.{work_of};
ghost use Rattle.elab_expr.specs.elab_rules.Statements.{expression_statement as expression_statement_of, condition as condition_of, full as full_of, with_work, done, jump as jump_of, switched as switched_of, switched_type as switched_type_of, is_enum as is_enum_of};
ghost use Rattle.elab_expr.specs.elab_types.Shown.{Says};
ghost use Rattle.elab_expr.specs.elab_types.Syntax.{syntax_of, tree_at as syntax_at};
ghost use Rattle.elab_scopes.specs.States.{state_of, made, full_in};
ghost use Rattle.elab_scopes.specs.Wholes.{value_at, dropped_whole as dropped_whole_of, truth_whole as truth_whole_of, switched_on as switched_on_of};
ghost use Rattle.elab_scopes.specs.Says.{OneDone, Does, Switches};

use crate::full::{full, full_operand};
use crate::lambdas::MakeLambdas;
use crate::nodes::leaf_statement;
use crate::state::{State, SwitchedOn};
use elab_expr::below::{
    At, ElabFault, IllRule, IntKind, NodeId, Nodes, Operand, Shape, TKind, TNode, TNodeId, Tokens,
    Ty, converted, copy, dropped, ill, int_type, node_at, promote, truth, value,
};
use std::alloc::{AllocError, Global};

/// What was made as a whole, behind which no lambdas are known.
pub fn whole(alloc: Global, st: &mut State, at: At, id: TNodeId) -> Result<TNodeId, AllocError>
    requires { id.0 < length (made st.old) }
    ensures { IfOk result (λ r. OneDone st.old st.new r (done (one (full_of at (tree_at (made st.old) id))) (with_work (state_of st.old) (work_of st.old.work)))) }
{
    let made = full(alloc, &mut st.work.nodes, at, id)?;
    st.env.closures.clear();
    Ok(made)
}

// An expression whose value is dropped, as a whole.
fn dropped_whole(alloc: Global, st: &mut State, o: Operand) -> Result<TNodeId, AllocError>
    requires { o.id.0 < length (made st.old) }
    ensures { IfOk result (λ r. OneDone st.old st.new r (dropped_whole_of (full_in st.old o))) }
{
    let made = dropped(alloc, &st.env, &mut st.work, o)?;
    whole(alloc, st, o.at, made)
}

/// An expression as a statement.
pub fn expression_statement<L: MakeLambdas>(
    alloc: Global,
    lams: &L,
    tokens: &Tokens,
    nodes: &Nodes,
    id: NodeId,
    st: &mut State,
) -> Result<TNodeId, ElabFault>
    requires { id.0 < length nodes.now }
    ensures { Does st.old st.new result (expression_statement_of (L.lambdas lams.now) (lexemes_of tokens.now) (state_of st.old) (syntax_at (syntax_of nodes.now) id)) }
{
    let o = full_operand(alloc, lams, tokens, nodes, id, st)?;
    let made = dropped_whole(alloc, st, o)?;
    Ok(made)
}

// The truth of an expression, as a whole.
fn truth_whole(alloc: Global, st: &mut State, o: Operand) -> Result<TNodeId, ElabFault>
    requires { o.id.0 < length (made st.old) }
    ensures { Does st.old st.new result (truth_whole_of (full_in st.old o)) }
{
    let value = truth(alloc, &st.env, &mut st.work.nodes, o)?;
    let made = whole(alloc, st, o.at, value)?;
    Ok(made)
}

/// An expression as a condition.
pub fn condition<L: MakeLambdas>(
    alloc: Global,
    lams: &L,
    tokens: &Tokens,
    nodes: &Nodes,
    id: NodeId,
    st: &mut State,
) -> Result<TNodeId, ElabFault>
    requires { id.0 < length nodes.now }
    ensures { Does st.old st.new result (condition_of (L.lambdas lams.now) (lexemes_of tokens.now) (state_of st.old) (syntax_at (syntax_of nodes.now) id)) }
{
    let o = full_operand(alloc, lams, tokens, nodes, id, st)?;
    truth_whole(alloc, st, o)
}

/// `break` or `continue`, where it may stand.
pub fn jump(
    alloc: Global,
    is_allowed: bool,
    kind: TKind,
    st: &mut State,
    at: At,
) -> Result<TNodeId, ElabFault>
    ensures { Does st.old st.new result (jump_of is_allowed kind (state_of st.old) at) }
{
    if !is_allowed {
        return Err(ill(at, IllRule::BadBreak));
    }
    let made = leaf_statement(alloc, &mut st.work.nodes, kind, at)?;
    Ok(made)
}

// Values of `switch`

// The type of the value of a `switch`: promoted; a scoped enum stays as it is.
fn switched_type(alloc: Global, at: At, ty: &Ty) -> Result<Ty, ElabFault>
    ensures { Says typ_of result (switched_type_of at (form_in (typ_of ty.now))) }
{
    match &ty.shape {
        Shape::Int(kind) => Ok(int_type(promote(*kind))),
        Shape::Enum { scoped: false, .. } => Ok(int_type(IntKind::Int)),
        Shape::Enum { scoped: true, .. } => {
            let mut found = copy(alloc, ty)?;
            found.is_const = false;
            found.is_volatile = false;
            Ok(found)
        }
        Shape::Void
        | Shape::Null
        | Shape::Ptr(_)
        | Shape::Ref(_)
        | Shape::Array(_, _)
        | Shape::Func(_)
        | Shape::Class(_)
        | Shape::Closure(_)
        | Shape::TxEx(_) => Err(ill(at, IllRule::NoConversion)),
    }
}

fn is_enum(ty: &Ty) -> bool
    ensures { result ≡ is_enum_of (form_in (typ_of ty.now)) }
{
    matches!(&ty.shape, Shape::Enum { .. })
}

// A value in the type of a `switch`.
fn switch_value(
    alloc: Global,
    nodes: &mut Vec<TNode>,
    at: At,
    ty: &Ty,
    id: TNodeId,
) -> Result<TNodeId, AllocError>
    requires { id.0 < length (trees_of nodes.old.items) }
    ensures { IfOk result (λ r. Adds (trees_of nodes.old.items) (trees_of nodes.new.items) r (value_at at (typ_of ty.now) (tree_at (trees_of nodes.old.items) id))) }
{
    let Shape::Int(kind) = &ty.shape else {
        return Ok(id);
    };
    if is_enum(&node_at(nodes, id).ty) {
        return Ok(id);
    }
    converted(alloc, nodes, at, &int_type(*kind), id)
}

fn whole_value(
    alloc: Global,
    nodes: &mut Vec<TNode>,
    at: At,
    ty: &Ty,
    id: TNodeId,
) -> Result<TNodeId, AllocError>
    requires { id.0 < length (trees_of nodes.old.items) }
    ensures { IfOk result (λ r. Adds (trees_of nodes.old.items) (trees_of nodes.new.items) r (full_of at (value_at at (typ_of ty.now) (tree_at (trees_of nodes.old.items) id)))) }
{
    let made = switch_value(alloc, nodes, at, ty, id)?;
    full(alloc, nodes, at, made)
}

fn switched_on(alloc: Global, st: &mut State, o: Operand) -> Result<SwitchedOn, ElabFault>
    requires { o.id.0 < length (made st.old) }
    ensures { Switches st.old st.new result (switched_on_of (full_in st.old o)) }
{
    let id = value(alloc, &mut st.work.nodes, o)?;
    let ty = switched_type(alloc, o.at, &node_at(&st.work.nodes, id).ty)?;
    let value = whole_value(alloc, &mut st.work.nodes, o.at, &ty, id)?;
    Ok(SwitchedOn { value, ty })
}

/// An expression as the value of a `switch`.
pub fn switched<L: MakeLambdas>(
    alloc: Global,
    lams: &L,
    tokens: &Tokens,
    nodes: &Nodes,
    id: NodeId,
    st: &mut State,
) -> Result<SwitchedOn, ElabFault>
    requires { id.0 < length nodes.now }
    ensures { Switches st.old st.new result (switched_of (L.lambdas lams.now) (lexemes_of tokens.now) (state_of st.old) (syntax_at (syntax_of nodes.now) id)) }
{
    let o = full_operand(alloc, lams, tokens, nodes, id, st)?;
    switched_on(alloc, st, o)
}
