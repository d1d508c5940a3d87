// A lambda is made: its class, and the body of its call (C++14 5.1.2 p3 to p5).

ghost use Rattle.std.specs.Prelude.{◌≡◌, ◌<◌, ◌++◌, ◌∷◌, [], List, map, option_map, length, true, false, not, IfOk, IfErr, OnOk, Ok};
ghost use Rattle.elab_entry.specs.cpp_types.Typ.{typ, closure, typ_of, signature_of};
ghost use Rattle.elab_entry.specs.cpp_lex.Tokens.{lexemes_of};
ghost use Rattle.elab_entry.specs.cpp_ast.Trees.{Tree};
ghost use Rattle.elab_entry.specs.cpp_tree.Typing.{form_in};
ghost use Rattle.elab_entry.specs.cpp_tree.Trees.{one};
ghost use Rattle.elab_entry.specs.cpp_tree.Arena.{trees_at};
ghost use Rattle.elab_entry.specs.elab_ctx.Ctx.{ctx_of, capture_of, returns_of, lambda_of, closure_of, known};
ghost use Rattle.elab_entry.specs.elab_ctx.Says.{are_within, Faults};
ghost use Rattle.elab_entry.specs.elab_rules.Objects.{followed_by};
ghost use Rattle.elab_entry.specs.elab_rules.Statements.{done, statements_of, block as block_of};
ghost use Rattle.elab_entry.specs.elab_rules.Functions.{with_parameters as with_parameters_of, end_of as end_of_typ};
ghost use Rattle.elab_entry.specs.elab_rules.Lambdas.{no_lambda, kids_of, place_of_tree, with_closure, signature_in, closure_sized as closure_sized_of, result_in as result_in_of, body_statements as body_statements_of};
ghost use Rattle.elab_entry.specs.elab_types.Shown.{Says, parameter_of, qualifiers_of};
ghost use Rattle.elab_entry.specs.elab_types.Syntax.{syntax_of, tree_at};
ghost use Rattle.elab_entry.specs.elab_scopes.States.{state_of, made};
ghost use Rattle.elab_entry.specs.elab_scopes.Says.{Changes, Does, OneDone};
ghost use Rattle.elab_entry.specs.Round.{round_of, trees_round, round_lambda};
ghost use Rattle.elab_lambdas.specs.Shown.{call_of};
ghost use Rattle.elab_lambdas.specs.Whole.{written_of, call_signature, closure_entered, body_inside as body_inside_of, lambda_with as lambda_with_of, lambda_known as lambda_known_of, result_read, result_deduced as result_deduced_of, result_of as result_of_of, lambda_made as lambda_made_of};
ghost use Rattle.elab_lambdas.specs.Outcomes.{Lists, Deduces};

use crate::closures::{CallWords, add_closure, next_class};
use crate::undoing::{checkpoint_here, undo};
use class_records::sized_class;
use elab_entry::below::{
    At, Capture, Closure, ElabFault, Env, FnTy, IllRule, Lambda, NoLambdas, NodeId, Nodes,
    Parameter, Returns, Shape, State, TNodeId, Tokens, Ty, block, copy, copy_function,
    elab_types_node_at as node_at, function_of, ill, is_complete_type, is_declared_safe, place,
    plain_type, statements, typ_sized,
};
use elab_entry::{Around, body_made, end_of, enter_lambda, leave_function, with_parameters};
use lambda_captures::captures::copy_captures;
use std::alloc::{AllocError, Global};

/// What is written of a lambda.
#[derive(Drop)]
pub struct Written {
    pub words: CallWords,
    pub captures: Vec<Capture>,
    pub params: Vec<Parameter>,
    pub result: Option<Ty>,
    pub body: NodeId,
}

// The type of a function, of which it is the type.
fn signature_from(alloc: Global, ty: &Ty) -> Result<FnTy, AllocError>
    ensures { IfOk result (λ f. signature_of f ≡ signature_in (form_in (typ_of ty.now))) }
{
    match &ty.shape {
        Shape::Func(function) => copy_function(alloc, function),
        _ => Err(AllocError),
    }
}

// The type of the call, where it gives a type.
fn lambda_type(alloc: Global, env: &Env, x: &Written, ret: &Ty) -> Result<FnTy, ElabFault>
    ensures { Says signature_of result (call_signature (ctx_of env.now) x.now.words.at (typ_of ret.now) (map parameter_of x.now.params.items) (qualifiers_of x.now.words.qualifiers)) }
{
    let at = x.words.at;
    let safe = is_declared_safe(x.words.qualifiers);
    let ty = function_of(alloc, env, at, ret, &x.params, safe)?;
    typ_sized(env, at, &ty)?;
    let found = signature_from(alloc, &ty)?;
    Ok(found)
}

// The lambda at hand, in its body.
fn lambda_here(alloc: Global, env: &Env, x: &Written, class: u32) -> Result<Lambda, AllocError>
    ensures { IfOk result (λ l. lambda_of l ≡ record { class = class; outer = length (ctx_of env.now).variables; captures = map capture_of x.now.captures.items }) }
{
    let Ok(outer) = u32::try_from(env.variables.len()) else {
        return Err(AllocError);
    };
    let captures = copy_captures(alloc, &x.captures)?;
    Ok(Lambda {
        class,
        outer,
        captures,
    })
}

// Declares the class of a lambda and its call.
fn declare_closure(
    alloc: Global,
    env: &mut Env,
    x: &Written,
    function: &FnTy,
) -> Result<(), AllocError>
    ensures { OnOk result (ctx_of env.new ≡ with_closure (ctx_of env.old) (map capture_of x.now.captures.items) (call_of x.now.words (signature_of function.now)) (map parameter_of x.now.params.items) x.now.words.closed) }
{
    add_closure(alloc, env, &x.captures, x.words, function, &x.params)
}

// The type of the object of a lambda, in its body.
fn object_type(x: &Written, class: u32) -> Ty
    ensures { typ_of result ≡ typ (closure class) (not x.now.words.is_mutable) false }
{
    Ty {
        shape: Shape::Closure(class),
        is_const: !x.words.is_mutable,
        is_volatile: false,
    }
}

// Declares the class of a lambda and its call, and goes into the body.
fn enter(
    alloc: Global,
    st: &mut State,
    x: &Written,
    ret: &Ty,
    returns: Returns,
    function: &FnTy,
) -> Result<Around, ElabFault>
    ensures sized { (trees : List Tree) → OnOk result (closure_sized_of (state_of st.old) (written_of trees x.now) (signature_of function.now) ≡ Ok true) }
    ensures large { (trees : List Tree) → IfErr result (λ e. Faults e (closure_sized_of (state_of st.old) (written_of trees x.now) (signature_of function.now))) }
    ensures is { (trees : List Tree) → OnOk result (state_of st.new ≡ closure_entered (state_of st.old) (written_of trees x.now) (returns_of returns) (typ_of ret.now) (signature_of function.now)) }
    ensures round { IfOk result (λ a. round_of a ≡ round_lambda (state_of st.old)) }
    ensures trees { IfOk result (λ a. trees_round a ≡ made st.old) }
{
    let class = next_class(&st.env)?;
    let lambda = lambda_here(alloc, &st.env, x, class)?;
    declare_closure(alloc, &mut st.env, x, function)?;
    sized_class(&st.env, x.words.at, class)?;
    let around = enter_lambda(alloc, st, ret, object_type(x, class), returns, lambda)?;
    Ok(around)
}

// The parameters of a lambda, in its body.
fn add_parameters(
    alloc: Global,
    tokens: &Tokens,
    st: &mut State,
    x: &Written,
) -> Result<(), ElabFault>
    ensures { Changes st.old st.new result (with_parameters_of (lexemes_of tokens.now) (state_of st.old) (map parameter_of x.now.params.items)) }
{
    with_parameters(alloc, tokens, st, &x.params)
}

// The statements of a block.
fn statements_in(
    alloc: Global,
    tokens: &Tokens,
    nodes: &Nodes,
    st: &mut State,
    id: NodeId,
) -> Result<Vec<TNodeId>, ElabFault>
    requires { id.0 < length nodes.now }
    ensures { Lists st.old st.new result (statements_of no_lambda (lexemes_of tokens.now) (state_of st.old) (kids_of (tree_at (syntax_of nodes.now) id))) }
{
    let mut list = Vec::new(alloc);
    let node = node_at(nodes, id);
    statements(
        alloc, &NoLambdas, tokens, nodes, id, &node.kids, st, &mut list,
    )?;
    Ok(list)
}

// The statements of a body, in the scope of its parameters.
fn body_statements(
    alloc: Global,
    tokens: &Tokens,
    nodes: &Nodes,
    st: &mut State,
    x: &Written,
) -> Result<Vec<TNodeId>, ElabFault>
    requires { x.now.body.0 < length nodes.now }
    ensures { Lists st.old st.new result (body_statements_of (lexemes_of tokens.now) (state_of st.old) (written_of (syntax_of nodes.now) x.now)) }
{
    add_parameters(alloc, tokens, st, x)?;
    statements_in(alloc, tokens, nodes, st, x.body)
}

fn place_at(nodes: &Nodes, id: NodeId) -> At
    requires { id.0 < length nodes.now }
    ensures { result ≡ place_of_tree (tree_at (syntax_of nodes.now) id) }
{
    place(node_at(nodes, id).at)
}

// Statements with the end of a body, as one block.
fn closed(
    alloc: Global,
    st: &mut State,
    ret: &Ty,
    at: At,
    ids: Vec<TNodeId>,
) -> Result<TNodeId, AllocError>
    requires { are_within (length (made st.old)) ids.items ≡ true }
    ensures { IfOk result (λ r. OneDone st.old st.new r (done (one (block_of at (followed_by (trees_at (made st.old) ids.items) (end_of_typ (ctx_of st.old.env) (typ_of ret.now) at)))) (state_of st.old))) }
{
    let mut list = ids;
    end_of(alloc, &st.env, &mut st.work.nodes, ret, at, &mut list)?;
    let made = block(&mut st.work.nodes, at, list)?;
    Ok(made)
}

// A body with its end.
fn body_inside(
    alloc: Global,
    tokens: &Tokens,
    nodes: &Nodes,
    st: &mut State,
    x: &Written,
    ret: &Ty,
) -> Result<TNodeId, ElabFault>
    requires { x.now.body.0 < length nodes.now }
    ensures { Does st.old st.new result (body_inside_of (lexemes_of tokens.now) (state_of st.old) (written_of (syntax_of nodes.now) x.now) (typ_of ret.now)) }
{
    let list = body_statements(alloc, tokens, nodes, st, x)?;
    let at = place_at(nodes, x.body);
    let made = closed(alloc, st, ret, at, list)?;
    Ok(made)
}

// With its result known: the body is kept.
fn lambda_with(
    alloc: Global,
    tokens: &Tokens,
    nodes: &Nodes,
    st: &mut State,
    x: &Written,
    ret: &Ty,
    function: &FnTy,
) -> Result<(), ElabFault>
    requires { x.now.body.0 < length nodes.now }
    ensures { Changes st.old st.new result (lambda_with_of (lexemes_of tokens.now) (state_of st.old) (written_of (syntax_of nodes.now) x.now) (typ_of ret.now) (signature_of function.now)) }
{
    let at = x.words.at;
    if !is_complete_type(&st.env, ret) {
        return Err(ill(at, IllRule::Incomplete));
    }
    let func = next_function(&st.env)?;
    let returns = known_result(alloc, ret)?;
    let around = enter(alloc, st, x, ret, returns, function)?;
    let made = body_inside(alloc, tokens, nodes, st, x, ret)?;
    let inside = leave_function(st, around);
    body_made(alloc, st, at, func, inside, made)
}

// The number of the next function.
fn next_function(env: &Env) -> Result<u32, AllocError>
    ensures { IfOk result (λ n. n ≡ length (ctx_of env.now).funcs) }
{
    let Ok(func) = u32::try_from(env.funcs.len()) else {
        return Err(AllocError);
    };
    Ok(func)
}

fn known_result(alloc: Global, ret: &Ty) -> Result<Returns, AllocError>
    ensures { IfOk result (λ r. returns_of r ≡ known (typ_of ret.now)) }
{
    Ok(Returns::Known(copy(alloc, ret)?))
}

// The same, with the type of its call.
fn lambda_known(
    alloc: Global,
    tokens: &Tokens,
    nodes: &Nodes,
    st: &mut State,
    x: &Written,
    ret: &Ty,
) -> Result<(), ElabFault>
    requires { x.now.body.0 < length nodes.now }
    ensures { Changes st.old st.new result (lambda_known_of (lexemes_of tokens.now) (state_of st.old) (written_of (syntax_of nodes.now) x.now) (typ_of ret.now)) }
{
    let function = lambda_type(alloc, &st.env, x, ret)?;
    lambda_with(alloc, tokens, nodes, st, x, ret, &function)
}

// The result type that the first `return` gives, or none.
fn result_in(alloc: Global, returns: &Returns) -> Result<Ty, AllocError>
    ensures { IfOk result (λ t. typ_of t ≡ result_in_of (returns_of returns.now)) }
{
    match returns {
        Returns::Deduced(Some(ty)) => copy(alloc, ty),
        Returns::Deduced(None) => Ok(plain_type(Shape::Void)),
        Returns::Known(_) => Ok(plain_type(Shape::Void)),
    }
}

// The body is read for its result alone.
fn read_for_result(
    alloc: Global,
    tokens: &Tokens,
    nodes: &Nodes,
    st: &mut State,
    x: &Written,
    function: &FnTy,
) -> Result<Ty, ElabFault>
    requires { x.now.body.0 < length nodes.now }
    ensures { Deduces st.old st.new result (result_read (lexemes_of tokens.now) (state_of st.old) (written_of (syntax_of nodes.now) x.now) (signature_of function.now)) }
{
    let ret = plain_type(Shape::Void);
    let around = enter(alloc, st, x, &ret, Returns::Deduced(None), function)?;
    body_statements(alloc, tokens, nodes, st, x)?;
    let inside = leave_function(st, around);
    let found = result_in(alloc, &inside.returns)?;
    Ok(found)
}

// The same; nothing of it is kept.
fn result_deduced(
    alloc: Global,
    tokens: &Tokens,
    nodes: &Nodes,
    st: &mut State,
    x: &Written,
) -> Result<Ty, ElabFault>
    requires { x.now.body.0 < length nodes.now }
    ensures { Deduces st.old st.new result (result_deduced_of (lexemes_of tokens.now) (state_of st.old) (written_of (syntax_of nodes.now) x.now)) }
{
    let ret = plain_type(Shape::Void);
    let function = lambda_type(alloc, &st.env, x, &ret)?;
    let mark = checkpoint_here(st);
    let found = read_for_result(alloc, tokens, nodes, st, x, &function)?;
    undo(st, mark);
    Ok(found)
}

fn result_of(
    alloc: Global,
    tokens: &Tokens,
    nodes: &Nodes,
    st: &mut State,
    x: &Written,
) -> Result<Ty, ElabFault>
    requires { x.now.body.0 < length nodes.now }
    ensures { Deduces st.old st.new result (result_of_of (lexemes_of tokens.now) (state_of st.old) (written_of (syntax_of nodes.now) x.now) (option_map typ_of x.now.result)) }
{
    match &x.result {
        Some(ty) => {
            let found = copy(alloc, ty)?;
            Ok(found)
        }
        None => result_deduced(alloc, tokens, nodes, st, x),
    }
}

fn keep_closure(env: &mut Env, closure: Closure) -> Result<(), AllocError>
    ensures { OnOk result (ctx_of env.new ≡ record (ctx_of env.old) { closures = (ctx_of env.old).closures ++ closure_of closure ∷ [] }) }
{
    env.closures.push(closure)?;
    Ok(())
}

/// Makes a lambda that is written.
pub fn lambda_made(
    alloc: Global,
    tokens: &Tokens,
    nodes: &Nodes,
    st: &mut State,
    x: Written,
) -> Result<(), ElabFault>
    requires { x.body.0 < length nodes.now }
    ensures { Changes st.old st.new result (lambda_made_of (lexemes_of tokens.now) (state_of st.old) (written_of (syntax_of nodes.now) x)) }
{
    let ret = result_of(alloc, tokens, nodes, st, &x)?;
    let class = next_class(&st.env)?;
    lambda_known(alloc, tokens, nodes, st, &x, &ret)?;
    keep_closure(
        &mut st.env,
        Closure {
            at: x.words.at,
            class,
            captures: x.captures,
        },
    )?;
    Ok(())
}
