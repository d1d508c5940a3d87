// Into a function, and out of it.

ghost use Rattle.std.specs.Prelude.{◌≡◌, [], map, option_map, IfOk, OnOk};
ghost use Rattle.cpp_types.specs.Typ.{void, typ_of};
ghost use Rattle.elab_stmt.specs.cpp_tree.Notation.{plain};
ghost use Rattle.elab_stmt.specs.cpp_tree.Arena.{trees_of};
ghost use Rattle.elab_stmt.specs.elab_ctx.Ctx.{variable_of, this_of, returns_of, labels_of, lambda_of};
ghost use Rattle.elab_stmt.specs.elab_rules.Functions.{result_items};
ghost use Rattle.elab_stmt.specs.elab_rules.Statements.{no_labels as no_labels_of};
ghost use Rattle.elab_stmt.specs.elab_scopes.States.{state_of, made};
ghost use Rattle.elab_entry.specs.Round.{round_of, trees_round, round_function, round_lambda, scopes_by, variables_by, left_by};
ghost use Rattle.elab_entry.specs.Bodies.{entered, entered_lambda, exchanged as exchanged_of, object_at as object_at_of};

use crate::items::{first_items, this_place};
use cpp_types::{Shape, Ty, copy};
use elab_stmt::below::{
    Closure, Env, Label, Labels, Lambda, Returns, Scopes, State, TNode, This, Variable, plain_type,
};
use std::alloc::{AllocError, Global};
use std::mem;

/// What is known round a function while it is read.
#[derive(Drop)]
pub struct Around {
    /// How many scopes are open.
    scopes: usize,
    /// The variables of another function, or `None` where those round a lambda stay known.
    variables: Option<Vec<Variable>>,
    /// How many variables there are.
    count: usize,
    this: Option<This>,
    class: Option<u32>,
    returns: Returns,
    breaks: bool,
    continues: bool,
    label: Label,
    labels: Labels,
    lambda: Option<Lambda>,
    closures: Vec<Closure>,
    nodes: Vec<TNode>,
    frame: Vec<Ty>,
}

/// What a function made: its nodes, the items of its frame, and what its `return`s said.
#[derive(Drop)]
pub struct Inside {
    pub nodes: Vec<TNode>,
    pub frame: Vec<Ty>,
    pub returns: Returns,
}

fn no_labels(alloc: Global) -> Labels
    ensures { labels_of result ≡ no_labels_of (plain void) }
{
    Labels {
        ty: plain_type(Shape::Void),
        words: Vec::new(alloc),
        has_default: false,
        is_past: false,
    }
}

// The object of a member function.
fn object_at(this: Option<Ty>, place: u32) -> Option<This>
    ensures { option_map this_of result ≡ object_at_of (option_map typ_of this) place }
{
    match this {
        Some(ty) => Some(This { ty, place }),
        None => None,
    }
}

// Takes what is known of the function at hand, and begins another.
fn exchanged(
    alloc: Global,
    st: &mut State,
    this: Option<This>,
    returns: Returns,
    frame: Vec<Ty>,
) -> Result<Around, AllocError>
    ensures is { OnOk result (state_of st.new ≡ exchanged_of (state_of st.old) (option_map this_of this) (returns_of returns) (map typ_of frame.items)) }
    ensures nodes { OnOk result (made st.new ≡ []) }
    ensures round { IfOk result (λ a. round_of a ≡ round_lambda (state_of st.old)) }
    ensures trees { IfOk result (λ a. trees_round a ≡ made st.old) }
{
    let env = &mut st.env;
    let scopes = env.scopes.len();
    env.scopes.push()?;
    Ok(Around {
        scopes,
        variables: None,
        count: env.variables.len(),
        this: mem::replace(&mut env.this, this),
        class: env.class,
        returns: mem::replace(&mut env.returns, returns),
        breaks: mem::replace(&mut env.breaks, false),
        continues: mem::replace(&mut env.continues, false),
        label: mem::replace(&mut env.label, Label::Outside),
        labels: mem::replace(&mut env.labels, no_labels(alloc)),
        lambda: mem::replace(&mut env.lambda, None),
        closures: mem::replace(&mut env.closures, Vec::new(alloc)),
        nodes: mem::replace(&mut st.work.nodes, Vec::new(alloc)),
        frame: mem::replace(&mut st.work.frame, frame),
    })
}

/// Into a function: no names and no variables yet, and the words of a call in the frame.
pub fn enter_function(
    alloc: Global,
    st: &mut State,
    ret: &Ty,
    this: Option<Ty>,
    class: Option<u32>,
) -> Result<Around, AllocError>
    ensures is { OnOk result (state_of st.new ≡ entered (state_of st.old) (typ_of ret.now) (option_map typ_of this) class) }
    ensures nodes { OnOk result (made st.new ≡ []) }
    ensures round { IfOk result (λ a. round_of a ≡ round_function (state_of st.old)) }
    ensures trees { IfOk result (λ a. trees_round a ≡ made st.old) }
{
    let frame = first_items(alloc, ret, &this)?;
    let returns = Returns::Known(copy(alloc, ret)?);
    let object = object_at(this, this_place(ret));
    let mut around = exchanged(alloc, st, object, returns, frame)?;
    around.variables = Some(mem::replace(&mut st.env.variables, Vec::new(alloc)));
    st.env.class = class;
    Ok(around)
}

/// Into the body of a lambda: the names of the function around are known, its variables only as captures (C++14 5.1.2
/// p17).
pub fn enter_lambda(
    alloc: Global,
    st: &mut State,
    ret: &Ty,
    this: Ty,
    returns: Returns,
    lambda: Lambda,
) -> Result<Around, AllocError>
    ensures is { OnOk result (state_of st.new ≡ entered_lambda (state_of st.old) (typ_of ret.now) (typ_of this) (returns_of returns) (lambda_of lambda)) }
    ensures nodes { OnOk result (made st.new ≡ []) }
    ensures round { IfOk result (λ a. round_of a ≡ round_lambda (state_of st.old)) }
    ensures trees { IfOk result (λ a. trees_round a ≡ made st.old) }
{
    let object = Some(this);
    let frame = first_items(alloc, ret, &object)?;
    let object = object_at(object, this_place(ret));
    let around = exchanged(alloc, st, object, returns, frame)?;
    st.env.lambda = Some(lambda);
    Ok(around)
}

// Closes the scopes that were opened since so many were open.
fn close_scopes(scopes: &mut Scopes, count: usize)
    ensures { scopes.new ≡ scopes_by count scopes.old }
{
    while scopes.len() > count {
        scopes.pop();
    }
}

// The variables of the function around.
fn put_variables(list: &mut Vec<Variable>, variables: Option<Vec<Variable>>, count: usize)
    ensures { map variable_of list.new.items ≡ variables_by (option_map (λ vs. map variable_of vs.items) variables) count (map variable_of list.old.items) }
{
    match variables {
        Some(variables) => *list = variables,
        None => list.truncate(count),
    }
}

/// Out of a function: what stands around it is known as before.
pub fn leave_function(st: &mut State, around: Around) -> Inside
    ensures is { state_of st.new ≡ left_by (round_of around) (state_of st.old) }
    ensures trees { made st.new ≡ trees_round around }
    ensures nodes { trees_of result.nodes.items ≡ made st.old }
    ensures frame { map typ_of result.frame.items ≡ (state_of st.old).work.frame }
    ensures returns { returns_of result.returns ≡ (state_of st.old).ctx.returns }
{
    let env = &mut st.env;
    close_scopes(&mut env.scopes, around.scopes);
    put_variables(&mut env.variables, around.variables, around.count);
    env.this = around.this;
    env.class = around.class;
    env.breaks = around.breaks;
    env.continues = around.continues;
    env.label = around.label;
    env.labels = around.labels;
    env.lambda = around.lambda;
    env.closures = around.closures;
    Inside {
        returns: mem::replace(&mut env.returns, around.returns),
        nodes: mem::replace(&mut st.work.nodes, around.nodes),
        frame: mem::replace(&mut st.work.frame, around.frame),
    }
}
