// Labels of `switch` (C++14 6.4.2; the TS, [stmt.sync], [stmt.tx]).

ghost use Rattle.std.specs.Prelude.{◌≡◌, ◌<◌, ◌==◌, ◌++◌, ◌∷◌, [], ℕ, length, map, IfOk, OnOk};
ghost use Rattle.std.specs.List.{list_any};
ghost use Rattle.elab_expr.specs.cpp_lex.Tokens.{lexemes_of};
ghost use Rattle.elab_expr.specs.cpp_types.Typ.{typ_of};
ghost use Rattle.elab_expr.specs.cpp_tree.Units.{global_of};
ghost use Rattle.elab_expr.specs.cpp_tree.Arena.{trees_of, tree_at};
ghost use Rattle.elab_expr.specs.cpp_tree.declared.faults.IllRule.TheVariants.{NotConstant};
ghost use Rattle.elab_expr.specs.elab_ctx.Ctx.{ctx_of, work_of, labels_of};
ghost use Rattle.elab_expr.specs.elab_ctx.Steps.{expect};
ghost use Rattle.elab_expr.specs.elab_rules.Constants.{constant as constant_of};
ghost use Rattle.elab_expr.specs.elab_ctx.Operands.{operand_in};
ghost use Rattle.elab_expr.specs.elab_ctx.Says.{Gives, Tells};
ghost use Rattle.elab_expr.specs.elab_rules.Statements.{label_allowed as label_allowed_of, label_here as label_here_of, case_fits as case_fits_of, case_label as case_label_of, default_label as default_label_of};
ghost use Rattle.elab_expr.specs.elab_types.Syntax.{syntax_of, tree_at as syntax_at};
ghost use Rattle.elab_scopes.specs.States.{state_of};
ghost use Rattle.elab_scopes.specs.Labelled.{word_of as word_of_of, label_word as label_word_of, case_word as case_word_of, case_of as case_of_of, operand_alone as operand_alone_of, initial_alone as initial_alone_of, Operates};
ghost use Rattle.elab_expr.specs.Unmoved.{Unmoved};
ghost use Rattle.elab_scopes.specs.Says.{Does};

use crate::nodes::leaf_statement;
use crate::reading::operand;
use crate::state::State;
use elab_expr::below::{
    At, ElabFault, Env, IllRule, IntKind, Label, Labels, NodeId, Nodes, Operand, TGlobal, TKind,
    TNode, TNodeId, Tokens, Ty, Work, constant, convert, ill, initial, kind_of, node_at, value,
    value_of_word,
};
use elab_growth::cut_back;
use std::alloc::{AllocError, Global};
use std::mem;

fn label_allowed(at: At, label: Label) -> Result<bool, ElabFault>
    ensures { Tells result (label_allowed_of at label) }
{
    match label {
        Label::Direct => Ok(true),
        Label::InBlock => Err(ElabFault::JumpIntoBlock { at }),
        Label::Outside | Label::Inside => Err(ill(at, IllRule::BadCase)),
    }
}

// Tests that a label may stand here.
fn label_here(st: &State, at: At) -> Result<bool, ElabFault>
    ensures { Tells result (label_here_of (state_of st.now) at) }
{
    label_allowed(at, st.env.label)?;
    if st.env.labels.is_past {
        return Err(ill(at, IllRule::JumpPastInit));
    }
    Ok(true)
}

// Whether a constant of a kind is the same number in the kind of the labels.
fn case_fits(from: Option<IntKind>, to: Option<IntKind>, word: u64) -> bool
    ensures { result ≡ case_fits_of from to word }
{
    match from {
        Some(from) => match to {
            Some(to) => {
                let value = value_of_word(from, word);
                convert(to, value) == value
            }
            None => true,
        },
        None => true,
    }
}

// The word of a constant.
fn constant_word(
    globals: &Vec<TGlobal>,
    nodes: &Vec<TNode>,
    at: At,
    id: TNodeId,
) -> Result<u64, ElabFault>
    requires { id.0 < length (trees_of nodes.now.items) }
    ensures { Tells result (expect at NotConstant (constant_of (map global_of globals.now.items) (tree_at (trees_of nodes.now.items) id))) }
{
    let Some(word) = constant(globals, nodes, id)? else {
        return Err(ill(at, IllRule::NotConstant));
    };
    Ok(word)
}

// The word of a label, from its value and that value in the type of the labels.
fn word_of(
    env: &Env,
    globals: &Vec<TGlobal>,
    nodes: &Vec<TNode>,
    at: At,
    value: TNodeId,
    made: TNodeId,
) -> Result<u64, ElabFault>
    requires value { value.0 < length (trees_of nodes.now.items) }
    requires made { made.0 < length (trees_of nodes.now.items) }
    ensures { Tells result (word_of_of (ctx_of env.now) (map global_of globals.now.items) at (tree_at (trees_of nodes.now.items) value) (tree_at (trees_of nodes.now.items) made)) }
{
    let plain = constant_word(globals, nodes, at, value)?;
    let word = constant_word(globals, nodes, at, made)?;
    let from = kind_of(&node_at(nodes, value).ty);
    if !case_fits(from, kind_of(&env.labels.ty), plain) {
        return Err(ill(at, IllRule::Narrowing));
    }
    Ok(word)
}

// What initialises an object of a type; what is made beside it is cut off again.
fn initial_alone(
    alloc: Global,
    env: &Env,
    work: &mut Work,
    ty: &Ty,
    o: Operand,
) -> Result<TNodeId, ElabFault>
    requires { o.id.0 < length (trees_of work.old.nodes.items) }
    ensures made { Gives (trees_of work.old.nodes.items) (trees_of work.new.nodes.items) result (initial_alone_of (ctx_of env.now) (work_of work.old) (typ_of ty.now) (operand_in (trees_of work.old.nodes.items) o)) }
    ensures kept { IfOk result (λ r. work_of work.new ≡ work_of work.old) }
{
    let frame = work.frame.len();
    let globals = work.globals.len();
    let made = initial(alloc, env, work, ty, o)?;
    cut_back(work, frame, globals);
    Ok(made)
}

// An operand; what is made beside it is cut off again.
fn operand_alone(
    alloc: Global,
    env: &Env,
    tokens: &Tokens,
    nodes: &Nodes,
    id: NodeId,
    work: &mut Work,
) -> Result<Operand, ElabFault>
    requires { id.0 < length nodes.now }
    ensures operand { Operates (trees_of work.old.nodes.items) (trees_of work.new.nodes.items) result (operand_alone_of (lexemes_of tokens.now) (ctx_of env.now) (work_of work.old) (syntax_at (syntax_of nodes.now) id)) }
    ensures kept { IfOk result (λ o. work_of work.new ≡ work_of work.old) }
{
    let frame = work.frame.len();
    let globals = work.globals.len();
    let o = operand(alloc, env, tokens, nodes, id, work)?;
    cut_back(work, frame, globals);
    Ok(o)
}

// The word of a label, from its operand. Of what is made on the way the nodes alone are kept.
fn label_word(alloc: Global, env: &Env, work: &mut Work, o: Operand) -> Result<u64, ElabFault>
    requires { o.id.0 < length (trees_of work.old.nodes.items) }
    ensures word { Tells result (label_word_of (ctx_of env.now) (work_of work.old) (work_of work.old).globals (operand_in (trees_of work.old.nodes.items) o)) }
    ensures kept { IfOk result (λ w. work_of work.new ≡ work_of work.old) }
{
    let made = initial_alone(alloc, env, work, &env.labels.ty, o)?;
    let value = value(alloc, &mut work.nodes, o)?;
    let word = word_of(env, &work.globals, &work.nodes, o.at, value, made)?;
    Ok(word)
}

// The word of a label, from its expression. What is made on the way is cut off again.
fn case_word(
    alloc: Global,
    env: &Env,
    tokens: &Tokens,
    nodes: &Nodes,
    id: NodeId,
    work: &mut Work,
) -> Result<u64, ElabFault>
    requires { id.0 < length nodes.now }
    ensures word { Tells result (case_word_of (lexemes_of tokens.now) (ctx_of env.now) (work_of work.old) (syntax_at (syntax_of nodes.now) id)) }
    ensures kept { IfOk result (λ w. Unmoved work.old work.new) }
{
    let before = mem::replace(&mut work.nodes, Vec::new(alloc));
    let o = operand_alone(alloc, env, tokens, nodes, id, work)?;
    let word = label_word(alloc, env, work, o)?;
    work.nodes = before;
    Ok(word)
}

fn has_label(labels: &Labels, word: u64) -> bool
    ensures { result ≡ list_any (λ (n : ℕ). n == word) (labels_of labels.now).words }
{
    labels.words.contains(&word)
}

// Keeps the word of a label.
fn keep_label(labels: &mut Labels, word: u64) -> Result<(), AllocError>
    ensures { OnOk result (labels_of labels.new ≡ record (labels_of labels.old) { words = (labels_of labels.old).words ++ word ∷ [] }) }
{
    labels.words.push(word)?;
    Ok(())
}

// A label of this word.
fn case_of(alloc: Global, st: &mut State, at: At, word: u64) -> Result<TNodeId, ElabFault>
    ensures { Does st.old st.new result (case_of_of (state_of st.old) at word) }
{
    if has_label(&st.env.labels, word) {
        return Err(ill(at, IllRule::BadCase));
    }
    let made = leaf_statement(alloc, &mut st.work.nodes, TKind::Case { word }, at)?;
    keep_label(&mut st.env.labels, word)?;
    Ok(made)
}

/// `case e:`
pub fn case_label(
    alloc: Global,
    tokens: &Tokens,
    nodes: &Nodes,
    at: At,
    id: NodeId,
    st: &mut State,
) -> Result<TNodeId, ElabFault>
    requires { id.0 < length nodes.now }
    ensures { Does st.old st.new result (case_label_of (lexemes_of tokens.now) (state_of st.old) at (syntax_at (syntax_of nodes.now) id)) }
{
    label_here(st, at)?;
    let word = case_word(alloc, &st.env, tokens, nodes, id, &mut st.work)?;
    case_of(alloc, st, at, word)
}

/// `default:`
pub fn default_label(alloc: Global, at: At, st: &mut State) -> Result<TNodeId, ElabFault>
    ensures { Does st.old st.new result (default_label_of (state_of st.old) at) }
{
    label_here(st, at)?;
    if st.env.labels.has_default {
        return Err(ill(at, IllRule::BadCase));
    }
    let made = leaf_statement(alloc, &mut st.work.nodes, TKind::Default, at)?;
    st.env.labels.has_default = true;
    Ok(made)
}
