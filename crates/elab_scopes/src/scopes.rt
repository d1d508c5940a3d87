// Into scopes and out of them (C++14 3.3.3), and names of variables.

ghost use Rattle.std.specs.Prelude.{◌≡◌, ◌++◌, ◌∷◌, [], true, false, OnOk, IfOk, option_map};
ghost use Rattle.elab_expr.specs.cpp_types.Typ.{typ_of};
ghost use Rattle.elab_expr.specs.elab_ctx.Ctx.{ctx_of, opened, closed, labels_of};
ghost use Rattle.elab_expr.specs.elab_rules.Statements.{inner_label as inner_label_of, block_label as block_label_of, no_labels as no_labels_of};
ghost use Rattle.elab_expr.specs.elab_ctx.declared.env.Label.TheVariants.{Direct as DirectLabel};
ghost use Rattle.elab_scopes.specs.States.{left_at};
ghost use Rattle.elab_scopes.specs.Says.{Declares};

use crate::state::Mark;
use elab_expr::below::{
    At, ElabFault, Entity, EntityKind, Env, IllRule, Label, Labels, NameFault, Ty, Variable, ill,
};
use std::alloc::{AllocError, Global};
use std::mem;

fn inner_label(label: Label) -> Label
    ensures { result ≡ inner_label_of label }
{
    match label {
        Label::Direct => Label::Inside,
        Label::Outside | Label::Inside | Label::InBlock => label,
    }
}

fn block_label(label: Label) -> Label
    ensures { result ≡ block_label_of label }
{
    match label {
        Label::Outside => Label::Outside,
        Label::Direct | Label::Inside | Label::InBlock => Label::InBlock,
    }
}

/// Into a statement in another.
pub fn enter(env: &mut Env) -> Result<(), AllocError>
    ensures { OnOk result (ctx_of env.new ≡ record (opened (ctx_of env.old)) { label = inner_label_of (ctx_of env.old).label }) }
{
    env.scopes.push()?;
    env.label = inner_label(env.label);
    Ok(())
}

/// Into a loop.
pub fn enter_loop(env: &mut Env) -> Result<(), AllocError>
    ensures { OnOk result (ctx_of env.new ≡ record (opened (ctx_of env.old)) { label = inner_label_of (ctx_of env.old).label; breaks = true; continues = true }) }
{
    enter(env)?;
    env.breaks = true;
    env.continues = true;
    Ok(())
}

/// Into a synchronized block or an atomic one.
pub fn enter_block(env: &mut Env) -> Result<(), AllocError>
    ensures { OnOk result (ctx_of env.new ≡ record (opened (ctx_of env.old)) { label = block_label_of (ctx_of env.old).label }) }
{
    env.scopes.push()?;
    env.label = block_label(env.label);
    Ok(())
}

fn no_labels(alloc: Global, ty: Ty) -> Labels
    ensures { labels_of result ≡ no_labels_of (typ_of ty) }
{
    Labels {
        ty,
        words: Vec::new(alloc),
        has_default: false,
        is_past: false,
    }
}

/// Into a `switch` on a value of a type. The labels around it are answered.
pub fn enter_switch(alloc: Global, env: &mut Env, ty: Ty) -> Result<Labels, AllocError>
    ensures ctx { OnOk result (ctx_of env.new ≡ record (opened (ctx_of env.old)) { label = DirectLabel; labels = no_labels_of (typ_of ty); breaks = true }) }
    ensures labels { IfOk result (λ l. labels_of l ≡ (ctx_of env.old).labels) }
{
    env.scopes.push()?;
    env.label = Label::Direct;
    env.breaks = true;
    Ok(mem::replace(&mut env.labels, no_labels(alloc, ty)))
}

// Closes the innermost scope, if one is open.
fn close(env: &mut Env)
    ensures { ctx_of env.new ≡ closed (ctx_of env.old) }
{
    if env.scopes.is_empty() {
        return;
    }
    env.scopes.pop();
}

/// Behind a statement that has a scope of its own.
pub fn leave(env: &mut Env, mark: Mark)
    ensures { ctx_of env.new ≡ left_at mark (ctx_of env.old) }
{
    close(env);
    env.label = mark.label;
    env.breaks = mark.breaks;
    env.continues = mark.continues;
    env.labels.words.truncate(mark.words);
    env.labels.has_default = mark.has_default;
    env.labels.is_past = mark.is_past;
}

/// Behind a `switch`, around which these labels stand.
pub fn leave_switch(env: &mut Env, mark: Mark, labels: Labels)
    ensures { ctx_of env.new ≡ record (closed (ctx_of env.old)) { label = mark.label; labels = labels_of labels; breaks = mark.breaks; continues = mark.continues } }
{
    close(env);
    env.label = mark.label;
    env.breaks = mark.breaks;
    env.continues = mark.continues;
    env.labels = labels;
}

fn add_variable(list: &mut Vec<Variable>, variable: Variable) -> Result<(), AllocError>
    ensures { OnOk result (list.new.items ≡ list.old.items ++ variable ∷ []) }
{
    list.push(variable)?;
    Ok(())
}

/// Declares a variable in the innermost scope. With no scope open, or where no number is left, that counts as want of memory.
pub fn declare(
    env: &mut Env,
    at: At,
    name: &[u8],
    ty: Option<Ty>,
    place: u32,
) -> Result<(), ElabFault>
    ensures { Declares (ctx_of env.old) (ctx_of env.new) at name.now (option_map typ_of ty) place result }
{
    let Ok(id) = u32::try_from(env.variables.len()) else {
        return Err(ElabFault::Memory);
    };
    if env.scopes.is_empty() {
        return Err(ElabFault::Memory);
    }
    let entity = Entity {
        kind: EntityKind::Local,
        id,
    };
    match env.scopes.declare(name, entity) {
        Ok(()) => {
            add_variable(&mut env.variables, Variable { ty, place })?;
            Ok(())
        }
        Err(NameFault::Twice { .. }) => Err(ill(at, IllRule::Redeclared)),
        Err(NameFault::Memory) => Err(ElabFault::Memory),
    }
}
