// What reading a body for its result made, which is not kept.

ghost use Rattle.std.specs.Prelude.{◌≡◌, drop, take, true};
ghost use Rattle.elab_entry.specs.cpp_types.Order.{all_consistent};
ghost use Rattle.elab_entry.specs.elab_ctx.Ctx.{ctx_of, work_of};
ghost use Rattle.elab_entry.specs.elab_scopes.States.{state_of, made};
ghost use Rattle.elab_lambdas.specs.Checkpoints.{checkpoint_in, undone_to};

use class_layouts::without;
use elab_entry::below::{ClassRec, Env, State, Work};

/// How many classes, functions, globals and bodies there are.
#[derive(Clone, Copy)]
pub struct Checkpoint {
    classes: usize,
    traits: usize,
    slots: usize,
    funcs: usize,
    globals: usize,
    bodies: usize,
}

/// How many there are here.
pub fn checkpoint_here(st: &State) -> Checkpoint
    ensures { result ≡ checkpoint_in st.now }
{
    Checkpoint {
        classes: st.env.classes.len(),
        traits: st.env.traits.len(),
        slots: st.env.slots.len(),
        funcs: st.env.funcs.len(),
        globals: st.work.globals.len(),
        bodies: st.bodies.len(),
    }
}

// The classes behind so many.
fn cut_from(classes: &[ClassRec], count: usize) -> &[ClassRec]
    ensures { result.now ≡ drop count classes.now }
{
    if count < classes.len() {
        &classes[count..]
    } else {
        &[]
    }
}

// Takes away the classes of lambdas, to which no other class refers.
fn undo_classes(env: &mut Env, count: usize)
    requires { all_consistent (take count (ctx_of env.old).classes) ≡ true }
    ensures { ctx_of env.new ≡ record (ctx_of env.old) { classes = take count (ctx_of env.old).classes } }
{
    let completed = without(env.completed, cut_from(&env.classes, count));
    env.classes.truncate(count);
    env.layouts.truncate(count);
    env.completed = completed;
}

fn undo_traits(env: &mut Env, count: usize)
    ensures { ctx_of env.new ≡ record (ctx_of env.old) { traits = take count (ctx_of env.old).traits } }
{
    env.traits.truncate(count);
}

fn undo_slots(env: &mut Env, count: usize)
    ensures { ctx_of env.new ≡ record (ctx_of env.old) { slots = take count (ctx_of env.old).slots } }
{
    env.slots.truncate(count);
}

fn undo_functions(env: &mut Env, count: usize)
    ensures { ctx_of env.new ≡ record (ctx_of env.old) { funcs = take count (ctx_of env.old).funcs } }
{
    env.funcs.truncate(count);
}

fn undo_globals(work: &mut Work, count: usize)
    ensures is { work_of work.new ≡ record (work_of work.old) { globals = take count (work_of work.old).globals } }
    ensures nodes { work.new.nodes ≡ work.old.nodes }
{
    work.globals.truncate(count);
}

fn undo_bodies(st: &mut State, count: usize)
    ensures is { state_of st.new ≡ record (state_of st.old) { bodies = take count (state_of st.old).bodies } }
    ensures made { made st.new ≡ made st.old }
{
    st.bodies.truncate(count);
}

/// Takes away what was declared and made since.
pub fn undo(st: &mut State, mark: Checkpoint)
    requires { all_consistent (take mark.classes (state_of st.old).ctx.classes) ≡ true }
    ensures is { state_of st.new ≡ undone_to mark (state_of st.old) }
    ensures made { made st.new ≡ made st.old }
{
    undo_classes(&mut st.env, mark.classes);
    undo_traits(&mut st.env, mark.traits);
    undo_slots(&mut st.env, mark.slots);
    undo_functions(&mut st.env, mark.funcs);
    undo_globals(&mut st.work, mark.globals);
    undo_bodies(st, mark.bodies);
}
