// What is called, by the node that stands for it.

ghost use Rattle.std.specs.Prelude.{◌≡◌, ◌<◌, length, true, IfOk};
ghost use Rattle.elab_make.specs.cpp_tree.Arena.{trees_of, tree_at};
ghost use Rattle.elab_call.specs.Callees.{counted, form_with, form_shown, callee_form, is_form_within};

use elab_make::below::{Builtin, TNode, TNodeId, kids_at, node_at};
use elab_names::resolving::{Callee, callee_of};
use std::alloc::AllocError;

/// How many kids a node has, as far as it matters here.
#[derive(Clone, Copy)]
pub enum Kids {
    None,
    One(TNodeId),
    Several,
}

/// What is called.
#[derive(Clone, Copy)]
pub enum CalleeForm {
    /// Functions at file scope of one name, of which one is given.
    Free(u32),
    /// Member functions of one name, of which one is given, and their object.
    Method(u32, TNodeId),
    /// `get` of a `std::tx_exception`.
    Get(TNodeId),
    /// A function that every unit knows.
    Known(Builtin),
    /// A value.
    Value,
}

fn count_of(kids: &[TNodeId]) -> Kids
    ensures { result ≡ counted kids.now }
{
    match kids {
        [] => Kids::None,
        [only] => Kids::One(*only),
        _ => Kids::Several,
    }
}

fn with_kids(callee: Callee, kids: Kids) -> CalleeForm
    ensures { result ≡ form_with callee kids }
{
    match (callee, kids) {
        (Callee::Functions(func), Kids::None) => CalleeForm::Free(func),
        (Callee::Functions(func), Kids::One(object)) => CalleeForm::Method(func, object),
        (Callee::Get, Kids::One(exception)) => CalleeForm::Get(exception),
        (Callee::Known(which), Kids::None) => CalleeForm::Known(which),
        _ => CalleeForm::Value,
    }
}

/// What the node with an id stands for where it is called.
pub fn form_at(nodes: &Vec<TNode>, id: TNodeId) -> Result<CalleeForm, AllocError>
    requires { id.0 < length (trees_of nodes.now.items) }
    ensures shown { IfOk result (λ f. form_shown (trees_of nodes.now.items) f ≡ callee_form (tree_at (trees_of nodes.now.items) id)) }
    ensures within { IfOk result (λ f. is_form_within (length (trees_of nodes.now.items)) f ≡ true) }
{
    let kids = kids_at(nodes, id)?;
    let node = node_at(nodes, id);
    let callee = callee_of(node.kind, &node.ty, node.cat);
    Ok(with_kids(callee, count_of(kids)))
}
