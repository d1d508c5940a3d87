// What is known and made so far, and what steps answer.

use elab_expr::below::{Env, Label, TNode, TNodeId, Ty, Work};

/// The body of a function, in nodes of its own, and the items of the frame that it needs.
#[derive(Drop)]
pub struct Body {
    pub func: u32,
    pub nodes: Vec<TNode>,
    pub tree: TNodeId,
    pub frame: Vec<Ty>,
}

/// What is known, what is made, and the bodies that are done.
#[derive(Drop)]
pub struct State {
    pub env: Env,
    pub work: Work,
    /// The bodies of functions, of lambdas too.
    pub bodies: Vec<Body>,
}

/// What is known of loops and labels where a statement stands.
#[derive(Clone, Copy)]
pub struct Mark {
    pub label: Label,
    /// How many labels the `switch` at hand has.
    pub words: usize,
    pub has_default: bool,
    pub is_past: bool,
    pub breaks: bool,
    pub continues: bool,
}

/// The value of a `switch`, and the type of its labels.
#[derive(Drop)]
pub struct SwitchedOn {
    pub value: TNodeId,
    pub ty: Ty,
}

/// What a handler catches, behind its slot.
#[derive(Drop)]
pub struct Caught {
    pub ty: Ty,
    /// Where its slot stands in the frame, if it has a name.
    pub place: Option<u32>,
    pub fields: Vec<TNodeId>,
}
