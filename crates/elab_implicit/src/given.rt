// What is written for the parts of an object in a constructor (C++14 12.6.2), and the base while it is made (10.4).

ghost use Rattle.std.specs.Prelude.{◌≡◌, true, false, length, map, OnOk};
ghost use Rattle.elab_entry.specs.cpp_tree.Arena.{trees_of};
ghost use Rattle.elab_entry.specs.elab_ctx.Ctx.{ctx_of, traits_of};
ghost use Rattle.elab_implicit.specs.Written.{found_for, are_there as are_there_of, traits_in, marked_abstract, was_abstract, with_abstract};

use crate::places::stands;
use cpp_types::At;
use elab_entry::below::{Env, TNode, TNodeId, Traits, is_same_variable};
use std::alloc::AllocError;

/// What is written for the base, or for the member of an index.
#[derive(Clone, Copy)]
pub struct Given {
    pub member: Option<u32>,
    pub at: At,
    pub init: TNodeId,
}

/// What is written for a part.
pub fn given_for(list: &[Given], member: Option<u32>) -> Option<Given>
    ensures { result ≡ found_for member list.now }
{
    for found in list {
        if is_same_variable(member, found.member) {
            return Some(*found);
        }
    }
    None
}

/// Tests that each initialiser stands in a list of nodes; one that does not counts as want of memory.
pub fn are_there(nodes: &Vec<TNode>, list: &[Given]) -> Result<(), AllocError>
    ensures { OnOk result (are_there_of (length (trees_of nodes.now.items)) list.now ≡ true) }
{
    for found in list {
        stands(nodes, found.init)?;
    }
    Ok(())
}

// A class is marked as abstract or not. What is answered is whether it was.
fn mark_abstract(list: &mut Vec<Traits>, class: u32, is_abstract: bool) -> bool
    ensures marked { map traits_of list.new.items ≡ marked_abstract (map traits_of list.old.items) class is_abstract }
    ensures was { result ≡ (traits_in (map traits_of list.old.items) class).is_abstract }
{
    match list.get_mut(class as usize) {
        Some(found) => {
            let was = found.is_abstract;
            found.is_abstract = is_abstract;
            was
        }
        None => false,
    }
}

/// An object of an abstract class is made as a base (C++14 10.4). What is answered is whether the class is abstract.
pub fn allow_base(env: &mut Env, base: Option<u32>) -> bool
    ensures ctx { ctx_of env.new ≡ with_abstract (ctx_of env.old) base false }
    ensures was { result ≡ was_abstract (ctx_of env.old) base }
{
    match base {
        Some(base) => mark_abstract(&mut env.traits, base, false),
        None => false,
    }
}

/// The class is again what it was.
pub fn restore_base(env: &mut Env, base: Option<u32>, was: bool)
    ensures { ctx_of env.new ≡ with_abstract (ctx_of env.old) base was }
{
    if let Some(base) = base {
        let _marked = mark_abstract(&mut env.traits, base, was);
    }
}
