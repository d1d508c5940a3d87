// Default member initialisers in place (C++14 8.5.1 p7, 9.2).

ghost use Rattle.std.specs.Prelude.{◌≡◌, ◌<◌, ◌==◌, ◌&&◌, IfOk, OnOk, MatchOption, None, Some, length};
ghost use Rattle.elab_make.specs.cpp_types.Typ.{typ_of};
ghost use Rattle.elab_make.specs.cpp_tree.Arena.{trees_of, tree_at, Adds};
ghost use Rattle.elab_make.specs.elab_ctx.Ctx.{ctx_of, work_of, default_of};
ghost use Rattle.elab_make.specs.elab_ctx.Says.{Puts};
ghost use Rattle.elab_make.specs.elab_rules.Braces.{relocated as relocated_of, default_at as default_at_of, default_whole as default_whole_of, default_made as default_made_of};
ghost use Rattle.elab_aggregates.specs.MemberPieces.{with_items};
ghost use Rattle.elab_aggregates.specs.Relocated.{this_at, IsThere};

use crate::relocating::{Pointed, as_part, relocated};
use elab_make::below::{DefaultInit, Env, TNode, TNodeId, Ty, Work, add_item, copy};
use std::alloc::{AllocError, Global};

// Whether an initialiser is that of a member.
fn is_default_of(found: &DefaultInit, class: u32, member: u32) -> bool
    ensures { result ≡ (found.now.class == class && found.now.member == member) }
{
    found.class == class && found.member == member
}

/// The default initialiser of a member of a class.
pub fn default_at(env: &Env, class: u32, member: u32) -> Option<&DefaultInit>
    ensures { MatchOption result (default_at_of class member (ctx_of env.now).defaults ≡ None) (λ d. default_at_of class member (ctx_of env.now).defaults ≡ Some (default_of (trees_of env.now.default_nodes.items) d.now)) }
{
    for found in &env.defaults {
        if is_default_of(found, class, member) {
            return Some(found);
        }
    }
    None
}

// More items of the frame.
fn add_items(alloc: Global, work: &mut Work, items: &[Ty]) -> Result<(), AllocError>
    ensures work { OnOk result (work_of work.new ≡ with_items (work_of work.old) items.now) }
    ensures nodes { OnOk result (work.new.nodes.items ≡ work.old.nodes.items) }
{
    for item in items {
        let ty = copy(alloc, item)?;
        let _place = add_item(work, ty)?;
    }
    Ok(())
}

// The tree of an initialiser in the frame at hand.
fn relocated_init(
    alloc: Global,
    env: &Env,
    nodes: &mut Vec<TNode>,
    by: usize,
    target: &Ty,
    this: Pointed,
    init: TNodeId,
) -> Result<TNodeId, AllocError>
    requires { IsThere (length (trees_of nodes.old.items)) this }
    ensures { IfOk result (λ r. Adds (trees_of nodes.old.items) (trees_of nodes.new.items) r (relocated_of by (this_at (trees_of nodes.old.items) (typ_of target.now) this) (tree_at (trees_of env.now.default_nodes.items) init))) }
{
    let Ok(by) = u32::try_from(by) else {
        return Err(AllocError);
    };
    // Each initialiser is a node of that list.
    if init.0 as usize >= env.default_nodes.len() {
        return Err(AllocError);
    }
    relocated(alloc, &env.default_nodes, init, by, target, this, nodes)
}

// How many items the frame has.
fn frame_length(work: &Work) -> usize
    ensures { result ≡ length work.now.frame.items }
{
    work.frame.len()
}

/// A default initialiser as a whole, for a member of an object of a type.
pub fn default_whole(
    alloc: Global,
    env: &Env,
    work: &mut Work,
    target: &Ty,
    this: Pointed,
    found: &DefaultInit,
) -> Result<TNodeId, AllocError>
    requires { IsThere (length (trees_of work.old.nodes.items)) this }
    ensures { IfOk result (λ r. Puts (trees_of work.old.nodes.items) (trees_of work.new.nodes.items) (work_of work.new) r (default_whole_of (work_of work.old) (this_at (trees_of work.old.nodes.items) (typ_of target.now) this) (default_of (trees_of env.now.default_nodes.items) found.now))) }
{
    let by = frame_length(work);
    let made = relocated_init(alloc, env, &mut work.nodes, by, target, this, found.init)?;
    add_items(alloc, work, &found.frame)?;
    Ok(made)
}

/// The same as a part of an initialiser.
pub fn default_made(
    alloc: Global,
    env: &Env,
    work: &mut Work,
    target: &Ty,
    this: Pointed,
    found: &DefaultInit,
) -> Result<TNodeId, AllocError>
    requires { IsThere (length (trees_of work.old.nodes.items)) this }
    ensures { IfOk result (λ r. Puts (trees_of work.old.nodes.items) (trees_of work.new.nodes.items) (work_of work.new) r (default_made_of (work_of work.old) (this_at (trees_of work.old.nodes.items) (typ_of target.now) this) (default_of (trees_of env.now.default_nodes.items) found.now))) }
{
    let whole = default_whole(alloc, env, work, target, this, found)?;
    as_part(&work.nodes, whole)
}
