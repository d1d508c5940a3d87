// The words that a call passes (C++14 5.2.2).

ghost use Rattle.std.specs.Prelude.{◌≡◌, ◌<◌, length, true, IfOk};
ghost use Rattle.elab_init.specs.cpp_types.Typ.{typ_of, typs_of};
ghost use Rattle.elab_init.specs.cpp_tree.Trees.{node, more};
ghost use Rattle.elab_init.specs.cpp_tree.Typing.{unqualified};
ghost use Rattle.elab_init.specs.cpp_tree.Arena.{trees_of, tree_at, Adds};
ghost use Rattle.elab_init.specs.elab_ctx.Ctx.{ctx_of, work_of};
ghost use Rattle.elab_init.specs.elab_ctx.Operands.{operand_in, operands_in, are_in};
ghost use Rattle.elab_init.specs.elab_ctx.Says.{Makes, MakesAll};
ghost use Rattle.elab_init.specs.elab_rules.Objects.{destroys as destroys_by};
ghost use Rattle.elab_init.specs.elab_rules.Initialising.{passed as passed_of, words as words_of};
ghost use Rattle.elab_make.specs.Passing.{passed_object as passed_object_of};

use crate::binding::initial;
use crate::copying::class_from;
use crate::destructions::destroys;
use crate::lists::operand_at;
use elab_init::below::{
    At, Cat, ElabFault, Env, Operand, TKind, TNode, TNodeId, Ty, Work, add_item, add_node, copy,
    unqualified_type,
};
use elab_init::{is_class_type, keep, object_kids};
use std::alloc::{AllocError, Global};

// The object of an argument, in a place of the frame.
fn argument_node(
    alloc: Global,
    env: &Env,
    nodes: &mut Vec<TNode>,
    place: u32,
    ty: &Ty,
    at: At,
    init: TNodeId,
) -> Result<TNodeId, AllocError>
    requires { init.0 < length (trees_of nodes.old.items) }
    ensures { IfOk result (λ r. Adds (trees_of nodes.old.items) (trees_of nodes.new.items) r (node (TKind.Materialize place true) (typ_of ty.now) Cat.Lvalue at (more (tree_at (trees_of nodes.old.items) init) (destroys_by (ctx_of env.now) at (typ_of ty.now))))) }
{
    let ends = destroys(alloc, env, nodes, at, ty)?;
    let kids = object_kids(alloc, init, &ends)?;
    let ty = copy(alloc, ty)?;
    let kind = TKind::Materialize {
        place,
        argument: true,
    };
    add_node(
        nodes,
        TNode {
            kind,
            ty,
            cat: Cat::Lvalue,
            at,
            kids,
        },
    )
}

// An object of its own for a parameter of this type.
fn passed_object(
    alloc: Global,
    env: &Env,
    work: &mut Work,
    ty: &Ty,
    o: Operand,
) -> Result<TNodeId, ElabFault>
    requires { o.id.0 < length (trees_of work.old.nodes.items) }
    ensures { Makes (trees_of work.old.nodes.items) (trees_of work.new.nodes.items) (work_of work.new) result (passed_object_of (ctx_of env.now) (work_of work.old) (typ_of ty.now) (operand_in (trees_of work.old.nodes.items) o)) }
{
    let item = copy(alloc, ty)?;
    let place = add_item(work, item)?;
    let made = class_from(alloc, env, work, ty, o.at, o)?;
    let word = argument_node(alloc, env, &mut work.nodes, place, ty, o.at, made)?;
    Ok(word)
}

/// A word that is passed: an object of its own for a parameter of class type, else a value or what a reference is bound
/// to.
pub fn passed(
    alloc: Global,
    env: &Env,
    work: &mut Work,
    param: &Ty,
    o: Operand,
) -> Result<TNodeId, ElabFault>
    requires { o.id.0 < length (trees_of work.old.nodes.items) }
    ensures { Makes (trees_of work.old.nodes.items) (trees_of work.new.nodes.items) (work_of work.new) result (passed_of (ctx_of env.now) (work_of work.old) (typ_of param.now) (operand_in (trees_of work.old.nodes.items) o)) }
{
    if is_class_type(param) {
        let ty = unqualified_type(alloc, param)?;
        return passed_object(alloc, env, work, &ty, o);
    }
    initial(alloc, env, work, param, o)
}

/// The words of a call, argument by argument.
pub fn words(
    alloc: Global,
    env: &Env,
    work: &mut Work,
    params: &[Ty],
    os: &[Operand],
) -> Result<Vec<TNodeId>, ElabFault>
    requires { are_in (length (trees_of work.old.nodes.items)) os.now ≡ true }
    ensures { MakesAll (trees_of work.old.nodes.items) (trees_of work.new.nodes.items) (work_of work.new) result (words_of (ctx_of env.now) (work_of work.old) (typs_of params.now) (operands_in (trees_of work.old.nodes.items) os.now)) }
{
    let mut list = Vec::new(alloc);
    'args: for (i, param) in params.iter().enumerate() {
        let Some(o) = operand_at(os, i) else {
            return Ok(list);
        };
        let word = passed(alloc, env, work, param, o)?;
        keep(&mut list, word)?;
    }
    Ok(list)
}
