// Values that are dropped (C++14 clause 5 p11), and `,` (5.18).

ghost use Rattle.std.specs.Prelude.{◌≡◌, ◌<◌, length, IfOk};
ghost use Rattle.elab_make.specs.cpp_types.Typ.{typ_of};
ghost use Rattle.elab_make.specs.cpp_tree.Trees.{kind_of as kind_in_tree, kids_of};
ghost use Rattle.elab_make.specs.cpp_tree.Arena.{trees_of, tree_at, Adds};
ghost use Rattle.elab_make.specs.elab_ctx.Ctx.{ctx_of, work_of};
ghost use Rattle.elab_make.specs.elab_ctx.Operands.{operand_in};
ghost use Rattle.elab_make.specs.elab_ctx.Says.{Puts};
ghost use Rattle.elab_make.specs.elab_rules.Operators.{dropped, comma_of, comma, is_volatile_scalar, is_read_when_dropped};
ghost use Rattle.elab_forms.specs.Parts.{is_one_prvalue, is_read_lvalue, is_read_by};

use crate::exceptions::settled;
use crate::thrown::{bare_throw, is_throw};
use elab_make::below::{
    At, Cat, Env, Operand, TKind, TNode, TNodeId, Ty, Work, add_binary, copy, kids_at, kind_of,
    node_at,
};
use elab_make::object_of;
use elab_ops::value;
use std::alloc::{AllocError, Global};

// Whether a type is one of scalars that are volatile.
fn is_volatile_scalar(ty: &Ty) -> bool
    ensures { result ≡ is_volatile_scalar (typ_of ty.now) }
{
    ty.is_volatile && kind_of(ty).is_some()
}

// Whether the only kid of a node is a prvalue.
fn has_one_prvalue(nodes: &Vec<TNode>, id: TNodeId) -> Result<bool, AllocError>
    requires { id.0 < length (trees_of nodes.now.items) }
    ensures { IfOk result (λ b. b ≡ is_one_prvalue (kids_of (tree_at (trees_of nodes.now.items) id))) }
{
    let kids = kids_at(nodes, id)?;
    if kids.len() != 1 {
        return Ok(false);
    }
    match node_at(nodes, kids[0]).cat {
        Cat::Prvalue => Ok(true),
        Cat::Lvalue => Ok(false),
    }
}

// Whether an lvalue is written as a name, a member access, a subscript or an indirection.
fn is_read_lvalue(nodes: &Vec<TNode>, kind: TKind, id: TNodeId) -> Result<bool, AllocError>
    requires { id.0 < length (trees_of nodes.now.items) }
    ensures { IfOk result (λ b. b ≡ is_read_lvalue kind (kids_of (tree_at (trees_of nodes.now.items) id))) }
{
    match kind {
        TKind::Local { .. } | TKind::Global { .. } | TKind::Load { .. } | TKind::Binary { .. } => {
            Ok(true)
        }
        TKind::Retype => has_one_prvalue(nodes, id),
        _ => Ok(false),
    }
}

// Whether an expression of a kind and a category is read where its value is dropped.
fn is_read_by(nodes: &Vec<TNode>, kind: TKind, cat: Cat, id: TNodeId) -> Result<bool, AllocError>
    requires { id.0 < length (trees_of nodes.now.items) }
    ensures { IfOk result (λ b. b ≡ is_read_by kind cat (kids_of (tree_at (trees_of nodes.now.items) id))) }
{
    match cat {
        Cat::Prvalue => Ok(false),
        Cat::Lvalue => is_read_lvalue(nodes, kind, id),
    }
}

// Whether an expression is read where its value is dropped.
fn is_read_when_dropped(nodes: &Vec<TNode>, id: TNodeId) -> Result<bool, AllocError>
    requires { id.0 < length (trees_of nodes.now.items) }
    ensures { IfOk result (λ b. b ≡ is_read_when_dropped (tree_at (trees_of nodes.now.items) id)) }
{
    let node = node_at(nodes, id);
    is_read_by(nodes, node.kind, node.cat, id)
}

/// An expression whose value is dropped: a volatile scalar that is named is read, and a class prvalue is made.
pub fn dropped(alloc: Global, env: &Env, work: &mut Work, o: Operand) -> Result<TNodeId, AllocError>
    requires { o.id.0 < length (trees_of work.old.nodes.items) }
    ensures { IfOk result (λ r. Puts (trees_of work.old.nodes.items) (trees_of work.new.nodes.items) (work_of work.new) r (dropped (ctx_of env.now) (work_of work.old) (operand_in (trees_of work.old.nodes.items) o))) }
{
    let bare = bare_throw(&work.nodes, o.id)?;
    if is_throw(&work.nodes, bare) {
        return Ok(bare);
    }
    let is_read = is_read_when_dropped(&work.nodes, o.id)?;
    if is_volatile_scalar(&node_at(&work.nodes, o.id).ty) && is_read {
        return value(alloc, &mut work.nodes, o);
    }
    object_of(alloc, env, work, o.at, o.id)
}

// `,` of two expressions: it has the type and the category of the second.
fn comma_of(
    alloc: Global,
    nodes: &mut Vec<TNode>,
    at: At,
    x: TNodeId,
    y: TNodeId,
) -> Result<TNodeId, AllocError>
    requires { y.0 < length (trees_of nodes.old.items) }
    ensures { IfOk result (λ r. Adds (trees_of nodes.old.items) (trees_of nodes.new.items) r (comma_of at (tree_at (trees_of nodes.old.items) x) (tree_at (trees_of nodes.old.items) y))) }
{
    let cat = node_at(nodes, y).cat;
    let ty = copy(alloc, &node_at(nodes, y).ty)?;
    add_binary(alloc, nodes, TKind::Comma, ty, cat, at, x, y)
}

/// `,`
pub fn comma(
    alloc: Global,
    env: &Env,
    work: &mut Work,
    at: At,
    a: Operand,
    b: Operand,
) -> Result<TNodeId, AllocError>
    requires left { a.id.0 < length (trees_of work.old.nodes.items) }
    requires right { b.id.0 < length (trees_of work.old.nodes.items) }
    ensures { IfOk result (λ r. Puts (trees_of work.old.nodes.items) (trees_of work.new.nodes.items) (work_of work.new) r (comma (ctx_of env.now) (work_of work.old) at (operand_in (trees_of work.old.nodes.items) a) (operand_in (trees_of work.old.nodes.items) b))) }
{
    let first = dropped(alloc, env, work, a)?;
    let second = settled(alloc, env, work, b)?;
    comma_of(alloc, &mut work.nodes, at, first, second)
}
