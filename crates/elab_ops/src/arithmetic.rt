// Arithmetic (C++14 5.3.1, 5.6 to 5.8, 5.11 to 5.13), and operations on values.

ghost use Rattle.std.specs.Prelude.{◌≡◌, ◌<◌, length, IfOk};
ghost use Rattle.elab_conv.specs.cpp_types.Typ.{typ_of, int};
ghost use Rattle.elab_conv.specs.cpp_tree.Notation.{plain};
ghost use Rattle.elab_conv.specs.cpp_tree.Arena.{trees_of, tree_at, Adds};
ghost use Rattle.elab_conv.specs.elab_ctx.Operands.{operand_in};
ghost use Rattle.elab_conv.specs.elab_ctx.Says.{Gives};
ghost use Rattle.elab_conv.specs.elab_rules.Values.{number, operated, in_kind};
ghost use Rattle.elab_conv.specs.elab_rules.Operators.{value, value_form, arithmetic, as_kind, arithmetic_of, ones, minus, complement, plus};

use crate::names::is_shift;
use crate::operands::{as_kind, ill, int_type, number_kind, value};
use elab_conv::below::{
    At, BinOp, Cat, ElabFault, IllRule, IntKind, Operand, TKind, TNode, TNodeId, Ty, add_binary,
    add_leaf, promote, usual, value_of_word, word_of,
};
use elab_conv::converted;
use std::alloc::{AllocError, Global};

/// A number as a node.
pub fn number(
    alloc: Global,
    nodes: &mut Vec<TNode>,
    kind: IntKind,
    word: u64,
    at: At,
) -> Result<TNodeId, AllocError>
    ensures { IfOk result (λ r. Adds (trees_of nodes.old.items) (trees_of nodes.new.items) r (number kind word at)) }
{
    add_leaf(
        alloc,
        nodes,
        TKind::Literal { word },
        int_type(kind),
        Cat::Prvalue,
        at,
    )
}

/// An operation on two values.
pub fn operated(
    alloc: Global,
    nodes: &mut Vec<TNode>,
    op: BinOp,
    kind: IntKind,
    ty: Ty,
    at: At,
    left: TNodeId,
    right: TNodeId,
) -> Result<TNodeId, AllocError>
    ensures { IfOk result (λ r. Adds (trees_of nodes.old.items) (trees_of nodes.new.items) r (operated op kind (typ_of ty) at (tree_at (trees_of nodes.old.items) left) (tree_at (trees_of nodes.old.items) right))) }
{
    add_binary(
        alloc,
        nodes,
        TKind::Binary { op, kind },
        ty,
        Cat::Prvalue,
        at,
        left,
        right,
    )
}

/// An operation on two values whose result has a plain integer type.
pub fn operated_in(
    alloc: Global,
    nodes: &mut Vec<TNode>,
    op: BinOp,
    kind: IntKind,
    result_kind: IntKind,
    at: At,
    left: TNodeId,
    right: TNodeId,
) -> Result<TNodeId, AllocError>
    ensures { IfOk result (λ r. Adds (trees_of nodes.old.items) (trees_of nodes.new.items) r (operated op kind (plain (int result_kind)) at (tree_at (trees_of nodes.old.items) left) (tree_at (trees_of nodes.old.items) right))) }
{
    operated(
        alloc,
        nodes,
        op,
        kind,
        int_type(result_kind),
        at,
        left,
        right,
    )
}

/// A value as a number of a kind.
pub fn in_kind(
    alloc: Global,
    nodes: &mut Vec<TNode>,
    at: At,
    kind: IntKind,
    id: TNodeId,
) -> Result<TNodeId, AllocError>
    requires { id.0 < length (trees_of nodes.old.items) }
    ensures { IfOk result (λ r. Adds (trees_of nodes.old.items) (trees_of nodes.new.items) r (in_kind at kind (tree_at (trees_of nodes.old.items) id))) }
{
    converted(alloc, nodes, at, &int_type(kind), id)
}

/// An operation on the values of two operands.
pub fn on_values(
    alloc: Global,
    nodes: &mut Vec<TNode>,
    op: BinOp,
    kind: IntKind,
    ty: Ty,
    at: At,
    a: Operand,
    b: Operand,
) -> Result<TNodeId, AllocError>
    requires left { a.id.0 < length (trees_of nodes.old.items) }
    requires right { b.id.0 < length (trees_of nodes.old.items) }
    ensures { IfOk result (λ r. Adds (trees_of nodes.old.items) (trees_of nodes.new.items) r (operated op kind (typ_of ty) at (value (operand_in (trees_of nodes.old.items) a)) (value (operand_in (trees_of nodes.old.items) b)))) }
{
    let left = value(alloc, nodes, a)?;
    let right = value(alloc, nodes, b)?;
    operated(alloc, nodes, op, kind, ty, at, left, right)
}

/// An operation on two operands, each as a number of a kind of its own.
pub fn on_numbers(
    alloc: Global,
    nodes: &mut Vec<TNode>,
    op: BinOp,
    kind: IntKind,
    ty: Ty,
    at: At,
    left_kind: IntKind,
    a: Operand,
    right_kind: IntKind,
    b: Operand,
) -> Result<TNodeId, AllocError>
    requires left { a.id.0 < length (trees_of nodes.old.items) }
    requires right { b.id.0 < length (trees_of nodes.old.items) }
    ensures { IfOk result (λ r. Adds (trees_of nodes.old.items) (trees_of nodes.new.items) r (operated op kind (typ_of ty) at (as_kind left_kind (operand_in (trees_of nodes.old.items) a)) (as_kind right_kind (operand_in (trees_of nodes.old.items) b)))) }
{
    let left = as_kind(alloc, nodes, left_kind, a)?;
    let right = as_kind(alloc, nodes, right_kind, b)?;
    operated(alloc, nodes, op, kind, ty, at, left, right)
}

/// An operator on numbers of these kinds.
pub fn arithmetic_of(
    alloc: Global,
    nodes: &mut Vec<TNode>,
    op: BinOp,
    at: At,
    left: Option<IntKind>,
    right: Option<IntKind>,
    a: Operand,
    b: Operand,
) -> Result<TNodeId, ElabFault>
    requires left { a.id.0 < length (trees_of nodes.old.items) }
    requires right { b.id.0 < length (trees_of nodes.old.items) }
    ensures { Gives (trees_of nodes.old.items) (trees_of nodes.new.items) result (arithmetic_of op at left right (operand_in (trees_of nodes.old.items) a) (operand_in (trees_of nodes.old.items) b)) }
{
    let Some(j) = left else {
        return Err(ill(at, IllRule::BadOperand));
    };
    let Some(k) = right else {
        return Err(ill(at, IllRule::BadOperand));
    };
    if is_shift(op) {
        let kind = promote(j);
        let count_kind = promote(k);
        let ty = int_type(kind);
        let made = on_numbers(alloc, nodes, op, kind, ty, at, kind, a, count_kind, b)?;
        return Ok(made);
    }
    let kind = usual(j, k);
    let made = on_numbers(alloc, nodes, op, kind, int_type(kind), at, kind, a, kind, b)?;
    Ok(made)
}

// The negative of an operand, as a number of a kind.
fn negated(
    alloc: Global,
    nodes: &mut Vec<TNode>,
    at: At,
    kind: IntKind,
    a: Operand,
) -> Result<TNodeId, AllocError>
    requires { a.id.0 < length (trees_of nodes.old.items) }
    ensures { IfOk result (λ r. Adds (trees_of nodes.old.items) (trees_of nodes.new.items) r (operated BinOp.Sub kind (plain (int kind)) at (number kind 0 at) (as_kind kind (operand_in (trees_of nodes.old.items) a)))) }
{
    let zero = number(alloc, nodes, kind, 0, at)?;
    let value = as_kind(alloc, nodes, kind, a)?;
    operated_in(alloc, nodes, BinOp::Sub, kind, kind, at, zero, value)
}

/// Unary `-`.
pub fn minus(
    alloc: Global,
    nodes: &mut Vec<TNode>,
    at: At,
    a: Operand,
) -> Result<TNodeId, ElabFault>
    requires { a.id.0 < length (trees_of nodes.old.items) }
    ensures { Gives (trees_of nodes.old.items) (trees_of nodes.new.items) result (minus at (operand_in (trees_of nodes.old.items) a)) }
{
    let Some(found) = number_kind(nodes, a) else {
        return Err(ill(at, IllRule::BadOperand));
    };
    let made = negated(alloc, nodes, at, promote(found), a)?;
    Ok(made)
}

// All bits of a kind.
fn all_ones(kind: IntKind) -> u64
    ensures { result ≡ ones kind }
{
    word_of(value_of_word(kind, u64::MAX))
}

// An operand as a number of a kind, with all its bits turned.
fn turned(
    alloc: Global,
    nodes: &mut Vec<TNode>,
    at: At,
    kind: IntKind,
    a: Operand,
) -> Result<TNodeId, AllocError>
    requires { a.id.0 < length (trees_of nodes.old.items) }
    ensures { IfOk result (λ r. Adds (trees_of nodes.old.items) (trees_of nodes.new.items) r (operated BinOp.Xor kind (plain (int kind)) at (as_kind kind (operand_in (trees_of nodes.old.items) a)) (number kind (ones kind) at))) }
{
    let bits = all_ones(kind);
    let value = as_kind(alloc, nodes, kind, a)?;
    let mask = number(alloc, nodes, kind, bits, at)?;
    operated_in(alloc, nodes, BinOp::Xor, kind, kind, at, value, mask)
}

/// `~`: all bits of the promoted kind are turned.
pub fn complement(
    alloc: Global,
    nodes: &mut Vec<TNode>,
    at: At,
    a: Operand,
) -> Result<TNodeId, ElabFault>
    requires { a.id.0 < length (trees_of nodes.old.items) }
    ensures { Gives (trees_of nodes.old.items) (trees_of nodes.new.items) result (complement at (operand_in (trees_of nodes.old.items) a)) }
{
    let Some(found) = number_kind(nodes, a) else {
        return Err(ill(at, IllRule::BadOperand));
    };
    let made = turned(alloc, nodes, at, promote(found), a)?;
    Ok(made)
}

/// Unary `+`: the promoted value.
pub fn plus(alloc: Global, nodes: &mut Vec<TNode>, at: At, a: Operand) -> Result<TNodeId, ElabFault>
    requires { a.id.0 < length (trees_of nodes.old.items) }
    ensures { Gives (trees_of nodes.old.items) (trees_of nodes.new.items) result (plus at (operand_in (trees_of nodes.old.items) a)) }
{
    let Some(found) = number_kind(nodes, a) else {
        return Err(ill(at, IllRule::BadOperand));
    };
    let value = as_kind(alloc, nodes, promote(found), a)?;
    Ok(value)
}
