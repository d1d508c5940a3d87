// Arrays with a bound (C++14 8.3.4).

ghost use Rattle.std.specs.Prelude.{◌≡◌, ◌<◌, length, false, true, nat_le, pos, int_lt, MatchOption, IfOk};
ghost use Rattle.elab_casts.specs.tx_ints.Words.{value_of_word as value_of_word_of};
ghost use Rattle.elab_casts.specs.cpp_types.Typ.{typ_of, array};
ghost use Rattle.elab_casts.specs.cpp_tree.Arena.{trees_of};
ghost use Rattle.elab_casts.specs.cpp_tree.Notation.{plain};
ghost use Rattle.elab_casts.specs.elab_ctx.Ctx.{ctx_of, work_of};
ghost use Rattle.elab_casts.specs.elab_ctx.Operands.{operand_in};
ghost use Rattle.elab_casts.specs.elab_rules.Types.{array_of as array_of_of, is_within_size as is_within_size_of};
ghost use Rattle.elab_casts.specs.elab_rules.Expressions.{bounded as bounded_of};
ghost use Rattle.elab_types.specs.Shown.{Says};
ghost use Rattle.elab_casts.specs.cpp_layout.declared.extents.TheConstants.{GREATEST_SIZE};

use elab_casts::below::{
    At, ElabFault, Env, GREATEST_SIZE, IllRule, IntKind, LimitKind, Operand, Shape, TNode, Ty,
    Work, arithmetic, copy, node_at, size_of, value_of_word, valued,
};
use elab_consts::constant;
use elab_types::declarators::past;
use elab_types::specifiers::ill;
use elab_types::types::{is_complete_type, is_element};
use std::alloc::{AllocError, Global};

// Whether so many elements of a type are no more bytes than a type may have.
fn is_within_size(env: &Env, ty: &Ty, count: u32) -> Result<bool, AllocError>
    ensures { IfOk result (λ b. b ≡ is_within_size_of (ctx_of env.now) (typ_of ty.now) count) }
{
    if !is_complete_type(env, ty) {
        return Ok(true);
    }
    let size = size_of(env, ty)?;
    Ok(u64::from(size) * u64::from(count) <= u64::from(GREATEST_SIZE))
}

// The number of elements that a bound gives, as far as an array may have so many.
fn small_count(word: u64) -> Option<u32>
    ensures { MatchOption result (nat_le word GREATEST_SIZE ≡ false) (λ n. (n ≡ word) × (nat_le word GREATEST_SIZE ≡ true)) }
{
    if word <= u64::from(GREATEST_SIZE) {
        Some(word as u32)
    } else {
        None
    }
}

fn is_positive(kind: IntKind, word: u64) -> bool
    ensures { result ≡ int_lt (pos 0) (value_of_word_of kind word) }
{
    0 < value_of_word(kind, word)
}

fn array_type(alloc: Global, element: &Ty, count: u32) -> Result<Ty, AllocError>
    ensures { IfOk result (λ t. typ_of t ≡ plain (array (typ_of element.now) count)) }
{
    let element = Box::new(alloc, copy(alloc, element)?)?;
    Ok(Ty {
        shape: Shape::Array(element, count),
        is_const: false,
        is_volatile: false,
    })
}

/// An array of so many elements; the bound is a number above 0, written at `bound`.
pub fn array_of(
    alloc: Global,
    env: &Env,
    at: At,
    bound: At,
    ty: &Ty,
    kind: IntKind,
    word: u64,
) -> Result<Ty, ElabFault>
    ensures { Says typ_of result (array_of_of (ctx_of env.now) at bound (typ_of ty.now) kind word) }
{
    if !is_element(ty) {
        return Err(ill(at, IllRule::BadDeclaration));
    }
    if !is_positive(kind, word) {
        return Err(ill(bound, IllRule::BadDeclaration));
    }
    let Some(count) = small_count(word) else {
        return Err(past(at, LimitKind::Size));
    };
    if !is_within_size(env, ty, count)? {
        return Err(past(at, LimitKind::Size));
    }
    let made = array_type(alloc, ty, count)?;
    Ok(made)
}

/// An array of a type with a bound. The bound's nodes are among `nodes`; the globals that it may name are those of
/// `work`.
pub fn bounded(
    alloc: Global,
    env: &Env,
    at: At,
    ty: &Ty,
    bound: Operand,
    nodes: &mut Vec<TNode>,
    work: &Work,
) -> Result<Ty, ElabFault>
    requires { bound.id.0 < length (trees_of nodes.old.items) }
    ensures { Says typ_of result (bounded_of (ctx_of env.now) (work_of work.now) at (typ_of ty.now) (operand_in (trees_of nodes.old.items) bound)) }
{
    let value = valued(alloc, nodes, bound.at, bound.id)?;
    let Some(kind) = arithmetic(&node_at(nodes, value).ty) else {
        return Err(ill(bound.at, IllRule::BadOperand));
    };
    let Some(word) = constant(&work.globals, nodes, value)? else {
        return Err(ill(bound.at, IllRule::NotConstant));
    };
    array_of(alloc, env, at, bound.at, ty, kind, word)
}
