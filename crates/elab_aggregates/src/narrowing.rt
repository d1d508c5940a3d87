// Narrowing in braces (C++14 8.5.4 p7).

ghost use Rattle.std.specs.Prelude.{◌≡◌, ◌<◌, IfOk, OnOk, length};
ghost use Rattle.elab_make.specs.cpp_types.Typ.{typ_of};
ghost use Rattle.elab_make.specs.cpp_tree.Arena.{trees_of, Grows};
ghost use Rattle.elab_make.specs.cpp_tree.Typing.{form_in};
ghost use Rattle.elab_make.specs.elab_ctx.Ctx.{work_of};
ghost use Rattle.elab_make.specs.elab_ctx.Operands.{operand_in};
ghost use Rattle.elab_make.specs.tx_ints.Integers.{represents as represents_of};
ghost use Rattle.elab_make.specs.elab_rules.Operators.{arithmetic as arithmetic_of};
ghost use Rattle.elab_make.specs.elab_rules.Braces.{fits as fits_of, keeps_values as keeps_values_of, is_not_narrowed as is_not_narrowed_of};

use elab_consts::constant;
use elab_make::below::{
    IntKind, Operand, Shape, Ty, Work, convert, node_at, value_of_word, valued,
};
use std::alloc::{AllocError, Global};

// Whether a constant of a kind is the same number in another.
fn fits(from: IntKind, to: IntKind, word: Option<u64>) -> bool
    ensures { result ≡ fits_of from to word }
{
    match word {
        Some(word) => {
            let value = value_of_word(from, word);
            convert(to, value) == value
        }
        None => false,
    }
}

// Whether a kind has all numbers of another.
fn represents(kind: IntKind, other: IntKind) -> bool
    ensures { result ≡ represents_of kind other }
{
    kind.least() <= other.least() && other.greatest() <= kind.greatest()
}

// Whether a value of a kind is kept in another.
fn keeps_values(from: Option<IntKind>, to: Option<IntKind>, word: Option<u64>) -> bool
    ensures { result ≡ keeps_values_of from to word }
{
    match from {
        Some(from) => match to {
            Some(to) => represents(to, from) || fits(from, to, word),
            None => true,
        },
        None => true,
    }
}

// The kind in which a type takes part in arithmetic.
fn arithmetic(ty: &Ty) -> Option<IntKind>
    ensures { result ≡ arithmetic_of (form_in (typ_of ty.now)) }
{
    match &ty.shape {
        Shape::Int(kind) => Some(*kind),
        Shape::Enum { scoped, .. } => if *scoped { None } else { Some(IntKind::Int) },
        Shape::Void
        | Shape::Null
        | Shape::Ptr(_)
        | Shape::Ref(_)
        | Shape::Array(_, _)
        | Shape::Func(_)
        | Shape::Class(_)
        | Shape::Closure(_)
        | Shape::TxEx(_) => None,
    }
}

/// Whether an operand keeps its value in a type; its value is read for that.
pub fn is_not_narrowed(
    alloc: Global,
    work: &mut Work,
    ty: &Ty,
    o: Operand,
) -> Result<bool, AllocError>
    requires { o.id.0 < length (trees_of work.old.nodes.items) }
    ensures is { IfOk result (λ b. b ≡ is_not_narrowed_of (work_of work.old) (typ_of ty.now) (operand_in (trees_of work.old.nodes.items) o)) }
    ensures grows { OnOk result (Grows (trees_of work.old.nodes.items) (trees_of work.new.nodes.items)) }
    ensures work { OnOk result (work_of work.new ≡ work_of work.old) }
{
    let value = valued(alloc, &mut work.nodes, o.at, o.id)?;
    let word = constant(&work.globals, &work.nodes, value)?;
    let from = arithmetic(&node_at(&work.nodes, value).ty);
    Ok(keeps_values(from, arithmetic(ty), word))
}
