// What conversions and operators make of words.

ghost use Rattle.std.specs.Prelude.{◌≡◌, false, option_map};
ghost use Rattle.tx_ints.specs.Integers.{InRange, is_shift};
ghost use Rattle.src_mean.specs.Source.{converted, right_value, applied};
ghost use Rattle.tree_fold.specs.Constants.{value_word, operator_word, comma_word};

use tx_ints::{ArithTrap, BinOp, IntKind, apply, value_of_word, word_of};

/// The words of two operands.
#[derive(Clone, Copy)]
pub struct Operands {
    pub left: u64,
    pub right: u64,
}

/// The word of a converted value.
pub(crate) fn converted(to: IntKind, word: Option<u64>) -> Option<u64>
    ensures { result ≡ option_map (converted to) word }
{
    match word {
        Some(word) => Some(word_of(value_of_word(to, word))),
        None => None,
    }
}

// The number of a right operand: the count of a shift is taken as it is.
fn right_value(op: BinOp, kind: IntKind, word: u64) -> i128
    ensures value { result ≡ right_value op kind word }
    ensures range { is_shift op ≡ false → InRange kind result }
{
    match op {
        BinOp::Shl | BinOp::Shr => i128::from(word),
        _ => value_of_word(kind, word),
    }
}

fn value_word(value: Result<i128, ArithTrap>) -> Option<u64>
    ensures { result ≡ value_word value }
{
    match value {
        Ok(value) => Some(word_of(value)),
        Err(_) => None,
    }
}

// The word of an operator's value.
fn applied(op: BinOp, kind: IntKind, left: u64, right: u64) -> Option<u64>
    ensures { result ≡ value_word (applied op kind left right) }
{
    value_word(apply(
        op,
        kind,
        value_of_word(kind, left),
        right_value(op, kind, right),
    ))
}

/// The word of an operator's value, where it has one.
pub(crate) fn operator_word(op: BinOp, kind: IntKind, operands: Option<Operands>) -> Option<u64>
    ensures { result ≡ operator_word op kind operands }
{
    match operands {
        Some(operands) => applied(op, kind, operands.left, operands.right),
        None => None,
    }
}

/// The word behind a comma.
pub(crate) fn comma_word(operands: Option<Operands>) -> Option<u64>
    ensures { result ≡ comma_word operands }
{
    match operands {
        Some(operands) => Some(operands.right),
        None => None,
    }
}
