// Words of kinds of integers.

ghost use Rattle.std.specs.Prelude.{◌≡◌};
ghost use Rattle.elab_rules.specs.Constants.{word_in, right_kind, applied};

use elab_rules::below::{BinOp, IntKind, apply, value_of_word, word_of};

/// A word as that of a number of a kind.
pub fn word_in(kind: IntKind, word: u64) -> u64
    ensures { result ≡ word_in kind word }
{
    word_of(value_of_word(kind, word))
}

// The kind of an operator's right operand: a shift's count is any number.
fn right_kind(op: BinOp, kind: IntKind) -> IntKind
    ensures { result ≡ right_kind op kind }
{
    match op {
        BinOp::Shl | BinOp::Shr => IntKind::ULong,
        BinOp::Add
        | BinOp::Sub
        | BinOp::Mul
        | BinOp::Div
        | BinOp::Rem
        | BinOp::And
        | BinOp::Xor
        | BinOp::Or
        | BinOp::Lt
        | BinOp::Gt
        | BinOp::Le
        | BinOp::Ge
        | BinOp::Eq
        | BinOp::Ne => kind,
    }
}

/// What an operator gives on two words; `None` where it traps.
pub fn applied(op: BinOp, kind: IntKind, a: u64, b: u64) -> Option<u64>
    ensures { result ≡ applied op kind a b }
{
    let left = value_of_word(kind, a);
    let right = value_of_word(right_kind(op, kind), b);
    match apply(op, kind, left, right) {
        Ok(value) => Some(word_of(value)),
        Err(_) => None,
    }
}
