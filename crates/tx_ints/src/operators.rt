//! The operators on integers of a kind, each with its value or its trap.

ghost use Rattle.std.specs.Prelude.{◌≡◌, ◌≢◌, ◌↔◌, true, false, pos, IfOk, OnOk};
ghost use Rattle.tx_ints.specs.Integers.{InRange, apply_of, negate_of, trapped_or, overflow_of, is_count, is_shift, is_signed, least, truth};

use crate::conversions::reduce;
use crate::kinds::{ArithTrap, BinOp, IntKind};

/// The operator's value on two numbers of the kind, or its trap. A comparison gives 1 or 0, and a shift's count may be any
/// number.
pub fn apply(op: BinOp, kind: IntKind, a: i128, b: i128) -> Result<i128, ArithTrap>
    requires left { InRange kind a }
    requires right { is_shift op ≡ false → InRange kind b }
    ensures value { result ≡ apply_of op kind a b }
    ensures range { IfOk result (λ v. InRange kind v) }
{
    match op {
        BinOp::Add => settle(kind, a + b),
        BinOp::Sub => settle(kind, a - b),
        BinOp::Mul => product(kind, a, b),
        BinOp::Div => quotient(kind, a, b),
        BinOp::Rem => remainder(kind, a, b),
        BinOp::Shl => shift_left(kind, a, b),
        BinOp::Shr => shift_right(kind, a, b),
        BinOp::And => Ok(a & b),
        BinOp::Xor => Ok(a ^ b),
        BinOp::Or => Ok(a | b),
        BinOp::Lt => Ok(number(a < b)),
        BinOp::Gt => Ok(number(a > b)),
        BinOp::Le => Ok(number(a <= b)),
        BinOp::Ge => Ok(number(a >= b)),
        BinOp::Eq => Ok(number(a == b)),
        BinOp::Ne => Ok(number(a != b)),
    }
}

/// The value of unary `-` on a number of the kind, or its trap.
pub fn negate(kind: IntKind, v: i128) -> Result<i128, ArithTrap>
    requires { InRange kind v }
    ensures value { result ≡ negate_of kind v }
    ensures overflow { (result ≡ Err ArithTrap.Overflow) ↔ ((is_signed kind ≡ true) × (v ≡ least kind)) }
    ensures range { IfOk result (λ r. InRange kind r) }
{
    settle(kind, -v)
}

// The kind's number for a value, or the trap of a signed kind that does not have it.
fn settle(kind: IntKind, value: i128) -> Result<i128, ArithTrap>
    ensures value { result ≡ trapped_or (overflow_of kind value) kind value }
    ensures range { IfOk result (λ v. InRange kind v) }
{
    if kind.has(value) {
        Ok(value)
    } else if kind.is_signed() {
        Err(ArithTrap::Overflow)
    } else {
        Ok(reduce(kind, value))
    }
}

// 1 for yes, and 0 for no.
fn number(yes: bool) -> i128
    ensures { result ≡ truth yes }
{
    if yes { 1 } else { 0 }
}

// `*` (C++14 5.6/3).
fn product(kind: IntKind, a: i128, b: i128) -> Result<i128, ArithTrap>
    requires left { InRange kind a }
    requires right { InRange kind b }
    ensures value { result ≡ apply_of BinOp.Mul kind a b }
    ensures range { IfOk result (λ v. InRange kind v) }
{
    if kind.is_signed() {
        settle(kind, a * b)
    } else {
        // two factors of 64 bits can pass `i128`, whose wrapping leaves a number that is equal modulo 2^n
        Ok(reduce(kind, a.wrapping_mul(b)))
    }
}

// `/`, which truncates (C++14 5.6/4).
fn quotient(kind: IntKind, a: i128, b: i128) -> Result<i128, ArithTrap>
    requires left { InRange kind a }
    requires right { InRange kind b }
    ensures value { result ≡ apply_of BinOp.Div kind a b }
    ensures range { IfOk result (λ v. InRange kind v) }
    ensures divisor { OnOk result (b ≢ pos 0) }
{
    if b == 0 {
        return Err(ArithTrap::DivideByZero);
    }
    settle(kind, a / b)
}

// `%`, which traps where `/` does (C++14 5.6/4).
fn remainder(kind: IntKind, a: i128, b: i128) -> Result<i128, ArithTrap>
    requires left { InRange kind a }
    requires right { InRange kind b }
    ensures value { result ≡ apply_of BinOp.Rem kind a b }
    ensures range { IfOk result (λ v. InRange kind v) }
{
    match quotient(kind, a, b) {
        Ok(_) => Ok(a % b),
        Err(trap) => Err(trap),
    }
}

// `<<`: in a signed kind of a number that is not negative, to a value that the unsigned kind of its width has (C++14 5.8/2).
fn shift_left(kind: IntKind, a: i128, count: i128) -> Result<i128, ArithTrap>
    requires left { InRange kind a }
    ensures value { result ≡ apply_of BinOp.Shl kind a count }
    ensures range { IfOk result (λ v. InRange kind v) }
{
    if !counts(kind, count) {
        return Err(ArithTrap::ShiftRange);
    }
    if a < 0 {
        return Err(ArithTrap::Overflow);
    }
    let value = a << count;
    if kind.is_signed() && value >= kind.modulus() {
        return Err(ArithTrap::Overflow);
    }
    Ok(reduce(kind, value))
}

// `>>`, which rounds down (C++14 5.8/3).
fn shift_right(kind: IntKind, a: i128, count: i128) -> Result<i128, ArithTrap>
    requires left { InRange kind a }
    ensures value { result ≡ apply_of BinOp.Shr kind a count }
    ensures range { IfOk result (λ v. InRange kind v) }
{
    if counts(kind, count) {
        Ok(a >> count)
    } else {
        Err(ArithTrap::ShiftRange)
    }
}

// Whether a shift of the kind may have this count.
fn counts(kind: IntKind, count: i128) -> bool
    ensures { result ≡ is_count kind count }
{
    0 <= count && count < kind.width() as i128
}
