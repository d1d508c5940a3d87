// Names of operators.

ghost use Rattle.std.specs.Prelude.{◌≡◌};
ghost use Rattle.elab_conv.specs.tx_ints.Integers.{is_shift};
ghost use Rattle.elab_conv.specs.elab_rules.Operators.{binary_operator, compound_operator, is_comparison, is_sum};

use elab_conv::below::BinOp;

/// The operator of two operands with a name, but for `&&` and `||`.
pub fn binary_operator(name: &[u8]) -> Option<BinOp>
    ensures { result ≡ binary_operator name.now }
{
    if name == b"+".as_slice() {
        Some(BinOp::Add)
    } else if name == b"-".as_slice() {
        Some(BinOp::Sub)
    } else if name == b"*".as_slice() {
        Some(BinOp::Mul)
    } else if name == b"/".as_slice() {
        Some(BinOp::Div)
    } else if name == b"%".as_slice() {
        Some(BinOp::Rem)
    } else if name == b"<<".as_slice() {
        Some(BinOp::Shl)
    } else if name == b">>".as_slice() {
        Some(BinOp::Shr)
    } else if name == b"&".as_slice() {
        Some(BinOp::And)
    } else if name == b"^".as_slice() {
        Some(BinOp::Xor)
    } else if name == b"|".as_slice() {
        Some(BinOp::Or)
    } else if name == b"<".as_slice() {
        Some(BinOp::Lt)
    } else if name == b">".as_slice() {
        Some(BinOp::Gt)
    } else if name == b"<=".as_slice() {
        Some(BinOp::Le)
    } else if name == b">=".as_slice() {
        Some(BinOp::Ge)
    } else if name == b"==".as_slice() {
        Some(BinOp::Eq)
    } else if name == b"!=".as_slice() {
        Some(BinOp::Ne)
    } else {
        None
    }
}

/// The operator of the compound assignment with a name.
pub fn compound_operator(name: &[u8]) -> Option<BinOp>
    ensures { result ≡ compound_operator name.now }
{
    if name == b"+=".as_slice() {
        Some(BinOp::Add)
    } else if name == b"-=".as_slice() {
        Some(BinOp::Sub)
    } else if name == b"*=".as_slice() {
        Some(BinOp::Mul)
    } else if name == b"/=".as_slice() {
        Some(BinOp::Div)
    } else if name == b"%=".as_slice() {
        Some(BinOp::Rem)
    } else if name == b"<<=".as_slice() {
        Some(BinOp::Shl)
    } else if name == b">>=".as_slice() {
        Some(BinOp::Shr)
    } else if name == b"&=".as_slice() {
        Some(BinOp::And)
    } else if name == b"^=".as_slice() {
        Some(BinOp::Xor)
    } else if name == b"|=".as_slice() {
        Some(BinOp::Or)
    } else {
        None
    }
}

pub(crate) fn is_comparison(op: BinOp) -> bool
    ensures { result ≡ is_comparison op }
{
    match op {
        BinOp::Lt | BinOp::Gt | BinOp::Le | BinOp::Ge | BinOp::Eq | BinOp::Ne => true,
        BinOp::Add | BinOp::Sub | BinOp::Mul | BinOp::Div | BinOp::Rem => false,
        BinOp::Shl | BinOp::Shr | BinOp::And | BinOp::Xor | BinOp::Or => false,
    }
}

pub(crate) fn is_sum(op: BinOp) -> bool
    ensures { result ≡ is_sum op }
{
    match op {
        BinOp::Add | BinOp::Sub => true,
        BinOp::Lt | BinOp::Gt | BinOp::Le | BinOp::Ge | BinOp::Eq | BinOp::Ne => false,
        BinOp::Mul | BinOp::Div | BinOp::Rem => false,
        BinOp::Shl | BinOp::Shr | BinOp::And | BinOp::Xor | BinOp::Or => false,
    }
}

pub(crate) fn is_shift(op: BinOp) -> bool
    ensures { result ≡ is_shift op }
{
    match op {
        BinOp::Shl | BinOp::Shr => true,
        BinOp::Add | BinOp::Sub | BinOp::Mul | BinOp::Div | BinOp::Rem => false,
        BinOp::Lt | BinOp::Gt | BinOp::Le | BinOp::Ge | BinOp::Eq | BinOp::Ne => false,
        BinOp::And | BinOp::Xor | BinOp::Or => false,
    }
}
