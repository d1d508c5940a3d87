//! Laws of operators on one operand, of increments and of `[]`. A function here does nothing: its clause is the law.

ghost use Rattle.elab_laws.specs.Unary.{
  Addresses,
  Indirection,
  Postfix,
  Prefix,
  Promotions,
  Subscripts,
};

/// `+`, `-` and `~` give a number of the promoted type.
pub fn promotions()
    ensures { Promotions }
{}

/// `*` gives an lvalue of the type that a pointer points to.
pub fn indirection()
    ensures { Indirection }
{}

/// `&` gives a pointer to the type of an lvalue.
pub fn addresses()
    ensures { Addresses }
{}

/// `++` and `--` before an operand give the operand.
pub fn prefix()
    ensures { Prefix }
{}

/// Behind it they give its old value.
pub fn postfix()
    ensures { Postfix }
{}

/// `x[y]` is `*(x + y)`.
pub fn subscripts()
    ensures { Subscripts }
{}
