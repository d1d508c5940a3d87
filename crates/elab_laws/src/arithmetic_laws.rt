//! Laws of arithmetic. A function here does nothing: its clause is the law.

ghost use Rattle.elab_laws.specs.Arithmetic.{
  Bitwise,
  Differences,
  Multiplicative,
  Shifts,
  Sums,
};

/// `*`, `/` and `%` take two numbers and give one of the type of the usual arithmetic conversions.
pub fn multiplicative()
    ensures { Multiplicative }
{}

/// So do `&`, `^` and `|`.
pub fn bitwise()
    ensures { Bitwise }
{}

/// `<<` and `>>` give the type of the left operand, promoted.
pub fn shifts()
    ensures { Shifts }
{}

/// `+` gives what the usual arithmetic conversions say for numbers, and the type of the pointer where there is one.
pub fn sums()
    ensures { Sums }
{}

/// `-` does too, and the difference of two pointers to one type is a `long`.
pub fn differences()
    ensures { Differences }
{}
