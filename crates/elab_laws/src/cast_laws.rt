//! Laws of casts, `sizeof` and `throw`. A function here does nothing: its clauses are the laws.

ghost use Rattle.elab_laws.specs.Casting.{
  Casts,
  FunctionalCasts,
  Rethrows,
  SizesOfExpressions,
  SizesOfTypes,
  StaticCasts,
  Throws,
};

/// What is cast to a type has that type: an lvalue exactly for a reference.
pub fn casts()
    ensures static_casts { StaticCasts }
    ensures casts { Casts }
    ensures functional_casts { FunctionalCasts }
{}

/// `sizeof` gives an `unsigned long`, and evaluates nothing.
pub fn sizes()
    ensures sizes_of_types { SizesOfTypes }
    ensures sizes_of_expressions { SizesOfExpressions }
{}

/// `throw` has no value, and throws an object of the type of the value of its operand.
pub fn throws()
    ensures throws { Throws }
    ensures rethrows { Rethrows }
{}
