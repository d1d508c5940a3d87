//! Laws of literals, parentheses, `this` and lambdas. A function here does nothing: its clauses are the laws.

ghost use Rattle.elab_laws.specs.Primary.{
  Booleans,
  CapturedThises,
  Characters,
  Integers,
  Lambdas,
  Parentheses,
  Pointers,
  Texts,
  Thises,
};

/// Each literal has the type that its form says: an integer the first of its row, `char`, `bool`, `std::nullptr_t`; a
/// string is an lvalue, an array of `const char`.
pub fn literals()
    ensures integers { Integers }
    ensures characters { Characters }
    ensures booleans { Booleans }
    ensures pointers { Pointers }
    ensures texts { Texts }
{}

/// Parentheses change nothing.
pub fn parentheses()
    ensures { Parentheses }
{}

/// `this` is a pointer to the object at hand; in a lambda, the pointer that it captured.
pub fn this_pointer()
    ensures this_pointer { Thises }
    ensures captured_this { CapturedThises }
{}

/// A lambda is a prvalue of its class.
pub fn lambdas()
    ensures { Lambdas }
{}
