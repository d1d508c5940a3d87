//! Laws of what gives a truth. A function here does nothing: its clause is the law.

ghost use Rattle.elab_laws.specs.Tests.{Comparisons, Logical, Negation};

/// Comparisons give a prvalue of type `bool`, of operands that may be compared.
pub fn comparisons()
    ensures { Comparisons }
{}

/// So do `&&` and `||`.
pub fn logical()
    ensures { Logical }
{}

/// And `!`.
pub fn negation()
    ensures { Negation }
{}
