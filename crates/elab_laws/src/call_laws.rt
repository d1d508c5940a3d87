//! The law of calls. A function here does nothing: its clause is the law.

ghost use Rattle.elab_laws.specs.Calling.{Calls};

/// A call gives what the result of a function says: an lvalue exactly for a reference; and that function is the one that
/// overload resolution finds.
pub fn calls()
    ensures { Calls }
{}
