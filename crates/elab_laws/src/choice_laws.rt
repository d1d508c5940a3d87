//! Laws of assignments, `a, b` and `? :`. A function here does nothing: its clause is the law.

ghost use Rattle.elab_laws.specs.Assigning.{Assignments, Commas, Compounds, Conditionals};

/// An assignment gives its left operand, which may be changed, and to whose type the right one converts. A compound one has
/// a number on its right.
pub fn assignments()
    ensures assignments { Assignments }
    ensures compounds { Compounds }
{}

/// `a, b` has the type and category of `b`.
pub fn commas()
    ensures { Commas }
{}

/// `? :` has the type and category that its second and third operand say.
pub fn conditionals()
    ensures { Conditionals }
{}
