//! Laws of marks on what initialises. The function does nothing: its clause is the law.

ghost use Rattle.seen_marks.specs.Marks.{BodiesAreUnmarked};

/// What the check finds nothing in has no marked initialiser where it counts.
pub fn bodies()
    ensures unmarked { BodiesAreUnmarked }
{}
