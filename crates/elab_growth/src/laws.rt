//! Laws of what expressions make. A function here does nothing: its clauses are the laws.

ghost use Rattle.elab_growth.specs.Growth.{ExpressionsGrow, OperandsGrow, InitialsGrow};

/// The items of the frame and the globals that stood before an expression stand before those that are made for it.
pub fn expressions()
    ensures expressions { ExpressionsGrow }
    ensures operands { OperandsGrow }
    ensures initials { InitialsGrow }
{}
