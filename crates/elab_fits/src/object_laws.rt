//! Laws of whole objects. A function here does nothing: its clauses are the laws.

ghost use Rattle.elab_fits.specs.Objects.{ReadyFrom, ZerosBuild, CopiesBuild, ResultsZeroed, ZerosAreZero, DestructionsFit, ElementsReady};

/// Zeros build objects, copies copy them scalar by scalar, and destructions are those of an object.
pub fn objects()
    ensures ready { ReadyFrom }
    ensures zeros { ZerosBuild }
    ensures copies { CopiesBuild }
    ensures results { ResultsZeroed }
    ensures are_zero { ZerosAreZero }
    ensures destructions { DestructionsFit }
    ensures elements { ElementsReady }
{}
