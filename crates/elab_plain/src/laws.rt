//! Laws of what elaboration declares. A function here does nothing: its clauses are the laws.

ghost use Rattle.elab_plain.specs.Plain.{ProgramsDeclarePlainly};

/// The declarations in the bodies of a program.
pub fn programs()
    ensures { ProgramsDeclarePlainly }
{}
