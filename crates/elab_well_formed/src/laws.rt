//! The laws of programs. The function does nothing: its clauses are the laws.

ghost use Rattle.elab_well_formed.specs.Programs.{ProgramsAreWellFormed, ProgramsHaveCallWords, ReadAreSources};

/// Each body of each unit of a program is well formed; sources that are read from texts are as this asks. The frame of a body begins with the words of a
/// call, of which those that are no parameters are plain pointers.
pub fn programs()
    ensures formed { ProgramsAreWellFormed }
    ensures sources { ReadAreSources }
    ensures words { ProgramsHaveCallWords }
{}
