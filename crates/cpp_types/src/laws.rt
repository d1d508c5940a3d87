//! Laws of the definitions that the contracts of this crate cite. The function does nothing; its contract is the law.

ghost use Rattle.cpp_types.specs.Laws.{BasesUnroll, BasesAreWhole, BaseIsEarlier};

/// In a list of classes in order a chain of bases ends, and the bases of a class are all of it.
pub fn base_laws()
    ensures unroll { BasesUnroll }
    ensures whole { BasesAreWhole }
    ensures earlier { BaseIsEarlier }
{}
