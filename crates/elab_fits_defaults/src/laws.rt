//! Laws of initialisers that are kept for members. A function here does nothing: its clauses are the laws.

ghost use Rattle.elab_fits_defaults.specs.Kept.{CopiesKept, StringsKept, DefaultsMade};
ghost use Rattle.elab_fits_defaults.specs.Own.{OwnDefaultsBuild};

/// Initialisers of members.
pub fn defaults()
    ensures copies { CopiesKept }
    ensures strings { StringsKept }
    ensures made { DefaultsMade }
{}

/// The own initialiser of a member, in a constructor.
pub fn own()
    ensures own { OwnDefaultsBuild }
{}
