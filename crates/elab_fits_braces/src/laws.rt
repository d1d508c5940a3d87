//! Laws of what braces initialise. A function here does nothing: its clauses are the laws.

ghost use Rattle.elab_fits_braces.specs.Strings.{StringsBuild};
ghost use Rattle.elab_fits_braces.specs.Moving.{MovedFit, DefaultsBuild, DefaultsQualified, ObjectsAreThis, OwnIsThis};
ghost use Rattle.elab_fits_braces.specs.Qualified.{QualifiedBuild};
ghost use Rattle.elab_fits_braces.specs.Defaults.{DefaultsStay};

/// An array of characters, by a string.
pub fn strings()
    ensures strings { StringsBuild }
{}

/// A member, by its own initialiser.
pub fn defaults()
    ensures moved { MovedFit }
    ensures defaults { DefaultsBuild }
    ensures stay { DefaultsStay }
{}

/// An object with more qualifiers.
pub fn qualified()
    ensures qualified { QualifiedBuild }
    ensures defaults { DefaultsQualified }
{}

/// The pointer `this`, where such an initialiser stands.
pub fn pointers()
    ensures objects { ObjectsAreThis }
    ensures own { OwnIsThis }
{}
