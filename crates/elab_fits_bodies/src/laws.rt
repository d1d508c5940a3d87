//! Laws of bodies. A function here does nothing: its clauses are the laws.

ghost use Rattle.elab_fits_bodies.specs.Bodies.{FunctionBodiesFit, ConstructorBodiesFit, DestructorBodiesFit, LambdaBodiesFit};
ghost use Rattle.elab_fits_bodies.specs.Built.{NothingsBuild, PartsBuild};
ghost use Rattle.elab_fits_bodies.specs.Copied.{SourcesStand, CopiesOfPartsBuild, PartsCopied};
ghost use Rattle.elab_fits_bodies.specs.Functions.{EndsServe, FunctionsFit};
ghost use Rattle.elab_fits_bodies.specs.Implied.{DefaultsImplied, CopiesImplied, DestructorsImplied};
ghost use Rattle.elab_fits_bodies.specs.Parts.{OwnPartsStand, OwnBasesStand, PartsServe, PointersServe, ConstructorsFit, BasesDeferred, MembersDeferred, DestructorsFit};

/// Bodies of functions and of lambdas.
pub fn functions()
    ensures ends { EndsServe }
    ensures bodies { FunctionsFit }
{}

/// The parts of the object at hand.
pub fn parts()
    ensures members { OwnPartsStand }
    ensures bases { OwnBasesStand }
    ensures initialised { PartsServe }
    ensures pointers { PointersServe }
{}

/// Bodies of constructors and destructors.
pub fn members()
    ensures constructors { ConstructorsFit }
    ensures bases { BasesDeferred }
    ensures members { MembersDeferred }
    ensures destructors { DestructorsFit }
{}

/// What initialises the parts of an object under construction.
pub fn built()
    ensures nothing { NothingsBuild }
    ensures parts { PartsBuild }
{}

/// Implicit copies.
pub fn copied()
    ensures sources { SourcesStand }
    ensures parts { CopiesOfPartsBuild }
    ensures objects { PartsCopied }
{}

/// Bodies of implicit members.
pub fn implied()
    ensures defaults { DefaultsImplied }
    ensures copies { CopiesImplied }
    ensures destructors { DestructorsImplied }
{}

/// Bodies that are written, given what their statements give.
pub fn bodies()
    ensures functions { FunctionBodiesFit }
    ensures constructors { ConstructorBodiesFit }
    ensures destructors { DestructorBodiesFit }
    ensures lambdas { LambdaBodiesFit }
{}
