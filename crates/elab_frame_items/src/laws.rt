//! Laws of the items of frames. A function here does nothing: its clauses are the laws.

ghost use Rattle.elab_frame_items.specs.Frames.{LambdasWhole, DefaultsGrow, FramesGrow, FramesShown};
ghost use Rattle.elab_frame_items.specs.Items.{InitialsWhole, ClassObjectsWhole, ValuesWhole, WordsWhole};

/// What is made of operands adds whole items alone.
pub fn objects()
    ensures initials { InitialsWhole }
    ensures objects { ClassObjectsWhole }
    ensures values { ValuesWhole }
    ensures words { WordsWhole }
{}

/// Whole items stay whole: behind lambdas, in bodies that are made, and in what the unit shows.
pub fn frames()
    ensures lambdas { LambdasWhole }
    ensures grow { FramesGrow }
    ensures defaults { DefaultsGrow }
    ensures shown { FramesShown }
{}
