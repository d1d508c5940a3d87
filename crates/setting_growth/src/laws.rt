//! Laws of settings that grow. A function here does nothing: its clauses are the laws.

ghost use Rattle.setting_growth.specs.Growth.{GrowthStays, GrowthGoesOn, OrderHolds, FitsStill, ZeroesStill, DestructionsStill, ItemsStill, BodyStill};

/// A setting has grown where nothing was added, and where it has grown twice; and what classes in order hold was complete before.
pub fn growth()
    ensures stays { GrowthStays }
    ensures goes_on { GrowthGoesOn }
    ensures order { OrderHolds }
{}

/// Trees fit still, and so do zeros, destructions and items of frames.
pub fn fitting()
    ensures trees { FitsStill }
    ensures zeros { ZeroesStill }
    ensures destructions { DestructionsStill }
    ensures items { ItemsStill }
{}

/// Well-formed bodies are well-formed still.
pub fn bodies()
    ensures { BodyStill }
{}
