//! Laws of the walk. The function here does nothing: its clauses are the laws.
ghost use Rattle.std.specs.Prelude.{Bool, ◌≡◌, ◌<◌, ℕ, true, Some, length};
ghost use Rattle.tx_code.specs.Objects.{BodyView};
ghost use Rattle.tx_code.specs.Shapes.{Shape, Table, Reaches};
ghost use Rattle.tx_code.specs.Sound.{Signature, SoundBody, entry};
ghost use Rattle.code_walk.specs.Walk.{Has, slot_at, walked, Two};
ghost use Rattle.code_walk.specs.Bodies.{space};
ghost use Rattle.code_walk.specs.Clean.{Clean};

/// What the walk of a body finds: each shape of a slot is one that its index is reached with, a clash means that the
/// index is given two shapes, and where nothing clashes, the slots have each shape that an index is given.
pub fn the_walk_finds_shapes()
    ensures reached { (x : Table) (g : Signature) (b : BodyView) → 0 < length b.code → (i : ℕ) (s : Shape) → (slot_at (walked (space x g b)) i).shape ≡ Some s → Reaches x g.gives b (entry g) i s }
    ensures clashes { (x : Table) (g : Signature) (b : BodyView) → 0 < length b.code → (i : ℕ) → (slot_at (walked (space x g b)) i).clash ≡ true → Two (space x g b) i }
    ensures all { (x : Table) (g : Signature) (b : BodyView) → 0 < length b.code → ((i : ℕ) → i < length b.code → (slot_at (walked (space x g b)) i).clash ≡ true → ⊥) → (i : ℕ) (s : Shape) → Has (space x g b) i s → (slot_at (walked (space x g b)) i).shape ≡ Some s }
{}

/// A body is sound exactly where the walk finds no broken clause in it.
pub fn a_clean_body_is_sound()
    ensures sound { (x : Table) (g : Signature) (safe : Bool) (b : BodyView) → Clean x g safe b → SoundBody x g safe b }
    ensures clean { (x : Table) (g : Signature) (safe : Bool) (b : BodyView) → SoundBody x g safe b → Clean x g safe b }
{}
