//! Laws of objects' bytes. A function here does nothing: its clause is the law.
ghost use Rattle.std.specs.Prelude.{◌≡◌, ◌++◌, List, [], ℕ};
ghost use Rattle.tx_code.specs.Objects.{ObjectView};
ghost use Rattle.object_bytes.specs.Spelling.{Spells};

/// An object has one spelling.
pub fn one_spelling()
    ensures { (o : ObjectView) (a b : List ℕ) → Spells o a → Spells o b → a ≡ b }
{}

/// Bytes spell one object.
pub fn one_object()
    ensures { (bytes : List ℕ) (o p : ObjectView) → Spells o bytes → Spells p bytes → o ≡ p }
{}

/// No spelling begins another.
pub fn no_spelling_begins_another()
    ensures { (a more : List ℕ) (o p : ObjectView) → Spells o a → Spells p (a ++ more) → more ≡ [] }
{}
