//! A worked unit.
ghost use Rattle.std.specs.Prelude.{◌≡◌, true, false, [], ◌∷◌, map, codes};
ghost use Rattle.unit_entries.specs.Records.{FuncRecord};
ghost use Rattle.unit_entries.specs.Examples.{entries};

/// `int main() { atomic_commit { g(); } }`: `main` is defined and has a frame, `g` is called and so wanted safe, and what is
/// declared alone has no entry.
pub fn worked_entries()
    ensures symbols { map (λ (r : FuncRecord). r.entry.symbol) entries ≡ codes "main()" ∷ codes "g()" ∷ [] }
    ensures types { map (λ (r : FuncRecord). r.entry.ty) entries ≡ codes "int()" ∷ codes "void()" ∷ [] }
    ensures defined { map (λ (r : FuncRecord). r.entry.defined) entries ≡ true ∷ false ∷ [] }
    ensures wanted { map (λ (r : FuncRecord). r.entry.wanted_safe) entries ≡ false ∷ true ∷ [] }
    ensures frames { map (λ (r : FuncRecord). r.frame) entries ≡ 16 ∷ 0 ∷ [] }
{}
