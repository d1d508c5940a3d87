//! Objects worked out by hand, which the definitions have to lead to. A function here does nothing.
ghost use Rattle.std.specs.Prelude.{◌≡◌, codes, map, [], ◌∷◌, true, false};
ghost use Rattle.link_faults.specs.Faults.{is_twice, is_different, is_undefined, is_unsafe, has_main, size_of_globals};
ghost use Rattle.link_faults.specs.Examples.{caller, definer, inline_definer, other_inline_definer, slot_user, int_class, long_class, global_definer, other_global};

/// A function that is defined once, twice, or not at all.
pub fn functions()
    ensures once { map (is_twice (caller ∷ definer ∷ [])) (codes "g()" ∷ codes "main()" ∷ []) ≡ false ∷ false ∷ [] }
    ensures defined { map (is_undefined (caller ∷ definer ∷ [])) (codes "g()" ∷ codes "main()" ∷ []) ≡ false ∷ false ∷ [] }
    ensures undefined { map (is_undefined (caller ∷ [])) (codes "g()" ∷ codes "main()" ∷ []) ≡ true ∷ false ∷ [] }
    ensures twice { map (is_twice (caller ∷ caller ∷ definer ∷ [])) (codes "g()" ∷ codes "main()" ∷ []) ≡ false ∷ true ∷ [] }
    ensures inline { is_twice (inline_definer ∷ inline_definer ∷ []) (codes "g()") ≡ false }
    ensures beside_inline { is_twice (inline_definer ∷ definer ∷ []) (codes "g()") ≡ true }
{}

/// A function that is wanted safe.
pub fn safe_functions()
    ensures wanted { map (is_unsafe (caller ∷ definer ∷ [])) (codes "g()" ∷ codes "main()" ∷ []) ≡ true ∷ false ∷ [] }
    ensures first_kept { is_unsafe (caller ∷ inline_definer ∷ definer ∷ []) (codes "g()") ≡ false }
{}

/// Texts, types and classes that differ.
pub fn differences()
    ensures texts { is_different (inline_definer ∷ other_inline_definer ∷ []) (codes "g()") ≡ true }
    ensures same_texts { is_different (inline_definer ∷ inline_definer ∷ []) (codes "g()") ≡ false }
    ensures classes { map (is_different (int_class ∷ long_class ∷ [])) (codes "S" ∷ codes "a" ∷ []) ≡ true ∷ false ∷ [] }
    ensures same_classes { is_different (int_class ∷ int_class ∷ []) (codes "S") ≡ false }
    ensures types { is_different (global_definer ∷ other_global ∷ []) (codes "x") ≡ true }
{}

/// A slot that names what its object has no entry of, `main`, and the size of globals.
pub fn the_rest()
    ensures slots { map (is_undefined (slot_user ∷ definer ∷ [])) (codes "g()" ∷ codes "S" ∷ []) ≡ true ∷ false ∷ [] }
    ensures main { has_main (definer ∷ caller ∷ []) ≡ true }
    ensures no_main { has_main (definer ∷ []) ≡ false }
    ensures nothing { has_main [] ≡ false }
    ensures size { size_of_globals (global_definer ∷ other_global ∷ []) ≡ 16 }
{}
