// Worked layouts.

ghost use Rattle.std.specs.Prelude.{◌∷◌, []};
ghost use Rattle.cpp_layout.specs.Examples.{Takes};

/// What the classes of the worked layouts take, in bytes.
pub fn worked_layouts()
    ensures aligned { Takes 0 24 8 (0 ∷ 8 ∷ 16 ∷ []) }
    ensures with_pointer { Takes 1 16 8 (8 ∷ []) }
    ensures empty { Takes 2 1 1 [] }
    ensures with_array { Takes 3 6 2 (0 ∷ 4 ∷ []) }
    ensures base { Takes 4 8 8 (0 ∷ []) }
    ensures derived { Takes 5 16 8 (8 ∷ []) }
    ensures with_classes { Takes 6 56 8 (0 ∷ 48 ∷ []) }
    ensures one_pointer { Takes 7 24 8 (16 ∷ []) }
{}
