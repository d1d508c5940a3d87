//! What holds of bound programs. A function here does nothing: its clause is the law.
ghost use Rattle.std.specs.Prelude.{◌≡◌, ℕ, List, Option, map, option_map};
ghost use Rattle.std.specs.Global.{Vec};
ghost use Rattle.cpp_tree.specs.Units.{SlotFunc};
ghost use Rattle.src_mean.specs.Links.{linked};
ghost use Rattle.src_bind.specs.Infos.{says};
ghost use Rattle.src_bind.specs.Numbers.{rows};
ghost use Rattle.src_bind.specs.Tables.{Given, typed, linked_of};

/// Where the table of slots has the symbols that their functions have, it is the linked program of these symbols.
pub fn links()
    ensures { (g : Given) (symbol : SlotFunc → Option (List ℕ)) → map (map symbol) (typed g).slots ≡ map (map (option_map (λ (name : Vec ℕ). name.items))) (rows g.choices.symbols.items) →
        linked_of g ≡ linked (says g.choices.safe.items) symbol g.choices.main.items (typed g) }
{}
