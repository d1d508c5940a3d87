//! Laws of tables. A function here does nothing: its clause is the law.
ghost use Rattle.std.specs.Prelude.{◌≡◌, ◌<◌, ◌+◌, ℕ, List, Option, Some, [], map, length, slice_get};
ghost use Rattle.std.specs.List.{All, flat_map};
ghost use Rattle.tx_code.specs.Objects.{ObjectView};
ghost use Rattle.tx_code.specs.Linked.{class_number, func_number, global_defs, global_number, kept_classes, kept_funcs, name_in};
ghost use Rattle.link_faults.specs.Ranks.{Known, names_of, rank_of};
ghost use Rattle.link_tables.specs.Symbols.{TellsDefs};
ghost use Rattle.link_tables.specs.Homes.{homes, start_of};
ghost use Rattle.link_tables.specs.Found.{class_of_row, class_symbol_of, classes_in, func_of_row, func_symbol_of, funcs_in, global_of_row, globals_in, kept_class_rows, kept_rows, numbered, placed};
ghost use Rattle.link_tables.specs.Renamed.{told};

/// What is kept by ranks is what is kept by names, in the same order.
pub fn kept_by_name()
    ensures funcs { (all : List (List ℕ)) (os : List ObjectView) → All (Known all) os → map func_of_row (kept_rows [] (flat_map (funcs_in all) (homes 0 0 os))) ≡ kept_funcs os }
    ensures classes { (all : List (List ℕ)) (os : List ObjectView) → All (Known all) os → map class_of_row (kept_class_rows [] (flat_map (classes_in all) (homes 0 0 os))) ≡ kept_classes os }
    ensures globals { (all : List (List ℕ)) (os : List ObjectView) → map global_of_row (flat_map (globals_in all) (homes 0 0 os)) ≡ global_defs 0 os }
{}

/// A table of definitions by places tells what each name of each object stands for.
pub fn numbers_by_name()
    ensures funcs { (all : List (List ℕ)) (os : List ObjectView) (table : List (Option ℕ)) → All (Known all) os → TellsDefs (map (rank_of all) (flat_map names_of os)) (numbered 0 (map func_symbol_of (kept_rows [] (flat_map (funcs_in all) (homes 0 0 os))))) table
        → (at n : ℕ) (o : ObjectView) → slice_get os at ≡ Some o → n < length o.names → told table (start_of os at + n) ≡ func_number os at o n }
    ensures classes { (all : List (List ℕ)) (os : List ObjectView) (table : List (Option ℕ)) → All (Known all) os → TellsDefs (map (rank_of all) (flat_map names_of os)) (numbered 0 (map class_symbol_of (kept_class_rows [] (flat_map (classes_in all) (homes 0 0 os))))) table
        → (at n : ℕ) (o : ObjectView) → slice_get os at ≡ Some o → n < length o.names → told table (start_of os at + n) ≡ class_number os o n }
    ensures globals { (all : List (List ℕ)) (os : List ObjectView) (table : List (Option ℕ)) → All (Known all) os → TellsDefs (map (rank_of all) (flat_map names_of os)) (placed 0 (flat_map (globals_in all) (homes 0 0 os))) table
        → (at n : ℕ) (o : ObjectView) → slice_get os at ≡ Some o → n < length o.names → told table (start_of os at + n) ≡ global_number os at o n }
{}
