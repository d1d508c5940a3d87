//! Laws of parts. A function here does nothing: its clause is the law.
ghost use Rattle.std.specs.Prelude.{◌≡◌, ◌<◌, ◌+◌, ℕ, Bool, List, Option, Some, [], map, length, slice_get, true};
ghost use Rattle.std.specs.List.{All, flat_map, position_from};
ghost use Rattle.tx_code.specs.Objects.{ObjectView};
ghost use Rattle.tx_code.specs.WellFormed.{ascends, bytes_lt};
ghost use Rattle.tx_code.specs.Linked.{global_defs, image_cells, image_class, image_func, is_main_def, kept_classes, kept_funcs, type_number, types_named};
ghost use Rattle.link_faults.specs.Ranks.{Known, names_of, rank_of};
ghost use Rattle.link_faults.specs.Unlisted.{AreMarks};
ghost use Rattle.link_tables.specs.declared.renamed.Numbers.{Numbers};
ghost use Rattle.link_tables.specs.Homes.{homes};
ghost use Rattle.link_tables.specs.Found.{classes_in, funcs_in, globals_in, kept_class_rows, kept_rows};
ghost use Rattle.link_parts.specs.Parts.{cells_told, class_told, func_told, is_main_row};
ghost use Rattle.link_parts.specs.Types.{marked, number_in, ranks_in_rows};
ghost use Rattle.link_parts.specs.Told.{AreTypes, TellNames, TellsEach};

/// Parts by tables that tell what names stand for are those of the image.
pub fn parts_by_name()
    ensures funcs { (all : List (List ℕ)) (os : List ObjectView) (types : List (List ℕ)) (x : Numbers) → All (Known all) os → TellNames os types x → map (func_told x) (kept_rows [] (flat_map (funcs_in all) (homes 0 0 os))) ≡ map (image_func os types) (kept_funcs os) }
    ensures classes { (all : List (List ℕ)) (os : List ObjectView) (types : List (List ℕ)) (x : Numbers) → All (Known all) os → TellNames os types x → map (class_told x) (kept_class_rows [] (flat_map (classes_in all) (homes 0 0 os))) ≡ map (image_class os) (kept_classes os) }
    ensures cells { (all : List (List ℕ)) (os : List ObjectView) (types : List (List ℕ)) (x : Numbers) → All (Known all) os → TellNames os types x → cells_told x 0 (flat_map (globals_in all) (homes 0 0 os)) ≡ image_cells os 0 (global_defs 0 os) }
    ensures main { (all : List (List ℕ)) (os : List ObjectView) → All (Known all) os → position_from is_main_row 0 (kept_rows [] (flat_map (funcs_in all) (homes 0 0 os))) ≡ position_from is_main_def 0 (kept_funcs os) }
{}

/// Names whose ranks are marked are the types that the kept bodies name, and a table of positions tells their numbers.
pub fn types_by_name()
    ensures types { (all : List (List ℕ)) (os : List ObjectView) (marks : List Bool) → ascends bytes_lt all ≡ true → All (Known all) os → length marks ≡ length all → AreMarks (ranks_in_rows (map (rank_of all) (flat_map names_of os)) (kept_rows [] (flat_map (funcs_in all) (homes 0 0 os)))) marks → AreTypes (types_named os) (marked all marks) }
    ensures numbers { (os : List ObjectView) (types : List (List ℕ)) → TellsEach os (λ at. type_number types) (map (number_in types) (flat_map names_of os)) }
{}
