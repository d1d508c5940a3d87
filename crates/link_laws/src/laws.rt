//! Laws of linked images. A function here does nothing: its clause is the law.
ghost use Rattle.std.specs.Prelude.{◌≡◌, ◌<◌, ◌≤◌, true, List, length};
ghost use Rattle.std.specs.List.{All, flat_map, list_any};
ghost use Rattle.tx_code.specs.Objects.{ObjectView};
ghost use Rattle.tx_code.specs.WellFormed.{IsObject};
ghost use Rattle.tx_code.specs.Images.{ImageView, bases_end, cells_fit, is_main, size_fits, slots_fit};
ghost use Rattle.tx_code.specs.Linked.{ImageOf, is_main_def, kept_funcs};
ghost use Rattle.tx_code.specs.Sound.{Sound, SoundObject};
ghost use Rattle.link_faults.specs.Answers.{Links, NoneOf};
ghost use Rattle.link_faults.specs.Faults.{has_main, is_different, is_twice};
ghost use Rattle.link_faults.specs.Ranks.{names_of};
ghost use Rattle.tx_events.specs.declared.TheConstants.{GLOBALS_LIMIT};

/// The globals of a linked image lie apart, and it has fewer functions than its objects have names.
pub fn linked_globals()
    ensures cells { (os : List ObjectView) (i : ImageView) → All IsObject os → length (flat_map names_of os) < 4294967295 → ImageOf os i → cells_fit i.size i.globals ≡ true }
    ensures size { (os : List ObjectView) (i : ImageView) → ImageOf os i → i.size ≤ GLOBALS_LIMIT → size_fits i.size ≡ true }
{}

/// The functions and slots of a linked image.
pub fn linked_functions()
    ensures few { (os : List ObjectView) (i : ImageView) → All IsObject os → length (flat_map names_of os) < 4294967295 → ImageOf os i → length i.funcs < 4294967295 }
    ensures starts { (os : List ObjectView) (i : ImageView) → ImageOf os i → is_main i.funcs i.main ≡ true }
    ensures slots { (os : List ObjectView) (i : ImageView) → ImageOf os i → slots_fit (length i.funcs) i.classes ≡ true }
{}

/// Objects without a symbol defined twice that define an external `main()` have one among the kept functions.
pub fn main_is_kept()
    ensures { (os : List ObjectView) → NoneOf (is_twice os) → has_main os ≡ true → list_any is_main_def (kept_funcs os) ≡ true }
{}

/// No chain of bases of a linked image is a circle, where no two objects have different classes of one name.
pub fn linked_bases()
    ensures { (os : List ObjectView) (i : ImageView) → All IsObject os → NoneOf (is_different os) → ImageOf os i → bases_end i.classes ≡ true }
{}

/// Sound objects that can be linked have a sound image.
pub fn linked_soundness()
    ensures { (os : List ObjectView) (i : ImageView) → All IsObject os → Links os → All SoundObject os → ImageOf os i → Sound i }
{}
