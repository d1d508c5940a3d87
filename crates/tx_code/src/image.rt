//! Images: linked programs.
ghost use Rattle.std.specs.Prelude.{◌≡◌, ◌<◌, true, length, map};
ghost use Rattle.tx_code.specs.Images.{image_func_view, image_class_view, cells_fit, size_fits, is_main, slots_fit, bases_end};

use crate::linked::{ImageClass, ImageFunc};
use tx_events::GlobalCell;

/// A linked program. In its instructions and rows a function, class or type is its index in the list here, a global is
/// its offset from address 65,536, and 4,294,967,295 stands for what the objects do not have.
#[derive(Drop)]
pub struct Image {
    /// The spellings of the types that instructions and rows name, ascending by bytes and distinct.
    pub types: Vec<Vec<u8>>,
    pub funcs: Vec<ImageFunc>,
    pub classes: Vec<ImageClass>,
    /// The first bytes of the globals that are not zero.
    pub globals: Vec<GlobalCell>,
    /// Of the globals, in bytes.
    pub size: u32,
    /// The function that thread 0 starts in.
    pub main: u32,
    // Cells are numbers of 1, 2, 4 or 8 bytes at a multiple of their size, within the globals and without an overlap.
    pub ghost cells: { cells_fit size globals.items ≡ true },
    pub ghost whole: { size_fits size ≡ true },
    pub ghost few: { length funcs.items < 4294967295 },
    pub ghost starts: { is_main (map image_func_view funcs.items) main ≡ true },
    pub ghost slots: { slots_fit (length funcs.items) (map image_class_view classes.items) ≡ true },
    // Bases are classes of the list, and no chain of bases is a circle.
    pub ghost bases: { bases_end (map image_class_view classes.items) ≡ true },
}
