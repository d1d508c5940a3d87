// What units leave to those behind them.

ghost use Rattle.std.specs.Prelude.{◌≡◌, true, map};
ghost use Rattle.elab_entry.specs.cpp_types.Class.{classes_of};
ghost use Rattle.elab_entry.specs.cpp_types.Order.{all_consistent};
ghost use Rattle.elab_entry.specs.elab_ctx.Layouts.{completed_in, layout_of, layouts_of};

use class_layouts::ClassLayout;
use elab_entry::below::{ClassRec, SlotRec, Traits};

/// The classes of all units so far.
#[derive(Drop)]
pub struct Classes {
    pub classes: Vec<ClassRec>,
    /// How many of them are complete.
    pub completed: u32,
    /// For each how its objects are laid out.
    pub layouts: Vec<ClassLayout>,
    pub traits: Vec<Traits>,
    pub slots: Vec<Vec<SlotRec>>,
    /// They are in order, so that their objects have sizes.
    pub ghost in_order: { all_consistent (classes_of classes.items) ≡ true },
    pub ghost counted: { completed ≡ completed_in (classes_of classes.items) },
    pub ghost laid_out: { map layout_of layouts.items ≡ layouts_of (classes_of classes.items) },
}
