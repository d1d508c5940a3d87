//! Where things lie in memory: sizes, offsets and addresses.
#![tactic(auto)]

pub mod addresses;
mod alignments;
pub mod below;
pub mod cursor;
pub mod extents;
pub mod frames;
pub mod laws;
mod measures;
pub mod objects;
pub mod pointers;

pub use addresses::{fn_addr, vtable_addr};
pub use extents::SizeAlign;
pub use frames::{FrameFault, FrameRec, frame};
pub use objects::{TooLarge, offset, size_align};
pub use pointers::has_pointer;
