// How the objects of a class are laid out.

ghost use Rattle.std.specs.Prelude.{◌≤◌};
ghost use Rattle.cpp_tree.specs.cpp_layout.declared.extents.TheConstants.{GREATEST_SIZE};

use cpp_tree::below::SizeAlign;

/// How the objects of a class are laid out (C++14 9.2 p13), kept once the class is complete.
#[derive(Drop)]
pub struct ClassLayout {
    /// Whether the class is complete, and its objects are no larger than the greatest; else the rest says nothing.
    pub is_known: bool,
    pub extent: SizeAlign,
    /// The offset of each member, in bytes.
    pub offsets: Vec<u32>,
    pub ghost within: { extent.size ≤ GREATEST_SIZE },
    pub ghost low: { 1 ≤ extent.align },
    pub ghost high: { extent.align ≤ 8 },
}
