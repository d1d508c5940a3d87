// Parts of objects.

use cpp_types::Ty;

/// A part of an object: its offset in bytes and its type.
#[derive(Drop)]
pub struct ObjectPart {
    pub offset: u32,
    pub ty: Ty,
}
