//! What stands below this crate, passed on: a crate above it lists this crate alone.

pub use cpp_types::classes::record_at;
pub use cpp_types::comparison::better;
pub use cpp_types::conversions::rank;
pub use cpp_types::copyability::{held_class, is_name, trivially_copyable};
pub use cpp_types::{
    At, Cat, ClassRec, FnTy, FuncRec, MemberRec, Safety, Shape, Step, Ty, conversion_between, copy,
    copy_function, equal_kinds, equal_shapes, equal_types, is_in_order, same, same_function, spell,
};
pub use tx_ints::IntKind;
