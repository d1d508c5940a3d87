//! What stands below this crate, passed on: a crate above it lists this crate alone.

pub use cpp_layout::below::{
    At, Cat, ClassRec, FnTy, FuncRec, MemberRec, Safety, Shape, Step, Ty, conversion_between, copy,
    copy_function, equal_kinds, equal_shapes, equal_types, held_class, is_in_order, is_name,
    record_at, same, spell,
};
pub use cpp_layout::extents::{GREATEST_SIZE, int_size};
pub use cpp_layout::frames::GREATEST_FRAME;
pub use cpp_layout::{SizeAlign, fn_addr, frame, has_pointer, offset, size_align, vtable_addr};
pub use tx_events::{
    BlockKind, EXCEPTION_SIZE, End, Event, GLOBALS_LIMIT, GLOBALS_START, GlobalCell, Reply,
    STACK_SIZE, STACK_STRIDE, STACKS_START, THREAD_LIMIT, Trap,
};
pub use tx_ints::{
    ArithTrap, BinOp, IntKind, apply, convert, promote, usual, value_of_word, word_of,
};
