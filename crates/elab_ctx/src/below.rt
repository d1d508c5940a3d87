//! What stands below this crate, passed on: a crate above it lists this crate alone.

pub use cpp_ast::{At as CppAstAt, Node, NodeId, NodeKind, Nodes, Unit};
pub use cpp_lex::{Token, Tokens, int_type as cpp_lex_int_type};
pub use cpp_names::{Entity, EntityKind, NameFault, Scopes};
pub use cpp_tree::below::{
    At, BinOp, BlockKind, Cat, ClassRec, EXCEPTION_SIZE, FnTy, GREATEST_FRAME, GREATEST_SIZE,
    IntKind, MemberRec, Shape, SizeAlign, Step, Ty, apply, conversion_between, convert, copy,
    copy_function, equal_kinds, equal_shapes, equal_types, has_pointer, held_class, promote, same,
    size_align, usual, value_of_word, word_of,
};
pub use cpp_tree::{
    Builtin, CellKind, ClassDef, ElabFault, FuncKind, IllRule, InitCell, LimitKind, Linkage,
    OverrideRule, Program, SlotRec, TFunc, TGlobal, TKind, TNode, TNodeId, TParam, UnitTree,
    add_binary, add_leaf, add_node, add_unary,
};
