//! What stands below this crate, passed on: a crate above it lists this crate alone.

pub use cpp_types::{
    At, Binding, Cat, Conversion, MemberRec, Shape, Step, Ty, copy, equal_shapes, equal_types,
};
pub use elab_conv::below::{
    BinOp, BlockKind, Builtin, Cand, Capture, CellKind, ClassDef, Closure, DefaultInit,
    EXCEPTION_SIZE, ElabFault, Entity, EntityKind, EnumRec, Env, FuncDecl, FuncKind, Functions,
    GREATEST_FRAME, GREATEST_SIZE, IllRule, InitCell, IntKind, Label, Labels, Lambda, LimitKind,
    Linkage, NameFault, Node, NodeId, NodeKind, Nodes, Operand, OverrideRule, Program, Returns,
    Scopes, SlotRec, Special, TFunc, TGlobal, TKind, TNode, TNodeId, TParam, This, Token, Tokens,
    Traits, TypeNames, Unit, UnitTree, Variable, Work, add_binary, add_item, add_leaf, add_node,
    add_unary, class_at, completion, convert, cpp_lex_int_type, extent, function_at, has_pointer,
    kids_at, measured, node_at, promote, size_of, traits_of_class, usual, value_of_word, word_of,
};
pub use elab_conv::types::{kind_of, pointer_to, unqualified_type};
pub use elab_conv::{converted, stepped, stored, valued};
