//! What stands below this crate, passed on: a crate above it lists this crate alone.

pub use elab_rules::below::{
    Arg, At, BinOp, BlockKind, Builtin, Cand, Capture, Cat, CellKind, ClassDef, ClassLayout,
    ClassRec, Closure, CppAstAt, DefaultInit, EXCEPTION_SIZE, ElabFault, Entity, EntityKind,
    EnumRec, Env, FnTy, FuncDecl, FuncKind, Functions, GREATEST_FRAME, GREATEST_SIZE, IllRule,
    InitCell, IntKind, Label, Labels, Lambda, LimitKind, Linkage, MOST_PARAMETERS, MemberRec,
    NameFault, NoBest, Node, NodeId, NodeKind, Nodes, Operand, OverrideRule, Program, Returns,
    Scopes, Shape, SizeAlign, SlotRec, Special, TFunc, TGlobal, TKind, TNode, TNodeId, TParam,
    This, Token, Tokens, Traits, Ty, TypeNames, Unit, UnitTree, Variable, Work, add_binary,
    add_item, add_leaf, add_node, add_unary, choose, class_at, completion, conversion_between,
    convert, copy, copy_function, cpp_lex_int_type, equal_kinds, equal_shapes, equal_types, extent,
    function_at, has_pointer, held_class, kids_at, measured, member_place, node_at, promote,
    size_align, size_of, traits_of_class, usual, value_of_word, word_of,
};
