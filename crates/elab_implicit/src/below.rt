//! What stands below this crate, passed on: a crate above it lists this crate alone.

pub use cpp_types::{At, Cat, Shape, Ty};
pub use elab_entry::below::{
    DefaultInit, ElabFault, Env, FuncKind, Header, Home, IllRule, Kids, Linkage, MakeLambdas,
    NodeId, NodeKind, Nodes, Operand, State, Storage, TKind, TNodeId, Tokens, Work, add_leaf,
    all_lambdas, class_at, class_number, completion, copy_initialised, directly_initialised,
    elab_types_node_at, full, full_operand, has_function, ill, is_char_array, is_destructor_name,
    kids_of, place, plain_type, spelling, statements, string_initialiser, string_token, text_sized,
    type_named, unqualified_type, values, values_place,
};
pub use elab_entry::{
    Inside, body_made, copy_tree, function_body, leave_function, with_parameters,
};
