//! What is known where a form stands, and the steps of which elaboration is made.
#![tactic(auto)]

pub mod below;
pub mod class_layout;
pub mod env;
pub mod functions;
pub mod layouts;
pub mod lookups;
pub mod nodes;
pub mod operand;
pub mod places;
pub mod type_names;
pub mod work;

pub use class_layout::ClassLayout;
pub use env::{
    Capture, Closure, DefaultInit, EnumRec, Env, FuncDecl, Label, Labels, Lambda, Returns, Special,
    This, Traits, Variable, Work,
};
pub use functions::Functions;
pub use layouts::{measured, member_place};
pub use lookups::{class_at, completion, extent, function_at, size_of, traits_of_class};
pub use nodes::{kids_at, node_at};
pub use operand::Operand;
pub use type_names::TypeNames;
pub use work::add_item;
