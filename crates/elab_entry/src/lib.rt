//! Into functions and out of them: parameters, frames, the ends of bodies, and bodies in nodes of their own.
#![tactic(auto)]

pub mod around;
pub mod below;
pub mod bodies;
pub mod copying;
pub mod ends;
pub mod items;
pub mod parameters;

pub use around::{Around, Inside, enter_function, enter_lambda, leave_function};
pub use bodies::{body_made, function_body};
pub use copying::copy_tree;
pub use ends::end_of;
pub use parameters::with_parameters;
