//! What names mean: variables, members, `this`, functions.
#![tactic(auto)]

pub mod captures;
pub mod functions;
pub mod members;
pub mod names;
pub mod offsets;
pub mod parts;
pub mod resolving;
pub mod variables;

pub use captures::{this_tree, variable};
pub use members::{FoundMember, member_found};
pub use names::{member_of, named, of_entity};
pub use offsets::offset_at;
pub use resolving::resolved;
pub use variables::variable_at;
