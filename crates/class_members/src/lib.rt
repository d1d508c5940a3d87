//! Members of classes as they are declared: data members, functions, and what these override.
#![tactic(auto)]

pub mod bases;
pub mod data_members;
pub mod lists;
pub mod methods;
pub mod overriding;
pub mod records;
pub mod sizes;

pub use bases::{based_on, keeps};
pub use data_members::{data_member, has_function, has_member};
pub use methods::{defines_well, first_same, member_function, same_kind};
pub use records::{Definition, Header, Home, Marks, Members, Storage};
pub use sizes::{header_sized, text_sized};
