//! Members of objects, and calls.
#![tactic(auto)]

pub mod access;
pub mod callees;
pub mod calls;
pub mod results;
pub mod slots;

pub use access::member_access;
pub use calls::call;
