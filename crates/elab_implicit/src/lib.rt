//! What constructors and destructors do to the parts of an object, and the bodies of implicit members (C++14 12.1, 12.4,
//! 12.6.2, 12.8).
#![tactic(auto)]

pub mod below;
pub mod building;
pub mod copying;
pub mod ending;
pub mod given;
pub mod implicit;
mod marks;
pub mod object;
pub mod parts;
pub mod places;
mod slots;

pub use implicit::with_implied;
