//! What a program is linked by, beside its units: which functions have safe bodies, which symbols the slots of classes
//! name, and what its memory begins with. And whether it can be bound.
//!
//! "C++14" is ISO/IEC 14882:2014.
#![tactic(auto)]

pub mod cells;
pub mod fits;
pub mod slots;

pub use cells::{first_cells, globals_size};
pub use fits::can_bind;
pub use slots::choices;
