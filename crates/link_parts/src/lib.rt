//! The parts of an image, by tables of the numbers that names stand for: its types, functions, classes and cells, and
//! its `main`.
//! "C++14" is ISO/IEC 14882:2014.
#![tactic(auto)]

pub mod laws;
pub mod parts;
pub mod types;
