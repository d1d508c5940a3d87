//! The linker: the image that objects are linked to, or the first fault that they have.
//! "C++14" is ISO/IEC 14882:2014.
#![tactic(auto)]

mod image;
mod kept;
mod linking;
mod numbering;

pub use link_faults::LinkFault;
pub use linking::link;
