//! What an image is made of: which definitions of objects are kept, which number each name of an object stands for, and
//! the parts of the image by these numbers.
//!
//! A name has a place, its position among the names of all objects, and a rank, that of its bytes among all names.
//! Tables by ranks say what names stand for that other objects see, tables by places what an object's own names stand for.
//! "C++14" is ISO/IEC 14882:2014.
#![tactic(auto)]

pub mod found;
pub mod homes;
pub mod kept;
pub mod laws;
pub mod places;
pub mod renamed;
pub mod symbols;
