//! Compiled code: instructions with their unwind rows, the objects that units are compiled to, and the images that
//! linked programs are, with what they mean.
//!
//! The definitions stand in `specs/`: an object and an image as plain lists (`Objects`, `Images`), the conditions that an
//! object keeps (`WellFormed`), what instructions and rows do (`Meaning`) and where an image has its functions, classes
//! and globals (`Program`), when code is sound (`Shapes`, `Sound`, with the words of function types in `Signatures`), where
//! threads of sound images stand (`InShape`), and which image objects are linked to (`Linked`).
//! "The TS" is ISO/IEC TS 19841:2015, and "C++14" is ISO/IEC 14882:2014.
#![tactic(auto)]

pub mod body;
pub mod examples;
pub mod image;
pub mod instr;
pub mod laws;
pub mod linked;
pub mod object;
pub mod runs;
pub mod standing;
pub mod tables;

pub use body::{Body, LineRow, Row};
pub use image::Image;
pub use instr::Instr;
pub use linked::{ImageClass, ImageFunc};
pub use object::{LONGEST_NAME, ObjCell, ObjClass, ObjFunc, ObjGlobal, ObjMember, Object};
pub use tables::{block_kind, int_kind, line, operator, size};
