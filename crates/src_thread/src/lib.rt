//! A thread of a source program: what it does next, event by event, over the trees of a bound program.
//!
//! Each step follows the definition `give` of `src_mean` (`specs/Source.antt`), arm by arm.
//!
//! "C++14" is ISO/IEC 14882:2014, and "the TS" is ISO/IEC TS 19841:2015.
#![tactic(auto)]

mod giving;
mod leaving;
mod objects;
mod roots;
mod running;
mod stack;
mod statements;
pub mod thread;
mod throwing;

pub use thread::SourceThread;
