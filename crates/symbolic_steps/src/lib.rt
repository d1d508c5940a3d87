//! The steps of the symbolic source, as an exact interpreter: what a function of a bound program does next, with terms in
//! the place of numbers.
//!
//! "C++14" is ISO/IEC 14882:2014, and "the TS" is ISO/IEC TS 19841:2015.
#![tactic(auto)]

mod calls;
pub mod giving;
mod objects;
mod statements;
pub mod steps;
mod throwing;

pub use giving::give;
pub use steps::{advanced, step};
pub use symbolic_leaving::leaving::leave;
pub use symbolic_leaving::{Case, CaseAnswers, Source};
