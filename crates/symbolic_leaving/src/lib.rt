//! What the steps of the symbolic source rest on: a function of a bound program, answers on unknown exceptions, states that
//! come of a step, and what goes outward.
//!
//! "C++14" is ISO/IEC 14882:2014, and "the TS" is ISO/IEC TS 19841:2015.
#![tactic(auto)]

pub mod answers;
pub mod leaving;
pub mod roots;
pub mod source;
pub mod states;
pub mod texts;

pub use answers::{Case, CaseAnswers};
pub use source::Source;
