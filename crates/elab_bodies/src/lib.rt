//! Each body that elaboration makes is the block that its function asks for, ends as that does, and has the words of a call first in its frame.
#![tactic(auto)]

pub mod laws;
