//! A test of states that stays true as threads go on, and under which no event comes that safety rules out:
//! `specs/Marks.antt` reads it off the frames.
#![tactic(auto)]

pub mod laws;
