//! Typed programs that are compiled, linked, verified and run. The tests of several crates stand here together, so that none
//! of these is proved a second time with its tests.
#![tactic(auto)]

#[cfg(test)]
mod programs;
#[cfg(test)]
mod running;
