//! Compiled programs are run, and what was run is a run of the source: since their image is shown to be its code, or since the run is replayed.
#![tactic(auto)]

mod running;

pub use running::{held_against_source, is_shown, run_objects};
