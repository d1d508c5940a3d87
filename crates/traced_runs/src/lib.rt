//! Runs with their traces.
//!
//! A traced run is a run whose turns a keeper of its trace is shown. The keeper changes nothing of it.
#![tactic(auto)]

pub mod image;
pub mod run;
mod tracer;

pub use image::run_traced;
pub use run::{TracedRun, trace_actor};
