//! Lambdas lead from good states to good ones: they are at hand behind their full-expression, and their bodies fit.
#![tactic(auto)]

pub mod laws;
