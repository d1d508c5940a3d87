//! Turns of modelled threads, whose atomic blocks run side by side and take effect in one order.
//!
//! A block holds each word that it loads or stores, and notes what the words held. A thread whose access another block
//! keeps off waits or gives up, as a policy chooses; what a block did is undone word by word. What one turn does is the
//! definition `turn` of `tx_serial`, and `machine_of` of `specs/Runtime.antt` says which machine a runtime shows.
#![tactic(auto)]

mod access;
mod clash;
mod closing;
mod engine;
mod input;
mod inside;
mod lock;
mod outside;
mod runtime;
mod thread;
mod turn;

pub use runtime::Runtime;
