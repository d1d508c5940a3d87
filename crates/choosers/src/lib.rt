//! Who waits and who yields at a clash of two transactions, and which thread takes the next turn.
//!
//! A policy and a picker each keep a closure. What the named ones answer is defined in `specs/Answers.antt` and
//! `specs/Picks.antt`, and computed by the functions of `named`.
#![tactic(auto)]

pub mod named;
pub mod picker;
pub mod policy;

use tx_events::TurnKind;

/// An access of a transaction to a word that other transactions block. A birth is a number that each transaction draws
/// as it begins, so the older one has the lower.
#[derive(Clone, Copy, PartialEq, Eq, Debug)]
pub struct Clash {
    /// The asker's birth.
    pub mine: u64,
    /// The least birth of the blocking transactions.
    pub least: u64,
    /// The greatest birth of the blocking transactions.
    pub greatest: u64,
    /// How many block.
    pub count: u8,
    /// How many turns in a row the asker has waited at this clash.
    pub waits: u32,
}

/// What a transaction does at a clash.
#[derive(Clone, Copy, PartialEq, Eq, Debug)]
pub enum Choice {
    /// It keeps what it has done, and tries again at its next turn.
    Wait,
    /// It gives up what it has done, and begins anew.
    Yield,
}

/// What a picker sees before a turn.
#[derive(Clone, Copy, PartialEq, Eq, Debug)]
pub struct Seen {
    /// The number of the turn, counted from 0.
    pub turn: u32,
    /// How many threads were started so far.
    pub started: u8,
    /// The kind of the turn before, if there was one.
    pub last: Option<TurnKind>,
    /// Whether the turn before was a done load or store in a transaction.
    pub inside: bool,
}
