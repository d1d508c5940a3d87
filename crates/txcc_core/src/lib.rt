//! The top call of txcc: from the words of the command line to what is written.
#![tactic(auto)]

mod top;

pub use run_command::below::{Answer, End, Refusal, Status, Trap};
pub use top::txcc;
pub use tx_machine::Ran;
