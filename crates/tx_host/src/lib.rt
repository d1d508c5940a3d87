// The outside of the program: files that are read and written, the output and the error output.
#![tactic(auto)]

mod count;
mod faults;
mod host;
mod kept;
mod mem;
mod real;
mod steady;

pub use faults::{ReadFault, WriteFault};
pub use host::Host;
pub use mem::MemHost;
pub use real::RealHost;
pub use steady::SteadyHost;
