//! What stands below this crate, passed on: a crate above it lists this crate alone.

pub use command_io::{FileKind, Write, read_each, read_given};
pub use cpp_tree::below::{End, Trap};
pub use exec_command::files::{read_schedule, schedule_name};
pub use exec_command::refusals::bad_schedule;
pub use exec_command::{exec, halt_schedule};
pub use schedules::{ScheduleFault, read};
pub use source_verdict::laws::accepted_declares_plainly;
pub use source_verdict::limits::{MOST_SOURCES, too_many_sources};
pub use source_verdict::{Verdict, verdict_of};
pub use tx_answers::{Answer, Decision, Refusal, Status, bare, halt_among, halt_given, settle};
pub use tx_code::Object;
pub use tx_host::Host;
pub use tx_safety::SafeProgram;
pub use tx_words::{Build, Command, Races, RunOptions, read as tx_words_read};
pub use unit_objects::unit_objects;
