//! What a call of the program answers.

ghost use Rattle.std.specs.Prelude.{◌≡◌};
ghost use Rattle.tx_answers.specs.Report.{number_of};

use tx_machine::Ran;
use vm_thread::Here;

/// How the call ended. The number of a status is its position here, from 0.
#[derive(Clone, Copy, Debug, PartialEq, Eq)]
pub enum Status {
    /// The program returned from `main`.
    Done,
    /// What was given is refused: a text, an object, or what they are put together to.
    Refused,
    /// The words say no command.
    Usage,
    Abort,
    Terminate,
    /// A step of the program trapped.
    Trapped,
    /// The turns were used up.
    StepsOut,
    /// A call of the host failed.
    HostFault,
    /// There was no memory.
    Memory,
    Limit,
    BadSchedule,
    CostOut,
}

impl Status {
    /// The number of the status, which the process ends with.
    pub fn number(self) -> u8
        ensures { result ≡ number_of self }
    {
        match self {
            Status::Done => 0,
            Status::Refused => 1,
            Status::Usage => 2,
            Status::Abort => 3,
            Status::Terminate => 4,
            Status::Trapped => 5,
            Status::StepsOut => 6,
            Status::HostFault => 7,
            Status::Memory => 8,
            Status::Limit => 9,
            Status::BadSchedule => 10,
            Status::CostOut => 11,
        }
    }
}

/// Why a text was refused: the refusal's number, and its line without the byte 10 at its end.
#[derive(Debug, Drop)]
pub struct Refusal {
    pub number: u8,
    pub line: Vec<u8>,
}

/// The answer of a call.
#[derive(Drop)]
pub struct Answer {
    pub status: Status,
    /// What was run, where a program was run.
    pub ran: Option<Ran<Here>>,
    pub refusal: Option<Refusal>,
}
