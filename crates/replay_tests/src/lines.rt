// The lines that tell of events and ends.

use src_replay::AloneEnd;
use std::alloc::{AllocError, Global};
use tx_events::{End, Event};

// The mark of an access of a volatile object.
fn mark(volatile: bool) -> &'static str {
    if volatile { " volatile" } else { "" }
}

// The line of a stop.
fn stop_line(alloc: Global, end: End) -> Result<String, AllocError> {
    match end {
        End::Exit(code) => format!(in alloc; "Stop Exit {code}"),
        End::Trapped(trap) => format!(in alloc; "Stop Trapped {trap:?}"),
        End::Abort | End::Terminate | End::StepsOut => format!(in alloc; "Stop {end:?}"),
    }
}

/// The line of an event.
pub fn event_line(alloc: Global, event: Event) -> Result<String, AllocError> {
    match event {
        Event::Load {
            addr,
            size,
            volatile,
        } => format!(in alloc; "Load {addr} {size}{}", mark(volatile)),
        Event::Store {
            addr,
            size,
            value,
            volatile,
        } => format!(in alloc; "Store {addr} {size} {value}{}", mark(volatile)),
        Event::Out { byte } => format!(in alloc; "Out {byte}"),
        Event::Spawn { func, arg } => format!(in alloc; "Spawn {func} {arg}"),
        Event::Join { id } => format!(in alloc; "Join {id}"),
        Event::BeginAtomic { kind } => format!(in alloc; "BeginAtomic {kind:?}"),
        Event::Raise { kind, cancels } => format!(in alloc; "Raise {kind:?} {cancels}"),
        Event::Stop { end } => stop_line(alloc, end),
        Event::Silent | Event::Inp | Event::EndAtomic => format!(in alloc; "{event:?}"),
        Event::BeginSync | Event::EndSync | Event::Done => format!(in alloc; "{event:?}"),
    }
}

/// How a run stopped.
pub fn stopped(alloc: Global, stopped: AloneEnd) -> Result<String, AllocError> {
    match stopped {
        AloneEnd::Ended(End::Exit(code)) => format!(in alloc; "exit {code}"),
        AloneEnd::Ended(End::Abort) => format!(in alloc; "abort"),
        AloneEnd::Ended(End::Terminate) => format!(in alloc; "terminate"),
        AloneEnd::Ended(End::Trapped(trap)) => format!(in alloc; "trap {trap:?}"),
        AloneEnd::Ended(End::StepsOut) => format!(in alloc; "steps out"),
        AloneEnd::NotEnabled => format!(in alloc; "not enabled"),
        AloneEnd::InBlock => format!(in alloc; "in block"),
        AloneEnd::Spent => format!(in alloc; "spent"),
    }
}
