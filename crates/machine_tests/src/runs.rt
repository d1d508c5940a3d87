//! Runs of lists of events: `run 24` is a run of two threads that may take 24 turns.
use choosers::named::older;
use choosers::picker::Picker;
use choosers::policy::{OlderRule, Policy};
use choosers::{Clash, Seen};
use std::alloc::{AllocError, Global};
use tx_events::script::Script;
use tx_events::{BlockKind, End, Event, THREAD_LIMIT, Trap};
use tx_machine::{Finished, Unwatched, run_actor};
use tx_memory::Memory;

/// The end of the run below.
const OVERFLOW: End = End::Trapped(Trap::Overflow);

/// Two threads, a turn each in turn, whose blocks store to two words in crossed order; thread 0 traps behind its block.
fn crossed_words(alloc: Global, bound: u32) -> Result<Finished<Script>, AllocError> {
    let block = Event::BeginAtomic {
        kind: BlockKind::NoExcept,
    };
    let events = vec![in alloc;
        Event::Spawn { func: 6, arg: 0 },
        block,
        Event::Store {
            addr: 65_536,
            size: 8,
            value: 1,
            volatile: false
        },
        Event::Store {
            addr: 65_544,
            size: 8,
            value: 2,
            volatile: false
        },
        Event::EndAtomic,
        Event::Stop { end: OVERFLOW },
        block,
        Event::Store {
            addr: 65_544,
            size: 8,
            value: 3,
            volatile: false
        },
        Event::Store {
            addr: 65_536,
            size: 8,
            value: 4,
            volatile: false
        },
        Event::EndAtomic,
        Event::Done,
    ]?;
    let policy: Policy<OlderRule, _> = Policy::new(|c: &Clash| older(c));
    let mut picker = Picker::new(|s: &Seen| (s.turn % 2) as u8, THREAD_LIMIT);
    let memory = Memory::new(alloc, &[], 16, THREAD_LIMIT)?;
    let input = Vec::new(alloc);
    let main = Script::new(events);
    run_actor(
        alloc,
        main,
        memory,
        input,
        &mut picker,
        &policy,
        bound.min(100),
        &mut Unwatched,
    )
}

/// How the run ends, how many turns there were, and whether a thread trapped.
pub fn ended(alloc: Global, bound: u32) -> Result<String, AllocError> {
    let finished = crossed_words(alloc, bound)?;
    let turns = finished.picked().len();
    format!(in alloc;
        "{:?} {turns} {}",
        finished.end(),
        finished.place().is_some()
    )
}

/// The run and its record.
pub fn recorded(alloc: Global) -> Result<String, AllocError> {
    let finished = crossed_words(alloc, 100)?;
    let run = format!(in alloc;
        "{} {:?} {:?}",
        finished.out().len(),
        finished.counts(),
        finished.order()
    )?;
    let ran = finished.into_ran::<u8>(alloc, Some(5))?;
    format!(in alloc;
        "{run}, {:?} {} {} {} {:?}",
        ran.end,
        ran.order.len(),
        ran.picked.len(),
        ran.rolled,
        ran.place
    )
}
