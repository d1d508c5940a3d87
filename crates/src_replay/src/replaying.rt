//! The replay of a written order.

ghost use Rattle.std.specs.Prelude.{◌≡◌, ◌≤◌};
ghost use Rattle.src_bind.specs.Bounds.{given};
ghost use Rattle.src_bind.specs.Tables.{CanBind, typed};
ghost use Rattle.src_replay.specs.Orders.{Answers};

use crate::world::{Entry, World};
use src_bind::Bound;
use std::alloc::Global;
use tx_events::End;

/// What a replayed order came to: the output, the end, `None` where none came, how many threads were started, thread 0
/// among them, and the cost in steps.
#[derive(Drop)]
pub struct Replayed {
    pub out: Vec<u8>,
    pub end: Option<End>,
    pub started: usize,
    pub cost: u32,
}

/// Why an order was not replayed.
#[derive(Clone, Copy, Debug, PartialEq, Eq)]
pub enum ReplayFault {
    /// The entry at `index` is the first that is not enabled.
    NotARun { index: u32 },
    /// The entry at `index` is the first with which the steps are more than they may be.
    Spent { index: u32 },
    Memory,
}

// A place in an order. Each entry before it took a step, so that it has a number of 32 bits.
fn place(index: usize, most: u32) -> u32
    requires { index ≤ most }
    ensures { result ≡ index }
{
    let _most = most;
    index as u32
}

/// Replays an order: each entry is a step of the thread of that number, silent steps and then one event or one whole
/// atomic block. It may take `most` steps, one for each silent step and each event.
pub fn replay<'a>(
    alloc: Global,
    bound: &'a Bound<'a>,
    input: &'a [u8],
    order: &[u8],
    most: u32,
) -> Result<Replayed, ReplayFault>
    requires { CanBind (typed (given bound.now)) }
    ensures { Answers (given bound.now) input.now order.now most result }
{
    let mut world = match World::new(alloc, bound, input, most) {
        Ok(world) => world,
        Err(_) => return Err(ReplayFault::Memory),
    };
    for (i, t) in order.iter().enumerate() {
        let index = place(i, most);
        let entry = match world.step(*t) {
            Ok(entry) => entry,
            Err(_) => return Err(ReplayFault::Memory),
        };
        match entry {
            Entry::Taken => {}
            Entry::Refused => return Err(ReplayFault::NotARun { index }),
            Entry::Spent => return Err(ReplayFault::Spent { index }),
        }
    }
    let cost = most - world.left;
    let started = world.threads.count();
    let World { out, end, .. } = world;
    Ok(Replayed {
        out,
        end,
        started,
        cost,
    })
}
