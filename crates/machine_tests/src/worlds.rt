//! A plain, slow replay of lists of events, byte by byte and with copies of all memory: `world commits 0 0 0 0` replays the
//! events of that name in this order. Each entry is enabled or not; then come the first bytes, the output, how much of the
//! input was taken, and the end.

use crate::events::events_of;
use case_texts::add_word;
use std::alloc::{AllocError, Global};
use tx_events::script::Script;
use tx_events::{Actor, BlockKind, End, Event, Reply, Trap};

/// Where the bytes of the plain world begin.
const FIRST: u64 = 65536;

/// More steps than any block or silent run of these tests.
const FUEL: u32 = 100;

/// The world, with a few bytes of globals and no stacks.
#[derive(Drop)]
struct Plain {
    bytes: Vec<u8>,
    threads: Vec<Script>,
    ended: Vec<bool>,
    limit: usize,
    holder: Option<usize>,
    depth: u32,
    out: Vec<u8>,
    input: Vec<u8>,
    taken: usize,
    end: Option<End>,
}

/// Where the access lies in the bytes, if it is mapped and aligned.
fn place_of(bytes: &Vec<u8>, addr: u64, size: u8) -> Option<usize> {
    let long = bytes.len() as u64;
    if addr < FIRST || size == 0 || addr % (size as u64) != 0 {
        return None;
    }
    let at = addr - FIRST;
    if at < long && size as u64 <= long - at {
        Some(at as usize)
    } else {
        None
    }
}

/// Writes the lowest bytes of the value there.
fn put(bytes: &mut Vec<u8>, at: usize, size: u8, value: u64) {
    let mut left = value;
    for (k, byte) in bytes.iter_mut().enumerate() {
        if at <= k && k - at < size as usize {
            *byte = (left & 0xff) as u8;
            left >>= 8;
        }
    }
}

/// The next event that is not silent.
fn loud(script: &mut Script) -> Event {
    for _ in 0..FUEL {
        let event = script.next();
        if event != Event::Silent {
            return event;
        }
        script.go_on();
    }
    Event::Silent
}

/// The thread that it starts next, if it starts one.
fn child_of(script: &Script) -> Result<Option<Script>, AllocError> {
    match script.next() {
        Event::Spawn { func, arg } => Ok(Some(script.start(1, func, arg)?)),
        _ => Ok(None),
    }
}

/// Runs the block alone, from just after its beginning, and says whether the program ended in it.
fn alone(
    alloc: Global,
    script: &mut Script,
    bytes: &mut Vec<u8>,
) -> Result<Option<End>, AllocError> {
    let mut copies: Vec<Vec<u8>> = Vec::new(alloc);
    copies.push(bytes.clone()?)?;
    for _ in 0..FUEL {
        let event = loud(script);
        match event {
            Event::Load { addr, size, .. } => {
                if place_of(bytes, addr, size).is_none() {
                    return Ok(Some(End::Trapped(Trap::BadAddress)));
                }
            }
            Event::Store {
                addr,
                size,
                value,
                ..
            } => {
                let Some(at) = place_of(bytes, addr, size) else {
                    return Ok(Some(End::Trapped(Trap::BadAddress)));
                };
                put(bytes, at, size, value);
            }
            Event::BeginAtomic { .. } => copies.push(bytes.clone()?)?,
            Event::EndAtomic
            | Event::Raise {
                kind: BlockKind::Commit,
                ..
            } => {
                let _dropped = copies.pop();
            }
            Event::Raise {
                kind: BlockKind::Cancel,
                cancels: true,
            } => {
                if let Some(copy) = copies.pop() {
                    *bytes = copy;
                }
            }
            Event::Raise { .. } => return Ok(Some(End::Abort)),
            Event::Stop { end } => return Ok(Some(end)),
            _ => {}
        }
        script.go_on();
        if copies.is_empty() {
            return Ok(None);
        }
    }
    Ok(Some(End::StepsOut))
}

impl Plain {
    fn new(alloc: Global, main: Script, input: &[u8], limit: usize) -> Result<Plain, AllocError> {
        let mut threads = Vec::new(alloc);
        threads.push(main)?;
        let mut ended = Vec::new(alloc);
        ended.push(false)?;
        Ok(Plain {
            bytes: vec![in alloc; 0u8; 16]?,
            threads,
            ended,
            limit,
            holder: None,
            depth: 0,
            out: Vec::new(alloc),
            input: input.to_vec(alloc)?,
            taken: 0,
            end: None,
        })
    }

    /// Takes a step of thread `t`, if one is enabled, and says whether one was.
    fn step(&mut self, alloc: Global, t: usize) -> Result<bool, AllocError> {
        if self.end.is_some() || self.ended.get(t).copied().unwrap_or(true) {
            return Ok(false);
        }
        let free = self.holder.is_none() || self.holder == Some(t);
        let Some(script) = self.threads.get_mut(t) else {
            return Ok(false)
        };
        let event = loud(script);
        let child = child_of(script)?;
        match event {
            Event::Silent | Event::EndAtomic | Event::Raise { .. } => return Ok(false),
            Event::BeginAtomic { .. } => {
                if !free {
                    return Ok(false);
                }
                script.go_on();
                self.end = alone(alloc, script, &mut self.bytes)?;
                return Ok(true);
            }
            Event::BeginSync if !free => return Ok(false),
            Event::Join { id } => {
                let other = if id > 0 && id as usize != t {
                    self.ended.get(id as usize).copied()
                } else {
                    None
                };
                match other {
                    None => self.end = Some(End::Trapped(Trap::BadJoin)),
                    Some(false) => return Ok(false),
                    Some(true) => {}
                }
            }
            Event::Stop { end } => self.end = Some(end),
            _ => {}
        }
        if self.end.is_none() {
            script.go_on();
            self.does(t, event)?;
        }
        if let Some(child) = child {
            self.spawns(child)?;
        }
        Ok(true)
    }

    /// What the event of thread `t` does to the world.
    fn does(&mut self, t: usize, event: Event) -> Result<(), AllocError> {
        match event {
            Event::Load { addr, size, .. } => {
                if place_of(&self.bytes, addr, size).is_none() {
                    self.end = Some(End::Trapped(Trap::BadAddress));
                }
            }
            Event::Store {
                addr,
                size,
                value,
                ..
            } => match place_of(&self.bytes, addr, size) {
                None => self.end = Some(End::Trapped(Trap::BadAddress)),
                Some(at) => put(&mut self.bytes, at, size, value),
            },
            Event::Out { byte } => self.out.push(byte)?,
            Event::Inp if self.taken < self.input.len() => self.taken += 1,
            Event::BeginSync => {
                self.holder = Some(t);
                self.depth = self.depth.saturating_add(1);
            }
            Event::EndSync => {
                self.depth = self.depth.saturating_sub(1);
                if self.depth == 0 {
                    self.holder = None;
                }
            }
            Event::Done => {
                if let Some(ended) = self.ended.get_mut(t) {
                    *ended = true;
                }
            }
            _ => {}
        }
        Ok(())
    }

    fn spawns(&mut self, child: Script) -> Result<(), AllocError> {
        if self.threads.len() < self.limit {
            self.threads.push(child)?;
            self.ended.push(false)?;
        } else {
            self.end = Some(End::Trapped(Trap::TooManyThreads));
        }
        Ok(())
    }
}

/// The plain replay of an order.
pub fn answer(alloc: Global, case: &str) -> Result<String, AllocError> {
    let (name, order) = case.split_once(' ').unwrap_or((case, ""));
    let main = Script::new(events_of(alloc, name)?);
    let mut plain = Plain::new(alloc, main, &[7, 9], 2)?;
    let mut line = String::new(alloc);
    for entry in order.split(' ') {
        let is_enabled = plain.step(alloc, entry.parse::<usize>().unwrap_or(9))?;
        add_word(&mut line, if is_enabled { "yes" } else { "no" })?;
    }
    let bytes = plain.bytes.get(..8).unwrap_or(b"");
    let out = plain.out.escape_ascii();
    format!(in alloc;
        "{line} {bytes:?} out {out} taken {} {:?}",
        plain.taken, plain.end
    )
}

/// A list that is kept, gone on with, and gone back to: what comes next each time.
pub fn kept(alloc: Global) -> Result<String, AllocError> {
    let events = vec![in alloc;
        Event::Load {
            addr: 65536,
            size: 1,
            volatile: false
        },
        Event::Out { byte: 1 },
    ]?;
    let mut script = Script::new(events);
    let kept = script.save()?;
    let copy = script.copy_saved(&kept)?;
    script.ready()?;
    script.take(Reply::Loaded { value: 255 });
    let second = script.next();
    script.restore(kept);
    let first = script.next();
    script.restore(copy);
    script.ready()?;
    script.take(Reply::Loaded { value: 0 });
    script.ready()?;
    script.take(Reply::Nothing);
    format!(in alloc; "{second:?}, {first:?}, {:?}", script.next())
}
