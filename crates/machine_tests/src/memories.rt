//! Memories: `memory load:65536:8 store:65537:1:255` loads eight bytes and stores one. Two cells of the globals have values.
use crate::events::size_of;
use case_texts::{add_word, field};
use std::alloc::{AllocError, Global};
use tx_events::GlobalCell;
use tx_memory::Memory;

/// A memory of 16 bytes of globals and two stacks.
fn two_cells(alloc: Global) -> Result<Memory, AllocError> {
    let cells = [
        GlobalCell {
            offset: 0,
            size: 4,
            value: 0x0403_0201,
        },
        GlobalCell {
            offset: 6,
            size: 2,
            value: 0x0807,
        },
    ];
    Memory::new(alloc, &cells, 16, 2)
}

/// A store of 1, 4 or 8 bytes, and whether it was done.
fn stored(memory: &mut Memory, addr: u64, size: &str, value: u64) -> bool {
    match size {
        "1" => memory.store(addr, 1, value & 0xff),
        "4" => memory.store(addr, 4, value & 0xffff_ffff),
        _ => memory.store(addr, 8, value),
    }
}

/// A copy of the memory; then the first word of the memory itself is cleared.
fn copied(alloc: Global, memory: &mut Memory) -> Result<Memory, AllocError> {
    let copy = memory.copy(alloc)?;
    memory.store(65_536, 8, 0);
    Ok(copy)
}

/// The answers to loads and stores; behind `copy` they are those of a copy.
pub fn answer(alloc: Global, steps: &str) -> Result<String, AllocError> {
    let mut memory = two_cells(alloc)?;
    let mut line = String::new(alloc);
    for step in steps.split(' ') {
        let name = field(step, ':', 0);
        let addr = field(step, ':', 1).parse::<u64>().unwrap_or(0);
        let size = field(step, ':', 2);
        let value = field(step, ':', 3).parse::<u64>().unwrap_or(0);
        let answer = match name {
            "load" => format!(in alloc; "{:?}", memory.load(addr, size_of(size)))?,
            "store" => format!(in alloc; "{}", stored(&mut memory, addr, size, value))?,
            _ => {
                memory = copied(alloc, &mut memory)?;
                format!(in alloc; "copied")?
            }
        };
        add_word(&mut line, &answer)?;
    }
    Ok(line)
}
