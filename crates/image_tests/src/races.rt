// Races of traces: `race 0:write:65536:4 0:spawned:1` has an item for each word, with the number of its thread.

use case_texts::field;
use race_check::{is_regular, races};
use std::alloc::{AllocError, Global};
use tx_events::{Item, What};

// What a word says.
fn item_of(word: &str) -> Item {
    let t = field(word, ':', 0).parse::<u8>().unwrap_or(0);
    let name = field(word, ':', 1);
    let addr = field(word, ':', 2).parse::<u64>().unwrap_or(0);
    let size = field(word, ':', 3).parse::<u8>().unwrap_or(0);
    let child = u8::try_from(addr).unwrap_or(0);
    let what = match name {
        "read" => What::Read { addr, size },
        "write" => What::Write { addr, size },
        "spawned" => What::Spawned { child },
        "joined" => What::Joined { child },
        "enter" => What::Enter,
        _ => What::Leave,
    };
    Item { t, what }
}

/// The words of memory at which the items of a trace race, or that it is not regular.
pub fn answer(alloc: Global, trace: &str) -> Result<String, AllocError> {
    let mut items = Vec::new(alloc);
    for word in trace.split(' ') {
        items.push(item_of(word))?;
    }
    if !is_regular(&items) {
        return format!(in alloc; "irregular");
    }
    let found = races(alloc, &items)?;
    format!(in alloc; "{:?}", found.as_slice())
}
