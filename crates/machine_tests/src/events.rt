//! Lists of events by their names. At each function that a list starts no block is open, and blocks are closed in turn.
ghost use Rattle.std.specs.Prelude.{◌≡◌, true, false, IfOk};
ghost use Rattle.tx_events.specs.Script.{is_lawful};
ghost use Rattle.tx_events.specs.Thread.{is_size};
ghost use Rattle.tx_events.specs.declared.Event.TheVariants.{Load, Store};

use case_texts::field;
use std::alloc::{AllocError, Global};
use tx_events::{BlockKind, End, Event};

/// The first words of the globals.
const A: u64 = 65_536;

const B: u64 = 65_544;

const BLOCK: Event = Event::BeginAtomic {
    kind: BlockKind::NoExcept,
};

fn load(addr: u64) -> Event
    ensures { result ≡ Load addr 8 false }
{
    Event::Load {
        addr,
        size: 8,
        volatile: false,
    }
}

fn store(addr: u64, value: u64) -> Event
    ensures { result ≡ Store addr 8 value false }
{
    Event::Store {
        addr,
        size: 8,
        value,
        volatile: false,
    }
}

/// The size of an access.
pub fn size_of(word: &str) -> u8
    ensures { is_size result ≡ true }
{
    match word {
        "1" => 1,
        "2" => 2,
        "4" => 4,
        _ => 8,
    }
}

// Two blocks that store to two words in crossed order.
fn crossed(alloc: Global) -> Result<Vec<Event>, AllocError>
    ensures { IfOk result (λ events. is_lawful events.items ≡ true) }
{
    Ok(vec![in alloc;
        Event::Spawn { func: 6, arg: 0 },
        BLOCK,
        store(A, 1),
        store(B, 2),
        Event::EndAtomic,
        Event::Silent,
        BLOCK,
        store(B, 3),
        store(A, 4),
        Event::EndAtomic,
        Event::Done,
    ]?)
}

// A block that cancels, and behind it an output, an input and the end.
fn cancelled(alloc: Global) -> Result<Vec<Event>, AllocError>
    ensures { IfOk result (λ events. is_lawful events.items ≡ true) }
{
    Ok(vec![in alloc;
        Event::BeginAtomic {
            kind: BlockKind::Cancel
        },
        store(A, 1),
        store(B, 2),
        Event::Raise {
            kind: BlockKind::Cancel,
            cancels: true
        },
        Event::Out { byte: 7 },
        Event::Inp,
        Event::Stop { end: End::Exit(3) },
    ]?)
}

// Two blocks that read a word, and one that writes it.
fn readers(alloc: Global) -> Result<Vec<Event>, AllocError>
    ensures { IfOk result (λ events. is_lawful events.items ≡ true) }
{
    Ok(vec![in alloc;
        Event::Spawn { func: 6, arg: 0 },
        Event::Spawn { func: 10, arg: 0 },
        BLOCK,
        load(A),
        Event::EndAtomic,
        Event::Done,
        BLOCK,
        load(A),
        Event::EndAtomic,
        Event::Done,
        BLOCK,
        store(A, 5),
        Event::EndAtomic,
        Event::Done,
    ]?)
}

// A block in a synchronized block, beside another block.
fn synchronized(alloc: Global) -> Result<Vec<Event>, AllocError>
    ensures { IfOk result (λ events. is_lawful events.items ≡ true) }
{
    Ok(vec![in alloc;
        Event::Spawn { func: 10, arg: 0 },
        Event::BeginSync,
        BLOCK,
        store(A, 1),
        Event::EndAtomic,
        Event::EndSync,
        Event::BeginSync,
        Event::EndSync,
        Event::Join { id: 1 },
        Event::Done,
        BLOCK,
        store(B, 2),
        Event::EndAtomic,
        Event::Done,
    ]?)
}

// Two blocks that write one word.
fn writers(alloc: Global) -> Result<Vec<Event>, AllocError>
    ensures { IfOk result (λ events. is_lawful events.items ≡ true) }
{
    Ok(vec![in alloc;
        Event::Spawn { func: 4, arg: 0 },
        BLOCK,
        store(A, 1),
        Event::EndAtomic,
        BLOCK,
        store(A, 2),
        Event::EndAtomic,
    ]?)
}

// A block that commits.
fn commits(alloc: Global) -> Result<Vec<Event>, AllocError>
    ensures { IfOk result (λ events. is_lawful events.items ≡ true) }
{
    Ok(vec![in alloc;
        Event::Silent,
        Event::BeginAtomic {
            kind: BlockKind::NoExcept
        },
        Event::Store {
            addr: 65536,
            size: 2,
            value: 0x0102,
            volatile: false
        },
        Event::Load {
            addr: 65536,
            size: 1,
            volatile: false
        },
        Event::BeginSync,
        Event::Store {
            addr: 65540,
            size: 4,
            value: 0x03040506,
            volatile: false
        },
        Event::EndSync,
        Event::EndAtomic,
        Event::Out { byte: 65 },
        Event::Stop { end: End::Exit(3) },
    ]?)
}

// A block that cancels inside another.
fn inner(alloc: Global) -> Result<Vec<Event>, AllocError>
    ensures { IfOk result (λ events. is_lawful events.items ≡ true) }
{
    Ok(vec![in alloc;
        Event::BeginAtomic {
            kind: BlockKind::Commit
        },
        Event::Store {
            addr: 65536,
            size: 1,
            value: 1,
            volatile: false
        },
        Event::BeginAtomic {
            kind: BlockKind::Cancel
        },
        Event::Store {
            addr: 65536,
            size: 1,
            value: 2,
            volatile: false
        },
        Event::Store {
            addr: 65537,
            size: 1,
            value: 3,
            volatile: false
        },
        Event::Raise {
            kind: BlockKind::Cancel,
            cancels: true
        },
        Event::Store {
            addr: 65538,
            size: 1,
            value: 4,
            volatile: false
        },
        Event::Raise {
            kind: BlockKind::Commit,
            cancels: true
        },
        Event::Store {
            addr: 65539,
            size: 1,
            value: 5,
            volatile: true
        },
    ]?)
}

// A synchronized block beside a thread.
fn beside(alloc: Global) -> Result<Vec<Event>, AllocError>
    ensures { IfOk result (λ events. is_lawful events.items ≡ true) }
{
    Ok(vec![in alloc;
        Event::Spawn { func: 8, arg: 0 },
        Event::BeginSync,
        Event::Store {
            addr: 65536,
            size: 8,
            value: 0x0807060504030201,
            volatile: false
        },
        Event::BeginSync,
        Event::EndSync,
        Event::EndSync,
        Event::Join { id: 1 },
        Event::Stop { end: End::Exit(0) },
        Event::BeginAtomic {
            kind: BlockKind::NoExcept
        },
        Event::Store {
            addr: 65542,
            size: 2,
            value: 0,
            volatile: false
        },
        Event::EndAtomic,
        Event::BeginSync,
        Event::EndSync,
        Event::Done,
    ]?)
}

// Output and input.
fn in_order(alloc: Global) -> Result<Vec<Event>, AllocError>
    ensures { IfOk result (λ events. is_lawful events.items ≡ true) }
{
    Ok(vec![in alloc;
        Event::Out { byte: 72 },
        Event::Inp,
        Event::Out { byte: 73 },
        Event::Inp,
        Event::Inp,
        Event::Out { byte: 74 },
    ]?)
}

// An output, a block that raises, and an output.
fn raised(alloc: Global, is_cancel: bool) -> Result<Vec<Event>, AllocError>
    ensures { IfOk result (λ events. is_lawful events.items ≡ true) }
{
    if is_cancel {
        return Ok(vec![in alloc;
            Event::Out { byte: 66 },
            Event::BeginAtomic {
                kind: BlockKind::Cancel
            },
            Event::Raise {
                kind: BlockKind::Cancel,
                cancels: false
            },
            Event::Out { byte: 67 },
        ]?);
    }
    Ok(vec![in alloc;
        Event::Out { byte: 66 },
        BLOCK,
        Event::Raise {
            kind: BlockKind::NoExcept,
            cancels: true
        },
        Event::Out { byte: 67 },
    ]?)
}

// A block that raises what does not cancel it.
fn aborted(alloc: Global) -> Result<Vec<Event>, AllocError>
    ensures { IfOk result (λ events. is_lawful events.items ≡ true) }
{
    let kind = BlockKind::Cancel;
    let cancels = false;
    Ok(vec![in alloc; Event::BeginAtomic { kind }, Event::Raise { kind, cancels }]?)
}

// An access, a join or a start of a thread alone, or behind the beginning of a block.
fn alone(alloc: Global, word: &str, addr: u64, id: i32) -> Result<Vec<Event>, AllocError>
    ensures { IfOk result (λ events. is_lawful events.items ≡ true) }
{
    match word {
        "load" => Ok(vec![in alloc; load(addr)]?),
        "store" => Ok(vec![in alloc; store(addr, 1)]?),
        "block-load" => Ok(vec![in alloc; BLOCK, load(addr)]?),
        "block-store" => Ok(vec![in alloc; BLOCK, store(addr, 1)]?),
        "join" => Ok(vec![in alloc; Event::Join { id }]?),
        "own-join" => Ok(vec![in alloc; Event::Spawn { func: 1, arg: 0 }, Event::Join { id }]?),
        _ => Ok(vec![in alloc; Event::Spawn { func: 0, arg: 0 }]?),
    }
}

// A volatile load of 1, 2 or 8 bytes.
fn loaded(alloc: Global, addr: u64, size: &str) -> Result<Vec<Event>, AllocError>
    ensures { IfOk result (λ events. is_lawful events.items ≡ true) }
{
    match size {
        "1" => Ok(vec![in alloc;
            Event::Load {
                addr,
                size: 1,
                volatile: true
            },
        ]?),
        "2" => Ok(vec![in alloc;
            Event::Load {
                addr,
                size: 2,
                volatile: true
            },
        ]?),
        _ => Ok(vec![in alloc;
            Event::Load {
                addr,
                size: 8,
                volatile: true
            },
        ]?),
    }
}

/// The list of a name, with an address or a number, and a size, behind colons.
pub fn events_of(alloc: Global, text: &str) -> Result<Vec<Event>, AllocError>
    ensures { IfOk result (λ events. is_lawful events.items ≡ true) }
{
    let name = field(text, ':', 0);
    let number = field(text, ':', 1);
    let size = field(text, ':', 2);
    match name {
        "crossed" => crossed(alloc),
        "cancelled" => cancelled(alloc),
        "readers" => readers(alloc),
        "synchronized" => synchronized(alloc),
        "writers" => writers(alloc),
        "commits" => commits(alloc),
        "inner" => inner(alloc),
        "beside" => beside(alloc),
        "in-order" => in_order(alloc),
        "raise-noexcept" => raised(alloc, false),
        "raise-cancel" => raised(alloc, true),
        "loaded" => loaded(alloc, number.parse::<u64>().unwrap_or(0), size),
        "aborted" => aborted(alloc),
        _ => {
            let addr = number.parse::<u64>().unwrap_or(0);
            alone(alloc, name, addr, number.parse::<i32>().unwrap_or(0))
        }
    }
}
