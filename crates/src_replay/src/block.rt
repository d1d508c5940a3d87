//! A step of a thread in an outermost atomic block: what its event does to memory (the TS, [stmt.tx]).

ghost use Rattle.std.specs.Prelude.{◌≡◌, ◌≢◌, ◌^◌, ◌*◌, ◌++◌, ◌∷◌, ◌&&◌, [], Bool, true, false, cond, nat_lt, ◌==◌, length, IfOk, OnOk};
ghost use Rattle.tx_events.specs.declared.BlockKind.TheVariants.{Cancel};
ghost use Rattle.tx_events.specs.declared.Trap.TheVariants.{BadAddress};
ghost use Rattle.tx_events.specs.declared.End.TheVariants.{Trapped};
ghost use Rattle.tx_events.specs.declared.Event.TheVariants.{Store, Raise};
ghost use Rattle.tx_events.specs.declared.Reply.TheVariants.{Nothing, Loaded};
ghost use Rattle.tx_events.specs.Memory.{can_access, load as load_of};
ghost use Rattle.tx_events.specs.Thread.{is_size as is_size_of};
ghost use Rattle.tx_memory.specs.View.{layout_of, words_of};
ghost use Rattle.src_replay.specs.Undone.{IsNested, copies, Ended};
ghost use Rattle.src_replay.specs.Inner.{has_size, comes_to, Came, reply_in, is_going_step, is_inner};
ghost use Rattle.src_replay.specs.declared.block.Step.TheVariants.{Goes, Leaves, Halts, Never};

use crate::nested::Nested;
use std::alloc::AllocError;
use tx_events::{BlockKind, End, Event, Reply, Trap};
use tx_memory::Memory;

/// What a step came to.
#[derive(Clone, Copy)]
pub(crate) enum Step {
    Goes,
    /// The outermost block is left.
    Leaves,
    Halts(End),
    /// Nothing of the sort comes inside an atomic block of a checked program.
    Never,
}

/// What a step came to, and the reply to its event.
#[derive(Clone, Copy)]
pub(crate) struct Effect {
    pub(crate) step: Step,
    pub(crate) reply: Reply,
}

/// Whether an access has this many bytes: 1, 2, 4 or 8.
pub(crate) fn is_size(size: u8) -> bool
    ensures { result ≡ is_size_of size }
{
    size == 1 || size == 2 || size == 4 || size == 8
}

/// Whether a value has no more than so many bytes, of which there are 1, 2, 4 or 8.
pub(crate) fn fits(size: u8, value: u64) -> bool
    ensures { result ≡ (is_size_of size && nat_lt value (2 ^ (8 * size))) }
{
    match size {
        1 => value < 0x100,
        2 => value < 0x1_0000,
        4 => value < 0x1_0000_0000,
        8 => true,
        _ => false,
    }
}

// A step with the reply of most events.
fn plain(step: Step) -> Effect
    ensures step { result.step ≡ step }
    ensures reply { result.reply ≡ Nothing }
{
    Effect {
        step,
        reply: Reply::Nothing,
    }
}

// Reads memory.
fn load(memory: &Memory, addr: u64, size: u8) -> Effect
    ensures never { is_size_of size ≡ false → result ≡ record { step = Never; reply = Nothing } }
    ensures reads { is_size_of size ≡ true → can_access (layout_of memory.now) addr size ≡ true → result ≡ record { step = Goes; reply = Loaded (load_of (words_of memory.now) addr size) } }
    ensures traps { is_size_of size ≡ true → can_access (layout_of memory.now) addr size ≡ false → result ≡ record { step = Halts (Trapped BadAddress); reply = Nothing } }
{
    if !is_size(size) {
        return plain(Step::Never);
    }
    match memory.load(addr, size) {
        Some(value) => Effect {
            step: Step::Goes,
            reply: Reply::Loaded { value },
        },
        None => plain(Step::Halts(End::Trapped(Trap::BadAddress))),
    }
}

// Writes to memory.
fn store(
    memory: &mut Memory,
    nested: &mut Nested,
    addr: u64,
    size: u8,
    value: u64,
) -> Result<Effect, AllocError>
    requires nested { IsNested (layout_of memory.old) nested.old }
    requires open { nested.old.marks.items ≢ [] }
    ensures layout { layout_of memory.new ≡ layout_of memory.old }
    ensures nested { IfOk result (λ c. IsNested (layout_of memory.old) nested.new) }
    ensures came { (volatile : Bool) → has_size (Store addr size value volatile) ≡ true → IfOk result (λ c. Came (words_of memory.new) (copies nested.new (words_of memory.new)) c.step (comes_to (layout_of memory.old) (words_of memory.old) (copies nested.old (words_of memory.old)) (Store addr size value volatile))) }
    ensures reply { IfOk result (λ c. c.reply ≡ Nothing) }
{
    if !fits(size, value) {
        return Ok(plain(Step::Never));
    }
    if nested.store(memory, addr, size, value)? {
        Ok(plain(Step::Goes))
    } else {
        Ok(plain(Step::Halts(End::Trapped(Trap::BadAddress))))
    }
}

// An atomic block begins.
fn begin(nested: &mut Nested) -> Result<Effect, AllocError>
    ensures notes { OnOk result (nested.new.notes.items ≡ nested.old.notes.items) }
    ensures marks { OnOk result (nested.new.marks.items ≡ nested.old.marks.items ++ length nested.old.notes.items ∷ []) }
    ensures goes { IfOk result (λ c. c ≡ record { step = Goes; reply = Nothing }) }
{
    nested.begin()?;
    Ok(plain(Step::Goes))
}

// Whether any block is open still.
fn left(nested: &Nested) -> Effect
    ensures { result ≡ record { step = cond (length nested.now.marks.items == 0) Leaves Goes; reply = Nothing } }
{
    if nested.is_empty() {
        plain(Step::Leaves)
    } else {
        plain(Step::Goes)
    }
}

// The innermost block is left, and its stores stay.
fn end(nested: &mut Nested) -> Effect
    ensures ended { nested.old.marks.items ≢ [] → Ended nested.old nested.new }
    ensures left { result ≡ record { step = cond (length nested.new.marks.items == 0) Leaves Goes; reply = Nothing } }
{
    nested.end();
    left(nested)
}

// The innermost block is left, and its stores go.
fn cancel(memory: &mut Memory, nested: &mut Nested) -> Effect
    requires nested { IsNested (layout_of memory.old) nested.old }
    requires open { nested.old.marks.items ≢ [] }
    ensures layout { layout_of memory.new ≡ layout_of memory.old }
    ensures nested { IsNested (layout_of memory.old) nested.new }
    ensures came { Came (words_of memory.new) (copies nested.new (words_of memory.new)) result.step (comes_to (layout_of memory.old) (words_of memory.old) (copies nested.old (words_of memory.old)) (Raise Cancel true)) }
    ensures reply { result.reply ≡ Nothing }
{
    nested.cancel(memory);
    left(nested)
}

/// What an event of a thread in its outermost atomic block comes to.
pub(crate) fn inside(
    event: Event,
    memory: &mut Memory,
    nested: &mut Nested,
) -> Result<Effect, AllocError>
    requires nested { IsNested (layout_of memory.old) nested.old }
    requires open { nested.old.marks.items ≢ [] }
    ensures layout { layout_of memory.new ≡ layout_of memory.old }
    ensures nested { IfOk result (λ c. IsNested (layout_of memory.old) nested.new) }
    ensures came { has_size event ≡ true → IfOk result (λ c. Came (words_of memory.new) (copies nested.new (words_of memory.new)) c.step (comes_to (layout_of memory.old) (words_of memory.old) (copies nested.old (words_of memory.old)) event)) }
    ensures reply { has_size event ≡ true → IfOk result (λ c. c.reply ≡ reply_in (words_of memory.old) c.step event) }
{
    match event {
        Event::Silent | Event::BeginSync | Event::EndSync => Ok(plain(Step::Goes)),
        Event::Load { addr, size, .. } => Ok(load(memory, addr, size)),
        Event::Store {
            addr,
            size,
            value,
            ..
        } => store(memory, nested, addr, size, value),
        Event::BeginAtomic { .. } => begin(nested),
        Event::EndAtomic => Ok(end(nested)),
        Event::Raise { kind, cancels } => Ok(raise(memory, nested, kind, cancels)),
        Event::Stop { end } => Ok(plain(Step::Halts(end))),
        Event::Out { .. } | Event::Inp | Event::Spawn { .. } | Event::Join { .. } | Event::Done => {
            Ok(plain(Step::Never))
        }
    }
}

// An exception leaves the innermost block.
fn raise(memory: &mut Memory, nested: &mut Nested, kind: BlockKind, cancels: bool) -> Effect
    requires nested { IsNested (layout_of memory.old) nested.old }
    requires open { nested.old.marks.items ≢ [] }
    ensures layout { layout_of memory.new ≡ layout_of memory.old }
    ensures nested { IsNested (layout_of memory.old) nested.new }
    ensures came { Came (words_of memory.new) (copies nested.new (words_of memory.new)) result.step (comes_to (layout_of memory.old) (words_of memory.old) (copies nested.old (words_of memory.old)) (Raise kind cancels)) }
    ensures reply { result.reply ≡ Nothing }
{
    match kind {
        BlockKind::NoExcept => plain(Step::Halts(End::Abort)),
        BlockKind::Commit => end(nested),
        BlockKind::Cancel => {
            if cancels {
                cancel(memory, nested)
            } else {
                plain(Step::Halts(End::Abort))
            }
        }
    }
}

/// Whether the thread goes on behind a step.
pub(crate) fn goes_on(step: Step) -> bool
    ensures { result ≡ is_going_step step }
{
    match step {
        Step::Goes | Step::Leaves => true,
        Step::Halts(_) | Step::Never => false,
    }
}

/// Whether an event may come inside an atomic block.
pub(crate) fn comes_inside(event: Event) -> bool
    ensures { result ≡ is_inner event }
{
    match event {
        Event::Silent | Event::Load { .. } | Event::Store { .. } | Event::BeginAtomic { .. } =>
            true,
        Event::EndAtomic | Event::Raise { .. } | Event::BeginSync | Event::EndSync => true,
        Event::Stop { .. } => true,
        Event::Out { .. } | Event::Inp | Event::Spawn { .. } | Event::Join { .. } | Event::Done =>
            false,
    }
}
