//! Instructions that enter and leave blocks.

ghost use Rattle.std.specs.Prelude.{ℕ, ◌≡◌, ◌+◌, ◌∷◌, IfOk};
ghost use Rattle.cpp_tree.specs.cpp_types.Typ.{Typ};
ghost use Rattle.cpp_tree.specs.declared.program.Program.{Program};
ghost use Rattle.src_mean.specs.Linked.{Func};
ghost use Rattle.src_frames.specs.Shown.{open_shown};
ghost use Rattle.cpp_tree.specs.tx_events.Thread.{same_kind as is_same_kind, rest_of};
ghost use Rattle.symbolic_source.specs.Outcomes.{Outcome as SourceNext};
ghost use Rattle.symbolic_code.specs.Places.{opened_later as opened_after};
ghost use Rattle.symbolic_code.specs.Following.{begins as begins_atomic, begins_locked as begins_sync, ends_atomic as leaves_atomic, ends_locked as leaves_sync};
ghost use Rattle.symbolic_terms.specs.Meanings.{Meaning, Agrees};
ghost use Rattle.symbolic_terms.specs.Shown.{outcome_of, opens_of, place_of};
ghost use Rattle.code_follows.specs.Shown.{coming, next_of};
ghost use Rattle.code_follows.specs.declared.next.Course.TheVariants.{Loudly};

use crate::next::{Course, Next};
use crate::operands::goes_by;
use bumpalo::Bump;
use cpp_tree::below::BlockKind;
use src_frames::frames::Open;
use symbolic_frames::places::opened_later;
use symbolic_terms::arena::keep;
use symbolic_terms::frames::Exit;
use symbolic_terms::outcomes::{Doing, Leading, Outcome};
use symbolic_terms::places::{Opens, Place};
use symbolic_terms::refusal::Refusal;
use symbolic_terms::words::Words;

// Whether two kinds of atomic blocks are one.
fn same_kind(kind: BlockKind, other: BlockKind) -> bool
    ensures { result ≡ is_same_kind kind other }
{
    match (kind, other) {
        (BlockKind::NoExcept, BlockKind::NoExcept) => true,
        (BlockKind::Commit, BlockKind::Commit) => true,
        (BlockKind::Cancel, BlockKind::Cancel) => true,
        _ => false,
    }
}

// Open blocks without the innermost, if there is one.
fn without_innermost<'a>(opens: Opens<'a>) -> Opens<'a>
    ensures { opens_of result ≡ rest_of (opens_of opens.entry) }
{
    match opens {
        Opens::Empty => Opens::Empty,
        Opens::More(_, rest) => *rest,
    }
}

// A block is entered or left, and these are open after it.
fn opens_then<'a>(
    arena: &'a Bump,
    words: &mut Words<'a>,
    index: u32,
    place: Place<'a>,
    opens: Opens<'a>,
) -> Result<Next<'a>, Refusal>
    ensures is { IfOk result (λ n. (types : ℕ → Typ) (m : Meaning) (o : SourceNext) → Agrees types m words.new → next_of types m n o ≡ coming m Loudly (index + 1) (opened_after (place_of types m place.entry) (opens_of opens.entry)) o) }
    ensures grows { (types : ℕ → Typ) (m : Meaning) → Agrees types m words.new → Agrees types m words.old }
{
    goes_by(
        Course::Loudly,
        index,
        opened_later(arena, words, place, opens)?,
    )
}

// A block is entered.
fn enters<'a>(
    arena: &'a Bump,
    words: &mut Words<'a>,
    index: u32,
    place: Place<'a>,
    block: Open,
) -> Result<Next<'a>, Refusal>
    ensures is { IfOk result (λ n. (types : ℕ → Typ) (m : Meaning) (o : SourceNext) → Agrees types m words.new → next_of types m n o ≡ coming m Loudly (index + 1) (opened_after (place_of types m place.entry) (open_shown block ∷ opens_of place.entry.opens)) o) }
    ensures grows { (types : ℕ → Typ) (m : Meaning) → Agrees types m words.new → Agrees types m words.old }
{
    let opens = Opens::More(block, keep(arena, place.opens)?);
    opens_then(arena, words, index, place, opens)
}

// The innermost block is left.
fn leaves<'a>(
    arena: &'a Bump,
    words: &mut Words<'a>,
    index: u32,
    place: Place<'a>,
) -> Result<Next<'a>, Refusal>
    ensures is { IfOk result (λ n. (types : ℕ → Typ) (m : Meaning) (o : SourceNext) → Agrees types m words.new → next_of types m n o ≡ coming m Loudly (index + 1) (opened_after (place_of types m place.entry) (rest_of (opens_of place.entry.opens))) o) }
    ensures grows { (types : ℕ → Typ) (m : Meaning) → Agrees types m words.new → Agrees types m words.old }
{
    opens_then(arena, words, index, place, without_innermost(place.opens))
}

/// `begin`.
pub fn begins<'a>(
    arena: &'a Bump,
    words: &mut Words<'a>,
    index: u32,
    place: Place<'a>,
    kind: BlockKind,
    outcome: &Outcome<'a>,
) -> Result<Next<'a>, Refusal>
    ensures is { IfOk result (λ n. (types : ℕ → Typ) (m : Meaning) (p : Program) (f : Func) → Agrees types m words.new → next_of types m n (outcome_of types m p f outcome.now) ≡ begins_atomic index (place_of types m place.entry) kind (outcome_of types m p f outcome.now)) }
    ensures grows { (types : ℕ → Typ) (m : Meaning) → Agrees types m words.new → Agrees types m words.old }
{
    match outcome {
        Outcome::Goes(Leading::Does(Doing::BeginsAtomic(begun)), _) => {
            if same_kind(kind, *begun) {
                enters(arena, words, index, place, Open::Atomic(*begun))
            } else {
                Ok(Next::Refused)
            }
        }
        _ => Ok(Next::Refused),
    }
}

/// `bsync`.
pub fn begins_locked<'a>(
    arena: &'a Bump,
    words: &mut Words<'a>,
    index: u32,
    place: Place<'a>,
    outcome: &Outcome<'a>,
) -> Result<Next<'a>, Refusal>
    ensures is { IfOk result (λ n. (types : ℕ → Typ) (m : Meaning) (p : Program) (f : Func) → Agrees types m words.new → next_of types m n (outcome_of types m p f outcome.now) ≡ begins_sync index (place_of types m place.entry) (outcome_of types m p f outcome.now)) }
    ensures grows { (types : ℕ → Typ) (m : Meaning) → Agrees types m words.new → Agrees types m words.old }
{
    match outcome {
        Outcome::Goes(Leading::Does(Doing::BeginsSync), _) => {
            enters(arena, words, index, place, Open::Sync)
        }
        _ => Ok(Next::Refused),
    }
}

/// `end`. A block is left by its end or outward, but not by an exception.
pub fn ends_atomic<'a>(
    arena: &'a Bump,
    words: &mut Words<'a>,
    index: u32,
    place: Place<'a>,
    outcome: &Outcome<'a>,
) -> Result<Next<'a>, Refusal>
    ensures is { IfOk result (λ n. (types : ℕ → Typ) (m : Meaning) (p : Program) (f : Func) → Agrees types m words.new → next_of types m n (outcome_of types m p f outcome.now) ≡ leaves_atomic index (place_of types m place.entry) (outcome_of types m p f outcome.now)) }
    ensures grows { (types : ℕ → Typ) (m : Meaning) → Agrees types m words.new → Agrees types m words.old }
{
    match outcome {
        Outcome::Goes(Leading::Does(Doing::EndsBlock(Open::Atomic(_))), _) => {
            leaves(arena, words, index, place)
        }
        Outcome::Goes(Leading::Does(Doing::LeavesBlock(Open::Atomic(_), exit)), _) => match exit {
            Exit::Returns(_) | Exit::Breaks | Exit::Continues => {
                leaves(arena, words, index, place)
            }
            Exit::Throws(_) => Ok(Next::Refused),
        },
        _ => Ok(Next::Refused),
    }
}

/// `esync`.
pub fn ends_locked<'a>(
    arena: &'a Bump,
    words: &mut Words<'a>,
    index: u32,
    place: Place<'a>,
    outcome: &Outcome<'a>,
) -> Result<Next<'a>, Refusal>
    ensures is { IfOk result (λ n. (types : ℕ → Typ) (m : Meaning) (p : Program) (f : Func) → Agrees types m words.new → next_of types m n (outcome_of types m p f outcome.now) ≡ leaves_sync index (place_of types m place.entry) (outcome_of types m p f outcome.now)) }
    ensures grows { (types : ℕ → Typ) (m : Meaning) → Agrees types m words.new → Agrees types m words.old }
{
    match outcome {
        Outcome::Goes(Leading::Does(Doing::EndsBlock(Open::Sync)), _) => {
            leaves(arena, words, index, place)
        }
        Outcome::Goes(Leading::Does(Doing::LeavesBlock(Open::Sync, _)), _) => {
            leaves(arena, words, index, place)
        }
        _ => Ok(Next::Refused),
    }
}
