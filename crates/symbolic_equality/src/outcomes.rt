//! Whether outcomes and places are the same.

ghost use Rattle.std.specs.Prelude.{ℕ, ◌≡◌, ◌↔◌, List, IsTrue};
ghost use Rattle.cpp_tree.specs.cpp_types.Typ.{Typ};
ghost use Rattle.cpp_tree.specs.declared.program.Program.{Program};
ghost use Rattle.src_mean.specs.Linked.{Func};
ghost use Rattle.symbolic_source.specs.Frames as symbolic;
ghost use Rattle.symbolic_terms.specs.Meanings.{Meaning, Agrees};
ghost use Rattle.symbolic_terms.specs.Shown.{all_waiting, frames_of, doing_of, leading_of, outcome_of, hold_of, opens_of, place_of};

use crate::frames::equal_frames;
use crate::parts::{
    equal_callees, equal_ends, equal_exits, equal_opens, equal_operators, equal_waitings,
};
use symbolic_terms::comparison::{
    equal_exception_lists, equal_given, equal_lists, equal_thrown, equal_words,
};
use symbolic_terms::outcomes::{Doing, Leading, Outcome, Rest};
use symbolic_terms::places::{Hold, Opens, Place};
use symbolic_terms::words::Words;

/// Whether two are the same: an event.
pub fn equal_doings(words: &Words<'_>, left: &Doing, right: &Doing) -> bool
    ensures shows { IsTrue result → (types : ℕ → Typ) (m : Meaning) (p : Program) (f : Func) → Agrees types m words.now → doing_of types m p f left.now ≡ doing_of types m p f right.now }
{
    match (left, right) {
        (Doing::Silent, Doing::Silent) => true,
        (
            Doing::Reads {
                address,
                size,
                volatile,
            },
            Doing::Reads {
                address: other_address,
                size: other_size,
                volatile: other_volatile,
            },
        ) => equal_words(words, *address, *other_address)
            && *size == *other_size
            && *volatile == *other_volatile,
        (
            Doing::Writes {
                address,
                kind,
                word,
                volatile,
            },
            Doing::Writes {
                address: other_address,
                kind: other_kind,
                word: other_word,
                volatile: other_volatile,
            },
        ) => equal_words(words, *address, *other_address)
            && *kind == *other_kind
            && equal_words(words, *word, *other_word)
            && *volatile == *other_volatile,
        (Doing::PutsOut(word), Doing::PutsOut(other_word)) => equal_words(
            words,
            *word,
            *other_word,
        ),
        (Doing::TakesIn, Doing::TakesIn) => true,
        (Doing::Joins(word), Doing::Joins(other_word)) => equal_words(words, *word, *other_word),
        (Doing::BeginsAtomic(kind), Doing::BeginsAtomic(other_kind)) => *kind == *other_kind,
        (Doing::BeginsSync, Doing::BeginsSync) => true,
        (Doing::EndsBlock(block), Doing::EndsBlock(other_block)) => equal_opens(
            *block,
            *other_block,
        ),
        (Doing::LeavesBlock(block, exit), Doing::LeavesBlock(other_block, other_exit)) =>
            equal_opens(*block, *other_block) && equal_exits(words, exit, other_exit),
        _ => false,
    }
}

/// Whether two are the same: what a state does, or asks for.
pub fn equal_leadings(words: &Words<'_>, left: &Leading<'_>, right: &Leading<'_>) -> bool
    ensures shows { IsTrue result → (types : ℕ → Typ) (m : Meaning) (p : Program) (f : Func) (ws : List symbolic.Waiting) (k : List symbolic.Frame) → Agrees types m words.now → leading_of types m p f left.now ws k ≡ leading_of types m p f right.now ws k }
{
    match (left, right) {
        (Leading::Does(doing), Leading::Does(other_doing)) => equal_doings(
            words,
            doing,
            other_doing,
        ),
        (
            Leading::Calls {
                callee,
                words: passed,
            },
            Leading::Calls {
                callee: other_callee,
                words: other_passed,
            },
        ) => equal_callees(words, callee, other_callee) && equal_lists(words, passed, other_passed),
        (
            Leading::Spawns { address, argument },
            Leading::Spawns {
                address: other_address,
                argument: other_argument,
            },
        ) => equal_words(words, *address, *other_address)
            && equal_words(words, *argument, *other_argument),
        (Leading::Rethrows, Leading::Rethrows) => true,
        _ => false,
    }
}

/// Whether two are the same: what functions have left to do.
pub fn equal_rests(words: &Words<'_>, left: &Rest<'_>, right: &Rest<'_>) -> bool
    ensures temporaries { IsTrue result → (types : ℕ → Typ) (m : Meaning) (p : Program) → Agrees types m words.now → all_waiting types m p left.now.temporaries ≡ all_waiting types m p right.now.temporaries }
    ensures frames { IsTrue result → (types : ℕ → Typ) (m : Meaning) (p : Program) (f : Func) → Agrees types m words.now → frames_of types m p f left.now.frames ≡ frames_of types m p f right.now.frames }
{
    equal_waitings(words, &left.temporaries, &right.temporaries)
        && equal_frames(words, &left.frames, &right.frames)
}

/// Whether two are the same: what comes of a step.
#[tactic(auto, using(crate::proofs::Asked::same_results))]
pub fn equal_outcomes(words: &Words<'_>, left: &Outcome<'_>, right: &Outcome<'_>) -> bool
    ensures shows { IsTrue result → (types : ℕ → Typ) (m : Meaning) (p : Program) (f : Func) → Agrees types m words.now → outcome_of types m p f left.now ≡ outcome_of types m p f right.now }
{
    match left {
        Outcome::Stuck => match right {
            Outcome::Stuck => true,
            _ => false,
        },
        Outcome::Goes(leading, rest) => match right {
            Outcome::Goes(other_leading, other_rest) => {
                equal_leadings(words, leading, other_leading)
                    && equal_rests(words, rest, other_rest)
            }
            _ => false,
        },
        Outcome::Hands(word, temporaries) => match right {
            Outcome::Hands(other_word, other_temporaries) => {
                equal_words(words, *word, *other_word)
                    && equal_waitings(words, temporaries, other_temporaries)
            }
            _ => false,
        },
        Outcome::GoesOut(exit, temporaries) => match right {
            Outcome::GoesOut(other_exit, other_temporaries) => {
                equal_exits(words, exit, other_exit)
                    && equal_waitings(words, temporaries, other_temporaries)
            }
            _ => false,
        },
        Outcome::Chooses { word, zero, other } => match right {
            Outcome::Chooses {
                word: other_word,
                zero: other_zero,
                other: other_other,
            } => {
                equal_words(words, *word, *other_word)
                    && equal_outcomes(words, zero, other_zero)
                    && equal_outcomes(words, other, other_other)
            }
            _ => false,
        },
        Outcome::Results {
            op,
            kind,
            left,
            right: operand,
            then,
        } => match right {
            Outcome::Results {
                op: other_op,
                kind: other_kind,
                left: other_left,
                right: other_operand,
                then: other_then,
            } => {
                equal_operators(*op, *kind, *other_op, *other_kind)
                    && equal_words(words, *left, *other_left)
                    && equal_words(words, *operand, *other_operand)
                    && equal_outcomes(words, then, other_then)
            }
            _ => false,
        },
        Outcome::Finds {
            class,
            slot,
            address,
            then,
        } => match right {
            Outcome::Finds {
                class: other_class,
                slot: other_slot,
                address: other_address,
                then: other_then,
            } => {
                *class == *other_class
                    && *slot == *other_slot
                    && equal_words(words, *address, *other_address)
                    && equal_outcomes(words, then, other_then)
            }
            _ => false,
        },
        Outcome::Halts(end) => match right {
            Outcome::Halts(other_end) => equal_ends(*end, *other_end),
            _ => false,
        },
    }
}

/// Whether two are the same: lists of open blocks.
pub fn equal_open_lists(left: &Opens<'_>, right: &Opens<'_>) -> bool
    ensures { IsTrue result ↔ (opens_of left.now ≡ opens_of right.now) }
{
    match (left, right) {
        (Opens::Empty, Opens::Empty) => true,
        (Opens::More(open, rest), Opens::More(other_open, others)) => {
            equal_opens(*open, *other_open) && equal_open_lists(rest, others)
        }
        _ => false,
    }
}

/// Whether two are the same: a frame's exception.
pub fn equal_holds(words: &Words<'_>, left: &Hold, right: &Hold) -> bool
    ensures shows { IsTrue result → (types : ℕ → Typ) (m : Meaning) → Agrees types m words.now → hold_of types m left.now ≡ hold_of types m right.now }
{
    match (left, right) {
        (Hold::Nothing, Hold::Nothing) => true,
        (Hold::Making(typ, puts), Hold::Making(other_typ, other_puts)) => *typ == *other_typ
            && equal_given(words, *puts, *other_puts),
        (Hold::Flying(exception), Hold::Flying(other_exception)) => equal_thrown(
            words,
            *exception,
            *other_exception,
        ),
        _ => false,
    }
}

/// Whether two are the same: places.
pub fn equal_places(words: &Words<'_>, left: &Place<'_>, right: &Place<'_>) -> bool
    ensures shows { IsTrue result → (types : ℕ → Typ) (m : Meaning) → Agrees types m words.now → place_of types m left.now ≡ place_of types m right.now }
{
    equal_lists(words, &left.operands, &right.operands)
        && equal_open_lists(&left.opens, &right.opens)
        && equal_exception_lists(words, &left.caught, &right.caught)
        && equal_holds(words, &left.hold, &right.hold)
}
