//! The refusals of sources.

ghost use Rattle.std.specs.Prelude.{◌++◌, map, IfOk, codes, string_bytes};
ghost use Rattle.command_io.specs.Writes.{written_of};
ghost use Rattle.tx_answers.specs.Ends.{Refuses};
ghost use Rattle.tx_answers.specs.declared.answer.Status.TheVariants as status;
ghost use Rattle.source_verdict.specs.Places.{place_line};
ghost use Rattle.source_verdict.specs.Verdict.{RefusesAt, RefusesFront, RefusesFault};
ghost use Rattle.source_verdict.specs.Names.{reason_name};

use crate::front::{FrontFault, Unread};
use crate::names::{ill_name, limit_name, override_name, reason_name};
use crate::places::place_line;
use cpp_tree::below::At;
use cpp_tree::{ElabFault, UnsafeReason};
use std::alloc::{AllocError, Global};
use tx_answers::{Decision, Status, refusal};

/// What a refusal says behind the place: its number, its words, its status.
#[derive(Clone, Copy)]
struct What<'a> {
    number: u8,
    word: &'a str,
    rule: &'a str,
    status: Status,
}

// The refusal of a place in this text.
fn refuse(
    alloc: Global,
    name: &str,
    text: &[u8],
    offset: usize,
    what: What<'_>,
) -> Result<Decision, AllocError>
    ensures { IfOk result (λ d. Refuses what.entry.number (place_line name.now text.now offset (what.entry.word.now ++ what.entry.rule.now)) what.entry.status d.answer (map written_of d.writes.items)) }
{
    let line = place_line(alloc, name, text, offset, what.word, what.rule)?;
    refusal(alloc, what.number, line.into_bytes(), what.status)
}

// The refusal of a place in the text with this index. Each text has its name.
fn refuse_in(
    alloc: Global,
    names: &[String],
    texts: &[Vec<u8>],
    index: usize,
    offset: usize,
    what: What<'_>,
) -> Result<Decision, AllocError>
    ensures { IfOk result (λ d. RefusesAt (map string_bytes names.now) (map (λ text. text.items) texts.now) index offset what.entry.number (what.entry.word.now ++ what.entry.rule.now) what.entry.status d.answer (map written_of d.writes.items)) }
{
    let (Some(name), Some(text)) = (names.get(index), texts.get(index)) else {
        return Err(AllocError);
    };
    refuse(alloc, name.as_str(), text.as_slice(), offset, what)
}

/// The refusal of a text that is no unit.
pub fn refuse_front(
    alloc: Global,
    names: &[String],
    texts: &[Vec<u8>],
    unread: Unread,
) -> Result<Decision, AllocError>
    ensures { IfOk result (λ d. RefusesFront (map string_bytes names.now) (map (λ text. text.items) texts.now) unread.index unread.fault d.answer (map written_of d.writes.items)) }
{
    let (offset, what) = match unread.fault {
        FrontFault::Lex { offset } => (
            offset,
            What {
                number: 1,
                word: "Lex",
                rule: "",
                status: Status::Refused,
            },
        ),
        FrontFault::Syntax { offset } => (
            offset,
            What {
                number: 2,
                word: "Syntax",
                rule: "",
                status: Status::Refused,
            },
        ),
        FrontFault::Nesting { offset } => (
            offset,
            What {
                number: 7,
                word: "Limit Nesting",
                rule: "",
                status: Status::Limit,
            },
        ),
        FrontFault::Memory => return Err(AllocError),
    };
    refuse_in(alloc, names, texts, unread.index, offset, what)
}

/// The refusal of units that have no typed program.
pub fn refuse_fault(
    alloc: Global,
    names: &[String],
    texts: &[Vec<u8>],
    fault: ElabFault,
) -> Result<Decision, AllocError>
    ensures { IfOk result (λ d. RefusesFault (map string_bytes names.now) (map (λ text. text.items) texts.now) fault d.answer (map written_of d.writes.items)) }
{
    let (at, what) = match fault {
        ElabFault::Ill { at, rule } => (
            at,
            What {
                number: 3,
                word: "Ill ",
                rule: ill_name(rule),
                status: Status::Refused,
            },
        ),
        ElabFault::Override { at, rule } => (
            at,
            What {
                number: 5,
                word: "Override ",
                rule: override_name(rule),
                status: Status::Refused,
            },
        ),
        ElabFault::JumpIntoBlock { at } => (
            at,
            What {
                number: 6,
                word: "JumpIntoBlock",
                rule: "",
                status: Status::Refused,
            },
        ),
        ElabFault::Limit { at, which } => (
            at,
            What {
                number: 7,
                word: "Limit ",
                rule: limit_name(which),
                status: Status::Limit,
            },
        ),
        ElabFault::Memory => return Err(AllocError),
    };
    refuse_in(
        alloc,
        names,
        texts,
        at.source as usize,
        at.offset as usize,
        what,
    )
}

/// The refusal of a program with this unsafe node.
pub fn refuse_unsafe(
    alloc: Global,
    names: &[String],
    texts: &[Vec<u8>],
    at: At,
    reason: UnsafeReason,
) -> Result<Decision, AllocError>
    ensures { IfOk result (λ d. RefusesAt (map string_bytes names.now) (map (λ text. text.items) texts.now) at.source at.offset 4 (codes "Unsafe " ++ reason_name reason) status.Refused d.answer (map written_of d.writes.items)) }
{
    let what = What {
        number: 4,
        word: "Unsafe ",
        rule: reason_name(reason),
        status: Status::Refused,
    };
    refuse_in(
        alloc,
        names,
        texts,
        at.source as usize,
        at.offset as usize,
        what,
    )
}
