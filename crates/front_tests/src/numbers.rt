// Whole numbers: `number Add Int 3 4`, `number width Int`. The tables of the operators, of the shifts and of conversions are
// what g++ 12.2.0 for x86-64 answers with `-std=c++14`, as bench/tx_ints/table.cc asks it.

use case_texts::{add_word, field};
use std::alloc::{AllocError, Global};
use tx_ints::*;

const KINDS: [(&str, IntKind); 12] = [
    ("Bool", IntKind::Bool),
    ("Char", IntKind::Char),
    ("SChar", IntKind::SChar),
    ("UChar", IntKind::UChar),
    ("Short", IntKind::Short),
    ("UShort", IntKind::UShort),
    ("Int", IntKind::Int),
    ("UInt", IntKind::UInt),
    ("Long", IntKind::Long),
    ("ULong", IntKind::ULong),
    ("LLong", IntKind::LLong),
    ("ULLong", IntKind::ULLong),
];

// The operators, each with the word that asks for it and for its group.
const OPERATORS: [(&str, &str, BinOp); 16] = [
    ("operators", "Add", BinOp::Add),
    ("operators", "Sub", BinOp::Sub),
    ("operators", "Mul", BinOp::Mul),
    ("operators", "Div", BinOp::Div),
    ("operators", "Rem", BinOp::Rem),
    ("operators", "And", BinOp::And),
    ("operators", "Xor", BinOp::Xor),
    ("operators", "Or", BinOp::Or),
    ("operators", "Lt", BinOp::Lt),
    ("operators", "Gt", BinOp::Gt),
    ("operators", "Le", BinOp::Le),
    ("operators", "Ge", BinOp::Ge),
    ("operators", "Eq", BinOp::Eq),
    ("operators", "Ne", BinOp::Ne),
    ("shifts", "Shl", BinOp::Shl),
    ("shifts", "Shr", BinOp::Shr),
];

// The kind that a word names, or `int`.
fn kind_of(name: &str) -> IntKind {
    for (known, kind) in KINDS.iter() {
        if *known == name {
            return *kind;
        }
    }
    IntKind::Int
}

// A value, or why there is none.
fn shown(alloc: Global, value: Result<i128, ArithTrap>) -> Result<String, AllocError> {
    match value {
        Ok(value) => format!(in alloc; "{value}"),
        Err(trap) => format!(in alloc; "{trap:?}"),
    }
}

// What an operator answers of numbers of a kind.
fn applied(
    alloc: Global,
    op: BinOp,
    kind: IntKind,
    left: i128,
    right: i128,
) -> Result<String, AllocError> {
    if !kind.has(left) {
        return format!(in alloc; "{left} is no {kind:?}");
    }
    match op {
        BinOp::Shl => shown(alloc, apply(BinOp::Shl, kind, left, right)),
        BinOp::Shr => shown(alloc, apply(BinOp::Shr, kind, left, right)),
        _ if kind.has(right) => shown(alloc, apply(op, kind, left, right)),
        _ => format!(in alloc; "{right} is no {kind:?}"),
    }
}

// What the operators answer that a word asks for.
fn operators(
    alloc: Global,
    word: &str,
    kind: IntKind,
    left: i128,
    right: i128,
) -> Result<String, AllocError> {
    let mut line = String::new(alloc);
    for (group, name, op) in OPERATORS.iter() {
        if word == *group || word == *name {
            add_word(&mut line, &applied(alloc, *op, kind, left, right)?)?;
        }
    }
    Ok(line)
}

// What a number converts to in each of the kinds.
fn conversions(alloc: Global, value: i128) -> Result<String, AllocError> {
    let mut line = String::new(alloc);
    for (_, kind) in KINDS.iter() {
        add_word(&mut line, &format!(in alloc; "{}", convert(*kind, value))?)?;
    }
    Ok(line)
}

// What a kind is promoted to, and its common kind with each of the kinds.
fn commons(alloc: Global, kind: IntKind) -> Result<String, AllocError> {
    let mut line = format!(in alloc; "{:?}", promote(kind))?;
    for (_, other) in KINDS.iter() {
        add_word(&mut line, &format!(in alloc; "{:?}", usual(kind, *other))?)?;
    }
    Ok(line)
}

// The number that a word asks for of a kind and a number; that a fact holds is 1.
fn number(word: &str, kind: IntKind, value: i128) -> i128 {
    match word {
        "width" => i128::from(kind.width()),
        "is_signed" => i128::from(kind.is_signed()),
        "least" => kind.least(),
        "greatest" => kind.greatest(),
        "modulus" => kind.modulus(),
        "has" => i128::from(kind.has(value)),
        "convert" => convert(kind, value),
        "reduce" => reduce(kind, value),
        "word" => i128::from(word_of(value)),
        _ => value_of_word(kind, word_of(value)),
    }
}

/// The answer to a question: a word, a kind and up to two numbers.
pub fn answer(alloc: Global, question: &str) -> Result<String, AllocError> {
    let word = field(question, ' ', 0);
    let kind = kind_of(field(question, ' ', 1));
    let left = field(question, ' ', 2).parse::<i128>().unwrap_or(0);
    let right = field(question, ' ', 3).parse::<i128>().unwrap_or(0);
    match word {
        "negate" if kind.has(left) => shown(alloc, negate(kind, left)),
        "conversions" => conversions(alloc, left),
        "commons" => commons(alloc, kind),
        "width"
        | "is_signed"
        | "least"
        | "greatest"
        | "modulus"
        | "has"
        | "convert"
        | "reduce"
        | "word"
        | "value" => shown(alloc, Ok(number(word, kind, left))),
        _ => operators(alloc, word, kind, left, right),
    }
}
