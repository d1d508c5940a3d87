// Cases of commands: the words, and behind bars the files of the host, `fails=2` for a host whose call number 2 fails, and what
// is shown beside the status and what was written: a file, `number`, `ran`, `counts` or `refusal`. With `end` the error output is
// shown as far as its first line, which says how a run ended: the numbers behind it are those of the code that was made.

use case_texts::{bytes_of, words_of};
use std::alloc::{AllocError, Global};
use tx_host::{MemHost, SteadyHost};
use txcc_core::{Answer, txcc};

// A case.
#[derive(Drop)]
struct Case {
    words: Vec<String>,
    files: Vec<(String, Vec<u8>)>,
    fails: Vec<u64>,
    shown: Vec<String>,
}

// A part of a case is added to it.
fn add_part(alloc: Global, case: &mut Case, part: &str) -> Result<(), AllocError> {
    let Some((name, text)) = part.split_once('=') else {
        case.shown.push(String::from_str(alloc, part)?)?;
        return Ok(());
    };
    if name == "fails" {
        case.fails.push(text.parse::<u64>().unwrap_or(0))?;
        return Ok(());
    }
    let file = (String::from_str(alloc, name)?, bytes_of(alloc, text)?);
    case.files.push(file)?;
    Ok(())
}

// The case of a line.
fn read_case(alloc: Global, line: &str) -> Result<Case, AllocError> {
    let (words, parts) = line.split_once(" | ").unwrap_or((line, ""));
    let mut case = Case {
        words: words_of(alloc, words)?,
        files: Vec::new(alloc),
        fails: Vec::new(alloc),
        shown: Vec::new(alloc),
    };
    for part in parts.split(" | ") {
        add_part(alloc, &mut case, part)?;
    }
    Ok(case)
}

// Whether a case asks for how a run ended alone.
fn asks_end(case: &Case) -> bool {
    for name in &case.shown {
        if name.as_str() == "end" {
            return true;
        }
    }
    false
}

// How many bytes of the error output are shown: those of its first line, or all.
fn shown_length(err: &[u8], ends: bool) -> usize {
    for (index, byte) in err.iter().enumerate() {
        if ends && *byte == b'\n' {
            return index + 1;
        }
    }
    err.len()
}

// The error output, as far as it is shown.
fn shown_lines(err: &[u8], ends: bool) -> &[u8] {
    err.get(..shown_length(err, ends)).unwrap_or(err)
}

// How a command ended, and what it wrote.
fn ended(alloc: Global, answer: &Answer, out: &[u8], err: &[u8]) -> Result<String, AllocError> {
    let status = answer.status;
    format!(in alloc;
        "{status:?} out {} err {}",
        out.escape_ascii(),
        err.escape_ascii()
    )
}

// What was run: how it ended, the threads of its order, and how many turns there were.
fn ran(alloc: Global, answer: &Answer) -> Result<String, AllocError> {
    match &answer.ran {
        Some(ran) => format!(in alloc;
            "ran {:?} {:?} {}",
            ran.end,
            ran.order.as_slice(),
            ran.picked.len()
        ),
        None => format!(in alloc; "ran none"),
    }
}

// Whether turns waited, and whether a transaction was rolled back.
fn counts(alloc: Global, answer: &Answer) -> Result<String, AllocError> {
    match &answer.ran {
        Some(ran) => format!(in alloc; "waited {} rolled {}", ran.waited > 0, ran.rolled > 0),
        None => format!(in alloc; "ran none"),
    }
}

// Why it was refused.
fn refusal(alloc: Global, answer: &Answer) -> Result<String, AllocError> {
    match &answer.refusal {
        Some(refusal) => {
            format!(in alloc;
                "refusal {} {}",
                refusal.number,
                refusal.line.escape_ascii()
            )
        }
        None => format!(in alloc; "refusal none"),
    }
}

// A file of a host, if there is one, and else what the name asks of the answer.
fn shown(
    alloc: Global,
    answer: &Answer,
    name: &str,
    file: Option<&[u8]>,
) -> Result<String, AllocError> {
    match name {
        "number" => format!(in alloc; "number {}", answer.status.number()),
        "ran" => ran(alloc, answer),
        "counts" => counts(alloc, answer),
        "refusal" => refusal(alloc, answer),
        _ => match file {
            Some(bytes) => format!(in alloc; "{name} {}", bytes.escape_ascii()),
            None => format!(in alloc; "{name} none"),
        },
    }
}

// What comes of a case over a host whose calls do not fail.
fn steady(alloc: Global, case: Case) -> Result<String, AllocError> {
    let ends = asks_end(&case);
    let mut host = SteadyHost::new(alloc, case.files)?;
    let answer = txcc(alloc, &case.words, &mut host);
    let mut line = ended(alloc, &answer, host.out(), shown_lines(host.err(), ends))?;
    for name in &case.shown {
        if name.as_str() != "end" {
            let text = shown(alloc, &answer, name, host.file(name))?;
            line.push_str(&format!(in alloc; " {text}")?)?;
        }
    }
    Ok(line)
}

// What comes of a case over a host some of whose calls fail.
fn failing(alloc: Global, case: Case) -> Result<String, AllocError> {
    let ends = asks_end(&case);
    let mut host = MemHost::new(alloc, case.files, case.fails)?;
    let answer = txcc(alloc, &case.words, &mut host);
    let mut line = ended(alloc, &answer, host.out(), shown_lines(host.err(), ends))?;
    for name in &case.shown {
        if name.as_str() != "end" {
            let text = shown(alloc, &answer, name, host.file(name))?;
            line.push_str(&format!(in alloc; " {text}")?)?;
        }
    }
    Ok(line)
}

/// What comes of a case.
pub fn answer(alloc: Global, line: &str) -> Result<String, AllocError> {
    let case = read_case(alloc, line)?;
    if case.fails.is_empty() {
        steady(alloc, case)
    } else {
        failing(alloc, case)
    }
}
