//! Worked runs of lists of events, with one policy or another: `turns crossed older 2 | 0 0 1 | order load:65536` takes three
//! turns of two threads, and asks for the order and a word.
ghost use Rattle.std.specs.Prelude.{◌≡◌, ◌<◌, ◌≤◌, true, length, IfOk};
ghost use Rattle.std.specs.Fn.{FnReturnsAt};
ghost use Rattle.choosers.specs.Answers.{KeepsRule};
ghost use Rattle.tx_events.specs.Script.{is_lawful};
ghost use Rattle.tx_runtime.specs.Runtime.{machine_of, limit_of};

use crate::events::events_of;
use case_texts::{add_word, field};
use choosers::named::{older, polite};
use choosers::policy::{AnyRule, OlderRule, Policy, Rule};
use choosers::{Choice, Clash};
use std::alloc::{AllocError, Global};
use tx_events::script::Script;
use tx_events::{Actor, Event};
use tx_memory::Memory;
use tx_runtime::Runtime;

/// The runtime before the first of these events, with two words of globals and one byte of input.
fn start(alloc: Global, events: Vec<Event>, threads: u8) -> Result<Runtime<Script>, AllocError>
    requires lawful { is_lawful events.items ≡ true }
    requires some { 0 < threads }
    requires few { threads ≤ 64 }
    ensures limit { IfOk result (λ r. limit_of r ≡ threads) }
    ensures births { IfOk result (λ r. (machine_of r).births ≡ 0) }
    ensures depth { IfOk result (λ r. (machine_of r).lock.depth ≡ 0) }
{
    let memory = Memory::new(alloc, &[], 16, threads)?;
    let input = Vec::from_array(alloc, [9])?;
    Runtime::new(alloc, Script::new(events), memory, input, threads)
}

/// Takes these turns while the program goes on, and writes what each was.
fn take_turns<R: Rule, F: Fn(&Clash) -> Choice>(
    alloc: Global,
    runtime: &mut Runtime<Script>,
    policy: &Policy<R, F>,
    threads: u8,
    turns: &[u8],
) -> Result<String, AllocError>
    requires few { length turns.now ≤ 100 }
    requires limit { limit_of runtime.old ≡ threads }
    requires births { (machine_of runtime.old).births ≡ 0 }
    requires depth { (machine_of runtime.old).lock.depth ≡ 0 }
    requires keeps { KeepsRule (F.IsAlwaysCallable policy.now.answer) (FnReturnsAt F.Fn policy.now.answer) R.allows }
{
    let mut line = String::new(alloc);
    for n in 0..turns.len() {
        let t = turns[n];
        if t < threads {
            if runtime.end().is_none() {
                let kind = runtime.turn(t, policy)?;
                line.push_str(&format!(in alloc; "{kind:?}, ")?)?;
            }
        }
    }
    Ok(line)
}

/// What is asked of a thread that was started.
fn of_thread(
    alloc: Global,
    runtime: &Runtime<Script>,
    name: &str,
    t: u8,
    word: u64,
) -> Result<String, AllocError> {
    if t >= runtime.started() {
        return format!(in alloc; "{}", runtime.actor(t).is_some());
    }
    match name {
        "inside" => format!(in alloc; "{}", runtime.inside(t)),
        "holds" => format!(in alloc; "{:?}", runtime.holders().holds(word, t)),
        "marks" => format!(in alloc; "{:?}", runtime.log(t).marks()),
        "notes" => format!(in alloc; "{}", runtime.log(t).notes().len()),
        _ => format!(in alloc; "{}", runtime.actor(t).is_some()),
    }
}

/// What is asked behind the turns: a name, and behind colons a thread or a word, and a word.
fn asked(alloc: Global, runtime: &Runtime<Script>, text: &str) -> Result<String, AllocError> {
    let name = field(text, ':', 0);
    let number = field(text, ':', 1).parse::<u64>().unwrap_or(0);
    let word = field(text, ':', 2).parse::<u64>().unwrap_or(0);
    match name {
        "order" => format!(in alloc; "{:?}", runtime.order()),
        "out" => format!(in alloc; "{:?}", runtime.out()),
        "end" => format!(in alloc; "{:?}", runtime.end()),
        "started" => format!(in alloc; "{}", runtime.started()),
        "load" => format!(in alloc; "{:?}", runtime.memory().load(number, 8)),
        _ => of_thread(
            alloc,
            runtime,
            name,
            u8::try_from(number).unwrap_or(0),
            word,
        ),
    }
}

/// The threads of the turns.
fn turns_of(alloc: Global, text: &str) -> Result<Vec<u8>, AllocError> {
    let mut turns = Vec::new(alloc);
    for word in text.split(' ') {
        turns.push(word.parse::<u8>().unwrap_or(0))?;
    }
    Ok(turns)
}

/// The kinds of the turns, and what is asked behind them.
fn told<R: Rule, F: Fn(&Clash) -> Choice>(
    alloc: Global,
    events: Vec<Event>,
    policy: &Policy<R, F>,
    threads: u8,
    case: &str,
) -> Result<String, AllocError>
    requires lawful { is_lawful events.items ≡ true }
    requires keeps { KeepsRule (F.IsAlwaysCallable policy.now.answer) (FnReturnsAt F.Fn policy.now.answer) R.allows }
{
    let (turns, questions) = case.split_once(" | ").unwrap_or((case, ""));
    let turns = turns_of(alloc, turns)?;
    if threads == 0 || threads > 64 || turns.len() > 100 {
        return format!(in alloc; "too many");
    }
    let mut runtime = start(alloc, events, threads)?;
    let mut line = take_turns(alloc, &mut runtime, policy, threads, &turns)?;
    for question in questions.split(' ') {
        let answer = asked(alloc, &runtime, question)?;
        add_word(&mut line, &answer)?;
    }
    Ok(line)
}

/// The answer to a case: a list of events, a policy and a number of threads, turns and questions.
pub fn answer(alloc: Global, case: &str) -> Result<String, AllocError> {
    let (head, rest) = case.split_once(" | ").unwrap_or((case, ""));
    let events = events_of(alloc, field(head, ' ', 0))?;
    let name = field(head, ' ', 1);
    let threads = field(head, ' ', 2).parse::<u8>().unwrap_or(1);
    if name == "polite" {
        let policy: Policy<AnyRule, _> = Policy::new(|c: &Clash| polite(c));
        return told(alloc, events, &policy, threads, rest);
    }
    let policy: Policy<OlderRule, _> = Policy::new(|c: &Clash| older(c));
    told(alloc, events, &policy, threads, rest)
}
