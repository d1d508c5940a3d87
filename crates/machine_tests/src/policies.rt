//! Policies and pickers, over real closures: `policy older 3 5 0` asks what a transaction of that age does at a clash with an
//! older or a younger one, after so many waits.
ghost use Rattle.std.specs.Prelude.{◌≡◌};

use case_texts::field;
use choosers::named::{clash_first, clash_next, listed, older, polite, round, yielding};
use choosers::picker::Picker;
use choosers::policy::{AnyRule, OlderRule, Policy};
use choosers::{Choice, Clash, Seen};
use std::alloc::{AllocError, Global};
use tx_events::TurnKind;

/// A clash with one transaction.
fn clash(mine: u64, least: u64, waits: u32) -> Clash
    ensures { result ≡ record { mine = mine; least = least; greatest = least; count = 1; waits = waits } }
{
    Clash {
        mine,
        least,
        greatest: least,
        count: 1,
        waits,
    }
}

/// What a policy answers.
fn chosen(name: &str, clash: &Clash) -> Choice {
    match name {
        "older" => {
            let policy: Policy<OlderRule, _> = Policy::new(|c: &Clash| older(c));
            policy.ask(clash)
        }
        "yield" => {
            let policy: Policy<AnyRule, _> = Policy::new(|c: &Clash| yielding(c));
            policy.ask(clash)
        }
        _ => {
            let policy: Policy<AnyRule, _> = Policy::new(|c: &Clash| polite(c));
            policy.ask(clash)
        }
    }
}

/// What a picker sees of one thread.
fn seen_alone(turn: u32, inside: bool) -> Seen {
    Seen {
        turn,
        started: 1,
        last: None,
        inside,
    }
}

/// What a picker picks that changes what it captures.
fn picked(alloc: Global) -> Result<String, AllocError> {
    let mut last = 0u8;
    let mut picker = Picker::new(
        move |s: &Seen| {
            if s.inside {
                last = 1;
            }
            last % 3
        },
        3,
    );
    let first = picker.pick(&seen_alone(0, false));
    let second = picker.pick(&seen_alone(1, true));
    let third = picker.pick(&seen_alone(2, false));
    format!(in alloc; "{first} {second} {third}")
}

/// What is seen of three threads behind seven turns.
fn seen_behind(last: TurnKind, inside: bool) -> Seen
    ensures { result.started ≡ 3 }
{
    Seen {
        turn: 7,
        started: 3,
        last: Some(last),
        inside,
    }
}

/// What the pickers pick that have names.
fn named(alloc: Global) -> Result<String, AllocError> {
    let first = Seen {
        turn: 0,
        started: 3,
        last: None,
        inside: false,
    };
    let done = seen_behind(TurnKind::Ran, false);
    let lists = [listed(&[2, 1, 0], &first), listed(&[2, 1, 0], &done)];
    format!(in alloc;
        "{} {} {} {} {} {} {} {lists:?}",
        round(1, &first),
        round(1, &done),
        round(4, &done),
        clash_first(&first),
        clash_next(2, &done),
        clash_next(2, &seen_behind(TurnKind::Ran, true)),
        clash_next(0, &seen_behind(TurnKind::Idle, false))
    )
}

/// The answer to a word.
pub fn answer(alloc: Global, word: &str, rest: &str) -> Result<String, AllocError> {
    let name = field(rest, ' ', 0);
    let mine = field(rest, ' ', 1).parse::<u64>().unwrap_or(0);
    let least = field(rest, ' ', 2).parse::<u64>().unwrap_or(0);
    let waits = field(rest, ' ', 3).parse::<u32>().unwrap_or(0);
    match word {
        "policy" => format!(in alloc; "{:?}", chosen(name, &clash(mine, least, waits))),
        "picker" => picked(alloc),
        _ => named(alloc),
    }
}
