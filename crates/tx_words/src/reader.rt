//! The command that the words say.
ghost use Rattle.std.specs.Prelude.{◌≡◌, ◌≤◌, ◌⊎◌, IfOk, IfSome, map, false, Ok, Some, None, option_map, codes};
ghost use Rattle.std.specs.String.{string_bytes};
ghost use Rattle.clap.specs.Words.{takes, rows_of, found_of, first_of};
ghost use Rattle.tx_words.specs.Line.{txcc_app};
ghost use Rattle.tx_words.specs.Reads.{number_of, flag_of, IsText, AreTexts, AreOptions, IsRun, IsCheck, IsSelftest, IsBuild, IsExec, IsReplay, IsAsm, IsRaces, IsCommand, Says};
ghost use Rattle.tx_words.specs.Reads.{HasNoSuchName, TakesOptions, HasUnknown};
ghost use Rattle.tx_words.specs.Reads.{IsWithin, IsFlag, HasText, HasTexts, FitsRun, FitsCheck, FitsSelftest, FitsBuild, FitsExec, FitsReplay, FitsAsm, FitsRaces, Fits};
ghost use Rattle.tx_words.specs.declared.command.Command.{Command as Commands};

use crate::command::{Asm, Build, Check, Command, Exec, Races, Replay, Run, RunOptions};
use crate::line::matches_of;
use crate::names::{picker_named, policy_named};
use clap::ArgMatches;
use std::alloc::{AllocError, Global};

/// The text of an option, where it is given.
fn text<'a>(matches: &ArgMatches<'a>, id: &str) -> Option<&'a str>
    ensures { option_map (λ s. s.now) result ≡ first_of id.now (rows_of (found_of matches.now)) }
{
    matches.get_str(id)
}

/// A copy of the text of an option, where it is given.
fn text_copied(
    alloc: Global,
    matches: &ArgMatches<'_>,
    id: &str,
) -> Result<Option<String>, AllocError>
    ensures { IfOk result (λ o. option_map string_bytes o ≡ first_of id.now (rows_of (found_of matches.now))) }
{
    match text(matches, id) {
        Some(text) => Ok(Some(text.to_string(alloc)?)),
        None => Ok(None),
    }
}

/// A copy of the text of an argument that is given.
fn given_text(alloc: Global, matches: &ArgMatches<'_>, id: &str) -> Result<String, AllocError>
    requires { HasText id.now (rows_of (found_of matches.now)) }
    ensures { IfOk result (λ s. IsText id.now (rows_of (found_of matches.now)) (string_bytes s)) }
{
    match text(matches, id) {
        Some(text) => text.to_string(alloc),
        None => unreachable!(),
    }
}

fn copies(alloc: Global, texts: &[&str]) -> Result<Vec<String>, AllocError>
    ensures { IfOk result (λ v. map string_bytes v.items ≡ map (λ s. s.now) texts.now) }
{
    let mut copies = Vec::new(alloc);
    for text in texts {
        copies.push(text.to_string(alloc)?)?;
    }
    Ok(copies)
}

/// Copies of the texts of an argument that is given.
fn given_texts(alloc: Global, matches: &ArgMatches<'_>, id: &str) -> Result<Vec<String>, AllocError>
    requires { HasTexts id.now (rows_of (found_of matches.now)) }
    ensures { IfOk result (λ v. AreTexts id.now (rows_of (found_of matches.now)) (map string_bytes v.items)) }
{
    match matches.get_strs(id) {
        Some(texts) => copies(alloc, texts),
        None => unreachable!(),
    }
}

/// The number of an option, whose text is known to be in the range.
fn number(matches: &ArgMatches<'_>, id: &str, low: u64, high: u64) -> Option<u64>
    requires { IsWithin id.now low high (rows_of (found_of matches.now)) }
    ensures value { result ≡ number_of id.now (rows_of (found_of matches.now)) }
    ensures within { IfSome result (λ n. (low ≤ n) × (n ≤ high)) }
{
    let _range = (low, high);
    matches.get_one::<u64>(id)
}

/// Whether a flag is given.
fn flag(matches: &ArgMatches<'_>, id: &str) -> bool
    requires { IsFlag id.now (rows_of (found_of matches.now)) }
    ensures { result ≡ flag_of id.now (rows_of (found_of matches.now)) }
{
    matches.get_flag(id)
}

/// The options of a run, or none where the picker or the policy has no such name.
fn options_of(alloc: Global, matches: &ArgMatches<'_>) -> Result<Option<RunOptions>, AllocError>
    requires { IsWithin (codes "steps") 0 4000000 (rows_of (found_of matches.now)) }
    ensures some { IfOk result (λ o. IfSome o (AreOptions (rows_of (found_of matches.now)))) }
    ensures none { result ≡ Ok None → HasNoSuchName (rows_of (found_of matches.now)) }
{
    let Some(picker) = picker_named(alloc, text(matches, "pick").unwrap_or("round:1"))? else {
        return Ok(None);
    };
    let Some(policy) = policy_named(text(matches, "policy").unwrap_or("older")) else {
        return Ok(None);
    };
    let steps = number(matches, "steps", 0, 4_000_000).unwrap_or(4_000_000) as u32;
    let input_file = text_copied(alloc, matches, "input")?;
    let order_file = text_copied(alloc, matches, "order")?;
    let record_file = text_copied(alloc, matches, "record")?;
    Ok(Some(RunOptions {
        steps,
        input_file,
        picker,
        policy,
        order_file,
        record_file,
    }))
}

fn run_of(alloc: Global, matches: &ArgMatches<'_>) -> Result<Option<Run>, AllocError>
    requires { FitsRun (rows_of (found_of matches.now)) }
    ensures some { IfOk result (λ o. IfSome o (IsRun (rows_of (found_of matches.now)))) }
    ensures none { result ≡ Ok None → HasNoSuchName (rows_of (found_of matches.now)) }
{
    let Some(options) = options_of(alloc, matches)? else {
        return Ok(None);
    };
    let fold = flag(matches, "fold");
    let sources = given_texts(alloc, matches, "sources")?;
    Ok(Some(Run {
        options,
        fold,
        sources,
    }))
}

fn check_of(alloc: Global, matches: &ArgMatches<'_>) -> Result<Check, AllocError>
    requires { FitsCheck (rows_of (found_of matches.now)) }
    ensures { IfOk result (IsCheck (rows_of (found_of matches.now))) }
{
    let dump = flag(matches, "dump");
    let sources = given_texts(alloc, matches, "sources")?;
    Ok(Check { dump, sources })
}

fn exec_of(alloc: Global, matches: &ArgMatches<'_>) -> Result<Option<Exec>, AllocError>
    requires { FitsExec (rows_of (found_of matches.now)) }
    ensures some { IfOk result (λ o. IfSome o (IsExec (rows_of (found_of matches.now)))) }
    ensures none { result ≡ Ok None → HasNoSuchName (rows_of (found_of matches.now)) }
{
    let Some(options) = options_of(alloc, matches)? else {
        return Ok(None);
    };
    let objects = given_texts(alloc, matches, "objects")?;
    Ok(Some(Exec { options, objects }))
}

fn races_of(alloc: Global, matches: &ArgMatches<'_>) -> Result<Option<Races>, AllocError>
    requires { FitsRaces (rows_of (found_of matches.now)) }
    ensures some { IfOk result (λ o. IfSome o (IsRaces (rows_of (found_of matches.now)))) }
    ensures none { result ≡ Ok None → HasNoSuchName (rows_of (found_of matches.now)) }
{
    let Some(run) = run_of(alloc, matches)? else {
        return Ok(None);
    };
    let report_file = given_text(alloc, matches, "report")?;
    Ok(Some(Races { run, report_file }))
}

fn selftest_of(matches: &ArgMatches<'_>) -> u32
    requires { FitsSelftest (rows_of (found_of matches.now)) }
    ensures { IsSelftest (rows_of (found_of matches.now)) result }
{
    match number(matches, "n", 1, 400) {
        Some(n) => n as u32,
        None => unreachable!(),
    }
}

fn build_of(alloc: Global, matches: &ArgMatches<'_>) -> Result<Build, AllocError>
    requires { FitsBuild (rows_of (found_of matches.now)) }
    ensures { IfOk result (IsBuild (rows_of (found_of matches.now))) }
{
    let fold = flag(matches, "fold");
    let object_file = given_text(alloc, matches, "to")?;
    let source = given_text(alloc, matches, "source")?;
    Ok(Build {
        fold,
        object_file,
        source,
    })
}

fn replay_of(alloc: Global, matches: &ArgMatches<'_>) -> Result<Replay, AllocError>
    requires { FitsReplay (rows_of (found_of matches.now)) }
    ensures { IfOk result (IsReplay (rows_of (found_of matches.now))) }
{
    let input_file = text_copied(alloc, matches, "input")?;
    let cost = number(matches, "cost", 0, 100_000_000).unwrap_or(100_000_000) as u32;
    let order_file = given_text(alloc, matches, "order")?;
    let sources = given_texts(alloc, matches, "sources")?;
    Ok(Replay {
        input_file,
        cost,
        order_file,
        sources,
    })
}

fn asm_of(alloc: Global, matches: &ArgMatches<'_>) -> Result<Asm, AllocError>
    requires { FitsAsm (rows_of (found_of matches.now)) }
    ensures { IfOk result (IsAsm (rows_of (found_of matches.now))) }
{
    let object_file = given_text(alloc, matches, "to")?;
    let text = given_text(alloc, matches, "text")?;
    Ok(Asm { object_file, text })
}

fn command_of(
    alloc: Global,
    name: &str,
    matches: &ArgMatches<'_>,
) -> Result<Option<Command>, AllocError>
    requires { Fits name.now (rows_of (found_of matches.now)) }
    ensures some { IfOk result (λ o. IfSome o (IsCommand name.now (rows_of (found_of matches.now)))) }
    ensures none { result ≡ Ok None → TakesOptions name.now × HasNoSuchName (rows_of (found_of matches.now)) }
{
    if name == "run" {
        Ok(run_of(alloc, matches)?.map(Command::Run))
    } else if name == "check" {
        Ok(Some(Command::Check(check_of(alloc, matches)?)))
    } else if name == "selftest" {
        Ok(Some(Command::Selftest(selftest_of(matches))))
    } else if name == "build" {
        Ok(Some(Command::Build(build_of(alloc, matches)?)))
    } else if name == "exec" {
        Ok(exec_of(alloc, matches)?.map(Command::Exec))
    } else if name == "replay" {
        Ok(Some(Command::Replay(replay_of(alloc, matches)?)))
    } else if name == "dis" {
        Ok(Some(Command::Dis(given_text(alloc, matches, "object")?)))
    } else if name == "asm" {
        Ok(Some(Command::Asm(asm_of(alloc, matches)?)))
    } else if name == "races" {
        Ok(races_of(alloc, matches)?.map(Command::Races))
    } else if name == "explain" {
        Ok(Some(Command::Explain(given_text(alloc, matches, "rule")?)))
    } else {
        unreachable!()
    }
}

/// The command that the words say; none is a faulty command line. The words are those after the program's name.
///
/// There is none only where clap does not take the words, or where a picker or policy is asked for that has no such name, and then no command is what they say.
pub fn read(alloc: Global, words: &[String]) -> Result<Option<Command>, AllocError>
    ensures says { IfOk result (λ o. IfSome o (Says (map string_bytes words.now))) }
    ensures refused { result ≡ Ok None → (c : Commands) → Says (map string_bytes words.now) c → ⊥ }
    ensures cause { result ≡ Ok None → (takes txcc_app (map string_bytes words.now) ≡ false) ⊎ HasUnknown (map string_bytes words.now) }
    ensures unknown { HasUnknown (map string_bytes words.now) → IfOk result (λ o. o ≡ None) }
{
    let Some(matches) = matches_of(alloc, words)? else {
        return Ok(None);
    };
    match matches.subcommand() {
        Some((name, inner)) => command_of(alloc, name, inner),
        None => unreachable!(),
    }
}
