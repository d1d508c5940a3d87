//! What clap is told of the command line: one function for each command, with its arguments. And the matches of the words.
ghost use Rattle.std.specs.Prelude.{◌≡◌, IfOk, MatchOption, IfSome, IsNone, map, true, false, [], Ok, Some, None, codes};
ghost use Rattle.std.specs.String.{string_bytes};
ghost use Rattle.clap.specs.Words.{App, app_of, rule_of, takes, fault_of, subcommand_of, subcommand_rows_of, new_app, with_rule};
ghost use Rattle.clap.specs.declared.builder.command.Command.TheViews.{out-Command as fields_of};
ghost use Rattle.tx_words.specs.Line.{option_rule, required_rule, number_rule, flag_rule, word_rule, words_rule, size_rule, run_options, with_rules};
ghost use Rattle.tx_words.specs.Line.{run_app, check_app, selftest_app, build_app, exec_app, replay_app, dis_app, asm_app, races_app, explain_app, bare_app, txcc_app};

use clap::error::ErrorKind;
use clap::{Arg, ArgAction, ArgMatches, Command};
use std::alloc::{AllocError, Global};

/// `--NAME VALUE`.
fn option<'a>(alloc: Global, name: &'a str) -> Arg<'a>
    ensures rule { rule_of result ≡ option_rule name.now }
    ensures global { result.global ≡ false }
{
    Arg::new(alloc, name).long(name).action(ArgAction::Set)
}

/// `--NAME VALUE`, which may not be left out.
fn required<'a>(alloc: Global, name: &'a str) -> Arg<'a>
    ensures rule { rule_of result ≡ required_rule name.now }
    ensures global { result.global ≡ false }
{
    option(alloc, name).required(true)
}

/// `--NAME`.
fn flag<'a>(alloc: Global, name: &'a str) -> Arg<'a>
    ensures rule { rule_of result ≡ flag_rule name.now }
    ensures global { result.global ≡ false }
{
    Arg::new(alloc, name).long(name).action(ArgAction::SetTrue)
}

/// One word.
fn word<'a>(alloc: Global, name: &'a str) -> Arg<'a>
    ensures rule { rule_of result ≡ word_rule name.now }
    ensures global { result.global ≡ false }
{
    Arg::new(alloc, name).required(true).action(ArgAction::Set)
}

/// One word or more.
fn words<'a>(alloc: Global, name: &'a str) -> Arg<'a>
    ensures rule { rule_of result ≡ words_rule name.now }
    ensures global { result.global ≡ false }
{
    Arg::new(alloc, name)
        .required(true)
        .action(ArgAction::Append)
        .num_args(1..)
}

/// `--steps N`.
fn steps<'a>(alloc: Global) -> Arg<'a>
    ensures rule { rule_of result ≡ number_rule (codes "steps") 4000000 }
    ensures global { result.global ≡ false }
{
    option(alloc, "steps").value_parser(clap::value_parser!(u64).range(0..=4_000_000))
}

/// `--cost N`.
fn cost<'a>(alloc: Global) -> Arg<'a>
    ensures rule { rule_of result ≡ number_rule (codes "cost") 100000000 }
    ensures global { result.global ≡ false }
{
    option(alloc, "cost").value_parser(clap::value_parser!(u64).range(0..=100_000_000))
}

/// The word N of `selftest`.
fn size<'a>(alloc: Global) -> Arg<'a>
    ensures rule { rule_of result ≡ size_rule }
    ensures global { result.global ≡ false }
{
    word(alloc, "n").value_parser(clap::value_parser!(u64).range(1..=400))
}

/// `arg`, of an argument that is not global.
fn with<'a>(command: Command<'a>, arg: Arg<'a>) -> Result<Command<'a>, AllocError>
    requires { arg.global ≡ false }
    ensures app { IfOk result (λ c. app_of c ≡ with_rule (app_of command.entry) (rule_of arg.entry)) }
    ensures local { IfOk result (λ c. (fields_of c).has_globals ≡ (fields_of command.entry).has_globals) }
{
    command.arg(arg)
}

/// The command of this name with the options of a run.
fn runner<'a>(alloc: Global, name: &'a str) -> Result<Command<'a>, AllocError>
    ensures app { IfOk result (λ c. app_of c ≡ with_rules (new_app name.now) run_options) }
    ensures local { IfOk result (λ c. (fields_of c).has_globals ≡ false) }
{
    let command = with(Command::new(alloc, name), steps(alloc))?;
    let command = with(command, option(alloc, "input"))?;
    let command = with(command, option(alloc, "pick"))?;
    let command = with(command, option(alloc, "policy"))?;
    let command = with(command, option(alloc, "order"))?;
    with(command, option(alloc, "record"))
}

fn run<'a>(alloc: Global) -> Result<Command<'a>, AllocError>
    ensures app { IfOk result (λ c. app_of c ≡ run_app) }
    ensures local { IfOk result (λ c. (fields_of c).has_globals ≡ false) }
{
    let command = with(runner(alloc, "run")?, flag(alloc, "fold"))?;
    with(command, words(alloc, "sources"))
}

fn check<'a>(alloc: Global) -> Result<Command<'a>, AllocError>
    ensures app { IfOk result (λ c. app_of c ≡ check_app) }
    ensures local { IfOk result (λ c. (fields_of c).has_globals ≡ false) }
{
    let command = with(Command::new(alloc, "check"), flag(alloc, "dump"))?;
    with(command, words(alloc, "sources"))
}

fn selftest<'a>(alloc: Global) -> Result<Command<'a>, AllocError>
    ensures app { IfOk result (λ c. app_of c ≡ selftest_app) }
    ensures local { IfOk result (λ c. (fields_of c).has_globals ≡ false) }
{
    with(Command::new(alloc, "selftest"), size(alloc))
}

fn build<'a>(alloc: Global) -> Result<Command<'a>, AllocError>
    ensures app { IfOk result (λ c. app_of c ≡ build_app) }
    ensures local { IfOk result (λ c. (fields_of c).has_globals ≡ false) }
{
    let command = with(Command::new(alloc, "build"), flag(alloc, "fold"))?;
    let command = with(command, required(alloc, "to"))?;
    with(command, word(alloc, "source"))
}

fn exec<'a>(alloc: Global) -> Result<Command<'a>, AllocError>
    ensures app { IfOk result (λ c. app_of c ≡ exec_app) }
    ensures local { IfOk result (λ c. (fields_of c).has_globals ≡ false) }
{
    with(runner(alloc, "exec")?, words(alloc, "objects"))
}

fn replay<'a>(alloc: Global) -> Result<Command<'a>, AllocError>
    ensures app { IfOk result (λ c. app_of c ≡ replay_app) }
    ensures local { IfOk result (λ c. (fields_of c).has_globals ≡ false) }
{
    let command = with(Command::new(alloc, "replay"), option(alloc, "input"))?;
    let command = with(command, cost(alloc))?;
    let command = with(command, required(alloc, "order"))?;
    with(command, words(alloc, "sources"))
}

fn dis<'a>(alloc: Global) -> Result<Command<'a>, AllocError>
    ensures app { IfOk result (λ c. app_of c ≡ dis_app) }
    ensures local { IfOk result (λ c. (fields_of c).has_globals ≡ false) }
{
    with(Command::new(alloc, "dis"), word(alloc, "object"))
}

fn asm<'a>(alloc: Global) -> Result<Command<'a>, AllocError>
    ensures app { IfOk result (λ c. app_of c ≡ asm_app) }
    ensures local { IfOk result (λ c. (fields_of c).has_globals ≡ false) }
{
    let command = with(Command::new(alloc, "asm"), required(alloc, "to"))?;
    with(command, word(alloc, "text"))
}

fn races<'a>(alloc: Global) -> Result<Command<'a>, AllocError>
    ensures app { IfOk result (λ c. app_of c ≡ races_app) }
    ensures local { IfOk result (λ c. (fields_of c).has_globals ≡ false) }
{
    let command = with(runner(alloc, "races")?, flag(alloc, "fold"))?;
    let command = with(command, required(alloc, "report"))?;
    with(command, words(alloc, "sources"))
}

fn explain<'a>(alloc: Global) -> Result<Command<'a>, AllocError>
    ensures app { IfOk result (λ c. app_of c ≡ explain_app) }
    ensures local { IfOk result (λ c. (fields_of c).has_globals ≡ false) }
{
    with(Command::new(alloc, "explain"), word(alloc, "rule"))
}

/// The command line before it has a command.
fn bare<'a>(alloc: Global) -> Command<'a>
    ensures { app_of result ≡ bare_app }
{
    Command::new(alloc, "txcc")
        .no_binary_name(true)
        .disable_help_subcommand(true)
        .subcommand_required(true)
}

/// The whole command line.
fn txcc<'a>(alloc: Global) -> Result<Command<'a>, AllocError>
    ensures { IfOk result (λ c. app_of c ≡ txcc_app) }
{
    bare(alloc)
        .subcommand(run(alloc)?)?
        .subcommand(check(alloc)?)?
        .subcommand(selftest(alloc)?)?
        .subcommand(build(alloc)?)?
        .subcommand(exec(alloc)?)?
        .subcommand(replay(alloc)?)?
        .subcommand(dis(alloc)?)?
        .subcommand(asm(alloc)?)?
        .subcommand(races(alloc)?)?
        .subcommand(explain(alloc)?)
}

/// The matches of the words, or none where clap does not take them.
pub fn matches_of<'a>(
    alloc: Global,
    words: &'a [String],
) -> Result<Option<ArgMatches<'a>>, AllocError>
    ensures none { result ≡ Ok None → takes txcc_app (map string_bytes words.now) ≡ false }
    ensures fault { result ≡ Ok None → fault_of txcc_app (map string_bytes words.now) ≡ [] → ⊥ }
    ensures some { IfOk result (λ o. IfSome o (λ m.
        (fault_of txcc_app (map string_bytes words.now) ≡ [])
        × (subcommand_rows_of m ≡ subcommand_of txcc_app (map string_bytes words.now)))) }
{
    match txcc(alloc)?.try_get_matches_from(words) {
        Ok(matches) => Ok(Some(matches)),
        Err(error) => match error.kind() {
            ErrorKind::OutOfMemory => Err(AllocError),
            _ => Ok(None),
        },
    }
}
