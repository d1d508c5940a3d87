//! The top call: from words to what is written.

ghost use Rattle.std.specs.Prelude.{◌≡◌, ◌≤◌, [], map, length, IfOk, codes, string_bytes, ℕ, List};
ghost use Rattle.run_command.specs.command_io.Writes.{written_of};
ghost use Rattle.run_command.specs.tx_answers.Ends.{Ends, bare};
ghost use Rattle.txcc_core.specs.TopCall.{Answers, CanDo, Does, DecidesUsage, no_files, Builds};

use check_command::check;
use explain_command::explain;
use races_command::races;
use replay_command::replay;
use run_command::below::{
    Answer, Build, Command, Decision, Host, Status, Write, bare, exec, settle,
    tx_words_read as read,
};
use run_command::{build, run, selftest};
use std::alloc::{AllocError, Global};
use text_commands::{asm, dis};

// What is written where the words say no command.
fn usage_lines(alloc: Global) -> Result<Decision, AllocError>
    ensures { IfOk result (λ d. DecidesUsage [] d.answer (map written_of d.writes.items)) }
{
    let line = b"usage\n".to_vec(alloc)?;
    let writes = vec![in alloc; Write::Err(line)]?;
    Ok(Decision {
        answer: bare(Status::Usage),
        writes,
    })
}

// Says that the words say no command.
fn usage<H: Host>(alloc: Global, host: &mut H) -> Answer
    ensures { Ends no_files DecidesUsage (H.state host.old) (H.state host.new) result }
{
    settle(host, usage_lines(alloc))
}

// Writes an object.
fn build_object<H: Host>(alloc: Global, options: &Build, host: &mut H) -> Answer
    ensures { Builds options.now (H.state host.old) (H.state host.new) result }
{
    build(
        alloc,
        options.fold,
        options.source.as_str(),
        options.object_file.as_str(),
        host,
    )
}

// Does a command.
fn execute<H: Host>(alloc: Global, command: &Command, host: &mut H) -> Answer
    requires { CanDo command.now }
    ensures { Does command.now (H.state host.old) (H.state host.new) result }
{
    match command {
        Command::Run(options) => run(alloc, options, host),
        Command::Build(options) => build_object(alloc, options, host),
        Command::Selftest(n) => selftest(alloc, *n, host),
        Command::Dis(object) => dis(alloc, object.as_str(), host),
        Command::Asm(options) => asm(
            alloc,
            options.text.as_str(),
            options.object_file.as_str(),
            host,
        ),
        Command::Exec(options) => exec(alloc, options, host),
        Command::Check(options) => check(alloc, options, host),
        Command::Explain(rule) => explain(alloc, rule.as_str(), host),
        Command::Replay(options) => replay(alloc, options, host),
        Command::Races(options) => races(alloc, options, host),
    }
}

/// Does the command that the words say, the words behind the program's name, and answers how it ended.
///
/// The files that the command names are read in their order, each within its limit. Then the output is written, and then
/// the lines for the error output. The answer's status says which of these steps ended the call.
pub fn txcc<H: Host>(alloc: Global, words: &[String], host: &mut H) -> Answer
    ensures answers { Answers (map string_bytes words.now) (H.state host.old) (H.state host.new) result }
{
    match read(alloc, words) {
        Ok(Some(command)) => execute(alloc, &command, host),
        Ok(None) => usage(alloc, host),
        Err(_) => bare(Status::Memory),
    }
}
