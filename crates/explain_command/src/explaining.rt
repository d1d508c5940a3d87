//! The command `explain`.

ghost use Rattle.std.specs.Prelude.{◌≡◌, [], ◌∷◌, map, codes, IfOk};
ghost use Rattle.command_io.specs.Writes.{written_of};
ghost use Rattle.tx_answers.specs.Ends.{Ends};
ghost use Rattle.explain_command.specs.Explain.{DecidesExplanation, Explains, IsUnknown};
ghost use Rattle.rule_texts.specs.Rules.{rule_of};

use command_io::Write;
use rule_texts::{Explanation, explanation};
use std::alloc::{AllocError, Global};
use tx_answers::{Answer, Decision, Status, bare, settle};
use tx_host::Host;

// The lines of an explanation go to the output.
fn explains(alloc: Global, found: Explanation) -> Result<Decision, AllocError>
    ensures { IfOk result (λ d. Explains found d.answer (map written_of d.writes.items)) }
{
    let text = found.lines.as_bytes().to_vec(alloc)?;
    let writes = vec![in alloc; Write::Out(text)]?;
    Ok(Decision {
        answer: bare(Status::Done),
        writes,
    })
}

// No rule has this name.
fn unknown(alloc: Global) -> Result<Decision, AllocError>
    ensures { IfOk result (λ d. IsUnknown d.answer (map written_of d.writes.items)) }
{
    let line = b"usage\n".to_vec(alloc)?;
    let writes = vec![in alloc; Write::Err(line)]?;
    Ok(Decision {
        answer: bare(Status::Usage),
        writes,
    })
}

// What the command decides.
fn decided(alloc: Global, rule: &str) -> Result<Decision, AllocError>
    ensures { IfOk result (λ d. DecidesExplanation rule.now [] d.answer (map written_of d.writes.items)) }
{
    match explanation(rule) {
        Some(found) => explains(alloc, found),
        None => unknown(alloc),
    }
}

/// Writes what a refusal of this name means. A name that no refusal of a source has is a faulty command line.
pub fn explain<H: Host>(alloc: Global, rule: &str, host: &mut H) -> Answer
    ensures { Ends [] (DecidesExplanation rule.now) (H.state host.old) (H.state host.new) result }
{
    settle(host, decided(alloc, rule))
}
