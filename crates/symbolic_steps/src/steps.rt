//! Steps.

ghost use Rattle.std.specs.Prelude.{ℕ, ◌≡◌, IfOk};
ghost use Rattle.cpp_tree.specs.cpp_types.Typ.{Typ};
ghost use Rattle.symbolic_source.specs.Steps.{step_of, advanced as advances};
ghost use Rattle.symbolic_terms.specs.Meanings.{Meaning, Agrees};
ghost use Rattle.symbolic_leaving.specs.Source.{types_at, linked_to, func_of};
ghost use Rattle.symbolic_leaving.specs.Answers.{answers_at};
ghost use Rattle.symbolic_leaving.specs.Shown.{outcome_at};

use crate::giving::give;
use bumpalo::Bump;
use std::alloc::Global;
use symbolic_leaving::answers::CaseAnswers;
use symbolic_leaving::source::Source;
use symbolic_leaving::states::{Made, number};
use symbolic_terms::outcomes::{Doing, Leading, Outcome};
use symbolic_terms::words::Words;

/// What a silent step leads to.
pub fn step<'a>(
    alloc: Global,
    arena: &'a Bump,
    words: &mut Words<'a>,
    source: &Source<'a>,
    answers: CaseAnswers<'_>,
    outcome: Outcome<'a>,
) -> Made<'a>
    ensures is { IfOk result (λ o. (m : Meaning) → Agrees (types_at source.now) m words.new → outcome_at source.now m o ≡ step_of (linked_to source.now) (func_of source.now) (answers_at source.now answers.entry) (outcome_at source.now m outcome.entry)) }
    ensures grows { (types : ℕ → Typ) (m : Meaning) → Agrees types m words.new → Agrees types m words.old }
{
    match outcome {
        Outcome::Goes(Leading::Does(doing), rest) => match doing {
            Doing::Silent => {
                let zero = number(words, 0)?;
                give(
                    alloc,
                    arena,
                    words,
                    source,
                    answers,
                    rest.temporaries,
                    zero,
                    rest.frames,
                )
            }
            Doing::Reads { .. } | Doing::Writes { .. } | Doing::PutsOut(_) => Ok(Outcome::Stuck),
            Doing::TakesIn | Doing::Joins(_) | Doing::BeginsAtomic(_) => Ok(Outcome::Stuck),
            Doing::BeginsSync | Doing::EndsBlock(_) | Doing::LeavesBlock(..) => Ok(Outcome::Stuck),
        },
        Outcome::Goes(Leading::Calls { .. }, _) => Ok(Outcome::Stuck),
        Outcome::Goes(Leading::Spawns { .. } | Leading::Rethrows, _) => Ok(Outcome::Stuck),
        Outcome::Stuck | Outcome::Hands(..) | Outcome::GoesOut(..) => Ok(Outcome::Stuck),
        Outcome::Chooses { .. } | Outcome::Results { .. } => Ok(Outcome::Stuck),
        Outcome::Finds { .. } | Outcome::Halts(_) => Ok(Outcome::Stuck),
    }
}

/// What so many silent steps lead to.
#[tactic(auto, using(crate::proofs::Counts::advanced_next))]
pub fn advanced<'a>(
    alloc: Global,
    arena: &'a Bump,
    words: &mut Words<'a>,
    source: &Source<'a>,
    answers: CaseAnswers<'_>,
    steps: u32,
    outcome: Outcome<'a>,
) -> Made<'a>
    ensures is { IfOk result (λ o. (m : Meaning) → Agrees (types_at source.now) m words.new → outcome_at source.now m o ≡ advances (linked_to source.now) (func_of source.now) (answers_at source.now answers.entry) steps (outcome_at source.now m outcome.entry)) }
    ensures grows { (types : ℕ → Typ) (m : Meaning) → Agrees types m words.new → Agrees types m words.old }
{
    if steps == 0 {
        return Ok(outcome);
    }
    let next = step(alloc, arena, words, source, answers, outcome)?;
    advanced(alloc, arena, words, source, answers, steps - 1, next)
}
