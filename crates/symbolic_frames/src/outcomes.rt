//! Terms in the place of the variables of events, outcomes, places and facts.

ghost use Rattle.std.specs.Prelude.{ℕ, ◌≡◌, List, IfOk};
ghost use Rattle.cpp_tree.specs.cpp_types.Typ.{Typ};
ghost use Rattle.cpp_tree.specs.declared.program.Program.{Program};
ghost use Rattle.src_mean.specs.Linked.{Func};
ghost use Rattle.symbolic_source.specs.Frames as symbolic;
ghost use Rattle.symbolic_source.specs.Replacing.{in_waitings, in_frames, in_doing, in_outcome};
ghost use Rattle.symbolic_code.specs.Facts.{in_fact, in_facts};
ghost use Rattle.body_check.specs.Notes.{in_caught, in_hold, in_place};
ghost use Rattle.symbolic_terms.specs.Meanings.{Meaning, all_thrown, Agrees};
ghost use Rattle.symbolic_terms.specs.Replaced.{replacing_of};
ghost use Rattle.symbolic_terms.specs.Shown.{all_waiting, frames_of, doing_of, leading_of, outcome_of, hold_of, place_of, fact_of, facts_of};

use crate::replaced::{replaced_callee, replaced_exit, replaced_frames, replaced_waitings};
use bumpalo::Bump;
use symbolic_terms::arena::keep;
use symbolic_terms::ids::Exceptions;
use symbolic_terms::outcomes::{Doing, Leading, Outcome, Rest};
use symbolic_terms::places::{Fact, Facts, Hold, Place};
use symbolic_terms::refusal::Refusal;
use symbolic_terms::replacing::{
    Replacing, replaced_given, replaced_thrown, replaced_word, replaced_words,
};
use symbolic_terms::words::Words;

/// The same with these terms in the place of variables: an event.
pub fn replaced_doing<'a>(
    arena: &'a Bump,
    words: &mut Words<'a>,
    with: Replacing<'a>,
    doing: Doing,
) -> Result<Doing, Refusal>
    ensures is { IfOk result (λ c. (types : ℕ → Typ) (m : Meaning) (p : Program) (f : Func) → Agrees types m words.new → doing_of types m p f c ≡ in_doing (replacing_of types with.entry) (doing_of types m p f doing)) }
    ensures grows { (types : ℕ → Typ) (m : Meaning) → Agrees types m words.new → Agrees types m words.old }
{
    match doing {
        Doing::Silent => Ok(Doing::Silent),
        Doing::Reads {
            address,
            size,
            volatile,
        } => Ok(Doing::Reads {
            address: replaced_word(arena, words, with, address)?,
            size,
            volatile,
        }),
        Doing::Writes {
            address,
            kind,
            word,
            volatile,
        } => Ok(Doing::Writes {
            address: replaced_word(arena, words, with, address)?,
            kind,
            word: replaced_word(arena, words, with, word)?,
            volatile,
        }),
        Doing::PutsOut(byte) => Ok(Doing::PutsOut(replaced_word(arena, words, with, byte)?)),
        Doing::TakesIn => Ok(Doing::TakesIn),
        Doing::Joins(id) => Ok(Doing::Joins(replaced_word(arena, words, with, id)?)),
        Doing::BeginsAtomic(kind) => Ok(Doing::BeginsAtomic(kind)),
        Doing::BeginsSync => Ok(Doing::BeginsSync),
        Doing::EndsBlock(block) => Ok(Doing::EndsBlock(block)),
        Doing::LeavesBlock(block, exit) => {
            Ok(Doing::LeavesBlock(block, replaced_exit(arena, words, with, exit)?))
        }
    }
}

/// The same with these terms in the place of variables: what a state does, or asks for.
pub fn replaced_leading<'a>(
    arena: &'a Bump,
    words: &mut Words<'a>,
    with: Replacing<'a>,
    leading: Leading<'a>,
) -> Result<Leading<'a>, Refusal>
    ensures is { IfOk result (λ c. (types : ℕ → Typ) (m : Meaning) (p : Program) (f : Func) (ws : List symbolic.Waiting) (k : List symbolic.Frame) → Agrees types m words.new → leading_of types m p f c (in_waitings (replacing_of types with.entry) ws) (in_frames (replacing_of types with.entry) k) ≡ in_outcome (replacing_of types with.entry) (leading_of types m p f leading.entry ws k)) }
    ensures grows { (types : ℕ → Typ) (m : Meaning) → Agrees types m words.new → Agrees types m words.old }
{
    match leading {
        Leading::Does(doing) => Ok(Leading::Does(replaced_doing(arena, words, with, doing)?)),
        Leading::Calls {
            callee,
            words: passed,
        } => {
            let callee = replaced_callee(arena, words, with, callee)?;
            let passed = replaced_words(arena, words, with, passed)?;
            Ok(Leading::Calls {
                callee,
                words: passed,
            })
        }
        Leading::Spawns { address, argument } => {
            let address = replaced_word(arena, words, with, address)?;
            let argument = replaced_word(arena, words, with, argument)?;
            Ok(Leading::Spawns { address, argument })
        }
        Leading::Rethrows => Ok(Leading::Rethrows),
    }
}

/// The same with these terms in the place of variables: what a function has left to do.
pub fn replaced_rest<'a>(
    arena: &'a Bump,
    words: &mut Words<'a>,
    with: Replacing<'a>,
    rest: Rest<'a>,
) -> Result<Rest<'a>, Refusal>
    ensures temporaries { IfOk result (λ c. (types : ℕ → Typ) (m : Meaning) (p : Program) → Agrees types m words.new → all_waiting types m p c.temporaries ≡ in_waitings (replacing_of types with.entry) (all_waiting types m p rest.entry.temporaries)) }
    ensures frames { IfOk result (λ c. (types : ℕ → Typ) (m : Meaning) (p : Program) (f : Func) → Agrees types m words.new → frames_of types m p f c.frames ≡ in_frames (replacing_of types with.entry) (frames_of types m p f rest.entry.frames)) }
    ensures grows { (types : ℕ → Typ) (m : Meaning) → Agrees types m words.new → Agrees types m words.old }
{
    Ok(Rest {
        temporaries: replaced_waitings(arena, words, with, rest.temporaries)?,
        frames: replaced_frames(arena, words, with, rest.frames)?,
    })
}

/// The same with these terms in the place of variables: what comes of a step.
pub fn replaced_outcome<'a>(
    arena: &'a Bump,
    words: &mut Words<'a>,
    with: Replacing<'a>,
    outcome: Outcome<'a>,
) -> Result<Outcome<'a>, Refusal>
    ensures is { IfOk result (λ c. (types : ℕ → Typ) (m : Meaning) (p : Program) (f : Func) → Agrees types m words.new → outcome_of types m p f c ≡ in_outcome (replacing_of types with.entry) (outcome_of types m p f outcome.entry)) }
    ensures grows { (types : ℕ → Typ) (m : Meaning) → Agrees types m words.new → Agrees types m words.old }
{
    match outcome {
        Outcome::Stuck => Ok(Outcome::Stuck),
        Outcome::Goes(leading, rest) => {
            let leading = replaced_leading(arena, words, with, leading)?;
            Ok(Outcome::Goes(leading, replaced_rest(arena, words, with, rest)?))
        }
        Outcome::Hands(word, temporaries) => {
            let word = replaced_word(arena, words, with, word)?;
            Ok(Outcome::Hands(word, replaced_waitings(arena, words, with, temporaries)?))
        }
        Outcome::GoesOut(exit, temporaries) => {
            let exit = replaced_exit(arena, words, with, exit)?;
            Ok(Outcome::GoesOut(exit, replaced_waitings(arena, words, with, temporaries)?))
        }
        Outcome::Chooses { word, zero, other } => {
            let zero = keep(arena, replaced_outcome(arena, words, with, *zero)?)?;
            let other = keep(arena, replaced_outcome(arena, words, with, *other)?)?;
            let word = replaced_word(arena, words, with, word)?;
            Ok(Outcome::Chooses { word, zero, other })
        }
        Outcome::Results {
            op,
            kind,
            left,
            right,
            then,
        } => {
            let then = keep(arena, replaced_outcome(arena, words, with, *then)?)?;
            let left = replaced_word(arena, words, with, left)?;
            let right = replaced_word(arena, words, with, right)?;
            Ok(Outcome::Results {
                op,
                kind,
                left,
                right,
                then,
            })
        }
        Outcome::Finds {
            class,
            slot,
            address,
            then,
        } => {
            let then = keep(arena, replaced_outcome(arena, words, with, *then)?)?;
            let address = replaced_word(arena, words, with, address)?;
            Ok(Outcome::Finds {
                class,
                slot,
                address,
                then,
            })
        }
        Outcome::Halts(end) => Ok(Outcome::Halts(end)),
    }
}

/// The same with these terms in the place of variables: the exceptions of entered handlers.
pub fn replaced_caught<'a>(
    arena: &'a Bump,
    words: &mut Words<'a>,
    with: Replacing<'a>,
    caught: Exceptions<'a>,
) -> Result<Exceptions<'a>, Refusal>
    ensures is { IfOk result (λ c. (types : ℕ → Typ) (m : Meaning) → Agrees types m words.new → all_thrown m c ≡ in_caught (replacing_of types with.entry) (all_thrown m caught.entry)) }
    ensures grows { (types : ℕ → Typ) (m : Meaning) → Agrees types m words.new → Agrees types m words.old }
{
    match caught {
        Exceptions::Empty => Ok(Exceptions::Empty),
        Exceptions::More(exception, rest) => {
            let exception = replaced_thrown(arena, words, with, exception)?;
            let rest = keep(arena, replaced_caught(arena, words, with, *rest)?)?;
            Ok(Exceptions::More(exception, rest))
        }
    }
}

/// The same with these terms in the place of variables: a frame's exception.
pub fn replaced_hold<'a>(
    arena: &'a Bump,
    words: &mut Words<'a>,
    with: Replacing<'a>,
    hold: Hold,
) -> Result<Hold, Refusal>
    ensures is { IfOk result (λ c. (types : ℕ → Typ) (m : Meaning) → Agrees types m words.new → hold_of types m c ≡ in_hold (replacing_of types with.entry) (hold_of types m hold)) }
    ensures grows { (types : ℕ → Typ) (m : Meaning) → Agrees types m words.new → Agrees types m words.old }
{
    match hold {
        Hold::Nothing => Ok(Hold::Nothing),
        Hold::Making(typ, puts) => Ok(Hold::Making(typ, replaced_given(arena, words, with, puts)?)),
        Hold::Flying(exception) => Ok(Hold::Flying(replaced_thrown(
            arena, words, with, exception,
        )?)),
    }
}

/// The same with these terms in the place of variables: a place.
pub fn replaced_place<'a>(
    arena: &'a Bump,
    words: &mut Words<'a>,
    with: Replacing<'a>,
    place: Place<'a>,
) -> Result<Place<'a>, Refusal>
    ensures is { IfOk result (λ c. (types : ℕ → Typ) (m : Meaning) → Agrees types m words.new → place_of types m c ≡ in_place (replacing_of types with.entry) (place_of types m place.entry)) }
    ensures grows { (types : ℕ → Typ) (m : Meaning) → Agrees types m words.new → Agrees types m words.old }
{
    Ok(Place {
        operands: replaced_words(arena, words, with, place.operands)?,
        opens: place.opens,
        caught: replaced_caught(arena, words, with, place.caught)?,
        hold: replaced_hold(arena, words, with, place.hold)?,
    })
}

/// The same with these terms in the place of variables: what is known of a word.
pub fn replaced_fact<'a>(
    arena: &'a Bump,
    words: &mut Words<'a>,
    with: Replacing<'a>,
    fact: Fact,
) -> Result<Fact, Refusal>
    ensures is { IfOk result (λ c. (types : ℕ → Typ) (m : Meaning) → Agrees types m words.new → fact_of types m c ≡ in_fact (replacing_of types with.entry) (fact_of types m fact)) }
    ensures grows { (types : ℕ → Typ) (m : Meaning) → Agrees types m words.new → Agrees types m words.old }
{
    match fact {
        Fact::NotZero(word) => Ok(Fact::NotZero(replaced_word(arena, words, with, word)?)),
        Fact::HasFunction {
            class,
            slot,
            address,
        } => Ok(Fact::HasFunction {
            class,
            slot,
            address: replaced_word(arena, words, with, address)?,
        }),
    }
}

/// The same with these terms in the place of variables: what is known.
pub fn replaced_facts<'a>(
    arena: &'a Bump,
    words: &mut Words<'a>,
    with: Replacing<'a>,
    facts: Facts<'a>,
) -> Result<Facts<'a>, Refusal>
    ensures is { IfOk result (λ c. (types : ℕ → Typ) (m : Meaning) → Agrees types m words.new → facts_of types m c ≡ in_facts (replacing_of types with.entry) (facts_of types m facts.entry)) }
    ensures grows { (types : ℕ → Typ) (m : Meaning) → Agrees types m words.new → Agrees types m words.old }
{
    match facts {
        Facts::Empty => Ok(Facts::Empty),
        Facts::More(fact, rest) => {
            let fact = replaced_fact(arena, words, with, fact)?;
            let rest = keep(arena, replaced_facts(arena, words, with, *rest)?)?;
            Ok(Facts::More(fact, rest))
        }
    }
}
