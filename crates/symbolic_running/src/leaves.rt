//! The words of leaves: numbers, places of the frame, globals, functions.

ghost use Rattle.std.specs.Prelude.{ℕ, ◌≡◌, IfOk, slice_get, unwrap_or};
ghost use Rattle.cpp_tree.specs.cpp_types.Typ.{Typ};
ghost use Rattle.symbolic_source.specs.Terms.{number as number_of_term, local as local_of, global as global_of, function as function_of, table as table_of};
ghost use Rattle.symbolic_source.specs.Steps.{if_word};
ghost use Rattle.symbolic_terms.specs.Meanings.{Meaning, Agrees};
ghost use Rattle.symbolic_leaving.specs.Source.{types_at, func_of};
ghost use Rattle.symbolic_running.specs.Next.{next_of, given_at};

use crate::next::{Going, Next};
use symbolic_leaving::answers::CaseAnswers;
use symbolic_leaving::source::Source;
use symbolic_leaving::states::{local, number};
use symbolic_terms::made::{function, global, table};
use symbolic_terms::outcomes::Rest;
use symbolic_terms::words::Words;

/// A number goes on.
pub(crate) fn literal<'a>(
    words: &mut Words<'a>,
    source: &Source<'a>,
    answers: CaseAnswers<'_>,
    rest: Rest<'a>,
    word: u64,
) -> Going<'a>
    ensures is { IfOk result (λ o. (m : Meaning) → Agrees (types_at source.now) m words.new → next_of source.now m answers.entry rest.entry o ≡ if_word word (given_at source.now m answers.entry rest.entry (number_of_term word))) }
    ensures grows { (types : ℕ → Typ) (m : Meaning) → Agrees types m words.new → Agrees types m words.old }
{
    let _shown = source;
    let _asked = answers;
    let _left = rest;
    Ok(Next::Gives(number(words, word)?))
}

/// 0 goes on.
pub(crate) fn zero<'a>(
    words: &mut Words<'a>,
    source: &Source<'a>,
    answers: CaseAnswers<'_>,
    rest: Rest<'a>,
) -> Going<'a>
    ensures is { IfOk result (λ o. (m : Meaning) → Agrees (types_at source.now) m words.new → next_of source.now m answers.entry rest.entry o ≡ given_at source.now m answers.entry rest.entry (number_of_term 0)) }
    ensures grows { (types : ℕ → Typ) (m : Meaning) → Agrees types m words.new → Agrees types m words.old }
{
    let _shown = source;
    let _asked = answers;
    let _left = rest;
    Ok(Next::Gives(number(words, 0)?))
}

/// The address of a place of the frame goes on.
pub(crate) fn place_word<'a>(
    words: &mut Words<'a>,
    source: &Source<'a>,
    answers: CaseAnswers<'_>,
    rest: Rest<'a>,
    place: u32,
) -> Going<'a>
    ensures is { IfOk result (λ o. (m : Meaning) → Agrees (types_at source.now) m words.new → next_of source.now m answers.entry rest.entry o ≡ given_at source.now m answers.entry rest.entry (local_of (unwrap_or (slice_get (func_of source.now).places place) 0))) }
    ensures grows { (types : ℕ → Typ) (m : Meaning) → Agrees types m words.new → Agrees types m words.old }
{
    let _shown = source;
    let _asked = answers;
    let _left = rest;
    Ok(Next::Gives(local(words, source, place)?))
}

/// The address of a global goes on.
pub(crate) fn global_word<'a>(
    words: &mut Words<'a>,
    source: &Source<'a>,
    answers: CaseAnswers<'_>,
    rest: Rest<'a>,
    number: u32,
) -> Going<'a>
    ensures is { IfOk result (λ o. (m : Meaning) → Agrees (types_at source.now) m words.new → next_of source.now m answers.entry rest.entry o ≡ given_at source.now m answers.entry rest.entry (global_of number)) }
    ensures grows { (types : ℕ → Typ) (m : Meaning) → Agrees types m words.new → Agrees types m words.old }
{
    let _shown = source;
    let _asked = answers;
    let _left = rest;
    Ok(Next::Gives(global(words, number)?))
}

/// The address of a function goes on.
pub(crate) fn function_word<'a>(
    words: &mut Words<'a>,
    source: &Source<'a>,
    answers: CaseAnswers<'_>,
    rest: Rest<'a>,
    func: u32,
) -> Going<'a>
    ensures is { IfOk result (λ o. (m : Meaning) → Agrees (types_at source.now) m words.new → next_of source.now m answers.entry rest.entry o ≡ given_at source.now m answers.entry rest.entry (function_of func)) }
    ensures grows { (types : ℕ → Typ) (m : Meaning) → Agrees types m words.new → Agrees types m words.old }
{
    let _shown = source;
    let _asked = answers;
    let _left = rest;
    Ok(Next::Gives(function(words, func)?))
}

/// A class address goes on.
pub(crate) fn table_word<'a>(
    words: &mut Words<'a>,
    source: &Source<'a>,
    answers: CaseAnswers<'_>,
    rest: Rest<'a>,
    class: u32,
) -> Going<'a>
    ensures is { IfOk result (λ o. (m : Meaning) → Agrees (types_at source.now) m words.new → next_of source.now m answers.entry rest.entry o ≡ given_at source.now m answers.entry rest.entry (table_of class)) }
    ensures grows { (types : ℕ → Typ) (m : Meaning) → Agrees types m words.new → Agrees types m words.old }
{
    let _shown = source;
    let _asked = answers;
    let _left = rest;
    Ok(Next::Gives(table(words, class)?))
}
