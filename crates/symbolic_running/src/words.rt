//! The words of a call (C++14 5.2.2).

ghost use Rattle.std.specs.Prelude.{ℕ, ◌≡◌, ◌∷◌, [], IfOk};
ghost use Rattle.cpp_tree.specs.cpp_types.Typ.{Typ};
ghost use Rattle.src_frames.specs.Bounds.{all_kids};
ghost use Rattle.symbolic_source.specs.Steps.{result_words as words_of_result, first_word as word_at_first, second_word as word_at_second, built_in as runs_built_in, invoked as invokes, next_word as goes_to_word, called as calls_so, target_of, source_of};
ghost use Rattle.symbolic_terms.specs.Meanings.{Meaning, word_of, words_of, Agrees};
ghost use Rattle.symbolic_terms.specs.Shown.{way_of, callee_of};
ghost use Rattle.symbolic_leaving.specs.Source.{types_at, units_of};
ghost use Rattle.symbolic_leaving.specs.Shown.{left_in, waits_in, outcome_at};

use bumpalo::Bump;
use cpp_tree::Builtin;
use cpp_tree::below::End;
use src_frames::frames::Owner;
use src_frames::trees::{KidsAt, head, rest as rest_of};
use symbolic_leaving::source::Source;
use symbolic_leaving::states::{Made, calls, comes, number, run_before, scoped, spawns};
use symbolic_terms::arena::keep;
use symbolic_terms::frames::{CallFrame, Callee, Frame, ValueFrame, Way};
use symbolic_terms::ids::{Terms, WordId};
use symbolic_terms::made::low_byte;
use symbolic_terms::outcomes::{Doing, Outcome, Rest};
use symbolic_terms::refusal::Refusal;
use symbolic_terms::words::Words;

/// Where objects are built; 0 for a value.
pub fn target_of_way<'a>(words: &mut Words<'a>, way: Way) -> Result<WordId, Refusal>
    ensures is { IfOk result (λ w. (types : ℕ → Typ) (m : Meaning) → Agrees types m words.new → word_of m w ≡ target_of (way_of types m way)) }
    ensures grows { (types : ℕ → Typ) (m : Meaning) → Agrees types m words.new → Agrees types m words.old }
{
    match way {
        Way::Value => number(words, 0),
        Way::Into { target, source: _ } => Ok(target),
    }
}

/// Where what is copied comes from; 0 for a value.
pub fn source_of_way<'a>(words: &mut Words<'a>, way: Way) -> Result<WordId, Refusal>
    ensures is { IfOk result (λ w. (types : ℕ → Typ) (m : Meaning) → Agrees types m words.new → word_of m w ≡ source_of (way_of types m way)) }
    ensures grows { (types : ℕ → Typ) (m : Meaning) → Agrees types m words.new → Agrees types m words.old }
{
    match way {
        Way::Value => number(words, 0),
        Way::Into { target: _, source } => Ok(source),
    }
}

/// One word.
pub fn one_word<'a>(arena: &'a Bump, word: WordId) -> Result<Terms<'a>, Refusal>
    ensures { IfOk result (λ v. (m : Meaning) → words_of m v ≡ word_of m word ∷ []) }
{
    Ok(Terms::More(word, keep(arena, Terms::Empty)?))
}

/// Two words.
pub fn two_words<'a>(arena: &'a Bump, word: WordId, other: WordId) -> Result<Terms<'a>, Refusal>
    ensures { IfOk result (λ v. (m : Meaning) → words_of m v ≡ word_of m word ∷ word_of m other ∷ []) }
{
    let behind = one_word(arena, other)?;
    Ok(Terms::More(word, keep(arena, behind)?))
}

/// The words before those of a call: the address of a class result.
pub fn result_words<'a>(
    arena: &'a Bump,
    source: &Source<'a>,
    way: Way,
) -> Result<Terms<'a>, Refusal>
    ensures { IfOk result (λ v. (m : Meaning) → words_of m v ≡ words_of_result (way_of (types_at source.now) m way)) }
{
    let _shown = source;
    match way {
        Way::Value => Ok(Terms::Empty),
        Way::Into { target, source: _ } => one_word(arena, target),
    }
}

// The first word, or 0.
fn first_word<'a>(words: &mut Words<'a>, arguments: Terms<'a>) -> Result<WordId, Refusal>
    ensures is { IfOk result (λ w. (types : ℕ → Typ) (m : Meaning) → Agrees types m words.new → word_of m w ≡ word_at_first (words_of m arguments.entry)) }
    ensures grows { (types : ℕ → Typ) (m : Meaning) → Agrees types m words.new → Agrees types m words.old }
{
    match arguments {
        Terms::Empty => number(words, 0),
        Terms::More(word, _) => Ok(word),
    }
}

// The second word, or 0.
fn second_word<'a>(words: &mut Words<'a>, arguments: Terms<'a>) -> Result<WordId, Refusal>
    ensures is { IfOk result (λ w. (types : ℕ → Typ) (m : Meaning) → Agrees types m words.new → word_of m w ≡ word_at_second (words_of m arguments.entry)) }
    ensures grows { (types : ℕ → Typ) (m : Meaning) → Agrees types m words.new → Agrees types m words.old }
{
    match arguments {
        Terms::Empty => number(words, 0),
        Terms::More(_, others) => first_word(words, *others),
    }
}

// A function that needs no declaration.
fn built_in<'a>(
    arena: &'a Bump,
    words: &mut Words<'a>,
    source: &Source<'a>,
    rest: Rest<'a>,
    which: Builtin,
    arguments: Terms<'a>,
) -> Made<'a>
    ensures is { IfOk result (λ o. (m : Meaning) → Agrees (types_at source.now) m words.new → outcome_at source.now m o ≡ runs_built_in (waits_in source.now m rest.entry) which (words_of m arguments.entry) (left_in source.now m rest.entry)) }
    ensures grows { (types : ℕ → Typ) (m : Meaning) → Agrees types m words.new → Agrees types m words.old }
{
    match which {
        Builtin::PutChar => {
            let word = first_word(words, arguments)?;
            let byte = low_byte(arena, words, word)?;
            comes(
                arena,
                source,
                rest,
                Doing::PutsOut(byte),
                Frame::Gives(byte),
            )
        }
        Builtin::GetChar => {
            let then = Frame::Value(ValueFrame::Replied);
            comes(arena, source, rest, Doing::TakesIn, then)
        }
        Builtin::Spawn => {
            let address = first_word(words, arguments)?;
            let argument = second_word(words, arguments)?;
            Ok(spawns(source, rest, address, argument))
        }
        Builtin::Join => {
            let doing = Doing::Joins(first_word(words, arguments)?);
            let zero = number(words, 0)?;
            comes(arena, source, rest, doing, Frame::Gives(zero))
        }
        Builtin::Abort => Ok(Outcome::Halts(End::Abort)),
    }
}

// All words are there.
fn invoked<'a>(
    arena: &'a Bump,
    words: &mut Words<'a>,
    source: &Source<'a>,
    rest: Rest<'a>,
    callee: Callee,
    arguments: Terms<'a>,
) -> Made<'a>
    ensures is { IfOk result (λ o. (m : Meaning) → Agrees (types_at source.now) m words.new → outcome_at source.now m o ≡ invokes (waits_in source.now m rest.entry) (callee_of (types_at source.now) m (units_of source.now) callee) (words_of m arguments.entry) (left_in source.now m rest.entry)) }
    ensures grows { (types : ℕ → Typ) (m : Meaning) → Agrees types m words.new → Agrees types m words.old }
{
    match callee {
        Callee::Builtin(which) => built_in(arena, words, source, rest, which, arguments),
        Callee::Known(_) | Callee::Virtual { .. } | Callee::Pointer { .. } => {
            Ok(calls(source, rest, callee, arguments))
        }
    }
}

/// The next word, or the call.
#[tactic(auto, using(crate::proofs::Looks::word_more, crate::proofs::Looks::word_none))]
pub fn next_word<'a>(
    arena: &'a Bump,
    words: &mut Words<'a>,
    source: &Source<'a>,
    rest: Rest<'a>,
    callee: Callee,
    before: Terms<'a>,
    trees: KidsAt,
) -> Made<'a>
    ensures is { IfOk result (λ o. (m : Meaning) → Agrees (types_at source.now) m words.new → outcome_at source.now m o ≡ goes_to_word (waits_in source.now m rest.entry) (callee_of (types_at source.now) m (units_of source.now) callee) (words_of m before.entry) (all_kids source.now.bound.now trees) (left_in source.now m rest.entry)) }
    ensures grows { (types : ℕ → Typ) (m : Meaning) → Agrees types m words.new → Agrees types m words.old }
{
    match head(source.bound, trees) {
        Some(word) => {
            let then = CallFrame::Words {
                callee,
                before,
                rest: rest_of(source.bound, trees),
            };
            run_before(arena, source, rest, word, Frame::Call(then))
        }
        None => invoked(arena, words, source, rest, callee, before),
    }
}

/// Words and call, in the scope of the argument objects.
pub fn called<'a>(
    arena: &'a Bump,
    words: &mut Words<'a>,
    source: &Source<'a>,
    rest: Rest<'a>,
    callee: Callee,
    before: Terms<'a>,
    trees: KidsAt,
) -> Made<'a>
    ensures is { IfOk result (λ o. (m : Meaning) → Agrees (types_at source.now) m words.new → outcome_at source.now m o ≡ calls_so (waits_in source.now m rest.entry) (callee_of (types_at source.now) m (units_of source.now) callee) (words_of m before.entry) (all_kids source.now.bound.now trees) (left_in source.now m rest.entry)) }
    ensures grows { (types : ℕ → Typ) (m : Meaning) → Agrees types m words.new → Agrees types m words.old }
{
    let rest = scoped(arena, source, rest, Owner::Call, true)?;
    next_word(arena, words, source, rest, callee, before, trees)
}
