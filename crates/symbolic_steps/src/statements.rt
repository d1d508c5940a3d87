//! Statements (C++14 clause 6).

ghost use Rattle.std.specs.Prelude.{ℕ, ◌≡◌, ◌∷◌, ◌^◌, true, nat_lt, IfOk};
ghost use Rattle.cpp_tree.specs.cpp_types.Typ.{Typ};
ghost use Rattle.src_mean.specs.Source.{is_case as is_case_kind, is_default as is_default_kind, from_label, case_word as word_of_case};
ghost use Rattle.src_frames.specs.Bounds.{tree_of, all_kids};
ghost use Rattle.symbolic_source.specs.Terms.{number as number_of_term};
ghost use Rattle.symbolic_source.specs.Frames.{value as for_value, Run as Runs, Gives as GivesWord, Body as Bodies, Items as ItemsOf};
ghost use Rattle.symbolic_source.specs.Outcomes.{silent, goes as goes_on, either as either_of};
ghost use Rattle.symbolic_source.specs.Steps.{if_word, same_word as same_word_of, run_items as runs_items, compared as compares};
ghost use Rattle.symbolic_terms.specs.Meanings.{Meaning, word_of, Agrees};
ghost use Rattle.symbolic_terms.specs.Shown.{statement_of};
ghost use Rattle.symbolic_leaving.specs.Source.{types_at, units_of};
ghost use Rattle.symbolic_leaving.specs.Shown.{left_in, waits_in, outcome_at};
ghost use Rattle.symbolic_running.specs.Next.{next_of, given_to};

use bumpalo::Bump;
use cpp_tree::TKind;
use cpp_tree::below::{BinOp, IntKind};
use src_frames::frames::{LoopParts, Owner};
use src_frames::trees::{KidsAt, head, kind_of, rest as rest_of};
use symbolic_leaving::answers::CaseAnswers;
use symbolic_leaving::leaving::leave;
use symbolic_leaving::roots::{case_word, is_case, is_default};
use symbolic_leaving::source::Source;
use symbolic_leaving::states::{
    Made, either, gives, goes, number, run_before, run_body, run_step, run_test, scoped, with_frame,
};
use symbolic_running::next::{Going, Next, When};
use symbolic_terms::frames::{Exit, Frame, StatementFrame};
use symbolic_terms::ids::WordId;
use symbolic_terms::made::applied;
use symbolic_terms::outcomes::Rest;
use symbolic_terms::refusal::Refusal;
use symbolic_terms::words::Words;

// From the first `case` on.
#[tactic(auto, using(crate::proofs::Labels::fewer, crate::proofs::Labels::label_next, crate::proofs::Labels::label_here, crate::proofs::Labels::label_none))]
fn from_case(source: &Source<'_>, items: KidsAt) -> KidsAt
    ensures { all_kids source.now.bound.now result ≡ from_label is_case_kind (all_kids source.now.bound.now items) }
{
    let mut at = items;
    while let Some(item) = head(source.bound, at) {
        if is_case(kind_of(source.bound, item)) {
            return at;
        }
        at = rest_of(source.bound, at);
    }
    at
}

// From `default` on.
#[tactic(auto, using(crate::proofs::Labels::fewer, crate::proofs::Labels::label_next, crate::proofs::Labels::label_here, crate::proofs::Labels::label_none))]
fn from_default(source: &Source<'_>, items: KidsAt) -> KidsAt
    ensures { all_kids source.now.bound.now result ≡ from_label is_default_kind (all_kids source.now.bound.now items) }
{
    let mut at = items;
    while let Some(item) = head(source.bound, at) {
        if is_default(kind_of(source.bound, item)) {
            return at;
        }
        at = rest_of(source.bound, at);
    }
    at
}

/// Goes on with a value for a statement.
pub(crate) fn give_statement<'a>(
    arena: &'a Bump,
    words: &mut Words<'a>,
    source: &Source<'a>,
    answers: CaseAnswers<'_>,
    rest: Rest<'a>,
    frame: StatementFrame,
    value: WordId,
) -> Going<'a>
    ensures is { IfOk result (λ o. (m : Meaning) → Agrees (types_at source.now) m words.new → next_of source.now m answers.entry rest.entry o ≡ given_to source.now m answers.entry rest.entry (word_of m value) (statement_of (types_at source.now) m (units_of source.now) frame)) }
    ensures grows { (types : ℕ → Typ) (m : Meaning) → Agrees types m words.new → Agrees types m words.old }
{
    match frame {
        StatementFrame::Items(kids) => run_item(arena, words, source, answers, rest, kids, value),
        StatementFrame::Test(parts) => Ok(Next::Made(
            When::Always,
            test(arena, words, source, rest, parts, value)?,
        )),
        StatementFrame::Body(parts) => Ok(Next::Made(
            When::Always,
            run_step(arena, source, rest, parts)?,
        )),
        StatementFrame::Step(parts) => Ok(Next::Made(
            When::Always,
            run_test(arena, source, rest, parts)?,
        )),
        StatementFrame::Picks(items) => {
            let labels = from_case(source, items);
            Ok(Next::Made(
                When::Always,
                compare(arena, source, rest, value, labels, items)?,
            ))
        }
        StatementFrame::Compares {
            word,
            label,
            behind,
            items,
        } => Ok(Next::Made(
            When::Always,
            compare_with(arena, words, source, rest, word, label, behind, items)?,
        )),
        StatementFrame::Switches => Ok(Next::Gives(number(words, 0)?)),
        StatementFrame::Returning => {
            Ok(Next::Made(
                When::Always,
                leave(
                    arena,
                    words,
                    source,
                    rest.temporaries,
                    Exit::Returns(value),
                    rest.frames,
                )?,
            ))
        }
    }
}

// Runs the first of these statements, and then the others.
#[tactic(auto, using(crate::proofs::Looks::items_more, crate::proofs::Looks::items_none))]
fn run_item<'a>(
    arena: &'a Bump,
    words: &mut Words<'a>,
    source: &Source<'a>,
    answers: CaseAnswers<'_>,
    rest: Rest<'a>,
    kids: KidsAt,
    value: WordId,
) -> Going<'a>
    ensures is { IfOk result (λ o. (m : Meaning) → Agrees (types_at source.now) m words.new → next_of source.now m answers.entry rest.entry o ≡ given_to source.now m answers.entry rest.entry (word_of m value) (ItemsOf (all_kids source.now.bound.now kids))) }
    ensures grows { (types : ℕ → Typ) (m : Meaning) → Agrees types m words.new → Agrees types m words.old }
{
    let _shown = answers;
    match head(source.bound, kids) {
        Some(item) => {
            let then = StatementFrame::Items(rest_of(source.bound, kids));
            Ok(Next::Made(
                When::Always,
                run_before(arena, source, rest, item, Frame::Statement(then))?,
            ))
        }
        None => Ok(Next::Gives(number(words, 0)?)),
    }
}

// Goes on with the value of a loop's test.
fn test<'a>(
    arena: &'a Bump,
    words: &mut Words<'a>,
    source: &Source<'a>,
    rest: Rest<'a>,
    parts: LoopParts,
    value: WordId,
) -> Made<'a>
    ensures is { IfOk result (λ o. (m : Meaning) → Agrees (types_at source.now) m words.new → outcome_at source.now m o ≡ either_of (word_of m value) (goes_on silent (waits_in source.now m rest.entry) (GivesWord (number_of_term 0) ∷ left_in source.now m rest.entry)) (goes_on silent (waits_in source.now m rest.entry) (Runs for_value (tree_of source.now.bound.now parts.body) ∷ Bodies (tree_of source.now.bound.now parts.test) (tree_of source.now.bound.now parts.body) (tree_of source.now.bound.now parts.step) ∷ left_in source.now m rest.entry))) }
    ensures grows { (types : ℕ → Typ) (m : Meaning) → Agrees types m words.new → Agrees types m words.old }
{
    let word = number(words, 0)?;
    let zero = gives(arena, source, rest, word)?;
    let other = run_body(arena, source, rest, parts)?;
    either(arena, words, source, value, zero, other)
}

// Runs statements of a switch.
fn run_items<'a>(arena: &'a Bump, source: &Source<'a>, rest: Rest<'a>, items: KidsAt) -> Made<'a>
    ensures { IfOk result (λ o. (m : Meaning) → outcome_at source.now m o ≡ runs_items (waits_in source.now m rest.entry) (all_kids source.now.bound.now items) (left_in source.now m rest.entry)) }
{
    let rest = with_frame(
        arena,
        source,
        rest,
        Frame::Statement(StatementFrame::Switches),
    )?;
    let rest = scoped(arena, source, rest, Owner::Block, true)?;
    goes(
        arena,
        source,
        rest,
        Frame::Statement(StatementFrame::Items(items)),
    )
}

// The next label is compared; where there is none, the items go on from `default`.
#[tactic(auto, using(crate::proofs::Looks::compared_more, crate::proofs::Looks::compared_none))]
fn compare<'a>(
    arena: &'a Bump,
    source: &Source<'a>,
    rest: Rest<'a>,
    word: WordId,
    labels: KidsAt,
    items: KidsAt,
) -> Made<'a>
    ensures { IfOk result (λ o. (m : Meaning) → outcome_at source.now m o ≡ compares (waits_in source.now m rest.entry) (word_of m word) (all_kids source.now.bound.now labels) (all_kids source.now.bound.now items) (left_in source.now m rest.entry)) }
{
    match head(source.bound, labels) {
        Some(first) => {
            let frame = StatementFrame::Compares {
                word,
                label: kind_of(source.bound, first),
                behind: rest_of(source.bound, labels),
                items,
            };
            goes(arena, source, rest, Frame::Statement(frame))
        }
        None => run_items(arena, source, rest, from_default(source, items)),
    }
}

// Whether the value of a switch is that of a label.
fn same_word<'a>(
    arena: &'a Bump,
    words: &mut Words<'a>,
    word: WordId,
    label: u64,
) -> Result<WordId, Refusal>
    ensures term { IfOk result (λ t. (types : ℕ → Typ) (m : Meaning) → Agrees types m words.new → word_of m t ≡ same_word_of (word_of m word) label) }
    ensures few { nat_lt label (2 ^ 64) ≡ true }
    ensures grows { (types : ℕ → Typ) (m : Meaning) → Agrees types m words.new → Agrees types m words.old }
{
    let right = number(words, label)?;
    applied(arena, words, BinOp::Eq, IntKind::ULong, word, right)
}

// A label is compared with the value of a switch.
fn compare_with<'a>(
    arena: &'a Bump,
    words: &mut Words<'a>,
    source: &Source<'a>,
    rest: Rest<'a>,
    word: WordId,
    label: TKind,
    behind: KidsAt,
    items: KidsAt,
) -> Made<'a>
    ensures is { IfOk result (λ o. (m : Meaning) → Agrees (types_at source.now) m words.new → outcome_at source.now m o ≡ if_word (word_of_case label) (either_of (same_word_of (word_of m word) (word_of_case label)) (compares (waits_in source.now m rest.entry) (word_of m word) (from_label is_case_kind (all_kids source.now.bound.now behind)) (all_kids source.now.bound.now items) (left_in source.now m rest.entry)) (runs_items (waits_in source.now m rest.entry) (all_kids source.now.bound.now behind) (left_in source.now m rest.entry)))) }
    ensures grows { (types : ℕ → Typ) (m : Meaning) → Agrees types m words.new → Agrees types m words.old }
{
    let is_same = same_word(arena, words, word, case_word(label))?;
    let labels = from_case(source, behind);
    let zero = compare(arena, source, rest, word, labels, items)?;
    let other = run_items(arena, source, rest, behind)?;
    either(arena, words, source, is_same, zero, other)
}
