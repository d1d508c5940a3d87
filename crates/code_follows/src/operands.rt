//! Operands, and the steps that change nothing else.

ghost use Rattle.std.specs.Prelude.{ℕ, ◌≡◌, ◌+◌, ◌∷◌, IfOk};
ghost use Rattle.cpp_tree.specs.cpp_types.Typ.{Typ};
ghost use Rattle.symbolic_source.specs.Outcomes.{Outcome as SourceNext};
ghost use Rattle.symbolic_code.specs.Following.{quietly, one_of, two_of, pushes as pushes_word};
ghost use Rattle.symbolic_code.specs.Places.{with_operands};
ghost use Rattle.symbolic_terms.specs.Meanings.{Meaning, word_of, words_of};
ghost use Rattle.symbolic_terms.specs.Shown.{place_of};
ghost use Rattle.code_follows.specs.Shown.{coming, next_of};

use crate::next::{Course, Next};
use bumpalo::Bump;
use symbolic_terms::arena::keep;
use symbolic_terms::ids::{Terms, WordId};
use symbolic_terms::places::Place;
use symbolic_terms::refusal::Refusal;

/// The index behind this one.
pub fn behind(index: u32) -> Result<u32, Refusal>
    ensures { IfOk result (λ n. n ≡ index + 1) }
{
    match index.checked_add(1) {
        Some(next) => Ok(next),
        None => Err(Refusal::Beyond),
    }
}

/// A word on operands.
pub fn pushed<'a>(arena: &'a Bump, word: WordId, below: Terms<'a>) -> Result<Terms<'a>, Refusal>
    ensures { IfOk result (λ ws. (m : Meaning) → words_of m ws ≡ word_of m word ∷ words_of m below.entry) }
{
    Ok(Terms::More(word, keep(arena, below)?))
}

/// An instruction does this, and goes on to the next index.
pub fn goes_by<'a>(course: Course, index: u32, place: Place<'a>) -> Result<Next<'a>, Refusal>
    ensures { IfOk result (λ n. (types : ℕ → Typ) (m : Meaning) (o : SourceNext) → next_of types m n o ≡ coming m course (index + 1) (place_of types m place.entry) o) }
{
    Ok(Next::Goes {
        course,
        index: behind(index)?,
        place,
    })
}

/// An instruction does this, goes on to the next index, and puts a word on these operands.
pub fn pushes_by<'a>(
    arena: &'a Bump,
    course: Course,
    index: u32,
    place: Place<'a>,
    word: WordId,
    below: Terms<'a>,
) -> Result<Next<'a>, Refusal>
    ensures { IfOk result (λ n. (types : ℕ → Typ) (m : Meaning) (o : SourceNext) → next_of types m n o ≡ coming m course (index + 1) (with_operands (place_of types m place.entry) (word_of m word ∷ words_of m below.entry)) o) }
{
    let operands = pushed(arena, word, below)?;
    goes_by(course, index, Place { operands, ..place })
}

/// A silent step that puts a word on these operands.
pub fn pushes<'a>(
    arena: &'a Bump,
    index: u32,
    place: Place<'a>,
    word: WordId,
    below: Terms<'a>,
) -> Result<Next<'a>, Refusal>
    ensures { IfOk result (λ n. (types : ℕ → Typ) (m : Meaning) (o : SourceNext) → next_of types m n o ≡ pushes_word index (place_of types m place.entry) o (word_of m word) (words_of m below.entry)) }
{
    pushes_by(arena, Course::Quietly, index, place, word, below)
}

/// `dup`.
pub fn duplicates<'a>(arena: &'a Bump, index: u32, place: Place<'a>) -> Result<Next<'a>, Refusal>
    ensures { IfOk result (λ n. (types : ℕ → Typ) (m : Meaning) (o : SourceNext) → next_of types m n o ≡ one_of (words_of m place.entry.operands) (λ w ws. pushes_word index (place_of types m place.entry) o w (w ∷ ws))) }
{
    match place.operands {
        Terms::Empty => Ok(Next::Refused),
        Terms::More(word, _) => pushes(arena, index, place, word, place.operands),
    }
}

/// `drop`.
pub fn drops<'a>(index: u32, place: Place<'a>) -> Result<Next<'a>, Refusal>
    ensures { IfOk result (λ n. (types : ℕ → Typ) (m : Meaning) (o : SourceNext) → next_of types m n o ≡ one_of (words_of m place.entry.operands) (λ w ws. quietly (index + 1) (with_operands (place_of types m place.entry) ws) o)) }
{
    match place.operands {
        Terms::Empty => Ok(Next::Refused),
        Terms::More(_, below) => {
            let under = Place {
                operands: *below,
                ..place
            };
            goes_by(Course::Quietly, index, under)
        }
    }
}

/// `swap`.
pub fn swaps<'a>(arena: &'a Bump, index: u32, place: Place<'a>) -> Result<Next<'a>, Refusal>
    ensures { IfOk result (λ n. (types : ℕ → Typ) (m : Meaning) (o : SourceNext) → next_of types m n o ≡ two_of (words_of m place.entry.operands) (λ a b ws. pushes_word index (place_of types m place.entry) o a (b ∷ ws))) }
{
    match place.operands {
        Terms::Empty => Ok(Next::Refused),
        Terms::More(_, Terms::Empty) => Ok(Next::Refused),
        Terms::More(upper, Terms::More(lower, below)) => {
            let under = pushed(arena, upper, **below)?;
            pushes(arena, index, place, *lower, under)
        }
    }
}

/// `over`.
pub fn copies_lower<'a>(arena: &'a Bump, index: u32, place: Place<'a>) -> Result<Next<'a>, Refusal>
    ensures { IfOk result (λ n. (types : ℕ → Typ) (m : Meaning) (o : SourceNext) → next_of types m n o ≡ two_of (words_of m place.entry.operands) (λ a b ws. pushes_word index (place_of types m place.entry) o a (b ∷ (a ∷ ws)))) }
{
    match place.operands {
        Terms::Empty => Ok(Next::Refused),
        Terms::More(_, Terms::Empty) => Ok(Next::Refused),
        Terms::More(_, Terms::More(lower, _)) => {
            pushes(arena, index, place, *lower, place.operands)
        }
    }
}
