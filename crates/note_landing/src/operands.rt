//! Operands that an exception drops.

ghost use Rattle.std.specs.Prelude.{ℕ, ◌≡◌, ◌+◌, length, drop, IfSome};
ghost use Rattle.cpp_tree.specs.cpp_types.Typ.{Typ};
ghost use Rattle.symbolic_terms.specs.Meanings.{Meaning, words_of};
ghost use Rattle.symbolic_terms.specs.Shown.{place_of};
ghost use Rattle.body_check.specs.Notes.{cut_to as cut_so};

use symbolic_frames::places::with_operands;
use symbolic_terms::ids::Terms;
use symbolic_terms::places::Place;

// How many there are.
fn count_of<'a>(terms: Terms<'a>) -> Option<u32>
    ensures { IfSome result (λ n. (m : Meaning) → n ≡ length (words_of m terms.entry)) }
{
    match terms {
        Terms::Empty => Some(0),
        Terms::More(_, rest) => count_of(*rest)?.checked_add(1),
    }
}

// What is under so many.
#[tactic(auto, using(crate::proofs::Shows::drop_more))]
fn dropped<'a>(count: u32, terms: Terms<'a>) -> Terms<'a>
    ensures { (m : Meaning) → words_of m result ≡ drop count (words_of m terms.entry) }
{
    if count == 0 {
        return terms;
    }
    match terms {
        Terms::Empty => Terms::Empty,
        Terms::More(_, rest) => dropped(count - 1, *rest),
    }
}

/// The operands cut to a depth.
pub(crate) fn cut_to<'a>(depth: u32, place: Place<'a>) -> Option<Place<'a>>
    ensures { IfSome result (λ q. (types : ℕ → Typ) (m : Meaning) → place_of types m q ≡ cut_so depth (place_of types m place.entry)) }
{
    let count = count_of(place.operands)?;
    Some(with_operands(place, dropped(count.saturating_sub(depth), place.operands)))
}
