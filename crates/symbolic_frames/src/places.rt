//! Places after a reply, with other operands, with another exception, and in a handler.

ghost use Rattle.std.specs.Prelude.{ℕ, ◌≡◌, IfOk};
ghost use Rattle.cpp_tree.specs.cpp_types.Typ.{Typ};
ghost use Rattle.symbolic_code.specs.Places.{with_operands as operands_put, holding as held, all_later, hold_later as held_later, place_later as after_reply, opened_later as opened_after};
ghost use Rattle.body_check.specs.Notes.{catching as caught_in};
ghost use Rattle.symbolic_terms.specs.Meanings.{Meaning, thrown_of, words_of, all_thrown, Agrees};
ghost use Rattle.symbolic_terms.specs.Shown.{hold_of, opens_of, place_of};

use bumpalo::Bump;
use symbolic_terms::arena::keep;
use symbolic_terms::ids::{ExceptionId, Exceptions, Terms};
use symbolic_terms::places::{Hold, Opens, Place};
use symbolic_terms::refusal::Refusal;
use symbolic_terms::replacing::{Replacing, replaced_given, replaced_thrown, replaced_words};
use symbolic_terms::words::Words;

/// The place with these operands.
pub fn with_operands<'a>(place: Place<'a>, operands: Terms<'a>) -> Place<'a>
    ensures { (types : ℕ → Typ) (m : Meaning) → place_of types m result ≡ operands_put (place_of types m place.entry) (words_of m operands.entry) }
{
    Place {
        operands,
        opens: place.opens,
        caught: place.caught,
        hold: place.hold,
    }
}

/// The place with this exception.
pub fn holding<'a>(place: Place<'a>, hold: Hold) -> Place<'a>
    ensures { (types : ℕ → Typ) (m : Meaning) → place_of types m result ≡ held (place_of types m place.entry) (hold_of types m hold) }
{
    Place {
        operands: place.operands,
        opens: place.opens,
        caught: place.caught,
        hold,
    }
}

/// The place where a handler of this exception has been entered.
pub fn catching<'a>(
    arena: &'a Bump,
    place: Place<'a>,
    exception: ExceptionId,
) -> Result<Place<'a>, Refusal>
    ensures { IfOk result (λ c. (types : ℕ → Typ) (m : Meaning) → place_of types m c ≡ caught_in (place_of types m place.entry) (thrown_of m exception)) }
{
    Ok(Place {
        operands: place.operands,
        opens: place.opens,
        caught: Exceptions::More(exception, keep(arena, place.caught)?),
        hold: Hold::Nothing,
    })
}

/// The exceptions of entered handlers after a reply.
pub fn caught_later<'a>(
    arena: &'a Bump,
    words: &mut Words<'a>,
    caught: Exceptions<'a>,
) -> Result<Exceptions<'a>, Refusal>
    ensures is { IfOk result (λ c. (types : ℕ → Typ) (m : Meaning) → Agrees types m words.new → all_thrown m c ≡ all_later (all_thrown m caught.entry)) }
    ensures grows { (types : ℕ → Typ) (m : Meaning) → Agrees types m words.new → Agrees types m words.old }
{
    match caught {
        Exceptions::Empty => Ok(Exceptions::Empty),
        Exceptions::More(exception, rest) => {
            let exception = replaced_thrown(arena, words, Replacing::Later, exception)?;
            let rest = keep(arena, caught_later(arena, words, *rest)?)?;
            Ok(Exceptions::More(exception, rest))
        }
    }
}

/// A frame's exception after a reply.
pub fn hold_later<'a>(arena: &'a Bump, words: &mut Words<'a>, hold: Hold) -> Result<Hold, Refusal>
    ensures is { IfOk result (λ c. (types : ℕ → Typ) (m : Meaning) → Agrees types m words.new → hold_of types m c ≡ held_later (hold_of types m hold)) }
    ensures grows { (types : ℕ → Typ) (m : Meaning) → Agrees types m words.new → Agrees types m words.old }
{
    match hold {
        Hold::Nothing => Ok(Hold::Nothing),
        Hold::Making(typ, puts) => {
            Ok(Hold::Making(typ, replaced_given(arena, words, Replacing::Later, puts)?))
        }
        Hold::Flying(exception) => {
            Ok(Hold::Flying(replaced_thrown(arena, words, Replacing::Later, exception)?))
        }
    }
}

/// The place after a reply, with these operands.
pub fn place_later<'a>(
    arena: &'a Bump,
    words: &mut Words<'a>,
    place: Place<'a>,
    operands: Terms<'a>,
) -> Result<Place<'a>, Refusal>
    ensures is { IfOk result (λ c. (types : ℕ → Typ) (m : Meaning) → Agrees types m words.new → place_of types m c ≡ after_reply (place_of types m place.entry) (words_of m operands.entry)) }
    ensures grows { (types : ℕ → Typ) (m : Meaning) → Agrees types m words.new → Agrees types m words.old }
{
    Ok(Place {
        operands,
        opens: place.opens,
        caught: caught_later(arena, words, place.caught)?,
        hold: hold_later(arena, words, place.hold)?,
    })
}

/// The place after a reply, with these open blocks.
pub fn opened_later<'a>(
    arena: &'a Bump,
    words: &mut Words<'a>,
    place: Place<'a>,
    opens: Opens<'a>,
) -> Result<Place<'a>, Refusal>
    ensures is { IfOk result (λ c. (types : ℕ → Typ) (m : Meaning) → Agrees types m words.new → place_of types m c ≡ opened_after (place_of types m place.entry) (opens_of opens.entry)) }
    ensures grows { (types : ℕ → Typ) (m : Meaning) → Agrees types m words.new → Agrees types m words.old }
{
    Ok(Place {
        operands: replaced_words(arena, words, Replacing::Later, place.operands)?,
        opens,
        caught: caught_later(arena, words, place.caught)?,
        hold: hold_later(arena, words, place.hold)?,
    })
}
