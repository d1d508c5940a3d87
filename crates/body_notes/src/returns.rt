//! Returns, and whether a body may call a safe one.

ghost use Rattle.std.specs.Prelude.{ℕ, ◌≡◌, true, OnOk, IsTrue};
ghost use Rattle.cpp_tree.specs.cpp_types.Typ.{Typ};
ghost use Rattle.tx_code.specs.declared.instr.Instr.TheVariants.{Ret};
ghost use Rattle.tx_events.specs.Thread.{no_atomic};
ghost use Rattle.src_mean.specs.Source.{is_safe};
ghost use Rattle.body_check.specs.Calls.{Hands, covers};
ghost use Rattle.symbolic_terms.specs.Meanings.{Meaning, word_of, Agrees};
ghost use Rattle.symbolic_terms.specs.Shown.{opens_of};
ghost use Rattle.image_links.specs.Books.{func_gives};
ghost use Rattle.note_landing.specs.declared.compiled.Compiled.{Compiled as CompiledBody};
ghost use Rattle.note_landing.specs.Shown.{types_by, image_by, place_by, facts_by, outcome_by, linked_by};
ghost use Rattle.body_notes.specs.Checked.{pending_of, StepBy};

use image_links::calls::func_gives;
use note_landing::compiled::Compiled;
use note_landing::notes::{Note, Notes};
use note_landing::unfit::Unfit;
use src_frames::frames::Open;
use symbolic_terms::comparison::equal_words;
use symbolic_terms::frames::Exit;
use symbolic_terms::ids::{Terms, WordId};
use symbolic_terms::made;
use symbolic_terms::outcomes::Outcome;
use symbolic_terms::places::{Opens, Place};
use symbolic_terms::words::Words;

// Whether a word is what the function hands back.
#[tactic(auto, using(crate::proofs::Returned::ends_as, crate::proofs::Returned::returns_as))]
fn hands<'a>(words: &Words<'a>, outcome: Outcome<'a>, word: WordId) -> bool
    ensures { IsTrue result → (b : CompiledBody) (m : Meaning) → Agrees (types_by b) m words.now → Hands (word_of m word) (outcome_by b m outcome.entry) }
{
    match outcome {
        Outcome::Hands(other, _) => equal_words(words, other, word),
        Outcome::GoesOut(Exit::Returns(other), _) => equal_words(words, other, word),
        _ => false,
    }
}

// Whether the function hands back a word.
fn gives<'a>(body: &Compiled<'a>) -> bool
    ensures { result ≡ func_gives (image_by body.now) body.now.number }
{
    func_gives(body.image, body.number)
}

/// A return with so many words.
#[tactic(auto, using(crate::proofs::Returned::none_as))]
pub(crate) fn returning<'a>(
    words: &mut Words<'a>,
    body: &Compiled<'a>,
    notes: &Notes<'a>,
    note: &Note<'a>,
    place: Place<'a>,
    outcome: Outcome<'a>,
    count: u8,
) -> Result<(), Unfit>
    ensures is { OnOk result ((m : Meaning) → Agrees (types_by body.now) m words.new → StepBy body.now m notes.now (facts_by body.now m note.now.facts) (pending_of note.now) note.now.index (Ret count) (place_by body.now m place.entry) (outcome_by body.now m outcome.entry)) }
    ensures grows { OnOk result ((types : ℕ → Typ) (m : Meaning) → Agrees types m words.new → Agrees types m words.old) }
{
    match count {
        0 => {
            if gives(body) {
                return Err(Unfit::Never);
            }
            let zero = made::number(words, 0)?;
            if !hands(words, outcome, zero) {
                return Err(Unfit::Never);
            }
            Ok(())
        }
        1 => match place.operands {
            Terms::Empty => Err(Unfit::Never),
            Terms::More(word, _) => {
                if !gives(body) {
                    return Err(Unfit::Never);
                }
                if !hands(words, outcome, word) {
                    return Err(Unfit::Never);
                }
                Ok(())
            }
        },
        _ => Err(Unfit::Never),
    }
}

// Whether no atomic block is open.
fn has_no_atomic<'a>(opens: Opens<'a>) -> bool
    ensures { result ≡ no_atomic (opens_of opens.entry) }
{
    match opens {
        Opens::Empty => true,
        Opens::More(Open::Atomic(_), _) => false,
        Opens::More(Open::Sync, rest) => has_no_atomic(*rest),
    }
}

/// Whether the body is a safe one, or an atomic block is open.
pub(crate) fn is_covered<'a>(body: &Compiled<'a>, place: Place<'a>) -> bool
    ensures { (m : Meaning) → result ≡ covers body.now.safe (place_by body.now m place.entry).opens }
{
    body.safe || !has_no_atomic(place.opens)
}

/// Whether a function has a safe body.
pub(crate) fn is_safe<'a>(body: &Compiled<'a>, number: u32) -> bool
    ensures { result ≡ is_safe ((linked_by body.now).func number) }
{
    match body.source.bound.info(number) {
        Some(info) => info.safe,
        None => false,
    }
}
