//! Whether a body has notes.

ghost use Rattle.std.specs.Prelude.{◌≡◌, true, IfOk, OnOk};
ghost use Rattle.symbolic_terms.specs.Meanings.{Meaning, Agrees};
ghost use Rattle.note_landing.specs.Shown.{types_by};
ghost use Rattle.body_notes.specs.Checked.{CheckedBy, HasNotesBy};

use crate::checked::note_fits;
use crate::entry::entry_fits;
use crate::search::search;
use note_landing::compiled::{Compiled, Room};
use note_landing::notes::Notes;
use note_landing::unfit::Unfit;
use symbolic_terms::refusal::Refusal;
use symbolic_terms::words::Words;

// Each note fits, and the first is that of the entry.
fn all_fit<'a>(
    room: Room<'a>,
    words: &mut Words<'a>,
    body: &Compiled<'a>,
    notes: &Notes<'a>,
) -> Result<(), Unfit>
    ensures { OnOk result ((m : Meaning) → Agrees (types_by body.now) m words.new → CheckedBy body.now m notes.now) }
{
    for note in &notes.list {
        note_fits(room, words, body, notes, note)?;
    }
    entry_fits(room, words, body, notes)?;
    Ok(())
}

/// Whether there are notes with which the body is checked, as far as a search finds them.
pub fn has_notes<'a>(
    room: Room<'a>,
    words: &mut Words<'a>,
    body: &Compiled<'a>,
) -> Result<bool, Refusal>
    ensures { IfOk result (λ b. b ≡ true → HasNotesBy body.now) }
{
    let Some(notes) = search(room, words, body)? else {
        return Ok(false);
    };
    match all_fit(room, words, body, &notes) {
        Ok(()) => Ok(true),
        Err(Unfit::Memory) => Err(Refusal::Memory),
        Err(Unfit::Beyond) => Err(Refusal::Beyond),
        Err(Unfit::Untold) => Err(Refusal::Untold),
        Err(Unfit::NotMade) => Err(Refusal::NotMade),
        Err(_) => Ok(false),
    }
}
