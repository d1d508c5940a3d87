//! Notes at the indexes of a body.

use note_matching::Form;
use symbolic_terms::outcomes::Outcome;
use symbolic_terms::places::{Facts, Place};

/// What holds at an index: where the operands are, what is known of words, what the source has left to do, how many
/// silent steps it takes before the instruction, and a rank that falls where the code goes on and the source does not.
#[derive(Clone, Copy)]
pub struct Note<'a> {
    pub index: u32,
    pub place: Place<'a>,
    pub facts: Facts<'a>,
    pub outcome: Outcome<'a>,
    pub lead: u32,
    pub rank: u32,
    /// The terms and exceptions of the place and the outcome.
    pub form: Form<'a>,
}

/// The notes of a body, and by index their places in the list.
#[derive(Drop)]
pub struct Notes<'a> {
    pub list: Vec<Note<'a>>,
    pub places: Vec<Vec<u32>>,
}
