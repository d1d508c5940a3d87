//! A list of words, ascending and distinct.
ghost use Rattle.std.specs.Prelude.{◌≡◌, ℕ, ◌<◌, ◌≤◌, MatchOption, OnOk};
ghost use Rattle.race_check.specs.Races.{Ascending, Stands};
ghost use Rattle.race_check.specs.Words.{Gap, OneMore};

use std::alloc::AllocError;

/// Where the word would go in, or none where it is there.
fn place_of(words: &[u64], word: u64) -> Option<usize>
    ensures { MatchOption result (Stands word words.now) (λ at. Gap word words.now at) }
{
    let mut at = 0;
    'below: while at < words.len() {
        if words[at] == word {
            return None;
        }
        if word < words[at] {
            return Some(at);
        }
        at += 1;
    }
    Some(at)
}

/// Adds a word, if it is not there.
pub(crate) fn add_word(words: &mut Vec<u64>, word: u64) -> Result<(), AllocError>
    requires { Ascending words.old.items }
    ensures { OnOk result (OneMore word words.old.items words.new.items) }
{
    let Some(at) = place_of(words, word) else {
        return Ok(());
    };
    words.insert(at, word)?;
    Ok(())
}
