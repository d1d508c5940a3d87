//! Lists of notes.
ghost use Rattle.std.specs.Prelude.{◌≡◌, ◌==◌, ◌≤◌, ◌<◌, ◌+◌, ◌-◌, ◌++◌, ◌↔◌, ℕ, [], true, not, option_map, slice_get, length, take, drop, map, IsNone, IfSome, All};
ghost use Rattle.std.specs.List.{list_all, list_any};
ghost use Rattle.tx_events.specs.Memory.{can_access, update};
ghost use Rattle.tx_memory.specs.View.{layout_of, words_of};
ghost use Rattle.undo_log.specs.Notes.{first_note, is_noted, put_back, word_back, others, can_put_back};
ghost use Rattle.undo_log.specs.Order.{IsDescending};
ghost use Rattle.std.specs.List.Sorted.{IsPermutation};

use tx_memory::Memory;

/// What a word held before a store.
#[derive(Clone, Copy, PartialEq, Eq, Debug)]
pub struct Note {
    /// The address of the word.
    pub word: u64,
    /// Its bytes before, the least significant first.
    pub old: u64,
}

/// What the first note of the word has.
pub(crate) fn first_old(notes: &[Note], word: u64) -> Option<u64>
    ensures { result ≡ first_note notes.now word }
{
    notes.iter().find(|n| n.word == word).map(|n| n.old)
}

/// The word of the last note.
pub(crate) fn last_word(notes: &[Note]) -> Option<u64>
    ensures { result ≡ option_map (λ n. n.word) (slice_get notes.now (length notes.now - 1)) }
{
    match notes.last() {
        Some(note) => Some(note.word),
        None => None,
    }
}

/// Puts the notes in order of their words, the greatest first.
fn sort_descending(notes: &mut [Note])
    ensures len { length notes.new ≡ length notes.old }
    ensures moved { IsPermutation notes.old notes.new }
    ensures sorted { IsDescending notes.new }
{
    notes.sort_unstable_by_key(|n| n.word);
    notes.reverse();
}

/// Puts the notes from `start` on in order of their words, the greatest first.
pub(crate) fn sort_from(notes: &mut Vec<Note>, start: usize)
    requires { start ≤ length notes.old.items }
    ensures len { length notes.new.items ≡ length notes.old.items }
    ensures older { take start notes.new.items ≡ take start notes.old.items }
    ensures moved { IsPermutation (drop start notes.old.items) (drop start notes.new.items) }
    ensures sorted { IsDescending (drop start notes.new.items) }
{
    sort_descending(&mut notes[start..]);
}

/// The least word that is noted.
pub(crate) fn least_word(notes: &[Note]) -> Option<u64>
    ensures none { IsNone result ↔ (length notes.now ≡ 0) }
    ensures noted { IfSome result (λ w. is_noted notes.now w ≡ true) }
    ensures least { IfSome result (λ w. All (λ n. w ≤ n.word) notes.now) }
{
    notes.iter().map(|n| n.word).min()
}

/// How many notes are of other words.
pub(crate) fn count_others(notes: &[Note], word: u64) -> usize
    ensures { result ≡ length (others word notes.now) }
{
    notes.iter().filter(|n| n.word != word).count()
}

/// Gives each noted word what its first note has.
pub(crate) fn put_all_back(memory: &mut Memory, notes: &[Note])
    requires { can_put_back (layout_of memory.old) notes.now ≡ true }
    ensures layout { layout_of memory.new ≡ layout_of memory.old }
    ensures words { words_of memory.new ≡ put_back notes.now (words_of memory.old) }
{
    let mut left = notes.len();
    while left > 0 {
        left -= 1;
        let note = notes[left];
        put_word(memory, note.word, note.old);
    }
}

/// Gives the word these bytes, if there are any.
pub(crate) fn put_word_back(memory: &mut Memory, first: Option<u64>, word: u64)
    requires { can_access (layout_of memory.old) word 8 ≡ true }
    ensures layout { layout_of memory.new ≡ layout_of memory.old }
    ensures words { words_of memory.new ≡ word_back first word (words_of memory.old) }
{
    if let Some(old) = first {
        put_word(memory, word, old);
    }
}

/// Gives the word these bytes.
fn put_word(memory: &mut Memory, word: u64, old: u64)
    requires { can_access (layout_of memory.old) word 8 ≡ true }
    ensures layout { layout_of memory.new ≡ layout_of memory.old }
    ensures words { words_of memory.new ≡ update (words_of memory.old) word old }
{
    memory.store(word, 8, old);
}

/// Takes out the word's notes from `start` on.
pub(crate) fn remove_each(notes: &mut Vec<Note>, start: usize, word: u64)
    requires { start ≤ length notes.old.items }
    ensures { notes.new.items ≡ take start notes.old.items ++ others word (drop start notes.old.items) }
{
    let mut kept = start;
    for position in start..notes.len() {
        let note = notes[position];
        if note.word != word {
            notes[kept] = note;
            kept += 1;
        }
    }
    notes.truncate(kept);
}

/// Moves the marks to where their notes begin once the word's notes are gone.
pub(crate) fn move_marks(marks: &mut Vec<usize>, notes: &[Note], word: u64)
    requires { All (λ m. m ≤ length notes.now) marks.old.items }
    ensures { marks.new.items ≡ map (λ m. length (others word (take m notes.now))) marks.old.items }
{
    for i in 0..marks.len() {
        let start = marks[i];
        marks[i] = count_others(&notes[..start], word);
    }
}
