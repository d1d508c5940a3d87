//! Rows: for each thread, a counter above its items that are counted.
ghost use Rattle.std.specs.Prelude.{◌≡◌, ℕ, ◌<◌, ◌≤◌, ◌+◌, ◌⊎◌, ◌^◌, length, slice_index};
ghost use Rattle.race_check.specs.Rows.{Greater};

use tx_events::THREAD_LIMIT;

/// How many threads a trace can have.
pub(crate) const THREADS: usize = THREAD_LIMIT as usize;

/// For each thread, one more than the index of the latest counted item, 0 where none is counted.
#[derive(Clone, Copy)]
pub(crate) struct Row {
    pub(crate) latest: [usize; THREADS],
}

// The row that counts nothing.
pub(crate) fn empty_row() -> Row
    ensures { (s : ℕ) → slice_index result.latest s ≡ 0 }
{
    Row {
        latest: [0; THREADS],
    }
}

// What either counts.
fn add_row(row: &mut [usize], other: &[usize])
    requires { length row.old ≡ length other.now }
    ensures size { length row.new ≡ length row.old }
    ensures kept { (s : ℕ) → slice_index row.old s ≤ slice_index row.new s }
    ensures gained { (s : ℕ) → slice_index other.now s ≤ slice_index row.new s }
    ensures only { (s : ℕ) → (slice_index row.new s ≡ slice_index row.old s) ⊎ (slice_index row.new s ≡ slice_index other.now s) }
{
    'threads: for s in 0..row.len() {
        if row[s] < other[s] {
            row[s] = other[s];
        }
    }
}

/// The item `p` of thread `t` is counted too.
pub(crate) fn add_item(row: &mut [usize], t: usize, p: usize)
    requires within { t < length row.old }
    requires fits { p + 1 < 2 ^ 64 }
    ensures size { length row.new ≡ length row.old }
    ensures kept { (s : ℕ) → slice_index row.old s ≤ slice_index row.new s }
    ensures gained { p < slice_index row.new t }
    ensures only { (s : ℕ) → (slice_index row.new s ≡ slice_index row.old s) ⊎ ((s ≡ t) × (slice_index row.new s ≡ p + 1)) }
{
    if row[t] <= p {
        row[t] = p + 1;
    }
}

impl Row {
    /// What the other row counts is counted too.
    pub(crate) fn add(&mut self, other: &Row)
        ensures { Greater (slice_index self.old.latest) (slice_index other.now.latest) (slice_index self.new.latest) }
    {
        add_row(&mut self.latest, &other.latest);
    }
}
