//! What a text says is one thing, and what is written is read back.
ghost use Rattle.std.specs.Prelude.{◌≡◌, ◌≤◌, ℕ, List, true, length, nat_lt};
ghost use Rattle.std.specs.List.{list_all};
ghost use Rattle.schedules.specs.Text.{Spells, IsFirstBad, text_of, entries_of, runs_of, is_tight};
ghost use Rattle.tx_events.specs.declared.TheConstants.{THREAD_LIMIT};

/// A text says one list of entries, or it has one first line outside the grammar, and never both.
pub fn one_reading()
    ensures entries { (text xs ys : List ℕ) → Spells text xs → Spells text ys → xs ≡ ys }
    ensures line { (text : List ℕ) (m n : ℕ) → IsFirstBad text m → IsFirstBad text n → m ≡ n }
    ensures apart { (text xs : List ℕ) (n : ℕ) → Spells text xs → IsFirstBad text n → ⊥ }
{}

/// The runs of a list say its entries, and no two neighbours among them are of one thread.
pub fn runs()
    ensures entries { (xs : List ℕ) → entries_of (runs_of xs) ≡ xs }
    ensures tight { (xs : List ℕ) → is_tight (runs_of xs) ≡ true }
{}

/// The text that is written of a schedule of thread numbers says that schedule.
pub fn read_back()
    ensures { (xs : List ℕ) → list_all (λ t. nat_lt t THREAD_LIMIT) xs ≡ true → length xs ≤ 4000000 → Spells (text_of (runs_of xs)) xs }
{}
