// A count that stands still at its last value.

ghost use Rattle.std.specs.Prelude.{◌≡◌, ◌+◌, ◌<◌, ◌^◌};
ghost use Rattle.tx_host.specs.Told.{one_more};

/// A count.
#[derive(Clone, Copy)]
pub struct Count {
    value: u64,
    ghost small: { value < 2 ^ 64 },
}

impl Count {
    /// The count of nothing.
    pub fn new() -> Count
        ensures { result.value ≡ 0 }
    {
        Count { value: 0 }
    }

    /// Its value.
    pub fn value(&self) -> u64
        ensures { result ≡ self.now.value }
    {
        self.value
    }

    /// Counts one more.
    pub fn rise(&mut self)
        ensures { self.new.value ≡ one_more self.old.value }
    {
        self.value = self.value.saturating_add(1);
    }
}
