//! The lock of all synchronized blocks.
ghost use Rattle.std.specs.Prelude.{◌≡◌, ◌^◌, ◌-◌, ◌<◌};
ghost use Rattle.tx_events.specs.World.{lock_in, lock_out};
ghost use Rattle.tx_serial.specs.Machine.{lock_owner};
ghost use Rattle.tx_runtime.specs.View.{lock_of};

/// The thread that holds the lock, and how many of its synchronized blocks are open.
#[derive(Clone, Copy)]
pub(crate) struct SyncLock {
    pub(crate) holder: Option<u8>,
    pub(crate) depth: u64,
}

impl SyncLock {
    /// The thread other than `t` that holds the lock.
    pub(crate) fn other_holder(self, t: u8) -> Option<u8>
        ensures { result ≡ lock_owner t self.holder }
    {
        match self.holder {
            Some(u) => if u == t { None } else { Some(u) },
            None => None,
        }
    }

    /// Thread `t` holds the lock once more.
    pub(crate) fn enter(self, t: u8) -> SyncLock
        requires { self.depth < 2 ^ 64 - 1 }
        ensures { lock_of result ≡ lock_in t (lock_of self) }
    {
        SyncLock {
            holder: Some(t),
            depth: self.depth + 1,
        }
    }

    /// The holder holds the lock once less, and at 0 no one does.
    pub(crate) fn leave(self) -> SyncLock
        ensures { lock_of result ≡ lock_out (lock_of self) }
    {
        SyncLock {
            holder: if self.depth > 1 { self.holder } else { None },
            depth: self.depth.saturating_sub(1),
        }
    }
}
