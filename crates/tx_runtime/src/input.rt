//! The input of the program.
ghost use Rattle.std.specs.Prelude.{◌≡◌, ◌≤◌, length, IfSome, IsNone};
ghost use Rattle.tx_events.specs.World.{byte_of, input_after};
ghost use Rattle.tx_events.specs.declared.Reply.TheVariants.{Byte};
ghost use Rattle.tx_runtime.specs.View.{left_of};

use tx_events::Reply;

/// Bytes, of which the first ones are taken.
#[derive(Drop)]
pub(crate) struct Input {
    pub(crate) bytes: Vec<u8>,
    pub(crate) taken: usize,
}

impl Input {
    pub(crate) fn new(bytes: Vec<u8>) -> Input
        ensures { left_of result ≡ bytes.items }
    {
        Input { bytes, taken: 0 }
    }

    /// What answers an `Inp`: the next byte, or -1 where none is left.
    pub(crate) fn reply(&self) -> Reply
        ensures { result ≡ Byte (byte_of (left_of self.now)) }
    {
        if self.taken < self.bytes.len() {
            Reply::Byte {
                value: i32::from(self.bytes[self.taken]),
            }
        } else {
            Reply::Byte { value: -1 }
        }
    }

    /// Takes the next byte, if one is left.
    pub(crate) fn advance(&mut self)
        ensures { left_of self.new ≡ input_after (left_of self.old) }
    {
        if self.taken < self.bytes.len() {
            self.taken += 1;
        }
    }
}
