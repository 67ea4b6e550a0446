ghost use Rattle.std.specs.Prelude.{◌≡◌, ◌++◌, [], OnErr, OnOk};

use std::alloc::{AllocError, Global};
use std::marker::Model;

/// Bytes that have come, in their order. A contract sees them as their list.
#[derive(Drop)]
pub struct Bytes {
    bytes: Vec<u8>,
}

impl Model for Bytes {
    ghost use Rattle.std.specs.Prelude.{ℕ, List};

    ghost Value = { List ℕ };

    ghost view = { λ b. b.bytes.items };
}

impl Bytes {
    /// None. It takes no memory, and keeps the allocator.
    pub(crate) fn new(alloc: Global) -> Bytes
        ensures value { result ≡ [] }
    {
        Bytes {
            bytes: Vec::new(alloc),
        }
    }

    /// Adds bytes behind the others. If there is no memory for them, all stays as it was.
    pub(crate) fn add(&mut self, more: &[u8]) -> Result<(), AllocError>
        ensures ok { OnOk result (self.new ≡ self.old ++ more.now) }
        ensures err { OnErr result (self.new ≡ self.old) }
    {
        self.bytes.extend_from_slice(more)
    }

    /// Makes room for so many bytes more. `AllocError` if there is no memory for them.
    pub(crate) fn make_room(&mut self, more: usize) -> Result<(), AllocError>
        ensures same { self.new ≡ self.old }
    {
        self.bytes.reserve(more)
    }

    /// The bytes.
    pub fn as_slice(&self) -> &[u8]
        ensures value { result.now ≡ self.now }
    {
        self.bytes.as_slice()
    }

    /// The bytes as a `Vec`. It takes no memory.
    pub fn into_vec(self) -> Vec<u8>
        ensures value { result.items ≡ self }
    {
        let Bytes { bytes } = self;
        bytes
    }
}
