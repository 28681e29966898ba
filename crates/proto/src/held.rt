ghost use Rattle.std.specs.Prelude.{◌≡◌, ◌≤◌, ◌+◌, ◌++◌, [], length, take, IfOk, OnOk, OnErr};
ghost use Rattle.proto.specs.declared.block.TheConstants.{MOST_BLOCK_BYTES};

use std::alloc::{AllocError, Global};
use std::marker::Model;

/// Bytes that are held until the turn that they belong to ends. Nothing else in a reader owns memory.
/// Room is asked for at most for a block at its limit and the two bytes after it.
#[derive(Drop)]
pub struct Held {
    bytes: Vec<u8>,
}

impl Model for Held {
    ghost use Rattle.std.specs.Prelude.{◌≡◌, List, ℕ};

    ghost Value = { List ℕ };

    ghost view = { λ a. a.bytes.items };

    // Nothing is beside the bytes.
    ghost invariant = { λ a. a ≡ record { bytes = a.bytes } };
}

impl Held {
    pub fn new(alloc: Global) -> Held
        ensures { result ≡ [] }
    {
        Held {
            bytes: Vec::new(alloc),
        }
    }

    /// With room for so many bytes.
    pub fn with_room(alloc: Global, room: usize) -> Result<Held, AllocError>
        requires { room ≤ MOST_BLOCK_BYTES + 2 }
        ensures { IfOk result (λ held. held ≡ []) }
    {
        Ok(Held {
            bytes: Vec::with_capacity(alloc, room)?,
        })
    }

    pub fn as_slice(&self) -> &[u8]
        ensures { result.now ≡ self.now }
    {
        self.bytes.as_slice()
    }

    pub fn into_vec(self) -> Vec<u8>
        ensures { result.items ≡ self }
    {
        self.bytes
    }

    pub fn len(&self) -> usize
        ensures { result ≡ length self.now }
    {
        self.bytes.len()
    }

    pub fn clear(&mut self)
        ensures { self.new ≡ [] }
    {
        self.bytes.clear();
    }

    /// Makes room for so many more bytes.
    pub fn reserve(&mut self, more: usize) -> Result<(), AllocError>
        requires { more ≤ MOST_BLOCK_BYTES + 2 }
        ensures { self.new ≡ self.old }
    {
        self.bytes.reserve(more)
    }

    /// Keeps the first `size` bytes.
    pub fn truncate(&mut self, size: usize)
        ensures { self.new ≡ take size self.old }
    {
        self.bytes.truncate(size);
    }

    /// Adds bytes at the end.
    pub fn extend(&mut self, bytes: &[u8]) -> Result<(), AllocError>
        ensures ok { OnOk result (self.new ≡ self.old ++ bytes.now) }
        ensures err { OnErr result (self.new ≡ self.old) }
    {
        self.bytes.extend_from_slice(bytes)
    }
}

impl Clone for Held {
    ghost is_clone = { λ held copy. copy ≡ held };

    fn clone(&self) -> Result<Held, AllocError> {
        Ok(Held {
            bytes: self.bytes.clone()?,
        })
    }
}
