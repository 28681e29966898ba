ghost use Rattle.std.specs.Prelude.{◌≡◌, ◌≤◌, [], length, IfOk, IsTrue, ◌↔◌};
ghost use Rattle.base.specs.Pieces.{piece_bytes};

use base::Piece;
use std::alloc::{AllocError, Global};
use std::marker::Model;
use std::sync::Arc;

/// How many bytes of data an item has at most.
pub const MOST_BLOCK_BYTES: usize = 1_048_576;

/// The data of an item, or the block of a storage line: at most `MOST_BLOCK_BYTES` bytes. Clones
/// share the bytes.
pub struct Block {
    bytes: Piece,
}

impl Drop for Block {
    fn drop(self) {
        let Block { bytes: _ } = self;
    }
}

impl Model for Block {
    ghost use Rattle.std.specs.Prelude.{List, ℕ, ◌≤◌, length};
    ghost use Rattle.std.specs.Arc.{arc_value};
    ghost use Rattle.proto.specs.declared.block.TheConstants.{MOST_BLOCK_BYTES};

    ghost Value = { List ℕ };

    ghost view = { λ a. (arc_value a.bytes).items };

    ghost invariant = { λ a. length (arc_value a.bytes).items ≤ MOST_BLOCK_BYTES };
}

impl Block {
    /// The block of these bytes, which are not copied. The only error is a failed allocation.
    pub fn new(bytes: Vec<u8>) -> Result<Block, AllocError>
        requires { length bytes.items ≤ MOST_BLOCK_BYTES }
        ensures { IfOk result (λ block. block ≡ bytes.items) }
    {
        let alloc = *bytes.allocator();
        Ok(Block {
            bytes: Arc::new(alloc, bytes)?,
        })
    }

    /// The block of a copy of these bytes. The only error is a failed allocation.
    pub fn from_slice(alloc: Global, bytes: &[u8]) -> Result<Block, AllocError>
        requires { length bytes.now ≤ MOST_BLOCK_BYTES }
        ensures { IfOk result (λ block. block ≡ bytes.now) }
    {
        Block::new(Vec::from_slice(alloc, bytes)?)
    }

    /// The bytes.
    pub fn as_slice(&self) -> &[u8]
        ensures bytes { result.now ≡ self.now }
        ensures limit { length self.now ≤ MOST_BLOCK_BYTES }
    {
        self.bytes.as_slice()
    }

    /// The bytes as a piece, which a text can share. A large block is put into a record so.
    pub fn as_piece(&self) -> &Piece
        ensures { piece_bytes result.now ≡ self.now }
    {
        &self.bytes
    }

    /// Whether it has no byte.
    pub fn is_empty(&self) -> bool
        ensures { IsTrue result ↔ (self.now ≡ []) }
    {
        self.bytes.is_empty()
    }

    /// How many bytes it has.
    pub fn len(&self) -> usize
        ensures len { result ≡ length self.now }
        ensures limit { result ≤ MOST_BLOCK_BYTES }
    {
        self.bytes.len()
    }
}

impl Clone for Block {
    ghost is_clone = { λ block copy. copy ≡ block };

    /// The same bytes, shared. It takes no memory, and fails only if a block has too many clones to
    /// be counted.
    fn clone(&self) -> Result<Block, AllocError> {
        Ok(Block {
            bytes: Arc::try_clone(&self.bytes)?,
        })
    }
}

impl PartialEq for Block {
    ghost use Rattle.std.proofs.Common.{rules};
    ghost use Rattle.std.specs.Cmp.Rules.{comparing};
    ghost use Rattle.std.specs.Str.{bytes_eq};

    ghost eq = { bytes_eq };

    ghost laws = { Prim.search (comparing, rules) };

    fn eq(&self, other: &Block) -> bool {
        self.bytes.as_slice() == other.bytes.as_slice()
    }
}
