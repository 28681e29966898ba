ghost use Rattle.std.specs.Prelude.{◌≡◌, ◌++◌, [], length, OnOk, OnErr, IfOk};
ghost use Rattle.base.specs.Pieces.{piece_bytes, bytes_of};

use std::alloc::{AllocError, Global};
use std::marker::Model;
use std::mem;
use std::sync::Arc;

/// A piece of a text. Its bytes stay as they are, however many texts have it.
pub type Piece = Arc<Vec<u8>, Global>;

/// Bytes in pieces that may be shared with other texts, and an open tail.
///
/// Contracts see it as the bytes that it has, however they are cut into pieces. A call that fails
/// leaves the bytes as they were.
pub struct Text {
    pieces: Vec<Piece>,
    tail: Vec<u8>,
    len: usize,
}

impl Drop for Text {
    fn drop(self) {
        let Text {
            pieces: _,
            tail: _,
            len: _,
        } = self;
    }
}

impl Model for Text {
    ghost use Rattle.std.specs.Prelude.{List, ℕ, ◌++◌, ◌≡◌, length};
    ghost use Rattle.base.specs.Pieces.{bytes_of};

    ghost Value = { List ℕ };

    ghost view = { λ t. bytes_of t.pieces.items ++ t.tail.items };

    ghost invariant = { λ t. t.len ≡ length (bytes_of t.pieces.items ++ t.tail.items) };
}

/// Moves the tail behind the pieces, as one more of them. A piece does not grow, so it gives back the
/// room that the tail had to spare.
fn seal_tail(pieces: &mut Vec<Piece>, tail: &mut Vec<u8>) -> Result<(), AllocError>
    ensures moved { OnOk result (bytes_of pieces.new.items ≡ bytes_of pieces.old.items ++ tail.old.items) }
    ensures empty { OnOk result (tail.new.items ≡ []) }
    ensures err { OnErr result (bytes_of pieces.new.items ≡ bytes_of pieces.old.items) }
    ensures err_tail { OnErr result (tail.new.items ≡ tail.old.items) }
{
    if tail.is_empty() {
        return Ok(());
    }
    pieces.reserve(1)?;
    let alloc = *tail.allocator();
    tail.shrink_to_fit();
    let bytes = mem::replace(tail, Vec::new(alloc));
    match Arc::new(alloc, bytes) {
        Ok(piece) => {
            pieces.push_reserved(piece);
            Ok(())
        }
        Err(failed) => {
            *tail = failed.value;
            Err(AllocError)
        }
    }
}

/// The same pieces, shared.
fn shared(pieces: &Vec<Piece>) -> Result<Vec<Piece>, AllocError>
    ensures { IfOk result (λ copies. bytes_of copies.items ≡ bytes_of pieces.now.items) }
{
    let mut copies = Vec::with_capacity(*pieces.allocator(), pieces.len())?;
    for piece in pieces {
        copies.push(Arc::try_clone(piece)?)?;
    }
    Ok(copies)
}

impl Text {
    /// No bytes yet.
    pub fn new(alloc: Global) -> Text
        ensures { result ≡ [] }
    {
        Text {
            pieces: Vec::new(alloc),
            tail: Vec::new(alloc),
            len: 0,
        }
    }

    /// How many bytes it has.
    pub fn len(&self) -> usize
        ensures { result ≡ length self.now }
    {
        self.len
    }

    /// Makes room for so many bytes more in the tail. The bytes stay the same, whether or not there is
    /// memory for it.
    pub fn reserve(&mut self, more: usize) -> Result<(), AllocError>
        ensures { self.new ≡ self.old }
    {
        self.tail.reserve(more)
    }

    /// Appends a copy of the bytes, to the tail.
    pub fn put(&mut self, bytes: &[u8]) -> Result<(), AllocError>
        ensures ok { OnOk result (self.new ≡ self.old ++ bytes.now) }
        ensures err { OnErr result (self.new ≡ self.old) }
    {
        let Some(len) = self.len.checked_add(bytes.len()) else {
            return Err(AllocError);
        };
        self.tail.extend_from_slice(bytes)?;
        self.len = len;
        Ok(())
    }

    /// Appends copies of both, or of neither.
    pub fn put_two(&mut self, first: &[u8], second: &[u8]) -> Result<(), AllocError>
        ensures ok { OnOk result (self.new ≡ self.old ++ (first.now ++ second.now)) }
        ensures err { OnErr result (self.new ≡ self.old) }
    {
        let Some(more) = first.len().checked_add(second.len()) else {
            return Err(AllocError);
        };
        let Some(len) = self.len.checked_add(more) else {
            return Err(AllocError);
        };
        self.tail.reserve(more)?;
        self.tail.extend_from_slice(first)?;
        self.tail.extend_from_slice(second)?;
        self.len = len;
        Ok(())
    }

    /// Makes a piece of the tail, which clones share from then on. The bytes stay the same, whether or
    /// not there is memory for it.
    pub fn seal(&mut self) -> Result<(), AllocError>
        ensures { self.new ≡ self.old }
    {
        seal_tail(&mut self.pieces, &mut self.tail)
    }

    /// Appends the piece itself, behind the tail, which is sealed. No byte is copied.
    pub fn share(&mut self, piece: &Piece) -> Result<(), AllocError>
        ensures ok { OnOk result (self.new ≡ self.old ++ piece_bytes piece.now) }
        ensures err { OnErr result (self.new ≡ self.old) }
    {
        seal_tail(&mut self.pieces, &mut self.tail)?;
        let Some(len) = self.len.checked_add(piece.len()) else {
            return Err(AllocError);
        };
        self.pieces.push(Arc::try_clone(piece)?)?;
        self.len = len;
        Ok(())
    }

    /// The pieces, and the open tail behind them. A text that was just sealed has no byte in its tail.
    pub fn parts(&self) -> (&[Piece], &[u8])
        ensures { bytes_of result.0.now ++ result.1.now ≡ self.now }
    {
        (self.pieces.as_slice(), self.tail.as_slice())
    }

    /// The bytes in one vector.
    pub fn joined(&self, alloc: Global) -> Result<Vec<u8>, AllocError>
        ensures { IfOk result (λ bytes. bytes.items ≡ self.now) }
    {
        let mut bytes = Vec::with_capacity(alloc, self.len)?;
        for piece in &self.pieces {
            bytes.extend_from_slice(piece.as_slice())?;
        }
        bytes.extend_from_slice(self.tail.as_slice())?;
        Ok(bytes)
    }

    /// Appends what the other text has, by its pieces. Only its tail is copied.
    pub fn append(&mut self, other: &Text) -> Result<(), AllocError>
        ensures ok { OnOk result (self.new ≡ self.old ++ other.now) }
        ensures err { OnErr result (self.new ≡ self.old) }
    {
        if other.pieces.is_empty() {
            return self.put(other.tail.as_slice());
        }
        let Some(len) = self.len.checked_add(other.len) else {
            return Err(AllocError);
        };
        let mut pieces = shared(&other.pieces)?;
        let tail = Vec::from_slice(*other.tail.allocator(), other.tail.as_slice())?;
        seal_tail(&mut self.pieces, &mut self.tail)?;
        self.pieces.append(&mut pieces)?;
        self.tail = tail;
        self.len = len;
        Ok(())
    }
}

impl Clone for Text {
    ghost is_clone = { λ text copy. copy ≡ text };

    /// The same bytes. The pieces are shared; only the tail is copied.
    fn clone(&self) -> Result<Text, AllocError> {
        Ok(Text {
            pieces: shared(&self.pieces)?,
            tail: self.tail.clone()?,
            len: self.len,
        })
    }
}
