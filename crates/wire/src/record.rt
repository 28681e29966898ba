ghost use Rattle.std.specs.Prelude.{◌≡◌, ◌++◌, List, ℕ, OnOk, OnErr};
ghost use Rattle.sha2.specs.Sha256.{sha256};
ghost use Rattle.wire.specs.Record.{Puts, Takes, Reads, IsPrefixFree};

use crate::sink::Sink;
use proto::Fault;
use sha2::{Digest, Sha256};
use std::alloc::{AllocError, Global};

/// A value with one encoding as bytes.
pub trait Record: Sized {
    /// The limits of the record that the type alone does not keep.
    ghost fits: { Self → Type 0 };

    ghost encoding: { Self → List ℕ };

    /// Writes the encoding.
    fn put<S: Sink>(&self, sink: &mut S) -> Result<(), S::Refusal>
        requires { fits self.now }
        ensures { OnOk result (Puts S.holds (encoding self.now) sink.old sink.new) };

    /// Reads the value at the start of the bytes, and gives the bytes after it.
    fn take<'b>(alloc: Global, bytes: &'b [u8]) -> Result<(Self, &'b [u8]), Fault>
        ensures { Takes fits encoding bytes.now result };

    /// No encoding is a prefix of another value's.
    ghost prefix_free: { IsPrefixFree encoding };
}

/// Appends the encoding of the value. If an allocation fails nothing is appended.
pub fn write<T: Record>(alloc: Global, value: &T, out: &mut Vec<u8>) -> Result<(), AllocError>
    requires { T.fits value.now }
    ensures ok { OnOk result (out.new.items ≡ out.old.items ++ T.encoding value.now) }
    ensures err { OnErr result (out.new.items ≡ out.old.items) }
{
    let mut text = Vec::new(alloc);
    value.put(&mut text)?;
    out.extend_from_slice(text.as_slice())?;
    Ok(())
}

/// The value that all of the bytes encode. `BadRecord`: no value that fits is encoded so.
pub fn read<T: Record + Drop>(alloc: Global, bytes: &[u8]) -> Result<T, Fault>
    ensures { Reads T.fits T.encoding bytes.now result }
{
    let (value, rest) = T::take(alloc, bytes)?;
    if rest.is_empty() {
        Ok(value)
    } else {
        Err(Fault::BadRecord)
    }
}

/// The SHA-256 of the encoding. It takes no memory.
pub fn digest<T: Record>(value: &T) -> [u8; 32]
    requires { T.fits value.now }
    ensures { result ≡ sha256 (T.encoding value.now) }
{
    let mut hasher = Sha256::new();
    match value.put(&mut hasher) {
        Ok(()) => hasher.finalize(),
        Err(never) => match never {},
    }
}
