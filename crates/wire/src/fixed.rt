ghost use Rattle.std.specs.Prelude.{◌≡◌, ⊤};
ghost use Rattle.wire.specs.Number.{fixed};
ghost use Rattle.wire.specs.KeyLaws.{fixed_prefix_free};

use crate::record::Record;
use crate::sink::Sink;
use proto::Fault;
use std::alloc::Global;

/// A digest: 32 bytes, without a length.
impl Record for [u8; 32] {
    ghost fits = { λ _. ⊤ };

    ghost encoding = { fixed 32 };

    fn put<S: Sink>(&self, sink: &mut S) -> Result<(), S::Refusal> {
        sink.put(self)
    }

    fn take<'b>(_alloc: Global, bytes: &'b [u8]) -> Result<([u8; 32], &'b [u8]), Fault> {
        match bytes.split_first_chunk::<32>() {
            Some((front, rest)) => {
                let digest = *front;
                Ok((digest, rest))
            }
            None => Err(Fault::BadRecord),
        }
    }

    ghost prefix_free = { fixed_prefix_free 31 };
}
