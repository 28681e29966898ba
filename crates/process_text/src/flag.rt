//! A truth value in a record: one byte, 0 or 1.

ghost use Rattle.wire.specs.Record.{Always};
ghost use Rattle.process_text.specs.Rows.{flag_text};
ghost use Rattle.process_text.specs.RowLaws.{flag_prefix_free};

use proto::Fault;
use std::alloc::Global;
use wire::{Record, Sink};

/// Whether something is so.
#[derive(Clone, Copy, PartialEq, Eq)]
pub struct TruthByte {
    pub is_set: bool,
}

impl Record for TruthByte {
    ghost fits = { Always };

    ghost encoding = { flag_text };

    fn put<S: Sink>(&self, sink: &mut S) -> Result<(), S::Refusal> {
        if self.is_set {
            sink.put(&[1u8])
        } else {
            sink.put(&[0u8])
        }
    }

    fn take<'b>(_alloc: Global, bytes: &'b [u8]) -> Result<(TruthByte, &'b [u8]), Fault> {
        match bytes {
            [0, rest @ ..] => Ok((TruthByte { is_set: false }, rest)),
            [1, rest @ ..] => Ok((TruthByte { is_set: true }, rest)),
            _ => Err(Fault::BadRecord),
        }
    }

    ghost prefix_free = { flag_prefix_free };
}
