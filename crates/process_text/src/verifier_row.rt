//! What is stored of a verifier.

ghost use Rattle.std.specs.Prelude.{◌≡◌};
ghost use Rattle.wire.specs.Record.{Always};
ghost use Rattle.process_text.specs.Rows.{verifier_row_text};
ghost use Rattle.process_text.specs.RowLaws.{verifier_row_prefix_free};

use crate::flag::TruthByte;
use crate::long_text::LongText;
use proto::Fault;
use std::alloc::Global;
use wire::{Record, Sink};

/// What is stored of a verifier: its record, if it has one, how many saves have failed, and whether the next one is set to
/// fail.
pub struct VerifierRow {
    pub stored: Option<LongText>,
    pub failures: u64,
    pub fails_next: bool,
}

impl Drop for VerifierRow {
    fn drop(self) {
        let VerifierRow {
            stored: _,
            failures: _,
            fails_next: _,
        } = self;
    }
}

impl Record for VerifierRow {
    ghost fits = { Always };

    ghost encoding = { verifier_row_text };

    fn put<S: Sink>(&self, sink: &mut S) -> Result<(), S::Refusal> {
        let fails_next = TruthByte {
            is_set: self.fails_next,
        };
        self.stored.put(sink)?;
        self.failures.put(sink)?;
        fails_next.put(sink)
    }

    fn take<'b>(alloc: Global, bytes: &'b [u8]) -> Result<(VerifierRow, &'b [u8]), Fault> {
        let (((stored, failures), fails_next), rest) = <((Option<LongText>, u64), TruthByte)>::take(
            alloc, bytes,
        )?;
        let row = VerifierRow {
            stored,
            failures,
            fails_next: fails_next.is_set,
        };
        Ok((row, rest))
    }

    ghost prefix_free = { verifier_row_prefix_free };
}
