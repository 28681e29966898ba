//! What is stored of an executor.

ghost use Rattle.std.specs.Prelude.{◌≡◌, ◌∷◌};
ghost use Rattle.wire.specs.Record.{Always, Takes};
ghost use Rattle.process_text.specs.Rows.{plain_text, stored_text, executor_row_text};
ghost use Rattle.process_text.specs.RowLaws.{plain_prefix_free, stored_prefix_free, executor_row_prefix_free};

use crate::flag::TruthByte;
use crate::long_text::LongText;
use decrees::Standing;
use proto::Fault;
use std::alloc::Global;
use wire::{Record, Sink};

/// All of an executor's record but its state: how many may fail, its number, how many decrees it has obeyed, and what they
/// stand for.
#[derive(Clone, Copy, PartialEq, Eq)]
pub struct PlainRecord {
    pub u: u8,
    pub id: u8,
    pub known: u64,
    pub standing: Standing,
}

/// What is stored of an executor's record.
pub enum StoredRecord {
    /// There is none.
    Nothing,
    /// It is of the state that is stored beside the text, without tentative states.
    Plain(PlainRecord),
    /// Its text.
    Whole(LongText),
}

impl Drop for StoredRecord {
    fn drop(self) {
        match self {
            StoredRecord::Nothing => {}
            StoredRecord::Plain(_) => {}
            StoredRecord::Whole(_) => {}
        }
    }
}

/// What is stored of an executor: its record, how many saves have failed, and whether the next one is set to fail.
pub struct ExecutorRow {
    pub stored: StoredRecord,
    pub failures: u64,
    pub fails_next: bool,
}

impl Drop for ExecutorRow {
    fn drop(self) {
        let ExecutorRow {
            stored: _,
            failures: _,
            fails_next: _,
        } = self;
    }
}

impl Record for PlainRecord {
    ghost fits = { Always };

    ghost encoding = { plain_text };

    fn put<S: Sink>(&self, sink: &mut S) -> Result<(), S::Refusal> {
        self.u.put(sink)?;
        self.id.put(sink)?;
        self.known.put(sink)?;
        self.standing.put(sink)
    }

    fn take<'b>(alloc: Global, bytes: &'b [u8]) -> Result<(PlainRecord, &'b [u8]), Fault> {
        let ((((u, id), known), standing), rest) = <(((u8, u8), u64), Standing)>::take(
            alloc, bytes,
        )?;
        let plain = PlainRecord {
            u,
            id,
            known,
            standing,
        };
        Ok((plain, rest))
    }

    ghost prefix_free = { plain_prefix_free };
}

fn take_plain(alloc: Global, bytes: &[u8]) -> Result<(StoredRecord, &[u8]), Fault>
    ensures { Takes Always stored_text (1 ∷ bytes.now) result }
{
    let (plain, rest) = PlainRecord::take(alloc, bytes)?;
    Ok((StoredRecord::Plain(plain), rest))
}

fn take_whole(alloc: Global, bytes: &[u8]) -> Result<(StoredRecord, &[u8]), Fault>
    ensures { Takes Always stored_text (2 ∷ bytes.now) result }
{
    let (text, rest) = LongText::take(alloc, bytes)?;
    Ok((StoredRecord::Whole(text), rest))
}

/// A mark, and what it stands for.
impl Record for StoredRecord {
    ghost fits = { Always };

    ghost encoding = { stored_text };

    fn put<S: Sink>(&self, sink: &mut S) -> Result<(), S::Refusal> {
        match self {
            StoredRecord::Nothing => sink.put(&[0u8]),
            StoredRecord::Plain(plain) => {
                sink.put(&[1u8])?;
                plain.put(sink)
            }
            StoredRecord::Whole(text) => {
                sink.put(&[2u8])?;
                text.put(sink)
            }
        }
    }

    fn take<'b>(alloc: Global, bytes: &'b [u8]) -> Result<(StoredRecord, &'b [u8]), Fault> {
        match bytes {
            [0, rest @ ..] => Ok((StoredRecord::Nothing, rest)),
            [1, rest @ ..] => take_plain(alloc, rest),
            [2, rest @ ..] => take_whole(alloc, rest),
            _ => Err(Fault::BadRecord),
        }
    }

    ghost prefix_free = { stored_prefix_free };
}

impl Record for ExecutorRow {
    ghost fits = { Always };

    ghost encoding = { executor_row_text };

    fn put<S: Sink>(&self, sink: &mut S) -> Result<(), S::Refusal> {
        let fails_next = TruthByte {
            is_set: self.fails_next,
        };
        self.stored.put(sink)?;
        self.failures.put(sink)?;
        fails_next.put(sink)
    }

    fn take<'b>(alloc: Global, bytes: &'b [u8]) -> Result<(ExecutorRow, &'b [u8]), Fault> {
        let (((stored, failures), fails_next), rest) = <((StoredRecord, u64), TruthByte)>::take(
            alloc, bytes,
        )?;
        let row = ExecutorRow {
            stored,
            failures,
            fails_next: fails_next.is_set,
        };
        Ok((row, rest))
    }

    ghost prefix_free = { executor_row_prefix_free };
}
