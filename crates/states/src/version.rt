//! The versions of the records of states, and a state read in either.

ghost use Rattle.wire.specs.Record.{Takes};
ghost use Rattle.states.specs.Version.{state_text_in, after_text_in, IsStateIn, IsSuccessorIn};

use crate::state::State;
use batches::Batch;
use proto::Fault;
use std::alloc::Global;
use wire::{Record, Sink};

/// In which version a record is written. Both are read; what is written is of the second.
#[derive(Clone, Copy, PartialEq, Eq)]
pub enum Version {
    /// A state has no form and 64 pages, and a block at most `OLD_BLOCK_BYTES` bytes, wherever it
    /// stands. It is 1 in a record.
    First,
    /// Today's. It is 2 in a record.
    Second,
}

impl Record for Version {
    ghost use Rattle.wire.specs.Record.{Always};
    ghost use Rattle.states.specs.Version.{version_text};
    ghost use Rattle.states.specs.VersionProofs.{version_prefix_free};

    ghost fits = { Always };

    ghost encoding = { version_text };

    fn put<S: Sink>(&self, sink: &mut S) -> Result<(), S::Refusal> {
        match self {
            Version::First => sink.put(&[1u8]),
            Version::Second => sink.put(&[2u8]),
        }
    }

    fn take<'b>(_alloc: Global, bytes: &'b [u8]) -> Result<(Version, &'b [u8]), Fault> {
        match bytes {
            [1, rest @ ..] => Ok((Version::First, rest)),
            [2, rest @ ..] => Ok((Version::Second, rest)),
            _ => Err(Fault::BadRecord),
        }
    }

    ghost prefix_free = { version_prefix_free };
}

impl State {
    /// The state whose record in this version is a prefix of the bytes, with its token recomputed by its
    /// form, and the bytes after it. `BadRecord`: no record of a state is one. `NoMemory` is the only
    /// other error.
    pub fn take(alloc: Global, version: Version, bytes: &[u8]) -> Result<(State, &[u8]), Fault>
        ensures { Takes (IsStateIn version) (state_text_in version) bytes.now result }
    {
        match version {
            Version::First => State::take_old(alloc, bytes),
            Version::Second => State::take_current(alloc, bytes),
        }
    }

    /// The state that the batch makes of the one before, whose record in this version over it is a
    /// prefix of the bytes, and the bytes after it. What the batch did to the items and the sessions is
    /// read, and all else is recomputed. Pages that are the same are shared. `BadRecord`: there is no
    /// such state. `NoMemory` is the only other error.
    pub fn take_after<'b>(
        alloc: Global,
        version: Version,
        before: &State,
        batch: &Batch,
        bytes: &'b [u8],
    ) -> Result<(State, &'b [u8]), Fault>
        ensures { Takes (IsSuccessorIn version before.now batch.now) (after_text_in version before.now.items) bytes.now result }
    {
        match version {
            Version::First => State::take_old_after(alloc, before, batch, bytes),
            Version::Second => State::take_current_after(alloc, before, batch, bytes),
        }
    }
}
