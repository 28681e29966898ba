//! The record of a verifier as rows of its fields.

ghost use Rattle.std.specs.Prelude.{◌≡◌, ◌<◌, ◌^◌, length, IsErr, IfOk, IfErr, ◌⊎◌};
ghost use Rattle.verifier.specs.Row.{ReadsWhole, ReadsTrimmed};

use decrees::{Decree, Start};
use proto::Fault;
use std::alloc::Global;
use wire::{Counted, read};

/// Number, how many may fail, view, and what is accepted.
pub type Head = (((u8, u8), u64), Option<(u64, Decree)>);

/// Of a verifier that has forgotten no decree: the head, and the decrees.
pub type WholeRow = (Head, Counted<Decree>);

/// Of any other: where the log begins too.
pub type TrimmedRow = ((Head, Start), Counted<Decree>);

/// The version of a record with a whole log.
pub const WHOLE: u8 = 1;

/// The version of a record whose log begins later.
pub const TRIMMED: u8 = 2;

/// What follows the version.
pub const KIND: u8 = b'V';

/// The row that the bytes behind the marks of version 1 encode.
pub fn read_whole(alloc: Global, bytes: &[u8]) -> Result<WholeRow, Fault>
    ensures { ReadsWhole bytes.now result }
{
    read::<WholeRow>(alloc, bytes)
}

/// The row that the bytes behind the marks of version 2 encode.
pub fn read_trimmed(alloc: Global, bytes: &[u8]) -> Result<TrimmedRow, Fault>
    ensures { ReadsTrimmed bytes.now result }
{
    read::<TrimmedRow>(alloc, bytes)
}
