//! Rows of bytes that are a record, or none.

use proto::Fault;
use std::alloc::{AllocError, Global};
use wire::{Record, read, write};

/// Bytes, and whether they are a record.
pub type Row<'a> = (&'a [u8], bool);

/// A part of a record: bytes, and how often they are there, one after the other.
pub type Part<'a> = (&'a [u8], usize);

fn add_part(bytes: &mut Vec<u8>, part: Part) -> Result<(), AllocError> {
    for _ in 0..part.1 {
        bytes.extend_from_slice(part.0)?;
    }
    Ok(())
}

/// Appends these parts.
pub fn add_parts(bytes: &mut Vec<u8>, parts: &[Part]) -> Result<(), AllocError> {
    for part in parts {
        add_part(bytes, *part)?;
    }
    Ok(())
}

/// The bytes of these parts, one list after the other.
pub fn bytes_of(alloc: Global, record: &[&[Part]]) -> Result<Vec<u8>, AllocError> {
    let mut bytes = Vec::new(alloc);
    for parts in record {
        add_parts(&mut bytes, *parts)?;
    }
    Ok(bytes)
}

/// Whether the value whose record the bytes are is written as just these bytes; nothing if they are
/// no record.
fn read_again<T: Record + Drop>(alloc: Global, bytes: &[u8]) -> Result<Option<bool>, Fault> {
    match read::<T>(alloc, bytes) {
        Ok(value) => {
            let mut out = Vec::new(alloc);
            write(alloc, &value, &mut out)?;
            Ok(Some(out.as_slice() == bytes))
        }
        Err(Fault::BadRecord) => Ok(None),
        Err(fault) => Err(fault),
    }
}

/// Turns bits of one byte; to turn them once more gives back what was there.
pub fn turn(bytes: &mut [u8], at: usize, turned: u8) {
    if let Some(byte) = bytes.get_mut(at) {
        *byte ^= turned;
    }
}

/// Whether the record with this byte changed is none, or that of another value.
fn is_told_apart<T: Record + Drop>(
    alloc: Global,
    bytes: &mut [u8],
    at: usize,
) -> Result<bool, Fault> {
    for turned in &[1u8, 2, 128, 255] {
        turn(bytes, at, *turned);
        let again = read_again::<T>(alloc, bytes);
        turn(bytes, at, *turned);
        if again? == Some(false) {
            return Ok(false);
        }
    }
    Ok(true)
}

/// Whether a record is none if it is cut at each of its bytes, and is distinguished if each is changed.
fn are_told_apart<T: Record + Drop>(alloc: Global, bytes: &mut [u8]) -> Result<bool, Fault> {
    for at in 0..bytes.len() {
        let front = read_again::<T>(alloc, bytes.get(..at).unwrap_or(&[]))?;
        if front.is_some() || !is_told_apart::<T>(alloc, bytes, at)? {
            return Ok(false);
        }
    }
    Ok(true)
}

fn is_strict<T: Record + Drop>(alloc: Global, bytes: &[u8]) -> Result<bool, Fault> {
    let mut copy = Vec::from_slice(alloc, bytes)?;
    are_told_apart::<T>(alloc, copy.as_mut_slice())
}

/// Whether it is as the row says; and if the bytes are a record, they are written again, and no record is
/// left of them by a cut.
pub fn holds<T: Record + Drop>(alloc: Global, row: Row) -> Result<bool, Fault> {
    match read_again::<T>(alloc, row.0)? {
        None => Ok(!row.1),
        Some(is_same) => Ok(row.1 && is_same && is_strict::<T>(alloc, row.0)?),
    }
}

/// The first of the rows that does not hold of this kind of record.
pub fn first_wrong<T: Record + Drop>(alloc: Global, rows: &[Row]) -> Result<Option<usize>, Fault> {
    for i in 0..rows.len() {
        if !holds::<T>(alloc, rows[i])? {
            return Ok(Some(i));
        }
    }
    Ok(None)
}

/// Whether these parts are a record of this kind, or none.
pub fn is_so<T: Record + Drop>(
    alloc: Global,
    record: &[&[Part]],
    has_record: bool,
) -> Result<bool, Fault> {
    let bytes = bytes_of(alloc, record)?;
    holds::<T>(alloc, (bytes.as_slice(), has_record))
}
