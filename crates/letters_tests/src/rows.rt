//! Rows of bytes that are the text of a letter, or of none.

use decrees::Letter;
use exec_lines::Body;
use letters::{read, to_text, write};
use proto::Fault;
use std::alloc::{AllocError, Global};

/// A part of a text: bytes, and how often they are there, one after the other.
pub type Part<'a> = (&'a [u8], usize);

fn add_part(bytes: &mut Vec<u8>, part: Part) -> Result<(), AllocError> {
    for _ in 0..part.1 {
        bytes.extend_from_slice(part.0)?;
    }
    Ok(())
}

/// The bytes of these parts.
pub fn bytes_of(alloc: Global, parts: &[Part]) -> Result<Vec<u8>, AllocError> {
    let mut bytes = Vec::new(alloc);
    for part in parts {
        add_part(&mut bytes, *part)?;
    }
    Ok(bytes)
}

fn is_written(alloc: Global, letter: &Letter<Body>, bytes: &[u8]) -> Result<bool, AllocError> {
    let mut written = Vec::new(alloc);
    write(letter, &mut written)?;
    Ok(written.as_slice() == bytes)
}

/// Whether these are the bytes of the letter, also in pieces.
pub fn has_text(alloc: Global, letter: &Letter<Body>, bytes: &[u8]) -> Result<bool, AllocError> {
    let joined = to_text(alloc, letter)?.joined(alloc)?;
    Ok(joined.as_slice() == bytes && is_written(alloc, letter, bytes)?)
}

/// Whether the letter that is read of the bytes has just this text; nothing if they are the text of none.
pub fn read_again(alloc: Global, bytes: &[u8]) -> Result<Option<bool>, Fault> {
    match read(alloc, bytes) {
        Ok(letter) => Ok(Some(has_text(alloc, &letter, bytes)?)),
        Err(Fault::BadRecord) => Ok(None),
        Err(fault) => Err(fault),
    }
}

/// Turns bits of one byte; to turn them once more gives back what was there.
fn turn(bytes: &mut [u8], at: usize, turned: u8) {
    if let Some(byte) = bytes.get_mut(at) {
        *byte ^= turned;
    }
}

/// Whether the bytes with each bit of this one changed in turn are the text of another letter, or of none.
fn is_told_apart(alloc: Global, bytes: &mut [u8], at: usize) -> Result<bool, Fault> {
    for turned in &[1u8, 2, 4, 8, 16, 32, 64, 128] {
        turn(bytes, at, *turned);
        let again = read_again(alloc, bytes);
        turn(bytes, at, *turned);
        if again? == Some(false) {
            return Ok(false);
        }
    }
    Ok(true)
}

/// Whether no letter is left if the text is cut at this byte, and each of its bits is told apart.
fn is_sealed_at(alloc: Global, bytes: &mut [u8], at: usize) -> Result<bool, Fault> {
    let front = read_again(alloc, bytes.get(..at).unwrap_or(&[]))?;
    Ok(front.is_none() && is_told_apart(alloc, bytes, at)?)
}

/// Whether that is so at each of its bytes. Of a text of more than 256 bytes, it is each of these and then one in 200.
fn is_sealed(alloc: Global, bytes: &mut [u8]) -> Result<bool, Fault> {
    for at in 0..bytes.len() {
        if (at < 256 || at % 200 == 0) && !is_sealed_at(alloc, bytes, at)? {
            return Ok(false);
        }
    }
    Ok(true)
}

/// Whether a byte more makes it the text of no letter.
fn ends(alloc: Global, bytes: &[u8]) -> Result<bool, Fault> {
    let mut longer = Vec::from_slice(alloc, bytes)?;
    longer.push(0)?;
    Ok(read_again(alloc, longer.as_slice())?.is_none())
}

/// Whether these parts are the text of a letter, which is written again, and any change of it is told.
pub fn is_strict(alloc: Global, parts: &[Part]) -> Result<bool, Fault> {
    let mut bytes = bytes_of(alloc, parts)?;
    Ok(
        read_again(alloc, bytes.as_slice())? == Some(true)
            && ends(alloc, bytes.as_slice())?
            && is_sealed(alloc, bytes.as_mut_slice())?,
    )
}
