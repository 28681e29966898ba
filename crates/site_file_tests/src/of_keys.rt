//! Texts of key files.

use site_file::{KeyFault, KeyFile};
use std::alloc::{AllocError, Global};
use std::test::Fail;

/// A key, in hex digits.
const ONE: &str = "000102030405060708090a0b0c0d0e0f101112131415161718191a1b1c1d1e1f";

/// Another one.
const TWO: &str = "FFfeFDfcFBfaF9f8F7f6F5f4F3f2F1f0EFeeEDecEBeaE9e8E7e6E5e4E3e2E1e0";

/// Whether the keys are that of `ONE` and, if it is to be there, that of `TWO`.
fn are_keys(keys: &KeyFile, has_second: bool) -> bool {
    let mut one = [0; 32];
    let mut two = [0; 32];
    for at in 0..32u8 {
        one[usize::from(at)] = at;
        two[usize::from(at)] = 255 - at;
    }
    keys.first == one
        && match keys.second {
            Some(second) => has_second && second == two,
            None => !has_second,
        }
}

/// The parts of a text: 1 stands for `ONE`, 2 for `TWO`, and all else for itself.
fn text_of(alloc: Global, parts: &[u8]) -> Result<Vec<u8>, AllocError> {
    let mut text = Vec::new(alloc);
    for part in parts {
        match *part {
            1 => text.extend_from_slice(ONE.as_bytes())?,
            2 => text.extend_from_slice(TWO.as_bytes())?,
            byte => text.push(byte)?,
        }
    }
    Ok(text)
}

/// Parts of a text, and whether it has a second key.
const READ: [(&[u8], bool); 4] = [
    (&[1], false),
    (&[1, b'\n'], false),
    (&[1, b'\n', 2], true),
    (&[1, b'\n', 2, b'\n'], true),
];

/// Parts of a text, and why it is refused.
const REFUSED: [(&[u8], KeyFault); 18] = [
    (&[], KeyFault::First),
    (b"\n", KeyFault::First),
    (b"00", KeyFault::First),
    (&[1, b'0'], KeyFault::First),
    (&[1, b' '], KeyFault::First),
    (&[b' ', 1], KeyFault::First),
    (&[1, b'\r', b'\n'], KeyFault::First),
    (&[1, 2], KeyFault::First),
    (&[b'\n', 1], KeyFault::First),
    (&[b'#', b'\n', 1], KeyFault::First),
    (&[1, b'\n', b'\n'], KeyFault::Second),
    (&[1, b'\n', b'0'], KeyFault::Second),
    (&[1, b'\n', b'\n', 2], KeyFault::Second),
    (&[1, b'\n', 2, b'0'], KeyFault::Second),
    (&[1, b'\n', 2, b'\r', b'\n'], KeyFault::Second),
    (&[1, b'\n', 2, b'\n', b'\n'], KeyFault::More),
    (&[1, b'\n', 2, b'\n', 1], KeyFault::More),
    (&[1, b'\n', 2, b'\n', b' '], KeyFault::More),
];

/// What is read of these parts.
fn read(alloc: Global, parts: &[u8]) -> Result<Result<KeyFile, KeyFault>, AllocError> {
    let text = text_of(alloc, parts)?;
    Ok(KeyFile::read(text.as_slice()))
}

/// Whether the keys of these parts are read.
fn is_read(alloc: Global, parts: &[u8], has_second: bool) -> Result<bool, AllocError> {
    Ok(match read(alloc, parts)? {
        Ok(keys) => are_keys(&keys, has_second),
        Err(_) => false,
    })
}

/// Whether these parts are refused for this reason.
fn is_refused(alloc: Global, parts: &[u8], fault: KeyFault) -> Result<bool, AllocError> {
    Ok(match read(alloc, parts)? {
        Ok(_) => false,
        Err(reason) => reason == fault,
    })
}

#[test]
fn one_or_two_lines_are_read(rt: HostRuntime) -> Result<(), Fail> {
    for (parts, has_second) in &READ {
        assert!(rt; is_read(rt.alloc(), *parts, *has_second)?, "{parts:?}");
    }
    Ok(())
}

#[test]
fn all_else_is_refused(rt: HostRuntime) -> Result<(), Fail> {
    for (parts, fault) in &REFUSED {
        assert!(rt; is_refused(rt.alloc(), *parts, *fault)?, "{parts:?}");
    }
    Ok(())
}

/// Whether a line with a digit changed is refused, and the message has nothing of the text.
fn is_kept_secret(alloc: Global) -> Result<bool, AllocError> {
    let mut text = text_of(alloc, &[1])?;
    text.pop();
    text.push(b'g')?;
    match KeyFile::read(text.as_slice()) {
        Ok(_) => Ok(false),
        Err(fault) => {
            let message = format!(in alloc; "{fault}")?;
            Ok(
                message.as_str()
                    == "line 1: a key is 64 hex digits, and nothing else is in its line",
            )
        }
    }
}

#[test]
fn a_message_has_nothing_of_a_key(rt: HostRuntime) -> Result<(), Fail> {
    assert!(rt; is_kept_secret(rt.alloc())?);
    Ok(())
}
