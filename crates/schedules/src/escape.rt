//! The bytes of a Feed, as its line has them.

ghost use Rattle.std.specs.Prelude.{◌≡◌, ◌<◌, IfOk, IfSome};
ghost use Rattle.std.specs.Option.{option_map};
ghost use Rattle.schedules.specs.Escape as spec;

use std::alloc::{AllocError, Global};

/// What was read of an escape.
#[derive(Clone, Copy)]
pub enum Escape {
    /// Nothing.
    Whole,
    /// A backslash.
    Backslash,
    /// A backslash and an `x`.
    Hex,
    /// These, and a first digit.
    HighDigit(u8),
}

/// Whether the byte may stand for itself: 32 to 126, and no backslash.
pub fn is_plain(b: u8) -> bool
    ensures { result ≡ spec.is_plain b }
{
    32 <= b && b <= 126 && b != b'\\'
}

/// The value of a hexadecimal digit in lower case.
fn hex_value(b: u8) -> Option<u8>
    ensures value { result ≡ spec.hex_value b }
    ensures small { IfSome result (λ n. n < 16) }
{
    if 48 <= b && b <= 57 {
        Some(b - 48)
    } else if 97 <= b && b <= 102 {
        Some(b - 87)
    } else {
        None
    }
}

/// What was read of an escape after one byte more, and the byte of which that was the last one.
fn escape_step(escape: Escape, b: u8) -> Option<(Escape, Option<u8>)>
    requires { spec.IsEscape escape }
    ensures step { result ≡ spec.escape_step escape b }
    ensures escape { IfSome result (λ s. spec.IsEscape s.0) }
{
    match escape {
        Escape::Whole => {
            if is_plain(b) {
                Some((Escape::Whole, Some(b)))
            } else if b == b'\\' {
                Some((Escape::Backslash, None))
            } else {
                None
            }
        }
        Escape::Backslash => after_backslash(b),
        Escape::Hex => match hex_value(b) {
            None => None,
            Some(n) => Some((Escape::HighDigit(n), None)),
        },
        Escape::HighDigit(high) => match hex_value(b) {
            None => None,
            Some(n) => Some((Escape::Whole, Some(high * 16 + n))),
        },
    }
}

fn after_backslash(b: u8) -> Option<(Escape, Option<u8>)>
    ensures step { result ≡ spec.escape_step Escape.Backslash b }
    ensures escape { IfSome result (λ s. spec.IsEscape s.0) }
{
    if b == b'r' {
        Some((Escape::Whole, Some(b'\r')))
    } else if b == b'n' {
        Some((Escape::Whole, Some(b'\n')))
    } else if b == b'\\' {
        Some((Escape::Whole, Some(b'\\')))
    } else if b == b'x' {
        Some((Escape::Hex, None))
    } else {
        None
    }
}

/// The bytes for which the text stands.
pub fn unescaped(alloc: Global, text: &[u8]) -> Result<Option<Vec<u8>>, AllocError>
    ensures { IfOk result (λ bytes. option_map (λ v. v.items) bytes ≡ spec.unescaped text.now) }
{
    let mut bytes = Vec::new(alloc);
    let mut escape = Escape::Whole;
    for b in text {
        match escape_step(escape, *b) {
            None => return Ok(None),
            Some((next, whole)) => {
                escape = next;
                if let Some(byte) = whole {
                    bytes.push(byte)?;
                }
            }
        }
    }
    match escape {
        Escape::Whole => Ok(Some(bytes)),
        _ => Ok(None),
    }
}
