//! The keys of a site.

ghost use Rattle.std.specs.Prelude.{ℕ, List, IfSome, IfNone, IfOk, IfErr};
ghost use Rattle.site_file.specs.KeyText.{EndsLine, BeginsWithKey, BeginsWithLine, IsKeyText, IsKeyFault};

use crate::limits::KEY_BYTES;
use hex::FromHex;
use thiserror::Error;

/// The keys of a site. It cannot be shown, so that no log has a key.
#[derive(Clone, Copy)]
pub struct KeyFile {
    /// The key with which a member seals what it says. What comes sealed with it is accepted.
    pub first: [u8; KEY_BYTES],
    /// What comes sealed with this key is accepted, too.
    pub second: Option<[u8; KEY_BYTES]>,
}

/// Why a key file is refused. It has nothing of the file's text.
#[derive(Clone, Copy, Debug, PartialEq, Eq, Error)]
pub enum KeyFault {
    #[error("line 1: a key is 64 hex digits, and nothing else is in its line")]
    First,
    #[error("line 2: a key is 64 hex digits, and nothing else is in its line")]
    Second,
    #[error("line 3: a key file has one or two lines")]
    More,
}

/// The digits of a key.
const KEY_DIGITS: usize = 2 * KEY_BYTES;

/// A key at the front of a text.
#[derive(Clone, Copy)]
struct Front<'a> {
    key: [u8; KEY_BYTES],
    /// What is behind it.
    rest: &'a [u8],
}

/// The key at the front of a text.
fn front_key(text: &[u8]) -> Option<Front<'_>>
    ensures some { IfSome result (λ front. BeginsWithKey text.now front.key front.rest.now) }
    ensures none { IfNone result ((key rest : List ℕ) → BeginsWithKey text.now key rest → ⊥) }
{
    let Some((digits, rest)) = text.split_at_checked(KEY_DIGITS) else {
        return None;
    };
    match <[u8; KEY_BYTES] as FromHex>::from_hex(digits) {
        Ok(key) => Some(Front { key, rest }),
        Err(_) => None,
    }
}

/// What is behind the end of a line, if the text begins with one or is over.
fn after_end(text: &[u8]) -> Option<&[u8]>
    ensures some { IfSome result (λ rest. EndsLine text.now rest.now) }
    ensures none { IfNone result ((rest : List ℕ) → EndsLine text.now rest → ⊥) }
{
    match text.split_first() {
        Some((byte, rest)) => { if *byte == b'\n' { Some(rest) } else { None } }
        None => Some(text),
    }
}

/// The key in the first line of a text, with the lines behind it.
fn front_line(text: &[u8]) -> Option<Front<'_>>
    ensures some { IfSome result (λ front. BeginsWithLine text.now front.key front.rest.now) }
    ensures none { IfNone result ((key rest : List ℕ) → BeginsWithLine text.now key rest → ⊥) }
{
    let Some(front) = front_key(text) else {
        return None;
    };
    let key = front.key;
    match after_end(front.rest) {
        Some(rest) => Some(Front { key, rest }),
        None => None,
    }
}

impl KeyFile {
    /// The keys that a text has: one or two lines of 64 hex digits each, in either case. Each line ends with a newline,
    /// which may be missing at the end of the text. Nothing else is in it.
    ///
    /// First, Second: this line is not such a line. More: something is behind the second line.
    pub fn read(text: &[u8]) -> Result<KeyFile, KeyFault>
        ensures ok { IfOk result (IsKeyText text.now) }
        ensures err { IfErr result (IsKeyFault text.now) }
    {
        let Some(line) = front_line(text) else {
            return Err(KeyFault::First);
        };
        let first = line.key;
        if line.rest.is_empty() {
            return Ok(KeyFile {
                first,
                second: None,
            });
        }
        let Some(next) = front_line(line.rest) else {
            return Err(KeyFault::Second);
        };
        let second = next.key;
        if !next.rest.is_empty() {
            return Err(KeyFault::More);
        }
        Ok(KeyFile {
            first,
            second: Some(second),
        })
    }
}
