//! What a client asks of its own keys.

use random::Words;
use std::alloc::{AllocError, Global};

/// How many keys of its own a connection has.
pub const KEYS: usize = 4;

#[derive(Clone, Copy, PartialEq, Eq)]
pub enum Verb {
    Set,
    Add,
    Replace,
    Append,
    Prepend,
    Cas,
    Get,
    Gets,
    Gat,
    Gats,
    Touch,
    Increase,
    Decrease,
    Delete,
}

const VERBS: [Verb; 14] = [
    Verb::Set,
    Verb::Add,
    Verb::Replace,
    Verb::Append,
    Verb::Prepend,
    Verb::Cas,
    Verb::Get,
    Verb::Gets,
    Verb::Gat,
    Verb::Gats,
    Verb::Touch,
    Verb::Increase,
    Verb::Decrease,
    Verb::Delete,
];

/// Data that are stored: numbers, what looks like one, and bytes that a line may not have.
const DATA: [&[u8]; 8] = [
    b"7",
    b"007",
    b"18446744073709551615",
    b"18446744073709551616",
    b"",
    b"12x",
    b"\r\nEND\r\n",
    b"\x00\xff words",
];

/// Exptimes: never, so many seconds, a moment that does not come, and at once.
const EXPTIMES: [i64; 8] = [0, 0, 0, 20, 300, 2592000, 2592001, -1];

const DELTAS: [u64; 4] = [0, 1, 900, u64::MAX];

impl Verb {
    fn word(self) -> &'static str {
        match self {
            Verb::Set => "set",
            Verb::Add => "add",
            Verb::Replace => "replace",
            Verb::Append => "append",
            Verb::Prepend => "prepend",
            Verb::Cas => "cas",
            Verb::Get => "get",
            Verb::Gets => "gets",
            Verb::Gat => "gat",
            Verb::Gats => "gats",
            Verb::Touch => "touch",
            Verb::Increase => "incr",
            Verb::Decrease => "decr",
            Verb::Delete => "delete",
        }
    }

    /// Whether it shows the item.
    pub fn reads(self) -> bool {
        matches!(self, Verb::Get | Verb::Gets | Verb::Gat | Verb::Gats)
    }

    /// Whether it shows the unique too.
    pub fn shows_unique(self) -> bool {
        matches!(self, Verb::Gets | Verb::Gats)
    }

    /// Whether data follow its line.
    fn has_data(self) -> bool {
        matches!(
            self,
            Verb::Set | Verb::Add | Verb::Replace | Verb::Append | Verb::Prepend | Verb::Cas
        )
    }
}

/// A command of one key.
#[derive(Clone, Copy)]
pub struct Command {
    pub verb: Verb,
    pub key: usize,
    pub data: &'static [u8],
    pub flags: u32,
    pub exptime: i64,
    pub delta: u64,
    /// The unique of a `cas`.
    pub unique: u64,
    /// The store of this key that has the unique, counted from 1; 0: none has it.
    pub store: u64,
    /// Whether it asks for no reply.
    pub is_quiet: bool,
}

impl Command {
    /// A command at random. Its unique is that of no item.
    pub fn any(words: &mut Words) -> Command {
        let verb = *VERBS.get(words.below(14) as usize).unwrap_or(&Verb::Get);
        let data = *DATA.get(words.below(8) as usize).unwrap_or(&DATA[0]);
        let exptime = *EXPTIMES.get(words.below(8) as usize).unwrap_or(&0);
        let delta = *DELTAS.get(words.below(4) as usize).unwrap_or(&1);
        Command {
            verb,
            key: words.below(KEYS as u32) as usize,
            data,
            flags: words.below(3),
            exptime,
            delta,
            unique: 7,
            store: 0,
            is_quiet: words.one_in(6) && !verb.reads(),
        }
    }

    /// Its line up to its last word, of a connection with this number.
    fn line(&self, alloc: Global, number: u64) -> Result<String, AllocError> {
        let Command {
            verb,
            key,
            data,
            flags,
            exptime,
            delta,
            unique,
            ..
        } = *self;
        let word = verb.word();
        let size = data.len();
        match verb {
            Verb::Cas => {
                format!(in alloc; "{word} {number}.{key} {flags} {exptime} {size} {unique}")
            }
            Verb::Get | Verb::Gets | Verb::Delete => format!(in alloc; "{word} {number}.{key}"),
            Verb::Gat | Verb::Gats => format!(in alloc; "{word} {exptime} {number}.{key}"),
            Verb::Touch => format!(in alloc; "{word} {number}.{key} {exptime}"),
            Verb::Increase | Verb::Decrease => {
                format!(in alloc; "{word} {number}.{key} {delta}")
            }
            _ => format!(in alloc; "{word} {number}.{key} {flags} {exptime} {size}"),
        }
    }

    /// Puts its bytes.
    pub fn put(&self, alloc: Global, number: u64, text: &mut Vec<u8>) -> Result<(), AllocError> {
        let line = self.line(alloc, number)?;
        text.extend_from_slice(line.as_bytes())?;
        if self.is_quiet {
            text.extend_from_slice(b" noreply")?;
        }
        text.extend_from_slice(b"\r\n")?;
        if self.verb.has_data() {
            text.extend_from_slice(self.data)?;
            text.extend_from_slice(b"\r\n")?;
        }
        Ok(())
    }
}
