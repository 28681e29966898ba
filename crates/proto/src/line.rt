//! What a line asks by itself.

use crate::command::StoreVerb;
use crate::key::Key;
use crate::turn::Turn;

/// How many bytes a line has at most, with its newline.
pub const MOST_LINE_BYTES: usize = 2048;

/// The line of a storage command: its block follows.
#[derive(Drop)]
pub struct Header {
    pub kind: Kind,
    pub key: Key,
    pub flags: u32,
    pub exptime: i32,
    pub size: u32,
    pub quiet: bool,
}

/// The command of a storage line.
#[derive(Clone, Copy, PartialEq, Eq)]
pub enum Kind {
    Plain(StoreVerb),
    /// With the unique that is asked for.
    Cas(u64),
}

/// What a line is.
#[derive(Drop)]
pub enum Line {
    /// A turn by itself.
    Whole(Turn),
    /// A correct storage line.
    Opens(Header),
}

/// The names of commands.
#[derive(Clone, Copy, PartialEq, Eq)]
pub enum Name {
    Store(StoreVerb),
    Cas,
    Get,
    Gets,
    Gat,
    Gats,
    Delete,
    Touch,
    Incr,
    Decr,
    Version,
    Quit,
}
