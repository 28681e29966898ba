//! What a line is, by itself.

use crate::meta::Meta;
use crate::turn::{Notice, Show, Turn};
use proto::{Header, StoreVerb};

/// How many bytes a line has at most, with its newline.
pub const MOST_LINE_BYTES: usize = 65_536;

/// The greatest size that a storage line may name.
pub const MOST_SIZE: u64 = 2_147_483_645;

/// The names of commands.
#[derive(Clone, Copy, PartialEq, Eq)]
pub enum Name {
    Store(StoreVerb),
    Cas,
    Get,
    Gets,
    Gat,
    Gats,
    Delete,
    Touch,
    Incr,
    Decr,
    Version,
    Quit,
    Verbosity,
    FlushAll,
    Shutdown,
    MetaNoop,
    Stats,
    /// `lru_crawler`.
    Crawler,
    Meta(Meta),
    /// The first word of a request of HTTP.
    Http,
}

/// A command that reads any number of keys.
#[derive(Clone, Copy, PartialEq, Eq)]
pub enum ReadVerb {
    Get,
    Gets,
    Gat(i32),
    Gats(i32),
}

/// A correct storage line, and what is shown of the reply to its command.
#[derive(Drop)]
pub struct Opening {
    pub header: Header,
    pub show: Show,
}

/// What a line is.
#[derive(Drop)]
pub enum Line {
    /// At most one turn by itself.
    Gives(Option<Turn>),
    /// The last line: the text is given, and nothing more is read.
    Closes(Notice),
    /// A command over the keys of the line.
    Reads(ReadVerb),
    /// A correct storage line: its block follows.
    Opens(Opening),
    /// So many bytes follow that are not read, and then this turn, if any.
    Skips(u32, Option<Turn>),
}
