ghost use Rattle.std.specs.Prelude.{◌≡◌};

use crate::meta::MetaShow;
use crate::stats::Report;
use proto::Command;
use std::alloc::AllocError;

/// A text that the reader answers by itself.
#[derive(Clone, Copy, PartialEq, Eq)]
pub enum Notice {
    /// The name is no command's, or there are too few or too many words.
    UnknownName,
    BadFormat,
    /// The words after the key of a `delete` are bad.
    BadDelete,
    BadExptime,
    BadDelta,
    TooLarge,
    BadChunk,
    LineTooLong,
    Version,
    /// `OK`, of `verbosity`.
    Done,
    /// `END`, of a `gat` without keys.
    NoItems,
    /// `MN`, of the meta command `mn`.
    MetaNoop,
    /// A flag of `mg` or `ms` is none, or none that can be had here.
    UnknownFlag,
    /// A letter is in front of two flags of `mg` or `ms`.
    DuplicateFlag,
    /// A flag of `md` or `ma` is bad.
    BadFlag,
    /// The exptime or the unique of an `mg` or `ms` is no number.
    BadToken,
    /// The delta of an `mg` or `ms` is no number.
    BadDeltaValue,
    /// The mode of an `mg` or `ms` is no single byte.
    BadModeLength,
    BadSetMode,
    BadCountMode,
    OpaqueTooLong,
    FlushRefused,
    ShutdownRefused,
    /// The items have more bytes than the server may store.
    OutOfMemory,
    /// An answer to `stats`.
    Stats(Report),
    /// No text, at `quit`.
    Silent,
    /// No text, at a line of HTTP.
    Http,
    /// No text, at the first byte of the binary protocol.
    Binary,
}

/// What a client is shown of a command's reply.
#[derive(Drop)]
pub enum Show {
    /// All of it.
    Whole,
    /// Nothing.
    Quiet,
    /// The items that were found, without the `END` after them: more of the same line follow.
    Items,
    /// Another text in its place.
    Instead(Notice),
    /// The answer of a meta command.
    Meta(MetaShow),
}

/// What comes next on a client's stream. A line with its block gives no, one or more of them.
#[derive(Drop)]
pub enum Turn {
    /// A command, and what is shown of its reply.
    Ask(Command, Show),
    /// The text is given.
    Say(Notice),
    /// The text is given, and nothing more is read.
    Close(Notice),
}

impl Clone for Show {
    ghost is_clone = { λ show copy. copy ≡ show };

    fn clone(&self) -> Result<Show, AllocError> {
        Ok(match self {
            Show::Whole => Show::Whole,
            Show::Quiet => Show::Quiet,
            Show::Items => Show::Items,
            Show::Instead(notice) => Show::Instead(*notice),
            Show::Meta(show) => Show::Meta(show.clone()?),
        })
    }
}

impl Clone for Turn {
    ghost is_clone = { λ turn copy. copy ≡ turn };

    fn clone(&self) -> Result<Turn, AllocError> {
        Ok(match self {
            Turn::Ask(command, show) => Turn::Ask(command.clone()?, show.clone()?),
            Turn::Say(notice) => Turn::Say(*notice),
            Turn::Close(notice) => Turn::Close(*notice),
        })
    }
}
