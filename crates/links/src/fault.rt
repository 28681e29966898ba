//! Why a letter is refused, and why a connection is to be closed.

ghost use Rattle.std.specs.Prelude.{◌≡◌};
ghost use Rattle.links.specs.declared.fault.LinkFault.TheVariants.{NoMemory};

use std::alloc::{AllocError, AllocFailed};
use thiserror::Error;

/// Why a letter is refused, or why a connection is to be closed.
#[derive(Clone, Copy, Debug, PartialEq, Eq, Error)]
pub enum LinkFault {
    /// The letter has more bytes than a letter of its lane may have.
    #[error("a letter is too long")]
    TooLong,
    /// The lane holds as much as it may.
    #[error("a lane is full")]
    Full,
    /// A letter is acknowledged that was not handed out.
    #[error("an acknowledgement of a letter that was not sent")]
    NotSent,
    /// Letters are left out before one that came.
    #[error("a letter is missing")]
    Missing,
    /// The peer's life is lower than one that was seen.
    #[error("an old life of a peer")]
    OldLife,
    /// No number is left for one more letter.
    #[error("no number is left for a letter")]
    Stopped,
    #[error("out of memory")]
    NoMemory,
}

impl From<AllocError> for LinkFault {
    ghost from_gives = { λ _ e. e ≡ NoMemory };

    fn from(_: AllocError) -> LinkFault {
        LinkFault::NoMemory
    }
}

impl<T: Drop> From<AllocFailed<T>> for LinkFault {
    ghost from_gives = { λ _ e. e ≡ NoMemory };

    fn from(_: AllocFailed<T>) -> LinkFault {
        LinkFault::NoMemory
    }
}
