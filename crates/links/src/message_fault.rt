//! Why a message is not written, and why no more are read.

ghost use Rattle.std.specs.Prelude.{◌≡◌};
ghost use Rattle.links.specs.declared.message_fault.MessageFault.TheVariants.{NoMemory};

use std::alloc::{AllocError, AllocFailed};
use thiserror::Error;

/// Why a message is not written, or why no more are read.
#[derive(Clone, Copy, Debug, PartialEq, Eq, Error)]
pub enum MessageFault {
    /// The text is longer than that of a message may be.
    #[error("a message is too long")]
    TooLong,
    #[error("out of memory")]
    NoMemory,
}

impl From<AllocError> for MessageFault {
    ghost from_gives = { λ _ e. e ≡ NoMemory };

    fn from(_: AllocError) -> MessageFault {
        MessageFault::NoMemory
    }
}

impl<T: Drop> From<AllocFailed<T>> for MessageFault {
    ghost from_gives = { λ _ e. e ≡ NoMemory };

    fn from(_: AllocFailed<T>) -> MessageFault {
        MessageFault::NoMemory
    }
}
