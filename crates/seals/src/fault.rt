//! Why a piece is not sealed, and why no more is taken.

ghost use Rattle.std.specs.Prelude.{◌≡◌};
ghost use Rattle.seals.specs.declared.fault.SealFault.TheVariants.{NoMemory};

use std::alloc::{AllocError, AllocFailed};
use thiserror::Error;

/// Why a piece is not sealed, or why no more is taken.
#[derive(Clone, Copy, Debug, PartialEq, Eq, Error)]
pub enum SealFault {
    /// The piece has more than 65,536 bytes.
    #[error("a piece is too long")]
    TooLong,
    /// The tag is not that of the piece under this key and number.
    #[error("a tag is wrong")]
    WrongTag,
    /// No number is left for one more piece.
    #[error("no number is left for a piece")]
    Stopped,
    #[error("out of memory")]
    NoMemory,
}

impl From<AllocError> for SealFault {
    ghost from_gives = { λ _ e. e ≡ NoMemory };

    fn from(_: AllocError) -> SealFault {
        SealFault::NoMemory
    }
}

impl<T: Drop> From<AllocFailed<T>> for SealFault {
    ghost from_gives = { λ _ e. e ≡ NoMemory };

    fn from(_: AllocFailed<T>) -> SealFault {
        SealFault::NoMemory
    }
}
