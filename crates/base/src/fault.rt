//! The refusals of all calls.

ghost use Rattle.std.specs.Prelude.{◌≡◌};
ghost use Rattle.base.specs.declared.fault.Fault.TheVariants.{NoMemory};

use std::alloc::{AllocError, AllocFailed};
use thiserror::Error;

/// Why a call was refused.
#[derive(Clone, Copy, Debug, PartialEq, Eq, Error)]
pub enum Fault {
    #[error("1 NoMemory")]
    NoMemory,
    #[error("2 Stopped")]
    Stopped,
    #[error("3 BadRecord")]
    BadRecord,
    #[error("4 Unfit")]
    Unfit,
    #[error("5 Full")]
    Full,
    #[error("6 BadSchedule")]
    BadSchedule,
    #[error("7 NotOpen")]
    NotOpen,
}

impl From<AllocError> for Fault {
    ghost from_gives = { λ _ e. e ≡ NoMemory };

    fn from(_e: AllocError) -> Fault {
        Fault::NoMemory
    }
}

impl<T: Drop> From<AllocFailed<T>> for Fault {
    ghost from_gives = { λ _ e. e ≡ NoMemory };

    fn from(_e: AllocFailed<T>) -> Fault {
        Fault::NoMemory
    }
}
