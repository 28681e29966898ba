ghost use Rattle.std.specs.Prelude.{◌≡◌};
ghost use Rattle.schedules.specs.declared.fault.ScheduleFault.TheVariants.{NoMemory};

use std::alloc::{AllocError, AllocFailed};
use thiserror::Error;

/// Why a schedule was refused. Its text begins with that of the `Fault` of the same name.
#[derive(Clone, Copy, Debug, PartialEq, Eq, Error)]
pub enum ScheduleFault {
    #[error("1 NoMemory")]
    NoMemory,
    /// The line of this number, counted from 1, is the first one that is not allowed at its place;
    /// or it is missing.
    #[error("6 BadSchedule line {line}")]
    BadSchedule { line: u64 },
}

impl From<AllocError> for ScheduleFault {
    ghost from_gives = { λ _ e. e ≡ NoMemory };

    fn from(_e: AllocError) -> ScheduleFault {
        ScheduleFault::NoMemory
    }
}

impl<T: Drop> From<AllocFailed<T>> for ScheduleFault {
    ghost from_gives = { λ _ e. e ≡ NoMemory };

    fn from(_e: AllocFailed<T>) -> ScheduleFault {
        ScheduleFault::NoMemory
    }
}
