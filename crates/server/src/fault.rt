ghost use Rattle.std.specs.Prelude.{◌≡◌};
ghost use Rattle.base.specs.declared.fault.Fault.TheVariants.{NoMemory};
ghost use Rattle.server.specs.declared.fault.ServeFault.TheVariants.{Own};

use proto::Fault;
use std::alloc::{AllocError, AllocFailed};
use thiserror::Error;

/// Why a server did not start.
#[derive(Debug, Drop, Error)]
pub enum ServeFault {
    /// A refusal of its own.
    #[error("{0}")]
    Own(Fault),
    /// A thread could not be started, or the listener has no address.
    #[error("cannot start")]
    Start,
}

impl<T: Drop> From<AllocFailed<T>> for ServeFault {
    ghost from_gives = { λ _ e. e ≡ Own NoMemory };

    fn from(_e: AllocFailed<T>) -> ServeFault {
        ServeFault::Own(Fault::NoMemory)
    }
}

impl From<AllocError> for ServeFault {
    ghost from_gives = { λ _ e. e ≡ Own NoMemory };

    fn from(_e: AllocError) -> ServeFault {
        ServeFault::Own(Fault::NoMemory)
    }
}

impl From<Fault> for ServeFault {
    ghost from_gives = { λ fault e. e ≡ Own fault };

    fn from(fault: Fault) -> ServeFault {
        ServeFault::Own(fault)
    }
}
