ghost use Rattle.std.specs.Prelude.{◌≡◌};
ghost use Rattle.schedules.specs.declared.fault.ScheduleFault.TheVariants.{NoMemory};
ghost use Rattle.app.specs.declared.fault.PlayFault.TheVariants.{Refused};

use schedules::ScheduleFault;
use std::alloc::AllocError;

/// Why nothing is shown.
#[derive(Clone, Copy)]
pub enum PlayFault {
    /// What was read is no schedule, or memory ran out.
    Refused(ScheduleFault),
    /// A read failed.
    Read,
}

impl From<AllocError> for PlayFault {
    ghost from_gives = { λ _ e. e ≡ Refused NoMemory };

    fn from(_e: AllocError) -> PlayFault {
        PlayFault::Refused(ScheduleFault::NoMemory)
    }
}
