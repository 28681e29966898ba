//! What holds of a service when its process ends, and other processes begin with what was kept: laws.

ghost use Rattle.std.specs.Prelude.{◌≡◌, ◌∷◌, List, Option, Some, None};
ghost use Rattle.service.specs.declared.assignment.Outstanding.{Outstanding};
ghost use Rattle.service.specs.declared.pause.Pause.{Pause};
ghost use Rattle.service.specs.Service.{ServiceView};
ghost use Rattle.service.specs.Process.{IsWhole, KeptService, NobodyWaits, reopened_service, found_by, IsServiceAfter, IsProcess, AreSuccessive, AreReopened, next_found, services_after, services_with};

use crate::service::Service;
use ensemble::a_reopened_ensemble_follows;

/// What always holds of a service, at any moment: of all that was asked and given, also before its process began. The call
/// does nothing.
///
/// No code calls it: it is for readers.
pub fn a_service_is_a_process(service: &Service)
    ensures { IsProcess service.now }
{
    service.shows();
}

/// The service of a process that begins with what was found follows each service of which that was kept. It holds
/// whatever was found.
///
/// No code calls it: it is for readers.
pub fn a_reopened_service_follows()
    ensures { (found : KeptService) (waiting : List (Option Outstanding)) (pauses : List Pause) → NobodyWaits waiting
        → IsServiceAfter (Some found) (reopened_service found waiting pauses) }
{
    a_reopened_ensemble_follows();
}

/// What always holds of a service holds of all that was asked and given in processes one after the other, each of which
/// began with what was kept of the one before it.
pub fn services_follow_each_other()
    ensures { (v : ServiceView) (later : List ServiceView) → AreSuccessive None (v ∷ later) → IsWhole (services_after v later) }
{}

/// So it does if each was opened again with what was kept of the one before it, at a moment of that one, and so was a
/// service that is here. The call does nothing.
pub fn a_service_follows_others(service: &Service)
    ensures { (earlier : List ServiceView) → AreReopened None earlier → found_by service.now ≡ next_found None earlier
        → IsWhole (services_with earlier service.now) }
{
    service.shows();
}
