//! The laws of one order for processes one after the other.

ghost use Rattle.std.specs.Prelude.{◌≡◌, ◌∷◌, List, None};
ghost use Rattle.service.specs.Service.{ServiceView};
ghost use Rattle.service.specs.Process.{AreSuccessive, AreReopened, found_by, next_found, services_after, services_with};
ghost use Rattle.service_laws.specs.Orders.{IsLinearizableService};

use one_server_laws::{worlds_are_in_time, worlds_are_of_one_server};
use service::{Service, a_service_follows_others, services_follow_each_other};

/// What all connections asked and were given in processes one after the other is linearizable as one history, if digests
/// tell the states of the executors apart. Each process but the first began with what was kept of the one before it; its
/// view is that of the moment of which that was kept. A command that had no reply then may or may not have happened.
///
/// No code calls it: it is for readers.
pub fn processes_are_linearizable()
    ensures { (v : ServiceView) (later : List ServiceView) → AreSuccessive None (v ∷ later) → IsLinearizableService (services_after v later) }
{
    services_follow_each_other();
    worlds_are_of_one_server();
    worlds_are_in_time();
}

/// The same of a service that is here, and of those of the processes before it: what all connections asked and were given,
/// then and now, is linearizable as one history. The first process was opened with nothing, and each later one with what
/// was kept of the one before it at some moment. Nothing else is needed: that each of them is a process is what
/// `service::a_service_is_a_process` says of every service at every moment. The call does nothing.
pub fn service_goes_on(service: &Service)
    ensures { (earlier : List ServiceView) → AreReopened None earlier → found_by service.now ≡ next_found None earlier
        → IsLinearizableService (services_with earlier service.now) }
{
    a_service_follows_others(service);
    worlds_are_of_one_server();
    worlds_are_in_time();
}
