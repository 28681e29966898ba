//! The law of one order for all connections.

ghost use Rattle.service.specs.Process.{found_by, HoldsAfter};
ghost use Rattle.service_laws.specs.Orders.{IsLinearizableService};

use one_server_laws::{worlds_are_in_time, worlds_are_of_one_server};
use service::Service;

/// The history of all connections, here or gone, is linearizable, if digests tell the states of the executors apart.
/// All that they asked and were given so far is what one server does in one order of item steps. The commands of each
/// connection are in their order. A command whose bytes were heard after a reply was given comes later than what was
/// replied to. What they ask, and the texts of their replies, are those of the grammar that the service was opened with.
/// It holds of each service at any moment, whatever happened. Of one that was reopened it holds with all that was asked and
/// given before. The call does nothing.
pub fn service_is_linearizable(service: &Service)
    ensures { HoldsAfter (found_by service.now) IsLinearizableService service.now }
{
    service.shows();
    worlds_are_of_one_server();
    worlds_are_in_time();
}
