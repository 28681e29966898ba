//! The law.

ghost use Rattle.service.specs.Process.{found_by, HoldsAfter};
ghost use Rattle.service_laws.specs.Serving.{IsServing};

use one_server_laws::worlds_are_of_one_server;
use service::Service;

/// What a service was given and gave so far, from its first connection on, is what one server would have been given
/// and would have given: the replies to all connections, here or gone, are of one run, if digests tell the states
/// of the executors apart. It holds of each service at any moment, whatever happened. Of one that was reopened it holds
/// with all that was given before, from the first connection of the first process on. The call does nothing.
pub fn serves(service: &Service)
    ensures { HoldsAfter (found_by service.now) IsServing service.now }
{
    service.shows();
    worlds_are_of_one_server();
}
