//! The law of what replicas choose and keep.

ghost use Rattle.service.specs.Service.{HasEnsemble};
ghost use Rattle.service.specs.Process.{found_by, HoldsAfter};
ghost use Rattle.service_laws.specs.Replicas.{InEach, WholeIsKept, LastStateIsKept};
ghost use Rattle.world_laws.specs.Laws.{OneIsChosen, ChosenIsBacked, ChosenStands};

use one_server_laws::executors_keep_the_run;
use service::Service;
use world_laws::{
    chosen_is_backed_in_worlds, chosen_is_kept_in_worlds, chosen_stands_in_worlds,
    one_is_chosen_in_worlds,
};

/// The replicas of a service agree, and lose nothing that they decided, as those of `world::play` do. A world explains
/// what the service has, and in each world that does:
///
/// At each place at most one decree is chosen, and a chosen one is backed. While at most `u` of the service's verifiers
/// are lost for good, the record of another one holds each, or begins above it with what the chosen decrees up to there
/// stand for; if none was to forget decrees, it holds each.
///
/// If digests tell the states of the executors apart, and at most `u` of the service's executors are lost for good, the
/// record of another one has the state that the one run ends with.
///
/// It holds of each service at any moment, whatever happened. Of one that was reopened it holds with all that was asked and
/// answered before. The call does nothing.
pub fn replicas_agree_and_keep(service: &Service)
    ensures world { HoldsAfter (found_by service.now) HasEnsemble service.now }
    ensures agree { HoldsAfter (found_by service.now) (λ v. InEach v OneIsChosen) service.now }
    ensures backed { HoldsAfter (found_by service.now) (λ v. InEach v ChosenIsBacked) service.now }
    ensures kept { HoldsAfter (found_by service.now) (λ v. InEach v ChosenStands) service.now }
    ensures kept_whole { HoldsAfter (found_by service.now) WholeIsKept service.now }
    ensures executors_keep { HoldsAfter (found_by service.now) LastStateIsKept service.now }
{
    service.shows();
    one_is_chosen_in_worlds();
    chosen_is_backed_in_worlds();
    chosen_stands_in_worlds();
    chosen_is_kept_in_worlds();
    executors_keep_the_run();
}
