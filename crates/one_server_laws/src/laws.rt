//! What holds of every play. The functions do nothing: what each says is its contract.

ghost use Rattle.one_server_laws.specs.Laws.{WorldsAreOfOneServer, ExecutorsKeepTheRun};
ghost use Rattle.one_server_laws.specs.InTime.{WorldsAreInTime};

use crate::requests::{
    executed_is_asked_in_worlds, executed_was_cut_in_worlds, given_is_replied_in_worlds,
};

/// The worlds of a play have one run each, as `worlds_are_of_one_server` says. Besides, each round is of a batch that
/// was cut when its requests had been asked: the moment at which items are due is that of a cut that came later than
/// each command of the batch.
pub fn worlds_are_in_time()
    ensures { WorldsAreInTime }
{
    executed_was_cut_in_worlds();
    executed_is_asked_in_worlds();
    given_is_replied_in_worlds();
}

/// If digests tell the states that executors had in the worlds of a play apart, each of these worlds has
/// one run of a single server, and that of a later one begins with it: one round for each chosen Commit,
/// what executors have committed, up, down or lost, is the run's state of its number, requests are just
/// those that the fed bytes ask, none is answered twice, and what a client was given are the texts of the
/// first turns that its bytes spell, with the replies of the run.
pub fn worlds_are_of_one_server()
    ensures { WorldsAreOfOneServer }
{
    worlds_are_in_time();
}

/// If, besides, at most `u` executors are lost for good, the record of another one has the state that
/// the run ends with, as its committed state or in its chain.
pub fn executors_keep_the_run()
    ensures { ExecutorsKeepTheRun }
{}
