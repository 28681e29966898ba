//! Laws of one order of item steps. The functions do nothing: what each says is its contract.

ghost use Rattle.linear_laws.specs.Laws.{RoundIsOneList, RunIsOneList, ListGoesOn, AskedLaterIsLater, PlaysAreLinearizable, ReachedAreLinearizable, GetsMayOverlap};

use one_server_laws::worlds_are_in_time;

/// A round is one list of item steps, and so is a run, whose list goes on if the run does.
///
/// No code calls it: it is for readers.
pub fn rounds_are_one_list()
    ensures round { RoundIsOneList }
    ensures run { RunIsOneList }
    ensures on { ListGoesOn }
{}

/// A request that was not asked yet is behind all rounds of the run so far.
///
/// No code calls it: it is for readers.
pub fn asked_later_is_later()
    ensures { AskedLaterIsLater }
{}

/// A play that shows one server is linearizable.
///
/// No code calls it: it is for readers.
pub fn plays_are_linearizable()
    ensures { PlaysAreLinearizable }
{}

/// The worlds that events lead through are linearizable, also with orders that are made of batches. Each of these was cut
/// when its commands had been asked, and what is due at its moment is gone as it begins.
pub fn reached_are_linearizable()
    ensures { ReachedAreLinearizable }
{
    worlds_are_in_time();
}

/// A get of several keys is no one step: the mixer lets two of them and two sets run in one group, so that
/// each get sees another set of the two.
///
/// No code calls it: it is for readers.
pub fn gets_of_several_keys_may_overlap()
    ensures { GetsMayOverlap }
{}
