//! What holds of the executors of every world that is reached. The functions do nothing: what each says
//! is its contract.

ghost use Rattle.one_server_laws.specs.HeldLaws.{OneTextIsSpelled, OneIsRead, WorldsAreOfExecutorMachines, MetAreToldApart, SavedIsHad, EachHasOneInWorlds, ChosenIsMadeInWorlds, CommittedIsChosenInWorlds, ExecutorsKeepChosenInWorlds};

/// The bytes of a record are the text of one saved state, if each tentative state in it is over just
/// the state before it. Whoever reads them gets that state.
///
/// No code calls it: it is for readers.
pub fn records_are_of_one_state()
    ensures one { OneTextIsSpelled }
    ensures read { OneIsRead }
{}

/// The executors and the ballots of each reached world are those of a reached machine of `custody_laws`. Each
/// state that the machine has met was committed or in the chain of an executor of one of the worlds so
/// far, by its state or by its record, and each of its rounds made one of these tentative states.
///
/// No code calls it: it is for readers.
pub fn worlds_are_of_executor_machines()
    ensures { WorldsAreOfExecutorMachines }
{}

/// If digests tell the texts of the states that were met apart, the states are distinguished, as
/// `run_laws` and `custody_laws` ask for it: only the first one has number 0, and each other has the token of
/// its parts.
///
/// No code calls it: it is for readers.
pub fn met_are_told_apart_in_worlds()
    ensures { MetAreToldApart }
{}

/// Each chosen Commit is of a state that an executor of one of the worlds so far made, by a round of the
/// state that the decrees before it stand for.
///
/// No code calls it: it is for readers.
pub fn chosen_is_made_in_worlds()
    ensures { ChosenIsMadeInWorlds }
{}

/// Each of the `2u + 1` executors, up, down or lost, has one saved state: what its state has while it is up,
/// and else what its record spells, or the first state if it never saved.
///
/// No code calls it: it is for readers.
pub fn each_executor_has_one_state_in_worlds()
    ensures saved { SavedIsHad }
    ensures one { EachHasOneInWorlds }
{}

/// What an executor has committed, up, down or lost, is the first state, or a state that was met and of
/// whose number and token a Commit is chosen.
///
/// No code calls it: it is for readers.
pub fn committed_is_chosen_in_worlds()
    ensures { CommittedIsChosenInWorlds }
{}

/// If the digests of the states that executors had, in any of the worlds so far, tell them apart, and
/// at most `u` executors are lost for good, another one has the state of the last chosen Commit in its
/// record, as its committed state or in its chain.
///
/// No code calls it: it is for readers.
pub fn executors_keep_in_worlds()
    ensures { ExecutorsKeepChosenInWorlds }
{}
