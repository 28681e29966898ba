//! What holds of every world that is reached. The functions do nothing: what each says is its
//! contract.

ghost use Rattle.world_laws.specs.Laws.{WorldsAreOfMachines, OneIsChosenInWorlds, ChosenIsBackedInWorlds, ChosenStandsInWorlds, ChosenIsKeptInWorlds, ListIsChosenInWorlds, ListGrowsInWorlds};

/// The verifiers and the ballots of each reached world are those of a reached machine of `agreement_laws`,
/// and the machine of the next world comes of it by more events. So each of its laws holds of worlds.
///
/// No code calls it: it is for readers.
pub fn worlds_are_of_machines()
    ensures { WorldsAreOfMachines }
{}

/// In each reached world at most one decree is chosen at a place.
pub fn one_is_chosen_in_worlds()
    ensures { OneIsChosenInWorlds }
{}

/// In each reached world a chosen decree is backed: decrees are chosen at all places before it, and
/// if it is a Commit, more than `u` executors have sent its token for the next number, in the epoch
/// and over the token that those decrees stand for.
pub fn chosen_is_backed_in_worlds()
    ensures { ChosenIsBackedInWorlds }
{}

/// If at most `u` verifiers are lost for good, the record of another one holds each chosen decree, in
/// its log or as what it has accepted, or begins above it with what the chosen decrees up to there stand for.
pub fn chosen_stands_in_worlds()
    ensures { ChosenStandsInWorlds }
{}

/// If no verifier was to forget decrees, and at most `u` verifiers are lost for good, the record
/// of another one holds each chosen decree, in its log or as what it has accepted.
pub fn chosen_is_kept_in_worlds()
    ensures { ChosenIsKeptInWorlds }
{}

/// The list of decrees that is computed from the letters of a reached world has, at each place, the
/// decree that is chosen there, and no other; and that of the next world begins with it.
///
/// No code calls it: it is for readers.
pub fn chosen_list_only_grows_in_worlds()
    ensures chosen { ListIsChosenInWorlds }
    ensures grows { ListGrowsInWorlds }
{}
