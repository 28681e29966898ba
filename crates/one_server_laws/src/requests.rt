//! What holds of requests and replies in every world that is reached. The functions do nothing: what each
//! says is its contract.

ghost use Rattle.one_server_laws.specs.AskedLaws.{ExecutedIsAsked, GivenIsReplied, AskedStaysAsked, BeginningIsReached};
ghost use Rattle.one_server_laws.specs.InTime.{ExecutedWasCut};

/// Each request of a batch that an executor executed, tentatively or not, was asked: the bytes that the
/// events so far fed to its client spell turns of which its command is the one asked at its number. The
/// moment of the batch is that of a cut.
pub fn executed_is_asked_in_worlds()
    ensures { ExecutedIsAsked }
{}

/// A batch that an executor executed was cut at its moment when each of its requests had been asked.
pub fn executed_was_cut_in_worlds()
    ensures { ExecutedWasCut }
{}

/// What a client was given are the texts of the first turns that its bytes spell, in order, each turn
/// once. The text of each request's turn is that of a reply that a letter carried to the client for the
/// request of this number.
pub fn given_is_replied_in_worlds()
    ensures { GivenIsReplied }
{}

/// The worlds up to one of them are reached by the events that come before it, so that each law of
/// reached worlds holds of them too. What these events ask is asked by all events.
///
/// No code calls it: it is for readers.
pub fn beginnings_are_reached()
    ensures reached { BeginningIsReached }
    ensures asked { AskedStaysAsked }
{}
