/// An executor or a verifier, by its number from 0 on.
#[derive(Clone, Copy)]
pub enum Replica {
    Executor(u8),
    Verifier(u8),
}

/// What may happen in a world. An event that names what is not there leaves all as it is; so does one
/// that names a replica that is not up, but for Restart and Lost.
#[derive(Drop)]
pub enum Event {
    /// These bytes come from the client of this number. Clients are numbered from 1.
    Feed { client: u16, bytes: Vec<u8> },
    /// The client asks again what it asked and was not answered yet.
    Again { client: u16 },
    /// The connection of the client is at its end.
    Hangup { client: u16 },
    /// The letter of this number comes to the node that it names. Letters are numbered from 1, in the
    /// order in which they were sent; each may come at any time, any number of times, or never.
    Deliver { letter: u64 },
    /// The executor is to cut a batch, at this moment, in seconds.
    Cut { executor: u8, moment: u32 },
    /// The executor makes the next step of the request at this place of the batch that it executes.
    Step { executor: u8, place: u32 },
    /// The executor comes to the end of a group.
    Finish { executor: u8 },
    /// The verifier suspects that the leader is lost.
    Suspect { verifier: u8 },
    /// The verifier may forget the decrees up to this place.
    Trim { verifier: u8, place: u64 },
    /// The replica stops; its keeper keeps the record.
    Crash(Replica),
    /// The replica, which is down, is opened with its keeper.
    Restart(Replica),
    /// The replica is lost for good, up or down, and its record with it.
    Lost(Replica),
    /// The next save of the replica, which is up, fails.
    FailSave(Replica),
}
