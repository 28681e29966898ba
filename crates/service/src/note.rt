//! What is counted of a command.

ghost use Rattle.std.specs.Prelude.{◌≡◌};

use connections::ConnectionId;
use figures::Asked;

/// A connection whose command waits for a proxy.
#[derive(Clone, Copy)]
pub struct Waiting {
    pub at: ConnectionId,
    /// When it began to wait, in microseconds of the caller's clock.
    pub since: u64,
}

/// What is counted of a command once its reply is there. No decision rests on it.
#[derive(Clone, Copy)]
pub struct Note {
    /// None: the command was not taken.
    pub asked: Option<Asked>,
    /// How long it waited for a proxy, in microseconds.
    pub waited: u64,
}

impl Note {
    /// Of a command that waited so long.
    pub fn new(waited: u64) -> Note
        ensures waited { result.waited ≡ waited }
    {
        Note {
            asked: None,
            waited,
        }
    }
}
