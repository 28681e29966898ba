//! What a client's part of the server keeps.

ghost use Rattle.std.specs.Prelude.{◌≡◌};

use crate::asked::Asked;
use crate::turns::Turns;
use proto::Reader;
use std::alloc::Global;

/// What a client's part of the server keeps.
pub struct Talk {
    pub reader: Reader,
    /// What was read and not taken yet.
    pub waiting: Turns,
    /// The number of the last request.
    pub last: u64,
    pub outstanding: Option<Asked>,
    /// Whether a Close was taken, or the client hung up.
    pub closed: bool,
}

impl Drop for Talk {
    fn drop(self) {
        let Talk {
            reader: _,
            waiting: _,
            last: _,
            outstanding: _,
            closed: _,
        } = self;
    }
}

impl Talk {
    ghost use Rattle.client.specs.Talk.{new_talk};

    /// Of a client of which nothing came yet.
    pub(crate) fn new(alloc: Global) -> Talk
        ensures { result ≡ new_talk }
    {
        Talk {
            reader: Reader::new(alloc),
            waiting: Turns::new(alloc),
            last: 0,
            outstanding: None,
            closed: false,
        }
    }
}
