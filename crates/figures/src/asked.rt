//! What is kept of a command until its reply comes.

ghost use Rattle.std.specs.Prelude.{◌≡◌, length};
ghost use Rattle.figures.specs.Kind.{kind_of_asked};
ghost use Rattle.figures.specs.Asked.{counted_keys, found_of};

use crate::kind::Kind;
use proto::{Command, Reply};

/// What is kept of a command until its reply comes.
#[derive(Clone, Copy, Debug, PartialEq, Eq)]
pub struct Asked {
    pub kind: Kind,
    /// The keys of a command that shows items, and 0 of any other.
    pub keys: u64,
}

impl Asked {
    /// What is kept of this command.
    pub fn of(command: &Command) -> Asked
        ensures kind { result.kind ≡ kind_of_asked command.now }
        ensures keys { result.keys ≡ counted_keys command.now }
    {
        let keys = match command {
            Command::Get(keys) => keys.len(),
            Command::Gets(keys) => keys.len(),
            Command::Gat(_, keys) => keys.len(),
            Command::Gats(_, keys) => keys.len(),
            Command::Update(_) => 0,
        };
        Asked {
            kind: Kind::of(command),
            keys: keys as u64,
        }
    }
}

/// How many items a reply shows.
pub fn found_in(reply: &Reply) -> u64
    ensures { result ≡ found_of reply.now }
{
    match reply {
        Reply::Values(values) => values.len() as u64,
        _ => 0,
    }
}
