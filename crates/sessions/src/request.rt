ghost use Rattle.std.specs.Prelude.{◌≡◌, ◌≤◌, ◌↔◌, IsTrue};

use proto::Command;
use std::alloc::AllocError;

/// What a client asks. Clients are numbered from 1, and so are the requests of each.
#[derive(Drop)]
pub struct Request {
    pub client: u16,
    pub number: u64,
    pub command: Command,
    pub ghost is_client: { 1 ≤ client },
    pub ghost is_numbered: { 1 ≤ number },
}

impl Request {
    /// Whether it is the same as the other one. It takes no memory.
    pub fn is_same(&self, other: &Request) -> bool
        ensures { IsTrue result ↔ (self.now ≡ other.now) }
    {
        self.client == other.client
            && self.number == other.number
            && self.command.is_same(&other.command)
    }
}

impl Clone for Request {
    ghost is_clone = { λ request copy. copy ≡ request };

    fn clone(&self) -> Result<Request, AllocError> {
        Ok(Request {
            client: self.client,
            number: self.number,
            command: self.command.clone()?,
        })
    }
}
