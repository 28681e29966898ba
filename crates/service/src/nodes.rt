//! The nodes that may have stopped.

ghost use Rattle.std.specs.Prelude.{◌≡◌, ◌<◌, ◌+◌, ◌*◌, IfOk, replicate};
ghost use Rattle.service.specs.Pause.{first_pause};
ghost use Rattle.service.specs.Ticks.{pause_after, is_opened, replica_at, NodeTicks};

use crate::pause::Pause;
use ensemble::Replica;
use housekeeping::{Patience, Seen};
use std::alloc::{AllocError, Global};

/// The pause of each node: executors first, then verifiers. And the patience with which they are asked what nobody waits for.
pub struct Nodes {
    members: u8,
    pauses: Vec<Pause>,
    /// Of the requests for which nobody waits: they were outstanding when the process before this one ended.
    pub gone: Patience,
    ghost few: { members < 8 },
}

impl Drop for Nodes {
    fn drop(self) {
        let Nodes {
            members: _,
            pauses: _,
            gone: _,
        } = self;
    }
}

/// A tick that finds a node up or down: whether it is to be opened now.
fn tick_one(pause: &mut Pause, is_up: bool) -> bool
    ensures after { pause.new ≡ pause_after is_up pause.old }
    ensures due { result ≡ is_opened is_up pause.old }
{
    if is_up {
        pause.find_up();
        false
    } else {
        pause.find_down()
    }
}

/// Of requests that were sent before the process began.
fn patience_of_gone() -> Patience {
    let begun = Seen { rests: 0, steps: 0 };
    let mut gone = Patience::new(begun);
    gone.ask_again(begun);
    gone
}

impl Nodes {
    /// `2u + 1` executors and as many verifiers, none of which has stopped yet.
    pub fn new(alloc: Global, u: u8) -> Result<Nodes, AllocError>
        requires { u < 4 }
        ensures members { IfOk result (λ nodes. nodes.members ≡ 2 * u + 1) }
        ensures pauses { IfOk result (λ nodes. nodes.pauses.items ≡ replicate (2 * (2 * u + 1)) first_pause) }
    {
        let members = 2 * u + 1;
        Ok(Nodes {
            members,
            pauses: vec![in alloc; Pause::new(); usize::from(2 * members)]?,
            gone: patience_of_gone(),
        })
    }

    /// How many executors there are, and as many verifiers.
    pub fn members(&self) -> u8 {
        self.members
    }

    /// How many nodes there are.
    pub fn count(&self) -> u8
        ensures { result ≡ 2 * self.now.members }
    {
        2 * self.members
    }

    /// The node of this index.
    pub fn replica(&self, at: u8) -> Replica
        ensures { result ≡ replica_at self.now.members at }
    {
        if at < self.members {
            Replica::Executor(at)
        } else {
            Replica::Verifier(at - self.members)
        }
    }

    /// A tick that finds the node of this index up or down: whether it is to be opened now.
    pub fn tick(&mut self, at: u8, is_up: bool) -> bool
        ensures ticks { NodeTicks at is_up self.old.pauses.items self.new.pauses.items result }
        ensures members { self.new.members ≡ self.old.members }
    {
        match self.pauses.get_mut(usize::from(at)) {
            Some(pause) => tick_one(pause, is_up),
            None => false,
        }
    }
}
