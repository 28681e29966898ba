//! The state that is stored beside the text of a process.

ghost use Rattle.std.specs.Prelude.{◌≡◌, ◌<◌, IfOk};
ghost use Rattle.wire.specs.Record.{Reads};
ghost use Rattle.states.specs.State.{IsState};
ghost use Rattle.states.specs.StateRecord.{state_text};
ghost use Rattle.process_text.specs.StateOf.{IsStateOf, front_text};

use crate::process_text::ProcessText;
use pages::Pages;
use proto::Fault;
use states::{State, Version, states_are_told_apart};
use std::alloc::{AllocError, Global};
use wire::Record;

/// The state whose text all of the bytes are.
fn read_state(alloc: Global, bytes: &[u8]) -> Result<State, Fault>
    ensures { Reads IsState state_text bytes.now result }
{
    states_are_told_apart();
    let (state, rest) = State::take(alloc, Version::Second, bytes)?;
    if rest.is_empty() {
        Ok(state)
    } else {
        Err(Fault::BadRecord)
    }
}

impl ProcessText {
    /// The start of the text of the state: its head and its sessions. The items follow it, page by page. The only error is
    /// a failed allocation.
    pub fn front(&self, alloc: Global) -> Result<Vec<u8>, AllocError>
        ensures { IfOk result (λ front. front.items ≡ front_text self.now) }
    {
        let _sessions = self.sessions.entries();
        let mut front = Vec::new(alloc);
        self.head.put(&mut front)?;
        self.sessions.put(&mut front)?;
        Ok(front)
    }

    /// The state of this head and these sessions whose text all of the bytes are: what `front` gave, and the items.
    /// `BadRecord`: there is none, as if an item was changed, since the token is not the one that comes out. `NoMemory` is
    /// the only other error.
    pub fn state(&self, alloc: Global, bytes: &[u8]) -> Result<State, Fault>
        ensures { Reads (IsStateOf self.now) state_text bytes.now result }
    {
        let front = self.front(alloc)?;
        match bytes.strip_prefix(front.as_slice()) {
            Some(_) => read_state(alloc, bytes),
            None => Err(Fault::BadRecord),
        }
    }

    /// The state of this head and these sessions with the items of these pages. `BadRecord`: there is none, as if an item
    /// was changed, since the token is not the one that comes out. `NoMemory` is the only other error.
    pub fn state_with(&self, alloc: Global, pages: Pages) -> Result<State, Fault>
        ensures of { IfOk result (IsStateOf self.now) }
        ensures items { IfOk result (λ state. 0 < self.now.head.origin.number → state.items ≡ pages) }
    {
        self.head.state(alloc, self.sessions.clone()?, pages)
    }
}
