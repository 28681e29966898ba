//! A step of the world.

use crate::world::World;
use client::Input as ClientInput;
use events::Event;
use exec_lines::Input as ExecutorInput;
use std::alloc::{AllocError, Global};
use verifier::Input as VerifierInput;

impl World {
    ghost use Rattle.std.specs.Prelude.{◌≡◌, IfOk, OnOk};
    ghost use Rattle.worlds.specs.World.{WorldNext};

    fn advance(&mut self, alloc: Global, event: &Event) -> Result<(), AllocError>
        ensures { OnOk result (WorldNext self.old event.now self.new) }
    {
        match event {
            Event::Feed { client, bytes } => self.feed(alloc, *client, bytes)?,
            Event::Again { client } => self.give_client(alloc, *client, ClientInput::Again)?,
            Event::Hangup { client } => self.give_client(alloc, *client, ClientInput::Hangup)?,
            Event::Deliver { letter } => self.deliver(alloc, *letter)?,
            Event::Cut { executor, moment } => {
                self.give_executor(alloc, *executor, ExecutorInput::Cut(*moment))?
            }
            Event::Step { executor, place } => {
                self.give_executor(alloc, *executor, ExecutorInput::Step(*place))?
            }
            Event::Finish { executor } => {
                self.give_executor(alloc, *executor, ExecutorInput::Finish)?
            }
            Event::Suspect { verifier } => {
                self.give_verifier(alloc, *verifier, VerifierInput::Suspect)?
            }
            Event::Trim { verifier, place } => {
                let place = *place;
                self.give_verifier(alloc, *verifier, VerifierInput::Trim { place })?
            }
            Event::Crash(replica) => self.crash(*replica),
            Event::Restart(replica) => self.restart(alloc, *replica)?,
            Event::Lost(replica) => self.lose(*replica),
            Event::FailSave(replica) => self.fail_save(*replica),
        }
        Ok(())
    }

    /// The world after the event. A node that finds no memory stops, and the world goes on. The only error
    /// of this call is that the world itself finds none, for the copy of a letter or for its lists; then
    /// all nodes are ended.
    pub fn step(mut self, alloc: Global, event: &Event) -> Result<World, AllocError>
        ensures { IfOk result (λ now. WorldNext self event.now now) }
    {
        match self.advance(alloc, event) {
            Ok(()) => Ok(self),
            Err(error) => {
                self.end();
                Err(error)
            }
        }
    }
}
