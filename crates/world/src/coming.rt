//! A letter comes to the node that it names.

use crate::copies::letter_copy;
use crate::world::World;
use client::Input as ClientInput;
use decrees::{Letter, Node};
use exec_lines::{Body, Input as ExecutorInput};
use std::alloc::{AllocError, Global};
use verifier::Input as VerifierInput;

impl World {
    ghost use Rattle.std.specs.Prelude.{◌≡◌, OnOk};
    ghost use Rattle.std.specs.Option.{option_map};
    ghost use Rattle.worlds.specs.World.{ClientReached, VerifierReached, NodeReached, letter_at, IsDelivered};

    /// Only replies are for clients.
    fn reach_client(&mut self, alloc: Global, client: u16, body: Body) -> Result<(), AllocError>
        ensures { OnOk result (ClientReached self.old client body self.new) }
    {
        match body {
            Body::Reply { number, reply } => {
                self.give_client(alloc, client, ClientInput::Reply { number, reply })
            }
            other => {
                drop(other);
                Ok(())
            }
        }
    }

    /// Only ballots are for verifiers.
    fn reach_verifier(
        &mut self,
        alloc: Global,
        id: u8,
        letter: Letter<Body>,
    ) -> Result<(), AllocError>
        ensures { OnOk result (VerifierReached self.old letter id letter.body self.new) }
    {
        let Letter { from, to, body } = letter;
        match body {
            Body::Ballot(body) => {
                self.give_verifier(alloc, id, VerifierInput::Letter(Letter { from, to, body }))
            }
            other => {
                drop(other);
                Ok(())
            }
        }
    }

    fn reach(&mut self, alloc: Global, letter: Letter<Body>) -> Result<(), AllocError>
        ensures { OnOk result (NodeReached self.old letter letter.to self.new) }
    {
        match letter.to {
            Node::Client(client) => self.reach_client(alloc, client, letter.body),
            Node::Executor(id) => self.give_executor(alloc, id, ExecutorInput::Letter(letter)),
            Node::Verifier(id) => self.reach_verifier(alloc, id, letter),
        }
    }

    fn letter(&self, number: u64) -> Option<&Letter<Body>>
        ensures { option_map (λ letter. letter.now) result ≡ letter_at self.now.letters number }
    {
        if number == 0 {
            return None;
        }
        self.letters.get((number - 1) as usize)
    }

    /// The letter stays, so that it may come again: what comes is a copy.
    pub(crate) fn deliver(&mut self, alloc: Global, number: u64) -> Result<(), AllocError>
        ensures { OnOk result (IsDelivered self.old (letter_at self.old.letters number) self.new) }
    {
        let Some(letter) = self.letter(number) else {
            return Ok(());
        };
        let copy = letter_copy(letter)?;
        self.reach(alloc, copy)
    }
}
