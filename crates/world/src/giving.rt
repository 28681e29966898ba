//! An input is given to a node, and what that sends joins all letters.

use crate::sending::send;
use crate::world::World;
use client::Input as ClientInput;
use exec_lines::Input as ExecutorInput;
use slots::send_ballots;
use std::alloc::{AllocError, Global};
use verifier::Input as VerifierInput;

impl World {
    ghost use Rattle.std.specs.Prelude.{◌≡◌, OnOk, slice_get};
    ghost use Rattle.client.specs.declared.input.Input.TheVariants.{Feed};
    ghost use Rattle.worlds.specs.World.{ClientAtGiven, ClientGiven, ExecutorGiven, VerifierGiven};

    pub(crate) fn give_executor(
        &mut self,
        alloc: Global,
        id: u8,
        input: ExecutorInput,
    ) -> Result<(), AllocError>
        ensures { OnOk result (ExecutorGiven self.old id input self.new) }
    {
        let Some(slot) = self.executors.get_mut(usize::from(id)) else {
            input.spend();
            return Ok(());
        };
        let sent = slot.settle(alloc, input);
        send(sent, &mut self.letters)
    }

    pub(crate) fn give_verifier(
        &mut self,
        alloc: Global,
        id: u8,
        input: VerifierInput,
    ) -> Result<(), AllocError>
        ensures { OnOk result (VerifierGiven self.old id input self.new) }
    {
        let Some(slot) = self.verifiers.get_mut(usize::from(id)) else {
            return Ok(());
        };
        let sent = slot.settle(alloc, input);
        send_ballots(&sent, &mut self.letters)
    }

    /// Clients are numbered from 1.
    pub(crate) fn give_client(
        &mut self,
        alloc: Global,
        client: u16,
        input: ClientInput,
    ) -> Result<(), AllocError>
        ensures { OnOk result (ClientGiven self.old client input self.new) }
    {
        if client == 0 {
            return Ok(());
        }
        self.give_client_at(alloc, client - 1, input)
    }

    fn give_client_at(
        &mut self,
        alloc: Global,
        index: u16,
        input: ClientInput,
    ) -> Result<(), AllocError>
        ensures { OnOk result (ClientAtGiven self.old index input (slice_get self.old.clients index) self.new) }
    {
        let Some(client) = self.clients.get_mut(usize::from(index)) else {
            return Ok(());
        };
        let sent = client.settle(alloc, input)?;
        send(sent, &mut self.letters)
    }

    /// The client is fed a copy of the bytes.
    #[tactic(auto, using(crate::proofs::FedLemmas::fed_same))]
    pub(crate) fn feed(
        &mut self,
        alloc: Global,
        client: u16,
        bytes: &Vec<u8>,
    ) -> Result<(), AllocError>
        ensures { OnOk result (ClientGiven self.old client (Feed bytes.now) self.new) }
    {
        let copy = Vec::from_slice(alloc, bytes)?;
        self.give_client(alloc, client, ClientInput::Feed(copy))
    }
}
